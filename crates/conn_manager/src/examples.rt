ghost use Rattle.std.specs.Prelude.{◌≡◌};
ghost use Rattle.connection_info.specs.declared.protocol.ProtocolVersion.TheVariants.{RESP2, RESP3};
ghost use Rattle.conn_manager.specs.Calls.{eager, lazy};
ghost use Rattle.conn_manager.specs.Runs.{run_of};
ghost use Rattle.conn_manager.specs.Rows.{told, trying, lazy_steps, lazy_shows, refused_steps, refused_shows};
ghost use Rattle.conn_manager.specs.Rows.{subscribing, subscribing_steps, subscribing_shows};

/// Does nothing. Its contract: what three managers show, turn by turn.
pub fn these_runs_show_this()
    ensures lazily { run_of (lazy (told RESP2) (trying 0)) lazy_steps ≡ lazy_shows }
    ensures refusals { run_of (eager (told RESP2) (trying 1)) refused_steps ≡ refused_shows }
    ensures again { run_of (eager (told RESP3) subscribing) subscribing_steps ≡ subscribing_shows }
{}
