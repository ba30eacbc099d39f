ghost use Rattle.std.specs.Prelude.{◌≡◌, ◌≢◌, Some, None, true, false};
ghost use Rattle.driver_model.specs.declared.config.Config.TheVariants.{Manager};
ghost use Rattle.driver_model.specs.Config.{no_words, no_manager_words, manager_settings};
ghost use Rattle.manager_config.specs.Config.{default_manager};
ghost use Rattle.mux_client.specs.Managers.{managed_of};
ghost use Rattle.mux_client.specs.Asked.{plain, nameless, bare, quick, changed};
ghost use Rattle.mux_client.specs.Asked.{changed_connection, changed_manager};

/// Does nothing. Its contract: the words of sessions at one address, over managers of which no setting, two settings and every
/// setting aren't the default.
pub fn sessions_are_asked_with_these_words()
    ensures default { managed_of false plain default_manager ≡ Manager false bare no_words no_manager_words }
    ensures lazy { managed_of true plain default_manager ≡ Manager true bare no_words no_manager_words }
    ensures two { managed_of false plain quick
        ≡ Manager false bare no_words (record no_manager_words { min = Some 5; resub = Some true }) }
    ensures every { managed_of true nameless changed
        ≡ Manager true (record bare { lib = Some false }) changed_connection changed_manager }
    ensures no_default { managed_of false plain default_manager
        ≢ Manager false bare no_words (record no_manager_words { min = Some 100 }) }
{}

/// Does nothing. Its contract: how managers behave by these words, and that they don't behave so where one word is left out or
/// two are exchanged.
pub fn managers_behave_so_by_their_words()
    ensures default { manager_settings no_words no_manager_words ≡ default_manager }
    ensures every { manager_settings changed_connection changed_manager ≡ changed }
    ensures left_out { manager_settings changed_connection (record changed_manager { max = None }) ≢ changed }
    ensures exchanged { manager_settings
        (record changed_connection { connect = changed_connection.response; response = changed_connection.connect })
        changed_manager
        ≢ changed }
{}
