ghost use Rattle.std.specs.Prelude.{None};
ghost use Rattle.conn_manager.specs.Calls as calls;
ghost use Rattle.conn_manager.specs.Fitting as fitting;
ghost use Rattle.conn_manager.specs.LikeLaws as laws;
ghost use Rattle.conn_manager.specs.Spending as spending;
ghost use Rattle.conn_manager.specs.Turn as turn;

use crate::manager::ConnectionManager;
use driver_model::{LinkNews, Outcome};
use manager_generations::ManagerAct;
use mux_client::{ConnectionEvent, ConnectionLike, ConnectionNews, SendError};
use mux_conn::{ConnectionError, Pending};
use resp_write::{Cmd, Pipeline};
use std::alloc::Global;

impl ConnectionLike for ConnectionManager {
    type Act = ManagerAct;

    ghost next_number = { calls.next_number };

    ghost sent = { λ m packed shape awaited. calls.sent m packed shape awaited None };

    ghost Refuses = { λ m packed shape awaited e. calls.RefusesSend m (calls.sent m packed shape awaited None) packed e };

    ghost cancelled = { calls.cancelled };

    ghost outcome_of = { calls.outcome_of };

    ghost database = { λ m. m.info.db };

    ghost Fits = { fitting.IsFitting };

    ghost behind = { turn.stepped };

    ghost shown_by = { λ m draw what. (turn.turned (turn.started m) draw what).generations.acts };

    ghost Spends = { λ m draw what. spending.Spends (turn.started m) draw what };

    ghost failure_of = { λ m. m.failure };

    ghost rises = { λ m packed shape awaited. laws.numbers_rise m packed shape awaited None };

    ghost keeps = { λ m packed shape awaited p before. laws.sends_keep m packed shape awaited None p before };

    ghost empty = { λ m packed shape awaited e why. why };

    ghost leaves = { laws.cancels_keep };

    ghost numbered = { laws.cancels_count };

    fn req_packed_command(&mut self, alloc: Global, command: &Cmd) -> Result<Pending, SendError> {
        self.send_packed_command(alloc, command)
    }

    fn req_packed_commands(
        &mut self,
        alloc: Global,
        pipeline: &Pipeline,
        offset: u32,
        count: u32,
    ) -> Result<Pending, SendError> {
        self.send_packed_commands(alloc, pipeline, offset, count)
    }

    fn get_db(&self) -> i64 {
        ConnectionManager::get_db(self)
    }

    fn step(
        &mut self,
        alloc: Global,
        event: ConnectionEvent<'_>,
        out: &mut Vec<ManagerAct>,
    ) -> Result<(), ConnectionError> {
        ConnectionManager::step(self, alloc, event, out)
    }

    fn can_hear(&self, news: ConnectionNews<'_>) -> bool {
        match news {
            ConnectionNews::Link {
                link,
                news: LinkNews::Took { count },
            } => self.can_take(link, count),
            _ => true,
        }
    }

    fn poll(&self, request: &Pending) -> Option<&Outcome> {
        ConnectionManager::poll(self, request)
    }

    fn cancel(&mut self, request: Pending) {
        ConnectionManager::cancel(self, request);
    }
}
