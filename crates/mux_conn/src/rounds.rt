ghost use Rattle.std.specs.Prelude.{◌≡◌, length, OnOk};

use crate::act::{LinkAct, show};
use crate::connection::MultiplexedConnection;
use crate::request::Progress;
use std::alloc::AllocError;

impl MultiplexedConnection {
    ghost use Rattle.mux_conn.specs.Connection.{work_with};
    ghost use Rattle.mux_conn.specs.Passes.{round_begun, rounds_of, rounds_begun};

    /// The round of a request begins, where rounds are shown and it waits without one.
    pub(crate) fn begin_round(
        &mut self,
        number: u32,
        out: &mut Vec<LinkAct>,
    ) -> Result<(), AllocError>
        ensures work { OnOk result (
            work_with self.new out.new.items
            ≡ round_begun (work_with self.old out.old.items) number
            ) }
        ensures count { length self.new.requests ≡ length self.old.requests }
        ensures failure { self.new.failure ≡ self.old.failure }
    {
        if !self.rounds || !self.is_unbegun(number) {
            return Ok(());
        }
        let request = self.name(u64::from(number));
        self.set_progress(number, Progress::Begun);
        show(out, LinkAct::Round { request })?;
        Ok(())
    }

    /// Where rounds are shown, on a link that takes requests, those of all that still wait begin.
    pub(crate) fn begin_rounds(&mut self, out: &mut Vec<LinkAct>) -> Result<(), AllocError>
        ensures work { OnOk result (
            work_with self.new out.new.items
            ≡ rounds_begun (work_with self.old out.old.items)
            ) }
        ensures count { length self.new.requests ≡ length self.old.requests }
        ensures failure { self.new.failure ≡ self.old.failure }
    {
        if !self.rounds || !self.is_serving() {
            return Ok(());
        }
        self.begin_each(out)?;
        Ok(())
    }

    /// The rounds of all begin whose waits are to be shown, where they wait.
    fn begin_each(&mut self, out: &mut Vec<LinkAct>) -> Result<(), AllocError>
        ensures work { OnOk result (
            work_with self.new out.new.items
            ≡ rounds_of (work_with self.old out.old.items) self.old.fresh
            ) }
        ensures count { length self.new.requests ≡ length self.old.requests }
        ensures failure { self.new.failure ≡ self.old.failure }
    {
        let len = self.fresh.len();
        for index in 0..len {
            let number = *self.fresh.at(index);
            self.begin_round(number, out)?;
        }
        Ok(())
    }
}
