ghost use Rattle.std.specs.Prelude.{◌≡◌, ◌++◌, OnOk, IfErr};
ghost use Rattle.single_session.specs.Replay.{trace_of, AreGood, AreUnspent, IsSound};
ghost use Rattle.shared_session.specs.Stops.{Stops};

use crate::errors::{MakeError, ReplayError, StepError};
use crate::session::Session;
use driver_model::{Action, Config, Event};
use std::alloc::Global;

impl Session {
    /// Runs a whole history, and appends the actions of its turns. After an error the finished turns are kept.
    pub fn replay(
        alloc: Global,
        config: Config,
        word: u64,
        events: &[Event],
        actions: &mut Vec<Action>,
    ) -> Result<(), ReplayError>
        ensures actions { OnOk result (
            actions.new.items ≡ actions.old.items ++ trace_of config word events.now
            ) }
        ensures sound { OnOk result (IsSound config) }
        ensures good { OnOk result (AreGood config word events.now) }
        ensures unspent { OnOk result (AreUnspent config word events.now) }
        ensures stops { IfErr result (λ e.
            Stops e config word events.now actions.old.items actions.new.items
            ) }
    {
        let mut session = match Session::new(alloc, config, word, actions) {
            Ok(session) => session,
            Err(MakeError::Config { name }) => return Err(ReplayError::Config { name }),
            Err(MakeError::NoMemory) => return Err(ReplayError::NoMemory),
        };
        for event in events {
            let event = match event.clone(alloc) {
                Ok(event) => event,
                Err(_) => return Err(ReplayError::NoMemory),
            };
            match session.step(alloc, event, actions) {
                Ok(()) => {}
                Err(StepError::BadEvent) => {
                    let index = session.events_taken();
                    return Err(ReplayError::BadEvent { index });
                }
                Err(StepError::Spent { events }) => return Err(ReplayError::Spent { events }),
                Err(StepError::NoMemory) => return Err(ReplayError::NoMemory),
            }
        }
        Ok(())
    }
}
