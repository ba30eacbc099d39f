ghost use Rattle.std.specs.Prelude.{◌≡◌, OnOk};

use crate::manager::ConnectionManager;
use crate::request::HeldRequest;
use containers::Queue;
use driver_model::Outcome;
use manager_generations::Phase;
use redis_error::RedisError;
use std::alloc::{AllocError, Global};

impl ConnectionManager {
    ghost use Rattle.conn_manager.specs.Manager.{failed_each, held_failed, failure_answered, loss_answered, standing};

    /// Each of these requests is answered with this error.
    fn fail_each(
        &mut self,
        alloc: Global,
        error: &RedisError,
        requests: Queue<HeldRequest>,
    ) -> Result<(), AllocError>
        ensures done { OnOk result (self.new ≡ failed_each self.old error.now requests) }
        ensures stands { standing self.new ≡ standing self.old }
    {
        let mut rest = requests;
        while let Some(request) = rest.pop_front() {
            let copy = error.clone(alloc)?;
            self.answer(alloc, request.number, Outcome::Fault(copy))?;
        }
        Ok(())
    }

    /// Those that wait for their generation are answered with this error.
    fn fail_held(&mut self, alloc: Global, error: &RedisError) -> Result<(), AllocError>
        ensures done { OnOk result (self.new ≡ held_failed self.old error.now) }
        ensures stands { standing self.new ≡ standing self.old }
    {
        let held = std::mem::replace(&mut self.held, Queue::new(alloc));
        self.fresh = Queue::new(alloc);
        self.fail_each(alloc, error, held)
    }

    /// Where the generation has failed, those that wait for it are answered with its error.
    pub(crate) fn answer_failure(&mut self, alloc: Global) -> Result<(), AllocError>
        ensures done { OnOk result (self.new ≡ failure_answered self.old) }
        ensures stands { standing self.new ≡ standing self.old }
    {
        match &self.generations.phase {
            Phase::Failed { error } => {
                let copy = error.clone(alloc)?;
                let failed = self.fail_held(alloc, &copy);
                drop(copy);
                failed
            }
            Phase::Idle => Ok(()),
            Phase::Opening => Ok(()),
            Phase::Resting => Ok(()),
            Phase::Resubscribing => Ok(()),
            Phase::Ready => Ok(()),
            Phase::Lost => Ok(()),
        }
    }

    /// Where its link ended before they were handed to it, they are answered with the closed connection.
    pub(crate) fn answer_loss(&mut self, alloc: Global) -> Result<(), AllocError>
        ensures done { OnOk result (self.new ≡ loss_answered self.old) }
        ensures stands { standing self.new ≡ standing self.old }
    {
        match &self.generations.phase {
            Phase::Lost => self.fail_held(alloc, &RedisError::Closed),
            Phase::Idle => Ok(()),
            Phase::Opening => Ok(()),
            Phase::Resting => Ok(()),
            Phase::Resubscribing => Ok(()),
            Phase::Ready => Ok(()),
            Phase::Failed { error: _ } => Ok(()),
        }
    }
}
