ghost use Rattle.std.specs.Prelude.{◌≡◌, ◌<◌, ◌^◌, length, OnOk, IfOk};

use crate::connection::MultiplexedConnection;
use crate::request::{Pending, Progress, Request, Waiting};
use containers::Bytes;
use driver_model::Shape;
use std::alloc::AllocError;

impl MultiplexedConnection {
    ghost use Rattle.mux_conn.specs.Internal.{asked_inside};

    /// A request of that name which the driver itself makes, on a link that is set up: it needs no permit, and waits for a
    /// place behind all that do. Its message has these bytes, which aren't none. The next `step` or `advance` moves it. No
    /// timer is asked for it.
    pub fn ask_inside(
        &mut self,
        name: u32,
        packed: Bytes,
        shape: Shape,
    ) -> Result<Pending, AllocError>
        requires { length self.old.requests < 2 ^ 32 }
        ensures conn { OnOk result (self.new ≡ asked_inside self.old name packed shape) }
        ensures number { IfOk result (λ p. p.number ≡ length self.old.requests) }
    {
        let number = self.requests.len() as u32;
        self.requests.push(Request {
            name,
            progress: Progress::Admitted,
            permits: 0,
        })?;
        self.admitted.push_back(Waiting {
            number,
            packed,
            shape,
            awaited: true,
            timeout: None,
        })?;
        self.moved.push_back(number)?;
        Ok(Pending { number })
    }
}
