use containers::Bytes;
use driver_model::Shape;
use std::alloc::{AllocError, Global};

/// The number of a request of one connection.
#[derive(Clone, Copy, PartialEq, Eq)]
pub struct Pending {
    pub number: u32,
}

/// How far a request has come.
#[derive(Clone, Copy, PartialEq, Eq)]
pub enum Progress {
    /// It waits for its connection, or for a permit of it.
    Waiting,
    /// Its round has begun, and it waits for a permit.
    Begun,
    /// It may take a place in the queue, and has none yet.
    Admitted,
    /// It has its place, or is started.
    Placed,
    /// It is answered, or its caller has gone.
    Closed,
}

/// A request: the name that its maker gave it, how far it has come, and how many permits it holds.
#[derive(Clone, Copy, PartialEq, Eq)]
pub struct Request {
    pub name: u32,
    pub progress: Progress,
    pub permits: u32,
}

/// A request that has no place in the queue yet.
#[derive(Drop)]
pub struct Waiting {
    pub number: u32,
    pub packed: Bytes,
    pub shape: Shape,
    /// Whether its reply is awaited.
    pub awaited: bool,
    /// Within how many milliseconds from then on it is to be answered, if within any.
    pub timeout: Option<u64>,
}

impl Waiting {
    ghost use Rattle.std.specs.Prelude.{◌≡◌, IfOk};

    /// An equal value of its own.
    pub fn clone(&self, alloc: Global) -> Result<Waiting, AllocError>
        ensures { IfOk result (λ w. w ≡ self.now) }
    {
        let packed = self.packed.clone(alloc)?;
        Ok(Waiting {
            number: self.number,
            packed,
            shape: self.shape,
            awaited: self.awaited,
            timeout: self.timeout,
        })
    }
}
