ghost use Rattle.std.specs.Prelude.{◌≡◌, length, IfOk};

use std::alloc::{AllocError, Global};

/// How many bytes a read gives at most.
pub(crate) const ROOM: usize = 65_536;

/// Where bytes are read into.
pub(crate) fn new_room(alloc: Global) -> Result<Vec<u8>, AllocError>
    ensures { IfOk result (λ room. length room.items ≡ ROOM) }
{
    vec![in alloc; 0u8; ROOM]
}
