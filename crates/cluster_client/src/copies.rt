ghost use Rattle.std.specs.Prelude.{◌≡◌, IfOk};

use connection_info::ConnectionInfo;
use containers::{Bytes, Seq};
use std::alloc::{AllocError, Global};

/// A copy of a text, if there is one.
pub(crate) fn copy_text(alloc: Global, text: &Option<Bytes>) -> Result<Option<Bytes>, AllocError>
    ensures { IfOk result (λ copy. copy ≡ text.now) }
{
    match text {
        Some(text) => Ok(Some(text.clone(alloc)?)),
        None => Ok(None),
    }
}

/// A copy of each of these addresses, in their order.
pub(crate) fn copy_nodes(
    alloc: Global,
    nodes: &[ConnectionInfo],
) -> Result<Seq<ConnectionInfo>, AllocError>
    ensures { IfOk result (λ copies. copies ≡ nodes.now) }
{
    let mut copies = Seq::new(alloc);
    for node in nodes {
        let copy = node.clone(alloc)?;
        copies.push(copy)?;
    }
    Ok(copies)
}
