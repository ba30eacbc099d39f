ghost use Rattle.std.specs.Prelude.{◌≡◌, map, IfOk};

use crate::bytes::Bytes;
use crate::seq::Seq;
use std::alloc::{AllocError, Global};

/// Byte strings in order: arguments, channels, keys. Contracts see the list of them.
pub type Names = Seq<Bytes>;

impl Names {
    /// A copy of each of these byte strings, in their order.
    pub fn from_slices(alloc: Global, slices: &[&[u8]]) -> Result<Names, AllocError>
        ensures { IfOk result (λ n. n ≡ map (λ s. s.now) slices.entry.now) }
    {
        let mut names = Names::new(alloc);
        for slice in slices {
            let copy = Bytes::from_slice(alloc, slice)?;
            names.push(copy)?;
        }
        Ok(names)
    }
}
