ghost use Rattle.std.specs.Prelude.{◌≡◌, List, Option, IfOk};
ghost use Rattle.credentials.specs.Stream.{Gave, Told};

use crate::basic_auth::BasicAuth;
use containers::Bytes;
use std::alloc::AllocError;

/// What a source of credentials answers when it is asked for its next item.
#[derive(Drop)]
pub enum CredsItem {
    /// New credentials.
    Item(BasicAuth),
    /// New credentials could not be had. Others may follow.
    Error { text: Bytes },
    /// No more come.
    End,
    /// Memory was refused. What was to come still comes.
    NoMemory,
}

/// Where credentials come from, one after another. A source tells what is still to come, or tells nothing.
///
/// No call here uses one: whoever steps a session asks it, and hands in each item as an event.
pub trait CredsSource {
    // What is still to come, where it tells.
    ghost left: { Self → Option (List Told) };

    /// The next item, or the end.
    fn next(&mut self) -> CredsItem
        ensures { Gave (left self.old) (left self.new) result };
}

/// Who makes sources of credentials: one for the setup of a connection, and one for its renewals. No call here uses it.
pub trait StreamingCredentialsProvider {
    type Source: CredsSource;

    // What is to come of a new source, where that is told.
    ghost coming: { Self → Option (List Told) };

    /// A source of its own. Only want of memory is refused.
    fn subscribe(&mut self) -> Result<Self::Source, AllocError>
        ensures { IfOk result (λ source. Self.Source.left source ≡ coming self.old) };
}
