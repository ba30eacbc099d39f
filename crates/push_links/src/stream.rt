ghost use Rattle.std.specs.Prelude.{◌≡◌, [], IfSome};
ghost use Rattle.futures.specs.Poll.{IfReady, OnPending};
ghost use Rattle.futures.specs.Runs.{After, Within};
ghost use Rattle.futures.specs.Task.{Covers, Keeps};
ghost use Rattle.push_links.specs.Held.{Gives, IsItself, IsPolled};

use crate::held::{Held, Next};
use driver_model::Msg;
use futures::Stream;
use futures::task::{Context, Poll};
use std::alloc::{AllocError, Global};

/// The messages of a link of publish/subscribe, in the order in which they came. It gives an item where it holds one, ends exactly
/// where it is empty and its link has ended, and else yields.
#[derive(Drop)]
pub struct PubSubStream {
    pub held: Held<Msg>,
}

impl PubSubStream {
    ghost use Rattle.std.specs.Prelude.{◌≡◌, [], false, OnOk, OnErr};
    ghost use Rattle.push_links.specs.Held.{put, finished};

    /// An empty one, of a link that goes on. Takes no memory.
    pub(crate) fn new(alloc: Global) -> PubSubStream
        ensures { result.held ≡ record { items = []; ended = false } }
    {
        PubSubStream {
            held: Held::new(alloc),
        }
    }

    /// A message that the sink's step told comes behind those that it holds. After an error it is as it was.
    pub fn put(&mut self, message: Msg) -> Result<(), AllocError>
        ensures ok { OnOk result (self.new.held ≡ put self.old.held message) }
        ensures err { OnErr result (self.new.held ≡ self.old.held) }
    {
        self.held.put(message)
    }

    /// Its link has ended. Takes no memory.
    pub fn finish(&mut self)
        ensures { self.new.held ≡ finished self.old.held }
    {
        self.held.finish();
    }
}

impl Stream for PubSubStream {
    type Item = Msg;

    ghost yields = { λ s given last. Gives IsItself s.held given last };

    fn poll_next(&mut self, cx: &mut Context<'_>) -> Poll<Option<Msg>>
        ensures polled { IsPolled IsItself self.old.held result self.new.held }
        ensures value { IfReady result (Gives IsItself self.old.held []) }
        ensures rest { IfReady result
            (λ o. IfSome o (λ x. After (Gives IsItself self.old.held) x (Gives IsItself self.new.held))) }
        ensures same { OnPending result (Within (Gives IsItself self.old.held) (Gives IsItself self.new.held)) }
        ensures registered { OnPending result (Covers cx.new (λ _. ⊥)) }
        ensures kept { Keeps cx.old cx.new }
    {
        match self.held.next() {
            Next::Item(message) => Poll::Ready(Some(message)),
            Next::End => Poll::Ready(None),
            Next::Nothing => cx.yield_now(),
        }
    }
}
