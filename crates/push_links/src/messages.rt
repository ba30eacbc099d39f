ghost use Rattle.std.specs.Prelude.{◌≡◌, ◌⊎◌, ◌++◌, [], Some, true, OnOk, OnErr, IfSome, IsErrOf};
ghost use Rattle.futures.specs.Poll.{IfReady, OnPending};
ghost use Rattle.futures.specs.Runs.{After, Within};
ghost use Rattle.futures.specs.Task.{Covers, Keeps};
ghost use Rattle.driver_model.specs.News.{told};
ghost use Rattle.mux_conn.specs.Connection.{uses_up};
ghost use Rattle.mux_conn.specs.Effects.{IsWithin};
ghost use Rattle.mux_client.specs.Calls.{acts_of, stepped, turn_of};
ghost use Rattle.push_links.specs.Held.{Gives, IsItself, IsPolled};
ghost use Rattle.push_links.specs.Links.{others_of_messages, with_messages};

use crate::pubsub::PubSub;
use driver_model::{LinkEvent, Msg};
use futures::Stream;
use futures::task::{Context, Poll};
use mux_client::{ConnectionAct, ConnectionError};
use std::alloc::Global;

/// The messages of a link of publish/subscribe, with the link: it gives what its stream gives.
#[derive(Drop)]
pub struct PubSubMessages {
    pub pubsub: PubSub,
}

impl PubSubMessages {
    /// One turn of its link, as `PubSub::step`.
    pub fn step(
        &mut self,
        alloc: Global,
        event: LinkEvent<'_>,
        out: &mut Vec<ConnectionAct>,
    ) -> Result<(), ConnectionError>
        requires { IsWithin self.old.pubsub.sink.connection.core.life (told event.news) }
        ensures conn { OnOk result (
            self.new.pubsub.sink.connection
            ≡ stepped self.old.pubsub.sink.connection (told event.entry.news)
            ) }
        ensures acts { OnOk result (
            out.new.items
            ≡ out.old.items
            ++ others_of_messages (acts_of self.old.pubsub.sink.connection (told event.entry.news))
            ) }
        ensures stream { OnOk result (
            self.new.pubsub.stream.held
            ≡ with_messages self.old.pubsub.stream.held
            (acts_of self.old.pubsub.sink.connection (told event.entry.news))
            ) }
        ensures err { OnErr result (out.new.items ≡ out.old.items) }
        ensures spent { IsErrOf result ConnectionError.Spent
            → (self.old.pubsub.sink.connection.core.failure ≡ Some ConnectionError.Spent)
            ⊎ (uses_up (turn_of self.old.pubsub.sink.connection (told event.entry.news)) ≡ true) }
        ensures fails { (e : ConnectionError) → IsErrOf result e
            → self.new.pubsub.sink.connection.core.failure ≡ Some e }
        ensures failed { (e : ConnectionError) → self.old.pubsub.sink.connection.core.failure ≡ Some e
            → IsErrOf result e }
        ensures kept { OnErr result (self.new.pubsub.stream.held ≡ self.old.pubsub.stream.held) }
        ensures outcomes { OnErr result (
            self.new.pubsub.sink.connection.outcomes ≡ self.old.pubsub.sink.connection.outcomes
            ) }
    {
        self.pubsub.step(alloc, event, out)
    }
}

impl Stream for PubSubMessages {
    type Item = Msg;

    ghost yields = { λ s given last. Gives IsItself s.pubsub.stream.held given last };

    fn poll_next(&mut self, cx: &mut Context<'_>) -> Poll<Option<Msg>>
        ensures polled { IsPolled IsItself self.old.pubsub.stream.held result self.new.pubsub.stream.held }
        ensures value { IfReady result (Gives IsItself self.old.pubsub.stream.held []) }
        ensures rest { IfReady result
            (λ o. IfSome o (λ x. After (Gives IsItself self.old.pubsub.stream.held) x
            (Gives IsItself self.new.pubsub.stream.held))) }
        ensures same { OnPending result
            (Within (Gives IsItself self.old.pubsub.stream.held) (Gives IsItself self.new.pubsub.stream.held)) }
        ensures registered { OnPending result (Covers cx.new (λ _. ⊥)) }
        ensures kept { Keeps cx.old cx.new }
    {
        self.pubsub.stream.poll_next(cx)
    }
}
