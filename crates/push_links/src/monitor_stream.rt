ghost use Rattle.std.specs.Prelude.{◌≡◌, ◌⊎◌, ◌++◌, ⊤, [], true, OnOk, OnErr, OnSome, Some, IfOk, IfSome, IsErrOf};
ghost use Rattle.futures.specs.Poll.{IfReady, OnPending};
ghost use Rattle.futures.specs.Runs.{After, Within};
ghost use Rattle.futures.specs.Task.{Covers, Keeps};
ghost use Rattle.resp_convert.specs.Convert.{IsRead};
ghost use Rattle.resp_value.specs.View.{data_of};
ghost use Rattle.driver_model.specs.News.{told};
ghost use Rattle.mux_conn.specs.Connection.{uses_up};
ghost use Rattle.mux_conn.specs.Effects.{IsWithin};
ghost use Rattle.mux_client.specs.Calls.{acts_of, stepped, turn_of};
ghost use Rattle.push_links.specs.Held.{Gives, IsPolled};
ghost use Rattle.push_links.specs.Links.{IsItemOf, others_of_told, with_told};

use crate::held::{Held, Next};
use crate::monitor::Monitor;
use driver_model::LinkEvent;
use futures::Stream;
use futures::task::{Context, Poll};
use mux_client::{ConnectionAct, ConnectionError};
use resp_convert::{ConvertError, FromRedisValue};
use resp_value::Value;
use std::alloc::{AllocError, Global};
use std::marker::PhantomData;

/// What a link in monitor mode is told, each item converted, as long as the link is lent. An item that doesn't convert is given
/// as `Ok(None)`, and a later poll goes on. It gives an item where it holds one, ends exactly where it is empty and its link has
/// ended, and else yields.
#[derive(Drop)]
pub struct MonitorStream<'a, T> {
    pub(crate) held: &'a mut Held<Value>,
    pub(crate) alloc: Global,
    pub(crate) item: PhantomData<T>,
}

/// The same, which keeps the link.
#[derive(Drop)]
pub struct MonitorMessages<T> {
    pub monitor: Monitor,
    pub(crate) alloc: Global,
    pub(crate) item: PhantomData<T>,
}

/// What a value is of the type, if it is something of it.
fn converted<T: FromRedisValue>(alloc: Global, value: Value) -> Result<Option<T>, AllocError>
    ensures { IfOk result (IsRead T.reads (data_of value)) }
{
    match T::from_redis_value(alloc, value) {
        Ok(item) => Ok(Some(item)),
        Err(ConvertError::Convert { value }) => {
            drop(value);
            Ok(None)
        }
        Err(ConvertError::NoMemory) => Err(AllocError),
    }
}

/// One poll of a stream of what is held, each item converted.
fn poll_item<T: FromRedisValue>(
    held: &mut Held<Value>,
    alloc: Global,
    cx: &mut Context<'_>,
) -> Poll<Option<Result<Option<T>, AllocError>>>
    ensures polled { IsPolled (IsItemOf T.reads) held.old result held.new }
    ensures value { IfReady result (Gives (IsItemOf T.reads) held.old []) }
    ensures rest { IfReady result
        (λ o. IfSome o (λ x. After (Gives (IsItemOf T.reads) held.old) x
        (Gives (IsItemOf T.reads) held.new))) }
    ensures goes { IfReady result (λ o. OnSome o ⊤) }
    ensures again { OnPending result ⊤ }
    ensures same { OnPending result
        (Within (Gives (IsItemOf T.reads) held.old) (Gives (IsItemOf T.reads) held.new)) }
    ensures registered { OnPending result (Covers cx.new (λ _. ⊥)) }
    ensures kept { Keeps cx.old cx.new }
{
    match held.next() {
        Next::Item(value) => Poll::Ready(Some(converted(alloc, value))),
        Next::End => Poll::Ready(None),
        Next::Nothing => cx.yield_now(),
    }
}

impl<T: FromRedisValue> Stream for MonitorStream<'_, T> {
    type Item = Result<Option<T>, AllocError>;

    ghost yields = { λ s given last. Gives (IsItemOf T.reads) s.held.now given last };

    fn poll_next(&mut self, cx: &mut Context<'_>) -> Poll<Option<Result<Option<T>, AllocError>>>
        ensures polled { IsPolled (IsItemOf T.reads) self.old.held.now result self.new.held.now }
        ensures value { IfReady result (Gives (IsItemOf T.reads) self.old.held.now []) }
        ensures rest { IfReady result
            (λ o. IfSome o (λ x. After (Gives (IsItemOf T.reads) self.old.held.now) x
            (Gives (IsItemOf T.reads) self.new.held.now))) }
        ensures goes { IfReady result (λ o. OnSome o ⊤) }
        ensures again { OnPending result ⊤ }
        ensures same { OnPending result
            (Within (Gives (IsItemOf T.reads) self.old.held.now) (Gives (IsItemOf T.reads) self.new.held.now)) }
        ensures registered { OnPending result (Covers cx.new (λ _. ⊥)) }
        ensures kept { Keeps cx.old cx.new }
    {
        poll_item(self.held, self.alloc, cx)
    }
}

impl<T: FromRedisValue> Stream for MonitorMessages<T> {
    type Item = Result<Option<T>, AllocError>;

    ghost yields = { λ s given last. Gives (IsItemOf T.reads) s.monitor.held given last };

    fn poll_next(&mut self, cx: &mut Context<'_>) -> Poll<Option<Result<Option<T>, AllocError>>>
        ensures polled { IsPolled (IsItemOf T.reads) self.old.monitor.held result self.new.monitor.held }
        ensures value { IfReady result (Gives (IsItemOf T.reads) self.old.monitor.held []) }
        ensures rest { IfReady result
            (λ o. IfSome o (λ x. After (Gives (IsItemOf T.reads) self.old.monitor.held) x
            (Gives (IsItemOf T.reads) self.new.monitor.held))) }
        ensures same { OnPending result
            (Within (Gives (IsItemOf T.reads) self.old.monitor.held) (Gives (IsItemOf T.reads) self.new.monitor.held)) }
        ensures registered { OnPending result (Covers cx.new (λ _. ⊥)) }
        ensures kept { Keeps cx.old cx.new }
    {
        poll_item(&mut self.monitor.held, self.alloc, cx)
    }
}

impl<T> MonitorMessages<T> {
    /// One turn of its link, as `Monitor::step`.
    pub fn step(
        &mut self,
        alloc: Global,
        event: LinkEvent<'_>,
        out: &mut Vec<ConnectionAct>,
    ) -> Result<(), ConnectionError>
        requires { IsWithin self.old.monitor.connection.core.life (told event.news) }
        ensures conn { OnOk result (
            self.new.monitor.connection
            ≡ stepped self.old.monitor.connection (told event.entry.news)
            ) }
        ensures acts { OnOk result (
            out.new.items
            ≡ out.old.items
            ++ others_of_told (acts_of self.old.monitor.connection (told event.entry.news))
            ) }
        ensures held { OnOk result (
            self.new.monitor.held
            ≡ with_told self.old.monitor.held
            (acts_of self.old.monitor.connection (told event.entry.news))
            ) }
        ensures err { OnErr result (out.new.items ≡ out.old.items) }
        ensures spent { IsErrOf result ConnectionError.Spent
            → (self.old.monitor.connection.core.failure ≡ Some ConnectionError.Spent)
            ⊎ (uses_up (turn_of self.old.monitor.connection (told event.entry.news)) ≡ true) }
        ensures fails { (e : ConnectionError) → IsErrOf result e
            → self.new.monitor.connection.core.failure ≡ Some e }
        ensures failed { (e : ConnectionError) → self.old.monitor.connection.core.failure ≡ Some e
            → IsErrOf result e }
        ensures kept { OnErr result (self.new.monitor.held ≡ self.old.monitor.held) }
    {
        self.monitor.step(alloc, event, out)
    }
}
