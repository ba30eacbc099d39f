ghost use Rattle.std.specs.Prelude.{◌≡◌, ◌⊎◌, ◌++◌, [], Some, true, false, OnOk, OnErr, IfOk, IsErrOf};
ghost use Rattle.driver_model.specs.News.{told};
ghost use Rattle.driver_model.specs.declared.hearing.Hearing.TheVariants as hearing;
ghost use Rattle.mux_conn.specs.Connection.{uses_up};
ghost use Rattle.mux_conn.specs.Effects.{IsWithin};
ghost use Rattle.mux_client.specs.Connection.{attached};
ghost use Rattle.mux_client.specs.Calls.{acts_of, stepped, turn_of};
ghost use Rattle.push_links.specs.Links.{others_of_told, with_told};

use crate::held::Held;
use crate::monitor_stream::{MonitorMessages, MonitorStream};
use crate::sorting::sort_told;
use connection_info::RedisConnectionInfo;
use driver_model::{Hearing, LinkEvent};
use mux_client::{ConnectionAct, ConnectionError, MultiplexedConnection};
use resp_convert::FromRedisValue;
use resp_value::Value;
use std::alloc::{AllocError, Global};
use std::marker::PhantomData;

/// A link in monitor mode: behind its setup it says MONITOR, is created by the answer, and holds what the server tells from then
/// on. It opens nothing itself: each `step` is told what happened to its link, and shows what is to be done.
pub struct Monitor {
    pub connection: MultiplexedConnection,
    pub held: Held<Value>,
}

impl Drop for Monitor {
    fn drop(self) {
        let Monitor { connection, held } = self;
        drop(connection);
        drop(held);
    }
}

impl Monitor {
    /// A link of this number, whose connect isn't answered: whoever makes it asks for the connect. `info` is what is said to the
    /// server first.
    pub fn new(alloc: Global, info: &RedisConnectionInfo, link: u32) -> Result<Monitor, AllocError>
        ensures connection { IfOk result (λ m.
            m.connection ≡ attached info.now link hearing.Monitor
            ) }
        ensures held { IfOk result (λ m. m.held ≡ record { items = []; ended = false }) }
    {
        let connection = MultiplexedConnection::attach(alloc, info, link, Hearing::Monitor)?;
        Ok(Monitor {
            connection,
            held: Held::new(alloc),
        })
    }

    /// One turn of its link: `out` gains what is to be done, and what is held gains what the server told, in order, and its end
    /// where the link ends. After an error `out` and what is held are as they were, the link has failed, and each later call that
    /// can fail answers the same.
    pub fn step(
        &mut self,
        alloc: Global,
        event: LinkEvent<'_>,
        out: &mut Vec<ConnectionAct>,
    ) -> Result<(), ConnectionError>
        requires { IsWithin self.old.connection.core.life (told event.news) }
        ensures conn { OnOk result (
            self.new.connection ≡ stepped self.old.connection (told event.entry.news)
            ) }
        ensures acts { OnOk result (
            out.new.items
            ≡ out.old.items ++ others_of_told (acts_of self.old.connection (told event.entry.news))
            ) }
        ensures held { OnOk result (
            self.new.held
            ≡ with_told self.old.held (acts_of self.old.connection (told event.entry.news))
            ) }
        ensures err { OnErr result (out.new.items ≡ out.old.items) }
        ensures spent { IsErrOf result ConnectionError.Spent
            → (self.old.connection.core.failure ≡ Some ConnectionError.Spent)
            ⊎ (uses_up (turn_of self.old.connection (told event.entry.news)) ≡ true) }
        ensures fails { (e : ConnectionError) → IsErrOf result e
            → self.new.connection.core.failure ≡ Some e }
        ensures failed { (e : ConnectionError) → self.old.connection.core.failure ≡ Some e
            → IsErrOf result e }
        ensures kept { OnErr result (self.new.held ≡ self.old.held) }
    {
        let mut acts = Vec::new(alloc);
        match self.connection.step(alloc, event, &mut acts) {
            Ok(()) => {}
            Err(error) => return Err(error),
        }
        match sort_told(acts, &mut self.held, out) {
            Ok(()) => Ok(()),
            Err(_) => Err(self.connection.refuse_memory()),
        }
    }

    /// What the server tells, each item converted, as long as the link is lent.
    pub fn on_message<T: FromRedisValue>(&mut self, alloc: Global) -> MonitorStream<'_, T>
        ensures { result.held.now ≡ self.old.held }
    {
        MonitorStream {
            held: &mut self.held,
            alloc,
            item: PhantomData,
        }
    }

    /// The same stream, which keeps the link.
    pub fn into_on_message<T: FromRedisValue>(self, alloc: Global) -> MonitorMessages<T>
        ensures { result.monitor ≡ self }
    {
        MonitorMessages {
            monitor: self,
            alloc,
            item: PhantomData,
        }
    }
}
