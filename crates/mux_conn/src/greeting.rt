ghost use Rattle.std.specs.Prelude.{◌≡◌, [], length, OnOk, IfOk};
ghost use Rattle.mux_conn.specs.Effects.{setup_id, has_user, greeting_error};
ghost use Rattle.mux_conn.specs.Passes.{greeting_act};

use crate::act::LinkAct;
use crate::connection::MultiplexedConnection;
use crate::life::{Greeting, Life};
use containers::{Bytes, Names};
use driver_model::{LinkFault, Shape, setup_bytes, setup_shape};
use link_core::{LinkCore, Started, error_of};
use redis_error::RedisError;
use resp_write::pack_names;
use std::alloc::{AllocError, Global};

impl Greeting {
    /// Whether it has the user name.
    pub fn has_user(self) -> bool
        ensures { result ≡ has_user self }
    {
        matches!(self, Greeting::WithUser)
    }

    /// The number of its message: no request has it.
    fn number(self) -> u64
        ensures { result ≡ setup_id self }
    {
        match self {
            Greeting::WithUser => 1 << 32,
            Greeting::WithoutUser => (1 << 32) + 1,
            Greeting::Monitor => (1 << 32) + 3,
        }
    }

    /// The error with which the opening fails that a fault ends, on this link: MONITOR gets the fault itself once it has
    /// started, and every other message the closed connection.
    pub(crate) fn error(self, link: &LinkCore, fault: LinkFault) -> RedisError
        ensures { result ≡ greeting_error self link.now.row fault }
    {
        match self {
            Greeting::Monitor if link.is_awaiting() => error_of(fault),
            _ => RedisError::Closed,
        }
    }

    /// What shows that its message starts.
    pub(crate) fn act(self, start: Started) -> LinkAct
        ensures { result ≡ greeting_act self start }
    {
        let Started {
            msg: message,
            id: _,
            need,
            len,
        } = start;
        match self {
            Greeting::WithUser => LinkAct::SetUp { message, need, len },
            Greeting::WithoutUser => LinkAct::SetUp { message, need, len },
            Greeting::Monitor => LinkAct::Watch { message, need, len },
        }
    }
}

impl MultiplexedConnection {
    ghost use Rattle.mux_conn.specs.Connection.{work_with};
    ghost use Rattle.mux_conn.specs.Effects.{greeting_queued, sets_up, greeted, greeted_by};

    /// The bytes of a greeting's message.
    fn greeting_bytes(&self, alloc: Global, greeting: Greeting) -> Result<Bytes, AllocError>
        ensures { IfOk result (λ bytes. bytes ≡ (greeting_queued self.now greeting).packed) }
    {
        match greeting {
            Greeting::WithUser => setup_bytes(alloc, &self.info, true),
            Greeting::WithoutUser => setup_bytes(alloc, &self.info, false),
            Greeting::Monitor => {
                let words = Names::from_slices(alloc, &[b"MONITOR".as_slice()])?;
                pack_names(alloc, &words)
            }
        }
    }

    /// And how many items it takes.
    fn greeting_shape(&self, greeting: Greeting) -> Shape
        ensures { result ≡ (greeting_queued self.now greeting).shape }
    {
        match greeting {
            Greeting::WithUser => setup_shape(&self.info, true),
            Greeting::WithoutUser => setup_shape(&self.info, false),
            Greeting::Monitor => Shape::Single,
        }
    }

    /// A greeting takes its place on this link.
    pub(crate) fn set_up(
        &mut self,
        alloc: Global,
        link: LinkCore,
        greeting: Greeting,
    ) -> Result<(), AllocError>
        ensures conn { OnOk result (
            self.new ≡ (sets_up (work_with self.old []) link greeting).conn
            ) }
        ensures count { length self.new.requests ≡ length self.old.requests }
        ensures failure { self.new.failure ≡ self.old.failure }
    {
        let mut link = link;
        let mut packed = self.greeting_bytes(alloc, greeting)?;
        let shape = self.greeting_shape(greeting);
        link.enqueue_beyond(alloc, greeting.number(), &mut packed, shape)?;
        self.come_to(Life::SettingUp { link, greeting });
        Ok(())
    }

    /// The setup is answered well: the link is ready, or its server is put into monitor mode first.
    pub(crate) fn greet(
        &mut self,
        alloc: Global,
        link: LinkCore,
        out: &mut Vec<LinkAct>,
    ) -> Result<(), AllocError>
        ensures work { OnOk result (
            work_with self.new out.new.items ≡ greeted (work_with self.old out.old.items) link
            ) }
        ensures count { length self.new.requests ≡ length self.old.requests }
        ensures failure { self.new.failure ≡ self.old.failure }
    {
        if self.hears.is_watching() {
            self.set_up(alloc, link, Greeting::Monitor)?;
        } else {
            self.make_ready(alloc, link, out)?;
        }
        Ok(())
    }

    /// A greeting is answered well: behind MONITOR the link is ready.
    pub(crate) fn greet_behind(
        &mut self,
        alloc: Global,
        link: LinkCore,
        greeting: Greeting,
        out: &mut Vec<LinkAct>,
    ) -> Result<(), AllocError>
        ensures work { OnOk result (
            work_with self.new out.new.items
            ≡ greeted_by (work_with self.old out.old.items) link greeting
            ) }
        ensures count { length self.new.requests ≡ length self.old.requests }
        ensures failure { self.new.failure ≡ self.old.failure }
    {
        match greeting {
            Greeting::WithUser => self.greet(alloc, link, out),
            Greeting::WithoutUser => self.greet(alloc, link, out),
            Greeting::Monitor => self.make_ready(alloc, link, out),
        }
    }
}
