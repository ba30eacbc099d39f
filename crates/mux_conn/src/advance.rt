ghost use Rattle.std.specs.Prelude.{◌≡◌, ◌<◌, [], length, true, false, None, Some, slice_get};
ghost use Rattle.std.specs.Prelude.{OnOk, OnErr, IfOk, IsErrOf, MatchOption, ◌≤◌};
ghost use Rattle.mux_conn.specs.Passes.{entry_of, without, has_number};
ghost use Rattle.mux_conn.specs.Places.{IsPlaceOf};
ghost use Rattle.link_core.specs.Link.{is_spent, starting_with, started_all};

use crate::act::{LinkAct, show};
use crate::connection::MultiplexedConnection;
use crate::errors::ConnectionError;
use crate::life::{Greeting, Life};
use crate::request::{Progress, Request, Waiting};
use containers::Queue;
use driver_model::{Outcome, Shape};
use link_core::{EnqueueError, LinkCore, Rest, StartError, Started};
use resp_value::Value;
use std::alloc::{AllocError, Global};

impl MultiplexedConnection {
    ghost use Rattle.mux_conn.specs.Connection.{work_with, runs_out, is_setting_up};
    ghost use Rattle.mux_conn.specs.Passes.{greeted_each, started};
    ghost use Rattle.mux_conn.specs.Starts.{shown_each};

    /// Each start is shown, and the room of their list is kept.
    pub(crate) fn show_starts(
        &mut self,
        starts: Vec<Started>,
        out: &mut Vec<LinkAct>,
    ) -> Result<(), AllocError>
        ensures same { self.new ≡ self.old }
        ensures work { OnOk result (
            work_with self.old out.new.items
            ≡ shown_each (work_with self.old out.old.items) starts.items
            ) }
    {
        let mut rest = Rest::of(starts);
        while let Some(start) = rest.pop_front() {
            let request = self.name(start.id);
            show(
                out,
                LinkAct::Start {
                    message: start.msg,
                    request,
                    need: start.need,
                    len: start.len,
                },
            )?;
        }
        self.starts.give(rest.into_list());
        Ok(())
    }

    /// Each start of a greeting is shown.
    fn show_greetings(
        &self,
        greeting: Greeting,
        starts: Vec<Started>,
        out: &mut Vec<LinkAct>,
    ) -> Result<(), AllocError>
        ensures { OnOk result (
            work_with self.now out.new.items
            ≡ greeted_each (work_with self.now out.old.items) greeting starts.items
            ) }
    {
        let mut rest = Queue::from_vec(starts);
        while let Some(start) = rest.pop_front() {
            show(out, greeting.act(start))?;
        }
        Ok(())
    }

    /// A greeting starts, if it can.
    fn start_greeting(
        &mut self,
        alloc: Global,
        out: &mut Vec<LinkAct>,
    ) -> Result<(), ConnectionError>
        requires { is_setting_up self.old.life ≡ true }
        ensures work { OnOk result (
            work_with self.new out.new.items ≡ started (work_with self.old out.old.items)
            ) }
        ensures spent { IsErrOf result ConnectionError.Spent
            → runs_out (started (work_with self.old out.old.items)) ≡ true }
        ensures count { length self.new.requests ≡ length self.old.requests }
        ensures failure { self.new.failure ≡ self.old.failure }
    {
        let mut starts = Vec::new(alloc);
        let (ready, greeting) = match &mut self.life {
            Life::SettingUp { link, greeting } => {
                (start_ready(alloc, link, &mut starts), *greeting)
            }
            Life::Ready { link: _ } => unreachable!(),
            Life::Resting => unreachable!(),
            Life::Dialing => unreachable!(),
            Life::Wanting { link: _ } => unreachable!(),
            Life::Ended { error: _ } => unreachable!(),
        };
        match ready {
            Ok(()) => {}
            Err(error) => return Err(error),
        }
        self.show_greetings(greeting, starts, out)?;
        Ok(())
    }

    /// Messages start as far as they can.
    fn start(&mut self, alloc: Global, out: &mut Vec<LinkAct>) -> Result<(), ConnectionError>
        ensures work { OnOk result (
            work_with self.new out.new.items ≡ started (work_with self.old out.old.items)
            ) }
        ensures spent { IsErrOf result ConnectionError.Spent
            → runs_out (started (work_with self.old out.old.items)) ≡ true }
        ensures count { length self.new.requests ≡ length self.old.requests }
        ensures failure { self.new.failure ≡ self.old.failure }
    {
        if self.life.is_setting_up() {
            return self.start_greeting(alloc, out);
        }
        let link = match &mut self.life {
            Life::Ready { link } => link,
            Life::SettingUp {
                link: _,
                greeting: _,
            } => unreachable!(),
            Life::Resting => return Ok(()),
            Life::Dialing => return Ok(()),
            Life::Wanting { link: _ } => return Ok(()),
            Life::Ended { error: _ } => return Ok(()),
        };
        let mut starts = self.starts.take(alloc);
        let ready = start_ready(alloc, link, &mut starts);
        match ready {
            Ok(()) => {}
            Err(error) => return Err(error),
        }
        self.show_starts(starts, out)?;
        Ok(())
    }
}

impl MultiplexedConnection {
    ghost use Rattle.mux_conn.specs.Connection.{work_with};
    ghost use Rattle.mux_conn.specs.Passes.{permits_taken, holding, took, timer_asked, let_in};

    /// How many permits a message of this shape takes: as many as are free, and no more than it may.
    fn permits_taken(&self, shape: Shape) -> u32
        ensures value { result ≡ permits_taken self.now.limit self.now.free shape }
        ensures free { result ≤ self.now.free }
    {
        match self.limit {
            Some(limit) => self.free.min(shape.permits_for(limit)),
            None => 0,
        }
    }

    /// A request may take a place, and holds so many permits, which aren't free any more.
    fn hold(&mut self, number: u32, count: u32)
        requires there { number < length self.old.requests }
        requires free { count ≤ self.old.free }
        ensures conn { self.new ≡ holding self.old number count }
        ensures count { length self.new.requests ≡ length self.old.requests }
        ensures failure { self.new.failure ≡ self.old.failure }
    {
        let name = self.name(u64::from(number));
        self.requests.set(
            number as usize,
            Request {
                name,
                progress: Progress::Admitted,
                permits: count,
            },
        );
        self.free -= count;
    }

    /// A request takes its permits, which is shown where they are counted.
    fn take_permits(
        &mut self,
        number: u32,
        count: u32,
        out: &mut Vec<LinkAct>,
    ) -> Result<(), AllocError>
        requires there { number < length self.old.requests }
        requires free { count ≤ self.old.free }
        ensures work { OnOk result (
            work_with self.new out.new.items
            ≡ took (work_with self.old out.old.items) number count
            ) }
        ensures count { length self.new.requests ≡ length self.old.requests }
        ensures failure { self.new.failure ≡ self.old.failure }
    {
        self.hold(number, count);
        if self.limit.is_some() {
            let request = self.name(u64::from(number));
            show(out, LinkAct::Took { request, count })?;
        }
        Ok(())
    }

    /// The timer of a request is asked for, where it is to be answered within a time.
    fn ask_timer(
        &self,
        number: u32,
        timeout: Option<u64>,
        out: &mut Vec<LinkAct>,
    ) -> Result<(), AllocError>
        ensures { OnOk result (
            work_with self.now out.new.items
            ≡ timer_asked (work_with self.now out.old.items) number timeout
            ) }
    {
        match timeout {
            Some(ms) => {
                let request = self.name(u64::from(number));
                show(out, LinkAct::Timer { request, ms })?;
                Ok(())
            }
            None => Ok(()),
        }
    }

    /// A request takes its permits, and its timer is asked for.
    fn let_in(&mut self, request: &Waiting, out: &mut Vec<LinkAct>) -> Result<(), AllocError>
        requires { request.now.number < length self.old.requests }
        ensures work { OnOk result (
            work_with self.new out.new.items
            ≡ let_in (work_with self.old out.old.items) request.now
            ) }
        ensures count { length self.new.requests ≡ length self.old.requests }
        ensures failure { self.new.failure ≡ self.old.failure }
    {
        let count = self.permits_taken(request.shape);
        self.take_permits(request.number, count, out)?;
        self.ask_timer(request.number, request.timeout, out)
    }
}

impl MultiplexedConnection {
    ghost use Rattle.std.specs.Prelude.{if◌then◌else◌};
    ghost use Rattle.mux_conn.specs.Requests.{answered};
    ghost use Rattle.mux_conn.specs.Passes.{placed_at, seated, moved_up};
    ghost use Rattle.mux_conn.specs.Passes.{moved_up_all, put_behind, seated_or_behind, admitted};
    ghost use Rattle.mux_conn.specs.Passes.{admitted_all, said, moved_all, passed, let_in, round_begun};
    ghost use Rattle.mux_conn.specs.Connection.{work_with, admits_none, has_room, runs_out, uses_up};

    /// A request takes its place in the queue.
    fn place(&mut self, alloc: Global, request: Waiting) -> Result<(), AllocError>
        requires free { has_room self.old ≡ true }
        requires there { request.number < length self.old.requests }
        ensures work { OnOk result (
            work_with self.new [] ≡ placed_at (work_with self.old []) request self.old.life
            ) }
        ensures count { length self.new.requests ≡ length self.old.requests }
        ensures failure { self.new.failure ≡ self.old.failure }
    {
        let link = match &mut self.life {
            Life::Ready { link } => link,
            Life::SettingUp {
                link: _,
                greeting: _,
            } => unreachable!(),
            Life::Resting => unreachable!(),
            Life::Dialing => unreachable!(),
            Life::Wanting { link: _ } => unreachable!(),
            Life::Ended { error: _ } => unreachable!(),
        };
        let Waiting {
            number,
            mut packed,
            shape,
            awaited,
            timeout: _,
        } = request;
        match link.enqueue(alloc, u64::from(number), &mut packed, shape, !awaited) {
            Ok(()) => {}
            Err(EnqueueError::Full) => unreachable!(),
            Err(EnqueueError::NoMemory) => return Err(AllocError),
        }
        self.moved.push_back(number)?;
        self.set_progress(number, Progress::Placed);
        Ok(())
    }

    /// A command whose reply nobody awaits is answered at its place.
    fn tell_at_place(
        &mut self,
        number: u32,
        awaited: bool,
        out: &mut Vec<LinkAct>,
    ) -> Result<(), AllocError>
        ensures work { OnOk result (
            work_with self.new out.new.items
            ≡ (if awaited then work_with self.old out.old.items
            else answered (work_with self.old out.old.items) number (Outcome.One Value.Nil))
            ) }
        ensures count { length self.new.requests ≡ length self.old.requests }
        ensures failure { self.new.failure ≡ self.old.failure }
    {
        if awaited {
            return Ok(());
        }
        self.answer(u64::from(number), Outcome::One(Value::Nil), out)
    }

    /// A request takes its place in the queue, and messages start.
    fn seat(
        &mut self,
        alloc: Global,
        request: Waiting,
        out: &mut Vec<LinkAct>,
    ) -> Result<(), ConnectionError>
        requires free { has_room self.old ≡ true }
        requires there { request.number < length self.old.requests }
        ensures work { OnOk result (
            work_with self.new out.new.items
            ≡ seated (work_with self.old out.old.items) request
            ) }
        ensures spent { IsErrOf result ConnectionError.Spent
            → runs_out (seated (work_with self.old out.old.items) request) ≡ true }
        ensures count { length self.new.requests ≡ length self.old.requests }
        ensures failure { self.new.failure ≡ self.old.failure }
    {
        let number = request.number;
        let awaited = request.awaited;
        self.place(alloc, request)?;
        self.tell_at_place(number, awaited, out)?;
        self.start(alloc, out)
    }

    /// A request that still waits for a place takes it.
    fn move_up(
        &mut self,
        alloc: Global,
        request: Waiting,
        out: &mut Vec<LinkAct>,
    ) -> Result<(), ConnectionError>
        requires { has_room self.old ≡ true }
        ensures work { OnOk result (
            work_with self.new out.new.items
            ≡ moved_up (work_with self.old out.old.items) request
            ) }
        ensures spent { IsErrOf result ConnectionError.Spent
            → runs_out (moved_up (work_with self.old out.old.items) request) ≡ true }
        ensures count { length self.new.requests ≡ length self.old.requests }
        ensures failure { self.new.failure ≡ self.old.failure }
    {
        if !self.is_admitted(request.number) {
            return Ok(());
        }
        self.seat(alloc, request, out)
    }

    /// Those that wait for a place take theirs in order, as long as the queue has room.
    fn move_up_all(&mut self, alloc: Global, out: &mut Vec<LinkAct>) -> Result<(), ConnectionError>
        ensures work { OnOk result (
            work_with self.new out.new.items ≡ moved_up_all (work_with self.old out.old.items)
            ) }
        ensures spent { IsErrOf result ConnectionError.Spent
            → runs_out (moved_up_all (work_with self.old out.old.items)) ≡ true }
        ensures count { length self.new.requests ≡ length self.old.requests }
        ensures failure { self.new.failure ≡ self.old.failure }
    {
        let mut rest = std::mem::replace(&mut self.admitted, Queue::new(alloc));
        'requests: while self.has_room() {
            match rest.pop_front() {
                Some(request) => match self.move_up(alloc, request, out) {
                    Ok(()) => {}
                    Err(error) => return Err(error),
                },
                None => {
                    self.admitted = rest;
                    return Ok(());
                }
            }
        }
        self.admitted = rest;
        Ok(())
    }

    /// A request waits for a place, behind the others.
    fn put_behind(&mut self, request: Waiting) -> Result<(), AllocError>
        ensures work { OnOk result (
            work_with self.new [] ≡ put_behind (work_with self.old []) request
            ) }
        ensures count { length self.new.requests ≡ length self.old.requests }
        ensures failure { self.new.failure ≡ self.old.failure }
    {
        self.moved.push_back(request.number)?;
        self.admitted.push_back(request)
    }

    /// A request takes its place at once where the queue has room, and else it waits for one.
    fn seat_or_put_behind(
        &mut self,
        alloc: Global,
        request: Waiting,
        out: &mut Vec<LinkAct>,
    ) -> Result<(), ConnectionError>
        requires { request.number < length self.old.requests }
        ensures work { OnOk result (
            work_with self.new out.new.items
            ≡ seated_or_behind (work_with self.old out.old.items) request
            ) }
        ensures spent { IsErrOf result ConnectionError.Spent
            → runs_out (seated_or_behind (work_with self.old out.old.items) request) ≡ true }
        ensures count { length self.new.requests ≡ length self.old.requests }
        ensures failure { self.new.failure ≡ self.old.failure }
    {
        if self.has_room() {
            return self.seat(alloc, request, out);
        }
        self.put_behind(request)?;
        Ok(())
    }

    /// The round of a request begins, and it is let in.
    fn enter(&mut self, request: &Waiting, out: &mut Vec<LinkAct>) -> Result<(), AllocError>
        requires { request.now.number < length self.old.requests }
        ensures work { OnOk result (
            work_with self.new out.new.items
            ≡ let_in (round_begun (work_with self.old out.old.items) request.now.number)
            request.now
            ) }
        ensures count { length self.new.requests ≡ length self.old.requests }
        ensures failure { self.new.failure ≡ self.old.failure }
    {
        self.begin_round(request.number, out)?;
        self.let_in(request, out)
    }

    /// A request that still waits for the connection, or for a permit, is let in, once its round has begun. On a link that has
    /// ended it is answered.
    fn admit(
        &mut self,
        alloc: Global,
        request: Waiting,
        out: &mut Vec<LinkAct>,
    ) -> Result<(), ConnectionError>
        requires { admits_none self.old ≡ false }
        ensures work { OnOk result (
            work_with self.new out.new.items
            ≡ admitted (work_with self.old out.old.items) request
            ) }
        ensures spent { IsErrOf result ConnectionError.Spent
            → runs_out (admitted (work_with self.old out.old.items) request) ≡ true }
        ensures count { length self.new.requests ≡ length self.old.requests }
        ensures failure { self.new.failure ≡ self.old.failure }
    {
        if !self.is_waiting(request.number) {
            return Ok(());
        }
        if let Life::Ended { error } = &self.life {
            let number = u64::from(request.number);
            drop(request);
            let error = error.clone(alloc)?;
            self.answer(number, Outcome::Fault(error), out)?;
            return Ok(());
        }
        self.enter(&request, out)?;
        self.seat_or_put_behind(alloc, request, out)
    }

    /// Those that wait for the connection, or for permits, are moved in order, as long as they can be.
    fn admit_all(&mut self, alloc: Global, out: &mut Vec<LinkAct>) -> Result<(), ConnectionError>
        ensures work { OnOk result (
            work_with self.new out.new.items ≡ admitted_all (work_with self.old out.old.items)
            ) }
        ensures spent { IsErrOf result ConnectionError.Spent
            → runs_out (admitted_all (work_with self.old out.old.items)) ≡ true }
        ensures count { length self.new.requests ≡ length self.old.requests }
        ensures failure { self.new.failure ≡ self.old.failure }
    {
        let mut rest = std::mem::replace(&mut self.waiting, Queue::new(alloc));
        'requests: while !self.admits_none() {
            match rest.pop_front() {
                Some(request) => match self.admit(alloc, request, out) {
                    Ok(()) => {}
                    Err(error) => return Err(error),
                },
                None => {
                    self.waiting = rest;
                    return Ok(());
                }
            }
        }
        self.waiting = rest;
        Ok(())
    }

    /// The driver says what it has to itself: it subscribes again what is to be, and then tells new credentials.
    fn say(&mut self, alloc: Global, out: &mut Vec<LinkAct>) -> Result<(), ConnectionError>
        ensures work { OnOk result (
            work_with self.new out.new.items ≡ said (work_with self.old out.old.items)
            ) }
        ensures spent { IsErrOf result ConnectionError.Spent
            → uses_up (said (work_with self.old out.old.items)) ≡ true }
        ensures count { length self.new.requests ≡ length self.old.requests }
        ensures failure { self.new.failure ≡ self.old.failure }
    {
        match self.repeat(alloc, out) {
            Ok(()) => {}
            Err(error) => return Err(error),
        }
        self.renew(alloc, out)
    }

    /// The driver says what it has to, and every request is moved as far as it can go.
    fn move_all(&mut self, alloc: Global, out: &mut Vec<LinkAct>) -> Result<(), ConnectionError>
        ensures work { OnOk result (
            work_with self.new out.new.items ≡ moved_all (work_with self.old out.old.items)
            ) }
        ensures spent { IsErrOf result ConnectionError.Spent
            → uses_up (moved_all (work_with self.old out.old.items)) ≡ true }
        ensures count { length self.new.requests ≡ length self.old.requests }
        ensures failure { self.new.failure ≡ self.old.failure }
    {
        match self.say(alloc, out) {
            Ok(()) => {}
            Err(error) => return Err(error),
        }
        match self.start(alloc, out) {
            Ok(()) => {}
            Err(error) => return Err(error),
        }
        match self.move_up_all(alloc, out) {
            Ok(()) => {}
            Err(error) => return Err(error),
        }
        self.admit_all(alloc, out)
    }

    /// Every request is moved as far as it can go, and those that go on waiting for a permit begin their rounds.
    pub(crate) fn pass(
        &mut self,
        alloc: Global,
        out: &mut Vec<LinkAct>,
    ) -> Result<(), ConnectionError>
        ensures work { OnOk result (
            work_with self.new out.new.items ≡ passed (work_with self.old out.old.items)
            ) }
        ensures spent { IsErrOf result ConnectionError.Spent
            → uses_up (passed (work_with self.old out.old.items)) ≡ true }
        ensures count { length self.new.requests ≡ length self.old.requests }
        ensures failure { self.new.failure ≡ self.old.failure }
    {
        match self.move_all(alloc, out) {
            Ok(()) => {}
            Err(error) => return Err(error),
        }
        self.begin_rounds(out)?;
        Ok(())
    }
}

impl MultiplexedConnection {
    ghost use Rattle.std.specs.Prelude.{◌&&◌, not};
    ghost use Rattle.mux_conn.specs.Passes.{is_there, seated_alone, admitted_alone, advanced};
    ghost use Rattle.mux_conn.specs.Passes.{can_advance};
    ghost use Rattle.mux_conn.specs.Connection.{work_with, admits_none, has_room, runs_out};

    /// One request that waits for a place takes it, where the queue has room. The answer is whether it is among those that
    /// wait for one, and moves.
    fn seat_alone(
        &mut self,
        alloc: Global,
        number: u32,
        out: &mut Vec<LinkAct>,
    ) -> Result<bool, ConnectionError>
        ensures answer { IfOk result (λ moves.
            moves ≡ (is_there (entry_of number self.old.admitted) && has_room self.old)
            ) }
        ensures work { OnOk result (
            work_with self.new out.new.items
            ≡ seated_alone (work_with self.old out.old.items) number
            (entry_of number self.old.admitted)
            ) }
        ensures spent { IsErrOf result ConnectionError.Spent
            → runs_out (seated_alone (work_with self.old out.old.items) number
            (entry_of number self.old.admitted)) ≡ true }
        ensures count { length self.new.requests ≡ length self.old.requests }
        ensures failure { self.new.failure ≡ self.old.failure }
    {
        if !self.has_room() {
            return Ok(false);
        }
        let found = take_entry(alloc, &mut self.admitted, number)?;
        match found {
            Some(request) => match self.move_up(alloc, request, out) {
                Ok(()) => Ok(true),
                Err(error) => Err(error),
            },
            None => Ok(false),
        }
    }

    /// One request that waits for the connection, or for a permit, is moved as far as it can go. The answer is whether it is
    /// among those that wait for it, and moves.
    fn admit_alone(
        &mut self,
        alloc: Global,
        number: u32,
        out: &mut Vec<LinkAct>,
    ) -> Result<bool, ConnectionError>
        ensures answer { IfOk result (λ moves.
            moves ≡ (is_there (entry_of number self.old.waiting) && not (admits_none self.old))
            ) }
        ensures work { OnOk result (
            work_with self.new out.new.items
            ≡ admitted_alone (work_with self.old out.old.items) number
            (entry_of number self.old.waiting)
            ) }
        ensures spent { IsErrOf result ConnectionError.Spent
            → runs_out (admitted_alone (work_with self.old out.old.items) number
            (entry_of number self.old.waiting)) ≡ true }
        ensures count { length self.new.requests ≡ length self.old.requests }
        ensures failure { self.new.failure ≡ self.old.failure }
    {
        if self.admits_none() {
            return Ok(false);
        }
        let found = take_entry(alloc, &mut self.waiting, number)?;
        match found {
            Some(request) => match self.admit(alloc, request, out) {
                Ok(()) => Ok(true),
                Err(error) => Err(error),
            },
            None => Ok(false),
        }
    }

    /// One request is moved as far as it can go. The answer is whether it moves.
    pub(crate) fn advance_one(
        &mut self,
        alloc: Global,
        number: u32,
        out: &mut Vec<LinkAct>,
    ) -> Result<bool, ConnectionError>
        ensures answer { IfOk result (λ moves. moves ≡ can_advance self.old number) }
        ensures work { OnOk result (
            work_with self.new out.new.items ≡ advanced (work_with self.old out.old.items) number
            ) }
        ensures spent { IsErrOf result ConnectionError.Spent
            → runs_out (advanced (work_with self.old out.old.items) number) ≡ true }
        ensures count { length self.new.requests ≡ length self.old.requests }
        ensures failure { self.new.failure ≡ self.old.failure }
    {
        if self.is_admitted(number) {
            return self.seat_alone(alloc, number, out);
        }
        if self.is_waiting(number) {
            return self.admit_alone(alloc, number, out);
        }
        Ok(false)
    }
}

/// The request of this number leaves these, if it is one of them. The answer is a copy of it. After an error nothing has
/// changed.
fn take_entry(
    alloc: Global,
    entries: &mut Queue<Waiting>,
    number: u32,
) -> Result<Option<Waiting>, AllocError>
    ensures found { IfOk result (λ found. found ≡ entry_of number entries.old) }
    ensures left { OnOk result (entries.new ≡ without number entries.old) }
    ensures err { OnErr result (entries.new ≡ entries.old) }
{
    match place_of(entries, number) {
        Some(index) => {
            let entry = entries.at(index).clone(alloc)?;
            entries.remove(index);
            Ok(Some(entry))
        }
        None => Ok(None),
    }
}

/// Where the first of these is that is the request of this number.
fn place_of(waiting: &Queue<Waiting>, number: u32) -> Option<usize>
    ensures { MatchOption result (entry_of number waiting.now ≡ None)
        (λ i. IsPlaceOf number waiting.now i) }
{
    let len = waiting.len();
    for index in 0..len {
        if is_of(waiting.at(index), number) {
            return Some(index);
        }
    }
    None
}

fn is_of(request: &Waiting, number: u32) -> bool
    ensures { result ≡ has_number number request.now }
{
    request.number == number
}

/// Starts what may start on a link.
fn start_ready(
    alloc: Global,
    link: &mut LinkCore,
    starts: &mut Vec<Started>,
) -> Result<(), ConnectionError>
    ensures ok { OnOk result (
        starting_with link.new starts.new.items
        ≡ started_all (starting_with link.old starts.old.items)
        ) }
    ensures spent { IsErrOf result ConnectionError.Spent
        → is_spent (started_all (starting_with link.old starts.old.items)).link ≡ true }
{
    match link.start_ready(alloc, starts) {
        Ok(()) => Ok(()),
        Err(StartError::Spent) => Err(ConnectionError::Spent),
        Err(StartError::NoMemory) => Err(ConnectionError::NoMemory),
    }
}
