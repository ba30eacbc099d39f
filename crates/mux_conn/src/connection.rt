ghost use Rattle.std.specs.Prelude.{◌≡◌, ◌<◌, ◌≤◌, ◌^◌, ◌++◌, ◌∷◌, [], length, OnOk, OnErr, IfOk};
ghost use Rattle.std.specs.Prelude.{true, min, unwrap_or, ◌+◌};
ghost use Rattle.mux_conn.specs.Requests.{given_back};

use crate::act::{LinkAct, show};
use crate::again::Again;
use crate::errors::ConnectionError;
use crate::life::Life;
use crate::renewal::Renewal;
use crate::request::{Pending, Progress, Request, Waiting};
use connection_info::RedisConnectionInfo;
use containers::{Bytes, Queue, Seq};
use driver_model::{Hearing, Outcome, Shape};
use link_core::{NoticeAt, Settled, Spare, Started};
use std::alloc::{AllocError, Global};

/// The numbers of one sort are 0 to 2^32 - 2: so many given out are one too many.
const TOO_MANY: u64 = 1 << 32;

/// One multiplexed connection: how many messages the queue of its link holds, and at how many unwritten bytes none starts;
/// its link's life; its requests by their numbers; those that wait for the connection, and those that wait for a place, in
/// order and some that have gone since; those that came in this turn, and those that were moved in it.
pub struct MultiplexedConnection {
    pub size: u32,
    pub boundary: u64,
    /// How many permits there are, if they are counted, and how many of them nobody holds.
    pub limit: Option<u32>,
    pub free: u32,
    /// What is heard, beside the replies to requests.
    pub hears: Hearing,
    /// What is said to the server before the first request: the address, with the credentials that came of a source.
    pub info: RedisConnectionInfo,
    /// What is said to the server of each new link.
    pub address: RedisConnectionInfo,
    /// The credentials that come of sources.
    pub renewal: Renewal,
    /// What is subscribed again on its link.
    pub again: Again,
    pub life: Life,
    /// Whether no other attempt follows where its opening fails, so that those that wait are answered then.
    pub last: bool,
    /// Whether it was told that it is ready, or that its opening failed.
    pub told: bool,
    /// Whether its link was set up, so that its end is no failed opening.
    pub opened: bool,
    /// Whether the rounds of requests are shown.
    pub rounds: bool,
    pub requests: Seq<Request>,
    pub waiting: Queue<Waiting>,
    pub admitted: Queue<Waiting>,
    pub fresh: Queue<u32>,
    pub moved: Queue<u32>,
    /// Room for the lists of a turn: of what starts, of what the link settles, and of what is to be told.
    pub(crate) starts: Spare<Started>,
    pub(crate) settled: Spare<Settled>,
    pub(crate) notices: Spare<NoticeAt>,
    /// Why every call fails, if it does: a call was refused memory, or a number has run out.
    pub failure: Option<ConnectionError>,
}

impl Drop for MultiplexedConnection {
    fn drop(self) {
        let MultiplexedConnection {
            size: _,
            boundary: _,
            limit: _,
            free: _,
            hears: _,
            info,
            address,
            renewal,
            again,
            life,
            last: _,
            told: _,
            opened: _,
            rounds: _,
            requests,
            waiting,
            admitted,
            fresh,
            moved,
            starts,
            settled,
            notices,
            failure: _,
        } = self;
        drop(info);
        drop(address);
        drop(renewal);
        drop(again);
        drop(life);
        drop(requests);
        drop(waiting);
        drop(admitted);
        drop(fresh);
        drop(moved);
        drop(starts);
        drop(settled);
        drop(notices);
    }
}

impl MultiplexedConnection {
    ghost use Rattle.mux_conn.specs.Requests.{is_open_at, is_waiting_at, is_unbegun_at, is_admitted_at};
    ghost use Rattle.mux_conn.specs.Requests.{is_placed_at, name_at, permits_at, closed, answered};
    ghost use Rattle.mux_conn.specs.Requests.{asked, progressed};
    ghost use Rattle.mux_conn.specs.Connection.{work_with, started_in, is_used_up, admits_none};
    ghost use Rattle.mux_conn.specs.Connection.{has_room};
    ghost use Rattle.mux_conn.specs.Turn.{dialing};

    /// A connection whose connect isn't answered. The queue of its link will hold `size` messages, at least one, and no
    /// message will start on it while `boundary` bytes or more, and at least one, are unwritten. Its requests will hold no
    /// more than `limit` permits, at least one, and where there is no limit they need none. What it `hears` is told, and where that
    /// is pushes, so is an end by a fault. `info` is what is said to the server before the first of them, and `renewal` says
    /// whether credentials come of sources. Its opening is the only attempt, and nothing is subscribed again, until `dial` says
    /// otherwise.
    pub fn new(
        alloc: Global,
        size: u32,
        boundary: u64,
        limit: Option<u32>,
        hears: Hearing,
        info: RedisConnectionInfo,
        renewal: Renewal,
    ) -> Result<MultiplexedConnection, AllocError>
        ensures { IfOk result (λ c. c ≡ dialing size boundary limit hears info renewal) }
    {
        let address = info.clone(alloc)?;
        Ok(MultiplexedConnection {
            size,
            boundary,
            limit,
            free: limit.unwrap_or(0),
            hears,
            info,
            address,
            renewal,
            again: Again::Nothing,
            life: Life::Dialing,
            last: true,
            told: false,
            opened: false,
            rounds: false,
            requests: Seq::new(alloc),
            waiting: Queue::new(alloc),
            admitted: Queue::new(alloc),
            fresh: Queue::new(alloc),
            moved: Queue::new(alloc),
            starts: Spare::new(alloc),
            settled: Spare::new(alloc),
            notices: Spare::new(alloc),
            failure: None,
        })
    }

    /// Whether no request that waits for the connection, or for a permit of it, can be moved.
    pub fn admits_none(&self) -> bool
        ensures { result ≡ admits_none self.now }
    {
        let empty = match self.limit {
            Some(_) => self.free == 0,
            None => false,
        };
        self.life.admits_none(self.again.is_outstanding() || empty)
    }

    /// Whether it is up, and the queue holds less than its size, new credentials counted that are to be told.
    pub fn has_room(&self) -> bool
        ensures { result ≡ has_room self.now }
    {
        self.life.has_room(self.renewal.in_front())
    }

    /// How many messages of its link have started, where it is up.
    pub fn started(&self) -> u32
        ensures { result ≡ started_in self.now.life }
    {
        match &self.life {
            Life::Resting => 0,
            Life::Dialing => 0,
            Life::Wanting { link } => link.started(),
            Life::SettingUp { link, greeting: _ } => link.started(),
            Life::Ready { link } => link.started(),
            Life::Ended { error: _ } => 0,
        }
    }

    /// Whether the number 2^32 - 1 was given to a message of its link, or to new credentials.
    pub fn is_used_up(&self) -> bool
        ensures { result ≡ is_used_up self.now }
    {
        u64::from(self.started()) >= TOO_MANY || u64::from(self.renewal.asked) >= TOO_MANY
    }

    /// Whether a request is neither answered nor left by its caller.
    pub fn is_open(&self, number: u64) -> bool
        ensures value { result ≡ is_open_at self.now.requests number }
        ensures there { result ≡ true → number < length self.now.requests }
    {
        if number >= self.requests.len() as u64 {
            return false;
        }
        match self.requests.at(number as usize).progress {
            Progress::Waiting => true,
            Progress::Begun => true,
            Progress::Admitted => true,
            Progress::Placed => true,
            Progress::Closed => false,
        }
    }

    /// Whether a request waits for the connection, or for a permit of it.
    pub fn is_waiting(&self, number: u32) -> bool
        ensures value { result ≡ is_waiting_at self.now.requests number }
        ensures there { result ≡ true → number < length self.now.requests }
    {
        if number as usize >= self.requests.len() {
            return false;
        }
        match self.requests.at(number as usize).progress {
            Progress::Waiting => true,
            Progress::Begun => true,
            Progress::Admitted => false,
            Progress::Placed => false,
            Progress::Closed => false,
        }
    }

    /// Whether a request waits, and its round hasn't begun.
    pub(crate) fn is_unbegun(&self, number: u32) -> bool
        ensures value { result ≡ is_unbegun_at self.now.requests number }
        ensures there { result ≡ true → number < length self.now.requests }
    {
        if number as usize >= self.requests.len() {
            return false;
        }
        match self.requests.at(number as usize).progress {
            Progress::Waiting => true,
            Progress::Begun => false,
            Progress::Admitted => false,
            Progress::Placed => false,
            Progress::Closed => false,
        }
    }

    /// Whether a request waits for a place.
    pub fn is_admitted(&self, number: u32) -> bool
        ensures value { result ≡ is_admitted_at self.now.requests number }
        ensures there { result ≡ true → number < length self.now.requests }
    {
        if number as usize >= self.requests.len() {
            return false;
        }
        match self.requests.at(number as usize).progress {
            Progress::Waiting => false,
            Progress::Begun => false,
            Progress::Admitted => true,
            Progress::Placed => false,
            Progress::Closed => false,
        }
    }

    /// Whether a request is in the queue, or its message has started.
    pub fn is_placed(&self, number: u32) -> bool
        ensures { result ≡ is_placed_at self.now.requests number }
    {
        if number as usize >= self.requests.len() {
            return false;
        }
        match self.requests.at(number as usize).progress {
            Progress::Waiting => false,
            Progress::Begun => false,
            Progress::Admitted => false,
            Progress::Placed => true,
            Progress::Closed => false,
        }
    }

    /// The name of a request, and 0 where there is none of that number.
    pub fn name(&self, number: u64) -> u32
        ensures { result ≡ name_at self.now.requests number }
    {
        if number >= self.requests.len() as u64 {
            return 0;
        }
        self.requests.at(number as usize).name
    }

    /// How many permits a request holds, and 0 where there is none of that number.
    pub fn permits(&self, number: u64) -> u32
        ensures { result ≡ permits_at self.now.requests number }
    {
        if number >= self.requests.len() as u64 {
            return 0;
        }
        self.requests.at(number as usize).permits
    }

    /// From now on this is how far its link has come.
    pub(crate) fn come_to(&mut self, life: Life)
        ensures { self.new ≡ record self.old { life = life } }
    {
        drop(std::mem::replace(&mut self.life, life));
    }

    /// A request has come so far, and holds as many permits as before.
    pub(crate) fn set_progress(&mut self, number: u32, progress: Progress)
        requires { number < length self.old.requests }
        ensures work { work_with self.new []
            ≡ progressed (work_with self.old []) number progress }
        ensures count { length self.new.requests ≡ length self.old.requests }
        ensures failure { self.new.failure ≡ self.old.failure }
    {
        let name = self.name(u64::from(number));
        let permits = self.permits(u64::from(number));
        self.requests.set(
            number as usize,
            Request {
                name,
                progress,
                permits,
            },
        );
    }

    /// A request is closed, and its permits are free. Takes no memory.
    pub(crate) fn close(&mut self, number: u64)
        requires { number < length self.old.requests }
        ensures conn { self.new ≡ closed self.old number }
        ensures count { length self.new.requests ≡ length self.old.requests }
        ensures failure { self.new.failure ≡ self.old.failure }
    {
        let name = self.name(number);
        let permits = self.permits(number);
        self.requests.set(
            number as usize,
            Request {
                name,
                progress: Progress::Closed,
                permits: 0,
            },
        );
        self.free = give_back(self.limit, self.free, permits);
    }

    /// A request that is open is answered.
    pub fn answer(
        &mut self,
        number: u64,
        outcome: Outcome,
        out: &mut Vec<LinkAct>,
    ) -> Result<(), AllocError>
        ensures work { OnOk result (
            work_with self.new out.new.items
            ≡ answered (work_with self.old out.old.items) number outcome
            ) }
        ensures count { length self.new.requests ≡ length self.old.requests }
        ensures failure { self.new.failure ≡ self.old.failure }
    {
        if !self.is_open(number) {
            drop(outcome);
            return Ok(());
        }
        let name = self.name(number);
        self.close(number);
        show(
            out,
            LinkAct::Outcome {
                request: name,
                outcome,
            },
        )?;
        Ok(())
    }

    /// A request of that name, which waits for the connection until the next `step` or `advance`. Its message has these bytes,
    /// which aren't none. Once it has its permits it is to be answered within `timeout` milliseconds, if within any.
    pub fn ask(
        &mut self,
        name: u32,
        packed: Bytes,
        shape: Shape,
        awaited: bool,
        timeout: Option<u64>,
    ) -> Result<Pending, AllocError>
        requires { length self.old.requests < 2 ^ 32 }
        ensures conn { OnOk result (self.new ≡ asked self.old name packed shape awaited timeout) }
        ensures number { IfOk result (λ p. p.number ≡ length self.old.requests) }
    {
        let number = self.requests.len() as u32;
        self.requests.push(Request {
            name,
            progress: Progress::Waiting,
            permits: 0,
        })?;
        self.waiting.push_back(Waiting {
            number,
            packed,
            shape,
            awaited,
            timeout,
        })?;
        self.fresh.push_back(number)?;
        Ok(Pending { number })
    }
}

/// How many permits are free after so many more have come back: no more than there are, where they are counted.
fn give_back(limit: Option<u32>, free: u32, count: u32) -> u32
    ensures { result ≡ given_back limit free count }
{
    let most = u64::from(limit.unwrap_or(0));
    most.min(u64::from(free) + u64::from(count)) as u32
}
