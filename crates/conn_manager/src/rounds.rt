ghost use Rattle.std.specs.Prelude.{◌≡◌, ◌<◌, ◌^◌, ◌⊎◌, length, Some, OnOk, IfOk, IsErrOf};
ghost use Rattle.conn_manager.specs.Turn.{numbers_of};

use crate::hearing::RESUBSCRIPTION;
use crate::manager::ConnectionManager;
use crate::request::{HeldRequest, Stage};
use containers::Queue;
use driver_model::WaitKind;
use manager_generations::{ManagerAct, Phase};
use mux_conn::{ConnectionError, Pending};
use std::alloc::{AllocError, Global};

/// The numbers of requests that wait for their generation.
fn numbers(alloc: Global, held: &Queue<HeldRequest>) -> Result<Queue<u32>, AllocError>
    ensures { IfOk result (λ numbers. numbers ≡ numbers_of held.now) }
{
    let mut numbers = Queue::new(alloc);
    let count = held.len();
    for index in 0..count {
        numbers.push_back(held.at(index).number)?;
    }
    Ok(numbers)
}

impl ConnectionManager {
    ghost use Rattle.conn_manager.specs.Manager.{nobody_held, standing};
    ghost use Rattle.conn_manager.specs.Spending.{SpendsAdvance, SpendsRound, SpendsRounds, SpendsPass};
    ghost use Rattle.conn_manager.specs.Turn.{handed, advanced, round, round_each, rounds};
    ghost use Rattle.conn_manager.specs.Turn.{connection_passed, passed};

    /// A request is handed to the link.
    pub(crate) fn hand(&mut self, request: HeldRequest) -> Result<(), AllocError>
        requires there { request.number < length self.old.stages }
        requires few { length self.old.conn.requests < 2 ^ 32 }
        ensures done { OnOk result (self.new ≡ handed self.old request) }
        ensures outcomes { self.new.outcomes ≡ self.old.outcomes }
        ensures stands { standing self.new ≡ standing self.old }
    {
        let HeldRequest {
            number,
            packed,
            shape,
            awaited,
        } = request;
        let link = self.link();
        let timeout = self.generations.settings.config.response_timeout();
        let asked = self.conn.ask(number, packed, shape, awaited, timeout)?;
        self.stages.set(
            number as usize,
            Stage::Sent {
                link,
                number: asked.number,
            },
        );
        self.say(ManagerAct::Round {
            request: Pending { number },
            link,
        })
    }

    /// A request of the connection is moved as far as it can go.
    fn advance(&mut self, alloc: Global, draw: u64, number: u32) -> Result<(), ConnectionError>
        ensures done { OnOk result (self.new ≡ advanced self.old draw number) }
        ensures spent { IsErrOf result ConnectionError.Spent → SpendsAdvance self.old number }
        ensures stands { standing self.new ≡ standing self.old }
    {
        let mut acts = Vec::new(alloc);
        match self.conn.advance(alloc, Pending { number }, &mut acts) {
            Ok(_) => {}
            Err(error) => return Err(error),
        }
        self.note_each(alloc, draw, acts)?;
        Ok(())
    }

    /// A request that waited for its generation has its round.
    fn round(
        &mut self,
        alloc: Global,
        draw: u64,
        request: HeldRequest,
    ) -> Result<(), ConnectionError>
        ensures done { OnOk result (self.new ≡ round self.old draw request) }
        ensures spent { IsErrOf result ConnectionError.Spent → SpendsRound self.old request }
        ensures stands { standing self.new ≡ standing self.old }
    {
        if !self.is_held(request.number) {
            return Ok(());
        }
        let number = self.conn.requests.len();
        if number >= RESUBSCRIPTION as usize {
            return Err(ConnectionError::Spent);
        }
        self.hand(request)?;
        self.advance(alloc, draw, number as u32)
    }

    /// Each of these requests has its round.
    fn round_each(
        &mut self,
        alloc: Global,
        draw: u64,
        requests: Queue<HeldRequest>,
    ) -> Result<(), ConnectionError>
        ensures done { OnOk result (self.new ≡ round_each self.old draw requests) }
        ensures spent { IsErrOf result ConnectionError.Spent → SpendsRounds self.old draw requests }
        ensures stands { standing self.new ≡ standing self.old }
    {
        let mut rest = requests;
        while let Some(request) = rest.pop_front() {
            match self.round(alloc, draw, request) {
                Ok(()) => {}
                Err(error) => return Err(error),
            }
        }
        Ok(())
    }

    /// Those that waited for the generation have their rounds in order, once it is ready.
    fn run_rounds(&mut self, alloc: Global, draw: u64) -> Result<(), ConnectionError>
        ensures done { OnOk result (self.new ≡ rounds self.old draw) }
        ensures spent { IsErrOf result ConnectionError.Spent
            → SpendsRounds (nobody_held self.old) draw self.old.held }
        ensures stands { standing self.new ≡ standing self.old }
    {
        if !self.generations.phase.is_ready() {
            return Ok(());
        }
        let held = std::mem::replace(&mut self.held, Queue::new(alloc));
        self.fresh = Queue::new(alloc);
        self.round_each(alloc, draw, held)
    }

    /// Requests of the connection are moved as far as they can go.
    fn pass_connection(&mut self, alloc: Global, draw: u64) -> Result<(), ConnectionError>
        ensures done { OnOk result (self.new ≡ connection_passed self.old draw) }
        ensures spent { IsErrOf result ConnectionError.Spent → SpendsPass self.old }
        ensures stands { standing self.new ≡ standing self.old }
    {
        let mut acts = Vec::new(alloc);
        match self.conn.advance_all(alloc, &mut acts) {
            Ok(()) => {}
            Err(error) => return Err(error),
        }
        self.note_each(alloc, draw, acts)?;
        Ok(())
    }

    /// Requests are moved as far as they can go.
    pub(crate) fn pass(&mut self, alloc: Global, draw: u64) -> Result<(), ConnectionError>
        ensures done { OnOk result (self.new ≡ passed self.old draw) }
        ensures spent { IsErrOf result ConnectionError.Spent
            → SpendsPass self.old
            ⊎ SpendsRounds (nobody_held (connection_passed self.old draw)) draw (connection_passed self.old draw).held }
        ensures stands { standing self.new ≡ standing self.old }
    {
        match self.pass_connection(alloc, draw) {
            Ok(()) => {}
            Err(error) => return Err(error),
        }
        self.run_rounds(alloc, draw)
    }
}

impl ConnectionManager {
    ghost use Rattle.conn_manager.specs.Manager.{standing};
    ghost use Rattle.conn_manager.specs.Turn.{held_wait, wait_shown, wait_shown_each, is_shown, to_show};
    ghost use Rattle.conn_manager.specs.Turn.{with_wait, held_shown_as, held_shown, flushed};

    /// What those wait for that wait for their generation.
    fn held_wait(&self) -> Option<WaitKind>
        ensures { result ≡ held_wait self.now.generations.phase self.now.conn.life }
    {
        match &self.generations.phase {
            Phase::Opening => Some(self.conn.life.early_wait()),
            Phase::Resting => Some(WaitKind::Backoff),
            Phase::Resubscribing => Some(WaitKind::Resubscribe),
            Phase::Idle => None,
            Phase::Ready => None,
            Phase::Lost => None,
            Phase::Failed { error: _ } => None,
        }
    }

    /// Whether this wait was shown before.
    fn is_shown(&self, wait: WaitKind) -> bool
        ensures { result ≡ is_shown self.now.wait wait }
    {
        match self.wait {
            None => false,
            Some(before) => before.code() == wait.code(),
        }
    }

    /// The wait of a request is shown, where it waits for its generation.
    fn show_wait(&mut self, wait: WaitKind, number: u32) -> Result<(), AllocError>
        ensures done { OnOk result (self.new ≡ wait_shown self.old wait number) }
        ensures stands { standing self.new ≡ standing self.old }
    {
        if !self.is_held(number) {
            return Ok(());
        }
        self.say(ManagerAct::Wait {
            request: Pending { number },
            wait,
        })
    }

    /// The waits of these requests are shown.
    fn show_each(&mut self, wait: WaitKind, requests: Queue<u32>) -> Result<(), AllocError>
        ensures done { OnOk result (self.new ≡ wait_shown_each self.old wait requests) }
        ensures stands { standing self.new ≡ standing self.old }
    {
        let mut rest = requests;
        while let Some(number) = rest.pop_front() {
            self.show_wait(wait, number)?;
        }
        Ok(())
    }

    /// Whose wait is to be shown: of all where it changed, and else of those that came in this turn, which are taken out.
    fn take_unshown(&mut self, alloc: Global, wait: WaitKind) -> Result<Queue<u32>, AllocError>
        ensures value { IfOk result (λ numbers. numbers ≡ to_show self.old wait) }
        ensures rest { OnOk result (self.new ≡ with_wait self.old (Some wait)) }
        ensures stands { standing self.new ≡ standing self.old }
    {
        let shown = self.is_shown(wait);
        self.wait = Some(wait);
        let fresh = std::mem::replace(&mut self.fresh, Queue::new(alloc));
        if shown {
            return Ok(fresh);
        }
        numbers(alloc, &self.held)
    }

    /// The waits of those that wait for their generation are shown, where they began or changed.
    fn show_held(&mut self, alloc: Global) -> Result<(), AllocError>
        ensures done { OnOk result (self.new ≡ held_shown self.old) }
        ensures stands { standing self.new ≡ standing self.old }
    {
        match self.held_wait() {
            None => {
                self.wait = None;
                self.fresh = Queue::new(alloc);
                Ok(())
            }
            Some(wait) => {
                let unshown = self.take_unshown(alloc, wait)?;
                self.show_each(wait, unshown)
            }
        }
    }

    /// What a turn ends with: the link's one write, and the waits that began.
    pub(crate) fn flush(&mut self, alloc: Global, draw: u64) -> Result<(), ConnectionError>
        ensures done { OnOk result (self.new ≡ flushed self.old draw) }
        ensures spent { IsErrOf result ConnectionError.Spent
            → self.old.conn.failure ≡ Some ConnectionError.Spent }
        ensures stands { standing self.new ≡ standing self.old }
    {
        let mut acts = Vec::new(alloc);
        match self.conn.flush(alloc, &mut acts) {
            Ok(()) => {}
            Err(error) => return Err(error),
        }
        self.note_each(alloc, draw, acts)?;
        self.show_held(alloc)?;
        Ok(())
    }
}
