ghost use Rattle.std.specs.Prelude.{◌≡◌, ◌+◌, [], ◌∷◌, ◌++◌, length, OnOk, OnErr};
ghost use Rattle.resp_read.specs.Limits.{AreAllowed};
ghost use Rattle.resp_read.specs.Courses.{rest_of, unread, IsInTape, IsCourse, ReadsNext, NextCosts, AppendsAll, AllCosts};

use crate::forms::Refusal;
use crate::frames::Frame;
use crate::limits::Limits;
use crate::place::{Place, Taken};
use crate::stages::Stage;
use crate::tape::{Steps, Tape};
use crate::underway;
use resp_value::Value;
use std::alloc::{AllocError, Global};
use std::sync::ledger::Ledger;

/// The bytes that a reader was fed, and where it is in them.
pub struct Course {
    pub tape: Tape,
    /// Where the value that is being read begins.
    pub at: usize,
    pub place: Place,
    /// The aggregates that the place stands in, the outermost first.
    pub frames: Vec<Frame>,
}

impl Drop for Course {
    fn drop(self) {
        let Course {
            tape,
            at: _,
            place,
            frames,
        } = self;
        drop(tape);
        drop(place);
        drop(frames);
    }
}

impl Course {
    /// No bytes. Takes no memory.
    pub fn new(alloc: Global) -> Course
        ensures course { (limits : Limits) → IsCourse limits result }
        ensures none { rest_of result ≡ [] }
        ensures unread { unread result ≡ 0 }
    {
        let tape = Tape::new(alloc);
        let line = Taken::new(alloc);
        let frames = Vec::new(alloc);
        let place = Place {
            next: 0,
            stage: Stage::First,
            line,
        };
        Course {
            tape,
            at: 0,
            place,
            frames,
        }
    }

    /// Adds bytes to those not yet read.
    pub fn feed(&mut self, piece: &[u8]) -> Result<(), AllocError>
        requires { IsInTape self.old }
        ensures course { OnOk result
            ((limits : Limits) → IsCourse limits self.old → IsCourse limits self.new) }
        ensures rest { OnOk result (rest_of self.new ≡ rest_of self.old ++ piece.now) }
        ensures unread { OnOk result (unread self.new ≡ unread self.old + length piece.now) }
        ensures err { OnErr result (self.new ≡ self.old) }
    {
        match self.tape.feed(piece) {
            Ok(()) => Ok(()),
            Err(error) => Err(error),
        }
    }

    /// Lets the bytes of the values given go.
    pub fn forget_given(&mut self)
        requires { IsInTape self.old }
        ensures course { (limits : Limits) → IsCourse limits self.old → IsCourse limits self.new }
        ensures rest { rest_of self.new ≡ rest_of self.old }
        ensures unread { unread self.new ≡ unread self.old }
    {
        self.tape.forget(self.at);
        self.place.next -= self.at;
        self.at = 0;
    }

    /// How many bytes no value given was made of.
    pub fn left(&self) -> usize
        ensures { result ≡ length (rest_of self.now) }
    {
        self.tape.len().saturating_sub(self.at)
    }

    /// How many of them it has looked at.
    pub fn looked_at(&self) -> usize
        requires { IsInTape self.now }
        ensures { result + unread self.now ≡ length (rest_of self.now) }
    {
        let unread = self.tape.len() - self.place.next - self.place.line.text.len();
        self.left() - unread
    }

    /// Lets the bytes of the values given go, and gives back the room that the others don't use; answers whether it did.
    pub fn give_room_back(&mut self, alloc: Global) -> bool
        requires { IsInTape self.old }
        ensures course { (limits : Limits) → IsCourse limits self.old → IsCourse limits self.new }
        ensures rest { rest_of self.new ≡ rest_of self.old }
        ensures unread { unread self.new ≡ unread self.old }
    {
        match self.tape.forget_and_shrink(alloc, self.at) {
            Ok(()) => {
                self.place.next -= self.at;
                self.at = 0;
                true
            }
            Err(_) => false,
        }
    }

    /// The next value. `Short`: what was looked at is noted.
    pub fn next<L: Ledger>(
        &mut self,
        alloc: Global,
        limits: Limits,
        steps: &mut Steps<L>,
    ) -> Result<Value, Refusal>
        requires allowed { AreAllowed limits }
        requires course { IsCourse limits self.old }
        ensures reads { ReadsNext limits self.old result self.new }
        ensures costs { NextCosts self.old steps.old result self.new steps.new }
    {
        if self.place.has_too_few(&self.tape) {
            return Err(Refusal::Short);
        }
        match underway::read_from(
            alloc,
            limits,
            &mut self.frames,
            &self.tape,
            &mut self.place,
            steps,
        ) {
            Ok(value) => {
                self.at = self.place.next;
                Ok(value)
            }
            Err(refusal) => Err(refusal),
        }
    }

    /// Appends every value that is whole.
    pub fn next_all<L: Ledger>(
        &mut self,
        alloc: Global,
        limits: Limits,
        out: &mut Vec<Value>,
        steps: &mut Steps<L>,
    ) -> Result<(), Refusal>
        requires allowed { AreAllowed limits }
        requires course { IsCourse limits self.old }
        ensures appends { AppendsAll limits self.old out.old.items result self.new out.new.items }
        ensures costs { AllCosts self.old steps.old result self.new steps.new }
    {
        loop {
            match self.next(alloc, limits, steps) {
                Ok(value) => match keep(out, value) {
                    Ok(()) => {}
                    Err(_) => return Err(Refusal::NoMemory),
                },
                Err(Refusal::Short) => return Ok(()),
                Err(Refusal::Bad) => return Err(Refusal::Bad),
                Err(Refusal::NoMemory) => return Err(Refusal::NoMemory),
            }
        }
    }
}

/// One more value.
fn keep(out: &mut Vec<Value>, value: Value) -> Result<(), AllocError>
    ensures ok { OnOk result (out.new.items ≡ out.old.items ++ value ∷ []) }
    ensures err { OnErr result (out.new.items ≡ out.old.items) }
{
    out.push(value)?;
    Ok(())
}
