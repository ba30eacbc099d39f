ghost use Rattle.std.specs.Prelude.{◌≡◌, ◌+◌, ◌-◌, ◌*◌, ◌≤◌, ◌<◌, [], ◌++◌, length, OnOk, OnErr, IsErrOf, IsOk, IsErr, IsTrue, ◌↔◌};
ghost use Rattle.resp_read.specs.declared.reader.Health.TheVariants.{Sound, Malformed, NoMemory};
ghost use Rattle.resp_read.specs.Limits.{default_limits, nearest_allowed, AreAllowed};
ghost use Rattle.resp_read.specs.State.{unseen};
ghost use Rattle.resp_read.specs.Reading.{kept_of, NextValue, NextFound, Pumps, FailsAgain, joined, ReadsPieces};

use crate::course::Course;
use crate::forms::Refusal;
use crate::limits::Limits;
use crate::tape::Steps;
use containers::Bytes;
use resp_value::Value;
use std::alloc::{AllocError, Global};
use std::marker::{Brand, Model};
use std::sync::ledger::{Blank, Ledger};
use thiserror::Error;

/// Whether a reader still reads.
#[derive(Clone, Copy)]
pub enum Health {
    Sound,
    /// The bytes begin no value.
    Malformed,
    /// Memory was refused.
    NoMemory,
}

/// Why a reader gives no value.
#[derive(Clone, Copy, Debug, PartialEq, Eq, Error)]
pub enum ReadError {
    /// The bytes begin no value, whatever follows them. The reader reads no further.
    #[error("the bytes begin no value of RESP")]
    Parse,
    /// Memory was refused, now or before. The reader reads no further.
    #[error("memory was refused while a value was read")]
    NoMemory,
}

impl From<AllocError> for ReadError {
    ghost use Rattle.std.specs.Prelude.{◌≡◌};
    ghost use Rattle.resp_read.specs.declared.reader.ReadError.TheVariants.{NoMemory};

    ghost from_gives = { λ _ e. e ≡ NoMemory };

    fn from(_error: AllocError) -> Self {
        ReadError::NoMemory
    }
}

/// How many bytes of room a reader keeps for those to come: two pieces of 65,536, so that room is not given back and taken
/// again with each of them.
const KEPT_ROOM: usize = 131_072;

/// Reads values from bytes that come in pieces. However they are cut, it goes on where it was: of the bytes that it holds it looks
/// at each once, and copies each once at most.
///
/// What it holds of a reply under way: the bytes fed that no value given was made of, and the values that were made of
/// them and stand in aggregates that are not whole. The bytes go once they are no fewer than half of all that it holds,
/// so these are at most twice those of the reply, in room that grows by doubling. Where a value was given and no more than
/// a quarter of that room is in use, what is more than 131,072 bytes of it is given back.
pub struct Reader {
    course: Course,
    /// The bytes that were there at once at most, since room was last given back.
    room: usize,
    /// How many of the bytes left were looked at when all were last pumped.
    seen: usize,
    health: Health,
    limits: Limits,
}

impl Drop for Reader {
    fn drop(self) {
        let Reader {
            course,
            room: _,
            seen: _,
            health: _,
            limits: _,
        } = self;
        drop(course);
    }
}

impl Model for Reader {
    ghost use Rattle.resp_read.specs.State.{ReaderState};
    ghost use Rattle.resp_read.specs.Courses.{rest_of, IsReading};

    ghost Value = { ReaderState };

    ghost view = { λ r. record { health = r.health; rest = rest_of r.course; seen = r.seen; limits = r.limits } };

    ghost invariant = { λ r. IsReading r.limits r.course r.seen r.health };
}

impl Reader {
    /// A reader that was fed nothing, with the default limits. Takes no memory.
    pub fn new(alloc: Global) -> Reader
        ensures { result ≡ record { health = Sound; rest = []; seen = 0; limits = default_limits } }
    {
        Reader::within(alloc, Limits::default())
    }

    /// A reader that was fed nothing, with the allowed limits that are nearest to these. Takes no memory.
    ///
    /// They bound the memory of a reply under way. A value that holds no others has at most `line + bulk + 5` bytes; where
    /// `depth` nested forms may stand in one another, a value has at most so many and `2 * count + 1` times as many as one of
    /// a depth less. So much is held at most of a value that is not whole, as bytes and as the values read of it.
    /// Where replies may be nested that is much: to bound them further, compare `buffered_len` with a limit of your own.
    pub fn with_limits(alloc: Global, limits: Limits) -> Reader
        ensures { result
            ≡ record { health = Sound; rest = []; seen = 0; limits = nearest_allowed limits } }
    {
        Reader::within(alloc, limits.nearest_allowed())
    }

    fn within(alloc: Global, limits: Limits) -> Reader
        requires { AreAllowed limits }
        ensures { result ≡ record { health = Sound; rest = []; seen = 0; limits = limits } }
    {
        Reader {
            course: Course::new(alloc),
            room: 0,
            seen: 0,
            health: Health::Sound,
            limits,
        }
    }

    /// Feeds pieces to a new reader, with the allowed limits that are nearest to these, and appends every value that is whole.
    /// However the text is cut, each of its bytes takes two steps at most.
    ///
    /// # Errors
    /// `Parse`: what follows the values appended begins no value within the limits. `NoMemory`: memory was refused; some of the
    /// values may have been appended.
    pub fn from_pieces<L: Ledger>(
        alloc: Global,
        limits: Limits,
        pieces: &[Bytes],
        out: &mut Vec<Value>,
        steps: &mut Steps<L>,
    ) -> Result<Reader, ReadError>
        ensures reads { ReadsPieces (nearest_allowed limits) (joined pieces.now) out.old.items result out.new.items }
        ensures costs { steps.new ≤ steps.old + 2 * length (joined pieces.now) }
    {
        let within = limits.nearest_allowed();
        let mut reader = Reader::within(alloc, within);
        for piece in pieces {
            match reader.pump(alloc, piece.as_slice(), out, steps) {
                Ok(()) => {}
                Err(error) => return Err(error),
            }
        }
        Ok(reader)
    }

    /// What it takes at most.
    pub fn limits(&self) -> Limits
        ensures { result ≡ self.now.limits }
    {
        self.limits
    }

    /// How many bytes it was fed that no value given was made of.
    pub fn buffered_len(&self) -> usize
        ensures { result ≡ length self.now.rest }
    {
        self.course.left()
    }

    /// Forgets the bytes of the values given, where they are no fewer than the others: so no more bytes are ever moved than
    /// are forgotten.
    fn forget_given(&mut self)
        requires { self.old.health ≡ Sound }
        ensures { self.new ≡ self.old }
    {
        if self.course.at >= self.course.left() {
            self.course.forget_given();
        }
    }

    /// Gives room back where it is much, and no more than a quarter of it is in use: so less is moved than was read.
    fn give_room_back(&mut self, alloc: Global)
        requires { self.old.health ≡ Sound }
        ensures { self.new ≡ self.old }
    {
        let left = self.course.left();
        if self.room <= KEPT_ROOM || left > self.room / 4 {
            return;
        }
        if self.course.give_room_back(alloc) {
            self.room = left;
        }
    }

    /// Adds bytes to those not yet read. After `Parse` it keeps none of them.
    ///
    /// # Errors
    /// `AllocError`: memory was refused, now or before, and the reader reads no further.
    pub fn feed(&mut self, piece: &[u8]) -> Result<(), AllocError>
        ensures ok { OnOk result (self.new
            ≡ record self.old { rest = kept_of self.old.health self.old.rest piece.now }) }
        ensures err { OnErr result (self.new ≡ record self.old { health = NoMemory }) }
        ensures failed { self.old.health ≡ NoMemory → IsErr result }
        ensures malformed { self.old.health ≡ Malformed → IsOk result }
    {
        match self.health {
            Health::NoMemory => Err(AllocError),
            Health::Malformed => Ok(()),
            Health::Sound => {
                self.forget_given();
                match self.course.feed(piece) {
                    Ok(()) => {
                        self.room = self.room.max(self.course.tape.len());
                        Ok(())
                    }
                    Err(error) => {
                        self.health = Health::NoMemory;
                        Err(error)
                    }
                }
            }
        }
    }

    /// The next value within its limits, or none where more bytes are wanted.
    ///
    /// # Errors
    /// `Parse`: what is left begins no value within the limits, whatever follows. `NoMemory`: memory was refused, now or before. After
    /// either the reader reads no further.
    pub fn next_value(&mut self, alloc: Global) -> Result<Option<Value>, ReadError>
        ensures value { NextValue result self.old self.new }
        ensures found { NextFound result self.old self.new }
    {
        match self.health {
            Health::NoMemory => Err(ReadError::NoMemory),
            Health::Malformed => Err(ReadError::Parse),
            Health::Sound => self.read_on::<Brand>(alloc, Blank::new(1)),
        }
    }

    /// The same of a sound reader. Its steps are of the ledger that `blank` is to be.
    fn read_on<L: Ledger>(
        &mut self,
        alloc: Global,
        blank: Blank,
    ) -> Result<Option<Value>, ReadError>
        requires name { blank.name ≡ L.name }
        requires parts { blank.parts ≡ L.parts }
        requires some { 0 < blank.parts }
        requires sound { self.old.health ≡ Sound }
        ensures value { NextValue result self.old self.new }
        ensures found { NextFound result self.old self.new }
    {
        let mut steps = Steps::<L>::new(blank);
        match self.course.next(alloc, self.limits, &mut steps) {
            Ok(value) => {
                self.seen = 0;
                self.give_room_back(alloc);
                Ok(Some(value))
            }
            Err(Refusal::Short) => Ok(None),
            Err(Refusal::Bad) => {
                self.health = Health::Malformed;
                Err(ReadError::Parse)
            }
            Err(Refusal::NoMemory) => {
                self.health = Health::NoMemory;
                Err(ReadError::NoMemory)
            }
        }
    }

    /// Adds bytes to those not yet read, and appends every value that is whole then. However the bytes are cut, each takes two
    /// steps at most: one to look at it, and one to copy it.
    ///
    /// # Errors
    /// `Parse`: what is left behind the values appended begins no value within the limits, whatever follows. `NoMemory`: memory
    /// was refused, now or before, and `out` is as it was. After either the reader reads no further.
    pub fn pump<L: Ledger>(
        &mut self,
        alloc: Global,
        piece: &[u8],
        out: &mut Vec<Value>,
        steps: &mut Steps<L>,
    ) -> Result<(), ReadError>
        ensures pumps { self.old.health ≡ Sound
            → Pumps self.old.limits (self.old.rest ++ piece.now) out.old.items result self.new out.new.items }
        ensures failed { (self.old.health ≡ Sound → ⊥)
            → FailsAgain result self.old self.new out.old.items out.new.items }
        ensures memory { IsErrOf result ReadError.NoMemory → out.new.items ≡ out.old.items }
        ensures costs { steps.new + 2 * unseen self.new
            ≤ steps.old + 2 * unseen self.old + 2 * length piece.now }
    {
        match self.health {
            Health::NoMemory => Err(ReadError::NoMemory),
            Health::Malformed => Err(ReadError::Parse),
            Health::Sound => match self.feed(piece) {
                Ok(()) => self.read_all(alloc, out, steps),
                Err(_) => Err(ReadError::NoMemory),
            },
        }
    }

    /// Appends every value that is whole. Where memory is refused, `out` is as it was.
    fn read_all<L: Ledger>(
        &mut self,
        alloc: Global,
        out: &mut Vec<Value>,
        steps: &mut Steps<L>,
    ) -> Result<(), ReadError>
        requires { self.old.health ≡ Sound }
        ensures pumps { Pumps self.old.limits self.old.rest out.old.items result self.new out.new.items }
        ensures memory { IsErrOf result ReadError.NoMemory → out.new.items ≡ out.old.items }
        ensures costs { steps.new + 2 * unseen self.new ≤ steps.old + 2 * unseen self.old }
    {
        let before = out.len();
        match self.course.next_all(alloc, self.limits, out, steps) {
            Ok(()) => {
                self.seen = self.course.looked_at();
                self.give_room_back(alloc);
                Ok(())
            }
            Err(Refusal::Bad) => {
                self.seen = self.course.left();
                self.health = Health::Malformed;
                Err(ReadError::Parse)
            }
            Err(Refusal::NoMemory) => {
                out.truncate(before);
                self.seen = self.course.left();
                self.health = Health::NoMemory;
                Err(ReadError::NoMemory)
            }
            Err(Refusal::Short) => unreachable!(),
        }
    }

    /// Whether the bytes begin no value.
    pub fn is_malformed(&self) -> bool
        ensures { IsTrue result ↔ (self.now.health ≡ Malformed) }
    {
        match self.health {
            Health::Malformed => true,
            Health::Sound | Health::NoMemory => false,
        }
    }
}
