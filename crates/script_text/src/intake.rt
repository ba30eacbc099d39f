ghost use Rattle.std.specs.Prelude.{◌≡◌, ◌≤◌, ℕ, List, [], ◌∷◌, ◌++◌, length, take, true, OnOk, OnErr, IfOk};
ghost use Rattle.std.specs.Bool.{MatchBool};
ghost use Rattle.script_text.specs.Limits.{keeps_limits, limited, is_within, Counts, IsRefused};

use crate::script::{MAX_LINE, MAX_LINES, MAX_TEXT};
use containers::Bytes;
use std::alloc::{AllocError, Global};
use std::marker::Model;

/// How many bytes came, how many lines an LF ended, and how many bytes came behind the last LF.
#[derive(Clone, Copy)]
struct Tally {
    bytes: usize,
    lines: u32,
    line: usize,
}

/// Whether no byte that was counted stands beyond a limit.
fn keeps_within(tally: Tally) -> bool
    ensures { result ≡ is_within tally }
{
    if tally.bytes > MAX_TEXT || tally.line > MAX_LINE {
        return false;
    }
    if tally.line == 0 {
        tally.lines <= MAX_LINES
    } else {
        tally.lines < MAX_LINES
    }
}

/// Counts one more byte.
fn with_byte(tally: Tally, byte: u8) -> Tally
    requires { is_within tally ≡ true }
    ensures { (text : List ℕ) → Counts tally text → Counts result (text ++ byte ∷ []) }
{
    if byte == b'\n' {
        Tally {
            bytes: tally.bytes + 1,
            lines: tally.lines + 1,
            line: 0,
        }
    } else {
        Tally {
            bytes: tally.bytes + 1,
            lines: tally.lines,
            line: tally.line + 1,
        }
    }
}

/// Counts bytes up to the first that stands beyond a limit, and says how many they are.
fn count_in(tally: &mut Tally, piece: &[u8]) -> usize
    ensures fits { result ≤ length piece.now }
    ensures counts { (text : List ℕ) → Counts tally.old text
        → Counts tally.new (text ++ take result piece.now) }
    ensures limits { (text : List ℕ) → Counts tally.old text
        → limited text piece.now ≡ text ++ take result piece.now }
{
    for (count, byte) in piece.iter().enumerate() {
        if !keeps_within(*tally) {
            return count;
        }
        *tally = with_byte(*tally, *byte);
    }
    piece.len()
}

/// A text that comes in pieces, kept up to the first byte that stands beyond a limit. Contracts see what is kept.
#[derive(Drop)]
pub struct Intake {
    kept: Bytes,
    tally: Tally,
}

impl Model for Intake {
    ghost use Rattle.std.specs.Prelude.{List, ℕ};

    ghost Value = { List ℕ };

    ghost use Rattle.script_text.specs.Limits.{Counts};

    ghost view = { λ i. i.kept };

    ghost invariant = { λ i. Counts i.tally i.kept };
}

impl Intake {
    /// Nothing has come. Takes no memory.
    pub fn new(alloc: Global) -> Intake
        ensures { result ≡ [] }
    {
        Intake {
            kept: Bytes::new(alloc),
            tally: Tally {
                bytes: 0,
                lines: 0,
                line: 0,
            },
        }
    }

    /// Whether more may come. Where not, the text is at fault whatever comes, and nothing more is kept.
    pub fn push(&mut self, piece: &[u8]) -> Result<bool, AllocError>
        ensures text { OnOk result (self.new ≡ limited self.old piece.now) }
        ensures limits { IfOk result (λ goes_on. goes_on ≡ keeps_limits self.new) }

        // All is kept, or the text is at fault in the same line as what is kept.
        ensures answer { IfOk result (λ goes_on. MatchBool goes_on
            (self.new ≡ self.old ++ piece.now)
            (IsRefused (self.old ++ piece.now) self.new)) }
        ensures err { OnErr result (self.new ≡ self.old) }
    {
        let mut tally = self.tally;
        let count = count_in(&mut tally, piece);
        self.kept.extend_from_slice(&piece[..count])?;
        self.tally = tally;
        Ok(keeps_within(tally))
    }

    /// What is kept.
    pub fn text(&self) -> &[u8]
        ensures { result.now ≡ self.now }
    {
        self.kept.as_slice()
    }
}
