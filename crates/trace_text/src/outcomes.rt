ghost use Rattle.std.specs.Prelude.{◌≡◌, ◌++◌, OnOk};
ghost use Rattle.trace_text.specs.Words.{following};
ghost use Rattle.trace_text.specs.Show.{outcome_words};
ghost use Rattle.trace_text.specs.Writer.{AddedWords};

use crate::writer::Writer;
use driver_model::Outcome;
use std::alloc::AllocError;

impl Writer {
    /// The words of what a submission came to.
    pub fn outcome(&mut self, outcome: &Outcome) -> Result<(), AllocError>
        ensures before { self.new.before ≡ self.old.before }
        ensures ok { OnOk result (AddedWords self.old self.new (outcome_words outcome.now)) }
    {
        match outcome {
            Outcome::One(value) => {
                self.literal(b"ok")?;
                self.value_word(value)
            }
            Outcome::Many(values) => {
                self.literal(b"many")?;
                self.list_word(values)
            }
            Outcome::Done => self.literal(b"done"),
            Outcome::Fault(error) => {
                self.literal(b"err")?;
                self.error(error)
            }
        }
    }
}
