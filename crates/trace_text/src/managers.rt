ghost use Rattle.std.specs.Prelude.{◌≡◌, OnOk};
ghost use Rattle.trace_text.specs.Show.{retries_words, min_words, max_words, base_words, resub_words};
ghost use Rattle.trace_text.specs.Show.{delay_words, manager_words};
ghost use Rattle.trace_text.specs.Writer.{AddedWords};

use crate::writer::Writer;
use driver_model::ManagerWords;
use std::alloc::AllocError;

impl Writer {
    /// How many attempts to connect there are after the first, where it is given.
    fn retries(&mut self, retries: Option<u32>) -> Result<(), AllocError>
        ensures before { self.new.before ≡ self.old.before }
        ensures ok { OnOk result (AddedWords self.old self.new (retries_words retries)) }
    {
        match retries {
            None => Ok(()),
            Some(count) => self.number_behind(b"retries=", u64::from(count)),
        }
    }

    /// Below how many milliseconds the first delay lies, where it is given.
    fn first_delay(&mut self, min: Option<u64>) -> Result<(), AllocError>
        ensures before { self.new.before ≡ self.old.before }
        ensures ok { OnOk result (AddedWords self.old self.new (min_words min)) }
    {
        match min {
            None => Ok(()),
            Some(ms) => self.number_behind(b"min=", ms),
        }
    }

    /// How many milliseconds a delay has at most, where it is given.
    fn longest_delay(&mut self, max: Option<Option<u64>>) -> Result<(), AllocError>
        ensures before { self.new.before ≡ self.old.before }
        ensures ok { OnOk result (AddedWords self.old self.new (max_words max)) }
    {
        match max {
            None => Ok(()),
            Some(None) => self.literal(b"max=none"),
            Some(Some(ms)) => self.number_behind(b"max=", ms),
        }
    }

    /// By what delays grow, where it is given.
    fn growth(&mut self, base: Option<(u32, u32)>) -> Result<(), AllocError>
        ensures before { self.new.before ≡ self.old.before }
        ensures ok { OnOk result (AddedWords self.old self.new (base_words base)) }
    {
        match base {
            None => Ok(()),
            Some((numerator, denominator)) => {
                self.fraction_behind(b"base=", numerator, denominator)
            }
        }
    }

    /// Whether what was subscribed is subscribed again, where it is given.
    fn resubscription(&mut self, resub: Option<bool>) -> Result<(), AllocError>
        ensures before { self.new.before ≡ self.old.before }
        ensures ok { OnOk result (AddedWords self.old self.new (resub_words resub)) }
    {
        match resub {
            None => Ok(()),
            Some(true) => self.literal(b"resub=on"),
            Some(false) => self.literal(b"resub=off"),
        }
    }

    /// What is given of the delays.
    fn delays(&mut self, words: &ManagerWords) -> Result<(), AllocError>
        ensures before { self.new.before ≡ self.old.before }
        ensures ok { OnOk result (AddedWords self.old self.new (delay_words words.now)) }
    {
        self.first_delay(words.min)?;
        self.longest_delay(words.max)?;
        self.growth(words.base)
    }

    /// How a connection comes back.
    pub fn manager(&mut self, words: &ManagerWords) -> Result<(), AllocError>
        ensures before { self.new.before ≡ self.old.before }
        ensures ok { OnOk result (AddedWords self.old self.new (manager_words words.now)) }
    {
        self.retries(words.retries)?;
        self.delays(words)?;
        self.resubscription(words.resub)
    }
}
