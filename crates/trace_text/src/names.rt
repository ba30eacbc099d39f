ghost use Rattle.std.specs.Prelude.{◌≡◌, ◌++◌, ◌∷◌, [], OnOk};
ghost use Rattle.trace_text.specs.Words.{following};
ghost use Rattle.trace_text.specs.Show.{address, draw_words, owner_word, submission_word};
ghost use Rattle.trace_text.specs.Show.{kind_word, wait_word};
ghost use Rattle.trace_text.specs.Writer.{AddedWords};

use crate::writer::Writer;
use containers::Bytes;
use driver_model::{Owner, SessionKind, WaitKind};
use std::alloc::AllocError;

impl Writer {
    /// One more word: a host and a port.
    pub fn address(&mut self, host: &Bytes, port: u16) -> Result<(), AllocError>
        ensures before { self.new.before ≡ self.old.before }
        ensures ok { OnOk result
            (AddedWords self.old self.new (address host.now port ∷ [])) }
    {
        self.push(b" ")?;
        self.escaped_bytes(host.as_slice())?;
        self.push(b":")?;
        self.digits(u64::from(port))
    }

    /// One more word: a submission.
    pub fn submission(&mut self, submission: u32) -> Result<(), AllocError>
        ensures before { self.new.before ≡ self.old.before }
        ensures ok { OnOk result
            (AddedWords self.old self.new (submission_word submission ∷ [])) }
    {
        self.number_behind(b"s", u64::from(submission))
    }

    /// One more word: a submission and a round.
    fn try_word(&mut self, submission: u32, round: u32) -> Result<(), AllocError>
        ensures before { self.new.before ≡ self.old.before }
        ensures ok { OnOk result
            (AddedWords self.old self.new (owner_word (Owner.Try submission round) ∷ [])) }
    {
        self.push(b" s")?;
        self.digits(u64::from(submission))?;
        self.push(b".")?;
        self.digits(u64::from(round))
    }

    /// One more word: a try of a submission, what is said to the server before the first request, new credentials, what is
    /// subscribed again, or MONITOR.
    pub fn owner(&mut self, owner: Owner) -> Result<(), AllocError>
        ensures before { self.new.before ≡ self.old.before }
        ensures ok { OnOk result (AddedWords self.old self.new (owner_word owner ∷ [])) }
    {
        match owner {
            Owner::Try { submission, round } => self.try_word(submission, round),
            Owner::Setup => self.literal(b"setup"),
            Owner::Auth => self.literal(b"auth"),
            Owner::Resub => self.literal(b"resub"),
            Owner::Monitor => self.literal(b"monitor"),
        }
    }

    /// One more word: what a session is.
    pub fn kind(&mut self, kind: SessionKind) -> Result<(), AllocError>
        ensures before { self.new.before ≡ self.old.before }
        ensures ok { OnOk result (AddedWords self.old self.new (kind_word kind ∷ [])) }
    {
        match kind {
            SessionKind::Single => self.literal(b"single"),
            SessionKind::Manager { lazy: false } => self.literal(b"manager"),
            SessionKind::Manager { lazy: true } => self.literal(b"lazy"),
            SessionKind::PubSub => self.literal(b"pubsub"),
            SessionKind::Monitor => self.literal(b"monitor"),
        }
    }

    /// One more word: what is waited for.
    pub fn wait_kind(&mut self, wait: WaitKind) -> Result<(), AllocError>
        ensures before { self.new.before ≡ self.old.before }
        ensures ok { OnOk result (AddedWords self.old self.new (wait_word wait ∷ [])) }
    {
        match wait {
            WaitKind::Connect => self.literal(b"connect"),
            WaitKind::Creds => self.literal(b"creds"),
            WaitKind::Setup => self.literal(b"setup"),
            WaitKind::Resubscribe => self.literal(b"resubscribe"),
            WaitKind::Backoff => self.literal(b"backoff"),
            WaitKind::Permit => self.literal(b"permit"),
            WaitKind::Place => self.literal(b"place"),
            WaitKind::Room => self.literal(b"room"),
        }
    }

    /// The word that random draws come from, where it isn't 0.
    pub fn draw(&mut self, number: u64) -> Result<(), AllocError>
        ensures before { self.new.before ≡ self.old.before }
        ensures ok { OnOk result (AddedWords self.old self.new (draw_words number)) }
    {
        if number == 0 {
            return Ok(());
        }
        self.number_behind(b"@", number)
    }
}
