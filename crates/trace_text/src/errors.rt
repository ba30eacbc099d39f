ghost use Rattle.std.specs.Prelude.{◌≡◌, ◌++◌, ◌∷◌, [], OnOk, map, decimal, true};
ghost use Rattle.trace_text.specs.Groups.{fails_link};
ghost use Rattle.trace_text.specs.Plain.{is_literal};
ghost use Rattle.trace_text.specs.Words.{following};
ghost use Rattle.trace_text.specs.Errors.{abort_word, error_words};
ghost use Rattle.trace_text.specs.Writer.{AddedWords};

use crate::writer::Writer;
use redis_error::RedisError;
use resp_value::{ServerError, Value};
use std::alloc::AllocError;

impl Writer {
    /// The words of why there is no reply.
    pub fn error(&mut self, error: &RedisError) -> Result<(), AllocError>
        ensures before { self.new.before ≡ self.old.before }
        ensures ok { OnOk result (AddedWords self.old self.new (error_words error.now)) }
    {
        match error {
            RedisError::EmptyCommand => self.literal(b"empty"),
            RedisError::Parse => self.literal(b"parse"),
            RedisError::Convert { value } => self.convert(value),
            RedisError::NotFound => self.literal(b"not-found"),
            RedisError::Server(error) => self.server(error),
            RedisError::Aborted { errors } => self.aborted(errors.as_slice()),
            RedisError::CrossSlot { first, second } => self.cross_slot(*first, *second),
            RedisError::RouteWithoutLink { routes } => self.no_link(routes.as_slice()),
            RedisError::TurnsSpent { turns } => self.turns_spent(*turns),
            _ => self.link_error(error),
        }
    }

    /// The words of why there is no link that serves requests.
    fn link_error(&mut self, error: &RedisError) -> Result<(), AllocError>
        requires { fails_link error.now ≡ true }
        ensures before { self.new.before ≡ self.old.before }
        ensures ok { OnOk result (AddedWords self.old self.new (error_words error.now)) }
    {
        match error {
            RedisError::Config { name } => self.word_and(b"config", name.name().as_bytes()),
            RedisError::Client => self.literal(b"client"),
            RedisError::Resp3Required => self.literal(b"resp3"),
            RedisError::Closed => self.literal(b"closed"),
            RedisError::Io { fault } => self.word_and(b"io", fault.name().as_bytes()),
            RedisError::CreateFailed { last } => self.word_and(b"create-failed", last.as_slice()),
            RedisError::AuthFailed { text } => self.word_and(b"auth-failed", text.as_slice()),
            RedisError::Credentials { text } => self.word_and(b"creds", text.as_slice()),
            _ => unreachable!(),
        }
    }

    /// Two more words, of which the first is written as it is.
    fn word_and(&mut self, word: &[u8], next: &[u8]) -> Result<(), AllocError>
        requires { is_literal word.now ≡ true }
        ensures before { self.new.before ≡ self.old.before }
        ensures ok { OnOk result (AddedWords self.old self.new (word.now ∷ next.now ∷ [])) }
    {
        self.literal(word)?;
        self.word(next)
    }

    fn convert(&mut self, value: &Value) -> Result<(), AllocError>
        ensures before { self.new.before ≡ self.old.before }
        ensures ok { OnOk result
            (AddedWords self.old self.new (error_words (RedisError.Convert value.now))) }
    {
        self.literal(b"convert")?;
        self.value_word(value)
    }

    fn server(&mut self, error: &ServerError) -> Result<(), AllocError>
        ensures before { self.new.before ≡ self.old.before }
        ensures ok { OnOk result
            (AddedWords self.old self.new (error_words (RedisError.Server error.now))) }
    {
        self.word_and(b"server", error.code.as_slice())?;
        match &error.detail {
            Some(detail) => self.word(detail.as_slice()),
            None => Ok(()),
        }
    }

    fn cross_slot(&mut self, first: u16, second: u16) -> Result<(), AllocError>
        ensures before { self.new.before ≡ self.old.before }
        ensures ok { OnOk result
            (AddedWords self.old self.new (error_words (RedisError.CrossSlot first second))) }
    {
        self.literal(b"cross-slot")?;
        self.number(u64::from(first))?;
        self.number(u64::from(second))
    }

    /// One more word: a position in a transaction and the server's error there.
    fn abort(&mut self, position: u32, error: &ServerError) -> Result<(), AllocError>
        ensures before { self.new.before ≡ self.old.before }
        ensures ok { OnOk result
            (AddedWords self.old self.new (abort_word (position, error.now) ∷ [])) }
    {
        self.push(b" ")?;
        self.digits(u64::from(position))?;
        self.push(b":")?;
        self.server_text(error)
    }

    fn aborted(&mut self, errors: &[(u32, ServerError)]) -> Result<(), AllocError>
        ensures before { self.new.before ≡ self.old.before }
        ensures ok { OnOk result
            (AddedWords self.old self.new (error_words (RedisError.Aborted errors.now))) }
    {
        self.literal(b"aborted")?;
        self.aborts(errors)
    }

    fn aborts(&mut self, errors: &[(u32, ServerError)]) -> Result<(), AllocError>
        ensures before { self.new.before ≡ self.old.before }
        ensures ok { OnOk result (AddedWords self.old self.new (map abort_word errors.now)) }
    {
        for item in errors {
            self.abort(item.0, &item.1)?;
        }
        Ok(())
    }

    fn turns_spent(&mut self, turns: u32) -> Result<(), AllocError>
        ensures before { self.new.before ≡ self.old.before }
        ensures ok { OnOk result
            (AddedWords self.old self.new (error_words (RedisError.TurnsSpent turns))) }
    {
        self.literal(b"turns")?;
        self.number(u64::from(turns))
    }

    fn no_link(&mut self, routes: &[u32]) -> Result<(), AllocError>
        ensures before { self.new.before ≡ self.old.before }
        ensures ok { OnOk result
            (AddedWords self.old self.new (error_words (RedisError.RouteWithoutLink routes.now))) }
    {
        self.literal(b"no-link")?;
        self.numbers(routes)
    }

    /// Each number as a word.
    fn numbers(&mut self, numbers: &[u32]) -> Result<(), AllocError>
        ensures before { self.new.before ≡ self.old.before }
        ensures ok { OnOk result (AddedWords self.old self.new (map decimal numbers.now)) }
    {
        for number in numbers {
            self.number(u64::from(*number))?;
        }
        Ok(())
    }
}
