ghost use Rattle.std.specs.Prelude.{◌≡◌, ◌∷◌, [], ◌++◌, OnOk, OnErr, IfOk, true};
ghost use Rattle.trace_text.specs.Groups.{names_link};
ghost use Rattle.trace_text.specs.Words.{following};
ghost use Rattle.trace_text.specs.Show.{show, action_line, created_words, purpose_words, push_word};
ghost use Rattle.trace_text.specs.Show.{link_word, pattern_word};
ghost use Rattle.trace_text.specs.Writer.{Added, AddedWords};

use crate::writer::Writer;
use containers::Bytes;
use driver_model::{Action, Cause, Event, Msg, Outcome, Owner, Purpose, PushInfo, WaitKind};
use redis_error::RedisError;
use resp_value::Value;
use std::alloc::{AllocError, Global};
use std::mem;

impl Writer {
    fn turn(&mut self, number: u32, cause: &Cause) -> Result<(), AllocError>
        ensures before { self.new.before ≡ self.old.before }
        ensures ok { OnOk result
            (Added self.old self.new (action_line (Action.Turn number cause.now))) }
    {
        self.first(b"turn")?;
        self.number(u64::from(number))?;
        self.cause(cause)?;
        self.end_line()
    }

    /// The turn of an event.
    fn event_turn(&mut self, number: u32, event: &Event) -> Result<(), AllocError>
        ensures before { self.new.before ≡ self.old.before }
        ensures ok { OnOk result
            (Added self.old self.new (action_line (Action.Turn number (Cause.Event event.now)))) }
    {
        self.first(b"turn")?;
        self.number(u64::from(number))?;
        self.drawn_event(event)?;
        self.end_line()
    }

    fn connect(&mut self, link: u32, host: &Bytes, port: u16) -> Result<(), AllocError>
        ensures before { self.new.before ≡ self.old.before }
        ensures ok { OnOk result
            (Added self.old self.new (action_line (Action.Connect link host.now port))) }
    {
        self.first(b"connect")?;
        self.number(u64::from(link))?;
        self.address(host, port)?;
        self.end_line()
    }

    /// What a timer is asked for.
    fn purpose(&mut self, purpose: Purpose) -> Result<(), AllocError>
        ensures before { self.new.before ≡ self.old.before }
        ensures ok { OnOk result (AddedWords self.old self.new (purpose_words purpose)) }
    {
        match purpose {
            Purpose::Connect { link } => {
                self.literal(b"connect")?;
                self.number(u64::from(link))
            }
            Purpose::Response { owner } => {
                self.literal(b"response")?;
                self.owner(owner)
            }
            Purpose::Renewal { link: _, number: _ } => {
                self.literal(b"response")?;
                self.owner(Owner::Auth)
            }
            Purpose::Backoff { generation } => {
                self.literal(b"backoff")?;
                self.number(u64::from(generation))
            }
            Purpose::Resubscription { link: _ } => {
                self.literal(b"response")?;
                self.owner(Owner::Resub)
            }
        }
    }

    fn timer(&mut self, timer: u32, ms: u64, purpose: Purpose) -> Result<(), AllocError>
        ensures before { self.new.before ≡ self.old.before }
        ensures ok { OnOk result
            (Added self.old self.new (action_line (Action.Timer timer ms purpose))) }
    {
        self.first(b"timer")?;
        self.number(u64::from(timer))?;
        self.number(ms)?;
        self.purpose(purpose)?;
        self.end_line()
    }

    fn took(&mut self, owner: Owner, link: u32, count: u32) -> Result<(), AllocError>
        ensures before { self.new.before ≡ self.old.before }
        ensures ok { OnOk result
            (Added self.old self.new (action_line (Action.Took owner link count))) }
    {
        self.first(b"took")?;
        self.owner(owner)?;
        self.number(u64::from(link))?;
        self.number(u64::from(count))?;
        self.end_line()
    }

    /// A push, or that the link has ended.
    fn push_word(&mut self, info: &PushInfo) -> Result<(), AllocError>
        ensures before { self.new.before ≡ self.old.before }
        ensures ok { OnOk result (AddedWords self.old self.new (push_word info.now ∷ [])) }
    {
        if info.is_disconnection() {
            return self.literal(b"disconnect");
        }
        self.push_value_word(info)
    }

    fn pushed(&mut self, link: u32, info: &PushInfo) -> Result<(), AllocError>
        ensures before { self.new.before ≡ self.old.before }
        ensures ok { OnOk result (Added self.old self.new (action_line (Action.Push link info.now))) }
    {
        self.first(b"push")?;
        self.number(u64::from(link))?;
        self.push_word(info)?;
        self.end_line()
    }

    /// The pattern that a message came by, if it came by one.
    fn pattern(&mut self, pattern: &Option<Value>) -> Result<(), AllocError>
        ensures before { self.new.before ≡ self.old.before }
        ensures ok { OnOk result (AddedWords self.old self.new (pattern_word pattern.now ∷ [])) }
    {
        match pattern {
            None => self.literal(b"-"),
            Some(pattern) => self.value_word(pattern),
        }
    }

    fn message(&mut self, msg: &Msg) -> Result<(), AllocError>
        ensures before { self.new.before ≡ self.old.before }
        ensures ok { OnOk result (Added self.old self.new (action_line (Action.Message msg.now))) }
    {
        self.first(b"message")?;
        self.pattern(&msg.pattern)?;
        self.value_word(&msg.channel)?;
        self.value_word(&msg.payload)?;
        self.end_line()
    }

    fn monitored(&mut self, value: &Value) -> Result<(), AllocError>
        ensures before { self.new.before ≡ self.old.before }
        ensures ok { OnOk result (Added self.old self.new (action_line (Action.Monitor value.now))) }
    {
        self.first(b"monitor")?;
        self.value_word(value)?;
        self.end_line()
    }

    fn need_creds(&mut self, source: u32, link: u32) -> Result<(), AllocError>
        ensures before { self.new.before ≡ self.old.before }
        ensures ok { OnOk result
            (Added self.old self.new (action_line (Action.NeedCreds source link))) }
    {
        self.first(b"need-creds")?;
        self.number(u64::from(source))?;
        self.number(u64::from(link))?;
        self.end_line()
    }

    fn generation(&mut self, number: u32) -> Result<(), AllocError>
        ensures before { self.new.before ≡ self.old.before }
        ensures ok { OnOk result
            (Added self.old self.new (action_line (Action.Generation number))) }
    {
        self.first(b"generation")?;
        self.number(u64::from(number))?;
        self.end_line()
    }

    /// A link, or none.
    fn link(&mut self, link: Option<u32>) -> Result<(), AllocError>
        ensures before { self.new.before ≡ self.old.before }
        ensures ok { OnOk result (AddedWords self.old self.new (link_word link ∷ [])) }
    {
        match link {
            None => self.literal(b"none"),
            Some(link) => self.number(u64::from(link)),
        }
    }

    fn round(&mut self, owner: Owner, link: Option<u32>) -> Result<(), AllocError>
        ensures before { self.new.before ≡ self.old.before }
        ensures ok { OnOk result (Added self.old self.new (action_line (Action.Round owner link))) }
    {
        self.first(b"round")?;
        self.owner(owner)?;
        self.link(link)?;
        self.end_line()
    }

    fn close(&mut self, link: u32) -> Result<(), AllocError>
        ensures before { self.new.before ≡ self.old.before }
        ensures ok { OnOk result (Added self.old self.new (action_line (Action.Close link))) }
    {
        self.first(b"close")?;
        self.number(u64::from(link))?;
        self.end_line()
    }

    fn write(&mut self, link: u32, bytes: &Bytes) -> Result<(), AllocError>
        ensures before { self.new.before ≡ self.old.before }
        ensures ok { OnOk result
            (Added self.old self.new (action_line (Action.Write link bytes.now))) }
    {
        self.first(b"write")?;
        self.number(u64::from(link))?;
        self.word(bytes.as_slice())?;
        self.end_line()
    }

    fn wait(&mut self, owner: Owner, wait: WaitKind) -> Result<(), AllocError>
        ensures before { self.new.before ≡ self.old.before }
        ensures ok { OnOk result (Added self.old self.new (action_line (Action.Wait owner wait))) }
    {
        self.first(b"wait")?;
        self.owner(owner)?;
        self.wait_kind(wait)?;
        self.end_line()
    }

    fn start(
        &mut self,
        link: u32,
        message: u32,
        owner: Owner,
        need: u64,
        len: u64,
    ) -> Result<(), AllocError>
        ensures before { self.new.before ≡ self.old.before }
        ensures ok { OnOk result
            (Added self.old self.new (action_line (Action.Start link message owner need len))) }
    {
        self.first(b"start")?;
        self.number(u64::from(link))?;
        self.number(u64::from(message))?;
        self.owner(owner)?;
        self.number(need)?;
        self.number(len)?;
        self.end_line()
    }

    /// How an opening went.
    fn creation(&mut self, error: &Option<RedisError>) -> Result<(), AllocError>
        ensures before { self.new.before ≡ self.old.before }
        ensures ok { OnOk result (AddedWords self.old self.new (created_words error.now)) }
    {
        match error {
            None => self.literal(b"ok"),
            Some(error) => {
                self.literal(b"err")?;
                self.error(error)
            }
        }
    }

    fn created(&mut self, error: &Option<RedisError>) -> Result<(), AllocError>
        ensures before { self.new.before ≡ self.old.before }
        ensures ok { OnOk result
            (Added self.old self.new (action_line (Action.Created error.now))) }
    {
        self.first(b"created")?;
        self.creation(error)?;
        self.end_line()
    }

    fn answered(&mut self, submission: u32, outcome: &Outcome) -> Result<(), AllocError>
        ensures before { self.new.before ≡ self.old.before }
        ensures ok { OnOk result
            (Added self.old self.new (action_line (Action.Outcome submission outcome.now))) }
    {
        self.first(b"outcome")?;
        self.submission(submission)?;
        self.outcome(outcome)?;
        self.end_line()
    }

    /// The line of an action.
    fn action(&mut self, action: &Action) -> Result<(), AllocError>
        ensures before { self.new.before ≡ self.old.before }
        ensures ok { OnOk result (Added self.old self.new (action_line action.now)) }
    {
        match action {
            Action::Turn { number, cause } => self.turn(*number, cause),
            Action::Timer { timer, ms, purpose } => self.timer(*timer, *ms, *purpose),
            Action::Message { msg } => self.message(msg),
            Action::Monitor { value } => self.monitored(value),
            Action::Generation { number } => self.generation(*number),
            Action::Wait { owner, wait } => self.wait(*owner, *wait),
            Action::Created { error } => self.created(error),
            Action::Outcome {
                submission,
                outcome,
            } => self.answered(*submission, outcome),
            _ => self.link_action(action),
        }
    }

    /// The line of an action that names a link.
    fn link_action(&mut self, action: &Action) -> Result<(), AllocError>
        requires { names_link action.now ≡ true }
        ensures before { self.new.before ≡ self.old.before }
        ensures ok { OnOk result (Added self.old self.new (action_line action.now)) }
    {
        match action {
            Action::Connect { link, host, port } => self.connect(*link, host, *port),
            Action::Took { owner, link, count } => self.took(*owner, *link, *count),
            Action::Push { link, info } => self.pushed(*link, info),
            Action::NeedCreds { source, link } => self.need_creds(*source, *link),
            Action::Round { owner, link } => self.round(*owner, *link),
            Action::Close { link } => self.close(*link),
            Action::Write { link, bytes } => self.write(*link, bytes),
            Action::Start {
                link,
                message,
                owner,
                need,
                len,
            } => self.start(*link, *message, *owner, *need, *len),
            _ => unreachable!(),
        }
    }

    /// The lines of actions.
    fn actions(&mut self, actions: &[Action]) -> Result<(), AllocError>
        ensures before { self.new.before ≡ self.old.before }
        ensures ok { OnOk result (Added self.old self.new (show actions.now)) }
    {
        for action in actions {
            self.action(action)?;
        }
        Ok(())
    }

    /// The lines of an event's turn.
    fn whole_turn(
        &mut self,
        number: u32,
        event: &Event,
        behind: &[Action],
    ) -> Result<(), AllocError>
        ensures before { self.new.before ≡ self.old.before }
        ensures ok { OnOk result
            (Added self.old self.new
            (show (Action.Turn number (Cause.Event event.now) ∷ behind.now))) }
    {
        self.event_turn(number, event)?;
        self.actions(behind)
    }
}

/// Gives a text back: with what was written to it, or where memory was refused without that.
fn give_back(
    out: &mut Bytes,
    writer: Writer,
    written: Result<(), AllocError>,
) -> Result<(), AllocError>
    ensures same { result ≡ written }
    ensures ok { OnOk result (out.new ≡ writer.before ++ writer.line) }
    ensures err { OnErr result (out.new ≡ writer.before) }
{
    match written {
        Ok(()) => {
            *out = writer.finish();
            Ok(())
        }
        Err(error) => {
            *out = writer.give_up();
            Err(error)
        }
    }
}

/// Appends the line of an action. An error leaves the text as it was.
pub fn append_action(alloc: Global, out: &mut Bytes, action: &Action) -> Result<(), AllocError>
    ensures ok { OnOk result (out.new ≡ out.old ++ action_line action.now) }
    ensures err { OnErr result (out.new ≡ out.old) }
{
    let mut writer = Writer::new(mem::replace(out, Bytes::new(alloc)));
    let written = writer.action(action);
    give_back(out, writer, written)
}

/// Appends the lines of actions. An error leaves the text as it was.
pub fn append_actions(alloc: Global, out: &mut Bytes, actions: &[Action]) -> Result<(), AllocError>
    ensures ok { OnOk result (out.new ≡ out.old ++ show actions.now) }
    ensures err { OnErr result (out.new ≡ out.old) }
{
    let mut writer = Writer::new(mem::replace(out, Bytes::new(alloc)));
    let written = writer.actions(actions);
    give_back(out, writer, written)
}

/// Appends the lines of an event's turn: of the action that begins it, and of those behind that. An error leaves the text
/// as it was.
pub fn append_turn(
    alloc: Global,
    out: &mut Bytes,
    number: u32,
    event: &Event,
    behind: &[Action],
) -> Result<(), AllocError>
    ensures ok { OnOk result (
        out.new ≡ out.old ++ show (Action.Turn number (Cause.Event event.now) ∷ behind.now)
        ) }
    ensures err { OnErr result (out.new ≡ out.old) }
{
    let mut writer = Writer::new(mem::replace(out, Bytes::new(alloc)));
    let written = writer.whole_turn(number, event, behind);
    give_back(out, writer, written)
}

/// Appends the line of what a submission came to. An error leaves the text as it was.
pub fn append_outcome(
    alloc: Global,
    out: &mut Bytes,
    submission: u32,
    outcome: &Outcome,
) -> Result<(), AllocError>
    ensures ok { OnOk result (
        out.new ≡ out.old ++ action_line (Action.Outcome submission outcome.now)
        ) }
    ensures err { OnErr result (out.new ≡ out.old) }
{
    let mut writer = Writer::new(mem::replace(out, Bytes::new(alloc)));
    let written = writer.answered(submission, outcome);
    give_back(out, writer, written)
}

/// The text of a trace.
pub fn show(alloc: Global, actions: &[Action]) -> Result<Bytes, AllocError>
    ensures { IfOk result (λ text. text ≡ show actions.now) }
{
    let mut text = Bytes::new(alloc);
    append_actions(alloc, &mut text, actions)?;
    Ok(text)
}
