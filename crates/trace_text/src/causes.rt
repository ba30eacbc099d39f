ghost use Rattle.std.specs.Prelude.{◌≡◌, ◌++◌, ◌∷◌, [], OnOk, codes, decimal, true};
ghost use Rattle.driver_model.specs.Request.{listed};
ghost use Rattle.redis_error.specs.Names.{fault_name};
ghost use Rattle.trace_text.specs.Plain.{is_literal};
ghost use Rattle.trace_text.specs.Groups.{comes_of_link};
ghost use Rattle.trace_text.specs.Words.{following, separated};
ghost use Rattle.trace_text.specs.Show.{behind_first, config_words, connect_words, first_of, url};
ghost use Rattle.trace_text.specs.Show.{kind_word, session_words, setting_words};
ghost use Rattle.trace_text.specs.Show.{boundary_words, buffer_words, limit_words, response_words};
ghost use Rattle.trace_text.specs.Show.{push_words, creds_words, lib_words, switch_words};
ghost use Rattle.trace_text.specs.Show.{numbers_words, times_words, time_word};
ghost use Rattle.trace_text.specs.Show.{cause_more, cause_words, event_more, event_words};
ghost use Rattle.trace_text.specs.Show.{submission_more, submission_words, call_word};
ghost use Rattle.trace_text.specs.Writer.{Added, AddedWords, AddedParts};

use crate::writer::Writer;
use containers::{Bytes, Names};
use credentials::BasicAuth;
use driver_model::{
    AddressWords, Cause, Commands, Config, ConnectionWords, Event, EventKind, SessionKind,
    Submission,
};
use redis_error::FaultKind;
use resp_write::SubscriptionAction;
use std::alloc::AllocError;

impl Writer {
    /// The word of the address.
    #[tactic(auto, unfolding(crate::specs::Show::url))]
    fn url(&mut self, address: &AddressWords) -> Result<(), AllocError>
        ensures before { self.new.before ≡ self.old.before }
        ensures ok { OnOk result (AddedWords self.old self.new (url address.now ∷ [])) }
    {
        self.word_behind(b"url=", address.url.as_slice())
    }

    /// How long the connect may take, where it is given.
    fn connect_limit(&mut self, connect: Option<Option<u64>>) -> Result<(), AllocError>
        ensures before { self.new.before ≡ self.old.before }
        ensures ok { OnOk result (AddedWords self.old self.new (connect_words connect)) }
    {
        match connect {
            None => Ok(()),
            Some(None) => self.literal(b"connect=none"),
            Some(Some(ms)) => self.number_behind(b"connect=", ms),
        }
    }

    /// Within how long a request is to be answered, where it is given.
    fn response_limit(&mut self, response: Option<Option<u64>>) -> Result<(), AllocError>
        ensures before { self.new.before ≡ self.old.before }
        ensures ok { OnOk result (AddedWords self.old self.new (response_words response)) }
    {
        match response {
            None => Ok(()),
            Some(None) => self.literal(b"response=none"),
            Some(Some(ms)) => self.number_behind(b"response=", ms),
        }
    }

    /// How many messages the queue of the link holds, where it is given.
    fn buffer(&mut self, buffer: Option<u32>) -> Result<(), AllocError>
        ensures before { self.new.before ≡ self.old.before }
        ensures ok { OnOk result (AddedWords self.old self.new (buffer_words buffer)) }
    {
        match buffer {
            None => Ok(()),
            Some(size) => self.number_behind(b"buffer=", u64::from(size)),
        }
    }

    /// How many permits there are, where it is given.
    fn limit(&mut self, limit: Option<u32>) -> Result<(), AllocError>
        ensures before { self.new.before ≡ self.old.before }
        ensures ok { OnOk result (AddedWords self.old self.new (limit_words limit)) }
    {
        match limit {
            None => Ok(()),
            Some(limit) => self.number_behind(b"limit=", u64::from(limit)),
        }
    }

    /// At how many unwritten bytes no message of the link starts, where it is given.
    fn boundary(&mut self, boundary: Option<u64>) -> Result<(), AllocError>
        ensures before { self.new.before ≡ self.old.before }
        ensures ok { OnOk result (AddedWords self.old self.new (boundary_words boundary)) }
    {
        match boundary {
            None => Ok(()),
            Some(bytes) => self.number_behind(b"boundary=", bytes),
        }
    }

    /// Whether somebody hears pushes, where it is given.
    fn pushes(&mut self, push: Option<bool>) -> Result<(), AllocError>
        ensures before { self.new.before ≡ self.old.before }
        ensures ok { OnOk result (AddedWords self.old self.new (push_words push)) }
    {
        match push {
            None => Ok(()),
            Some(true) => self.literal(b"push=on"),
            Some(false) => self.literal(b"push=off"),
        }
    }

    /// Whether credentials come of a source, where it is given.
    fn credentials(&mut self, creds: Option<bool>) -> Result<(), AllocError>
        ensures before { self.new.before ≡ self.old.before }
        ensures ok { OnOk result (AddedWords self.old self.new (creds_words creds)) }
    {
        match creds {
            None => Ok(()),
            Some(true) => self.literal(b"creds=on"),
            Some(false) => self.literal(b"creds=off"),
        }
    }

    /// Whether the server is told which library speaks, where it is given.
    fn lib(&mut self, lib: Option<bool>) -> Result<(), AllocError>
        ensures before { self.new.before ≡ self.old.before }
        ensures ok { OnOk result (AddedWords self.old self.new (lib_words lib)) }
    {
        match lib {
            None => Ok(()),
            Some(true) => self.literal(b"lib=on"),
            Some(false) => self.literal(b"lib=off"),
        }
    }

    /// What is given of the times.
    fn time_settings(&mut self, words: &ConnectionWords) -> Result<(), AllocError>
        ensures before { self.new.before ≡ self.old.before }
        ensures ok { OnOk result (AddedWords self.old self.new (times_words words.now)) }
    {
        self.connect_limit(words.connect)?;
        self.response_limit(words.response)
    }

    /// What is given of the queue of the link, and of the number of permits.
    fn number_settings(&mut self, words: &ConnectionWords) -> Result<(), AllocError>
        ensures before { self.new.before ≡ self.old.before }
        ensures ok { OnOk result (AddedWords self.old self.new (numbers_words words.now)) }
    {
        self.buffer(words.buffer)?;
        self.limit(words.limit)?;
        self.boundary(words.boundary)
    }

    /// What is given of what is on or off.
    fn switch_settings(&mut self, words: &ConnectionWords) -> Result<(), AllocError>
        ensures before { self.new.before ≡ self.old.before }
        ensures ok { OnOk result (AddedWords self.old self.new (switch_words words.now)) }
    {
        self.pushes(words.push)?;
        self.credentials(words.creds)
    }

    /// How a multiplexed connection behaves.
    fn settings(&mut self, words: &ConnectionWords) -> Result<(), AllocError>
        ensures before { self.new.before ≡ self.old.before }
        ensures ok { OnOk result (AddedWords self.old self.new (setting_words words.now)) }
    {
        self.time_settings(words)?;
        self.number_settings(words)?;
        self.switch_settings(words)
    }

    /// What a session of one link is, and what is given of it.
    fn link_session(&mut self, kind: SessionKind, address: &AddressWords) -> Result<(), AllocError>
        ensures before { self.new.before ≡ self.old.before }
        ensures ok { OnOk result
            (AddedWords self.old self.new
            (kind_word kind ∷ url address.now ∷ lib_words address.now.lib)) }
    {
        self.kind(kind)?;
        self.url(address)?;
        self.lib(address.lib)
    }

    /// What a session of a multiplexed connection is, and what is given of it.
    fn multiplexed(
        &mut self,
        kind: SessionKind,
        address: &AddressWords,
        connection: &ConnectionWords,
    ) -> Result<(), AllocError>
        ensures before { self.new.before ≡ self.old.before }
        ensures ok { OnOk result
            (AddedWords self.old self.new
            (kind_word kind ∷ url address.now
            ∷ (setting_words connection.now ++ lib_words address.now.lib))) }
    {
        self.kind(kind)?;
        self.url(address)?;
        self.settings(connection)?;
        self.lib(address.lib)
    }

    /// What a session is, and what is given of it.
    fn session(&mut self, config: &Config) -> Result<(), AllocError>
        ensures before { self.new.before ≡ self.old.before }
        ensures ok { OnOk result (AddedWords self.old self.new (session_words config.now)) }
    {
        match config {
            Config::Single {
                address,
                connection,
            } => self.multiplexed(SessionKind::Single, address, connection),
            Config::Manager {
                lazy,
                address,
                connection,
                manager,
            } => {
                self.multiplexed(SessionKind::Manager { lazy: *lazy }, address, connection)?;
                self.manager(manager)
            }
            Config::PubSub { address } => self.link_session(SessionKind::PubSub, address),
            Config::Monitor { address } => self.link_session(SessionKind::Monitor, address),
        }
    }

    /// The words of a config line.
    fn config(&mut self, config: &Config) -> Result<(), AllocError>
        ensures before { self.new.before ≡ self.old.before }
        ensures ok { OnOk result (AddedWords self.old self.new (config_words config.now)) }
    {
        self.literal(b"config")?;
        self.session(config)
    }

    /// A time: so many milliseconds, or any number.
    fn time(&mut self, ms: Option<u64>) -> Result<(), AllocError>
        ensures before { self.new.before ≡ self.old.before }
        ensures ok { OnOk result (AddedWords self.old self.new (time_word ms ∷ [])) }
    {
        match ms {
            None => self.literal(b"none"),
            Some(ms) => self.number(ms),
        }
    }

    /// Each argument as a word.
    fn arguments(&mut self, args: &[Bytes]) -> Result<(), AllocError>
        ensures before { self.new.before ≡ self.old.before }
        ensures ok { OnOk result (AddedWords self.old self.new args.now) }
    {
        for arg in args {
            self.word(arg.as_slice())?;
        }
        Ok(())
    }

    /// More commands, each behind a separator.
    fn separated(&mut self, more: &[Names]) -> Result<(), AllocError>
        ensures before { self.new.before ≡ self.old.before }
        ensures ok { OnOk result (Added self.old self.new (separated more.now)) }
    {
        for command in more {
            self.push(b" ;")?;
            self.arguments(command.as_slice())?;
        }
        Ok(())
    }

    /// Commands with a separator between two.
    fn commands(&mut self, commands: &[Names]) -> Result<(), AllocError>
        ensures before { self.new.before ≡ self.old.before }
        ensures ok { OnOk result
            (AddedParts self.old self.new (first_of commands.now) (behind_first commands.now)) }
    {
        let [first, more @ ..] = commands else {
            return Ok(());
        };
        self.arguments(first.as_slice())?;
        self.separated(more)
    }

    /// PING, and its message where it has one.
    fn ping(&mut self, message: &Option<Bytes>) -> Result<(), AllocError>
        ensures before { self.new.before ≡ self.old.before }
        ensures ok { OnOk result
            (AddedWords self.old self.new (codes "ping" ∷ listed message.now)) }
    {
        self.literal(b"ping")?;
        match message {
            None => Ok(()),
            Some(message) => self.word(message.as_slice()),
        }
    }

    /// A name that is written as it is, and the arguments of a command.
    fn named_arguments(&mut self, name: &[u8], args: &Names) -> Result<(), AllocError>
        requires { is_literal name.now ≡ true }
        ensures before { self.new.before ≡ self.old.before }
        ensures ok { OnOk result (AddedWords self.old self.new (name.now ∷ args.now)) }
    {
        self.literal(name)?;
        self.arguments(args.as_slice())
    }

    /// A name that is written as it is, and commands.
    fn named_commands(&mut self, name: &[u8], commands: &Commands) -> Result<(), AllocError>
        requires { is_literal name.now ≡ true }
        ensures before { self.new.before ≡ self.old.before }
        ensures ok { OnOk result
            (AddedParts self.old self.new (name.now ∷ first_of commands.now)
            (behind_first commands.now)) }
    {
        self.literal(name)?;
        self.commands(commands.as_slice())
    }

    /// The words of a packed request: how many replies it skips, how many it keeps, and its commands.
    fn packed(&mut self, offset: u32, count: u32, commands: &Commands) -> Result<(), AllocError>
        ensures before { self.new.before ≡ self.old.before }
        ensures ok { OnOk result
            (AddedParts self.old self.new
            (codes "packed" ∷ decimal offset ∷ decimal count ∷ first_of commands.now)
            (behind_first commands.now)) }
    {
        self.literal(b"packed")?;
        self.number(u64::from(offset))?;
        self.number(u64::from(count))?;
        self.commands(commands.as_slice())
    }

    /// The words of a subscription call and its names.
    fn called(&mut self, action: SubscriptionAction, names: &Names) -> Result<(), AllocError>
        ensures before { self.new.before ≡ self.old.before }
        ensures ok { OnOk result (AddedWords self.old self.new (call_word action ∷ names.now)) }
    {
        self.word(call_word(action))?;
        self.arguments(names.as_slice())
    }

    /// The words of what a caller hands in.
    fn submitted(&mut self, submission: &Submission) -> Result<(), AllocError>
        ensures before { self.new.before ≡ self.old.before }
        ensures ok { OnOk result
            (AddedParts self.old self.new (submission_words submission.now)
            (submission_more submission.now)) }
    {
        match submission {
            Submission::Cmd { args } => self.named_arguments(b"cmd", args),
            Submission::NoReply { args } => self.named_arguments(b"noreply", args),
            Submission::Pipe { commands } => self.named_commands(b"pipe", commands),
            Submission::Multi { commands } => self.named_commands(b"multi", commands),
            Submission::Packed {
                offset,
                count,
                commands,
            } => self.packed(*offset, *count, commands),
            Submission::Subscription { action, names } => self.called(*action, names),
            Submission::Ping { message } => self.ping(message),
        }
    }

    /// The words of what failed: its name, a link and the kind of the fault.
    fn fault(&mut self, name: &[u8], link: u32, fault: FaultKind) -> Result<(), AllocError>
        ensures before { self.new.before ≡ self.old.before }
        ensures ok { OnOk result
            (AddedWords self.old self.new (name.now ∷ decimal link ∷ fault_name fault ∷ [])) }
    {
        self.word(name)?;
        self.number(u64::from(link))?;
        self.word(fault.name().as_bytes())
    }

    /// The words of credentials: the source that they came of, who authenticates and by what.
    fn creds(&mut self, source: u32, auth: &BasicAuth) -> Result<(), AllocError>
        ensures before { self.new.before ≡ self.old.before }
        ensures ok { OnOk result (AddedWords self.old self.new
            (codes "creds" ∷ decimal source ∷ auth.now.username ∷ auth.now.password ∷ [])) }
    {
        self.literal(b"creds")?;
        self.number(u64::from(source))?;
        self.word(auth.username())?;
        self.word(auth.password())
    }

    /// The words of an event that names a number: its name, and that number.
    fn named_number(&mut self, name: &[u8], number: u64) -> Result<(), AllocError>
        requires { is_literal name.now ≡ true }
        ensures before { self.new.before ≡ self.old.before }
        ensures ok { OnOk result
            (AddedWords self.old self.new (name.now ∷ decimal number ∷ [])) }
    {
        self.literal(name)?;
        self.number(number)
    }

    /// The words of the event that a caller hands something in.
    fn handed_in(&mut self, submission: &Submission) -> Result<(), AllocError>
        ensures before { self.new.before ≡ self.old.before }
        ensures ok { OnOk result
            (AddedParts self.old self.new (codes "submit" ∷ submission_words submission.now)
            (submission_more submission.now)) }
    {
        self.literal(b"submit")?;
        self.submitted(submission)
    }

    /// The words of bytes that a link took.
    fn wrote(&mut self, link: u32, count: u64) -> Result<(), AllocError>
        ensures before { self.new.before ≡ self.old.before }
        ensures ok { OnOk result
            (AddedWords self.old self.new (codes "wrote" ∷ decimal link ∷ decimal count ∷ [])) }
    {
        self.literal(b"wrote")?;
        self.number(u64::from(link))?;
        self.number(count)
    }

    /// The words of bytes that came on a link.
    fn came(&mut self, link: u32, piece: &Bytes) -> Result<(), AllocError>
        ensures before { self.new.before ≡ self.old.before }
        ensures ok { OnOk result
            (AddedWords self.old self.new (codes "bytes" ∷ decimal link ∷ piece.now ∷ [])) }
    {
        self.literal(b"bytes")?;
        self.number(u64::from(link))?;
        self.word(piece.as_slice())
    }

    /// The words of a source that could not give credentials, and why.
    fn denied(&mut self, source: u32, text: &Bytes) -> Result<(), AllocError>
        ensures before { self.new.before ≡ self.old.before }
        ensures ok { OnOk result
            (AddedWords self.old self.new (codes "creds-err" ∷ decimal source ∷ text.now ∷ [])) }
    {
        self.literal(b"creds-err")?;
        self.number(u64::from(source))?;
        self.word(text.as_slice())
    }

    /// The words of a new time for requests.
    fn new_time(&mut self, ms: Option<u64>) -> Result<(), AllocError>
        ensures before { self.new.before ≡ self.old.before }
        ensures ok { OnOk result
            (AddedWords self.old self.new (codes "timeout" ∷ time_word ms ∷ [])) }
    {
        self.literal(b"timeout")?;
        self.time(ms)
    }

    /// The words of an event.
    fn event(&mut self, kind: &EventKind) -> Result<(), AllocError>
        ensures before { self.new.before ≡ self.old.before }
        ensures ok { OnOk result
            (AddedParts self.old self.new (event_words kind.now) (event_more kind.now)) }
    {
        match kind {
            EventKind::Submit { submission } => self.handed_in(submission),
            EventKind::Cancel { submission } => {
                self.named_number(b"cancel", u64::from(*submission))
            }
            EventKind::Fired { timer } => self.named_number(b"fired", u64::from(*timer)),
            EventKind::Creds { source, auth } => self.creds(*source, auth),
            EventKind::CredsError { source, text } => self.denied(*source, text),
            EventKind::CredsEnd { source } => self.named_number(b"creds-end", u64::from(*source)),
            EventKind::Timeout { ms } => self.new_time(*ms),
            EventKind::DropStream => self.literal(b"drop-stream"),
            EventKind::Shutdown => self.literal(b"shutdown"),
            _ => self.link_event(kind),
        }
    }

    /// The words of what comes of a link.
    fn link_event(&mut self, kind: &EventKind) -> Result<(), AllocError>
        requires { comes_of_link kind.now ≡ true }
        ensures before { self.new.before ≡ self.old.before }
        ensures ok { OnOk result
            (AddedParts self.old self.new (event_words kind.now) (event_more kind.now)) }
    {
        match kind {
            EventKind::Connected { link } => self.named_number(b"connected", u64::from(*link)),
            EventKind::Refused { link, fault } => self.fault(b"refused", *link, *fault),
            EventKind::Wrote { link, count } => self.wrote(*link, *count),
            EventKind::Bytes { link, piece } => self.came(*link, piece),
            EventKind::Ended { link } => self.named_number(b"ended", u64::from(*link)),
            EventKind::ReadFault { link, fault } => self.fault(b"read-fault", *link, *fault),
            EventKind::WriteFault { link, fault } => self.fault(b"write-fault", *link, *fault),
            _ => unreachable!(),
        }
    }

    /// The words of an opening: those of its config line, behind the word of its draws.
    pub fn opening(&mut self, config: &Config, word: u64) -> Result<(), AllocError>
        ensures before { self.new.before ≡ self.old.before }
        ensures ok { OnOk result
            (AddedParts self.old self.new (cause_words (Cause.Opening config.now word))
            (cause_more (Cause.Opening config.now word))) }
    {
        self.draw(word)?;
        self.config(config)
    }

    /// The words of an event, behind the word of its draws.
    pub fn drawn_event(&mut self, event: &Event) -> Result<(), AllocError>
        ensures before { self.new.before ≡ self.old.before }
        ensures ok { OnOk result
            (AddedParts self.old self.new (cause_words (Cause.Event event.now))
            (cause_more (Cause.Event event.now))) }
    {
        self.draw(event.word)?;
        self.event(&event.kind)
    }

    /// The words of what a turn is the turn of.
    pub fn cause(&mut self, cause: &Cause) -> Result<(), AllocError>
        ensures before { self.new.before ≡ self.old.before }
        ensures ok { OnOk result
            (AddedParts self.old self.new (cause_words cause.now) (cause_more cause.now)) }
    {
        match cause {
            Cause::Opening { config, word } => self.opening(config, *word),
            Cause::Event { event } => self.drawn_event(event),
        }
    }
}

/// The name of a subscription call.
fn call_word(action: SubscriptionAction) -> &'static [u8]
    ensures { result.now ≡ call_word action }
{
    match action {
        SubscriptionAction::Subscribe => b"subscribe",
        SubscriptionAction::Unsubscribe => b"unsubscribe",
        SubscriptionAction::PSubscribe => b"psubscribe",
        SubscriptionAction::PUnsubscribe => b"punsubscribe",
        SubscriptionAction::SSubscribe => b"ssubscribe",
        SubscriptionAction::Sunsubscribe => b"sunsubscribe",
    }
}
