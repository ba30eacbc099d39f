/// Why a line is at fault.
#[derive(Clone, Copy)]
pub enum Reason {
    Text(TextReason),
    Line(LineReason),
    Config(ConfigReason),
    Event(EventReason),
    Form(Form),
    /// Nothing is at fault.
    Sound,
}

/// Why a line is at fault by where it stands, or by its length.
#[derive(Clone, Copy)]
pub enum TextReason {
    ManyLines,
    LongLine,
    LongText,
    /// The script ends before its last line.
    NoEnd,
    /// No LF ends the line.
    NoNewline,
    /// A byte stands behind the last line.
    BehindEnd,
}

/// Why the bytes of a line are no words.
#[derive(Clone, Copy)]
pub enum LineReason {
    /// The line ends in CR.
    CarriageReturn,
    Empty,
    /// Two spaces, or one at an end of the line.
    Space,
    /// A `%` without two hexadecimal digits.
    Escape,
    /// A `;` where there is no list of commands.
    Separator,
    /// No number of 64 bits behind `@`.
    Draw,
}

/// Why the words of a line are no configuration.
#[derive(Clone, Copy)]
pub enum ConfigReason {
    /// The first word.
    Name,
    /// The kind of the connection.
    Kind,
    /// A word that isn't KEY=VALUE.
    Setting,
    UnknownKey,
    /// These of a connection that comes back.
    ManagerSetting,
    UnknownManagerKey,
    /// These of a link of publish/subscribe or of monitor mode.
    LinkSetting,
    UnknownLinkKey,
    KeyTwice,
    NoKey,
    /// How long the connect may take: neither a number nor `none`.
    Connect,
    /// Within how long a request is to be answered: neither a number nor `none`.
    Response,
    /// The size of the queue: no number of 32 bits.
    Buffer,
    /// The number of permits: no number of 32 bits.
    Limit,
    /// The boundary: no number of 64 bits.
    Boundary,
    /// Whether somebody hears pushes: neither `on` nor `off`.
    Push,
    /// Whether credentials come of a source: neither `on` nor `off`.
    Credentials,
    /// Whether the library is named: neither `on` nor `off`.
    Library,
    /// How many attempts there are after the first: no number of 32 bits.
    Retries,
    /// Below what the first delay between attempts lies: no number of 64 bits.
    FirstDelay,
    /// How long such a delay is at most: neither a number nor `none`.
    LongestDelay,
    /// By what such delays grow: no two numbers of 32 bits with a `/` between them.
    Growth,
    /// Whether what was subscribed is subscribed again: neither `on` nor `off`.
    Resubscription,
}

/// Why the words of a line are no event.
#[derive(Clone, Copy)]
pub enum EventReason {
    /// The first word.
    Name,
    /// The second word of `submit`.
    Submission,
    /// This, of a link of publish/subscribe.
    LinkSubmission,
    /// Something is submitted to a link of monitor mode.
    NoSubmission,
    /// No number of 32 bits.
    Number,
    /// No number of 64 bits.
    LargeNumber,
    /// Neither a number of 64 bits nor `none`.
    Time,
    /// No kind of a fault.
    FaultKind,
}

/// The event of whose words there are too few or too many.
#[derive(Clone, Copy)]
pub enum Form {
    Cancel,
    Connected,
    Refused,
    Wrote,
    Bytes,
    Ended,
    ReadFault,
    WriteFault,
    Fired,
    Creds,
    CredsError,
    CredsEnd,
    Timeout,
    DropStream,
    Shutdown,
    Packed,
    Ping,
}

impl Reason {
    /// The reason in one sentence, which says what is allowed.
    pub fn sentence(self) -> &'static [u8] {
        match self {
            Reason::Text(reason) => reason.sentence(),
            Reason::Line(reason) => reason.sentence(),
            Reason::Config(reason) => reason.sentence(),
            Reason::Event(reason) => reason.sentence(),
            Reason::Form(form) => form.sentence(),
            Reason::Sound => b"nothing is at fault",
        }
    }
}

impl TextReason {
    fn sentence(self) -> &'static [u8] {
        match self {
            TextReason::ManyLines => b"a script has at most 1000000 lines",
            TextReason::LongLine => b"a line has at most 1048576 bytes, its LF not counted",
            TextReason::LongText => b"a script has at most 67108864 bytes, its LFs counted",
            TextReason::NoEnd => b"the script has no last line, which is end",
            TextReason::NoNewline => b"the last line has no newline: LF ends each line",
            TextReason::BehindEnd => b"nothing may stand behind the line end",
        }
    }
}

impl LineReason {
    fn sentence(self) -> &'static [u8] {
        match self {
            LineReason::CarriageReturn => b"this line ends in CR LF: lines end in LF alone",
            LineReason::Empty => b"this line is empty: a line has words, one space between two",
            LineReason::Space => b"one space stands between two words, and none before or behind",
            LineReason::Escape => {
                b"two hexadecimal digits stand behind %, and %- alone is the empty word"
            }
            LineReason::Separator => {
                b"; separates commands in pipe, multi and packed alone, and %3B is an argument ;"
            }
            LineReason::Draw => {
                b"behind @ stands a number, digits alone without a leading zero, at most 18446744073709551615"
            }
        }
    }
}

impl ConfigReason {
    fn sentence(self) -> &'static [u8] {
        match self {
            ConfigReason::Name => {
                b"the first line is config single url=URL, with connect=MS, response=MS (MS or none), buffer=COUNT, limit=COUNT, boundary=BYTES, push=on or push=off, creds=on or creds=off, and lib=on or lib=off where wanted; or config manager url=URL or config lazy url=URL, with these and retries=COUNT, min=MS, max=MS (MS or none), base=NUMBER/NUMBER, and resub=on or resub=off where wanted; or config pubsub url=URL or config monitor url=URL, with lib=on or lib=off where wanted"
            }
            ConfigReason::Kind =>
                b"only single, manager, lazy, pubsub and monitor are supported yet",
            ConfigReason::Setting => {
                b"a setting is KEY=VALUE, with url, connect, response, buffer, limit, boundary, push, creds or lib"
            }
            ConfigReason::UnknownKey => {
                b"the keys are url, connect, response, buffer, limit, boundary, push, creds and lib"
            }
            ConfigReason::ManagerSetting => {
                b"a setting is KEY=VALUE, with url, connect, response, buffer, limit, boundary, push, creds, lib, retries, min, max, base or resub"
            }
            ConfigReason::UnknownManagerKey => {
                b"the keys of this kind are url, connect, response, buffer, limit, boundary, push, creds, lib, retries, min, max, base and resub"
            }
            ConfigReason::LinkSetting => b"a setting is KEY=VALUE, with url or lib",
            ConfigReason::UnknownLinkKey => b"the keys of this kind are url and lib",
            ConfigReason::KeyTwice => b"each key stands once",
            ConfigReason::NoKey => b"url stands once",
            ConfigReason::Connect => {
                b"connect is a number of milliseconds, at most 18446744073709551615, or none"
            }
            ConfigReason::Response => {
                b"response is a number of milliseconds, at most 18446744073709551615, or none"
            }
            ConfigReason::Limit => {
                b"limit is a number of permits, digits alone without a leading zero, at most 4294967295"
            }
            ConfigReason::Buffer => {
                b"buffer is a number of messages, digits alone without a leading zero, at most 4294967295"
            }
            ConfigReason::Boundary => {
                b"boundary is a number of bytes, digits alone without a leading zero, at most 18446744073709551615"
            }
            ConfigReason::Push => b"push is on or off",
            ConfigReason::Credentials => b"creds is on or off",
            ConfigReason::Library => b"lib is on or off",
            ConfigReason::Retries => {
                b"retries is a number of attempts, digits alone without a leading zero, at most 4294967295"
            }
            ConfigReason::FirstDelay => {
                b"min is a number of milliseconds, digits alone without a leading zero, at most 18446744073709551615"
            }
            ConfigReason::LongestDelay => {
                b"max is a number of milliseconds, at most 18446744073709551615, or none"
            }
            ConfigReason::Growth => {
                b"base is two numbers with / between them, each digits alone without a leading zero, at most 4294967295"
            }
            ConfigReason::Resubscription => b"resub is on or off",
        }
    }
}

impl EventReason {
    fn sentence(self) -> &'static [u8] {
        match self {
            EventReason::Name => {
                b"an event is submit, cancel, connected, refused, wrote, bytes, ended, read-fault, write-fault, fired, creds, creds-err, creds-end, timeout, drop-stream or shutdown, and the last line is end"
            }
            EventReason::Submission => {
                b"submit takes cmd, noreply, pipe, multi, packed, subscribe, unsubscribe, psubscribe or punsubscribe"
            }
            EventReason::LinkSubmission => {
                b"submit takes subscribe, unsubscribe, psubscribe, punsubscribe or ping where the session is pubsub"
            }
            EventReason::NoSubmission => b"nothing is submitted where the session is monitor",
            EventReason::Number => {
                b"a number has digits alone, no leading zero, and is at most 4294967295"
            }
            EventReason::LargeNumber => {
                b"a number has digits alone, no leading zero, and is at most 18446744073709551615"
            }
            EventReason::Time => {
                b"a time is a number of milliseconds, digits alone without a leading zero, at most 18446744073709551615, or none"
            }
            EventReason::FaultKind => {
                b"a fault is refused, reset, aborted, not-connected, broken-pipe, eof, timed-out, interrupted, denied or other"
            }
        }
    }
}

impl Form {
    fn sentence(self) -> &'static [u8] {
        match self {
            Form::Cancel => b"this event is cancel SUBMISSION",
            Form::Connected => b"this event is connected LINK",
            Form::Refused => b"this event is refused LINK KIND",
            Form::Wrote => b"this event is wrote LINK COUNT",
            Form::Bytes => b"this event is bytes LINK BYTES",
            Form::Ended => b"this event is ended LINK",
            Form::ReadFault => b"this event is read-fault LINK KIND",
            Form::WriteFault => b"this event is write-fault LINK KIND",
            Form::Fired => b"this event is fired TIMER",
            Form::Creds => b"this event is creds SOURCE USER PASSWORD",
            Form::CredsError => b"this event is creds-err SOURCE TEXT",
            Form::CredsEnd => b"this event is creds-end SOURCE",
            Form::Timeout => b"this event is timeout MS or timeout none",
            Form::DropStream => b"this event is drop-stream alone",
            Form::Shutdown => b"this event is shutdown alone",
            Form::Packed => b"this event is submit packed OFFSET COUNT ARG..",
            Form::Ping => b"this event is submit ping or submit ping MESSAGE",
        }
    }
}
