ghost use Rattle.std.specs.Prelude.{◌≡◌, IfOk};
ghost use Rattle.session_program.specs.Lines.{help_text};
ghost use Rattle.session_program.specs.Notes.{line_note};

use containers::Bytes;
use program_ends::push_number;
use std::alloc::{AllocError, Global};

/// What the program says of itself.
pub const HELP: &[u8] =
    b"session_tool replay     reads a script from standard input, and writes the trace of its session
session_tool gen N      makes a script of N rounds, N from 1 to 200000, and writes what is counted in its trace
session_tool live WORDS hands the lines of standard input to a server, and writes the outcome of each
session_tool --help     this text
session_tool --version  the version

The WORDS of live are callers=K, K from 1 to 8, or nothing, and then those behind `config` in a script; each line is a line `submit ..`, and the last one `end`.

A script, each line an example:
config single url=redis://HOST:PORT
config manager url=redis://HOST:PORT     in its place: a connection that comes back where its link is lost
config lazy url=redis://HOST:PORT        one that connects with its first request, and comes back
config pubsub url=redis://HOST:PORT      a link of publish/subscribe
config monitor url=redis://HOST:PORT     or one in monitor mode
submit cmd GET a                         a command
submit noreply SET k 1                   a command whose reply nobody awaits
submit pipe GET a ; GET b                a pipeline
submit multi SET k 1 ; GET k             a transaction
submit packed 1 2 GET a ; GET b ; GET c  a pipeline, 1 reply skipped and 2 kept
submit subscribe CHANNEL                 a subscription call
submit ping                              PING, on a link of publish/subscribe
cancel 0                                 the caller of submission 0 drops its request
connected 0                              the connect of link 0 succeeded
refused 0 timed-out                      the connect of link 0 failed
wrote 0 20                               20 of the offered bytes were taken
bytes 0 +OK%0D%0A                        bytes came, and %0D is the byte 13
ended 0                                  the peer closed the link
read-fault 0 reset                       a read failed
write-fault 0 broken-pipe                a write failed
fired 0                                  the time of timer 0 is over
creds 0 USER PASSWORD                    source 0 gave these credentials
creds-err 0 TEXT                         it could not give any, and says why
creds-end 0                              no more come of it
timeout 250                              each later submission is to be answered within 250 ms
timeout none                             or within any time
drop-stream                              the stream of messages is dropped
shutdown                                 everything is closed
end                                      the last line

A line may begin with @ and a number: the word that its random draws come from.
What the URL has of a user, a password, a database and a protocol is said to the server first, and which library speaks, unless lib=off stands there.
The time of the connect is 1000 ms, or what connect=MS or connect=none says in the first line.
The time of a request is 500 ms, or what response=MS or response=none says there; limit=COUNT sets how many permits there are.
The queue of a link holds 50 messages, or what buffer=COUNT says there, and none starts while 8192 bytes or more, or what boundary=BYTES says, are unwritten.
Pushes are heard where push=on stands there, on a URL with ?protocol=3: each is an action, and so is the end of a link.
Credentials come of sources where creds=on stands there: need-creds asks for a first source when the link is up, and for a second when it is set up.
A manager makes 6 attempts after the first, or as many as retries=COUNT says there, each behind a delay: below 100 ms, or what min=MS says, then below twice as much, or as base=NUMBER/NUMBER says, and max=MS at most.
Where resub=on and push=on stand there, a manager's new link subscribes again what was subscribed.
A fault is refused, reset, aborted, not-connected, broken-pipe, eof, timed-out, interrupted, denied or other.
Status: 0 done, 1 no command, 2 no script, 3 refused configuration, 4 bad event, 5 no memory, 6 no input, 7 no output, 8 no more numbers.
";

/// The program's version.
pub const VERSION: &[u8] = b"session_tool 0.1.0\n";

/// What the program says of itself: its words, and each line of a script with an example.
#[tactic(auto, unfolding(crate::specs::Lines::help_text))]
pub fn help_text() -> &'static [u8]
    ensures { result.now ≡ help_text }
{
    HELP
}

/// The note of a line of a script: its number, and why.
pub fn reason_line(alloc: Global, line: u64, why: &[u8]) -> Result<Bytes, AllocError>
    ensures { IfOk result (λ note. note ≡ line_note line why.now) }
{
    let mut note = Bytes::from_slice(alloc, b"line ")?;
    push_number(&mut note, line)?;
    note.extend_from_slice(b": ")?;
    note.extend_from_slice(why)?;
    note.extend_from_slice(b"\n")?;
    Ok(note)
}
