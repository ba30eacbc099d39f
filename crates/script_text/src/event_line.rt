ghost use Rattle.std.specs.Prelude.{◌≡◌, ◌≤◌, ◌∷◌, ◌++◌, [], ℕ, List, drop, length, option_map, MatchOption, OnOk, IfOk, IfSome, Some, None};
ghost use Rattle.driver_model.specs.declared.event.EventKind.TheVariants.{Submit, Cancel, Connected};
ghost use Rattle.driver_model.specs.declared.event.EventKind.TheVariants.{Ended, CredsEnd, DropStream, Shutdown};
ghost use Rattle.driver_model.specs.declared.event.EventKind.TheVariants.{Refused, ReadFault, WriteFault, Fired};
ghost use Rattle.driver_model.specs.declared.event.EventKind.{EventKind};
ghost use Rattle.redis_error.specs.declared.fault_kind.FaultKind.{FaultKind};
ghost use Rattle.driver_model.specs.declared.event.Submission.TheVariants.{Cmd, NoReply, Pipe, Multi, Packed};
ghost use Rattle.script_text.specs.EventLine.{by_first, whole, numbered, wrote, came, alone, faults};
ghost use Rattle.script_text.specs.EventLine.{authorized, denied, timed, call, calls};
ghost use Rattle.script_text.specs.EventLine.{fault_among, failed, commands, packed, pinged};
ghost use Rattle.script_text.specs.EventLine.{requests, submissions, others, events, event_of};

use crate::draw::drawn;
use crate::line::Line;
use crate::number::{number_u32, number_u64, time_limit};
use crate::word::{Word, take_all};
use containers::{Names, Seq};
use credentials::BasicAuth;
use driver_model::{Commands, Event, EventKind, SessionKind, Submission};
use redis_error::FaultKind;
use resp_write::SubscriptionAction;
use std::alloc::{AllocError, Global};
use std::mem;

/// The kinds of faults.
const FAULTS: [FaultKind; 10] = [
    FaultKind::Refused,
    FaultKind::Reset,
    FaultKind::Aborted,
    FaultKind::NotConnected,
    FaultKind::BrokenPipe,
    FaultKind::Eof,
    FaultKind::TimedOut,
    FaultKind::Interrupted,
    FaultKind::Denied,
    FaultKind::Other,
];

/// The one word, as a number.
fn only_number(words: &[Word<'_>]) -> Option<u32>
    ensures { result ≡ numbered (λ n. n) words.now }
{
    match words {
        [n] => number_u32(n.as_slice()),
        _ => None,
    }
}

fn read_wrote(words: &[Word<'_>]) -> Option<EventKind>
    ensures { result ≡ wrote words.now }
{
    let [link, count] = words else {
        return None;
    };
    let link = number_u32(link.as_slice())?;
    let count = number_u64(count.as_slice())?;
    Some(EventKind::Wrote { link, count })
}

fn read_came(alloc: Global, words: &mut [Word<'_>]) -> Result<Option<EventKind>, AllocError>
    ensures { IfOk result (λ k. k ≡ came words.old) }
{
    let [link, _] = &*words else {
        return Ok(None);
    };
    let Some(link) = number_u32(link.as_slice()) else {
        return Ok(None);
    };
    let piece = words[1].take(alloc)?;
    Ok(Some(EventKind::Bytes { link, piece }))
}

/// A source, and the credentials that came of it.
fn read_creds(alloc: Global, words: &mut [Word<'_>]) -> Result<Option<EventKind>, AllocError>
    ensures { IfOk result (λ k. k ≡ authorized words.old) }
{
    let [source, _, _] = &*words else {
        return Ok(None);
    };
    let Some(source) = number_u32(source.as_slice()) else {
        return Ok(None);
    };
    let username = words[1].take(alloc)?;
    let password = words[2].take(alloc)?;
    let auth = BasicAuth::new(username, password);
    Ok(Some(EventKind::Creds { source, auth }))
}

/// A source, and why it could not give credentials.
fn read_creds_error(alloc: Global, words: &mut [Word<'_>]) -> Result<Option<EventKind>, AllocError>
    ensures { IfOk result (λ k. k ≡ denied words.old) }
{
    let [source, _] = &*words else {
        return Ok(None);
    };
    let Some(source) = number_u32(source.as_slice()) else {
        return Ok(None);
    };
    let text = words[1].take(alloc)?;
    Ok(Some(EventKind::CredsError { source, text }))
}

/// The first of these faults with that name.
fn fault_among(faults: &[FaultKind], name: &[u8]) -> Option<FaultKind>
    ensures { result ≡ fault_among faults.now name.now }
{
    for fault in faults {
        if name == fault.name().as_bytes() {
            return Some(*fault);
        }
    }
    None
}

/// The fault with that name.
pub fn fault(name: &[u8]) -> Option<FaultKind>
    ensures { result ≡ fault_among faults name.now }
{
    fault_among(&FAULTS, name)
}

/// A link, and the kind of what failed there.
fn link_fault(words: &[Word<'_>]) -> Option<(u32, FaultKind)>
    ensures { MatchOption result ((f : ℕ → FaultKind → EventKind) → failed f words.now ≡ None)
        (λ c. (f : ℕ → FaultKind → EventKind) → failed f words.now ≡ Some (f c.0 c.1)) }
{
    let [link, name] = words else {
        return None;
    };
    let link = number_u32(link.as_slice())?;
    let fault = fault(name.as_slice())?;
    Some((link, fault))
}

fn refused(words: &[Word<'_>]) -> Option<EventKind>
    ensures { result ≡ failed Refused words.now }
{
    let (link, fault) = link_fault(words)?;
    Some(EventKind::Refused { link, fault })
}

fn read_fault(words: &[Word<'_>]) -> Option<EventKind>
    ensures { result ≡ failed ReadFault words.now }
{
    let (link, fault) = link_fault(words)?;
    Some(EventKind::ReadFault { link, fault })
}

fn write_fault(words: &[Word<'_>]) -> Option<EventKind>
    ensures { result ≡ failed WriteFault words.now }
{
    let (link, fault) = link_fault(words)?;
    Some(EventKind::WriteFault { link, fault })
}

/// One more command, of all these words.
fn push_command(
    alloc: Global,
    commands: &mut Commands,
    words: &mut [Word<'_>],
) -> Result<(), AllocError>
    ensures { OnOk result (commands.new ≡ commands.old ++ words.old ∷ []) }
{
    let command = take_all(alloc, words)?;
    commands.push(command)
}

/// More commands, each of the words behind a separator.
fn push_commands(
    alloc: Global,
    commands: &mut Commands,
    more: Vec<Seq<Word<'_>>>,
) -> Result<(), AllocError>
    ensures { OnOk result (commands.new ≡ commands.old ++ more.entry.items) }
{
    for command in more {
        let mut words = command.into_vec();
        push_command(alloc, commands, words.as_mut_slice())?;
    }
    Ok(())
}

/// The commands between separators.
fn commands_between(
    alloc: Global,
    first: &mut [Word<'_>],
    more: &mut Vec<Seq<Word<'_>>>,
) -> Result<Commands, AllocError>
    ensures { IfOk result (λ cs. cs ≡ commands first.old more.old.items) }
{
    let mut commands = Commands::new(alloc);
    if first.is_empty() && more.is_empty() {
        return Ok(commands);
    }
    push_command(alloc, &mut commands, first)?;
    let rest = mem::replace(more, Vec::new(alloc));
    push_commands(alloc, &mut commands, rest)?;
    Ok(commands)
}

/// The arguments of a command, if it stands alone.
fn arguments(
    alloc: Global,
    words: &mut [Word<'_>],
    more: &[Seq<Word<'_>>],
) -> Result<Option<Names>, AllocError>
    ensures { IfOk result (λ args. args ≡ whole (λ ws. Some ws) words.old more.now) }
{
    match more {
        [] => Ok(Some(take_all(alloc, words)?)),
        _ => Ok(None),
    }
}

fn cmd(
    alloc: Global,
    words: &mut [Word<'_>],
    more: &[Seq<Word<'_>>],
) -> Result<Option<Submission>, AllocError>
    ensures { IfOk result (λ s. s ≡ whole (λ ws. Some (Cmd ws)) words.old more.now) }
{
    match arguments(alloc, words, more)? {
        Some(args) => Ok(Some(Submission::Cmd { args })),
        None => Ok(None),
    }
}

fn no_reply(
    alloc: Global,
    words: &mut [Word<'_>],
    more: &[Seq<Word<'_>>],
) -> Result<Option<Submission>, AllocError>
    ensures { IfOk result (λ s. s ≡ whole (λ ws. Some (NoReply ws)) words.old more.now) }
{
    match arguments(alloc, words, more)? {
        Some(args) => Ok(Some(Submission::NoReply { args })),
        None => Ok(None),
    }
}

fn pipe(
    alloc: Global,
    words: &mut [Word<'_>],
    more: &mut Vec<Seq<Word<'_>>>,
) -> Result<Option<Submission>, AllocError>
    ensures { IfOk result (λ s. s ≡ Some (Pipe (commands words.old more.old.items))) }
{
    let commands = commands_between(alloc, words, more)?;
    Ok(Some(Submission::Pipe { commands }))
}

fn multi(
    alloc: Global,
    words: &mut [Word<'_>],
    more: &mut Vec<Seq<Word<'_>>>,
) -> Result<Option<Submission>, AllocError>
    ensures { IfOk result (λ s. s ≡ Some (Multi (commands words.old more.old.items))) }
{
    let commands = commands_between(alloc, words, more)?;
    Ok(Some(Submission::Multi { commands }))
}

/// How many replies are skipped and how many are kept, by the first two words.
fn numbers(words: &[Word<'_>]) -> Option<(u32, u32)>
    ensures read { MatchOption result
        ((more : List (List (List ℕ))) → packed words.now more ≡ None)
        (λ n. (more : List (List (List ℕ))) → packed words.now more
        ≡ Some (Packed n.0 n.1 (commands (drop 2 words.now) more))) }
    ensures two { IfSome result (λ _. 2 ≤ length words.now) }
{
    let [offset, count, ..] = words else {
        return None;
    };
    let offset = number_u32(offset.as_slice())?;
    let count = number_u32(count.as_slice())?;
    Some((offset, count))
}

fn read_packed(
    alloc: Global,
    words: &mut [Word<'_>],
    more: &mut Vec<Seq<Word<'_>>>,
) -> Result<Option<Submission>, AllocError>
    ensures { IfOk result (λ s. s ≡ packed words.old more.old.items) }
{
    let Some((offset, count)) = numbers(words) else {
        return Ok(None);
    };
    let commands = commands_between(alloc, &mut words[2..], more)?;
    Ok(Some(Submission::Packed {
        offset,
        count,
        commands,
    }))
}

/// A subscription call with the names that the words are.
fn called(
    alloc: Global,
    action: SubscriptionAction,
    words: &mut [Word<'_>],
    more: &[Seq<Word<'_>>],
) -> Result<Option<Submission>, AllocError>
    ensures { IfOk result (λ s. s ≡ whole (call action) words.old more.now) }
{
    match arguments(alloc, words, more)? {
        Some(names) => Ok(Some(Submission::Subscription { action, names })),
        None => Ok(None),
    }
}

/// A subscription call, by its name and the words behind it.
#[tactic(auto, unfolding(crate::specs::EventLine::calls))]
fn call(
    alloc: Global,
    name: &[u8],
    words: &mut [Word<'_>],
    more: &[Seq<Word<'_>>],
) -> Result<Option<Submission>, AllocError>
    ensures { IfOk result (λ s. s ≡ by_first calls (name.now ∷ words.old) more.now) }
{
    if name == b"subscribe".as_slice() {
        return called(alloc, SubscriptionAction::Subscribe, words, more);
    }
    if name == b"unsubscribe".as_slice() {
        return called(alloc, SubscriptionAction::Unsubscribe, words, more);
    }
    if name == b"psubscribe".as_slice() {
        return called(alloc, SubscriptionAction::PSubscribe, words, more);
    }
    if name == b"punsubscribe".as_slice() {
        return called(alloc, SubscriptionAction::PUnsubscribe, words, more);
    }
    Ok(None)
}

/// What is submitted to one multiplexed connection, by the name and the words behind it: a command, a pipeline, or something else.
fn named_request(
    alloc: Global,
    name: &[u8],
    words: &mut [Word<'_>],
    more: &mut Vec<Seq<Word<'_>>>,
) -> Result<Option<Submission>, AllocError>
    ensures { IfOk result (λ s. s ≡ by_first requests (name.now ∷ words.old) more.old.items) }
{
    if name == b"cmd".as_slice() {
        return cmd(alloc, words, more.as_slice());
    }
    if name == b"noreply".as_slice() {
        return no_reply(alloc, words, more.as_slice());
    }
    if name == b"pipe".as_slice() {
        return pipe(alloc, words, more);
    }
    whole_request(alloc, name, words, more)
}

/// A transaction, a packed request, or a subscription call.
fn whole_request(
    alloc: Global,
    name: &[u8],
    words: &mut [Word<'_>],
    more: &mut Vec<Seq<Word<'_>>>,
) -> Result<Option<Submission>, AllocError>
    ensures { IfOk result (λ s.
        s ≡ by_first (drop 3 requests) (name.now ∷ words.old) more.old.items) }
{
    if name == b"multi".as_slice() {
        return multi(alloc, words, more);
    }
    if name == b"packed".as_slice() {
        return read_packed(alloc, words, more);
    }
    call(alloc, name, words, more.as_slice())
}

/// What is submitted to one multiplexed connection.
fn request(
    alloc: Global,
    words: &mut [Word<'_>],
    more: &mut Vec<Seq<Word<'_>>>,
) -> Result<Option<Submission>, AllocError>
    ensures { IfOk result (λ s. s ≡ by_first requests words.old more.old.items) }
{
    let Some((name, words)) = words.split_first_mut() else {
        return Ok(None);
    };
    named_request(alloc, name.as_slice(), words, more)
}

/// PING, with the message that the words are, if they are one.
fn ping(alloc: Global, words: &mut [Word<'_>]) -> Result<Option<Submission>, AllocError>
    ensures { IfOk result (λ s. s ≡ pinged words.old) }
{
    match words {
        [] => Ok(Some(Submission::Ping { message: None })),
        [message] => {
            let message = message.take(alloc)?;
            Ok(Some(Submission::Ping {
                message: Some(message),
            }))
        }
        _ => Ok(None),
    }
}

/// What is submitted to a link of publish/subscribe.
fn link_submission(
    alloc: Global,
    words: &mut [Word<'_>],
    more: &[Seq<Word<'_>>],
) -> Result<Option<Submission>, AllocError>
    ensures { IfOk result (λ s. s ≡ by_first (submissions SessionKind.PubSub) words.old more.now) }
{
    let Some((name, words)) = words.split_first_mut() else {
        return Ok(None);
    };
    let name = name.as_slice();
    if name != b"ping".as_slice() {
        return call(alloc, name, words, more);
    }
    match more {
        [] => ping(alloc, words),
        _ => Ok(None),
    }
}

/// What is submitted to a session of this kind.
#[tactic(auto, using(crate::proofs::Forms::no_form))]
fn submission(
    alloc: Global,
    kind: SessionKind,
    words: &mut [Word<'_>],
    more: &mut Vec<Seq<Word<'_>>>,
) -> Result<Option<Submission>, AllocError>
    ensures { IfOk result (λ s. s ≡ by_first (submissions kind) words.old more.old.items) }
{
    match kind {
        SessionKind::Single => request(alloc, words, more),
        SessionKind::Manager { lazy: _ } => request(alloc, words, more),
        SessionKind::PubSub => link_submission(alloc, words, more.as_slice()),
        SessionKind::Monitor => Ok(None),
    }
}

fn submit(
    alloc: Global,
    kind: SessionKind,
    words: &mut [Word<'_>],
    more: &mut Vec<Seq<Word<'_>>>,
) -> Result<Option<EventKind>, AllocError>
    ensures { IfOk result (λ k.
        k ≡ option_map Submit (by_first (submissions kind) words.old more.old.items)) }
{
    match submission(alloc, kind, words, more)? {
        Some(submission) => Ok(Some(EventKind::Submit { submission })),
        None => Ok(None),
    }
}

fn cancel(words: &[Word<'_>]) -> Option<EventKind>
    ensures { result ≡ numbered Cancel words.now }
{
    Some(EventKind::Cancel {
        submission: only_number(words)?,
    })
}

fn connected(words: &[Word<'_>]) -> Option<EventKind>
    ensures { result ≡ numbered Connected words.now }
{
    Some(EventKind::Connected {
        link: only_number(words)?,
    })
}

fn ended(words: &[Word<'_>]) -> Option<EventKind>
    ensures { result ≡ numbered Ended words.now }
{
    Some(EventKind::Ended {
        link: only_number(words)?,
    })
}

fn fired(words: &[Word<'_>]) -> Option<EventKind>
    ensures { result ≡ numbered Fired words.now }
{
    Some(EventKind::Fired {
        timer: only_number(words)?,
    })
}

fn creds_end(words: &[Word<'_>]) -> Option<EventKind>
    ensures { result ≡ numbered CredsEnd words.now }
{
    Some(EventKind::CredsEnd {
        source: only_number(words)?,
    })
}

fn timeout(words: &[Word<'_>]) -> Option<EventKind>
    ensures { result ≡ timed words.now }
{
    let [value] = words else {
        return None;
    };
    let ms = time_limit(value.as_slice())?;
    Some(EventKind::Timeout { ms })
}

fn drop_stream(words: &[Word<'_>]) -> Option<EventKind>
    ensures { result ≡ alone DropStream words.now }
{
    match words {
        [] => Some(EventKind::DropStream),
        _ => None,
    }
}

fn shutdown(words: &[Word<'_>]) -> Option<EventKind>
    ensures { result ≡ alone Shutdown words.now }
{
    match words {
        [] => Some(EventKind::Shutdown),
        _ => None,
    }
}

/// What happens besides submissions, by the name and the words behind it: a caller goes, a connect or a write is answered, or
/// something else.
#[tactic(auto, unfolding(crate::specs::EventLine::others))]
fn other(
    alloc: Global,
    name: &[u8],
    words: &mut [Word<'_>],
) -> Result<Option<EventKind>, AllocError>
    ensures { IfOk result (λ k. k ≡ by_first others (name.now ∷ words.old) []) }
{
    if name == b"cancel".as_slice() {
        return Ok(cancel(words));
    }
    if name == b"connected".as_slice() {
        return Ok(connected(words));
    }
    if name == b"refused".as_slice() {
        return Ok(refused(words));
    }
    if name == b"wrote".as_slice() {
        return Ok(read_wrote(words));
    }
    given(alloc, name, words)
}

/// What a link gives, that it has ended, a fault on it, or what happens besides that.
#[tactic(auto, unfolding(crate::specs::EventLine::others))]
fn given(
    alloc: Global,
    name: &[u8],
    words: &mut [Word<'_>],
) -> Result<Option<EventKind>, AllocError>
    ensures { IfOk result (λ k. k ≡ by_first (drop 4 others) (name.now ∷ words.old) []) }
{
    if name == b"bytes".as_slice() {
        return read_came(alloc, words);
    }
    if name == b"ended".as_slice() {
        return Ok(ended(words));
    }
    if name == b"read-fault".as_slice() {
        return Ok(read_fault(words));
    }
    if name == b"write-fault".as_slice() {
        return Ok(write_fault(words));
    }
    timer_or_source(alloc, name, words)
}

/// A timer that fires, what a source of credentials says, or what happens besides that.
#[tactic(auto, unfolding(crate::specs::EventLine::others))]
fn timer_or_source(
    alloc: Global,
    name: &[u8],
    words: &mut [Word<'_>],
) -> Result<Option<EventKind>, AllocError>
    ensures { IfOk result (λ k. k ≡ by_first (drop 8 others) (name.now ∷ words.old) []) }
{
    if name == b"fired".as_slice() {
        return Ok(fired(words));
    }
    if name == b"creds".as_slice() {
        return read_creds(alloc, words);
    }
    if name == b"creds-err".as_slice() {
        return read_creds_error(alloc, words);
    }
    if name == b"creds-end".as_slice() {
        return Ok(creds_end(words));
    }
    Ok(told_to_session(name, words))
}

/// What the session itself is told.
#[tactic(auto, unfolding(crate::specs::EventLine::others))]
fn told_to_session(name: &[u8], words: &[Word<'_>]) -> Option<EventKind>
    ensures { result ≡ by_first (drop 12 others) (name.now ∷ words.now) [] }
{
    if name == b"timeout".as_slice() {
        return timeout(words);
    }
    if name == b"drop-stream".as_slice() {
        return drop_stream(words);
    }
    if name == b"shutdown".as_slice() {
        return shutdown(words);
    }
    None
}

/// What happens in a session of this kind.
fn happening(
    alloc: Global,
    kind: SessionKind,
    words: &mut [Word<'_>],
    more: &mut Vec<Seq<Word<'_>>>,
) -> Result<Option<EventKind>, AllocError>
    ensures { IfOk result (λ k. k ≡ by_first (events kind) words.old more.old.items) }
{
    let Some((name, words)) = words.split_first_mut() else {
        return Ok(None);
    };
    let name = name.as_slice();
    if name == b"submit".as_slice() {
        return submit(alloc, kind, words, more);
    }
    if !more.is_empty() {
        return Ok(None);
    }
    other(alloc, name, words)
}

/// The event of a session of this kind that the words of a line are. What it keeps is taken out of the line, which is then
/// only read anew.
#[tactic(auto, unfolding(crate::specs::EventLine::event_of))]
pub fn event(
    alloc: Global,
    kind: SessionKind,
    line: &mut Line<'_>,
) -> Result<Option<Event>, AllocError>
    ensures { IfOk result (λ e. e ≡ event_of kind line.old) }
{
    let Some((word, before)) = drawn(line.words()) else {
        return Ok(None);
    };
    let mut more = line.take_more(alloc);
    let words = line.words_mut();
    match happening(alloc, kind, &mut words[before..], &mut more)? {
        Some(happened) => Ok(Some(Event {
            word,
            kind: happened,
        })),
        None => Ok(None),
    }
}
