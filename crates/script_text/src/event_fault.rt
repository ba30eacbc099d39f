ghost use Rattle.std.specs.Prelude.{◌≡◌, ◌≤◌, ◌∷◌, [], ℕ, List, drop, length, true, is_some};
ghost use Rattle.std.specs.Prelude.{MatchOption, MatchResult, Some, None};
ghost use Rattle.driver_model.specs.declared.event.EventKind.{EventKind};
ghost use Rattle.redis_error.specs.declared.fault_kind.FaultKind.{FaultKind};
ghost use Rattle.script_text.specs.EventLine.{by_first, numbered, wrote, came, failed, timed, alone};
ghost use Rattle.script_text.specs.EventLine.{faults, fault_among, packed, pinged, calls, requests};
ghost use Rattle.script_text.specs.EventLine.{submissions, others};
ghost use Rattle.script_text.specs.EventLine.{authorized, denied, events, event_of};
ghost use Rattle.script_text.specs.Faults.{FindsFault, at};

use crate::draw::{draw_fault, drawn, fault_behind};
use crate::event_line::fault;
use crate::fault::{Fault, large_number_at, number_at};
use crate::line::Line;
use crate::number::time_limit;
use crate::reason::{EventReason, Form, LineReason, Reason};
use crate::word::Word;
use containers::Seq;
use driver_model::SessionKind;
use redis_error::FaultKind;

/// The kind of a fault that a part is, or its own fault.
fn kind_at(word: &[u8], part: usize) -> Result<FaultKind, Fault>
    ensures { MatchResult result (λ kind. fault_among faults word.now ≡ Some kind)
        (λ fault. (fault_among faults word.now ≡ None)
        × (fault ≡ at (Reason.Event EventReason.FaultKind) part)) }
{
    match fault(word) {
        Some(kind) => Ok(kind),
        None => Err(Fault {
            reason: Reason::Event(EventReason::FaultKind),
            part,
        }),
    }
}

/// Too few words or too many: `part` is the first that is too many.
fn form_fault(form: Form, part: usize) -> Option<Fault>
    ensures { is_some result ≡ true }
{
    Some(Fault {
        reason: Reason::Form(form),
        part,
    })
}

/// What is wrong with the one number of an event.
fn numbered_fault(words: &[Word<'_>], form: Form) -> Option<Fault>
    ensures { (f : ℕ → EventKind) → FindsFault result (numbered f words.now) }
{
    match words {
        [n] => number_at(n.as_slice(), 1).err(),
        _ => form_fault(form, 2),
    }
}

fn wrote_fault(words: &[Word<'_>]) -> Option<Fault>
    ensures { FindsFault result (wrote words.now) }
{
    let [link, count] = words else {
        return form_fault(Form::Wrote, 3);
    };
    match number_at(link.as_slice(), 1) {
        Ok(_) => large_number_at(count.as_slice(), 2).err(),
        Err(fault) => Some(fault),
    }
}

fn came_fault(words: &[Word<'_>]) -> Option<Fault>
    ensures { FindsFault result (came words.now) }
{
    match words {
        [link, _] => number_at(link.as_slice(), 1).err(),
        _ => form_fault(Form::Bytes, 3),
    }
}

/// What is wrong with the link and the kind of a fault.
fn failed_fault(words: &[Word<'_>], form: Form) -> Option<Fault>
    ensures { (f : ℕ → FaultKind → EventKind) → FindsFault result (failed f words.now) }
{
    let [link, kind] = words else {
        return form_fault(form, 3);
    };
    match number_at(link.as_slice(), 1) {
        Ok(_) => kind_at(kind.as_slice(), 2).err(),
        Err(fault) => Some(fault),
    }
}

/// What is wrong with a source and the credentials that came of it.
fn authorized_fault(words: &[Word<'_>]) -> Option<Fault>
    ensures { FindsFault result (authorized words.now) }
{
    match words {
        [source, _, _] => number_at(source.as_slice(), 1).err(),
        _ => form_fault(Form::Creds, 4),
    }
}

/// What is wrong with a source and why it could not give credentials.
fn denied_fault(words: &[Word<'_>]) -> Option<Fault>
    ensures { FindsFault result (denied words.now) }
{
    match words {
        [source, _] => number_at(source.as_slice(), 1).err(),
        _ => form_fault(Form::CredsError, 3),
    }
}

/// What is wrong with the one time of an event.
fn timeout_fault(words: &[Word<'_>]) -> Option<Fault>
    ensures { FindsFault result (timed words.now) }
{
    let [value] = words else {
        return form_fault(Form::Timeout, 2);
    };
    if time_limit(value.as_slice()).is_some() {
        return None;
    }
    Some(Fault {
        reason: Reason::Event(EventReason::Time),
        part: 1,
    })
}

/// What is wrong with an event that stands alone.
fn alone_fault(words: &[Word<'_>], form: Form) -> Option<Fault>
    ensures { (kind : EventKind) → FindsFault result (alone kind words.now) }
{
    match words {
        [] => None,
        _ => form_fault(form, 1),
    }
}

fn packed_fault(words: &[Word<'_>]) -> Option<Fault>
    ensures { (more : List (List (List ℕ))) → FindsFault result (packed words.now more) }
{
    let [offset, count, ..] = words else {
        return form_fault(Form::Packed, 4);
    };
    match number_at(offset.as_slice(), 2) {
        Ok(_) => number_at(count.as_slice(), 3).err(),
        Err(fault) => Some(fault),
    }
}

/// The first separator, where there is one.
fn separator_fault(more: &[Seq<Word<'_>>], part: usize) -> Option<Fault>
    ensures none { more.now ≡ [] → result ≡ None }
    ensures some { 1 ≤ length more.now
        → result ≡ Some (at (Reason.Line LineReason.Separator) part) }
{
    match more {
        [] => None,
        _ => Some(Fault {
            reason: Reason::Line(LineReason::Separator),
            part,
        }),
    }
}

/// What is wrong with a subscription call, by its name and what is behind it in `part` parts. Another name is told by the
/// reason.
#[tactic(auto, unfolding(crate::specs::EventLine::calls))]
fn call_fault(
    name: &[u8],
    words: &[Word<'_>],
    more: &[Seq<Word<'_>>],
    part: usize,
    other: EventReason,
) -> Option<Fault>
    ensures { FindsFault result (by_first calls (name.now ∷ words.now) more.now) }
{
    if name == b"subscribe".as_slice() || name == b"unsubscribe".as_slice() {
        return separator_fault(more, part);
    }
    if name == b"psubscribe".as_slice() || name == b"punsubscribe".as_slice() {
        return separator_fault(more, part);
    }
    name_fault(other)
}

/// The word behind `submit` is none.
fn name_fault(reason: EventReason) -> Option<Fault>
    ensures { is_some result ≡ true }
{
    Some(Fault {
        reason: Reason::Event(reason),
        part: 1,
    })
}

/// What is wrong with what is submitted to one multiplexed connection.
fn request_fault(words: &[Word<'_>], more: &[Seq<Word<'_>>]) -> Option<Fault>
    ensures { FindsFault result (by_first requests words.now more.now) }
{
    let [name, args @ ..] = words else {
        return name_fault(EventReason::Submission);
    };
    let name = name.as_slice();
    if name == b"cmd".as_slice() || name == b"noreply".as_slice() {
        return separator_fault(more, words.len() + 1);
    }
    if name == b"pipe".as_slice() || name == b"multi".as_slice() {
        return None;
    }
    if name == b"packed".as_slice() {
        return packed_fault(args);
    }
    call_fault(name, args, more, words.len() + 1, EventReason::Submission)
}

fn ping_fault(words: &[Word<'_>]) -> Option<Fault>
    ensures { FindsFault result (pinged words.now) }
{
    match words {
        [] => None,
        [_] => None,
        _ => form_fault(Form::Ping, 3),
    }
}

/// What is wrong with what is submitted to a link of publish/subscribe.
fn link_submission_fault(words: &[Word<'_>], more: &[Seq<Word<'_>>]) -> Option<Fault>
    ensures { FindsFault result (by_first (submissions SessionKind.PubSub) words.now more.now) }
{
    let [name, args @ ..] = words else {
        return name_fault(EventReason::LinkSubmission);
    };
    let name = name.as_slice();
    let part = words.len() + 1;
    if name != b"ping".as_slice() {
        return call_fault(name, args, more, part, EventReason::LinkSubmission);
    }
    match more {
        [] => ping_fault(args),
        _ => separator_fault(more, part),
    }
}

/// What is wrong with what is submitted to a session of this kind.
#[tactic(auto, using(crate::proofs::Faults::nothing_submitted))]
fn submission_fault(kind: SessionKind, words: &[Word<'_>], more: &[Seq<Word<'_>>]) -> Option<Fault>
    ensures { FindsFault result (by_first (submissions kind) words.now more.now) }
{
    match kind {
        SessionKind::Single => request_fault(words, more),
        SessionKind::Manager { lazy: _ } => request_fault(words, more),
        SessionKind::PubSub => link_submission_fault(words, more),
        SessionKind::Monitor => name_fault(EventReason::NoSubmission),
    }
}

/// What is wrong with an event besides submissions, by the name and the words behind it: a caller goes, a connect or a write is
/// answered, or something else.
#[tactic(auto, unfolding(crate::specs::EventLine::others))]
fn other_fault(name: &[u8], words: &[Word<'_>]) -> Option<Fault>
    ensures { FindsFault result (by_first others (name.now ∷ words.now) []) }
{
    if name == b"cancel".as_slice() {
        return numbered_fault(words, Form::Cancel);
    }
    if name == b"connected".as_slice() {
        return numbered_fault(words, Form::Connected);
    }
    if name == b"refused".as_slice() {
        return failed_fault(words, Form::Refused);
    }
    if name == b"wrote".as_slice() {
        return wrote_fault(words);
    }
    given_fault(name, words)
}

/// What is wrong with what a link gives, that it has ended, a fault on it, or what happens besides that.
#[tactic(auto, unfolding(crate::specs::EventLine::others))]
fn given_fault(name: &[u8], words: &[Word<'_>]) -> Option<Fault>
    ensures { FindsFault result (by_first (drop 4 others) (name.now ∷ words.now) []) }
{
    if name == b"bytes".as_slice() {
        return came_fault(words);
    }
    if name == b"ended".as_slice() {
        return numbered_fault(words, Form::Ended);
    }
    if name == b"read-fault".as_slice() {
        return failed_fault(words, Form::ReadFault);
    }
    if name == b"write-fault".as_slice() {
        return failed_fault(words, Form::WriteFault);
    }
    timer_or_source_fault(name, words)
}

/// What is wrong with a timer that fires, with what a source of credentials says, or with what happens besides that.
#[tactic(auto, unfolding(crate::specs::EventLine::others))]
fn timer_or_source_fault(name: &[u8], words: &[Word<'_>]) -> Option<Fault>
    ensures { FindsFault result (by_first (drop 8 others) (name.now ∷ words.now) []) }
{
    if name == b"fired".as_slice() {
        return numbered_fault(words, Form::Fired);
    }
    if name == b"creds".as_slice() {
        return authorized_fault(words);
    }
    if name == b"creds-err".as_slice() {
        return denied_fault(words);
    }
    if name == b"creds-end".as_slice() {
        return numbered_fault(words, Form::CredsEnd);
    }
    told_to_session_fault(name, words)
}

/// What is wrong with what the session itself is told.
#[tactic(auto, unfolding(crate::specs::EventLine::others))]
fn told_to_session_fault(name: &[u8], words: &[Word<'_>]) -> Option<Fault>
    ensures { FindsFault result (by_first (drop 12 others) (name.now ∷ words.now) []) }
{
    if name == b"timeout".as_slice() {
        return timeout_fault(words);
    }
    if name == b"drop-stream".as_slice() {
        return alone_fault(words, Form::DropStream);
    }
    if name == b"shutdown".as_slice() {
        return alone_fault(words, Form::Shutdown);
    }
    Some(Fault {
        reason: Reason::Event(EventReason::Name),
        part: 0,
    })
}

/// What is wrong with an event of a session of this kind, by its first word, the words behind it and those behind separators.
#[tactic(auto, using(crate::proofs::Faults::finds_submit, crate::proofs::Faults::finds_other, crate::proofs::Faults::finds_separator))]
fn named_fault(
    kind: SessionKind,
    name: &[u8],
    words: &[Word<'_>],
    more: &[Seq<Word<'_>>],
) -> Option<Fault>
    ensures { FindsFault result (by_first (events kind) (name.now ∷ words.now) more.now) }
{
    if name == b"submit".as_slice() {
        return submission_fault(kind, words, more);
    }
    match more {
        [] => other_fault(name, words),
        _ => separator_fault(more, words.len() + 1),
    }
}

/// What is wrong with words, and those behind separators, as what happens in a session of this kind.
fn happening_fault(kind: SessionKind, words: &[Word<'_>], more: &[Seq<Word<'_>>]) -> Option<Fault>
    ensures { FindsFault result (by_first (events kind) words.now more.now) }
{
    match words {
        [name, words @ ..] => named_fault(kind, name.as_slice(), words, more),
        [] => Some(Fault {
            reason: Reason::Event(EventReason::Name),
            part: 0,
        }),
    }
}

/// What is wrong with the words of a line as an event of a session of this kind behind the word of its draws.
#[tactic(auto, unfolding(crate::specs::EventLine::event_of))]
pub fn event_fault(kind: SessionKind, line: &Line<'_>) -> Option<Fault>
    ensures { FindsFault result (event_of kind line.now) }
{
    let Some((_, before)) = drawn(line.words()) else {
        return draw_fault();
    };
    fault_behind(
        happening_fault(kind, &line.words()[before..], line.more()),
        before,
    )
}
