ghost use Rattle.std.specs.Prelude.{◌≡◌, ◌⊎◌, [], IfOk, IfSome, OnOk};
ghost use Rattle.single_session.specs.Replay.{trace_of, outcomes_in};
ghost use Rattle.session_program.specs.Notes.{kept_by, kept_each, open_count, open_from, open_note, IsCountNote};

use containers::{Bytes, Seq};
use driver_model::{Event, EventKind};
use program_ends::push_number;
use shared_session::Session;
use std::alloc::{AllocError, Global};

/// Which submissions nobody cancelled, after one event more.
fn keep(kept: &mut Seq<bool>, kind: &EventKind) -> Result<(), AllocError>
    ensures { OnOk result (kept.new ≡ kept_by kept.old kind.now) }
{
    match kind {
        EventKind::Submit { submission: _ } => kept.push(true),
        EventKind::Cancel { submission } => {
            let place = *submission as usize;
            if place < kept.len() {
                kept.set(place, false);
            }
            Ok(())
        }
        _ => Ok(()),
    }
}

/// Which submissions of a history nobody cancelled.
fn kept_of(alloc: Global, events: &[Event]) -> Result<Seq<bool>, AllocError>
    ensures { IfOk result (λ kept. kept ≡ kept_each [] events.now) }
{
    let mut kept = Seq::new(alloc);
    for event in events {
        keep(&mut kept, &event.kind)?;
    }
    Ok(kept)
}

/// How many of these submissions are kept and have no outcome. None: a session has no such number of submissions.
fn count_open(session: &Session, kept: &[bool]) -> Option<u64>
    ensures { IfSome result (λ count. count ≡ open_from
        (outcomes_in (trace_of session.now.config session.now.word session.now.events))
        0 kept.now) }
{
    if kept.len() > u32::MAX as usize {
        return None;
    }
    let mut count = 0u64;
    for (place, kept) in kept.iter().enumerate() {
        if *kept && session.outcome_of(place as u32).is_none() {
            count += 1;
        }
    }
    Some(count)
}

/// How many submissions are open after the history of a session. None: memory was refused for the count.
pub fn open_after(alloc: Global, session: &Session) -> Option<u64>
    ensures { IfSome result (λ count.
        count ≡ open_count session.now.config session.now.word session.now.events) }
{
    match kept_of(alloc, session.events()) {
        Ok(kept) => count_open(session, kept.as_slice()),
        Err(_) => None,
    }
}

/// The words of the note of what is open.
fn open_line(alloc: Global, count: u64) -> Result<Bytes, AllocError>
    ensures { IfOk result (λ note. note ≡ open_note count) }
{
    let mut note = Bytes::from_slice(alloc, b"open submissions: ")?;
    push_number(&mut note, count)?;
    note.extend_from_slice(b", neither answered nor cancelled")?;
    note.extend_from_slice(b"\n")?;
    Ok(note)
}

/// The note of a replay that is done: nothing, where nothing is open or memory was refused for it.
pub fn done_note(alloc: Global, count: Option<u64>) -> Bytes
    ensures { (result ≡ []) ⊎ IsCountNote count result }
{
    let count = match count {
        Some(count) => count,
        None => return Bytes::new(alloc),
    };
    if count == 0 {
        return Bytes::new(alloc);
    }
    match open_line(alloc, count) {
        Ok(note) => note,
        Err(_) => Bytes::new(alloc),
    }
}
