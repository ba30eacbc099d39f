ghost use Rattle.std.specs.Prelude.{◌≡◌, ◌≤◌, ◌<◌, ◌==◌, ◌||◌, not, false, [], ◌++◌, ◌∷◌, length, take, drop, map, OnOk, OnErr, IfOk, if◌then◌else◌};
ghost use Rattle.driver_model.specs.Hearing.{taken_by, message_taken, item_told, push_told};
ghost use Rattle.driver_model.specs.declared.hearing.Hearing.TheVariants.{Nothing};
ghost use Rattle.link_core.specs.Dealing.{dealing_with, dealing_on, dealt_if, is_awaiting};
ghost use Rattle.link_core.specs.Dealing.{noticed_behind, taken_each};
ghost use Rattle.resp_value.specs.View.{data_of};
ghost use Rattle.resp_read.specs.Values.{values, left_over, is_spoiled};
ghost use Rattle.resp_value.specs.Kinds.{is_item};
ghost use Rattle.resp_read.specs.Limits.{default_limits};

use crate::message::{NoticeAt, Settled};
use crate::msg_reading::{into_msg, is_answer};
use crate::row::Row;
use crate::spare::Rest;
use driver_model::{Hearing, Notice, PushInfo};
use resp_read::{Health, ReadError, Reader, Steps};
use resp_value::Value;
use std::alloc::{AllocError, Global};
use std::sync::ledger::{Blank, Ledger};

/// Reads on by a piece: every value that is whole then comes into `came`, and the answer is whether what is left begins no
/// value. The steps are of the ledger that `blank` is to be.
pub fn read_piece<L: Ledger>(
    alloc: Global,
    reader: &mut Reader,
    piece: &[u8],
    came: &mut Vec<Value>,
    blank: Blank,
) -> Result<bool, AllocError>
    requires name { blank.name ≡ L.name }
    requires parts { blank.parts ≡ L.parts }
    requires some { 0 < blank.parts }
    requires sound { reader.old.health ≡ Health.Sound }
    requires limits { reader.old.limits ≡ default_limits }
    requires none { came.old.items ≡ [] }
    ensures came { OnOk result (
        map data_of came.new.items ≡ values (reader.old.rest ++ piece.now)
        ) }
    ensures rest { OnOk result (reader.new.rest ≡ left_over (reader.old.rest ++ piece.now)) }
    ensures spoiled { IfOk result (λ broken.
        broken ≡ is_spoiled (reader.old.rest ++ piece.now)
        ) }
    ensures sound { IfOk result (λ broken.
        broken ≡ false → reader.new.health ≡ Health.Sound
        ) }
    ensures limits { reader.new.limits ≡ default_limits }
{
    let mut steps = Steps::<L>::new(blank);
    match reader.pump(alloc, piece, came, &mut steps) {
        Ok(()) => Ok(false),
        Err(ReadError::Parse) => Ok(true),
        Err(ReadError::NoMemory) => Err(AllocError),
    }
}

/// How the values of one call are taken: what is heard, whether the link was set up before the call, and how many settled
/// messages and notices the lists held then.
#[derive(Clone, Copy)]
struct Call {
    hearing: Hearing,
    ready: bool,
    settled: usize,
    noted: usize,
}

impl Call {
    /// What is heard behind so many messages that the call has settled: nothing before the link is set up.
    fn heard_behind(self, settled: u64) -> Hearing
        ensures { result
            ≡ (if self.ready || not (settled == 0) then self.hearing else Nothing) }
    {
        if self.ready || settled > 0 {
            self.hearing
        } else {
            Hearing::Nothing
        }
    }
}

/// Takes each of these values, in order, up to one that ends the link: the answer is whether one does. `out` gains the
/// messages that are settled and awaited, and `notices` what is told, each with how many messages this call had settled
/// before it. After an error both are as they were.
#[tactic(auto, using(crate::proofs::TakeLemmas::row_after, crate::proofs::TakeLemmas::out_after, crate::proofs::TakeLemmas::notices_after, crate::proofs::TakeLemmas::strange_after))]
pub fn take_into(
    alloc: Global,
    hearing: Hearing,
    ready: bool,
    came: &mut Rest<Value>,
    row: &mut Row,
    out: &mut Vec<Settled>,
    notices: &mut Vec<NoticeAt>,
) -> Result<bool, AllocError>
    ensures row { OnOk result (
        row.new ≡ (taken_each hearing ready (dealing_with row.old) (map data_of came.old)).row
        ) }
    ensures out { OnOk result (
        out.new.items
        ≡ out.old.items
        ++ (taken_each hearing ready (dealing_with row.old) (map data_of came.old)).out
        ) }
    ensures notices { OnOk result (
        notices.new.items
        ≡ notices.old.items
        ++ (taken_each hearing ready (dealing_with row.old) (map data_of came.old)).notices
        ) }
    ensures strange { IfOk result (λ strange.
        strange
        ≡ (taken_each hearing ready (dealing_with row.old) (map data_of came.old)).strange
        ) }
    ensures err { OnErr result (out.new.items ≡ out.old.items) }
    ensures notices_err { OnErr result (notices.new.items ≡ notices.old.items) }
{
    let call = Call {
        hearing,
        ready,
        settled: out.len(),
        noted: notices.len(),
    };
    match take_each(alloc, call, came, row, out, notices) {
        Ok(strange) => Ok(strange),
        Err(error) => {
            out.truncate(call.settled);
            notices.truncate(call.noted);
            Err(error)
        }
    }
}

/// Takes each of these values, in order, up to one that ends the link. An error leaves what the lists held before the call.
fn take_each(
    alloc: Global,
    call: Call,
    came: &mut Rest<Value>,
    row: &mut Row,
    out: &mut Vec<Settled>,
    notices: &mut Vec<NoticeAt>,
) -> Result<bool, AllocError>
    requires settled { call.settled ≤ length out.old.items }
    requires noted { call.noted ≤ length notices.old.items }
    ensures taken { IfOk result (λ strange.
        dealing_on row.new (drop call.settled out.new.items) (drop call.noted notices.new.items)
        strange
        ≡ taken_each call.hearing call.ready
        (dealing_on row.old (drop call.settled out.old.items)
        (drop call.noted notices.old.items) false)
        (map data_of came.old)
        ) }
    ensures first { take call.settled out.new.items ≡ take call.settled out.old.items }
    ensures first_notices { take call.noted notices.new.items ≡ take call.noted notices.old.items }
{
    'values: while let Some(value) = came.pop_front() {
        let settled = (out.len() - call.settled) as u64;
        let heard = call.heard_behind(settled);
        let ends = take_value(alloc, heard, settled, value, row, out, notices)?;
        if ends {
            return Ok(true);
        }
    }
    Ok(false)
}

/// One value, where this is heard, behind so many messages that the call has settled: the answer is whether it ends the
/// link. An error leaves `out` as it was, and what `notices` held.
fn take_value(
    alloc: Global,
    heard: Hearing,
    settled: u64,
    value: Value,
    row: &mut Row,
    out: &mut Vec<Settled>,
    notices: &mut Vec<NoticeAt>,
) -> Result<bool, AllocError>
    ensures row { OnOk result (
        row.new
        ≡ (dealt_if (taken_by heard (is_awaiting row.old) (data_of value)).dealt
        (dealing_with row.old) (data_of value)).row
        ) }
    ensures out { OnOk result (
        out.new.items
        ≡ out.old.items
        ++ (dealt_if (taken_by heard (is_awaiting row.old) (data_of value)).dealt
        (dealing_with row.old) (data_of value)).out
        ) }
    ensures notices { OnOk result (
        notices.new.items
        ≡ notices.old.items
        ++ noticed_behind settled (taken_by heard (is_awaiting row.old) (data_of value)).told
        ) }
    ensures ends { IfOk result (λ ends.
        ends ≡ (taken_by heard (is_awaiting row.old) (data_of value)).ends
        ) }
    ensures err { OnErr result (out.new.items ≡ out.old.items) }
    ensures notices_err { OnErr result (
        take (length notices.old.items) notices.new.items ≡ notices.old.items
        ) }
{
    match heard {
        Hearing::Nothing => {
            deal_item(alloc, value, row, out)?;
            Ok(false)
        }
        Hearing::Pushes => {
            match note_push(alloc, &value, settled, notices) {
                Ok(()) => {}
                Err(error) => {
                    drop(value);
                    return Err(error);
                }
            }
            deal_item(alloc, value, row, out)?;
            Ok(false)
        }
        Hearing::Messages => take_answer(alloc, settled, value, row, out, notices),
        Hearing::Monitor => {
            tell_item(value, settled, notices)?;
            Ok(false)
        }
    }
}

/// An item goes to the oldest message that takes items, and what is none is dropped. An error leaves `out` as it was.
fn deal_item(
    alloc: Global,
    value: Value,
    row: &mut Row,
    out: &mut Vec<Settled>,
) -> Result<(), AllocError>
    ensures row { OnOk result (
        row.new
        ≡ (dealt_if (is_item (data_of value)) (dealing_with row.old) (data_of value)).row
        ) }
    ensures out { OnOk result (
        out.new.items
        ≡ out.old.items
        ++ (dealt_if (is_item (data_of value)) (dealing_with row.old) (data_of value)).out
        ) }
    ensures err { OnErr result (out.new.items ≡ out.old.items) }
{
    if is_item(&value) {
        return row.deal(alloc, value, out);
    }
    drop(value);
    Ok(())
}

/// A value on a link of messages: it answers the oldest message that takes items, is a message, which is told, or ends the
/// link. An error leaves both lists as they were.
fn take_answer(
    alloc: Global,
    settled: u64,
    value: Value,
    row: &mut Row,
    out: &mut Vec<Settled>,
    notices: &mut Vec<NoticeAt>,
) -> Result<bool, AllocError>
    ensures row { OnOk result (
        row.new
        ≡ (dealt_if (message_taken (is_awaiting row.old) (data_of value)).dealt
        (dealing_with row.old) (data_of value)).row
        ) }
    ensures out { OnOk result (
        out.new.items
        ≡ out.old.items
        ++ (dealt_if (message_taken (is_awaiting row.old) (data_of value)).dealt
        (dealing_with row.old) (data_of value)).out
        ) }
    ensures notices { OnOk result (
        notices.new.items
        ≡ notices.old.items
        ++ noticed_behind settled (message_taken (is_awaiting row.old) (data_of value)).told
        ) }
    ensures ends { IfOk result (λ ends.
        ends ≡ (message_taken (is_awaiting row.old) (data_of value)).ends
        ) }
    ensures err { OnErr result (out.new.items ≡ out.old.items) }
    ensures notices_err { OnErr result (notices.new.items ≡ notices.old.items) }
{
    if is_answer(&value, row.is_awaiting()) {
        row.deal(alloc, value, out)?;
        return Ok(false);
    }
    match into_msg(value) {
        Some(msg) => {
            note(settled, Notice::Message(msg), notices)?;
            Ok(false)
        }
        None => Ok(true),
    }
}

/// One more notice, behind so many settled messages. An error leaves the notices as they were.
fn note(settled: u64, notice: Notice, notices: &mut Vec<NoticeAt>) -> Result<(), AllocError>
    ensures ok { OnOk result (
        notices.new.items
        ≡ notices.old.items ++ record { settled = settled; notice = notice } ∷ []
        ) }
    ensures err { OnErr result (notices.new.items ≡ notices.old.items) }
{
    notices.push(NoticeAt { settled, notice })?;
    Ok(())
}

/// A push is noted, behind so many settled messages. An error leaves the notices as they were.
fn note_push(
    alloc: Global,
    value: &Value,
    settled: u64,
    notices: &mut Vec<NoticeAt>,
) -> Result<(), AllocError>
    ensures ok { OnOk result (
        notices.new.items
        ≡ notices.old.items ++ noticed_behind settled (push_told (data_of value.now))
        ) }
    ensures err { OnErr result (notices.new.items ≡ notices.old.items) }
{
    match value {
        Value::Push { kind, parts } => {
            let kind = kind.clone(alloc)?;
            let parts = parts.clone(alloc)?;
            note(settled, Notice::Push(PushInfo { kind, parts }), notices)?;
            Ok(())
        }
        _ => Ok(()),
    }
}

/// An item that a server in monitor mode tells is noted, behind so many settled messages. An error leaves the notices as they
/// were.
fn tell_item(value: Value, settled: u64, notices: &mut Vec<NoticeAt>) -> Result<(), AllocError>
    ensures ok { OnOk result (
        notices.new.items
        ≡ notices.old.items ++ noticed_behind settled (item_told (data_of value))
        ) }
    ensures err { OnErr result (notices.new.items ≡ notices.old.items) }
{
    if is_item(&value) {
        note(settled, Notice::Monitor(value), notices)?;
        return Ok(());
    }
    drop(value);
    Ok(())
}

/// Whether a value is an item: all are but a push without reply.
fn is_item(value: &Value) -> bool
    ensures { result ≡ is_item (data_of value.now) }
{
    match value {
        Value::Push { kind, parts: _ } => kind.has_reply(),
        _ => true,
    }
}
