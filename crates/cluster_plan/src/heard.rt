ghost use Rattle.std.specs.Prelude.{◌≡◌, IfOk, IfSome, true, if◌then◌else◌};
ghost use Rattle.mux_routing.specs.Reply.{are_rows};
ghost use Rattle.cluster_plan.specs.Asks.{error_told, link_told, passes, rows_told};
ghost use Rattle.cluster_plan.specs.Heard.{AreHeard, heard_by_link, heard_by_rows, heard_of};

use crate::asks::Answer;
use crate::step::{Step, error_told, link_told, passes};
use mux_routing::{SlotRows, SlotsError, parse_slots};
use redis_error::RedisError;
use std::alloc::{AllocError, Global};

/// What an answer means where pass two is.
#[derive(Drop)]
pub enum Heard {
    /// The reaching of the node goes on so.
    Goes(Step),
    /// The node told these slots.
    Rows(SlotRows),
    /// The node failed, or told no slots.
    Error(RedisError),
}

/// The rows that the node of a host told, if its reply is good.
pub fn rows_told(alloc: Global, host: &[u8], told: &Answer) -> Result<Option<SlotRows>, AllocError>
    ensures told { IfOk result (λ rows. rows ≡ rows_told host.now told.now) }
    ensures valid { IfOk result (λ rows. IfSome rows (λ rs. are_rows rs ≡ true)) }
{
    let Answer::Value(reply) = told else {
        return Ok(None);
    };
    match parse_slots(alloc, reply, host) {
        Ok(rows) => Ok(Some(rows)),
        Err(SlotsError::Parse) => Ok(None),
        Err(SlotsError::NoMemory) => Err(AllocError),
    }
}

/// What the answer to the check of a link makes of it.
fn checked(link: u32, told: &Answer) -> Step
    ensures { result ≡ (if passes told.now then Step.Arrived link else Step.Connecting) }
{
    if passes(told) {
        Step::Arrived(link)
    } else {
        Step::Connecting
    }
}

/// What the answer to a connect means.
fn hear_connect(told: Answer) -> Heard
    ensures { result ≡ heard_by_link (link_told told) (error_told told) }
{
    match link_told(&told) {
        Some(link) => {
            drop(told);
            Heard::Goes(Step::Arrived(link))
        }
        None => Heard::Error(error_told(told)),
    }
}

/// What the answer to a query means, of a node of this host.
fn hear_query(alloc: Global, host: &[u8], told: Answer) -> Result<Heard, AllocError>
    ensures is { IfOk result
        (λ h. h ≡ heard_by_rows (rows_told host.now told) (error_told told)) }
    ensures rows { IfOk result AreHeard }
{
    let rows = match rows_told(alloc, host, &told) {
        Ok(rows) => rows,
        Err(error) => {
            drop(told);
            return Err(error);
        }
    };
    match rows {
        Some(rows) => {
            drop(told);
            Ok(Heard::Rows(rows))
        }
        None => Ok(Heard::Error(error_told(told))),
    }
}

/// What an answer means, where pass two has come to this step with a node of this host.
pub fn hear(alloc: Global, host: &[u8], step: Step, told: Answer) -> Result<Heard, AllocError>
    ensures is { IfOk result (λ h. h ≡ heard_of host.now step told) }
    ensures rows { IfOk result AreHeard }
{
    match step {
        Step::Checking(link) => {
            let next = checked(link, &told);
            drop(told);
            Ok(Heard::Goes(next))
        }
        Step::Connecting => Ok(hear_connect(told)),
        Step::Arrived(_) => {
            let heard = hear_query(alloc, host, told)?;
            Ok(heard)
        }
    }
}
