ghost use Rattle.std.specs.Prelude.{◌≡◌, ◌==◌, true, IfOk, IfSome, option_copied};
ghost use Rattle.command_table.specs.Routing.{random, to_slot, by_key, by_count, after_streams, is_number};
ghost use Rattle.command_table.specs.Routing.{routing_by, routing_of};
ghost use Rattle.command_table.specs.Splitting.{can_be_split};
ghost use Rattle.std.specs.Str.Parse.{digits_value};

use crate::commands::Form;
use crate::lookup::{form_of, is_same_name};
use crate::parts::{by_slots, slots_of_keys, slots_of_pairs};
use crate::routing::{
    MultipleNodeRoutingInfo, Route, RoutingInfo, SingleNodeRoutingInfo, SlotAddr,
};
use containers::Bytes;
use resp_write::Cmd;
use slot_hash::key_slot;
use std::alloc::{AllocError, Global};

/// To a random node.
pub fn random() -> RoutingInfo
    ensures { result ≡ random }
{
    RoutingInfo::SingleNode(SingleNodeRoutingInfo::Random)
}

/// To a slot.
pub fn to_slot(addr: SlotAddr, slot: u16) -> RoutingInfo
    ensures { result ≡ to_slot addr slot }
{
    RoutingInfo::SingleNode(SingleNodeRoutingInfo::SpecificNode(Route { slot, addr }))
}

/// To the slot of a key; without one to a random node.
fn by_key(addr: SlotAddr, key: Option<&Bytes>) -> RoutingInfo
    ensures { result ≡ by_key addr (option_copied key.entry) }
{
    match key {
        Some(key) => to_slot(addr, key_slot(key.as_slice())),
        None => random(),
    }
}

/// Whether some bytes are decimal digits.
fn is_number(text: &[u8]) -> bool
    ensures { result ≡ is_number text.now }
{
    for byte in text {
        if !byte.is_ascii_digit() {
            return false;
        }
    }
    !text.is_empty()
}

/// Whether some digits are those of 0.
#[tactic(auto, using(crate::proofs::Choosing::not_zero))]
fn is_zero(digits: &[u8]) -> bool
    requires { is_number digits.now ≡ true }
    ensures { result ≡ (digits_value 10 digits.now == 0) }
{
    for byte in digits {
        if *byte != b'0' {
            return false;
        }
    }
    true
}

/// By the number of keys, and the first key.
fn by_count(addr: SlotAddr, count: Option<&Bytes>, key: Option<&Bytes>) -> RoutingInfo
    ensures { result ≡ by_count addr (option_copied count.entry) (option_copied key.entry) }
{
    let Some(count) = count else {
        return random();
    };
    if !is_number(count.as_slice()) {
        return random();
    }
    if is_zero(count.as_slice()) {
        return RoutingInfo::SingleNode(SingleNodeRoutingInfo::RandomPrimary);
    }
    by_key(addr, key)
}

/// The argument after the first STREAMS.
fn after_streams(mut args: &[Bytes]) -> Option<&Bytes>
    ensures { option_copied result ≡ after_streams args.entry.now }
{
    while let [arg, rest @ ..] = args {
        if is_same_name(arg.as_slice(), b"STREAMS") {
            return rest.first();
        }
        args = rest;
    }
    None
}

/// By the arguments after the name.
fn routing_by(alloc: Global, form: Form, args: &[Bytes]) -> Result<RoutingInfo, AllocError>
    ensures { IfOk result (λ r. r ≡ routing_by form args.now) }
{
    match form {
        Form::AllPrimaries(policy) => Ok(RoutingInfo::MultiNode(
            MultipleNodeRoutingInfo::AllMasters,
            Some(policy),
        )),
        Form::AllNodes(policy) => Ok(RoutingInfo::MultiNode(
            MultipleNodeRoutingInfo::AllNodes,
            Some(policy),
        )),
        Form::EachKey(addr, policy) => {
            let slots = slots_of_keys(alloc, args)?;
            by_slots(alloc, addr, policy, slots.as_slice())
        }
        Form::EachPair(addr, policy) => {
            if args.len() % 2 == 1 {
                return Ok(by_key(addr, args.first()));
            }
            let slots = slots_of_pairs(alloc, args)?;
            by_slots(alloc, addr, policy, slots.as_slice())
        }
        Form::Random => Ok(random()),
        Form::CountedKey(addr) => Ok(by_count(addr, args.get(1), args.get(2))),
        Form::AfterStreams(addr) => Ok(by_key(addr, after_streams(args))),
        Form::SecondKey(addr) => Ok(by_key(addr, args.get(1))),
        Form::FirstKey(addr) => Ok(by_key(addr, args.first())),
    }
}

/// Of a command, if it has a name.
fn routing_of(alloc: Global, words: &[Bytes]) -> Result<Option<RoutingInfo>, AllocError>
    ensures { IfOk result (λ r. r ≡ routing_of words.now) }
{
    let [name, args @ ..] = words else {
        return Ok(None);
    };
    let routing = routing_by(alloc, form_of(name.as_slice(), args), args)?;
    Ok(Some(routing))
}

impl RoutingInfo {
    /// Where a command goes, if it has a name. Where that is to several slots, `command_for_multi_slot_indices` makes
    /// the command of each part.
    pub fn for_routable(alloc: Global, cmd: &Cmd) -> Result<Option<RoutingInfo>, AllocError>
        ensures is { IfOk result (λ r. r ≡ routing_of cmd.now.args) }
        ensures parts { IfOk result
            (λ r. IfSome r (λ to. can_be_split cmd.now.args to ≡ true)) }
    {
        routing_of(alloc, cmd.args())
    }
}
