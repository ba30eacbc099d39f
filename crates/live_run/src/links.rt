ghost use Rattle.std.specs.Prelude.{◌≡◌, ◌<◌, None, Some, IfSome, IfOk, MatchOption, is_some, length};
ghost use Rattle.live_run.specs.Agenda.{numbers_of, offer_of, offered, removed, stands, without};
ghost use Rattle.live_run.specs.Places.{AreOthers, IsFirstAt, IsUnoffered, itself, link_number};

use containers::{Bytes, Queue};
use std::alloc::{AllocError, Global};

/// A link that is up.
#[derive(Drop)]
pub(crate) struct Link {
    pub(crate) number: u32,
    /// What it offers and nothing has answered yet. No bytes: nothing.
    pub(crate) offer: Bytes,
}

/// The place of a link, if it is up.
fn place_of(links: &Queue<Link>, number: u32) -> Option<usize>
    ensures found { IfSome result (λ place. IsFirstAt link_number number place links.now) }
    ensures none { result ≡ None → AreOthers link_number number links.now }
{
    for place in 0..links.len() {
        if links.at(place).number == number {
            return Some(place);
        }
    }
    None
}

/// Whether a link is up.
pub(crate) fn is_up(links: &Queue<Link>, number: u32) -> bool
    ensures { result ≡ is_some (offer_of number links.now) }
{
    match place_of(links, number) {
        Some(_) => true,
        None => false,
    }
}

/// What a link that is up offers and nothing has answered, if it offers anything.
pub(crate) fn unanswered(links: &Queue<Link>, number: u32) -> Option<&[u8]>
    ensures { MatchOption result (IsUnoffered (offer_of number links.now))
        (λ bytes. (0 < length bytes.now) × (offer_of number links.now ≡ Some bytes.now)) }
{
    let Some(place) = place_of(links, number) else {
        return None;
    };
    let offer = links.at(place).offer.as_slice();
    if offer.is_empty() {
        return None;
    }
    Some(offer)
}

/// All unwritten bytes of a link are offered, if it is up.
pub(crate) fn put_offer(links: &mut Queue<Link>, number: u32, offer: Bytes)
    ensures { links.new ≡ offered number offer links.old }
{
    match place_of(links, number) {
        Some(place) => links.set(place, Link { number, offer }),
        None => {}
    }
}

/// A link is no longer up.
pub(crate) fn remove_link(links: &mut Queue<Link>, number: u32)
    ensures { links.new ≡ without number links.old }
{
    match place_of(links, number) {
        Some(place) => links.remove(place),
        None => {}
    }
}

/// The numbers of links, in their order.
pub(crate) fn numbers_up(alloc: Global, links: &Queue<Link>) -> Result<Queue<u32>, AllocError>
    ensures { IfOk result (λ numbers. numbers ≡ numbers_of links.now) }
{
    let mut numbers = Queue::new(alloc);
    for place in 0..links.len() {
        numbers.push_back(links.at(place).number)?;
    }
    Ok(numbers)
}

/// The place of a number, if it stands there.
fn place_in(numbers: &Queue<u32>, number: u32) -> Option<usize>
    ensures found { IfSome result (λ place. IsFirstAt itself number place numbers.now) }
    ensures none { result ≡ None → AreOthers itself number numbers.now }
{
    for place in 0..numbers.len() {
        if *numbers.at(place) == number {
            return Some(place);
        }
    }
    None
}

/// Takes a number out, and tells whether it stood there.
pub(crate) fn remove_number(numbers: &mut Queue<u32>, number: u32) -> bool
    ensures stood { result ≡ stands number numbers.old }
    ensures left { numbers.new ≡ removed number numbers.old }
{
    match place_in(numbers, number) {
        Some(place) => {
            numbers.remove(place);
            true
        }
        None => false,
    }
}
