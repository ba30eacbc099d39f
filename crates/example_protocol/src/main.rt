//! Small programs over the protocol, one after another, each under a line that names it: a reply is read in pieces, replies to
//! HGETALL become maps, a client subscribes again, and an MGET is parted by the nodes that it goes to.
#![tactic(auto)]

mod commands;
mod hashes;
mod pieces;
mod routes;
mod tracking;

use std::io;

fn main(rt: HostRuntime) -> io::Result<()> {
    let alloc = rt.alloc();
    println!(rt; "a reply in pieces")?;
    pieces::print_replies(&rt, alloc)?;
    println!(rt; "replies to HGETALL")?;
    hashes::print_hashes(&rt, alloc)?;
    println!(rt; "what is subscribed again")?;
    tracking::print_resubscription(&rt, alloc)?;
    println!(rt; "the route of an MGET")?;
    routes::print_slot_and_route(&rt, alloc)
}
