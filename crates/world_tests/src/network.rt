ghost use Rattle.std.specs.Prelude.{◌<◌, length};

use outside::*;
use redis_error::FaultKind;
use std::io::{Read, Write};
use std::net::{Ipv4Addr, Net, SocketAddr, TcpListener, TcpStream};
use std::test::Fail;
use std::thread::Threads;
use std::{io, thread};

/// A listener on a free port of this machine, and the port.
fn listen<N>(rt: &N) -> io::Result<(TcpListener, u16)>
where
    N: Net<Listener = TcpListener, Stream = TcpStream>,
{
    let listener = TcpListener::bind(rt, SocketAddr::from((Ipv4Addr::LOCALHOST, 0)))?;
    let port = listener.local_addr()?.port();
    Ok((listener, port))
}

/// Answers the next connection's four bytes with three, its next byte with three more, and closes it.
fn serve(listener: &TcpListener) -> io::Result<()> {
    let (mut stream, _) = listener.accept()?;
    let mut room = [0u8; 4];
    stream.read_exact(&mut room)?;
    stream.write_all(b"+PO")?;
    stream.read_exact(&mut room[..1])?;
    stream.write_all(b"NG!")
}

/// Reads until something has come, for some seconds at most.
fn read_soon<W: World>(world: &mut W) -> (LinkGot, [u8; 4]) {
    for _ in 0..5_000 {
        let mut room = [0u8; 4];
        match world.read(7, &mut room) {
            LinkGot::NotYet => world.wait(1),
            got => return (got, room),
        }
    }
    (LinkGot::NotYet, [0u8; 4])
}

/// Writes to a peer that was silent, and whether it answers with this.
fn is_answered<W: World>(world: &mut W, piece: &[u8], wanted: [u8; 4]) -> bool
    requires { 0 < length piece.now }
{
    let mut room = [0u8; 4];
    if world.read(7, &mut room) != LinkGot::NotYet {
        return false;
    }
    if world.write(7, piece) != LinkPut::Took(piece.len()) {
        return false;
    }
    read_soon(world) == (LinkGot::Read(3), wanted)
}

/// Whether `serve` answers over a link that is connected, and ends.
fn talks<W: World>(world: &mut W) -> bool {
    if !is_answered(world, b"PING", *b"+PO\0") {
        return false;
    }
    if !is_answered(world, b".", *b"NG!\0") {
        return false;
    }
    read_soon(world) == (LinkGot::Ended, [0u8; 4])
}

/// Whether a link that isn't connected fails so, in two calls of which each is counted.
fn is_unconnected<W: World>(world: &mut W) -> bool {
    let faults = world.faults();
    let mut room = [0u8; 4];
    if world.read(7, &mut room) != LinkGot::Failed(FaultKind::NotConnected) {
        return false;
    }
    if world.write(7, b"PING") != LinkPut::Failed(FaultKind::NotConnected) {
        return false;
    }
    world.close(7);
    world.faults() == faults.saturating_add(2)
}

/// Whether a world talks with a thread that listens at this port, and not before and behind it.
fn meets<T: Threads, W: World + Send>(
    rt: &T,
    world: &mut W,
    listener: &TcpListener,
    port: u16,
) -> io::Result<bool> {
    let before = is_unconnected(world);
    let dialed = world.dial(7, "127.0.0.1", port) == Dialed::Yes;
    let there = &mut *world;
    let (served, talked) = thread::join(rt, move || serve(listener), move || talks(there));
    served?;
    world.close(7);
    Ok(before && dialed && talked && is_unconnected(world))
}

#[test]
fn a_link_talks_with_a_listener_of_this_machine(rt: HostRuntime) -> Result<(), Fail> {
    let (listener, port) = listen(&rt)?;
    let mut world = NetWorld::new(&rt, rt.alloc());
    let met = meets(&rt, &mut world, &listener, port);
    drop(world);
    drop(listener);
    assert!(rt; met?);
    Ok(())
}

/// Whether a dial is refused, and counted.
fn is_refused<W: World>(world: &mut W, port: u16) -> bool {
    let faults = world.faults();
    if world.dial(7, "localhost", port) != Dialed::Failed(FaultKind::Refused) {
        return false;
    }
    world.faults() == faults.saturating_add(1)
}

#[test]
fn a_port_where_nobody_listens_refuses(rt: HostRuntime) -> Result<(), Fail> {
    let (listener, port) = listen(&rt)?;
    drop(listener);
    let mut world = NetWorld::with_dial_limit(&rt, rt.alloc(), 500);
    let refused = is_refused(&mut world, port);
    let unconnected = is_unconnected(&mut world);
    drop(world);
    assert!(rt; refused);
    assert!(rt; unconnected);
    Ok(())
}

/// Whether a link is connected by the name of this machine, and once more.
fn is_dialled_again<W: World>(
    world: &mut W,
    listener: &TcpListener,
    port: u16,
) -> io::Result<bool> {
    for _ in 0..2 {
        if world.dial(7, "localhost", port) != Dialed::Yes {
            return Ok(false);
        }
        listener.accept()?;
    }
    Ok(true)
}

#[test]
fn names_are_looked_up_and_links_dialled_again(rt: HostRuntime) -> Result<(), Fail> {
    let (listener, port) = listen(&rt)?;
    let mut world = NetWorld::new(&rt, rt.alloc());
    let dialled = is_dialled_again(&mut world, &listener, port);
    drop(world);
    drop(listener);
    assert!(rt; dialled?);
    Ok(())
}

/// Whether the clock starts at 0 and goes on.
fn goes_on<W: World>(world: &mut W) -> bool {
    let before = world.now();
    world.wait(20);
    before < 5_000 && before.saturating_add(20) <= world.now()
}

#[test]
fn the_clock_goes_on_and_words_differ(rt: HostRuntime) -> Result<(), Fail> {
    let mut world = NetWorld::new(&rt, rt.alloc());
    assert!(rt; goes_on(&mut world));
    assert!(rt; world.word() != world.word());
    Ok(())
}
