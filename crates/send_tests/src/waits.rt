ghost use Rattle.std.specs.Prelude.{◌≡◌, All, IfOk};

use crate::sends::{letter, takes};
use caller_tests::given::start;
use driver_model::Action;
use futures::executor::block_on;
use session_callers::{Caller, SharedSession};
use session_tests::given::{Told, get};
use std::alloc::{AllocError, AllocGlobal, Global};
use std::random::RandomSource;
use std::sync::Wait;
use std::test::*;
use std::thread::{Threads, for_each_mut};
use std::time::{Clock, Duration};
use std::{io, thread};

/// What a thread does with its caller.
#[derive(Drop)]
enum Part {
    /// It sends GET of a key, and waits for the outcome.
    Sends(&'static str),
    /// It tells what happens, and holds the first reply back until both requests are written.
    Serves,
}

/// A caller with a thread of its own.
#[derive(Drop)]
struct Player {
    caller: Caller,
    part: Part,
    /// The first byte of the reply that it got, or 1 where it held the first reply back.
    told: u8,
}

/// The first byte of the reply to GET of a key, for which this thread waits, once its turn has shown its actions.
fn reply_behind<R>(
    rt: &R,
    alloc: Global,
    shared: &SharedSession,
    caller: &mut Caller,
    key: &str,
    out: &mut Vec<Action>,
) -> io::Result<u8>
where
    R: Wait + RandomSource + AllocGlobal,
    requires { caller.old.table ≡ shared.now.table.shared.table_id }
{
    let what = get(alloc, key)?;
    let Ok(send) = shared.send_as(rt, alloc, caller, what, 0, out) else {
        return Ok(0);
    };
    let outcome = block_on(rt, send)??;
    let letter = letter(&outcome);
    drop(outcome);
    Ok(letter)
}

/// The first byte of the reply to GET of a key, for which this thread waits.
fn reply<R>(
    rt: &R,
    alloc: Global,
    shared: &SharedSession,
    caller: &mut Caller,
    key: &str,
) -> io::Result<u8>
where
    R: Wait + RandomSource + AllocGlobal,
    requires { caller.old.table ≡ shared.now.table.shared.table_id }
{
    let mut out = Vec::new(alloc);
    let told = reply_behind(rt, alloc, shared, caller, key, &mut out);
    drop(out);
    told
}

/// Whether another request is written in this turn. Where none is to be, the thread sleeps a little.
fn is_written<R: Wait + Clock>(
    rt: &R,
    alloc: Global,
    shared: &SharedSession,
    caller: &mut Caller,
) -> Result<bool, AllocError>
    requires { caller.old.table ≡ shared.now.table.shared.table_id }
    ensures { caller.new.table ≡ caller.old.table }
{
    let is_written = takes(rt, alloc, shared, caller, Told::Wrote(20))?;
    if !is_written {
        thread::sleep(rt, Duration::from_millis(1));
    }
    Ok(is_written)
}

/// Whether two requests are written within 10,000 turns.
fn are_written<R: Wait + Clock>(
    rt: &R,
    alloc: Global,
    shared: &SharedSession,
    caller: &mut Caller,
) -> Result<bool, AllocError>
    requires { caller.old.table ≡ shared.now.table.shared.table_id }
    ensures { caller.new.table ≡ caller.old.table }
{
    let mut is_one = false;
    for _ in 0..10_000u32 {
        if !is_written(rt, alloc, shared, caller)? {
            continue;
        }
        if is_one {
            return Ok(true);
        }
        is_one = true;
    }
    Ok(false)
}

/// Whether both requests are written before a reply comes. Else nobody waits any longer.
fn is_held_back<R: Wait + Clock>(
    rt: &R,
    alloc: Global,
    shared: &SharedSession,
    caller: &mut Caller,
) -> Result<bool, AllocError>
    requires { caller.old.table ≡ shared.now.table.shared.table_id }
{
    if are_written(rt, alloc, shared, caller)? {
        return takes(rt, alloc, shared, caller, Told::Came("+x\r\n+y\r\n"));
    }
    takes(rt, alloc, shared, caller, Told::Shutdown)?;
    Ok(false)
}

impl Player {
    fn play<R>(&mut self, rt: &R, alloc: Global, shared: &SharedSession)
    where
        R: Wait + RandomSource + AllocGlobal + Clock,
        requires { self.old.caller.table ≡ shared.now.table.shared.table_id }
    {
        self.told = match self.part {
            Part::Sends(key) => reply(rt, alloc, shared, &mut self.caller, key).unwrap_or(0),
            Part::Serves => match is_held_back(rt, alloc, shared, &mut self.caller) {
                Ok(is_held_back) => u8::from(is_held_back),
                Err(_) => 0,
            },
        };
    }
}

/// A player with a caller that joins.
fn sender<R: Wait>(
    rt: &R,
    shared: &SharedSession,
    caller: &mut Caller,
    key: &'static str,
) -> Result<Player, AllocError>
    requires { caller.old.table ≡ shared.now.table.shared.table_id }
    ensures table { caller.new.table ≡ caller.old.table }
    ensures player { IfOk result (λ player. player.caller.table ≡ caller.old.table) }
{
    match shared.join(rt, caller) {
        Ok(caller) => Ok(Player {
            caller,
            part: Part::Sends(key),
            told: 0,
        }),
        Err(_) => Err(AllocError),
    }
}

/// A connected session's players: two send, and the third serves.
fn players<R: Wait>(rt: &R, alloc: Global) -> Result<(SharedSession, Vec<Player>), AllocError>
    ensures { IfOk result (λ made.
        All (λ player. player.caller.table ≡ made.0.table.shared.table_id) made.1.items
        ) }
{
    let mut out = Vec::new(alloc);
    let started = start(alloc, &mut out);
    drop(out);
    let (shared, mut caller) = started?;
    takes(rt, alloc, &shared, &mut caller, Told::Connected(0))?;
    let mut players = Vec::new(alloc);
    players.push(sender(rt, &shared, &mut caller, "a")?)?;
    players.push(sender(rt, &shared, &mut caller, "b")?)?;
    players.push(Player {
        caller,
        part: Part::Serves,
        told: 0,
    })?;
    Ok((shared, players))
}

/// All play, each on a thread of its own.
fn play_all<R>(rt: &R, alloc: Global, shared: &SharedSession, players: &mut [Player])
where
    R: Threads + Wait + RandomSource + AllocGlobal + Clock + Sync,
    requires { All (λ player. player.caller.table ≡ shared.now.table.shared.table_id) players.old }
{
    if players.is_empty() {
        return;
    }
    let threads = players.len();
    for_each_mut(
        rt,
        players,
        threads,
        &|_, player: &mut Player|
            requires { player.old.caller.table ≡ shared.now.table.shared.table_id }
        { player.play(rt, alloc, shared) },
    );
}

/// What three players were told.
fn told_by(players: &[Player]) -> [u8; 3] {
    match players {
        [a, b, server] => [a.told, b.told, server.told],
        _ => [0; 3],
    }
}

#[test]
fn call_one_waits_for_call_two(rt: HostRuntime) -> Result<(), AllocError> {
    let (shared, mut players) = players(&rt, rt.alloc())?;
    play_all(&rt, rt.alloc(), &shared, players.as_mut_slice());
    let told = told_by(players.as_slice());
    drop(players);
    drop(shared);
    assert!(rt; told == [b'x', b'y', 1] || told == [b'y', b'x', 1]);
    Ok(())
}
