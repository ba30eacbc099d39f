ghost use Rattle.std.specs.Prelude.{◌≡◌, ◌≢◌, ◌<◌, [], IfOk, Ok, Err, Some, None, MatchResult};
ghost use Rattle.redis_error.specs.declared.config_name.ConfigName.TheVariants as config;
ghost use Rattle.redis_error.specs.declared.redis_error.RedisError.TheVariants as redis;
ghost use Rattle.transactions.specs.declared.call_error.CallError.TheVariants as error;
ghost use Rattle.transactions.specs.Turns.{watch_of, unwatch_all, watch_error};
ghost use Rattle.transactions.specs.Turns.{Watches, Refuses, Unwatches, Turn, TurnFails, Ends};

use crate::call_error::CallError;
use crate::calls::Calls;
use containers::Names;
use redis_error::{ConfigName, RedisError};
use resp_value::Value;
use resp_write::{Cmd, Pipeline, cmd, pipe};
use std::alloc::{AllocError, Global};

/// Lets a closure make its calls while keys are watched, until it has a value: at most `turns` times, which is at least 1.
///
/// A turn calls WATCH with the keys, then the closure with the connection and an empty atomic pipeline, and then UNWATCH, whose
/// answer doesn't matter. The closure answers `Some` where its pipeline was executed, and `None` where another client changed a
/// key meanwhile, so that another turn is to be made. The first value is the answer.
///
/// `Config` with the name `Keys` comes where there are no keys, before any call. Else an error of WATCH is the answer at once,
/// and so is `Convert`, with the value, where WATCH is answered by a server's error as a value. An error of the closure is the
/// answer after UNWATCH. `TurnsSpent` comes after that many turns which all answered `None`. `NoMemory` comes before any call,
/// or where WATCH or the closure answers it.
pub fn transaction<C: Calls, T, F: FnMut(&mut C, Pipeline) -> Result<Option<T>, CallError>>(
    alloc: Global,
    conn: &mut C,
    keys: &Names,
    func: F,
    turns: u32,
) -> Result<T, CallError>
    requires callable { F.IsAlwaysCallable func }
    requires some_turn { 0 < turns }
    ensures keyless { keys.now ≡ [] → (result ≡ Err (error.Redis (redis.Config config.Keys))) × (conn.new ≡ conn.old) }
    ensures ends { keys.now ≢ [] → Ends C.told F.FnMut (watch_of keys.now) turns conn.old func result conn.new }
{
    if keys.is_empty() {
        return Err(without_keys());
    }
    let watch = watch_command(alloc, keys)?;
    let unwatch = cmd(alloc, b"UNWATCH")?;
    all_turns(alloc, conn, &watch, &unwatch, func, turns)
}

/// The error of a transaction that watches no keys.
fn without_keys() -> CallError
    ensures { result ≡ error.Redis (redis.Config config.Keys) }
{
    let name = ConfigName::Keys;
    CallError::Redis(RedisError::Config { name })
}

/// At most so many turns, with the command WATCH and the command UNWATCH, until one answers a value.
fn all_turns<C: Calls, T, F: FnMut(&mut C, Pipeline) -> Result<Option<T>, CallError>>(
    alloc: Global,
    conn: &mut C,
    watch: &Cmd,
    unwatch: &Cmd,
    mut func: F,
    turns: u32,
) -> Result<T, CallError>
    requires callable { F.IsAlwaysCallable func }
    requires unwatches { unwatch.now ≡ unwatch_all }
    ensures { Ends C.told F.FnMut watch.now turns conn.old func result conn.new }
{
    for _turn in 0..turns {
        match one_turn(alloc, conn, watch, unwatch, &mut func) {
            Ok(Some(value)) => return Ok(value),
            Ok(None) => {}
            Err(error) => return Err(error),
        }
    }
    Err(CallError::Redis(RedisError::TurnsSpent { turns }))
}

/// One turn, with the command WATCH and the command UNWATCH: the answer of the closure, or the error of WATCH.
fn one_turn<C: Calls, T, F: FnMut(&mut C, Pipeline) -> Result<Option<T>, CallError>>(
    alloc: Global,
    conn: &mut C,
    watch: &Cmd,
    unwatch: &Cmd,
    func: &mut F,
) -> Result<Option<T>, CallError>
    requires callable { F.IsAlwaysCallable func.old }
    requires unwatches { unwatch.now ≡ unwatch_all }
    ensures again { F.IsAlwaysCallable func.new }
    ensures turn { MatchResult result
        (λ answer. Turn C.told F.FnMut watch.now conn.old func.old (Ok answer) conn.new func.new)
        (λ e. TurnFails C.told F.FnMut watch.now conn.old func.old e conn.new func.new) }
{
    if let Err(error) = call_watch(alloc, conn, watch) {
        return Err(error);
    }
    let mut pipeline = pipe(alloc);
    pipeline.atomic();
    let answer = func(conn, pipeline);
    call_unwatch(alloc, conn, unwatch);
    answer
}

/// Calls WATCH by this command. An error is the answer, and so is a server's error as a value.
fn call_watch<C: Calls>(alloc: Global, conn: &mut C, watch: &Cmd) -> Result<(), CallError>
    ensures { MatchResult result
        (λ _. Watches C.told watch.now conn.old conn.new)
        (λ e. Refuses C.told watch.now conn.old conn.new e) }
{
    let answer = conn.call(alloc, watch);
    check_watch(answer)
}

/// What WATCH was answered with: an error, or a value that is a server's error, is refused.
fn check_watch(answer: Result<Value, CallError>) -> Result<(), CallError>
    ensures { MatchResult result
        (λ _. watch_error answer ≡ None)
        (λ e. watch_error answer ≡ Some e) }
{
    match answer {
        Ok(Value::ServerError(error)) => {
            let value = Value::ServerError(error);
            Err(CallError::Redis(RedisError::Convert { value }))
        }
        Ok(value) => {
            drop(value);
            Ok(())
        }
        Err(error) => Err(error),
    }
}

/// Calls UNWATCH by this command, and lets its answer go.
fn call_unwatch<C: Calls>(alloc: Global, conn: &mut C, unwatch: &Cmd)
    requires { unwatch.now ≡ unwatch_all }
    ensures { Unwatches C.told conn.old conn.new }
{
    drop(conn.call(alloc, unwatch));
}

/// The command WATCH with these keys.
fn watch_command(alloc: Global, keys: &Names) -> Result<Cmd, AllocError>
    ensures { IfOk result (λ c. c ≡ watch_of keys.now) }
{
    let mut command = cmd(alloc, b"WATCH")?;
    for key in keys.as_slice() {
        command.arg(alloc, key.as_slice())?;
    }
    Ok(command)
}
