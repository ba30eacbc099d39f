ghost use Rattle.std.specs.Prelude.{◌≡◌, ◌++◌, ◌∷◌, [], ℕ, List, codes, true, false, Ok, Err, Some, None};
ghost use Rattle.resp_value.specs.declared.server_error.ServerError.{ServerError};
ghost use Rattle.resp_value.specs.declared.value.Value.TheVariants as value;
ghost use Rattle.redis_error.specs.declared.redis_error.RedisError.TheVariants as redis;
ghost use Rattle.resp_write.specs.Command.{Command};
ghost use Rattle.resp_write.specs.Pack.{pack, pack_pipeline, commands_of};
ghost use Rattle.transactions.specs.declared.call_error.CallError.{CallError};
ghost use Rattle.transactions.specs.declared.call_error.CallError.TheVariants as error;
ghost use Rattle.transactions.specs.Calls.{is_lone_nameless_of};
ghost use Rattle.transactions.specs.Turns.{watch_of, unwatch_all, fresh, watch_error, Unwatches, Turns, Ends};
ghost use Rattle.transactions.specs.Silent.{MakesNoCalls, ListsAll, commands_in, watch_and_unwatch};

use crate::call_error::CallError;
use crate::calls::Calls;
use resp_write::Pipeline;

/// Does nothing. Its contract: turns of a closure that makes no calls of its own leave WATCH and UNWATCH in the list, once a
/// turn, and nothing else, where no call was left out of it.
pub fn turns_without_calls_are_watch_and_unwatch<
    C: Calls,
    T,
    F: FnMut(&mut C, Pipeline) -> Result<Option<T>, CallError>,
>()
    ensures { (watch : Command) (n : ℕ) (c : C) (f : F) (d : C) (g : F)
        → MakesNoCalls C.told F.FnMut → ListsAll (C.told c) (C.told d)
        → Turns C.told F.FnMut watch n c f d g
        → commands_in (C.told d) ≡ commands_in (C.told c) ++ watch_and_unwatch watch n }
{}

/// Does nothing. Its contract: the last call before a value is answered is UNWATCH.
pub fn a_value_comes_after_unwatch<
    C: Calls,
    T,
    F: FnMut(&mut C, Pipeline) -> Result<Option<T>, CallError>,
>()
    ensures { (watch : Command) (turns : ℕ) (c : C) (f : F) (v : T) (d : C)
        → Ends C.told F.FnMut watch turns c f (Ok v) d → (b : C) × Unwatches C.told b d }
{}

/// Does nothing. Its contract: the bytes of the two commands, and of the pipeline that a closure is handed.
pub fn these_are_the_commands()
    ensures one_key { pack (watch_of (codes "k" ∷ [])).args ≡ codes "*2\r\n$5\r\nWATCH\r\n$1\r\nk\r\n" }
    ensures two_keys { pack (watch_of (codes "k" ∷ codes "ab" ∷ [])).args
        ≡ codes "*3\r\n$5\r\nWATCH\r\n$1\r\nk\r\n$2\r\nab\r\n" }
    ensures unwatch { pack unwatch_all.args ≡ codes "*1\r\n$7\r\nUNWATCH\r\n" }
    ensures nothing { pack_pipeline fresh ≡ [] }
{}

/// Does nothing. Its contract: which answers to WATCH end a turn, and which don't.
pub fn these_answers_end_a_turn()
    ensures failed { (e : CallError) → watch_error (Err e) ≡ Some e }
    ensures refused { (e : ServerError) → watch_error (Ok (value.ServerError e))
        ≡ Some (error.Redis (redis.Convert (value.ServerError e))) }
    ensures okay { watch_error (Ok value.Okay) ≡ None }
    ensures nil { watch_error (Ok value.Nil) ≡ None }
    ensures text { (text : List ℕ) → watch_error (Ok (value.SimpleString text)) ≡ None }
{}

/// Does nothing. Its contract: one command without a name is no call of several, and these are some.
pub fn these_are_calls_of_several()
    ensures nameless { is_lone_nameless_of (commands_of ([] ∷ [])) ≡ true }
    ensures named { is_lone_nameless_of (commands_of ((codes "PING" ∷ []) ∷ [])) ≡ false }
    ensures none { is_lone_nameless_of (commands_of []) ≡ false }
    ensures two { is_lone_nameless_of (commands_of ([] ∷ [] ∷ [])) ≡ false }
{}
