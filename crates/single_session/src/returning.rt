ghost use Rattle.std.specs.Prelude.{ℕ, ◌≡◌, ◌<◌, ◌+◌, ◌^◌, ◌++◌, [], ◌∷◌, Some, length, take, OnOk, OnErr, IfOk};
ghost use Rattle.single_session.specs.Generations.{generation_shown, connect_timed, comeback_shown};
ghost use Rattle.single_session.specs.Generations.{comeback_shown_in, bound_of};
ghost use Rattle.single_session.specs.Generations.{AreNumbers, IsShowable, HasFraction};
ghost use Rattle.single_session.specs.Turn.{return_shown, shown_behind, timers_of, sources_of};
ghost use Rattle.single_session.specs.Done.{done_each};

use crate::core_state::Core;
use crate::generations::{Comeback, Generations};
use crate::showing::{Done, show, show_each};
use connection_info::ConnectionInfo;
use driver_model::{Action, Purpose};
use manager_config::backoff_ms;
use mux_conn::LinkAct;
use std::alloc::{AllocError, Global};

/// That a generation begins is shown.
fn show_generation(number: Option<u64>, out: &mut Vec<Action>) -> Result<(), AllocError>
    requires { (n : ℕ) → number ≡ Some n → n < 2 ^ 32 }
    ensures actions { OnOk result (out.new.items ≡ out.old.items ++ generation_shown number) }
    ensures front { take (length out.old.items) out.new.items ≡ out.old.items }
{
    let Some(number) = number else {
        return Ok(());
    };
    let number = number as u32;
    show(out, Action::Generation { number })
}

/// A link is asked for.
fn show_connect(
    alloc: Global,
    link: u32,
    info: &ConnectionInfo,
    out: &mut Vec<Action>,
) -> Result<(), AllocError>
    ensures actions { OnOk result (
        out.new.items
        ≡ out.old.items ++ Action.Connect link info.now.host info.now.port ∷ []
        ) }
    ensures front { take (length out.old.items) out.new.items ≡ out.old.items }
{
    let host = info.host.clone(alloc)?;
    let port = info.port;
    show(out, Action::Connect { link, host, port })
}

/// The timer of a connect is asked for, where that is bounded.
fn show_connect_timer(
    link: u32,
    timer: u64,
    bound: Option<u64>,
    out: &mut Vec<Action>,
) -> Result<(), AllocError>
    requires { (ms : ℕ) → bound ≡ Some ms → timer < 2 ^ 32 }
    ensures actions { OnOk result (out.new.items ≡ out.old.items ++ connect_timed link timer bound) }
    ensures front { take (length out.old.items) out.new.items ≡ out.old.items }
{
    let Some(ms) = bound else {
        return Ok(());
    };
    let timer = timer as u32;
    let purpose = Purpose::Connect { link };
    show(out, Action::Timer { timer, ms, purpose })
}

/// A link is asked for, by the first attempt of that generation or by another one.
fn show_dial(
    alloc: Global,
    generations: &Generations,
    link: u32,
    number: Option<u64>,
    timer: u64,
    out: &mut Vec<Action>,
) -> Result<(), AllocError>
    requires { AreNumbers number generations.now.settings.connection.connection_timeout timer }
    ensures actions { OnOk result (
        out.new.items
        ≡ out.old.items ++ comeback_shown generations.now 0 (Comeback.Dials link number timer)
        ) }
    ensures front { take (length out.old.items) out.new.items ≡ out.old.items }
{
    show_generation(number, out)?;
    show_connect(alloc, link, &generations.info, out)?;
    show_connect_timer(link, timer, generations.settings.connection_timeout(), out)
}

/// Behind a failed attempt a timer is asked for, of the delay that the attempt and the turn's word say.
fn show_rest(
    generations: &Generations,
    word: u64,
    generation: u32,
    attempt: u32,
    timer: u64,
    out: &mut Vec<Action>,
) -> Result<(), AllocError>
    requires timer { timer < 2 ^ 32 }
    requires grows { 0 < generations.now.settings.exponent_base.1 }
    ensures actions { OnOk result (
        out.new.items
        ≡ out.old.items
        ++ comeback_shown generations.now word (Comeback.Rests generation attempt timer)
        ) }
    ensures front { take (length out.old.items) out.new.items ≡ out.old.items }
{
    let ms = backoff_ms(&generations.settings, attempt, word);
    let timer = timer as u32;
    let purpose = Purpose::Backoff { generation };
    show(out, Action::Timer { timer, ms, purpose })
}

/// What a manager does of its own is shown, in a turn of this word.
fn show_comeback(
    alloc: Global,
    generations: &Generations,
    word: u64,
    comeback: Comeback,
    out: &mut Vec<Action>,
) -> Result<(), AllocError>
    requires showable { IsShowable generations.now.settings.connection.connection_timeout comeback }
    requires grows { 0 < generations.now.settings.exponent_base.1 }
    ensures actions { OnOk result (
        out.new.items ≡ out.old.items ++ comeback_shown generations.now word comeback
        ) }
    ensures front { take (length out.old.items) out.new.items ≡ out.old.items }
{
    match comeback {
        Comeback::Stays => Ok(()),
        Comeback::Rests {
            generation,
            attempt,
            timer,
        } => show_rest(generations, word, generation, attempt, timer, out),
        Comeback::Dials {
            link,
            generation,
            timer,
        } => show_dial(alloc, generations, link, generation, timer, out),
    }
}

/// So it is where the session comes back.
fn show_own(
    alloc: Global,
    manager: &Option<Generations>,
    word: u64,
    comeback: Comeback,
    out: &mut Vec<Action>,
) -> Result<(), AllocError>
    requires showable { IsShowable (bound_of manager.now) comeback }
    requires grows { HasFraction manager.now }
    ensures actions { OnOk result (
        out.new.items ≡ out.old.items ++ comeback_shown_in manager.now word comeback
        ) }
    ensures front { take (length out.old.items) out.new.items ≡ out.old.items }
{
    match manager {
        Some(generations) => show_comeback(alloc, generations, word, comeback, out),
        None => Ok(()),
    }
}

/// What a session shows of a turn behind the acts of its event, which led to this: what a manager does of its own, and then bytes and
/// waits. The answer is the list of the last acts, emptied. After an error `out` begins with what it held.
pub(crate) fn show_return(
    alloc: Global,
    core: &Core,
    word: u64,
    comeback: Comeback,
    rest: Vec<LinkAct>,
    done: &mut Vec<Done>,
    out: &mut Vec<Action>,
) -> Result<Vec<LinkAct>, AllocError>
    requires showable { IsShowable (bound_of core.now.manager) comeback }
    requires grows { HasFraction core.now.manager }
    requires timers { length core.now.timers
        + length (timers_of core.now.single.link rest.items)
        < 2 ^ 32 }
    requires sources { length core.now.sources
        + length (sources_of core.now.single.link rest.items)
        < 2 ^ 32 }
    ensures actions { OnOk result (
        out.new.items ≡ out.old.items ++ return_shown core.now word comeback rest.items
        ) }
    ensures done { OnOk result (done.new.items ≡ done.old.items ++ done_each rest.items) }
    ensures emptied { IfOk result (λ list. list.items ≡ []) }
    ensures front { OnErr result (take (length out.old.items) out.new.items ≡ out.old.items) }
{
    show_own(alloc, &core.manager, word, comeback, out)?;
    let timers = core.timers.len() as u64;
    let sources = core.sources.len() as u64;
    show_each(alloc, core.single.link, timers, sources, rest, done, out)
}
