ghost use Rattle.std.specs.Prelude.{◌≡◌, ◌++◌, ◌∷◌, IfOk, OnOk};
ghost use Rattle.std.specs.Str.{byte};
ghost use Rattle.driver_model.specs.declared.action.Cause.{Cause};
ghost use Rattle.trace_text.specs.Show.{script_line};

use crate::writer::Writer;
use containers::Bytes;
use driver_model::{Config, Event};
use std::alloc::{AllocError, Global};

/// The line of a configuration, behind a space.
#[tactic(auto, using(crate::proofs::ScriptLines::behind_space))]
fn config_line(alloc: Global, config: &Config, word: u64) -> Result<Bytes, AllocError>
    ensures { IfOk result (λ line. line ≡ byte " " ∷ script_line (Cause.Opening config.now word)) }
{
    let mut writer = Writer::new(Bytes::new(alloc));
    writer.opening(config, word)?;
    writer.end_line()?;
    Ok(writer.finish())
}

/// The line of an event, behind a space.
#[tactic(auto, using(crate::proofs::ScriptLines::behind_space))]
fn event_line(alloc: Global, event: &Event) -> Result<Bytes, AllocError>
    ensures { IfOk result (λ line. line ≡ byte " " ∷ script_line (Cause.Event event.now)) }
{
    let mut writer = Writer::new(Bytes::new(alloc));
    writer.drawn_event(event)?;
    writer.end_line()?;
    Ok(writer.finish())
}

/// Appends the first line of a script: its configuration, and the word of its draws where that isn't 0.
pub fn append_config(
    alloc: Global,
    script: &mut Bytes,
    config: &Config,
    word: u64,
) -> Result<(), AllocError>
    ensures { OnOk result (
        script.new ≡ script.old ++ script_line (Cause.Opening config.now word)
        ) }
{
    let line = config_line(alloc, config, word)?;
    script.extend_from_slice(&line.as_slice()[1..])
}

/// Appends the line of an event to a script, and the word of its draws where that isn't 0.
pub fn append_event(alloc: Global, script: &mut Bytes, event: &Event) -> Result<(), AllocError>
    ensures { OnOk result (script.new ≡ script.old ++ script_line (Cause.Event event.now)) }
{
    let line = event_line(alloc, event)?;
    script.extend_from_slice(&line.as_slice()[1..])
}
