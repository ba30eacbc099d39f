ghost use Rattle.std.specs.Prelude.{◌≡◌, ◌++◌, IfOk, OnOk};
ghost use Rattle.text_laws.specs.Records.{event_lines, record_text};

use containers::Bytes;
use driver_model::{Config, Event};
use std::alloc::{AllocError, Global};
use trace_text::{append_config, append_event};

/// Appends the lines of events.
fn append_events(alloc: Global, text: &mut Bytes, events: &[Event]) -> Result<(), AllocError>
    ensures { OnOk result (text.new ≡ text.old ++ event_lines events.now) }
{
    for event in events {
        append_event(alloc, text, event)?;
    }
    Ok(())
}

/// The script of a history.
pub fn write_script(
    alloc: Global,
    config: &Config,
    word: u64,
    events: &[Event],
) -> Result<Bytes, AllocError>
    ensures { IfOk result (λ text. text ≡ record_text config.now word events.now) }
{
    let mut text = Bytes::new(alloc);
    append_config(alloc, &mut text, config, word)?;
    append_events(alloc, &mut text, events)?;
    text.extend_from_slice(b"end\n")?;
    Ok(text)
}
