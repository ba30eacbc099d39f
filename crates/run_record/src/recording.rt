ghost use Rattle.std.specs.Prelude.{◌≡◌, IfOk, IfErr};
ghost use Rattle.run_record.specs.Record.{IsRecordOf, HasNoRecord, IsCause};
ghost use Rattle.text_laws.specs.Records.{record_text};

use crate::fits::{have_forms, history_fits};
use crate::writing::write_script;
use containers::Bytes;
use script_text::{ScriptError, read_script};
use shared_session::Session;
use std::alloc::{AllocError, Global};

/// Why a history has no record.
#[derive(Clone, Copy, Debug, PartialEq, Eq)]
pub enum RecordError {
    /// Its text passes a limit of scripts; or a submission of it has no form there, as a list of exactly one command without
    /// a name, which no step takes.
    NoScript,
    /// Memory was refused.
    NoMemory,
}

impl From<AllocError> for RecordError {
    ghost use Rattle.std.specs.Prelude.{◌≡◌};
    ghost use Rattle.run_record.specs.declared.recording.RecordError.TheVariants.{NoMemory};

    ghost from_gives = { λ _ e. e ≡ NoMemory };

    fn from(_error: AllocError) -> Self {
        RecordError::NoMemory
    }
}

/// Reads the text of a history back, and keeps it where it is a script.
#[tactic(auto, using(crate::proofs::Told::read_back, crate::proofs::Told::not_beyond, crate::proofs::Told::no_script))]
fn checked(alloc: Global, text: Bytes, session: &Session) -> Result<Bytes, RecordError>
    requires { text ≡ record_text session.now.config session.now.word session.now.events }
    ensures lines { IfOk result (λ kept.
        kept ≡ record_text session.now.config session.now.word session.now.events) }
    ensures script { IfOk result (λ kept. IsRecordOf kept session.now) }
    ensures exact { IfOk result (λ _. HasNoRecord session.now → ⊥) }
    ensures cause { IfErr result (IsCause session.now) }
{
    history_fits(session);
    if !have_forms(session.config(), session.events()) {
        return Err(RecordError::NoScript);
    }
    match read_script(alloc, text.as_slice()) {
        Ok(_) => Ok(text),
        Err(ScriptError::Line(_)) => Err(RecordError::NoScript),
        Err(ScriptError::NoMemory) => Err(RecordError::NoMemory),
    }
}

/// The record of a session: the text of a script with its configuration and its events, so that the replay of the text is
/// the replay of the session. One that has failed has the record of the events that it has taken. `NoScript` comes exactly
/// where the history has no record, but for `NoMemory`.
pub fn record(alloc: Global, session: &Session) -> Result<Bytes, RecordError>
    ensures lines { IfOk result (λ text.
        text ≡ record_text session.now.config session.now.word session.now.events) }
    ensures script { IfOk result (λ text. IsRecordOf text session.now) }
    ensures exact { IfOk result (λ _. HasNoRecord session.now → ⊥) }
    ensures cause { IfErr result (IsCause session.now) }
{
    let text = write_script(alloc, session.config(), session.word(), session.events())?;
    checked(alloc, text, session)
}
