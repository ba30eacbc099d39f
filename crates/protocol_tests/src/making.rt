//! What tests of several subjects make, and what they look at.

use resp_read::Reader;
use resp_value::Value;
use resp_write::{Pipeline, canonical_text};
use std::alloc::{AllocError, Global};
use std::fmt::Debug;

/// The value of a text.
pub fn value_of(alloc: Global, text: &[u8]) -> Result<Value, AllocError> {
    let mut reader = Reader::new(alloc);
    reader.feed(text)?;
    match reader.next_value(alloc) {
        Ok(Some(value)) => Ok(value),
        Ok(None) | Err(_) => Err(AllocError),
    }
}

/// Whether a value has this canonical text.
pub fn has_text(alloc: Global, value: &Value, wanted: &[u8]) -> Result<bool, AllocError> {
    let text = canonical_text(alloc, value)?;
    Ok(text.as_slice() == wanted)
}

/// Whether something is shown to programmers so.
pub fn is_shown<T: Debug>(alloc: Global, it: &T, wanted: &str) -> Result<bool, AllocError> {
    let shown = format!(in alloc; "{it:?}")?;
    Ok(shown.as_str() == wanted)
}

/// Whether a pipeline has these bytes.
pub fn has_bytes(alloc: Global, pipeline: &Pipeline, wanted: &[u8]) -> Result<bool, AllocError> {
    let packed = pipeline.get_packed_pipeline(alloc)?;
    Ok(packed.as_slice() == wanted)
}
