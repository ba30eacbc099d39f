ghost use Rattle.std.specs.Prelude.{IfOk};
ghost use Rattle.std.specs.String.{string_bytes};
ghost use Rattle.resp_value.specs.View.{data_of};
ghost use Rattle.resp_convert.specs.Convert.{IsOfType};
ghost use Rattle.resp_convert.specs.Types.{IsText, IsUnicode};

use crate::convert::{FromRedisValue, Look};
use crate::parts::{bare, into_bare, text};
use containers::Bytes;
use resp_value::Value;
use std::alloc::{AllocError, Global};
use std::str;

/// A text. That of a byte string, a simple string or a verbatim string is moved, not copied.
impl FromRedisValue for Bytes {
    ghost reads = { IsText };

    ghost fits = { IsOfType IsText };

    ghost moves = { IsOfType IsText };

    fn read_value(alloc: Global, value: &Value) -> Result<Option<Bytes>, AllocError> {
        let Some(text) = text(bare(value)) else {
            return Ok(None);
        };
        Ok(Some(Bytes::from_slice(alloc, text)?))
    }

    fn look(value: &Value) -> Look {
        match text(bare(value)) {
            Some(_) => Look::Fits,
            None => Look::Unfit,
        }
    }

    fn take_value(alloc: Global, value: Value) -> Result<Bytes, AllocError> {
        match into_bare(value) {
            Value::BulkString(text) => Ok(text),
            Value::SimpleString(text) => Ok(text),
            Value::VerbatimString { format, text } => {
                drop(format);
                Ok(text)
            }
            other => {
                let copy = Bytes::from_slice(alloc, text(&other).unwrap());
                drop(other);
                copy
            }
        }
    }
}

/// A text in UTF-8. That of a byte string, a simple string or a verbatim string is moved, not copied.
impl FromRedisValue for String {
    ghost reads = { λ d s. IsUnicode d (string_bytes s) };

    ghost fits = { IsOfType IsUnicode };

    ghost moves = { IsOfType IsUnicode };

    fn read_value(alloc: Global, value: &Value) -> Result<Option<String>, AllocError> {
        let Some(text) = text(bare(value)) else {
            return Ok(None);
        };
        match str::from_utf8(text) {
            Ok(text) => Ok(Some(String::from_str(alloc, text)?)),
            Err(_) => Ok(None),
        }
    }

    fn look(value: &Value) -> Look {
        match text(bare(value)) {
            Some(text) => match str::from_utf8(text) {
                Ok(_) => Look::Fits,
                Err(_) => Look::Unfit,
            },
            None => Look::Unfit,
        }
    }

    fn take_value(alloc: Global, value: Value) -> Result<String, AllocError> {
        let text = Bytes::take_value(alloc, value)?;
        Ok(String::from_utf8(text.into_vec()).unwrap())
    }
}
