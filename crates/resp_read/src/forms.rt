ghost use Rattle.std.specs.Prelude.{◌≡◌, ◌*◌, IfOk, option_map, Some, None, if◌then◌else◌};
ghost use Rattle.resp_value.specs.Data.{nil};
ghost use Rattle.resp_value.specs.View.{data_of};
ghost use Rattle.resp_read.specs.Grammar.{simple_of, error_of, no_limits};
ghost use Rattle.resp_read.specs.Parser.{line, double_line, big_line, plain};
ghost use Rattle.resp_read.specs.Grammar.{Limits as GrammarLimits};
ghost use Rattle.resp_read.specs.Parts.{line_form, has};

use crate::{decimals, lines};
use containers::Bytes;
use resp_value::{ServerError, Value};
use std::alloc::{AllocError, Global};

/// A value that is one line.
#[derive(Clone, Copy)]
pub enum OneLine {
    Simple,
    Error,
    Number,
    Null,
    Boolean,
    Double,
    Big,
    /// An array that is Nil.
    NoArray,
}

/// Why no value was read: more bytes are wanted, or none can help, or memory was refused.
#[derive(Clone, Copy)]
pub enum Refusal {
    Short,
    Bad,
    NoMemory,
}

impl From<AllocError> for Refusal {
    ghost use Rattle.std.specs.Prelude.{◌≡◌};
    ghost use Rattle.resp_read.specs.declared.forms.Refusal.TheVariants.{NoMemory};

    ghost from_gives = { λ _ e. e ≡ NoMemory };

    fn from(_error: AllocError) -> Self {
        Refusal::NoMemory
    }
}

pub fn simple(alloc: Global, line: &[u8]) -> Result<Value, AllocError>
    ensures { IfOk result (λ v. data_of v ≡ simple_of line.now) }
{
    if line == b"OK".as_slice() {
        return Ok(Value::Okay);
    }
    Ok(Value::SimpleString(Bytes::from_slice(alloc, line)?))
}

pub fn error(alloc: Global, line: &[u8]) -> Result<Value, AllocError>
    ensures { IfOk result (λ v. data_of v ≡ error_of line.now) }
{
    for (i, b) in line.iter().enumerate() {
        if *b == b' ' {
            let code = Bytes::from_slice(alloc, &line[..i])?;
            let detail = Some(Bytes::from_slice(alloc, &line[i + 1..])?);
            return Ok(Value::ServerError(ServerError { code, detail }));
        }
    }
    let code = Bytes::from_slice(alloc, line)?;
    Ok(Value::ServerError(ServerError { code, detail: None }))
}

fn nil_if(is_so: bool) -> Option<Value>
    ensures { option_map data_of result ≡ (if is_so then Some nil else None) }
{
    if is_so { Some(Value::Nil) } else { None }
}

fn double(alloc: Global, line: &[u8]) -> Result<Option<Value>, AllocError>
    ensures { IfOk result (λ v. option_map data_of v ≡ (double_line no_limits).whole line.now) }
{
    if decimals::is_whole_double(line) {
        return Ok(Some(Value::Double(Bytes::from_slice(alloc, line)?)));
    }
    Ok(None)
}

fn big(alloc: Global, line: &[u8]) -> Result<Option<Value>, AllocError>
    ensures { IfOk result (λ v. option_map data_of v ≡ big_line.whole line.now) }
{
    if decimals::is_big_number(line) {
        return Ok(Some(Value::BigNumber(Bytes::from_slice(alloc, line)?)));
    }
    Ok(None)
}

/// What a whole line stands for.
pub fn value_of_line(alloc: Global, form: OneLine, line: &[u8]) -> Result<Option<Value>, AllocError>
    ensures { IfOk result (λ v. (most : GrammarLimits)
        → option_map data_of v ≡ (line_form most form).whole line.now) }
{
    match form {
        OneLine::Simple => Ok(Some(simple(alloc, line)?)),
        OneLine::Error => Ok(Some(error(alloc, line)?)),
        OneLine::Number => match lines::read_number(line) {
            Some(n) => Ok(Some(Value::Int(n))),
            None => Ok(None),
        },
        OneLine::Null => Ok(nil_if(line.is_empty())),
        OneLine::Boolean => match lines::read_truth(line) {
            Some(on) => Ok(Some(Value::Boolean(on))),
            None => Ok(None),
        },
        OneLine::Double => double(alloc, line),
        OneLine::Big => big(alloc, line),
        OneLine::NoArray => Ok(nil_if(lines::is_no_array(line))),
    }
}

/// Whether a form that holds no values begins so.
pub fn is_plain(first: u8) -> bool
    ensures { result ≡ has (plain no_limits) first }
{
    matches!(
        first,
        b'+' | b'-' | b':' | b'$' | b'_' | b'#' | b',' | b'(' | b'!' | b'='
    )
}
