ghost use Rattle.std.specs.Prelude.{◌≡◌, ◌++◌, ◌∷◌, OnOk, IfOk};
ghost use Rattle.std.specs.Str.{byte};
ghost use Rattle.std.specs.Fmt.{signed_decimal};
ghost use Rattle.resp_write.specs.Pack.{sized_text, text_line};
ghost use Rattle.resp_write.specs.Canonical.{boolean_text, breaks_line, detail_text, error_line, error_text};

use crate::lines::{push_crlf, push_number_line, push_sized_text, push_text_line};
use containers::Bytes;
use itoa::Buffer;
use resp_value::ServerError;
use std::alloc::{AllocError, Global};

/// Whether some byte is CR or LF.
fn breaks_line(text: &[u8]) -> bool
    ensures { result ≡ breaks_line text.now }
{
    for byte in text {
        if *byte == b'\r' || *byte == b'\n' {
            return true;
        }
    }
    false
}

/// Appends the text of an error as a line, or after its length where it breaks lines.
fn push_error_line(out: &mut Bytes, text: &[u8]) -> Result<(), AllocError>
    ensures { OnOk result (out.new ≡ out.old ++ error_line text.now) }
{
    if breaks_line(text) {
        return push_sized_text(out, b'!', text);
    }
    push_text_line(out, b'-', text)
}

/// Appends a server error.
pub fn push_error(alloc: Global, out: &mut Bytes, error: &ServerError) -> Result<(), AllocError>
    ensures { OnOk result (out.new ≡ out.old ++ error_text error.now) }
{
    let mut text = error.code.clone(alloc)?;
    push_detail(&mut text, &error.detail)?;
    push_error_line(out, text.as_slice())
}

/// Appends a space and the detail, if there is one.
fn push_detail(text: &mut Bytes, detail: &Option<Bytes>) -> Result<(), AllocError>
    ensures { OnOk result (text.new ≡ text.old ++ detail_text detail.now) }
{
    if let Some(detail) = detail {
        text.push(b' ')?;
        text.extend_from_slice(detail.as_slice())?;
    }
    Ok(())
}

/// Appends a number.
pub fn push_int(out: &mut Bytes, number: i64) -> Result<(), AllocError>
    ensures { OnOk result (out.new ≡ out.old ++ text_line (byte ":") (signed_decimal number)) }
{
    let mut digits = Buffer::new();
    push_text_line(out, b':', digits.format(number).as_bytes())
}

/// Appends a truth value.
pub fn push_boolean(out: &mut Bytes, on: bool) -> Result<(), AllocError>
    ensures { OnOk result (out.new ≡ out.old ++ text_line (byte "#") (boolean_text on)) }
{
    let text: &[u8] = if on { b"t" } else { b"f" };
    push_text_line(out, b'#', text)
}

/// Appends a text with its format before it.
pub fn push_verbatim(out: &mut Bytes, format: &[u8], text: &[u8]) -> Result<(), AllocError>
    ensures { OnOk result
        (out.new ≡ out.old ++ sized_text (byte "=") (format.now ++ byte ":" ∷ text.now)) }
{
    push_number_line(out, b'=', format.len() + 1 + text.len())?;
    out.extend_from_slice(format)?;
    out.push(b':')?;
    out.extend_from_slice(text)?;
    push_crlf(out)
}
