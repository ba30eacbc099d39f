ghost use Rattle.std.specs.Prelude.{◌≡◌, ◌++◌, OnOk};
ghost use Rattle.resp_write.specs.Pack.{bulk_string, crlf, number_line, sized_text, text_line};

use containers::Bytes;
use itoa::Buffer;
use std::alloc::AllocError;

/// Appends what ends a line.
pub fn push_crlf(out: &mut Bytes) -> Result<(), AllocError>
    ensures { OnOk result (out.new ≡ out.old ++ crlf) }
{
    out.extend_from_slice(b"\r\n")
}

/// Appends a line of a first byte and a text.
pub fn push_text_line(out: &mut Bytes, first: u8, text: &[u8]) -> Result<(), AllocError>
    ensures { OnOk result (out.new ≡ out.old ++ text_line first text.now) }
{
    out.push(first)?;
    out.extend_from_slice(text)?;
    push_crlf(out)
}

/// Appends a line of a first byte and a number.
pub fn push_number_line(out: &mut Bytes, first: u8, number: usize) -> Result<(), AllocError>
    ensures { OnOk result (out.new ≡ out.old ++ number_line first number) }
{
    let mut digits = Buffer::new();
    push_text_line(out, first, digits.format(number).as_bytes())
}

/// Appends a text after its announced length.
pub fn push_sized_text(out: &mut Bytes, first: u8, text: &[u8]) -> Result<(), AllocError>
    ensures { OnOk result (out.new ≡ out.old ++ sized_text first text.now) }
{
    push_number_line(out, first, text.len())?;
    out.extend_from_slice(text)?;
    push_crlf(out)
}

/// Appends a byte string.
pub fn push_bulk_string(out: &mut Bytes, text: &[u8]) -> Result<(), AllocError>
    ensures { OnOk result (out.new ≡ out.old ++ bulk_string text.now) }
{
    push_sized_text(out, b'$', text)
}
