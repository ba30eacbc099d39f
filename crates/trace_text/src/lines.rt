ghost use Rattle.std.specs.Prelude.{◌≡◌, ◌||◌, ◌++◌, ◌∷◌, OnOk, length, true};
ghost use Rattle.std.specs.Str.{byte};
ghost use Rattle.std.specs.Fmt.{signed_decimal};
ghost use Rattle.resp_write.specs.Pack.{bulk_string, crlf, number_line, sized_text, text_line};
ghost use Rattle.resp_write.specs.Canonical.{boolean_text, breaks_line, detail_text, error_text};
ghost use Rattle.trace_text.specs.Errors.{server_text};
ghost use Rattle.trace_text.specs.Writer.{AddedEscaped};

use crate::writer::Writer;
use containers::Bytes;
use itoa::Buffer;
use resp_value::ServerError;
use std::alloc::AllocError;

/// Whether some byte is CR or LF.
fn breaks_line(text: &[u8]) -> bool
    ensures { result ≡ breaks_line text.now }
{
    for byte in text {
        if *byte == b'\r' || *byte == b'\n' {
            return true;
        }
    }
    false
}

/// Whether some byte of a detail is CR or LF.
fn detail_breaks_line(detail: &Option<Bytes>) -> bool
    ensures { result ≡ breaks_line (detail_text detail.now) }
{
    match detail {
        Some(detail) => breaks_line(detail.as_slice()),
        None => false,
    }
}

/// Whether some byte of an error is CR or LF.
#[tactic(auto, using(crate::proofs::Canonical::breaks_either))]
fn error_breaks_line(error: &ServerError) -> bool
    ensures { result ≡ breaks_line (server_text error.now) }
{
    if breaks_line(error.code.as_slice()) {
        return true;
    }
    detail_breaks_line(&error.detail)
}

/// How many bytes the text of an error has.
fn error_len(error: &ServerError) -> usize
    ensures { result ≡ length (server_text error.now) }
{
    match &error.detail {
        Some(detail) => error.code.as_slice().len() + 1 + detail.as_slice().len(),
        None => error.code.as_slice().len(),
    }
}

/// The lines of a canonical text, each byte as itself or as its escape.
impl Writer {
    /// What ends a line of a value.
    #[tactic(auto, unfolding(percent_encoding::specs::Percent::percent_encode_byte))]
    fn crlf(&mut self) -> Result<(), AllocError>
        ensures before { self.new.before ≡ self.old.before }
        ensures ok { OnOk result (AddedEscaped self.old self.new crlf) }
    {
        self.push(b"%0D%0A")
    }

    /// A line of a first byte and a text.
    pub fn text_line(&mut self, first: u8, text: &[u8]) -> Result<(), AllocError>
        ensures before { self.new.before ≡ self.old.before }
        ensures ok { OnOk result (AddedEscaped self.old self.new (text_line first text.now)) }
    {
        self.escaped_bytes(&[first])?;
        self.escaped_bytes(text)?;
        self.crlf()
    }

    /// A line of a first byte and a number.
    pub fn number_line(&mut self, first: u8, number: usize) -> Result<(), AllocError>
        ensures before { self.new.before ≡ self.old.before }
        ensures ok { OnOk result (AddedEscaped self.old self.new (number_line first number)) }
    {
        let mut digits = Buffer::new();
        self.text_line(first, digits.format(number).as_bytes())
    }

    /// A byte string.
    pub fn bulk_string(&mut self, text: &[u8]) -> Result<(), AllocError>
        ensures before { self.new.before ≡ self.old.before }
        ensures ok { OnOk result (AddedEscaped self.old self.new (bulk_string text.now)) }
    {
        self.number_line(b'$', text.len())?;
        self.escaped_bytes(text)?;
        self.crlf()
    }

    /// An integer.
    pub fn int(&mut self, number: i64) -> Result<(), AllocError>
        ensures before { self.new.before ≡ self.old.before }
        ensures ok { OnOk result
            (AddedEscaped self.old self.new (text_line (byte ":") (signed_decimal number))) }
    {
        let mut digits = Buffer::new();
        self.text_line(b':', digits.format(number).as_bytes())
    }

    /// A truth value.
    pub fn boolean(&mut self, on: bool) -> Result<(), AllocError>
        ensures before { self.new.before ≡ self.old.before }
        ensures ok { OnOk result
            (AddedEscaped self.old self.new (text_line (byte "#") (boolean_text on))) }
    {
        let text: &[u8] = if on { b"t" } else { b"f" };
        self.text_line(b'#', text)
    }

    /// A text with its format before it.
    pub fn verbatim(&mut self, format: &[u8], text: &[u8]) -> Result<(), AllocError>
        ensures before { self.new.before ≡ self.old.before }
        ensures ok { OnOk result
            (AddedEscaped self.old self.new
            (sized_text (byte "=") (format.now ++ byte ":" ∷ text.now))) }
    {
        self.number_line(b'=', format.len() + 1 + text.len())?;
        self.escaped_bytes(format)?;
        self.push(b":")?;
        self.escaped_bytes(text)?;
        self.crlf()
    }

    /// A server's error as one text.
    #[tactic(auto, unfolding(percent_encoding::specs::Percent::percent_encode_byte))]
    pub fn server_text(&mut self, error: &ServerError) -> Result<(), AllocError>
        ensures before { self.new.before ≡ self.old.before }
        ensures ok { OnOk result (AddedEscaped self.old self.new (server_text error.now)) }
    {
        self.escaped_bytes(error.code.as_slice())?;
        if let Some(detail) = &error.detail {
            self.push(b"%20")?;
            self.escaped_bytes(detail.as_slice())?;
        }
        Ok(())
    }

    /// A server's error as a value.
    pub fn error_value(&mut self, error: &ServerError) -> Result<(), AllocError>
        ensures before { self.new.before ≡ self.old.before }
        ensures ok { OnOk result (AddedEscaped self.old self.new (error_text error.now)) }
    {
        if error_breaks_line(error) {
            self.number_line(b'!', error_len(error))?;
            self.server_text(error)?;
            return self.crlf();
        }
        self.push(b"-")?;
        self.server_text(error)?;
        self.crlf()
    }
}
