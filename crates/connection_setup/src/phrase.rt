ghost use Rattle.std.specs.Prelude.{◌≡◌, codes};
ghost use Rattle.connection_setup.specs.Judgement.{counts_arguments, has_phrase};

use containers::Bytes;

/// Whether a text has a phrase somewhere.
fn has_phrase(phrase: &[u8], mut text: &[u8]) -> bool
    ensures { result ≡ has_phrase phrase.now text.entry.now }
{
    while let [_first, rest @ ..] = text {
        if text.starts_with(phrase) {
            return true;
        }
        text = rest;
    }
    false
}

/// Whether the detail of an error says that the server counts other arguments.
pub fn counts_arguments(detail: &Option<Bytes>) -> bool
    ensures { result ≡ counts_arguments detail.now }
{
    match detail {
        Some(detail) => has_phrase(b"wrong number of arguments", detail.as_slice()),
        None => false,
    }
}
