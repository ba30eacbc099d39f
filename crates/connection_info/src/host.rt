ghost use Rattle.std.specs.Prelude.{◌≡◌, option_copied};
ghost use Rattle.connection_info.specs.Host.{host_of, without_brackets};

use url::Url;

/// A host without the brackets round it, if it has them.
fn without_brackets(host: &[u8]) -> &[u8]
    ensures { result.now ≡ without_brackets host.now }
{
    let length = host.len();
    if length >= 2 && host[0] == b'[' && host[length - 1] == b']' {
        return &host[1..length - 1];
    }
    host
}

/// The host of a URL.
pub fn host(url: &Url) -> Option<&[u8]>
    ensures { option_copied result ≡ host_of url.now }
{
    let host = url.host_str()?;
    Some(without_brackets(host.as_bytes()))
}
