ghost use Rattle.std.specs.Prelude.{◌≡◌, [], ◌∷◌, map, IfOk, Some, None};
ghost use Rattle.credentials.specs.Stream.Told.{credentials};

use containers::{Bytes, Queue};
use credentials::{
    BasicAuth, CredsItem, CredsSource, RetryConfig, StreamingCredentialsProvider,
    TokenRefreshConfig, auth_message, refresh_threshold,
};
use std::alloc::{AllocError, Global};

fn auth(alloc: Global, username: &[u8], password: &[u8]) -> Result<BasicAuth, AllocError> {
    let username = Bytes::from_slice(alloc, username)?;
    let password = Bytes::from_slice(alloc, password)?;
    Ok(BasicAuth::new(username, password))
}

fn is_auth(auth: &BasicAuth, username: &[u8], password: &[u8]) -> bool {
    auth.username() == username && auth.password() == password
}

#[test]
fn a_clone_has_both_texts_of_its_own(rt: HostRuntime) -> Result<(), AllocError> {
    let mut first = auth(rt.alloc(), b"u", b"p")?;
    let copy = first.clone(rt.alloc())?;
    first.set_username(Bytes::from_slice(rt.alloc(), b"v")?);
    first.set_password(Bytes::from_slice(rt.alloc(), b"q")?);
    let both = is_auth(&copy, b"u", b"p") && is_auth(&first, b"v", b"q");
    assert!(rt; both);
    Ok(())
}

/// Whether the credentials are told by these bytes.
fn is_told(alloc: Global, case: &(&[u8], &[u8], &[u8])) -> Result<bool, AllocError> {
    let auth = auth(alloc, case.0, case.1)?;
    let bytes = auth_message(alloc, &auth)?;
    Ok(bytes.as_slice() == case.2)
}

/// User names and passwords, and the bytes that tell them.
const TOLD: [(&[u8], &[u8], &[u8]); 3] = [
    (b"u", b"q", b"*3\r\n$4\r\nAUTH\r\n$1\r\nu\r\n$1\r\nq\r\n"),
    (b"", b"", b"*3\r\n$4\r\nAUTH\r\n$0\r\n\r\n$0\r\n\r\n"),
    (
        b"default",
        b"a b\r\nc",
        b"*3\r\n$4\r\nAUTH\r\n$7\r\ndefault\r\n$6\r\na b\r\nc\r\n",
    ),
];

#[test]
fn auth_is_one_command(rt: HostRuntime) -> Result<(), AllocError> {
    for case in &TOLD {
        assert!(rt; is_told(rt.alloc(), case)?);
    }
    Ok(())
}

#[test]
fn default_credentials_of_an_hour_are_renewed_after_48_minutes(rt: HostRuntime) {
    let (numerator, denominator) = TokenRefreshConfig::default().expiration_refresh_ratio;
    assert!(rt; refresh_threshold(0, 3600, numerator, denominator) == Some(2880));
}

#[test]
fn a_clone_of_a_configuration_is_equal(rt: HostRuntime) -> Result<(), AllocError> {
    let retries = RetryConfig::default()
        .set_number_of_retries(5)
        .set_min_delay(10)
        .set_max_delay(1_000)
        .set_exponent_base(3, 2);
    let config = TokenRefreshConfig::default()
        .set_expiration_refresh_ratio(1, 2)
        .set_retry_config(retries);
    let same = retries.clone()? == retries && config.clone()? == config;
    assert!(rt; same && config != TokenRefreshConfig::default());
    Ok(())
}

/// A source of a list.
#[derive(Drop)]
struct ListedSource {
    auths: Queue<BasicAuth>,
}

impl CredsSource for ListedSource {
    ghost left = { λ s. Some (map credentials s.auths) };

    fn next(&mut self) -> CredsItem {
        match self.auths.pop_front() {
            Some(auth) => CredsItem::Item(auth),
            None => CredsItem::End,
        }
    }
}

/// Makes sources of the same credentials, which come once.
#[derive(Drop)]
struct Fixed {
    alloc: Global,
    auth: BasicAuth,
}

impl StreamingCredentialsProvider for Fixed {
    type Source = ListedSource;

    ghost coming = { λ p. Some (credentials p.auth ∷ []) };

    fn subscribe(&mut self) -> Result<ListedSource, AllocError> {
        let mut auths = Queue::new(self.alloc);
        auths.push_back(self.auth.clone(self.alloc)?)?;
        Ok(ListedSource { auths })
    }
}

/// A source that has no credentials and tells nothing of what is to come.
#[derive(Drop)]
struct FailingSource {
    alloc: Global,
}

impl CredsSource for FailingSource {
    ghost left = { λ _. None };

    fn next(&mut self) -> CredsItem {
        match Bytes::from_slice(self.alloc, b"no token") {
            Ok(text) => CredsItem::Error { text },
            Err(AllocError) => CredsItem::NoMemory,
        }
    }
}

/// Whether the next item of a source is these credentials.
fn gives<S: CredsSource>(source: &mut S, username: &[u8], password: &[u8]) -> bool {
    match source.next() {
        CredsItem::Item(auth) => is_auth(&auth, username, password),
        _ => false,
    }
}

/// Whether a source ends here.
fn ends<S: CredsSource>(source: &mut S) -> bool {
    matches!(&source.next(), CredsItem::End)
}

/// Whether the next item of a source is an error of this text.
fn fails<S: CredsSource>(source: &mut S, wanted: &[u8]) -> bool {
    match source.next() {
        CredsItem::Error { text } => text.as_slice() == wanted,
        _ => false,
    }
}

/// Whether a new source gives these credentials, and then ends.
fn provides<P: StreamingCredentialsProvider>(
    provider: &mut P,
    username: &[u8],
    password: &[u8],
) -> Result<bool, AllocError>
where
    P::Source: Drop,
{
    let mut source = provider.subscribe()?;
    Ok(gives(&mut source, username, password) && ends(&mut source))
}

#[test]
fn each_source_of_a_provider_begins_anew(rt: HostRuntime) -> Result<(), AllocError> {
    let auth = auth(rt.alloc(), b"u", b"p")?;
    let mut provider = Fixed {
        alloc: rt.alloc(),
        auth,
    };
    let first = provides(&mut provider, b"u", b"p")?;
    let second = provides(&mut provider, b"u", b"p")?;
    assert!(rt; first && second);
    Ok(())
}

#[test]
fn a_source_may_fail_again_and_again(rt: HostRuntime) {
    let mut source = FailingSource { alloc: rt.alloc() };
    let twice = fails(&mut source, b"no token") && fails(&mut source, b"no token");
    assert!(rt; twice);
}
