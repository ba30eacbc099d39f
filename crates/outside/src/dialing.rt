use std::io;
use std::io::ErrorKind;
use std::net::{HostAddrs, Net, OpenStream, SocketAddr, ToSocketAddrs};
use std::time::{Clock, Duration, Instant};

/// Makes a stream's reads and writes return at once, and sends each write at once.
fn prepare<S: OpenStream>(stream: &S) -> io::Result<()> {
    stream.set_nonblocking(true)?;
    stream.set_nodelay(true)
}

/// Connects to one address, and prepares the stream.
fn connect_address<R: Net>(rt: &R, address: SocketAddr, limit: Duration) -> io::Result<R::Stream> {
    let stream = rt.connect_timeout(address, limit)?;
    prepare(&stream)?;
    Ok(stream)
}

/// The part of the time left that one of so many addresses has.
fn share(left: Duration, addresses: usize) -> Duration {
    let addresses = u32::try_from(addresses).unwrap_or(u32::MAX).max(1);
    left / addresses
}

/// What is left of a limit of time since a moment. `TimedOut` where nothing is left.
fn time_left<R: Clock>(rt: &R, start: Instant, limit: Duration) -> io::Result<Duration> {
    let left = limit.saturating_sub(start.elapsed(rt)?);
    if left.is_zero() {
        return Err(io::Error::from(ErrorKind::TimedOut));
    }
    Ok(left)
}

/// Tries one of so many addresses that wait, within its share of the time that is left. The answer is how the search ends, if it
/// does: with a stream, or where no time is left. Else `last` is the address's error.
fn try_address<R: Net + Clock>(
    rt: &R,
    address: SocketAddr,
    start: Instant,
    limit: Duration,
    waiting: usize,
    last: &mut io::Error,
) -> Option<io::Result<R::Stream>> {
    let left = match time_left(rt, start, limit) {
        Ok(left) => left,
        Err(error) => return Some(Err(error)),
    };
    match connect_address(rt, address, share(left, waiting)) {
        Ok(stream) => Some(Ok(stream)),
        Err(error) => {
            drop(std::mem::replace(last, error));
            None
        }
    }
}

/// Tries addresses in order, until one answers or the time is over.
fn connect_one_of<R: Net + Clock>(
    rt: &R,
    addresses: HostAddrs,
    start: Instant,
    limit: Duration,
) -> io::Result<R::Stream> {
    let mut waiting = addresses.size_hint().0;
    let mut last = io::Error::from(ErrorKind::NotFound);
    for address in addresses {
        if let Some(ended) = try_address(rt, address, start, limit, waiting, &mut last) {
            drop(last);
            return ended;
        }
        waiting = waiting.saturating_sub(1);
    }
    Err(last)
}

/// Connects to a host within a limit of time: to each of its addresses in order, each within its share of the time that
/// is left, until one answers. The error is the last address's, `TimedOut` where no time was left for it. Only the
/// look-up of a name has no limit of its own: the system's resolver decides how long it takes.
pub(crate) fn connect<R: Net + Clock>(
    rt: &R,
    host: &str,
    port: u16,
    limit: Duration,
) -> io::Result<R::Stream> {
    let addresses = (host, port).to_socket_addrs(rt)?;
    let start = Instant::now(rt)?;
    connect_one_of(rt, addresses, start, limit)
}
