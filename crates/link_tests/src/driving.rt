use containers::Bytes;
use driver_model::Shape;
use link_core::{LinkCore, LinkFault, Settled};
use redis_error::FaultKind;
use resp_read::Reader;
use resp_value::Value;
use std::alloc::{AllocError, Global};

/// Whether a message is taken.
fn puts(alloc: Global, link: &mut LinkCore, id: u64, text: &[u8]) -> Result<bool, AllocError> {
    let mut packed = Bytes::from_slice(alloc, text)?;
    Ok(
        link.enqueue(alloc, id, &mut packed, Shape::Single, false)
            .is_ok(),
    )
}

/// How many messages start.
fn starts(alloc: Global, link: &mut LinkCore) -> Result<usize, AllocError> {
    let mut starts = Vec::new(alloc);
    match link.start_ready(alloc, &mut starts) {
        Ok(()) => Ok(starts.len()),
        Err(_) => Err(AllocError),
    }
}

/// Whether these bytes are offered.
fn offers(alloc: Global, link: &mut LinkCore, wanted: &[u8]) -> Result<bool, AllocError> {
    let mut out = Vec::new(alloc);
    link.offer(&mut out)?;
    Ok(out.as_slice() == wanted)
}

/// Whether these messages are settled, in this order.
fn are(settled: &[Settled], wanted: &[u64]) -> bool {
    if settled.len() != wanted.len() {
        return false;
    }
    for (message, id) in settled.iter().zip(wanted) {
        if message.id != *id {
            return false;
        }
    }
    true
}

/// Whether these messages are settled by bytes that came, in which so many pushes are.
fn settles(
    alloc: Global,
    link: &mut LinkCore,
    piece: &[u8],
    wanted: &[u64],
    count: usize,
) -> Result<bool, AllocError> {
    let mut settled = Vec::new(alloc);
    let mut pushes = Vec::new(alloc);
    let read = link.bytes(alloc, piece, &mut settled, &mut pushes).is_ok();
    Ok(read && are(settled.as_slice(), wanted) && pushes.len() == count)
}

/// Whether these messages are settled by a fault.
fn ends(alloc: Global, link: &mut LinkCore, wanted: &[u64]) -> Result<bool, AllocError> {
    let mut settled = Vec::new(alloc);
    let fault = FaultKind::Reset;
    link.fault(LinkFault::Io { fault }, &mut settled)?;
    Ok(are(settled.as_slice(), wanted))
}

/// Two messages are taken by a link of two places, and no third.
fn is_queued(alloc: Global, link: &mut LinkCore) -> Result<bool, AllocError> {
    let taken = puts(alloc, link, 7, b"abcd")? && puts(alloc, link, 8, b"xy")?;
    let full = link.is_full() && !puts(alloc, link, 9, b"z")?;
    Ok(taken && full && link.first_queued() == Some(7))
}

/// They start; both are offered until they are written.
fn is_offered(alloc: Global, link: &mut LinkCore) -> Result<bool, AllocError> {
    let started = starts(alloc, link)? == 2 && link.open_needs() == 2;
    Ok(started && offers(alloc, link, b"abcdxy")?)
}

/// They are answered, and a push comes before the first answer.
fn is_answered(alloc: Global, link: &mut LinkCore) -> Result<bool, AllocError> {
    let piece = b">1\r\n+m\r\n+OK\r\n:1";
    Ok(settles(alloc, link, piece, &[7], 1)? && settles(alloc, link, b"\r\n", &[8], 0)?)
}

/// Of two messages one is cancelled, and the other is settled as the link ends.
fn is_ended(alloc: Global, link: &mut LinkCore) -> Result<bool, AllocError> {
    let taken = puts(alloc, link, 1, b"a")? && puts(alloc, link, 2, b"b")?;
    link.cancel(2);
    Ok(taken && ends(alloc, link, &[1])?)
}

/// What a link answers to all that may happen to it.
fn is_driven(alloc: Global, link: &mut LinkCore) -> Result<bool, AllocError> {
    let offered = is_queued(alloc, link)? && is_offered(alloc, link)?;
    Ok(offered && is_answered(alloc, link)? && is_ended(alloc, link)?)
}

fn is_link_driven(alloc: Global) -> Result<bool, AllocError> {
    let mut link = LinkCore::new(alloc, 2, 1000);
    is_driven(alloc, &mut link)
}

/// So long is a message, and a text, of a megabyte.
const LONG: usize = 1_048_576;

fn is_text_of(value: &Value, len: usize) -> bool {
    match value {
        Value::BulkString(text) => text.len() == len,
        _ => false,
    }
}

/// Whether a reader gives one text that long from this piece.
fn gives_text(
    alloc: Global,
    reader: &mut Reader,
    piece: &[u8],
    len: usize,
) -> Result<bool, AllocError> {
    reader.feed(piece)?;
    let next = reader.next_value(alloc);
    let given = match &next {
        Ok(Some(value)) => is_text_of(value, len),
        _ => false,
    };
    drop(next);
    Ok(given)
}

/// Whether a new reader gives one text that long from this piece.
fn reads_text(alloc: Global, piece: &[u8], len: usize) -> Result<bool, AllocError> {
    let mut reader = Reader::new(alloc);
    gives_text(alloc, &mut reader, piece, len)
}

/// Whether a link takes over the bytes of this message.
fn takes_message(alloc: Global, packed: &mut Bytes) -> bool {
    let mut link = LinkCore::new(alloc, 1, 1);
    match link.enqueue(alloc, 7, packed, Shape::Single, false) {
        Ok(()) => link.is_full() && packed.is_empty(),
        Err(_) => false,
    }
}

/// Whether a link takes a message that long.
fn takes_long(alloc: Global, len: usize) -> Result<bool, AllocError> {
    let mut text = Bytes::from_vec(vec![in alloc; b'x'; len]?);
    Ok(takes_message(alloc, &mut text))
}

/// The bytes in which a text of a megabyte comes.
fn framed(alloc: Global) -> Result<Bytes, AllocError> {
    let mut piece = Bytes::from_slice(alloc, b"$1048576\r\n")?;
    for _ in 0..LONG {
        piece.push(b'x')?;
    }
    piece.extend_from_slice(b"\r\n")?;
    Ok(piece)
}

/// Whether a text of a megabyte is read.
fn reads_long(alloc: Global) -> Result<bool, AllocError> {
    let piece = framed(alloc)?;
    reads_text(alloc, piece.as_slice(), LONG)
}

#[test]
fn links_are_driven(rt: HostRuntime) -> Result<(), AllocError> {
    assert!(rt; is_link_driven(rt.alloc())?);
    assert!(rt; takes_long(rt.alloc(), LONG)?);
    assert!(rt; reads_long(rt.alloc())?);
    Ok(())
}
