//! Reads replies that come in pieces, and prints the canonical text of each as soon as it is whole.

use mux_resp::{ReadError, Reader, canonical_text};
use std::alloc::Global;
use std::io;

/// A map of two pairs and then a number, as a link may have cut them.
const PIECES: [&[u8]; 4] = [
    b"%2\r\n+first\r\n:1\r",
    b"\n+second\r\n",
    b":2\r\n:",
    b"3\r\n",
];

/// The canonical texts of the replies that are whole once `piece` has come.
fn texts_after(alloc: Global, reader: &mut Reader, piece: &[u8]) -> Result<Vec<u8>, ReadError> {
    reader.feed(piece)?;
    let mut texts = Vec::new(alloc);
    for _ in 0..u64::MAX {
        let Some(reply) = reader.next_value(alloc)? else {
            break;
        };
        let text = canonical_text(alloc, &reply)?;
        texts.extend_from_slice(text.as_slice())?;
    }
    Ok(texts)
}

/// Prints each piece, and what is read once it has come.
pub fn print_replies(rt: &impl Print, alloc: Global) -> io::Result<()> {
    let mut reader = Reader::new(alloc);
    for piece in &PIECES {
        println!(rt; "came {}", piece.escape_ascii())?;
        match texts_after(alloc, &mut reader, piece) {
            Ok(texts) if texts.is_empty() => println!(rt; "read nothing")?,
            Ok(texts) => println!(rt; "read {}", texts.escape_ascii())?,
            Err(ReadError::Parse) => println!(rt; "this begins no reply")?,
            Err(ReadError::NoMemory) => println!(rt; "no memory")?,
        }
    }
    Ok(())
}
