use mux_routing::{SlotRow, SlotRows, parse_slots};
use resp_read::{ReadError, Reader};
use resp_value::Value;
use std::alloc::{AllocError, Global};

/// What a server of version 7 answers to CLUSTER SLOTS on RESP2: each node with its id and an array of metadata. The
/// first row's replica is unknown, the second row's primary has an IPv6 address, and the third row's primary is unknown.
const RESP2: &[u8] = b"*3\r\n\
    *4\r\n:0\r\n:5460\r\n\
    *4\r\n$9\r\n127.0.0.1\r\n:30001\r\n$40\r\n09dbe9720cda62f7865eabc5fd8857c5d2678366\r\n\
    *2\r\n$8\r\nhostname\r\n$10\r\nhost-1.com\r\n\
    *4\r\n$1\r\n?\r\n:30004\r\n$40\r\n821d8ca00d7ccf931ed3ffc7e3db0599d2271abf\r\n*0\r\n\
    *4\r\n:5461\r\n:10922\r\n\
    *4\r\n$11\r\n2001:db8::2\r\n:30002\r\n$40\r\nc9d93d9f2c0c524ff34cc11838c2003d8c29e013\r\n*0\r\n\
    *4\r\n$-1\r\n:30005\r\n$40\r\nfaadb3eb99009de4ab72ad6b6ed87634c7ee410f\r\n*0\r\n\
    *3\r\n:10923\r\n:16383\r\n\
    *4\r\n$1\r\n?\r\n:30003\r\n$40\r\n044ec91f325b7595e76dbcb18cc688b6a5b434a1\r\n*0\r\n";

/// The same on RESP3, where the metadata is a map.
const RESP3: &[u8] = b"*3\r\n\
    *4\r\n:0\r\n:5460\r\n\
    *4\r\n$9\r\n127.0.0.1\r\n:30001\r\n$40\r\n09dbe9720cda62f7865eabc5fd8857c5d2678366\r\n\
    %1\r\n$8\r\nhostname\r\n$10\r\nhost-1.com\r\n\
    *4\r\n$1\r\n?\r\n:30004\r\n$40\r\n821d8ca00d7ccf931ed3ffc7e3db0599d2271abf\r\n%0\r\n\
    *4\r\n:5461\r\n:10922\r\n\
    *4\r\n$11\r\n2001:db8::2\r\n:30002\r\n$40\r\nc9d93d9f2c0c524ff34cc11838c2003d8c29e013\r\n%0\r\n\
    *4\r\n_\r\n:30005\r\n$40\r\nfaadb3eb99009de4ab72ad6b6ed87634c7ee410f\r\n%0\r\n\
    *3\r\n:10923\r\n:16383\r\n\
    *4\r\n$1\r\n?\r\n:30003\r\n$40\r\n044ec91f325b7595e76dbcb18cc688b6a5b434a1\r\n%0\r\n";

/// The value that some bytes are.
fn value(alloc: Global, bytes: &[u8]) -> Result<Option<Value>, AllocError> {
    let mut reader = Reader::new(alloc);
    reader.feed(bytes)?;
    match reader.next_value(alloc) {
        Ok(value) => Ok(value),
        Err(ReadError::Parse) => Ok(None),
        Err(ReadError::NoMemory) => Err(AllocError),
    }
}

/// The rows that the bytes of a reply give, where they are a reply of that shape.
fn rows_in(alloc: Global, bytes: &[u8]) -> Result<Option<SlotRows>, AllocError> {
    let Some(reply) = value(alloc, bytes)? else {
        return Ok(None);
    };
    let told = parse_slots(alloc, &reply, b"answer.host");
    drop(reply);
    match told {
        Ok(rows) => Ok(Some(rows)),
        Err(_) => Ok(None),
    }
}

fn is_row(row: &SlotRow, slots: (u16, u16), host: &[u8], port: u16, replicas: &[&[u8]]) -> bool {
    let hosts = row.replicas.as_slice();
    (row.start, row.end) == slots
        && row.primary.host.as_slice() == host
        && row.primary.port == port
        && hosts.len() == replicas.len()
        && hosts
            .iter()
            .zip(replicas)
            .all(|pair| pair.0.host.as_slice() == *pair.1)
}

fn are_rows(rows: &[SlotRow]) -> bool {
    match rows {
        [first, second] => {
            is_row(first, (0, 5460), b"127.0.0.1", 30001, &[])
                && is_row(
                    second,
                    (5461, 10922),
                    b"2001:db8::2",
                    30002,
                    &[b"answer.host"],
                )
        }
        _ => false,
    }
}

/// Whether the bytes of a reply give the rows of the nodes that are known.
fn gives_rows(alloc: Global, bytes: &[u8]) -> Result<bool, AllocError> {
    match rows_in(alloc, bytes)? {
        Some(rows) => Ok(are_rows(rows.as_slice())),
        None => Ok(false),
    }
}

#[test]
fn replies_of_each_protocol_have_rows(rt: HostRuntime) -> Result<(), AllocError> {
    assert!(rt; gives_rows(rt.alloc(), RESP2)?);
    assert!(rt; gives_rows(rt.alloc(), RESP3)?);
    Ok(())
}
