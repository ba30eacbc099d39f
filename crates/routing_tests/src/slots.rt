use containers::Bytes;
use slot_hash::{AddressError, NodeAddress, key_slot};
use std::alloc::{AllocError, Global};
use std::cmp::Ordering;

/// Keys with their slots: the check value of CRC-16/XMODEM is 31C3, and the hash tags are those of the public
/// specification of the cluster.
const SLOTS: [(&[u8], u16); 11] = [
    (b"", 0),
    (b"123456789", 0x31C3),
    (b"foo", 12182),
    (b"baz", 4813),
    (b"{foo}bar", 12182),
    (b"{user1000}.following", 3443),
    (b"{user1000}.followers", 3443),
    (b"foo{}{bar}", 8363),
    (b"foo{{bar}}zap", 4015),
    (b"foo{bar}{zap}", 5061),
    (b"a}b{c}d", 7365),
];

#[test]
fn keys_have_slots(rt: HostRuntime) {
    for row in &SLOTS {
        assert_eq!(rt; key_slot(row.0), row.1);
    }
}

/// Keys, each with the key of its hash tag.
const TAGS: [(&[u8], &[u8]); 3] = [
    (b"a}b{c}d", b"c"),
    (b"foo{bar}{zap}", b"bar"),
    (b"foo{{bar}}zap", b"{bar"),
];

#[test]
fn keys_have_the_slots_of_their_tags(rt: HostRuntime) {
    for row in &TAGS {
        assert_eq!(rt; key_slot(row.0), key_slot(row.1));
    }
}

/// Texts with the host and the port of the address that they are.
const ADDRESSES: [(&[u8], &[u8], u16); 7] = [
    (b"dead::cafe:beef:30001", b"dead::cafe:beef", 30001),
    (
        b"[fe80::cafe:beef%en1]:30001",
        b"fe80::cafe:beef%en1",
        30001,
    ),
    (b"127.0.0.1:60", b"127.0.0.1", 60),
    (b"h:0", b"h", 0),
    (b"h:65535", b"h", 65535),
    (b"h:065535", b"h", 65535),
    (b"[a:1", b"[a", 1),
];

/// Texts that are no addresses.
const NO_ADDRESSES: [&[u8]; 9] = [
    b"h:65536", b"h:", b"h:+1", b"h:1a", b"h", b"", b":0", b"[]:6379", b"\xFF:1",
];

fn is_address(address: &NodeAddress, wanted: &(&[u8], u16)) -> bool {
    address.host.as_slice() == wanted.0 && address.port == wanted.1
}

/// Whether a copy of an address has that host and that port.
fn copy_is_address(
    alloc: Global,
    address: &NodeAddress,
    wanted: &(&[u8], u16),
) -> Result<bool, AllocError> {
    let copy = address.clone(alloc)?;
    Ok(is_address(&copy, wanted))
}

/// Whether an address and its copy have that host and that port.
fn are_addresses(
    alloc: Global,
    address: &NodeAddress,
    wanted: &Option<(&[u8], u16)>,
) -> Result<bool, AllocError> {
    match wanted {
        Some(wanted) => {
            let same = is_address(address, wanted);
            Ok(copy_is_address(alloc, address, wanted)? && same)
        }
        None => Ok(false),
    }
}

/// Whether a text is the address that is wanted, or is refused where none is.
fn is_answer(
    alloc: Global,
    text: &[u8],
    wanted: &Option<(&[u8], u16)>,
) -> Result<bool, AllocError> {
    match NodeAddress::try_from(alloc, text) {
        Ok(address) => are_addresses(alloc, &address, wanted),
        Err(error) => Ok(wanted.is_none() && matches!(error, AddressError::Invalid)),
    }
}

#[test]
fn texts_are_addresses(rt: HostRuntime) -> Result<(), AllocError> {
    for row in &ADDRESSES {
        assert!(rt; is_answer(rt.alloc(), row.0, &Some((row.1, row.2)))?);
    }
    Ok(())
}

#[test]
fn other_texts_are_no_addresses(rt: HostRuntime) -> Result<(), AllocError> {
    for text in &NO_ADDRESSES {
        assert!(rt; is_answer(rt.alloc(), text, &None)?);
    }
    Ok(())
}

/// The text of the address that a text is.
fn text_again(alloc: Global, text: &[u8]) -> Result<Option<Bytes>, AllocError> {
    match NodeAddress::try_from(alloc, text) {
        Ok(address) => Ok(Some(address.text(alloc)?)),
        Err(_) => Ok(None),
    }
}

fn has_text(alloc: Global, text: &[u8], wanted: &[u8]) -> Result<bool, AllocError> {
    match text_again(alloc, text)? {
        Some(text) => Ok(text.as_slice() == wanted),
        None => Ok(false),
    }
}

#[test]
fn addresses_have_texts(rt: HostRuntime) -> Result<(), AllocError> {
    assert!(rt; has_text(rt.alloc(), b"h:065535", b"h:65535")?);
    assert!(rt; has_text(rt.alloc(), b"[::1]:6379", b"::1:6379")?);
    Ok(())
}

/// How two addresses stand to each other, if they are addresses.
fn order(alloc: Global, one: &[u8], other: &[u8]) -> Result<Option<Ordering>, AllocError> {
    let one = NodeAddress::try_from(alloc, one);
    let other = NodeAddress::try_from(alloc, other);
    match (&one, &other) {
        (Ok(one), Ok(other)) => Ok(Some(one.cmp(other))),
        _ => Ok(None),
    }
}

/// Two addresses, and how the first stands to the second.
const ORDERS: [(&[u8], &[u8], Ordering); 3] = [
    (b"a:2", b"b:1", Ordering::Less),
    (b"a:10", b"a:9", Ordering::Greater),
    (b"a:1", b"a:1", Ordering::Equal),
];

#[test]
fn addresses_have_an_order(rt: HostRuntime) -> Result<(), AllocError> {
    for row in &ORDERS {
        assert!(rt; order(rt.alloc(), row.0, row.1)? == Some(row.2));
    }
    Ok(())
}
