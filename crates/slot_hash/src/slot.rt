ghost use Rattle.std.specs.Prelude.{◌≡◌, ◌≤◌, ◌<◌, ◌^◌, length};
ghost use Rattle.slot_hash.specs.Crc.{after_byte, crc16};
ghost use Rattle.slot_hash.specs.Tag.{place, hashed, slot_of};

use crate::table::TABLE;

/// How many slots there are.
const SLOT_COUNT: u16 = 16_384;

/// The register after one byte, from a register of zeros.
#[tactic(auto, using(crate::proofs::Entries::table_entry))]
fn entry(byte: u8) -> u16
    ensures { result ≡ after_byte 0 byte }
{
    let table: &[u16] = &TABLE;
    table[usize::from(byte)]
}

/// The register after one byte more.
#[tactic(auto, using(crate::proofs::Register::by_upper_half))]
fn after_byte(crc: u16, byte: u8) -> u16
    ensures { result ≡ after_byte crc byte }
{
    (crc << 8) ^ entry((crc >> 8) as u8 ^ byte)
}

/// The CRC-16/XMODEM of some bytes.
fn crc16(bytes: &[u8]) -> u16
    ensures { result ≡ crc16 bytes.now }
{
    let mut crc = 0;
    for byte in bytes {
        crc = after_byte(crc, *byte);
    }
    crc
}

/// The place of a byte's first occurrence, or the length where it has none.
fn place(bytes: &[u8], wanted: u8) -> usize
    ensures is { result ≡ place wanted bytes.now }
    ensures bound { result ≤ length bytes.now }
{
    for (i, byte) in bytes.iter().enumerate() {
        if *byte == wanted {
            return i;
        }
    }
    bytes.len()
}

/// The bytes of a key that decide its slot.
fn hashed(key: &[u8]) -> &[u8]
    ensures { result.now ≡ hashed key.now }
{
    let open = place(key, b'{');
    if open == key.len() {
        return key;
    }
    let rest = &key[open + 1..];
    let close = place(rest, b'}');
    if close == 0 || close == rest.len() {
        return key;
    }
    &rest[..close]
}

/// The slot of a key: the CRC-16/XMODEM of its hash tag, or of the whole key where it has none.
pub fn key_slot(key: &[u8]) -> u16
    ensures is { result ≡ slot_of key.now }
    ensures bound { result < 2 ^ 14 }
{
    crc16(hashed(key)) % SLOT_COUNT
}
