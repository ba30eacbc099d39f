use containers::{Bytes, Names};
use resp_write::{Cmd, ToRedisArgs};
use std::alloc::{AllocError, Global};

/// Whether these are the arguments of the command.
fn has_args(command: &Cmd, wanted: &[&[u8]]) -> bool {
    let mut left = command.args_iter();
    for wanted in wanted {
        match left.next() {
            Some(arg) if arg == *wanted => {}
            _ => return false,
        }
    }
    left.next().is_none()
}

/// Whether the value becomes these arguments.
fn is_written<T: ToRedisArgs>(
    alloc: Global,
    value: &T,
    wanted: &[&[u8]],
) -> Result<bool, AllocError> {
    let mut command = Cmd::new(alloc);
    value.write_redis_args(alloc, &mut command)?;
    Ok(has_args(&command, wanted))
}

/// Whether each value becomes the arguments beside it.
fn are_written<T: ToRedisArgs>(alloc: Global, rows: &[(T, &[&[u8]])]) -> Result<bool, AllocError> {
    for row in rows {
        if !is_written(alloc, &row.0, row.1)? {
            return Ok(false);
        }
    }
    Ok(true)
}

const TRUTHS: [(bool, &[&[u8]]); 2] = [(true, &[b"1"]), (false, &[b"0"])];

const I8: [(i8, &[&[u8]]); 3] = [(-128, &[b"-128"]), (0, &[b"0"]), (127, &[b"127"])];

const I16: [(i16, &[&[u8]]); 2] = [(-32_768, &[b"-32768"]), (32_767, &[b"32767"])];

const I32: [(i32, &[&[u8]]); 2] = [
    (-2_147_483_648, &[b"-2147483648"]),
    (2_147_483_647, &[b"2147483647"]),
];

const I64: [(i64, &[&[u8]]); 3] = [
    (-9_223_372_036_854_775_808, &[b"-9223372036854775808"]),
    (-1, &[b"-1"]),
    (9_223_372_036_854_775_807, &[b"9223372036854775807"]),
];

const ISIZE: [(isize, &[&[u8]]); 2] = [(-10, &[b"-10"]), (10, &[b"10"])];

const U8: [(u8, &[&[u8]]); 2] = [(0, &[b"0"]), (255, &[b"255"])];

const U16: [(u16, &[&[u8]]); 1] = [(65_535, &[b"65535"])];

const U32: [(u32, &[&[u8]]); 1] = [(4_294_967_295, &[b"4294967295"])];

const U64: [(u64, &[&[u8]]); 1] = [(18_446_744_073_709_551_615, &[b"18446744073709551615"])];

const USIZE: [(usize, &[&[u8]]); 2] = [(0, &[b"0"]), (100, &[b"100"])];

const FLOATS: [(f64, &[&[u8]]); 10] = [
    (1.5, &[b"1.5"]),
    (0.1, &[b"0.1"]),
    (-0.0, &[b"-0.0"]),
    (100.0, &[b"100.0"]),
    (0.30000000000000004, &[b"0.30000000000000004"]),
    (1e21, &[b"1e21"]),
    (-2.5e-300, &[b"-2.5e-300"]),
    (f64::INFINITY, &[b"inf"]),
    (f64::NEG_INFINITY, &[b"-inf"]),
    (f64::NAN, &[b"NaN"]),
];

fn are_small_written(alloc: Global) -> Result<bool, AllocError> {
    Ok(are_written(alloc, &I8)? && are_written(alloc, &I16)? && are_written(alloc, &I32)?)
}

fn are_large_written(alloc: Global) -> Result<bool, AllocError> {
    Ok(are_written(alloc, &I64)? && are_written(alloc, &ISIZE)? && are_written(alloc, &FLOATS)?)
}

fn are_small_counts_written(alloc: Global) -> Result<bool, AllocError> {
    Ok(are_written(alloc, &TRUTHS)? && are_written(alloc, &U8)? && are_written(alloc, &U16)?)
}

fn are_large_counts_written(alloc: Global) -> Result<bool, AllocError> {
    Ok(are_written(alloc, &U32)? && are_written(alloc, &U64)? && are_written(alloc, &USIZE)?)
}

const TEXTS: [(&str, &[&[u8]]); 2] = [("", &[b""]), ("yz", &[b"yz"])];

const BYTES: [(&[u8], &[&[u8]]); 2] = [(b"", &[b""]), (b"X\r\n", &[b"X\r\n"])];

const OPTIONS: [(Option<u16>, &[&[u8]]); 2] = [(None, &[]), (Some(7), &[b"7"])];

const NUMBERS: [(&[i64], &[&[u8]]); 2] = [(&[], &[]), (&[3, -4], &[b"3", b"-4"])];

const KEYS: [(&[&str], &[&[u8]]); 1] = [(&["a", "", "b"], &[b"a", b"", b"b"])];

const LEFT_OUT: [(&[Option<bool>], &[&[u8]]); 1] = [(&[None, Some(true), None], &[b"1"])];

fn are_texts_written(alloc: Global) -> Result<bool, AllocError> {
    Ok(are_written(alloc, &TEXTS)? && are_written(alloc, &BYTES)? && are_written(alloc, &OPTIONS)?)
}

fn are_lists_written(alloc: Global) -> Result<bool, AllocError> {
    Ok(
        are_written(alloc, &NUMBERS)?
            && are_written(alloc, &KEYS)?
            && are_written(alloc, &LEFT_OUT)?,
    )
}

fn are_bytes_written(alloc: Global, bytes: &[u8]) -> Result<bool, AllocError> {
    let owned = Bytes::from_slice(alloc, bytes)?;
    is_written(alloc, &owned, &[bytes])
}

fn is_vector_written(alloc: Global, bytes: &[u8]) -> Result<bool, AllocError> {
    let vector = Vec::from_slice(alloc, bytes)?;
    is_written(alloc, &vector, &[bytes])
}

fn is_string_written(alloc: Global, text: &str) -> Result<bool, AllocError> {
    let string = String::from_str(alloc, text)?;
    is_written(alloc, &string, &[text.as_bytes()])
}

fn are_elements_written(alloc: Global, wanted: &[&[u8]]) -> Result<bool, AllocError> {
    let vector = Vec::from_slice(alloc, &[5u16, 6])?;
    is_written(alloc, &vector, wanted)
}

fn are_names_written(alloc: Global, wanted: &[&[u8]]) -> Result<bool, AllocError> {
    let names = Names::from_slices(alloc, wanted)?;
    is_written(alloc, &names, wanted)
}

fn are_owned_texts_written(alloc: Global) -> Result<bool, AllocError> {
    Ok(
        are_bytes_written(alloc, b"a\0")?
            && is_vector_written(alloc, b"12")?
            && is_string_written(alloc, "12")?,
    )
}

fn are_owned_lists_written(alloc: Global) -> Result<bool, AllocError> {
    Ok(are_elements_written(alloc, &[b"5", b"6"])? && are_names_written(alloc, &[b"n", b""])?)
}

const TWO: [((&str, u32), &[&[u8]]); 1] = [(("EX", 5), &[b"EX", b"5"])];

const THREE: [((u8, &str, i8), &[&[u8]]); 1] = [((1, "a", -1), &[b"1", b"a", b"-1"])];

const FOUR: [((bool, bool, Option<u8>, &str), &[&[u8]]); 1] = [(
    (true, false, None, "x"),
    &[b"1", b"0", b"x"],
)];

const FIVE: [((u8, u8, u8, u8, u8), &[&[u8]]); 1] = [(
    (1, 2, 3, 4, 5),
    &[b"1", b"2", b"3", b"4", b"5"],
)];

const SIX: [((&str, (&str, u8), &str, &str, &str, &str), &[&[u8]]); 1] = [(
    ("a", ("b", 1), "c", "d", "e", "f"),
    &[b"a", b"b", b"1", b"c", b"d", b"e", b"f"],
)];

const SCORES: [(&[(f64, &str)], &[&[u8]]); 1] = [(
    &[(1.5, "a"), (-2.0, "b")],
    &[b"1.5", b"a", b"-2.0", b"b"],
)];

fn are_short_tuples_written(alloc: Global) -> Result<bool, AllocError> {
    Ok(are_written(alloc, &TWO)? && are_written(alloc, &THREE)? && are_written(alloc, &FOUR)?)
}

fn are_long_tuples_written(alloc: Global) -> Result<bool, AllocError> {
    Ok(are_written(alloc, &FIVE)? && are_written(alloc, &SIX)? && are_written(alloc, &SCORES)?)
}

fn are_numbers_written(alloc: Global) -> Result<bool, AllocError> {
    Ok(are_small_written(alloc)? && are_large_written(alloc)?)
}

fn are_counts_written(alloc: Global) -> Result<bool, AllocError> {
    Ok(are_small_counts_written(alloc)? && are_large_counts_written(alloc)?)
}

#[test]
fn numbers_become_arguments(rt: HostRuntime) -> Result<(), AllocError> {
    assert!(rt; are_numbers_written(rt.alloc())?);
    assert!(rt; are_counts_written(rt.alloc())?);
    Ok(())
}

fn are_lent_written(alloc: Global) -> Result<bool, AllocError> {
    Ok(are_texts_written(alloc)? && are_lists_written(alloc)?)
}

fn are_owned_written(alloc: Global) -> Result<bool, AllocError> {
    Ok(are_owned_texts_written(alloc)? && are_owned_lists_written(alloc)?)
}

fn are_tuples_written(alloc: Global) -> Result<bool, AllocError> {
    Ok(are_short_tuples_written(alloc)? && are_long_tuples_written(alloc)?)
}

#[test]
fn texts_and_lists_become_arguments(rt: HostRuntime) -> Result<(), AllocError> {
    assert!(rt; are_lent_written(rt.alloc())?);
    assert!(rt; are_owned_written(rt.alloc())?);
    assert!(rt; are_tuples_written(rt.alloc())?);
    Ok(())
}
