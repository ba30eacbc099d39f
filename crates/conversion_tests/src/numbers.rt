use crate::rows::{Row, are};
use std::alloc::{AllocError, Global};

const I8: [Row; 2] = [
    (b":-128\r\n", "Ok(-128)"),
    (b":128\r\n", "Err(Convert { value: int(128) })"),
];

const I16: [Row; 2] = [
    (b":-32768\r\n", "Ok(-32768)"),
    (b":-32769\r\n", "Err(Convert { value: int(-32769) })"),
];

const I32: [Row; 2] = [
    (b":-2147483648\r\n", "Ok(-2147483648)"),
    (
        b":2147483648\r\n",
        "Err(Convert { value: int(2147483648) })",
    ),
];

const ISIZE: [Row; 1] = [(b":-7\r\n", "Ok(-7)")];

/// Numbers of 64 bits: as they are, in decimal, and behind attributes; texts of no such number; and other forms.
const I64: [Row; 20] = [
    (b":-3\r\n", "Ok(-3)"),
    (b"$1\r\n0\r\n", "Ok(0)"),
    (b"$3\r\n-12\r\n", "Ok(-12)"),
    (b"$4\r\n+007\r\n", "Ok(7)"),
    (b"$19\r\n9223372036854775807\r\n", "Ok(9223372036854775807)"),
    (
        b"$20\r\n-9223372036854775808\r\n",
        "Ok(-9223372036854775808)",
    ),
    (b"|1\r\n+OK\r\n:9\r\n|1\r\n+OK\r\n:9\r\n:7\r\n", "Ok(7)"),
    (
        b"|1\r\n+OK\r\n:9\r\n_\r\n",
        "Err(Convert { value: attribute(nil; ok: int(9)) })",
    ),
    (b"$0\r\n\r\n", "Err(Convert { value: bulk-string(\"\") })"),
    (b"$1\r\n-\r\n", "Err(Convert { value: bulk-string(\"-\") })"),
    (b"$1\r\n+\r\n", "Err(Convert { value: bulk-string(\"+\") })"),
    (
        b"$2\r\n 1\r\n",
        "Err(Convert { value: bulk-string(\" 1\") })",
    ),
    (
        b"$2\r\n1x\r\n",
        "Err(Convert { value: bulk-string(\"1x\") })",
    ),
    (
        b"$3\r\n--1\r\n",
        "Err(Convert { value: bulk-string(\"--1\") })",
    ),
    (
        b"$19\r\n9223372036854775808\r\n",
        "Err(Convert { value: bulk-string(\"9223372036854775808\") })",
    ),
    (
        b"$1\r\n\xff\r\n",
        "Err(Convert { value: bulk-string(\"\\xff\") })",
    ),
    (b"+OK\r\n", "Err(Convert { value: ok })"),
    (b"#t\r\n", "Err(Convert { value: boolean(true) })"),
    (b"_\r\n", "Err(Convert { value: nil })"),
    (
        b"-ERR no\r\n",
        "Err(Convert { value: server-error(\"ERR\", \"no\") })",
    ),
];

const U8: [Row; 3] = [
    (b":255\r\n", "Ok(255)"),
    (b":256\r\n", "Err(Convert { value: int(256) })"),
    (b":-1\r\n", "Err(Convert { value: int(-1) })"),
];

const U16: [Row; 2] = [
    (b":65535\r\n", "Ok(65535)"),
    (b":65536\r\n", "Err(Convert { value: int(65536) })"),
];

const U32: [Row; 2] = [
    (b":4294967295\r\n", "Ok(4294967295)"),
    (
        b":4294967296\r\n",
        "Err(Convert { value: int(4294967296) })",
    ),
];

const U64: [Row; 5] = [
    (b":7\r\n", "Ok(7)"),
    (b":-1\r\n", "Err(Convert { value: int(-1) })"),
    (
        b"$20\r\n18446744073709551615\r\n",
        "Ok(18446744073709551615)",
    ),
    (
        b"$20\r\n18446744073709551616\r\n",
        "Err(Convert { value: bulk-string(\"18446744073709551616\") })",
    ),
    (
        b"$2\r\n-1\r\n",
        "Err(Convert { value: bulk-string(\"-1\") })",
    ),
];

const USIZE: [Row; 2] = [
    (b":7\r\n", "Ok(7)"),
    (b":-1\r\n", "Err(Convert { value: int(-1) })"),
];

const TRUTHS: [Row; 6] = [
    (b"#f\r\n", "Ok(false)"),
    (b":0\r\n", "Ok(false)"),
    (b":1\r\n", "Ok(true)"),
    (b":2\r\n", "Err(Convert { value: int(2) })"),
    (b":-1\r\n", "Err(Convert { value: int(-1) })"),
    (b"$1\r\n1\r\n", "Err(Convert { value: bulk-string(\"1\") })"),
];

/// Whole numbers, doubles and texts of numbers, with the floats that are nearest to them; texts of no number; other forms.
const FLOATS: [Row; 36] = [
    (b":-3\r\n", "Ok(-3.0)"),
    (b":9007199254740993\r\n", "Ok(9007199254740992.0)"),
    (b",1.5\r\n", "Ok(1.5)"),
    (b",-12\r\n", "Ok(-12.0)"),
    (b",1e3\r\n", "Ok(1000.0)"),
    (b",25E-1\r\n", "Ok(2.5)"),
    (b",9007199254740993\r\n", "Ok(9007199254740992.0)"),
    (b",inf\r\n", "Ok(inf)"),
    (b",-inf\r\n", "Ok(-inf)"),
    (b",nan\r\n", "Ok(NaN)"),
    (b"|1\r\n+OK\r\n:9\r\n,2.5\r\n", "Ok(2.5)"),
    (b"+0.25\r\n", "Ok(0.25)"),
    (b"=7\r\ntxt:2.5\r\n", "Ok(2.5)"),
    (b"|1\r\n+OK\r\n:9\r\n$3\r\n2.5\r\n", "Ok(2.5)"),
    (b"$3\r\n1.5\r\n", "Ok(1.5)"),
    (b"$3\r\n-12\r\n", "Ok(-12.0)"),
    (b"$4\r\n+007\r\n", "Ok(7.0)"),
    (b"$3\r\n1e3\r\n", "Ok(1000.0)"),
    (b"$5\r\n25E-1\r\n", "Ok(2.5)"),
    (b"$2\r\n.5\r\n", "Ok(0.5)"),
    (b"$2\r\n5.\r\n", "Ok(5.0)"),
    (b"$3\r\ninf\r\n", "Ok(inf)"),
    (b"$4\r\n-inf\r\n", "Ok(-inf)"),
    (b"$0\r\n\r\n", "Err(Convert { value: bulk-string(\"\") })"),
    (b"$1\r\n-\r\n", "Err(Convert { value: bulk-string(\"-\") })"),
    (b"$1\r\n.\r\n", "Err(Convert { value: bulk-string(\".\") })"),
    (
        b"$2\r\n 1\r\n",
        "Err(Convert { value: bulk-string(\" 1\") })",
    ),
    (
        b"$2\r\n1 \r\n",
        "Err(Convert { value: bulk-string(\"1 \") })",
    ),
    (
        b"$2\r\n1e\r\n",
        "Err(Convert { value: bulk-string(\"1e\") })",
    ),
    (
        b"$3\r\n--1\r\n",
        "Err(Convert { value: bulk-string(\"--1\") })",
    ),
    (
        b"$4\r\n0x10\r\n",
        "Err(Convert { value: bulk-string(\"0x10\") })",
    ),
    (
        b"$1\r\n\xff\r\n",
        "Err(Convert { value: bulk-string(\"\\xff\") })",
    ),
    (b"_\r\n", "Err(Convert { value: nil })"),
    (b"+OK\r\n", "Err(Convert { value: ok })"),
    (b"#t\r\n", "Err(Convert { value: boolean(true) })"),
    (b"(12\r\n", "Err(Convert { value: big-number(12) })"),
];

fn are_small_read(alloc: Global) -> Result<bool, AllocError> {
    Ok(are::<i8>(alloc, &I8)? && are::<i16>(alloc, &I16)? && are::<i32>(alloc, &I32)?)
}

fn are_small_counts_read(alloc: Global) -> Result<bool, AllocError> {
    Ok(are::<u8>(alloc, &U8)? && are::<u16>(alloc, &U16)? && are::<u32>(alloc, &U32)?)
}

fn are_large_counts_read(alloc: Global) -> Result<bool, AllocError> {
    Ok(are::<u64>(alloc, &U64)? && are::<usize>(alloc, &USIZE)? && are::<isize>(alloc, &ISIZE)?)
}

#[test]
fn small_numbers_and_counts_are_read(rt: HostRuntime) -> Result<(), AllocError> {
    let alloc = rt.alloc();
    assert!(rt; are_small_read(alloc)?);
    assert!(rt; are_small_counts_read(alloc)?);
    assert!(rt; are_large_counts_read(alloc)?);
    Ok(())
}

#[test]
fn numbers_truths_and_floats_are_read(rt: HostRuntime) -> Result<(), AllocError> {
    let alloc = rt.alloc();
    assert!(rt; are::<i64>(alloc, &I64)?);
    assert!(rt; are::<bool>(alloc, &TRUTHS)?);
    assert!(rt; are::<f64>(alloc, &FLOATS)?);
    Ok(())
}
