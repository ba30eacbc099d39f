use containers::Bytes;
use script_text::{Script, ScriptError, read_script};
use std::alloc::{AllocError, Global};
use trace_text::append_config;

/// The script that has this line and nothing else.
fn script_of(alloc: Global, line: &[u8]) -> Result<Bytes, AllocError> {
    let mut text = Bytes::from_slice(alloc, line)?;
    text.extend_from_slice(b"\nend\n")?;
    Ok(text)
}

/// Whether the configuration of a script and its word are written as this line.
fn is_written(alloc: Global, script: &Script, line: &[u8]) -> Result<bool, AllocError> {
    let mut text = Bytes::new(alloc);
    append_config(alloc, &mut text, &script.config, script.word)?;
    text.extend_from_slice(b"end\n")?;
    Ok(text.as_slice() == script_of(alloc, line)?.as_slice())
}

/// Whether a line is read as a configuration that is written as the other line.
fn is_read_as(alloc: Global, line: &[u8], written: &[u8]) -> Result<bool, AllocError> {
    let text = script_of(alloc, line)?;
    match read_script(alloc, text.as_slice()) {
        Ok(script) => is_written(alloc, &script, written),
        Err(_) => Ok(false),
    }
}

/// Whether a line is at fault as the first of a script.
fn is_at_fault(alloc: Global, line: &[u8]) -> Result<bool, AllocError> {
    let text = script_of(alloc, line)?;
    match read_script(alloc, text.as_slice()) {
        Ok(_) => Ok(false),
        Err(error) => Ok(error == ScriptError::Line(1)),
    }
}

/// Lines that are written as they stand.
const LINES: [&[u8]; 10] = [
    b"config manager url=redis://h:6379/?protocol=3 connect=none response=none push=on lib=off resub=on",
    b"config lazy url=redis://h:6379 connect=none response=none lib=off retries=0",
    b"config manager url=redis://h:6379 connect=none response=none lib=off retries=1",
    b"@7 config lazy url=redis://h:6379 connect=11 response=none buffer=12 limit=13 boundary=14 push=on creds=on lib=on retries=9 min=5 max=70 base=3/2 resub=off",
    b"config manager url=redis://h retries=4294967295 min=18446744073709551615 max=18446744073709551615 base=4294967295/0",
    b"config lazy url= min=0 max=none base=0/4294967295",
    b"config manager url=redis://h",
    b"config single url=redis://h:6379 connect=none response=none lib=off",
    b"config pubsub url=redis://h lib=on",
    b"config monitor url=redis://h",
];

#[test]
fn a_line_in_order_is_written_as_it_stands(rt: HostRuntime) -> Result<(), AllocError> {
    for line in LINES {
        assert!(rt; is_read_as(rt.alloc(), line, line)?);
    }
    Ok(())
}

/// Lines whose keys are in another order, and how they are written.
const ORDERS: [(&[u8], &[u8]); 2] = [
    (
        b"config manager resub=on base=2/1 max=none min=100 retries=6 lib=on creds=off push=on boundary=8192 limit=1 buffer=50 response=500 connect=1000 url=redis://h",
        b"config manager url=redis://h connect=1000 response=500 buffer=50 limit=1 boundary=8192 push=on creds=off lib=on retries=6 min=100 max=none base=2/1 resub=on",
    ),
    (
        b"@0 config lazy retries=0 url=redis://h",
        b"config lazy url=redis://h retries=0",
    ),
];

#[test]
fn keys_are_written_in_order(rt: HostRuntime) -> Result<(), AllocError> {
    for (line, written) in ORDERS {
        assert!(rt; is_read_as(rt.alloc(), line, written)?);
    }
    Ok(())
}

/// Lines at fault.
const FAULTS: [&[u8]; 14] = [
    b"config manager retries=1",
    b"config Lazy url=redis://h",
    b"config single url=redis://h retries=1",
    b"config pubsub url=redis://h resub=on",
    b"config manager url=redis://h overall=1",
    b"config manager url=redis://h retries=1 retries=1",
    b"config manager url=redis://h retries=4294967296",
    b"config manager url=redis://h min=none",
    b"config lazy url=redis://h max=5s",
    b"config lazy url=redis://h base=2",
    b"config lazy url=redis://h base=2/1/1",
    b"config lazy url=redis://h base=2/",
    b"config lazy url=redis://h base=2/01",
    b"config lazy url=redis://h resub=yes",
];

#[test]
fn what_is_no_configuration_is_at_fault(rt: HostRuntime) -> Result<(), AllocError> {
    for line in FAULTS {
        assert!(rt; is_at_fault(rt.alloc(), line)?);
    }
    Ok(())
}
