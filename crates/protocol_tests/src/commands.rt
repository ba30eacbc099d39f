use crate::making::has_bytes;
use containers::Names;
use resp_write::{Cmd, Pipeline, cmd, pack_lists, pipe};
use std::alloc::{AllocError, Global};

/// Whether the copy of a transaction has these bytes.
fn is_copied(alloc: Global, pipeline: &Pipeline, wanted: &[u8]) -> Result<bool, AllocError> {
    let copy = pipeline.clone(alloc)?;
    Ok(copy.is_transaction() && has_bytes(alloc, &copy, wanted)?)
}

/// SET k 1, by the command that is lent.
fn add_set(alloc: Global, pipeline: &mut Pipeline) -> Result<(), AllocError> {
    let set = pipeline.cmd(alloc, b"SET")?;
    set.arg(alloc, b"k")?;
    set.arg(alloc, b"1")
}

/// SET k 1, a command without arguments, and PING, of which the last is marked.
fn fill(alloc: Global, pipeline: &mut Pipeline) -> Result<(), AllocError> {
    add_set(alloc, pipeline)?;
    pipeline.add_command(Cmd::new(alloc))?;
    pipeline.add_command(cmd(alloc, b"PING")?)?;
    pipeline.ignore();
    Ok(())
}

/// The bytes with and without a transaction, of a copy too.
fn is_filled(alloc: Global, pipeline: &mut Pipeline) -> Result<bool, AllocError> {
    fill(alloc, pipeline)?;
    let plain = b"*3\r\n$3\r\nSET\r\n$1\r\nk\r\n$1\r\n1\r\n*1\r\n$4\r\nPING\r\n";
    let without = has_bytes(alloc, pipeline, plain)?;
    pipeline.atomic();
    let framed =
        b"*1\r\n$5\r\nMULTI\r\n*3\r\n$3\r\nSET\r\n$1\r\nk\r\n$1\r\n1\r\n*1\r\n$4\r\nPING\r\n*1\r\n$4\r\nEXEC\r\n";
    let within = is_copied(alloc, pipeline, framed)?;
    Ok(without && within && pipeline.len() == 3)
}

fn is_pipeline_packed(alloc: Global) -> Result<bool, AllocError> {
    let mut pipeline = pipe(alloc);
    is_filled(alloc, &mut pipeline)
}

/// The bytes of a transaction without commands, and of one of a command without arguments.
fn is_framed(alloc: Global, pipeline: &mut Pipeline) -> Result<bool, AllocError> {
    pipeline.ignore();
    pipeline.atomic();
    let none = has_bytes(alloc, pipeline, b"")? && pipeline.is_empty();
    pipeline.add_command(Cmd::new(alloc))?;
    let frame: &[u8] = b"*1\r\n$5\r\nMULTI\r\n*1\r\n$4\r\nEXEC\r\n";
    Ok(none && has_bytes(alloc, pipeline, frame)?)
}

fn is_empty_packed(alloc: Global) -> Result<bool, AllocError> {
    let mut pipeline = Pipeline::new(alloc);
    is_framed(alloc, &mut pipeline)
}

/// Whether a command that wants no answer has these bytes.
fn is_packed(alloc: Global, command: &Cmd, wanted: &[u8]) -> Result<bool, AllocError> {
    let packed = command.get_packed_command(alloc)?;
    Ok(command.is_no_response() && packed.as_slice() == wanted)
}

/// Whether GET, which wants no answer, has its bytes in a copy.
fn is_get_copied(alloc: Global) -> Result<bool, AllocError> {
    let mut get = cmd(alloc, b"GET")?;
    get.arg(alloc, b"a\r\n")?;
    get.set_no_response(true);
    let copy = get.clone(alloc)?;
    is_packed(alloc, &copy, b"*2\r\n$3\r\nGET\r\n$3\r\na\r\n\r\n")
}

/// Whether a list of words is packed into these bytes as a transaction.
fn is_list_packed(alloc: Global) -> Result<bool, AllocError> {
    let list = [Names::from_slices(alloc, &[b"GET", b""])?];
    let packed = pack_lists(alloc, true, &list)?;
    let wanted: &[u8] = b"*1\r\n$5\r\nMULTI\r\n*2\r\n$3\r\nGET\r\n$0\r\n\r\n*1\r\n$4\r\nEXEC\r\n";
    Ok(packed.as_slice() == wanted)
}

#[test]
fn commands_have_bytes(rt: HostRuntime) -> Result<(), AllocError> {
    assert!(rt; is_get_copied(rt.alloc())?);
    assert!(rt; is_list_packed(rt.alloc())?);
    Ok(())
}

#[test]
fn pipelines_have_bytes(rt: HostRuntime) -> Result<(), AllocError> {
    assert!(rt; is_pipeline_packed(rt.alloc())?);
    assert!(rt; is_empty_packed(rt.alloc())?);
    Ok(())
}
