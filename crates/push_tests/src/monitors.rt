ghost use Rattle.driver_model.specs.News.{told};
ghost use Rattle.mux_conn.specs.Effects.{IsWithin};

use crate::told::{ENDED, are};
use connection_info::ProtocolVersion;
use connection_tests::servers::{must, said};
use driver_model::{LinkEvent, LinkNews};
use futures::executor::block_on;
use futures::{StreamExt, TryStreamExt};
use push_links::Monitor;
use std::alloc::{AllocError, AllocGlobal, Global};
use std::process::Abort;
use std::random::RandomSource;
use std::sync::Wait;
use std::test::Fail;

const WATCH: &[u8] = b"*1\r\n$7\r\nMONITOR\r\n";

/// Whether a turn asks for these acts, and tells them.
fn shows(
    alloc: Global,
    monitor: &mut Monitor,
    news: LinkNews<'_>,
    names: &[&[u8]],
) -> Result<bool, AllocError>
    requires { IsWithin monitor.old.connection.core.life (told news) }
{
    let mut acts = Vec::new(alloc);
    must(monitor.step(alloc, LinkEvent { word: 0, news }, &mut acts))?;
    Ok(are(acts.as_slice(), names))
}

/// A link in monitor mode is made.
fn begin(rt: &impl Abort, alloc: Global, monitor: &mut Monitor) -> Result<(), AllocError> {
    assert!(rt; shows(alloc, monitor, LinkNews::Connected, &[b"watch", WATCH])?);
    let piece = b"+OK\r\n";
    assert!(rt; shows(alloc, monitor, LinkNews::Came { piece }, &[b"created"])?);
    Ok(())
}

/// A link in monitor mode that is told three values, and whose peer closes it.
fn watch(rt: &impl Abort, alloc: Global, monitor: &mut Monitor) -> Result<(), AllocError> {
    begin(rt, alloc, monitor)?;
    let piece = b":1\r\n+x\r\n$1\r\n2\r\n";
    assert!(rt; shows(alloc, monitor, LinkNews::Came { piece }, &[])?);
    assert!(rt; shows(alloc, monitor, ENDED, &[b"close"])?);
    Ok(())
}

/// A link in monitor mode that was told three values, and whose peer closed it.
fn watched(rt: &impl Abort, alloc: Global) -> Result<Monitor, AllocError> {
    let mut monitor = Monitor::new(alloc, &said(ProtocolVersion::RESP2), 0)?;
    match watch(rt, alloc, &mut monitor) {
        Ok(()) => Ok(monitor),
        Err(error) => {
            drop(monitor);
            Err(error)
        }
    }
}

/// Whether the second of three items didn't convert.
fn are_numbers(items: &[Option<i64>]) -> bool {
    matches!(items, [Some(1), None, Some(2)])
}

/// What was told, as numbers: none for what doesn't convert.
fn numbers<R: Wait + RandomSource + AllocGlobal>(
    rt: &R,
    monitor: &mut Monitor,
) -> Result<Vec<Option<i64>>, Fail> {
    let stream = monitor.on_message::<i64>(rt.alloc());
    Ok(block_on(rt, stream.try_collect(rt.alloc()))??)
}

/// Whether the second of three items that a link is told doesn't convert.
fn tells_numbers<R: Wait + RandomSource + AllocGlobal + Abort>(
    rt: &R,
    monitor: &mut Monitor,
) -> Result<bool, Fail> {
    watch(rt, rt.alloc(), monitor)?;
    let items = numbers(rt, monitor)?;
    Ok(are_numbers(items.as_slice()))
}

#[test]
fn an_item_that_does_not_convert_is_none(rt: HostRuntime) -> Result<(), Fail> {
    let mut monitor = Monitor::new(rt.alloc(), &said(ProtocolVersion::RESP2), 0)?;
    assert!(rt; tells_numbers(&rt, &mut monitor)?);
    Ok(())
}

#[test]
fn a_monitor_that_keeps_its_link_is_collected(rt: HostRuntime) -> Result<(), Fail> {
    let messages = watched(&rt, rt.alloc())?.into_on_message::<i64>(rt.alloc());
    let items = block_on(&rt, messages.collect(rt.alloc()))??;
    assert_eq!(rt; items.len(), 3);
    Ok(())
}
