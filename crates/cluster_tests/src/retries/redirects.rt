use crate::nodes::{address, is_at};
use cluster_config::{
    CmdArg, InternalRoutingInfo, InternalSingleNodeRouting, Redirect, Redirection, SingleNodeRoute,
};
use command_table::{MultipleNodeRoutingInfo, Route, SlotAddr};
use resp_write::{Cmd, Pipeline, cmd};
use slot_hash::NodeAddress;
use std::alloc::{AllocError, Global};

const GET: Route = Route {
    slot: 12182,
    addr: SlotAddr::Master,
};

/// Where the next redirect of a request leads, and the redirect that it has then: the host and the port, and whether it is for this
/// request alone.
type Step = (
    Option<(&'static [u8], bool)>,
    Option<(&'static [u8], u16, bool)>,
);

/// A text that is no address, and no redirect, leave the one before.
const STEPS: [Step; 5] = [
    (None, None),
    (Some((b"foo:1234", false)), Some((b"foo", 1234, false))),
    (Some((b"[::1]:7", true)), Some((b"::1", 7, true))),
    (Some((b"nowhere", false)), Some((b"::1", 7, true))),
    (None, Some((b"::1", 7, true))),
];

fn redirection(to: &Option<(&'static [u8], bool)>) -> Option<Redirection<'static>> {
    match to {
        Some((address, ask)) => Some(Redirection {
            slot: 12182,
            address: *address,
            ask: *ask,
        }),
        None => None,
    }
}

fn leads_to(redirect: &Redirect, wanted: &(&[u8], u16, bool)) -> bool {
    match redirect {
        Redirect::Moved(address) => is_at(address, wanted.0, wanted.1) && !wanted.2,
        Redirect::Ask(address) => is_at(address, wanted.0, wanted.1) && wanted.2,
    }
}

fn is_redirect(redirect: &Option<Redirect>, wanted: &Option<(&[u8], u16, bool)>) -> bool {
    match (redirect, wanted) {
        (None, None) => true,
        (Some(redirect), Some(wanted)) => leads_to(redirect, wanted),
        _ => false,
    }
}

/// How a request goes to one node, if it does.
fn single(arg: &CmdArg) -> Option<&InternalSingleNodeRouting> {
    match arg {
        CmdArg::Cmd { cmd: _, routing } => match routing {
            InternalRoutingInfo::SingleNode(routing) => Some(routing),
            InternalRoutingInfo::MultiNode(_, _) => None,
        },
        CmdArg::Pipeline {
            pipeline: _,
            offset: _,
            count: _,
            routing,
        } => Some(routing),
    }
}

fn has_redirect(arg: &CmdArg, wanted: &Option<(&[u8], u16, bool)>) -> bool {
    match single(arg) {
        Some(routing) => is_redirect(&routing.redirect, wanted),
        None => false,
    }
}

fn goes_by_slot(arg: &CmdArg) -> bool {
    match single(arg) {
        Some(routing) => matches!(&routing.route, SingleNodeRoute::SpecificNode(_)),
        None => false,
    }
}

fn goes_by_address(arg: &CmdArg) -> bool {
    match single(arg) {
        Some(routing) => match &routing.route {
            SingleNodeRoute::ByAddress(address) => is_at(address, b"a", 1),
            _ => false,
        },
        None => false,
    }
}

/// Whether each redirect leaves what is wanted.
fn follows_each(alloc: Global, arg: &mut CmdArg) -> Result<bool, AllocError> {
    for step in &STEPS {
        arg.set_redirect(alloc, redirection(&step.0))?;
        if !has_redirect(arg, &step.1) {
            return Ok(false);
        }
    }
    Ok(true)
}

fn pipeline(alloc: Global) -> Result<Pipeline, AllocError> {
    let mut pipeline = Pipeline::new(alloc);
    pipeline.add_command(cmd(alloc, b"PING")?)?;
    Ok(pipeline)
}

/// A command by its slot.
fn command(cmd: Cmd) -> CmdArg {
    CmdArg::Cmd {
        cmd,
        routing: InternalRoutingInfo::SingleNode(InternalSingleNodeRouting {
            route: SingleNodeRoute::SpecificNode(GET),
            redirect: None,
        }),
    }
}

/// A pipeline over a link that was made to this address.
fn linked(pipeline: Pipeline, address: NodeAddress) -> CmdArg {
    CmdArg::Pipeline {
        pipeline,
        offset: 0,
        count: 1,
        routing: InternalSingleNodeRouting {
            route: SingleNodeRoute::Connection { address, link: 4 },
            redirect: None,
        },
    }
}

/// Whether a command follows redirects, and goes by its slot again once it is reset.
fn returns_to_slot(alloc: Global, arg: &mut CmdArg) -> Result<bool, AllocError> {
    let follows = follows_each(alloc, arg)?;
    arg.reset_routing();
    Ok(follows && has_redirect(arg, &None) && goes_by_slot(arg))
}

fn command_returns(alloc: Global) -> Result<bool, AllocError> {
    let mut arg = command(cmd(alloc, b"GET")?);
    let returns = returns_to_slot(alloc, &mut arg);
    drop(arg);
    returns
}

#[test]
fn a_command_follows_redirects_until_it_is_reset(rt: HostRuntime) -> Result<(), AllocError> {
    assert!(rt; command_returns(rt.alloc())?);
    Ok(())
}

/// Whether a pipeline over a link follows redirects, and goes by the link's address once it is reset twice.
fn returns_to_address(alloc: Global, arg: &mut CmdArg) -> Result<bool, AllocError> {
    let follows = follows_each(alloc, arg)?;
    arg.reset_routing();
    arg.reset_routing();
    Ok(follows && has_redirect(arg, &None) && goes_by_address(arg))
}

fn pipeline_returns(alloc: Global) -> Result<bool, AllocError> {
    let node = address(alloc, b"a", 1)?;
    let mut arg = linked(pipeline(alloc)?, node);
    let returns = returns_to_address(alloc, &mut arg);
    drop(arg);
    returns
}

#[test]
fn a_link_becomes_its_address(rt: HostRuntime) -> Result<(), AllocError> {
    assert!(rt; pipeline_returns(rt.alloc())?);
    Ok(())
}

/// A command to all primaries.
fn to_all(cmd: Cmd) -> CmdArg {
    CmdArg::Cmd {
        cmd,
        routing: InternalRoutingInfo::MultiNode(MultipleNodeRoutingInfo::AllMasters, None),
    }
}

/// Whether a request goes to several nodes also behind a redirect.
fn stays(alloc: Global, arg: &mut CmdArg) -> Result<bool, AllocError> {
    arg.set_redirect(alloc, redirection(&Some((b"foo:1234", false))))?;
    arg.reset_routing();
    Ok(single(arg).is_none())
}

fn fan_out_stays(alloc: Global) -> Result<bool, AllocError> {
    let mut arg = to_all(cmd(alloc, b"DBSIZE")?);
    let stays = stays(alloc, &mut arg);
    drop(arg);
    stays
}

#[test]
fn a_fan_out_is_not_redirected(rt: HostRuntime) -> Result<(), AllocError> {
    assert!(rt; fan_out_stays(rt.alloc())?);
    Ok(())
}
