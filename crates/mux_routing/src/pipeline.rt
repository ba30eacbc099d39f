ghost use Rattle.std.specs.Prelude.{◌≡◌, [], ◌∷◌, ◌++◌, ◌||◌, true, false, IfOk, IfErr, option_to_list};
ghost use Rattle.mux_routing.specs.Routes.{IsCrossed, agreed, agreement, agreement_of, is_primary, joint};
ghost use Rattle.mux_routing.specs.Routes.{is_drawn, route_in, single_route, uses_draw};
ghost use Rattle.command_table.specs.declared.routing.SingleNodeRoutingInfo.TheVariants.{RandomPrimary};
ghost use Rattle.command_table.specs.Routing.{routing_of};

use command_table::{Route, RoutingInfo, SingleNodeRoutingInfo, SlotAddr};
use resp_write::{Cmd, Pipeline};
use std::alloc::{AllocError, Global};
use thiserror::Error;

/// Why a pipeline has no route.
#[derive(Clone, Copy, Debug, PartialEq, Eq, Error)]
pub enum RouteError {
    /// Two of its routes in order are to different slots.
    #[error("keys of slot {first} and of slot {second} in one pipeline")]
    CrossSlot { first: u16, second: u16 },
    #[error("out of memory")]
    NoMemory,
}

impl From<AllocError> for RouteError {
    ghost use Rattle.std.specs.Prelude.{◌≡◌};
    ghost use Rattle.mux_routing.specs.declared.pipeline.RouteError.TheVariants.{NoMemory};

    ghost from_gives = { λ _ e. e ≡ NoMemory };

    fn from(_error: AllocError) -> Self {
        RouteError::NoMemory
    }
}

/// A route, if there is one, and whether the draw was used.
#[derive(Clone, Copy, Debug, PartialEq, Eq)]
pub struct PipelineRoute {
    pub route: Option<Route>,
    pub used_draw: bool,
}

impl PipelineRoute {
    /// A route that no draw was used for.
    fn fixed(route: Option<Route>) -> PipelineRoute
        ensures route { result.route ≡ route }
        ensures draw { result.used_draw ≡ false }
    {
        PipelineRoute {
            route,
            used_draw: false,
        }
    }

    /// The route to any primary: that of the slot drawn.
    fn drawn(draw: u64) -> PipelineRoute
        ensures route { result.route ≡ single_route draw RandomPrimary }
        ensures draw { result.used_draw ≡ true }
    {
        let slot = (draw % 16_384) as u16;
        PipelineRoute {
            route: Some(Route {
                slot,
                addr: SlotAddr::Master,
            }),
            used_draw: true,
        }
    }
}

/// The route of a command that goes there.
fn route_in(routing: &Option<RoutingInfo>, draw: u64) -> PipelineRoute
    ensures route { result.route ≡ route_in draw routing.now }
    ensures draw { result.used_draw ≡ is_drawn routing.now }
{
    match routing {
        Some(RoutingInfo::SingleNode(SingleNodeRoutingInfo::SpecificNode(route))) => {
            PipelineRoute::fixed(Some(*route))
        }
        Some(RoutingInfo::SingleNode(SingleNodeRoutingInfo::RandomPrimary)) => {
            PipelineRoute::drawn(draw)
        }
        Some(RoutingInfo::SingleNode(SingleNodeRoutingInfo::Random)) => PipelineRoute::fixed(None),
        Some(RoutingInfo::SingleNode(SingleNodeRoutingInfo::ByAddress(_))) => {
            PipelineRoute::fixed(None)
        }
        Some(RoutingInfo::MultiNode(_, _)) => PipelineRoute::fixed(None),
        None => PipelineRoute::fixed(None),
    }
}

/// The route of one command.
fn route_of(alloc: Global, cmd: &Cmd, draw: u64) -> Result<PipelineRoute, AllocError>
    ensures route { IfOk result (λ r. r.route ≡ route_in draw (routing_of cmd.now.args)) }
    ensures draw { IfOk result (λ r. r.used_draw ≡ is_drawn (routing_of cmd.now.args)) }
{
    let routing = RoutingInfo::for_routable(alloc, cmd)?;
    let route = route_in(&routing, draw);
    drop(routing);
    Ok(route)
}

/// Whether a route is to the primary.
fn is_primary(addr: SlotAddr) -> bool
    ensures { result ≡ is_primary addr }
{
    match addr {
        SlotAddr::Master => true,
        SlotAddr::ReplicaOptional => false,
        SlotAddr::ReplicaRequired => false,
    }
}

/// Of two routes to one slot the first, but to the primary where one of them is.
fn joint(first: Route, next: Route) -> Route
    ensures { result ≡ joint first (next ∷ []) }
{
    if is_primary(first.addr) || is_primary(next.addr) {
        Route {
            slot: first.slot,
            addr: SlotAddr::Master,
        }
    } else {
        first
    }
}

/// What the route of the commands so far and that of one command more agree on.
#[tactic(auto, using(crate::proofs::Agreeing::alone, crate::proofs::Agreeing::two_agree, crate::proofs::Agreeing::two_apart))]
fn joined(so_far: Option<Route>, next: Option<Route>) -> Result<Option<Route>, RouteError>
    ensures ok { IfOk result
        (λ r. agreement_of (option_to_list so_far ++ option_to_list next) ≡ agreed r) }
    ensures crossed { IfErr result
        (λ e. IsCrossed e (agreement_of (option_to_list so_far ++ option_to_list next))) }
{
    let Some(first) = so_far else {
        return Ok(next);
    };
    let Some(next) = next else {
        return Ok(Some(first));
    };
    if first.slot != next.slot {
        return Err(RouteError::CrossSlot {
            first: first.slot,
            second: next.slot,
        });
    }
    Ok(Some(joint(first, next)))
}

/// The same, with whether the draw was used.
fn agreeing(so_far: PipelineRoute, next: PipelineRoute) -> Result<PipelineRoute, RouteError>
    ensures ok { IfOk result
        (λ r. agreement_of (option_to_list so_far.route ++ option_to_list next.route)
        ≡ agreed r.route) }
    ensures draw { IfOk result (λ r. r.used_draw ≡ (so_far.used_draw || next.used_draw)) }
    ensures crossed { IfErr result
        (λ e. IsCrossed e (agreement_of (option_to_list so_far.route ++ option_to_list next.route))) }
{
    match joined(so_far.route, next.route) {
        Ok(route) => Ok(PipelineRoute {
            route,
            used_draw: so_far.used_draw || next.used_draw,
        }),
        Err(error) => Err(error),
    }
}

/// The route of a pipeline, that of its commands with a route, which are to one slot; and whether the draw was used, as
/// it is where a command goes to any primary.
pub fn route_with_draw(
    alloc: Global,
    pipeline: &Pipeline,
    draw: u64,
) -> Result<PipelineRoute, RouteError>
    ensures ok { IfOk result (λ r. agreement draw pipeline.now.commands ≡ agreed r.route) }
    ensures draw { IfOk result (λ r. r.used_draw ≡ uses_draw pipeline.now.commands) }
    ensures crossed { IfErr result (λ e. IsCrossed e (agreement draw pipeline.now.commands)) }
{
    let mut so_far = PipelineRoute::fixed(None);
    for cmd in pipeline.cmd_iter() {
        let next = route_of(alloc, cmd, draw)?;
        match agreeing(so_far, next) {
            Ok(route) => so_far = route,
            Err(error) => return Err(error),
        }
    }
    Ok(so_far)
}

/// The route of a pipeline: that of its commands with a route, which are to one slot.
pub fn route_for_pipeline(
    alloc: Global,
    pipeline: &Pipeline,
    draw: u64,
) -> Result<Option<Route>, RouteError>
    ensures ok { IfOk result (λ r. agreement draw pipeline.now.commands ≡ agreed r) }
    ensures crossed { IfErr result (λ e. IsCrossed e (agreement draw pipeline.now.commands)) }
{
    match route_with_draw(alloc, pipeline, draw) {
        Ok(found) => Ok(found.route),
        Err(error) => Err(error),
    }
}
