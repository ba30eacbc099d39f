ghost use Rattle.std.specs.Prelude.{◌≡◌, ◌<◌, ◌≤◌, ◌^◌};
ghost use Rattle.mux_routing.specs.Shards.{asks, shard_at};
ghost use Rattle.route_choice.specs.Resolver.{pick_count, picks_for};

use mux_routing::{ReadRoutingStrategy, Route, SlotMap};

/// A strategy that counts the replicas of a slot, if it is asked, and picks the first.
#[derive(Clone, Copy)]
pub struct ReplicaCount {
    pub replicas: u32,
}

impl ReadRoutingStrategy for ReplicaCount {
    ghost use Rattle.route_choice.specs.ReplicaCounts.{first_replica, counted};

    ghost pick_of = { first_replica };

    ghost picked = { counted };

    fn pick(&mut self, replicas: u32, _draw: u64) -> u32 {
        self.replicas = replicas;
        0
    }
}

/// Whether a strategy is asked for a route: where a replica may be read, and there are any.
#[tactic(auto, using(crate::proofs::Counting::counts))]
fn asks(slots: &SlotMap, route: Route) -> bool
    requires { route.slot < 2 ^ 14 }
    ensures { result ≡ asks route.addr (shard_at route.slot slots.now) }
{
    let mut count = Some(ReplicaCount { replicas: 0 });
    slots.slot_addr_for_route(route, &mut count, 0);
    match count {
        Some(count) => count.replicas > 0,
        None => false,
    }
}

/// How many picks a strategy makes for a route, if there is a strategy.
pub fn picks_for<R>(slots: &SlotMap, route: Route, reads: &Option<R>) -> usize
    requires { route.slot < 2 ^ 14 }
    ensures is { result ≡ picks_for reads.now route slots.now }
    ensures few { result ≤ 1 }
{
    let asked = asks(slots, route);
    match reads {
        Some(_) => { if asked { 1 } else { 0 } }
        None => 0,
    }
}
