ghost use Rattle.std.specs.Prelude.{◌≡◌, ◌<◌, ◌≤◌, IsNone, None, option_copied, option_map};
ghost use Rattle.mux_routing.specs.Shards.{address_in, last_row};

use crate::slot_map::SlotMap;
use crate::strategy::ReadStrategy;
use command_table::Route;
use slot_hash::NodeAddress;

/// How many slots there are.
const SLOT_COUNT: u16 = 16_384;

impl SlotMap {
    /// The address of the node to which a route leads without a read strategy: the primary, or for a required replica the
    /// first one, if there is one. None where no row holds the slot, or where there is no such slot.
    pub fn address_for_route(&self, route: Route) -> Option<&NodeAddress>
        ensures address { route.slot < 16_384
            → option_copied result
            ≡ option_map (address_in route.addr None) (last_row route.slot self.now) }
        ensures no_slot { 16_384 ≤ route.slot → IsNone result }
    {
        if route.slot >= SLOT_COUNT {
            return None;
        }
        let mut reads: Option<ReadStrategy> = None;
        let index = self.slot_addr_for_route(route, &mut reads, 0)?;
        Some(self.address(index))
    }
}
