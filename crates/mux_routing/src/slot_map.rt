use crate::addresses::{addresses, found};
use crate::range_table::RangeTable;
use crate::row_ranges::ranges_of;
use crate::rows::SlotRows;
use crate::shard::{ShardNodes, first_numbers, leading, node_in, numbered, shards_of};
use crate::steps::Steps;
use crate::strategy::ReadRoutingStrategy;
use command_table::{Route, SlotAddr};
use containers::Seq;
use slot_hash::NodeAddress;
use std::alloc::{AllocError, Global};
use std::marker::{Brand, Model};
use std::sync::ledger::{Blank, Ledger};

/// The place of a node among the distinct addresses of a map, in the order of these.
pub type NodeIndex = u32;

/// Which node has which slot. Contracts see the rows that it was made from.
#[derive(Drop)]
pub struct SlotMap {
    /// The distinct addresses, in order.
    nodes: Vec<NodeAddress>,
    shards: Seq<ShardNodes>,
    /// The slots that rows hold, by their last rows.
    ranges: RangeTable,
    primaries: Vec<NodeIndex>,
}

impl Model for SlotMap {
    ghost use Rattle.std.specs.Prelude.{List};
    ghost use Rattle.mux_routing.specs.declared.rows.SlotRow.{SlotRow};
    ghost use Rattle.mux_routing.specs.Kept.{AreKept, rows_kept};

    ghost Value = { List SlotRow };

    ghost view = { λ m. rows_kept m.nodes.items m.shards };

    ghost invariant = { λ m. AreKept m.nodes.items m.shards m.ranges m.primaries.items (rows_kept m.nodes.items m.shards) };
}

impl SlotMap {
    ghost use Rattle.std.specs.Prelude.{◌≡◌, ◌<◌, ◌≤◌, ◌+◌, ◌-◌, ◌*◌, ◌^◌, true, List, length, map, slice_get, IsNone};
    ghost use Rattle.std.specs.List.{Contains};
    ghost use Rattle.mux_routing.specs.Members.{AreLeaders, AreNamed};
    ghost use Rattle.std.specs.Prelude.{IfOk, IfSome, Some, option_and_then, option_copied, option_map};
    ghost use Rattle.mux_routing.specs.declared.range_table.SlotRange.{SlotRange};
    ghost use Rattle.mux_routing.specs.declared.rows.SlotRow.{SlotRow};
    ghost use Rattle.mux_routing.specs.Kept.{AreRanges};
    ghost use Rattle.mux_routing.specs.Reply.{are_rows};
    ghost use Rattle.mux_routing.specs.Shards.{addresses, in_order, last_row, primary_at, shard_at};
    ghost use Rattle.mux_routing.specs.Shards.{address_led_to, picking, place_led_to, reads_after};
    ghost use Rattle.mux_routing.specs.Shards.{fallback_addresses, fallbacks_in, node_places, primaries};
    ghost use Rattle.mux_routing.specs.Shards.{are_places, is_place};

    /// The map of these rows. With n nodes it takes n log n comparisons of addresses, once; of no rows it takes no memory.
    #[tactic(auto, using(crate::proofs::Finding::are_in_order, crate::proofs::Keeping::all_kept, crate::proofs::Keeping::few_rows, crate::proofs::Keeping::same_rows, crate::proofs::Members::are_named))]
    pub fn from_rows(alloc: Global, rows: &SlotRows) -> Result<SlotMap, AllocError>
        requires { are_rows rows.now ≡ true }
        ensures is { IfOk result (λ m. m ≡ rows.now) }
        ensures order { IfOk result (λ m. in_order (addresses m) ≡ true) }
        ensures named { IfOk result (λ m. AreNamed m (addresses m)) }
    {
        let nodes = addresses(alloc, rows.as_slice())?;
        let shards = shards_of(alloc, nodes.as_slice(), rows.as_slice())?;
        let ranges = RangeTable::new(ranges_of(alloc, rows.as_slice(), 0)?);
        let primaries = leading(alloc, nodes.len(), shards.as_slice())?;
        Ok(SlotMap {
            nodes,
            shards,
            ranges,
            primaries,
        })
    }

    /// The ranges of slots, each with the number of the last row that holds them.
    pub fn ranges(&self) -> &RangeTable
        ensures { AreRanges result.now self.now }
    {
        &self.ranges
    }

    /// The nodes of a slot, if a row holds it, and the steps that it takes.
    fn look_up<L: Ledger>(&self, slot: u16, steps: &mut Steps<L>) -> Option<&ShardNodes>
        ensures shard { option_copied result ≡ shard_at slot self.now }
        ensures grows { steps.old ≤ steps.new }
        ensures steps { (ranges : List SlotRange) → AreRanges ranges self.now
            → 2 ^ (steps.new - steps.old) ≤ 2 * length ranges + 1 }
    {
        let number = self.ranges.find(slot, steps);
        numbered(self.shards.as_slice(), number)
    }

    /// The primary of a slot: that of the last row that holds it; none where no row does. A look at a range is a step: among n
    /// ranges it takes k steps with 2^k <= 2 n + 1.
    pub fn find<L: Ledger>(&self, slot: u16, steps: &mut Steps<L>) -> Option<NodeIndex>
        ensures index { result ≡ primary_at slot self.now }
        ensures address { option_and_then (slice_get (addresses self.now)) result
            ≡ option_map (λ (row : SlotRow). row.primary) (last_row slot self.now) }
        ensures grows { steps.old ≤ steps.new }
        ensures steps { (ranges : List SlotRange) → AreRanges ranges self.now
            → 2 ^ (steps.new - steps.old) ≤ 2 * length ranges + 1 }
    {
        let shard = self.look_up(slot, steps)?;
        Some(shard.primary)
    }

    /// The same with a count of its own. Its steps are of the ledger that `blank` is to be.
    fn look_up_alone<L: Ledger>(&self, slot: u16, blank: Blank) -> Option<&ShardNodes>
        requires name { blank.name ≡ L.name }
        requires parts { blank.parts ≡ L.parts }
        requires some { 0 < blank.parts }
        ensures { option_copied result ≡ shard_at slot self.now }
    {
        let mut steps = Steps::<L>::new(blank);
        self.look_up(slot, &mut steps)
    }

    /// The nodes of a slot, if a row holds it.
    fn shard(&self, slot: u16) -> Option<&ShardNodes>
        ensures { option_copied result ≡ shard_at slot self.now }
    {
        self.look_up_alone::<Brand>(slot, Blank::new(1))
    }

    /// The node to which a route leads, if a row holds its slot. Without a read strategy an optional replica is the
    /// primary, and a required one the first replica; with one it picks among the replicas, if there are any.
    #[tactic(auto, using(crate::proofs::Answering::leads_nowhere, crate::proofs::Answering::leads_to_address, crate::proofs::Answering::leads_to_place))]
    pub fn slot_addr_for_route<R: ReadRoutingStrategy>(
        &self,
        route: Route,
        reads: &mut Option<R>,
        draw: u64,
    ) -> Option<NodeIndex>
        requires { route.slot < 2 ^ 14 }
        ensures index { result ≡ place_led_to route (picking R.pick_of reads.old draw) self.now }
        ensures address { option_and_then (slice_get (addresses self.now)) result
            ≡ address_led_to route (picking R.pick_of reads.old draw) self.now }
        ensures place { IfSome result (λ i. is_place self.now i ≡ true) }
        ensures reads { reads.new
            ≡ reads_after R.picked route.addr (shard_at route.slot self.now) draw reads.old }
    {
        let shard = self.shard(route.slot)?;
        Some(node_in(shard, route.addr, reads, draw))
    }

    /// The nodes that may stand in where the node of a route isn't connected: none for the primary.
    #[tactic(auto, using(crate::proofs::Answering::stand_in, crate::proofs::Answering::stand_within))]
    pub fn shard_fallback_addrs(
        &self,
        alloc: Global,
        route: Route,
    ) -> Result<Vec<NodeIndex>, AllocError>
        requires { route.slot < 2 ^ 14 }
        ensures are { IfOk result
            (λ v. v.items ≡ fallbacks_in route.addr (shard_at route.slot self.now)) }
        ensures addresses { IfOk result
            (λ v. map (slice_get (addresses self.now)) v.items
            ≡ map Some (fallback_addresses route.addr (last_row route.slot self.now))) }
        ensures places { IfOk result (λ v. are_places self.now v.items ≡ true) }
    {
        let Some(shard) = self.shard(route.slot) else {
            return Ok(Vec::new(alloc));
        };
        match route.addr {
            SlotAddr::Master => Ok(Vec::new(alloc)),
            SlotAddr::ReplicaOptional => {
                let mut nodes = Vec::from_slice(alloc, shard.replicas.as_slice())?;
                nodes.push(shard.primary)?;
                Ok(nodes)
            }
            SlotAddr::ReplicaRequired => {
                let nodes = Vec::from_slice(alloc, shard.replicas.as_slice())?;
                Ok(nodes)
            }
        }
    }

    /// The primaries of all rows, in the order of their addresses. Their number is what it costs.
    #[tactic(auto, using(crate::proofs::Answering::primaries_within, crate::proofs::Leading::are_leaders))]
    pub fn primaries(&self, alloc: Global) -> Result<Vec<NodeIndex>, AllocError>
        ensures are { IfOk result (λ v. v.items ≡ primaries self.now) }
        ensures leaders { IfOk result (λ v. AreLeaders self.now v.items) }
        ensures places { IfOk result (λ v. are_places self.now v.items ≡ true) }
    {
        let places = Vec::from_slice(alloc, self.primaries.as_slice())?;
        Ok(places)
    }

    /// All nodes of all rows, in the order of their addresses.
    #[tactic(auto, using(crate::proofs::Answering::nodes_within))]
    pub fn nodes(&self, alloc: Global) -> Result<Vec<NodeIndex>, AllocError>
        ensures are { IfOk result (λ v. v.items ≡ node_places self.now) }
        ensures places { IfOk result (λ v. are_places self.now v.items ≡ true) }
    {
        first_numbers(alloc, self.nodes.len())
    }

    /// The place of an address, if it is one of this map.
    #[tactic(auto, using(crate::proofs::Finding::are_in_order))]
    pub fn place(&self, address: &NodeAddress) -> Option<NodeIndex>
        ensures found { IfSome result (λ i. slice_get (addresses self.now) i ≡ Some address.now) }
        ensures none { IsNone result → ¬ (Contains (addresses self.now) address.now) }
    {
        let place = found(self.nodes.as_slice(), address)?;
        Some(place as u32)
    }

    /// The address of a node of this map.
    #[tactic(auto, unfolding(crate::specs::Shards::is_place))]
    pub fn address(&self, i: NodeIndex) -> &NodeAddress
        requires { is_place self.now i ≡ true }
        ensures { Some result.now ≡ slice_get (addresses self.now) i }
    {
        &self.nodes[i as usize]
    }

    /// The address of this number, if the map has one.
    pub fn get(&self, i: NodeIndex) -> Option<&NodeAddress>
        ensures { option_copied result ≡ slice_get (addresses self.now) i }
    {
        self.nodes.get(i as usize)
    }
}
