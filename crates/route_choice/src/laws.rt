ghost use Rattle.route_choice.specs.MayUse.{ConnectsWhereNamed, GoesWhereItMay, IsFoundWhereOneServes};
ghost use Rattle.route_choice.specs.OrderLaws.{RepairKeepsOrder, StaysInOrderWith, StaysInOrderWithout};
ghost use Rattle.route_choice.specs.PartLaws.{DrawsAreFew, EachNodeOnce, EachPartIsLinked, EachRouteHasItsNode, NamesTheMissing};

use mux_routing::ReadRoutingStrategy;

/// Does nothing. Its contract, for any strategy: a try goes to a node that its route lets it use, with exactly as many draws as that
/// takes; it isn't found only where no such node is connected; and a link is made only to a node that a redirect names and that
/// isn't connected.
pub fn a_try_goes_where_it_may<R: ReadRoutingStrategy>()
    ensures may_use { GoesWhereItMay R.pick_of }
    ensures found { IsFoundWhereOneServes R.pick_of }
    ensures connects { ConnectsWhereNamed R.pick_of }
{}

/// Does nothing. Its contract, for any strategy: each part of a request goes over a link that there is, connected or being repaired;
/// of all nodes, or all primaries, each has one at most; with keys in several slots each route has one part, in order, to the node to
/// which it leads, and no other stands in; and no more draws are used than there are routes.
pub fn parts_go_to_their_own_nodes<R: ReadRoutingStrategy>()
    ensures linked { EachPartIsLinked R.pick_of R.picked }
    ensures once { EachNodeOnce R.pick_of R.picked }
    ensures own { EachRouteHasItsNode R.pick_of R.picked }
    ensures draws { DrawsAreFew R.pick_of R.picked }
{}

/// Does nothing. Its contract, for any strategy: where some but not all routes of a request with keys in several slots have no link,
/// the numbers that are named are those of the routes whose node has none.
pub fn routes_without_links_are_named<R: ReadRoutingStrategy>()
    ensures { NamesTheMissing R.pick_of R.picked }
{}

/// Does nothing. Its contract: a map of links whose entries stand in the order of their addresses stays so when an entry is put in
/// or replaced, when one goes, and when a repair begins.
pub fn the_map_stays_in_order()
    ensures with { StaysInOrderWith }
    ensures without { StaysInOrderWithout }
    ensures repair { RepairKeepsOrder }
{}
