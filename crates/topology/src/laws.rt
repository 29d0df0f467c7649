//! Laws of the definitions.

ghost use Rattle.topology.specs.Laws.{ClosedWalkHasNoOrder, LiveIsListed};

/// A graph with a closed walk has no order.
pub fn closed_walk_has_no_order()
    ensures { ClosedWalkHasNoOrder }
{}

/// Without a closed walk, live nodes are those from which the output is reached over at most as many connections as
/// there are nodes.
pub fn live_is_listed()
    ensures { LiveIsListed }
{}
