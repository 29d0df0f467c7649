//! The checks, in their order.

ghost use Rattle.std.specs.Prelude.{◌≡◌, length, map, IfOk, IfErr};
ghost use Rattle.graph_model.specs.Checks.{AreConnections};
ghost use Rattle.graph_model.specs.Paths.{is_live};
ghost use Rattle.graph_model.specs.Sound.{Fits, IsShaped, IsSound};
ghost use Rattle.topology.specs.Answers.{IsOrderOfNodes};
ghost use Rattle.topology.specs.Links.{AreIndexes};
ghost use Rattle.headroom.specs.Answers.{AreBounds, AllBounded};
ghost use Rattle.connections.specs.Faults.{HasGoodNodes, HasFewDelays, HasFewCells, IsRefusal};

use crate::checked::Checked;
use crate::fault::GraphFault;
use crate::joints::check_connections;
use crate::limits::{check_cells, check_delays};
use crate::nodes::check_nodes;
use graph_model::{Bound, Graph, List, Refused};
use headroom::bounds;
use std::alloc::{AllocError, Global};
use std::collections::HashMap;
use topology::{Cycle, indexes, links, live, longest, order};

/// Checks the nodes, and then the connections.
fn check_parts(
    alloc: Global,
    graph: &Graph,
    indexes: &HashMap<u32, usize>,
) -> Result<(), Refused<GraphFault>>
    requires fits { Fits graph.now }
    requires indexes { AreIndexes graph.now indexes.now }
    ensures nodes { IfOk result (λ _. HasGoodNodes graph.now) }
    ensures connections { IfOk result (λ _. AreConnections graph.now (length graph.now.connections)) }
    ensures refusal { IfErr result (IsRefusal graph.now) }
{
    check_nodes(graph)?;
    check_connections(alloc, graph, indexes)
}

/// The order of the nodes, or else the cycle.
fn order_of(alloc: Global, graph: &Graph) -> Result<List<u32>, Refused<GraphFault>>
    requires fits { Fits graph.now }
    requires nodes { HasGoodNodes graph.now }
    requires connections { AreConnections graph.now (length graph.now.connections) }
    ensures order { IfOk result (IsOrderOfNodes graph.now) }
    ensures shaped { IfOk result (λ _. IsShaped graph.now) }
    ensures refusal { IfErr result (IsRefusal graph.now) }
{
    match order(alloc, graph) {
        Ok(order) => Ok(order),
        Err(Refused::Fault(Cycle { walk })) => Err(Refused::Fault(GraphFault::Cycle { walk })),
        Err(Refused::Memory) => Err(Refused::Memory),
    }
}

/// For each node whether it is live.
fn live_of(alloc: Global, graph: &Graph) -> Result<List<bool>, AllocError>
    requires fits { Fits graph.now }
    requires shaped { IsShaped graph.now }
    ensures { IfOk result (λ live. live ≡ map (λ n. is_live graph.now n.uid.0) graph.now.nodes) }
{
    live(alloc, graph)
}

/// The bounds of the nodes, or else the first that passes the limit.
fn bounds_of(
    alloc: Global,
    graph: &Graph,
    order: &List<u32>,
) -> Result<List<Bound>, Refused<GraphFault>>
    requires fits { Fits graph.now }
    requires shaped { IsShaped graph.now }
    requires delays { HasFewDelays graph.now }
    requires cells { HasFewCells graph.now }
    requires order { IsOrderOfNodes graph.now order.now }
    ensures bounds { IfOk result (AreBounds graph.now) }
    ensures bounded { IfOk result (λ _. AllBounded graph.now) }
    ensures refusal { IfErr result (IsRefusal graph.now) }
{
    match bounds(alloc, graph, order) {
        Ok(bounds) => Ok(bounds),
        Err(Refused::Fault(loud)) => Err(Refused::Fault(GraphFault::Headroom {
            uid: loud.uid,
            side: loud.side,
            channel: loud.channel,
            bound: loud.bound,
        })),
        Err(Refused::Memory) => Err(Refused::Memory),
    }
}

/// Checks a graph of at most 512 nodes and 8,192 connections. Ok exactly where it is sound, and then it is the graph
/// that was given.
///
/// A fault is the first check that fails, with the values that [`GraphFault`] tells; the graph is given up. Want of
/// memory may come at any point.
pub fn check(alloc: Global, graph: Graph) -> Result<Checked, Refused<GraphFault>>
    requires { Fits graph }
    ensures kept { IfOk result (λ checked. checked ≡ graph) }
    ensures sound { IfOk result (λ _. IsSound graph) }
    ensures refusal { IfErr result (IsRefusal graph) }
{
    let indexes = indexes(alloc, &graph)?;
    check_parts(alloc, &graph, &indexes)?;
    let order = order_of(alloc, &graph)?;
    let links = links(alloc, &graph)?;
    let reach = longest(alloc, &graph, &order)?;
    let live = live_of(alloc, &graph)?;
    check_delays(&graph, &indexes, &reach, live.as_slice())?;
    check_cells(&graph)?;
    let bounds = bounds_of(alloc, &graph, &order)?;
    Ok(Checked {
        graph,
        order,
        reach,
        live,
        bounds,
        links,
    })
}
