//! The bounds of all nodes, found in their order.

ghost use Rattle.std.specs.Prelude.{◌≡◌, ℕ, ◌^◌, ◌<◌, ◌≤◌, IfOk, IfErr, MatchResult, Some, get_or, length, replicate};
ghost use Rattle.std.specs.List.{Contains};
ghost use Rattle.graph_model.specs.Bounds.{bounds};
ghost use Rattle.graph_model.specs.Graphs.{node_named};
ghost use Rattle.graph_model.specs.Sound.{Fits, IsShaped};
ghost use Rattle.graph_model.specs.Named.{uid_at};
ghost use Rattle.topology.specs.Answers.{IsOrderOfNodes};
ghost use Rattle.topology.specs.Links.{AreIndexes};
ghost use Rattle.headroom.specs.Found.{AreSourcesFound, IsFound, kept_bound, no_bound};
ghost use Rattle.headroom.specs.Loud.{IsTooLoud};
ghost use Rattle.headroom.specs.Answers.{AllBounded, AreBounds, IsTooLoudOf};

use crate::loud::{TooLoud, too_loud};
use crate::outputs::outputs_of;
use graph_model::{Bound, Connection, Graph, List, Node, Refused};
use std::alloc::{AllocError, Global};
use std::collections::HashMap;
use topology::{index_of, indexes};

/// The bound of the output channel that a connection reads.
fn bound_over(
    graph: &Graph,
    indexes: &HashMap<u32, usize>,
    found: &[Bound],
    connection: &Connection,
) -> u64
    requires indexes { AreIndexes graph.now indexes.now }
    requires shaped { IsShaped graph.now }
    requires nodes { length found.now ≡ length graph.now.nodes }
    requires connection { Contains graph.now.connections connection.now }
    requires found { (i : ℕ) → i < length graph.now.nodes → uid_at graph.now i ≡ connection.now.src.0 → IsFound graph.now found.now i }
    ensures value { result ≡ get_or (bounds graph.now connection.now.src.0).outs connection.now.src_channel 0 }
    ensures small { result ≤ 2 ^ 46 }
{
    let source = &found[index_of(graph, indexes, connection.src)];
    source.outs.as_slice()[connection.src_channel as usize]
}

/// The bounds of the input channels of a node, each the sum over its connections.
fn inputs_of(
    alloc: Global,
    graph: &Graph,
    indexes: &HashMap<u32, usize>,
    found: &[Bound],
    node: &Node,
) -> Result<List<u64>, AllocError>
    requires fits { Fits graph.now }
    requires indexes { AreIndexes graph.now indexes.now }
    requires shaped { IsShaped graph.now }
    requires nodes { length found.now ≡ length graph.now.nodes }
    requires node { node_named graph.now node.now.uid.0 ≡ Some node.now }
    requires sources { AreSourcesFound graph.now found.now node.now.uid.0 }
    ensures { IfOk result (λ ins. ins ≡ (bounds graph.now node.now.uid.0).ins) }
{
    let mut ins: Vec<u64> = vec![in alloc; 0; node.ins() as usize]?;
    for connection in graph.connections.as_slice() {
        if connection.dst.0 == node.uid.0 {
            ins[connection.dst_channel as usize] += bound_over(graph, indexes, found, connection);
        }
    }
    List::from_slice(alloc, &ins)
}

/// The bounds of a node whose sources are found, as they are kept in 64 bits.
fn bound_of(
    alloc: Global,
    graph: &Graph,
    indexes: &HashMap<u32, usize>,
    found: &[Bound],
    node: &Node,
) -> Result<Bound, AllocError>
    requires fits { Fits graph.now }
    requires indexes { AreIndexes graph.now indexes.now }
    requires shaped { IsShaped graph.now }
    requires nodes { length found.now ≡ length graph.now.nodes }
    requires node { node_named graph.now node.now.uid.0 ≡ Some node.now }
    requires sources { AreSourcesFound graph.now found.now node.now.uid.0 }
    ensures { IfOk result (λ bound. bound ≡ kept_bound (bounds graph.now node.now.uid.0)) }
{
    let ins = inputs_of(alloc, graph, indexes, found, node)?;
    let outs = outputs_of(alloc, &node.kind, ins.as_slice())?;
    Ok(Bound { ins, outs })
}

/// No bounds yet, for each node.
fn none_found(alloc: Global, nodes: usize) -> Result<Vec<Bound>, AllocError>
    ensures { IfOk result (λ v. v.items ≡ replicate nodes no_bound) }
{
    let mut found = Vec::new(alloc);
    for _ in 0..nodes {
        found.push(Bound {
            ins: List::new(alloc),
            outs: List::new(alloc),
        })?;
    }
    Ok(found)
}

/// The bounds of all nodes by index, or else the first that passes the limit.
fn found_or_loud(
    alloc: Global,
    graph: &Graph,
    order: &[u32],
) -> Result<Result<Vec<Bound>, TooLoud>, AllocError>
    requires fits { Fits graph.now }
    requires shaped { IsShaped graph.now }
    requires order { IsOrderOfNodes graph.now order.now }
    ensures { IfOk result (λ answer. MatchResult answer (λ v. AreBounds graph.now v.items × AllBounded graph.now) (IsTooLoud graph.now)) }
{
    let nodes = graph.nodes.as_slice();
    let indexes = indexes(alloc, graph)?;
    let mut found = none_found(alloc, nodes.len())?;
    for k in 0..order.len() {
        let index = order[k] as usize;
        let node = &nodes[index];
        let bound = bound_of(alloc, graph, &indexes, &found, node)?;
        if let Some(loud) = too_loud(node.uid, &bound) {
            return Ok(Err(loud));
        }
        found[index] = bound;
    }
    Ok(Ok(found))
}

/// The same items.
fn listed(alloc: Global, items: Vec<Bound>) -> Result<List<Bound>, AllocError>
    ensures { IfOk result (λ list. list ≡ items.items) }
{
    let mut list = List::new(alloc);
    for item in items {
        list.push(item)?;
    }
    Ok(list)
}

/// The bounds of each node's channels, by index. The order is what [`order`](topology::order) answers for the graph.
///
/// A fault comes exactly where some bound passes 2^46: the first in the order of the nodes, those from which no
/// connections lead to the output too, of each node its input channels before its output channels.
pub fn bounds(
    alloc: Global,
    graph: &Graph,
    order: &List<u32>,
) -> Result<List<Bound>, Refused<TooLoud>>
    requires fits { Fits graph.now }
    requires shaped { IsShaped graph.now }
    requires order { IsOrderOfNodes graph.now order.now }
    ensures bounds { IfOk result (AreBounds graph.now) }
    ensures bounded { IfOk result (λ _. AllBounded graph.now) }
    ensures loud { IfErr result (IsTooLoudOf graph.now) }
{
    match found_or_loud(alloc, graph, order.as_slice())? {
        Ok(found) => Ok(listed(alloc, found)?),
        Err(loud) => Err(Refused::Fault(loud)),
    }
}
