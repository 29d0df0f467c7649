//! Graphs.

ghost use Rattle.std.specs.Prelude.{◌≡◌, IfOk};
ghost use Rattle.graph_model.specs.Sound.{Fits};
ghost use Rattle.test_graphs.specs.Graphs.{fan_out};

use crate::nodes::{gain, input, insert, joined, joined_at, node, output};
use graph_model::{Connection, Graph, Kind, List, Node};
use std::alloc::{AllocError, Global};

/// The graph, where it has at most 512 nodes and 8,192 connections; want of memory where it has more.
fn fitting(nodes: List<Node>, connections: List<Connection>) -> Result<Graph, AllocError>
    ensures fits { IfOk result Fits }
    ensures is { IfOk result (λ g. g ≡ record { nodes = nodes; connections = connections }) }
{
    if nodes.len() > 512 || connections.len() > 8192 {
        return Err(AllocError);
    }
    Ok(Graph { nodes, connections })
}

/// The graph of these nodes and connections, each in the order that is given. More than 512 nodes or 8,192 connections
/// are refused as want of memory.
pub fn graph_of(
    alloc: Global,
    nodes: Vec<Node>,
    connections: &[Connection],
) -> Result<Graph, AllocError>
    ensures fits { IfOk result Fits }
    ensures is { IfOk result (λ g. g ≡ record { nodes = nodes.items; connections = connections.now }) }
{
    let mut list = List::new(alloc);
    for node in nodes {
        list.push(node)?;
    }
    fitting(list, List::from_slice(alloc, connections)?)
}

/// An insert of 5 into one channel of the output, beside a gain of one into three.
pub fn fan_out(alloc: Global) -> Result<Graph, AllocError>
    ensures fits { IfOk result Fits }
    ensures is { IfOk result (λ g. g ≡ fan_out) }
{
    let nodes = vec![in alloc; input(1, 1), output(2, 3), insert(3, 5), gain(4, 65536)]?;
    let connections = [
        joined(1, 3),
        joined(3, 2),
        joined(1, 4),
        joined(4, 2),
        joined_at(4, 0, 2, 1),
        joined_at(4, 0, 2, 2),
    ];
    graph_of(alloc, nodes, &connections)
}

/// That many nodes of one kind in a row between an input and an output of one channel: uids 3, 4, .. in their order.
/// More than 500 are 500.
pub fn in_a_row(alloc: Global, nodes: u32, kind: &Kind) -> Result<Graph, AllocError>
    ensures { IfOk result Fits }
{
    let mut list = List::new(alloc);
    list.push(input(1, 1))?;
    list.push(output(2, 1))?;
    let mut connections = List::new(alloc);
    let mut last = 1;
    for uid in 3..3 + nodes.min(500) {
        list.push(node(uid, kind.copy(alloc)?))?;
        connections.push(joined(last, uid))?;
        last = uid;
    }
    connections.push(joined(last, 2))?;
    fitting(list, connections)
}

/// The graph with one node more, into which a connection from another one leads, and from which none does.
pub fn with_idle(mut graph: Graph, node: Node, source: u32) -> Result<Graph, AllocError>
    ensures { IfOk result Fits }
{
    graph.connections.push(joined(source, node.uid.0))?;
    graph.nodes.push(node)?;
    fitting(graph.nodes, graph.connections)
}
