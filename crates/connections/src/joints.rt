//! The checks of the connections.

ghost use Rattle.std.specs.Prelude.{◌≡◌, ◌<◌, ◌+◌, [], length, slice_get, Some, IfOk, IfErr, MatchResult};
ghost use Rattle.std.specs.Option.{option_copied};
ghost use Rattle.graph_model.specs.Checks.{IsConnection, AreConnections};
ghost use Rattle.graph_model.specs.Graphs.{node_named};
ghost use Rattle.graph_model.specs.Sound.{Fits};
ghost use Rattle.graph_model.specs.declared.graph.Connection.{Connection};
ghost use Rattle.topology.specs.Links.{AreIndexes};
ghost use Rattle.connections.specs.Faults.{HasGoodNodes, IsFirstFault, IsRefusal};
ghost use Rattle.connections.specs.Places.{ArePlaces, HasPlace, place_in};

use crate::fault::GraphFault;
use graph_model::{Connection, Graph, Node, Refused, Side, Uid};
use std::alloc::{AllocError, Global};
use std::collections::HashMap;

/// The two ends of a connection and their channels, as the key of its place.
#[derive(Clone, Copy, PartialEq, Eq, Hash, Drop)]
struct Joint {
    source: u32,
    source_channel: u32,
    destination: u32,
    destination_channel: u32,
}

/// The node of a name, where there is one.
fn node<'a>(graph: &'a Graph, indexes: &HashMap<u32, usize>, uid: Uid) -> Option<&'a Node>
    requires fits { Fits graph.now }
    requires nodes { HasGoodNodes graph.now }
    requires indexes { AreIndexes graph.now indexes.now }
    ensures { option_copied result ≡ node_named graph.now uid.0 }
{
    match indexes.get(&uid.0) {
        Some(index) => Some(&graph.nodes.as_slice()[*index]),
        None => None,
    }
}

/// Finds what is wrong with a connection by itself: a node that is not there, one node at both ends, a channel that is
/// not there.
fn check_alone(graph: &Graph, indexes: &HashMap<u32, usize>, at: usize) -> Result<(), GraphFault>
    requires fits { Fits graph.now }
    requires within { at < length graph.now.connections }
    requires nodes { HasGoodNodes graph.now }
    requires indexes { AreIndexes graph.now indexes.now }
    requires before { AreConnections graph.now at }
    ensures { MatchResult result
        (λ _. (c : Connection) → slice_get graph.now.connections at ≡ Some c → IsConnection graph.now [] c)
        (IsFirstFault graph.now) }
{
    let Connection {
        src,
        src_channel,
        dst,
        dst_channel,
    } = graph.connections.as_slice()[at];
    let at = at as u32;
    let Some(source) = node(graph, indexes, src) else {
        return Err(GraphFault::NoSuchNode { at, uid: src });
    };
    let Some(destination) = node(graph, indexes, dst) else {
        return Err(GraphFault::NoSuchNode { at, uid: dst });
    };
    if src == dst {
        return Err(GraphFault::SelfConnection { at });
    }
    if src_channel >= source.outs() {
        return Err(GraphFault::ChannelRange {
            at,
            side: Side::Source,
            channel: src_channel,
            count: source.outs(),
        });
    }
    if dst_channel >= destination.ins() {
        return Err(GraphFault::ChannelRange {
            at,
            side: Side::Destination,
            channel: dst_channel,
            count: destination.ins(),
        });
    }
    Ok(())
}

/// Notes the place of a connection, and tells the one that was noted of an equal connection before.
fn note(
    places: &mut HashMap<Joint, usize>,
    connection: Connection,
    at: usize,
) -> Result<Option<usize>, AllocError>
    ensures before { IfOk result (λ earlier. earlier ≡ place_in places.old connection) }
    ensures noted { IfOk result (λ _. HasPlace places.old places.new connection at) }
{
    let joint = Joint {
        source: connection.src.0,
        source_channel: connection.src_channel,
        destination: connection.dst.0,
        destination_channel: connection.dst_channel,
    };
    Ok(places.insert(joint, at)?)
}

/// Finds what is wrong with a connection after those before it, whose places are known.
fn check_connection(
    graph: &Graph,
    indexes: &HashMap<u32, usize>,
    places: &mut HashMap<Joint, usize>,
    at: usize,
) -> Result<(), Refused<GraphFault>>
    requires fits { Fits graph.now }
    requires within { at < length graph.now.connections }
    requires nodes { HasGoodNodes graph.now }
    requires indexes { AreIndexes graph.now indexes.now }
    requires before { AreConnections graph.now at }
    requires places { ArePlaces graph.now.connections at places.old }
    ensures connections { IfOk result (λ _. AreConnections graph.now (at + 1)) }
    ensures places { IfOk result (λ _. ArePlaces graph.now.connections (at + 1) places.new) }
    ensures refusal { IfErr result (IsRefusal graph.now) }
{
    check_alone(graph, indexes, at)?;
    match note(places, graph.connections.as_slice()[at], at)? {
        Some(earlier) => Err(Refused::Fault(GraphFault::Twice {
            at: at as u32,
            earlier: earlier as u32,
        })),
        None => Ok(()),
    }
}

/// Checks the connections, one after the other.
pub(crate) fn check_connections(
    alloc: Global,
    graph: &Graph,
    indexes: &HashMap<u32, usize>,
) -> Result<(), Refused<GraphFault>>
    requires fits { Fits graph.now }
    requires nodes { HasGoodNodes graph.now }
    requires indexes { AreIndexes graph.now indexes.now }
    ensures connections { IfOk result (λ _. AreConnections graph.now (length graph.now.connections)) }
    ensures refusal { IfErr result (IsRefusal graph.now) }
{
    let mut places = HashMap::new(alloc);
    for at in 0..graph.connections.len() {
        check_connection(graph, indexes, &mut places, at)?;
    }
    Ok(())
}
