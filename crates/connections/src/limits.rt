//! The limits of a graph's delays and of what its processors keep.

ghost use Rattle.std.specs.Prelude.{◌≡◌, ◌<◌, ◌≤◌, ◌^◌, ◌*◌, length, map, sum_by, MatchResult};
ghost use Rattle.graph_model.specs.Graphs.{IsNode};
ghost use Rattle.graph_model.specs.Kinds.{cells_of};
ghost use Rattle.graph_model.specs.Ranges.{HasRange};
ghost use Rattle.graph_model.specs.Paths.{is_live, reach, live_connections, latency_of_graph};
ghost use Rattle.graph_model.specs.Sound.{Fits, IsShaped};
ghost use Rattle.topology.specs.Answers.{IsReachOf};
ghost use Rattle.topology.specs.Links.{AreIndexes};
ghost use Rattle.connections.specs.Faults.{HasFewDelays, HasFewCells, IsFirstFault};

use crate::fault::GraphFault;
use graph_model::{Graph, Kind, Uid};
use std::collections::HashMap;
use topology::{Reach, index_of};

/// The most frames that the lines of a graph may hold together, were each as long as the graph's latency.
const MOST_DELAYS: u128 = 1 << 26;

/// The most numbers that the processors of a graph may keep.
const MOST_CELLS: u64 = 1 << 25;

/// The latency of a graph: the reach of its output node.
fn latency_of(graph: &Graph, reach: &Reach) -> u64
    requires shaped { IsShaped graph.now }
    requires reach { IsReachOf graph.now reach.now }
    ensures { result ≡ latency_of_graph graph.now }
{
    let output = graph.output_index().unwrap();
    reach.at.as_slice()[output]
}

/// Whether the node of a uid is live.
fn is_live(graph: &Graph, indexes: &HashMap<u32, usize>, live: &[bool], uid: Uid) -> bool
    requires indexes { AreIndexes graph.now indexes.now }
    requires node { IsNode graph.now uid.0 }
    requires live { live.now ≡ map (λ n. is_live graph.now n.uid.0) graph.now.nodes }
    ensures { result ≡ is_live graph.now uid.0 }
{
    live[index_of(graph, indexes, uid)]
}

/// How many connections lead to a live node.
fn live_connections(graph: &Graph, indexes: &HashMap<u32, usize>, live: &[bool]) -> usize
    requires indexes { AreIndexes graph.now indexes.now }
    requires shaped { IsShaped graph.now }
    requires live { live.now ≡ map (λ n. is_live graph.now n.uid.0) graph.now.nodes }
    ensures count { result ≡ length (live_connections graph.now) }
    ensures few { result ≤ length graph.now.connections }
{
    let mut count = 0;
    for connection in graph.connections.as_slice() {
        if is_live(graph, indexes, live, connection.dst) {
            count += 1;
        }
    }
    count
}

/// Finds that the latency times the number of live connections passes its limit.
pub(crate) fn check_delays(
    graph: &Graph,
    indexes: &HashMap<u32, usize>,
    reach: &Reach,
    live: &[bool],
) -> Result<(), GraphFault>
    requires fits { Fits graph.now }
    requires indexes { AreIndexes graph.now indexes.now }
    requires shaped { IsShaped graph.now }
    requires reach { IsReachOf graph.now reach.now }
    requires live { live.now ≡ map (λ n. is_live graph.now n.uid.0) graph.now.nodes }
    ensures { MatchResult result (λ _. HasFewDelays graph.now) (IsFirstFault graph.now) }
{
    let latency = latency_of(graph, reach);
    let connections = live_connections(graph, indexes, live) as u32;
    if connections as u128 * latency as u128 > MOST_DELAYS {
        return Err(GraphFault::DelayBound {
            latency,
            connections,
        });
    }
    Ok(())
}

/// How many numbers a processor keeps.
fn cells_of(kind: &Kind) -> u64
    requires { HasRange kind.now }
    ensures cells { result ≡ cells_of kind.now }
    ensures small { result ≤ 2 ^ 25 }
{
    match kind {
        Kind::Input { .. } | Kind::Output { .. } | Kind::Gain { .. } | Kind::Mixer { .. } => 0,
        Kind::Fir { channels, taps, .. } => *channels as u64 * taps.len() as u64,
        Kind::Biquad { channels, .. } => *channels as u64 * 4,
        Kind::Limiter {
            channels,
            lookahead,
            ..
        } => (*channels as u64 + 4) * (*lookahead as u64 + 1),
        Kind::Delay { channels, samples } | Kind::Insert { channels, samples } => {
            *channels as u64 * *samples as u64
        }
    }
}

/// Finds that the processors keep more numbers than their limit.
pub(crate) fn check_cells(graph: &Graph) -> Result<(), GraphFault>
    requires fits { Fits graph.now }
    requires shaped { IsShaped graph.now }
    requires delays { HasFewDelays graph.now }
    ensures { MatchResult result (λ _. HasFewCells graph.now) (IsFirstFault graph.now) }
{
    let mut cells = 0;
    for node in graph.nodes.as_slice() {
        cells += cells_of(&node.kind);
    }
    if cells > MOST_CELLS {
        return Err(GraphFault::StateBound { cells });
    }
    Ok(())
}
