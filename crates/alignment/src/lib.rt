//! The alignment of a graph's paths with the fewest delay samples at the least latency.
//!
//! A node's position is the time, in frames, at which its input of time 0 is taken; a connection holds back what is
//! left between the end of its source and its destination. [`align`] puts the live nodes where the delays sum up to
//! the least, and [`align_shared`] where the lines of the values do, each of which the connections that read it
//! share. The dual of that is a flow of least cost in the network of difference constraints (Ahuja, Magnanti and
//! Orlin, Network Flows, chapter 9): its points are the live nodes and a root, its potentials the positions. Where
//! lines are shared each value has a point more, its mirror, which stands no earlier than any node that reads the
//! value.
//!
//! Each promises that no alignment has less latency, that none of that latency has a smaller total, and that of those
//! with that total none has an earlier position; and it gives a flow whose bound is the total, which shows the second.
//!
//! It stands on `connections` for sound graphs, on `plan_model` for what an alignment and its flow are and for the laws
//! of their duality, and on `min_cost_flow` for flow and potentials.
#![tactic(auto)]

ghost use Rattle.std.specs.Prelude.{ℕ, ◌≤◌, IfOk};
ghost use Rattle.graph_model.specs.Graphs.{output_name};
ghost use Rattle.plan_model.specs.Alignments.{IsAlignment, position_in};
ghost use Rattle.plan_model.specs.Results.{IsAligned};

mod carried;
mod links;
mod mirrors;
mod needs;
mod network;
mod placed;
mod points;
mod shared;
mod shared_network;
mod values;

use crate::carried::{bound, carried};
use crate::links::links;
use crate::network::network;
use crate::placed::{lines, places, total};
use crate::points::points;
pub use crate::shared::align_shared;
use connections::Checked;
use graph_model::List;
use min_cost_flow::solve;
use plan_model::{At, LineAt, Units};
use std::alloc::{AllocError, Global};

/// An alignment, its delay lines, and the flow that shows that no total is smaller.
#[derive(Debug, PartialEq, Eq, Drop)]
pub struct Aligned {
    /// The positions of the live nodes, in frames, ascending by uid.
    pub at: List<At>,
    /// The delay lines of the live connections, ascending by index.
    pub lines: List<LineAt>,
    /// The sum of the delays, in frames.
    pub total: u64,
    /// The arcs of the flow that carry units, ascending by tail and then by head.
    pub arcs: List<Units>,
    /// The bound that the flow sets to every total of this latency; it is `total`.
    pub bound: u64,
}

/// The alignment of the least latency with the least total, and of those the earliest, with a flow whose bound is the
/// total.
///
/// Positions and delays are in frames. The live input node stands at 0 and the output node at the graph's latency. It
/// fails only for want of memory.
pub fn align(alloc: Global, graph: &Checked) -> Result<Aligned, AllocError>
    ensures aligned { IfOk result (λ a. IsAligned graph.now a.at a.lines a.total a.arcs a.bound) }
    ensures least_latency { IfOk result (λ a. (q : ℕ → ℕ) → IsAlignment graph.now q
        → position_in a.at (output_name graph.now) ≤ q (output_name graph.now)) }
{
    let points = points(alloc, graph)?;
    let links = links(alloc, graph, &points)?;
    let network = network(alloc, graph, &points, &links)?;
    let solved = solve(alloc, &network)?;
    let potentials = solved.potential.as_slice();
    let arcs = network.arcs.as_slice();
    let flow = solved.flow.as_slice();
    Ok(Aligned {
        at: places(alloc, &points, potentials)?,
        lines: lines(alloc, &links, potentials)?,
        total: total(&links, potentials),
        arcs: carried(alloc, &points, arcs, flow)?,
        bound: bound(arcs, flow, &links) as u64,
    })
}
