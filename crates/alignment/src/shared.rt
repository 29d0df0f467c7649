//! The alignment with the fewest delay samples where the connections that read a value share its line.

ghost use Rattle.std.specs.Prelude.{ℕ, ◌≡◌, ◌<◌, ◌≤◌, length, map, IfOk};
ghost use Rattle.std.specs.List.{All};
ghost use Rattle.graph_model.specs.Graphs.{output_name};
ghost use Rattle.plan_model.specs.Alignments.{IsAlignment, position_in};
ghost use Rattle.plan_model.specs.SharedFlows.{at_node};
ghost use Rattle.plan_model.specs.SharedResults.{HasAlignedShared};
ghost use Rattle.alignment.specs.Numbered.{entries_by};
ghost use Rattle.alignment.specs.SharedNetworks.{point_entry};
ghost use Rattle.alignment.specs.Places.{ArePositions, IsTimely};
ghost use Rattle.alignment.specs.Mirrors.{line_of_link};

use crate::carried::bound;
use crate::links::{Link, links};
use crate::mirrors::mirror_links;
use crate::placed::{delay, places, total};
use crate::points::points;
use crate::shared_network::{names, shared_network};
use crate::values::{Value, values};
use connections::Checked;
use graph_model::{List, Uid};
use min_cost_flow::{Arc, solve};
use plan_model::{AlignedShared, LineOf, Point, PointUnits};
use std::alloc::{AllocError, Global};

/// The arcs that carry units, by the names of their ends, in their order.
fn carried(
    alloc: Global,
    names: &[Point],
    arcs: &[Arc],
    flow: &[u64],
) -> Result<List<PointUnits>, AllocError>
    requires each { length flow.now ≡ length arcs.now }
    requires ends { All (λ a. (a.tail < length names.now) × (a.head < length names.now)) arcs.now }
    ensures { IfOk result (λ v. v ≡ entries_by point_entry (at_node 0) names.now arcs.now flow.now) }
{
    let mut carried = List::new(alloc);
    for (k, arc) in arcs.iter().enumerate() {
        if flow[k] > 0 {
            carried.push(PointUnits {
                tail: names[arc.tail as usize],
                head: names[arc.head as usize],
                units: flow[k],
            })?;
        }
    }
    Ok(carried)
}

/// The lines of the values, in their order.
fn lines(
    alloc: Global,
    values: &[Value],
    links: &[Link],
    potentials: &[i64],
) -> Result<List<LineOf>, AllocError>
    requires positions { ArePositions potentials.now }
    requires timely { All (IsTimely potentials.now) links.now }
    requires named { All (λ l. l.index < length values.now) links.now }
    ensures { IfOk result (λ v. v ≡ map (line_of_link values.now potentials.now) links.now) }
{
    let mut lines = List::new(alloc);
    for link in links {
        let value = &values[link.index as usize];
        lines.push(LineOf {
            uid: Uid(value.uid),
            channel: value.channel,
            delay: delay(link, potentials),
        })?;
    }
    Ok(lines)
}

/// The alignment of the least latency with the least sum of lines, and of those the earliest, with a flow whose bound
/// is that sum.
///
/// Positions and lines are in frames; the line of a value is as long as the greatest delay of the live connections that
/// read it. The live input node stands at 0 and the output node at the graph's latency. It fails only for want of
/// memory.
pub fn align_shared(alloc: Global, graph: &Checked) -> Result<AlignedShared, AllocError>
    ensures aligned { IfOk result (HasAlignedShared graph.now) }
    ensures least_latency { IfOk result (λ a. (q : ℕ → ℕ) → IsAlignment graph.now q
        → position_in a.at (output_name graph.now) ≤ q (output_name graph.now)) }
{
    let points = points(alloc, graph)?;
    let connected = links(alloc, graph, &points)?;
    let values = values(alloc, graph, &points, &connected)?;
    let links = mirror_links(alloc, graph, &points, &values)?;
    let network = shared_network(alloc, graph, &points, &values, &connected, &links)?;
    let solved = solve(alloc, &network)?;
    let potentials = solved.potential.as_slice();
    let arcs = network.arcs.as_slice();
    let flow = solved.flow.as_slice();
    let names = names(alloc, graph, &points, &values)?;
    Ok(AlignedShared {
        at: places(alloc, &points, &potentials[..points.len()])?,
        lines: lines(alloc, &values, &links, potentials)?,
        total: total(&links, potentials),
        arcs: carried(alloc, &names, arcs, flow)?,
        bound: bound(arcs, flow, &links) as u64,
    })
}
