//! The network of a graph: its difference constraints as arcs between its points.

ghost use Rattle.std.specs.Prelude.{◌≡◌, ◌<◌, ◌≤◌, ◌-◌, ◌^◌, ◌++◌, length, map, IfOk, OnOk};
ghost use Rattle.std.specs.List.{range_with_len};
ghost use Rattle.graph_model.specs.Sound.{IsSound};
ghost use Rattle.alignment.specs.Networks.{ArePoints, AreNetworkArcs, IsNetworkOf};
ghost use Rattle.alignment.specs.Links.{links_of, arc_along, arc_from_root, arcs_to_root};

use crate::links::Link;
use crate::needs::needs;
use crate::points::point_of;
use connections::Checked;
use graph_model::List;
use min_cost_flow::{Arc, Network};
use std::alloc::{AllocError, Global};

/// An arc along each link: its destination stands no earlier than its source and the latency of that.
pub(crate) fn add_links(arcs: &mut Vec<Arc>, links: &[Link]) -> Result<(), AllocError>
    ensures { OnOk result (arcs.new.items ≡ arcs.old.items ++ map arc_along links.now) }
{
    for link in links {
        arcs.push(Arc {
            tail: link.tail,
            head: link.head,
            least: link.latency as i64,
        })?;
    }
    Ok(())
}

/// An arc from the root to each live node: no position is below 0.
pub(crate) fn add_from_root(arcs: &mut Vec<Arc>, points: usize) -> Result<(), AllocError>
    requires some { 0 < points }
    requires few { points ≤ 2 ^ 14 }
    ensures { OnOk result (arcs.new.items ≡ arcs.old.items ++ map arc_from_root (range_with_len 1 (points - 1))) }
{
    for point in 1..points {
        arcs.push(Arc {
            tail: 0,
            head: point as u32,
            least: 0,
        })?;
    }
    Ok(())
}

/// An arc to the root from a live input node, which keeps it at 0, and one from the output node, which keeps it at the
/// graph's latency.
pub(crate) fn add_to_root(
    arcs: &mut Vec<Arc>,
    graph: &Checked,
    points: &[u32],
) -> Result<(), AllocError>
    requires sound { IsSound graph.now }
    requires points { ArePoints graph.now points.now }
    ensures { OnOk result (arcs.new.items ≡ arcs.old.items ++ arcs_to_root graph.now points.now) }
{
    if let Some(tail) = point_of(points, graph.uid(graph.input()).0) {
        arcs.push(Arc {
            tail,
            head: 0,
            least: 0,
        })?;
    }
    arcs.push(Arc {
        tail: point_of(points, graph.uid(graph.output()).0).unwrap(),
        head: 0,
        least: -(graph.latency() as i64),
    })?;
    Ok(())
}

/// The arcs of the network, one for each pair of points with a constraint, ascending by tail and then by head.
fn arcs(
    alloc: Global,
    graph: &Checked,
    points: &[u32],
    links: &[Link],
) -> Result<Vec<Arc>, AllocError>
    requires sound { IsSound graph.now }
    requires points { ArePoints graph.now points.now }
    requires links { links.now ≡ links_of graph.now points.now }
    ensures { IfOk result (λ v. AreNetworkArcs graph.now points.now v.items) }
{
    let mut arcs = Vec::new(alloc);
    add_links(&mut arcs, links)?;
    add_from_root(&mut arcs, points.len())?;
    add_to_root(&mut arcs, graph, points)?;
    arcs.sort_unstable();
    arcs.dedup();
    Ok(arcs)
}

/// The network whose flows bound the total of every alignment of the graph's latency from below.
pub(crate) fn network(
    alloc: Global,
    graph: &Checked,
    points: &[u32],
    links: &[Link],
) -> Result<Network, AllocError>
    requires sound { IsSound graph.now }
    requires points { ArePoints graph.now points.now }
    requires links { links.now ≡ links_of graph.now points.now }
    ensures { IfOk result (IsNetworkOf graph.now points.now) }
{
    let arcs = arcs(alloc, graph, points, links)?;
    let needs = needs(alloc, points.len() as u32, links)?;
    Ok(Network {
        points: points.len() as u32,
        arcs: List::from_slice(alloc, &arcs)?,
        need: List::from_slice(alloc, &needs)?,
    })
}
