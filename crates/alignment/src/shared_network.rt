//! The network of shared lines: the network of a graph with a mirror for each value.

ghost use Rattle.std.specs.Prelude.{◌≡◌, map, IfOk};
ghost use Rattle.graph_model.specs.Sound.{IsSound};
ghost use Rattle.plan_model.specs.Lives.{values as values_of};
ghost use Rattle.alignment.specs.Links.{links_of};
ghost use Rattle.alignment.specs.Mirrors.{mirror_link};
ghost use Rattle.alignment.specs.Networks.{ArePoints};
ghost use Rattle.alignment.specs.SharedNetworks.{shared_points, AreSharedArcs, IsSharedNetworkOf};
ghost use Rattle.alignment.specs.Values.{port};

use crate::links::Link;
use crate::mirrors::{add_from_mirrors, add_to_mirrors};
use crate::needs::needs;
use crate::network::{add_from_root, add_links, add_to_root};
use crate::values::Value;
use connections::Checked;
use graph_model::List;
use min_cost_flow::{Arc, Network};
use plan_model::Point;
use std::alloc::{AllocError, Global};

/// The names of the points: the root, the live nodes, and the mirrors of the values.
pub(crate) fn names(
    alloc: Global,
    graph: &Checked,
    points: &[u32],
    values: &[Value],
) -> Result<Vec<Point>, AllocError>
    requires { map port values.now ≡ values_of graph.now }
    ensures { IfOk result (λ v. v.items ≡ shared_points graph.now points.now) }
{
    let mut names = Vec::new(alloc);
    for uid in points {
        names.push(Point {
            uid: *uid,
            channel: None,
        })?;
    }
    for value in values {
        names.push(Point {
            uid: value.uid,
            channel: Some(value.channel),
        })?;
    }
    Ok(names)
}

/// The arcs of the network, one for each pair of points with a constraint, ascending by tail and then by head.
fn arcs(
    alloc: Global,
    graph: &Checked,
    points: &[u32],
    values: &[Value],
    links: &[Link],
) -> Result<Vec<Arc>, AllocError>
    requires sound { IsSound graph.now }
    requires points { ArePoints graph.now points.now }
    requires values { map port values.now ≡ values_of graph.now }
    requires links { links.now ≡ links_of graph.now points.now }
    ensures { IfOk result (λ v. AreSharedArcs graph.now points.now v.items) }
{
    let mut arcs = Vec::new(alloc);
    add_links(&mut arcs, links)?;
    add_to_mirrors(&mut arcs, graph, points, values, links)?;
    add_from_root(&mut arcs, points.len())?;
    add_to_root(&mut arcs, graph, points)?;
    add_from_mirrors(&mut arcs, points.len(), values.len(), graph.latency())?;
    arcs.sort_unstable();
    arcs.dedup();
    Ok(arcs)
}

/// The network whose flows bound the sum of the lines of every alignment of the graph's latency from below.
pub(crate) fn shared_network(
    alloc: Global,
    graph: &Checked,
    points: &[u32],
    values: &[Value],
    links: &[Link],
    mirror_links: &[Link],
) -> Result<Network, AllocError>
    requires sound { IsSound graph.now }
    requires points { ArePoints graph.now points.now }
    requires values { map port values.now ≡ values_of graph.now }
    requires links { links.now ≡ links_of graph.now points.now }
    requires mirrors { mirror_links.now ≡ map (mirror_link graph.now points.now) (values_of graph.now) }
    ensures { IfOk result (IsSharedNetworkOf graph.now points.now) }
{
    let arcs = arcs(alloc, graph, points, values, links)?;
    let count = (points.len() + values.len()) as u32;
    let needs = needs(alloc, count, mirror_links)?;
    Ok(Network {
        points: count,
        arcs: List::from_slice(alloc, &arcs)?,
        need: List::from_slice(alloc, &needs)?,
    })
}
