//! The mirrors of the values: a mirror stands no earlier than any node that reads its value.

ghost use Rattle.std.specs.Prelude.{◌≡◌, ◌<◌, ◌≤◌, ◌+◌, ◌^◌, ◌++◌, length, map, IfOk, OnOk};
ghost use Rattle.std.specs.List.{Contains, range_with_len};
ghost use Rattle.graph_model.specs.Sound.{IsSound};
ghost use Rattle.plan_model.specs.Lives.{values as values_of};
ghost use Rattle.alignment.specs.Links.{links_of};
ghost use Rattle.alignment.specs.Mirrors.{mirror_number, mirror_link, arc_to_mirror, arc_from_mirror};
ghost use Rattle.alignment.specs.Networks.{ArePoints};
ghost use Rattle.alignment.specs.Values.{port, read_of};

use crate::links::{Link, latency_of};
use crate::points::point_of;
use crate::values::{Value, place_of, read_by};
use connections::Checked;
use graph_model::Uid;
use min_cost_flow::Arc;
use std::alloc::{AllocError, Global};

/// The link of each value, from its node to its mirror; the mirrors are numbered after the nodes.
pub(crate) fn mirror_links(
    alloc: Global,
    graph: &Checked,
    points: &[u32],
    values: &[Value],
) -> Result<Vec<Link>, AllocError>
    requires sound { IsSound graph.now }
    requires points { ArePoints graph.now points.now }
    requires values { map port values.now ≡ values_of graph.now }
    ensures { IfOk result (λ v. v.items ≡ map (mirror_link graph.now points.now) (values_of graph.now)) }
{
    let mut links = Vec::new(alloc);
    for (index, value) in values.iter().enumerate() {
        let tail = point_of(points, value.uid).unwrap();
        links.push(Link {
            index: index as u32,
            tail,
            head: (points.len() + index) as u32,
            latency: latency_of(graph.graph(), Uid(value.uid)),
        })?;
    }
    Ok(links)
}

/// The mirror of the value that a live connection reads.
fn mirror_of(graph: &Checked, points: &[u32], values: &[Value], link: &Link) -> u32
    requires points { ArePoints graph.now points.now }
    requires values { map port values.now ≡ values_of graph.now }
    requires there { link.now.index < length graph.now.connections }
    requires read { Contains (values_of graph.now) (port (read_of graph.now link.now)) }
    ensures { result ≡ mirror_number graph.now points.now (port (read_of graph.now link.now)) }
{
    let connections = graph.graph().connections.as_slice();
    let value = read_by(&connections[link.index as usize]);
    points.len() as u32 + place_of(values, &value).unwrap()
}

/// An arc from each node that reads a value to the mirror of that, which stands no earlier.
pub(crate) fn add_to_mirrors(
    arcs: &mut Vec<Arc>,
    graph: &Checked,
    points: &[u32],
    values: &[Value],
    links: &[Link],
) -> Result<(), AllocError>
    requires sound { IsSound graph.now }
    requires points { ArePoints graph.now points.now }
    requires values { map port values.now ≡ values_of graph.now }
    requires links { links.now ≡ links_of graph.now points.now }
    ensures { OnOk result (arcs.new.items ≡ arcs.old.items ++ map (arc_to_mirror graph.now points.now) links.now) }
{
    for link in links {
        arcs.push(Arc {
            tail: link.head,
            head: mirror_of(graph, points, values, link),
            least: 0,
        })?;
    }
    Ok(())
}

/// An arc from each mirror to the root, which keeps it from standing after the output node.
pub(crate) fn add_from_mirrors(
    arcs: &mut Vec<Arc>,
    points: usize,
    values: usize,
    latency: u64,
) -> Result<(), AllocError>
    requires few { points + values ≤ 2 ^ 14 }
    requires early { latency ≤ 2 ^ 26 }
    ensures { OnOk result (arcs.new.items ≡ arcs.old.items ++ map (arc_from_mirror latency) (range_with_len points values)) }
{
    for point in points..points + values {
        arcs.push(Arc {
            tail: point as u32,
            head: 0,
            least: -(latency as i64),
        })?;
    }
    Ok(())
}
