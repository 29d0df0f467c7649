//! The live connections of a graph, between its points.

ghost use Rattle.std.specs.Prelude.{◌≡◌, IfOk};
ghost use Rattle.graph_model.specs.Graphs.{IsNode, latency_at};
ghost use Rattle.alignment.specs.Networks.{ArePoints};
ghost use Rattle.alignment.specs.Links.{links_of};

use crate::points::point_of;
use connections::Checked;
use graph_model::{Graph, Uid, latency};
use std::alloc::{AllocError, Global};

/// What holds samples back between two points: a live connection, or where readers share lines a value.
#[derive(Clone, Copy)]
pub(crate) struct Link {
    /// Its index in the graph's list of connections, or among the values.
    pub(crate) index: u32,
    /// The point of its source.
    pub(crate) tail: u32,
    /// The point of its destination, or the mirror of the value.
    pub(crate) head: u32,
    /// The latency of its source, in frames.
    pub(crate) latency: u32,
}

/// The latency of a node, in frames.
pub(crate) fn latency_of(graph: &Graph, uid: Uid) -> u32
    requires { IsNode graph.now uid.0 }
    ensures { result ≡ latency_at graph.now uid.0 }
{
    latency(&graph.node(uid).unwrap().kind)
}

/// The live connections, in the graph's order.
pub(crate) fn links(alloc: Global, graph: &Checked, points: &[u32]) -> Result<Vec<Link>, AllocError>
    requires { ArePoints graph.now points.now }
    ensures { IfOk result (λ v. v.items ≡ links_of graph.now points.now) }
{
    let mut links = Vec::new(alloc);
    let connections = graph.graph().connections.as_slice();
    for (index, connection) in connections.iter().enumerate() {
        let Some(head) = point_of(points, connection.dst.0) else {
            continue;
        };
        let tail = point_of(points, connection.src.0).unwrap();
        links.push(Link {
            index: index as u32,
            tail,
            head,
            latency: latency_of(graph.graph(), connection.src),
        })?;
    }
    Ok(links)
}
