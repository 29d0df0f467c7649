//! Look-ups in a graph.

ghost use Rattle.std.specs.Prelude.{◌≡◌, ◌<◌, length, get_or, IfOk};
ghost use Rattle.graph_model.specs.Graphs.{latency_at};
ghost use Rattle.graph_model.specs.Paths.{is_live, live_connections};
ghost use Rattle.graph_model.specs.declared.graph.Connection.{Connection};

use connections::Checked;
use graph_model::{Connection, Graph, Uid, latency};
use std::alloc::{AllocError, Global};

/// The latency of a node in frames, and 0 where there is no node of that name.
pub(crate) fn latency_of(graph: &Graph, uid: Uid) -> u32
    ensures { result ≡ latency_at graph.now uid.0 }
{
    match graph.node(uid) {
        Some(node) => latency(&node.kind),
        None => 0,
    }
}

/// Whether a connection, by its index, leads to a live node.
pub(crate) fn leads_to_live(g: &Checked, connection: u32) -> bool
    requires { connection < length g.now.connections }
    ensures { (d : Connection) → result ≡ is_live g.now (get_or g.now.connections connection d).dst.0 }
{
    g.is_live(g.ends(connection).destination)
}

/// The live connections, in the graph's order.
pub(crate) fn live_connections(alloc: Global, g: &Checked) -> Result<Vec<Connection>, AllocError>
    ensures { IfOk result (λ v. v.items ≡ live_connections g.now) }
{
    let mut live = Vec::new(alloc);
    let connections = g.graph().connections.as_slice();
    for (k, connection) in connections.iter().enumerate() {
        if leads_to_live(g, k as u32) {
            live.push(*connection)?;
        }
    }
    Ok(live)
}
