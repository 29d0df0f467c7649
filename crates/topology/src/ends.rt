//! Connections by the indexes of their nodes.

ghost use Rattle.std.specs.Prelude.{◌≡◌, ◌<◌, IfOk, length};
ghost use Rattle.graph_model.specs.Graphs.{IsNode};
ghost use Rattle.graph_model.specs.Named.{IsNamed, uids_of, uid_at};
ghost use Rattle.topology.specs.Links.{AreIndexes, AreLinks};

use graph_model::{Graph, Uid};
use std::alloc::{AllocError, Global};
use std::collections::HashMap;

/// The two ends of a connection, by the indexes of their nodes: their places in the graph's list, from 0.
#[derive(Clone, Copy, Debug, PartialEq, Eq)]
pub struct Link {
    /// The node that it reads.
    pub from: usize,
    /// The node that it leads into.
    pub to: usize,
}

/// The names of the nodes, by index.
pub(crate) fn uids(alloc: Global, graph: &Graph) -> Result<Vec<u32>, AllocError>
    ensures { IfOk result (λ v. v.items ≡ uids_of graph.now) }
{
    let nodes = graph.nodes.as_slice();
    nodes.iter().map(|node| node.uid.0).collect(alloc)
}

/// The index of a node for each name that is one's. It fails only for want of memory.
pub fn indexes(alloc: Global, graph: &Graph) -> Result<HashMap<u32, usize>, AllocError>
    ensures { IfOk result (AreIndexes graph.now) }
{
    let mut indexes = HashMap::new(alloc);
    let nodes = graph.nodes.as_slice();
    for index in 0..nodes.len() {
        indexes.insert(nodes[index].uid.0, index)?;
    }
    Ok(indexes)
}

/// The index of the node of a name that is one's, as `indexes` has it.
pub fn index_of(graph: &Graph, indexes: &HashMap<u32, usize>, uid: Uid) -> usize
    requires indexes { AreIndexes graph.now indexes.now }
    requires node { IsNode graph.now uid.0 }
    ensures within { result < length graph.now.nodes }
    ensures name { uid_at graph.now result ≡ uid.0 }
{
    *indexes.get(&uid.0).unwrap()
}

/// A link for each connection, in the graph's order. It fails only for want of memory.
pub fn links(alloc: Global, graph: &Graph) -> Result<Vec<Link>, AllocError>
    requires { IsNamed graph.now }
    ensures { IfOk result (λ v. AreLinks graph.now v.items) }
{
    let indexes = indexes(alloc, graph)?;
    let mut links = Vec::new(alloc);
    for connection in graph.connections.as_slice() {
        links.push(Link {
            from: index_of(graph, &indexes, connection.src),
            to: index_of(graph, &indexes, connection.dst),
        })?;
    }
    Ok(links)
}
