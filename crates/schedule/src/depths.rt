//! How deep each node stands: the greatest number of connections on a path into it.

ghost use Rattle.std.specs.Prelude.{◌≡◌, ◌<◌, suc, length, map, slice_index, IfOk};
ghost use Rattle.std.specs.List.{All};
ghost use Rattle.graph_model.specs.Paths.{greatest};
ghost use Rattle.graph_model.specs.Sound.{IsSound};
ghost use Rattle.schedule.specs.Depths.{AreJoints, AreSources, depths_of};

use crate::groups::{Entry, grouped};
use connections::{Checked, Ends};
use graph_model::List;
use std::alloc::{AllocError, Global};

/// The source of each connection, in the group of its destination.
fn joints(alloc: Global, graph: &Checked) -> Result<Vec<Entry<u32>>, AllocError>
    ensures { IfOk result (λ v. AreJoints graph.now graph.now.connections v.items) }
{
    let mut joints = Vec::new(alloc);
    for connection in 0..graph.graph().connections.len() as u32 {
        let Ends {
            source,
            destination,
        } = graph.ends(connection);
        joints.push(Entry {
            group: destination,
            item: source,
        })?;
    }
    Ok(joints)
}

/// The sources of the connections into each node, by index.
fn sources(alloc: Global, graph: &Checked) -> Result<Vec<List<u32>>, AllocError>
    ensures { IfOk result (λ v. AreSources graph.now v.items) }
{
    let joints = joints(alloc, graph)?;
    let sources = grouped(alloc, graph.graph().nodes.len() as u32, &joints)?;
    Ok(sources)
}

/// One more than the greatest depth of the sources, and 0 where there are none.
fn depth_after(sources: &[u32], depths: &[u32]) -> u32
    requires within { All (λ s. s < length depths.now) sources.now }
    requires small { All (λ d. d < 512) depths.now }
    ensures { result ≡ greatest (map (λ s. suc (slice_index depths.now s)) sources.now) }
{
    let mut depth: u32 = 0;
    for source in sources {
        depth = depth.max(depths[*source as usize] + 1);
    }
    depth
}

/// For each node, by index, the greatest number of connections on a path into it.
pub(crate) fn depths(alloc: Global, graph: &Checked) -> Result<Vec<u32>, AllocError>
    ensures depths { IfOk result (λ v. v.items ≡ depths_of graph.now) }
    ensures sound { IfOk result (λ _. IsSound graph.now) }
{
    let sources = sources(alloc, graph)?;
    let mut depths: Vec<u32> = vec![in alloc; 0; graph.graph().nodes.len()]?;
    for node in graph.order().as_slice() {
        let node = *node as usize;
        depths[node] = depth_after(sources[node].as_slice(), &depths);
    }
    Ok(depths)
}
