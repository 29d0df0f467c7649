//! The live nodes by their depths.

ghost use Rattle.std.specs.Prelude.{◌≡◌, IfOk};
ghost use Rattle.schedule.specs.Depths.{depths_of};
ghost use Rattle.schedule.specs.Levels.{AreByDepth};

use crate::groups::Entry;
use connections::Checked;
use graph_model::Uid;
use std::alloc::{AllocError, Global};

/// The live nodes, ascending by uid, each in the group of its depth.
pub(crate) fn live_nodes(
    alloc: Global,
    graph: &Checked,
    depths: &[u32],
) -> Result<Vec<Entry<Uid>>, AllocError>
    requires { depths.now ≡ depths_of graph.now }
    ensures { IfOk result (λ v. AreByDepth graph.now v.items) }
{
    let mut live = Vec::new(alloc);
    for (index, node) in graph.graph().nodes.as_slice().iter().enumerate() {
        if graph.is_live(index as u32) {
            live.push(Entry {
                group: depths[index],
                item: node.uid,
            })?;
        }
    }
    live.sort_unstable_by_key(|entry| entry.item.0);
    Ok(live)
}
