//! The points of a graph's network: the root, and the live nodes.

ghost use Rattle.std.specs.Prelude.{◌≡◌, ◌≤◌, ◌<◌, ◌^◌, length, slice_index, IfOk, MatchOption};
ghost use Rattle.std.specs.List.{Contains};
ghost use Rattle.std.specs.List.Sorted.{IsStrictlyIncreasing};
ghost use Rattle.graph_model.specs.Sound.{IsSound};
ghost use Rattle.alignment.specs.Networks.{ArePoints};

use connections::Checked;
use std::alloc::{AllocError, Global};

/// The root, which is 0, and the uids of the live nodes, ascending. The place in this list is the number of a point.
pub(crate) fn points(alloc: Global, graph: &Checked) -> Result<Vec<u32>, AllocError>
    ensures points { IfOk result (λ v. ArePoints graph.now v.items) }
    ensures sound { IfOk result (λ _. IsSound graph.now) }
{
    let mut points = Vec::new(alloc);
    points.push(0)?;
    for (index, node) in graph.graph().nodes.as_slice().iter().enumerate() {
        if graph.is_live(index as u32) {
            points.push(node.uid.0)?;
        }
    }
    points.sort_unstable();
    Ok(points)
}

/// The number of a point, where there is one of that uid.
pub(crate) fn point_of(points: &[u32], uid: u32) -> Option<u32>
    requires rising { IsStrictlyIncreasing points.now }
    requires few { length points.now ≤ 2 ^ 14 }
    ensures { MatchOption result (Contains points.now uid → ⊥) (λ k. (k < length points.now) × (slice_index points.now k ≡ uid)) }
{
    match points.binary_search(&uid) {
        Ok(place) => Some(place as u32),
        Err(_) => None,
    }
}
