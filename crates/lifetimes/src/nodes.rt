//! The wave of each node.

ghost use Rattle.std.specs.Prelude.{◌≡◌, ◌≤◌, ◌==◌, ◌^◌, ◌<◌, length, map, position, IfOk};
ghost use Rattle.std.specs.List.{list_any};
ghost use Rattle.plan_model.specs.Schedules.{wave_of};

use graph_model::{Graph, Uid};
use plan_model::Wave;
use std::alloc::{AllocError, Global};

/// Whether a node stands in a wave.
fn stands_in(wave: &Wave, uid: Uid) -> bool
    ensures { result ≡ list_any (λ u. u.0 == uid.0) wave.now.nodes }
{
    wave.nodes.as_slice().iter().any(|other| other.0 == uid.0)
}

/// The index of the first wave that has a node.
fn wave_with(waves: &[Wave], uid: Uid) -> Option<usize>
    ensures { result ≡ position (λ w. list_any (λ u. u.0 == uid.0) w.nodes) waves.now }
{
    waves.iter().position(|wave| stands_in(wave, uid))
}

/// The index of the first wave that has a node, and the number of waves where none has.
fn wave_of(waves: &[Wave], uid: Uid) -> u32
    requires { length waves.now < 2 ^ 32 }
    ensures { result ≡ wave_of waves.now uid.0 }
{
    wave_with(waves, uid).unwrap_or(waves.len()) as u32
}

/// The wave of each node, by node index; of an idle one it is the number of waves.
pub(crate) fn node_waves(
    alloc: Global,
    graph: &Graph,
    waves: &[Wave],
) -> Result<Vec<u32>, AllocError>
    requires { length waves.now < 2 ^ 32 }
    ensures { IfOk result (λ v. v.items ≡ map (λ n. wave_of waves.now n.uid.0) graph.now.nodes) }
{
    let nodes = graph.nodes.as_slice();
    nodes
        .iter()
        .map(|node| wave_of(waves, node.uid))
        .collect(alloc)
}
