//! What the live connections read.

ghost use Rattle.std.specs.Prelude.{◌≡◌, ℕ, ◌≤◌, length, map, List, IfOk};
ghost use Rattle.graph_model.specs.Sound.{IsSound};
ghost use Rattle.plan_model.specs.Schedules.{wave_of};
ghost use Rattle.plan_model.specs.declared.schedule.Wave.{Wave};
ghost use Rattle.lifetimes.specs.Reads.{reads_in};

use connections::Checked;
use graph_model::Uid;
use std::alloc::{AllocError, Global};

/// A live connection, as one that reads a value.
#[derive(Clone, Copy, PartialEq, Eq, PartialOrd, Ord)]
pub(crate) struct Read {
    /// The node that bears the value.
    pub(crate) uid: Uid,
    /// The output channel of that node.
    pub(crate) channel: u32,
    /// The wave in which the value is born.
    pub(crate) born: u32,
    /// The node that reads it.
    pub(crate) reader: Uid,
    /// The wave of the reader.
    pub(crate) wave: u32,
}

/// What each live connection reads, in the graph's order. The waves of the nodes come by node index.
pub(crate) fn reads(
    alloc: Global,
    graph: &Checked,
    node_waves: &[u32],
) -> Result<Vec<Read>, AllocError>
    requires { length node_waves.now ≡ length graph.now.nodes }
    ensures reads { IfOk result (λ v. (waves : List Wave) → node_waves.now ≡ map (λ n. wave_of waves n.uid.0) graph.now.nodes
        → v.items ≡ reads_in graph.now waves) }
    ensures sound { IfOk result (λ _. IsSound graph.now) }
{
    let mut reads = Vec::new(alloc);
    for (index, connection) in graph.graph().connections.as_slice().iter().enumerate() {
        let ends = graph.ends(index as u32);
        if graph.is_live(ends.destination) {
            reads.push(Read {
                uid: connection.src,
                channel: connection.src_channel,
                born: node_waves[ends.source as usize],
                reader: connection.dst,
                wave: node_waves[ends.destination as usize],
            })?;
        }
    }
    Ok(reads)
}
