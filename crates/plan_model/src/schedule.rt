//! Schedules in waves.

ghost use Rattle.std.specs.Prelude.{◌≡◌, IfOk};

use graph_model::{List, Uid};
use std::alloc::{AllocError, Global};

/// Nodes that can run beside each other: no live connection joins two of them.
#[derive(Debug, PartialEq, Eq, Drop)]
pub struct Wave {
    /// Live nodes, ascending by uid.
    pub nodes: List<Uid>,
}

/// Which schedule a plan has.
#[derive(Clone, Copy, Debug, PartialEq, Eq)]
pub enum Mode {
    /// One node a wave: again and again the least uid whose sources have all been taken.
    OneByOne,
    /// Each node as early as its sources allow (a level schedule): in the wave whose index is the greatest number of
    /// connections on a path into it.
    Waves,
}

impl Wave {
    /// An equal wave, in memory of its own. Fails only where memory is wanting.
    pub fn copy(&self, alloc: Global) -> Result<Wave, AllocError>
        ensures { IfOk result (λ wave. wave ≡ self.now) }
    {
        Ok(Wave {
            nodes: self.nodes.copy(alloc)?,
        })
    }
}

/// Equal waves, in memory of their own. Fails only where memory is wanting.
pub(crate) fn copy_waves(alloc: Global, waves: &List<Wave>) -> Result<List<Wave>, AllocError>
    ensures { IfOk result (λ copies. copies ≡ waves.now) }
{
    let mut copies = List::new(alloc);
    for wave in waves.as_slice() {
        copies.push(wave.copy(alloc)?)?;
    }
    Ok(copies)
}
