//! The closed walk that a graph without an order has.

ghost use Rattle.std.specs.Prelude.{◌≡◌, ◌<◌, ◌≤◌, ◌^◌, IfOk, length, false, reverse};
ghost use Rattle.graph_model.specs.Checks.{IsClosedWalk};
ghost use Rattle.graph_model.specs.declared.graph.Graph.{Graph};
ghost use Rattle.topology.specs.Links.{AreLinks, AreWithin};
ghost use Rattle.topology.specs.Blocks.{AreBlocks, AllBlocked, is_taken};

use crate::ends::Link;
use graph_model::List;
use std::alloc::{AllocError, Global};

/// Why a graph has no order.
#[derive(Debug, PartialEq, Eq, Drop)]
pub struct Cycle {
    /// Connection indexes, at least one: each one's destination is the next one's source, and the last one's
    /// destination is the first one's source.
    pub walk: List<u32>,
}

/// The same items, the last first.
pub(crate) fn reversed<T: Copy>(alloc: Global, items: &[T]) -> Result<List<T>, AllocError>
    ensures { IfOk result (λ list. list ≡ reverse items.now) }
{
    let back: Vec<T> = items.iter().rev().copied().collect(alloc)?;
    List::from_slice(alloc, &back)
}

/// A closed walk, found backwards from a node that is not taken, where each such node has a link into it from another
/// one.
pub(crate) fn closed_walk(
    alloc: Global,
    links: &[Link],
    taken: &[bool],
    blocks: &[Option<usize>],
    start: usize,
) -> Result<Cycle, AllocError>
    requires within { AreWithin (length taken.now) links.now }
    requires few { length links.now ≤ 2 ^ 32 }
    requires nodes { length blocks.now ≡ length taken.now }
    requires blocks { AreBlocks links.now taken.now blocks.now }
    requires all { AllBlocked taken.now blocks.now }
    requires start { start < length taken.now }
    requires fresh { is_taken taken.now start ≡ false }
    ensures { (g : Graph) → AreLinks g links.now → IfOk result (λ cycle. IsClosedWalk g cycle.walk) }
{
    let mut places: Vec<Option<usize>> = vec![in alloc; None; taken.len()]?;
    let mut walk: Vec<u32> = Vec::new(alloc);
    let mut v = start;
    loop {
        match places[v] {
            Some(p) => {
                let walk = reversed(alloc, &walk[p..])?;
                return Ok(Cycle { walk });
            }
            None => match blocks[v] {
                Some(e) => {
                    places[v] = Some(walk.len());
                    walk.push(e as u32)?;
                    v = links[e].from;
                }
                None => unreachable!(),
            },
        }
    }
}
