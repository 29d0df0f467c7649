//! The one order of the nodes, the free node of least name first.

ghost use Rattle.std.specs.Prelude.{◌≡◌, ℕ, ◌<◌, length, true, false, IfOk, IfErr, MatchOption, MatchResult};
ghost use Rattle.graph_model.specs.Checks.{IsClosedWalk};
ghost use Rattle.graph_model.specs.Paths.{IsAcyclic};
ghost use Rattle.graph_model.specs.Named.{IsNamed};
ghost use Rattle.topology.specs.Links.{AreLinks, AreWithin};
ghost use Rattle.topology.specs.Blocks.{AreBlocks, IsFree, IsFirstFree, is_taken};
ghost use Rattle.topology.specs.Taken.{AreTaken};
ghost use Rattle.topology.specs.Answers.{IsOrderOfNodes, IsCycleOf};

use crate::cycles::{Cycle, closed_walk};
use crate::ends::{Link, links, uids};
use graph_model::{Graph, List, Refused};
use std::alloc::{AllocError, Global};

/// Notes for each node a link into it from a node that is not taken, if there is one.
fn note_blocks(links: &[Link], taken: &[bool], blocks: &mut [Option<usize>])
    requires within { AreWithin (length blocks.old) links.now }
    requires nodes { length taken.now ≡ length blocks.old }
    ensures { AreBlocks links.now taken.now blocks.new }
{
    for block in blocks.iter_mut() {
        *block = None;
    }
    for e in 0..links.len() {
        let link = links[e];
        if !taken[link.from] {
            blocks[link.to] = Some(e);
        }
    }
}

/// The node of least name that is neither taken nor blocked.
fn first_free(uids: &[u32], taken: &[bool], blocks: &[Option<usize>]) -> Option<usize>
    requires taken { length taken.now ≡ length uids.now }
    requires blocks { length blocks.now ≡ length uids.now }
    ensures { IsFirstFree uids.now taken.now blocks.now result }
{
    let mut best: Option<usize> = None;
    for v in 0..uids.len() {
        if !taken[v] && blocks[v].is_none() {
            match best {
                Some(b) if uids[b] <= uids[v] => {}
                _ => best = Some(v),
            }
        }
    }
    best
}

/// The first node that is not taken.
fn first_left(taken: &[bool]) -> Option<usize>
    ensures { MatchOption result ((v : ℕ) → v < length taken.now
        → is_taken taken.now v ≡ true) (λ v. (v < length taken.now) × (is_taken taken.now v ≡ false)) }
{
    for v in 0..taken.len() {
        if !taken[v] {
            return Some(v);
        }
    }
    None
}

/// Takes nodes, again and again the free one of least name, until none is free.
fn take_nodes(
    alloc: Global,
    graph: &Graph,
    links: &[Link],
    taken: &mut [bool],
    blocks: &mut [Option<usize>],
) -> Result<List<u32>, AllocError>
    requires named { IsNamed graph.now }
    requires links { AreLinks graph.now links.now }
    requires taken { length taken.old ≡ length graph.now.nodes }
    requires blocks { length blocks.old ≡ length graph.now.nodes }
    requires none { (v : ℕ) → is_taken taken.old v ≡ false }
    ensures taken { IfOk result (λ os. AreTaken graph.now links.now taken.new blocks.new os) }
    ensures all { IfOk result (λ _. (v : ℕ) → v < length graph.now.nodes → ¬ IsFree taken.new blocks.new v) }
{
    let uids = uids(alloc, graph)?;
    let mut order = List::new(alloc);
    note_blocks(links, taken, blocks);
    while let Some(v) = first_free(&uids, taken, blocks) {
        order.push(v as u32)?;
        taken[v] = true;
        note_blocks(links, taken, blocks);
    }
    Ok(order)
}

/// The order, or else a cycle.
fn order_or_cycle(alloc: Global, graph: &Graph) -> Result<Result<List<u32>, Cycle>, AllocError>
    requires { IsNamed graph.now }
    ensures { IfOk result (λ answer. MatchResult answer (IsOrderOfNodes graph.now) (λ cycle. IsClosedWalk graph.now cycle.walk)) }
{
    let links = links(alloc, graph)?;
    let mut taken = vec![in alloc; false; graph.nodes.len()]?;
    let mut blocks = vec![in alloc; None; graph.nodes.len()]?;
    let order = take_nodes(alloc, graph, &links, &mut taken, &mut blocks)?;
    match first_left(&taken) {
        Some(start) => {
            let cycle = closed_walk(alloc, &links, &taken, &blocks, start)?;
            Ok(Err(cycle))
        }
        None => Ok(Ok(order)),
    }
}

/// The order of the nodes, as indexes: again and again the node of least name that is not taken yet and whose sources
/// all are (Kahn, Topological sorting of large networks, 1962). Each node stands in it once.
///
/// A fault is a closed walk of connections, and comes exactly where the graph has one; which walk it is, is left open.
pub fn order(alloc: Global, graph: &Graph) -> Result<List<u32>, Refused<Cycle>>
    requires { IsNamed graph.now }
    ensures order { IfOk result (IsOrderOfNodes graph.now) }
    ensures acyclic { IfOk result (λ _. IsAcyclic graph.now) }
    ensures cycle { IfErr result (IsCycleOf graph.now) }
{
    match order_or_cycle(alloc, graph)? {
        Ok(order) => Ok(order),
        Err(cycle) => Err(Refused::Fault(cycle)),
    }
}
