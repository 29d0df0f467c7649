//! How late a signal can come at each node, and the longest path that is printed.

ghost use Rattle.std.specs.Prelude.{◌≡◌, ℕ, ◌<◌, ◌^◌, length, slice_index, IfOk};
ghost use Rattle.graph_model.specs.Paths.{IsAcyclic};
ghost use Rattle.graph_model.specs.Named.{IsNamed, HasOneOutput, latencies_of};
ghost use Rattle.topology.specs.Links.{AreLinks, AreWithin};
ghost use Rattle.topology.specs.Reaches.{IsPulled, IsFirstTight, AreReaches, IsPathBack};
ghost use Rattle.topology.specs.Answers.{IsOrderOfNodes, IsReachOf};

use crate::cycles::reversed;
use crate::ends::{Link, links, uids};
use crate::marks::output_index;
use graph_model::{Graph, List, Uid, latency};
use std::alloc::{AllocError, Global};

/// The longest paths of a graph.
#[derive(Debug, PartialEq, Eq, Drop)]
pub struct Reach {
    /// For each node, by index, the greatest sum of the latencies of the nodes before it over all paths into it, in
    /// frames; 0 where no connection leads into it. That of the output node is the graph's latency.
    pub at: List<u64>,
    /// The printed path, from its first node to the output node: found from the output backwards, each step goes to
    /// the source of least name that meets the reach, until no connection leads on.
    pub path: List<Uid>,
}

/// The latencies of the nodes, by index.
fn latencies(alloc: Global, graph: &Graph) -> Result<Vec<u32>, AllocError>
    ensures { IfOk result (λ v. v.items ≡ latencies_of graph.now) }
{
    let nodes = graph.nodes.as_slice();
    nodes.iter().map(|node| latency(&node.kind)).collect(alloc)
}

/// The greatest of what the sources of a node give it: their reach with their own latency.
fn pull(links: &[Link], latencies: &[u32], at: &[u64], v: usize) -> u64
    requires within { AreWithin (length at.now) links.now }
    requires nodes { length latencies.now ≡ length at.now }
    requires small { (u : ℕ) → slice_index at.now u < 2 ^ 63 }
    ensures { IsPulled links.now latencies.now at.now v result }
{
    let mut most = 0;
    for link in links {
        if link.to == v {
            most = most.max(at[link.from] + latencies[link.from] as u64);
        }
    }
    most
}

/// The source of least name whose reach with its own latency is the reach of a node.
fn step_back(uids: &[u32], links: &[Link], latencies: &[u32], at: &[u64], v: usize) -> Option<usize>
    requires within { AreWithin (length uids.now) links.now }
    requires latencies { length latencies.now ≡ length uids.now }
    requires at { length at.now ≡ length uids.now }
    requires node { v < length uids.now }
    requires small { (u : ℕ) → slice_index at.now u < 2 ^ 63 }
    ensures { IsFirstTight uids.now links.now latencies.now at.now v result }
{
    let mut best: Option<usize> = None;
    for link in links {
        if link.to == v && at[link.from] + latencies[link.from] as u64 == at[v] {
            match best {
                Some(b) if uids[b] <= uids[link.from] => {}
                _ => best = Some(link.from),
            }
        }
    }
    best
}

/// The reach of each node, found in the order of the nodes.
fn reaches(
    alloc: Global,
    graph: &Graph,
    links: &[Link],
    latencies: &[u32],
    order: &[u32],
) -> Result<Vec<u64>, AllocError>
    requires named { IsNamed graph.now }
    requires links { AreLinks graph.now links.now }
    requires latencies { latencies.now ≡ latencies_of graph.now }
    requires order { IsOrderOfNodes graph.now order.now }
    ensures { IfOk result (λ v. AreReaches graph.now v.items) }
{
    let mut at: Vec<u64> = vec![in alloc; 0; graph.nodes.len()]?;
    for k in 0..order.len() {
        let v = order[k] as usize;
        at[v] = pull(links, latencies, &at, v);
    }
    Ok(at)
}

/// The printed path, its last node first.
fn path_back(
    alloc: Global,
    graph: &Graph,
    links: &[Link],
    latencies: &[u32],
    at: &[u64],
) -> Result<Vec<Uid>, AllocError>
    requires named { IsNamed graph.now }
    requires output { HasOneOutput graph.now }
    requires acyclic { IsAcyclic graph.now }
    requires links { AreLinks graph.now links.now }
    requires latencies { latencies.now ≡ latencies_of graph.now }
    requires at { AreReaches graph.now at.now }
    ensures { IfOk result (λ v. IsPathBack graph.now v.items) }
{
    let uids = uids(alloc, graph)?;
    let mut v = output_index(graph);
    let mut path: Vec<Uid> = Vec::new(alloc);
    path.push(Uid(uids[v]))?;
    while let Some(u) = step_back(&uids, links, latencies, at, v) {
        path.push(Uid(uids[u]))?;
        v = u;
    }
    Ok(path)
}

/// The reach of each node, in frames, and the printed path. The order is what [`order`](crate::order) answers for the
/// graph. It fails only for want of memory.
pub fn longest(alloc: Global, graph: &Graph, order: &List<u32>) -> Result<Reach, AllocError>
    requires named { IsNamed graph.now }
    requires output { HasOneOutput graph.now }
    requires order { IsOrderOfNodes graph.now order.now }
    ensures { IfOk result (IsReachOf graph.now) }
{
    let links = links(alloc, graph)?;
    let latencies = latencies(alloc, graph)?;
    let at = reaches(alloc, graph, &links, &latencies, order.as_slice())?;
    let path = path_back(alloc, graph, &links, &latencies, &at)?;
    Ok(Reach {
        at: List::from_slice(alloc, &at)?,
        path: reversed(alloc, &path)?,
    })
}
