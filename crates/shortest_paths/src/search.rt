//! The search for least walks.

ghost use Rattle.std.specs.Prelude.{◌≡◌, ℕ, ◌<◌, ◌≤◌, ◌^◌, ℤ, pos, ◌≤ℤ◌, length, vec_len, IsTrue, IsFalse, IfOk, IsSome, slice_get, replicate};
ghost use Rattle.std.specs.List.{All};
ghost use Rattle.shortest_paths.specs.Walks.{IsWithin, Joins, HasNoNegativeCycle, Reaches, IsLeastCost, EndsLeast, ClimbsIn, number_of};
ghost use Rattle.shortest_paths.specs.Search.{found, IsImprovement, IsSettled, AreSettled, IsSearched, IsReadOff, AreBounded, room};

use crate::edges::{Best, Distances, Edge};
use graph_model::List;
use std::alloc::{AllocError, Global};

/// Least walks from the point `from` to each of the points 0 to `points - 1`.
///
/// There are at most 2^14 points and at most 2^17 edges, each between two of the points, with a cost of at most 2^46 in
/// size. No cycle costs less than 0, and some walk leads from `from` to each point.
///
/// `least` has the least cost of a walk to each point, over all walks. `last` has the index of an edge that ends such a
/// walk: the least cost of its head is the least cost of its tail and its own cost. It is None at `from` alone. These
/// edges form a tree with its root at `from`: going from a point to the tail of its edge, again and again, reaches
/// `from` in fewer than `points` steps. The call fails only for want of memory.
pub fn distances(
    alloc: Global,
    points: u32,
    edges: &[Edge],
    from: u32,
) -> Result<Distances, AllocError>
    requires points { points ≤ 2 ^ 14 }
    requires few { length edges.now ≤ 2 ^ 17 }
    requires ends { All (Joins points) edges.now }
    requires costs { All (λ e. IsWithin (2 ^ 46) e.cost) edges.now }
    requires start { from < points }
    requires cycles { HasNoNegativeCycle edges.now }
    requires reached { (v : ℕ) → v < points → Reaches edges.now from v }

    ensures points { IfOk result (λ d. (length d.least ≡ points) × (length d.last ≡ points)) }
    ensures least { IfOk result (λ d. (v : ℕ) → v < points → IsLeastCost edges.now from v (number_of d.least v)) }
    ensures none_at_from { IfOk result (λ d. slice_get d.last from ≡ Some None) }
    ensures none { IfOk result (λ d. (v : ℕ) → v < points → slice_get d.last v ≡ Some None → v ≡ from) }
    ensures last { IfOk result (λ d. (v k : ℕ) → v < points → slice_get d.last v ≡ Some (Some k) → EndsLeast edges.now d.least v k) }
    ensures tree { IfOk result (λ d. (v : ℕ) → v < points → (n : ℕ) × (n < points) × ClimbsIn edges.now d.last from n v) }
{
    let best = search(alloc, points, edges, from)?;
    read_off(alloc, &best)
}

// The best walks of all: it goes over the edges until none of them gives a cheaper walk.
fn search(
    alloc: Global,
    points: u32,
    edges: &[Edge],
    from: u32,
) -> Result<Vec<Option<Best>>, AllocError>
    requires points { points ≤ 2 ^ 14 }
    requires few { length edges.now ≤ 2 ^ 17 }
    requires ends { All (Joins points) edges.now }
    requires costs { All (λ e. IsWithin (2 ^ 46) e.cost) edges.now }
    requires start { from < points }
    requires cycles { HasNoNegativeCycle edges.now }

    ensures points { IfOk result (λ best. vec_len best ≡ points) }
    ensures searched { IfOk result (λ best. IsSearched edges.now from best.items) }
    ensures settled { IfOk result (λ best. AreSettled best.items edges.now) }
{
    let mut best = none_found(alloc, points)?;
    best[from as usize] = Some(Best {
        cost: 0,
        last: None,
    });
    while relax_all(&mut best, edges) {}
    Ok(best)
}

// No walk is found to any of the points.
pub(crate) fn none_found(alloc: Global, points: u32) -> Result<Vec<Option<Best>>, AllocError>
    ensures len { IfOk result (λ best. vec_len best ≡ points) }
    ensures items { IfOk result (λ best. best.items ≡ replicate points None) }
{
    let mut best = Vec::with_capacity(alloc, points as usize)?;
    for _ in 0..points {
        best.push(None)?;
    }
    Ok(best)
}

// Goes over the edges once, and says whether one of them gave a cheaper walk.
fn relax_all(best: &mut [Option<Best>], edges: &[Edge]) -> bool
    requires points { length best.old ≤ 2 ^ 14 }
    requires few { length edges.now ≤ 2 ^ 17 }
    requires ends { All (Joins (length best.old)) edges.now }
    requires costs { All (λ e. IsWithin (2 ^ 46) e.cost) edges.now }
    requires cycles { HasNoNegativeCycle edges.now }
    requires searched { (from : ℕ) × IsSearched edges.now from best.old }

    ensures kept { (from : ℕ) → IsSearched edges.now from best.old → IsSearched edges.now from best.new }
    ensures falls { IsTrue result → room best.new < room best.old }
    ensures settled { IsFalse result → AreSettled best.new edges.now }
{
    let mut changed = false;
    for (index, edge) in edges.iter().enumerate() {
        if relax(best, index as u32, *edge) {
            changed = true;
        }
    }
    changed
}

// Takes the walk by `edge`, the edge at `index`, where it is cheaper than the best one to its head, and says so.
pub(crate) fn relax(best: &mut [Option<Best>], index: u32, edge: Edge) -> bool
    requires tail { edge.tail < length best.old }
    requires head { edge.head < length best.old }
    requires cost { IsWithin (2 ^ 46) edge.cost }
    requires bounded { AreBounded best.old }

    ensures improved { IsTrue result → IsImprovement best.old best.new index edge }
    ensures settled { IsFalse result → (best.new ≡ best.old) × IsSettled best.old edge }
{
    let Some(tail) = best[edge.tail as usize] else {
        return false;
    };
    let cost = tail.cost + edge.cost;
    let cheaper = match best[edge.head as usize] {
        Some(head) => cost < head.cost,
        None => true,
    };
    if cheaper {
        best[edge.head as usize] = Some(Best {
            cost,
            last: Some(index),
        });
    }
    cheaper
}

// The costs and the last edges of the best walks, of which there is one to each point.
fn read_off(alloc: Global, best: &[Option<Best>]) -> Result<Distances, AllocError>
    requires found { (v : ℕ) → v < length best.now → IsSome (found best.now v) }
    requires bounded { AreBounded best.now }

    ensures points { IfOk result (λ d. (length d.least ≡ length best.now) × (length d.last ≡ length best.now)) }
    ensures read { IfOk result (λ d. IsReadOff best.now d.least d.last) }
{
    let mut least = List::new(alloc);
    let mut last = List::new(alloc);
    for walk in best {
        let Some(walk) = walk else { unreachable!() };
        least.push(walk.cost)?;
        last.push(walk.last)?;
    }
    Ok(Distances { least, last })
}
