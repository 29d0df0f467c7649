//! The successive shortest path algorithm.

ghost use Rattle.std.specs.Prelude.{◌≡◌, ℕ, ◌^◌, ◌<◌, ℤ, pos, neg_ℤ, ◌≤ℤ◌, ◌<ℤ◌, List as Sequence, length, map, replicate, IfOk, MatchOption, Some, None};
ghost use Rattle.std.specs.List.{All};
ghost use Rattle.shortest_paths.specs.Walks.{number_of, IsWithin};
ghost use Rattle.min_cost_flow.specs.Flow.{IsNetwork, IsTight, MeetsNeeds};
ghost use Rattle.min_cost_flow.specs.Search.{IsReady};

use crate::admissible::augment_admissible;
use crate::augment::augment_all;
use crate::network::{Network, Solved};
use crate::search::{Walks, first_walks, search_from};
use graph_model::List;
use std::alloc::{AllocError, Global};

/// A flow that meets the needs of a network at least cost, and the least potentials that certify it.
///
/// There are 1 to 2^14 points, with the root at point 0, and at most 2^16 arcs between them, each with a least
/// difference of at most 2^30 in size. Each point has one need, of at most 2^14 units in size, and the needs sum to
/// 0. Some walk over the arcs leads from each point to each other, and no cycle has least differences that sum to
/// more than 0.
///
/// At each point the units in minus the units out are its need. Flow and potentials satisfy complementary slackness:
/// along each arc the potential rises by at least the least difference, and by no more where the arc carries units.
/// The potential of the root is 0. Any other potentials that are 0 at the root and satisfy the same with this flow
/// are at no point below these. The call fails only for want of memory.
pub fn solve(alloc: Global, net: &Network) -> Result<Solved, AllocError>
    requires { IsNetwork net.now }

    ensures sizes { IfOk result (λ s. (length s.flow ≡ length net.now.arcs) × (length s.potential ≡ net.now.points)) }
    ensures meets { IfOk result (λ s. MeetsNeeds net.now.points net.now.arcs net.now.need s.flow) }
    ensures tight { IfOk result (λ s. IsTight net.now.arcs s.flow (number_of s.potential)) }
    ensures root { IfOk result (λ s. number_of s.potential 0 ≡ pos 0) }
    ensures least { IfOk result (λ s. (q : Sequence ℤ) → number_of q 0 ≡ pos 0 → IsTight net.now.arcs s.flow (number_of q)
        → (v : ℕ) → v < net.now.points → number_of s.potential v ≤ℤ number_of q v) }
{
    let mut walks = first_walks(alloc, net)?;
    let flow = least_flow(alloc, net, &mut walks)?;
    search_from(net, &flow, &mut walks, 0, &[], 1)?;
    let potential = potentials(alloc, &walks.search.numbers)?;
    let flow = List::from_slice(alloc, &flow)?;
    Ok(Solved { flow, potential })
}

// A flow that meets the needs, and tight potentials for it. Each search is from a point of excess, and sends units from
// there to the points of deficit that it reached, until no need is unmet.
fn least_flow(alloc: Global, net: &Network, walks: &mut Walks) -> Result<Vec<u64>, AllocError>
    requires network { IsNetwork net.now }
    requires ready { IsReady net.now (replicate (length net.now.arcs) 0) walks.old }

    ensures units { IfOk result (λ flow. length flow.items ≡ length net.now.arcs) }
    ensures meets { IfOk result (λ flow. MeetsNeeds net.now.points net.now.arcs net.now.need flow.items) }
    ensures ready { IfOk result (λ flow. IsReady net.now flow.items walks.new) }
{
    let mut flow = zeros(alloc, net.arcs.len())?;
    let mut unmet = Vec::from_slice(alloc, net.need.as_slice())?;
    augment_admissible(alloc, net, &mut flow, &mut unmet, walks)?;
    while let (Some(from), Some(to)) = (
        excess_point(&unmet, &walks.search.numbers),
        deficit_point(&unmet),
    ) {
        let enough = excess_at(&unmet, from);
        let stop = search_from(net, &flow, walks, from as u32, &unmet, enough)?;
        let first = first_reached(stop, to as u32);
        augment_all(net, &mut flow, &mut unmet, walks, first);
    }
    Ok(flow)
}

// The point at which a search stopped, or another one, where it did not stop.
fn first_reached(stop: Option<u32>, to: u32) -> u32
    ensures some { (v : ℕ) → stop ≡ Some v → result ≡ v }
    ensures none { stop ≡ None → result ≡ to }
{
    match stop {
        Some(point) => point,
        None => to,
    }
}

// The units that a point has left to send out.
fn excess_at(unmet: &[i64], point: usize) -> i64
    requires point { point < length unmet.now }
{
    unmet[point].saturating_neg()
}

// The flow of no units on each of `arcs` arcs.
fn zeros(alloc: Global, arcs: usize) -> Result<Vec<u64>, AllocError>
    ensures { IfOk result (λ v. v.items ≡ replicate arcs 0) }
{
    vec![in alloc; 0; arcs]
}

// A point that has units left to send out, if there is one: of those, the one with the least number, whose units have
// the shortest ways.
fn excess_point(unmet: &[i64], numbers: &[i64]) -> Option<usize>
    requires numbers { length numbers.now ≡ length unmet.now }

    ensures { MatchOption result (All (λ x. pos 0 ≤ℤ x) unmet.now) (λ v. (v < length unmet.now) × (number_of unmet.now v <ℤ pos 0)) }
{
    let mut first = unmet.iter().position(|x| *x < 0)?;
    for point in first..unmet.len() {
        if unmet[point] < 0 && numbers[point] < numbers[first] {
            first = point;
        }
    }
    Some(first)
}

// A point that still lacks units, if there is one.
fn deficit_point(unmet: &[i64]) -> Option<usize>
    ensures { MatchOption result (All (λ x. x ≤ℤ pos 0) unmet.now) (λ v. (v < length unmet.now) × (pos 0 <ℤ number_of unmet.now v)) }
{
    unmet.iter().position(|x| *x > 0)
}

// The potentials that least costs of walks give: minus the least cost of a walk to each point.
fn potentials(alloc: Global, least: &[i64]) -> Result<List<i64>, AllocError>
    requires { All (IsWithin (2 ^ 62)) least.now }

    ensures { IfOk result (λ p. p ≡ map neg_ℤ least.now) }
{
    let mut potential = List::new(alloc);
    for cost in least {
        potential.push(-*cost)?;
    }
    Ok(potential)
}
