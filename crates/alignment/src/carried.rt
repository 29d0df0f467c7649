//! The flow by the names of its points, and its bound.

ghost use Rattle.std.specs.Prelude.{◌≡◌, ◌<◌, ◌≤◌, ◌^◌, ◌+◌, length, sum_by, unsigned_abs, pos, ◌+ℤ◌, ◌-ℤ◌, ◌*ℤ◌, IfOk};
ghost use Rattle.std.specs.List.{All};
ghost use Rattle.shortest_paths.specs.Walks.{IsWithin};
ghost use Rattle.min_cost_flow.specs.Laws.{weighted};
ghost use Rattle.alignment.specs.Carried.{carried_by};

use crate::links::Link;
use graph_model::List;
use min_cost_flow::Arc;
use plan_model::Units;
use std::alloc::{AllocError, Global};

/// The arcs that carry units, by the names of their ends, in their order.
pub(crate) fn carried(
    alloc: Global,
    points: &[u32],
    arcs: &[Arc],
    flow: &[u64],
) -> Result<List<Units>, AllocError>
    requires each { length flow.now ≡ length arcs.now }
    requires ends { All (λ a. (a.tail < length points.now) × (a.head < length points.now)) arcs.now }
    ensures { IfOk result (λ v. v ≡ carried_by points.now arcs.now flow.now) }
{
    let mut carried = List::new(alloc);
    for (k, arc) in arcs.iter().enumerate() {
        if flow[k] > 0 {
            carried.push(Units {
                tail: points[arc.tail as usize],
                head: points[arc.head as usize],
                units: flow[k],
            })?;
        }
    }
    Ok(carried)
}

/// Units times a least difference.
fn product(units: u64, least: i64) -> i128
    requires { IsWithin (2 ^ 30) least }
    ensures value { result ≡ pos units *ℤ least }
    ensures size { unsigned_abs result ≤ 2 ^ 94 }
{
    units as i128 * least as i128
}

/// The sum and units times a least difference.
fn plus_product(sum: i128, units: u64, least: i64) -> i128
    requires small { unsigned_abs sum ≤ 2 ^ 120 }
    requires least { IsWithin (2 ^ 30) least }
    ensures value { result ≡ sum +ℤ (pos units *ℤ least) }
    ensures size { unsigned_abs result ≤ unsigned_abs sum + 2 ^ 94 }
{
    sum + product(units, least)
}

/// The sum of units times least differences.
fn weight(arcs: &[Arc], flow: &[u64]) -> i128
    requires each { length flow.now ≡ length arcs.now }
    requires few { length arcs.now ≤ 2 ^ 16 }
    requires leasts { All (λ a. IsWithin (2 ^ 30) a.least) arcs.now }
    ensures value { result ≡ weighted (λ a. a.least) arcs.now flow.now }
    ensures size { unsigned_abs result ≤ 2 ^ 110 }
{
    let mut sum: i128 = 0;
    for (k, arc) in arcs.iter().enumerate() {
        sum = plus_product(sum, flow[k], arc.least);
    }
    sum
}

/// The sum of the latencies of the links' sources.
fn latencies(links: &[Link]) -> u64
    requires { length links.now ≤ 2 ^ 13 }
    ensures sum { result ≡ sum_by (λ l. l.latency) links.now }
    ensures small { result ≤ 2 ^ 45 }
{
    let mut latencies = 0;
    for link in links {
        latencies += link.latency as u64;
    }
    latencies
}

/// The bound that the flow sets to the total of every alignment: its weight, less the latencies of the links' sources.
pub(crate) fn bound(arcs: &[Arc], flow: &[u64], links: &[Link]) -> i128
    requires each { length flow.now ≡ length arcs.now }
    requires few { length arcs.now ≤ 2 ^ 16 }
    requires leasts { All (λ a. IsWithin (2 ^ 30) a.least) arcs.now }
    requires links { length links.now ≤ 2 ^ 13 }
    ensures { result ≡ weighted (λ a. a.least) arcs.now flow.now -ℤ pos (sum_by (λ l. l.latency) links.now) }
{
    weight(arcs, flow) - latencies(links) as i128
}
