//! The flow that bounds the total.

ghost use Rattle.std.specs.Prelude.{◌≡◌, ◌==◌, ℕ, ◌<◌, ◌≤◌, ◌+◌, ◌*◌, ◌^◌, ◌-ℤ◌, ◌+ℤ◌, ◌*ℤ◌, pos, ℤ, unsigned_abs, length, map, take, sum_by, count_by, if◌then◌else◌, MatchBool, IsSome};
ghost use Rattle.std.specs.List.{All};
ghost use Rattle.std.specs.Option.{is_some};
ghost use Rattle.graph_model.specs.Graphs.{latency_at};
ghost use Rattle.graph_model.specs.Paths.{live_connections};
ghost use Rattle.graph_model.specs.declared.graph.Graph.{Graph};
ghost use Rattle.plan_model.specs.Certified.{AreArcs};
ghost use Rattle.plan_model.specs.Flows.{IsBalanced, IsBeforeArc, IsPoint, arc_between, flow_bound, flow_weight, network, units_in, units_out};
ghost use Rattle.plan_model.specs.Networks.{least_or_zero};
ghost use Rattle.plan_model.specs.Places.{IsArcAt, IsFirstBad};
ghost use Rattle.plan_model.specs.Rules.{AreLiveNodes};
ghost use Rattle.plan_checker.specs.Answers.{Judges};
ghost use Rattle.plan_checker.specs.Networks.{difference, AreSmall};

use crate::graphs::latency_of;
use crate::network::{Constraint, between};
use graph_model::{Connection, Graph};
use plan_model::Units;

/// Whether an arc stands before another, by tail and then by head.
fn is_before(first: Units, second: Units) -> bool
    ensures { MatchBool result (IsBeforeArc first second) (IsBeforeArc first second → ⊥) }
{
    first.tail < second.tail || first.tail == second.tail && first.head < second.head
}

/// Whether an entry of the flow is an arc of the network with some units, after the entry before it.
fn is_arc(constraints: &[Constraint], arcs: &[Units], k: usize) -> bool
    requires { k < length arcs.now }
    ensures { (g : Graph) (latency : ℕ) → map difference constraints.now ≡ network g latency
        → ((j : ℕ) → j < k → IsArcAt g latency arcs.now j)
        → MatchBool result (IsArcAt g latency arcs.now k) (IsArcAt g latency arcs.now k → ⊥) }
{
    let arc = arcs[k];
    if arc.units == 0 {
        return false;
    }
    if between(constraints, arc.tail, arc.head).is_none() {
        return false;
    }
    if k == 0 {
        return true;
    }
    is_before(arcs[k - 1], arc)
}

/// The entries of the flow are arcs of the network with some units, ascending by tail and then by head.
pub(crate) fn arcs(constraints: &[Constraint], arcs: &[Units]) -> Option<u64>
    ensures { (g : Graph) (latency : ℕ) → map difference constraints.now ≡ network g latency
        → Judges result (AreArcs g latency arcs.now) (IsFirstBad (IsArcAt g latency arcs.now)) }
{
    for k in 0..arcs.len() {
        if !is_arc(constraints, arcs, k) {
            return Some(k as u64);
        }
    }
    None
}

/// The units that an arc brings into a point.
fn entering(arc: Units, point: u32) -> u64
    ensures { result ≡ (if arc.head == point then arc.units else 0) }
{
    if arc.head == point { arc.units } else { 0 }
}

/// The units that an arc takes out of a point.
fn leaving(arc: Units, point: u32) -> u64
    ensures { result ≡ (if arc.tail == point then arc.units else 0) }
{
    if arc.tail == point { arc.units } else { 0 }
}

/// The units that the flow brings into a point.
fn units_into(arcs: &[Units], point: u32) -> u128
    ensures value { result ≡ units_in arcs.now point }
    ensures size { result ≤ 18446744073709551615 * length arcs.now }
{
    let mut sum: u128 = 0;
    for arc in arcs {
        sum += entering(*arc, point) as u128;
    }
    sum
}

/// The units that the flow takes out of a point.
fn units_out_of(arcs: &[Units], point: u32) -> u128
    ensures value { result ≡ units_out arcs.now point }
    ensures size { result ≤ 18446744073709551615 * length arcs.now }
{
    let mut sum: u128 = 0;
    for arc in arcs {
        sum += leaving(*arc, point) as u128;
    }
    sum
}

/// The number of connections into a point.
fn connections_into(connections: &[Connection], point: u32) -> usize
    ensures { result ≡ count_by (λ c. c.dst.0 == point) connections.now }
{
    connections.iter().filter(|c| c.dst.0 == point).count()
}

/// The number of connections out of a point.
fn connections_out_of(connections: &[Connection], point: u32) -> usize
    ensures { result ≡ count_by (λ c. c.src.0 == point) connections.now }
{
    connections.iter().filter(|c| c.src.0 == point).count()
}

/// Whether at a point the units in minus the units out are the live connections in minus those out.
fn is_balanced(connections: &[Connection], arcs: &[Units], point: u32) -> bool
    ensures { (g : Graph) → connections.now ≡ live_connections g
        → MatchBool result (IsBalanced g arcs.now point) (IsBalanced g arcs.now point → ⊥) }
{
    let more = units_into(arcs, point) + connections_out_of(connections, point) as u128;
    let less = units_out_of(arcs, point) + connections_into(connections, point) as u128;
    more == less
}

/// At each point, the root and the live nodes, the units in minus the units out are the need.
pub(crate) fn need(live: &[u32], connections: &[Connection], arcs: &[Units]) -> Option<u64>
    ensures { (g : Graph) → AreLiveNodes g live.now → connections.now ≡ live_connections g
        → Judges result
        ((v : ℕ) → IsPoint g v → IsBalanced g arcs.now v)
        (IsFirstBad (λ v. IsPoint g v → IsBalanced g arcs.now v)) }
{
    if !is_balanced(connections, arcs, 0) {
        return Some(0);
    }
    for uid in live {
        if !is_balanced(connections, arcs, *uid) {
            return Some(*uid as u64);
        }
    }
    None
}

/// The least difference between two points, and 0 where no arc joins them.
fn least(constraints: &[Constraint], tail: u32, head: u32) -> i64
    requires { AreSmall constraints.now }
    ensures value { (g : Graph) (latency : ℕ) → map difference constraints.now ≡ network g latency
        → result ≡ least_or_zero (arc_between g latency tail head) }
    ensures size { unsigned_abs result ≤ 2 ^ 32 }
{
    match between(constraints, tail, head) {
        Some(arc) => arc.least,
        None => 0,
    }
}

/// Units times a least difference.
fn product(units: u64, least: i64) -> i128
    requires { unsigned_abs least ≤ 2 ^ 32 }
    ensures value { result ≡ pos units *ℤ least }
    ensures size { unsigned_abs result ≤ 2 ^ 96 }
{
    units as i128 * least as i128
}

/// The sum and units times a least difference.
fn plus_product(sum: i128, units: u64, least: i64) -> i128
    requires small { unsigned_abs sum ≤ 2 ^ 120 }
    requires least { unsigned_abs least ≤ 2 ^ 32 }
    ensures value { result ≡ sum +ℤ (pos units *ℤ least) }
    ensures size { unsigned_abs result ≤ unsigned_abs sum + 2 ^ 96 }
{
    sum + product(units, least)
}

/// The sum of units times least differences.
fn weight(constraints: &[Constraint], arcs: &[Units]) -> i128
    requires leasts { AreSmall constraints.now }
    requires few { length arcs.now ≤ 2 ^ 14 }
    ensures value { (g : Graph) (latency : ℕ) → map difference constraints.now ≡ network g latency
        → result ≡ flow_weight g latency arcs.now }
    ensures size { unsigned_abs result ≤ 2 ^ 110 }
{
    let mut sum: i128 = 0;
    for arc in arcs {
        sum = plus_product(sum, arc.units, least(constraints, arc.tail, arc.head));
    }
    sum
}

/// The sum of the latencies of the connections' sources.
fn latencies(graph: &Graph, connections: &[Connection]) -> u64
    requires { length connections.now ≤ 8192 }
    ensures sum { result ≡ sum_by (λ c. latency_at graph.now c.src.0) connections.now }
    ensures small { result ≤ 2 ^ 45 }
{
    let mut latencies = 0;
    for connection in connections {
        latencies += latency_of(graph, connection.src) as u64;
    }
    latencies
}

/// The bound that the flow sets to every total: its weight, less the latencies of the live connections' sources.
pub(crate) fn bound(
    graph: &Graph,
    constraints: &[Constraint],
    connections: &[Connection],
    arcs: &[Units],
    bound: u64,
) -> Option<u64>
    requires leasts { AreSmall constraints.now }
    requires few_arcs { length arcs.now ≤ 2 ^ 14 }
    requires few { length connections.now ≤ 8192 }
    ensures { (latency : ℕ) → map difference constraints.now ≡ network graph.now latency → connections.now ≡ live_connections graph.now
        → Judges result (flow_bound graph.now latency arcs.now ≡ pos bound) (λ place. place ≡ bound) }
{
    if weight(constraints, arcs) - latencies(graph, connections) as i128 == bound as i128 {
        return None;
    }
    Some(bound)
}

/// The total is the bound.
pub(crate) fn least_total(total: u64, bound: u64) -> Option<u64>
    ensures { Judges result (total ≡ bound) (λ place. place ≡ total) }
{
    if total == bound {
        return None;
    }
    Some(total)
}
