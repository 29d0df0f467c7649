//! Units along a cheapest walk.

ghost use Rattle.std.specs.Prelude.{◌≡◌, ℕ, ◌<◌, ◌≤◌, ◌+◌, ◌^◌, pos, ◌+ℤ◌, List as Sequence, length, min, if◌then◌else◌, true, false, slice_index, slice_set};
ghost use Rattle.shortest_paths.specs.Nearest.{IsLinked};
ghost use Rattle.min_cost_flow.specs.Flow.{IsNetwork, IsTight};
ghost use Rattle.min_cost_flow.specs.Residual.{net_of, units_at, after_step};
ghost use Rattle.min_cost_flow.specs.Search.{IsSearchOf, CanCarry, potential_of};

use crate::network::{Network, Step};
use crate::search::Walks;

// So many units more on the arc of the step, or so many fewer where the step goes back.
fn push(flow: &mut [u64], step: Step, units: u64)
    requires arc { step.arc < length flow.old }
    requires room { step.back ≡ false → slice_index flow.old step.arc + units < 2 ^ 64 }
    requires there { step.back ≡ true → units ≤ slice_index flow.old step.arc }

    ensures { flow.new ≡ slice_set flow.old step.arc (after_step flow.old units step) }
{
    let on_arc = &mut flow[step.arc as usize];
    if step.back {
        *on_arc -= units;
    } else {
        *on_arc += units;
    }
}

// The units of `most` that the step can carry: a step back takes them from those on its arc.
fn carried(flow: &[u64], step: Step, most: u64) -> u64
    requires arc { step.arc < length flow.now }

    ensures { result ≡ if step.back then min most (slice_index flow.now step.arc) else most }
{
    if step.back {
        most.min(flow[step.arc as usize])
    } else {
        most
    }
}

// How many units of `most` the walk to `to` can carry, by the tree of cheapest walks: the least of `most` and the units
// on the reverse arcs of the walk. The walks may be those of a flow before this one.
fn carried_to(net: &Network, flow: &[u64], walks: &Walks, to: u32, most: u64) -> u64
    requires walks { (searched : Sequence ℕ) × IsSearchOf net.now searched walks.now.from walks.now.residual walks.now.search }
    requires units { length flow.now ≡ length net.now.arcs }
    requires network { IsNetwork net.now }
    requires to { to < net.now.points }
    requires linked { IsLinked walks.now.search.last.items to }
    requires some { 0 < most }

    ensures some { IsSearchOf net.now flow.now walks.now.from walks.now.residual walks.now.search → 0 < result }
    ensures most { result ≤ most }
    ensures room { CanCarry flow.now walks.now.residual walks.now.search to result }
{
    let mut units = most;
    let mut at = to;
    for _ in 0..net.points {
        let Some(k) = walks.search.last.as_slice()[at as usize] else {
            break;
        };
        units = carried(flow, walks.residual.steps[k as usize], units);
        at = walks.residual.edges[k as usize].tail;
    }
    units
}

// Sends units to a point along a cheapest walk: at most `most` of them, and as many of these as the reverse arcs of the
// walk carry. It goes from the last point of the walk to the first, by the tree of cheapest walks. The tree edges have
// reduced cost 0, so that the potentials stay tight. It answers how many.
pub(crate) fn send(net: &Network, flow: &mut [u64], walks: &Walks, to: u32, most: u64) -> u64
    requires network { IsNetwork net.now }
    requires units { length flow.old ≡ length net.now.arcs }
    requires room { (k : ℕ) → slice_index flow.old k + most < 2 ^ 63 }
    requires walks { (searched : Sequence ℕ) × IsSearchOf net.now searched walks.now.from walks.now.residual walks.now.search }
    requires tight { IsTight net.now.arcs flow.old (potential_of walks.now.search.numbers.items) }
    requires to { to < net.now.points }
    requires linked { IsLinked walks.now.search.last.items to }
    requires some { 0 < most }

    ensures some { IsSearchOf net.now flow.old walks.now.from walks.now.residual walks.now.search → 0 < result }
    ensures most { result ≤ most }
    ensures sent { (v : ℕ)
        → net_of net.now.arcs flow.new v +ℤ pos (units_at result walks.now.from v)
        ≡ net_of net.now.arcs flow.old v +ℤ pos (units_at result to v) }
    ensures tight { IsTight net.now.arcs flow.new (potential_of walks.now.search.numbers.items) }
    ensures bound { (k : ℕ) → slice_index flow.new k ≤ slice_index flow.old k + result }
{
    let units = carried_to(net, flow, walks, to, most);
    let mut at = to;
    for _ in 0..net.points {
        let Some(k) = walks.search.last.as_slice()[at as usize] else {
            break;
        };
        push(flow, walks.residual.steps[k as usize], units);
        at = walks.residual.edges[k as usize].tail;
    }
    units
}
