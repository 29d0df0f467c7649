//! Augmentations: units that go from a point of excess to points of deficit.

ghost use Rattle.std.specs.Prelude.{◌≡◌, ℕ, ◌<◌, ◌≤◌, ℤ, pos, neg_ℤ, ◌+ℤ◌, ◌-ℤ◌, ◌≤ℤ◌, ◌<ℤ◌, List as Sequence, length, min, unsigned_abs, slice_set, ◌↔◌, IsTrue};
ghost use Rattle.shortest_paths.specs.Walks.{number_of};
ghost use Rattle.shortest_paths.specs.Nearest.{IsLinked};
ghost use Rattle.min_cost_flow.specs.Flow.{IsNetwork, IsTight};
ghost use Rattle.min_cost_flow.specs.Search.{IsSearchOf, potential_of};
ghost use Rattle.min_cost_flow.specs.Solve.{IsMeeting, wanted};

use crate::network::Network;
use crate::search::Walks;
use crate::send::send;

// Is `from` a point of excess and `to` a point of deficit?
fn is_unmet_at_both(unmet: &[i64], from: usize, to: usize) -> bool
    requires from { from < length unmet.now }
    requires to { to < length unmet.now }

    ensures { IsTrue result ↔ (number_of unmet.now from <ℤ pos 0) × (pos 0 <ℤ number_of unmet.now to) }
{
    unmet[from] < 0 && unmet[to] > 0
}

// Does a cheapest walk lead to the point, and is it not the start?
fn is_reached(last: &[Option<u32>], to: usize) -> bool
    requires to { to < length last.now }

    ensures { IsTrue result ↔ IsLinked last.now to }
{
    last[to].is_some()
}

// The least of the unmet needs of two points, as numbers of units.
pub(crate) fn unmet_at_both(unmet: &[i64], from: usize, to: usize) -> u64
    requires from { from < length unmet.now }
    requires to { to < length unmet.now }

    ensures { result ≡ min (unsigned_abs (number_of unmet.now from)) (unsigned_abs (number_of unmet.now to)) }
{
    unmet[from].unsigned_abs().min(unmet[to].unsigned_abs())
}

// Counts units that were sent.
pub(crate) fn count_sent(unmet: &mut [i64], from: usize, to: usize, units: i64)
    requires from { from < length unmet.old }
    requires to { to < length unmet.old }
    requires some { pos 0 ≤ℤ units }
    requires below { number_of unmet.old from ≤ℤ neg_ℤ units }
    requires above { units ≤ℤ number_of unmet.old to }

    ensures { unmet.new ≡ slice_set (slice_set unmet.old from (number_of unmet.old from +ℤ units)) to (number_of unmet.old to -ℤ units) }
{
    let excess = unmet[from] + units;
    let deficit = unmet[to] - units;
    unmet[from] = excess;
    unmet[to] = deficit;
}

// Sends units along the cheapest walk to `to`, from a point of excess to a point of deficit: as many as the unmet
// needs of both and the walk allow. Where the walks are those of this very flow, some go.
fn augment_reached(net: &Network, flow: &mut [u64], unmet: &mut [i64], walks: &Walks, to: u32)
    requires network { IsNetwork net.now }
    requires meeting { IsMeeting net.now flow.old unmet.old }
    requires walks { (searched : Sequence ℕ) × IsSearchOf net.now searched walks.now.from walks.now.residual walks.now.search }
    requires tight { IsTight net.now.arcs flow.old (potential_of walks.now.search.numbers.items) }
    requires from { walks.now.from < net.now.points }
    requires to { to < net.now.points }
    requires linked { IsLinked walks.now.search.last.items to }

    ensures meeting { IsMeeting net.now flow.new unmet.new }
    ensures tight { IsTight net.now.arcs flow.new (potential_of walks.now.search.numbers.items) }
    ensures no_more { wanted unmet.new ≤ wanted unmet.old }
    ensures fewer { IsSearchOf net.now flow.old walks.now.from walks.now.residual walks.now.search
        → number_of unmet.old walks.now.from <ℤ pos 0 → pos 0 <ℤ number_of unmet.old to → wanted unmet.new < wanted unmet.old }
{
    let from = walks.from as usize;
    if is_unmet_at_both(unmet, from, to as usize) {
        let most = unmet_at_both(unmet, from, to as usize);
        let units = send(net, flow, walks, to, most);
        count_sent(unmet, from, to as usize, units as i64);
    }
}

// So it is done where a cheapest walk leads to `to`; else nothing changes.
fn augment(net: &Network, flow: &mut [u64], unmet: &mut [i64], walks: &Walks, to: u32)
    requires network { IsNetwork net.now }
    requires meeting { IsMeeting net.now flow.old unmet.old }
    requires walks { (searched : Sequence ℕ) × IsSearchOf net.now searched walks.now.from walks.now.residual walks.now.search }
    requires tight { IsTight net.now.arcs flow.old (potential_of walks.now.search.numbers.items) }
    requires from { walks.now.from < net.now.points }
    requires to { to < net.now.points }

    ensures meeting { IsMeeting net.now flow.new unmet.new }
    ensures tight { IsTight net.now.arcs flow.new (potential_of walks.now.search.numbers.items) }
    ensures no_more { wanted unmet.new ≤ wanted unmet.old }
    ensures fewer { IsSearchOf net.now flow.old walks.now.from walks.now.residual walks.now.search
        → number_of unmet.old walks.now.from <ℤ pos 0 → pos 0 <ℤ number_of unmet.old to → IsLinked walks.now.search.last.items to
        → wanted unmet.new < wanted unmet.old }
{
    if is_reached(&walks.search.last, to as usize) {
        augment_reached(net, flow, unmet, walks, to);
    }
}

// Sends units along the cheapest walks of this flow from a point of excess: to the point `first` of deficit, and then
// to each other one, until no units or no walks are left.
pub(crate) fn augment_all(
    net: &Network,
    flow: &mut [u64],
    unmet: &mut [i64],
    walks: &Walks,
    first: u32,
)
    requires network { IsNetwork net.now }
    requires meeting { IsMeeting net.now flow.old unmet.old }
    requires search { IsSearchOf net.now flow.old walks.now.from walks.now.residual walks.now.search }
    requires from { walks.now.from < net.now.points }
    requires first { first < net.now.points }
    requires excess { number_of unmet.old walks.now.from <ℤ pos 0 }
    requires deficit { pos 0 <ℤ number_of unmet.old first }
    requires linked { IsLinked walks.now.search.last.items first }

    ensures meeting { IsMeeting net.now flow.new unmet.new }
    ensures tight { IsTight net.now.arcs flow.new (potential_of walks.now.search.numbers.items) }
    ensures fewer { wanted unmet.new < wanted unmet.old }
{
    augment(net, flow, unmet, walks, first);
    for to in 0..net.points {
        augment(net, flow, unmet, walks, to);
    }
}
