//! Units along admissible arcs, whose reduced cost is 0: the potentials stay tight, and no search is needed.
//!
//! The paths are found depth first, with a current arc at each point, as in the blocking flows of Dinic's algorithm
//! (Ahuja, Magnanti and Orlin, Network Flows, sections 7.5 and 9.8). None needs to be found: the searches over the heap
//! serve what is left.

ghost use Rattle.std.specs.Prelude.{◌≡◌, ℕ, ◌+◌, ◌*◌, ◌<◌, ◌≤◌, ◌^◌, ℤ, pos, ◌+ℤ◌, ◌<ℤ◌, length, IsTrue, IfOk, OnOk, Some, slice_index};
ghost use Rattle.shortest_paths.specs.Walks.{number_of, IsWithin};
ghost use Rattle.shortest_paths.specs.Nearest.{AreSmall};
ghost use Rattle.min_cost_flow.specs.Flow.{IsNetwork, IsTight};
ghost use Rattle.min_cost_flow.specs.Residual.{net_of, units_at};
ghost use Rattle.min_cost_flow.specs.Search.{IsReady, potential_of};
ghost use Rattle.min_cost_flow.specs.Solve.{IsMeeting};
ghost use Rattle.min_cost_flow.specs.Admissible.{IsAdmissibleAt, IsAdmissiblePath, LeavesAt, AreCurrent, IsTrail, HasPotentials};

use crate::augment::{count_sent, unmet_at_both};
use crate::network::Network;
use crate::search::Walks;
use shortest_paths::Edge;
use std::alloc::{AllocError, Global};

// A depth-first search along admissible arcs.
#[derive(Drop)]
pub(crate) struct Trail {
    // The current edge of each point: of those that leave it, the one that is to be tried next.
    pub(crate) current: Vec<Option<u32>>,
    // Whether the point is on the path. The mark of its end does not count.
    pub(crate) is_on_path: Vec<bool>,
    // The arcs of the path, from its start on.
    pub(crate) path: Vec<u32>,
}

// Is the reduced cost of the edge 0?
fn is_level(numbers: &[i64], edge: Edge) -> bool
    requires tail { edge.tail < length numbers.now }
    requires head { edge.head < length numbers.now }
    requires cost { IsWithin (2 ^ 46) edge.cost }
    requires small { AreSmall numbers.now }

    ensures { IsTrue result → number_of numbers.now edge.head ≡ number_of numbers.now edge.tail +ℤ edge.cost }
{
    numbers[edge.tail as usize] + edge.cost == numbers[edge.head as usize]
}

// Does the edge at an index stand for one unit more on an admissible arc, to a point off the path?
fn is_open(net: &Network, walks: &Walks, is_on_path: &[bool], index: u32) -> bool
    requires network { IsNetwork net.now }
    requires ready { HasPotentials net.now walks.now }
    requires marks { length is_on_path.now ≡ net.now.points }
    requires index { index < length walks.now.residual.edges.items }

    ensures { IsTrue result → (v : ℕ) → LeavesAt walks.now.residual.edges.items v index
        → IsAdmissibleAt net.now.arcs (potential_of walks.now.search.numbers.items) v index }
{
    let edge = walks.residual.edges[index as usize];
    if (index as usize) >= net.arcs.len() || is_on_path[edge.head as usize] {
        return false;
    }
    is_level(&walks.search.numbers, edge)
}

// Of the edges that leave a point, from `first` on back, the first one that is open.
fn open_from(
    net: &Network,
    walks: &Walks,
    is_on_path: &[bool],
    point: u32,
    first: Option<u32>,
) -> Option<u32>
    requires network { IsNetwork net.now }
    requires ready { HasPotentials net.now walks.now }
    requires marks { length is_on_path.now ≡ net.now.points }
    requires point { point < net.now.points }
    requires first { (k : ℕ) → first ≡ Some k → LeavesAt walks.now.residual.edges.items point k }

    ensures leaves { (k : ℕ) → result ≡ Some k → LeavesAt walks.now.residual.edges.items point k }
    ensures open { (k : ℕ) → result ≡ Some k → IsAdmissibleAt net.now.arcs (potential_of walks.now.search.numbers.items) point k }
{
    let mut next = first;
    while let Some(index) = next {
        if is_open(net, walks, is_on_path, index) {
            return Some(index);
        }
        next = walks.leaving.older(index);
    }
    None
}

impl Trail {
    // No path, and at each point all edges that leave it are to be tried.
    fn new(alloc: Global, net: &Network, walks: &Walks) -> Result<Trail, AllocError>
        requires network { IsNetwork net.now }
        requires ready { HasPotentials net.now walks.now }

        ensures { IfOk result (λ t. IsTrail net.now walks.now t) }
    {
        let mut current = Vec::with_capacity(alloc, net.points as usize)?;
        for point in 0..net.points {
            current.push(walks.leaving.newest(point))?;
        }
        Ok(Trail {
            current,
            is_on_path: vec![in alloc; false; net.points as usize]?,
            path: Vec::new(alloc),
        })
    }

    // Goes back by one arc, from a point at which nothing is open, and gives that arc up. It answers the point, or none
    // where this one is the start.
    fn step_back(&mut self, net: &Network, walks: &Walks, at: u32) -> Option<u32>
        requires network { IsNetwork net.now }
        requires ready { HasPotentials net.now walks.now }
        requires trail { IsTrail net.now walks.now self.old }
        requires at { at < net.now.points }
        requires path { (from : ℕ)
            × IsAdmissiblePath net.now.arcs (potential_of walks.now.search.numbers.items) from self.old.path.items at }

        ensures trail { IsTrail net.now walks.now self.new }
        ensures inside { (to : ℕ) → result ≡ Some to → to < net.now.points }
        ensures path { (from to : ℕ) → result ≡ Some to
            → IsAdmissiblePath net.now.arcs (potential_of walks.now.search.numbers.items) from self.old.path.items at
            → IsAdmissiblePath net.now.arcs (potential_of walks.now.search.numbers.items) from self.new.path.items to }
        ensures shorter { length self.new.path.items ≤ length self.old.path.items }
    {
        self.is_on_path[at as usize] = false;
        let index = self.path.pop()?;
        let tail = walks.residual.edges[index as usize].tail;
        self.current[tail as usize] = walks.leaving.older(index);
        Some(tail)
    }

    // Goes on by an open edge, or back where there is none. It answers the point, or none where there is no way back
    // from the start.
    fn step(&mut self, net: &Network, walks: &Walks, at: u32) -> Result<Option<u32>, AllocError>
        requires network { IsNetwork net.now }
        requires ready { HasPotentials net.now walks.now }
        requires trail { IsTrail net.now walks.now self.old }
        requires at { at < net.now.points }
        requires path { (from : ℕ)
            × IsAdmissiblePath net.now.arcs (potential_of walks.now.search.numbers.items) from self.old.path.items at }

        ensures trail { OnOk result (IsTrail net.now walks.now self.new) }
        ensures inside { IfOk result (λ next. (to : ℕ) → next ≡ Some to → to < net.now.points) }
        ensures path { IfOk result (λ next. (from to : ℕ) → next ≡ Some to
            → IsAdmissiblePath net.now.arcs (potential_of walks.now.search.numbers.items) from self.old.path.items at
            → IsAdmissiblePath net.now.arcs (potential_of walks.now.search.numbers.items) from self.new.path.items to) }
        ensures longer { OnOk result (length self.new.path.items ≤ length self.old.path.items + 1) }
    {
        self.is_on_path[at as usize] = true;
        let open = open_from(net, walks, &self.is_on_path, at, self.current[at as usize]);
        self.current[at as usize] = open;
        let Some(index) = open else {
            return Ok(self.step_back(net, walks, at));
        };
        self.path.push(index)?;
        Ok(Some(walks.residual.edges[index as usize].head))
    }

    // Looks for a path from a point to one of deficit, and answers that one. Each step tries an edge or gives one up.
    fn find(
        &mut self,
        net: &Network,
        walks: &Walks,
        unmet: &[i64],
        from: u32,
    ) -> Result<Option<u32>, AllocError>
        requires network { IsNetwork net.now }
        requires ready { HasPotentials net.now walks.now }
        requires trail { IsTrail net.now walks.now self.old }
        requires from { from < net.now.points }
        requires unmet { length unmet.now ≡ net.now.points }

        ensures trail { OnOk result (IsTrail net.now walks.now self.new) }
        ensures deficit { IfOk result (λ found. (to : ℕ) → found ≡ Some to → (to < net.now.points) × (pos 0 <ℤ number_of unmet.now to)) }
        ensures path { IfOk result (λ found. (to : ℕ) → found ≡ Some to
            → IsAdmissiblePath net.now.arcs (potential_of walks.now.search.numbers.items) from self.new.path.items to) }
        ensures short { OnOk result (length self.new.path.items ≤ 2 ^ 17) }
    {
        self.path.clear();
        let mut at = from;
        for _ in 0..2 * net.arcs.len() {
            if unmet[at as usize] > 0 {
                return Ok(Some(at));
            }
            let Some(next) = self.step(net, walks, at)? else {
                return Ok(None);
            };
            at = next;
        }
        Ok(None)
    }

    // Puts so many units on each arc of the path, from its end back.
    fn send(&mut self, net: &Network, walks: &Walks, flow: &mut [u64], units: u64)
        requires network { IsNetwork net.now }
        requires ready { HasPotentials net.now walks.now }
        requires trail { IsTrail net.now walks.now self.old }
        requires each { length flow.old ≡ length net.now.arcs }
        requires path { (from : ℕ) × (to : ℕ)
            × IsAdmissiblePath net.now.arcs (potential_of walks.now.search.numbers.items) from self.old.path.items to }
        requires room { (k : ℕ) → slice_index flow.old k + units * length self.old.path.items < 2 ^ 63 }

        ensures trail { IsTrail net.now walks.now self.new }
        ensures sent { (from to : ℕ)
            → IsAdmissiblePath net.now.arcs (potential_of walks.now.search.numbers.items) from self.old.path.items to
            → (v : ℕ) → net_of net.now.arcs flow.new v +ℤ pos (units_at units from v)
            ≡ net_of net.now.arcs flow.old v +ℤ pos (units_at units to v) }
        ensures tight { IsTight net.now.arcs flow.old (potential_of walks.now.search.numbers.items)
            → IsTight net.now.arcs flow.new (potential_of walks.now.search.numbers.items) }
        ensures bound { (k : ℕ) → slice_index flow.new k ≤ slice_index flow.old k + units * length self.old.path.items }
    {
        while let Some(index) = self.path.pop() {
            flow[index as usize] += units;
            let tail = walks.residual.edges[index as usize].tail;
            self.is_on_path[tail as usize] = false;
        }
    }
}

// Has the point units left to send out?
fn has_excess(unmet: &[i64], point: usize) -> bool
    requires point { point < length unmet.now }

    ensures { IsTrue result → number_of unmet.now point <ℤ pos 0 }
{
    unmet[point] < 0
}

// Sends the units of a point of excess along paths of admissible arcs, as far as these are found.
fn empty_out(
    net: &Network,
    flow: &mut [u64],
    unmet: &mut [i64],
    walks: &Walks,
    trail: &mut Trail,
    from: u32,
) -> Result<(), AllocError>
    requires network { IsNetwork net.now }
    requires meeting { IsMeeting net.now flow.old unmet.old }
    requires ready { IsReady net.now flow.old walks.now }
    requires trail { IsTrail net.now walks.now trail.old }
    requires from { from < net.now.points }

    ensures meeting { OnOk result (IsMeeting net.now flow.new unmet.new) }
    ensures ready { OnOk result (IsReady net.now flow.new walks.now) }
    ensures trail { OnOk result (IsTrail net.now walks.now trail.new) }
{
    trail.current[from as usize] = walks.leaving.newest(from);
    while has_excess(unmet, from as usize) {
        let Some(to) = trail.find(net, walks, unmet, from)? else {
            break;
        };
        let units = unmet_at_both(unmet, from as usize, to as usize);
        trail.send(net, walks, flow, units);
        count_sent(unmet, from as usize, to as usize, units as i64);
    }
    Ok(())
}

// So it is done from each point of excess.
pub(crate) fn augment_admissible(
    alloc: Global,
    net: &Network,
    flow: &mut [u64],
    unmet: &mut [i64],
    walks: &Walks,
) -> Result<(), AllocError>
    requires network { IsNetwork net.now }
    requires meeting { IsMeeting net.now flow.old unmet.old }
    requires ready { IsReady net.now flow.old walks.now }

    ensures meeting { OnOk result (IsMeeting net.now flow.new unmet.new) }
    ensures ready { OnOk result (IsReady net.now flow.new walks.now) }
{
    let mut trail = Trail::new(alloc, net, walks)?;
    for from in 0..net.points {
        empty_out(net, flow, unmet, walks, &mut trail, from)?;
    }
    Ok(())
}
