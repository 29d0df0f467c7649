//! The search that takes the nearest points first.

ghost use Rattle.std.specs.Prelude.{◌≡◌, ℕ, ◌+◌, ◌<◌, ◌≤◌, ◌^◌, ℤ, pos, ◌+ℤ◌, ◌-ℤ◌, ◌≤ℤ◌, ◌<ℤ◌, ◌∷◌, length, IsTrue, IsFalse, IfOk, OnOk, IsSome, IfSome, OnSome, IfNone, MatchOption, replicate, slice_get, slice_set, slice_index_or, ◌≢◌};
ghost use Rattle.std.specs.List.{All, Contains};
ghost use Rattle.std.specs.List.Sorted.{IsPermutation};
ghost use Rattle.std.specs.BinaryHeap.{heap_items, heap_len, IsHeap, IsUpperBound};
ghost use Rattle.shortest_paths.specs.Walks.{IsWithin, Joins, HasNoNegativeCycle, Reaches, IsLeastCost, EndsLeast, ClimbsIn, number_of};
ghost use Rattle.shortest_paths.specs.Search.{found, AreBounded, AreSettled, IsSearched};
ghost use Rattle.shortest_paths.specs.Usable.{usable};
ghost use Rattle.shortest_paths.specs.Leaving.{IsLeaving};
ghost use Rattle.shortest_paths.specs.Nearest.{Permits, AreSmall, waiter, compare_waiters, AreWaiters, AllWaitBut, AllWait, Waits, IsRelaxed, AreSettledBelow, IsCutAt, IsCut, AreSized, IsLinked};

use crate::edges::{Best, Distances, Edge};
use crate::leaving::{Leaving, no_indexes};
use crate::search::{none_found, relax};
use graph_model::List;
use std::alloc::{AllocError, Global};
use std::cmp::Reverse;
use std::collections::BinaryHeap;

// The edge at an index, and in its place a loop at its tail where its limit is 0.
fn usable_edge(edges: &[Edge], limits: &[u64], index: u32) -> Edge
    requires limits { length limits.now ≤ length edges.now }
    requires index { index < length edges.now }

    ensures { slice_get (usable edges.now limits.now) index ≡ Some result }
{
    let edge = edges[index as usize];
    let free = edges.len() - limits.len();
    if (index as usize) < free {
        return edge;
    }
    if limits[index as usize - free] > 0 {
        edge
    } else {
        Edge {
            tail: edge.tail,
            head: edge.tail,
            cost: 0,
        }
    }
}

// Lets a point to which a walk was found wait.
fn wait(
    best: &[Option<Best>],
    waiting: &mut BinaryHeap<Reverse<(i64, i64, u32)>>,
    numbers: &[i64],
    point: u32,
) -> Result<(), AllocError>
    requires point { point < length best.now }
    requires numbers { length numbers.now ≡ length best.now }
    requires found { IsSome (found best.now point) }
    requires bounded { AreBounded best.now }
    requires small { AreSmall numbers.now }

    ensures len { OnOk result (heap_len waiting.new ≡ heap_len waiting.old + 1) }
    ensures joins { OnOk result ((b : Best) → found best.now point ≡ Some b
        → IsPermutation (waiter numbers.now b.cost point ∷ heap_items waiting.old) (heap_items waiting.new)) }
    ensures order { OnOk result (IsHeap compare_waiters (heap_items waiting.old) → IsHeap compare_waiters (heap_items waiting.new)) }
{
    let Some(walk) = best[point as usize] else {
        unreachable!();
    };
    let cost = walk.cost;
    let ahead = cost - numbers[point as usize];
    waiting.push(Reverse((ahead, cost, point)))?;
    Ok(())
}

// Takes the walk by the edge at an index, where it is cheaper than the best one to its head, which then waits. A loop
// gives nothing, since none costs less than 0.
fn relax_at(
    best: &mut [Option<Best>],
    waiting: &mut BinaryHeap<Reverse<(i64, i64, u32)>>,
    edges: &[Edge],
    limits: &[u64],
    numbers: &[i64],
    index: u32,
) -> Result<(), AllocError>
    requires points { length best.old ≤ 2 ^ 14 }
    requires few { length edges.now ≤ 2 ^ 17 }
    requires limits { length limits.now ≤ length edges.now }
    requires index { index < length edges.now }
    requires ends { All (Joins (length best.old)) (usable edges.now limits.now) }
    requires costs { All (λ e. IsWithin (2 ^ 46) e.cost) (usable edges.now limits.now) }
    requires cycles { HasNoNegativeCycle (usable edges.now limits.now) }
    requires numbers { length numbers.now ≡ length best.old }
    requires small { AreSmall numbers.now }
    requires searched { (from : ℕ) × IsSearched (usable edges.now limits.now) from best.old }

    ensures relaxed { OnOk result (IsRelaxed (usable edges.now limits.now) numbers.now best.old best.new (heap_items waiting.old)
        (heap_items waiting.new) (heap_len waiting.old) (heap_len waiting.new)) }
    ensures here { OnOk result ((e : Edge) → slice_get (usable edges.now limits.now) index ≡ Some e
        → Waits best.new numbers.now (heap_items waiting.new) e) }
{
    let edge = usable_edge(edges, limits, index);
    if edge.head == edge.tail {
        return Ok(());
    }
    if relax(best, index, edge) {
        wait(best, waiting, numbers, edge.head)?;
    }
    Ok(())
}

// Goes over the edges that leave a point.
fn relax_from(
    best: &mut [Option<Best>],
    waiting: &mut BinaryHeap<Reverse<(i64, i64, u32)>>,
    edges: &[Edge],
    limits: &[u64],
    leaving: &Leaving,
    numbers: &[i64],
    point: u32,
) -> Result<(), AllocError>
    requires points { length best.old ≤ 2 ^ 14 }
    requires few { length edges.now ≤ 2 ^ 17 }
    requires limits { length limits.now ≤ length edges.now }
    requires ends { All (Joins (length best.old)) (usable edges.now limits.now) }
    requires costs { All (λ e. IsWithin (2 ^ 46) e.cost) (usable edges.now limits.now) }
    requires cycles { HasNoNegativeCycle (usable edges.now limits.now) }
    requires leaving { IsLeaving (length best.old) edges.now leaving.now }
    requires numbers { length numbers.now ≡ length best.old }
    requires small { AreSmall numbers.now }
    requires searched { (from : ℕ) × IsSearched (usable edges.now limits.now) from best.old }
    requires point { point < length best.old }

    ensures relaxed { OnOk result (IsRelaxed (usable edges.now limits.now) numbers.now best.old best.new (heap_items waiting.old)
        (heap_items waiting.new) (heap_len waiting.old) (heap_len waiting.new)) }
    ensures all { OnOk result (AllWaitBut point best.old numbers.now (heap_items waiting.old) (usable edges.now limits.now)
        → AllWait best.new numbers.now (heap_items waiting.new) (usable edges.now limits.now)) }
{
    let mut next = leaving.newest[point as usize];
    while let Some(index) = next {
        relax_at(best, waiting, edges, limits, numbers, index)?;
        next = leaving.older[index as usize];
    }
    Ok(())
}

// Takes the point that waits by the least reduced cost, if one waits.
fn take_nearest(
    waiting: &mut BinaryHeap<Reverse<(i64, i64, u32)>>,
) -> Option<Reverse<(i64, i64, u32)>>
    ensures len { OnSome result (heap_len waiting.new + 1 ≡ heap_len waiting.old) }
    ensures moved { IfSome result (λ w. IsPermutation (heap_items waiting.old) (w ∷ heap_items waiting.new)) }
    ensures order { IfSome result (λ w. IsHeap compare_waiters (heap_items waiting.old) → IsHeap compare_waiters (heap_items waiting.new)) }
    ensures first { IfSome result (λ w. IsHeap compare_waiters (heap_items waiting.old)
        → IsUpperBound compare_waiters w (heap_items waiting.old)) }
    ensures none { IfNone result (heap_len waiting.old ≡ 0) }
{
    match waiting.pop() {
        Some(waiter) => Some(waiter),
        None => None,
    }
}

// Is this the cost of the best walk to the point?
fn is_current(best: &[Option<Best>], point: u32, cost: i64) -> bool
    requires point { point < length best.now }

    ensures yes { IsTrue result → (b : Best) × (found best.now point ≡ Some b) × (b.cost ≡ cost) }
    ensures no { IsFalse result → (b : Best) → found best.now point ≡ Some b → b.cost ≢ cost }
{
    match best[point as usize] {
        Some(walk) => walk.cost == cost,
        None => false,
    }
}

// Are so many units wanted at the point, and one at least?
fn is_enough(wanted: &[i64], point: u32, left: i64) -> bool
    ensures { IsTrue result → pos 0 <ℤ number_of wanted.now point }
{
    match wanted.get(point as usize) {
        Some(units) => *units > 0 && left <= *units,
        None => false,
    }
}

// The units that are left to be found beyond a point.
fn left_beyond(wanted: &[i64], point: u32, left: i64) -> i64 {
    match wanted.get(point as usize) {
        Some(units) => left.saturating_sub((*units).max(0)),
        None => left,
    }
}

// Where a search stopped: the reduced cost below which each point is settled, and the last point, or none where all are
// settled.
#[derive(Clone, Copy, PartialEq, Eq, Debug)]
pub(crate) struct Stop {
    pub(crate) limit: i64,
    pub(crate) point: Option<u32>,
}

// Takes the waiting points, the nearest first, until enough units are wanted at those that were taken.
fn settle(
    best: &mut [Option<Best>],
    waiting: &mut BinaryHeap<Reverse<(i64, i64, u32)>>,
    edges: &[Edge],
    limits: &[u64],
    leaving: &Leaving,
    numbers: &[i64],
    wanted: &[i64],
    enough: i64,
) -> Result<Stop, AllocError>
    requires points { length best.old ≤ 2 ^ 14 }
    requires few { length edges.now ≤ 2 ^ 17 }
    requires limits { length limits.now ≤ length edges.now }
    requires ends { All (Joins (length best.old)) (usable edges.now limits.now) }
    requires costs { All (λ e. IsWithin (2 ^ 46) e.cost) (usable edges.now limits.now) }
    requires cycles { HasNoNegativeCycle (usable edges.now limits.now) }
    requires leaving { IsLeaving (length best.old) edges.now leaving.now }
    requires numbers { length numbers.now ≡ length best.old }
    requires small { AreSmall numbers.now }
    requires searched { (from : ℕ) × IsSearched (usable edges.now limits.now) from best.old }
    requires waits { AllWait best.old numbers.now (heap_items waiting.old) (usable edges.now limits.now) }
    requires order { IsHeap compare_waiters (heap_items waiting.old) }
    requires inside { AreWaiters (length best.old) numbers.now (heap_items waiting.old) }

    ensures kept { OnOk result ((from : ℕ) → IsSearched (usable edges.now limits.now) from best.old
        → IsSearched (usable edges.now limits.now) from best.new) }
    ensures settled { IfOk result (λ s. AreSettledBelow best.new numbers.now s.limit (usable edges.now limits.now)) }
    ensures stop { IfOk result (λ s. MatchOption s.point ((s.limit ≡ pos (2 ^ 62))
        × AreSettled best.new (usable edges.now limits.now)) (λ v. (pos 0 <ℤ number_of wanted.now v)
        × ((b : Best) × (found best.new v ≡ Some b) × (s.limit ≡ b.cost -ℤ number_of numbers.now v)))) }
{
    let mut left = enough;
    while let Some(Reverse((ahead, cost, point))) = take_nearest(waiting) {
        if is_current(best, point, cost) {
            if is_enough(wanted, point, left) {
                return Ok(Stop {
                    limit: ahead,
                    point: Some(point),
                });
            }
            left = left_beyond(wanted, point, left);
            relax_from(best, waiting, edges, limits, leaving, numbers, point)?;
        }
    }
    Ok(Stop {
        limit: 1 << 62,
        point: None,
    })
}

// The best walk to a point, if it costs at most `most`.
fn within(walk: Option<Best>, most: i64) -> Best
    ensures { IsCutAt walk most result.cost result.last }
{
    match walk {
        Some(walk) if walk.cost <= most => walk,
        _ => Best {
            cost: most,
            last: None,
        },
    }
}

// The number of a point and the limit.
fn moved(numbers: &[i64], point: usize, limit: i64) -> i64
    requires point { point < length numbers.now }
    requires number { IsWithin (2 ^ 60) (number_of numbers.now point) }
    requires limit { IsWithin (2 ^ 62) limit }

    ensures { result ≡ number_of numbers.now point +ℤ limit }
{
    numbers[point] + limit
}

// Gives a point the cost and the last edge of its best walk, if that is within the limit; else its number moves by
// the limit.
fn cut_at(
    best: &[Option<Best>],
    limit: i64,
    numbers: &mut [i64],
    last: &mut [Option<u32>],
    point: usize,
)
    requires point { point < length best.now }
    requires numbers { length numbers.old ≡ length best.now }
    requires last { length last.old ≡ length best.now }
    requires bounded { AreBounded best.now }
    requires number { IsWithin (2 ^ 60) (number_of numbers.old point) }
    requires limit { IsWithin (2 ^ 62) limit }

    ensures here { IsCutAt (found best.now point) (number_of numbers.old point +ℤ limit) (number_of numbers.new point)
        (slice_index_or last.new point None) }
    ensures numbers { (v : ℕ) → v ≢ point → number_of numbers.new v ≡ number_of numbers.old v }
    ensures lasts { (v : ℕ) → v ≢ point → slice_index_or last.new v None ≡ slice_index_or last.old v None }
{
    let walk = within(best[point], moved(numbers, point, limit));
    numbers[point] = walk.cost;
    last[point] = walk.last;
}

// So it is done at each point.
fn cut(best: &[Option<Best>], limit: i64, numbers: &mut [i64], last: &mut [Option<u32>])
    requires numbers { length numbers.old ≡ length best.now }
    requires last { length last.old ≡ length best.now }
    requires bounded { AreBounded best.now }
    requires small { AreSmall numbers.old }
    requires limit { IsWithin (2 ^ 62) limit }

    ensures { IsCut best.now limit numbers.old numbers.new last.new }
{
    for point in 0..best.len() {
        cut_at(best, limit, numbers, last, point);
    }
}

/// A search for least walks that can be had again and again: it keeps its memory, and the numbers by which it goes.
#[derive(Drop)]
pub struct Searcher {
    /// How many points there are.
    pub points: u32,
    pub(crate) best: Vec<Option<Best>>,
    pub(crate) waiting: BinaryHeap<Reverse<(i64, i64, u32)>>,
    /// A number for each point, its potential: no edge gives its head less than its number.
    pub numbers: Vec<i64>,
    /// The index of the last edge of a least walk to each point in the tree.
    pub last: Vec<Option<u32>>,
}

impl Searcher {
    /// Room for searches over so many points, whose numbers are 0. The call fails only for want of memory.
    pub fn new(alloc: Global, points: u32) -> Result<Searcher, AllocError>
        ensures points { IfOk result (λ s. s.points ≡ points) }
        ensures sizes { IfOk result (λ s. AreSized s) }
        ensures numbers { IfOk result (λ s. s.numbers.items ≡ replicate points (pos 0)) }
    {
        let best = none_found(alloc, points)?;
        let numbers = vec![in alloc; 0; points as usize]?;
        let last = no_indexes(alloc, points)?;
        Ok(Searcher {
            points,
            best,
            waiting: BinaryHeap::new(alloc),
            numbers,
            last,
        })
    }

    /// A search from a point: it takes the nearest points first, and stops as soon as enough units are wanted at
    /// those that it took. It answers the point at which it stopped, where units are wanted, or none where all points
    /// are in the tree.
    ///
    /// There are at most 2^14 points and at most 2^17 edges between them, with costs of at most 2^46 in size. The
    /// last of them, as many as there are `limits`, have these limits: an edge of limit 0 counts for nothing. Some
    /// walk leads from `from` to each point. The numbers are at most 2^60 in size, and no edge gives its head less
    /// than its number.
    ///
    /// Afterwards that is so again, and the number of `from` is 0. A point in the tree has in `last` the index of an
    /// edge that ends a least walk to it, and its number is the cost of that walk; from it the edges of `last` lead
    /// back to `from` in fewer steps than there are points. The others have None in `last`, as `from` has. The call
    /// fails only for want of memory; the searcher is of no use then.
    pub fn run(
        &mut self,
        edges: &[Edge],
        limits: &[u64],
        leaving: &Leaving,
        from: u32,
        wanted: &[i64],
        enough: i64,
    ) -> Result<Option<u32>, AllocError>
        requires sizes { AreSized self.old }
        requires points { self.old.points ≤ 2 ^ 14 }
        requires few { length edges.now ≤ 2 ^ 17 }
        requires limits { length limits.now ≤ length edges.now }
        requires ends { All (Joins self.old.points) edges.now }
        requires costs { All (λ e. IsWithin (2 ^ 46) e.cost) edges.now }
        requires leaving { IsLeaving self.old.points edges.now leaving.now }
        requires start { from < self.old.points }
        requires small { AreSmall self.old.numbers.items }
        requires permits { Permits (usable edges.now limits.now) self.old.numbers.items }
        requires reached { (v : ℕ) → v < self.old.points → Reaches (usable edges.now limits.now) from v }

        ensures sizes { OnOk result (AreSized self.new × (self.new.points ≡ self.old.points)) }
        ensures permits { OnOk result (Permits (usable edges.now limits.now) self.new.numbers.items) }
        ensures start { OnOk result (number_of self.new.numbers.items from ≡ pos 0) }
        ensures none_at_from { OnOk result (slice_get self.new.last.items from ≡ Some None) }
        ensures last { OnOk result ((v k : ℕ) → slice_get self.new.last.items v ≡ Some (Some k)
            → EndsLeast (usable edges.now limits.now) self.new.numbers.items v k) }
        ensures tree { OnOk result ((v k : ℕ) → slice_get self.new.last.items v ≡ Some (Some k)
            → (n : ℕ) × (n < self.old.points) × ClimbsIn (usable edges.now limits.now) self.new.last.items from n v) }
        ensures stop { IfOk result (λ stop. MatchOption stop ((v : ℕ) → v < self.old.points → v ≢ from
            → IsLinked self.new.last.items v) (λ v. (v < self.old.points) × (pos 0 <ℤ number_of wanted.now v)
            × (v ≢ from → IsLinked self.new.last.items v))) }
    {
        let stop = search_tree(
            &mut self.best,
            &mut self.waiting,
            edges,
            limits,
            leaving,
            &mut self.numbers,
            &mut self.last,
            from,
            wanted,
            enough,
        )?;
        Ok(stop)
    }
}

// No walk is found but the empty one, and its point waits.
fn begin(
    best: &mut [Option<Best>],
    waiting: &mut BinaryHeap<Reverse<(i64, i64, u32)>>,
    numbers: &[i64],
    from: u32,
) -> Result<(), AllocError>
    requires start { from < length best.old }
    requires numbers { length numbers.now ≡ length best.old }
    requires small { AreSmall numbers.now }

    ensures best { OnOk result (best.new
        ≡ slice_set (replicate (length best.old) None) from (Some (record { cost = pos 0; last = None }))) }
    ensures waits { OnOk result (Contains (heap_items waiting.new) (waiter numbers.now (pos 0) from)) }
    ensures order { OnOk result (IsHeap compare_waiters (heap_items waiting.new)) }
    ensures inside { OnOk result (AreWaiters (length best.old) numbers.now (heap_items waiting.new)) }
{
    waiting.clear();
    forget(best);
    best[from as usize] = Some(Best {
        cost: 0,
        last: None,
    });
    wait(best, waiting, numbers, from)?;
    Ok(())
}

// A whole search from a point: it leaves the tree of the walks that it found.
fn search_tree(
    best: &mut [Option<Best>],
    waiting: &mut BinaryHeap<Reverse<(i64, i64, u32)>>,
    edges: &[Edge],
    limits: &[u64],
    leaving: &Leaving,
    numbers: &mut [i64],
    last: &mut [Option<u32>],
    from: u32,
    wanted: &[i64],
    enough: i64,
) -> Result<Option<u32>, AllocError>
    requires points { length best.old ≤ 2 ^ 14 }
    requires few { length edges.now ≤ 2 ^ 17 }
    requires limits { length limits.now ≤ length edges.now }
    requires ends { All (Joins (length best.old)) (usable edges.now limits.now) }
    requires costs { All (λ e. IsWithin (2 ^ 46) e.cost) (usable edges.now limits.now) }
    requires cycles { HasNoNegativeCycle (usable edges.now limits.now) }
    requires leaving { IsLeaving (length best.old) edges.now leaving.now }
    requires numbers { length numbers.old ≡ length best.old }
    requires lasts { length last.old ≡ length best.old }
    requires small { AreSmall numbers.old }
    requires start { from < length best.old }
    requires permits { Permits (usable edges.now limits.now) numbers.old }
    requires reached { (v : ℕ) → v < length best.old → Reaches (usable edges.now limits.now) from v }

    ensures permits { OnOk result (Permits (usable edges.now limits.now) numbers.new) }
    ensures start { OnOk result (number_of numbers.new from ≡ pos 0) }
    ensures none_at_from { OnOk result (slice_get last.new from ≡ Some None) }
    ensures last { OnOk result ((v k : ℕ) → slice_get last.new v ≡ Some (Some k)
        → EndsLeast (usable edges.now limits.now) numbers.new v k) }
    ensures tree { OnOk result ((v k : ℕ) → slice_get last.new v ≡ Some (Some k)
        → (n : ℕ) × (n < length best.old) × ClimbsIn (usable edges.now limits.now) last.new from n v) }
    ensures stop { IfOk result (λ stop. MatchOption stop ((v : ℕ) → v < length best.old → v ≢ from
        → IsLinked last.new v) (λ v. (v < length best.old) × (pos 0 <ℤ number_of wanted.now v) × (v ≢ from → IsLinked last.new v))) }
{
    begin(best, waiting, numbers, from)?;
    let stop = settle(
        best, waiting, edges, limits, leaving, numbers, wanted, enough,
    )?;
    cut(best, stop.limit, numbers, last);
    Ok(stop.point)
}

// No walk is found any more. Where none was, nothing is written.
fn forget(best: &mut [Option<Best>])
    ensures { best.new ≡ replicate (length best.old) None }
{
    for index in 0..best.len() {
        if best[index].is_some() {
            best[index] = None;
        }
    }
}

/// Least walks from the point `from` to each of the points 0 to `points - 1`, where no edge costs less than 0.
///
/// There are at most 2^14 points and at most 2^17 edges, each between two of the points, with a cost of at most 2^46.
/// Some walk leads from `from` to each point. The answer is as that of [`distances`](crate::distances): the least
/// cost of a walk to each point, and the index of an edge that ends such a walk, None at `from` alone. The call fails
/// only for want of memory.
pub fn nearest(
    alloc: Global,
    points: u32,
    edges: &[Edge],
    from: u32,
) -> Result<Distances, AllocError>
    requires points { points ≤ 2 ^ 14 }
    requires few { length edges.now ≤ 2 ^ 17 }
    requires ends { All (Joins points) edges.now }
    requires costs { All (λ e. (pos 0 ≤ℤ e.cost) × (e.cost ≤ℤ pos (2 ^ 46))) edges.now }
    requires start { from < points }
    requires reached { (v : ℕ) → v < points → Reaches edges.now from v }

    ensures points { IfOk result (λ d. (length d.least ≡ points) × (length d.last ≡ points)) }
    ensures least { IfOk result (λ d. (v : ℕ) → v < points → IsLeastCost edges.now from v (number_of d.least v)) }
    ensures none_at_from { IfOk result (λ d. slice_get d.last from ≡ Some None) }
    ensures none { IfOk result (λ d. (v : ℕ) → v < points → slice_get d.last v ≡ Some None → v ≡ from) }
    ensures last { IfOk result (λ d. (v k : ℕ) → v < points → slice_get d.last v ≡ Some (Some k) → EndsLeast edges.now d.least v k) }
    ensures tree { IfOk result (λ d. (v : ℕ) → v < points → (n : ℕ) × (n < points) × ClimbsIn edges.now d.last from n v) }
{
    let leaving = Leaving::new(alloc, points, edges)?;
    let mut search = Searcher::new(alloc, points)?;
    search.run(edges, &[], &leaving, from, &[], 1)?;
    let least = List::from_slice(alloc, &search.numbers)?;
    let last = List::from_slice(alloc, &search.last)?;
    Ok(Distances { least, last })
}
