//! The schedule.

ghost use Rattle.std.specs.Prelude.{◌≡◌, ℕ, ◌==◌, ◌<◌, ◌≤◌, length, map, MatchBool};
ghost use Rattle.std.specs.List.{All, Contains, flat_map, list_any};
ghost use Rattle.std.specs.List.Sorted.{IsStrictlyIncreasing};
ghost use Rattle.graph_model.specs.Paths.{IsLive, live_connections};
ghost use Rattle.graph_model.specs.Sound.{Fits, IsSound};
ghost use Rattle.plan_model.specs.Places.{IsFirstBad, IsNextWave, IsWaveAt};
ghost use Rattle.plan_model.specs.Rules.{AreLiveNodes};
ghost use Rattle.plan_model.specs.Schedules.{IsSchedule, names};
ghost use Rattle.plan_checker.specs.Answers.{Judges};
ghost use Rattle.plan_checker.specs.Waves.{IsNew, IsReady};

use crate::graphs::leads_to_live;
use connections::Checked;
use graph_model::{Connection, Uid};
use plan_model::Wave;

/// Whether a list of nodes has a node.
fn has(nodes: &[Uid], uid: u32) -> bool
    ensures { result ≡ list_any (λ u. u.0 == uid) nodes.now }
{
    nodes.iter().any(|node| node.0 == uid)
}

/// Whether a node stands in one of the waves.
fn stands(waves: &[Wave], uid: u32) -> bool
    ensures { MatchBool result (Contains (flat_map names waves.now) uid) (Contains (flat_map names waves.now) uid → ⊥) }
{
    for wave in waves {
        if has(wave.nodes.as_slice(), uid) {
            return true;
        }
    }
    false
}

/// Whether the uids ascend.
fn is_rising(nodes: &[Uid]) -> bool
    ensures { MatchBool result
        (IsStrictlyIncreasing (map (λ u. u.0) nodes.now))
        (IsStrictlyIncreasing (map (λ u. u.0) nodes.now) → ⊥) }
{
    for k in 1..nodes.len() {
        if nodes[k - 1].0 >= nodes[k].0 {
            return false;
        }
    }
    true
}

/// Whether a node is live and stands in none of the waves before.
fn is_new(live: &[u32], before: &[Wave], uid: u32) -> bool
    ensures { MatchBool result (IsNew live.now before.now uid) (IsNew live.now before.now uid → ⊥) }
{
    live.contains(&uid) && !stands(before, uid)
}

/// Whether all nodes are.
fn are_new(live: &[u32], before: &[Wave], nodes: &[Uid]) -> bool
    ensures { MatchBool result
        (All (λ u. IsNew live.now before.now u.0) nodes.now)
        (All (λ u. IsNew live.now before.now u.0) nodes.now → ⊥) }
{
    for node in nodes {
        if !is_new(live, before, node.0) {
            return false;
        }
    }
    true
}

/// Whether a connection, where it is live and leads to one of the nodes, comes from a wave before.
fn is_ready(g: &Checked, before: &[Wave], nodes: &[Uid], connection: u32) -> bool
    requires { connection < length g.now.connections }
    ensures { MatchBool result
        (IsReady g.now before.now nodes.now connection)
        (IsReady g.now before.now nodes.now connection → ⊥) }
{
    let Connection { src, dst, .. } = g.graph().connections.as_slice()[connection as usize];
    if !has(nodes, dst.0) {
        return true;
    }
    if !leads_to_live(g, connection) {
        return true;
    }
    stands(before, src.0)
}

/// Whether all connections do.
fn are_ready(g: &Checked, before: &[Wave], nodes: &[Uid]) -> bool
    requires { Fits g.now }
    ensures { MatchBool result
        ((k : ℕ) → k < length g.now.connections → IsReady g.now before.now nodes.now k)
        (((k : ℕ) → k < length g.now.connections → IsReady g.now before.now nodes.now k) → ⊥) }
{
    for k in 0..g.graph().connections.len() as u32 {
        if !is_ready(g, before, nodes, k) {
            return false;
        }
    }
    true
}

/// Whether a wave has a node.
fn is_filled(nodes: &[Uid]) -> bool
    ensures { MatchBool result (0 < length nodes.now) (0 < length nodes.now → ⊥) }
{
    !nodes.is_empty()
}

/// Whether a wave may come after the waves before it.
fn is_next(g: &Checked, live: &[u32], before: &[Wave], wave: &Wave) -> bool
    requires fits { Fits g.now }
    requires live { AreLiveNodes g.now live.now }
    ensures { MatchBool result (IsNextWave g.now before.now wave.now) (IsNextWave g.now before.now wave.now → ⊥) }
{
    let nodes = wave.nodes.as_slice();
    if !is_filled(nodes) {
        return false;
    }
    if !is_rising(nodes) {
        return false;
    }
    if !are_new(live, before, nodes) {
        return false;
    }
    are_ready(g, before, nodes)
}

/// Whether each live node stands in a wave.
fn all_stand(live: &[u32], waves: &[Wave]) -> bool
    ensures { MatchBool result
        (All (λ v. Contains (flat_map names waves.now) v) live.now)
        (All (λ v. Contains (flat_map names waves.now) v) live.now → ⊥) }
{
    for uid in live {
        if !stands(waves, *uid) {
            return false;
        }
    }
    true
}

/// The waves are a schedule.
pub(crate) fn waves(g: &Checked, live: &[u32], waves: &[Wave]) -> Option<u64>
    requires sound { IsSound g.now }
    requires live { AreLiveNodes g.now live.now }
    ensures { Judges result (IsSchedule g.now waves.now) (IsFirstBad (IsWaveAt g.now waves.now)) }
{
    for k in 0..waves.len() {
        if !is_next(g, live, &waves[..k], &waves[k]) {
            return Some(k as u64);
        }
    }
    if !all_stand(live, waves) {
        return Some(waves.len() as u64);
    }
    None
}
