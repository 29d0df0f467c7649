//! The path and its latency.

ghost use Rattle.std.specs.Prelude.{◌≡◌, ◌+◌, ◌<◌, length, map, MatchBool};
ghost use Rattle.graph_model.specs.Graphs.{IsNode, IsJoined, output_name};
ghost use Rattle.graph_model.specs.Sound.{IsSound};
ghost use Rattle.plan_model.specs.Places.{IsFirstBad, IsStep};
ghost use Rattle.plan_model.specs.Rules.{IsPathOut, path_latency};
ghost use Rattle.plan_checker.specs.Answers.{Judges};

use crate::graphs::latency_of;
use connections::Checked;
use graph_model::{Graph, Uid};

/// Whether a connection leads from one node to another.
fn is_joined(graph: &Graph, from: Uid, to: Uid) -> bool
    ensures { MatchBool result (IsJoined graph.now from.0 to.0) (IsJoined graph.now from.0 to.0 → ⊥) }
{
    let connections = graph.connections.as_slice();
    connections
        .iter()
        .any(|c| c.src.0 == from.0 && c.dst.0 == to.0)
}

/// Whether an entry of a path is a node that leads on to the next entry, or the output node where it is the last.
fn is_step(g: &Checked, path: &[Uid], k: usize) -> bool
    requires { k < length path.now }
    ensures { MatchBool result (IsStep g.now (map (λ u. u.0) path.now) k) (IsStep g.now (map (λ u. u.0) path.now) k → ⊥) }
{
    let graph = g.graph();
    if graph.node(path[k]).is_none() {
        return false;
    }
    if k + 1 == path.len() {
        return path[k].0 == g.uid(g.output()).0;
    }
    is_joined(graph, path[k], path[k + 1])
}

/// The path leads along connections to the output node.
pub(crate) fn path(g: &Checked, path: &[Uid]) -> Option<u64>
    ensures { Judges result (IsPathOut g.now path.now) (IsFirstBad (IsStep g.now (map (λ u. u.0) path.now))) }
{
    for k in 0..path.len() {
        if !is_step(g, path, k) {
            return Some(k as u64);
        }
    }
    if path.is_empty() {
        return Some(0);
    }
    None
}

/// The latencies of the path's nodes without the last, in frames.
fn path_latency(graph: &Graph, path: &[Uid]) -> u128
    ensures { result ≡ path_latency graph.now path.now }
{
    let mut sum: u128 = 0;
    for k in 1..path.len() {
        sum += latency_of(graph, path[k - 1]) as u128;
    }
    sum
}

/// They sum up to the latency.
pub(crate) fn longest(g: &Checked, path: &[Uid], latency: u64) -> Option<u64>
    requires sound { IsSound g.now }
    requires path { IsPathOut g.now path.now }
    ensures { Judges result (path_latency g.now path.now ≡ latency) (λ place. place ≡ path_latency g.now path.now) }
{
    let sum = path_latency(g.graph(), path);
    if sum == latency as u128 {
        return None;
    }
    Some(sum as u64)
}
