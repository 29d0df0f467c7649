//! Where the live nodes stand.

ghost use Rattle.std.specs.Prelude.{◌≡◌, ◌+◌, ◌-◌, ◌<◌, ◌≤◌, ◌==◌, length, MatchBool};
ghost use Rattle.std.specs.List.{All, find};
ghost use Rattle.std.specs.Option.{option_copied};
ghost use Rattle.graph_model.specs.Answers.{delay};
ghost use Rattle.graph_model.specs.Graphs.{input_name, output_name};
ghost use Rattle.graph_model.specs.Paths.{IsLive, live_connections};
ghost use Rattle.graph_model.specs.Sound.{Fits, IsSound};
ghost use Rattle.plan_model.specs.Alignments.{IsAfter, position_in};
ghost use Rattle.plan_model.specs.Places.{IsFirstBad, IsTimely};
ghost use Rattle.plan_checker.specs.Answers.{Judges};

use crate::graphs::{latency_of, leads_to_live};
use connections::Checked;
use graph_model::{Connection, Graph, Uid};
use plan_model::At;

/// The first entry of a node.
fn entry(at: &[At], uid: Uid) -> Option<&At>
    ensures { option_copied result ≡ find (λ a. a.uid.0 == uid.0) at.now }
{
    at.iter().find(|entry| entry.uid.0 == uid.0)
}

/// The position that the list gives to a node, and 0 where it gives none.
pub(crate) fn position(at: &[At], uid: Uid) -> u64
    ensures { result ≡ position_in at.now uid.0 }
{
    match entry(at, uid) {
        Some(entry) => entry.at,
        None => 0,
    }
}

/// A live input node stands at 0.
pub(crate) fn input(g: &Checked, at: &[At]) -> Option<u64>
    requires sound { IsSound g.now }
    ensures { Judges result
        (IsLive g.now (input_name g.now) → position_in at.now (input_name g.now) ≡ 0)
        (λ place. place ≡ position_in at.now (input_name g.now)) }
{
    let node = g.input();
    let place = position(at, g.uid(node));
    if g.is_live(node) && place != 0 {
        return Some(place);
    }
    None
}

/// Whether the destination of a connection stands no earlier than the end of its source.
fn is_after(graph: &Graph, at: &[At], connection: Connection) -> bool
    ensures { MatchBool result
        (IsAfter graph.now (position_in at.now) connection)
        (IsAfter graph.now (position_in at.now) connection → ⊥) }
{
    let end = position(at, connection.src) as u128 + latency_of(graph, connection.src) as u128;
    end <= position(at, connection.dst) as u128
}

/// Whether a connection, where it leads to a live node, does so in time.
fn is_timely(g: &Checked, at: &[At], connection: u32) -> bool
    requires { connection < length g.now.connections }
    ensures { MatchBool result
        (IsTimely g.now (position_in at.now) connection)
        (IsTimely g.now (position_in at.now) connection → ⊥) }
{
    if !leads_to_live(g, connection) {
        return true;
    }
    let graph = g.graph();
    is_after(graph, at, graph.connections.as_slice()[connection as usize])
}

/// No live connection leads to a position before the end of its source.
pub(crate) fn alignment(g: &Checked, at: &[At]) -> Option<u64>
    requires fits { Fits g.now }
    ensures { Judges result
        (All (IsAfter g.now (position_in at.now)) (live_connections g.now))
        (IsFirstBad (IsTimely g.now (position_in at.now))) }
{
    for k in 0..g.graph().connections.len() as u32 {
        if !is_timely(g, at, k) {
            return Some(k as u64);
        }
    }
    None
}

/// The output node stands at the latency.
pub(crate) fn latency(g: &Checked, at: &[At], latency: u64) -> Option<u64>
    ensures { Judges result
        (position_in at.now (output_name g.now) ≡ latency)
        (λ place. place ≡ position_in at.now (output_name g.now)) }
{
    let place = position(at, g.uid(g.output()));
    if place == latency {
        return None;
    }
    Some(place)
}

/// The delay that a connection needs between the end of its source and its destination, in frames.
pub(crate) fn delay(graph: &Graph, at: &[At], connection: Connection) -> u64
    ensures { result ≡ delay graph.now (position_in at.now) connection }
{
    position(at, connection.dst)
        .saturating_sub(position(at, connection.src))
        .saturating_sub(latency_of(graph, connection.src) as u64)
}
