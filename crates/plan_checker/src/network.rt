//! The network of a graph: its difference constraints.

ghost use Rattle.std.specs.Prelude.{◌≡◌, ◌==◌, ◌≤◌, ◌<◌, ◌+◌, ◌^◌, ◌++◌, [], ◌∷◌, ◌&&◌, length, map, unsigned_abs, IfOk, OnOk};
ghost use Rattle.std.specs.List.{find};
ghost use Rattle.std.specs.Option.{option_copied, option_map};
ghost use Rattle.graph_model.specs.Paths.{live_connections};
ghost use Rattle.graph_model.specs.Sound.{IsSound, Fits};
ghost use Rattle.plan_model.specs.Flows.{along, from_root, to_root, network, arc_between};
ghost use Rattle.plan_checker.specs.Networks.{difference, AreSmall};

use crate::graphs::latency_of;
use crate::live::live_uids;
use connections::Checked;
use graph_model::Connection;
use std::alloc::{AllocError, Global};

/// A difference constraint: the head stands at least this much after the tail, in frames. The root is 0.
#[derive(Clone, Copy, Debug, PartialEq, Eq)]
pub(crate) struct Constraint {
    pub(crate) tail: u32,
    pub(crate) head: u32,
    pub(crate) least: i64,
}

/// The destination of a connection stands no earlier than the end of its source.
fn along(g: &Checked, connection: Connection) -> Constraint
    ensures arc { difference result ≡ along g.now connection }
    ensures least { unsigned_abs result.least ≤ 2 ^ 32 }
{
    Constraint {
        tail: connection.src.0,
        head: connection.dst.0,
        least: latency_of(g.graph(), connection.src) as i64,
    }
}

/// No live connection leads to a position before the end of its source.
fn add_along(
    arcs: &mut Vec<Constraint>,
    g: &Checked,
    connections: &[Connection],
) -> Result<(), AllocError>
    ensures arcs { OnOk result (map difference arcs.new.items ≡ map difference arcs.old.items ++ map (along g.now) connections.now) }
    ensures leasts { OnOk result (AreSmall arcs.old.items → AreSmall arcs.new.items) }
{
    for connection in connections {
        arcs.push(along(g, *connection))?;
    }
    Ok(())
}

/// No live node stands before 0.
fn add_from_root(arcs: &mut Vec<Constraint>, live: &[u32]) -> Result<(), AllocError>
    ensures arcs { OnOk result (map difference arcs.new.items ≡ map difference arcs.old.items ++ map from_root live.now) }
    ensures leasts { OnOk result (AreSmall arcs.old.items → AreSmall arcs.new.items) }
{
    for uid in live {
        arcs.push(Constraint {
            tail: 0,
            head: *uid,
            least: 0,
        })?;
    }
    Ok(())
}

/// A live input node stands at 0 at the latest, and the output node at the latency.
fn add_to_root(arcs: &mut Vec<Constraint>, g: &Checked, latency: u64) -> Result<(), AllocError>
    requires { latency ≤ 2 ^ 26 }
    ensures arcs { OnOk result (map difference arcs.new.items ≡ map difference arcs.old.items ++ to_root g.now latency) }
    ensures leasts { OnOk result (AreSmall arcs.old.items → AreSmall arcs.new.items) }
{
    if g.is_live(g.input()) {
        arcs.push(Constraint {
            tail: g.uid(g.input()).0,
            head: 0,
            least: 0,
        })?;
    }
    arcs.push(Constraint {
        tail: g.uid(g.output()).0,
        head: 0,
        least: -(latency as i64),
    })?;
    Ok(())
}

/// The difference constraints of the graph for alignments of that latency.
pub(crate) fn network(
    alloc: Global,
    g: &Checked,
    connections: &[Connection],
    latency: u64,
) -> Result<Vec<Constraint>, AllocError>
    requires live { connections.now ≡ live_connections g.now }
    requires small { latency ≤ 2 ^ 26 }
    ensures network { IfOk result (λ v. map difference v.items ≡ network g.now latency) }
    ensures leasts { IfOk result (λ v. AreSmall v.items) }
{
    let live = live_uids(alloc, g)?;
    let mut arcs = Vec::new(alloc);
    add_along(&mut arcs, g, connections)?;
    add_from_root(&mut arcs, &live)?;
    add_to_root(&mut arcs, g, latency)?;
    Ok(arcs)
}

/// The first constraint between two points.
pub(crate) fn between(network: &[Constraint], tail: u32, head: u32) -> Option<&Constraint>
    ensures { option_copied result ≡ find (λ a. (a.tail == tail) && (a.head == head)) network.now }
{
    network
        .iter()
        .find(|arc| arc.tail == tail && arc.head == head)
}
