//! Where the plan has the nodes and their values.

ghost use Rattle.std.specs.Prelude.{◌≡◌, ◌==◌, map, IfOk};
ghost use Rattle.std.specs.List.{find};
ghost use Rattle.std.specs.Option.{option_copied};
ghost use Rattle.graph_model.specs.Answers.{delay};
ghost use Rattle.graph_model.specs.Graphs.{latency_at};
ghost use Rattle.plan_model.specs.Alignments.{IsAfter, position_in};
ghost use Rattle.plan_model.specs.Homes.{is_home_of};
ghost use Rattle.engine_model.specs.Machines.{buffer_for, homes_at};
ghost use Rattle.plan_jobs.specs.Jobs.{IsOwnRight, core_home};

use graph_model::{Connection, Graph, Uid, latency};
use plan_model::{At, Home as PlanHome};
use pool_waves::Home;
use std::alloc::{AllocError, Global};

/// The home of a value.
fn home_of(homes: &[PlanHome], uid: Uid, channel: u32) -> Option<&PlanHome>
    ensures { option_copied result ≡ find (is_home_of uid.0 channel) homes.now }
{
    homes
        .iter()
        .find(|home| home.uid.0 == uid.0 && home.channel == channel)
}

/// The buffer that a connection reads, 0 where there is none.
pub(crate) fn buffer_for(homes: &[PlanHome], connection: &Connection) -> usize
    ensures { result ≡ buffer_for homes.now connection.now }
{
    match home_of(homes, connection.src, connection.src_channel) {
        Some(home) => home.buffer as usize,
        None => 0,
    }
}

/// Which of these values has the buffer.
pub(crate) fn own_of(homes: &[Home], buffer: usize) -> Option<usize>
    ensures { IsOwnRight homes.now buffer result }
{
    homes.iter().position(|home| home.buffer == buffer)
}

/// The values of a node, by the plan's homes.
pub(crate) fn homes_of(alloc: Global, homes: &[PlanHome], uid: Uid) -> Result<Vec<Home>, AllocError>
    ensures { IfOk result (λ list. map core_home list.items ≡ homes_at homes.now uid.0) }
{
    let mut list = Vec::new(alloc);
    for home in homes {
        if home.uid.0 == uid.0 {
            list.push(Home {
                channel: home.channel as usize,
                buffer: home.buffer as usize,
            })?;
        }
    }
    Ok(list)
}

/// The entry of a node.
fn entry_of(ats: &[At], uid: Uid) -> Option<&At>
    ensures { option_copied result ≡ find (λ a. a.uid.0 == uid.0) ats.now }
{
    ats.iter().find(|at| at.uid.0 == uid.0)
}

/// The position of a node, 0 where it has none.
fn position_of(ats: &[At], uid: Uid) -> u64
    ensures { result ≡ position_in ats.now uid.0 }
{
    match entry_of(ats, uid) {
        Some(at) => at.at,
        None => 0,
    }
}

/// The latency of a node, 0 where there is none.
fn latency_of(graph: &Graph, uid: Uid) -> u64
    ensures { result ≡ latency_at graph.now uid.0 }
{
    match graph.node(uid) {
        Some(node) => u64::from(latency(&node.kind)),
        None => 0,
    }
}

/// How many frames a connection holds back, where the nodes stand at these positions.
pub(crate) fn delay_of(graph: &Graph, ats: &[At], connection: &Connection) -> u64
    requires { IsAfter graph.now (position_in ats.now) connection.now }
    ensures { result ≡ delay graph.now (position_in ats.now) connection.now }
{
    position_of(ats, connection.dst)
        - (position_of(ats, connection.src) + latency_of(graph, connection.src))
}
