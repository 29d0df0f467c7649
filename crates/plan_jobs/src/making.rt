//! The player of a node.

ghost use Rattle.std.specs.Prelude.{◌≡◌, ◌==◌, [], false, Some, ℕ, ◌^◌, ◌<◌, ◌≤◌, length, map, IfOk, List};
ghost use Rattle.std.specs.List.{All, Contains, list_any};
ghost use Rattle.graph_model.specs.Answers.{delay};
ghost use Rattle.graph_model.specs.Bounds.{bounds};
ghost use Rattle.graph_model.specs.Graphs.{is_input, is_output, node_named};
ghost use Rattle.graph_model.specs.Kernels.{IsBoundOf};
ghost use Rattle.graph_model.specs.Kinds.{ins_of, outs_of};
ghost use Rattle.graph_model.specs.Ranges.{HasRange};
ghost use Rattle.plan_model.specs.Alignments.{IsAfter, position_in};
ghost use Rattle.engine_model.specs.Machines.{homes_at};
ghost use Rattle.players.specs.Reads.{channels_of, is_fed};
ghost use Rattle.players.specs.Servers.{FitsServer, ServerHolds};
ghost use Rattle.plan_jobs.specs.Jobs.{IsNewPlayer, Serves, core_home};
ghost use Rattle.plan_jobs.specs.Made.{AreLinesOf, AreWiresOf};

use crate::places::{buffer_for, delay_of, own_of};
use delay_lines::Line;
use graph_model::{Bound, Graph, Node, Uid};
use plan_model::{At, Home as PlanHome};
use players::{Leaving, Player, SUB, Server, Wire, zeros};
use pool_waves::Home;
use processors::Processor;
use std::alloc::{AllocError, Global};

/// Whether a wire feeds the channel.
fn is_fed(wires: &[Wire], channel: usize) -> bool
    ensures { result ≡ list_any (λ w. w.channel == channel) wires.now }
{
    wires.iter().any(|wire| wire.channel == channel)
}

/// The connections into a node, by the plan's homes and those of its own values.
fn wires_of(
    alloc: Global,
    graph: &Graph,
    homes: &[PlanHome],
    own: &[Home],
    uid: Uid,
) -> Result<Vec<Wire>, AllocError>
    ensures { IfOk result (λ list. AreWiresOf graph.now.connections homes.now own.now uid.0 list.items) }
{
    let mut list: Vec<Wire> = Vec::new(alloc);
    for connection in graph.connections.as_slice() {
        if connection.dst.0 == uid.0 {
            let channel = connection.dst_channel as usize;
            let buffer = buffer_for(homes, connection);
            let own = own_of(own, buffer);
            let first = !is_fed(list.as_slice(), channel);
            list.push(Wire {
                channel,
                buffer,
                own,
                first,
            })?;
        }
    }
    Ok(list)
}

/// The channels of these that no wire feeds.
fn silent_of(alloc: Global, wires: &[Wire], ins: usize) -> Result<Vec<usize>, AllocError>
    ensures within { IfOk result (λ list. All (λ d. d < ins) list.items) }
    ensures all { IfOk result (λ list. (d : ℕ) → d < ins → is_fed (channels_of wires.now) d ≡ false → Contains list.items d) }
{
    let mut list = Vec::new(alloc);
    for channel in 0..ins {
        if !is_fed(wires, channel) {
            list.push(channel)?;
        }
    }
    Ok(list)
}

/// The lines into a node, full of zeros.
fn lines_of(alloc: Global, graph: &Graph, ats: &[At], uid: Uid) -> Result<Vec<Line>, AllocError>
    requires after { All (λ c. c.dst.0 ≡ uid.0
        → IsAfter graph.now (position_in ats.now) c × (delay graph.now (position_in ats.now) c ≤ 2 ^ 26)) graph.now.connections }
    ensures { IfOk result (λ list. AreLinesOf graph.now (position_in ats.now) graph.now.connections uid.0 list.items) }
{
    let mut list = Vec::new(alloc);
    for connection in graph.connections.as_slice() {
        if connection.dst.0 == uid.0 {
            list.push(Line::new(alloc, delay_of(graph, ats, connection))?)?;
        }
    }
    Ok(list)
}

/// What a node does, when nothing has come into it.
fn server_of(alloc: Global, node: &Node, bound: &Bound) -> Result<Server, AllocError>
    requires range { HasRange node.now.kind }
    requires bound { is_input node.now.kind ≡ false → is_output node.now.kind ≡ false → IsBoundOf node.now.kind bound.now }
    ensures { IfOk result (λ server. Serves node.now.kind bound.now server × ServerHolds server []
        × FitsServer server (ins_of node.now.kind) (outs_of node.now.kind)) }
{
    if node.kind.is_input() {
        return Ok(Server::Entry);
    }
    if node.kind.is_output() {
        return Ok(Server::Exit(Leaving::new(alloc, node.ins() as usize)?));
    }
    let processor = Processor::make(alloc, &node.kind, bound)?;
    Ok(Server::Between(processor))
}

/// The player of a node that nothing has come into.
pub(crate) fn player_of(
    alloc: Global,
    graph: &Graph,
    ats: &[At],
    homes: &[PlanHome],
    own: &[Home],
    node: &Node,
    bound: &Bound,
) -> Result<Player, AllocError>
    requires named { node_named graph.now node.now.uid.0 ≡ Some node.now }
    requires range { HasRange node.now.kind }
    requires bound { is_input node.now.kind ≡ false → is_output node.now.kind ≡ false → IsBoundOf node.now.kind bound.now }
    requires is { bound.now ≡ bounds graph.now node.now.uid.0 }
    requires after { All (λ c. c.dst.0 ≡ node.now.uid.0
        → IsAfter graph.now (position_in ats.now) c × (delay graph.now (position_in ats.now) c ≤ 2 ^ 26)) graph.now.connections }
    requires channels { All (λ c. c.dst.0 ≡ node.now.uid.0 → c.dst_channel < ins_of node.now.kind) graph.now.connections }
    requires own { map core_home own.now ≡ homes_at homes.now node.now.uid.0 }
    ensures { IfOk result (λ player. IsNewPlayer graph.now (position_in ats.now) homes.now node.now.uid.0 own.now player) }
{
    let ins = node.ins() as usize;
    let outs = node.outs() as usize;
    let wires = wires_of(alloc, graph, homes, own, node.uid)?;
    let silent = silent_of(alloc, wires.as_slice(), ins)?;
    let lines = lines_of(alloc, graph, ats, node.uid)?;
    let server = server_of(alloc, node, bound)?;
    let sums = zeros(alloc, ins * SUB)?;
    let told = zeros(alloc, outs * SUB)?;
    let spare = zeros(alloc, SUB)?;
    Ok(Player {
        wires,
        lines,
        silent,
        server,
        ins,
        outs,
        sums,
        told,
        spare,
    })
}
