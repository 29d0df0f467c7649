//! The graph of a seed.

ghost use Rattle.std.specs.Prelude.{◌≡◌, ◌≤◌, ◌-◌, IfOk};
ghost use Rattle.graph_model.specs.Sound.{IsSound};
ghost use Rattle.graph_gen.specs.Generated.{kind_drawn, past_kind, generated};

use crate::draws::Draws;
use crate::joining::{connect, connect_ends};
use graph_model::{Graph, Kind, List, Node, Uid};
use std::alloc::{AllocError, Global};

/// Draws the kind of a node and its parameters.
fn draw_kind(alloc: Global, draws: &mut Draws) -> Result<Kind, AllocError>
    ensures kind { IfOk result (λ kind. kind ≡ kind_drawn draws.old.state) }
    ensures state { IfOk result (λ _. draws.new.state ≡ past_kind draws.old.state) }
{
    match draws.draw(6) {
        0 => Ok(Kind::Gain {
            channels: 1,
            gain: draws.draw(32769) as i32,
        }),
        1 => Ok(Kind::Insert {
            channels: 1,
            samples: draws.draw(64),
        }),
        2 => Ok(Kind::Fir {
            channels: 1,
            taps: List::from_slice(alloc, &[1, 2, 1])?,
            shift: 2,
            latency: 1,
        }),
        3 => Ok(Kind::Limiter {
            channels: 1,
            threshold: 1048576 + u64::from(draws.draw(16777216)),
            lookahead: 1 + draws.draw(8),
        }),
        4 => Ok(Kind::Biquad {
            channels: 1,
            b0: 4096,
            b1: 8192,
            b2: 4096,
            a1: 0,
            a2: 2048,
            shift: 14,
            bits: 32,
        }),
        _ => Ok(Kind::Delay {
            channels: 1,
            samples: 1 + draws.draw(100),
        }),
    }
}

/// A sound graph of 3 to 512 nodes, with uids from 1 on. Node 1 is an input and node 2 an output of two channels; every
/// other node has one channel, and a kind, parameters and sources that are drawn from the seed. Its sources are among
/// the nodes before it; what nobody reads goes to the output node. It fails only for want of memory.
pub fn graph_of(alloc: Global, seed: u64, nodes: u32) -> Result<Graph, AllocError>
    requires nodes { (3 ≤ nodes) × (nodes ≤ 512) }
    ensures graph { IfOk result (λ graph. graph ≡ generated seed nodes) }
    ensures sound { IfOk result IsSound }
{
    let mut draws = Draws { state: seed };
    let mut graph = Graph {
        nodes: List::new(alloc),
        connections: List::new(alloc),
    };
    graph.nodes.push(Node {
        uid: Uid(1),
        kind: Kind::Input { channels: 2 },
    })?;
    graph.nodes.push(Node {
        uid: Uid(2),
        kind: Kind::Output { channels: 2 },
    })?;
    for uid in 3..nodes + 1 {
        let kind = draw_kind(alloc, &mut draws)?;
        connect(&mut draws, &kind, uid, &mut graph.connections)?;
        graph.nodes.push(Node {
            uid: Uid(uid),
            kind,
        })?;
    }
    connect_ends(alloc, nodes, &mut graph.connections)?;
    Ok(graph)
}
