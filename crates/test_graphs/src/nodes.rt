//! Nodes and connections.

ghost use Rattle.std.specs.Prelude.{◌≡◌, IfOk};
ghost use Rattle.graph_model.specs.declared.kind.Kind.TheVariants.{Input, Output, Gain, Mixer, Fir, Delay, Insert};
ghost use Rattle.test_graphs.specs.Graphs.{node, joined};

use graph_model::{Connection, Kind, List, Node, Uid};
use std::alloc::{AllocError, Global};

/// A processor under that uid.
pub fn node(uid: u32, kind: Kind) -> Node
    ensures { result ≡ node uid kind }
{
    Node {
        uid: Uid(uid),
        kind,
    }
}

/// An input node.
pub fn input(uid: u32, channels: u32) -> Node
    ensures { result ≡ node uid (Input channels) }
{
    node(uid, Kind::Input { channels })
}

/// An output node.
pub fn output(uid: u32, channels: u32) -> Node
    ensures { result ≡ node uid (Output channels) }
{
    node(uid, Kind::Output { channels })
}

/// A gain of one channel, in units of 2^-16.
pub fn gain(uid: u32, gain: i32) -> Node
    ensures { result ≡ node uid (Gain 1 gain) }
{
    node(uid, Kind::Gain { channels: 1, gain })
}

/// A mixer: its gains in units of 2^-16, those of output 0 first.
pub fn mixer(
    alloc: Global,
    uid: u32,
    ins: u32,
    outs: u32,
    gains: &[i32],
) -> Result<Node, AllocError>
    ensures { IfOk result (λ n. n ≡ node uid (Mixer ins outs gains.now)) }
{
    let gains = List::from_slice(alloc, gains)?;
    Ok(node(uid, Kind::Mixer { ins, outs, gains }))
}

/// A filter of one channel, its taps over `2^shift`.
pub fn fir(
    alloc: Global,
    uid: u32,
    taps: &[i32],
    shift: u32,
    latency: u32,
) -> Result<Node, AllocError>
    ensures { IfOk result (λ n. n ≡ node uid (Fir 1 taps.now shift latency)) }
{
    let taps = List::from_slice(alloc, taps)?;
    let kind = Kind::Fir {
        channels: 1,
        taps,
        shift,
        latency,
    };
    Ok(node(uid, kind))
}

/// A delay, of that many frames.
pub fn delay(uid: u32, channels: u32, samples: u32) -> Node
    ensures { result ≡ node uid (Delay channels samples) }
{
    node(uid, Kind::Delay { channels, samples })
}

/// An insert of one channel, of that many frames.
pub fn insert(uid: u32, samples: u32) -> Node
    ensures { result ≡ node uid (Insert 1 samples) }
{
    let kind = Kind::Insert {
        channels: 1,
        samples,
    };
    node(uid, kind)
}

/// A connection from a channel of one node to a channel of another one.
pub fn joined_at(src: u32, src_channel: u32, dst: u32, dst_channel: u32) -> Connection
    ensures { result ≡ joined src src_channel dst dst_channel }
{
    Connection {
        src: Uid(src),
        src_channel,
        dst: Uid(dst),
        dst_channel,
    }
}

/// A connection between the first channels of two nodes.
pub fn joined(src: u32, dst: u32) -> Connection
    ensures { result ≡ joined src 0 dst 0 }
{
    joined_at(src, 0, dst, 0)
}
