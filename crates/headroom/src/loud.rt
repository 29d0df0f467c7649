//! The first bound that passes the limit.

ghost use Rattle.std.specs.Prelude.{◌≡◌, ◌^◌, ◌≤◌, length, MatchOption};
ghost use Rattle.graph_model.specs.Bounds.{IsBounded};
ghost use Rattle.headroom.specs.Loud.{AreBelow, IsFirstAbove, IsFirstOf};

use graph_model::{Bound, Side, Uid};

/// The greatest bound that a channel may have.
const LIMIT: u64 = 1 << 46;

/// A channel whose samples can become too large: the first in the order of the nodes, of each node its input channels
/// before its output channels, each counted upward.
#[derive(Clone, Copy, Debug, PartialEq, Eq)]
pub struct TooLoud {
    /// The node.
    pub uid: Uid,
    /// `In` where it is an input channel, and `Out` where it is an output channel.
    pub side: Side,
    /// The channel, from 0.
    pub channel: u32,
    /// Its bound, which is above 2^46. One of 2^64 or more is told as 2^64 - 1.
    pub bound: u64,
}

/// The first channel of one side whose bound passes the limit.
fn loud_on(uid: Uid, side: Side, bounds: &[u64]) -> Option<TooLoud>
    requires { length bounds.now ≤ 2 ^ 32 }
    ensures { MatchOption result (AreBelow bounds.now) (λ loud. (loud.uid ≡ uid) × (loud.side ≡ side)
        × IsFirstAbove bounds.now loud.channel loud.bound) }
{
    for channel in 0..bounds.len() {
        if bounds[channel] > LIMIT {
            return Some(TooLoud {
                uid,
                side,
                channel: channel as u32,
                bound: bounds[channel],
            });
        }
    }
    None
}

/// The first channel of a node whose bound passes the limit, its inputs before its outputs.
pub(crate) fn too_loud(uid: Uid, bound: &Bound) -> Option<TooLoud>
    requires ins { length bound.now.ins ≤ 2 ^ 32 }
    requires outs { length bound.now.outs ≤ 2 ^ 32 }
    ensures { MatchOption result (IsBounded bound.now) (λ loud. (loud.uid ≡ uid) × IsFirstOf bound.now loud.side loud.channel loud.bound) }
{
    match loud_on(uid, Side::In, bound.ins.as_slice()) {
        Some(loud) => Some(loud),
        None => loud_on(uid, Side::Out, bound.outs.as_slice()),
    }
}
