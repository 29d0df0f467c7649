//! Why a graph is refused, and the order of the checks.

ghost use Rattle.std.specs.Prelude.{◌≡◌};
ghost use Rattle.graph_model.specs.declared.refused.Refused.TheVariants.{Fault};

use graph_model::{List, Member, Refused, Side, Uid};
use thiserror::Error;

/// Why a graph is not sound. The checks have an order, and the first one that fails decides.
///
/// First come `UidTwice`, `KindField` and `Ends`. Then the connections are taken in the order of their list, and each
/// goes through `NoSuchNode`, `SelfConnection`, `ChannelRange` and `Twice` before the next one is taken. `Cycle`,
/// `DelayBound`, `StateBound` and `Headroom` come last. Nodes that do not lead to the output are checked as the others.
#[derive(Debug, PartialEq, Eq, Drop, Error)]
pub enum GraphFault {
    /// The node at `second` has the uid of the one at `first`. No uid stands twice before `second`.
    #[error("uid {} stands twice, at {first} and {second}", .uid.0)]
    UidTwice {
        uid: Uid,
        first: u32,
        second: u32,
    },
    /// The first node with a member out of range, and its first such member. A uid out of range is `Member::Uid`, a
    /// wrong number of a mixer's gains `Member::Gains`.
    #[error("node {}: {} is out of range", .uid.0, .field.name())]
    KindField {
        uid: Uid,
        field: Member,
    },
    /// There is not exactly one input node and one output node.
    #[error("{inputs} input nodes and {outputs} output nodes")]
    Ends {
        inputs: u32,
        outputs: u32,
    },
    /// The source of the connection at `at`, or else its destination, is no node.
    #[error("connection {at}: no node {}", .uid.0)]
    NoSuchNode {
        at: u32,
        uid: Uid,
    },
    /// The source of the connection at `at` is its destination.
    #[error("connection {at} joins a node to itself")]
    SelfConnection {
        at: u32,
    },
    /// The source's channel of the connection at `at`, or else the destination's, is not below the number of them. The
    /// side is `Side::Source` or `Side::Destination`.
    #[error("connection {at}: channel {channel} of {count}")]
    ChannelRange {
        at: u32,
        side: Side,
        channel: u32,
        count: u32,
    },
    /// The connection at `at` is the one at `earlier`.
    #[error("connection {at} stands already at {earlier}")]
    Twice {
        at: u32,
        earlier: u32,
    },
    /// Connection indexes, at least one: each one's destination is the next one's source, and the last one's
    /// destination is the first one's source. Which walk it is, is left open.
    #[error("a cycle")]
    Cycle {
        walk: List<u32>,
    },
    /// The graph's latency in frames times the number of connections that lead to the output passes 2^26.
    #[error("latency {latency} over {connections} connections")]
    DelayBound {
        latency: u64,
        connections: u32,
    },
    /// The processors keep more than 2^25 numbers.
    #[error("{cells} cells")]
    StateBound {
        cells: u64,
    },
    /// The samples of a channel can be larger than 2^46: the first such channel, of the nodes in their order and of a
    /// node's inputs (`Side::In`) before its outputs (`Side::Out`). A bound above 2^64 - 1 is kept as that.
    #[error("node {} channel {channel}: bound {bound}", .uid.0)]
    Headroom {
        uid: Uid,
        side: Side,
        channel: u32,
        bound: u64,
    },
}

impl From<GraphFault> for Refused<GraphFault> {
    ghost from_gives = { λ fault e. e ≡ Fault fault };

    fn from(fault: GraphFault) -> Refused<GraphFault> {
        Refused::Fault(fault)
    }
}
