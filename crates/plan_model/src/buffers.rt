//! The buffers of the values, and how long each is needed.

use graph_model::Uid;

/// The buffer of a value: of an output channel that a live connection reads.
#[derive(Clone, Copy, Debug, PartialEq, Eq)]
pub struct Home {
    /// The node that bears the value.
    pub uid: Uid,
    /// The output channel of the node, from 0.
    pub channel: u32,
    /// The index of the buffer in the pool, below the plan's `channels`.
    pub buffer: u32,
}

/// The live range of a value, in waves: from the one in which it is born to the last one that reads it.
#[derive(Clone, Copy, Debug, PartialEq, Eq)]
pub struct Life {
    /// The node that bears the value.
    pub uid: Uid,
    /// The output channel of the node, from 0.
    pub channel: u32,
    /// The index of the wave of the node.
    pub born: u32,
    /// The index of the last wave in which a live node reads the value.
    pub dies: u32,
    /// The one node that reads it in wave `dies`; None where several do.
    pub reader: Option<Uid>,
}
