//! Where the live nodes stand, and the delay lines that this asks for.

use graph_model::Uid;

/// The position of a live node, in frames: its input of time 0 is taken at this time.
#[derive(Clone, Copy, Debug, PartialEq, Eq)]
pub struct At {
    /// The node.
    pub uid: Uid,
    /// Frames after the graph's first input frame.
    pub at: u64,
}

/// The delay line of a live connection.
#[derive(Clone, Copy, Debug, PartialEq, Eq)]
pub struct LineAt {
    /// The connection's index in the graph's list of connections, from 0.
    pub connection: u32,
    /// How many frames the line holds a sample back.
    pub delay: u64,
}
