//! The flow that bounds the total of the delays.

/// The units of a flow on one arc of the network, whose points are the live nodes and the root.
#[derive(Clone, Copy, Debug, PartialEq, Eq)]
pub struct Units {
    /// The point that the arc leaves: a node's uid, or 0 for the root.
    pub tail: u32,
    /// The point that it enters, named alike.
    pub head: u32,
    /// How many units it carries.
    pub units: u64,
}
