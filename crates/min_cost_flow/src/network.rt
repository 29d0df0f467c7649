//! Networks, and the flows and potentials that solve them.

use graph_model::List;

/// A directed arc without capacity.
#[derive(Clone, Copy, PartialEq, Eq, PartialOrd, Ord, Debug)]
pub struct Arc {
    /// The point that it leaves.
    pub tail: u32,
    /// The point at which it arrives.
    pub head: u32,
    /// The least difference of potentials along it, head minus tail: the cost of a unit on it with the other sign.
    pub least: i64,
}

/// Arcs between the points 0 to `points - 1`, and the need of each point. Point 0 is the root.
#[derive(Debug, Drop)]
pub struct Network {
    /// How many points there are.
    pub points: u32,
    /// The arcs; several may join the same two points.
    pub arcs: List<Arc>,
    /// One number for each point: how many units more go in than out. Below 0 it is a supply, above 0 a demand.
    pub need: List<i64>,
}

/// A flow of least cost, and the least potentials that show it to be one.
#[derive(Debug, Drop)]
pub struct Solved {
    /// The units on each arc, in the order of the arcs.
    pub flow: List<u64>,
    /// The potential of each point, in the order of the points.
    pub potential: List<i64>,
}

// What an edge of the residual network stands for: one unit more on an arc, or one fewer.
#[derive(Clone, Copy, PartialEq, Eq, Debug)]
pub(crate) struct Step {
    pub(crate) arc: u32,
    pub(crate) back: bool,
}
