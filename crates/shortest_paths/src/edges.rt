//! Directed edges, and what is found of the walks over them.

use graph_model::List;

/// A directed edge. The place of an edge in a list of edges, from 0, is its index.
#[derive(Clone, Copy, PartialEq, Eq, Debug)]
pub struct Edge {
    /// The point that it leaves.
    pub tail: u32,
    /// The point at which it arrives.
    pub head: u32,
    /// What passing it costs; below 0 where it gains.
    pub cost: i64,
}

// The distance label of a point: the cheapest walk to it that was found so far, by its cost and the index of its last
// edge. Only the empty walk has no last edge.
#[derive(Clone, Copy, PartialEq, Eq, Debug)]
pub(crate) struct Best {
    pub(crate) cost: i64,
    pub(crate) last: Option<u32>,
}

/// The least walks from one point to each, with one item for each point, in the order of the points.
#[derive(Debug, PartialEq, Eq, Drop)]
pub struct Distances {
    /// The least cost of a walk to the point.
    pub least: List<i64>,
    /// The index of an edge that ends a least walk to the point, and None at the start alone.
    pub last: List<Option<u32>>,
}
