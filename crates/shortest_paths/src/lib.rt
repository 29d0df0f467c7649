//! Least walks over directed edges: the shortest path problem from one point.
//!
//! [`distances`] takes costs that may be below 0. It goes over the edges, round by round, until none of them gives a
//! cheaper walk, as the algorithm of Bellman and Ford does. [`nearest`] takes costs from 0 on, and the nearest points
//! first, from a heap, as Dijkstra's algorithm does. [`Searcher`] is the same search over reduced costs, for one who
//! searches again and again: it goes by a number for each point, stops as soon as enough is found, and leaves numbers
//! to go on from (Johnson's potentials). All are label-correcting algorithms, which stop where the optimality
//! conditions of least walks hold (Ahuja, Magnanti and Orlin, Network Flows, sections 4.5 to 5.3 and 9.7).
//!
//! They promise the least cost of a walk to each point, over all walks, and an edge that ends such a walk; these edges
//! form a tree with its root at the start. They ask that no cycle costs less than 0 and that some walk leads to each
//! point. They fail only for want of memory. The crate stands on `graph_model` alone, for lists.
#![tactic(auto)]

mod edges;
mod heap;
mod leaving;
mod search;

pub use edges::{Distances, Edge};
pub use heap::{Searcher, nearest};
pub use leaving::Leaving;
pub use search::distances;
