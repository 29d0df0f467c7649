//! Minimum-cost flow in a network whose arcs have no capacity, and the least potentials that certify it.
//!
//! [`solve`] sends units along cheapest walks of the residual network, as the successive shortest path algorithm does
//! (Ahuja, Magnanti and Orlin, Network Flows, section 9.7), until the need of each point is met. The cheapest walks are
//! sought over reduced costs, which are not negative: the first potentials are least costs over the arcs, and each
//! search leaves the next ones. Before the first search, units go along arcs of reduced cost 0, as far as a
//! depth-first search finds paths of them. A search over the heap stops as soon as the points that it reached lack
//! what its start has, and serves all of them that its tree of cheapest walks can; each augmentation sends as many
//! units as the unmet needs of both ends and the reverse arcs of the walk allow. A last search from point 0, the
//! root, reaches all points and gives the potentials.
//!
//! It promises that the flow meets the needs, that flow and potentials satisfy complementary slackness (each arc keeps
//! its least difference of potentials, with equality where it carries units), and that the potentials are the least
//! ones, at each point, among all that satisfy it with this flow and are 0 at the root. It fails only for want of
//! memory. It stands on `shortest_paths` for the cheapest walks, and on `graph_model` for lists.
#![tactic(auto)]

mod admissible;
mod augment;
pub mod laws;
mod network;
mod residual;
mod search;
mod send;
mod solver;

pub use network::{Arc, Network, Solved};
pub use solver::solve;
