//! The order in which a graph's nodes are taken, its live nodes, and its longest paths.
//!
//! A graph of the nine kinds is followed by the indexes of its nodes: their places in its list, from 0. [`order`] gives
//! the topological order that takes the least name first, or a closed walk of connections where there is no order.
//! [`live`] says from which nodes connections lead to the output. [`longest`] gives the greatest latency before each
//! node and the path that is printed. [`links`] gives the two ends of each connection, and [`index_of`] the index of a
//! name.
//!
//! It promises that these answers are those of the definitions of `graph_model`, over paths and walks of the graph:
//! the order is the only one (by the law `order_is_unique` of `graph_model`), a closed walk comes exactly where the
//! graph has one, a node is live exactly where it stands in a path into the output, and the reach is the sum of a path
//! that no path exceeds.
//!
//! It stands on `graph_model` and the standard library alone.
#![tactic(auto)]

mod cycles;
mod ends;
pub mod laws;
mod marks;
mod orders;
mod reaches;

pub use cycles::Cycle;
pub use ends::{Link, index_of, indexes, links};
pub use marks::live;
pub use orders::order;
pub use reaches::{Reach, longest};
