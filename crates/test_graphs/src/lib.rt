//! Graphs for the tests of other crates, and what they are built of.
//!
//! Nodes are named 1, 2, .. by their uids: where a graph is made as a whole, 1 is its input node and 2 its output node.
//! Each function makes what it says; that a graph fits is told of all that are made here, so that a test can hand it to
//! `check` as it is. Of some the contract says which graph it is.
//!
//! It stands on `graph_model`.
#![tactic(auto)]

mod graphs;
mod nodes;

pub use graphs::{fan_out, graph_of, in_a_row, with_idle};
pub use nodes::{delay, fir, gain, input, insert, joined, joined_at, mixer, node, output};

#[cfg(test)]
mod tests;
