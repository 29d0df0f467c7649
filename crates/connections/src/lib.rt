//! The checks of a graph of audio processors.
//!
//! [`check`] takes a graph and gives it back as a [`Checked`] one exactly where it is sound, with what the layers above
//! ask of it: its two ends with their channels, its latency, the nodes of each connection, the order of its nodes,
//! their reaches, the printed path, which nodes are live, and how large the samples of each channel can be. Any other
//! graph is refused by a [`GraphFault`]: the first of its checks that fails, in a fixed order, with the place and the
//! numbers that show it.
//!
//! It promises that a `Checked` graph is sound and that its accessors tell what the definitions of `graph_model` and
//! `topology` give of it; that a fault is the first one by the definition in `specs/Faults.antt`, that a graph with a
//! first fault is not sound, and that a graph has one first fault at most, but for the walk of a cycle.
//!
//! It stands on `graph_model`, `topology`, `headroom` and `thiserror`.
#![tactic(auto)]

mod checked;
mod checks;
mod fault;
mod joints;
pub mod laws;
mod limits;
mod members;
mod nodes;

pub use checked::{Checked, Ends};
pub use checks::check;
pub use fault::GraphFault;
