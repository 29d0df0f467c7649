//! Large graphs and samples from a number.
//!
//! [`graph_of`] makes a graph of 3 to 512 nodes, and [`samples_of`] two channels of samples, of a seed of 64 bits: the
//! same ones for the same seed, on every machine. They serve where a test or a demonstration wants more than a graph
//! that somebody wrote.
//!
//! It promises that the graph and the samples are those of the definitions in `specs/` (Draws, Generated), which say
//! draw by draw what is made, and that every such graph is sound, by the law `generated_is_sound` over the definition.
//!
//! It stands on `graph_model` and the standard library alone.
#![tactic(auto)]

mod draws;
mod graphs;
mod joining;
pub mod laws;
mod samples;

pub use graphs::graph_of;
pub use samples::samples_of;
