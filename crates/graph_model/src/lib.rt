//! Graphs of audio processors: their types, and the definitions that every other crate cites.
//!
//! A graph has nodes, each with one processor, and connections from an output channel of one node to an input
//! channel of another. Samples are whole numbers. The file `specs/` says which frames a processor makes of the frames
//! that came in (Histories, Filters, Limiters, Kinds), what a graph makes of its input where each node waits for the
//! longest path into it (Paths, Answers), and which graphs are sound (Members, Checks, Bounds, Sound). A discrete-time
//! signal and its filters are written as in Oppenheim and Schafer, Discrete-Time Signal Processing.
//!
//! It promises that `rs`, `clamp_to`, the look-ups and the channel counts are these definitions, that a copy is equal
//! to what was copied, and, as laws on functions without a body (`laws`), that the definitions fit together: the
//! index formula of each kind, streams are causal and quiet, the answer is the one solution of the graph's equations,
//! the reach is the longest path, no sample passes its bound.
//!
//! It stands on the standard library alone.
#![tactic(auto)]

mod graph;
mod kind;
pub mod laws;
mod list;
mod member;
mod refused;
mod rounding;

pub use graph::{Bound, Connection, Graph, Node, Side, Uid};
pub use kind::{Kind, latency};
pub use list::List;
pub use member::Member;
pub use refused::Refused;
pub use rounding::{clamp_to, rs};
