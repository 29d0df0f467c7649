//! How large the samples of a graph can become, where those of its input are at most 2^31 in size.
//!
//! [`bounds`] follows the nodes in their order. An input channel has the sum of the bounds of the output channels that
//! are connected to it, and an output channel what its processor can make of those of the inputs. No bound may pass
//! 2^46; the first that does is told.
//!
//! It promises that the bounds are those of the definition in `graph_model`, of which a law there says that no sample
//! passes its bound, that they come exactly where none passes 2^46, and that what is told is the first place that
//! does, of which a graph has one at most.
//!
//! It stands on `graph_model` and `topology`.
#![tactic(auto)]

mod found;
pub mod laws;
mod loud;
mod outputs;

pub use found::bounds;
pub use loud::TooLoud;
