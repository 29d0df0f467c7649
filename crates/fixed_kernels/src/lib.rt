//! The processors whose parameters stay as they are: gain, mixer, finite impulse response, biquad, delay and insert.
//!
//! Each kernel is made of a kind and of bounds for its samples, and takes the frames of a stream one by one. It keeps
//! what the kind keeps of the frames that came in, and so stands for their history: that is one relation for all of
//! them, `Keeps`, over the definitions of `graph_model`. The filters are those of Oppenheim and Schafer, Discrete-Time
//! Signal Processing: the finite impulse response as a sum of products over a delay line, the biquad in direct form 1.
//!
//! It promises that a kernel is made for the empty history, and that the frames that go out are the last ones of
//! the kind's stream of what came in, for every history; that no output passes its bound where no input does, and
//! that no sum and no cast loses anything; that a block takes no memory and is never refused. Two laws hold of every
//! kernel ([`laws`]): its stream is causal, and quiet.
//!
//! Kernels of other crates stand on its trait and on its words for kernels.
//!
//! It stands on `graph_model`, and on `delay_lines` for delays and inserts.
#![tactic(auto)]

mod biquad;
mod fir;
mod gain;
mod hold;
mod kernel;
pub mod laws;
mod mixer;
mod narrow;
mod products;
mod section;

pub use biquad::Biquad;
pub use fir::Fir;
pub use gain::Gain;
pub use hold::Hold;
pub use kernel::Kernel;
pub use mixer::Mixer;
