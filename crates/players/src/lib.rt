//! What a node does in a wave: it takes the frames of a block over its wires, its lines and its kernel.
//!
//! A [`Player`] has a [`Wire`] for each connection into its node and a delay line for each wire. It takes the frames in
//! sub-blocks of up to 64: it sums what the wires bring, each row by itself; the kernel makes rows of samples of them;
//! those it writes into the buffers of the node's values. Input and output may have one buffer: a
//! sub-block reads all that it needs before it writes.
//!
//! It promises that a block leaves what its frames one by one would leave, each of them reading the pool and the node's
//! own buffers as they were at the wave's start. It takes no memory once it is made.
//!
//! It stands on `pool_waves`, whose [`Part`](pool_waves::Part) a player is, on `delay_lines` and `processors`, and on
//! the frame events of `engine_model`. It knows no plan.
#![tactic(auto)]

mod gathering;
mod leaving;
mod part;
mod playing;
mod scattering;
mod serving;

pub use gathering::Wire;
pub use leaving::{Leaving, zeros};
pub use part::Stage;
pub use playing::{Player, SUB, Server};
