//! The jobs of a wave over one pool of buffers.
//!
//! A job bears values, each of which has a [`Buffer`] of the pool as its home. Before a wave each job takes the buffers
//! of its values out of the pool, by a swap with the lists on its [`Desk`]; then all jobs run beside each other, each
//! writing its own buffers and all of them reading what is left of the pool; then each puts its buffers back. It is
//! promised that each part does its work on the buffers of its own values, over a pool in which all buffers but those
//! of the wave are as they were, and that nothing else changes. [`run_wave`] asks that no two values of the wave have
//! one buffer.
//!
//! It knows no graph, no delay line and no kernel: what a job does is a [`Part`]. It stands on `fork_join`.
#![tactic(auto)]

mod buffer;
mod exchanges;
mod job;
mod part;
mod waves;

pub use buffer::Buffer;
pub use exchanges::exchange;
pub use job::{Desk, Home, Job};
pub use part::Part;
pub use waves::{Table, run_wave};

#[cfg(test)]
mod tests;
