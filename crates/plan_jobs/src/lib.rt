//! The jobs of a certified plan: made of it, and taken through a block, wave by wave.
//!
//! [`jobs_of`] makes a job for each live node, in the order of the waves: its [`Player`](players::Player), whose
//! wires and lines are the node's connections with the plan's delays and buffers, and the homes of its values.
//! [`run_block`] takes the frames of a block through all of them.
//!
//! It promises that a new job is that of its node and stands for no frames; and that a block leaves all jobs and the
//! pool as its frame events do, in whatever order they come. That the nodes of a wave may run beside each other, and
//! that no sum is too large, is proved of the plan, and asks nothing of the caller.
//!
//! It stands on `players`, on the frame events of `engine_model`, on the plans of `plan_model`, and on `connections`
//! for the graph's bounds.
#![tactic(auto)]

mod block;
mod jobs;
mod making;
mod places;
mod sharing;

pub use block::run_block;
pub use jobs::{Jobs, jobs_of};
pub use sharing::is_some_shared;
