//! The engine: it renders a graph by a certified plan, block by block, wave after wave, over one pool of buffers.
//!
//! [`Engine::new`] takes all memory that it will ever need: a job for each live node, the plan's delay lines, and a
//! pool of as many buffers as the plan says. [`Engine::render`] takes blocks of any length up to a longest one. It
//! runs the nodes of a wave beside each other.
//!
//! It promises, for every history of frames that it stood for, that it stands for that history with the block, and that
//! the block's output is the last frames of the mathematical graph's answer; and that whatever order the frame events
//! of a wave come in, kernels, lines, pool and output are as they leave them. What follows of it, that no cutting
//! into blocks shows, is a law of `engine_model`. Nothing is asked but what a caller with a certified plan can meet:
//! that a block has whole frames, as many as may come, of samples of at most 2^31 in size.
//!
//! It stands on `plan_jobs` for the jobs and their block, on `engine_model` for what an engine is to be, and on
//! `connections` for sound graphs.
#![tactic(auto)]

mod engine;
mod made;
mod output;
mod shape;
mod threads;

pub use engine::Engine;
