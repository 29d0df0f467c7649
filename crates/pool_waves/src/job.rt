//! A job of a wave: its node, the homes of its values, and what it does.

use crate::buffer::Buffer;

/// A value that a job bears: which output channel of its node it is, and its buffer's place in the pool.
#[derive(Clone, Copy)]
pub struct Home {
    pub channel: usize,
    pub buffer: usize,
}

/// The homes of a job's values, and a place for the buffer of each. On these places lie empty lists, but for the time
/// in which the job's wave runs.
#[derive(Drop)]
pub struct Desk {
    pub homes: Vec<Home>,
    pub outs: Vec<Buffer>,
}

/// A job of a wave: the name of its node, the node's index in the graph, its values, and what it does.
#[derive(Drop)]
pub struct Job<P> {
    pub node: u32,
    pub index: u32,
    pub desk: Desk,
    pub part: P,
}
