//! What an engine is to be: the frame events of a graph over a shared pool of buffers, and what an engine stands for.
//!
//! An event takes one frame of one node: the samples that the node reads go through its lines and are summed, and what
//! its kernel makes of them goes into the buffers of its values. A block is n events of each live node, wave by wave,
//! in any order within a wave. An engine stands for a history where its kernels and lines are as they are when that
//! history has come in, each node as late as its position says.
//!
//! It promises, in `laws`: in a block of a certified plan no order shows; a block takes every live node further by its
//! frames; an engine that a block leaves as its events do stands for the history with the block, and its output is the
//! answer of the graph; no sum on the way passes the bound of its channel, and no line 2^26 samples.
//!
//! It has no code. It stands on the graphs of `graph_model`, the plans of `plan_model` and the law of `orders`.
#![tactic(auto)]

pub mod laws;
