//! The checker of plans.
//!
//! [`verdict`] judges a plan for a graph, whoever made the plan: `Yes` exactly where it is certified, and else the
//! first of the sixteen rules that fails, with its place. Each rule is a function of its own over the parts of the
//! plan that it reads, and is tried only where the rules before it hold. The module `judged` takes the parts out of a
//! plan.
//!
//! It promises that `Yes` comes exactly where every rule holds, want of memory aside, and that a certified plan has the
//! least latency, the least total of that latency and the least channels for its waves. That follows from what the plan
//! itself shows: a path as long as the latency, a flow whose bound is the total, and a wave that needs all channels.
//! Any longest path, any optimal alignment, any schedule and any flow with its bound will do; sums are taken in 128
//! bits.
//!
//! It stands on `connections` for sound graphs, on `plan_model` for the rules and what follows of them, and on
//! `lifetimes` for lives and needs. It knows nothing of what aligns, solves, assigns or compiles.
#![tactic(auto)]

mod channels;
mod flow;
mod graphs;
mod homes;
mod judged;
mod lines;
mod live;
mod network;
mod path;
mod peak;
mod positions;
mod tenants;
mod verdicts;
mod waves;

pub use verdicts::{No, Yes, verdict};
