//! What a run reads: graphs, recordings and plans, each under a name.

pub(crate) mod graphs;
mod load;
pub(crate) mod plans;
pub(crate) mod recordings;
