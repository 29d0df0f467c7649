//! The two schedules of a sound graph: one node a wave, and each node as early as its sources allow.
//!
//! A schedule is a list of waves of live nodes, in which every live connection goes to a later wave. [`one_by_one`]
//! takes the live nodes in the graph's order. [`by_waves`] puts each live node into the wave whose index is its depth,
//! the greatest number of connections on a path into it (a level schedule, as soon as possible). [`schedule`] gives the
//! one that a mode names.
//!
//! It promises that each is the schedule of that name by the definitions of `plan_model`, by whose law graph and mode
//! have one, and that it is a schedule. The depths are found along the order, from a list of the sources of each node,
//! so that no connection is read twice.
//!
//! It stands on `connections` for sound graphs, their order and their live nodes, and on `plan_model` for schedules.
#![tactic(auto)]

mod depths;
mod groups;
mod live;
mod modes;

pub use modes::{by_waves, one_by_one, schedule};
