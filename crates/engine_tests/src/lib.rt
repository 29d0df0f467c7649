//! Tests of what `renderer` finds of whole inputs, and of `engine` beside it: in whatever blocks an input comes, one
//! node a wave or in waves, an engine gives the same. And that two nodes of one wave run beside each other inside one
//! block.
//!
//! It has no code but tests.
#![tactic(auto)]

#[cfg(test)]
mod answers;
#[cfg(test)]
mod blocks;
#[cfg(test)]
mod comparing;
#[cfg(test)]
mod gates;
#[cfg(test)]
mod generated;
#[cfg(test)]
mod worked;
