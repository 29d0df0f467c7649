//! Tests of what a graph is, what is told of one that is checked, and graphs made of numbers.
//!
//! It has no code but tests.
#![tactic(auto)]

#[cfg(test)]
mod checked;
#[cfg(test)]
mod copied;
#[cfg(test)]
mod generated;
