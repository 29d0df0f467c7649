//! Tests of the kernels: worked frames of each kind, by frames and by blocks.
//!
//! It has no code but tests.
#![tactic(auto)]

#[cfg(test)]
mod any_kind;
#[cfg(test)]
mod fixed;
#[cfg(test)]
mod limiter;
