//! Tests of plans with one delay line for each value: worked numbers, beside those of plans with a line for each
//! connection.
//!
//! It has no code but tests.
#![tactic(auto)]

#[cfg(test)]
mod generated;
#[cfg(test)]
mod graphs;
#[cfg(test)]
mod plans;
#[cfg(test)]
mod worked;
