//! Tests of plans, part by part: walks, flows, alignments, schedules, buffers, what is compiled and what is judged.
//!
//! It has no code but tests.
#![tactic(auto)]

#[cfg(test)]
mod aligned;
#[cfg(test)]
mod buffers;
#[cfg(test)]
mod compiled;
#[cfg(test)]
mod copied;
#[cfg(test)]
mod flows;
#[cfg(test)]
mod judged;
#[cfg(test)]
mod lived;
#[cfg(test)]
mod scheduled;
#[cfg(test)]
mod walks;
