//! Tests of what is read and written: graphs, PCM files, the words of the command line, plans.
//!
//! It has no code but tests.
#![tactic(auto)]

#[cfg(test)]
mod plans;
#[cfg(test)]
mod records;
#[cfg(test)]
mod sounds;
#[cfg(test)]
mod words;
