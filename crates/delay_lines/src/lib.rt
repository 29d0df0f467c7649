//! Lines that give each sample back a fixed number of samples later.
//!
//! A [`Line`] takes samples one by one or a block at once, and what comes out is the same. It promises that what came
//! out and what it holds then, one after the other, are what it held and what came in. It takes no memory once it is
//! made. [`laws`] says what follows: a new line gives each sample back as many samples later as it is long, two blocks
//! are one, and what the line is for a proof that has the newest sample first.
//!
//! It stands on `circular_buffer`, and knows no graph: one line has the samples of one channel.
#![tactic(auto)]

pub mod laws;
mod line;

pub use line::Line;

#[cfg(test)]
mod tests;
