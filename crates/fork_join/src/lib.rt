//! Jobs of one list, run beside each other over one value that all of them read.
//!
//! [`run`] promises that each job is left as its run leaves it and that the list stays as long. That jobs run beside
//! each other is no promise: jobs in turn leave the same. A [`Gate`] is a place that a job passes, where a test can
//! hold two jobs until both are there.
//!
//! It stands on the standard library alone.
#![tactic(auto)]

mod gate;
mod work;

pub use gate::{Gate, Open};
pub use work::{Work, processors, run};

#[cfg(test)]
mod tests;
