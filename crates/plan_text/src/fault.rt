//! Why bytes are no text of a plan.

use thiserror::Error;

/// Bytes that are no text of a plan.
#[derive(Clone, Copy, Debug, PartialEq, Eq, Error)]
#[error("line {line}")]
pub struct PlanFault {
    /// The number, from 1, of the first line that cannot stand there after the lines before it; one more than there
    /// are lines, where only the last ones are missing.
    pub line: u64,
}
