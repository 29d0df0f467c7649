//! The output file: its form, and its writing.

pub(crate) mod files;
pub(crate) mod forms;
