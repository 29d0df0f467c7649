//! The modes of a run, a file for each.
//!
//! A mode has two halves. The first, `prepare`, reads, judges and takes all memory, and changes nothing outside. The
//! second puts the text on the report, and in `render` writes the output after it.

pub(crate) mod check;
pub(crate) mod compile;
pub(crate) mod demo;
pub(crate) mod render;
mod reporting;
mod texts;
