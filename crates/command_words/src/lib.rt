//! What the words of the command line ask for: to render a file, to compile a graph's plan, to check a plan, or to show
//! what the host does with a graph that is made of a number.
//!
//! [`request`] reads the words. The first is the mode, `render`, `compile`, `check` or `demo`, and `clap` reads all of
//! them by the one command of that mode; then numbers are read as 1 to 20 decimal digits, each within its range.
//!
//! It promises, for all lists of words and memory aside, that it answers the request which the words are by the
//! definition `request_of` in `specs/Requests`, and that it refuses them exactly where they are none, or where they are
//! one of `demo` but for a number out of range. There each command is written down as a record of its arguments, and
//! what clap reads of the words by such a record is the function that the port of clap publishes. The numbers of a
//! request are within their ranges.
//!
//! It stands on `clap` for the words, `wav_pcm` for the sizes of samples and `graph_model` for lists and refusals. It
//! is a crate of its own since clap's statements are slow to check.
#![tactic(auto)]

mod check;
mod commands;
mod compile;
mod demo;
mod fault;
mod modes;
mod number;
mod render;
mod requests;

pub use check::CheckRequest;
pub use compile::CompileRequest;
pub use demo::DemoRequest;
pub use fault::WordsFault;
pub use modes::Request;
pub use render::RenderRequest;
pub use requests::request;
