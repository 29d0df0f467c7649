//! The modes of the host: what is done of what the words ask for.
//!
//! [`perform`] reads the words, and then renders, compiles, checks or demonstrates. A mode has two halves: first it
//! reads, judges and takes all memory, and changes nothing outside; then it puts its text on the report, and in
//! `render` reads, renders and writes block after block. A folder, a sink and threads are all that it reaches.
//!
//! It promises, of every folder and sink, what the record `IsRun` (`specs/Runs`) says in one place for all modes:
//! that the output file is exactly the graph's answer, or a first part of it after a write or a read that failed, and
//! that nothing else changes; that the engine that is handed back stands for all that came in, or for just what that
//! part tells of; that the report has gained the text of the plan that is handed back, or what is said of it, and
//! that every plan that is made is certified and has the least latency, delay and buffers; and why each other end
//! came. By its laws what is asked has one end with what is held, and what was compiled is judged yes.
//!
//! It stands on command_words (what the words ask for), graph_model (what a graph is, and its answer), graph_records
//! (graphs in JSON), wav_pcm (WAV files), plan_compiler, plan_text and plan_checker (plans made, printed, read and
//! judged), graph_gen (graphs of numbers), engine and streaming (what renders) and gh_outside (files and the report).
//! It is apart from the program, whose checks link all that it reaches, so that its own are quick.
#![tactic(auto)]

mod asked;
mod ends;
pub mod laws;
mod modes;
mod output;
mod reading;

pub use asked::perform;
pub use ends::{End, Outcome};
pub use modes::check::judged;
pub use reading::graphs::graph_under;
pub use reading::plans::plan_under;
