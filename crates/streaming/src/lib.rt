//! A WAV file taken through an engine, block by block, and what comes out of it put at the end of another file.
//!
//! [`stream`] reads a block of frames, or makes frames of silence where those of the file have ended, renders it, and
//! appends what is kept of it. No more of either file than one block is in memory, all of it in a [`Room`] that is made
//! before. [`render_whole`] renders frames that are in memory.
//!
//! It promises that the frames that came in are those of the file and then silence, without gap or repetition, whatever
//! the lengths of the blocks are; that the engine rendered just these; that all that is kept of its output stands at
//! the end of the file, in the order of time; and, where a read or an append failed, that the same holds of the
//! frames up to there.
//!
//! It stands on `engine`, on `wav_pcm` for frames in files, and on what `gh_outside` says of a folder.
#![tactic(auto)]

mod blocks;
mod ends;
mod room;
mod whole;

pub use blocks::stream;
pub use ends::{Incoming, Outgoing, StreamFault};
pub use room::Room;
pub use whole::render_whole;
