//! Linear PCM in RIFF/WAVE files, read and written, as in chapter 3, "Waveform Audio File Format", of
//! Multimedia Programming Interface and Data Specifications 1.0 by Microsoft and IBM, and, for
//! `WAVE_FORMAT_EXTENSIBLE`, as in Multiple Channel Audio Data and WAVE Files by Microsoft.
//!
//! It promises that a file is read as its chunks say, or refused with the first of its faults; that
//! every file is read in one way; that samples are those in its bytes; and that the bytes of a head
//! and of frames are those of the format. What is written of samples of 8, 16, 24 or 32 bits is read
//! back as the same samples. Reads change nothing that the folder holds, and a failure comes only
//! with a fault of the folder or where bytes are not there.
//!
//! Samples are interleaved, frame after frame, and scaled to 32 bits: a sample of b bits is
//! multiplied by 2^(32 - b).
//!
//! It stands on `byteorder` for numbers in bytes, `thiserror` for the texts of faults, graph_model
//! for what rounding is, and on what gh_outside says of a folder. No call takes memory.
#![tactic(auto)]

mod chunk;
mod field;
mod format;
mod head;
pub mod laws;
mod reading;
mod sample;
mod writing;

pub use head::{Head, HeadFault, MOST_DATA, WavFault};
pub use reading::{read_frames, read_head};
pub use sample::{frame_bytes, is_size};
pub use writing::{head_bytes, put_frames};
