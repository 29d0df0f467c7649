//! The two ends of a stream, and where it breaks off.

use wav_pcm::Head;

/// The frames that come in: those of a WAV file, and then silence.
#[derive(Clone, Copy)]
pub struct Incoming<'a> {
    /// The name of the file.
    pub name: &'a str,
    /// The head of the file.
    pub head: Head,
    /// How many frames of silence come after its own.
    pub silent: u64,
}

/// Where the frames that go out are put: at the end of a file, but for the first of them.
#[derive(Clone, Copy)]
pub struct Outgoing<'a> {
    /// The name of the file.
    pub name: &'a str,
    /// The samples of a frame.
    pub channels: u32,
    /// The bits of a sample: 8, 16, 24 or 32.
    pub bits: u32,
    /// How many frames are left out.
    pub skipped: u64,
}

/// Why a stream broke off.
#[derive(Clone, Copy, Debug, PartialEq, Eq)]
pub enum StreamFault {
    /// A block could not be read.
    Read,
    /// A block could not be appended.
    Write,
}
