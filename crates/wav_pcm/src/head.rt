//! What a head says, and why there is none.

ghost use Rattle.std.specs.Prelude.{◌≡◌};

use gh_outside::Failed;
use thiserror::Error;

/// What the head of a file says of its frames.
#[derive(Clone, Copy, Debug, PartialEq, Eq)]
pub struct Head {
    /// Samples of a frame, from 1 to 32.
    pub channels: u32,
    /// Frames for each second, from 1 to 1,000,000.
    pub rate: u32,
    /// Bits of a sample: 8, 16, 24 or 32.
    pub bits: u32,
    /// How many frames there are.
    pub frames: u64,
    /// The offset of the first frame, in bytes.
    pub from: u64,
}

/// Why a file is not read, or not written.
///
/// Where several faults stand together the first of these is told.
#[derive(Clone, Copy, Debug, PartialEq, Eq, Error)]
pub enum WavFault {
    /// The file does not begin as RIFF/WAVE.
    #[error("not a WAVE file")]
    NotRiff,
    /// There is no chunk of format, or its body is not wholly there.
    #[error("no format")]
    NoFormat,
    /// The chunk of format has another size than 16, 18 or 40 bytes.
    #[error("format of size {size}")]
    FormatSize {
        /// The size of its body, in bytes.
        size: u32,
    },
    /// The samples are not linear PCM of 8, 16, 24 or 32 bits that are all valid.
    #[error("tag {tag} with {bits} bits")]
    Form {
        /// The format's tag.
        tag: u32,
        /// Bits of a sample.
        bits: u32,
    },
    /// There are not 1 to 1,000,000 frames for each second.
    #[error("rate {got}")]
    Rate {
        /// Frames for each second.
        got: u32,
    },
    /// The file has not the channels of the graph's input.
    #[error("{file} channels for {graph}")]
    Channels {
        /// Channels of the file.
        file: u32,
        /// Channels of the graph's input.
        graph: u32,
    },
    /// There is no chunk of data.
    #[error("no data")]
    NoData,
    /// The data go on past the end of the file.
    #[error("{wanted} bytes wanted, {there} there")]
    Short {
        /// The size of the data, in bytes.
        wanted: u64,
        /// Bytes from the beginning of the data to the end of the file.
        there: u64,
    },
    /// The data are no whole number of frames.
    #[error("{size} bytes in frames of {frame}")]
    Ragged {
        /// The size of the data, in bytes.
        size: u64,
        /// The size of a frame, in bytes.
        frame: u64,
    },
    /// The frames of an output have more bytes than a WAV file can count. No reading call says so.
    #[error("{bytes} bytes of output")]
    TooLong {
        /// The size of the frames, in bytes.
        bytes: u64,
    },
}

/// Why there is no head.
#[derive(Clone, Copy, Debug, PartialEq, Eq)]
pub enum HeadFault {
    /// The bytes of the file are no such file.
    Wav(WavFault),
    /// The folder did not give the bytes.
    Failed,
}

impl From<WavFault> for HeadFault {
    ghost use Rattle.wav_pcm.specs.declared.head.HeadFault.TheVariants.{Wav};

    ghost from_gives = { λ fault head_fault. head_fault ≡ Wav fault };

    fn from(fault: WavFault) -> HeadFault {
        HeadFault::Wav(fault)
    }
}

impl From<Failed> for HeadFault {
    ghost use Rattle.wav_pcm.specs.declared.head.HeadFault.TheVariants.{Failed as NotGiven};

    ghost from_gives = { λ _ head_fault. head_fault ≡ NotGiven };

    fn from(_: Failed) -> HeadFault {
        HeadFault::Failed
    }
}

/// The most bytes of frames that a file has, 2^32 - 38: the size in its head counts 36 bytes and a
/// pad byte beside them, in 32 bits.
pub const MOST_DATA: u64 = 4_294_967_258;

// The marks of a file and of its chunks.
pub(crate) const RIFF: [u8; 4] = *b"RIFF";

pub(crate) const WAVE: [u8; 4] = *b"WAVE";

pub(crate) const FORMAT: [u8; 4] = *b"fmt ";

pub(crate) const DATA: [u8; 4] = *b"data";

/// The tag of PCM.
pub(crate) const PCM: u16 = 1;

/// The tag `WAVE_FORMAT_EXTENSIBLE`.
pub(crate) const EXTENSIBLE: u16 = 0xfffe;

/// The subformat `KSDATAFORMAT_SUBTYPE_PCM`.
pub(crate) const PCM_SUBFORMAT: [u8; 16] = *b"\x01\0\0\0\0\0\x10\0\x80\0\0\xaa\0\x38\x9b\x71";

/// The size of the chunk of format that is written.
pub(crate) const FORMAT_SIZE: u32 = 16;

/// The size of data whose writer left it open.
pub(crate) const OPEN_SIZE: u32 = u32::MAX;
