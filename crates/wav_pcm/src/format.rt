//! Formats, and which of them are read.

ghost use Rattle.std.specs.Prelude.{◌≡◌, ◌≤◌, ◌<◌, ◌+◌, ◌^◌, drop, IfOk, OnErr};
ghost use Rattle.gh_outside.specs.Causes.{Rose};
ghost use Rattle.gh_outside.specs.Holdings.{IsPast, HeldBytes};
ghost use Rattle.wav_pcm.specs.Formats.{whole_format, extension_in, format_in, is_pcm_extension, is_pcm, checked_format};

use crate::chunk::Chunk;
use crate::field::{u16_at, u32_at};
use crate::head::{EXTENSIBLE, PCM, PCM_SUBFORMAT, WavFault};
use crate::sample::is_size;
use gh_outside::{Failed, Folder};

/// What a chunk of format says of samples and frames.
#[derive(Clone, Copy, Debug, PartialEq, Eq)]
pub(crate) struct Format {
    pub(crate) tag: u16,
    pub(crate) channels: u16,
    /// Frames for each second.
    pub(crate) rate: u32,
    /// Bits of a sample.
    pub(crate) bits: u16,
    /// What a chunk of 40 bytes says besides.
    pub(crate) extension: Option<Extension>,
}

/// What `WAVE_FORMAT_EXTENSIBLE` adds to a format.
#[derive(Clone, Copy, Debug, PartialEq, Eq)]
pub(crate) struct Extension {
    /// How many bits of a sample are valid.
    pub(crate) valid_bits: u16,
    pub(crate) subformat: [u8; 16],
}

impl Format {
    /// Whether the samples are linear PCM of 8, 16, 24 or 32 bits, all of them valid.
    fn is_pcm(&self) -> bool
        ensures { result ≡ is_pcm self.now }
    {
        is_size(u64::from(self.bits))
            && (self.tag == PCM
                || (self.tag == EXTENSIBLE && is_pcm_extension(self.bits, self.extension)))
    }

    /// The format, if it is read for a graph of so many channels.
    pub(crate) fn checked(self, graph: u32) -> Result<Format, WavFault>
        ensures { result ≡ checked_format graph self }
    {
        if !self.is_pcm() {
            return Err(WavFault::Form {
                tag: u32::from(self.tag),
                bits: u32::from(self.bits),
            });
        }
        if !(1..=1_000_000).contains(&self.rate) {
            return Err(WavFault::Rate { got: self.rate });
        }
        let file = u32::from(self.channels);
        if file != graph {
            return Err(WavFault::Channels { file, graph });
        }
        Ok(self)
    }
}

/// Whether an extension says that samples of these bits are PCM with all bits valid.
fn is_pcm_extension(bits: u16, extension: Option<Extension>) -> bool
    ensures { result ≡ is_pcm_extension bits extension }
{
    match extension {
        None => false,
        Some(extension) => extension.valid_bits == bits && extension.subformat == PCM_SUBFORMAT,
    }
}

/// The chunk of format of a file of this size, if it has the size of one and its body is there.
pub(crate) fn whole_format(size: u64, chunk: Option<Chunk>) -> Result<Chunk, WavFault>
    ensures whole { result ≡ whole_format size chunk }
    ensures there { IfOk result (λ chunk. (16 ≤ chunk.size) × (chunk.from + chunk.size ≤ size)) }
{
    let Some(chunk) = chunk else {
        return Err(WavFault::NoFormat);
    };
    if !matches!(chunk.size, 16 | 18 | 40) {
        return Err(WavFault::FormatSize { size: chunk.size });
    }
    if size.saturating_sub(chunk.from) < u64::from(chunk.size) {
        return Err(WavFault::NoFormat);
    }
    Ok(chunk)
}

/// The format that a chunk of 16, 18 or 40 bytes says.
pub(crate) fn read_format<F: Folder>(
    folder: &mut F,
    name: &str,
    chunk: &Chunk,
) -> Result<Format, Failed>
    requires least { 16 ≤ chunk.now.size }
    requires room { chunk.now.from + chunk.now.size < 2 ^ 64 }
    requires there { ¬ IsPast name.now (chunk.now.from + chunk.now.size) (F.held folder.old) }
    ensures held { F.held folder.new ≡ F.held folder.old }
    ensures format { IfOk result (λ format. HeldBytes name.now (F.held folder.old) (λ bytes. format ≡ format_in bytes chunk.now)) }
    ensures failed { OnErr result (Rose (F.read_faults folder.old) (F.read_faults folder.new)) }
    ensures reads { F.read_faults folder.old ≤ F.read_faults folder.new }
    ensures writes { F.write_faults folder.new ≡ F.write_faults folder.old }
{
    let mut body = [0; 16];
    folder.read_exact_at(name, chunk.from, &mut body)?;
    let extension = read_extension(folder, name, chunk)?;
    Ok(Format {
        tag: u16_at(&body, 0),
        channels: u16_at(&body, 2),
        rate: u32_at(&body, 4),
        bits: u16_at(&body, 14),
        extension,
    })
}

/// What a chunk of format says behind its first 16 bytes.
fn read_extension<F: Folder>(
    folder: &mut F,
    name: &str,
    chunk: &Chunk,
) -> Result<Option<Extension>, Failed>
    requires room { chunk.now.from + chunk.now.size < 2 ^ 64 }
    requires there { ¬ IsPast name.now (chunk.now.from + chunk.now.size) (F.held folder.old) }
    ensures held { F.held folder.new ≡ F.held folder.old }
    ensures extension { IfOk result (λ extension. HeldBytes name.now (F.held folder.old) (λ bytes. extension
        ≡ extension_in bytes chunk.now)) }
    ensures failed { OnErr result (Rose (F.read_faults folder.old) (F.read_faults folder.new)) }
    ensures reads { F.read_faults folder.old ≤ F.read_faults folder.new }
    ensures writes { F.write_faults folder.new ≡ F.write_faults folder.old }
{
    if chunk.size != 40 {
        return Ok(None);
    }
    let mut bytes = [0; 24];
    folder.read_exact_at(name, chunk.from + 16, &mut bytes)?;
    Ok(Some(Extension {
        valid_bits: u16_at(&bytes, 2),
        subformat: subformat_of(&bytes),
    }))
}

/// The subformat at the end of an extension.
fn subformat_of(extension: &[u8; 24]) -> [u8; 16]
    ensures { result ≡ drop 8 extension.now }
{
    let mut subformat = [0; 16];
    subformat.copy_from_slice(&extension[8..]);
    subformat
}
