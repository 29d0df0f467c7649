//! Heads and frames are read.

ghost use Rattle.std.specs.Prelude.{◌≡◌, ℕ, ◌≤◌, ◌<◌, ◌+◌, ◌-◌, ◌*◌, ◌/◌, ◌^◌, ◌⊎◌, length, All, Result, Ok, Err, IfOk, OnOk, OnErr, slice_range};
ghost use Rattle.gh_outside.specs.Causes.{Rose, HasCause};
ghost use Rattle.gh_outside.specs.Holdings.{IsMissing, IsPast, HeldBytes};
ghost use Rattle.wav_pcm.specs.Samples.{IsScaled, samples_in};
ghost use Rattle.wav_pcm.specs.Files.{is_wave_start, is_wave, frames_in, head_in, frame_size, data_size, IsHead, recorded, ReadsAs};
ghost use Rattle.wav_pcm.specs.declared.head.WavFault.{WavFault};

use crate::chunk::{Chunk, read_chunks};
use crate::field::mark_at;
use crate::format::{Format, read_format, whole_format};
use crate::head::{Head, HeadFault, OPEN_SIZE, RIFF, WAVE, WavFault};
use crate::sample::get_samples;
use gh_outside::{Failed, Folder};

/// What the head of a file says, for a graph whose input has so many channels, from 1 to 32.
///
/// A file is `RIFF`, a size that is not asked, `WAVE`, and chunks. The first chunk `fmt ` is the
/// format: linear PCM of 8, 16, 24 or 32 bits, by tag 1 or by `WAVE_FORMAT_EXTENSIBLE`, with the
/// graph's channels, at 1 to 1,000,000 frames for each second. The first chunk `data` holds the
/// frames; a size of 2^32 - 1 was left open, and is what the file has. Other chunks are skipped.
///
/// # Errors
///
/// `Wav` with the first fault of the file, in the order of `WavFault`, and `Failed` where the folder
/// failed or does not hold the name.
pub fn read_head<F: Folder>(folder: &mut F, name: &str, graph: u32) -> Result<Head, HeadFault>
    requires least { 1 ≤ graph }
    requires most { graph ≤ 32 }
    ensures held { F.held folder.new ≡ F.held folder.old }

    ensures ok { IfOk result (λ head. HeldBytes name.now (F.held folder.old) (λ bytes. ReadsAs graph bytes (Ok head))) }
    ensures head { IfOk result (λ head. IsHead head × (head.channels ≡ graph)) }

    ensures fault { (fault : WavFault) → result ≡ Err (HeadFault.Wav fault)
        → HeldBytes name.now (F.held folder.old) (λ bytes. ReadsAs graph bytes (Err fault)) }
    ensures never { (bytes : ℕ) → ¬ (result ≡ Err (HeadFault.Wav (WavFault.TooLong bytes))) }

    ensures failed { result ≡ Err HeadFault.Failed
        → IsMissing name.now (F.held folder.old) ⊎ Rose (F.read_faults folder.old) (F.read_faults folder.new) }
    ensures missed { IsMissing name.now (F.held folder.old)
        → (result ≡ Err HeadFault.Failed) × (F.read_faults folder.new ≡ F.read_faults folder.old) }
    ensures reads { F.read_faults folder.old ≤ F.read_faults folder.new }
    ensures writes { F.write_faults folder.new ≡ F.write_faults folder.old }
{
    let size = folder.length(name)?;
    if !read_is_wave(folder, name, size)? {
        return Err(HeadFault::Wav(WavFault::NotRiff));
    }
    let chunks = read_chunks(folder, name, size)?;
    let chunk = whole_format(size, chunks.first_format)?;
    let format = read_format(folder, name, &chunk)?.checked(graph)?;
    Ok(head_in(size, &format, chunks.first_data)?)
}

/// Leaves in `into` the samples of as many frames as it holds, from frame `first` on, interleaved
/// and scaled to 32 bits. `bytes` has room for them as they stand in the file, with 8, 16, 24 or 32
/// bits.
///
/// # Errors
///
/// `Failed` where the folder failed or does not hold all these bytes. `into` is then as it was.
pub fn read_frames<F: Folder>(
    folder: &mut F,
    name: &str,
    head: &Head,
    first: u64,
    bytes: &mut [u8],
    into: &mut [i64],
) -> Result<(), Failed>
    requires head { IsHead head.now }
    requires frames { (n : ℕ) × (length into.old ≡ n * head.now.channels) × (first + n ≤ head.now.frames) }
    requires room { length bytes.old ≡ length into.old * (head.now.bits / 8) }
    ensures held { F.held folder.new ≡ F.held folder.old }
    ensures samples { OnOk result (HeldBytes name.now (F.held folder.old)
        (λ file. let from = head.now.from + first * frame_size head.now in
        into.new ≡ samples_in head.now.bits (slice_range file from (from + length bytes.old)))) }
    ensures recorded { OnOk result (HeldBytes name.now (F.held folder.old)
        (λ file. head.now.from + data_size head.now ≤ length file
        → into.new ≡ slice_range (recorded head.now file) (first * head.now.channels) (first * head.now.channels + length into.old))) }
    ensures range { OnOk result (All IsScaled into.new) }
    ensures failed { OnErr result (into.new ≡ into.old) }
    ensures cause { HasCause (IsPast name.now (head.now.from + first * frame_size head.now + length bytes.old) (F.held folder.old))
        (F.read_faults folder.old) (F.read_faults folder.new)
        (F.write_faults folder.old) (F.write_faults folder.new) result }
{
    let frame_size = u64::from(head.channels * (head.bits / 8));
    folder.read_exact_at(name, head.from + first * frame_size, bytes)?;
    get_samples(head.bits, bytes, into);
    Ok(())
}

/// Whether a file of this size begins as RIFF/WAVE.
fn read_is_wave<F: Folder>(folder: &mut F, name: &str, size: u64) -> Result<bool, Failed>
    requires there { ¬ IsPast name.now size (F.held folder.old) }
    ensures held { F.held folder.new ≡ F.held folder.old }
    ensures wave { IfOk result (λ is. HeldBytes name.now (F.held folder.old) (λ bytes. size ≡ length bytes → is ≡ is_wave bytes)) }
    ensures failed { OnErr result (Rose (F.read_faults folder.old) (F.read_faults folder.new)) }
    ensures reads { F.read_faults folder.old ≤ F.read_faults folder.new }
    ensures writes { F.write_faults folder.new ≡ F.write_faults folder.old }
{
    if size < 12 {
        return Ok(false);
    }
    let mut start = [0; 12];
    folder.read_exact_at(name, 0, &mut start)?;
    Ok(is_wave_start(&start))
}

/// Whether these are the first bytes of RIFF/WAVE.
fn is_wave_start(start: &[u8; 12]) -> bool
    ensures { result ≡ is_wave_start start.now }
{
    mark_at(start, 0) == RIFF && mark_at(start, 8) == WAVE
}

/// The head by a format that is read and the chunk of data, in a file of this size.
fn head_in(size: u64, format: &Format, chunk: Option<Chunk>) -> Result<Head, WavFault>
    requires bits { 8 ≤ format.now.bits }
    requires channels { 1 ≤ format.now.channels }
    ensures { result ≡ head_in size format.now chunk }
{
    let Some(chunk) = chunk else {
        return Err(WavFault::NoData);
    };
    let frame = u64::from(format.channels) * u64::from(format.bits / 8);
    let frames = frames_in(frame, chunk.size, size.saturating_sub(chunk.from))?;
    Ok(Head {
        channels: u32::from(format.channels),
        rate: format.rate,
        bits: u32::from(format.bits),
        frames,
        from: chunk.from,
    })
}

/// How many frames stand in data of a size, of which so many bytes are there.
fn frames_in(frame: u64, size: u32, there: u64) -> Result<u64, WavFault>
    requires { 1 ≤ frame }
    ensures { result ≡ frames_in frame size there }
{
    if size == OPEN_SIZE {
        return Ok(there / frame);
    }
    let size = u64::from(size);
    if there < size {
        return Err(WavFault::Short {
            wanted: size,
            there,
        });
    }
    if !size.is_multiple_of(frame) {
        return Err(WavFault::Ragged { size, frame });
    }
    Ok(size / frame)
}
