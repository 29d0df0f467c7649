//! Heads and frames are written.

ghost use Rattle.std.specs.Prelude.{◌≡◌, ◌≤◌, ◌<◌, ◌+◌, ◌-◌, ◌*◌, ◌/◌, ◌%◌, ◌++◌, length, drop, OnOk, OnErr};
ghost use Rattle.gh_outside.specs.Causes.{HasCause};
ghost use Rattle.gh_outside.specs.Holdings.{IsMissing, KeepsOthers, HasGained, HasGainedPrefix};
ghost use Rattle.wav_pcm.specs.Samples.{IsSize, bytes_of};
ghost use Rattle.wav_pcm.specs.Heads.{most_data, head_of, riff_of, format_of};

use crate::head::{DATA, FORMAT, FORMAT_SIZE, PCM, RIFF, WAVE};
use crate::sample::frame_bytes;
use byteorder::{ByteOrder, LittleEndian};
use gh_outside::{Failed, Folder};

/// Leaves in `into` the head of a file of PCM with so many frames: `RIFF` and `WAVE`, a chunk `fmt ` of
/// 16 bytes, and the beginning of the chunk `data`. The file goes on with the frames, and with one
/// byte 0 where their bytes are odd in number.
///
/// `channels` are from 1 to 32, `rate` is from 1 to 1,000,000 frames for each second, `bits` are 8,
/// 16, 24 or 32, and the frames have at most `MOST_DATA` bytes, so that each number fits its field.
pub fn head_bytes(channels: u32, rate: u32, bits: u32, frames: u64, into: &mut [u8; 44])
    requires channels_least { 1 ≤ channels }
    requires channels_most { channels ≤ 32 }
    requires rate_least { 1 ≤ rate }
    requires rate_most { rate ≤ 1000000 }
    requires size { IsSize bits }
    requires room { frames * (channels * (bits / 8)) ≤ most_data }
    ensures { into.new ≡ head_of channels rate bits (frames * (channels * (bits / 8))) }
{
    let data_size = frames * u64::from(channels * (bits / 8));
    put_head(channels, rate, bits, data_size as u32, into);
}

/// Writes the head of a file with so many bytes of data.
fn put_head(channels: u32, rate: u32, bits: u32, data_size: u32, into: &mut [u8; 44])
    requires channels { channels ≤ 32 }
    requires rate { rate ≤ 1000000 }
    requires bits { bits ≤ 32 }
    requires room { data_size ≤ most_data }
    ensures { into.new ≡ head_of channels rate bits data_size }
{
    put_riff(data_size, into);
    put_format(channels, rate, bits, &mut into[20..]);
    LittleEndian::write_u32(&mut into[36..], u32::from_le_bytes(DATA));
    LittleEndian::write_u32(&mut into[40..], data_size);
}

/// Writes what stands before the body of the chunk of format.
fn put_riff(data_size: u32, into: &mut [u8])
    requires space { 20 ≤ length into.old }
    requires room { data_size ≤ most_data }
    ensures { into.new ≡ riff_of data_size ++ drop 20 into.old }
{
    LittleEndian::write_u32(into, u32::from_le_bytes(RIFF));
    LittleEndian::write_u32(&mut into[4..], 36 + data_size + data_size % 2);
    LittleEndian::write_u32(&mut into[8..], u32::from_le_bytes(WAVE));
    LittleEndian::write_u32(&mut into[12..], u32::from_le_bytes(FORMAT));
    LittleEndian::write_u32(&mut into[16..], FORMAT_SIZE);
}

/// Writes the body of the chunk of format.
fn put_format(channels: u32, rate: u32, bits: u32, into: &mut [u8])
    requires space { 16 ≤ length into.old }
    requires channels { channels ≤ 32 }
    requires rate { rate ≤ 1000000 }
    requires bits { bits ≤ 32 }
    ensures { into.new ≡ format_of channels rate bits ++ drop 16 into.old }
{
    let frame_size = channels * (bits / 8);
    LittleEndian::write_u16(into, PCM);
    LittleEndian::write_u16(&mut into[2..], channels as u16);
    LittleEndian::write_u32(&mut into[4..], rate);
    LittleEndian::write_u32(&mut into[8..], rate * frame_size);
    LittleEndian::write_u16(&mut into[12..], frame_size as u16);
    LittleEndian::write_u16(&mut into[14..], bits as u16);
}

/// Adds the samples, interleaved and scaled to 32 bits, to the end of a file, as one piece of 8, 16, 24
/// or 32 bits a sample. `bytes` has room for that piece.
///
/// # Errors
///
/// `Failed` where the folder failed, which may have added the first bytes of the piece, or does not
/// hold the name.
pub fn put_frames<F: Folder>(
    folder: &mut F,
    name: &str,
    bits: u32,
    samples: &[i64],
    bytes: &mut [u8],
) -> Result<(), Failed>
    requires size { IsSize bits }
    requires room { length bytes.old ≡ length samples.now * (bits / 8) }
    ensures gained { OnOk result
        (HasGained name.now (bytes_of bits samples.now) (F.held folder.old) (F.held folder.new)) }
    ensures others { KeepsOthers name.now (F.held folder.old) (F.held folder.new) }
    ensures failed { OnErr result
        (HasGainedPrefix name.now (bytes_of bits samples.now) (F.held folder.old) (F.held folder.new)) }
    ensures missed { IsMissing name.now (F.held folder.old) → F.held folder.new ≡ F.held folder.old }
    ensures cause { HasCause (IsMissing name.now (F.held folder.old))
        (F.write_faults folder.old) (F.write_faults folder.new)
        (F.read_faults folder.old) (F.read_faults folder.new) result }
{
    frame_bytes(bits, samples, bytes);
    folder.append(name, bytes)
}
