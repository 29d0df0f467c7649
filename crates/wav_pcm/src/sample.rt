//! Samples as bytes.

ghost use Rattle.std.specs.Prelude.{◌≡◌, ◌≤◌, ◌<◌, ◌+◌, ◌-◌, ◌*◌, ◌/◌, ◌^◌, ◌++◌, ◌≤ℤ◌, ◌↔◌, IsTrue, pos, ◌-ℤ◌, length, drop, All};
ghost use Rattle.graph_model.specs.Rounding.{rounded};
ghost use Rattle.wav_pcm.specs.Samples.{IsSize, is_size, least, greatest, sample_bytes, sample_of, scaled, IsScaled, written, samples_in, bytes_of};

use byteorder::{ByteOrder, LittleEndian};

/// Whether samples have so many bits in a file: 8, 16, 24 or 32.
pub fn is_size(bits: u64) -> bool
    ensures value { result ≡ is_size bits }
    ensures size { IsTrue result ↔ IsSize bits }
{
    matches!(bits, 8 | 16 | 24 | 32)
}

/// Leaves in `bytes` what stands in a file of 8, 16, 24 or 32 bits for these samples, which are
/// interleaved and scaled to 32 bits.
///
/// Each sample is rounded, a half upward, and clamped to the range of its size.
pub fn frame_bytes(bits: u32, samples: &[i64], bytes: &mut [u8])
    requires size { IsSize bits }
    requires room { length bytes.old ≡ length samples.now * (bits / 8) }
    ensures { bytes.new ≡ bytes_of bits samples.now }
{
    match bits {
        8 => put_each::<8>(samples, bytes),
        16 => put_each::<16>(samples, bytes),
        24 => put_each::<24>(samples, bytes),
        _ => put_each::<32>(samples, bytes),
    }
}

/// The samples that stand in `bytes`.
pub(crate) fn get_samples(bits: u32, bytes: &[u8], into: &mut [i64])
    requires size { IsSize bits }
    requires room { length bytes.now ≡ length into.old * (bits / 8) }
    ensures samples { into.new ≡ samples_in bits bytes.now }
    ensures range { All IsScaled into.new }
{
    match bits {
        8 => get_each::<8>(bytes, into),
        16 => get_each::<16>(bytes, into),
        24 => get_each::<24>(bytes, into),
        _ => get_each::<32>(bytes, into),
    }
}

/// What `frame_bytes` does for one size, so that each has a loop of its own.
fn put_each<const BITS: u32>(samples: &[i64], bytes: &mut [u8])
    requires size { IsSize BITS }
    requires room { length bytes.old ≡ length samples.now * (BITS / 8) }
    ensures { bytes.new ≡ bytes_of BITS samples.now }
{
    let width = BITS as usize / 8;
    for (at, sample) in samples.iter().enumerate() {
        put_scaled::<BITS>(*sample, &mut bytes[at * width..]);
    }
}

/// What `get_samples` does for one size.
fn get_each<const BITS: u32>(bytes: &[u8], into: &mut [i64])
    requires size { IsSize BITS }
    requires room { length bytes.now ≡ length into.old * (BITS / 8) }
    ensures samples { into.new ≡ samples_in BITS bytes.now }
    ensures range { All IsScaled into.new }
{
    let width = BITS as usize / 8;
    for (at, sample) in into.iter_mut().enumerate() {
        *sample = get_scaled::<BITS>(&bytes[at * width..]);
    }
}

/// Writes a sample of 32 bits at the front, rounded and clamped to the size.
fn put_scaled<const BITS: u32>(sample: i64, into: &mut [u8])
    requires size { IsSize BITS }
    requires room { BITS / 8 ≤ length into.old }
    ensures { into.new ≡ written BITS sample ++ drop (BITS / 8) into.old }
{
    let half = 1i64 << (BITS - 1);
    put_sample::<BITS>(narrowed::<BITS>(sample).clamp(-half, half - 1), into);
}

/// A sample of 32 bits in another size: rounded, a half upward.
fn narrowed<const BITS: u32>(sample: i64) -> i64
    requires { IsSize BITS }
    ensures { result ≡ rounded sample (32 - BITS) }
{
    if BITS == 32 {
        return sample;
    }
    // All but the last step of the shift comes before the half is added, so that no sum is too large.
    ((sample >> (31 - BITS)) + 1) >> 1
}

/// Reads a sample at the front and scales it to 32 bits.
fn get_scaled<const BITS: u32>(bytes: &[u8]) -> i64
    requires size { IsSize BITS }
    requires room { BITS / 8 ≤ length bytes.now }
    ensures value { result ≡ scaled BITS (sample_of BITS bytes.now) }
    ensures range { IsScaled result }
{
    get_sample::<BITS>(bytes) * (1i64 << (32 - BITS))
}

/// Writes a sample at the front.
fn put_sample<const BITS: u32>(sample: i64, into: &mut [u8])
    requires size { IsSize BITS }
    requires low { least BITS ≤ℤ sample }
    requires high { sample ≤ℤ greatest BITS }
    requires room { BITS / 8 ≤ length into.old }
    ensures { into.new ≡ sample_bytes BITS sample ++ drop (BITS / 8) into.old }
{
    if BITS == 8 {
        into[0] = (sample + 128) as u8;
        return;
    }
    LittleEndian::write_int(into, sample, BITS as usize / 8);
}

/// Reads a sample at the front.
fn get_sample<const BITS: u32>(bytes: &[u8]) -> i64
    requires size { IsSize BITS }
    requires room { BITS / 8 ≤ length bytes.now }
    ensures value { result ≡ sample_of BITS bytes.now }
    ensures low { least BITS ≤ℤ result }
    ensures high { result ≤ℤ greatest BITS }
{
    if BITS == 8 {
        return i64::from(bytes[0]) - 128;
    }
    LittleEndian::read_int(bytes, BITS as usize / 8)
}
