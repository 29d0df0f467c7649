//! Marks and numbers in bytes.

ghost use Rattle.std.specs.Prelude.{◌≡◌, ◌≤◌, ◌+◌, length};
ghost use Rattle.wav_pcm.specs.Chunks.{mark_at, u16_at, u32_at};

use byteorder::{ByteOrder, LittleEndian};

/// The number of 16 bits at an offset.
pub(crate) fn u16_at(bytes: &[u8], from: usize) -> u16
    requires { from + 2 ≤ length bytes.now }
    ensures { result ≡ u16_at from bytes.now }
{
    LittleEndian::read_u16(&bytes[from..])
}

/// The number of 32 bits at an offset.
pub(crate) fn u32_at(bytes: &[u8], from: usize) -> u32
    requires { from + 4 ≤ length bytes.now }
    ensures { result ≡ u32_at from bytes.now }
{
    LittleEndian::read_u32(&bytes[from..])
}

/// The four characters at an offset.
pub(crate) fn mark_at(bytes: &[u8], from: usize) -> [u8; 4]
    requires { from + 4 ≤ length bytes.now }
    ensures { result ≡ mark_at from bytes.now }
{
    let mut mark = [0; 4];
    mark.copy_from_slice(&bytes[from..from + 4]);
    mark
}
