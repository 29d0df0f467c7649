//! The chunks of a file.

ghost use Rattle.std.specs.Prelude.{◌≡◌, ℕ, ◌≤◌, ◌<◌, ◌+◌, ◌-◌, ◌^◌, length, take, drop, List, IfOk, OnErr, IfSome, find, min};
ghost use Rattle.gh_outside.specs.Causes.{Rose, HasCause};
ghost use Rattle.gh_outside.specs.Holdings.{IsPast, HeldBytes};
ghost use Rattle.wav_pcm.specs.Chunks.{chunk_at, is_format, is_data, after, AreChunks};

use crate::field::{mark_at, u32_at};
use crate::head::{DATA, FORMAT};
use gh_outside::{Failed, Folder};

/// A chunk: a mark, a size, and a body of that size.
#[derive(Clone, Copy, Debug, PartialEq, Eq)]
pub(crate) struct Chunk {
    /// Its four characters.
    pub(crate) mark: [u8; 4],
    /// The size of its body, in bytes.
    pub(crate) size: u32,
    /// The offset of its body, in bytes.
    pub(crate) from: u64,
}

impl Chunk {
    fn is_format(&self) -> bool
        ensures { result ≡ is_format self.now }
    {
        self.mark == FORMAT
    }

    fn is_data(&self) -> bool
        ensures { result ≡ is_data self.now }
    {
        self.mark == DATA
    }

    /// Where the next chunk begins, or the last number of 64 bits where that is beyond it.
    fn after(&self) -> u64
        ensures { result ≡ min (after self.now) (2 ^ 64 - 1) }
    {
        let size = u64::from(self.size);
        self.from.saturating_add(size + size % 2)
    }
}

/// The chunks of a file that are read.
#[derive(Clone, Copy, Debug, PartialEq, Eq)]
pub(crate) struct Chunks {
    /// The first chunk of format, if it comes before the data.
    pub(crate) first_format: Option<Chunk>,
    /// The first chunk of data.
    pub(crate) first_data: Option<Chunk>,
}

/// Goes from chunk to chunk, from offset 12 on, in a file of this size, until a chunk of data or
/// until fewer than 8 bytes are left.
pub(crate) fn read_chunks<F: Folder>(
    folder: &mut F,
    name: &str,
    size: u64,
) -> Result<Chunks, Failed>
    requires there { ¬ IsPast name.now size (F.held folder.old) }
    ensures held { F.held folder.new ≡ F.held folder.old }
    ensures found { IfOk result (λ chunks. HeldBytes name.now (F.held folder.old) (λ bytes. size ≡ length bytes
        → (all : List Chunk) × AreChunks 12 bytes all × (chunks.first_format ≡ find is_format all)
        × (chunks.first_data ≡ find is_data all))) }
    ensures within { IfOk result (λ chunks. IfSome chunks.first_data (λ chunk. chunk.from ≤ size)) }
    ensures failed { OnErr result (Rose (F.read_faults folder.old) (F.read_faults folder.new)) }
    ensures reads { F.read_faults folder.old ≤ F.read_faults folder.new }
    ensures writes { F.write_faults folder.new ≡ F.write_faults folder.old }
{
    let mut format = None;
    let mut at = 12;
    while size.saturating_sub(at) >= 8 {
        let chunk = read_chunk(folder, name, at)?;
        if chunk.is_data() {
            return Ok(Chunks {
                first_format: format,
                first_data: Some(chunk),
            });
        }
        format = format.or(chunk.is_format().then_some(chunk));
        at = chunk.after();
    }
    Ok(Chunks {
        first_format: format,
        first_data: None,
    })
}

/// The chunk at an offset.
fn read_chunk<F: Folder>(folder: &mut F, name: &str, at: u64) -> Result<Chunk, Failed>
    requires room { at + 8 < 2 ^ 64 }
    ensures held { F.held folder.new ≡ F.held folder.old }
    ensures chunk { IfOk result (λ chunk. HeldBytes name.now (F.held folder.old) (λ bytes. chunk ≡ chunk_at at bytes)) }
    ensures from { IfOk result (λ chunk. chunk.from ≡ at + 8) }
    ensures cause { HasCause (IsPast name.now (at + 8) (F.held folder.old))
        (F.read_faults folder.old) (F.read_faults folder.new)
        (F.write_faults folder.old) (F.write_faults folder.new) result }
{
    let mut head = [0; 8];
    folder.read_exact_at(name, at, &mut head)?;
    Ok(Chunk {
        mark: mark_at(&head, 0),
        size: u32_at(&head, 4),
        from: at + 8,
    })
}
