//! Room for a block.

ghost use Rattle.std.specs.Prelude.{◌≡◌, ◌≤◌, IfOk};
ghost use Rattle.wav_pcm.specs.Samples.{IsSize};
ghost use Rattle.streaming.specs.Blocks.{HasRoom};

use crate::ends::{Incoming, Outgoing};
use std::alloc::{AllocError, Global};

/// Room for the bytes and the samples of a block, as it is read, as it comes in, as it goes out and as it is appended.
#[derive(Drop)]
pub struct Room {
    pub(crate) read: Vec<u8>,
    pub(crate) came: Vec<i64>,
    pub(crate) went: Vec<i64>,
    pub(crate) put: Vec<u8>,
}

impl Room {
    /// Room for blocks of up to so many frames.
    pub fn new(
        alloc: Global,
        from: &Incoming,
        to: &Outgoing,
        block: u32,
    ) -> Result<Room, AllocError>
        requires block { block ≤ 8192 }
        requires come { from.now.head.channels ≤ 32 }
        requires go { to.now.channels ≤ 32 }
        requires size { IsSize from.now.head.bits }
        requires form { IsSize to.now.bits }
        ensures { IfOk result (HasRoom from.now to.now block) }
    {
        let came = block as usize * from.head.channels as usize;
        let went = block as usize * to.channels as usize;
        Ok(Room {
            read: vec![in alloc; 0u8; came * (from.head.bits as usize / 8)]?,
            came: vec![in alloc; 0i64; came]?,
            went: vec![in alloc; 0i64; went]?,
            put: vec![in alloc; 0u8; went * (to.bits as usize / 8)]?,
        })
    }
}
