//! The samples of one value in a block.

ghost use Rattle.std.specs.Prelude.{◌≡◌, ◌+◌, ◌<◌, ◌≤◌, ◌++◌, ℤ, pos, List, [], drop, length, replicate, take, IfOk, slice_index_or, slice_set};

use std::alloc::{AllocError, Global};
use std::marker::Model;

/// The samples of one value in a block, frame by frame. Contracts see it as their list.
#[derive(Drop)]
pub struct Buffer {
    samples: Vec<i64>,
}

impl Model for Buffer {
    ghost Value = { List ℤ };

    ghost view = { λ buffer. buffer.samples.items };
}

impl Buffer {
    /// A buffer of no samples, which takes no memory.
    pub fn empty(alloc: Global) -> Self
        ensures { result ≡ [] }
    {
        Buffer {
            samples: Vec::new(alloc),
        }
    }

    /// A buffer of this many zeros. It fails only for want of memory.
    pub fn zeros(alloc: Global, len: usize) -> Result<Self, AllocError>
        ensures { IfOk result (λ buffer. buffer ≡ replicate len (pos 0)) }
    {
        Ok(Buffer {
            samples: vec![in alloc; 0; len]?,
        })
    }

    /// All samples.
    pub fn as_slice(&self) -> &[i64]
        ensures { result.now ≡ self.now }
    {
        self.samples.as_slice()
    }

    /// The sample of a frame.
    pub fn at(&self, frame: usize) -> i64
        requires { frame < length self.now }
        ensures { result ≡ slice_index_or self.now frame (pos 0) }
    {
        self.samples[frame]
    }

    /// Puts the sample of a frame.
    pub fn put(&mut self, frame: usize, sample: i64)
        requires { frame < length self.old }
        ensures { self.new ≡ slice_set self.old frame sample }
    {
        self.samples[frame] = sample;
    }

    /// Puts the samples of the frames from `first` on.
    pub fn write(&mut self, first: usize, samples: &[i64])
        requires { first + length samples.now ≤ length self.old }
        ensures { self.new ≡ take first self.old ++ (samples.now ++ drop (first + length samples.now) self.old) }
    {
        self.samples[first..first + samples.len()].copy_from_slice(samples);
    }
}
