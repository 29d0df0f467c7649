//! A line of delay over a ring of samples.

ghost use Rattle.std.specs.Prelude.{◌≡◌, ◌^◌, ◌≤◌, ◌-◌, ◌↔◌, ℤ, pos, List, [], ◌∷◌, ◌++◌, length, replicate, slice_index_or, IfOk, IsTrue};

use circular_buffer::HeapCircularBuffer;
use std::alloc::{AllocError, Global};
use std::marker::Model;

/// Gives each sample back a fixed number of samples later. Contracts see it as the samples that it holds, the oldest
/// first.
#[derive(Drop)]
pub struct Line {
    held: HeapCircularBuffer<i64>,
}

impl Model for Line {
    ghost Value = { List ℤ };

    ghost view = { λ line. line.held.items };

    ghost invariant = { λ line. length line.held.items ≡ line.held.capacity };
}

impl Line {
    /// A line of as many zeros as it delays by, in samples. It fails only for want of memory.
    pub fn new(alloc: Global, delay: u64) -> Result<Line, AllocError>
        requires { delay ≤ 2 ^ 26 }
        ensures { IfOk result (λ line. line ≡ replicate delay (pos 0)) }
    {
        let mut held = HeapCircularBuffer::with_capacity(alloc, delay as usize)?;
        for _ in 0..delay {
            held.push_back(0);
        }
        Ok(Line { held })
    }

    /// By how many samples it delays.
    pub fn len(&self) -> usize
        ensures { result ≡ length self.now }
    {
        self.held.len()
    }

    /// Whether each sample comes out at once.
    pub fn is_empty(&self) -> bool
        ensures { IsTrue result ↔ (self.now ≡ []) }
    {
        self.held.is_empty()
    }

    /// Passes a sample, and gives the one that was passed in as many samples ago as the line is long: the sample itself
    /// where it is empty.
    pub fn pass(&mut self, sample: i64) -> i64
        ensures { result ∷ self.new ≡ self.old ++ sample ∷ [] }
    {
        self.held.push_back(sample).unwrap_or(sample)
    }

    /// Passes the samples `from` one by one, and writes those that come out to `into`.
    pub fn pass_block(&mut self, from: &[i64], into: &mut [i64])
        requires { length into.old ≡ length from.now }
        ensures passed { into.new ++ self.new ≡ self.old ++ from.now }
        ensures count { length self.new ≡ length self.old }
    {
        let held = from.len().min(self.held.len());
        let (through, kept) = from.split_at(from.len() - held);
        self.held.read_into(&mut into[..held]);
        into[held..].copy_from_slice(through);
        self.held.extend_from_slice(kept);
    }

    /// The sample that was passed in `back` samples ago, of those that it holds: 1 is the newest.
    pub fn before(&self, back: usize) -> i64
        requires some { 1 ≤ back }
        requires held { back ≤ length self.now }
        ensures { result ≡ slice_index_or self.now (length self.now - back) (pos 0) }
    {
        *self.held.nth_back(back - 1).unwrap()
    }
}
