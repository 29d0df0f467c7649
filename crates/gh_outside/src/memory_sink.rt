//! A sink in memory, as a test wants it.

ghost use Rattle.std.specs.Prelude.{◌≡◌, ◌+◌, ◌/◌, ◌<◌, ◌≤◌, ◌++◌, [], length, take, Some, IfOk, OnOk, OnErr, Contains, ◌⊎◌};
ghost use Rattle.gh_outside.specs.Causes.{one_more, HasCause, FailsExactly};
ghost use Rattle.gh_outside.specs.Holdings.{GainsAll, GainsPrefix};

use crate::counts::{count_fault, next_call};
use crate::folder::Failed;
use crate::sink::Sink;
use graph_model::List;
use std::alloc::{AllocError, Global};
use std::marker::Model;

/// Bytes in a room that they never pass. It tells what it holds.
///
/// The calls of `Sink` are numbered from 0, and those whose numbers are listed fail. They take no
/// memory: the memory of the room is taken at the start.
#[derive(Drop)]
pub struct MemorySink {
    bytes: Vec<u8>,
    room: u64,
    fails: List<u64>,
    calls: u64,
    faults: u64,
}

impl Model for MemorySink {
    ghost use Rattle.std.specs.Prelude.{◌≤◌, vec_capacity, vec_len};
    ghost use Rattle.gh_outside.specs.Causes.{IsCount};
    ghost use Rattle.gh_outside.specs.Memory.{MemoryBytes};

    ghost Value = { MemoryBytes };

    ghost view = { λ a. record {
      bytes = a.bytes.items;
      room = a.room;
      fails = a.fails;
      calls = a.calls;
      faults = a.faults;
    } };

    ghost invariant = { λ a. (a.room ≤ vec_capacity a.bytes) × (vec_len a.bytes ≤ a.room)
        × IsCount a.faults };
}

impl MemorySink {
    /// No bytes, in a room of so many. The calls whose numbers are in `fails` will fail.
    pub fn new(alloc: Global, fails: List<u64>, room: u64) -> Result<MemorySink, AllocError>
        ensures { IfOk result (λ sink. sink ≡
            record { bytes = []; room = room; fails = fails; calls = 0; faults = 0 }) }
    {
        Ok(MemorySink {
            bytes: Vec::with_capacity(alloc, room as usize)?,
            room,
            fails,
            calls: 0,
            faults: 0,
        })
    }

    /// How often a call has failed.
    pub fn faults(&self) -> u64
        ensures { result ≡ self.now.faults }
    {
        self.faults
    }

    /// The bytes that were put.
    pub fn bytes(&self) -> &[u8]
        ensures { result.now ≡ self.now.bytes }
    {
        self.bytes.as_slice()
    }
}

impl Sink for MemorySink {
    ghost bytes = { λ s. Some s.bytes };

    ghost faults = { λ s. s.faults };

    fn put(&mut self, piece: &[u8]) -> Result<(), Failed>
        ensures gained { OnOk result
            (GainsAll piece.now (Some self.old.bytes) (Some self.new.bytes)) }
        ensures failed { OnErr result
            (GainsPrefix piece.now (Some self.old.bytes) (Some self.new.bytes)) }
        ensures cause { HasCause ⊥ self.old.faults self.new.faults 0 0 result }

        // It fails exactly at a listed number and past the room. Past the room it adds nothing, and
        // a listed call within the room keeps the first half.
        ensures exact { FailsExactly ⊥
            (Contains self.old.fails self.old.calls
            ⊎ (self.old.room < length self.old.bytes + length piece.now))
            self.old.faults self.new.faults result }
        ensures full { self.old.room < length self.old.bytes + length piece.now →
            self.new.bytes ≡ self.old.bytes }
        ensures half { OnErr result (length self.old.bytes + length piece.now ≤ self.old.room →
            self.new.bytes ≡ self.old.bytes ++ take (length piece.now / 2) piece.now) }
        ensures rest { self.new ≡ record self.old {
          bytes = self.new.bytes;
          calls = one_more self.old.calls;
          faults = self.new.faults;
        } }
    {
        let listed = next_call(&mut self.calls, &self.fails);
        let free = self.room as usize - self.bytes.len();
        if free < piece.len() {
            return Err(count_fault(&mut self.faults));
        }
        if listed {
            let _ = self.bytes.extend_from_slice(&piece[..piece.len() / 2]);
            return Err(count_fault(&mut self.faults));
        }
        let _ = self.bytes.extend_from_slice(piece);
        Ok(())
    }
}

#[cfg(test)]
mod tests {
    use super::*;
    use std::test::Fail;

    #[test]
    fn takes_bytes_within_its_room_and_half_at_a_listed_call(rt: HostRuntime) -> Result<(), Fail> {
        let fails = List::from_slice(rt.alloc(), &[1])?;
        let mut sink = MemorySink::new(rt.alloc(), fails, 5)?;
        assert_eq!(rt; sink.put(b"ab"), Ok(()));
        assert_eq!(rt; sink.put(b"cde"), Err(Failed));
        assert_eq!(rt; sink.bytes(), b"abc".as_slice());
        assert_eq!(rt; sink.put(b"def"), Err(Failed));
        assert_eq!(rt; sink.put(b"de"), Ok(()));
        assert_eq!(rt; sink.bytes(), b"abcde".as_slice());
        assert_eq!(rt; sink.faults, 2);
        Ok(())
    }
}
