//! Files in memory, as a test wants them.

ghost use Rattle.std.specs.Prelude.{◌≡◌, ◌≢◌, ℕ, ◌+◌, ◌/◌, [], List, length, take, max, Some, None, IfOk, OnOk, OnErr, Contains, ◌⊎◌, slice_range, unwrap_or};
ghost use Rattle.std.specs.Option.{option_copied};
ghost use Rattle.gh_outside.specs.Causes.{one_more, HasCause, FailsExactly};
ghost use Rattle.gh_outside.specs.Holdings.{IsMissing, IsPast, HeldBytes, Holds, KeepsOthers, HasGained, HasGainedPrefix};
ghost use Rattle.gh_outside.specs.Memory.{holding, room_of, told, FitsRoom, PassesRoom, KeepsRooms};

use crate::counts::{count_fault, next_call};
use crate::folder::{Failed, Folder};
use crate::stored::{
    Stored, add_under, bytes_of, clear_under, fill_under, free_under, widen_under,
};
use graph_model::List;
use std::alloc::{AllocError, Global};
use std::marker::Model;

/// Files by name, each in a room that it never passes. It tells what it holds.
///
/// The calls of `Folder` are numbered from 0, misses too, and those whose numbers are listed fail.
/// They take no memory: the memory of a room is taken when the room is made. A name may have a
/// room and not be held; then `create` is what makes it held.
#[derive(Drop)]
pub struct MemoryFolder {
    alloc: Global,
    files: Vec<Stored>,
    fails: List<u64>,
    calls: u64,
    read_faults: u64,
    write_faults: u64,
}

impl Model for MemoryFolder {
    ghost use Rattle.gh_outside.specs.Causes.{IsCount};
    ghost use Rattle.gh_outside.specs.Memory.{MemoryFiles};

    ghost Value = { MemoryFiles };

    ghost view = { λ a. record {
      files = a.files.items;
      fails = a.fails;
      calls = a.calls;
      read_faults = a.read_faults;
      write_faults = a.write_faults;
    } };

    ghost invariant = { λ a. IsCount a.read_faults × IsCount a.write_faults };
}

impl MemoryFolder {
    /// No files and no rooms. The calls whose numbers are in `fails` will fail.
    pub fn new(alloc: Global, fails: List<u64>) -> Result<MemoryFolder, AllocError>
        ensures { IfOk result (λ folder. folder ≡
            record { files = []; fails = fails; calls = 0; read_faults = 0; write_faults = 0 }) }
    {
        Ok(MemoryFolder {
            alloc,
            files: Vec::new(alloc),
            fails,
            calls: 0,
            read_faults: 0,
            write_faults: 0,
        })
    }

    /// Gives the name a room of so many bytes. A greater room that it has already stays.
    pub fn make_room(&mut self, name: &str, room: u64) -> Result<(), AllocError>
        ensures room { OnOk result (room_of self.new.files name.now ≡
            Some (max (unwrap_or (room_of self.old.files name.now) 0) room)) }
        ensures rooms { (other : List ℕ) → other ≢ name.now →
            room_of self.new.files other ≡ room_of self.old.files other }
        ensures held { (other : List ℕ) →
            holding self.new.files other ≡ holding self.old.files other }
        ensures rest { self.new ≡ record self.old { files = self.new.files } }
        ensures err { OnErr result (self.new ≡ self.old) }
    {
        widen_under(self.alloc, &mut self.files, name, room)
    }

    /// Makes the name hold the bytes, in a room of as many. A greater room that it has already
    /// stays.
    pub fn put_file(&mut self, name: &str, bytes: &[u8]) -> Result<(), AllocError>
        ensures held { OnOk result (holding self.new.files name.now ≡ Some bytes.now) }
        ensures others { (other : List ℕ) → other ≢ name.now →
            holding self.new.files other ≡ holding self.old.files other }
        ensures room { OnOk result (room_of self.new.files name.now ≡
            Some (max (unwrap_or (room_of self.old.files name.now) 0) (length bytes.now))) }
        ensures rooms { (other : List ℕ) → other ≢ name.now →
            room_of self.new.files other ≡ room_of self.old.files other }
        ensures rest { self.new ≡ record self.old { files = self.new.files } }
        ensures err { OnErr result (self.new ≡ self.old) }
    {
        widen_under(self.alloc, &mut self.files, name, bytes.len() as u64)?;
        fill_under(&mut self.files, name, bytes);
        Ok(())
    }

    /// How often a read has failed.
    pub fn read_faults(&self) -> u64
        ensures { result ≡ self.now.read_faults }
    {
        self.read_faults
    }

    /// How often a write has failed.
    pub fn write_faults(&self) -> u64
        ensures { result ≡ self.now.write_faults }
    {
        self.write_faults
    }

    /// The bytes that a name holds.
    pub fn file(&self, name: &str) -> Option<&[u8]>
        ensures { option_copied result ≡ holding self.now.files name.now }
    {
        bytes_of(self.files.as_slice(), name)
    }
}

impl Folder for MemoryFolder {
    ghost held = { λ f. told f.files };

    ghost read_faults = { λ f. f.read_faults };

    ghost write_faults = { λ f. f.write_faults };

    fn length(&mut self, name: &str) -> Result<u64, Failed>
        ensures held { told self.new.files ≡ told self.old.files }
        ensures bytes { IfOk result (λ n.
            HeldBytes name.now (told self.old.files) (λ bytes. n ≡ length bytes)) }
        ensures cause { HasCause (IsMissing name.now (told self.old.files))
            self.old.read_faults self.new.read_faults
            self.old.write_faults self.new.write_faults result }

        // It fails exactly at a miss and at a listed number.
        ensures exact { FailsExactly (IsMissing name.now (told self.old.files))
            (Contains self.old.fails self.old.calls)
            self.old.read_faults self.new.read_faults result }
        ensures rest { self.new ≡ record self.old {
          calls = one_more self.old.calls;
          read_faults = self.new.read_faults;
        } }
    {
        let listed = next_call(&mut self.calls, &self.fails);
        let Some(bytes) = bytes_of(self.files.as_slice(), name) else {
            return Err(Failed);
        };
        if listed {
            return Err(count_fault(&mut self.read_faults));
        }
        Ok(bytes.len() as u64)
    }

    fn read_exact_at(&mut self, name: &str, from: u64, into: &mut [u8]) -> Result<(), Failed>
        ensures held { told self.new.files ≡ told self.old.files }
        ensures bytes { OnOk result (HeldBytes name.now (told self.old.files)
            (λ bytes. into.new ≡ slice_range bytes from (from + length into.old))) }
        ensures missed { IsPast name.now (from + length into.old) (told self.old.files) →
            into.new ≡ into.old }
        ensures cause { HasCause (IsPast name.now (from + length into.old) (told self.old.files))
            self.old.read_faults self.new.read_faults
            self.old.write_faults self.new.write_faults result }

        // It fails exactly at a miss and at a listed number, and then reads nothing.
        ensures exact { FailsExactly
            (IsPast name.now (from + length into.old) (told self.old.files))
            (Contains self.old.fails self.old.calls)
            self.old.read_faults self.new.read_faults result }
        ensures unread { OnErr result (into.new ≡ into.old) }
        ensures rest { self.new ≡ record self.old {
          calls = one_more self.old.calls;
          read_faults = self.new.read_faults;
        } }
    {
        let listed = next_call(&mut self.calls, &self.fails);
        let Some(bytes) = bytes_of(self.files.as_slice(), name) else {
            return Err(Failed);
        };
        let from = from as usize;
        if bytes.len() < from || bytes.len() - from < into.len() {
            return Err(Failed);
        }
        if listed {
            return Err(count_fault(&mut self.read_faults));
        }
        into.copy_from_slice(&bytes[from..from + into.len()]);
        Ok(())
    }

    fn create(&mut self, name: &str) -> Result<(), Failed>
        ensures made { OnOk result (Holds name.now [] (told self.new.files)) }
        ensures others { KeepsOthers name.now (told self.old.files) (told self.new.files) }
        ensures failed { OnErr result (told self.new.files ≡ told self.old.files) }
        ensures cause { HasCause ⊥ self.old.write_faults self.new.write_faults
            self.old.read_faults self.new.read_faults result }

        // It fails exactly at a listed number and at a name without a room.
        ensures exact { FailsExactly ⊥
            (Contains self.old.fails self.old.calls ⊎ (room_of self.old.files name.now ≡ None))
            self.old.write_faults self.new.write_faults result }
        ensures rooms { KeepsRooms self.old.files self.new.files }
        ensures rest { self.new ≡ record self.old {
          files = self.new.files;
          calls = one_more self.old.calls;
          write_faults = self.new.write_faults;
        } }
    {
        let listed = next_call(&mut self.calls, &self.fails);
        if listed || !clear_under(&mut self.files, name) {
            return Err(count_fault(&mut self.write_faults));
        }
        Ok(())
    }

    fn append(&mut self, name: &str, bytes: &[u8]) -> Result<(), Failed>
        ensures gained { OnOk result
            (HasGained name.now bytes.now (told self.old.files) (told self.new.files)) }
        ensures others { KeepsOthers name.now (told self.old.files) (told self.new.files) }
        ensures failed { OnErr result
            (HasGainedPrefix name.now bytes.now (told self.old.files) (told self.new.files)) }
        ensures missed { IsMissing name.now (told self.old.files) →
            told self.new.files ≡ told self.old.files }
        ensures cause { HasCause (IsMissing name.now (told self.old.files))
            self.old.write_faults self.new.write_faults
            self.old.read_faults self.new.read_faults result }

        // It fails exactly at a miss, at a listed number and past the room. Past the room it adds
        // nothing, and a listed call within the room keeps the first half.
        ensures exact { FailsExactly (IsMissing name.now (told self.old.files))
            (Contains self.old.fails self.old.calls
            ⊎ PassesRoom self.old.files name.now (length bytes.now))
            self.old.write_faults self.new.write_faults result }
        ensures full { PassesRoom self.old.files name.now (length bytes.now) →
            self.new.files ≡ self.old.files }
        ensures half { OnErr result (FitsRoom self.old.files name.now (length bytes.now) →
            HasGained name.now (take (length bytes.now / 2) bytes.now)
            (told self.old.files) (told self.new.files)) }
        ensures rooms { KeepsRooms self.old.files self.new.files }
        ensures rest { self.new ≡ record self.old {
          files = self.new.files;
          calls = one_more self.old.calls;
          write_faults = self.new.write_faults;
        } }
    {
        let listed = next_call(&mut self.calls, &self.fails);
        let Some(free) = free_under(&self.files, name) else {
            return Err(Failed);
        };
        if free < bytes.len() {
            return Err(count_fault(&mut self.write_faults));
        }
        if listed {
            add_under(&mut self.files, name, &bytes[..bytes.len() / 2]);
            return Err(count_fault(&mut self.write_faults));
        }
        add_under(&mut self.files, name, bytes);
        Ok(())
    }
}

#[cfg(test)]
mod tests {
    use super::*;
    use std::test::Fail;

    /// A file `a` of three bytes in a room of five, and a name `b` with a room that is not held.
    fn example(rt: &HostRuntime, listed: &[u64]) -> Result<MemoryFolder, AllocError> {
        let fails = List::from_slice(rt.alloc(), listed)?;
        let mut folder = MemoryFolder::new(rt.alloc(), fails)?;
        folder.put_file("a", b"abc")?;
        folder.make_room("a", 5)?;
        folder.make_room("b", 1)?;
        Ok(folder)
    }

    #[test]
    fn reads_and_writes_what_is_held(rt: HostRuntime) -> Result<(), Fail> {
        let mut folder = example(&rt, &[])?;
        let mut read = [0u8; 2];
        assert_eq!(rt; folder.length("a"), Ok(3));
        assert_eq!(rt; folder.read_exact_at("a", 1, &mut read), Ok(()));
        assert_eq!(rt; read, *b"bc");
        assert_eq!(rt; folder.append("a", b"de"), Ok(()));
        assert_eq!(rt; folder.create("b"), Ok(()));
        assert_eq!(rt; folder.file("a"), Some(b"abcde".as_slice()));
        assert_eq!(rt; folder.length("b"), Ok(0));
        assert_eq!(rt; (folder.read_faults, folder.write_faults), (0, 0));
        Ok(())
    }

    #[test]
    fn a_miss_counts_no_fault_and_a_passed_room_does(rt: HostRuntime) -> Result<(), Fail> {
        let mut folder = example(&rt, &[])?;
        let mut read = [0u8; 2];
        assert_eq!(rt; folder.length("b"), Err(Failed));
        assert_eq!(rt; folder.read_exact_at("a", 2, &mut read), Err(Failed));
        assert_eq!(rt; folder.append("b", b"d"), Err(Failed));
        assert_eq!(rt; (folder.read_faults, folder.write_faults), (0, 0));
        assert_eq!(rt; folder.append("a", b"def"), Err(Failed));
        assert_eq!(rt; folder.create("c"), Err(Failed));
        assert_eq!(rt; folder.file("a"), Some(b"abc".as_slice()));
        assert_eq!(rt; (folder.read_faults, folder.write_faults), (0, 2));
        Ok(())
    }

    #[test]
    fn listed_calls_fail_and_a_listed_append_keeps_half(rt: HostRuntime) -> Result<(), Fail> {
        let mut folder = example(&rt, &[1, 2, 4])?;
        let mut read = [0u8; 2];
        assert_eq!(rt; folder.length("a"), Ok(3));
        assert_eq!(rt; folder.length("a"), Err(Failed));
        assert_eq!(rt; folder.read_exact_at("a", 0, &mut read), Err(Failed));
        assert_eq!(rt; folder.read_exact_at("a", 0, &mut read), Ok(()));
        folder.make_room("a", 8)?;
        assert_eq!(rt; folder.append("a", b"defgh"), Err(Failed));
        assert_eq!(rt; folder.file("a"), Some(b"abcde".as_slice()));
        assert_eq!(rt; (folder.read_faults, folder.write_faults), (2, 1));
        Ok(())
    }
}
