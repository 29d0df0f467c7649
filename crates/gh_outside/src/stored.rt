//! Files in memory: each name with its room, and the look-ups by name.

ghost use Rattle.std.specs.Prelude.{◌≡◌, ◌≢◌, ℕ, ◌+◌, ◌≤◌, ◌++◌, [], List, length, max, false, Some, None, IsTrue, IsSome, IfSome, IsSomeAnd, IfOk, OnOk, OnErr, MatchOption, ◌↔◌, option_map, unwrap_or};
ghost use Rattle.std.specs.Option.{option_copied};
ghost use Rattle.std.specs.List.{position};
ghost use Rattle.gh_outside.specs.Memory.{is_named, holding, room_of, HasFree, KeepsRooms};

use std::alloc::{AllocError, Global};
use std::marker::Model;

/// A name with its room, which its bytes never pass. The memory of the room is taken already.
#[derive(Drop)]
pub(crate) struct Stored {
    name: String,
    bytes: Vec<u8>,
    is_held: bool,
    room: u64,
}

impl Model for Stored {
    ghost use Rattle.std.specs.Prelude.{◌≤◌, Some, None, cond, vec_capacity, vec_len, string_bytes};
    ghost use Rattle.gh_outside.specs.Memory.{StoredFile};

    ghost Value = { StoredFile };

    ghost view = { λ a. record {
      name = string_bytes a.name;
      held = cond a.is_held (Some a.bytes.items) None;
      room = a.room;
    } };

    ghost invariant = { λ a. (a.room ≤ vec_capacity a.bytes) × (vec_len a.bytes ≤ a.room) };
}

impl Stored {
    /// A name that is not held, with its room in bytes.
    pub(crate) fn new(alloc: Global, name: &str, room: u64) -> Result<Stored, AllocError>
        ensures { IfOk result (λ s. s ≡ record { name = name.now; held = None; room = room }) }
    {
        Ok(Stored {
            name: String::from_str(alloc, name)?,
            bytes: Vec::with_capacity(alloc, room as usize)?,
            is_held: false,
            room,
        })
    }

    pub(crate) fn is_named(&self, name: &str) -> bool
        ensures { result ≡ is_named name.now self.now }
    {
        self.name.as_str() == name
    }

    /// The bytes, where the name is held.
    pub(crate) fn bytes(&self) -> Option<&[u8]>
        ensures { option_copied result ≡ self.now.held }
    {
        if self.is_held {
            Some(self.bytes.as_slice())
        } else {
            None
        }
    }

    /// How many bytes there is still room for, where the name is held.
    pub(crate) fn free(&self) -> Option<usize>
        ensures { MatchOption result (self.now.held ≡ None) (λ free.
            IsSomeAnd self.now.held (λ held. length held + free ≡ self.now.room)) }
    {
        if self.is_held {
            Some(self.room as usize - self.bytes.len())
        } else {
            None
        }
    }

    /// Makes the room no smaller than this.
    pub(crate) fn widen(&mut self, room: u64) -> Result<(), AllocError>
        ensures ok { OnOk result (self.new ≡ record self.old { room = max self.old.room room }) }
        ensures err { OnErr result (self.new ≡ self.old) }
    {
        if room <= self.room {
            return Ok(());
        }
        let more = room - self.bytes.len() as u64;
        self.bytes.reserve_exact(more as usize)?;
        self.room = room;
        Ok(())
    }

    /// Holds these bytes in place of what it held.
    pub(crate) fn fill(&mut self, bytes: &[u8])
        requires { length bytes.now ≤ self.old.room }
        ensures { self.new ≡ record self.old { held = Some bytes.now } }
    {
        self.bytes.clear();
        let _ = self.bytes.extend_from_slice(bytes);
        self.is_held = true;
    }

    /// Holds these bytes behind those that it held.
    pub(crate) fn add(&mut self, bytes: &[u8])
        requires { IfSome self.old.held (λ held.
            length held + length bytes.now ≤ self.old.room) }
        ensures { self.new ≡
            record self.old { held = option_map (λ held. held ++ bytes.now) self.old.held } }
    {
        if self.is_held {
            let _ = self.bytes.extend_from_slice(bytes);
        }
    }
}

/// The place of a name.
fn place_of(files: &[Stored], name: &str) -> Option<usize>
    ensures { result ≡ position (is_named name.now) files.now }
{
    files.iter().position(|file| file.is_named(name))
}

/// The bytes that a name holds.
pub(crate) fn bytes_of<'a>(files: &'a [Stored], name: &str) -> Option<&'a [u8]>
    ensures { option_copied result ≡ holding files.now name.now }
{
    match place_of(files, name) {
        Some(at) => files[at].bytes(),
        None => None,
    }
}

/// How many bytes there is still room for under a name, where it is held.
pub(crate) fn free_under(files: &[Stored], name: &str) -> Option<usize>
    ensures { MatchOption result (holding files.now name.now ≡ None)
        (λ free. HasFree files.now name.now free) }
{
    match place_of(files, name) {
        Some(at) => files[at].free(),
        None => None,
    }
}

/// Adds bytes under a name that is held and has room for them.
pub(crate) fn add_under(files: &mut [Stored], name: &str, bytes: &[u8])
    requires { (free : ℕ) × HasFree files.old name.now free × (length bytes.now ≤ free) }
    ensures gained { (held : List ℕ) → holding files.old name.now ≡ Some held →
        holding files.new name.now ≡ Some (held ++ bytes.now) }
    ensures others { (other : List ℕ) → other ≢ name.now →
        holding files.new other ≡ holding files.old other }
    ensures rooms { KeepsRooms files.old files.new }
{
    if let Some(at) = place_of(files, name) {
        files[at].add(bytes);
    }
}

/// Holds these bytes under a name that has room for them.
pub(crate) fn fill_under(files: &mut [Stored], name: &str, bytes: &[u8])
    requires { IfSome (room_of files.old name.now) (λ room. length bytes.now ≤ room) }
    ensures held { IsSome (room_of files.old name.now) →
        holding files.new name.now ≡ Some bytes.now }
    ensures others { (other : List ℕ) → other ≢ name.now →
        holding files.new other ≡ holding files.old other }
    ensures rooms { KeepsRooms files.old files.new }
{
    if let Some(at) = place_of(files, name) {
        files[at].fill(bytes);
    }
}

/// Leaves a name that has a room with no bytes, and says whether it has one.
pub(crate) fn clear_under(files: &mut [Stored], name: &str) -> bool
    ensures room { IsTrue result ↔ IsSome (room_of files.old name.now) }
    ensures made { IsTrue result → holding files.new name.now ≡ Some [] }
    ensures others { (other : List ℕ) → other ≢ name.now →
        holding files.new other ≡ holding files.old other }
    ensures rooms { KeepsRooms files.old files.new }
    ensures unchanged { result ≡ false → files.new ≡ files.old }
{
    match place_of(files, name) {
        Some(at) => {
            files[at].fill(&[]);
            true
        }
        None => false,
    }
}

/// Makes a name's room no smaller than this.
pub(crate) fn widen_under(
    alloc: Global,
    files: &mut Vec<Stored>,
    name: &str,
    room: u64,
) -> Result<(), AllocError>
    ensures room { OnOk result (room_of files.new.items name.now ≡
        Some (max (unwrap_or (room_of files.old.items name.now) 0) room)) }
    ensures rooms { (other : List ℕ) → other ≢ name.now →
        room_of files.new.items other ≡ room_of files.old.items other }
    ensures held { (other : List ℕ) →
        holding files.new.items other ≡ holding files.old.items other }
    ensures err { OnErr result (files.new.items ≡ files.old.items) }
{
    match place_of(files, name) {
        Some(at) => {
            let file = &mut files[at];
            file.widen(room)
        }
        None => {
            files.push(Stored::new(alloc, name, room)?)?;
            Ok(())
        }
    }
}
