//! Files by name.

ghost use Rattle.std.specs.Prelude.{◌≡◌, ℕ, ◌+◌, [], length, IfOk, OnOk, OnErr, Option, slice_range};
ghost use Rattle.gh_outside.specs.Causes.{HasCause};
ghost use Rattle.gh_outside.specs.Holdings.{Holding, IsMissing, IsPast, HeldBytes, Holds, KeepsOthers, HasGained, HasGainedPrefix};

/// A call of the outside failed.
#[derive(Clone, Copy, Debug, PartialEq, Eq)]
pub struct Failed;

/// Files by name, and the counts of the reads and of the writes that failed.
///
/// A folder may tell what it holds or not, and no call changes whether it does. Where it tells, a
/// call misses if it reads or appends to a name that is not held, or reads past the end of a file.
/// A miss fails, changes nothing and leaves both counts, so that no caller can raise a count by
/// asking for what is not there. Each other failure raises the count of its kind. A count never
/// falls, and stops at the last number of 64 bits.
pub trait Folder {
    /// The bytes of each name that is held, where the folder tells them.
    ghost held: { Self → Option Holding };

    /// How often a read has failed that was no miss.
    ghost read_faults: { Self → ℕ };

    /// How often a write has failed that was no miss.
    ghost write_faults: { Self → ℕ };

    /// The number of bytes under a name.
    ///
    /// It fails at a name that is not held, and where a read fails.
    fn length(&mut self, name: &str) -> Result<u64, Failed>
        ensures held { held self.new ≡ held self.old }
        ensures bytes { IfOk result (λ n.
            HeldBytes name.now (held self.old) (λ bytes. n ≡ length bytes)) }
        ensures cause { HasCause (IsMissing name.now (held self.old))
            (read_faults self.old) (read_faults self.new)
            (write_faults self.old) (write_faults self.new) result };

    /// Reads the bytes under a name, from the offset `from` on, until `into` is full.
    ///
    /// It fails at a name that is not held, where the file ends before that, and where a read
    /// fails. A failure that is no miss may leave any bytes in `into`.
    fn read_exact_at(&mut self, name: &str, from: u64, into: &mut [u8]) -> Result<(), Failed>
        ensures held { held self.new ≡ held self.old }
        ensures bytes { OnOk result (HeldBytes name.now (held self.old)
            (λ bytes. into.new ≡ slice_range bytes from (from + length into.old))) }
        ensures missed { IsPast name.now (from + length into.old) (held self.old) →
            into.new ≡ into.old }
        ensures cause { HasCause (IsPast name.now (from + length into.old) (held self.old))
            (read_faults self.old) (read_faults self.new)
            (write_faults self.old) (write_faults self.new) result };

    /// Makes the name hold no bytes, whether it was held or not.
    ///
    /// It fails where a write fails, and then the name has what it had.
    fn create(&mut self, name: &str) -> Result<(), Failed>
        ensures made { OnOk result (Holds name.now [] (held self.new)) }
        ensures others { KeepsOthers name.now (held self.old) (held self.new) }
        ensures failed { OnErr result (held self.new ≡ held self.old) }
        ensures cause { HasCause ⊥ (write_faults self.old) (write_faults self.new)
            (read_faults self.old) (read_faults self.new) result };

    /// Adds the bytes at the end of what the name holds.
    ///
    /// It fails at a name that is not held, and where a write fails. Then the first of the bytes
    /// may have been added, or none of them.
    fn append(&mut self, name: &str, bytes: &[u8]) -> Result<(), Failed>
        ensures gained { OnOk result
            (HasGained name.now bytes.now (held self.old) (held self.new)) }
        ensures others { KeepsOthers name.now (held self.old) (held self.new) }
        ensures failed { OnErr result
            (HasGainedPrefix name.now bytes.now (held self.old) (held self.new)) }
        ensures missed { IsMissing name.now (held self.old) → held self.new ≡ held self.old }
        ensures cause { HasCause (IsMissing name.now (held self.old))
            (write_faults self.old) (write_faults self.new)
            (read_faults self.old) (read_faults self.new) result };
}
