//! Something that bytes are added to.

ghost use Rattle.std.specs.Prelude.{◌≡◌, ℕ, List, Option, None, OnOk, OnErr};
ghost use Rattle.gh_outside.specs.Causes.{HasCause};
ghost use Rattle.gh_outside.specs.Holdings.{GainsAll, GainsPrefix};

use crate::counts::count_fault;
use crate::folder::Failed;
use crate::tries::write_whole;
use std::io::Write;
use std::marker::Model;

/// Something that bytes are added to, and the count of the calls that failed.
///
/// A sink may tell what it holds or not, and no call changes whether it does. The count never
/// falls, and stops at the last number of 64 bits.
pub trait Sink {
    /// The bytes that were added, where the sink tells them.
    ghost bytes: { Self → Option (List ℕ) };

    /// How often a call has failed.
    ghost faults: { Self → ℕ };

    /// Adds the bytes at the end.
    ///
    /// It fails where a write fails, which raises the count. Then the first of the bytes may have
    /// been added, or none of them.
    fn put(&mut self, piece: &[u8]) -> Result<(), Failed>
        ensures gained { OnOk result (GainsAll piece.now (bytes self.old) (bytes self.new)) }
        ensures failed { OnErr result (GainsPrefix piece.now (bytes self.old) (bytes self.new)) }
        ensures cause { HasCause ⊥ (faults self.old) (faults self.new) 0 0 result };
}

/// A writer of std as a sink. It does not tell what it holds.
///
/// It is the trusted edge: no clause says which bytes reach the writer.
#[derive(Drop)]
pub struct WriterSink<W> {
    writer: W,
    faults: u64,
}

impl<W> Model for WriterSink<W> {
    ghost use Rattle.std.specs.Prelude.{ℕ};
    ghost use Rattle.gh_outside.specs.Causes.{IsCount};

    ghost Value = { ℕ };

    ghost view = { λ a. a.faults };

    ghost invariant = { λ a. IsCount a.faults };
}

impl<W: Write> WriterSink<W> {
    /// Takes the writer, with no fault counted yet.
    pub fn new(writer: W) -> WriterSink<W>
        ensures { ⟦<WriterSink<W> as Sink>⟧.faults result ≡ 0 }
    {
        WriterSink { writer, faults: 0 }
    }
}

impl<W: Write> Sink for WriterSink<W> {
    ghost bytes = { λ _. None };

    ghost faults = { λ s. s };

    /// Writes all the bytes and flushes the writer. A call that is interrupted is made again, and a
    /// writer that takes no more bytes is a fault.
    fn put(&mut self, piece: &[u8]) -> Result<(), Failed> {
        match write_whole(&mut self.writer, piece) {
            Ok(()) => Ok(()),
            Err(_) => Err(count_fault(&mut self.faults)),
        }
    }
}

#[cfg(test)]
mod tests {
    use super::*;
    use std::io::BufWriter;
    use std::test::Fail;

    #[test]
    fn a_put_flushes_the_writer(rt: HostRuntime) -> Result<(), Fail> {
        let mut sink = WriterSink::new(BufWriter::new(rt.alloc(), Vec::new(rt.alloc()))?);
        assert_eq!(rt; sink.put(b"abc"), Ok(()));
        assert_eq!(rt; sink.writer.get_ref().as_slice(), b"abc".as_slice());
        Ok(())
    }

    #[test]
    fn a_writer_that_is_full_is_a_fault(rt: HostRuntime) {
        let mut memory = [0u8; 5];
        let mut sink = WriterSink::new(memory.as_mut_slice());
        assert_eq!(rt; sink.put(b"abc"), Ok(()));
        assert_eq!(rt; sink.faults, 0);
        assert_eq!(rt; sink.put(b"def"), Err(Failed));
        assert_eq!(rt; sink.faults, 1);
        assert_eq!(rt; memory, *b"abcde");
    }
}
