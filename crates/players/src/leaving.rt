//! The exit: the frames that go out of the graph.

ghost use Rattle.std.specs.Prelude.{◌≡◌, ℕ, ◌*◌, ◌<◌, ◌≤◌, pos, [], length, replicate, slice_index_or, IfOk};
ghost use Rattle.delay_lines.specs.Lines.{kept};
ghost use Rattle.players.specs.Reads.{lengths_of, part};

use crate::playing::SUB;
use delay_lines::Line;
use std::alloc::{AllocError, Global};

/// The frames that the lines of the exit hold.
const HELD: u64 = 8192;

/// The newest frames of the exit, a line for each channel. Those count that came after the first `start`.
#[derive(Drop)]
pub struct Leaving {
    pub lines: Vec<Line>,
    pub start: u64,
    pub spare: Vec<i64>,
}

/// Passes a sub-block into the lines: the sample of channel c in frame t stands at c * count + t.
fn leave_rows(lines: &mut [Line], count: usize, rows: &[i64], spare: &mut [i64])
    requires rows { length lines.old * count ≤ length rows.now }
    requires spare { count ≤ length spare.old }
    ensures { (d : ℕ) → d < length lines.old
        → slice_index_or lines.new d [] ≡ kept (slice_index_or lines.old d []) (part (d * count) count rows.now) }
{
    for d in 0..lines.len() {
        let base = d * count;
        lines[d].pass_block(&rows[base..base + count], &mut spare[..count]);
    }
}

/// So many zeros.
pub fn zeros(alloc: Global, len: usize) -> Result<Vec<i64>, AllocError>
    ensures { IfOk result (λ list. list.items ≡ replicate len (pos 0)) }
{
    Ok(vec![in alloc; 0; len]?)
}

impl Leaving {
    /// So many channels, which hold zeros. It fails only for want of memory.
    pub fn new(alloc: Global, channels: usize) -> Result<Leaving, AllocError>
        ensures { IfOk result (λ e. (lengths_of e.lines.items ≡ replicate channels 8192) × (length e.spare.items ≡ 64)) }
    {
        let mut lines = Vec::new(alloc);
        for _ in 0..channels {
            lines.push(Line::new(alloc, HELD)?)?;
        }
        let spare = zeros(alloc, SUB)?;
        Ok(Leaving {
            lines,
            start: 0,
            spare,
        })
    }

    /// Takes a sub-block: the sample of channel c in frame t stands at c * count + t.
    pub fn leave(&mut self, count: usize, rows: &[i64])
        requires rows { length self.old.lines.items * count ≤ length rows.now }
        requires spare { count ≤ length self.old.spare.items }
        ensures start { self.new.start ≡ self.old.start }
        ensures spare { length self.new.spare.items ≡ length self.old.spare.items }
        ensures count { length self.new.lines.items ≡ length self.old.lines.items }
        ensures lines { (d : ℕ) → d < length self.old.lines.items
            → slice_index_or self.new.lines.items d [] ≡ kept (slice_index_or self.old.lines.items d []) (part (d * count) count rows.now) }
    {
        leave_rows(
            self.lines.as_mut_slice(),
            count,
            rows,
            self.spare.as_mut_slice(),
        );
    }
}
