//! A sub-block of all that comes into a node.

ghost use Rattle.std.specs.Prelude.{◌≡◌, ℕ, ◌+◌, ◌*◌, ◌^◌, ◌<◌, ◌≤◌, ◌⊎◌, ℤ, pos, ◌+ℤ◌, List, [], length, slice_index_or, FitsSigned, IfSome, IsSome, ◌↔◌};
ghost use Rattle.std.specs.Int.{w64};
ghost use Rattle.std.specs.List.{All, Contains};
ghost use Rattle.delay_lines.specs.Lines.{kept, passed};
ghost use Rattle.engine_model.specs.Machines.{sum_on};
ghost use Rattle.players.specs.Reads.{AreAlone, CanRead, IsAlone, IsSet, KnowFirst, SumsFit, begun, channels_of, lines_after, source, taps_at};

use delay_lines::Line;
use pool_waves::Buffer;

/// A connection into a node: the input channel that it feeds, the buffer that it reads, which of the node's own values
/// has that buffer, if one has, and whether it is the first to feed its channel.
#[derive(Clone, Copy)]
pub struct Wire {
    pub channel: usize,
    pub buffer: usize,
    pub own: Option<usize>,
    pub first: bool,
}

impl Wire {
    /// The buffer that it reads.
    fn source<'a>(&self, pool: &'a [Buffer], outs: &'a [Buffer]) -> &'a Buffer
        requires { CanRead pool.now outs.now 0 self.now }
        ensures { result.now ≡ source pool.now outs.now self.now }
    {
        match self.own {
            Some(i) => &outs[i],
            None => &pool[self.buffer],
        }
    }
}

/// Adds a sample to each sum.
fn add(samples: &[i64], sums: &mut [i64])
    requires count { length sums.old ≡ length samples.now }
    requires fit { (t : ℕ) → t < length samples.now
        → FitsSigned w64 (slice_index_or sums.old t (pos 0) +ℤ slice_index_or samples.now t (pos 0)) }
    ensures { (t : ℕ) → t < length samples.now
        → slice_index_or sums.new t (pos 0) ≡ slice_index_or sums.old t (pos 0) +ℤ slice_index_or samples.now t (pos 0) }
{
    for t in 0..samples.len() {
        sums[t] += samples[t];
    }
}

/// Passes samples through a line. What comes out stands in the row then, or is added to it where the row has begun.
fn pour(first: bool, line: &mut Line, samples: &[i64], row: &mut [i64], spare: &mut [i64])
    requires row { length row.old ≡ length samples.now }
    requires spare { length spare.old ≡ length samples.now }
    requires fit { (t : ℕ) → t < length samples.now
        → FitsSigned w64 (begun first (slice_index_or row.old t (pos 0)) +ℤ slice_index_or (passed line.old samples.now) t (pos 0)) }
    ensures line { line.new ≡ kept line.old samples.now }
    ensures row { (t : ℕ) → t < length samples.now
        → slice_index_or row.new t (pos 0)
        ≡ begun first (slice_index_or row.old t (pos 0)) +ℤ slice_index_or (passed line.old samples.now) t (pos 0) }
{
    if line.is_empty() {
        if first {
            row.copy_from_slice(samples);
        } else {
            add(samples, row);
        }
    } else if first {
        line.pass_block(samples, row);
    } else {
        line.pass_block(samples, spare);
        add(spare, row);
    }
}

/// The same where the row begins at `base`.
fn pour_row(
    first: bool,
    line: &mut Line,
    samples: &[i64],
    base: usize,
    sums: &mut [i64],
    spare: &mut [i64],
)
    requires room { base + length samples.now ≤ length sums.old }
    requires spare { length samples.now ≤ length spare.old }
    requires fit { (t : ℕ) → t < length samples.now
        → FitsSigned w64 (begun first (slice_index_or sums.old (base + t) (pos 0))
        +ℤ slice_index_or (passed line.old samples.now) t (pos 0)) }
    ensures line { line.new ≡ kept line.old samples.now }
    ensures sums { (t : ℕ) → t < length samples.now
        → slice_index_or sums.new (base + t) (pos 0)
        ≡ begun first (slice_index_or sums.old (base + t) (pos 0)) +ℤ slice_index_or (passed line.old samples.now) t (pos 0) }
    ensures rest { (j : ℕ) → (j < base) ⊎ (base + length samples.now ≤ j)
        → slice_index_or sums.new j (pos 0) ≡ slice_index_or sums.old j (pos 0) }
{
    let count = samples.len();
    pour(
        first,
        line,
        samples,
        &mut sums[base..base + count],
        &mut spare[..count],
    );
}

/// Makes the rows of these channels zeros.
fn silence(channels: &[usize], count: usize, sums: &mut [i64])
    requires room { All (λ d. d * count + count ≤ length sums.old) channels.now }
    ensures { (d t : ℕ) → Contains channels.now d → t < count → slice_index_or sums.new (d * count + t) (pos 0) ≡ pos 0 }
{
    for channel in channels {
        let base = *channel * count;
        sums[base..base + count].fill(0);
    }
}

/// Takes a sub-block of a node's inputs, from the frame `first` on, each through its line, and sums them per channel:
/// the sample of channel d in frame t stands at d * count + t. The rows of the channels that no wire feeds are in
/// `silent`.
pub fn gather(
    wires: &[Wire],
    silent: &[usize],
    pool: &[Buffer],
    outs: &[Buffer],
    first: usize,
    count: usize,
    lines: &mut [Line],
    sums: &mut [i64],
    spare: &mut [i64],
)
    requires lines { length lines.old ≡ length wires.now }
    requires size { first + count < 2 ^ 63 }
    requires channels { (i : ℕ) (d : _) → i < length wires.now → (slice_index_or wires.now i d).channel * count + count ≤ length sums.old }
    requires silent { All (λ d. d * count + count ≤ length sums.old) silent.now }
    requires first { KnowFirst wires.now }
    requires sources { (i : ℕ) (d : _) → i < length wires.now → CanRead pool.now outs.now (first + count) (slice_index_or wires.now i d) }
    requires fit { (t : ℕ) → t < count → SumsFit (channels_of wires.now) (taps_at wires.now pool.now outs.now first count lines.old t) }
    requires spare { count ≤ length spare.old }
    ensures lines { lines.new ≡ lines_after wires.now pool.now outs.now first count lines.old }
    ensures sums { (d t : ℕ) → IsSet (channels_of wires.now) silent.now d → d * count + count ≤ length sums.old → t < count
        → slice_index_or sums.new (d * count + t) (pos 0)
        ≡ sum_on d (channels_of wires.now) (taps_at wires.now pool.now outs.now first count lines.old t) }
{
    silence(silent, count, sums);
    for i in 0..wires.len() {
        let wire = wires[i];
        let samples = &wire.source(pool, outs).as_slice()[first..first + count];
        pour_row(
            wire.first,
            &mut lines[i],
            samples,
            wire.channel * count,
            sums,
            spare,
        );
    }
}

/// The samples of a sub-block, from the frame `first` on, where they are all that comes in: by one wire, without delay,
/// to the only channel.
pub fn alone<'a>(
    wires: &[Wire],
    lines: &[Line],
    ins: usize,
    pool: &'a [Buffer],
    outs: &'a [Buffer],
    first: usize,
    count: usize,
) -> Option<&'a [i64]>
    requires lines { length lines.now ≡ length wires.now }
    requires size { first + count < 2 ^ 63 }
    requires sources { (i : ℕ) (d : _) → i < length wires.now → CanRead pool.now outs.now (first + count) (slice_index_or wires.now i d) }
    ensures samples { IfSome result (λ samples. IsAlone wires.now lines.now ins pool.now outs.now first count samples.now) }
    ensures found { IsSome result ↔ AreAlone wires.now lines.now ins }
{
    if ins != 1 || wires.len() != 1 {
        return None;
    }
    if !lines[0].is_empty() {
        return None;
    }
    Some(&wires[0].source(pool, outs).as_slice()[first..first + count])
}
