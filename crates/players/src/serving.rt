//! Sub-blocks of samples: those of the block that comes into the graph, and those that a processor gives.

ghost use Rattle.std.specs.Prelude.{◌≡◌, ℕ, ◌+◌, ◌*◌, ◌^◌, ◌<◌, ◌≤◌, ◌++◌, suc, pos, length, slice_index_or, get_or};
ghost use Rattle.graph_model.specs.Blocks.{planar_frame};
ghost use Rattle.graph_model.specs.Histories.{History, before, frame_in};
ghost use Rattle.graph_model.specs.Kernels.{IsFrameWithin};
ghost use Rattle.graph_model.specs.Kinds.{ins_of, outs_of, rule_of};
ghost use Rattle.fixed_kernels.specs.Kernels.{Keeps};

use processors::{Kernel, Processor};

/// The sample of a channel in a frame of the block, zero past its channels.
fn sample_at(input: &[i64], channels: usize, frame: usize, channel: usize) -> i64
    requires { frame * channels + channels ≤ length input.now }
    ensures { result ≡ slice_index_or (frame_in channels input.now frame) channel (pos 0) }
{
    if channel < channels {
        input[frame * channels + channel]
    } else {
        0
    }
}

/// Copies a channel of the frames from `first` on to a row.
fn enter_row(input: &[i64], channels: usize, first: usize, channel: usize, row: &mut [i64])
    requires entry { (first + length row.old) * channels ≤ length input.now }
    requires size { first + length row.old < 2 ^ 63 }
    ensures { (t : ℕ) → t < length row.old
        → slice_index_or row.new t (pos 0) ≡ slice_index_or (frame_in channels input.now (first + t)) channel (pos 0) }
{
    for t in 0..row.len() {
        row[t] = sample_at(input, channels, first + t, channel);
    }
}

/// Copies a sub-block of the block that comes into the graph: the sample of channel c in frame t goes to c * count + t.
pub fn enter(
    input: &[i64],
    channels: usize,
    first: usize,
    count: usize,
    outs: usize,
    told: &mut [i64],
)
    requires entry { (first + count) * channels ≤ length input.now }
    requires size { first + count < 2 ^ 63 }
    requires told { outs * count ≤ length told.old }
    ensures { (c t : ℕ) → c < outs → t < count
        → slice_index_or told.new (c * count + t) (pos 0) ≡ slice_index_or (frame_in channels input.now (first + t)) c (pos 0) }
{
    for c in 0..outs {
        let base = c * count;
        enter_row(input, channels, first, c, &mut told[base..base + count]);
    }
}

/// Takes a sub-block of frames through a processor.
pub fn process(
    processor: &mut Processor,
    count: usize,
    ins: usize,
    outs: usize,
    sums: &[i64],
    told: &mut [i64],
)
    requires ins { ins ≡ ins_of processor.old.kind }
    requires outs { outs ≡ outs_of processor.old.kind }
    requires sums { ins * count ≤ length sums.now }
    requires told { outs * count ≤ length told.old }
    requires within { (t : ℕ) → t < count → IsFrameWithin processor.old.bound.ins (planar_frame ins count sums.now t) }
    ensures kind { processor.new.kind ≡ processor.old.kind }
    ensures bound { processor.new.bound ≡ processor.old.bound }
    ensures keeps { (h : History) → Keeps processor.old h → Keeps processor.new (before (planar_frame ins count sums.now) count ++ h) }
    ensures told { (h : History) (c t : ℕ) → Keeps processor.old h → c < outs → t < count
        → slice_index_or told.new (c * count + t) (pos 0)
        ≡ slice_index_or (rule_of processor.old.kind (before (planar_frame ins count sums.now) (suc t) ++ h)) c (pos 0) }
{
    processor.process_block(count, &sums[..ins * count], &mut told[..outs * count]);
}
