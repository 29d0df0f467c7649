//! The limiter.

ghost use Rattle.std.specs.Prelude.{◌≡◌, ℕ, ◌+◌, ◌*◌, ◌<◌, ◌≤◌, ◌^◌, ◌⊎◌, [], ◌∷◌, ◌++◌, List, IfOk, drop, length, slice_index_or, unsigned_abs};
ghost use Rattle.std.specs.List.{All};
ghost use Rattle.graph_model.specs.Bounds.{IsWithin};
ghost use Rattle.graph_model.specs.Histories.{History, frame_in};
ghost use Rattle.graph_model.specs.Kinds.{ins_of, latency_of, outs_of};
ghost use Rattle.graph_model.specs.Ranges.{HasRange};
ghost use Rattle.limiter_kernel.specs.Going.{GoesOn};
ghost use Rattle.limiter_kernel.specs.Following.{AreGains};
ghost use Rattle.limiter_kernel.specs.Gains.{AreLimited, IsQuieter, late, scale_to};
ghost use Rattle.limiter_kernel.specs.Minima.{running_minima};
ghost use Rattle.graph_model.specs.Blocks.{planar, planar_frame};
ghost use Rattle.graph_model.specs.Kernels.{IsBoundOf};
ghost use Rattle.fixed_kernels.specs.Kernels.{IsNew, IsNextBlock, IsNextFrame, Keeps, TakesBlock, TakesFrame};
ghost use Rattle.fixed_kernels.specs.Streams.{streams_are_causal, streams_are_quiet};
ghost use Rattle.limiter_kernel.specs.Types.{IsLimiter, threshold_of};

use crate::average::MovingAverage;
use crate::gain::{UNITY, limit_row, scale_of, write_peaks};
use crate::lines::{Past, silent_pasts};
use crate::minimum::SlidingMinimum;
use fixed_kernels::Kernel;
use graph_model::{Bound, Kind};
use std::alloc::{AllocError, Global};
use std::marker::Model;

/// A look-ahead limiter: no output passes the threshold in size. The frame that goes out is the one that came
/// `lookahead` frames before, or zeros, times a gain. The scale of a frame brings its peak, over all channels, down to
/// the threshold, and is 1 where the peak is not above it; the gain is the mean, over the last `lookahead + 1` frames,
/// of the least scale of the `lookahead + 1` frames up to each. Scales and gains are whole numbers of 2^-30, rounded
/// down, and samples are rounded toward zero.
#[derive(Drop)]
pub struct Limiter {
    threshold: u64,
    lookahead: u32,
    /// How large the samples can be, as it was given to `make`.
    bound: Bound,
    /// The last `lookahead + 1` input samples of each channel.
    lines: Vec<Past>,
    /// The least of the scales of those frames.
    scales: SlidingMinimum,
    /// The mean of the last `lookahead + 1` of these least scales.
    lowests: MovingAverage,
}

impl Model for Limiter {
    ghost use Rattle.graph_model.specs.Kernels.{KernelState};
    ghost use Rattle.limiter_kernel.specs.States.{AreLimiterFields, limiter_state};

    ghost Value = { KernelState };

    ghost view = { λ k. limiter_state k.threshold k.lookahead k.bound k.lines.items k.lowests };

    ghost invariant = { λ k. AreLimiterFields k.threshold k.lookahead k.bound k.lines.items k.scales k.lowests };
}

impl Limiter {
    /// A limiter that nothing has come into, whose samples are within these bounds, one for each channel. All its
    /// memory is taken here, and it fails only for want of it.
    pub fn make(alloc: Global, kind: &Kind, bound: &Bound) -> Result<Self, AllocError>
        requires kind { IsLimiter kind.now }
        requires range { HasRange kind.now }
        requires bound { IsBoundOf kind.now bound.now }
        ensures { IfOk result (λ k. IsNew kind.now bound.now k) }
    {
        let Kind::Limiter {
            channels,
            threshold,
            lookahead,
        } = kind
        else {
            unreachable!()
        };
        let frames = *lookahead as usize + 1;
        Ok(Limiter {
            threshold: *threshold,
            lookahead: *lookahead,
            bound: bound.copy(alloc)?,
            lines: silent_pasts(alloc, *channels as usize, *lookahead as u64)?,
            scales: SlidingMinimum::new(alloc, frames, UNITY)?,
            lowests: MovingAverage::new(alloc, frames, UNITY)?,
        })
    }

    /// The same of a block of at most 64 frames.
    fn short_block(&mut self, frames: usize, ins: &[i64], outs: &mut [i64])
        requires few { frames ≤ 64 }
        requires block { TakesBlock self.old frames ins.now outs.old }
        ensures { IsNextBlock self.old self.new frames ins.now outs.new }
    {
        let mut room = [0u64; 64];
        let gains = &mut room[..frames];
        write_peaks(self.lines.len(), ins, gains);
        find_gains(self.threshold, &mut self.scales, &mut self.lowests, gains);
        limit_rows(&mut self.lines, self.bound.ins.as_slice(), gains, ins, outs);
    }
}

impl Kernel for Limiter {
    ghost state = { λ kernel. kernel };

    ghost causal = { streams_are_causal };

    ghost quiet = { streams_are_quiet };

    fn process_block(&mut self, frames: usize, ins: &[i64], outs: &mut [i64]) {
        if frames <= 64 {
            self.short_block(frames, ins, outs);
        } else {
            let channels = self.lines.len();
            frame_by_frame(self, channels, frames, ins, outs);
        }
    }

    fn frame(&mut self, ins: &[i64], outs: &mut [i64])
        requires { TakesFrame self.old ins.now outs.old }
        ensures next { IsNextFrame self.old self.new ins.now outs.new }

        // No output exceeds the threshold, nor the sample that it is made of.
        ensures threshold { All (λ y. unsigned_abs y ≤ threshold_of self.old.kind) outs.new }
        ensures quieter { (h : History) → Keeps self.old h →
            IsQuieter outs.new (slice_index_or (ins.now ∷ h) (latency_of self.old.kind) []) }
    {
        let _ = &self.threshold;
        self.short_block(1, ins, outs);
    }
}

/// Turns the peak of each frame into its gain: the mean of the last least scales.
fn find_gains(
    threshold: u64,
    scales: &mut SlidingMinimum,
    lowests: &mut MovingAverage,
    room: &mut [u64],
)
    requires some { 0 < length lowests.old }
    requires few { length lowests.old ≤ 2 ^ 20 }
    requires small { All (λ m. m ≤ 2 ^ 30) lowests.old }
    ensures { (xs : List ℕ) → scales.old ≡ running_minima xs → All (λ x. x ≤ 2 ^ 30) xs →
        AreGains (λ t. scale_to threshold (slice_index_or room.old t 0)) xs lowests.old (length room.old) scales.new lowests.new room.new }
{
    for t in 0..room.len() {
        let lowest = scales.push(scale_of(threshold, room[t]));
        room[t] = lowests.push(lowest);
    }
}

/// Passes the row of each channel through its line, and turns down what comes out. No sample of it is larger than the
/// bound of its channel.
fn limit_rows(lines: &mut [Past], bounds: &[u64], gains: &[u64], ins: &[i64], outs: &mut [i64])
    requires gains { (t : ℕ) → t < length gains.now → slice_index_or gains.now t 0 ≤ 2 ^ 30 }
    requires ins { length ins.now ≡ length lines.old * length gains.now }
    requires outs { length outs.old ≡ length lines.old * length gains.now }
    requires bounds { length bounds.now ≡ length lines.old }
    requires most { (c : ℕ) → slice_index_or bounds.now c 0 ≤ 2 ^ 46 }
    requires small { (c t : ℕ) → c < length lines.old → t < length gains.now →
        unsigned_abs (late (slice_index_or lines.old c []) (frame_in (length gains.now) ins.now c) t) ≤ slice_index_or bounds.now c 0 }
    ensures lines { (c : ℕ) → c < length lines.old → slice_index_or lines.new c []
        ≡ drop (length gains.now) (slice_index_or lines.old c [] ++ frame_in (length gains.now) ins.now c) }
    ensures values { (c : ℕ) → c < length lines.old →
        AreLimited (slice_index_or lines.old c []) (frame_in (length gains.now) ins.now c) gains.now
        (frame_in (length gains.now) outs.new c) }
{
    let frames = gains.len();
    for c in 0..lines.len() {
        let from = c * frames;
        let most = bounds[c];
        limit_channel(
            &mut lines[c],
            most,
            gains,
            &ins[from..from + frames],
            &mut outs[from..from + frames],
        );
    }
}

/// The same of one channel.
fn limit_channel(line: &mut Past, most: u64, gains: &[u64], row: &[i64], out: &mut [i64])
    requires gains { (t : ℕ) → t < length gains.now → slice_index_or gains.now t 0 ≤ 2 ^ 30 }
    requires row { length row.now ≡ length gains.now }
    requires out { length out.old ≡ length gains.now }
    requires most { most ≤ 2 ^ 46 }
    requires small { (t : ℕ) → t < length gains.now → unsigned_abs (late line.old row.now t) ≤ most }
    ensures line { line.new ≡ drop (length gains.now) (line.old ++ row.now) }
    ensures values { AreLimited line.old row.now gains.now out.new }
{
    line.pass_block(row, out);
    limit_row(gains, most, out);
}

/// Takes the frames of a block one by one.
fn frame_by_frame(
    limiter: &mut Limiter,
    channels: usize,
    frames: usize,
    ins: &[i64],
    outs: &mut [i64],
)
    requires few { channels ≤ 32 }
    requires ins_of { channels ≡ ins_of limiter.old.kind }
    requires outs_of { channels ≡ outs_of limiter.old.kind }
    requires ins { length ins.now ≡ channels * frames }
    requires outs { length outs.old ≡ channels * frames }
    requires within { IsWithin limiter.old.bound.ins (planar channels frames ins.now) }
    ensures { GoesOn channels frames ins.now frames limiter.old limiter.new outs.new }
{
    for t in 0..frames {
        let mut from = [0i64; 32];
        let mut to = [0i64; 32];
        gather(ins, frames, t, &mut from[..channels]);
        limiter.frame(&from[..channels], &mut to[..channels]);
        scatter(&to[..channels], frames, t, outs);
    }
}

/// Copies frame t of a block.
fn gather(ins: &[i64], frames: usize, t: usize, frame: &mut [i64])
    requires frame { t < frames }
    requires ins { length ins.now ≡ length frame.old * frames }
    ensures { frame.new ≡ planar_frame (length frame.old) frames ins.now t }
{
    for c in 0..frame.len() {
        frame[c] = ins[c * frames + t];
    }
}

/// Writes frame t of a block.
fn scatter(frame: &[i64], frames: usize, t: usize, outs: &mut [i64])
    requires frame { t < frames }
    requires outs { length outs.old ≡ length frame.now * frames }
    ensures here { planar_frame (length frame.now) frames outs.new t ≡ frame.now }
    ensures others { (s : ℕ) → s < frames → (s < t) ⊎ (t < s) →
        planar_frame (length frame.now) frames outs.new s ≡ planar_frame (length frame.now) frames outs.old s }
{
    for c in 0..frame.len() {
        outs[c * frames + t] = frame[c];
    }
}
