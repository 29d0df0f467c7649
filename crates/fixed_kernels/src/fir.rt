//! Finite impulse responses.

ghost use Rattle.std.specs.Prelude.{◌≡◌, ℕ, ◌+◌, ◌*◌, ◌<◌, ◌≤◌, ◌^◌, ◌++◌, IfOk, drop, length, pos, slice_index_or, unsigned_abs};
ghost use Rattle.graph_model.specs.Bounds.{weight};
ghost use Rattle.graph_model.specs.Filters.{products};
ghost use Rattle.graph_model.specs.Histories.{frame_in};
ghost use Rattle.graph_model.specs.Ranges.{HasRange};
ghost use Rattle.graph_model.specs.Rounding.{rounded};
ghost use Rattle.fixed_kernels.specs.Sums.{AreWithin};
ghost use Rattle.graph_model.specs.Kernels.{IsBoundOf};
ghost use Rattle.fixed_kernels.specs.Kernels.{IsNew};
ghost use Rattle.fixed_kernels.specs.Streams.{streams_are_causal, streams_are_quiet};
ghost use Rattle.fixed_kernels.specs.Rows.{AreFedRows, filtered_at};
ghost use Rattle.fixed_kernels.specs.Types.{IsFir};

use crate::kernel::Kernel;
use crate::narrow::{four_half_sums, most_in, rs_narrow, weight_of};
use crate::products::{four_sums, sum_of_products};
use graph_model::{Bound, Kind, rs};
use std::alloc::{AllocError, Global};
use std::marker::Model;

/// How many samples of a row are filtered at once.
const PART: usize = 64;

/// A finite impulse response on each channel, over as many of the last samples as it has taps:
/// `y(n) = rs(sum over k of h(k) * x(n - k), shift)`, where `rs(a, q)` is `a / 2^q` rounded to the nearest, a half
/// upward (Oppenheim and Schafer, Discrete-Time Signal Processing).
#[derive(Drop)]
pub struct Fir {
    channels: u32,
    /// The last tap first.
    backward: Vec<i32>,
    shift: u32,
    latency: u32,
    bound: Bound,
    /// The last samples of each channel, the oldest first, channel by channel.
    past: Vec<i64>,
    /// Room for the last samples of a channel and a part of a row after them.
    line: Vec<i64>,
}

impl Model for Fir {
    ghost use Rattle.std.specs.Prelude.{◌≡◌, ◌+◌, ◌*◌, length};
    ghost use Rattle.graph_model.specs.Kernels.{KernelState};
    ghost use Rattle.fixed_kernels.specs.Kernels.{IsKernel};
    ghost use Rattle.fixed_kernels.specs.States.{fir_state};

    ghost Value = { KernelState };

    ghost view = { λ k. fir_state k.backward.items k.shift k.latency k.bound k.channels k.past.items };

    ghost invariant = { λ k.
        IsKernel (fir_state k.backward.items k.shift k.latency k.bound k.channels k.past.items)
        × (length k.past.items ≡ k.channels * length k.backward.items)
        × (length k.line.items ≡ length k.backward.items + 64) };
}

impl Fir {
    /// A filter that nothing has come into, of a kind in range and the bounds of such a node. It fails only for want of
    /// memory.
    pub fn make(alloc: Global, kind: &Kind, bound: &Bound) -> Result<Self, AllocError>
        requires kind { IsFir kind.now }
        requires range { HasRange kind.now }
        requires bound { IsBoundOf kind.now bound.now }
        ensures { IfOk result (λ k. IsNew kind.now bound.now k) }
    {
        let Kind::Fir {
            channels,
            taps,
            shift,
            latency,
        } = kind
        else {
            unreachable!()
        };
        let mut backward = Vec::from_slice(alloc, taps.as_slice())?;
        backward.reverse();
        let past = Vec::from_elem(alloc, 0i64, *channels as usize * backward.len())?;
        let line = Vec::from_elem(alloc, 0i64, backward.len() + PART)?;
        Ok(Fir {
            channels: *channels,
            backward,
            shift: *shift,
            latency: *latency,
            bound: bound.copy(alloc)?,
            past,
            line,
        })
    }
}

impl Kernel for Fir {
    ghost state = { λ kernel. kernel };

    ghost causal = { streams_are_causal };

    ghost quiet = { streams_are_quiet };

    fn process_block(&mut self, frames: usize, ins: &[i64], outs: &mut [i64]) {
        filter_rows(
            self.backward.as_slice(),
            self.shift,
            self.channels as usize,
            &mut self.past,
            &mut self.line,
            frames,
            ins,
            outs,
        );
    }
}

/// Filters each channel's row, after the samples that are kept of the channel.
fn filter_rows(
    taps: &[i32],
    shift: u32,
    channels: usize,
    past: &mut [i64],
    line: &mut [i64],
    frames: usize,
    ins: &[i64],
    outs: &mut [i64],
)
    requires taps { length taps.now ≤ 2 ^ 12 }
    requires shift { shift ≤ 30 }
    requires line { length line.old ≡ length taps.now + 64 }
    requires past { length past.old ≡ channels * length taps.now }
    requires ins { length ins.now ≡ channels * frames }
    requires outs { length outs.old ≡ channels * frames }
    requires fits { (c t : ℕ) → c < channels → t < frames →
        unsigned_abs (filtered_at taps.now shift (frame_in (length taps.now) past.old c ++ frame_in frames ins.now c) t) ≤ 2 ^ 46 }
    ensures past { AreFedRows channels (length taps.now) past.old frames ins.now past.new }
    ensures values { (c t : ℕ) → c < channels → t < frames →
        slice_index_or outs.new (c * frames + t) (pos 0)
        ≡ filtered_at taps.now shift (frame_in (length taps.now) past.old c ++ frame_in frames ins.now c) t }
{
    for c in 0..channels {
        let held = c * taps.len();
        let from = c * frames;
        filter_row(
            taps,
            shift,
            &mut past[held..held + taps.len()],
            line,
            &ins[from..from + frames],
            &mut outs[from..from + frames],
        );
    }
}

/// Filters a row of samples, after those that are kept, of which the last are kept then.
fn filter_row(
    taps: &[i32],
    shift: u32,
    past: &mut [i64],
    line: &mut [i64],
    ins: &[i64],
    outs: &mut [i64],
)
    requires taps { length taps.now ≤ 2 ^ 12 }
    requires shift { shift ≤ 30 }
    requires line { length line.old ≡ length taps.now + 64 }
    requires past { length past.old ≡ length taps.now }
    requires outs { length outs.old ≡ length ins.now }
    requires fits { (t : ℕ) → t < length ins.now → unsigned_abs (filtered_at taps.now shift (past.old ++ ins.now) t) ≤ 2 ^ 46 }
    ensures past { past.new ≡ drop (length ins.now) (past.old ++ ins.now) }
    ensures values { (t : ℕ) → t < length ins.now → slice_index_or outs.new t (pos 0) ≡ filtered_at taps.now shift (past.old ++ ins.now) t }
{
    for part in 0..ins.len().div_ceil(PART) {
        let from = part * PART;
        let end = (from + PART).min(ins.len());
        filter_part(
            taps,
            shift,
            past,
            line,
            &ins[from..end],
            &mut outs[from..end],
        );
    }
}

/// The same of a short part of a row.
fn filter_part(
    taps: &[i32],
    shift: u32,
    past: &mut [i64],
    line: &mut [i64],
    ins: &[i64],
    outs: &mut [i64],
)
    requires taps { length taps.now ≤ 2 ^ 12 }
    requires shift { shift ≤ 30 }
    requires frames { length ins.now ≤ 64 }
    requires line { length line.old ≡ length taps.now + 64 }
    requires past { length past.old ≡ length taps.now }
    requires outs { length outs.old ≡ length ins.now }
    requires fits { (t : ℕ) → t < length ins.now → unsigned_abs (filtered_at taps.now shift (past.old ++ ins.now) t) ≤ 2 ^ 46 }
    ensures past { past.new ≡ drop (length ins.now) (past.old ++ ins.now) }
    ensures values { (t : ℕ) → t < length ins.now → slice_index_or outs.new t (pos 0) ≡ filtered_at taps.now shift (past.old ++ ins.now) t }
{
    let held = taps.len();
    let whole = held + ins.len();
    line[..held].copy_from_slice(past);
    line[held..whole].copy_from_slice(ins);
    filter(taps, shift, &line[..whole], outs);
    past.copy_from_slice(&line[ins.len()..whole]);
}

/// The sums of the taps times the samples up to each of the last samples, rounded.
fn filter(taps: &[i32], shift: u32, line: &[i64], outs: &mut [i64])
    requires taps { length taps.now ≤ 2 ^ 12 }
    requires shift { shift ≤ 30 }
    requires line { length line.now ≡ length taps.now + length outs.old }
    requires fits { (t : ℕ) → t < length outs.old → unsigned_abs (filtered_at taps.now shift line.now t) ≤ 2 ^ 46 }
    ensures { (t : ℕ) → t < length outs.old → slice_index_or outs.new t (pos 0) ≡ filtered_at taps.now shift line.now t }
{
    let most = most_in(line);
    if most < 1 << 31 && weight_of(taps) as u128 * most as u128 <= 1 << 62 {
        filter_narrow(taps, shift, most, line, outs);
    } else {
        filter_wide(taps, shift, line, outs);
    }
}

/// The same of samples of 32 bits, in 64 bits.
fn filter_narrow(taps: &[i32], shift: u32, most: u64, line: &[i64], outs: &mut [i64])
    requires half { most < 2 ^ 31 }
    requires taps { length taps.now ≤ 2 ^ 12 }
    requires within { AreWithin most line.now }
    requires small { weight taps.now * most ≤ 2 ^ 62 }
    requires shift { shift ≤ 30 }
    requires line { length line.now ≡ length taps.now + length outs.old }
    requires fits { (t : ℕ) → t < length outs.old → unsigned_abs (filtered_at taps.now shift line.now t) ≤ 2 ^ 46 }
    ensures { (t : ℕ) → t < length outs.old → slice_index_or outs.new t (pos 0) ≡ filtered_at taps.now shift line.now t }
{
    let fours = outs.len() / 4;
    for q in 0..fours {
        let t = q * 4;
        filter_four(
            taps,
            shift,
            most,
            &line[t..t + 4 + taps.len()],
            &mut outs[t..t + 4],
        );
    }
    for t in fours * 4..outs.len() {
        outs[t] = filtered(taps, shift, &line[t + 1..t + 1 + taps.len()]);
    }
}

/// The first four, with each tap read once.
fn filter_four(taps: &[i32], shift: u32, most: u64, line: &[i64], outs: &mut [i64])
    requires half { most < 2 ^ 31 }
    requires within { AreWithin most line.now }
    requires small { weight taps.now * most ≤ 2 ^ 62 }
    requires shift { shift ≤ 30 }
    requires four { length outs.old ≡ 4 }
    requires line { length line.now ≡ length taps.now + 4 }
    ensures { (t : ℕ) → t < 4 → slice_index_or outs.new t (pos 0) ≡ filtered_at taps.now shift line.now t }
{
    let (a, b, c, d) = four_half_sums(taps, &line[1..], most);
    outs[0] = rs_narrow(a, shift);
    outs[1] = rs_narrow(b, shift);
    outs[2] = rs_narrow(c, shift);
    outs[3] = rs_narrow(d, shift);
}

/// The same in 128 bits.
fn filter_wide(taps: &[i32], shift: u32, line: &[i64], outs: &mut [i64])
    requires taps { length taps.now ≤ 2 ^ 12 }
    requires shift { shift ≤ 30 }
    requires line { length line.now ≡ length taps.now + length outs.old }
    requires fits { (t : ℕ) → t < length outs.old → unsigned_abs (filtered_at taps.now shift line.now t) ≤ 2 ^ 46 }
    ensures { (t : ℕ) → t < length outs.old → slice_index_or outs.new t (pos 0) ≡ filtered_at taps.now shift line.now t }
{
    let fours = outs.len() / 4;
    for q in 0..fours {
        let t = q * 4;
        filter_four_wide(
            taps,
            shift,
            &line[t..t + 4 + taps.len()],
            &mut outs[t..t + 4],
        );
    }
    for t in fours * 4..outs.len() {
        outs[t] = filtered(taps, shift, &line[t + 1..t + 1 + taps.len()]);
    }
}

/// The first four in 128 bits, with each tap read once.
fn filter_four_wide(taps: &[i32], shift: u32, line: &[i64], outs: &mut [i64])
    requires taps { length taps.now ≤ 2 ^ 12 }
    requires shift { shift ≤ 30 }
    requires four { length outs.old ≡ 4 }
    requires line { length line.now ≡ length taps.now + 4 }
    requires fits { (t : ℕ) → t < 4 → unsigned_abs (filtered_at taps.now shift line.now t) ≤ 2 ^ 46 }
    ensures { (t : ℕ) → t < 4 → slice_index_or outs.new t (pos 0) ≡ filtered_at taps.now shift line.now t }
{
    let (a, b, c, d) = four_sums(taps, &line[1..]);
    outs[0] = rounded_sum(a, shift);
    outs[1] = rounded_sum(b, shift);
    outs[2] = rounded_sum(c, shift);
    outs[3] = rounded_sum(d, shift);
}

/// A sum, rounded, where 64 bits hold that.
fn rounded_sum(sum: i128, shift: u32) -> i64
    requires size { unsigned_abs sum ≤ 2 ^ 106 }
    requires shift { shift ≤ 30 }
    requires fits { unsigned_abs (rounded sum shift) ≤ 2 ^ 46 }
    ensures { result ≡ rounded sum shift }
{
    rs(sum, shift) as i64
}

/// The sum of the taps times the samples, rounded.
fn filtered(taps: &[i32], shift: u32, samples: &[i64]) -> i64
    requires taps { length taps.now ≤ 2 ^ 12 }
    requires shift { shift ≤ 30 }
    requires count { length samples.now ≡ length taps.now }
    requires fits { unsigned_abs (rounded (products taps.now samples.now) shift) ≤ 2 ^ 46 }
    ensures { result ≡ rounded (products taps.now samples.now) shift }
{
    rs(sum_of_products(taps, samples), shift) as i64
}
