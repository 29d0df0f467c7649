//! Mixers.

ghost use Rattle.std.specs.Prelude.{◌≡◌, ℕ, ◌+◌, ◌<◌, ◌≤◌, ◌*◌, ◌^◌, IfOk, length, pos, slice_index_or, unsigned_abs, ◌+ℤ◌, ◌*ℤ◌};
ghost use Rattle.graph_model.specs.Bounds.{weight};
ghost use Rattle.graph_model.specs.Filters.{gains_to, products};
ghost use Rattle.graph_model.specs.Ranges.{HasRange};
ghost use Rattle.graph_model.specs.Rounding.{rounded};
ghost use Rattle.graph_model.specs.Blocks.{planar_frame};
ghost use Rattle.graph_model.specs.Kernels.{IsBoundOf};
ghost use Rattle.fixed_kernels.specs.Kernels.{IsNew};
ghost use Rattle.fixed_kernels.specs.Streams.{streams_are_causal, streams_are_quiet};
ghost use Rattle.fixed_kernels.specs.Types.{IsMixer};

use crate::kernel::Kernel;
use crate::narrow::{greatest, plus_narrow, rs_narrow, weight_of};
use crate::products::plus_product;
use graph_model::{Bound, Kind, List, rs};
use std::alloc::{AllocError, Global};
use std::marker::Model;

/// Output channels that are sums of the input channels times gains: `y_o(n) = rs(sum over i of g_oi * x_i(n), 16)`,
/// where `rs(a, q)` is `a / 2^q` rounded to the nearest, a half upward.
#[derive(Drop)]
pub struct Mixer {
    ins: u32,
    outs: u32,
    gains: List<i32>,
    bound: Bound,
}

impl Model for Mixer {
    ghost use Rattle.graph_model.specs.Kernels.{KernelState, new_kernel};
    ghost use Rattle.fixed_kernels.specs.Kernels.{IsKernel};
    ghost use Rattle.graph_model.specs.declared.kind.Kind.TheVariants as kind;

    ghost Value = { KernelState };

    ghost view = { λ k. new_kernel (kind.Mixer k.ins k.outs k.gains) k.bound };

    ghost invariant = { λ k. IsKernel (new_kernel (kind.Mixer k.ins k.outs k.gains) k.bound) };
}

impl Mixer {
    /// A mixer that nothing has come into, of a kind in range and the bounds of such a node. It fails only for want of
    /// memory.
    pub fn make(alloc: Global, kind: &Kind, bound: &Bound) -> Result<Self, AllocError>
        requires kind { IsMixer kind.now }
        requires range { HasRange kind.now }
        requires bound { IsBoundOf kind.now bound.now }
        ensures { IfOk result (λ k. IsNew kind.now bound.now k) }
    {
        let Kind::Mixer { ins, outs, gains } = kind else {
            unreachable!()
        };
        Ok(Mixer {
            ins: *ins,
            outs: *outs,
            gains: gains.copy(alloc)?,
            bound: bound.copy(alloc)?,
        })
    }
}

impl Kernel for Mixer {
    ghost state = { λ kernel. kernel };

    ghost causal = { streams_are_causal };

    ghost quiet = { streams_are_quiet };

    fn process_block(&mut self, frames: usize, ins: &[i64], outs: &mut [i64]) {
        let most = greatest(self.bound.ins.as_slice());
        mix_rows(
            self.gains.as_slice(),
            most,
            self.ins as usize,
            self.outs as usize,
            frames,
            ins,
            outs,
        );
    }
}

/// Makes the row of each output of its gains, one gain for each input.
fn mix_rows(
    gains: &[i32],
    most: u64,
    wide: usize,
    count: usize,
    frames: usize,
    ins: &[i64],
    outs: &mut [i64],
)
    requires few { wide ≤ 32 }
    requires gains { length gains.now ≡ count * wide }
    requires ins { length ins.now ≡ wide * frames }
    requires within { (k : ℕ) → k < length ins.now → unsigned_abs (slice_index_or ins.now k (pos 0)) ≤ most }
    requires outs { length outs.old ≡ count * frames }
    requires fits { (o t : ℕ) → o < count → t < frames →
        unsigned_abs (rounded (products (gains_to wide gains.now o) (planar_frame wide frames ins.now t)) 16) ≤ 2 ^ 46 }
    ensures { (o t : ℕ) → o < count → t < frames →
        slice_index_or outs.new (o * frames + t) (pos 0)
        ≡ rounded (products (gains_to wide gains.now o) (planar_frame wide frames ins.now t)) 16 }
{
    for o in 0..count {
        let from = o * frames;
        let row = o * wide;
        mix_row(
            &gains[row..row + wide],
            most,
            frames,
            ins,
            &mut outs[from..from + frames],
        );
    }
}

/// Makes the row of an output of its gains.
fn mix_row(row: &[i32], most: u64, frames: usize, ins: &[i64], outs: &mut [i64])
    requires few { length row.now ≤ 32 }
    requires ins { length ins.now ≡ length row.now * frames }
    requires within { (k : ℕ) → k < length ins.now → unsigned_abs (slice_index_or ins.now k (pos 0)) ≤ most }
    requires outs { length outs.old ≡ frames }
    requires fits { (t : ℕ) → t < frames
        → unsigned_abs (rounded (products row.now (planar_frame (length row.now) frames ins.now t)) 16) ≤ 2 ^ 46 }
    ensures { (t : ℕ) → t < frames →
        slice_index_or outs.new t (pos 0) ≡ rounded (products row.now (planar_frame (length row.now) frames ins.now t)) 16 }
{
    if weight_of(row) as u128 * most as u128 <= 1 << 62 {
        mix_row_narrow(row, most, frames, ins, outs);
    } else {
        mix_row_wide(row, frames, ins, outs);
    }
}

/// The same in 64 bits.
fn mix_row_narrow(row: &[i32], most: u64, frames: usize, ins: &[i64], outs: &mut [i64])
    requires few { length row.now ≤ 32 }
    requires ins { length ins.now ≡ length row.now * frames }
    requires within { (k : ℕ) → k < length ins.now → unsigned_abs (slice_index_or ins.now k (pos 0)) ≤ most }
    requires small { weight row.now * most ≤ 2 ^ 62 }
    requires outs { length outs.old ≡ frames }
    ensures { (t : ℕ) → t < frames →
        slice_index_or outs.new t (pos 0) ≡ rounded (products row.now (planar_frame (length row.now) frames ins.now t)) 16 }
{
    for t in 0..frames {
        outs[t] = 0;
    }
    add_rows(row, most, frames, ins, outs);
    for t in 0..frames {
        outs[t] = rs_narrow(outs[t], 16);
    }
}

/// Adds the row of each input times its gain to sums that are 0.
fn add_rows(row: &[i32], most: u64, frames: usize, ins: &[i64], outs: &mut [i64])
    requires few { length row.now ≤ 32 }
    requires ins { length ins.now ≡ length row.now * frames }
    requires within { (k : ℕ) → k < length ins.now → unsigned_abs (slice_index_or ins.now k (pos 0)) ≤ most }
    requires small { weight row.now * most ≤ 2 ^ 62 }
    requires outs { length outs.old ≡ frames }
    requires none { (t : ℕ) → t < frames → slice_index_or outs.old t (pos 0) ≡ pos 0 }
    ensures values { (t : ℕ) → t < frames
        → slice_index_or outs.new t (pos 0) ≡ products row.now (planar_frame (length row.now) frames ins.now t) }
    ensures sizes { (t : ℕ) → t < frames → unsigned_abs (slice_index_or outs.new t (pos 0)) ≤ 2 ^ 62 }
{
    for c in 0..row.len() {
        let from = c * frames;
        add_row(row[c], most, &ins[from..from + frames], outs);
    }
}

/// Adds a row times a gain, four samples at a time: products of 64 bits cost less one by one than in vectors.
fn add_row(gain: i32, most: u64, ins: &[i64], outs: &mut [i64])
    requires outs { length outs.old ≡ length ins.now }
    requires within { (t : ℕ) → t < length ins.now → unsigned_abs (slice_index_or ins.now t (pos 0)) ≤ most }
    requires sizes { (t : ℕ) → t < length ins.now → unsigned_abs (slice_index_or outs.old t (pos 0)) + unsigned_abs gain * most ≤ 2 ^ 62 }
    ensures { (t : ℕ) → t < length ins.now →
        slice_index_or outs.new t (pos 0) ≡ slice_index_or outs.old t (pos 0) +ℤ (gain *ℤ slice_index_or ins.now t (pos 0)) }
{
    if gain == 0 {
        return;
    }
    let fours = ins.len() / 4;
    for q in 0..fours {
        let t = q * 4;
        outs[t] = plus_narrow(outs[t], gain, ins[t], most);
        outs[t + 1] = plus_narrow(outs[t + 1], gain, ins[t + 1], most);
        outs[t + 2] = plus_narrow(outs[t + 2], gain, ins[t + 2], most);
        outs[t + 3] = plus_narrow(outs[t + 3], gain, ins[t + 3], most);
    }
    for t in fours * 4..ins.len() {
        outs[t] = plus_narrow(outs[t], gain, ins[t], most);
    }
}

/// The same in 128 bits.
fn mix_row_wide(row: &[i32], frames: usize, ins: &[i64], outs: &mut [i64])
    requires few { length row.now ≤ 32 }
    requires ins { length ins.now ≡ length row.now * frames }
    requires outs { length outs.old ≡ frames }
    requires fits { (t : ℕ) → t < frames
        → unsigned_abs (rounded (products row.now (planar_frame (length row.now) frames ins.now t)) 16) ≤ 2 ^ 46 }
    ensures { (t : ℕ) → t < frames →
        slice_index_or outs.new t (pos 0) ≡ rounded (products row.now (planar_frame (length row.now) frames ins.now t)) 16 }
{
    for t in 0..frames {
        outs[t] = mixed(row, frames, ins, t);
    }
}

/// The sum of the samples of a frame times their gains, rounded.
fn mixed(row: &[i32], frames: usize, ins: &[i64], t: usize) -> i64
    requires few { length row.now ≤ 32 }
    requires ins { length ins.now ≡ length row.now * frames }
    requires frame { t < frames }
    requires fits { unsigned_abs (rounded (products row.now (planar_frame (length row.now) frames ins.now t)) 16) ≤ 2 ^ 46 }
    ensures { result ≡ rounded (products row.now (planar_frame (length row.now) frames ins.now t)) 16 }
{
    rs(weighed(row, frames, ins, t), 16) as i64
}

/// The sum of the samples of a frame times their gains.
fn weighed(row: &[i32], frames: usize, ins: &[i64], t: usize) -> i128
    requires few { length row.now ≤ 32 }
    requires ins { length ins.now ≡ length row.now * frames }
    requires frame { t < frames }
    ensures value { result ≡ products row.now (planar_frame (length row.now) frames ins.now t) }
    ensures size { unsigned_abs result ≤ length row.now * 2 ^ 94 }
{
    let mut sum: i128 = 0;
    for c in 0..row.len() {
        sum = plus_product(sum, row[c], ins[c * frames + t]);
    }
    sum
}
