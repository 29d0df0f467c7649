//! Gains.

ghost use Rattle.std.specs.Prelude.{◌≡◌, ℕ, ◌<◌, ◌≤◌, ◌^◌, ◌*◌, ◌*ℤ◌, IfOk, length, pos, slice_index_or, unsigned_abs};
ghost use Rattle.graph_model.specs.Ranges.{HasRange};
ghost use Rattle.graph_model.specs.Rounding.{rounded};
ghost use Rattle.graph_model.specs.Kernels.{IsBoundOf};
ghost use Rattle.fixed_kernels.specs.Kernels.{IsNew};
ghost use Rattle.fixed_kernels.specs.Streams.{streams_are_causal, streams_are_quiet};
ghost use Rattle.fixed_kernels.specs.Types.{IsGain};

use crate::kernel::Kernel;
use crate::narrow::{greatest, narrow_product, rs_narrow};
use crate::products::product;
use graph_model::{Bound, Kind, rs};
use std::alloc::{AllocError, Global};
use std::marker::Model;

/// A gain on each channel: `y(n) = rs(g * x(n), 16)`, where `rs(a, q)` is `a / 2^q` rounded to the nearest, a half
/// upward.
#[derive(Drop)]
pub struct Gain {
    channels: u32,
    gain: i32,
    bound: Bound,
}

impl Model for Gain {
    ghost use Rattle.graph_model.specs.Kernels.{KernelState, new_kernel};
    ghost use Rattle.fixed_kernels.specs.Kernels.{IsKernel};
    ghost use Rattle.graph_model.specs.declared.kind.Kind.TheVariants as kind;

    ghost Value = { KernelState };

    ghost view = { λ k. new_kernel (kind.Gain k.channels k.gain) k.bound };

    ghost invariant = { λ k. IsKernel (new_kernel (kind.Gain k.channels k.gain) k.bound) };
}

impl Gain {
    /// A gain that nothing has come into, of a kind in range and the bounds of such a node. It fails only for want of
    /// memory.
    pub fn make(alloc: Global, kind: &Kind, bound: &Bound) -> Result<Self, AllocError>
        requires kind { IsGain kind.now }
        requires range { HasRange kind.now }
        requires bound { IsBoundOf kind.now bound.now }
        ensures { IfOk result (λ k. IsNew kind.now bound.now k) }
    {
        let Kind::Gain { channels, gain } = kind else {
            unreachable!()
        };
        Ok(Gain {
            channels: *channels,
            gain: *gain,
            bound: bound.copy(alloc)?,
        })
    }
}

impl Kernel for Gain {
    ghost state = { λ kernel. kernel };

    ghost causal = { streams_are_causal };

    ghost quiet = { streams_are_quiet };

    fn process_block(&mut self, frames: usize, ins: &[i64], outs: &mut [i64]) {
        let most = greatest(self.bound.ins.as_slice());
        scale(self.gain, most, ins, outs);
    }
}

/// Multiplies each sample by the gain.
fn scale(gain: i32, most: u64, ins: &[i64], outs: &mut [i64])
    requires count { length outs.old ≡ length ins.now }
    requires within { (c : ℕ) → c < length ins.now → unsigned_abs (slice_index_or ins.now c (pos 0)) ≤ most }
    requires fits { (c : ℕ) → c < length ins.now → unsigned_abs (rounded (gain *ℤ slice_index_or ins.now c (pos 0)) 16) ≤ 2 ^ 46 }
    ensures { (c : ℕ) → c < length ins.now →
        slice_index_or outs.new c (pos 0) ≡ rounded (gain *ℤ slice_index_or ins.now c (pos 0)) 16 }
{
    if gain.unsigned_abs() as u128 * most as u128 <= 1 << 62 {
        scale_narrow(gain, most, ins, outs);
    } else {
        scale_wide(gain, ins, outs);
    }
}

/// The same in 64 bits, four at a time: products of 64 bits cost less one by one than in vectors.
fn scale_narrow(gain: i32, most: u64, ins: &[i64], outs: &mut [i64])
    requires count { length outs.old ≡ length ins.now }
    requires small { unsigned_abs gain * most ≤ 2 ^ 62 }
    requires within { (c : ℕ) → c < length ins.now → unsigned_abs (slice_index_or ins.now c (pos 0)) ≤ most }
    ensures { (c : ℕ) → c < length ins.now →
        slice_index_or outs.new c (pos 0) ≡ rounded (gain *ℤ slice_index_or ins.now c (pos 0)) 16 }
{
    let fours = ins.len() / 4;
    for q in 0..fours {
        let c = q * 4;
        outs[c] = scaled_narrow(gain, ins[c], most);
        outs[c + 1] = scaled_narrow(gain, ins[c + 1], most);
        outs[c + 2] = scaled_narrow(gain, ins[c + 2], most);
        outs[c + 3] = scaled_narrow(gain, ins[c + 3], most);
    }
    for c in fours * 4..ins.len() {
        outs[c] = scaled_narrow(gain, ins[c], most);
    }
}

/// A sample that is no larger than this, times the gain.
#[inline]
fn scaled_narrow(gain: i32, sample: i64, most: u64) -> i64
    requires small { unsigned_abs gain * most ≤ 2 ^ 62 }
    requires within { unsigned_abs sample ≤ most }
    ensures { result ≡ rounded (gain *ℤ sample) 16 }
{
    rs_narrow(narrow_product(gain, sample, most), 16)
}

/// The same in 128 bits.
fn scale_wide(gain: i32, ins: &[i64], outs: &mut [i64])
    requires count { length outs.old ≡ length ins.now }
    requires fits { (c : ℕ) → c < length ins.now → unsigned_abs (rounded (gain *ℤ slice_index_or ins.now c (pos 0)) 16) ≤ 2 ^ 46 }
    ensures { (c : ℕ) → c < length ins.now →
        slice_index_or outs.new c (pos 0) ≡ rounded (gain *ℤ slice_index_or ins.now c (pos 0)) 16 }
{
    for c in 0..ins.len() {
        outs[c] = scaled(gain, ins[c]);
    }
}

/// A sample times the gain.
fn scaled(gain: i32, sample: i64) -> i64
    requires fits { unsigned_abs (rounded (gain *ℤ sample) 16) ≤ 2 ^ 46 }
    ensures { result ≡ rounded (gain *ℤ sample) 16 }
{
    rs(product(gain, sample), 16) as i64
}
