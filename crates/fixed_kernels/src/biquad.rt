//! Biquads.

ghost use Rattle.std.specs.Prelude.{◌≡◌, ℕ, ◌+◌, ◌*◌, ◌<◌, ◌≤◌, IfOk, length, pos, replicate, slice_index_or, unsigned_abs};
ghost use Rattle.graph_model.specs.Histories.{frame_in};
ghost use Rattle.graph_model.specs.Kinds.{ins_of};
ghost use Rattle.graph_model.specs.Ranges.{HasRange};
ghost use Rattle.graph_model.specs.Kernels.{IsBoundOf};
ghost use Rattle.fixed_kernels.specs.Kernels.{IsNew};
ghost use Rattle.fixed_kernels.specs.Streams.{streams_are_causal, streams_are_quiet};
ghost use Rattle.fixed_kernels.specs.Sections.{AreStepped, IsLight, IsSmallTail, next_out, section_kind, silent_tail, tail_at, tail_upto};
ghost use Rattle.fixed_kernels.specs.Types.{IsBiquad};

use crate::kernel::Kernel;
use crate::narrow::greatest;
use crate::section::{Section, Tail};
use graph_model::{Bound, Kind};
use std::alloc::{AllocError, Global};
use std::marker::Model;

/// A second-order section in direct form 1 on each channel (Oppenheim and Schafer, Discrete-Time Signal Processing),
/// whose clamped output is fed back: `y(n) = clamp(rs(b0*x(n) + b1*x(n-1) + b2*x(n-2) - a1*y(n-1) - a2*y(n-2),
/// shift))`, to `2^bits - 1` in size, where `rs(a, q)` is `a / 2^q` rounded to the nearest, a half upward.
#[derive(Drop)]
pub struct Biquad {
    section: Section,
    bound: Bound,
    tails: Vec<Tail>,
}

impl Model for Biquad {
    ghost use Rattle.graph_model.specs.Kernels.{KernelState};
    ghost use Rattle.fixed_kernels.specs.Kernels.{IsKernel};
    ghost use Rattle.fixed_kernels.specs.States.{biquad_state};

    ghost Value = { KernelState };

    ghost view = { λ k. biquad_state k.section k.bound k.tails.items };

    ghost invariant = { λ k. IsKernel (biquad_state k.section k.bound k.tails.items) };
}

impl Biquad {
    /// A section that nothing has come into, of a kind in range and the bounds of such a node. It fails only for want
    /// of memory.
    pub fn make(alloc: Global, kind: &Kind, bound: &Bound) -> Result<Self, AllocError>
        requires kind { IsBiquad kind.now }
        requires range { HasRange kind.now }
        requires bound { IsBoundOf kind.now bound.now }
        ensures { IfOk result (λ k. IsNew kind.now bound.now k) }
    {
        let tails = silent_tails(alloc, kind.ins() as usize)?;
        Ok(Biquad {
            section: section_of(kind),
            bound: bound.copy(alloc)?,
            tails,
        })
    }
}

impl Kernel for Biquad {
    ghost state = { λ kernel. kernel };

    ghost causal = { streams_are_causal };

    ghost quiet = { streams_are_quiet };

    fn process_block(&mut self, frames: usize, ins: &[i64], outs: &mut [i64]) {
        let most = greatest(self.bound.ins.as_slice());
        step_rows(&self.section, &mut self.tails, most, frames, ins, outs);
    }
}

/// The section of a biquad's parameters.
fn section_of(kind: &Kind) -> Section
    requires { IsBiquad kind.now }
    ensures { section_kind (ins_of kind.now) result ≡ kind.now }
{
    match kind {
        Kind::Biquad {
            b0,
            b1,
            b2,
            a1,
            a2,
            shift,
            bits,
            ..
        } => Section {
            b0: *b0,
            b1: *b1,
            b2: *b2,
            a1: *a1,
            a2: *a2,
            shift: *shift,
            bits: *bits,
        },
        _ => unreachable!(),
    }
}

/// Zeros for each channel.
fn silent_tails(alloc: Global, channels: usize) -> Result<Vec<Tail>, AllocError>
    ensures { IfOk result (λ tails. tails.items ≡ replicate channels silent_tail) }
{
    let mut tails = Vec::new(alloc);
    for _ in 0..channels {
        tails.push(Tail {
            x1: 0,
            x2: 0,
            y1: 0,
            y2: 0,
        })?;
    }
    Ok(tails)
}

/// Steps each channel by its row.
fn step_rows(
    section: &Section,
    tails: &mut [Tail],
    most: u64,
    frames: usize,
    ins: &[i64],
    outs: &mut [i64],
)
    requires shift { section.now.shift ≤ 30 }
    requires bits { section.now.bits ≤ 40 }
    requires ins { length ins.now ≡ length tails.old * frames }
    requires within { (k : ℕ) → k < length ins.now → unsigned_abs (slice_index_or ins.now k (pos 0)) ≤ most }
    requires outs { length outs.old ≡ length tails.old * frames }
    ensures tails { AreStepped section.now tails.old frames ins.now tails.new }
    ensures values { (c t : ℕ) → c < length tails.old → t < frames →
        slice_index_or outs.new (c * frames + t) (pos 0)
        ≡ next_out section.now (tail_upto section.now (tail_at tails.old c) (frame_in frames ins.now c) t)
        (slice_index_or (frame_in frames ins.now c) t (pos 0)) }
{
    for c in 0..tails.len() {
        let from = c * frames;
        tails[c] = step_row(
            section,
            tails[c],
            most,
            &ins[from..from + frames],
            &mut outs[from..from + frames],
        );
    }
}

/// Steps a channel by each sample of its row, and gives what is kept then.
fn step_row(section: &Section, tail: Tail, most: u64, ins: &[i64], outs: &mut [i64]) -> Tail
    requires shift { section.now.shift ≤ 30 }
    requires bits { section.now.bits ≤ 40 }
    requires within { (k : ℕ) → k < length ins.now → unsigned_abs (slice_index_or ins.now k (pos 0)) ≤ most }
    requires outs { length outs.old ≡ length ins.now }
    ensures tail { result ≡ tail_upto section.now tail ins.now (length ins.now) }
    ensures values { (t : ℕ) → t < length ins.now →
        slice_index_or outs.new t (pos 0) ≡ next_out section.now (tail_upto section.now tail ins.now t) (slice_index_or ins.now t (pos 0)) }
{
    if section.is_narrow(&tail, most) {
        step_row_narrow(section, tail, most, ins, outs)
    } else {
        step_row_wide(section, tail, ins, outs)
    }
}

/// The same in 64 bits.
fn step_row_narrow(section: &Section, tail: Tail, most: u64, ins: &[i64], outs: &mut [i64]) -> Tail
    requires shift { section.now.shift ≤ 30 }
    requires bits { section.now.bits ≤ 40 }
    requires light { IsLight section.now most }
    requires tail { IsSmallTail section.now most tail }
    requires within { (k : ℕ) → k < length ins.now → unsigned_abs (slice_index_or ins.now k (pos 0)) ≤ most }
    requires outs { length outs.old ≡ length ins.now }
    ensures tail { result ≡ tail_upto section.now tail ins.now (length ins.now) }
    ensures values { (t : ℕ) → t < length ins.now →
        slice_index_or outs.new t (pos 0) ≡ next_out section.now (tail_upto section.now tail ins.now t) (slice_index_or ins.now t (pos 0)) }
{
    let section = *section;
    let mut state = tail;
    for t in 0..ins.len() {
        outs[t] = section.step_narrow(&mut state, ins[t], most);
    }
    state
}

/// The same in 128 bits.
fn step_row_wide(section: &Section, tail: Tail, ins: &[i64], outs: &mut [i64]) -> Tail
    requires shift { section.now.shift ≤ 30 }
    requires bits { section.now.bits ≤ 40 }
    requires outs { length outs.old ≡ length ins.now }
    ensures tail { result ≡ tail_upto section.now tail ins.now (length ins.now) }
    ensures values { (t : ℕ) → t < length ins.now →
        slice_index_or outs.new t (pos 0) ≡ next_out section.now (tail_upto section.now tail ins.now t) (slice_index_or ins.now t (pos 0)) }
{
    let mut state = tail;
    for t in 0..ins.len() {
        outs[t] = section.step(&mut state, ins[t]);
    }
    state
}
