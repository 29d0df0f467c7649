//! Delays and inserts.

ghost use Rattle.std.specs.Prelude.{◌≡◌, ℕ, ◌+◌, ◌*◌, ◌^◌, ◌<◌, ◌≤◌, ◌++◌, [], IfOk, drop, length, pos, replicate, slice_index_or};
ghost use Rattle.graph_model.specs.Histories.{frame_in};
ghost use Rattle.graph_model.specs.Kept.{ins_kept};
ghost use Rattle.graph_model.specs.Ranges.{HasRange};
ghost use Rattle.graph_model.specs.Kernels.{IsBoundOf};
ghost use Rattle.fixed_kernels.specs.Kernels.{IsNew};
ghost use Rattle.fixed_kernels.specs.Streams.{streams_are_causal, streams_are_quiet};
ghost use Rattle.fixed_kernels.specs.Types.{IsHold};

use crate::kernel::Kernel;
use delay_lines::Line;
use graph_model::{Bound, Kind};
use std::alloc::{AllocError, Global};
use std::marker::Model;

/// A delay or an insert, which gives the samples of each channel some frames late: `y(n) = x(n - d)`, 0 before frame 0.
#[derive(Drop)]
pub struct Hold {
    kind: Kind,
    bound: Bound,
    lines: Vec<Line>,
}

impl Model for Hold {
    ghost use Rattle.graph_model.specs.Kernels.{KernelState};
    ghost use Rattle.fixed_kernels.specs.Kernels.{IsKernel};
    ghost use Rattle.fixed_kernels.specs.States.{hold_state};
    ghost use Rattle.fixed_kernels.specs.Types.{IsHold};

    ghost Value = { KernelState };

    ghost view = { λ k. hold_state k.kind k.bound k.lines.items };

    ghost invariant = { λ k. IsHold k.kind × IsKernel (hold_state k.kind k.bound k.lines.items) };
}

impl Hold {
    /// A delay or an insert that nothing has come into, of a kind in range and the bounds of such a node. It fails only
    /// for want of memory.
    pub fn make(alloc: Global, kind: &Kind, bound: &Bound) -> Result<Self, AllocError>
        requires kind { IsHold kind.now }
        requires range { HasRange kind.now }
        requires bound { IsBoundOf kind.now bound.now }
        ensures { IfOk result (λ k. IsNew kind.now bound.now k) }
    {
        let lines = silent_lines(alloc, kind.ins() as usize, samples_of(kind))?;
        Ok(Hold {
            kind: kind.copy(alloc)?,
            bound: bound.copy(alloc)?,
            lines,
        })
    }
}

impl Kernel for Hold {
    ghost state = { λ kernel. kernel };

    ghost causal = { streams_are_causal };

    ghost quiet = { streams_are_quiet };

    fn process_block(&mut self, frames: usize, ins: &[i64], outs: &mut [i64]) {
        pass_rows(&mut self.lines, frames, ins, outs);
    }
}

/// For how many frames a delay or an insert holds a sample.
fn samples_of(kind: &Kind) -> u64
    requires { IsHold kind.now }
    ensures { result ≡ ins_kept kind.now }
{
    match kind {
        Kind::Delay { samples, .. } | Kind::Insert { samples, .. } => *samples as u64,
        _ => unreachable!(),
    }
}

/// A line of as many zeros for each channel. It fails only for want of memory.
fn silent_lines(alloc: Global, channels: usize, samples: u64) -> Result<Vec<Line>, AllocError>
    requires { samples ≤ 2 ^ 26 }
    ensures { IfOk result (λ lines. lines.items ≡ replicate channels (replicate samples (pos 0))) }
{
    let mut lines = Vec::new(alloc);
    for _ in 0..channels {
        lines.push(Line::new(alloc, samples)?)?;
    }
    Ok(lines)
}

/// Passes the row of each channel through its line.
fn pass_rows(lines: &mut [Line], frames: usize, ins: &[i64], outs: &mut [i64])
    requires ins { length ins.now ≡ length lines.old * frames }
    requires outs { length outs.old ≡ length lines.old * frames }
    ensures lines { (c : ℕ) → c < length lines.old →
        slice_index_or lines.new c [] ≡ drop frames (slice_index_or lines.old c [] ++ frame_in frames ins.now c) }
    ensures values { (c t : ℕ) → c < length lines.old → t < frames →
        slice_index_or outs.new (c * frames + t) (pos 0)
        ≡ slice_index_or (slice_index_or lines.old c [] ++ frame_in frames ins.now c) t (pos 0) }
{
    for c in 0..lines.len() {
        let from = c * frames;
        lines[c].pass_block(&ins[from..from + frames], &mut outs[from..from + frames]);
    }
}
