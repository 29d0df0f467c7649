//! A processor of any kind.

ghost use Rattle.std.specs.Prelude.{IfOk};
ghost use Rattle.graph_model.specs.Kernels.{IsBoundOf};
ghost use Rattle.fixed_kernels.specs.Kernels.{IsNew};
ghost use Rattle.fixed_kernels.specs.Streams.{streams_are_causal, streams_are_quiet};
ghost use Rattle.graph_model.specs.Ranges.{HasRange};
ghost use Rattle.processors.specs.States.{state_of};
ghost use Rattle.processors.specs.Types.{IsBetweenEnds};

use fixed_kernels::{Biquad, Fir, Gain, Hold, Kernel, Mixer};
use graph_model::{Bound, Kind};
use limiter_kernel::Limiter;
use std::alloc::{AllocError, Global};
use std::marker::Model;

/// The kernel that serves a kind.
#[derive(Drop)]
enum Server {
    Gain(Gain),
    Mixer(Mixer),
    Fir(Fir),
    Biquad(Biquad),
    Hold(Hold),
    Limiter(Limiter),
}

/// A processor of any kind but the two ends of a graph. It takes the frames of a stream one by one.
#[derive(Drop)]
pub struct Processor {
    server: Server,
}

impl Model for Processor {
    ghost use Rattle.graph_model.specs.Kernels.{KernelState};
    ghost use Rattle.processors.specs.States.{state_of};

    ghost Value = { KernelState };

    ghost view = { λ processor. state_of processor.server };
}

impl Processor {
    /// A processor that nothing has come into, whose samples are within these bounds, one for each channel. All its
    /// memory is taken here, and it fails only for want of it.
    pub fn make(alloc: Global, kind: &Kind, bound: &Bound) -> Result<Self, AllocError>
        requires kind { IsBetweenEnds kind.now }
        requires range { HasRange kind.now }
        requires bound { IsBoundOf kind.now bound.now }
        ensures { IfOk result (λ k. IsNew kind.now bound.now k) }
    {
        let server = server_of(alloc, kind, bound)?;
        Ok(Processor { server })
    }
}

impl Kernel for Processor {
    ghost state = { λ kernel. kernel };

    ghost causal = { streams_are_causal };

    ghost quiet = { streams_are_quiet };

    fn process_block(&mut self, frames: usize, ins: &[i64], outs: &mut [i64]) {
        match &mut self.server {
            Server::Gain(gain) => gain.process_block(frames, ins, outs),
            Server::Mixer(mixer) => mixer.process_block(frames, ins, outs),
            Server::Fir(fir) => fir.process_block(frames, ins, outs),
            Server::Biquad(biquad) => biquad.process_block(frames, ins, outs),
            Server::Hold(hold) => hold.process_block(frames, ins, outs),
            Server::Limiter(limiter) => limiter.process_block(frames, ins, outs),
        }
    }
}

/// The kernel of the kind, that nothing has come into.
fn server_of(alloc: Global, kind: &Kind, bound: &Bound) -> Result<Server, AllocError>
    requires kind { IsBetweenEnds kind.now }
    requires range { HasRange kind.now }
    requires bound { IsBoundOf kind.now bound.now }
    ensures { IfOk result (λ server. IsNew kind.now bound.now (state_of server)) }
{
    Ok(match kind {
        Kind::Gain { .. } => Server::Gain(Gain::make(alloc, kind, bound)?),
        Kind::Mixer { .. } => Server::Mixer(Mixer::make(alloc, kind, bound)?),
        Kind::Fir { .. } => Server::Fir(Fir::make(alloc, kind, bound)?),
        Kind::Biquad { .. } => Server::Biquad(Biquad::make(alloc, kind, bound)?),
        Kind::Delay { .. } | Kind::Insert { .. } => {
            Server::Hold(Hold::make(alloc, kind, bound)?)
        }
        Kind::Limiter { .. } => Server::Limiter(Limiter::make(alloc, kind, bound)?),
        Kind::Input { .. } | Kind::Output { .. } => unreachable!(),
    })
}
