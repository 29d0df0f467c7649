//! The streams of the processors: the one place where a kind's frames are made.

ghost use Rattle.std.specs.Prelude.{◌≡◌, ◌%◌, ◌++◌, IfOk, OnOk, length};
ghost use Rattle.graph_model.specs.Kernels.{IsBoundOf};
ghost use Rattle.graph_model.specs.Bounds.{IsWithin};
ghost use Rattle.graph_model.specs.Histories.{frames_of, interleaved};
ghost use Rattle.graph_model.specs.Kinds.{ins_of, stream_of};
ghost use Rattle.graph_model.specs.Ranges.{HasRange};
ghost use Rattle.processors.specs.Types.{IsBetweenEnds};

use graph_model::{Bound, Kind, List};
use processors::{Kernel, Processor};
use std::alloc::{AllocError, Global};

/// Adds a frame at the end of interleaved samples.
fn append(samples: &mut List<i64>, frame: &[i64]) -> Result<(), AllocError>
    ensures { OnOk result (samples.new ≡ samples.old ++ frame.now) }
{
    for sample in frame {
        samples.push(*sample)?;
    }
    Ok(())
}

/// What goes out of a processor of that kind, whose samples are within these bounds, when these samples have come in.
/// Both are interleaved, by its output and its input channels, and have as many frames.
pub(crate) fn outgoing(
    alloc: Global,
    kind: &Kind,
    bound: &Bound,
    incoming: &[i64],
) -> Result<List<i64>, AllocError>
    requires kind { IsBetweenEnds kind.now }
    requires range { HasRange kind.now }
    requires bound { IsBoundOf kind.now bound.now }
    requires whole { length incoming.now % ins_of kind.now ≡ 0 }
    requires within { IsWithin bound.now.ins (frames_of (ins_of kind.now) incoming.now) }
    ensures { IfOk result (λ v. v ≡ interleaved (stream_of kind.now (frames_of (ins_of kind.now) incoming.now))) }
{
    let ins = kind.ins() as usize;
    let mut processor = Processor::make(alloc, kind, bound)?;
    let mut frame = vec![in alloc; 0; kind.outs() as usize]?;
    let mut outgoing = List::new(alloc);
    for time in 0..incoming.len() / ins {
        processor.frame(&incoming[time * ins..][..ins], &mut frame);
        append(&mut outgoing, &frame)?;
    }
    Ok(outgoing)
}
