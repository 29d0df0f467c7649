//! The samples that a graph makes of its input, on whole streams, at any alignment of its paths.
//!
//! [`answer_at`] takes the live nodes of a checked graph in their order, each standing at the position that an
//! alignment gives it, and [`answer`] takes them at their reaches, where the longest paths into them end. What comes
//! into a node is, channel by channel, the sum of what its connections bring, each held back until the node; what
//! goes out is made frame by frame by a processor of its kind. Each live node's stream is one list of interleaved
//! samples, and all are kept.
//!
//! It promises, sample for sample and for every sound graph, that at the reaches the result is the answer of the
//! mathematical graph, as `graph_model` defines it, and at any other alignment the same answer, later by as much as the
//! output node stands after its reach. That no sum overflows is proved of the bounds that a sound graph keeps. In
//! `laws` it says of the definitions that positions show in no other way.
//!
//! It stands on `graph_model`, `topology` and `connections`, on `plan_model` for alignments, and on `processors` for
//! the streams of the kinds.
#![tactic(auto)]

ghost use Rattle.std.specs.Prelude.{◌≡◌, ◌-◌, ◌%◌, ◌^◌, ◌≤◌, IfOk, length, map};
ghost use Rattle.graph_model.specs.Answers.{answer};
ghost use Rattle.graph_model.specs.Bounds.{AreUpTo};
ghost use Rattle.graph_model.specs.Graphs.{in_channels, out_channels, output_name};
ghost use Rattle.graph_model.specs.Histories.{frames_of, interleaved, shifted};
ghost use Rattle.graph_model.specs.Paths.{latency_of_graph};
ghost use Rattle.plan_model.specs.Alignments.{IsAlignment, position_in};
ghost use Rattle.plan_model.specs.Rules.{AreLiveNodes};
ghost use Rattle.renderer.specs.Positions.{position_at};

mod evaluation;
pub mod laws;
mod positions;
mod routes;
mod streams;

use crate::evaluation::Evaluation;
use crate::positions::{aligned, reaches};
use connections::Checked;
use graph_model::List;
use plan_model::At;
use std::alloc::{AllocError, Global};

/// The graph's answer to an input: as many frames as came in.
///
/// The input is interleaved, frame by frame with one sample for each channel of the input node, and so is the answer,
/// with one for each channel of the output node. Samples are whole numbers of at most 2^31 in size. An output channel
/// that nothing is connected to is silent.
pub fn answer(alloc: Global, graph: &Checked, input: &[i64]) -> Result<List<i64>, AllocError>
    requires whole { length input.now % in_channels graph.now ≡ 0 }
    requires small { AreUpTo (2 ^ 31) input.now }
    ensures { IfOk result (λ v. v ≡ interleaved (answer graph.now (frames_of (in_channels graph.now) input.now))) }
{
    let positions = reaches(alloc, graph)?;
    rendered(alloc, graph, &positions, input)
}

/// The graph's answer to an input, where each live node stands at the position that an alignment gives it: as many
/// frames as came in, the first of them silent for as long as the output node stands after its reach.
///
/// The input and the answer are interleaved as those of [`answer`].
pub fn answer_at(
    alloc: Global,
    graph: &Checked,
    at: &List<At>,
    input: &[i64],
) -> Result<List<i64>, AllocError>
    requires whole { length input.now % in_channels graph.now ≡ 0 }
    requires small { AreUpTo (2 ^ 31) input.now }
    requires nodes { AreLiveNodes graph.now (map (λ a. a.uid.0) at.now) }
    requires alignment { IsAlignment graph.now (position_in at.now) }
    requires near { position_in at.now (output_name graph.now) ≤ 2 ^ 26 }
    ensures { IfOk result (λ v. v ≡ interleaved (shifted (position_in at.now (output_name graph.now) - latency_of_graph graph.now)
        (out_channels graph.now) (answer graph.now (frames_of (in_channels graph.now) input.now)))) }
{
    let positions = aligned(alloc, graph, at.as_slice())?;
    rendered(alloc, graph, &positions, input)
}

/// The answer at the positions of the nodes, by index.
fn rendered(
    alloc: Global,
    graph: &Checked,
    positions: &[u64],
    input: &[i64],
) -> Result<List<i64>, AllocError>
    requires whole { length input.now % in_channels graph.now ≡ 0 }
    requires small { AreUpTo (2 ^ 31) input.now }
    requires count { length positions.now ≡ length graph.now.nodes }
    requires alignment { IsAlignment graph.now (position_at graph.now positions.now) }
    ensures { IfOk result (λ v. v
        ≡ interleaved (shifted (position_at graph.now positions.now (output_name graph.now) - latency_of_graph graph.now)
        (out_channels graph.now) (answer graph.now (frames_of (in_channels graph.now) input.now)))) }
{
    let evaluation = Evaluation::new(alloc, graph, positions, input)?;
    let streams = evaluation.streams(alloc)?;
    let output = evaluation.incoming(alloc, &streams, graph.output() as usize)?;
    List::from_slice(alloc, &output)
}
