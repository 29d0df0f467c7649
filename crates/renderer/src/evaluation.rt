//! The streams of a graph's live nodes, in the order of the nodes.

ghost use Rattle.std.specs.Prelude.{◌≡◌, ◌*◌, ◌%◌, ◌^◌, ◌<◌, IfOk, length, pos, replicate, true};
ghost use Rattle.graph_model.specs.Graphs.{in_channels};
ghost use Rattle.graph_model.specs.Paths.{is_live};
ghost use Rattle.plan_model.specs.Alignments.{IsAlignment};
ghost use Rattle.graph_model.specs.Named.{uid_at};
ghost use Rattle.renderer.specs.Positions.{position_at};
ghost use Rattle.graph_model.specs.Bounds.{AreUpTo};

use crate::routes::{Route, routes};
use crate::streams::outgoing;
use connections::Checked;
use graph_model::{Kind, List};
use std::alloc::{AllocError, Global};

/// A graph at the positions of its nodes and its input, with what is looked up once: the routes of its live
/// connections and the number of frames.
#[derive(Drop)]
pub(crate) struct Evaluation<'a> {
    graph: &'a Checked,
    /// Where the nodes stand, by index: what the delays of the routes come from.
    positions: &'a [u64],
    routes: Vec<Route>,
    input: &'a [i64],
    frames: usize,
}

/// Zeros for so many frames. It fails only for want of memory, as for more samples than can be counted.
fn silent(alloc: Global, frames: usize, channels: usize) -> Result<Vec<i64>, AllocError>
    ensures { IfOk result (λ v. v.items ≡ replicate (frames * channels) (pos 0)) }
{
    match frames.checked_mul(channels) {
        Some(count) => vec![in alloc; 0; count],
        None => Err(AllocError),
    }
}

impl<'a> Evaluation<'a> {
    ghost use Rattle.renderer.specs.Evaluations.{IsEvaluation, HasAll, HasSources, incoming_at, outgoing_at};

    /// Of whole frames of the graph's input node, at positions that are an alignment of the live nodes.
    pub(crate) fn new(
        alloc: Global,
        graph: &'a Checked,
        positions: &'a [u64],
        input: &'a [i64],
    ) -> Result<Self, AllocError>
        requires count { length positions.now ≡ length graph.now.nodes }
        requires alignment { IsAlignment graph.now (position_at graph.now positions.now) }
        requires whole { length input.now % in_channels graph.now ≡ 0 }
        requires small { AreUpTo (2 ^ 31) input.now }
        ensures state { IfOk result IsEvaluation }
        ensures graph { IfOk result (λ e. e.graph.now ≡ graph.now) }
        ensures positions { IfOk result (λ e. e.positions.now ≡ positions.now) }
        ensures input { IfOk result (λ e. e.input.now ≡ input.now) }
    {
        Ok(Evaluation {
            graph,
            positions,
            routes: routes(alloc, graph, positions)?,
            input,
            frames: input.len() / graph.input_channels() as usize,
        })
    }

    /// What goes out of each live node, by index, interleaved.
    pub(crate) fn streams(&self, alloc: Global) -> Result<Vec<List<i64>>, AllocError>
        requires { IsEvaluation self.now }
        ensures { IfOk result (λ v. HasAll self.now v.items) }
    {
        let order = self.graph.order().as_slice();
        let mut streams = self.no_streams(alloc)?;
        for index in order {
            let node = *index as usize;
            if self.graph.is_live(*index) {
                let stream = self.outgoing(alloc, &streams, node)?;
                streams[node] = stream;
            }
        }
        Ok(streams)
    }

    /// An empty list for each node.
    fn no_streams(&self, alloc: Global) -> Result<Vec<List<i64>>, AllocError>
        ensures { IfOk result (λ v. length v.items ≡ length self.now.graph.now.nodes) }
    {
        let nodes = self.graph.graph().nodes.as_slice();
        nodes.iter().map(|_| List::new(alloc)).collect(alloc)
    }

    /// What goes out of a live node whose sources have their streams, interleaved.
    fn outgoing(
        &self,
        alloc: Global,
        streams: &[List<i64>],
        node: usize,
    ) -> Result<List<i64>, AllocError>
        requires state { IsEvaluation self.now }
        requires count { length streams.now ≡ length self.now.graph.now.nodes }
        requires node { node < length self.now.graph.now.nodes }
        requires live { is_live self.now.graph.now (uid_at self.now.graph.now node) ≡ true }
        requires sources { HasSources self.now streams.now node }
        ensures { IfOk result (λ v. v ≡ outgoing_at self.now node) }
    {
        let kind = &self.graph.graph().nodes.as_slice()[node].kind;
        match kind {
            Kind::Input { .. } => List::from_slice(alloc, self.input),
            Kind::Output { .. } => Ok(List::new(alloc)),
            _ => {
                let bound = self.graph.bound(node as u32);
                let incoming = self.incoming(alloc, streams, node)?;
                outgoing(alloc, kind, bound, &incoming)
            }
        }
    }

    /// What comes into a live node whose sources have their streams, interleaved: in each channel the sum of what its
    /// connections bring, and silence where it has none.
    pub(crate) fn incoming(
        &self,
        alloc: Global,
        streams: &[List<i64>],
        node: usize,
    ) -> Result<Vec<i64>, AllocError>
        requires state { IsEvaluation self.now }
        requires count { length streams.now ≡ length self.now.graph.now.nodes }
        requires node { node < length self.now.graph.now.nodes }
        requires live { is_live self.now.graph.now (uid_at self.now.graph.now node) ≡ true }
        requires sources { HasSources self.now streams.now node }
        ensures { IfOk result (λ v. v.items ≡ incoming_at self.now node) }
    {
        let channels = self.graph.graph().nodes.as_slice()[node].ins() as usize;
        let mut sums = silent(alloc, self.frames, channels)?;
        for route in &self.routes {
            if route.dst == node {
                let stream = streams[route.src].as_slice();
                route.add(stream, &mut sums, self.frames);
            }
        }
        Ok(sums)
    }
}
