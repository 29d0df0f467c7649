//! A sound graph, and what is known of it.

ghost use Rattle.std.specs.Prelude.{◌≡◌, ◌<◌, ◌≤◌, ◌^◌, length, get_or};
ghost use Rattle.graph_model.specs.Bounds.{bounds};
ghost use Rattle.graph_model.specs.Graphs.{input_name, output_name, in_channels, out_channels};
ghost use Rattle.graph_model.specs.Paths.{reach, is_live, latency_of_graph, IsPrintedPath};
ghost use Rattle.graph_model.specs.declared.graph.Connection.{Connection};
ghost use Rattle.graph_model.specs.Sound.{IsSound};
ghost use Rattle.graph_model.specs.Named.{uid_at};
ghost use Rattle.topology.specs.Answers.{IsOrderOfNodes};

use graph_model::{Bound, Graph, List, Uid};
use std::marker::Model;
use topology::{Link, Reach};

/// The nodes that a connection joins, by their indexes.
#[derive(Clone, Copy, Debug, PartialEq, Eq)]
pub struct Ends {
    /// The node that it reads.
    pub source: u32,
    /// The node that it leads into.
    pub destination: u32,
}

/// A sound graph, with its order, its reaches and its printed path, its live nodes and its bounds. Contracts see the
/// graph. It is made by [`check`](crate::check) alone. Nodes are named by their indexes: their places in the graph's
/// list, from 0.
#[derive(Debug, Drop)]
pub struct Checked {
    pub(crate) graph: Graph,
    pub(crate) order: List<u32>,
    pub(crate) reach: Reach,
    pub(crate) live: List<bool>,
    pub(crate) bounds: List<Bound>,
    pub(crate) links: Vec<Link>,
}

impl Model for Checked {
    ghost use Rattle.graph_model.specs.declared.graph.Graph.{Graph as SoundGraph};

    ghost Value = { SoundGraph };

    ghost use Rattle.connections.specs.Facts.{AreFacts};

    ghost view = { λ c. c.graph };

    ghost invariant = { AreFacts };
}

impl Checked {
    /// The graph, which is sound.
    pub fn graph(&self) -> &Graph
        ensures same { result.now ≡ self.now }
        ensures sound { IsSound self.now }
    {
        &self.graph
    }

    /// The indexes of the nodes in their order: again and again the node of least uid whose sources have all been
    /// taken.
    pub fn order(&self) -> &List<u32>
        ensures { IsOrderOfNodes self.now result.now }
    {
        &self.order
    }

    /// The greatest sum, in frames, of the latencies of the nodes before a node over all paths into it, and 0 where no
    /// connection leads into it. That of the output node is the graph's latency.
    pub fn reach(&self, node: u32) -> u64
        requires { node < length self.now.nodes }
        ensures { result ≡ reach self.now (uid_at self.now node) }
    {
        self.reach.at.as_slice()[node as usize]
    }

    /// The printed path, from its first node to the output node: found from the output backwards, each step goes to
    /// the source of least uid that meets the reach, until no connection leads on.
    pub fn path(&self) -> &List<Uid>
        ensures { IsPrintedPath self.now result.now }
    {
        &self.reach.path
    }

    /// Whether a node is the output node or connections lead from it to the output node.
    pub fn is_live(&self, node: u32) -> bool
        requires { node < length self.now.nodes }
        ensures { result ≡ is_live self.now (uid_at self.now node) }
    {
        self.live.as_slice()[node as usize]
    }

    /// How large the samples of a node's channels can be, each at most 2^46, where those of the graph's input are at
    /// most 2^31.
    pub fn bound(&self, node: u32) -> &Bound
        requires { node < length self.now.nodes }
        ensures { result.now ≡ bounds self.now (uid_at self.now node) }
    {
        &self.bounds.as_slice()[node as usize]
    }

    /// The uid of a node.
    pub fn uid(&self, node: u32) -> Uid
        requires { node < length self.now.nodes }
        ensures { result.0 ≡ uid_at self.now node }
    {
        self.graph.nodes.as_slice()[node as usize].uid
    }

    /// The index of the input node.
    pub fn input(&self) -> u32
        ensures within { result < length self.now.nodes }
        ensures name { uid_at self.now result ≡ input_name self.now }
    {
        self.graph().input_index().unwrap() as u32
    }

    /// The index of the output node.
    pub fn output(&self) -> u32
        ensures within { result < length self.now.nodes }
        ensures name { uid_at self.now result ≡ output_name self.now }
    {
        self.graph().output_index().unwrap() as u32
    }

    /// How many channels come into the graph: those of the input node.
    pub fn input_channels(&self) -> u32
        ensures channels { result ≡ in_channels self.now }
        ensures least { 1 ≤ result }
        ensures most { result ≤ 32 }
    {
        let graph = self.graph();
        let index = graph.input_index().unwrap();
        graph.nodes.as_slice()[index].outs()
    }

    /// How many channels the graph's answer has: those of the output node.
    pub fn output_channels(&self) -> u32
        ensures channels { result ≡ out_channels self.now }
        ensures least { 1 ≤ result }
        ensures most { result ≤ 32 }
    {
        let graph = self.graph();
        let index = graph.output_index().unwrap();
        graph.nodes.as_slice()[index].ins()
    }

    /// The latency of the graph, in frames: the reach of its output node.
    pub fn latency(&self) -> u64
        ensures latency { result ≡ latency_of_graph self.now }
        ensures small { result ≤ 2 ^ 26 }
    {
        self.reach.at.as_slice()[self.output() as usize]
    }

    /// The nodes that a connection joins. Connections are named by their indexes, as nodes are.
    pub fn ends(&self, connection: u32) -> Ends
        requires { connection < length self.now.connections }
        ensures source_within { result.source < length self.now.nodes }
        ensures destination_within { result.destination < length self.now.nodes }
        ensures source { (d : Connection) → uid_at self.now result.source ≡ (get_or self.now.connections connection d).src.0 }
        ensures destination { (d : Connection) → uid_at self.now result.destination ≡ (get_or self.now.connections connection d).dst.0 }
    {
        let Link { from, to } = self.links[connection as usize];
        Ends {
            source: from as u32,
            destination: to as u32,
        }
    }
}
