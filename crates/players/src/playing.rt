//! A node at work.

ghost use Rattle.std.specs.Prelude.{◌≡◌, ℕ, ◌+◌, ◌*◌, ◌^◌, ◌<◌, ◌≤◌, ◌++◌, suc, pos, length, get_or};
ghost use Rattle.graph_model.specs.Blocks.{planar_frame};
ghost use Rattle.graph_model.specs.Histories.{History, frame_in};
ghost use Rattle.players.specs.Plays.{CanPlay, CanTake, CanTurn, HasPlayed, HasTaken, IsWhole};
ghost use Rattle.players.specs.Servers.{FitsServer, IsWithinServer, SameServer, ServerHolds, brought, given_by};

use crate::gathering::{Wire, alone, gather};
use crate::leaving::Leaving;
use crate::scattering::scatter;
use crate::serving::{enter, process};
use delay_lines::Line;
use pool_waves::{Buffer, Home};
use processors::Processor;

/// The most frames that a node takes at a time.
pub const SUB: usize = 64;

/// What a node does with its frames.
#[derive(Drop)]
pub enum Server {
    /// It gives the frames that come into the graph.
    Entry,
    /// It keeps the frames that go out of the graph.
    Exit(Leaving),
    /// It takes frames and gives frames.
    Between(Processor),
}

impl Server {
    /// Takes a sub-block of frames, and gives as many: the sample of channel c in frame t stands at c * count + t.
    pub fn serve(
        &mut self,
        input: &[i64],
        channels: usize,
        first: usize,
        count: usize,
        ins: usize,
        outs: usize,
        sums: &[i64],
        told: &mut [i64],
    )
        requires few { count ≤ 64 }
        requires size { first + count < 2 ^ 63 }
        requires fits { FitsServer self.old ins outs }
        requires sums { ins * count ≤ length sums.now }
        requires told { outs * count ≤ length told.old }
        requires within { (t : ℕ) → t < count → IsWithinServer self.old (planar_frame ins count sums.now t) }
        requires entry { (first + count) * channels ≤ length input.now }
        ensures same { SameServer self.old self.new }
        ensures fits { FitsServer self.new ins outs }
        ensures holds { (h : History) → ServerHolds self.old h
            → ServerHolds self.new (brought self.old (frame_in channels input.now) first (planar_frame ins count sums.now) count ++ h) }
        ensures told { (h : History) (c t : ℕ) → ServerHolds self.old h → c < outs → t < count
            → get_or told.new (c * count + t) (pos 0)
            ≡ get_or (given_by self.old (brought self.old (frame_in channels input.now) first (planar_frame ins count sums.now) (suc t)
            ++ h)) c (pos 0) }
    {
        match self {
            Server::Entry => enter(input, channels, first, count, outs, told),
            Server::Exit(leaving) => leaving.leave(count, sums),
            Server::Between(processor) => process(processor, count, ins, outs, sums, told),
        }
    }
}

/// How many frames are taken next, of those that are left.
fn sub_block(left: usize) -> usize
    requires { 0 < left }
    ensures some { 0 < result }
    ensures most { result ≤ 64 }
    ensures within { result ≤ left }
{
    if left < SUB { left } else { SUB }
}

/// A node at work: its wires and their lines, the input channels that no wire feeds, what it does with its frames, how
/// many channels those have, and room for a sub-block of what comes in, of what goes out, and of one channel.
#[derive(Drop)]
pub struct Player {
    pub wires: Vec<Wire>,
    pub lines: Vec<Line>,
    pub silent: Vec<usize>,
    pub server: Server,
    pub ins: usize,
    pub outs: usize,
    pub sums: Vec<i64>,
    pub told: Vec<i64>,
    pub spare: Vec<i64>,
}

impl Player {
    /// Takes a sub-block. What it gives stands in `told` then.
    fn take(
        &mut self,
        input: &[i64],
        channels: usize,
        pool: &[Buffer],
        outs: &[Buffer],
        first: usize,
        count: usize,
    )
        requires { CanTake input.now channels pool.now outs.now first count self.old }
        ensures whole { IsWhole self.new }
        ensures taken { HasTaken (frame_in channels input.now) pool.now outs.now first count self.old self.new }
    {
        let wires = self.wires.as_slice();
        let told = self.told.as_mut_slice();
        match alone(
            wires,
            self.lines.as_slice(),
            self.ins,
            pool,
            outs,
            first,
            count,
        ) {
            Some(samples) => self.server.serve(
                input, channels, first, count, self.ins, self.outs, samples, told,
            ),
            None => {
                let sums = self.sums.as_mut_slice();
                gather(
                    wires,
                    self.silent.as_slice(),
                    pool,
                    outs,
                    first,
                    count,
                    self.lines.as_mut_slice(),
                    sums,
                    self.spare.as_mut_slice(),
                );
                self.server.serve(
                    input, channels, first, count, self.ins, self.outs, sums, told,
                );
            }
        }
    }

    /// Takes a sub-block, and writes what it gives: all its inputs are read before an output is written.
    fn turn(
        &mut self,
        input: &[i64],
        channels: usize,
        pool: &[Buffer],
        homes: &[Home],
        outs: &mut [Buffer],
        first: usize,
        count: usize,
    )
        requires { CanTurn input.now channels pool.now homes.now outs.old first count self.old }
        ensures whole { IsWhole self.new }
        ensures len { length outs.new ≡ length outs.old }
        ensures played { HasPlayed (frame_in channels input.now) pool.now homes.now first count outs.old self.old outs.new self.new }
    {
        self.take(input, channels, pool, outs, first, count);
        scatter(homes, self.told.as_slice(), first, count, outs);
    }

    /// Takes a block, in sub-blocks.
    pub fn play_block(
        &mut self,
        input: &[i64],
        channels: usize,
        pool: &[Buffer],
        homes: &[Home],
        outs: &mut [Buffer],
        frames: usize,
    )
        requires { CanPlay input.now channels pool.now homes.now outs.old frames self.old }
        ensures whole { IsWhole self.new }
        ensures len { length outs.new ≡ length outs.old }
        ensures played { HasPlayed (frame_in channels input.now) pool.now homes.now 0 frames outs.old self.old outs.new self.new }
    {
        let mut first = 0;
        while first < frames {
            let count = sub_block(frames - first);
            self.turn(input, channels, pool, homes, outs, first, count);
            first += count;
        }
    }
}
