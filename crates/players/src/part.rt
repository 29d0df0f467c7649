//! A node as the part of a job.

use crate::playing::Player;
use pool_waves::{Buffer, Home, Part};

/// What all nodes read beside the pool: the block that comes into the graph, interleaved, and its number of channels.
pub struct Stage<'a> {
    pub input: &'a [i64],
    pub channels: usize,
}

impl<'a> Part<Stage<'a>> for Player {
    ghost use Rattle.graph_model.specs.Histories.{frame_in};
    ghost use Rattle.players.specs.Plays.{CanPlay, PlayerDone};

    ghost ready = { λ s n pool homes outs a. CanPlay s.input.now s.channels pool homes outs n a };

    ghost done = { λ s n pool homes outs a outs' b. PlayerDone (frame_in s.channels s.input.now) n pool homes outs a outs' b };

    fn play(
        &mut self,
        shared: &Stage<'a>,
        pool: &[Buffer],
        homes: &[Home],
        outs: &mut [Buffer],
        frames: usize,
    ) {
        self.play_block(shared.input, shared.channels, pool, homes, outs, frames);
    }
}
