//! What the jobs of a wave read, and the call that runs a wave.

ghost use Rattle.pool_waves.specs.Waves.{IsWave, WaveRan};

use crate::buffer::Buffer;
use crate::exchanges::exchange;
use crate::job::Job;
use crate::part::Part;
use fork_join::{Gate, Work};
use std::thread::Threads;

/// What the jobs of a wave read: what is left of the pool, the block's number of frames, the gate that each passes
/// first, and what their parts share.
pub struct Table<'a, S, G> {
    pool: &'a [Buffer],
    frames: usize,
    gate: &'a G,
    shared: &'a S,
}

impl<'a, S, G: Gate, P: Part<S>> Work<Table<'a, S, G>> for Job<P> {
    ghost use Rattle.pool_waves.specs.Waves.{PartDone};

    ghost ready = { λ s j. P.ready s.shared.now s.frames s.pool.now j.desk.homes.items j.desk.outs.items j.part };

    ghost done = { λ s a b. PartDone (P.done s.shared.now s.frames s.pool.now a.desk.homes.items) a b };

    fn work(&mut self, table: &Table<'a, S, G>) {
        table.gate.pass(self.index);
        self.part.play(
            table.shared,
            table.pool,
            self.desk.homes.as_slice(),
            self.desk.outs.as_mut_slice(),
            table.frames,
        );
    }
}

/// Runs a wave in at most so many threads, of which this one is one: each of its jobs passes the gate with its node's
/// index and then takes this many frames. It takes no memory.
pub fn run_wave<T: Threads + Sync, G: Gate + Sync, S: Sync, P: Part<S> + Send>(
    rt: &T,
    threads: usize,
    gate: &G,
    shared: &S,
    jobs: &mut [Job<P>],
    pool: &mut [Buffer],
    frames: usize,
)
    requires { IsWave (P.ready shared.now frames) pool.old jobs.old }
    ensures { WaveRan (P.done shared.now frames) pool.old jobs.old pool.new jobs.new }
{
    exchange(jobs, pool);
    let table = Table {
        pool,
        frames,
        gate,
        shared,
    };
    fork_join::run(rt, threads, &table, jobs);
    let Table {
        pool: _,
        frames: _,
        gate: _,
        shared: _,
    } = table;
    exchange(jobs, pool);
}
