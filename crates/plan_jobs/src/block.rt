//! All waves of a block.

ghost use Rattle.std.specs.Prelude.{◌≡◌, ℕ, ◌<◌, ◌≤◌, [], length, slice_index_or};
ghost use Rattle.plan_jobs.specs.Blocks.{BlockHasRun, CanRunBlock};

use crate::sharing::threads_for;
use fork_join::Gate;
use players::{Player, Stage};
use pool_waves::{Buffer, Job, run_wave};
use std::thread::Threads;

/// Runs a block, wave after wave. `ends` says where in the list of jobs each wave ends, `spares` how much work of it
/// other threads can take off one; a wave where that is worth it runs in up to so many threads.
pub fn run_block<'a, T: Threads + Sync, G: Gate + Sync>(
    rt: &T,
    threads: usize,
    gate: &G,
    stage: &Stage<'a>,
    jobs: &mut [Job<Player>],
    ends: &[usize],
    spares: &[u64],
    pool: &mut [Buffer],
    frames: usize,
)
    requires { CanRunBlock stage.now.input.now stage.now.channels ends.now frames jobs.old pool.old }
    ensures { BlockHasRun stage.now.input.now stage.now.channels ends.now frames jobs.old pool.old jobs.new pool.new }
{
    let mut start = 0;
    let mut spares = spares.iter();
    for end in ends {
        let end = *end;
        let threads = threads_for(spares.next(), frames, threads);
        run_wave(
            rt,
            threads,
            gate,
            stage,
            &mut jobs[start..end],
            pool,
            frames,
        );
        start = end;
    }
}
