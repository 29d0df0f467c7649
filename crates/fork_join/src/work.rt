//! Jobs that share what they read, and the call that runs each once in at most so many threads.

ghost use Rattle.std.specs.Prelude.{◌≡◌, ℕ, ◌<◌, ◌≤◌, length, slice_index_or, All};
ghost use denote.Param.Send.{IsSync, IsSend};
ghost use Rattle.fork_join.specs.Runs.{HaveRun};

use std::num::NonZeroUsize;
use std::thread;
use std::thread::{Threads, join_mut};

/// A job, which changes itself and reads what all jobs of its list share.
pub trait Work<S> {
    /// The job may be run.
    ghost ready: { S → Self → Type 0 };

    /// What a run of the job leaves of it.
    ghost done: { S → Self → Self → Type 0 };

    /// Runs the job.
    fn work(&mut self, shared: &S)
        requires { ready shared.now self.old }
        ensures { done shared.now self.old self.new };
}

/// Runs every job once, in at most so many threads and no more than there are jobs. This thread is one of them: where
/// `threads` is less than two, or there is one job, none is started. It takes no memory of its own; where the system
/// can make no thread, jobs run in turn.
pub fn run<T: Threads + Sync, S: Sync, J: Work<S> + Send>(
    rt: &T,
    threads: usize,
    shared: &S,
    jobs: &mut [J],
)
    requires ready { All (J.ready shared.now) jobs.old }
    ensures len { length jobs.new ≡ length jobs.old }
    ensures done { (i : ℕ) (d : _) → i < length jobs.old → J.done shared.now (slice_index_or jobs.old i d) (slice_index_or jobs.new i d) }
{
    share(rt, threads, shared, jobs);
}

/// Runs jobs in turn.
fn in_turn<T: Threads + Sync, S: Sync, J: Work<S> + Send>(rt: &T, shared: &S, jobs: &mut [J])
    requires { All (J.ready shared.now) jobs.old }
    ensures { HaveRun (J.done shared.now) jobs.old jobs.new }
{
    thread::for_each_mut(rt, jobs, 1, &|_, job| job.work(shared));
}

/// Runs jobs in so many threads: the first of as many parts in a new one, and the others in those that are left. So this
/// thread starts all of them, one after the other, and runs the last part.
#[cycle(parts)]
fn share<T: Threads + Sync, S: Sync, J: Work<S> + Send>(
    rt: &T,
    threads: usize,
    shared: &S,
    jobs: &mut [J],
)
    requires { All (J.ready shared.now) jobs.old }
    ensures { HaveRun (J.done shared.now) jobs.old jobs.new }
{
    if threads < 2 || jobs.len() < 2 {
        in_turn(rt, shared, jobs);
        return;
    }
    let (first, rest) = jobs.split_at_mut(jobs.len().div_ceil(threads));
    beside(rt, threads - 1, shared, first, rest);
}

/// Runs the first jobs in a new thread, and the rest in so many.
#[cycle(parts)]
fn beside<T: Threads + Sync, S: Sync, J: Work<S> + Send>(
    rt: &T,
    threads: usize,
    shared: &S,
    first: &mut [J],
    rest: &mut [J],
)
    requires first { All (J.ready shared.now) first.old }
    requires rest { All (J.ready shared.now) rest.old }
    ensures first { HaveRun (J.done shared.now) first.old first.new }
    ensures rest { HaveRun (J.done shared.now) rest.old rest.new }
{
    let mut there = ||
        requires { IsSync T.row × IsSync S.row × IsSend J.row × All (J.ready shared.now) first.now }
        ensures { HaveRun (J.done shared.entry.now) first.entry.now first.exit.now }
    { in_turn(rt, shared, first) };
    let mut here = ||
        requires { IsSync T.row × IsSync S.row × IsSend J.row × All (J.ready shared.now) rest.now }
        ensures { HaveRun (J.done shared.entry.now) rest.entry.now rest.exit.now }
    { share(rt, threads, shared, rest) };
    join_mut(rt, &mut there, &mut here);
}

/// How many threads serve: as many as there are processors, and two on any machine. It reads files, which costs about
/// as much as to start a thread, so that a caller asks once.
pub fn processors(rt: &impl Threads) -> usize
    ensures { 2 ≤ result }
{
    let processors = thread::available_parallelism(rt).map_or(2, NonZeroUsize::get);
    processors.max(2)
}
