//! What an engine is made of beside its jobs.

ghost use Rattle.std.specs.Prelude.{◌≡◌, ◌==◌, pos, IfOk, replicate};
ghost use Rattle.std.specs.List.{position};
ghost use Rattle.engine.specs.Working.{AreDelays};

use graph_model::Uid;
use plan_model::Plan;
use players::Player;
use pool_waves::{Buffer, Job};
use std::alloc::{AllocError, Global};

/// A pool of so many buffers of zeros.
pub(crate) fn pool_of(
    alloc: Global,
    channels: usize,
    block: usize,
) -> Result<Vec<Buffer>, AllocError>
    ensures { IfOk result (λ pool. pool.items ≡ replicate channels (replicate block (pos 0))) }
{
    let mut pool = Vec::new(alloc);
    for _ in 0..channels {
        pool.push(Buffer::zeros(alloc, block)?)?;
    }
    Ok(pool)
}

/// The place of a node's job.
pub(crate) fn job_place(jobs: &[Job<Player>], uid: Uid) -> Option<usize>
    ensures { result ≡ position (λ j. j.node == uid.0) jobs.now }
{
    jobs.iter().position(|job| job.node == uid.0)
}

/// The lengths of a plan's delay lines.
pub(crate) fn delays_of(alloc: Global, plan: &Plan) -> Result<Vec<u64>, AllocError>
    ensures { IfOk result (λ list. AreDelays plan.now list.items) }
{
    let mut list = Vec::new(alloc);
    for line in plan.lines.as_slice() {
        list.push(line.delay)?;
    }
    Ok(list)
}
