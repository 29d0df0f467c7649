//! The jobs of a plan.

ghost use Rattle.std.specs.Prelude.{◌≡◌, ℕ, List, ◌++◌, true, IfOk, length, map};
ghost use Rattle.std.specs.List.{All};
ghost use Rattle.graph_model.specs.Paths.{is_live};
ghost use Rattle.graph_model.specs.Sound.{IsSound};
ghost use Rattle.plan_model.specs.Certified.{IsCertified};
ghost use Rattle.plan_model.specs.Schedules.{names};
ghost use Rattle.engine_model.specs.Machines.{homes_at};
ghost use Rattle.plan_jobs.specs.Blocks.{AreEnds, all_nodes};
ghost use Rattle.plan_jobs.specs.Jobs.{AreNewJobs, IsNewJob, core_home};

use crate::making::player_of;
use crate::places::homes_of;
use crate::sharing::spares_of;
use connections::Checked;
use graph_model::Uid;
use plan_model::{Plan, Wave};
use players::Player;
use pool_waves::{Buffer, Desk, Job};
use std::alloc::{AllocError, Global};

/// A job for each live node in the order of the waves, where in this list each wave ends, and how much work of each
/// wave other threads can take off one.
#[derive(Drop)]
pub struct Jobs {
    pub jobs: Vec<Job<Player>>,
    pub ends: Vec<usize>,
    pub spares: Vec<u64>,
}

/// Empty places for the buffers of so many values.
fn places(alloc: Global, count: usize) -> Result<Vec<Buffer>, AllocError>
    ensures { IfOk result (λ list. length list.items ≡ count) }
{
    let mut list = Vec::new(alloc);
    for _ in 0..count {
        list.push(Buffer::empty(alloc))?;
    }
    Ok(list)
}

/// The desk of a node.
fn desk_of(alloc: Global, plan: &Plan, uid: Uid) -> Result<Desk, AllocError>
    ensures homes { IfOk result (λ desk. map core_home desk.homes.items ≡ homes_at plan.now.homes uid.0) }
    ensures places { IfOk result (λ desk. length desk.outs.items ≡ length desk.homes.items) }
{
    let homes = homes_of(alloc, plan.homes.as_slice(), uid)?;
    let outs = places(alloc, homes.len())?;
    Ok(Desk { homes, outs })
}

/// The job of a live node that nothing has come into.
fn job_of(
    alloc: Global,
    checked: &Checked,
    plan: &Plan,
    uid: Uid,
) -> Result<Job<Player>, AllocError>
    requires certified { IsCertified checked.now plan.now }
    requires live { is_live checked.now uid.0 ≡ true }
    ensures { IfOk result (IsNewJob checked.now plan.now uid.0) }
{
    let graph = checked.graph();
    let index = graph.index_of(uid).unwrap();
    let node = &graph.nodes.as_slice()[index];
    let desk = desk_of(alloc, plan, uid)?;
    let part = player_of(
        alloc,
        graph,
        plan.at.as_slice(),
        plan.homes.as_slice(),
        desk.homes.as_slice(),
        node,
        checked.bound(index as u32),
    )?;
    Ok(Job {
        node: uid.0,
        index: index as u32,
        desk,
        part,
    })
}

/// The jobs of a wave after others.
fn with_wave(
    alloc: Global,
    checked: &Checked,
    plan: &Plan,
    wave: &Wave,
    mut jobs: Vec<Job<Player>>,
) -> Result<Vec<Job<Player>>, AllocError>
    requires certified { IsCertified checked.now plan.now }
    requires live { All (λ u. is_live checked.now u.0 ≡ true) wave.now.nodes }
    ensures { IfOk result (λ more. (vs : List ℕ) → AreNewJobs checked.now plan.now vs jobs.items
        → AreNewJobs checked.now plan.now (vs ++ names wave.now) more.items) }
{
    for uid in wave.nodes.as_slice() {
        jobs.push(job_of(alloc, checked, plan, *uid)?)?;
    }
    Ok(jobs)
}

/// The jobs of a certified plan, all new. It fails only for want of memory.
pub fn jobs_of(alloc: Global, checked: &Checked, plan: &Plan) -> Result<Jobs, AllocError>
    requires certified { IsCertified checked.now plan.now }
    ensures jobs { IfOk result (λ r. AreNewJobs checked.now plan.now (all_nodes plan.now) r.jobs.items) }
    ensures ends { IfOk result (λ r. AreEnds plan.now (length plan.now.waves) r.ends.items) }
{
    let graph = checked.graph();
    let mut jobs = Vec::new(alloc);
    let mut ends = Vec::new(alloc);
    for wave in plan.waves.as_slice() {
        jobs = with_wave(alloc, checked, plan, wave, jobs)?;
        ends.push(jobs.len())?;
    }
    let spares = spares_of(alloc, graph, jobs.as_slice(), ends.as_slice())?;
    Ok(Jobs { jobs, ends, spares })
}
