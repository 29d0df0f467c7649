//! The engine.

ghost use Rattle.std.specs.Prelude.{◌≡◌, ℕ, ◌+◌, ◌/◌, ◌^◌, ◌<◌, ◌≤◌, [], IfOk, length};
ghost use Rattle.graph_model.specs.Histories.{History, frames_of};
ghost use Rattle.plan_model.specs.Certified.{IsCertified};
ghost use Rattle.engine_model.specs.Cuttings.{HasRendered};
ghost use Rattle.engine_model.specs.Engines.{ins, Stands, IsBlock, IsNew};
ghost use Rattle.engine_model.specs.Events.{AnyOrder};
ghost use Rattle.engine.specs.Working.{AreDelays, IsRendered, MayRender};

use crate::made::{delays_of, job_place, pool_of};
use crate::output::{begin_all, leave};
use crate::shape::Shape;
use crate::threads::{asked, at_first};
use connections::Checked;
use fork_join::Gate;
use graph_model::Graph;
use plan_jobs::{Jobs, jobs_of, run_block};
use plan_model::Plan;
use players::{Player, Stage};
use pool_waves::{Buffer, Job};
use std::alloc::{AllocError, Global};
use std::marker::Model;
use std::thread::Threads;

/// Renders a graph by a plan, block by block. Contracts see its graph and its plan, the longest block, how many frames
/// have come in, what its kernels and lines hold, and its pool.
#[derive(Drop)]
pub struct Engine {
    graph: Graph,
    plan: Plan,
    block: u32,
    frames: u64,
    shape: Shape,
    threads: Option<usize>,
    jobs: Vec<Job<Player>>,
    pool: Vec<Buffer>,
    lines: Vec<u64>,
}

impl Model for Engine {
    ghost use Rattle.engine_model.specs.Engines.{Parts};
    ghost use Rattle.engine.specs.Views.{parts_of};
    ghost use Rattle.engine.specs.Working.{AreDelays, IsWorking};

    ghost Value = { Parts };

    ghost view = { λ e. parts_of e.graph e.plan e.block e.frames e.jobs.items e.pool.items };

    ghost invariant = { λ e. IsWorking e.graph e.plan e.block e.frames e.shape e.jobs.items e.pool.items × AreDelays e.plan e.lines.items };
}

impl Engine {
    /// An engine that nothing has come into, for blocks of 1 to `block` frames. It keeps a copy of the graph and of the
    /// plan, which is certified for it. All memory is taken here, and it fails only for want of it.
    pub fn new(
        alloc: Global,
        checked: &Checked,
        plan: &Plan,
        block: u32,
    ) -> Result<Engine, AllocError>
        requires certified { IsCertified checked.now plan.now }
        requires some { 1 ≤ block }
        requires most { block ≤ 8192 }
        ensures keeps { IfOk result (IsNew checked.now plan.now block) }
        ensures stands { IfOk result (λ e. Stands e []) }
    {
        let graph = checked.graph();
        let Jobs { jobs, ends, spares } = jobs_of(alloc, checked, plan)?;
        let output = checked.uid(checked.output());
        let shape = Shape {
            ins: checked.input_channels() as usize,
            outs: checked.output_channels() as usize,
            exit: job_place(jobs.as_slice(), output).unwrap(),
            ends,
            spares,
        };
        let pool = pool_of(alloc, plan.channels as usize, block as usize)?;
        let lines = delays_of(alloc, plan)?;
        Ok(Engine {
            graph: graph.copy(alloc)?,
            plan: plan.copy(alloc)?,
            block,
            frames: 0,
            threads: at_first(&shape, block as usize),
            shape,
            jobs,
            pool,
            lines,
        })
    }

    /// Takes a block of frames, and gives as many. Both are interleaved, frame by frame, with a sample for each
    /// channel of the graph's input node and of its output node. Each job passes the gate with its node's index
    /// before its first frame. No memory is taken.
    pub fn render<T: Threads + Sync, G: Gate + Sync>(
        &mut self,
        rt: &T,
        gate: &G,
        input: &[i64],
        output: &mut [i64],
    )
        requires block { (n : ℕ) × IsBlock self.old n input.now output.old }
        requires count { self.old.frames + length (frames_of (ins self.old) input.now) < 2 ^ 63 }
        ensures rendered { HasRendered self.old input.now output.new self.new }
        ensures orders { (h : History) → Stands self.old h → AnyOrder self.old self.new input.now output.new h }
        ensures count { self.new.frames ≡ self.old.frames + length (frames_of (ins self.old) input.now) }
    {
        let threads = asked(rt, &mut self.threads);
        let count = render_block(
            rt,
            threads,
            gate,
            &self.shape,
            self.frames,
            self.jobs.as_mut_slice(),
            self.pool.as_mut_slice(),
            input,
            output,
        );
        self.frames += count as u64;
    }

    /// How many frames have come in.
    pub fn frames(&self) -> u64
        ensures { result ≡ self.now.frames }
    {
        self.frames
    }

    /// The lengths of the delay lines, in samples: one for each live connection, ascending by its index.
    pub fn lines(&self) -> &[u64]
        ensures { AreDelays self.now.plan result.now }
    {
        self.lines.as_slice()
    }

    /// How many buffers the pool has.
    pub fn channels(&self) -> u32
        ensures plan { result ≡ self.now.plan.channels }
        ensures pool { length self.now.pool ≡ result }
    {
        self.plan.channels
    }
}

/// Takes a block through the jobs, and says how many frames it had.
fn render_block<T: Threads + Sync, G: Gate + Sync>(
    rt: &T,
    threads: usize,
    gate: &G,
    shape: &Shape,
    frames: u64,
    jobs: &mut [Job<Player>],
    pool: &mut [Buffer],
    input: &[i64],
    output: &mut [i64],
) -> usize
    requires { MayRender shape.now frames jobs.old pool.old input.now output.old }
    ensures count { result ≡ length input.now / shape.now.ins }
    ensures rendered { IsRendered shape.now frames jobs.old pool.old input.now jobs.new pool.new output.new }
{
    let count = input.len() / shape.ins;
    let stage = Stage {
        input,
        channels: shape.ins,
    };
    begin_all(jobs, frames);
    run_block(
        rt,
        threads,
        gate,
        &stage,
        jobs,
        shape.ends.as_slice(),
        shape.spares.as_slice(),
        pool,
        count,
    );
    let Stage {
        input: _,
        channels: _,
    } = stage;
    leave(&jobs[shape.exit], count, shape.outs, output);
    count
}
