//! That two nodes of one wave run beside each other inside one block.

ghost use Rattle.std.specs.Prelude.{IfOk};
ghost use Rattle.graph_model.specs.Sound.{Fits};
ghost use Rattle.plan_model.specs.Certified.{IsCertified};

use crate::blocks::{block, noise, widths_of};
use connections::{Checked, check};
use engine::Engine;
use fork_join::Gate;
use graph_model::Graph;
use plan_compiler::compile;
use plan_model::{Mode, Plan};
use std::alloc::{AllocError, Global};
use std::sync::atomic::{AtomicBool, Ordering};
use std::test::Fail;
use std::thread::Threads;
use test_graphs::{fir, graph_of, input, joined, output};

/// How often a job looks for the other one, at most.
const LOADS: u32 = 1 << 30;

/// What a gate notes of a job: that it is there, and that it saw the other one.
#[derive(Drop)]
struct Place {
    here: AtomicBool,
    met: AtomicBool,
}

impl Place {
    fn new() -> Self {
        Place {
            here: AtomicBool::new(false),
            met: AtomicBool::new(false),
        }
    }
}

/// A gate at which the jobs of the nodes with the indexes 2 and 3 meet: each waits until the other is there.
#[derive(Drop)]
struct Meeting {
    first: Place,
    second: Place,
}

fn is_raised(flag: &AtomicBool) -> bool {
    (0..LOADS).any(|_| flag.load(Ordering::SeqCst))
}

impl Gate for Meeting {
    fn pass(&self, node: u32) {
        let (own, other) = match node {
            2 => (&self.first, &self.second),
            3 => (&self.second, &self.first),
            _ => return,
        };
        own.here.store(true, Ordering::SeqCst);
        own.met.store(is_raised(&other.here), Ordering::SeqCst);
    }
}

/// Two filters of a hundred taps, a wave that is worth a thread.
fn two_filters(alloc: Global) -> Result<Graph, AllocError>
    ensures { IfOk result Fits }
{
    let nodes = vec![in alloc;
        input(1, 1),
        output(2, 1),
        fir(alloc, 3, &[1; 100], 8, 0)?,
        fir(alloc, 4, &[1; 100], 8, 0)?,
    ]?;
    let ways = [joined(1, 3), joined(1, 4), joined(3, 2), joined(4, 2)];
    graph_of(alloc, nodes, &ways)
}

/// Takes one long block through a new engine.
fn pass_block<R: Threads + Sync>(
    rt: &R,
    alloc: Global,
    gate: &Meeting,
    checked: &Checked,
    plan: &Plan,
) -> Result<(), AllocError>
    requires { IsCertified checked.now plan.now }
{
    let widths = widths_of(checked);
    let mut engine = Engine::new(alloc, checked, plan, 8192)?;
    let samples = noise(alloc, 8192 * widths.ins)?;
    block(
        rt,
        gate,
        alloc,
        &mut engine,
        widths,
        8192,
        samples.as_slice(),
    )?;
    Ok(())
}

/// Takes one long block through a graph, wave by wave.
fn pass_graph<R: Threads + Sync>(
    rt: &R,
    alloc: Global,
    gate: &Meeting,
    graph: Graph,
) -> Result<(), Fail>
    requires { Fits graph }
{
    let checked = check(alloc, graph)?;
    let plan = compile(alloc, &checked, Mode::Waves)?;
    pass_block(rt, alloc, gate, &checked, &plan)?;
    Ok(())
}

/// A wave in a plain loop would leave the first of the two in vain.
#[test]
fn two_nodes_of_a_wave_meet_inside_one_block(rt: HostRuntime) -> Result<(), Fail> {
    let alloc = rt.alloc();
    let meeting = Meeting {
        first: Place::new(),
        second: Place::new(),
    };
    pass_graph(&rt, alloc, &meeting, two_filters(alloc)?)?;
    assert!(rt; meeting.first.met.load(Ordering::SeqCst));
    assert!(rt; meeting.second.met.load(Ordering::SeqCst));
    Ok(())
}
