//! `compile GRAPH [--waves]`: the plan of a graph, on the report.

ghost use Rattle.std.specs.Prelude.{◌≡◌, ◌≤◌, IfErr, IfOk, Ok as Asks};
ghost use Rattle.command_words.specs.Compiling.{compile_said};
ghost use Rattle.command_words.specs.Requests.{compile};
ghost use Rattle.gh_outside.specs.Causes.{Rose};
ghost use Rattle.graph_model.specs.Sound.{IsSound};
ghost use Rattle.plan_text.specs.Texts.{text_of, IsInRange};
ghost use Rattle.host_modes.specs.Asked.{mode_of};
ghost use Rattle.host_modes.specs.Causes.{IsCompileEnd, Stops};
ghost use Rattle.host_modes.specs.Ends.{IsOfFiles};
ghost use Rattle.host_modes.specs.Outside.{outside};
ghost use Rattle.host_modes.specs.Plans.{IsBestPlan};
ghost use Rattle.host_modes.specs.Runs.{IsRun};
ghost use Rattle.host_modes.specs.Works.{IsWork};

use crate::ends::{End, Outcome};
use crate::modes::reporting::{Work, reported};
use crate::reading::graphs::graph_under;
use command_words::CompileRequest;
use connections::Checked;
use gh_outside::{Folder, Sink};
use plan_model::{Mode, Plan};
use std::alloc::{AllocError, Global};

/// The schedule that is asked for.
fn mode(waves: bool) -> Mode
    ensures { result ≡ mode_of waves }
{
    if waves { Mode::Waves } else { Mode::OneByOne }
}

/// The plan of a graph, one by one or by waves, and its text.
pub(crate) fn planned(
    alloc: Global,
    graph: &Checked,
    waves: bool,
) -> Result<(Plan, Vec<u8>), AllocError>
    requires { IsSound graph.now }
    ensures plan { IfOk result (λ r. IsBestPlan graph.now (mode_of waves) r.0) }
    ensures text { IfOk result (λ r. r.1.items ≡ text_of r.0) }
{
    let plan = plan_compiler::compile(alloc, graph, mode(waves))?;
    let text = plan_text::print(alloc, &plan)?;
    Ok((plan, text))
}

/// Reads the graph and compiles its plan.
fn prepare<F: Folder>(alloc: Global, folder: &mut F, request: &CompileRequest) -> Result<Work, End>
    ensures held { F.held folder.new ≡ F.held folder.old }
    ensures work { IfOk result (λ w. IsWork (Asks (compile (compile_said request.now))) (F.held folder.old) w.plan w.text.items w.end) }
    ensures stops { IfErr result (Stops (IsCompileEnd (compile_said request.now) (F.held folder.old))
        (Rose (F.read_faults folder.old) (F.read_faults folder.new))) }
    ensures early { IfErr result IsOfFiles }
    ensures reads { F.read_faults folder.old ≤ F.read_faults folder.new }
    ensures writes { F.write_faults folder.new ≡ F.write_faults folder.old }
{
    let graph = graph_under(alloc, folder, request.graph)?;
    let Ok((plan, text)) = planned(alloc, &graph, request.waves) else {
        return Err(End::Memory);
    };
    Ok(Work {
        plan,
        text,
        end: End::Done,
    })
}

/// Reports the plan of a graph.
pub(crate) fn compile<F: Folder, R: Sink>(
    alloc: Global,
    request: &CompileRequest,
    folder: &mut F,
    report: &mut R,
) -> Outcome
    ensures { IsRun (Asks (compile (compile_said request.now)))
        (outside (F.held folder.old) (F.read_faults folder.old) (F.write_faults folder.old) (R.bytes report.old) (R.faults report.old))
        (outside (F.held folder.new) (F.read_faults folder.new) (F.write_faults folder.new) (R.bytes report.new) (R.faults report.new))
        result.end result.plan result.engine }
{
    match prepare(alloc, folder, request) {
        Ok(work) => reported(report, work, None),
        Err(end) => Outcome {
            end,
            plan: None,
            engine: None,
        },
    }
}
