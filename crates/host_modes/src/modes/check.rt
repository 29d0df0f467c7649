//! `check GRAPH PLAN`: the verdict on a plan, whoever made it, on the report.

ghost use Rattle.std.specs.Prelude.{◌≡◌, ◌≤◌, IfErr, IfOk, Ok as Asks};
ghost use Rattle.command_words.specs.Checking.{check_said};
ghost use Rattle.command_words.specs.Requests.{check};
ghost use Rattle.gh_outside.specs.Causes.{Rose};
ghost use Rattle.host_modes.specs.Causes.{IsCheckEnd, Stops};
ghost use Rattle.host_modes.specs.Ends.{IsOfFiles};
ghost use Rattle.host_modes.specs.Outside.{outside};
ghost use Rattle.host_modes.specs.Plans.{IsVerdict};
ghost use Rattle.host_modes.specs.Runs.{IsRun};
ghost use Rattle.host_modes.specs.Works.{verdict_line, IsWork};

use crate::ends::{End, Outcome};
use crate::modes::reporting::{Work, reported};
use crate::modes::texts::{no_line, yes_line};
use crate::reading::graphs::graph_under;
use crate::reading::plans::plan_under;
use command_words::CheckRequest;
use connections::Checked;
use gh_outside::{Folder, Sink};
use graph_model::Refused;
use plan_checker::{Yes, verdict};
use plan_model::Plan;
use std::alloc::Global;

/// The verdict on a plan, as an end, and its line.
pub fn judged(alloc: Global, graph: &Checked, plan: &Plan) -> Result<(End, Vec<u8>), End>
    ensures verdict { IfOk result (λ r. IsVerdict graph.now plan.now r.0) }
    ensures line { IfOk result (λ r. r.1.items ≡ verdict_line r.0) }
    ensures memory { IfErr result (λ end. end ≡ End.Memory) }
{
    match verdict(alloc, graph, plan) {
        Ok(Yes) => {
            let line = yes_line(alloc).map_err(|_| End::Memory)?;
            Ok((End::Done, line))
        }
        Err(Refused::Fault(no)) => {
            let line = no_line(alloc, no).map_err(|_| End::Memory)?;
            let end = End::No {
                rule: no.rule,
                place: no.place,
            };
            Ok((end, line))
        }
        Err(Refused::Memory) => Err(End::Memory),
    }
}

/// Reads the graph and the plan, and judges the plan.
fn prepare<F: Folder>(alloc: Global, folder: &mut F, request: &CheckRequest) -> Result<Work, End>
    ensures held { F.held folder.new ≡ F.held folder.old }
    ensures work { IfOk result (λ w. IsWork (Asks (check (check_said request.now))) (F.held folder.old) w.plan w.text.items w.end) }
    ensures stops { IfErr result (Stops (IsCheckEnd (check_said request.now) (F.held folder.old))
        (Rose (F.read_faults folder.old) (F.read_faults folder.new))) }
    ensures early { IfErr result IsOfFiles }
    ensures reads { F.read_faults folder.old ≤ F.read_faults folder.new }
    ensures writes { F.write_faults folder.new ≡ F.write_faults folder.old }
{
    let graph = graph_under(alloc, folder, request.graph)?;
    let plan = plan_under(alloc, folder, request.plan)?;
    let (end, text) = judged(alloc, &graph, &plan)?;
    Ok(Work { plan, text, end })
}

/// Reports the verdict on a plan.
pub(crate) fn check<F: Folder, R: Sink>(
    alloc: Global,
    request: &CheckRequest,
    folder: &mut F,
    report: &mut R,
) -> Outcome
    ensures { IsRun (Asks (check (check_said request.now)))
        (outside (F.held folder.old) (F.read_faults folder.old) (F.write_faults folder.old) (R.bytes report.old) (R.faults report.old))
        (outside (F.held folder.new) (F.read_faults folder.new) (F.write_faults folder.new) (R.bytes report.new) (R.faults report.new))
        result.end result.plan result.engine }
{
    match prepare(alloc, folder, request) {
        Ok(work) => reported(report, work, None),
        Err(end) => Outcome {
            end,
            plan: None,
            engine: None,
        },
    }
}
