//! The second half of every mode: the report.

ghost use Rattle.std.specs.Prelude.{◌≡◌, ◌≤◌, ℕ, Option, OnOk, OnErr};
ghost use Rattle.gh_outside.specs.Causes.{Rose};
ghost use Rattle.gh_outside.specs.Holdings.{GainsAll, GainsPrefix, Holding};
ghost use Rattle.host_modes.specs.Asked.{Asked};
ghost use Rattle.host_modes.specs.Engines.{IsWorkEngine};
ghost use Rattle.host_modes.specs.Outside.{outside};
ghost use Rattle.host_modes.specs.Runs.{IsQuiet, IsRun};
ghost use Rattle.host_modes.specs.Works.{IsWork};

use crate::ends::{End, Outcome};
use engine::Engine;
use gh_outside::{Failed, Sink};
use plan_model::Plan;

/// What a mode has ready before it reports: the plan, the text for the report, and the end that comes if the report
/// takes it.
#[derive(Drop)]
pub(crate) struct Work {
    pub(crate) plan: Plan,
    pub(crate) text: Vec<u8>,
    pub(crate) end: End,
}

/// Puts the text of a work on the report, and ends with its plan and its engine. Of a request that writes no file
/// this is all.
pub(crate) fn reported<R: Sink>(report: &mut R, work: Work, engine: Option<Engine>) -> Outcome
    ensures { (asked : Asked) (files : Option Holding) (reads writes : ℕ) → IsQuiet asked
        → IsWork asked files work.plan work.text.items work.end → IsWorkEngine asked work.plan engine
        → IsRun asked (outside files reads writes (R.bytes report.old) (R.faults report.old))
        (outside files reads writes (R.bytes report.new) (R.faults report.new)) result.end result.plan result.engine }
{
    let Work { plan, text, end } = work;
    match report.put(&text) {
        Ok(()) => Outcome {
            end,
            plan: Some(plan),
            engine,
        },
        Err(Failed) => Outcome {
            end: End::ReportFault,
            plan: Some(plan),
            engine,
        },
    }
}
