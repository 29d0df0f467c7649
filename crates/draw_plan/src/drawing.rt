//! What is drawn of the words, and how the program ends.

ghost use Rattle.std.specs.Prelude.{◌≡◌};

use connections::Checked;
use gh_outside::Folder;
use host_modes::{End, graph_under, judged, plan_under};
use plan_model::Plan;
use plan_picture::picture;
use std::alloc::Global;

/// A picture, or why a plan is not drawn.
#[derive(Drop)]
pub(crate) enum Answer {
    Picture(String),
    /// The plan is not certified: the end, and the line of the verdict.
    Refused { end: End, line: Vec<u8> },
}

/// The picture of a graph, with its plan or without one.
fn drawn_of(alloc: Global, graph: &Checked, plan: Option<&Plan>) -> Result<Answer, End> {
    match picture(alloc, graph, plan) {
        Ok(text) => Ok(Answer::Picture(text)),
        Err(_) => Err(End::Memory),
    }
}

/// The picture of a graph with its plan, where that is certified.
fn judged_of(alloc: Global, graph: &Checked, plan: &Plan) -> Result<Answer, End> {
    let (end, line) = judged(alloc, graph, plan)?;
    match end {
        End::Done => drawn_of(alloc, graph, Some(plan)),
        end => Ok(Answer::Refused { end, line }),
    }
}

/// The picture of the graph under a name.
fn graph_drawn<F: Folder>(alloc: Global, folder: &mut F, graph: &str) -> Result<Answer, End>
    ensures held { F.held folder.new ≡ F.held folder.old }
{
    let graph = graph_under(alloc, folder, graph)?;
    drawn_of(alloc, &graph, None)
}

/// The picture of the graph under a name with the plan under another.
fn plan_drawn<F: Folder>(
    alloc: Global,
    folder: &mut F,
    graph: &str,
    plan: &str,
) -> Result<Answer, End>
    ensures held { F.held folder.new ≡ F.held folder.old }
{
    let graph = graph_under(alloc, folder, graph)?;
    let plan = plan_under(alloc, folder, plan)?;
    judged_of(alloc, &graph, &plan)
}

/// What the words ask for, drawn. No file changes.
pub(crate) fn drawn<F: Folder>(
    alloc: Global,
    folder: &mut F,
    words: &[String],
) -> Result<Answer, End>
    ensures held { F.held folder.new ≡ F.held folder.old }
{
    match words {
        [graph] => graph_drawn(alloc, folder, graph),
        [graph, plan] => plan_drawn(alloc, folder, graph, plan),
        _ => Err(End::Words),
    }
}

/// The exit status of an end, as in the host.
pub(crate) fn status(end: &End) -> u8 {
    match end {
        End::Done => 0,
        End::No { .. } => 1,
        End::Words | End::SameName | End::Seed => 2,
        End::Records(_) | End::Graph(_) => 3,
        End::Wav(_) => 4,
        End::ReadFault => 5,
        End::WriteFault => 6,
        End::ReportFault => 7,
        End::Memory => 8,
        End::PlanText { .. } => 9,
    }
}
