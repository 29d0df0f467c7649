//! The exit status of each end.

ghost use Rattle.std.specs.Prelude.{◌≡◌};
ghost use Rattle.graph_host.specs.Ends.{status_of};

use crate::runs::Run;
use engine::Engine;
use host_modes::End;
use plan_model::Plan;

/// An end with its status, and the plan and the engine that it comes with.
pub(crate) fn ended(end: End, plan: Option<Plan>, engine: Option<Engine>) -> Run
    ensures end { result.end ≡ end }
    ensures plan { result.plan ≡ plan }
    ensures engine { result.engine ≡ engine }
    ensures status { result.status ≡ status_of end }
{
    let status = match &end {
        End::Done => 0,
        End::No { .. } => 1,
        End::Words | End::SameName | End::Seed => 2,
        End::Records(_) | End::Graph(_) => 3,
        End::Wav(_) => 4,
        End::ReadFault => 5,
        End::WriteFault => 6,
        End::ReportFault => 7,
        End::Memory => 8,
        End::PlanText { .. } => 9,
    };
    Run {
        status,
        end,
        plan,
        engine,
    }
}
