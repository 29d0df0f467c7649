//! The plan of a request.

ghost use Rattle.std.specs.Prelude.{◌≡◌, ◌≤◌, IfOk, IfErr};
ghost use Rattle.gh_outside.specs.Causes.{Rose};
ghost use Rattle.host_modes.specs.Causes.{IsTextEnd, Stops};
ghost use Rattle.host_modes.specs.Ends.{IsOfFiles};
ghost use Rattle.host_modes.specs.Readings.{FindsPlan};

use crate::ends::End;
use crate::reading::load::{LoadFault, load};
use gh_outside::Folder;
use graph_model::Refused;
use plan_model::Plan;
use plan_text::read;
use std::alloc::Global;

/// The plan that a name holds the text of.
pub fn plan_under<F: Folder>(alloc: Global, folder: &mut F, name: &str) -> Result<Plan, End>
    ensures held { F.held folder.new ≡ F.held folder.old }
    ensures ok { IfOk result (λ plan. FindsPlan name.now plan (F.held folder.old)) }
    ensures stops { IfErr result (Stops (IsTextEnd name.now (F.held folder.old))
        (Rose (F.read_faults folder.old) (F.read_faults folder.new))) }
    ensures early { IfErr result IsOfFiles }
    ensures reads { F.read_faults folder.old ≤ F.read_faults folder.new }
    ensures writes { F.write_faults folder.new ≡ F.write_faults folder.old }
{
    let bytes = match load(alloc, folder, name) {
        Ok(bytes) => bytes,
        Err(LoadFault::Failed) => return Err(End::ReadFault),
        Err(LoadFault::Memory) => return Err(End::Memory),
    };
    match read(alloc, bytes.as_slice()) {
        Ok(plan) => Ok(plan),
        Err(Refused::Fault(fault)) => Err(End::PlanText { line: fault.line }),
        Err(Refused::Memory) => Err(End::Memory),
    }
}
