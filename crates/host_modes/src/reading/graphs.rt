//! The graph of a request.

ghost use Rattle.std.specs.Prelude.{◌≡◌, ◌≤◌, IfOk, IfErr};
ghost use Rattle.graph_model.specs.Sound.{Fits, IsSound};
ghost use Rattle.gh_outside.specs.Causes.{Rose};
ghost use Rattle.host_modes.specs.Causes.{IsGraphEnd, Stops};
ghost use Rattle.host_modes.specs.Ends.{IsOfFiles};
ghost use Rattle.host_modes.specs.Readings.{FindsGraph, FindsRecords};
ghost use Rattle.host_modes.specs.Steps.{Refuses};

use crate::ends::End;
use crate::reading::load::{LoadFault, load};
use connections::{Checked, check};
use gh_outside::Folder;
use graph_model::{Graph, Refused};
use graph_records::read_graph;
use std::alloc::Global;

/// The graph that a name holds the records of.
fn records_under<F: Folder>(alloc: Global, folder: &mut F, name: &str) -> Result<Graph, End>
    ensures held { F.held folder.new ≡ F.held folder.old }
    ensures fits { IfOk result Fits }
    ensures ok { IfOk result (λ g. FindsRecords name.now g (F.held folder.old)) }
    ensures stops { IfErr result (Stops (IsGraphEnd name.now (F.held folder.old))
        (Rose (F.read_faults folder.old) (F.read_faults folder.new))) }
    ensures early { IfErr result IsOfFiles }
    ensures reads { F.read_faults folder.old ≤ F.read_faults folder.new }
    ensures writes { F.write_faults folder.new ≡ F.write_faults folder.old }
{
    let bytes = match load(alloc, folder, name) {
        Ok(bytes) => bytes,
        Err(LoadFault::Failed) => return Err(End::ReadFault),
        Err(LoadFault::Memory) => return Err(End::Memory),
    };
    match read_graph(alloc, bytes.as_slice()) {
        Ok(graph) => Ok(graph),
        Err(Refused::Fault(fault)) => Err(End::Records(fault)),
        Err(Refused::Memory) => Err(End::Memory),
    }
}

/// The graph, if it is sound, or the end that it has.
fn checked(alloc: Global, graph: Graph) -> Result<Checked, End>
    requires { Fits graph }
    ensures ok { IfOk result (λ g. (g ≡ graph) × IsSound g) }
    ensures stops { IfErr result (Refuses graph) }
    ensures early { IfErr result IsOfFiles }
{
    match check(alloc, graph) {
        Ok(graph) => Ok(graph),
        Err(Refused::Fault(fault)) => Err(End::Graph(fault)),
        Err(Refused::Memory) => Err(End::Memory),
    }
}

/// The sound graph under a name.
pub fn graph_under<F: Folder>(alloc: Global, folder: &mut F, name: &str) -> Result<Checked, End>
    ensures held { F.held folder.new ≡ F.held folder.old }
    ensures ok { IfOk result (λ g. FindsGraph name.now g (F.held folder.old)) }
    ensures sound { IfOk result IsSound }
    ensures stops { IfErr result (Stops (IsGraphEnd name.now (F.held folder.old))
        (Rose (F.read_faults folder.old) (F.read_faults folder.new))) }
    ensures early { IfErr result IsOfFiles }
    ensures reads { F.read_faults folder.old ≤ F.read_faults folder.new }
    ensures writes { F.write_faults folder.new ≡ F.write_faults folder.old }
{
    let graph = records_under(alloc, folder, name)?;
    checked(alloc, graph)
}
