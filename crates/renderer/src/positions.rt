//! Where the nodes stand, by index.

ghost use Rattle.std.specs.Prelude.{◌≡◌, ◌==◌, IfOk};
ghost use Rattle.std.specs.List.{find};
ghost use Rattle.std.specs.Option.{option_copied};
ghost use Rattle.graph_model.specs.Paths.{reach};
ghost use Rattle.plan_model.specs.Alignments.{IsAlignment, position_in};
ghost use Rattle.renderer.specs.Positions.{AreAligned};

use connections::Checked;
use graph_model::Uid;
use plan_model::At;
use std::alloc::{AllocError, Global};

/// The reaches of the nodes.
pub(crate) fn reaches(alloc: Global, checked: &Checked) -> Result<Vec<u64>, AllocError>
    ensures { IfOk result (λ v. AreAligned checked.now (reach checked.now) v.items) }
{
    let mut positions = Vec::new(alloc);
    for index in 0..checked.graph().nodes.len() {
        positions.push(checked.reach(index as u32))?;
    }
    Ok(positions)
}

/// The first entry of that name.
fn entry_of(at: &[At], uid: Uid) -> Option<&At>
    ensures { option_copied result ≡ find (λ a. a.uid.0 == uid.0) at.now }
{
    at.iter().find(|entry| entry.uid.0 == uid.0)
}

/// The position of a node of that name, and 0 where it has none.
fn position_of(at: &[At], uid: Uid) -> u64
    ensures { result ≡ position_in at.now uid.0 }
{
    match entry_of(at, uid) {
        Some(entry) => entry.at,
        None => 0,
    }
}

/// The positions of an alignment, and 0 for each node that has none in it.
pub(crate) fn aligned(alloc: Global, checked: &Checked, at: &[At]) -> Result<Vec<u64>, AllocError>
    requires { IsAlignment checked.now (position_in at.now) }
    ensures { IfOk result (λ v. AreAligned checked.now (position_in at.now) v.items) }
{
    let mut positions = Vec::new(alloc);
    for node in checked.graph().nodes.as_slice() {
        positions.push(position_of(at, node.uid))?;
    }
    Ok(positions)
}
