//! Items by their groups.

ghost use Rattle.std.specs.Prelude.{◌<◌, IfOk};
ghost use Rattle.std.specs.List.{All};
ghost use Rattle.schedule.specs.Groups.{AreGroups};

use graph_model::List;
use std::alloc::{AllocError, Global};

/// An item, and the number of its group.
#[derive(Clone, Copy)]
pub(crate) struct Entry<T> {
    pub(crate) group: u32,
    pub(crate) item: T,
}

/// The items of each of the groups 0 to `count - 1`, in their order.
pub(crate) fn grouped<T: Copy + Drop>(
    alloc: Global,
    count: u32,
    entries: &[Entry<T>],
) -> Result<Vec<List<T>>, AllocError>
    requires { All (λ e. e.group < count) entries.now }
    ensures { IfOk result (λ groups. AreGroups count entries.now groups.items) }
{
    let mut groups = Vec::with_capacity(alloc, count as usize)?;
    for _ in 0..count {
        groups.push(List::new(alloc))?;
    }
    for entry in entries {
        groups[entry.group as usize].push(entry.item)?;
    }
    Ok(groups)
}
