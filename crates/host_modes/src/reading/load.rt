//! A file read whole.

ghost use Rattle.std.specs.Prelude.{◌≡◌, ◌≤◌, ◌⊎◌, IfOk};
ghost use Rattle.gh_outside.specs.Causes.{Rose};
ghost use Rattle.gh_outside.specs.Holdings.{Holds, IsMissing};

use gh_outside::Folder;
use std::alloc::{AllocError, Global};

/// Why a file could not be read whole.
#[derive(Clone, Copy, Debug, PartialEq, Eq)]
pub(crate) enum LoadFault {
    Failed,
    Memory,
}

/// The bytes that a name holds.
pub(crate) fn load<F: Folder>(
    alloc: Global,
    folder: &mut F,
    name: &str,
) -> Result<Vec<u8>, LoadFault>
    ensures held { F.held folder.new ≡ F.held folder.old }
    ensures bytes { IfOk result (λ v. Holds name.now v.items (F.held folder.old)) }
    ensures failed { result ≡ Err LoadFault.Failed
        → IsMissing name.now (F.held folder.old) ⊎ Rose (F.read_faults folder.old) (F.read_faults folder.new) }
    ensures reads { F.read_faults folder.old ≤ F.read_faults folder.new }
    ensures writes { F.write_faults folder.new ≡ F.write_faults folder.old }
{
    let count = folder.length(name).map_err(|_| LoadFault::Failed)?;
    let mut bytes = vec![in alloc; 0u8; count as usize].map_err(|_| LoadFault::Memory)?;
    folder
        .read_exact_at(name, 0, &mut bytes)
        .map_err(|_| LoadFault::Failed)?;
    Ok(bytes)
}
