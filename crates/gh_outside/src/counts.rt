//! The numbers of calls and the counts of faults.

ghost use Rattle.std.specs.Prelude.{◌≡◌, ◌≤◌, ◌↔◌, IsTrue, Contains};
ghost use Rattle.gh_outside.specs.Causes.{one_more, IsCount};

use crate::folder::Failed;
use graph_model::List;

/// Counts one more fault, and gives the answer for it.
pub(crate) fn count_fault(count: &mut u64) -> Failed
    ensures counted { count.new ≡ one_more count.old }
    ensures later { count.old ≤ count.new }
    ensures small { IsCount count.new }
{
    *count = count.saturating_add(1);
    Failed
}

/// Takes the number of the next call, and says whether it is listed.
pub(crate) fn next_call(calls: &mut u64, fails: &List<u64>) -> bool
    ensures listed { IsTrue result ↔ Contains fails.now calls.old }
    ensures calls { calls.new ≡ one_more calls.old }
{
    let number = *calls;
    *calls = number.saturating_add(1);
    fails.as_slice().contains(&number)
}
