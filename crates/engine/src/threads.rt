//! In how many threads an engine renders.

use crate::shape::Shape;
use fork_join::processors;
use plan_jobs::is_some_shared;
use std::thread::Threads;

/// One where no wave of a block so long is worth more. Else it has to be asked.
pub(crate) fn at_first(shape: &Shape, block: usize) -> Option<usize> {
    if is_some_shared(shape.spares.as_slice(), block) {
        None
    } else {
        Some(1)
    }
}

/// How many threads serve. That is asked once.
pub(crate) fn asked(rt: &impl Threads, threads: &mut Option<usize>) -> usize {
    match threads {
        Some(known) => *known,
        None => {
            let found = processors(rt);
            *threads = Some(found);
            found
        }
    }
}
