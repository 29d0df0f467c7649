//! What no clause says: that two jobs run beside each other. And lists of more jobs than threads, and of none.

ghost use Rattle.std.specs.Prelude.{◌≡◌};

use super::*;
use std::sync::atomic::{AtomicBool, Ordering};

/// How often a job looks for the other one, at most.
const LOADS: u32 = 1 << 30;

/// What a gate notes of a job: that it is there, and that it saw the other one.
#[derive(Drop)]
struct Place {
    here: AtomicBool,
    met: AtomicBool,
}

impl Place {
    fn new() -> Self {
        Place {
            here: AtomicBool::new(false),
            met: AtomicBool::new(false),
        }
    }
}

/// A gate that holds two jobs until both are there.
#[derive(Drop)]
struct Meeting {
    first: Place,
    second: Place,
}

fn is_raised(flag: &AtomicBool) -> bool {
    (0..LOADS).any(|_| flag.load(Ordering::SeqCst))
}

impl Gate for Meeting {
    fn pass(&self, node: u32) {
        let (own, other) = if node == 0 {
            (&self.first, &self.second)
        } else {
            (&self.second, &self.first)
        };
        own.here.store(true, Ordering::SeqCst);
        own.met.store(is_raised(&other.here), Ordering::SeqCst);
    }
}

/// A job that passes the gate.
#[derive(Drop)]
struct Guest {
    node: u32,
}

impl<G: Gate> Work<G> for Guest {
    ghost ready = { λ _ _. Unit {0} };

    ghost done = { λ _ _ _. Unit {0} };

    fn work(&mut self, shared: &G) {
        shared.pass(self.node);
    }
}

/// Waves in a plain loop would leave the first job waiting in vain.
#[test]
fn waves_in_a_plain_loop(rt: HostRuntime) {
    let meeting = Meeting {
        first: Place::new(),
        second: Place::new(),
    };
    let threads = processors(&rt);
    let mut guests = [Guest { node: 0 }, Guest { node: 1 }];
    run(&rt, threads, &meeting, &mut guests);
    assert!(rt; meeting.first.met.load(Ordering::SeqCst));
    assert!(rt; meeting.second.met.load(Ordering::SeqCst));
}

/// A job that adds what all share.
#[derive(Clone, Copy)]
struct Sum {
    total: u64,
}

impl Work<u32> for Sum {
    ghost ready = { λ _ j. j.total ≡ 0 };

    ghost done = { λ s _ after. after.total ≡ s };

    fn work(&mut self, shared: &u32) {
        self.total += u64::from(*shared);
    }
}

#[test]
fn more_jobs_than_threads_and_none(rt: HostRuntime) {
    let mut jobs = [Sum { total: 0 }; 100];
    run(&rt, 3, &7, &mut jobs);
    assert!(rt; jobs.iter().all(|job| job.total == 7));
    let mut none: [Sum; 0] = [];
    run(&rt, 3, &7, &mut none);
}
