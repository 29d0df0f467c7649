//! What no clause says: that each job passes the gate with its node's index. And a wave of two jobs in one.

ghost use Rattle.std.specs.Prelude.{◌≡◌, ◌∷◌, [], length, IfOk};

use super::*;
use fork_join::Gate;
use std::alloc::{AllocError, Global};
use std::sync::atomic::{AtomicBool, Ordering};

/// A gate that notes the indexes from 0 to 2 with which it was passed.
#[derive(Drop)]
struct Seen {
    marks: [AtomicBool; 3],
}

impl Gate for Seen {
    fn pass(&self, node: u32) {
        if let Some(mark) = self.marks.get(node as usize) {
            mark.store(true, Ordering::SeqCst);
        }
    }
}

/// A part that puts a sample into the first frame of each of its values.
#[derive(Drop)]
struct Fill {
    sample: i64,
}

impl Part<i64> for Fill {
    ghost ready = { λ _ _ _ _ _ _. Unit {0} };

    ghost done = { λ _ _ _ _ _ _ _ _. Unit {0} };

    fn play(
        &mut self,
        shared: &i64,
        _pool: &[Buffer],
        _homes: &[Home],
        outs: &mut [Buffer],
        _frames: usize,
    ) {
        for out in outs.iter_mut() {
            if !out.as_slice().is_empty() {
                out.put(0, self.sample.wrapping_add(*shared));
            }
        }
    }
}

/// The job of a node, with one value.
fn job(alloc: Global, node: u32, index: u32, buffer: usize) -> Result<Job<Fill>, AllocError>
    ensures { IfOk result (λ j. (j.desk.homes.items ≡ record { channel = 0; buffer = buffer } ∷ []) × (length j.desk.outs.items ≡ 1)) }
{
    let mut homes = Vec::new(alloc);
    homes.push(Home { channel: 0, buffer })?;
    let mut outs = Vec::new(alloc);
    outs.push(Buffer::empty(alloc))?;
    let desk = Desk { homes, outs };
    let part = Fill { sample: 10 };
    Ok(Job {
        node,
        index,
        desk,
        part,
    })
}

#[test]
fn each_job_passes_with_its_index_and_fills_its_buffer(rt: HostRuntime) -> Result<(), AllocError> {
    let alloc = rt.alloc();
    let gate = Seen {
        marks: [
            AtomicBool::new(false),
            AtomicBool::new(false),
            AtomicBool::new(false),
        ],
    };
    let mut jobs = [job(alloc, 30, 0, 1)?, job(alloc, 40, 2, 0)?];
    let mut pool = [
        Buffer::zeros(alloc, 2)?,
        Buffer::zeros(alloc, 2)?,
        Buffer::zeros(alloc, 2)?,
    ];
    run_wave(&rt, 2, &gate, &5, &mut jobs, &mut pool, 2);
    let seen = gate
        .marks
        .each_ref()
        .map(|mark| mark.load(Ordering::SeqCst));
    assert_eq!(rt; seen, [true, false, true]);
    assert_eq!(rt; pool[0].as_slice(), [15, 0].as_slice());
    assert_eq!(rt; pool[1].as_slice(), [15, 0].as_slice());
    assert_eq!(rt; pool[2].as_slice(), [0, 0].as_slice());
    Ok(())
}
