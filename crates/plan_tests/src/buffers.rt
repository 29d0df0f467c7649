//! Worked lives, whose channels and peaks come from outside.

use buffer_plan::{are_lives, assign};
use graph_model::{List, Uid};
use plan_model::Life;
use std::alloc::{AllocError, Global};
use std::test::Fail;

/// The life of an output channel of a node, which one node alone reads in its last wave.
fn life(uid: u32, channel: u32, born: u32, dies: u32, reader: u32) -> Life {
    Life {
        uid: Uid(uid),
        channel,
        born,
        dies,
        reader: Some(Uid(reader)),
    }
}

/// Channels and peak of an assignment, where these are lives.
fn channels_and_peak(
    alloc: Global,
    lives: &[Life],
    waves: u32,
) -> Result<Option<(u32, u64)>, AllocError> {
    let lives = List::from_slice(alloc, lives)?;
    if waves == 0 || lives.len() > 16384 || !are_lives(&lives, waves) {
        return Ok(None);
    }
    let homes = assign(alloc, &lives, waves)?;
    Ok(Some((homes.channels, homes.peak)))
}

#[test]
fn worked_lives(rt: HostRuntime) -> Result<(), Fail> {
    let alloc = rt.alloc();
    // A node beside two in a row: needs 1, 2, 2, 2.
    let beside = [
        life(1, 0, 0, 2, 4),
        life(3, 0, 1, 3, 2),
        life(4, 0, 2, 3, 2),
    ];
    assert_eq!(rt; channels_and_peak(alloc, &beside, 4)?, Some((2, 1)));
    // A mixer that swaps two channels in place.
    let swap = [
        life(1, 0, 0, 1, 3),
        life(1, 1, 0, 1, 3),
        life(3, 0, 1, 2, 2),
        life(3, 1, 1, 2, 2),
    ];
    assert_eq!(rt; channels_and_peak(alloc, &swap, 3)?, Some((2, 0)));
    // Three gains into a mixer, one by one.
    let gains = [
        life(1, 0, 0, 3, 5),
        life(3, 0, 1, 4, 6),
        life(4, 0, 2, 4, 6),
        life(5, 0, 3, 4, 6),
        life(6, 0, 4, 5, 2),
    ];
    assert_eq!(rt; channels_and_peak(alloc, &gains, 6)?, Some((3, 2)));
    assert_eq!(rt; channels_and_peak(alloc, &[], 1)?, Some((0, 0)));
    // These die where they are born, stand in another order, and die after the last wave.
    let swapped = [life(3, 0, 1, 2, 2), life(1, 0, 0, 1, 3)];
    assert_eq!(rt; channels_and_peak(alloc, &[life(1, 0, 0, 0, 2)], 1)?, None);
    assert_eq!(rt; channels_and_peak(alloc, &swapped, 3)?, None);
    assert_eq!(rt; channels_and_peak(alloc, &swap, 2)?, None);
    Ok(())
}
