//! Worked graphs, whose numbers come from outside.

use crate::graphs::{gains_beside_an_insert, mixer_before_a_gain, straight_twice, usual_job};
use crate::plans::{figures, frames, lives, needs_in, plan, shared_plan};
use graph_model::Uid;
use plan_model::Mode;
use std::test::Fail;
use test_graphs::{fan_out, gain, graph_of, in_a_row, input, output};

/// The gains wait behind the one line of the input; with a line for each connection three of 5 are needed.
#[test]
fn three_gains_wait_behind_one_line(rt: HostRuntime) -> Result<(), Fail> {
    let alloc = rt.alloc();
    let ones = figures(alloc, gains_beside_an_insert(alloc)?, Mode::OneByOne)?;
    assert_eq!(rt; ones, (5, 5, 5, 4));
    let frames = frames(alloc, gains_beside_an_insert(alloc)?)?;
    let wanted = [0, 5, 5, 5, 5, 0, 5, 0, 0, 0, 0];
    assert_eq!(rt; frames.as_slice(), wanted.as_slice());
    let waves = figures(alloc, gains_beside_an_insert(alloc)?, Mode::Waves)?;
    assert_eq!(rt; waves, (5, 5, 5, 1));
    let apart = plan(alloc, gains_beside_an_insert(alloc)?, Mode::OneByOne)?;
    assert_eq!(rt; (apart.latency, apart.total, apart.channels), (5, 15, 4));
    Ok(())
}

/// The insert reads the input's value last, but may not write over it: the value waits in its line.
#[test]
fn a_value_that_waits_has_no_reader(rt: HostRuntime) -> Result<(), Fail> {
    let alloc = rt.alloc();
    let lives = lives(alloc, gains_beside_an_insert(alloc)?)?;
    let needs = needs_in(alloc, &lives, 6)?;
    assert_eq!(rt; needs.as_slice(), [1, 2, 3, 4, 5, 4].as_slice());
    let lives = lives.as_slice();
    assert_eq!(rt; lives.len(), 5);
    assert_eq!(rt; lives[0].reader, None);
    assert_eq!(rt; lives[4].reader, Some(Uid(2)));
    Ok(())
}

/// A gain whose readers share a line need not wait, alone or behind a mixer: its value is read late, by one line.
#[test]
fn a_gain_whose_readers_share_a_line_stays_at_0(rt: HostRuntime) -> Result<(), Fail> {
    let alloc = rt.alloc();
    let alone = figures(alloc, fan_out(alloc)?, Mode::OneByOne)?;
    assert_eq!(rt; alone, (5, 5, 2, 1));
    let stands = frames(alloc, fan_out(alloc)?)?;
    assert_eq!(rt; stands.as_slice(), [0, 5, 0, 0, 0, 0, 5].as_slice());
    let behind = figures(alloc, mixer_before_a_gain(alloc)?, Mode::OneByOne)?;
    assert_eq!(rt; behind, (5, 5, 2, 0));
    let stands = frames(alloc, mixer_before_a_gain(alloc)?)?;
    assert_eq!(rt;
        stands.as_slice(),
        [0, 5, 0, 0, 0, 0, 0, 0, 5, 0].as_slice()
    );
    Ok(())
}

/// Where each value has one reader, a line for each value is a line for each connection.
#[test]
fn a_usual_job_is_the_same_either_way(rt: HostRuntime) -> Result<(), Fail> {
    let alloc = rt.alloc();
    let figures = figures(alloc, usual_job(alloc)?, Mode::OneByOne)?;
    assert_eq!(rt; figures, (1263, 2046, 4, 1));
    let shared = shared_plan(alloc, usual_job(alloc)?, Mode::OneByOne)?;
    let apart = plan(alloc, usual_job(alloc)?, Mode::OneByOne)?;
    let same = (apart.latency, apart.total, apart.channels, apart.peak);
    assert_eq!(rt; same, (1263, 2046, 4, 1));
    assert_eq!(rt; shared.at, apart.at);
    Ok(())
}

/// Two connections that wait alike share a line of 5; a row of gains works in place.
#[test]
fn one_line_or_in_place(rt: HostRuntime) -> Result<(), Fail> {
    let alloc = rt.alloc();
    let twice = figures(alloc, straight_twice(alloc)?, Mode::OneByOne)?;
    assert_eq!(rt; twice, (5, 5, 2, 1));
    let stands = frames(alloc, straight_twice(alloc)?)?;
    assert_eq!(rt; stands.as_slice(), [0, 5, 0, 5, 0].as_slice());
    let row = in_a_row(alloc, 3, &gain(9, 655).kind)?;
    assert_eq!(rt; figures(alloc, row, Mode::OneByOne)?, (0, 0, 1, 0));
    Ok(())
}

/// Nothing comes of no connection.
#[test]
fn one_wave_of_the_output_node_alone(rt: HostRuntime) -> Result<(), Fail> {
    let alloc = rt.alloc();
    let nodes = vec![in alloc; input(1, 1), output(2, 1)]?;
    let unfed = shared_plan(alloc, graph_of(alloc, nodes, &[])?, Mode::OneByOne)?;
    let figures = (unfed.latency, unfed.total, unfed.channels, unfed.peak);
    assert_eq!(rt; figures, (0, 0, 0, 0));
    let counts = (
        unfed.at.len(),
        unfed.lines.len(),
        unfed.homes.len(),
        unfed.waves.len(),
    );
    assert_eq!(rt; counts, (1, 0, 0, 1));
    Ok(())
}
