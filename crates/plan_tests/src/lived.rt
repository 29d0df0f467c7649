//! The sole reader of a value in the last wave that reads it.

ghost use Rattle.std.specs.Prelude.{IfOk};
ghost use Rattle.graph_model.specs.Sound.{Fits};

use connections::{Checked, check};
use graph_model::{Graph, List, Uid};
use lifetimes::lives;
use plan_model::Life;
use schedule::by_waves;
use std::alloc::{AllocError, Global};
use std::test::Fail;
use test_graphs::{gain, graph_of, input, joined, joined_at, mixer, output};

/// A value that dies in the wave after its birth.
fn life(uid: u32, channel: u32, born: u32, reader: Option<u32>) -> Life {
    Life {
        uid: Uid(uid),
        channel,
        born,
        dies: born.wrapping_add(1),
        reader: reader.map(Uid),
    }
}

/// A mixer that takes one channel of the input twice, and two gains that take the other.
fn read_twice(alloc: Global) -> Result<Graph, AllocError>
    ensures { IfOk result Fits }
{
    let nodes = vec![in alloc;
        input(1, 2),
        output(2, 3),
        mixer(alloc, 4, 2, 1, &[1, 1])?,
        gain(5, 1),
        gain(6, 1),
    ]?;
    let ways = [
        joined(1, 4),
        joined_at(1, 0, 4, 1),
        joined_at(1, 1, 5, 0),
        joined_at(1, 1, 6, 0),
        joined(4, 2),
        joined_at(5, 0, 2, 1),
        joined_at(6, 0, 2, 2),
    ];
    graph_of(alloc, nodes, &ways)
}

/// The lives of the values of a graph by waves.
fn lives_in(alloc: Global, graph: &Checked) -> Result<List<Life>, AllocError> {
    lives(alloc, graph, &by_waves(alloc, graph)?)
}

/// The same of a graph that has to be sound.
fn lives_of(alloc: Global, graph: Graph) -> Result<List<Life>, Fail>
    requires { Fits graph }
{
    let checked = check(alloc, graph)?;
    Ok(lives_in(alloc, &checked)?)
}

/// A node that reads a value twice in its last wave is its one reader there; of two nodes none is.
#[test]
fn the_sole_reader_is_one_node(rt: HostRuntime) -> Result<(), Fail> {
    let alloc = rt.alloc();
    let lives = lives_of(alloc, read_twice(alloc)?)?;
    let wanted = [
        life(1, 0, 0, Some(4)),
        life(1, 1, 0, None),
        life(4, 0, 1, Some(2)),
        life(5, 0, 1, Some(2)),
        life(6, 0, 1, Some(2)),
    ];
    assert_eq!(rt; lives.as_slice(), wanted.as_slice());
    Ok(())
}
