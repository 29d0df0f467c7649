//! A generated graph, whose numbers come from another program, a network simplex.

use crate::plans::{figures, plan};
use graph_gen::graph_of;
use plan_model::Mode;
use std::test::Fail;

/// The latency is that of a plan with a line for each connection, the total less than half of its total. One buffer
/// more is needed, for values that wait.
#[test]
fn five_hundred_and_twelve_nodes(rt: HostRuntime) -> Result<(), Fail> {
    let alloc = rt.alloc();
    let apart = plan(alloc, graph_of(alloc, 1, 512)?, Mode::OneByOne)?;
    assert_eq!(rt; (apart.latency, apart.total), (133, 13893));
    assert_eq!(rt; (apart.channels, apart.peak), (242, 392));
    let shared = figures(alloc, graph_of(alloc, 1, 512)?, Mode::OneByOne)?;
    assert_eq!(rt; shared, (133, 6468, 243, 393));
    Ok(())
}
