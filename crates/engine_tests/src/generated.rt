//! Generated graphs.

use crate::comparing::agrees;
use graph_gen::graph_of;
use std::test::Fail;

#[test]
fn fifty_nodes(rt: HostRuntime) -> Result<(), Fail> {
    let alloc = rt.alloc();
    agrees(&rt, alloc, graph_of(alloc, 1, 50)?, 300, &[0, 64])
}

#[test]
fn five_hundred_and_twelve_nodes(rt: HostRuntime) -> Result<(), Fail> {
    let alloc = rt.alloc();
    agrees(&rt, alloc, graph_of(alloc, 2, 512)?, 100, &[0])
}
