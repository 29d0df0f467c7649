//! What no clause says: what a row is, and that too large a graph is refused.

use crate::{gain, graph_of, in_a_row, input, joined, joined_at, output, with_idle};
use graph_model::Kind;
use std::test::Fail;

#[test]
fn a_row_leads_through_its_nodes_and_past_an_idle_one(rt: HostRuntime) -> Result<(), Fail> {
    let alloc = rt.alloc();
    let half = Kind::Gain {
        channels: 1,
        gain: 32768,
    };
    let row = with_idle(in_a_row(alloc, 2, &half)?, gain(9, 1), 3)?;
    let nodes = vec![in alloc;
        input(1, 1),
        output(2, 1),
        gain(3, 32768),
        gain(4, 32768),
        gain(9, 1),
    ]?;
    let ways = [joined(1, 3), joined(3, 4), joined(4, 2), joined(3, 9)];
    assert!(rt; row == graph_of(alloc, nodes, &ways)?);
    let many = vec![in alloc; joined_at(1, 0, 2, 0); 8193]?;
    assert!(rt; graph_of(alloc, vec![in alloc]?, &many).is_err());
    Ok(())
}
