//! Connections by the indexes of their nodes.

ghost use Rattle.std.specs.Prelude.{◌≡◌, ◌*◌, ◌^◌, ◌<◌, IfOk, length};
ghost use Rattle.std.specs.List.{Contains};
ghost use Rattle.graph_model.specs.Paths.{is_live, live_connections};
ghost use Rattle.graph_model.specs.Sound.{IsSound};
ghost use Rattle.plan_model.specs.Alignments.{IsAlignment};
ghost use Rattle.renderer.specs.Positions.{position_at};
ghost use Rattle.renderer.specs.Routes.{IsRoute, AreRoutes, IsAdded};
ghost use Rattle.graph_model.specs.Bounds.{AreUpTo};

use connections::Checked;
use graph_model::{Connection, latency};
use std::alloc::{AllocError, Global};

/// One of the channels of interleaved samples.
#[derive(Clone, Copy)]
pub(crate) struct Channel {
    /// Which one, from 0.
    pub(crate) at: usize,
    /// How many samples a frame has.
    pub(crate) of: usize,
}

/// A connection, as the streams of the nodes are followed along it.
#[derive(Clone, Copy)]
pub(crate) struct Route {
    /// The index of the source.
    pub(crate) src: usize,
    pub(crate) from: Channel,
    /// The index of the destination.
    pub(crate) dst: usize,
    pub(crate) to: Channel,
    /// How many frames it holds back.
    pub(crate) delay: usize,
}

impl Route {
    /// Adds what the route brings of the source's stream to what comes into the destination.
    pub(crate) fn add(self, stream: &[i64], sums: &mut [i64], frames: usize)
        requires from { self.from.at < self.from.of }
        requires to { self.to.at < self.to.of }
        requires stream { length stream.now ≡ frames * self.from.of }
        requires sums { length sums.old ≡ frames * self.to.of }
        requires small { AreUpTo (2 ^ 46) stream.now }
        requires room { AreUpTo (2 ^ 60) sums.old }
        ensures { IsAdded frames self stream.now sums.old sums.new }
    {
        for time in self.delay..frames {
            let early = (time - self.delay) * self.from.of + self.from.at;
            sums[time * self.to.of + self.to.at] += stream[early];
        }
    }
}

/// Whether a connection leads to a live node.
fn leads_on(checked: &Checked, connection: &Connection) -> bool
    requires { Contains checked.now.connections connection.now }
    ensures { result ≡ is_live checked.now connection.now.dst.0 }
{
    let dst = checked.graph().index_of(connection.dst).unwrap();
    checked.is_live(dst as u32)
}

/// The route of a live connection, where each node stands at its position.
fn route_of(checked: &Checked, positions: &[u64], connection: &Connection) -> Route
    requires live { Contains (live_connections checked.now) connection.now }
    requires count { length positions.now ≡ length checked.now.nodes }
    requires alignment { IsAlignment checked.now (position_at checked.now positions.now) }
    ensures { IsRoute checked.now (position_at checked.now positions.now) connection.now result }
{
    let graph = checked.graph();
    let src = graph.index_of(connection.src).unwrap();
    let dst = graph.index_of(connection.dst).unwrap();
    let source = &graph.nodes.as_slice()[src];
    let destination = &graph.nodes.as_slice()[dst];
    let ready = positions[dst];
    let early = positions[src] + latency(&source.kind) as u64;
    Route {
        src,
        from: Channel {
            at: connection.src_channel as usize,
            of: source.outs() as usize,
        },
        dst,
        to: Channel {
            at: connection.dst_channel as usize,
            of: destination.ins() as usize,
        },
        delay: (ready - early) as usize,
    }
}

/// The routes of a graph's live connections, in their order.
pub(crate) fn routes(
    alloc: Global,
    checked: &Checked,
    positions: &[u64],
) -> Result<Vec<Route>, AllocError>
    requires count { length positions.now ≡ length checked.now.nodes }
    requires alignment { IsAlignment checked.now (position_at checked.now positions.now) }
    ensures sound { IfOk result (λ _. IsSound checked.now) }
    ensures routes { IfOk result (λ v. AreRoutes checked.now (position_at checked.now positions.now) v.items) }
{
    let mut routes = Vec::new(alloc);
    for connection in checked.graph().connections.as_slice() {
        if leads_on(checked, connection) {
            routes.push(route_of(checked, positions, connection))?;
        }
    }
    Ok(routes)
}
