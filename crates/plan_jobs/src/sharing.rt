//! Which waves are worth more than one thread.

ghost use Rattle.std.specs.Prelude.{◌≡◌, if◌then◌else◌, MatchOption};
ghost use Rattle.std.specs.List.{list_any};
ghost use Rattle.plan_jobs.specs.Sharing.{is_worth};

use graph_model::{Graph, Kind};
use players::Player;
use pool_waves::Job;
use std::alloc::{AllocError, Global};

/// So many instructions that other threads take off one are worth starting them: about 100 microseconds, where to start
/// and join a thread takes 15 to 20.
const WORTH: u64 = 1 << 19;

/// About how many instructions a frame takes: of the kernel, and for each wire.
fn weight(kind: &Kind, wires: usize) -> u64 {
    let kernel = match kind {
        Kind::Input { channels } | Kind::Output { channels } => u64::from(*channels) * 8,
        Kind::Gain { channels, .. } => u64::from(*channels) * 10,
        Kind::Delay { channels, .. } | Kind::Insert { channels, .. } => u64::from(*channels) * 6,
        Kind::Biquad { channels, .. } => u64::from(*channels) * 32,
        Kind::Limiter { channels, .. } => u64::from(*channels) * 85,
        Kind::Mixer { gains, .. } => (gains.as_slice().len() as u64).saturating_mul(12),
        Kind::Fir { channels, taps, .. } => {
            (taps.as_slice().len() as u64).saturating_mul(u64::from(*channels) * 3)
        }
    };
    kernel.saturating_add((wires as u64).saturating_mul(8))
}

/// The instructions for a frame that other threads can take off one: those of all `count` jobs from `start` on but the
/// dearest.
fn spare(graph: &Graph, jobs: &[Job<Player>], start: usize, count: usize) -> u64 {
    let nodes = graph.nodes.as_slice();
    let mut all: u64 = 0;
    let mut dearest: u64 = 0;
    for job in jobs.iter().skip(start).take(count) {
        if let Some(node) = nodes.get(job.index as usize) {
            let weight = weight(&node.kind, job.part.wires.len());
            all = all.saturating_add(weight);
            dearest = dearest.max(weight);
        }
    }
    all.saturating_sub(dearest)
}

/// What other threads can take off one in each wave.
pub(crate) fn spares_of(
    alloc: Global,
    graph: &Graph,
    jobs: &[Job<Player>],
    ends: &[usize],
) -> Result<Vec<u64>, AllocError> {
    let mut spares = Vec::new(alloc);
    let mut start = 0;
    for end in ends {
        spares.push(spare(graph, jobs, start, end.saturating_sub(start)))?;
        start = *end;
    }
    Ok(spares)
}

/// Whether a wave is worth more than one thread in a block of so many frames.
fn is_worth(spare: u64, frames: usize) -> bool
    ensures { result ≡ is_worth frames spare }
{
    spare.saturating_mul(frames as u64) >= WORTH
}

/// Whether some wave is worth more than one thread in a block of so many frames.
pub fn is_some_shared(spares: &[u64], frames: usize) -> bool
    ensures { result ≡ list_any (λ spare. is_worth frames spare) spares.now }
{
    spares.iter().any(|spare| is_worth(*spare, frames))
}

/// In how many threads a wave runs, of so many.
pub(crate) fn threads_for(spare: Option<&u64>, frames: usize, threads: usize) -> usize
    ensures { MatchOption spare.entry (result ≡ 1) (λ one. result ≡ (if is_worth frames one.now then threads else 1)) }
{
    match spare {
        Some(spare) if is_worth(*spare, frames) => threads,
        _ => 1,
    }
}
