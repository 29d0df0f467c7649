//! A text as a plan.

ghost use Rattle.std.specs.Prelude.{◌≡◌, IfOk};
ghost use Rattle.plan_text.specs.Order.{IsFirstBad, order};
ghost use Rattle.plan_text.specs.Reading.{IfFault};
ghost use Rattle.plan_text.specs.Texts.{text_of, IsInRange};

use crate::fault::PlanFault;
use crate::line::Lines;
use crate::rows::{nodes, only, small};
use crate::word::Word;
use graph_model::Refused;
use plan_model::Plan;
use std::alloc::Global;

/// The plan that the bytes are the text of, or the number of their first bad line.
///
/// It fails exactly where the bytes are no text of a plan, or for want of memory.
pub fn read(alloc: Global, bytes: &[u8]) -> Result<Plan, Refused<PlanFault>>
    ensures ok { IfOk result (λ plan. bytes.now ≡ text_of plan) }
    ensures in_range { IfOk result IsInRange }
    ensures fault { IfFault result (λ fault. IsFirstBad order bytes.now fault.line) }
{
    let mut lines = Lines {
        rest: bytes,
        count: 0,
    };
    let version = lines.one(alloc, Word::Plan)?;
    let latency = lines.one(alloc, Word::Latency)?;
    let path = lines.one(alloc, Word::Path)?;
    let at = lines.positions(alloc)?;
    let delays = lines.delays(alloc)?;
    let total = lines.one(alloc, Word::Total)?;
    let arcs = lines.arcs(alloc)?;
    let bound = lines.one(alloc, Word::Bound)?;
    let waves = lines.waves(alloc)?;
    let homes = lines.homes(alloc)?;
    let channels = lines.one(alloc, Word::Channels)?;
    let peak = lines.one(alloc, Word::Peak)?;
    let end = lines.one(alloc, Word::End)?;
    if !lines.is_at_end() {
        return Err(lines.bad());
    }
    Ok(Plan {
        latency: only(latency.as_slice()),
        path: nodes(alloc, path.as_slice())?,
        at,
        lines: delays,
        total: only(total.as_slice()),
        arcs,
        bound: only(bound.as_slice()),
        waves,
        homes,
        channels: small(only(channels.as_slice())),
        peak: only(peak.as_slice()),
    })
}
