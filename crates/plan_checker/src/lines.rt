//! The delay lines and their sum.

ghost use Rattle.std.specs.Prelude.{◌≡◌, ◌<◌, ◌^◌, sum_by, IfOk};
ghost use Rattle.std.specs.List.{common_prefix_len};
ghost use Rattle.plan_model.specs.Alignments.{lines, position_in};
ghost use Rattle.plan_model.specs.Places.{same_line};
ghost use Rattle.plan_checker.specs.Answers.{Judges};

use crate::graphs::leads_to_live;
use crate::positions::delay;
use connections::Checked;
use graph_model::List;
use plan_model::{At, LineAt};
use std::alloc::{AllocError, Global};

/// The lines that the positions ask for: those of the live connections, in the graph's order.
pub(crate) fn expected(alloc: Global, g: &Checked, at: &[At]) -> Result<List<LineAt>, AllocError>
    ensures { IfOk result (λ v. v ≡ lines g.now (position_in at.now)) }
{
    let mut lines = List::new(alloc);
    let graph = g.graph();
    for (k, connection) in graph.connections.as_slice().iter().enumerate() {
        let index = k as u32;
        if leads_to_live(g, index) {
            lines.push(LineAt {
                connection: index,
                delay: delay(graph, at, *connection),
            })?;
        }
    }
    Ok(lines)
}

/// The sum of the delays, in frames.
pub(crate) fn sum(lines: &[LineAt]) -> u128
    ensures { result ≡ sum_by (λ l. l.delay) lines.now }
{
    let mut sum: u128 = 0;
    for line in lines {
        sum += line.delay as u128;
    }
    sum
}

/// The delays sum up to the total.
pub(crate) fn total(sum: u128, total: u64) -> Option<u64>
    ensures { Judges result (sum ≡ total) (λ place. place ≡ total) }
{
    if sum == total as u128 {
        return None;
    }
    Some(total)
}

/// How many lines from the first on are as expected.
fn agreeing(lines: &[LineAt], expected: &[LineAt]) -> usize
    ensures { result ≡ common_prefix_len same_line lines.now expected.now }
{
    let shorter = lines.len().min(expected.len());
    for place in 0..shorter {
        if lines[place] != expected[place] {
            return place;
        }
    }
    shorter
}

/// The lines are those of the live connections, with their delays.
pub(crate) fn lines(lines: &[LineAt], expected: &[LineAt]) -> Option<u64>
    ensures { Judges result (lines.now ≡ expected.now) (λ place. place ≡ common_prefix_len same_line lines.now expected.now) }
{
    let agreeing = agreeing(lines, expected);
    if agreeing == lines.len() && agreeing == expected.len() {
        return None;
    }
    Some(agreeing as u64)
}
