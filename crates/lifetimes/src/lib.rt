//! The live ranges of a graph's values in a schedule, and how many buffers its waves need.
//!
//! A value is an output channel that a live connection reads. It is born in the wave of its node and dies in the last
//! wave that reads it; the node that reads it there, where only one does, is its sole reader, and may bear its own
//! value in the same buffer. Where each value has a delay line, it may do so only if the line is empty. [`lives`]
//! finds the life of each value, [`lives_shared`] the same for values with lines, [`needs`] the least number of
//! buffers of each wave.
//!
//! It promises that the lives are those that the definitions give, and that each need is the count of the values that
//! are alive in the wave, less those that take over the buffer of one that dies there.
//!
//! It stands on `connections` for sound graphs, and on `plan_model` for what values, lives and needs are. Needs speak
//! of lives alone, of no graph and no plan.
#![tactic(auto)]

ghost use Rattle.std.specs.Prelude.{◌≡◌, ◌≤◌, ◌<◌, ℕ, length, slice_index, IfOk};
ghost use Rattle.plan_model.specs.Buffers.{AreLives, need_of_wave};
ghost use Rattle.plan_model.specs.Lives.{lives_of, values};
ghost use Rattle.plan_model.specs.Schedules.{IsSchedule};
ghost use Rattle.plan_model.specs.SharedLines.{ports_of_lines};
ghost use Rattle.plan_model.specs.SharedLives.{shared_lives_of};

mod grouped;
mod lined;
mod nodes;
mod reads;
mod taken;
mod tallies;

use crate::grouped::lives_by;
use crate::lined::with_lines;
use crate::nodes::node_waves;
use crate::reads::reads;
use crate::taken::takers;
use crate::tallies::{births, deaths};
use connections::Checked;
use graph_model::List;
use plan_model::{Life, LineOf, Wave};
use std::alloc::{AllocError, Global};

/// The lives of the values of a graph in a schedule, ascending by node and then by channel.
///
/// It fails only for want of memory.
pub fn lives(alloc: Global, g: &Checked, waves: &List<Wave>) -> Result<List<Life>, AllocError>
    requires schedule { IsSchedule g.now waves.now }
    ensures lives { IfOk result (λ lives. lives ≡ lives_of g.now waves.now (values g.now)) }
    ensures usable { IfOk result (λ lives. AreLives lives (length waves.now)) }
    ensures few { IfOk result (λ lives. length lives ≤ 8192) }
{
    let node_waves = node_waves(alloc, g.graph(), waves.as_slice())?;
    let reads = reads(alloc, g, &node_waves)?;
    lives_by(alloc, reads)
}

/// The lives of the values of a graph in a schedule, where each value has a delay line: a value has a sole reader only
/// where its line is empty, since no node may write over what a line has still to take.
///
/// The lines name the values, ascending by node and then by channel; their delays are in frames. It fails only for want
/// of memory.
pub fn lives_shared(
    alloc: Global,
    g: &Checked,
    waves: &List<Wave>,
    lines: &List<LineOf>,
) -> Result<List<Life>, AllocError>
    requires schedule { IsSchedule g.now waves.now }
    requires lines { ports_of_lines lines.now ≡ values g.now }
    ensures lives { IfOk result (λ lives. lives ≡ shared_lives_of g.now waves.now lines.now (values g.now)) }
    ensures usable { IfOk result (λ lives. AreLives lives (length waves.now)) }
    ensures few { IfOk result (λ lives. length lives ≤ 8192) }
{
    // It is sound, which the laws of lives ask for.
    let _ = g.graph();
    let unlined = lives(alloc, g, waves)?;
    with_lines(alloc, unlined.as_slice(), lines.as_slice())
}

/// How many buffers each wave needs: one for each value that is alive in it, where a node may bear as many in place as
/// die there with it as their sole reader.
///
/// There is one number for each wave, in their order. It fails only for want of memory.
pub fn needs(alloc: Global, lives: &List<Life>, waves: u32) -> Result<List<u32>, AllocError>
    requires lives { AreLives lives.now waves }
    requires few { length lives.now ≤ 16384 }
    ensures one_each { IfOk result (λ v. length v ≡ waves) }
    ensures needs { IfOk result (λ v. (s : ℕ) → s < waves → slice_index v s ≡ need_of_wave lives.now s) }
{
    let lives = lives.as_slice();
    let takers = takers(alloc, lives)?;
    let born = births(alloc, lives, waves)?;
    let dead = deaths(alloc, lives, waves)?;
    let saved = births(alloc, &takers, waves)?;
    let mut needs = List::new(alloc);
    let mut alive = 0;
    for wave in 0..waves as usize {
        alive += born[wave];
        needs.push(alive - saved[wave])?;
        alive -= dead[wave];
    }
    Ok(needs)
}
