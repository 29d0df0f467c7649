//! The words `demo SEED NODES`.

ghost use Rattle.std.specs.Prelude.{◌≡◌, IfOk, map, string_bytes};
ghost use Rattle.clap.specs.Words.{app_of};
ghost use Rattle.graph_model.specs.Refusals.{Gives, mapped};
ghost use Rattle.command_words.specs.Demos.{demo_command, demo_of, demo_said, demo_request};

use crate::commands::{positional, taken, wanted};
use crate::fault::WordsFault;
use crate::number::{is_numeral, number, number_within};
use clap::Command;
use graph_model::Refused;
use std::alloc::{AllocError, Global};

/// A request to show what the host does with a graph that is made of a number.
#[derive(Clone, Copy, Debug)]
pub struct DemoRequest {
    /// What the graph is made of.
    pub seed: u64,
    /// How many nodes it has, 3 to 512.
    pub nodes: u32,
}

fn demo_command<'a>(alloc: Global) -> Result<Command<'a>, AllocError>
    ensures { IfOk result (λ c. app_of c ≡ demo_command) }
{
    Command::new(alloc, "demo")
        .arg(positional(alloc, "SEED"))?
        .arg(positional(alloc, "NODES"))
}

/// The request of two words, which have to be numerals and then within their ranges.
fn numbered(seed: &str, nodes: &str) -> Result<DemoRequest, WordsFault>
    ensures { mapped demo_said result ≡ demo_of seed.now nodes.now }
{
    if !is_numeral(seed) || !is_numeral(nodes) {
        return Err(WordsFault::NoRequest);
    }
    match (number(seed), number_within(nodes, 3, 512)) {
        (Some(seed), Some(nodes)) => Ok(DemoRequest { seed, nodes }),
        _ => Err(WordsFault::OutOfRange),
    }
}

/// The request of a demo that the words are.
pub(crate) fn read_demo(alloc: Global, words: &[String]) -> Result<DemoRequest, Refused<WordsFault>>
    ensures { Gives (demo_request (map string_bytes words.entry.now)) (mapped demo_said result) }
{
    let matches = taken(demo_command(alloc)?, words)?;
    let seed = wanted(&matches, "SEED")?;
    let nodes = wanted(&matches, "NODES")?;
    Ok(numbered(seed, nodes)?)
}
