//! The words `render GRAPH IN OUT [--block N | --cuts a,b,..] [--tail T] [--compensate] [--waves] [--bits B]`.

ghost use Rattle.std.specs.Prelude.{◌≡◌, ◌==◌, IfOk, map, option_map, string_bytes};
ghost use Rattle.std.specs.List.{slice_split};
ghost use Rattle.clap.specs.Words.{app_of, found_of, rows_of};
ghost use Rattle.graph_model.specs.Refusals.{Gives, mapped};
ghost use Rattle.command_words.specs.Rendering.{bits_of, block_length, cuts_of, cutting_of, each, render_command};
ghost use Rattle.command_words.specs.Rendering.{render_in, render_request, render_said, tail_of};

use crate::commands::{flag, is_given, option, positional, taken, value, wanted};
use crate::fault::WordsFault;
use crate::number::{number, number_within};
use clap::{ArgMatches, Command};
use graph_model::{List, Refused};
use std::alloc::{AllocError, Global};
use wav_pcm::is_size;

/// The length of a block in frames where the words name none.
const BLOCK: u32 = 512;

/// The most lengths that `--cuts` may name.
const MOST_CUTS: usize = 64;

/// A request to render a file through a graph.
#[derive(Debug, Drop)]
pub struct RenderRequest<'a> {
    /// The name of the graph's records.
    pub graph: &'a str,
    /// The name of the file that is read.
    pub input: &'a str,
    /// The name of the file that is written.
    pub output: &'a str,
    /// The lengths of the blocks in frames, 1 to 64 lengths of 1 to 8192, which are repeated in turn.
    pub cutting: List<u32>,
    /// How many frames of silence come after the input.
    pub tail: u32,
    /// The size of the samples that are written, 8, 16, 24 or 32 bits, if it is not that of the input.
    pub bits: Option<u32>,
    /// Whether as many of the first frames as the graph's latency are left out.
    pub compensate: bool,
    /// Whether the nodes are scheduled by waves.
    pub waves: bool,
}

fn render_command<'a>(alloc: Global) -> Result<Command<'a>, AllocError>
    ensures { IfOk result (λ c. app_of c ≡ render_command) }
{
    Command::new(alloc, "render")
        .arg(positional(alloc, "GRAPH"))?
        .arg(positional(alloc, "IN"))?
        .arg(positional(alloc, "OUT"))?
        .arg(option(alloc, "block"))?
        .arg(option(alloc, "cuts"))?
        .arg(option(alloc, "tail"))?
        .arg(flag(alloc, "compensate"))?
        .arg(flag(alloc, "waves"))?
        .arg(option(alloc, "bits"))
}

/// The length of a block, 1 to 8192 frames.
fn block_length(text: &str) -> Result<u32, WordsFault>
    ensures { result ≡ block_length text.now }
{
    number_within(text, 1, 8192).ok_or(WordsFault::NoRequest)
}

/// The parts of a text between commas.
fn parts(alloc: Global, text: &str) -> Result<Vec<&str>, AllocError>
    ensures { IfOk result (λ v. map (λ s. s.now) v.items ≡ slice_split (λ b. b == 44) text.now) }
{
    text.split(',').collect(alloc)
}

/// The lengths of the blocks, each spelled by a text.
fn lengths(alloc: Global, texts: &[&str]) -> Result<List<u32>, Refused<WordsFault>>
    ensures { Gives (each block_length (map (λ s. s.now) texts.now)) result }
{
    let mut lengths = List::new(alloc);
    for text in texts {
        let length = block_length(text)?;
        lengths.push(length)?;
    }
    Ok(lengths)
}

/// The 1 to 64 lengths that a text names, with commas between them.
fn cuts(alloc: Global, text: &str) -> Result<List<u32>, Refused<WordsFault>>
    ensures { Gives (cuts_of text.now) result }
{
    let parts = parts(alloc, text)?;
    if parts.len() > MOST_CUTS {
        return Err(Refused::Fault(WordsFault::NoRequest));
    }
    lengths(alloc, parts.as_slice())
}

/// The lengths of the blocks by `--block` or `--cuts`, which exclude each other.
fn cutting(
    alloc: Global,
    block: Option<&str>,
    text: Option<&str>,
) -> Result<List<u32>, Refused<WordsFault>>
    ensures { Gives (cutting_of (option_map (λ s. s.now) block.entry) (option_map (λ s. s.now) text.entry)) result }
{
    match (block, text) {
        (None, None) => Ok(List::from_slice(alloc, &[BLOCK])?),
        (Some(block), None) => Ok(List::from_slice(alloc, &[block_length(block)?])?),
        (None, Some(text)) => cuts(alloc, text),
        (Some(_), Some(_)) => Err(Refused::Fault(WordsFault::NoRequest)),
    }
}

/// The frames of a tail, none where the option is not given.
fn tail(text: Option<&str>) -> Result<u32, WordsFault>
    ensures { result ≡ tail_of (option_map (λ s. s.now) text.entry) }
{
    match text {
        Some(text) => number_within(text, 0, u32::MAX).ok_or(WordsFault::NoRequest),
        None => Ok(0),
    }
}

/// A size of samples in bits, and None where the option is not given.
fn bits(text: Option<&str>) -> Result<Option<u32>, WordsFault>
    ensures { result ≡ bits_of (option_map (λ s. s.now) text.entry) }
{
    match text {
        Some(text) => match number(text).filter(|bits| is_size(*bits)) {
            Some(bits) => Ok(Some(bits as u32)),
            None => Err(WordsFault::NoRequest),
        },
        None => Ok(None),
    }
}

/// The request of what clap has read.
fn render_in<'a>(
    alloc: Global,
    matches: &ArgMatches<'a>,
) -> Result<RenderRequest<'a>, Refused<WordsFault>>
    ensures { Gives (render_in (rows_of (found_of matches.now))) (mapped render_said result) }
{
    Ok(RenderRequest {
        graph: wanted(matches, "GRAPH")?,
        input: wanted(matches, "IN")?,
        output: wanted(matches, "OUT")?,
        cutting: cutting(alloc, value(matches, "block"), value(matches, "cuts"))?,
        tail: tail(value(matches, "tail"))?,
        bits: bits(value(matches, "bits"))?,
        compensate: is_given(matches, "compensate"),
        waves: is_given(matches, "waves"),
    })
}

/// The request to render that the words are.
pub(crate) fn read_render<'a>(
    alloc: Global,
    words: &'a [String],
) -> Result<RenderRequest<'a>, Refused<WordsFault>>
    ensures { Gives (render_request (map string_bytes words.entry.now)) (mapped render_said result) }
{
    let matches = taken(render_command(alloc)?, words)?;
    render_in(alloc, &matches)
}
