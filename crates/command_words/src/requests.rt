//! What the words of the command line ask for.

ghost use Rattle.std.specs.Prelude.{IfOk, map, string_bytes};
ghost use Rattle.graph_model.specs.Refusals.{Gives, mapped};
ghost use Rattle.command_words.specs.Requests.{IsInRange, request_in, request_of, said};

use crate::check::read_check;
use crate::compile::read_compile;
use crate::demo::read_demo;
use crate::fault::WordsFault;
use crate::modes::Request;
use crate::render::read_render;
use graph_model::Refused;
use std::alloc::Global;

/// The request that the words are in a mode.
fn request_in<'a>(
    alloc: Global,
    mode: &str,
    words: &'a [String],
) -> Result<Request<'a>, Refused<WordsFault>>
    ensures { Gives (request_in mode.now (map string_bytes words.entry.now)) (mapped said result) }
{
    match mode {
        "render" => Ok(Request::Render(read_render(alloc, words)?)),
        "compile" => Ok(Request::Compile(read_compile(alloc, words)?)),
        "check" => Ok(Request::Check(read_check(alloc, words)?)),
        "demo" => Ok(Request::Demo(read_demo(alloc, words)?)),
        _ => Err(Refused::Fault(WordsFault::NoRequest)),
    }
}

/// What the words ask for. The first of them is the mode, `render`, `compile`, `check` or `demo`.
///
/// They are refused with `NoRequest` where they are no request, and with `OutOfRange` where they are one of `demo` but
/// for a number that is out of range.
pub fn request<'a>(alloc: Global, words: &'a [String]) -> Result<Request<'a>, Refused<WordsFault>>
    ensures exact { Gives (request_of (map string_bytes words.entry.now)) (mapped said result) }
    ensures range { IfOk result (λ r. IsInRange (said r)) }
{
    match words {
        [mode, ..] => request_in(alloc, mode.as_str(), words),
        [] => Err(Refused::Fault(WordsFault::NoRequest)),
    }
}
