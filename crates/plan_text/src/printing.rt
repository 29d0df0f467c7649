//! A plan as a text.

ghost use Rattle.std.specs.Prelude.{◌≡◌, ◌∷◌, [], true, map, string_bytes, IfOk, OnOk};
ghost use Rattle.std.specs.List.{list_all};
ghost use Rattle.plan_text.specs.declared.word.Word.TheVariants as word;
ghost use Rattle.plan_text.specs.Lines.{fits, is_small, line};
ghost use Rattle.plan_text.specs.Printing.{Appends};
ghost use Rattle.plan_text.specs.Texts.{arc_line, at_line, delay_line, home_line, names_of, text_of, wave_line, IsInRange};

use crate::word::Word;
use graph_model::{List, Uid};
use plan_model::{At, Home, LineAt, Plan, Units, Wave};
use std::alloc::{AllocError, Global};
use std::fmt::Write;

/// Adds a line.
fn put_line(text: &mut String, word: Word, numbers: &[u64]) -> Result<(), AllocError>
    requires { fits word numbers.now ≡ true }
    ensures { OnOk result (Appends (string_bytes text.old) (string_bytes text.new) (line word numbers.now ∷ [])) }
{
    text.push_str(word.text())?;
    for number in numbers {
        write!(text, " {number}")?;
    }
    text.push('\n')
}

/// The names of nodes, as numbers.
fn names(alloc: Global, nodes: &[Uid]) -> Result<List<u64>, AllocError>
    ensures names { IfOk result (λ names. names ≡ names_of nodes.now) }
    ensures small { IfOk result (λ names. list_all is_small names ≡ true) }
{
    let mut names = List::new(alloc);
    for node in nodes {
        names.push(node.0 as u64)?;
    }
    Ok(names)
}

fn put_position(text: &mut String, row: &At) -> Result<(), AllocError>
    ensures { OnOk result (Appends (string_bytes text.old) (string_bytes text.new) (at_line row.now ∷ [])) }
{
    let numbers = [row.uid.0 as u64, row.at];
    put_line(text, Word::At, &numbers)
}

fn put_delay(text: &mut String, row: &LineAt) -> Result<(), AllocError>
    ensures { OnOk result (Appends (string_bytes text.old) (string_bytes text.new) (delay_line row.now ∷ [])) }
{
    let numbers = [row.connection as u64, row.delay];
    put_line(text, Word::Line, &numbers)
}

fn put_arc(text: &mut String, row: &Units) -> Result<(), AllocError>
    ensures { OnOk result (Appends (string_bytes text.old) (string_bytes text.new) (arc_line row.now ∷ [])) }
{
    let numbers = [row.tail as u64, row.head as u64, row.units];
    put_line(text, Word::Arc, &numbers)
}

fn put_wave(alloc: Global, text: &mut String, row: &Wave) -> Result<(), AllocError>
    ensures { OnOk result (Appends (string_bytes text.old) (string_bytes text.new) (wave_line row.now ∷ [])) }
{
    let names = names(alloc, row.nodes.as_slice())?;
    put_line(text, Word::Wave, names.as_slice())
}

fn put_home(text: &mut String, row: &Home) -> Result<(), AllocError>
    ensures { OnOk result (Appends (string_bytes text.old) (string_bytes text.new) (home_line row.now ∷ [])) }
{
    let numbers = [row.uid.0 as u64, row.channel as u64, row.buffer as u64];
    put_line(text, Word::Home, &numbers)
}

fn put_positions(text: &mut String, rows: &[At]) -> Result<(), AllocError>
    ensures { OnOk result (Appends (string_bytes text.old) (string_bytes text.new) (map at_line rows.now)) }
{
    for row in rows {
        put_position(text, row)?;
    }
    Ok(())
}

fn put_delays(text: &mut String, rows: &[LineAt]) -> Result<(), AllocError>
    ensures { OnOk result (Appends (string_bytes text.old) (string_bytes text.new) (map delay_line rows.now)) }
{
    for row in rows {
        put_delay(text, row)?;
    }
    Ok(())
}

fn put_arcs(text: &mut String, rows: &[Units]) -> Result<(), AllocError>
    ensures { OnOk result (Appends (string_bytes text.old) (string_bytes text.new) (map arc_line rows.now)) }
{
    for row in rows {
        put_arc(text, row)?;
    }
    Ok(())
}

fn put_waves(alloc: Global, text: &mut String, rows: &[Wave]) -> Result<(), AllocError>
    ensures { OnOk result (Appends (string_bytes text.old) (string_bytes text.new) (map wave_line rows.now)) }
{
    for row in rows {
        put_wave(alloc, text, row)?;
    }
    Ok(())
}

fn put_homes(text: &mut String, rows: &[Home]) -> Result<(), AllocError>
    ensures { OnOk result (Appends (string_bytes text.old) (string_bytes text.new) (map home_line rows.now)) }
{
    for row in rows {
        put_home(text, row)?;
    }
    Ok(())
}

/// The text of a plan, in bytes. It fails only for want of memory.
pub fn print(alloc: Global, plan: &Plan) -> Result<Vec<u8>, AllocError>
    ensures text { IfOk result (λ text. text.items ≡ text_of plan.now) }
    ensures in_range { OnOk result (IsInRange plan.now) }
{
    let mut text = String::new(alloc);
    let path = names(alloc, plan.path.as_slice())?;
    put_line(&mut text, Word::Plan, &[1])?;
    put_line(&mut text, Word::Latency, &[plan.latency])?;
    put_line(&mut text, Word::Path, path.as_slice())?;
    put_positions(&mut text, plan.at.as_slice())?;
    put_delays(&mut text, plan.lines.as_slice())?;
    put_line(&mut text, Word::Total, &[plan.total])?;
    put_arcs(&mut text, plan.arcs.as_slice())?;
    put_line(&mut text, Word::Bound, &[plan.bound])?;
    put_waves(alloc, &mut text, plan.waves.as_slice())?;
    put_homes(&mut text, plan.homes.as_slice())?;
    put_line(&mut text, Word::Channels, &[plan.channels as u64])?;
    put_line(&mut text, Word::Peak, &[plan.peak])?;
    put_line(&mut text, Word::End, &[])?;
    Ok(text.into_bytes())
}
