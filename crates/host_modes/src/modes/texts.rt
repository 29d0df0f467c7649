//! The texts that `check` and `demo` report.

ghost use Rattle.std.specs.Prelude.{◌≡◌, ◌++◌, IfOk, OnOk, string_bytes};
ghost use Rattle.host_modes.specs.Demos.{row, sum_row};
ghost use Rattle.host_modes.specs.Works.{rule_name, verdict_line};
ghost use Rattle.host_modes.specs.declared.ends.End.TheVariants.{Done, No as Not};

use plan_checker::No;
use plan_model::Rule;
use std::alloc::{AllocError, Global};
use std::fmt::Write;

/// The name of a rule.
fn rule_name(rule: Rule) -> &'static str
    ensures { result.now ≡ rule_name rule }
{
    match rule {
        Rule::At => "at",
        Rule::Input => "input",
        Rule::Alignment => "alignment",
        Rule::Latency => "latency",
        Rule::Lines => "lines",
        Rule::Total => "total",
        Rule::Path => "path",
        Rule::Longest => "longest",
        Rule::Arcs => "arcs",
        Rule::Need => "need",
        Rule::Bound => "bound",
        Rule::Least => "least",
        Rule::Waves => "waves",
        Rule::Homes => "homes",
        Rule::Channels => "channels",
        Rule::Peak => "peak",
    }
}

/// The line of a plan that is certified.
pub(crate) fn yes_line(alloc: Global) -> Result<Vec<u8>, AllocError>
    ensures { IfOk result (λ text. text.items ≡ verdict_line Done) }
{
    let text = String::from_str(alloc, "yes\n")?;
    Ok(text.into_bytes())
}

/// The line of a plan that is not.
pub(crate) fn no_line(alloc: Global, no: No) -> Result<Vec<u8>, AllocError>
    ensures { IfOk result (λ text. text.items ≡ verdict_line (Not no.rule no.place)) }
{
    let mut text = String::new(alloc);
    let name = rule_name(no.rule);
    let place = no.place;
    write!(text, "no {name} {place}\n")?;
    Ok(text.into_bytes())
}

/// Adds a line of a word and a number.
#[tactic(auto, unfolding(crate::specs::Demos::row))]
pub(crate) fn put_row(text: &mut String, word: &str, number: u64) -> Result<(), AllocError>
    ensures { OnOk result (string_bytes text.new ≡ string_bytes text.old ++ row word.now number) }
{
    write!(text, "{word} {number}\n")
}

/// Adds the line on what was rendered.
#[tactic(auto, unfolding(crate::specs::Demos::sum_row))]
pub(crate) fn put_sum_row(text: &mut String, frames: u64, sum: u64) -> Result<(), AllocError>
    ensures { OnOk result (string_bytes text.new ≡ string_bytes text.old ++ sum_row frames sum) }
{
    write!(text, "frames {frames} sum {sum}\n")
}
