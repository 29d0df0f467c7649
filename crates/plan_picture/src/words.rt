//! What stands above and below the picture in words.

use crate::scene::{PlanTotals, Scene};
use std::alloc::AllocError;
use std::fmt::Write;

/// The room below the rows.
pub(crate) const FOOT: u64 = 60;

/// Adds what a plan sums up to.
fn put_plan(text: &mut String, latency: u64, plan: &PlanTotals) -> Result<(), AllocError> {
    let (delays, channels, peak) = (plan.delays, plan.channels, plan.peak);
    text.push_str("<text x=\"24\" y=\"22\" class=\"words\">")?;
    write!(
        text,
        "latency {latency} frames, that of the bold path</text>\n"
    )?;
    text.push_str("<text x=\"24\" y=\"38\" class=\"words\">")?;
    write!(text, "delay lines of {delays} samples in all; ")?;
    write!(
        text,
        "{channels} buffers, first needed in wave {peak}</text>\n"
    )
}

/// Adds what is known without a plan.
fn put_layers(text: &mut String, latency: u64) -> Result<(), AllocError> {
    text.push_str("<text x=\"24\" y=\"22\" class=\"words\">not aligned: ")?;
    text.push_str("in layers, by the most connections on a path into each node</text>\n")?;
    text.push_str("<text x=\"24\" y=\"38\" class=\"words\">")?;
    write!(
        text,
        "the bold path has the greatest latency, {latency} frames</text>\n"
    )
}

/// Adds how many nodes and connections lead to the output.
fn put_counts(text: &mut String, scene: &Scene) -> Result<(), AllocError> {
    let live = scene.boxes.iter().filter(|shape| shape.is_live).count();
    let joined = scene.wires.iter().filter(|wire| wire.is_live).count();
    let (nodes, connections) = (scene.totals.nodes, scene.totals.connections);
    text.push_str("<text x=\"24\" y=\"54\" class=\"words\">")?;
    write!(
        text,
        "{live} of {nodes} nodes and {joined} of {connections} "
    )?;
    text.push_str("connections lead to the output</text>\n")
}

/// Adds the totals.
pub(crate) fn put_totals(text: &mut String, scene: &Scene) -> Result<(), AllocError> {
    match scene.totals.plan {
        Some(plan) => put_plan(text, scene.totals.latency, &plan)?,
        None => put_layers(text, scene.totals.latency)?,
    }
    put_counts(text, scene)
}

/// Adds a line of the legend.
fn put_line(text: &mut String, y: u64, words: &str) -> Result<(), AllocError> {
    write!(
        text,
        "<text x=\"24\" y=\"{y}\" class=\"words\" fill=\"#666\">{words}</text>\n"
    )
}

/// Adds how the picture is to be read.
pub(crate) fn put_legend(text: &mut String, top: u64, is_planned: bool) -> Result<(), AllocError> {
    let (first, second) = (top.saturating_add(24), top.saturating_add(40));
    if is_planned {
        put_line(
            text,
            first,
            "time to the right; a box: uid, kind, latency, wave (red: the first that needs all buffers)",
        )?;
        return put_line(
            text,
            second,
            "blue: with a latency; dashed: a delay line of so many samples; colour: buffer",
        );
    }
    put_line(
        text,
        first,
        "a box: uid, kind, latency; blue: with a latency",
    )?;
    put_line(
        text,
        second,
        "paler: idle, as nothing leads from there to the output",
    )
}
