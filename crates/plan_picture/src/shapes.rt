//! Boxes, wires and moments as elements of an SVG.

use crate::rows::{HEAD, Rows};
use crate::scene::{PlanTotals, Scene, Shape, Wire};
use crate::sizes::Sizes;
use crate::stops::{MARGIN, Stops};
use crate::words::{FOOT, put_legend, put_totals};
use std::alloc::AllocError;
use std::fmt::Write;

/// A rectangle.
#[derive(Clone, Copy, Debug, PartialEq, Eq)]
struct Frame {
    x: u64,
    y: u64,
    width: u64,
    height: u64,
}

/// The layout of a scene.
#[derive(Drop)]
struct Layout<'a> {
    scene: &'a Scene,
    stops: &'a Stops,
    rows: &'a Rows,
    sizes: &'a Sizes,
    edges: &'a [u64],
    tops: &'a [u64],
}

/// The colours of the buffers, in turn.
const COLOURS: [&str; 10] = [
    "#1f77b4", "#d62728", "#2ca02c", "#9467bd", "#e07800", "#8c564b", "#d457b0", "#0f9fb0",
    "#8a8b00", "#555555",
];

/// The colour of a wire.
fn colour(wire: &Wire) -> &'static str {
    match wire.buffer {
        Some(buffer) => COLOURS[buffer as usize % 10],
        None if wire.is_live => "#444",
        None => "#bbb",
    }
}

/// The rectangle of a box.
fn frame_of(layout: &Layout<'_>, shape: &Shape, at: usize) -> Frame {
    let begin = layout.stops.begins.get(at).copied().unwrap_or(0);
    let end = layout.stops.ends.get(at).copied().unwrap_or(0);
    let row = layout.rows.of.get(at).copied().unwrap_or(0);
    let x = layout.edges.get(begin).copied().unwrap_or(0);
    let past = layout.edges.get(end).copied().unwrap_or(0);
    let room = past.saturating_sub(x).saturating_sub(layout.sizes.gap);
    let width = if shape.end > shape.start { room } else { 0 };
    Frame {
        x,
        y: layout.tops.get(row).copied().unwrap_or(0),
        width: width.max(layout.sizes.width),
        height: layout.sizes.box_height(shape.channels),
    }
}

/// The rectangle of the box at a place.
fn frame_at(layout: &Layout<'_>, at: usize) -> Frame {
    match layout.scene.boxes.get(at) {
        Some(shape) => frame_of(layout, shape, at),
        None => Frame {
            x: 0,
            y: 0,
            width: 0,
            height: 0,
        },
    }
}

/// Where the wires of a channel meet a box, from the top.
fn port(frame: &Frame, channel: u32, channels: u32) -> u64 {
    let all = u64::from(channels).saturating_add(1);
    let part = u64::from(channel)
        .saturating_add(1)
        .saturating_mul(frame.height)
        / all;
    frame.y.saturating_add(part)
}

/// How many channels the larger side of a box has.
fn channels_at(layout: &Layout<'_>, at: usize) -> u32 {
    match layout.scene.boxes.get(at) {
        Some(shape) => shape.channels.min(4294967294),
        None => 1,
    }
}

/// Adds the class and the colour of a wire.
fn put_look(text: &mut String, wire: &Wire) -> Result<(), AllocError> {
    text.push_str("class=\"wire")?;
    if wire.is_on_path {
        text.push_str(" path")?;
    }
    if wire.delay > 0 {
        text.push_str(" late")?;
    }
    let colour = colour(wire);
    write!(text, "\" stroke=\"{colour}\"/>\n")
}

/// Adds the curve of a wire: along the row of its source, and down or up right before the box that it leads to.
fn put_curve(
    text: &mut String,
    from: &Frame,
    y: u64,
    x: u64,
    end: u64,
    gap: u64,
) -> Result<(), AllocError> {
    let start = from.x.saturating_add(from.width);
    let turn = x.saturating_sub(gap).max(start);
    let middle = x.saturating_sub(gap / 2).max(start);
    write!(text, "<path d=\"M{start} {y}H{turn}")?;
    write!(text, "C{middle} {y} {middle} {end} {x} {end}\" ")
}

/// Adds the number of a delay beside its wire.
fn put_delay(
    text: &mut String,
    layout: &Layout<'_>,
    wire: &Wire,
    x: u64,
    y: u64,
) -> Result<(), AllocError> {
    let x = x.saturating_sub(layout.sizes.gap).saturating_add(1);
    let y = y.saturating_add(layout.sizes.small);
    let (colour, delay) = (colour(wire), wire.delay);
    write!(
        text,
        "<text x=\"{x}\" y=\"{y}\" class=\"small\" fill=\"{colour}\">{delay}</text>\n"
    )
}

/// Adds a wire.
fn put_wire(text: &mut String, layout: &Layout<'_>, wire: &Wire) -> Result<(), AllocError> {
    let from = frame_at(layout, wire.from);
    let to = frame_at(layout, wire.to);
    let y = port(&from, wire.from_channel, channels_at(layout, wire.from));
    let end = port(&to, wire.to_channel, channels_at(layout, wire.to));
    put_curve(text, &from, y, to.x, end, layout.sizes.gap)?;
    put_look(text, wire)?;
    if wire.delay > 0 {
        put_delay(text, layout, wire, to.x, y)?;
    }
    Ok(())
}

/// Adds the number of the buffer of a wire at the box that it leaves.
fn put_buffer(text: &mut String, layout: &Layout<'_>, wire: &Wire) -> Result<(), AllocError> {
    let Some(buffer) = wire.buffer else {
        return Ok(());
    };
    let from = frame_at(layout, wire.from);
    let x = from.x.saturating_add(from.width).saturating_add(2);
    let y = port(&from, wire.from_channel, channels_at(layout, wire.from)).saturating_sub(3);
    let colour = colour(wire);
    write!(
        text,
        "<text x=\"{x}\" y=\"{y}\" class=\"small\" fill=\"{colour}\">b{buffer}</text>\n"
    )
}

/// Adds all wires: those on the path last, so that they lie above the others.
fn put_wires(text: &mut String, layout: &Layout<'_>) -> Result<(), AllocError> {
    for wire in layout.scene.wires.iter() {
        if !wire.is_on_path {
            put_wire(text, layout, wire)?;
        }
    }
    for wire in layout.scene.wires.iter() {
        if wire.is_on_path {
            put_wire(text, layout, wire)?;
        }
    }
    Ok(())
}

/// Adds the numbers of the buffers, where there is room for them.
fn put_buffers(text: &mut String, layout: &Layout<'_>) -> Result<(), AllocError> {
    if layout.scene.boxes.len() > 60 {
        return Ok(());
    }
    for wire in layout.scene.wires.iter() {
        put_buffer(text, layout, wire)?;
    }
    Ok(())
}

/// The class of a box.
fn class(shape: &Shape) -> &'static str {
    match (shape.is_live, shape.is_on_path, shape.latency > 0) {
        (false, _, _) => "box idle",
        (true, true, true) => "box slow path",
        (true, true, false) => "box path",
        (true, false, true) => "box slow",
        (true, false, false) => "box",
    }
}

/// Adds the rectangle of a box.
fn put_frame(text: &mut String, frame: &Frame, class: &str) -> Result<(), AllocError> {
    let (x, y, width, height) = (frame.x, frame.y, frame.width, frame.height);
    write!(text, "<rect x=\"{x}\" y=\"{y}\" width=\"{width}\" ")?;
    write!(text, "height=\"{height}\" class=\"{class}\"/>\n")
}

/// Adds the words in a box: its uid, its kind and its latency.
fn put_name(text: &mut String, shape: &Shape, x: u64, y: u64) -> Result<(), AllocError> {
    let (uid, kind, latency) = (shape.uid.0, shape.kind, shape.latency);
    let fill = if shape.is_live { "#000" } else { "#999" };
    write!(
        text,
        "<text x=\"{x}\" y=\"{y}\" fill=\"{fill}\">{uid} {kind}"
    )?;
    if latency > 0 {
        write!(text, " {latency}")?;
    }
    text.push_str("</text>\n")
}

/// Adds the mark of the wave of a box; that of the first wave that needs all buffers stands out.
fn put_wave(
    text: &mut String,
    plan: &PlanTotals,
    wave: usize,
    x: u64,
    y: u64,
) -> Result<(), AllocError> {
    let class = if wave as u64 == plan.peak {
        "small end peak"
    } else {
        "small end wave"
    };
    write!(
        text,
        "<text x=\"{x}\" y=\"{y}\" class=\"{class}\">w{wave}</text>\n"
    )
}

/// Adds a box.
fn put_box(
    text: &mut String,
    layout: &Layout<'_>,
    shape: &Shape,
    at: usize,
) -> Result<(), AllocError> {
    let frame = frame_of(layout, shape, at);
    let third = layout.sizes.font / 3;
    let y = frame
        .y
        .saturating_add(frame.height / 2)
        .saturating_add(third);
    put_frame(text, &frame, class(shape))?;
    put_name(text, shape, frame.x.saturating_add(4), y)?;
    if let (Some(plan), Some(wave)) = (layout.scene.totals.plan, shape.wave) {
        let x = frame.x.saturating_add(frame.width).saturating_sub(3);
        put_wave(text, &plan, wave, x, y)?;
    }
    Ok(())
}

fn put_boxes(text: &mut String, layout: &Layout<'_>) -> Result<(), AllocError> {
    for (at, shape) in layout.scene.boxes.iter().enumerate() {
        put_box(text, layout, shape, at)?;
    }
    Ok(())
}

/// Adds the line of a moment, with its time.
fn put_moment(
    text: &mut String,
    layout: &Layout<'_>,
    time: u64,
    edge: u64,
) -> Result<(), AllocError> {
    let x = edge.saturating_sub(layout.sizes.gap / 2).max(2);
    let y = HEAD.saturating_sub(12);
    let height = bottom(layout).saturating_sub(y);
    let label = y.saturating_sub(2);
    write!(
        text,
        "<rect x=\"{x}\" y=\"{y}\" width=\"1\" height=\"{height}\" fill=\"#ddd\"/>\n"
    )?;
    write!(
        text,
        "<text x=\"{x}\" y=\"{label}\" class=\"small\" fill=\"#666\">{time}</text>\n"
    )
}

/// Adds the moments of a plan: each where its first box stands.
fn put_moments(text: &mut String, layout: &Layout<'_>) -> Result<(), AllocError> {
    let mut last = None;
    for (stop, edge) in layout.stops.all.iter().zip(layout.edges.iter()) {
        if last != Some(stop.time) {
            put_moment(text, layout, stop.time, *edge)?;
        }
        last = Some(stop.time);
    }
    Ok(())
}

/// Where the rows end.
fn bottom(layout: &Layout<'_>) -> u64 {
    layout.tops.last().copied().unwrap_or(HEAD)
}

/// How wide the picture is.
fn width(layout: &Layout<'_>) -> u64 {
    let edge = layout.edges.last().copied().unwrap_or(0);
    edge.saturating_add(MARGIN).max(640)
}

/// Adds the head of the picture and its styles.
fn put_head(text: &mut String, width: u64, height: u64, sizes: &Sizes) -> Result<(), AllocError> {
    let (font, small) = (sizes.font, sizes.small);
    text.push_str("<svg xmlns=\"http://www.w3.org/2000/svg\" ")?;
    write!(
        text,
        "width=\"{width}\" height=\"{height}\" viewBox=\"0 0 {width} {height}\">\n"
    )?;
    text.push_str("<style>\ntext{font-family:'DejaVu Sans Mono',Menlo,Consolas,monospace;")?;
    write!(
        text,
        "font-size:{font}px}}\n.small{{font-size:{small}px}}\n"
    )?;
    text.push_str(STYLES)?;
    text.push_str("</style>\n<rect width=\"100%\" height=\"100%\" fill=\"#fff\"/>\n")
}

const STYLES: &str = "\
.words{font-size:11px}
.end{text-anchor:end}
.wave{fill:#888}
.peak{fill:#c03;font-weight:bold}
.box{fill:#fff;stroke:#000}
.slow{fill:#dde8f7}
.idle{fill:#fafafa;stroke:#bbb;stroke-dasharray:2 2}
.wire{fill:none}
.late{stroke-dasharray:5 3}
.path{stroke-width:2.5px}
";

/// Adds the whole picture.
pub(crate) fn put_picture(
    text: &mut String,
    scene: &Scene,
    stops: &Stops,
    rows: &Rows,
    sizes: &Sizes,
    edges: &[u64],
    tops: &[u64],
) -> Result<(), AllocError> {
    let layout = Layout {
        scene,
        stops,
        rows,
        sizes,
        edges,
        tops,
    };
    let end = bottom(&layout);
    put_head(text, width(&layout), end.saturating_add(FOOT), sizes)?;
    put_totals(text, scene)?;
    if scene.totals.plan.is_some() {
        put_moments(text, &layout)?;
    }
    put_wires(text, &layout)?;
    put_boxes(text, &layout)?;
    put_buffers(text, &layout)?;
    put_legend(text, end, scene.totals.plan.is_some())?;
    text.push_str("</svg>\n")
}
