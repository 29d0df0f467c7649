//! Pictures of graphs and of their plans, as SVG texts.
//!
//! [`picture`] draws a sound graph: by its plan with time to the right, or without one in layers by depth. First the
//! graph is put into numbers (`scene`): boxes with a time and wires with a colour. Then each box has a stop, a moment
//! that stands beside the others from left to right (`stops`), and a row that nothing else takes while its box or a
//! wire from it runs there (`rows`). At last shapes and words are written (`shapes`, `words`).
//!
//! It promises that it ends and that it is safe for any plan, also for one that is not the graph's; every sum stops at
//! the last number of 64 bits. What is written is a text of fixed words and of numbers. How it looks is tested alone.
//!
//! It stands on graph_model, plan_model and connections.
#![tactic(auto)]

mod rows;
mod scene;
mod shapes;
mod sizes;
mod stops;
mod words;

use connections::Checked;
use plan_model::Plan;
use std::alloc::{AllocError, Global};

/// The SVG text of a graph, with its plan or without one. It fails only for want of memory.
pub fn picture(alloc: Global, graph: &Checked, plan: Option<&Plan>) -> Result<String, AllocError> {
    let mut text = String::new(alloc);
    match plan {
        Some(plan) => {
            let scene = scene::aligned(alloc, graph, plan)?;
            draw(alloc, &mut text, &scene)?;
        }
        None => {
            let scene = scene::layered(alloc, graph)?;
            draw(alloc, &mut text, &scene)?;
        }
    }
    Ok(text)
}

/// Lays a scene out, and writes it.
fn draw(alloc: Global, text: &mut String, scene: &scene::Scene) -> Result<(), AllocError> {
    let stops = stops::stops_of(alloc, scene)?;
    let rows = rows::rows_of(alloc, scene, &stops)?;
    let sizes = sizes::sizes_for(scene.boxes.len());
    let edges = stops::edges(alloc, &stops, &sizes)?;
    let tops = rows::tops(alloc, scene, &rows, &sizes)?;
    shapes::put_picture(
        text,
        scene,
        &stops,
        &rows,
        &sizes,
        edges.as_slice(),
        tops.as_slice(),
    )
}
