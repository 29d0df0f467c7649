//! The graph that JSON records (RFC 8259) are, and the records of a graph.
//!
//! `read_graph` answers the graph that the bytes are the records of, or the first fault of the
//! bytes in the order in which records are read, exactly (`specs/Walk`); want of memory alone is
//! free. `write_graph` answers the one text of a graph's records (`specs/Written`), and a law
//! (`laws`) says that reading it gives the graph. What is read need not be a graph that can be
//! rendered: ranges and connections are not judged here.
//!
//! It stands on `serde_json`'s reading and writing, on `thiserror`, and on the definitions of
//! `graph_model`.
#![tactic(auto)]

mod entry;
mod fault;
pub mod laws;
mod rows;
mod walk;
mod write;

pub use fault::{Part, Place, RecordFault};
pub use walk::read_graph;
pub use write::write_graph;
