//! What lies outside of the host: files by name, and what is printed.
//!
//! The layers above reach files through the trait `Folder` and print through the trait `Sink`. The
//! clauses of these traits say what each call gives and changes, and that a call fails only where
//! its count of faults rose or, in a folder, at a miss.
//!
//! - `MemoryFolder` and `MemorySink` tell what they hold. Which of their calls fail is chosen when
//!   they are made, and their clauses say exactly when each call fails and what it leaves.
//! - `DiskFolder` and `WriterSink` reach the system and tell nothing. They are the trusted edge:
//!   that a file holds what was written to it is tested, and not proved.
//!
//! The crate stands on `List` of `graph_model` and on std.
#![tactic(auto)]

mod counts;
mod disk;
mod folder;
mod kept;
mod memory;
mod memory_sink;
mod sink;
mod stored;
mod tries;

pub use disk::DiskFolder;
pub use folder::{Failed, Folder};
pub use memory::MemoryFolder;
pub use memory_sink::MemorySink;
pub use sink::{Sink, WriterSink};
