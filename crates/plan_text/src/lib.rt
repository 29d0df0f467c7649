//! The text of a plan, printed and read.
//!
//! A plan has one text: lines of a word and numbers, in a fixed order of their kinds (`specs/Lines`, `specs/Texts`).
//! [`print`] gives it. [`read`] gives the plan that bytes are the text of, or the number of their first bad line: of
//! the first one that cannot stand there after the lines before it (`specs/Order`).
//!
//! It promises just that, for every plan and for all bytes, and want of memory alone is free. By its laws (`laws`) a
//! text has one plan, a first bad line is one number, and the text of a plan has none. So reading what was printed
//! gives the plan. What is read need not be a plan for any graph: its numbers fit their types, and no more.
//!
//! It stands on the plans of `plan_model`, on the lists and refusals of `graph_model`, and on `thiserror`.
#![tactic(auto)]

mod fault;
pub mod laws;
mod line;
mod number;
mod printing;
mod reading;
mod rows;
mod word;

pub use fault::PlanFault;
pub use printing::print;
pub use reading::read;
