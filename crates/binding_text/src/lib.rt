//! What a query's text is answered by, as one line of text: the binding, or why the text is refused and where.
//!
//! The tests and a program that is compared with a second reader print the same lines, so the form stands here once.
#![tactic(auto)]

mod bindings;
mod literals;
mod outcomes;
mod pieces;
mod refusals;

pub use outcomes::{put_needed, put_outcome, put_outcomes};
