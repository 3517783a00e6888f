//! What the commands over queries answer, before anything is written.
//!
//! A command is a chain of steps, each a function that goes on with a value or stops.
#![tactic(auto)]

mod explaining;
mod laws;
mod texts;

pub use explaining::explain_answer;
pub use laws::query_refusals_are_said;
