//! The top call: a command's words, the files, the input and the output in, an exit status out.
//!
//! A command is a chain of steps, each a function that goes on with a value or stops. One function alone writes, so no part
//! of an answer is written before all of it is made.
#![tactic(auto)]

mod decoding;
mod laws;
mod loading;
mod replies;
mod running;
mod sums;
mod text;

pub use laws::one_reply;
pub use running::run;
