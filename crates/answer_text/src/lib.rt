//! The texts of answers.
#![tactic(auto)]

mod checks;
mod exports;
mod printed;
mod records;

pub use checks::check_text;
pub use exports::export_text;
