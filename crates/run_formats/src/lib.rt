//! The format `runs`: values and how often each stands in a row.
#![tactic(auto)]

mod cells;
mod pairs;
mod reading;
mod run_blocks;
mod writing;

pub use pairs::RunIter;
pub use reading::pick;
pub use run_blocks::Runs;
