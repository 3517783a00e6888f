//! What the commands over the tables of a database answer, before anything is written, and what they save.
//!
//! A command is a chain of steps, each a function that goes on with a value or stops.
#![tactic(auto)]

mod checking;
mod databases;
mod encoding;
mod exporting;
mod files;
mod importing;
mod laws;
mod reformatting;
mod saving;
mod stops;

pub use checking::check_answer;
pub use databases::schema_of;
pub use exporting::export_answer;
pub use files::{bytes_of, column_what, refused};
pub use importing::ready_import;
pub use laws::refusals_are_said;
pub use reformatting::ready_reformat;
pub use saving::{Ready, save_ready};
pub use stops::{Line, Refusal, Stop, What};
