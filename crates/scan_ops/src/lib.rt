//! Selections and projections over columns, and sets of positions.
//!
//! A position list is a rising list of rows, counted from 0. The plain forms here work on whole slices.
#![tactic(auto)]

mod batches;
mod laws;
mod place_tests;
mod projection;
mod selection;
mod set_streams;
mod sets;
mod unread;

pub use batches::Batch;
pub use laws::{one_position_list, sets_are_told_by_members};
pub use place_tests::{PlaceTest, emit_places};
pub use projection::{project, project_fly};
pub use selection::{select, select_fly};
pub use set_streams::{intersect_fly, union_fly};
pub use sets::{intersect, union_of};
