//! Groups of a column, and of a column within earlier groups.
//!
//! Groups are numbered from 0 in the order in which they occur first.
#![tactic(auto)]

mod groups;
mod plain;
mod rows;
mod tables;

pub use groups::{group_fly, refine_fly};
pub use plain::{group, refine};
pub use tables::{GroupNumber, GroupTable};
