//! The sizes of a list's files in every format, without making one.
#![tactic(auto)]

mod format_sizes;
mod format_sums;
mod laws;
mod passes;
mod profiles;
mod reserving;
mod sums;
mod surveys;
mod tallies;

pub use format_sizes::FormatSize;
pub use laws::one_least;
pub use profiles::{Profile, profile_of};
pub use reserving::{reserved_builder, reserved_builder_of};
