//! Sums of columns and of products of columns, as a whole and by groups.
#![tactic(auto)]

mod blocks;
mod by_groups;
mod cells;
mod laws;
mod plain;
mod wholes;

pub use by_groups::{sum_by, sum_product_by};
pub use cells::{Sums, TooWide};
pub use laws::cells_are_sums;
pub use plain::{sum_plain, sum_product_plain};
pub use wholes::{sum_all, sum_product_all};
