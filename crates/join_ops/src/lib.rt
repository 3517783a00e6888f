//! Semi-joins and joins, and the tables of keys that they look up.
#![tactic(auto)]

mod chain_tables;
mod chained_keys;
mod dense_sets;
mod direct_tables;
mod distinct_joins;
mod fits;
mod joins;
mod key_maps;
mod key_sets;
mod plain;
mod ranges;

pub use fits::join_fits;
pub use joins::join_fly;
pub use key_maps::KeyMap;
pub use key_sets::{KeySet, semi_join_fly};
pub use plain::{join, semi_join};
