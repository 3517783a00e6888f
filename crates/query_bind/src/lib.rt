//! Queries bound to a schema: what each name of a query stands for, or the first refusal.
#![tactic(auto)]

mod alias_map;
mod binding;
mod bounds;
mod column_index;
mod conditions;
mod errors;
mod mentions;
mod name_maps;
mod needs;
mod selection;
mod tables;

pub use binding::bind;
pub use bounds::{Bound, Condition, Item, JoinTo, OrderKey, SumOf};
pub use errors::BindError;
pub use needs::needs_of;
