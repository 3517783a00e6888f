//! What plans mean: the law that the columns of a bound query's plan are the groups and sums of the query over the joined rows. There is
//! no code; the contracts of functions that do nothing are the law.
#![tactic(auto)]

mod laws;

pub use laws::{groups_are_distinct, plan_fits, plan_is_orderly, plan_means_query};
