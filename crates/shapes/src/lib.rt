//! Lists that tests and benchmarks share, named by their shapes, and a source of random numbers.
//!
//! The C++ programs of `bench/` make the random lists by the same rule, so that both sides of a benchmark go over the same values.
#![tactic(auto)]

mod draws;
mod lists;

pub use draws::{Random, next_state};
pub use lists::Shape;
