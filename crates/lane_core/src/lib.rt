//! Vectors of 64-bit lanes.
//!
//! A lane is one element of a SIMD vector. Each call here is a rule on each lane, and the widths differ only in how many
//! lanes one machine instruction covers.
#![tactic(auto)]

mod vectors;

pub use vectors::Lanes;
