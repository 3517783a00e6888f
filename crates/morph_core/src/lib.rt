//! The change of a column's format.
//!
//! A morph, in the words of the MorphStore paper, keeps a column's list and gives it another format.
#![tactic(auto)]

mod morphs;

pub use morphs::morph;
