//! Texts of queries over a schema: what they bind to, and where they are refused.
//!
//! The contract of `bind` says both. The tests here say that the definitions mean what was meant, and that texts bind where memory is
//! ample. Expected outcomes come from a second implementation of the language.
#![tactic(auto)]

#[cfg(test)]
mod outcomes;
#[cfg(test)]
mod tables;
#[cfg(test)]
mod texts;
