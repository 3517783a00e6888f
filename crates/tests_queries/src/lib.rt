//! Texts of queries: what they are read as, and where they are refused.
//!
//! The contracts of `read_query` and `read_queries` say both. The tests here say that the definitions mean what was meant, and that
//! texts are read where memory is ample. Expected outcomes come from a second implementation of the language.
#![tactic(auto)]

#[cfg(test)]
mod outcomes;
#[cfg(test)]
mod printing;
#[cfg(test)]
mod tables;
#[cfg(test)]
mod texts;
