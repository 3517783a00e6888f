//! Texts of queries over a schema, and the lines of their plans.
//!
//! The contracts of `plan_of` and `explain` say which lines these are. The tests here say that the definitions mean what was meant, and
//! that plans are made where memory is ample. Expected lines come from a second implementation.
#![tactic(auto)]

#[cfg(test)]
mod plans;
#[cfg(test)]
mod strategies;
#[cfg(test)]
mod strategy_cases;
#[cfg(test)]
mod tables;
#[cfg(test)]
mod texts;
