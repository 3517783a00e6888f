//! The command `explain` over schemas in memory.
//!
//! The contract of the top call says what it answers. The tests here say that the definitions mean what was meant, and that the command
//! succeeds where memory is ample. Expected lines come from a second implementation.
#![tactic(auto)]

#[cfg(test)]
mod explains;
#[cfg(test)]
mod faults;
#[cfg(test)]
mod folders;
#[cfg(test)]
mod orders;
#[cfg(test)]
mod plans;
#[cfg(test)]
mod refusals;
#[cfg(test)]
mod stars;
#[cfg(test)]
mod wants;
