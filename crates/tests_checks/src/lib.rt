//! The command `check` over whole databases in memory, good and damaged.
//!
//! The contract of the top call says what it answers. The tests here say that the definitions mean what was meant, with lines worked by
//! hand, and that the command succeeds where memory is ample.
#![tactic(auto)]

#[cfg(test)]
mod checks;
#[cfg(test)]
mod databases;
