//! Worked commands and bad input over the whole engine, with the files, the input and the output in memory.
//!
//! The contract of the top call says what each of these answers. The tests here say that the definitions mean what was
//! meant, with answers worked by hand, and that commands succeed where memory is ample.
#![tactic(auto)]

#[cfg(test)]
mod databases;
#[cfg(test)]
mod faults;
#[cfg(test)]
mod files;
#[cfg(test)]
mod queries;
#[cfg(test)]
mod refusals;
#[cfg(test)]
mod schemas;
#[cfg(test)]
mod worlds;
