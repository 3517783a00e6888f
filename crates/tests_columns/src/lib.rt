//! Columns in every format, through the calls that make, read and look them up.
//!
//! The contracts of `column_core` and `column_file` say which bytes are a column. The tests here say that those definitions
//! mean what was meant, with sizes and bytes worked by hand, and that the calls succeed at each lane width.
#![tactic(auto)]

#[cfg(test)]
mod builders;
#[cfg(test)]
mod counters;
#[cfg(test)]
mod directories;
#[cfg(test)]
mod emitters;
#[cfg(test)]
mod encodings;
#[cfg(test)]
mod expected;
#[cfg(test)]
mod faults;
#[cfg(test)]
mod files;
#[cfg(test)]
mod generic;
#[cfg(test)]
mod heads;
#[cfg(test)]
mod prefixes;
#[cfg(test)]
mod reading;
#[cfg(test)]
mod sources;
#[cfg(test)]
mod tails;
#[cfg(test)]
mod versions;
#[cfg(test)]
mod worked_files;
