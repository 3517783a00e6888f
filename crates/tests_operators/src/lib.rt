//! The operators, each over every format and beside its plain form, and worked rows of them.
//!
//! The contracts of the operators say which list each gives. The tests here say that those definitions mean what was meant, by
//! rows worked by hand, and that the calls succeed in every format and at every lane width.
#![tactic(auto)]

#[cfg(test)]
mod chains;
#[cfg(test)]
mod checks;
#[cfg(test)]
mod columns;
#[cfg(test)]
mod groups;
#[cfg(test)]
mod joins;
#[cfg(test)]
mod kept;
#[cfg(test)]
mod refusals;
#[cfg(test)]
mod refused_groups;
#[cfg(test)]
mod scans;
#[cfg(test)]
mod sets;
#[cfg(test)]
mod sums;
#[cfg(test)]
mod worked_groups;
#[cfg(test)]
mod worked_joins;
#[cfg(test)]
mod worked_scans;
#[cfg(test)]
mod worked_sums;
