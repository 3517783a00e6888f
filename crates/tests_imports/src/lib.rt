//! The commands `import`, `export`, `reformat` and `help` over databases in memory.
//!
//! The contract of the top call says what they answer. The tests here say that the definitions mean what was meant, with texts worked by
//! hand, and that the commands succeed where memory is ample.
#![tactic(auto)]

#[cfg(test)]
mod faults;
#[cfg(test)]
mod folders;
#[cfg(test)]
mod imports;
#[cfg(test)]
mod inputs;
#[cfg(test)]
mod loads;
#[cfg(test)]
mod notes;
#[cfg(test)]
mod outputs;
#[cfg(test)]
mod reformats;
#[cfg(test)]
mod refusals;
#[cfg(test)]
mod saves;
#[cfg(test)]
mod wants;
