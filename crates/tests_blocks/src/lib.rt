//! Blocks in memory: the lanes and packings that formats are made of, and single blocks in every format.
//!
//! Contracts say what the calls compute and which bytes are a block. The tests here say that those definitions mean what was
//! meant, with sizes and bytes worked by hand, and that the calls succeed at each lane width once they are built.
#![tactic(auto)]

#[cfg(test)]
mod blocks;
#[cfg(test)]
mod encodings;
#[cfg(test)]
mod faults;
#[cfg(test)]
mod lanes;
#[cfg(test)]
mod packing;
#[cfg(test)]
mod references;
#[cfg(test)]
mod round_trips;
#[cfg(test)]
mod runs;
#[cfg(test)]
mod tails;
#[cfg(test)]
mod transforms;
#[cfg(test)]
mod worked_blocks;
