//! Sizes of the files of lists, in all formats and in one, and morphs between the formats.
//!
//! The contracts of `size_chooser` say which numbers are the sizes. The tests here say that those definitions mean what was
//! meant, with sizes worked by hand, and that the calls succeed.
#![tactic(auto)]

#[cfg(test)]
mod files;
#[cfg(test)]
mod generic;
#[cfg(test)]
mod morphs;
#[cfg(test)]
mod pieces;
#[cfg(test)]
mod rows;
