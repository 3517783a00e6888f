//! Text columns as they grow: each text gets a number at once, and once the column is whole its dictionary and its codes are made.
#![tactic(auto)]

mod coding;
mod encoder;

pub use coding::CodedTexts;
pub use encoder::DictionaryEncoder;

#[cfg(test)]
mod tests;
