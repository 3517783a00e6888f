//! What every format and operator shares: the block, the formats' names, the step counter, and the traits of sources,
//! emitters, packings and transforms, with their laws.
//!
//! A column is cut into blocks of 1,024 values. Code above is generic over the traits here and proved once: a source stands
//! for a list, an emitter for the list that was pushed, a packing for a relation between full blocks and bytes, and a
//! transform for one between blocks and their differences.
#![tactic(auto)]

mod blocks;
mod counts;
mod emitters;
mod facts;
mod formats;
mod packings;
mod sources;

pub use blocks::{BLOCK_LEN, Block, MAX_ROWS, ROWS, STRANDS};
pub use counts::{Own, Steps};
pub use emitters::Emit;
pub use facts::{bytes_fit, words_fit};
pub use formats::{Format, FormatChoice};
pub use packings::{BlockRef, Packing, Transform};
pub use sources::{BlockSource, PlaceSource};
