//! Bit packing of full blocks, in 16 strands.
//!
//! Value `i` of a block stands in strand `i mod 16`, row `i div 16`: neighbouring values stand in different strands, so
//! that vectors of 1, 2, 4, 8 or 16 lanes take neighbouring words and shift them alike. The layout is that of the vertical
//! packing of Lemire and Boytsov, with 16 columns of 64-bit words.
#![tactic(auto)]

mod packing;
mod picking;
mod unpacking;
mod widths;
mod words;

pub use packing::pack;
pub use picking::pick;
pub use unpacking::unpack;
pub use widths::{MAX_WIDTH, is_least_width, packed_len, width_of, width_of_values};
pub use words::{put_word, word_at};
