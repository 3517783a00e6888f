//! Transforms of a block into a base and differences, and cascades: a transform's differences in another packing.
//!
//! Differences are often smaller than values, or all alike, so a packing encodes them shorter. A cascade of any transform
//! whose base is a number and any packing is a packing, which is proved once for all of them.
#![tactic(auto)]

mod cascades;
mod deltas;
mod differences;
mod laws;
mod references;

pub use cascades::Cascade;
pub use deltas::{Delta1, Delta16};
pub use laws::differences_have_one_block;
pub use references::Reference;
