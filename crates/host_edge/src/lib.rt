//! morphq's outside as it is: readers, writers and the files of the current folder, as sources, sinks and stores.
//!
//! No contract can know what a folder or a terminal gives or takes. So each adapter tells no content to the code above it.
//! Its own clauses say that it hands on what the reader gave and what the writer took, and it counts each call that failed.
#![tactic(auto)]

mod sinks;
mod sources;
mod stores;

pub use sinks::StdSink;
pub use sources::StdSource;
pub use stores::FolderStore;
