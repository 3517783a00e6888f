//! Where morphq's bytes come from and go to: sources, sinks and stores, with forms of each in memory, and the small
//! texts and lists that their calls hand around.
//!
//! The three traits carry a count of failed calls and, where an implementor can tell them, their contents. Code above
//! is generic over them and proved once: for the forms in memory its contracts say which bytes were read, written and
//! kept, and for a folder or a terminal they still say that a failure was answered only where a call failed.
#![tactic(auto)]

mod lists;
mod memory;
mod names;
mod reading;
mod storing;
mod writing;

pub use lists::{Bytes, List};
pub use memory::{MemSink, MemSource, MemStore};
pub use names::{FileName, Name, is_keyword, is_name};
pub use reading::{ReadError, Source, read_all};
pub use storing::{LoadError, SaveError, Store};
pub use writing::{Sink, write_all};

/// A call that failed, for a cause that only the object's count of faults tells.
#[derive(Clone, Copy, Debug, PartialEq, Eq)]
pub struct Failed;
