//! Which fault bytes are to have, and that they have it.

use crate::files::{directory_of, fault_of, file_of, first_head, head};
use block_core::Format;
use column_file::ColumnError;
use std::alloc::Global;
use std::process::Abort;

/// Why bytes are to be refused, if they are.
pub type Fault = Option<ColumnError>;

/// The first entry of the directory is wrong.
pub const ENTRY: Fault = Some(ColumnError::BadDirectory { block: 0 });

/// From this block on there is none.
pub const FIRST: Fault = Some(ColumnError::BadBlock { block: 0 });

pub const SECOND: Fault = Some(ColumnError::BadBlock { block: 1 });

pub const THIRD: Fault = Some(ColumnError::BadBlock { block: 2 });

pub const HEADER: Fault = Some(ColumnError::BadHeader);

pub const WIDTH: Fault = Some(ColumnError::BadWidth);

pub const TAIL: Fault = Some(ColumnError::BadTail);

/// The fault in `plain`, in `static` and in each other format, where a directory stands.
pub type ByFormat = (Fault, Fault, Fault);

pub fn fault_in(format: Format, faults: ByFormat) -> Fault {
    match format {
        Format::Plain => faults.0,
        Format::Static => faults.1,
        _ => faults.2,
    }
}

/// The bytes have this first fault, or none.
pub fn expect_fault(
    rt: &impl Abort,
    alloc: Global,
    bytes: &[u8],
    expected: Fault,
) -> Result<(), ColumnError> {
    let fault = fault_of(alloc, bytes)?;
    let head = bytes.get(..40).unwrap_or(bytes);
    assert_eq!(rt;
        fault,
        expected,
        "{} bytes that begin with {head:?}",
        bytes.len()
    );
    Ok(())
}

/// So has the file of this head and these parts.
pub fn expect_file_fault(
    rt: &impl Abort,
    alloc: Global,
    head: [u8; 16],
    first: &[u8],
    second: &[u8],
    expected: Fault,
) -> Result<(), ColumnError> {
    let bytes = file_of(alloc, head, first, second, b"")?;
    expect_fault(rt, alloc, bytes.as_slice(), expected)
}

/// What a head says in both versions.
#[derive(Clone, Copy, Debug)]
pub struct Said {
    pub tag: u8,
    pub width: u8,
    pub count: u64,
}

/// So have the files of both versions, of a good block, which may be left out, and the two parts of what follows it. Their
/// directory is right, and no byte tells of a tail.
pub fn expect_in_both(
    rt: &impl Abort,
    alloc: Global,
    said: Said,
    good: &[u8],
    parts: (&[u8], &[u8]),
    expected: Fault,
) -> Result<(), ColumnError> {
    let old = first_head(said.tag, said.width, said.count);
    let bytes = file_of(alloc, old, good, parts.0, parts.1)?;
    expect_fault(rt, alloc, bytes.as_slice(), expected)?;
    let tail_width = if said.tag == 0 { 64 } else { 0 };
    let mut front = directory_of(alloc, said.tag, said.count, good.len())?;
    front.extend_from_slice(good)?;
    let new = head(said.tag, said.width, tail_width, said.count);
    let bytes = file_of(alloc, new, front.as_slice(), parts.0, parts.1)?;
    expect_fault(rt, alloc, bytes.as_slice(), expected)
}
