//! Files that are cut, and files with a byte too many, in both versions.

use crate::expected::expect_fault;
use crate::files::{column_of, fault_of, first_file_of};
use block_core::Format;
use column_core::Column;
use column_file::ColumnError;
use shapes::Shape;
use std::alloc::Global;
use std::process::Abort;
use std::test::Fail;

// Where the parts of a file of two blocks end: the first entry of its directory, if it has one, and the blocks.
#[derive(Clone, Copy)]
struct Borders {
    entry: usize,
    first: usize,
    second: usize,
}

impl Borders {
    // Those of a file whose blocks have these lengths.
    fn of(has_directory: bool, first: u16, second: u16) -> Borders {
        let (entry, front) = if has_directory { (24, 32) } else { (16, 16) };
        Borders {
            entry,
            first: front + first as usize,
            second: front + first as usize + second as usize,
        }
    }

    // The fault of so many bytes, fewer than the file has. Without the second entry there is no first block.
    fn fault(self, len: usize) -> ColumnError {
        if len < 16 {
            ColumnError::BadHeader
        } else if len < self.entry {
            ColumnError::BadDirectory { block: 0 }
        } else if len < self.first {
            ColumnError::BadBlock { block: 0 }
        } else if len < self.second {
            ColumnError::BadBlock { block: 1 }
        } else {
            ColumnError::BadTail
        }
    }

    // Whether a file is cut there: a short one at each byte, and a long one near the ends of its parts and now and then between.
    fn is_tried(self, len: usize) -> bool {
        self.second < 1000
            || len < 43
            || len % 97 == 0
            || len.abs_diff(self.first) < 12
            || len.abs_diff(self.second) < 12
    }
}

// A file that is cut is refused for the part that is cut.
fn expect_cut(
    rt: &impl Abort,
    alloc: Global,
    bytes: &[u8],
    borders: Borders,
    format: Format,
) -> Result<(), ColumnError> {
    for len in 0..bytes.len() {
        if borders.is_tried(len) {
            let fault = fault_of(alloc, &bytes[..len])?;
            assert!(rt;
                fault == Some(borders.fault(len)),
                "{format:?}, {fault:?} when cut at {len}"
            );
        }
    }
    expect_fault(rt, alloc, bytes, None)
}

// The file of version 1, and the file. Eleven values of width 3 have 5 bytes, and as words 88.
fn expect_both_cut(
    rt: &impl Abort,
    alloc: Global,
    format: Format,
    first: u16,
    second: u16,
) -> Result<(), ColumnError> {
    let column = column_of(alloc, Shape::CYCLING, 2059, format)?;
    let old = first_file_of(alloc, &column)?;
    let borders = Borders::of(false, first, second);
    let tail = old.as_slice().get(borders.second..).unwrap_or(b"");
    assert!(rt; tail.len() == 88, "{format:?}, version 1");
    expect_cut(rt, alloc, old.as_slice(), borders, format)?;
    let borders = Borders::of(format.tag() >= 2, first, second);
    let tail_len = if format == Format::Plain { 88 } else { 5 };
    let tail = column.encoded().get(borders.second..).unwrap_or(b"");
    assert!(rt; tail.len() == tail_len, "{format:?}");
    expect_cut(rt, alloc, column.encoded(), borders, format)
}

// The blocks have the lengths that `encodings` tells of.
#[test]
fn a_file_that_is_cut_is_refused_for_the_part_that_is_cut(rt: HostRuntime) -> Result<(), Fail> {
    for (format, first, second) in [
        (Format::Plain, 8192, 8192),
        (Format::Static, 384, 384),
        (Format::Dynamic, 385, 385),
        (Format::Runs, 10_242, 10_242),
        (Format::Delta1Dynamic, 8201, 8201),
        (Format::Delta16Dynamic, 8201, 8201),
        (Format::ReferenceDynamic, 393, 393),
        (Format::Delta1Runs, 4110, 4120),
    ] {
        expect_both_cut(&rt, rt.alloc(), format, first, second)?;
    }
    Ok(())
}

// The file with a byte behind it.
fn expect_bytes_more(rt: &impl Abort, alloc: Global, file: &[u8]) -> Result<(), ColumnError> {
    for byte in [0, 1, 0xff] {
        let mut bytes = Vec::from_slice(alloc, file)?;
        bytes.extend_from_slice(&[byte])?;
        expect_fault(rt, alloc, bytes.as_slice(), Some(ColumnError::BadTail))?;
    }
    Ok(())
}

// So has each of the column's files.
fn expect_both_longer(rt: &impl Abort, alloc: Global, column: &Column) -> Result<(), ColumnError> {
    let old = first_file_of(alloc, column)?;
    expect_bytes_more(rt, alloc, old.as_slice())?;
    expect_bytes_more(rt, alloc, column.encoded())
}

#[test]
fn a_file_with_a_byte_more_is_refused_for_its_tail(rt: HostRuntime) -> Result<(), Fail> {
    for count in [0, 1, 5, 1024, 2049u16] {
        for format in Format::ALL {
            let column = column_of(rt.alloc(), Shape::CYCLING, count, format)?;
            expect_both_longer(&rt, rt.alloc(), &column)?;
        }
    }
    Ok(())
}
