//! Bytes that are no dictionary file, each with the first fault.

use catalog_core::{DictError, Dictionary};
use std::alloc::{AllocError, Global};
use std::process::Abort;
use std::test::Fail;
use stream_core::List;

const HEADER: Option<DictError> = Some(DictError::BadHeader);

const FIRST: Option<DictError> = Some(DictError::BadEntry { entry: 0 });

const SECOND: Option<DictError> = Some(DictError::BadEntry { entry: 1 });

const TRAILING: Option<DictError> = Some(DictError::Trailing);

/// Why the bytes are refused, if they are.
fn fault_of(alloc: Global, bytes: Vec<u8>) -> Result<Option<DictError>, AllocError> {
    match Dictionary::read(alloc, List::from_vec(bytes)) {
        Ok(_) => Ok(None),
        Err(DictError::Memory) => Err(AllocError),
        Err(error) => Ok(Some(error)),
    }
}

#[test]
fn a_head_is_16_bytes_of_one_form(rt: HostRuntime) -> Result<(), Fail> {
    for (bytes, expected) in [
        (b"".as_slice(), HEADER),
        (b"MDIC\x01\0\0\0\0\0\0\0\0\0\0", HEADER),
        (b"MDIX\x01\0\0\0\0\0\0\0\0\0\0\0", HEADER),
        (b"MCOL\x01\0\0\0\0\0\0\0\0\0\0\0", HEADER),
        (b"MDIC\x02\0\0\0\0\0\0\0\0\0\0\0", HEADER),
        (b"MDIC\x01\x01\0\0\0\0\0\0\0\0\0\0", HEADER),
        (b"MDIC\x01\0\0\x01\0\0\0\0\0\0\0\0", HEADER),
        // 268,435,457 texts, and 2^64 - 1
        (b"MDIC\x01\0\0\0\x01\0\0\x10\0\0\0\0", HEADER),
        (b"MDIC\x01\0\0\0\xff\xff\xff\xff\xff\xff\xff\xff", HEADER),
        // 268,435,456 texts are not too many, but none is there
        (b"MDIC\x01\0\0\0\0\0\0\x10\0\0\0\0", FIRST),
        (b"MDIC\x01\0\0\0\0\0\0\0\0\0\0\0", None),
        (b"MDIC\x01\0\0\0\0\0\0\0\0\0\0\0\0", TRAILING),
    ] {
        let fault = fault_of(rt.alloc(), Vec::from_slice(rt.alloc(), bytes)?)?;
        assert_eq!(&rt; fault, expected, "{bytes:?}");
    }
    Ok(())
}

/// The file that says it has so many texts, with these entries.
fn file_of(alloc: Global, count: u8, entries: &[u8]) -> Result<Vec<u8>, AllocError> {
    let mut bytes = Vec::from_slice(alloc, b"MDIC\x01\0\0\0")?;
    bytes.extend_from_slice(&[count, 0, 0, 0, 0, 0, 0, 0])?;
    bytes.extend_from_slice(entries)?;
    Ok(bytes)
}

#[test]
fn the_first_entry_that_is_none_is_named(rt: HostRuntime) -> Result<(), Fail> {
    for (count, entries, expected) in [
        // cut in the length, and in the text
        (1, b"\x01\0\0".as_slice(), FIRST),
        (1, b"\x02\0\0\0a", FIRST),
        (2, b"\x01\0\0\0a", SECOND),
        (2, b"\x01\0\0\0a\x01\0\0\0", SECOND),
        // a length that lies
        (1, b"\xff\xff\xff\xffa", FIRST),
        (1, b"\0\0\x01\0a", FIRST),
        // no UTF-8, and a text that is cut within a character
        (1, b"\x01\0\0\0\xff", FIRST),
        (2, b"\x01\0\0\0a\x02\0\0\0\xe6\x97", SECOND),
        // equal texts, and one that is less
        (2, b"\0\0\0\0\0\0\0\0", SECOND),
        (2, b"\x01\0\0\0a\x01\0\0\0a", SECOND),
        (2, b"\x01\0\0\0b\x01\0\0\0a", SECOND),
        (2, b"\x02\0\0\0ab\x01\0\0\0a", SECOND),
        // the fault of an entry comes before what follows the last one
        (1, b"\x01\0\0\0\xff\x01\0\0\0b", FIRST),
        (1, b"\x01\0\0\0a\x01\0\0\0b", TRAILING),
        (2, b"\x01\0\0\0a\x01\0\0\0b", None),
        (2, b"\0\0\0\0\x01\0\0\0b", None),
    ] {
        let fault = fault_of(rt.alloc(), file_of(rt.alloc(), count, entries)?)?;
        assert_eq!(&rt; fault, expected, "{count} of {entries:?}");
    }
    Ok(())
}

#[test]
fn a_text_has_at_most_65535_bytes(rt: HostRuntime) -> Result<(), Fail> {
    for (length, expected) in [(65_535u32, None), (65_536, FIRST)] {
        let mut bytes = file_of(rt.alloc(), 1, &length.to_le_bytes())?;
        bytes.extend_from_slice(vec![in rt.alloc(); b'z'; length as usize]?.as_slice())?;
        let fault = fault_of(rt.alloc(), bytes)?;
        assert_eq!(&rt; fault, expected, "{length} bytes");
    }
    Ok(())
}
