//! Dictionaries of texts, with their files, codes and ranks.

ghost use Rattle.std.specs.Prelude.{IfOk};
ghost use Rattle.catalog_core.specs.Texts.{IsText};

use catalog_core::{DictError, Dictionary};
use std::alloc::{AllocError, Global};
use std::process::Abort;
use std::test::Fail;
use stream_core::{Bytes, List};

/// A text as `from_texts` takes it.
fn text(rt: &impl Abort, alloc: Global, text: &str) -> Result<Bytes, AllocError>
    ensures { IfOk result IsText }
{
    assert!(rt; text.len() <= 65_535, "{} bytes", text.len());
    Ok(List::from_vec(Vec::from_slice(alloc, text.as_bytes())?))
}

fn dictionary_of(
    rt: &impl Abort,
    alloc: Global,
    texts: [&str; 3],
) -> Result<Dictionary, AllocError> {
    let first = text(rt, alloc, texts[0])?;
    let second = text(rt, alloc, texts[1])?;
    let third = text(rt, alloc, texts[2])?;
    Dictionary::from_texts(alloc, List::from_vec(vec![in alloc; first, second, third]?))
}

/// The texts in the order of their codes.
fn expect_texts(rt: &impl Abort, dictionary: &Dictionary, expected: &[&str]) {
    assert_eq!(rt; dictionary.count(), expected.len() as u64, "{expected:?}");
    for code in 0..expected.len() {
        let bytes = expected[code].as_bytes();
        let code = code as u64;
        assert_eq!(rt;
            dictionary.text(code),
            Some(bytes),
            "text {code} of {expected:?}"
        );
        assert_eq!(rt; dictionary.code(bytes), Some(code), "{expected:?}");
        assert_eq!(rt; dictionary.rank_below(bytes), code, "{expected:?}");
        assert_eq!(rt; dictionary.rank_through(bytes), code + 1, "{expected:?}");
    }
    assert_eq!(rt;
        dictionary.text(expected.len() as u64),
        None,
        "{expected:?}"
    );
    assert_eq!(rt; dictionary.text(u64::MAX), None, "{expected:?}");
}

#[test]
fn texts_are_sorted_by_their_bytes_and_kept_once(rt: HostRuntime) -> Result<(), Fail> {
    for (texts, expected) in [
        (["C", "AB", "C"], ["AB", "C"].as_slice()),
        (["", "", ""], &[""]),
        (["b", "", "a"], &["", "a", "b"]),
        (["ab", "a", "abc"], &["a", "ab", "abc"]),
        (["é", "z", "日本"], &["z", "é", "日本"]),
        (["a\u{0}", "a", "a"], &["a", "a\u{0}"]),
    ] {
        let dictionary = dictionary_of(&rt, rt.alloc(), texts)?;
        expect_texts(&rt, &dictionary, expected);
    }
    Ok(())
}

#[test]
fn no_texts_have_a_dictionary(rt: HostRuntime) -> Result<(), Fail> {
    let alloc = rt.alloc();
    let dictionary = Dictionary::from_texts(alloc, List::from_vec(Vec::new(alloc)))?;
    expect_texts(&rt, &dictionary, &[]);
    assert_eq!(&rt; dictionary.code(b""), None);
    assert_eq!(&rt; dictionary.rank_through(b"a"), 0);
    assert_eq!(&rt;
        dictionary.encoded(),
        b"MDIC\x01\0\0\0\0\0\0\0\0\0\0\0".as_slice()
    );
    Ok(())
}

#[test]
fn a_text_that_is_absent_has_a_rank_and_no_code(rt: HostRuntime) -> Result<(), Fail> {
    let dictionary = dictionary_of(&rt, rt.alloc(), ["b", "d", "f"])?;
    for (text, rank) in [
        ("", 0),
        ("a", 0),
        ("ba", 1),
        ("c", 1),
        ("e", 2),
        ("g", 3),
        ("日", 3),
    ] {
        assert_eq!(&rt; dictionary.code(text.as_bytes()), None, "{text}");
        assert_eq!(&rt; dictionary.rank_below(text.as_bytes()), rank, "{text}");
        assert_eq!(&rt; dictionary.rank_through(text.as_bytes()), rank, "{text}");
    }
    Ok(())
}

/// A file is read, and is the file of what was read.
fn expect_read(
    rt: &impl Abort,
    alloc: Global,
    bytes: &[u8],
    texts: &[&str],
) -> Result<(), AllocError> {
    match Dictionary::read(alloc, List::from_vec(Vec::from_slice(alloc, bytes)?)) {
        Ok(dictionary) => {
            expect_texts(rt, &dictionary, texts);
            assert_eq!(rt; dictionary.encoded(), bytes, "{texts:?}");
        }
        Err(DictError::Memory) => return Err(AllocError),
        Err(error) => assert!(rt; false, "{error:?} of {texts:?}"),
    }
    Ok(())
}

#[test]
fn a_file_has_the_texts_that_were_worked_by_hand(rt: HostRuntime) -> Result<(), Fail> {
    for (bytes, texts) in [
        (
            b"MDIC\x01\0\0\0\x02\0\0\0\0\0\0\0\x02\0\0\0AB\x01\0\0\0C".as_slice(),
            ["AB", "C"].as_slice(),
        ),
        (b"MDIC\x01\0\0\0\0\0\0\0\0\0\0\0", &[]),
        (b"MDIC\x01\0\0\0\x01\0\0\0\0\0\0\0\0\0\0\0", &[""]),
    ] {
        expect_read(&rt, rt.alloc(), bytes, texts)?;
    }
    Ok(())
}

#[test]
fn made_of_texts_it_has_the_file_that_is_read(rt: HostRuntime) -> Result<(), Fail> {
    let made = dictionary_of(&rt, rt.alloc(), ["C", "AB", "C"])?;
    assert_eq!(&rt;
        made.encoded(),
        b"MDIC\x01\0\0\0\x02\0\0\0\0\0\0\0\x02\0\0\0AB\x01\0\0\0C".as_slice()
    );
    expect_read(&rt, rt.alloc(), made.encoded(), &["AB", "C"])?;
    Ok(())
}
