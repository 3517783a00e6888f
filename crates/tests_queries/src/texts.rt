//! Tables of texts with their outcomes.

use crate::outcomes::{copies_in, items_in, of_queries, of_query};
use crate::tables::{LONG, OTHERS, QUERIES, REFUSED, REPLACED, SEVERAL};
use std::alloc::{AllocError, Global};
use std::process::Abort;
use std::test::Fail;

fn expect(
    rt: &impl Abort,
    alloc: Global,
    text: &[u8],
    expected: &str,
    briefly: bool,
) -> Result<(), AllocError> {
    let found = of_query(alloc, text, briefly)?;
    let equal = found.as_slice() == expected.as_bytes();
    assert!(rt;
        equal,
        "{text:?} is answered by {found:?}, and not {expected}"
    );
    Ok(())
}

#[test]
fn queries_are_read_with_their_places(rt: HostRuntime) -> Result<(), Fail> {
    for (text, expected) in QUERIES {
        expect(&rt, rt.alloc(), text, expected, false)?;
    }
    Ok(())
}

#[test]
fn other_texts_are_refused_at_the_least_place(rt: HostRuntime) -> Result<(), Fail> {
    for (text, expected) in REFUSED {
        expect(&rt, rt.alloc(), text, expected, true)?;
    }
    Ok(())
}

#[test]
fn several_queries_are_read_or_refused_as_one_text(rt: HostRuntime) -> Result<(), Fail> {
    for (text, expected) in SEVERAL {
        let found = of_queries(rt.alloc(), text)?;
        let equal = found.as_slice() == expected.as_bytes();
        assert!(&rt;
            equal,
            "{text:?} is answered by {found:?}, and not {expected}"
        );
    }
    Ok(())
}

#[test]
fn each_front_of_a_long_query_has_its_outcome(rt: HostRuntime) -> Result<(), Fail> {
    for (text, outcomes) in LONG {
        let mut expected = outcomes.split_whitespace();
        for len in 0..text.len() + 1 {
            let front = text.get(..len).unwrap_or(text);
            expect(&rt, rt.alloc(), front, expected.next().unwrap_or(""), true)?;
        }
        let further = expected.next().unwrap_or("");
        let ended = further.is_empty();
        assert!(&rt; ended, "no front of {text:?} has the outcome {further}");
    }
    Ok(())
}

/// The tokens with spaces between them, the one of this number replaced.
fn with_other(
    alloc: Global,
    pieces: &[&str],
    number: usize,
    other: &str,
) -> Result<Vec<u8>, AllocError> {
    let mut text = Vec::new(alloc);
    for (index, piece) in pieces.iter().enumerate() {
        if index > 0 {
            text.extend_from_slice(b" ")?;
        }
        let chosen = if index == number { other } else { *piece };
        text.extend_from_slice(chosen.as_bytes())?;
    }
    Ok(text)
}

#[test]
fn a_token_of_another_kind_is_refused_unless_it_fits(rt: HostRuntime) -> Result<(), Fail> {
    for (pieces, outcomes) in REPLACED {
        let mut expected = outcomes.split_whitespace();
        for number in 0..pieces.len() {
            for other in OTHERS {
                let text = with_other(rt.alloc(), pieces, number, other)?;
                expect(
                    &rt,
                    rt.alloc(),
                    text.as_slice(),
                    expected.next().unwrap_or(""),
                    true,
                )?;
            }
        }
        let further = expected.next().unwrap_or("");
        let ended = further.is_empty();
        assert!(&rt; ended, "no text of {pieces:?} has the outcome {further}");
    }
    Ok(())
}

/// A query of 65,536 bytes with 32,761 columns, if the last byte ends it.
fn longest(alloc: Global, last: u8) -> Result<Vec<u8>, AllocError> {
    let mut text = Vec::with_capacity(alloc, 65_536)?;
    text.extend_from_slice(b"select a")?;
    for _ in 0..32_760 {
        text.extend_from_slice(b",a")?;
    }
    text.extend_from_slice(b" from t")?;
    text.push(last)?;
    Ok(text)
}

#[test]
fn a_text_of_65536_bytes_is_read_whole(rt: HostRuntime) -> Result<(), Fail> {
    let text = longest(rt.alloc(), b';')?;
    let len = text.len();
    assert!(&rt; len == 65_536, "the text has {len} bytes");
    let items = items_in(rt.alloc(), text.as_slice())?;
    assert!(&rt; items == 32_761, "{items} items are read");
    Ok(())
}

#[test]
fn a_text_of_65536_bytes_is_refused_at_its_last_byte(rt: HostRuntime) -> Result<(), Fail> {
    for (last, expected) in [
        (b')', "S65535"),
        (b'!', "B65535"),
        (b'\'', "O65535"),
        (b',', "S65536"),
    ] {
        let text = longest(rt.alloc(), last)?;
        let found = of_query(rt.alloc(), text.as_slice(), true)?;
        let equal = found.as_slice() == expected.as_bytes();
        assert!(&rt;
            equal,
            "with {last} at its end it is answered by {found:?}, and not {expected}"
        );
    }
    Ok(())
}

#[test]
fn copies_of_tests_say_the_same(rt: HostRuntime) -> Result<(), Fail> {
    let text =
        b"select a from t where a = 1 and a < 2 and a <= 3 and a > 4 and a >= 'x''y' and a between 5 and 'z' and a in (6, '', 7)";
    let expected =
        " = 1@26 < 2@36 <= 3@47 > 4@57 >= '120.39.121'@68 between 5@89&'122'@95 in 6@109&''@112&7@116";
    let found = copies_in(rt.alloc(), text)?;
    let equal = found.as_slice() == expected.as_bytes();
    assert!(&rt; equal, "the copies are {found:?}, and not {expected}");
    Ok(())
}
