//! Columns of texts, their codes and their dictionaries.

ghost use Rattle.std.specs.Prelude.{◌≤◌, length, IfOk, OnOk};
ghost use Rattle.std.specs.List.{AllByRecursion};
ghost use Rattle.catalog_core.specs.Texts.{IsText, max_text};

use crate::{CodedTexts, DictionaryEncoder};
use catalog_core::Dictionary;
use std::alloc::{AllocError, Global};
use std::process::Abort;
use std::test::Fail;

/// Texts, the code of each, and their dictionary.
struct Case<'a> {
    texts: &'a [&'a str],
    codes: &'a [u64],
    dictionary: &'a [&'a str],
}

// Pushes a text that a dictionary can have.
fn push_lawful(column: &mut DictionaryEncoder, text: &str) -> Result<(), AllocError>
    requires short { length text.now ≤ max_text }
    requires lawful { AllByRecursion IsText column.old }
    ensures { OnOk result (AllByRecursion IsText column.new) }
{
    column.push(text.as_bytes())?;
    Ok(())
}

// The column of texts.
fn column_of(alloc: Global, texts: &[&str]) -> Result<DictionaryEncoder, Fail>
    ensures { IfOk result (AllByRecursion IsText) }
{
    let mut column = DictionaryEncoder::new(alloc);
    for text in texts {
        if text.len() > 65_535 {
            return Err("a text is too long".into());
        }
        push_lawful(&mut column, *text)?;
    }
    Ok(column)
}

fn coded(alloc: Global, texts: &[&str]) -> Result<CodedTexts, Fail> {
    let column = column_of(alloc, texts)?;
    if column.count() > 268_435_456 {
        return Err("there are too many texts".into());
    }
    Ok(column.finish()?)
}

fn expect(rt: &impl Abort, alloc: Global, case: &Case) -> Result<(), Fail> {
    let found = coded(alloc, case.texts)?;
    assert_eq!(rt; found.codes.as_slice(), case.codes, "codes");
    assert_eq!(rt;
        found.dictionary.count(),
        case.dictionary.len() as u64,
        "distinct texts"
    );
    for (code, text) in case.dictionary.iter().enumerate() {
        let there = found.dictionary.text(code as u64).ok_or("no text")?;
        assert_eq!(rt; there, text.as_bytes());
    }
    Ok(())
}

const CASES: [Case<'static>; 5] = [
    Case {
        texts: &[],
        codes: &[],
        dictionary: &[],
    },
    Case {
        texts: &["Bern"],
        codes: &[0],
        dictionary: &["Bern"],
    },
    Case {
        texts: &["a", "a", "a"],
        codes: &[0, 0, 0],
        dictionary: &["a"],
    },
    Case {
        texts: &["c", "b", "a"],
        codes: &[2, 1, 0],
        dictionary: &["a", "b", "c"],
    },
    Case {
        texts: &["z", "é", "", "zz", "z"],
        codes: &[1, 3, 0, 2, 1],
        dictionary: &["", "z", "zz", "é"],
    },
];

#[test]
fn texts_become_codes_of_their_sorted_dictionary(rt: HostRuntime) -> Result<(), Fail> {
    for case in &CASES {
        expect(&rt, rt.alloc(), case)?;
    }
    Ok(())
}
