//! Queries as one line: items, tables, conditions, groups and order keys between bars, each name and literal with its place.

use query_text::{Literal, Query, QueryCondition, QueryItem, QueryKey, SumShape, Test, Word};
use std::alloc::{AllocError, Global};

fn put(out: &mut Vec<u8>, text: &str) -> Result<(), AllocError> {
    out.extend_from_slice(text.as_bytes())?;
    Ok(())
}

fn put_number(alloc: Global, out: &mut Vec<u8>, number: u64) -> Result<(), AllocError> {
    let digits = format!(in alloc; "{number}")?;
    put(out, digits.as_str())
}

fn put_word(alloc: Global, out: &mut Vec<u8>, word: &Word) -> Result<(), AllocError> {
    out.extend_from_slice(word.text.as_slice())?;
    put(out, "@")?;
    put_number(alloc, out, word.at)
}

fn put_words(alloc: Global, out: &mut Vec<u8>, words: &[Word]) -> Result<(), AllocError> {
    for (number, word) in words.iter().enumerate() {
        if number > 0 {
            put(out, ",")?;
        }
        put_word(alloc, out, word)?;
    }
    Ok(())
}

fn put_item(alloc: Global, out: &mut Vec<u8>, item: &QueryItem) -> Result<(), AllocError> {
    match item {
        QueryItem::Column(word) => put_word(alloc, out, word),
        QueryItem::Sum {
            shape,
            first,
            second,
            alias,
        } => {
            put(out, "sum(")?;
            put_word(alloc, out, first)?;
            match shape {
                SumShape::Plain => {}
                SumShape::Product => put(out, "*")?,
                SumShape::Difference => put(out, "-")?,
            }
            if let Some(word) = second {
                put_word(alloc, out, word)?;
            }
            put(out, ")")?;
            if let Some(word) = alias {
                put(out, "as ")?;
                put_word(alloc, out, word)?;
            }
            Ok(())
        }
    }
}

/// A literal: a number, or the bytes of a text as numbers with dots between them, in quotes.
fn put_literal(
    alloc: Global,
    out: &mut Vec<u8>,
    literal: &Literal,
    places: &[u64],
    number: usize,
) -> Result<(), AllocError> {
    if number > 0 {
        put(out, "&")?;
    }
    match literal {
        Literal::Number(value) => put_number(alloc, out, *value)?,
        Literal::Text(bytes) => {
            put(out, "'")?;
            for (place, byte) in bytes.as_slice().iter().enumerate() {
                if place > 0 {
                    put(out, ".")?;
                }
                put_number(alloc, out, u64::from(*byte))?;
            }
            put(out, "'")?;
        }
    }
    if let Some(at) = places.get(number) {
        put(out, "@")?;
        put_number(alloc, out, *at)?;
    }
    Ok(())
}

/// Appends a test with the places of its literals.
pub fn put_test(
    alloc: Global,
    out: &mut Vec<u8>,
    test: &Test,
    places: &[u64],
) -> Result<(), AllocError> {
    let (sign, value) = match test {
        Test::Equal(value) => (" = ", value),
        Test::Below(value) => (" < ", value),
        Test::AtMost(value) => (" <= ", value),
        Test::Above(value) => (" > ", value),
        Test::AtLeast(value) => (" >= ", value),
        Test::Between(low, high) => {
            put(out, " between ")?;
            put_literal(alloc, out, low, places, 0)?;
            return put_literal(alloc, out, high, places, 1);
        }
        Test::OneOf(values) => {
            put(out, " in ")?;
            for (number, value) in values.as_slice().iter().enumerate() {
                put_literal(alloc, out, value, places, number)?;
            }
            return Ok(());
        }
    };
    put(out, sign)?;
    put_literal(alloc, out, value, places, 0)
}

fn put_condition(
    alloc: Global,
    out: &mut Vec<u8>,
    condition: &QueryCondition,
) -> Result<(), AllocError> {
    match condition {
        QueryCondition::Join { left, right } => {
            put_word(alloc, out, left)?;
            put(out, "=")?;
            put_word(alloc, out, right)
        }
        QueryCondition::Compare {
            column,
            test,
            places,
        } => {
            put_word(alloc, out, column)?;
            put_test(alloc, out, test, places.as_slice())
        }
    }
}

fn put_key(alloc: Global, out: &mut Vec<u8>, key: &QueryKey) -> Result<(), AllocError> {
    put_word(alloc, out, &key.word)?;
    if key.falling {
        put(out, " desc")?;
    }
    Ok(())
}

/// Appends the query's line, without a line feed.
pub fn put_query(alloc: Global, out: &mut Vec<u8>, query: &Query) -> Result<(), AllocError> {
    for (number, item) in query.items.as_slice().iter().enumerate() {
        if number > 0 {
            put(out, ",")?;
        }
        put_item(alloc, out, item)?;
    }
    put(out, "|")?;
    put_words(alloc, out, query.tables.as_slice())?;
    put(out, "|")?;
    for (number, condition) in query.conditions.as_slice().iter().enumerate() {
        if number > 0 {
            put(out, ",")?;
        }
        put_condition(alloc, out, condition)?;
    }
    put(out, "|")?;
    put_words(alloc, out, query.groups.as_slice())?;
    put(out, "|")?;
    for (number, key) in query.order.as_slice().iter().enumerate() {
        if number > 0 {
            put(out, ",")?;
        }
        put_key(alloc, out, key)?;
    }
    Ok(())
}
