//! Literals, and the tests that compare with them.

use crate::pieces::{put, put_between, put_number};
use query_text::{Literal, Test};
use std::alloc::{AllocError, Global};

/// Whether a byte of a text stands in a line as it is. No byte that parts entries does.
fn stands_as_it_is(byte: u8) -> bool {
    byte.is_ascii_alphanumeric() || byte == b' ' || byte == b'\''
}

/// A text in quotes.
fn put_text(alloc: Global, out: &mut Vec<u8>, bytes: &[u8]) -> Result<(), AllocError> {
    put(out, "'")?;
    for byte in bytes {
        if stands_as_it_is(*byte) {
            out.push(*byte)?;
        } else {
            let digits = format!(in alloc; "\\{byte:02x}")?;
            put(out, digits.as_str())?;
        }
    }
    put(out, "'")
}

fn put_literal(alloc: Global, out: &mut Vec<u8>, literal: &Literal) -> Result<(), AllocError> {
    match literal {
        Literal::Number(value) => put_number(alloc, out, *value),
        Literal::Text(bytes) => put_text(alloc, out, bytes.as_slice()),
    }
}

fn put_signed(
    alloc: Global,
    out: &mut Vec<u8>,
    sign: &str,
    literal: &Literal,
) -> Result<(), AllocError> {
    put(out, sign)?;
    put_literal(alloc, out, literal)
}

fn put_list(alloc: Global, out: &mut Vec<u8>, literals: &[Literal]) -> Result<(), AllocError> {
    put(out, " in ")?;
    for (number, literal) in literals.iter().enumerate() {
        put_between(out, number, "&")?;
        put_literal(alloc, out, literal)?;
    }
    Ok(())
}

/// The test's sign or word, and its literals with `&` between them.
pub fn put_test(alloc: Global, out: &mut Vec<u8>, test: &Test) -> Result<(), AllocError> {
    match test {
        Test::Equal(literal) => put_signed(alloc, out, " = ", literal),
        Test::Below(literal) => put_signed(alloc, out, " < ", literal),
        Test::AtMost(literal) => put_signed(alloc, out, " <= ", literal),
        Test::Above(literal) => put_signed(alloc, out, " > ", literal),
        Test::AtLeast(literal) => put_signed(alloc, out, " >= ", literal),
        Test::Between(low, high) => {
            put_signed(alloc, out, " between ", low)?;
            put_signed(alloc, out, "&", high)
        }
        Test::OneOf(literals) => put_list(alloc, out, literals.as_slice()),
    }
}
