//! Refusals, as the cause in words, `@` and the place in the text.

use crate::pieces::{put, put_number};
use query_bind::BindError;
use query_text::TextError;
use std::alloc::{AllocError, Global};

fn put_refusal(alloc: Global, out: &mut Vec<u8>, cause: &str, at: u64) -> Result<(), AllocError> {
    put(out, cause)?;
    put(out, "@")?;
    put_number(alloc, out, at)
}

/// Appends why a text is no query, as `syntax@26`: one of `bad byte`, `number too large`, `open string` and `syntax`. Want of memory
/// has no text, and is passed on.
pub fn put_text_refusal(
    alloc: Global,
    out: &mut Vec<u8>,
    error: TextError,
) -> Result<(), AllocError> {
    match error {
        TextError::BadByte { at } => put_refusal(alloc, out, "bad byte", at),
        TextError::NumberTooLarge { at } => put_refusal(alloc, out, "number too large", at),
        TextError::OpenString { at } => put_refusal(alloc, out, "open string", at),
        TextError::Syntax { at } => put_refusal(alloc, out, "syntax", at),
        TextError::Memory => Err(AllocError),
    }
}

/// Appends why a query does not bind, as `join missing@40`: the name of the cause in lower case, with spaces between its words. Want of
/// memory has no text, and is passed on.
pub fn put_bind_refusal(
    alloc: Global,
    out: &mut Vec<u8>,
    error: BindError,
) -> Result<(), AllocError> {
    match error {
        BindError::UnknownTable { at } => put_refusal(alloc, out, "unknown table", at),
        BindError::UnknownColumn { at } => put_refusal(alloc, out, "unknown column", at),
        BindError::NotInFrom { at } => put_refusal(alloc, out, "not in from", at),
        BindError::FactCount { at } => put_refusal(alloc, out, "fact count", at),
        BindError::JoinShape { at } => put_refusal(alloc, out, "join shape", at),
        BindError::JoinMissing { at } => put_refusal(alloc, out, "join missing", at),
        BindError::JoinTwice { at } => put_refusal(alloc, out, "join twice", at),
        BindError::TypeMismatch { at } => put_refusal(alloc, out, "type mismatch", at),
        BindError::GroupMismatch { at } => put_refusal(alloc, out, "group mismatch", at),
        BindError::OrderUnknown { at } => put_refusal(alloc, out, "order unknown", at),
        BindError::NameTwice { at } => put_refusal(alloc, out, "name twice", at),
        BindError::Memory => Err(AllocError),
    }
}
