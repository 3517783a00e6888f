//! What a text is answered by, as a short text: the query, or the first letter of the refusal's cause and its place.

use crate::printing::{put_query, put_test};
use query_text::{QueryCondition, TextError, read_queries, read_query};
use std::alloc::{AllocError, Global};

fn refusal_of(alloc: Global, error: TextError) -> Result<Vec<u8>, AllocError> {
    let text = match error {
        TextError::BadByte { at } => format!(in alloc; "B{at}")?,
        TextError::NumberTooLarge { at } => format!(in alloc; "N{at}")?,
        TextError::OpenString { at } => format!(in alloc; "O{at}")?,
        TextError::Syntax { at } => format!(in alloc; "S{at}")?,
        TextError::Memory => return Err(AllocError),
    };
    Vec::from_slice(alloc, text.as_bytes())
}

/// The outcome of a text of one query. Of a query that is read only `Q` is given, if `briefly` is set.
pub fn of_query(alloc: Global, text: &[u8], briefly: bool) -> Result<Vec<u8>, AllocError> {
    if text.len() > 65_536 {
        return Vec::from_slice(alloc, b"too long");
    }
    match read_query(alloc, text) {
        Ok(query) => {
            if briefly {
                return Vec::from_slice(alloc, b"Q");
            }
            let mut out = Vec::new(alloc);
            put_query(alloc, &mut out, &query)?;
            Ok(out)
        }
        Err(error) => refusal_of(alloc, error),
    }
}

/// The outcome of a text of several queries.
pub fn of_queries(alloc: Global, text: &[u8]) -> Result<Vec<u8>, AllocError> {
    if text.len() > 65_536 {
        return Vec::from_slice(alloc, b"too long");
    }
    match read_queries(alloc, text) {
        Ok(queries) => {
            let mut out = Vec::new(alloc);
            for (number, query) in queries.as_slice().iter().enumerate() {
                if number > 0 {
                    out.extend_from_slice(b";")?;
                }
                put_query(alloc, &mut out, query)?;
            }
            Ok(out)
        }
        Err(error) => refusal_of(alloc, error),
    }
}

/// How many items a text of one query selects. A text that is refused has none.
pub fn items_in(alloc: Global, text: &[u8]) -> Result<usize, AllocError> {
    if text.len() > 65_536 {
        return Ok(0);
    }
    match read_query(alloc, text) {
        Ok(query) => Ok(query.items.as_slice().len()),
        Err(TextError::Memory) => Err(AllocError),
        Err(_) => Ok(0),
    }
}

/// Copies of the tests of a query, one after the other. A text that is refused has none.
pub fn copies_in(alloc: Global, text: &[u8]) -> Result<Vec<u8>, AllocError> {
    let mut out = Vec::new(alloc);
    if text.len() > 65_536 {
        return Ok(out);
    }
    if let Ok(query) = read_query(alloc, text) {
        for condition in query.conditions.as_slice() {
            if let QueryCondition::Compare { test, places, .. } = condition {
                put_test(alloc, &mut out, &test.copied(alloc)?, places.as_slice())?;
            }
        }
    }
    Ok(out)
}
