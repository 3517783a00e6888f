//! Rounds over a text.
//!
//! The whole outcome goes into the checksum once, before the rounds. A round adds a few lengths, or the place of a refusal, so that the
//! checksum takes no time of its own.

ghost use Rattle.std.specs.Prelude.{◌≤◌, length};
ghost use Rattle.catalog_core.specs.LawfulSchemas.{IsSchema};

use crate::bound_sums::bound_sum;
use crate::query_sums::{mixed, query_sum};
use catalog_core::Schema;
use query_bind::{BindError, Bound, bind};
use query_text::{Query, TextError, read_query};
use std::alloc::{AllocError, Global};

/// The number of a refusal, with its place.
fn text_refusal(error: TextError) -> Result<u64, AllocError> {
    match error {
        TextError::BadByte { at } => Ok(mixed(1, at)),
        TextError::NumberTooLarge { at } => Ok(mixed(2, at)),
        TextError::OpenString { at } => Ok(mixed(3, at)),
        TextError::Syntax { at } => Ok(mixed(4, at)),
        TextError::Memory => Err(AllocError),
    }
}

/// The number of a refusal of a binding, with its place.
fn bind_refusal(error: BindError) -> Result<u64, AllocError> {
    match error {
        BindError::UnknownTable { at } => Ok(mixed(11, at)),
        BindError::UnknownColumn { at } => Ok(mixed(12, at)),
        BindError::NotInFrom { at } => Ok(mixed(13, at)),
        BindError::FactCount { at } => Ok(mixed(14, at)),
        BindError::JoinShape { at } => Ok(mixed(15, at)),
        BindError::JoinMissing { at } => Ok(mixed(16, at)),
        BindError::JoinTwice { at } => Ok(mixed(17, at)),
        BindError::TypeMismatch { at } => Ok(mixed(18, at)),
        BindError::GroupMismatch { at } => Ok(mixed(19, at)),
        BindError::OrderUnknown { at } => Ok(mixed(20, at)),
        BindError::NameTwice { at } => Ok(mixed(21, at)),
        BindError::Memory => Err(AllocError),
    }
}

/// How many entries a query has.
fn query_length(query: &Query) -> u64 {
    let items = query.items.as_slice().len() as u64;
    let conditions = query.conditions.as_slice().len() as u64;
    let groups = query.groups.as_slice().len() as u64;
    let order = query.order.as_slice().len() as u64;
    items
        .wrapping_add(conditions)
        .wrapping_add(groups)
        .wrapping_add(order)
}

/// How many entries a binding has.
fn bound_length(bound: &Bound) -> u64 {
    let items = bound.items.as_slice().len() as u64;
    let conditions = bound.conditions.as_slice().len() as u64;
    let groups = bound.groups.as_slice().len() as u64;
    let order = bound.order.as_slice().len() as u64;
    items
        .wrapping_add(conditions)
        .wrapping_add(groups)
        .wrapping_add(order)
}

/// The outcome of a text as a number: of the whole query, or of its length.
fn read_outcome(alloc: Global, text: &[u8], is_whole: bool) -> Result<u64, AllocError>
    requires { length text.now ≤ 65536 }
{
    match read_query(alloc, text) {
        Ok(query) => {
            if is_whole {
                Ok(query_sum(&query))
            } else {
                Ok(query_length(&query))
            }
        }
        Err(error) => text_refusal(error),
    }
}

/// The outcome of a text over a schema as a number: of the whole binding, or of its length.
fn bind_outcome(
    alloc: Global,
    text: &[u8],
    schema: &Schema,
    is_whole: bool,
) -> Result<u64, AllocError>
    requires lawful { IsSchema schema.now }
    requires fits { length text.now ≤ 65536 }
{
    let query = match read_query(alloc, text) {
        Ok(query) => query,
        Err(error) => return text_refusal(error),
    };
    match bind(alloc, &query, schema) {
        Ok(bound) => {
            if is_whole {
                Ok(bound_sum(&bound))
            } else {
                Ok(bound_length(&bound))
            }
        }
        Err(error) => bind_refusal(error),
    }
}

/// Reads the text in each round.
pub fn read_rounds(alloc: Global, text: &[u8], rounds: u64) -> Result<u64, AllocError>
    requires { length text.now ≤ 65536 }
{
    let mut sum = read_outcome(alloc, text, true)?;
    for _ in 0..rounds {
        sum = mixed(sum, read_outcome(alloc, text, false)?);
    }
    Ok(sum)
}

/// Reads the text and binds it in each round.
pub fn bind_rounds(
    alloc: Global,
    text: &[u8],
    schema: &Schema,
    rounds: u64,
) -> Result<u64, AllocError>
    requires lawful { IsSchema schema.now }
    requires fits { length text.now ≤ 65536 }
{
    let mut sum = bind_outcome(alloc, text, schema, true)?;
    for _ in 0..rounds {
        sum = mixed(sum, bind_outcome(alloc, text, schema, false)?);
    }
    Ok(sum)
}
