//! What a text is answered by over a schema.

ghost use Rattle.std.specs.Prelude.{◌≤◌, All};
ghost use Rattle.definitions_queries.specs.Entries.{entries, max_entries};
ghost use Rattle.catalog_core.specs.LawfulSchemas.{IsSchema};
ghost use Rattle.query_text.specs.Views.{query_view};

use crate::bindings::{put_bound, put_needs};
use crate::pieces::{put, put_number};
use crate::refusals::{put_bind_refusal, put_text_refusal};
use catalog_core::Schema;
use query_bind::{bind, needs_of};
use query_text::{Query, read_queries, read_query};
use std::alloc::{AllocError, Global};

/// The longest text that is read.
const MAX_TEXT: usize = 65_536;

/// The binding of a query, or why it does not bind.
fn put_binding(
    alloc: Global,
    out: &mut Vec<u8>,
    query: &Query,
    schema: &Schema,
) -> Result<(), AllocError>
    requires lawful { IsSchema schema.now }
    requires few { entries (query_view query.now) ≤ max_entries }
{
    match bind(alloc, query, schema) {
        Ok(bound) => put_bound(alloc, out, &bound),
        Err(error) => put_bind_refusal(alloc, out, error),
    }
}

/// The number of queries, and behind each `;` the binding of the next one, or why it does not bind.
fn put_bindings(
    alloc: Global,
    out: &mut Vec<u8>,
    queries: &[Query],
    schema: &Schema,
) -> Result<(), AllocError>
    requires lawful { IsSchema schema.now }
    requires few { All (λ query. entries (query_view query) ≤ max_entries) queries.now }
{
    put_number(alloc, out, queries.len() as u64)?;
    for query in queries {
        put(out, ";")?;
        put_binding(alloc, out, query, schema)?;
    }
    Ok(())
}

/// Appends what a text of one query is answered by, without a line feed: `too long` for more than 65,536 bytes, else why it is no query
/// (`put_text_refusal`), else why the query does not bind (`put_bind_refusal`), else the binding (`put_bound`).
pub fn put_outcome(
    alloc: Global,
    out: &mut Vec<u8>,
    text: &[u8],
    schema: &Schema,
) -> Result<(), AllocError>
    requires lawful { IsSchema schema.now }
{
    if text.len() > MAX_TEXT {
        return put(out, "too long");
    }
    match read_query(alloc, text) {
        Ok(query) => put_binding(alloc, out, &query, schema),
        Err(error) => put_text_refusal(alloc, out, error),
    }
}

/// What is to be opened for a query, or why it does not bind.
fn put_binding_needs(
    alloc: Global,
    out: &mut Vec<u8>,
    query: &Query,
    schema: &Schema,
) -> Result<(), AllocError>
    requires lawful { IsSchema schema.now }
    requires few { entries (query_view query.now) ≤ max_entries }
{
    match bind(alloc, query, schema) {
        Ok(bound) => put_needs(alloc, out, &needs_of(alloc, &bound)?),
        Err(error) => put_bind_refusal(alloc, out, error),
    }
}

/// The same as `put_outcome`, but in place of a binding what is to be opened for it: the numbers of tables, a bar, and the columns, with
/// commas between. As `0,1|0.0,0.1,1.0`.
pub fn put_needed(
    alloc: Global,
    out: &mut Vec<u8>,
    text: &[u8],
    schema: &Schema,
) -> Result<(), AllocError>
    requires lawful { IsSchema schema.now }
{
    if text.len() > MAX_TEXT {
        return put(out, "too long");
    }
    match read_query(alloc, text) {
        Ok(query) => put_binding_needs(alloc, out, &query, schema),
        Err(error) => put_text_refusal(alloc, out, error),
    }
}

/// Appends what a text of several queries is answered by, without a line feed: `too long` for more than 65,536 bytes, else why these are
/// no queries (`put_text_refusal`), else the number of queries, and behind each `;` the next one's binding or why it does not bind. As
/// `2;0|||||0.1|s0|;join missing@76`. Places are those in the whole text.
pub fn put_outcomes(
    alloc: Global,
    out: &mut Vec<u8>,
    text: &[u8],
    schema: &Schema,
) -> Result<(), AllocError>
    requires lawful { IsSchema schema.now }
{
    if text.len() > MAX_TEXT {
        return put(out, "too long");
    }
    match read_queries(alloc, text) {
        Ok(queries) => put_bindings(alloc, out, queries.as_slice(), schema),
        Err(error) => put_text_refusal(alloc, out, error),
    }
}
