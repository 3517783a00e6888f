//! The query that the input says.

ghost use Rattle.std.specs.Prelude.{◌≡◌, ◌≤◌, ℕ, List as Items, length, Some, IfOk};
ghost use Rattle.definitions_queries.specs.Texts.{max_query};
ghost use Rattle.query_text.specs.Views.{query_view};
ghost use Rattle.table_commands.specs.Querying.{query_too_long};
ghost use Rattle.table_commands.specs.Refusals.{limited};
ghost use Rattle.table_commands.specs.Stops.{Ends, Computes, KeepsInput, IsInner};
ghost use Rattle.query_commands.specs.Asked.{IsAsked};
ghost use Rattle.query_commands.specs.Explaining.{QueryIn, TextStep};

use query_text::{Query, TextError, read_query};
use std::alloc::Global;
use stream_core::{Bytes, ReadError, Source, read_all};
use table_commands::{Refusal, Stop};

/// How many bytes the text of a query has at most.
const MAX_QUERY: u64 = 65_536;

/// The whole input, if it is not too long.
fn text_of<I: Source>(alloc: Global, input: &mut I) -> Result<Bytes, Stop>
    ensures step { (text : Items ℕ) → I.left input.old ≡ Some text → Computes (λ (b : Items ℕ). b) result (limited max_query query_too_long text) }
    ensures short { IfOk result (λ bytes. length bytes ≤ max_query) }
    ensures kept { KeepsInput (I.left input.new) (I.faults input.old) (I.faults input.new) result }
{
    match read_all(alloc, input, MAX_QUERY) {
        Ok(text) => Ok(text),
        Err(ReadError::TooLong) => Err(Stop::Refused(Refusal::QueryTooLong)),
        Err(ReadError::Failed) => Err(Stop::InputFault),
        Err(ReadError::Memory) => Err(Stop::Memory),
    }
}

/// The query that the bytes say.
fn query_in(alloc: Global, bytes: &[u8]) -> Result<Query, Stop>
    requires { length bytes.now ≤ max_query }
    ensures step { Ends query_view result (QueryIn bytes.now) }
    ensures asked { IfOk result (λ query. IsAsked (query_view query)) }
    ensures kept { IsInner result }
{
    match read_query(alloc, bytes) {
        Ok(query) => Ok(query),
        Err(TextError::Memory) => Err(Stop::Memory),
        Err(error) => Err(Stop::Refused(Refusal::Text(error))),
    }
}

/// The query that the input says.
pub fn query_of<I: Source>(alloc: Global, input: &mut I) -> Result<Query, Stop>
    ensures step { (text : Items ℕ) → I.left input.old ≡ Some text → Ends query_view result (TextStep text) }
    ensures asked { IfOk result (λ query. IsAsked (query_view query)) }
    ensures kept { KeepsInput (I.left input.new) (I.faults input.old) (I.faults input.new) result }
{
    let text = text_of(alloc, input)?;
    query_in(alloc, text.as_slice())
}
