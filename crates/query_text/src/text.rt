//! The readers of texts: of a query, and of several.

ghost use Rattle.std.specs.Prelude.{◌≡◌, ◌≤◌, List as Items, length, Some, IfOk, IfErr, All};
ghost use Rattle.definitions_queries.specs.Queries as said;
ghost use Rattle.definitions_queries.specs.Grammar.{IsSpelled, IsQuery, AreQueries};
ghost use Rattle.definitions_queries.specs.Texts.{max_query, IsQueryText, IsQueriesText};
ghost use Rattle.definitions_queries.specs.Entries.{entries, max_entries};
ghost use Rattle.query_text.specs.declared.text.TextError.TheVariants.{Memory};
ghost use Rattle.query_text.specs.Views.{query_view, queries_view};
ghost use Rattle.query_text.specs.Cuts.{lexical_view};
ghost use Rattle.query_text.specs.Errors.{error_view, end_refusal, stop_refusal, answer_of, IsAnsweredBy, Refuses, AnswersOnly};

use crate::lexing::{LexicalError, LexicalFault, tokens};
use crate::queries::{queries, query};
use crate::query::Query;
use crate::stop::Stop;
use std::alloc::{AllocError, Global};
use stream_core::List;

/// Why a text is refused: the refusal with the least place, or want of memory. Places count bytes from 0.
#[derive(Clone, Copy, Debug, PartialEq, Eq)]
pub enum TextError {
    /// A byte outside a string that begins no token.
    BadByte { at: u64 },
    /// A number of 2^64 or more.
    NumberTooLarge { at: u64 },
    /// A string without its end, at its first quote.
    OpenString { at: u64 },
    /// The first token that cannot follow those before it, or the text's length if more has to follow.
    Syntax { at: u64 },
    Memory,
}

impl From<AllocError> for TextError {
    ghost from_gives = { λ _ e. e ≡ Memory };

    fn from(_e: AllocError) -> TextError {
        TextError::Memory
    }
}

/// The refusal of a text of `len` bytes none of whose tokens is refused: the lexical error, or Syntax at the length.
fn ending(error: Option<LexicalError>, len: u64) -> TextError
    ensures { error_view result ≡ Some (end_refusal (lexical_view error) len) }
{
    let Some(error) = error else {
        return TextError::Syntax { at: len };
    };
    let at = error.at;
    match error.fault {
        LexicalFault::BadByte => TextError::BadByte { at },
        LexicalFault::NumberTooLarge => TextError::NumberTooLarge { at },
        LexicalFault::OpenString => TextError::OpenString { at },
    }
}

/// The refusal of a text of `len` bytes whose tokens were refused.
fn refusal(stop: Stop, error: Option<LexicalError>, len: u64) -> TextError
    ensures { error_view result ≡ stop_refusal stop (lexical_view error) len }
{
    match stop {
        Stop::Syntax { at } => match at {
            Some(at) => TextError::Syntax { at },
            None => ending(error, len),
        },
        Stop::Memory => TextError::Memory,
    }
}

/// The answer to a text of `len` bytes, from what reading its tokens gave.
fn answer<T: Drop>(
    read: Result<T, Stop>,
    error: Option<LexicalError>,
    len: u64,
) -> Result<T, TextError>
    ensures { IsAnsweredBy result (answer_of read (lexical_view error) len) }
{
    match read {
        Ok(value) => match error {
            None => Ok(value),
            Some(_) => Err(ending(error, len)),
        },
        Err(stop) => Err(refusal(stop, error, len)),
    }
}

/// The query that a text says, or the text's first refusal. It reads the text once, and copies each name and string once.
pub fn read_query(alloc: Global, bytes: &[u8]) -> Result<Query, TextError>
    requires { length bytes.now ≤ max_query }
    // What is read is what the text says.
    ensures read { IfOk result (λ query. IsQueryText bytes.now (query_view query)) }
    // It is spelled by tokens, so that its binding is lawful.
    ensures spelled { IfOk result (λ query. IsSpelled (query_view query)) }
    // It has at most 65,536 entries, which is what binding asks for.
    ensures bounded { IfOk result (λ query. entries (query_view query) ≤ max_entries) }
    // What the text says is read, unless memory runs out.
    ensures only { (query : said.Query) → IsQueryText bytes.now query → AnswersOnly query_view result query }
    // A refusal is that of the text: the one with the least place.
    ensures refused { IfErr result (λ e. Refuses IsQuery bytes.now (error_view e)) }
{
    let (tokens, error) = tokens(alloc, bytes)?;
    answer(query(alloc, &tokens), error, bytes.len() as u64)
}

/// The queries that a text says, one after the other with `;` between them and perhaps at the end, or the text's first refusal. There is
/// at least one query, and places are those in the whole text.
pub fn read_queries(alloc: Global, bytes: &[u8]) -> Result<List<Query>, TextError>
    requires { length bytes.now ≤ max_query }
    // What is read is what the text says.
    ensures read { IfOk result (λ queries. IsQueriesText bytes.now (queries_view queries)) }
    // Each query is spelled by tokens, so that its binding is lawful.
    ensures spelled { IfOk result (λ queries. All (λ query. IsSpelled (query_view query)) queries) }
    // Each has at most 65,536 entries, which is what binding asks for.
    ensures bounded { IfOk result (λ queries. All (λ query. entries (query_view query) ≤ max_entries) queries) }
    // What the text says is read, unless memory runs out.
    ensures only { (queries : Items said.Query) → IsQueriesText bytes.now queries → AnswersOnly queries_view result queries }
    // A refusal is that of the text: the one with the least place.
    ensures refused { IfErr result (λ e. Refuses AreQueries bytes.now (error_view e)) }
{
    let (tokens, error) = tokens(alloc, bytes)?;
    answer(queries(alloc, &tokens), error, bytes.len() as u64)
}
