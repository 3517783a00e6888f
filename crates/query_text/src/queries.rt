//! The readers of whole queries.

ghost use Rattle.std.specs.Prelude.{◌≡◌, [], Ok, Some, None, codes, MatchOption};
ghost use Rattle.query_text.specs.Reading.{list_at, key_at, direction_at, where_at, group_at, order_at, selected_at, body_at, finish_at, query_at, next_query, queries_at};
ghost use Rattle.query_text.specs.Views.{tokens_view, words_view, conditions_view, key_view, keys_view, query_view, queries_view};
ghost use Rattle.query_text.specs.Readers.{ReadsAs};

use crate::conditions::conditions;
use crate::query::{Query, QueryCondition, QueryKey, Word};
use crate::reading::{items, name, names, rest_after, stop_at, want};
use crate::stop::Stop;
use crate::tokens::{Reserved, Tokens};
use std::alloc::Global;
use stream_core::List;

/// Whether the order falls: `[ "asc" | "desc" ]`.
#[tactic(auto, unfolding(crate::specs::Reading::direction_at))]
fn falls(tokens: Tokens<'_>) -> (bool, Tokens<'_>)
    ensures { direction_at (tokens_view tokens.now) ≡ Ok (result.0, tokens_view result.1.now) }
{
    if let Some(rest) = rest_after(tokens, Reserved::Asc) {
        return (false, rest);
    }
    if let Some(rest) = rest_after(tokens, Reserved::Desc) {
        return (true, rest);
    }
    (false, tokens)
}

/// `name [ "asc" | "desc" ]`.
#[tactic(auto, unfolding(crate::specs::Reading::key_at))]
fn key(alloc: Global, tokens: Tokens<'_>) -> Result<(QueryKey, Tokens<'_>), Stop>
    ensures { ReadsAs (λ x. (key_view x.0, tokens_view x.1.now)) result (key_at (tokens_view tokens.now)) }
{
    let (word, rest) = name(alloc, tokens)?;
    let (falling, rest) = falls(rest);
    Ok((QueryKey { word, falling }, rest))
}

/// `key { "," key }`.
fn keys(alloc: Global, tokens: Tokens<'_>) -> Result<(List<QueryKey>, Tokens<'_>), Stop>
    ensures { ReadsAs (λ x. (keys_view x.0, tokens_view x.1.now)) result (list_at (codes ",") key_at (tokens_view tokens.now)) }
{
    let (first, mut rest) = key(alloc, tokens)?;
    let mut keys = Vec::new(alloc);
    keys.push(first)?;
    while let Some(after) = rest_after(rest, Reserved::Comma) {
        let (next, after) = key(alloc, after)?;
        keys.push(next)?;
        rest = after;
    }
    Ok((List::from_vec(keys), rest))
}

/// `[ "where" cond { "and" cond } ]`.
#[tactic(auto, unfolding(crate::specs::Reading::where_at))]
fn wheres(alloc: Global, tokens: Tokens<'_>) -> Result<(List<QueryCondition>, Tokens<'_>), Stop>
    ensures { ReadsAs (λ x. (conditions_view x.0, tokens_view x.1.now)) result (where_at (tokens_view tokens.now)) }
{
    match rest_after(tokens, Reserved::Where) {
        Some(rest) => conditions(alloc, rest),
        None => Ok((List::from_vec(Vec::new(alloc)), tokens)),
    }
}

/// `[ "group" "by" name { "," name } ]`.
#[tactic(auto, unfolding(crate::specs::Reading::group_at))]
fn groups(alloc: Global, tokens: Tokens<'_>) -> Result<(List<Word>, Tokens<'_>), Stop>
    ensures { ReadsAs (λ x. (words_view x.0, tokens_view x.1.now)) result (group_at (tokens_view tokens.now)) }
{
    match rest_after(tokens, Reserved::Group) {
        Some(rest) => names(alloc, want(rest, Reserved::By)?),
        None => Ok((List::from_vec(Vec::new(alloc)), tokens)),
    }
}

/// `[ "order" "by" key { "," key } ]`.
#[tactic(auto, unfolding(crate::specs::Reading::order_at))]
fn order(alloc: Global, tokens: Tokens<'_>) -> Result<(List<QueryKey>, Tokens<'_>), Stop>
    ensures { ReadsAs (λ x. (keys_view x.0, tokens_view x.1.now)) result (order_at (tokens_view tokens.now)) }
{
    match rest_after(tokens, Reserved::Order) {
        Some(rest) => keys(alloc, want(rest, Reserved::By)?),
        None => Ok((List::from_vec(Vec::new(alloc)), tokens)),
    }
}

/// A query after `select`, up to its end.
#[tactic(auto, unfolding(crate::specs::Reading::selected_at))]
fn selected(alloc: Global, tokens: Tokens<'_>) -> Result<(Query, Tokens<'_>), Stop>
    ensures { ReadsAs (λ x. (query_view x.0, tokens_view x.1.now)) result (selected_at (tokens_view tokens.now)) }
{
    let (items, rest) = items(alloc, tokens)?;
    let rest = want(rest, Reserved::From)?;
    let (tables, rest) = names(alloc, rest)?;
    let (conditions, rest) = wheres(alloc, rest)?;
    let (groups, rest) = groups(alloc, rest)?;
    let (order, rest) = order(alloc, rest)?;
    Ok((
        Query {
            items,
            tables,
            conditions,
            groups,
            order,
        },
        rest,
    ))
}

/// A query up to its end.
#[tactic(auto, unfolding(crate::specs::Reading::body_at))]
fn body(alloc: Global, tokens: Tokens<'_>) -> Result<(Query, Tokens<'_>), Stop>
    ensures { ReadsAs (λ x. (query_view x.0, tokens_view x.1.now)) result (body_at (tokens_view tokens.now)) }
{
    let rest = want(tokens, Reserved::Select)?;
    selected(alloc, rest)
}

/// `[ ";" ]`, and then no more tokens.
#[tactic(auto, unfolding(crate::specs::Reading::finish_at, crate::specs::Reading::close_at, crate::specs::Reading::end_at))]
fn finish(tokens: Tokens<'_>) -> Result<(), Stop>
    ensures { ReadsAs (λ u. (tt, [])) result (finish_at (tokens_view tokens.now)) }
{
    let rest = rest_after(tokens, Reserved::Semicolon).unwrap_or(tokens);
    if !rest.is_empty() {
        return Err(stop_at(rest));
    }
    Ok(())
}

/// The query that the tokens spell.
#[tactic(auto, unfolding(crate::specs::Reading::query_at))]
pub fn query(alloc: Global, tokens: Tokens<'_>) -> Result<Query, Stop>
    ensures { ReadsAs (λ query. (query_view query, [])) result (query_at (tokens_view tokens.now)) }
{
    let (query, rest) = body(alloc, tokens)?;
    finish(rest)?;
    Ok(query)
}

/// The tokens after `;` and `select`, if these come next.
fn next_query(tokens: Tokens<'_>) -> Option<Tokens<'_>>
    ensures { MatchOption result (next_query (tokens_view tokens.now) ≡ None) (λ rest. next_query (tokens_view tokens.now) ≡ Some (tokens_view rest.now)) }
{
    rest_after(rest_after(tokens, Reserved::Semicolon)?, Reserved::Select)
}

/// The queries that the tokens spell, one after the other.
pub fn queries(alloc: Global, tokens: Tokens<'_>) -> Result<List<Query>, Stop>
    ensures { ReadsAs (λ queries. (queries_view queries, [])) result (queries_at (tokens_view tokens.now)) }
{
    let (first, mut rest) = body(alloc, tokens)?;
    let mut queries = Vec::new(alloc);
    queries.push(first)?;
    while let Some(after) = next_query(rest) {
        let (next, after) = selected(alloc, after)?;
        queries.push(next)?;
        rest = after;
    }
    finish(rest)?;
    Ok(List::from_vec(queries))
}
