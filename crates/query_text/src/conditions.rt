//! The readers of conditions.

ghost use Rattle.std.specs.Prelude.{◌≡◌, codes, length, IfOk};
ghost use Rattle.std.specs.Str.{str_to_ascii_lowercase};
ghost use Rattle.query_text.specs.Reading.{list_at, literal_at, same_name_at, single_at, equal_at, between_at, membership_at, test_at, alternative_at, choices_at, alternatives_at, condition_at};
ghost use Rattle.query_text.specs.Views.{tokens_view, word_view, literal_view, test_view, condition_view, conditions_view, content, placed_view, literals_view};
ghost use Rattle.query_text.specs.Readers.{sign_test, ReadsAs};

use crate::query::{Literal, QueryCondition, Test, Word};
use crate::reading::{name, next_name, raw_name, rest_after, stop_at, want, word};
use crate::stop::Stop;
use crate::tokens::{Kind, Reserved, Tokens};
use std::alloc::{AllocError, Global};
use stream_core::{Bytes, List};

/// A sign of a test with one literal.
#[derive(Clone, Copy)]
enum Sign {
    Equal,
    Below,
    AtMost,
    Above,
    AtLeast,
}

impl Sign {
    fn test(self, value: Literal) -> Test
        ensures { test_view result ≡ sign_test self (literal_view value) }
    {
        match self {
            Sign::Equal => Test::Equal(value),
            Sign::Below => Test::Below(value),
            Sign::AtMost => Test::AtMost(value),
            Sign::Above => Test::Above(value),
            Sign::AtLeast => Test::AtLeast(value),
        }
    }
}

/// What the bytes between a string's quotes mean: two quotes mean one.
fn content(alloc: Global, text: &[u8]) -> Result<Bytes, AllocError>
    ensures { IfOk result (λ bytes. bytes ≡ content text.now) }
{
    let mut bytes = Vec::with_capacity(alloc, text.len())?;
    let mut rest = text;
    while let Some((first, after)) = rest.split_first() {
        bytes.push(*first)?;
        rest = after;
        if *first == b'\'' {
            if let Some((_, further)) = after.split_first() {
                rest = further;
            }
        }
    }
    Ok(Bytes::from_vec(bytes))
}

/// `number | string`, with its place.
#[tactic(auto, unfolding(crate::specs::Reading::literal_at))]
fn literal(alloc: Global, tokens: Tokens<'_>) -> Result<(Literal, u64, Tokens<'_>), Stop>
    ensures { ReadsAs (λ x. (placed_view x.0 x.1, tokens_view x.2.now)) result (literal_at (tokens_view tokens.now)) }
{
    let Some((first, rest)) = tokens.split_first() else {
        return Err(stop_at(tokens));
    };
    match first.kind {
        Kind::Number(value) => Ok((Literal::Number(value), first.at, rest)),
        Kind::Text(text) => Ok((Literal::Text(content(alloc, text)?), first.at, rest)),
        Kind::Name(_) | Kind::Reserved(_) => Err(stop_at(tokens)),
    }
}

/// The literal of a sign.
#[tactic(auto, unfolding(crate::specs::Reading::single_at))]
fn single(
    alloc: Global,
    column: Word,
    sign: Sign,
    tokens: Tokens<'_>,
) -> Result<(QueryCondition, Tokens<'_>), Stop>
    ensures { ReadsAs (λ x. (condition_view x.0, tokens_view x.1.now)) result (single_at (word_view column) (sign_test sign) (tokens_view tokens.now)) }
{
    let (value, at, rest) = literal(alloc, tokens)?;
    let mut places = Vec::new(alloc);
    places.push(at)?;
    let test = sign.test(value);
    Ok((
        QueryCondition::Compare {
            column,
            test,
            places: List::from_vec(places),
        },
        rest,
    ))
}

/// What stands after `=`.
#[tactic(auto, unfolding(crate::specs::Reading::equal_at))]
fn equal(
    alloc: Global,
    column: Word,
    tokens: Tokens<'_>,
) -> Result<(QueryCondition, Tokens<'_>), Stop>
    ensures { ReadsAs (λ x. (condition_view x.0, tokens_view x.1.now)) result (equal_at (word_view column) (tokens_view tokens.now)) }
{
    match next_name(tokens) {
        Some((name, rest)) => {
            let right = word(alloc, name.at, name.text)?;
            Ok((
                QueryCondition::Join {
                    left: column,
                    right,
                },
                rest,
            ))
        }
        None => single(alloc, column, Sign::Equal, tokens),
    }
}

/// What stands after `between`.
#[tactic(auto, unfolding(crate::specs::Reading::between_at))]
fn between(
    alloc: Global,
    column: Word,
    tokens: Tokens<'_>,
) -> Result<(QueryCondition, Tokens<'_>), Stop>
    ensures { ReadsAs (λ x. (condition_view x.0, tokens_view x.1.now)) result (between_at (word_view column) (tokens_view tokens.now)) }
{
    let (low, from, rest) = literal(alloc, tokens)?;
    let rest = want(rest, Reserved::And)?;
    let (high, to, rest) = literal(alloc, rest)?;
    let mut places = Vec::new(alloc);
    places.push(from)?;
    places.push(to)?;
    Ok((
        QueryCondition::Compare {
            column,
            test: Test::Between(low, high),
            places: List::from_vec(places),
        },
        rest,
    ))
}

/// `literal { "," literal }`, with their places.
fn literals(alloc: Global, tokens: Tokens<'_>) -> Result<(Vec<Literal>, Vec<u64>, Tokens<'_>), Stop>
    ensures read { ReadsAs (λ x. (literals_view x.0.items x.1.items, tokens_view x.2.now)) result (list_at (codes ",") literal_at (tokens_view tokens.now)) }
    ensures alike { IfOk result (λ x. length x.0.items ≡ length x.1.items) }
{
    let (value, at, mut rest) = literal(alloc, tokens)?;
    let mut values = Vec::new(alloc);
    values.push(value)?;
    let mut places = Vec::new(alloc);
    places.push(at)?;
    while let Some(after) = rest_after(rest, Reserved::Comma) {
        let (value, at, after) = literal(alloc, after)?;
        values.push(value)?;
        places.push(at)?;
        rest = after;
    }
    Ok((values, places, rest))
}

/// What stands after a column from `in` on.
#[tactic(auto, unfolding(crate::specs::Reading::membership_at))]
fn membership(
    alloc: Global,
    column: Word,
    tokens: Tokens<'_>,
) -> Result<(QueryCondition, Tokens<'_>), Stop>
    ensures { ReadsAs (λ x. (condition_view x.0, tokens_view x.1.now)) result (membership_at (word_view column) (tokens_view tokens.now)) }
{
    let rest = want(tokens, Reserved::In)?;
    let rest = want(rest, Reserved::Open)?;
    let (values, places, rest) = literals(alloc, rest)?;
    let rest = want(rest, Reserved::Close)?;
    Ok((
        QueryCondition::Compare {
            column,
            test: Test::OneOf(List::from_vec(values)),
            places: List::from_vec(places),
        },
        rest,
    ))
}

/// What stands after a column.
#[tactic(auto, unfolding(crate::specs::Reading::test_at, crate::specs::Reading::membership_at, crate::specs::Reading::reserved_at))]
fn test(
    alloc: Global,
    column: Word,
    tokens: Tokens<'_>,
) -> Result<(QueryCondition, Tokens<'_>), Stop>
    ensures { ReadsAs (λ x. (condition_view x.0, tokens_view x.1.now)) result (test_at (word_view column) (tokens_view tokens.now)) }
{
    let Some((first, rest)) = tokens.split_first() else {
        return Err(stop_at(tokens));
    };
    match first.kind {
        Kind::Reserved(Reserved::Equal) => equal(alloc, column, rest),
        Kind::Reserved(Reserved::Less) => single(alloc, column, Sign::Below, rest),
        Kind::Reserved(Reserved::AtMost) => single(alloc, column, Sign::AtMost, rest),
        Kind::Reserved(Reserved::Greater) => single(alloc, column, Sign::Above, rest),
        Kind::Reserved(Reserved::AtLeast) => single(alloc, column, Sign::AtLeast, rest),
        Kind::Reserved(Reserved::Between) => between(alloc, column, rest),
        _ => membership(alloc, column, tokens),
    }
}

/// This very name, in any case.
#[tactic(auto, unfolding(crate::specs::Reading::same_name_at))]
fn same_name<'a>(tokens: Tokens<'a>, expected: &[u8]) -> Result<Tokens<'a>, Stop>
    ensures { ReadsAs (λ rest. (tt, tokens_view rest.now)) result (same_name_at (str_to_ascii_lowercase expected.now) (tokens_view tokens.now)) }
{
    let Some((first, rest)) = tokens.split_first() else {
        return Err(stop_at(tokens));
    };
    match first.kind {
        Kind::Name(text) => {
            if expected.eq_ignore_ascii_case(text) {
                Ok(rest)
            } else {
                Err(stop_at(tokens))
            }
        }
        Kind::Reserved(_) | Kind::Number(_) | Kind::Text(_) => Err(stop_at(tokens)),
    }
}

/// `name "=" literal`, with this name.
#[tactic(auto, unfolding(crate::specs::Reading::alternative_at))]
fn alternative<'a>(
    alloc: Global,
    expected: &[u8],
    tokens: Tokens<'a>,
) -> Result<(Literal, u64, Tokens<'a>), Stop>
    ensures { ReadsAs (λ x. (placed_view x.0 x.1, tokens_view x.2.now)) result (alternative_at (str_to_ascii_lowercase expected.now) (tokens_view tokens.now)) }
{
    let rest = same_name(tokens, expected)?;
    let rest = want(rest, Reserved::Equal)?;
    literal(alloc, rest)
}

/// `literal { "or" alt }`, the name of all being this one.
fn choices<'a>(
    alloc: Global,
    expected: &[u8],
    tokens: Tokens<'a>,
) -> Result<(Vec<Literal>, Vec<u64>, Tokens<'a>), Stop>
    ensures read { ReadsAs (λ x. (literals_view x.0.items x.1.items, tokens_view x.2.now)) result (choices_at (str_to_ascii_lowercase expected.now) (tokens_view tokens.now)) }
    ensures alike { IfOk result (λ x. length x.0.items ≡ length x.1.items) }
{
    let (value, at, mut rest) = literal(alloc, tokens)?;
    let mut values = Vec::new(alloc);
    values.push(value)?;
    let mut places = Vec::new(alloc);
    places.push(at)?;
    while let Some(after) = rest_after(rest, Reserved::Or) {
        let (value, at, after) = alternative(alloc, expected, after)?;
        values.push(value)?;
        places.push(at)?;
        rest = after;
    }
    Ok((values, places, rest))
}

/// `"(" alt { "or" alt } ")"`, after the parenthesis.
#[tactic(auto, unfolding(crate::specs::Reading::alternatives_at))]
fn alternatives(alloc: Global, tokens: Tokens<'_>) -> Result<(QueryCondition, Tokens<'_>), Stop>
    ensures { ReadsAs (λ x. (condition_view x.0, tokens_view x.1.now)) result (alternatives_at (tokens_view tokens.now)) }
{
    let (name, rest) = raw_name(tokens)?;
    let rest = want(rest, Reserved::Equal)?;
    let (values, places, rest) = choices(alloc, name.text, rest)?;
    let rest = want(rest, Reserved::Close)?;
    let column = word(alloc, name.at, name.text)?;
    Ok((
        QueryCondition::Compare {
            column,
            test: Test::OneOf(List::from_vec(values)),
            places: List::from_vec(places),
        },
        rest,
    ))
}

/// One condition.
#[tactic(auto, unfolding(crate::specs::Reading::condition_at, crate::specs::Reading::comparison_at))]
fn condition(alloc: Global, tokens: Tokens<'_>) -> Result<(QueryCondition, Tokens<'_>), Stop>
    ensures { ReadsAs (λ x. (condition_view x.0, tokens_view x.1.now)) result (condition_at (tokens_view tokens.now)) }
{
    if let Some(rest) = rest_after(tokens, Reserved::Open) {
        return alternatives(alloc, rest);
    }
    let (column, rest) = name(alloc, tokens)?;
    test(alloc, column, rest)
}

/// `cond { "and" cond }`.
pub fn conditions(
    alloc: Global,
    tokens: Tokens<'_>,
) -> Result<(List<QueryCondition>, Tokens<'_>), Stop>
    ensures { ReadsAs (λ x. (conditions_view x.0, tokens_view x.1.now)) result (list_at (codes "and") condition_at (tokens_view tokens.now)) }
{
    let (first, mut rest) = condition(alloc, tokens)?;
    let mut conditions = Vec::new(alloc);
    conditions.push(first)?;
    while let Some(after) = rest_after(rest, Reserved::And) {
        let (next, after) = condition(alloc, after)?;
        conditions.push(next)?;
        rest = after;
    }
    Ok((List::from_vec(conditions), rest))
}
