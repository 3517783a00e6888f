//! The readers of words and items: each takes the tokens that are left, and gives what it read and the rest.

ghost use Rattle.std.specs.Prelude.{◌≡◌, Some, None, option_map, codes, MatchOption, IfOk};
ghost use Rattle.std.specs.Str.{str_to_ascii_lowercase};
ghost use Rattle.query_text.specs.declared.stop.Stop.TheVariants.{Syntax};
ghost use Rattle.query_text.specs.Reading.{place_of, split, the_reserved, a_word, reserved_at, name_at, list_at, alias_at, second_at, sum_at, item_at};
ghost use Rattle.query_text.specs.Views.{reserved_text, tokens_view, name_view, word_view, words_view, shape_view, item_view, items_view};
ghost use Rattle.query_text.specs.Readers.{ReadsAs};

use crate::query::{QueryItem, SumShape, Word};
use crate::stop::Stop;
use crate::tokens::{Kind, Reserved, Tokens};
use std::alloc::{AllocError, Global};
use stream_core::{Bytes, List};

/// The refusal of the next token.
pub fn stop_at(tokens: Tokens<'_>) -> Stop
    ensures { result ≡ Syntax (place_of (tokens_view tokens.now)) }
{
    Stop::Syntax {
        at: tokens.first().map(|token| token.at),
    }
}

/// The tokens after a keyword or symbol, if it comes next.
pub fn rest_after(tokens: Tokens<'_>, wanted: Reserved) -> Option<Tokens<'_>>
    ensures { MatchOption result (split (the_reserved (reserved_text wanted)) (tokens_view tokens.now) ≡ None)
        (λ rest. split (the_reserved (reserved_text wanted)) (tokens_view tokens.now) ≡ Some (tt, tokens_view rest.now)) }
{
    let (first, rest) = tokens.split_first()?;
    match first.kind {
        Kind::Reserved(found) => { if found == wanted { Some(rest) } else { None } }
        Kind::Name(_) | Kind::Number(_) | Kind::Text(_) => None,
    }
}

/// The tokens after a keyword or symbol that has to come next.
#[tactic(auto, unfolding(crate::specs::Reading::reserved_at))]
pub fn want(tokens: Tokens<'_>, wanted: Reserved) -> Result<Tokens<'_>, Stop>
    ensures { ReadsAs (λ rest. (tt, tokens_view rest.now)) result (reserved_at (reserved_text wanted) (tokens_view tokens.now)) }
{
    match rest_after(tokens, wanted) {
        Some(rest) => Ok(rest),
        None => Err(stop_at(tokens)),
    }
}

/// A name as the text has it, and its place.
#[derive(Clone, Copy)]
pub struct RawName<'a> {
    pub at: u64,
    pub text: &'a [u8],
}

/// A name and the tokens after it, if one comes next.
pub fn next_name(tokens: Tokens<'_>) -> Option<(RawName<'_>, Tokens<'_>)>
    ensures { MatchOption result (split a_word (tokens_view tokens.now) ≡ None)
        (λ x. split a_word (tokens_view tokens.now) ≡ Some (name_view x.0, tokens_view x.1.now)) }
{
    let (first, rest) = tokens.split_first()?;
    match first.kind {
        Kind::Name(text) => Some((RawName { at: first.at, text }, rest)),
        Kind::Reserved(_) | Kind::Number(_) | Kind::Text(_) => None,
    }
}

/// A name in lower case.
pub fn word(alloc: Global, at: u64, text: &[u8]) -> Result<Word, AllocError>
    ensures { IfOk result (λ word. word_view word ≡ record { at = at; text = str_to_ascii_lowercase text.now }) }
{
    let lower = text.to_ascii_lowercase(alloc)?;
    Ok(Word {
        at,
        text: Bytes::from_vec(lower),
    })
}

/// A name that has to come next, as the text has it.
#[tactic(auto, unfolding(crate::specs::Reading::name_at))]
pub fn raw_name(tokens: Tokens<'_>) -> Result<(RawName<'_>, Tokens<'_>), Stop>
    ensures { ReadsAs (λ x. (name_view x.0, tokens_view x.1.now)) result (name_at (tokens_view tokens.now)) }
{
    match next_name(tokens) {
        Some((name, rest)) => Ok((name, rest)),
        None => Err(stop_at(tokens)),
    }
}

/// A name.
pub fn name(alloc: Global, tokens: Tokens<'_>) -> Result<(Word, Tokens<'_>), Stop>
    ensures { ReadsAs (λ x. (word_view x.0, tokens_view x.1.now)) result (name_at (tokens_view tokens.now)) }
{
    let (name, rest) = raw_name(tokens)?;
    Ok((word(alloc, name.at, name.text)?, rest))
}

/// `[ "as" name ]`.
#[tactic(auto, unfolding(crate::specs::Reading::alias_at))]
fn alias(alloc: Global, tokens: Tokens<'_>) -> Result<(Option<Word>, Tokens<'_>), Stop>
    ensures { ReadsAs (λ x. (option_map word_view x.0, tokens_view x.1.now)) result (alias_at (tokens_view tokens.now)) }
{
    match rest_after(tokens, Reserved::As) {
        Some(rest) => {
            let (word, rest) = name(alloc, rest)?;
            Ok((Some(word), rest))
        }
        None => Ok((None, tokens)),
    }
}

/// `[ "*" name | "-" name ]`.
#[tactic(auto, unfolding(crate::specs::Reading::second_at))]
fn second(alloc: Global, tokens: Tokens<'_>) -> Result<(SumShape, Option<Word>, Tokens<'_>), Stop>
    ensures { ReadsAs (λ x. ((shape_view x.0, option_map word_view x.1), tokens_view x.2.now)) result (second_at (tokens_view tokens.now)) }
{
    if let Some(rest) = rest_after(tokens, Reserved::Star) {
        let (word, rest) = name(alloc, rest)?;
        return Ok((SumShape::Product, Some(word), rest));
    }
    if let Some(rest) = rest_after(tokens, Reserved::Minus) {
        let (word, rest) = name(alloc, rest)?;
        return Ok((SumShape::Difference, Some(word), rest));
    }
    Ok((SumShape::Plain, None, tokens))
}

/// `"sum" "(" expr ")" [ "as" name ]`.
#[tactic(auto, unfolding(crate::specs::Reading::sum_at))]
fn sum(alloc: Global, tokens: Tokens<'_>) -> Result<(QueryItem, Tokens<'_>), Stop>
    ensures { ReadsAs (λ x. (item_view x.0, tokens_view x.1.now)) result (sum_at (tokens_view tokens.now)) }
{
    let rest = want(tokens, Reserved::Sum)?;
    let rest = want(rest, Reserved::Open)?;
    let (first, rest) = name(alloc, rest)?;
    let (shape, second, rest) = second(alloc, rest)?;
    let rest = want(rest, Reserved::Close)?;
    let (alias, rest) = alias(alloc, rest)?;
    Ok((
        QueryItem::Sum {
            shape,
            first,
            second,
            alias,
        },
        rest,
    ))
}

/// `name | "sum" "(" expr ")" [ "as" name ]`.
#[tactic(auto, unfolding(crate::specs::Reading::item_at))]
fn item(alloc: Global, tokens: Tokens<'_>) -> Result<(QueryItem, Tokens<'_>), Stop>
    ensures { ReadsAs (λ x. (item_view x.0, tokens_view x.1.now)) result (item_at (tokens_view tokens.now)) }
{
    match next_name(tokens) {
        Some((name, rest)) => Ok((QueryItem::Column(word(alloc, name.at, name.text)?), rest)),
        None => sum(alloc, tokens),
    }
}

/// `item { "," item }`.
pub fn items(alloc: Global, tokens: Tokens<'_>) -> Result<(List<QueryItem>, Tokens<'_>), Stop>
    ensures { ReadsAs (λ x. (items_view x.0, tokens_view x.1.now)) result (list_at (codes ",") item_at (tokens_view tokens.now)) }
{
    let (first, mut rest) = item(alloc, tokens)?;
    let mut items = Vec::new(alloc);
    items.push(first)?;
    while let Some(after) = rest_after(rest, Reserved::Comma) {
        let (next, after) = item(alloc, after)?;
        items.push(next)?;
        rest = after;
    }
    Ok((List::from_vec(items), rest))
}

/// `name { "," name }`.
pub fn names(alloc: Global, tokens: Tokens<'_>) -> Result<(List<Word>, Tokens<'_>), Stop>
    ensures { ReadsAs (λ x. (words_view x.0, tokens_view x.1.now)) result (list_at (codes ",") name_at (tokens_view tokens.now)) }
{
    let (first, mut rest) = name(alloc, tokens)?;
    let mut names = Vec::new(alloc);
    names.push(first)?;
    while let Some(after) = rest_after(rest, Reserved::Comma) {
        let (next, after) = name(alloc, after)?;
        names.push(next)?;
        rest = after;
    }
    Ok((List::from_vec(names), rest))
}
