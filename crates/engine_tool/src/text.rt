//! The reader of a query's text.
//!
//! Each function takes the text that is left and gives what it read, with the rest, or nothing where the text goes on in
//! another way. Tokens are cut where they are wanted, so no token is stored.

ghost use Rattle.std.specs.Prelude.{◌≡◌, ℕ, ◌^◌, ◌<◌, ◌≤◌, ◌⊎◌, ◌↔◌, Bool, [], ◌∷◌, ◌++◌, List, length, take, drop, codes, Option, Some, None, true, false, MatchOption, SomeIff, IsTrue, IfSome};
ghost use Rattle.std.specs.Char.{is_ascii_digit};
ghost use Rattle.std.specs.Str.{str_to_ascii_lowercase};
ghost use Rattle.std.specs.List.{prefix_len, list_all, AllPass};
ghost use Rattle.stream_core.specs.Names.{is_name_byte, IsName};
ghost use Rattle.engine_tool.specs.Tokens.{word, number, symbol, is_white_space, begins_word, continues_word, front, behind, value_of, Begins, AreTokens};
ghost use Rattle.engine_tool.specs.Queries as queries;
ghost use Rattle.engine_tool.specs.Queries.{Query, Spells, NamesTested, item_tokens, table_tokens, condition_tokens, where_tokens};
ghost use Rattle.engine_tool.specs.Texts.{class_test, LacksToken, HasToken, condition_view, query_view};

use arrayvec::ArrayString;
use stream_core::{Name, is_name};

/// A column's value is from `low` to `high`.
#[derive(Drop)]
pub struct Condition {
    pub tested: Name,
    pub low: u64,
    pub high: u64,
}

/// The sum of one column over the rows that meet the condition, or over all where there is none.
#[derive(Drop)]
pub struct SumQuery {
    pub summed: Name,
    pub table: Name,
    pub condition: Option<Condition>,
}

/// What bytes of one kind a piece of text is made of.
#[derive(Clone, Copy)]
enum Class {
    WhiteSpace,
    Word,
    Digit,
}

impl Class {
    fn has(self, byte: u8) -> bool
        ensures { result ≡ class_test self byte }
    {
        match self {
            Class::WhiteSpace => byte == b' ' || byte == b'\t' || byte == b'\n' || byte == b'\r',
            Class::Word => begins_word(byte) || byte.is_ascii_digit(),
            Class::Digit => byte.is_ascii_digit(),
        }
    }
}

fn begins_word(byte: u8) -> bool
    ensures { result ≡ begins_word byte }
{
    byte.is_ascii_alphabetic() || byte == b'_'
}

fn is_name_byte(byte: u8) -> bool
    ensures { result ≡ is_name_byte byte }
{
    byte.is_ascii_lowercase() || byte.is_ascii_digit() || byte == b'_'
}

/// How many bytes of the class the text begins with.
fn front_len(text: &[u8], class: Class) -> usize
    ensures len { result ≡ prefix_len (class_test class) text.now }
    ensures within { result ≤ length text.now }
{
    let mut at = 0;
    while at < text.len() && class.has(text[at]) {
        at += 1;
    }
    at
}

/// The bytes of the class that the text begins with, and the rest.
fn split_front(text: &[u8], class: Class) -> (&[u8], &[u8])
    ensures front { result.0.now ≡ front (class_test class) text.now }
    ensures behind { result.1.now ≡ behind (class_test class) text.now }
{
    let len = front_len(text, class);
    text.split_at(len)
}

/// The text after white space.
fn skip_white_space(text: &[u8]) -> &[u8]
    ensures { result.now ≡ behind is_white_space text.now }
{
    split_front(text, Class::WhiteSpace).1
}

/// The next word, as it is written.
fn any_word(text: &[u8]) -> Option<(&[u8], &[u8])>
    ensures { MatchOption result ((lower : List ℕ) → LacksToken text.now (word lower))
        (λ found. HasToken text.now (word (str_to_ascii_lowercase found.0.now)) found.1.now) }
{
    let text = skip_white_space(text);
    let (first, _rest) = text.split_first()?;
    if !begins_word(*first) {
        return None;
    }
    Some(split_front(text, Class::Word))
}

/// The rest after a keyword, which is given in lower case and may stand in any.
fn keyword<'a>(text: &'a [u8], expected: &[u8]) -> Option<&'a [u8]>
    ensures { MatchOption result (LacksToken text.now (word (str_to_ascii_lowercase expected.now)))
        (λ rest. HasToken text.now (word (str_to_ascii_lowercase expected.now)) rest.now) }
{
    let (found, rest) = any_word(text)?;
    if found.eq_ignore_ascii_case(expected) {
        Some(rest)
    } else {
        None
    }
}

/// The rest after a parenthesis.
fn parenthesis(text: &[u8], expected: u8) -> Option<&[u8]>
    requires { (expected ≡ 40) ⊎ (expected ≡ 41) }
    ensures { MatchOption result (LacksToken text.now (symbol (expected ∷ [])))
        (λ rest. HasToken text.now (symbol (expected ∷ [])) rest.now) }
{
    let text = skip_white_space(text);
    let (first, rest) = text.split_first()?;
    if *first != expected {
        return None;
    }
    Some(rest)
}

/// The value of digits, unless it is 2^64 or more.
fn value_of(digits: &[u8]) -> Option<u64>
    requires { AllPass is_ascii_digit digits.now }
    ensures { SomeIff result (value_of digits.now < 2 ^ 64) (value_of digits.now) }
{
    let mut value = 0u64;
    for digit in digits {
        value = value
            .checked_mul(10)?
            .checked_add(u64::from(*digit - b'0'))?;
    }
    Some(value)
}

/// The next number, below 2^64.
fn any_number(text: &[u8]) -> Option<(u64, &[u8])>
    ensures { MatchOption result ((value : ℕ) → LacksToken text.now (number value))
        (λ found. HasToken text.now (number found.0) found.1.now) }
{
    let (digits, rest) = split_front(skip_white_space(text), Class::Digit);
    if digits.is_empty() {
        return None;
    }
    Some((value_of(digits)?, rest))
}

/// The word in lower case, where it has bytes of a name alone.
fn lower_case(word: &[u8]) -> Option<ArrayString<31>>
    requires { length word.now ≤ 31 }
    ensures { MatchOption result (list_all is_name_byte (str_to_ascii_lowercase word.now) ≡ false)
        (λ lower. (list_all is_name_byte (str_to_ascii_lowercase word.now) ≡ true) × (lower.bytes ≡ str_to_ascii_lowercase word.now)) }
{
    let mut lower = ArrayString::<31>::new();
    for byte in word {
        let byte = byte.to_ascii_lowercase();
        if !is_name_byte(byte) {
            return None;
        }
        lower.push(char::from(byte));
    }
    Some(lower)
}

/// The word in lower case as a name, where it is one.
fn name_of(word: &[u8]) -> Option<Name>
    ensures { MatchOption result (¬ (IsName (str_to_ascii_lowercase word.now)))
        (λ name. IsName name × (name ≡ str_to_ascii_lowercase word.now)) }
{
    if word.len() > 31 {
        return None;
    }
    let lower = lower_case(word)?;
    let lower = lower.as_str();
    if !is_name(lower) {
        return None;
    }
    Name::of(lower)
}

/// The next word as a name.
fn any_name(text: &[u8]) -> Option<(Name, &[u8])>
    ensures { MatchOption result ((name : List ℕ) → IsName name → LacksToken text.now (word name))
        (λ found. IsName found.0 × HasToken text.now (word found.0) found.1.now) }
{
    let (found, rest) = any_word(text)?;
    Some((name_of(found)?, rest))
}

/// `select sum ( COLUMN )`.
fn read_item(text: &[u8]) -> Option<(Name, &[u8])>
    ensures { MatchOption result ((name rest : List ℕ) → IsName name → Begins text.now (item_tokens name) rest → ⊥)
        (λ found. IsName found.0 × Begins text.now (item_tokens found.0) found.1.now) }
{
    let rest = keyword(text, b"select")?;
    let rest = keyword(rest, b"sum")?;
    let rest = parenthesis(rest, b'(')?;
    let (name, rest) = any_name(rest)?;
    let rest = parenthesis(rest, b')')?;
    Some((name, rest))
}

/// `from TABLE`.
fn read_table(text: &[u8]) -> Option<(Name, &[u8])>
    ensures { MatchOption result ((name rest : List ℕ) → IsName name → Begins text.now (table_tokens name) rest → ⊥)
        (λ found. IsName found.0 × Begins text.now (table_tokens found.0) found.1.now) }
{
    let rest = keyword(text, b"from")?;
    let (name, rest) = any_name(rest)?;
    Some((name, rest))
}

/// `where COLUMN between LOW and HIGH`.
fn read_condition(text: &[u8]) -> Option<(Condition, &[u8])>
    ensures { MatchOption result
        ((name : List ℕ) (low high : ℕ) (rest : List ℕ) → IsName name → Begins text.now (condition_tokens name low high) rest → ⊥)
        (λ found. IsName found.0.tested × Begins text.now (condition_tokens found.0.tested found.0.low found.0.high) found.1.now) }
{
    let rest = keyword(text, b"where")?;
    let (tested, rest) = any_name(rest)?;
    let rest = keyword(rest, b"between")?;
    let (low, rest) = any_number(rest)?;
    let rest = keyword(rest, b"and")?;
    let (high, rest) = any_number(rest)?;
    Some((Condition { tested, low, high }, rest))
}

/// What follows the table, to the text's end: a condition, or nothing.
fn read_where(text: &[u8]) -> Option<Option<Condition>>
    ensures { MatchOption result
        ((condition : Option queries.Condition) → NamesTested condition → AreTokens text.now (where_tokens condition) → ⊥)
        (λ found. NamesTested (condition_view found) × AreTokens text.now (where_tokens (condition_view found))) }
{
    if skip_white_space(text).is_empty() {
        return Some(None);
    }
    let (condition, rest) = read_condition(text)?;
    if !skip_white_space(rest).is_empty() {
        return None;
    }
    Some(Some(condition))
}

/// The query that the text spells.
pub fn read_query(text: &[u8]) -> Option<SumQuery>
    ensures { MatchOption result ((query : Query) → Spells text.now query → ⊥)
        (λ query. Spells text.now (query_view query)) }
{
    let (summed, rest) = read_item(text)?;
    let (table, rest) = read_table(rest)?;
    let condition = read_where(rest)?;
    Some(SumQuery {
        summed,
        table,
        condition,
    })
}
