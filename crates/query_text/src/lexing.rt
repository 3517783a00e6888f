//! Cutting a text into tokens, in one pass.

ghost use Rattle.std.specs.Prelude.{◌≡◌, ◌^◌, ◌<◌, ◌≤◌, true, false, [], ◌∷◌, length, MatchOption, SomeIff, IfOk, IfSome, option_map};
ghost use Rattle.std.specs.Char.{is_ascii_digit};
ghost use Rattle.std.specs.Str.{str_to_ascii_lowercase};
ghost use Rattle.std.specs.List.{prefix_len, AllPass};
ghost use Rattle.stream_core.specs.Names.{is_keyword};
ghost use Rattle.definitions_queries.specs.Tokens as spec;
ghost use Rattle.definitions_queries.specs.Lexing as cuts;
ghost use Rattle.definitions_queries.specs.Lexing.{is_white_space, begins_word, front, rest_after, value_of, is_symbol, quoted, AreTokens};
ghost use Rattle.query_text.specs.Views.{reserved_text, content, kind_view, tokens_view};
ghost use Rattle.query_text.specs.Cuts.{class_test, string_length, Cuts, lexical_view};

use crate::tokens::{Kind, Reserved, Token};
use std::alloc::{AllocError, Global};

/// Why no token begins at a place.
#[derive(Clone, Copy)]
pub enum LexicalFault {
    BadByte,
    NumberTooLarge,
    OpenString,
}

/// A fault, and the place where no token begins.
#[derive(Clone, Copy)]
pub struct LexicalError {
    pub at: u64,
    pub fault: LexicalFault,
}

/// What bytes of one class a piece of text is made of.
#[derive(Clone, Copy)]
enum Class {
    WhiteSpace,
    Word,
    Digit,
}

impl Class {
    fn has(self, byte: u8) -> bool
        ensures { result ≡ class_test self byte }
    {
        match self {
            Class::WhiteSpace => byte == b' ' || byte == b'\t' || byte == b'\n' || byte == b'\r',
            Class::Word => begins_word(byte) || byte.is_ascii_digit(),
            Class::Digit => byte.is_ascii_digit(),
        }
    }
}

fn begins_word(byte: u8) -> bool
    ensures { result ≡ begins_word byte }
{
    byte.is_ascii_alphabetic() || byte == b'_'
}

/// How many bytes of the class the text begins with.
fn front_len(text: &[u8], class: Class) -> usize
    ensures len { result ≡ prefix_len (class_test class) text.now }
    ensures within { result ≤ length text.now }
{
    let mut at = 0;
    while at < text.len() && class.has(text[at]) {
        at += 1;
    }
    at
}

/// The bytes of the class that the text begins with, and the rest.
fn split_front(text: &[u8], class: Class) -> (&[u8], &[u8])
    ensures front { result.0.now ≡ front (class_test class) text.now }
    ensures rest { result.1.now ≡ rest_after (class_test class) text.now }
{
    let len = front_len(text, class);
    text.split_at(len)
}

/// The text after white space.
fn skip_white_space(text: &[u8]) -> &[u8]
    ensures { result.now ≡ rest_after is_white_space text.now }
{
    split_front(text, Class::WhiteSpace).1
}

/// The value of digits, unless it is 2^64 or more.
fn value_of(digits: &[u8]) -> Option<u64>
    requires { AllPass is_ascii_digit digits.now }
    ensures { SomeIff result (value_of digits.now < 2 ^ 64) (value_of digits.now) }
{
    let mut value = 0u64;
    for digit in digits {
        value = value
            .checked_mul(10)?
            .checked_add(u64::from(*digit - b'0'))?;
    }
    Some(value)
}

/// The keyword that a word in lower case is.
fn keyword_of(word: &[u8]) -> Option<Reserved>
    ensures { MatchOption result (is_keyword word.now ≡ false) (λ found. (is_keyword word.now ≡ true) × (reserved_text found ≡ word.now)) }
{
    match word {
        b"select" => Some(Reserved::Select),
        b"from" => Some(Reserved::From),
        b"where" => Some(Reserved::Where),
        b"and" => Some(Reserved::And),
        b"or" => Some(Reserved::Or),
        b"between" => Some(Reserved::Between),
        b"in" => Some(Reserved::In),
        b"group" => Some(Reserved::Group),
        b"by" => Some(Reserved::By),
        b"order" => Some(Reserved::Order),
        b"asc" => Some(Reserved::Asc),
        b"desc" => Some(Reserved::Desc),
        b"sum" => Some(Reserved::Sum),
        b"as" => Some(Reserved::As),
        _ => None,
    }
}

/// The keyword that a word is, in any case. No keyword has more than seven letters.
fn keyword(word: &[u8]) -> Option<Reserved>
    ensures { MatchOption result (is_keyword (str_to_ascii_lowercase word.now) ≡ false)
        (λ found. (is_keyword (str_to_ascii_lowercase word.now) ≡ true) × (reserved_text found ≡ str_to_ascii_lowercase word.now)) }
{
    if word.len() > 7 {
        return None;
    }
    let mut letters = [0u8; 7];
    let lower = &mut letters[..word.len()];
    lower.copy_from_slice(word);
    lower.make_ascii_lowercase();
    keyword_of(lower)
}

/// A word as a token.
fn word_kind(word: &[u8]) -> Kind<'_>
    ensures { kind_view result ≡ cuts.a_word (str_to_ascii_lowercase word.now) }
{
    match keyword(word) {
        Some(found) => Kind::Reserved(found),
        None => Kind::Name(word),
    }
}

/// A symbol of one byte.
fn symbol_of(byte: u8) -> Option<Reserved>
    ensures { MatchOption result (is_symbol byte ≡ false) (λ found. (is_symbol byte ≡ true) × (reserved_text found ≡ byte ∷ [])) }
{
    match byte {
        b',' => Some(Reserved::Comma),
        b'(' => Some(Reserved::Open),
        b')' => Some(Reserved::Close),
        b'*' => Some(Reserved::Star),
        b'-' => Some(Reserved::Minus),
        b'=' => Some(Reserved::Equal),
        b'<' => Some(Reserved::Less),
        b'>' => Some(Reserved::Greater),
        b';' => Some(Reserved::Semicolon),
        _ => None,
    }
}

/// The longest symbol that begins with the byte, and what follows it.
fn symbol(first: u8, after: &[u8]) -> Option<(Reserved, &[u8])>
    ensures { MatchOption result (cuts.a_symbol first after.now ≡ cuts.fault cuts.bad_byte)
        (λ found. cuts.a_symbol first after.now ≡ cuts.token (spec.reserved (reserved_text found.0)) found.1.now) }
{
    if let Some((second, rest)) = after.split_first() {
        if *second == b'=' && first == b'<' {
            return Some((Reserved::AtMost, rest));
        }
        if *second == b'=' && first == b'>' {
            return Some((Reserved::AtLeast, rest));
        }
    }
    let found = symbol_of(first)?;
    Some((found, after))
}

/// How many bytes stand before the closing quote. Two quotes don't close a string.
fn string_len(text: &[u8]) -> Option<usize>
    ensures len { result ≡ string_length text.now }
    ensures within { IfSome result (λ len. len < length text.now) }
{
    let mut len = 0;
    let mut rest = text;
    while let Some((first, after)) = rest.split_first() {
        rest = after;
        len += 1;
        if *first == b'\'' {
            match after.split_first() {
                Some((b'\'', further)) => {
                    rest = further;
                    len += 1;
                }
                _ => return Some(len - 1),
            }
        }
    }
    None
}

/// What stands before the closing quote, and what follows that quote.
fn string(text: &[u8]) -> Option<(&[u8], &[u8])>
    ensures { option_map (λ x. (content x.0.now, x.1.now)) result ≡ quoted text.now }
{
    let len = string_len(text)?;
    let (inner, _) = text.split_at(len);
    let (_, rest) = text.split_at(len + 1);
    Some((inner, rest))
}

/// What a text begins with that has no white space in front.
#[tactic(auto, unfolding(definitions_queries::specs::Lexing::cut))]
fn cut(text: &[u8]) -> Result<Option<(Kind<'_>, &[u8])>, LexicalFault>
    ensures { Cuts result (cuts.cut text.now) }
{
    let Some((first, after)) = text.split_first() else {
        return Ok(None);
    };
    if begins_word(*first) {
        let (word, rest) = split_front(text, Class::Word);
        return Ok(Some((word_kind(word), rest)));
    }
    if first.is_ascii_digit() {
        let (digits, rest) = split_front(text, Class::Digit);
        return match value_of(digits) {
            Some(value) => Ok(Some((Kind::Number(value), rest))),
            None => Err(LexicalFault::NumberTooLarge),
        };
    }
    if *first == b'\'' {
        return match string(after) {
            Some((text, rest)) => Ok(Some((Kind::Text(text), rest))),
            None => Err(LexicalFault::OpenString),
        };
    }
    match symbol(*first, after) {
        Some((found, rest)) => Ok(Some((Kind::Reserved(found), rest))),
        None => Err(LexicalFault::BadByte),
    }
}

/// The tokens of a text before its first lexical error, or all of them.
pub fn tokens(
    alloc: Global,
    text: &[u8],
) -> Result<(Vec<Token<'_>>, Option<LexicalError>), AllocError>
    ensures { IfOk result (λ found. AreTokens text.now (tokens_view found.0.items) (lexical_view found.1)) }
{
    let mut tokens = Vec::new(alloc);
    let mut rest = skip_white_space(text);
    loop {
        let at = (text.len() - rest.len()) as u64;
        match cut(rest) {
            Ok(Some((kind, after))) => {
                tokens.push(Token { at, kind })?;
                rest = skip_white_space(after);
            }
            Ok(None) => return Ok((tokens, None)),
            Err(fault) => return Ok((tokens, Some(LexicalError { at, fault }))),
        }
    }
}
