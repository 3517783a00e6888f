//! Short texts of fixed capacity, and which texts are names.

ghost use Rattle.std.specs.Prelude.{◌≡◌, ◌≤◌, ◌↔◌, length, IsSome, IfSome};
ghost use Rattle.std.specs.List.{list_all};
ghost use Rattle.stream_core.specs.Names.{max_name, max_file_name, is_keyword, is_name_byte, begins_with_letter, is_name};

use arrayvec::ArrayString;
use std::marker::Model;

/// Whether the word is one of the query language's, which are no names. It is in lower case.
pub fn is_keyword(word: &str) -> bool
    ensures { result ≡ is_keyword word.now }
{
    matches!(
        word,
        "select"
            | "from"
            | "where"
            | "and"
            | "or"
            | "between"
            | "in"
            | "group"
            | "order"
            | "by"
            | "asc"
            | "desc"
            | "sum"
            | "as"
    )
}

fn is_name_byte(byte: u8) -> bool
    ensures { result ≡ is_name_byte byte }
{
    byte.is_ascii_lowercase() || byte.is_ascii_digit() || byte == b'_'
}

fn begins_with_letter(text: &[u8]) -> bool
    ensures { result ≡ begins_with_letter text.now }
{
    match text {
        [first, ..] => first.is_ascii_lowercase(),
        [] => false,
    }
}

fn has_name_bytes(text: &[u8]) -> bool
    ensures { result ≡ list_all is_name_byte text.now }
{
    text.iter().all(|byte| is_name_byte(*byte))
}

/// Whether a text is a name of a table or a column.
pub fn is_name(text: &str) -> bool
    ensures { result ≡ is_name text.now }
{
    if !begins_with_letter(text.as_bytes()) {
        return false;
    }
    if text.len() > 31 {
        return false;
    }
    if is_keyword(text) {
        return false;
    }
    has_name_bytes(text.as_bytes())
}

/// The name of a table or a column: at most 31 bytes. Copy one by `Name::of(name.as_str())`.
#[derive(Drop)]
pub struct Name {
    text: ArrayString<31>,
}

impl Model for Name {
    ghost use Rattle.std.specs.Prelude.{List, ℕ};

    ghost Value = { List ℕ };

    ghost view = { λ name. name.text.bytes };
}

impl Name {
    /// The text as a name, unless it has more than 31 bytes.
    pub fn of(text: &str) -> Option<Self>
        ensures fits { IsSome result ↔ (length text.now ≤ max_name) }
        ensures value { IfSome result (λ name. name ≡ text.now) }
    {
        let text = ArrayString::from(text).ok()?;
        Some(Name { text })
    }

    pub fn as_str(&self) -> &str
        ensures text { result.now ≡ self.now }
        ensures short { length result.now ≤ max_name }
    {
        self.text.as_str()
    }
}

/// The name of a file: at most 72 bytes, which holds each name of a database's files.
#[derive(Drop)]
pub struct FileName {
    text: ArrayString<72>,
}

impl Model for FileName {
    ghost use Rattle.std.specs.Prelude.{List, ℕ};

    ghost Value = { List ℕ };

    ghost view = { λ name. name.text.bytes };
}

impl FileName {
    /// The text as a file's name, unless it has more than 72 bytes.
    pub fn of(text: &str) -> Option<Self>
        ensures fits { IsSome result ↔ (length text.now ≤ max_file_name) }
        ensures value { IfSome result (λ name. name ≡ text.now) }
    {
        let text = ArrayString::from(text).ok()?;
        Some(FileName { text })
    }

    pub fn as_str(&self) -> &str
        ensures text { result.now ≡ self.now }
        ensures short { length result.now ≤ max_file_name }
    {
        self.text.as_str()
    }
}
