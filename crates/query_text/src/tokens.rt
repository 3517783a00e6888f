//! Tokens, which hold slices of the text.

/// A keyword or a symbol.
#[derive(Clone, Copy, PartialEq, Eq)]
pub enum Reserved {
    Select,
    From,
    Where,
    And,
    Or,
    Between,
    In,
    Group,
    By,
    Order,
    Asc,
    Desc,
    Sum,
    As,
    Comma,
    Open,
    Close,
    Star,
    Minus,
    Equal,
    Less,
    AtMost,
    Greater,
    AtLeast,
    Semicolon,
}

/// What a token is.
#[derive(Clone, Copy)]
pub enum Kind<'a> {
    /// A word that is no keyword, as the text has it.
    Name(&'a [u8]),
    Reserved(Reserved),
    Number(u64),
    /// What stands between a string's quotes, with each inner quote doubled.
    Text(&'a [u8]),
}

/// A token and the place of its first byte.
#[derive(Clone, Copy)]
pub struct Token<'a> {
    pub at: u64,
    pub kind: Kind<'a>,
}

/// The tokens that are left to read.
pub type Tokens<'a> = &'a [Token<'a>];
