//! What a query's text says.

ghost use Rattle.std.specs.Prelude.{◌≡◌, map, IfOk};
ghost use Rattle.query_text.specs.Views.{literal_view, test_view};

use std::alloc::{AllocError, Global};
use stream_core::{Bytes, List};

/// A name in lower case, and the place of its first byte in the text.
#[derive(Drop)]
pub struct Word {
    pub at: u64,
    pub text: Bytes,
}

/// What a sum adds up: one column, or the products or the differences of two.
#[derive(Clone, Copy)]
pub enum SumShape {
    Plain,
    Product,
    Difference,
}

/// What is selected: a column, or a sum. A plain sum has no second column, and any other sum has one.
#[derive(Drop)]
pub enum QueryItem {
    Column(Word),
    Sum {
        shape: SumShape,
        first: Word,
        second: Option<Word>,
        alias: Option<Word>,
    },
}

/// A number, or the content of a string.
#[derive(Drop)]
pub enum Literal {
    Number(u64),
    Text(Bytes),
}

impl Literal {
    /// A copy with bytes of its own.
    pub fn copied(&self, alloc: Global) -> Result<Literal, AllocError>
        ensures { IfOk result (λ copy. literal_view copy ≡ literal_view self.now) }
    {
        match self {
            Literal::Number(value) => Ok(Literal::Number(*value)),
            Literal::Text(bytes) => {
                let bytes = Vec::from_slice(alloc, bytes.as_slice())?;
                Ok(Literal::Text(Bytes::from_vec(bytes)))
            }
        }
    }
}

/// What a column's value is compared with. `OneOf` has at least one literal.
#[derive(Drop)]
pub enum Test {
    Equal(Literal),
    Below(Literal),
    AtMost(Literal),
    Above(Literal),
    AtLeast(Literal),
    Between(Literal, Literal),
    OneOf(List<Literal>),
}

fn copied_literals(alloc: Global, literals: &[Literal]) -> Result<Vec<Literal>, AllocError>
    ensures { IfOk result (λ copies. map literal_view copies.items ≡ map literal_view literals.now) }
{
    let mut copies = Vec::with_capacity(alloc, literals.len())?;
    for literal in literals {
        copies.push(literal.copied(alloc)?)?;
    }
    Ok(copies)
}

impl Test {
    /// A copy with literals of its own.
    pub fn copied(&self, alloc: Global) -> Result<Test, AllocError>
        ensures { IfOk result (λ copy. test_view copy ≡ test_view self.now) }
    {
        match self {
            Test::Equal(value) => Ok(Test::Equal(value.copied(alloc)?)),
            Test::Below(value) => Ok(Test::Below(value.copied(alloc)?)),
            Test::AtMost(value) => Ok(Test::AtMost(value.copied(alloc)?)),
            Test::Above(value) => Ok(Test::Above(value.copied(alloc)?)),
            Test::AtLeast(value) => Ok(Test::AtLeast(value.copied(alloc)?)),
            Test::Between(low, high) => {
                let low = low.copied(alloc)?;
                let high = high.copied(alloc)?;
                Ok(Test::Between(low, high))
            }
            Test::OneOf(values) => {
                let values = copied_literals(alloc, values.as_slice())?;
                Ok(Test::OneOf(List::from_vec(values)))
            }
        }
    }
}

/// A condition of WHERE. `places` are those of the test's literals, in order.
#[derive(Drop)]
pub enum QueryCondition {
    Join {
        left: Word,
        right: Word,
    },
    Compare {
        column: Word,
        test: Test,
        places: List<u64>,
    },
}

/// A key of ORDER BY, and whether its order falls.
#[derive(Drop)]
pub struct QueryKey {
    pub word: Word,
    pub falling: bool,
}

/// A query as its text says it, with nothing looked up in a schema.
#[derive(Drop)]
pub struct Query {
    pub items: List<QueryItem>,
    pub tables: List<Word>,
    pub conditions: List<QueryCondition>,
    pub groups: List<Word>,
    pub order: List<QueryKey>,
}
