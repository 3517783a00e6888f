//! What a bound query says: tables and columns by number in place of names.

use catalog_core::ColumnId;
use query_text::Test;
use stream_core::List;

/// A number column of the fact table, and the key of the dimension whose rows it names.
#[derive(Clone, Copy, Debug, PartialEq, Eq)]
pub struct JoinTo {
    pub fact_column: ColumnId,
    pub key: ColumnId,
}

/// A column and what its values are tested for. The literals are numbers for a number column and texts for a text column.
#[derive(Drop)]
pub struct Condition {
    pub column: ColumnId,
    pub test: Test,
}

/// What is summed: a number column, or two of them.
#[derive(Clone, Copy, Debug, PartialEq, Eq)]
pub enum SumOf {
    Plain(ColumnId),
    /// The product of both in each row.
    Product(ColumnId, ColumnId),
    /// The sum of the first less the sum of the second.
    Difference(ColumnId, ColumnId),
}

/// What stands in a place of an answer row, by its number in `groups` or in `sums` of a `Bound`, from 0.
#[derive(Clone, Copy, Debug, PartialEq, Eq)]
pub enum Item {
    Group(u32),
    Sum(u32),
}

/// A key by which answer rows are sorted. `falling` turns its order round.
#[derive(Clone, Copy, Debug, PartialEq, Eq)]
pub struct OrderKey {
    pub item: Item,
    pub falling: bool,
}

/// A query bound to a schema. Tables are numbers of the schema's tables.
#[derive(Drop)]
pub struct Bound {
    pub fact: u32,
    /// The other tables of FROM, in its order.
    pub dimensions: List<u32>,
    /// One for each dimension, in the order of FROM.
    pub joins: List<JoinTo>,
    /// The other conditions, in the order of WHERE.
    pub conditions: List<Condition>,
    /// The columns of GROUP BY, in its order.
    pub groups: List<ColumnId>,
    /// The sums of SELECT, in its order.
    pub sums: List<SumOf>,
    /// All items of SELECT, in its order.
    pub items: List<Item>,
    pub order: List<OrderKey>,
}
