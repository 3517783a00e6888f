//! What a schema says of a database.

use block_core::FormatChoice;
use stream_core::{List, Name};

/// Whether a table has the measures or describes them.
#[derive(Clone, Copy, Debug, PartialEq, Eq)]
pub enum Role {
    /// It has the measures, and the keys of dimensions.
    Fact,
    /// It describes what a key of the fact table stands for.
    Dimension,
}

/// What a column's values are.
#[derive(Clone, Copy, Debug, PartialEq, Eq)]
pub enum Kind {
    /// 64-bit numbers.
    Number,
    /// Texts, which are stored as codes of the column's dictionary.
    Text,
}

/// A column of the schema.
#[derive(Drop)]
pub struct ColumnDef {
    pub name: Name,
    pub kind: Kind,
    /// The format in which the column's file is written.
    pub format: FormatChoice,
}

/// A table of the schema.
#[derive(Drop)]
pub struct TableDef {
    pub name: Name,
    pub role: Role,
    /// The place of a dimension's key column, from 0.
    pub key: Option<u32>,
    /// The byte between the fields of the table's CSV texts.
    pub separator: u8,
    /// Whether the first record of such a text has the columns' names.
    pub header: bool,
    /// Whether a record of it may end with a separator.
    pub trailing: bool,
    /// Whether rows of a dimension may have equal keys.
    pub repeats: bool,
    pub columns: List<ColumnDef>,
}

/// The tables in the order of the file.
#[derive(Drop)]
pub struct Schema {
    pub tables: List<TableDef>,
}
