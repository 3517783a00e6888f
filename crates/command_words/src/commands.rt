//! The commands.

/// What to do. A table is the word that stands for it, which may be no table's name.
#[derive(Clone, Copy, Debug, PartialEq, Eq)]
pub enum Command<'a> {
    /// A table's rows are read from the input and saved.
    Import { table: &'a str },
    /// A table's rows are written.
    Export { table: &'a str },
    /// A table is saved in the schema's formats.
    Reformat { table: &'a str },
    /// The whole database is read.
    Check,
    /// The plan of the query that the input holds is written.
    Explain,
    /// The query that the input holds is answered.
    Query(QueryOptions<'a>),
    /// Queries of the program's own are answered over tables that it makes.
    Demo(DemoOptions<'a>),
    /// The commands are listed.
    Help,
}

#[derive(Clone, Copy, Debug, PartialEq, Eq)]
pub struct QueryOptions<'a> {
    /// How many numbers a vector has: 1, 2, 4, 8 or 16.
    pub lanes: u8,
    /// The name of the strategy's file, without its ending.
    pub strategy: Option<&'a str>,
    /// Whether the intermediates are listed after the rows.
    pub trace: bool,
    /// The number of the intermediate whose file is written after the rows, from 1.
    pub dump: Option<u64>,
}

#[derive(Clone, Copy, Debug, PartialEq, Eq)]
pub struct DemoOptions<'a> {
    /// How many numbers a vector has: 1, 2, 4, 8 or 16.
    pub lanes: u8,
    /// The name of the strategy's file, without its ending.
    pub strategy: Option<&'a str>,
    /// What the tables' values are drawn from.
    pub seed: u64,
    /// The number of rows of the fact table, at most 1,000,000.
    pub rows: u64,
}
