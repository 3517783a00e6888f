//! The rows of a CSV text as the columns of a table, or why the text has none.
#![tactic(auto)]

mod columns;
mod errors;
mod fields;
mod keys;
mod laws;
mod records;
mod rows;
mod tables;
#[cfg(test)]
mod tests;

pub use errors::ImportError;
pub use laws::one_import;
pub use tables::{ColumnValues, TableData, import_table};
