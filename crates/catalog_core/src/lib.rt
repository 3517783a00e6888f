//! What a database is: its schema, read from the text of its file, and the dictionaries of its text columns.
#![tactic(auto)]

mod columns;
mod dictionary;
mod dictionary_laws;
mod dictionary_making;
mod dictionary_reading;
mod dictionary_search;
mod errors;
mod laws;
mod members;
mod names;
mod schema_reading;
mod schemas;
mod short_texts;

pub use columns::{ColumnId, Needs};
pub use dictionary::Dictionary;
pub use dictionary_laws::{codes_and_ranks, one_dictionary, one_dictionary_fault, one_distinct};
pub use errors::{DictError, SchemaError};
pub use laws::one_schema;
pub use schema_reading::read_schema;
pub use schemas::{ColumnDef, Kind, Role, Schema, TableDef};
