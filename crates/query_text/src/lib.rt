//! The reader of a query's text, and of several queries one after the other.
//!
//! A text is cut into tokens, which hold slices of it, and these are read by descent with one token of look-ahead, and with two where
//! `;` stands between queries. Each reader of a part gives what it read and the tokens that are left, exactly as a function on lists of
//! tokens does, and the laws of the grammar are proved of those functions.
#![tactic(auto)]

mod conditions;
mod laws;
mod lexing;
mod queries;
mod query;
mod reading;
mod stop;
mod text;
mod tokens;

pub use laws::{one_outcome, places_rise};
pub use query::{Literal, Query, QueryCondition, QueryItem, QueryKey, SumShape, Test, Word};
pub use text::{TextError, read_queries, read_query};
