//! The tables of FROM, and the fact table among them.

ghost use Rattle.std.specs.Prelude.{◌≡◌, ◌<◌, length, IfOk};
ghost use Rattle.definitions_outcomes.specs.Computed.{Answers};
ghost use Rattle.catalog_core.specs.LawfulSchemas.{IsSchema};
ghost use Rattle.catalog_core.specs.Columns.{table_named};
ghost use Rattle.query_text.specs.Views.{word_view, words_view};
ghost use Rattle.query_bind.specs.Binding.{is_fact, table_in, tables_of, first_place, fact_of};
ghost use Rattle.query_bind.specs.Steps.{AnswersAs};

use crate::errors::BindError;
use catalog_core::{Role, Schema};
use query_text::Word;
use std::alloc::Global;

/// The number of the table of a name.
fn table_named(schema: &Schema, name: &[u8]) -> Option<usize>
    ensures { result ≡ table_named schema.now name.now }
{
    schema
        .tables
        .as_slice()
        .iter()
        .position(|table| name == table.name.as_str().as_bytes())
}

/// A table of FROM that was not named before.
fn table_in(schema: &Schema, earlier: &[u32], word: &Word) -> Result<u32, BindError>
    requires { IsSchema schema.now }
    ensures table { Answers BindError.Memory (table_in schema.now earlier.now (word_view word.now)) result }
    ensures within { IfOk result (λ table. table < length schema.now.tables) }
{
    let Some(table) = table_named(schema, word.text.as_slice()) else {
        return Err(BindError::UnknownTable { at: word.at });
    };
    let table = table as u32;
    if earlier.contains(&table) {
        return Err(BindError::NameTwice { at: word.at });
    }
    Ok(table)
}

/// The tables of FROM.
pub fn tables_of(alloc: Global, schema: &Schema, words: &[Word]) -> Result<Vec<u32>, BindError>
    requires { IsSchema schema.now }
    ensures tables { AnswersAs (λ tables. tables.items) (tables_of schema.now (words_view words.now)) result }
    ensures count { IfOk result (λ tables. length tables.items ≡ length words.now) }
{
    let mut tables = Vec::new(alloc);
    for word in words {
        let table = table_in(schema, tables.as_slice(), word)?;
        tables.push(table)?;
    }
    Ok(tables)
}

/// Whether a table is a fact table.
fn is_fact(schema: &Schema, table: u32) -> bool
    ensures { result ≡ is_fact schema.now table }
{
    match schema.tables.as_slice().get(table as usize) {
        Some(table) => table.role == Role::Fact,
        None => false,
    }
}

/// Where the first name of FROM stands in the text.
fn first_place(words: &[Word]) -> u64
    ensures { result ≡ first_place (words_view words.now) }
{
    match words.first() {
        Some(word) => word.at,
        None => 0,
    }
}

/// The one fact table of FROM.
pub fn fact_of(schema: &Schema, words: &[Word], tables: &[u32]) -> Result<u32, BindError>
    requires { length words.now ≡ length tables.now }
    ensures { Answers BindError.Memory (fact_of schema.now (words_view words.now) tables.now) result }
{
    let mut fact = None;
    for place in 0..tables.len() {
        let word = &words[place];
        let table = tables[place];
        if !is_fact(schema, table) {
            continue;
        }
        if fact.is_some() {
            return Err(BindError::FactCount { at: word.at });
        }
        fact = Some(table);
    }
    match fact {
        Some(table) => Ok(table),
        None => Err(BindError::FactCount {
            at: first_place(words),
        }),
    }
}
