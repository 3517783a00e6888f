//! Whether the columns that a query names are of its tables, in the order in which they are looked up.

ghost use Rattle.std.specs.Prelude.{◌≡◌, nat_eq};
ghost use Rattle.std.specs.List.{flat_map, list_any};
ghost use Rattle.definitions_outcomes.specs.Computed.{Answers};
ghost use Rattle.query_text.specs.Views.{word_view, words_view, item_view, items_view, condition_view, conditions_view, query_view};
ghost use Rattle.query_bind.specs.Binding.{item_words, condition_words, mentioned, column_in, are_of_from};

use crate::column_index::ColumnIndex;
use crate::errors::BindError;
use catalog_core::ColumnId;
use query_text::{Query, QueryCondition, QueryItem, Word};

/// Whether a table stands in FROM. There are at most 64.
fn is_in(tables: &[u32], table: u32) -> bool
    ensures { result ≡ list_any (nat_eq table) tables.now }
{
    tables.contains(&table)
}

/// The column of a name, whose table stands in FROM.
fn column_in(index: &ColumnIndex, tables: &[u32], word: &Word) -> Result<ColumnId, BindError>
    ensures { Answers BindError.Memory (column_in index.now tables.now (word_view word.now)) result }
{
    let Some(id) = index.column_named(word.text.as_slice()) else {
        return Err(BindError::UnknownColumn { at: word.at });
    };
    if !is_in(tables, id.table) {
        return Err(BindError::NotInFrom { at: word.at });
    }
    Ok(id)
}

/// Looks at the columns that an item names. An alias is none.
fn check_item(index: &ColumnIndex, tables: &[u32], item: &QueryItem) -> Result<(), BindError>
    ensures { Answers BindError.Memory (are_of_from index.now tables.now (item_words (item_view item.now))) result }
{
    match item {
        QueryItem::Column(word) => {
            column_in(index, tables, word)?;
        }
        QueryItem::Sum { first, second, .. } => {
            column_in(index, tables, first)?;
            if let Some(second) = second {
                column_in(index, tables, second)?;
            }
        }
    }
    Ok(())
}

fn check_items(index: &ColumnIndex, tables: &[u32], items: &[QueryItem]) -> Result<(), BindError>
    ensures { Answers BindError.Memory (are_of_from index.now tables.now (flat_map item_words (items_view items.now))) result }
{
    for item in items {
        check_item(index, tables, item)?;
    }
    Ok(())
}

/// Looks at the columns that a condition names.
fn check_condition(
    index: &ColumnIndex,
    tables: &[u32],
    condition: &QueryCondition,
) -> Result<(), BindError>
    ensures { Answers BindError.Memory (are_of_from index.now tables.now (condition_words (condition_view condition.now))) result }
{
    match condition {
        QueryCondition::Join { left, right } => {
            column_in(index, tables, left)?;
            column_in(index, tables, right)?;
        }
        QueryCondition::Compare { column, .. } => {
            column_in(index, tables, column)?;
        }
    }
    Ok(())
}

fn check_conditions(
    index: &ColumnIndex,
    tables: &[u32],
    conditions: &[QueryCondition],
) -> Result<(), BindError>
    ensures { Answers BindError.Memory (are_of_from index.now tables.now (flat_map condition_words (conditions_view conditions.now))) result }
{
    for condition in conditions {
        check_condition(index, tables, condition)?;
    }
    Ok(())
}

fn check_words(index: &ColumnIndex, tables: &[u32], words: &[Word]) -> Result<(), BindError>
    ensures { Answers BindError.Memory (are_of_from index.now tables.now (words_view words.now)) result }
{
    for word in words {
        column_in(index, tables, word)?;
    }
    Ok(())
}

/// Whether the columns that a query names are of tables of FROM.
pub fn check_columns(index: &ColumnIndex, tables: &[u32], query: &Query) -> Result<(), BindError>
    ensures { Answers BindError.Memory (are_of_from index.now tables.now (mentioned (query_view query.now))) result }
{
    check_items(index, tables, query.items.as_slice())?;
    check_conditions(index, tables, query.conditions.as_slice())?;
    check_words(index, tables, query.groups.as_slice())
}
