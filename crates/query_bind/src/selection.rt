//! The columns of GROUP BY, the items of SELECT and the keys of ORDER BY.

ghost use Rattle.std.specs.Prelude.{◌≡◌, ◌≢◌, ◌≤◌, ◌<◌, ◌+◌, length, map, Ok, Err, IfErr, OnOk, option_map};
ghost use Rattle.definitions_outcomes.specs.Computed.{Answers};
ghost use Rattle.definitions_queries.specs.Entries.{max_entries};
ghost use Rattle.query_text.specs.Views.{word_view, words_view, shape_view, item_view, items_view, key_view, keys_view};
ghost use Rattle.query_bind.specs.Binding.{next_group, groups_of, operand_in, shaped, second_in, sum_in, alias_in, next_item, items_of, or_group, key_in, order_of};
ghost use Rattle.query_bind.specs.NameMaps.{value_of};
ghost use Rattle.query_bind.specs.Steps.{AnswersAs};
ghost use Rattle.query_bind.specs.Views.{selected_view};

use crate::alias_map::AliasMap;
use crate::bounds::{Item, OrderKey, SumOf};
use crate::column_index::ColumnIndex;
use crate::errors::BindError;
use crate::name_maps::NameMap;
use catalog_core::{ColumnId, Kind};
use query_text::{QueryItem, QueryKey, SumShape, Word};
use std::alloc::Global;

/// The items of SELECT so far, with the number of the sum of each alias.
#[derive(Drop)]
pub struct Selected<'a> {
    pub items: Vec<Item>,
    pub sums: Vec<SumOf>,
    pub aliases: AliasMap<'a>,
}

/// Adds a column of GROUP BY, which was not named before.
fn push_group<'a>(
    groups: &mut NameMap<'a, u32>,
    number: u32,
    word: &'a Word,
) -> Result<(), BindError>
    requires { number ≡ length groups.old }
    ensures next { OnOk result (next_group groups.old (word_view word.now) ≡ Ok groups.new) }
    ensures refused { IfErr result (λ error. error ≢ BindError.Memory → next_group groups.old (word_view word.now) ≡ Err error) }
{
    if groups.insert(word.text.as_slice(), number)? {
        Ok(())
    } else {
        Err(BindError::NameTwice { at: word.at })
    }
}

/// The names of GROUP BY with their numbers.
pub fn groups_of<'a>(alloc: Global, words: &'a [Word]) -> Result<NameMap<'a, u32>, BindError>
    requires { length words.now ≤ max_entries }
    ensures { AnswersAs (λ groups. groups) (groups_of (words_view words.now)) result }
{
    let mut groups = NameMap::new(alloc);
    let mut number = 0u32;
    for word in words {
        push_group(&mut groups, number, word)?;
        number += 1;
    }
    Ok(groups)
}

/// A column inside a sum.
fn operand_in(index: &ColumnIndex, word: &Word) -> Result<ColumnId, BindError>
    ensures { Answers BindError.Memory (operand_in index.now (word_view word.now)) result }
{
    let column = index.column_of(word);
    if index.kind_of(column) != Kind::Number {
        return Err(BindError::TypeMismatch { at: word.at });
    }
    Ok(column)
}

fn shaped(shape: SumShape, first: ColumnId, second: ColumnId) -> SumOf
    ensures { result ≡ shaped (shape_view shape) first second }
{
    match shape {
        SumShape::Plain => SumOf::Plain(first),
        SumShape::Product => SumOf::Product(first, second),
        SumShape::Difference => SumOf::Difference(first, second),
    }
}

fn second_in(
    index: &ColumnIndex,
    shape: SumShape,
    first: ColumnId,
    second: &Option<Word>,
) -> Result<SumOf, BindError>
    ensures { Answers BindError.Memory (second_in index.now (shape_view shape) first (option_map word_view second.now)) result }
{
    match second {
        None => Ok(SumOf::Plain(first)),
        Some(word) => {
            let second = operand_in(index, word)?;
            Ok(shaped(shape, first, second))
        }
    }
}

fn sum_in(
    index: &ColumnIndex,
    shape: SumShape,
    first: &Word,
    second: &Option<Word>,
) -> Result<SumOf, BindError>
    ensures { Answers BindError.Memory (sum_in index.now (shape_view shape) (word_view first.now) (option_map word_view second.now)) result }
{
    let operand = operand_in(index, first)?;
    second_in(index, shape, operand, second)
}

/// Adds an alias, which is no column of GROUP BY and no earlier alias.
fn push_alias<'a>(
    groups: &NameMap<'a, u32>,
    aliases: &mut AliasMap<'a>,
    number: u32,
    alias: &'a Option<Word>,
) -> Result<(), BindError>
    ensures next { OnOk result (alias_in groups.now aliases.old number (option_map word_view alias.now) ≡ Ok aliases.new) }
    ensures refused { IfErr result (λ error. error ≢ BindError.Memory → alias_in groups.now aliases.old number (option_map word_view alias.now) ≡ Err error) }
{
    let Some(word) = alias else {
        return Ok(());
    };
    if groups.get(word.text.as_slice()).is_some() {
        return Err(BindError::NameTwice { at: word.at });
    }
    if aliases.insert(word.text.as_slice(), number)? {
        Ok(())
    } else {
        Err(BindError::NameTwice { at: word.at })
    }
}

/// Adds an item to those before it.
fn push_item<'a>(
    index: &ColumnIndex,
    groups: &NameMap<'a, u32>,
    selected: &mut Selected<'a>,
    item: &'a QueryItem,
) -> Result<(), BindError>
    requires { length selected.old.sums.items < max_entries }
    ensures next { OnOk result (next_item index.now groups.now (selected_view selected.old) (item_view item.now) ≡ Ok (selected_view selected.new)) }
    ensures refused { IfErr result (λ error. error ≢ BindError.Memory → next_item index.now groups.now (selected_view selected.old) (item_view item.now) ≡ Err error) }
    ensures count { OnOk result (length selected.new.sums.items ≤ length selected.old.sums.items + 1) }
{
    match item {
        QueryItem::Column(word) => {
            let Some(number) = groups.get(word.text.as_slice()) else {
                return Err(BindError::GroupMismatch { at: word.at });
            };
            selected.items.push(Item::Group(number))?;
        }
        QueryItem::Sum {
            shape,
            first,
            second,
            alias,
        } => {
            let sum = sum_in(index, *shape, first, second)?;
            let number = selected.sums.len() as u32;
            push_alias(groups, &mut selected.aliases, number, alias)?;
            selected.items.push(Item::Sum(number))?;
            selected.sums.push(sum)?;
        }
    }
    Ok(())
}

/// The items of SELECT.
pub fn items_of<'a>(
    alloc: Global,
    index: &ColumnIndex,
    groups: &NameMap<'a, u32>,
    items: &'a [QueryItem],
) -> Result<Selected<'a>, BindError>
    requires { length items.now ≤ max_entries }
    ensures { AnswersAs selected_view (items_of index.now groups.now (items_view items.now)) result }
{
    let mut selected = Selected {
        items: Vec::new(alloc),
        sums: Vec::new(alloc),
        aliases: AliasMap::new(alloc),
    };
    for item in items {
        push_item(index, groups, &mut selected, item)?;
    }
    Ok(selected)
}

/// What a name of ORDER BY stands for.
fn item_named(groups: &NameMap<u32>, aliases: &AliasMap, name: &[u8]) -> Option<Item>
    ensures { result ≡ or_group groups.now name.now (value_of aliases.now name.now) }
{
    if let Some(number) = aliases.get(name) {
        return Some(Item::Sum(number));
    }
    match groups.get(name) {
        Some(number) => Some(Item::Group(number)),
        None => None,
    }
}

fn key_in(groups: &NameMap<u32>, aliases: &AliasMap, key: &QueryKey) -> Result<OrderKey, BindError>
    ensures { Answers BindError.Memory (key_in groups.now aliases.now (key_view key.now)) result }
{
    match item_named(groups, aliases, key.word.text.as_slice()) {
        Some(item) => Ok(OrderKey {
            item,
            falling: key.falling,
        }),
        None => Err(BindError::OrderUnknown { at: key.word.at }),
    }
}

/// The keys of ORDER BY.
pub fn order_of(
    alloc: Global,
    groups: &NameMap<u32>,
    aliases: &AliasMap,
    keys: &[QueryKey],
) -> Result<Vec<OrderKey>, BindError>
    ensures { AnswersAs (λ order. order.items) (order_of groups.now aliases.now (keys_view keys.now)) result }
{
    let mut order = Vec::new(alloc);
    for key in keys {
        order.push(key_in(groups, aliases, key)?)?;
    }
    Ok(order)
}
