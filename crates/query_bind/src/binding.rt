//! The binding of a query, step by step.

ghost use Rattle.std.specs.Prelude.{◌≡◌, ◌≤◌, length, map, IfOk};
ghost use Rattle.definitions_outcomes.specs.Computed.{Answers};
ghost use Rattle.definitions_queries.specs.Entries.{entries, max_entries};
ghost use Rattle.definitions_queries.specs.Grammar.{IsSpelled};
ghost use Rattle.catalog_core.specs.LawfulSchemas.{IsSchema};
ghost use Rattle.query_text.specs.Views.{word_view, words_view, query_view};
ghost use Rattle.query_bind.specs.Binding.{column_of, join_to, joins_of, dimensions_of, bound_of};
ghost use Rattle.query_bind.specs.LawfulBindings.{IsBinding};
ghost use Rattle.query_bind.specs.Stages.{listed_view, listed_among, listed_of, bound_in};
ghost use Rattle.query_bind.specs.Steps.{AnswersAs};
ghost use Rattle.query_bind.specs.Views.{bound_view};

use crate::bounds::{Bound, Item, JoinTo, OrderKey, SumOf};
use crate::column_index::ColumnIndex;
use crate::conditions::conditions_of;
use crate::errors::BindError;
use crate::mentions::check_columns;
use crate::name_maps::NameMap;
use crate::selection::{groups_of, items_of, order_of};
use crate::tables::{fact_of, tables_of};
use catalog_core::{ColumnId, Schema};
use query_text::{Query, Word};
use std::alloc::{AllocError, Global};
use stream_core::List;

/// The join to a dimension. There are fewer than 64.
fn join_to(joins: &[JoinTo], word: &Word, table: u32) -> Result<JoinTo, BindError>
    ensures { Answers BindError.Memory (join_to joins.now (word_view word.now, table)) result }
{
    for to in joins {
        if to.key.table == table {
            return Ok(*to);
        }
    }
    Err(BindError::JoinMissing { at: word.at })
}

/// The joins in the order of FROM: one to each dimension.
fn joins_of(
    alloc: Global,
    fact: u32,
    joins: &[JoinTo],
    words: &[Word],
    tables: &[u32],
) -> Result<Vec<JoinTo>, BindError>
    requires { length words.now ≡ length tables.now }
    ensures { AnswersAs (λ ordered. ordered.items) (joins_of fact joins.now (words_view words.now) tables.now) result }
{
    let mut ordered = Vec::new(alloc);
    for place in 0..tables.len() {
        let word = &words[place];
        let table = tables[place];
        if table == fact {
            continue;
        }
        ordered.push(join_to(joins, word, table)?)?;
    }
    Ok(ordered)
}

/// The tables of FROM but for the fact table.
fn dimensions_of(alloc: Global, fact: u32, tables: &[u32]) -> Result<Vec<u32>, AllocError>
    ensures { IfOk result (λ dimensions. dimensions.items ≡ dimensions_of fact tables.now) }
{
    let mut dimensions = Vec::new(alloc);
    for table in tables {
        if *table != fact {
            dimensions.push(*table)?;
        }
    }
    Ok(dimensions)
}

/// The columns of names that are there.
fn columns_named(
    alloc: Global,
    index: &ColumnIndex,
    words: &[Word],
) -> Result<Vec<ColumnId>, AllocError>
    ensures { IfOk result (λ columns. columns.items ≡ map (column_of index.now) (words_view words.now)) }
{
    let mut columns = Vec::with_capacity(alloc, words.len())?;
    for word in words {
        columns.push(index.column_of(word))?;
    }
    Ok(columns)
}

/// What GROUP BY, SELECT and ORDER BY say.
#[derive(Drop)]
struct Listed {
    groups: Vec<ColumnId>,
    sums: Vec<SumOf>,
    items: Vec<Item>,
    order: Vec<OrderKey>,
}

/// The items of SELECT and the keys of ORDER BY, once the names of GROUP BY have their numbers.
fn listed_among(
    alloc: Global,
    index: &ColumnIndex,
    groups: &NameMap<u32>,
    query: &Query,
) -> Result<Listed, BindError>
    requires { entries (query_view query.now) ≤ max_entries }
    ensures { AnswersAs listed_view (listed_among index.now (query_view query.now) groups.now) result }
{
    let selected = items_of(alloc, index, groups, query.items.as_slice())?;
    let order = order_of(alloc, groups, &selected.aliases, query.order.as_slice())?;
    let columns = columns_named(alloc, index, query.groups.as_slice())?;
    Ok(Listed {
        groups: columns,
        sums: selected.sums,
        items: selected.items,
        order,
    })
}

/// The columns of GROUP BY, the items of SELECT and the keys of ORDER BY.
fn listed_of(alloc: Global, index: &ColumnIndex, query: &Query) -> Result<Listed, BindError>
    requires { entries (query_view query.now) ≤ max_entries }
    ensures { AnswersAs listed_view (listed_of index.now (query_view query.now)) result }
{
    let groups = groups_of(alloc, query.groups.as_slice())?;
    listed_among(alloc, index, &groups, query)
}

/// The steps from the columns on, once the tables of FROM are known. They stand apart, as do those of the lists, so that few values are
/// let go at each exit: the check of one function with all exits took minutes.
fn bound_in(
    alloc: Global,
    query: &Query,
    index: &ColumnIndex,
    fact: u32,
    tables: &[u32],
) -> Result<Bound, BindError>
    requires count { length query.now.tables ≡ length tables.now }
    requires few { entries (query_view query.now) ≤ max_entries }
    ensures { AnswersAs bound_view (bound_in index.now (query_view query.now) tables.now fact) result }
{
    check_columns(index, tables, query)?;
    let conditions = conditions_of(alloc, index, fact, query.conditions.as_slice())?;
    let joins = joins_of(
        alloc,
        fact,
        conditions.joins.as_slice(),
        query.tables.as_slice(),
        tables,
    )?;
    let listed = listed_of(alloc, index, query)?;
    let dimensions = dimensions_of(alloc, fact, tables)?;
    Ok(Bound {
        fact,
        dimensions: List::from_vec(dimensions),
        joins: List::from_vec(joins),
        conditions: List::from_vec(conditions.tests),
        groups: List::from_vec(listed.groups),
        sums: List::from_vec(listed.sums),
        items: List::from_vec(listed.items),
        order: List::from_vec(listed.order),
    })
}

/// What a query says of the tables of a schema, or its first refusal, in the order of the steps: the tables of FROM, the fact table,
/// the columns that are named, the conditions, missing joins, GROUP BY and SELECT, and ORDER BY.
///
/// The columns of the schema are put into an index first, and each name is looked up there, so the time grows with the query's length
/// and the schema's. A binding keeps copies of the literals and nothing else of the query.
pub fn bind(alloc: Global, query: &Query, schema: &Schema) -> Result<Bound, BindError>
    requires lawful { IsSchema schema.now }
    requires few { entries (query_view query.now) ≤ max_entries }
    ensures bound { AnswersAs bound_view (bound_of schema.now (query_view query.now)) result }
    ensures lawful { IfOk result (λ bound. IsSpelled (query_view query.now) → IsBinding schema.now (bound_view bound)) }
{
    let tables = tables_of(alloc, schema, query.tables.as_slice())?;
    let fact = fact_of(schema, query.tables.as_slice(), tables.as_slice())?;
    let index = ColumnIndex::new(alloc, schema)?;
    bound_in(alloc, query, &index, fact, tables.as_slice())
}
