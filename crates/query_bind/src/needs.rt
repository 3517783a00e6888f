//! The tables and columns of a database that a bound query reads.

ghost use Rattle.std.specs.Prelude.{◌≡◌, ◌↔◌, ◌++◌, ℕ, map, IfOk, OnOk};
ghost use Rattle.std.specs.List.{dedup, flat_map, Contains};
ghost use Rattle.std.specs.List.Sorted.{IsPermutation, IsSorted};
ghost use Rattle.std.specs.Ordering.{nat_cmp};
ghost use Rattle.catalog_core.specs.Columns.{IsNeeds};
ghost use Rattle.catalog_core.specs.declared.schemas.Schema.{Schema};
ghost use Rattle.catalog_core.specs.declared.columns.ColumnId.{ColumnId};
ghost use Rattle.query_bind.specs.LawfulBindings.{IsBinding, from_tables, operands};
ghost use Rattle.query_bind.specs.Needed.{join_columns, named_columns, is_column, needs_in};
ghost use Rattle.query_bind.specs.Orders.{column_cmp, AreOnce};
ghost use Rattle.query_bind.specs.Views.{bound_view};

use crate::bounds::{Bound, Condition, JoinTo, SumOf};
use catalog_core::{ColumnId, Needs};
use std::alloc::{AllocError, Global};
use std::cmp::Ordering;
use stream_core::List;

/// The tables of FROM, the fact table first.
fn from_tables(alloc: Global, bound: &Bound) -> Result<Vec<u32>, AllocError>
    ensures { IfOk result (λ tables. tables.items ≡ from_tables (bound_view bound.now)) }
{
    let mut tables = vec![in alloc; bound.fact]?;
    tables.extend_from_slice(bound.dimensions.as_slice())?;
    Ok(tables)
}

fn push_joins(columns: &mut Vec<ColumnId>, joins: &[JoinTo]) -> Result<(), AllocError>
    ensures { OnOk result (columns.new.items ≡ columns.old.items ++ flat_map join_columns joins.now) }
{
    for place in 0..joins.len() {
        let to = joins[place];
        columns.extend_from_slice(&[to.fact_column, to.key])?;
    }
    Ok(())
}

fn push_tested(columns: &mut Vec<ColumnId>, conditions: &[Condition]) -> Result<(), AllocError>
    ensures { OnOk result (columns.new.items ≡ columns.old.items ++ map (λ condition. condition.column) conditions.now) }
{
    for condition in conditions {
        columns.push(condition.column)?;
    }
    Ok(())
}

fn push_operands(columns: &mut Vec<ColumnId>, sum: SumOf) -> Result<(), AllocError>
    ensures { OnOk result (columns.new.items ≡ columns.old.items ++ operands sum) }
{
    match sum {
        SumOf::Plain(column) => columns.push(column)?,
        SumOf::Product(first, second) | SumOf::Difference(first, second) => {
            columns.extend_from_slice(&[first, second])?;
        }
    }
    Ok(())
}

fn push_sums(columns: &mut Vec<ColumnId>, sums: &[SumOf]) -> Result<(), AllocError>
    ensures { OnOk result (columns.new.items ≡ columns.old.items ++ flat_map operands sums.now) }
{
    for place in 0..sums.len() {
        push_operands(columns, sums[place])?;
    }
    Ok(())
}

/// The columns of joins, tests, groups and sums, as often as they are named.
fn named_columns(alloc: Global, bound: &Bound) -> Result<Vec<ColumnId>, AllocError>
    ensures { IfOk result (λ columns. columns.items ≡ named_columns (bound_view bound.now)) }
{
    let mut columns = Vec::new(alloc);
    push_joins(&mut columns, bound.joins.as_slice())?;
    push_tested(&mut columns, bound.conditions.as_slice())?;
    columns.extend_from_slice(bound.groups.as_slice())?;
    push_sums(&mut columns, bound.sums.as_slice())?;
    Ok(columns)
}

/// Which of two columns comes first in a schema.
fn order(id: &ColumnId, other: &ColumnId) -> Ordering
    ensures { result ≡ column_cmp id.now other.now }
{
    id.table
        .cmp(&other.table)
        .then(id.column.cmp(&other.column))
}

fn sort(columns: &mut Vec<ColumnId>)
    ensures permutation { IsPermutation columns.old.items columns.new.items }
    ensures sorted { IsSorted column_cmp columns.new.items }
{
    columns.sort_unstable_by(|id, other| order(id, other));
}

/// Drops each column that is the one before it.
fn drop_repeated(columns: &mut Vec<ColumnId>)
    ensures { columns.new.items ≡ dedup is_column columns.old.items }
{
    columns.dedup();
}

/// Leaves each table once, in order.
fn sort_tables(tables: &mut Vec<u32>)
    ensures { AreOnce nat_cmp tables.old.items tables.new.items }
{
    tables.sort_unstable();
    tables.dedup();
}

/// Leaves each column once, in the order of a schema.
fn sort_columns(columns: &mut Vec<ColumnId>)
    ensures { AreOnce column_cmp columns.old.items columns.new.items }
{
    sort(columns);
    drop_repeated(columns);
}

/// The tables of FROM, and the columns of joins, their keys among them, of conditions, groups and sums: what is to be opened for the
/// query. Each stands once, in the order of the schema. The columns are sorted, so the time for n names is n log n.
pub fn needs_of(alloc: Global, bound: &Bound) -> Result<Needs, AllocError>
    ensures tables { IfOk result (λ needs. (table : ℕ) → Contains needs.tables table ↔ Contains (from_tables (bound_view bound.now)) table) }
    ensures columns { IfOk result (λ needs. (id : ColumnId) → Contains needs.columns id ↔ Contains (named_columns (bound_view bound.now)) id) }
    ensures needs { IfOk result (λ needs. (schema : Schema) → IsBinding schema (bound_view bound.now) → needs ≡ needs_in schema (bound_view bound.now)) }
    ensures ordered { IfOk result (λ needs. (schema : Schema) → IsBinding schema (bound_view bound.now) → IsNeeds schema needs) }
{
    let mut tables = from_tables(alloc, bound)?;
    let mut columns = named_columns(alloc, bound)?;
    sort_tables(&mut tables);
    sort_columns(&mut columns);
    Ok(Needs {
        tables: List::from_vec(tables),
        columns: List::from_vec(columns),
    })
}
