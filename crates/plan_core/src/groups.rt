//! The planner's last three steps: groups, sums and keys.

ghost use Rattle.std.specs.Prelude.{◌≤◌, sum_by, ◌≡◌, ◌+◌, ◌<◌, ◌^◌, [], map, length, OnOk, IfOk, None, option_map};
ghost use Rattle.catalog_core.specs.LawfulSchemas.{IsSchema};
ghost use Rattle.query_bind.specs.LawfulBindings.{IsBinding};
ghost use Rattle.query_bind.specs.declared.bounds.SumOf.TheVariants as operand;
ghost use Rattle.query_bind.specs.Views.{bound_view};
ghost use Rattle.plan_core.specs.Planner.{number_of, add_column};
ghost use Rattle.plan_core.specs.WholePlan as whole;
ghost use Rattle.plan_core.specs.Sizes.{plan_size};
ghost use Rattle.plan_core.specs.Views.{read_of, row_list_view, rows_of, groups_of, summed_of, sums_of, keys_of, plan_view, grouped_view};

use crate::dimensions::{RowList, Rows, plan_rows};
use crate::planner::Planner;
use crate::plans::{Grouped, Input, Plan, SumPlace};
use catalog_core::{ColumnId, Schema};
use query_bind::{Bound, SumOf};
use std::alloc::{AllocError, Global};

/// The row list of a table.
fn list_of(lists: &[RowList], table: u32) -> Option<u32>
    ensures { result ≡ number_of table (map row_list_view lists.now) }
{
    for rows in lists {
        if rows.table == table {
            return Some(rows.number);
        }
    }
    None
}

/// A column's values in the joined rows.
fn add_column(
    planner: &mut Planner,
    bound: &Bound,
    rows: &Rows,
    id: ColumnId,
) -> Result<Input, AllocError>
    requires room { planner.old.columns + (1) < 2 ^ 32 }
    ensures made { IfOk result (λ input. read_of planner.new input ≡ add_column planner.old (bound_view bound.now) (rows_of planner.old rows.now.facts rows.now.lists.items) id) }
    ensures columns { OnOk result (planner.new.columns ≤ planner.old.columns + (1)) }
{
    if bound.fact == id.table {
        planner.values(id, rows.facts)
    } else {
        planner.values(id, list_of(rows.lists.as_slice(), id.table))
    }
}

/// The groups after all GROUP BY columns, and their values.
#[derive(Drop)]
pub struct Groups {
    pub last: Option<Grouped>,
    pub values: Vec<Input>,
}

/// Step 5.
fn add_groups(
    alloc: Global,
    planner: &mut Planner,
    bound: &Bound,
    rows: &Rows,
) -> Result<Groups, AllocError>
    requires room { planner.old.columns + (sum_by (λ id. 3) bound.now.groups) < 2 ^ 32 }
    ensures made { IfOk result (λ groups. groups_of planner.new groups.last groups.values.items ≡ whole.add_groups (bound_view bound.now) (rows_of planner.old rows.now.facts rows.now.lists.items) (groups_of planner.old None []) bound.now.groups) }
    ensures columns { OnOk result (planner.new.columns ≤ planner.old.columns + (sum_by (λ id. 3) bound.now.groups)) }
    ensures count { IfOk result (λ groups. length groups.values.items ≡ length bound.now.groups) }
{
    let mut last = None;
    let mut values = Vec::new(alloc);
    for id in bound.groups.as_slice() {
        let input = add_column(planner, bound, rows, *id)?;
        last = Some(planner.group(last, input)?);
        values.push(input)?;
    }
    Ok(Groups { last, values })
}

/// The ids that sums go by.
fn ids_of(last: Option<Grouped>) -> Option<u32>
    ensures { result ≡ option_map (λ last. last.ids) (option_map grouped_view last) }
{
    match last {
        Some(last) => Some(last.ids),
        None => None,
    }
}

/// Step 6 for one sum.
fn add_sum(
    planner: &mut Planner,
    bound: &Bound,
    rows: &Rows,
    ids: Option<u32>,
    number: u32,
    sum: SumOf,
) -> Result<SumPlace, AllocError>
    requires room { planner.old.columns + (4) < 2 ^ 32 }
    ensures made { IfOk result (λ place. summed_of planner.new place ≡ whole.add_sum planner.old (bound_view bound.now) (rows_of planner.old rows.now.facts rows.now.lists.items) ids number sum) }
    ensures columns { OnOk result (planner.new.columns ≤ planner.old.columns + (4)) }
{
    match sum {
        SumOf::Plain(id) => add_plain(planner, bound, rows, ids, number, id),
        SumOf::Product(left, right) => {
            add_product(planner, bound, rows, ids, number, left, right)
        }
        SumOf::Difference(left, right) => {
            add_difference(planner, bound, rows, ids, number, left, right)
        }
    }
}

fn add_plain(
    planner: &mut Planner,
    bound: &Bound,
    rows: &Rows,
    ids: Option<u32>,
    number: u32,
    id: ColumnId,
) -> Result<SumPlace, AllocError>
    requires room { planner.old.columns + (4) < 2 ^ 32 }
    ensures made { IfOk result (λ place. summed_of planner.new place ≡ whole.add_sum planner.old (bound_view bound.now) (rows_of planner.old rows.now.facts rows.now.lists.items) ids number (operand.Plain id)) }
    ensures columns { OnOk result (planner.new.columns ≤ planner.old.columns + (4)) }
{
    let input = add_column(planner, bound, rows, id)?;
    let first = planner.sum(input, ids, number, 1)?;
    Ok(SumPlace {
        first,
        second: None,
    })
}

fn add_product(
    planner: &mut Planner,
    bound: &Bound,
    rows: &Rows,
    ids: Option<u32>,
    number: u32,
    left: ColumnId,
    right: ColumnId,
) -> Result<SumPlace, AllocError>
    requires room { planner.old.columns + (4) < 2 ^ 32 }
    ensures made { IfOk result (λ place. summed_of planner.new place ≡ whole.add_sum planner.old (bound_view bound.now) (rows_of planner.old rows.now.facts rows.now.lists.items) ids number (operand.Product left right)) }
    ensures columns { OnOk result (planner.new.columns ≤ planner.old.columns + (4)) }
{
    let factor = add_column(planner, bound, rows, left)?;
    let other = add_column(planner, bound, rows, right)?;
    let first = planner.sum_product(factor, other, ids, number)?;
    Ok(SumPlace {
        first,
        second: None,
    })
}

fn add_difference(
    planner: &mut Planner,
    bound: &Bound,
    rows: &Rows,
    ids: Option<u32>,
    number: u32,
    left: ColumnId,
    right: ColumnId,
) -> Result<SumPlace, AllocError>
    requires room { planner.old.columns + (4) < 2 ^ 32 }
    ensures made { IfOk result (λ place. summed_of planner.new place ≡ whole.add_sum planner.old (bound_view bound.now) (rows_of planner.old rows.now.facts rows.now.lists.items) ids number (operand.Difference left right)) }
    ensures columns { OnOk result (planner.new.columns ≤ planner.old.columns + (4)) }
{
    let minuend = add_column(planner, bound, rows, left)?;
    let subtrahend = add_column(planner, bound, rows, right)?;
    let first = planner.sum(minuend, ids, number, 1)?;
    let second = Some(planner.sum(subtrahend, ids, number, 2)?);
    Ok(SumPlace { first, second })
}

/// Step 6.
fn add_sums(
    alloc: Global,
    planner: &mut Planner,
    bound: &Bound,
    rows: &Rows,
    ids: Option<u32>,
) -> Result<Vec<SumPlace>, AllocError>
    requires room { planner.old.columns + (sum_by (λ sum. 4) bound.now.sums) < 2 ^ 32 }
    requires count { length bound.now.sums < 2 ^ 32 }
    ensures made { IfOk result (λ places. sums_of planner.new places.items ≡ whole.add_sums (bound_view bound.now) (rows_of planner.old rows.now.facts rows.now.lists.items) ids 1 (sums_of planner.old []) bound.now.sums) }
    ensures columns { OnOk result (planner.new.columns ≤ planner.old.columns + (sum_by (λ sum. 4) bound.now.sums)) }
{
    let mut places = Vec::new(alloc);
    let mut number: u32 = 0;
    for sum in bound.sums.as_slice() {
        number += 1;
        places.push(add_sum(planner, bound, rows, ids, number, *sum)?)?;
    }
    Ok(places)
}

/// Step 7.
fn add_keys(
    alloc: Global,
    planner: &mut Planner,
    extents: u32,
    values: &[Input],
) -> Result<Vec<u32>, AllocError>
    requires room { planner.old.columns + (length values.now) < 2 ^ 32 }
    ensures made { IfOk result (λ keys. keys_of planner.new keys.items ≡ whole.add_keys extents (keys_of planner.old []) values.now) }
    ensures columns { OnOk result (planner.new.columns ≤ planner.old.columns + (length values.now)) }
{
    let mut keys = Vec::new(alloc);
    for input in values {
        keys.push(planner.project(*input, extents)?)?;
    }
    Ok(keys)
}

fn keys_at(
    alloc: Global,
    planner: &mut Planner,
    last: Option<Grouped>,
    values: &[Input],
) -> Result<Vec<u32>, AllocError>
    requires room { planner.old.columns + (length values.now) < 2 ^ 32 }
    ensures made { IfOk result (λ keys. keys_of planner.new keys.items ≡ whole.keys_at (option_map grouped_view last) planner.old values.now) }
    ensures columns { OnOk result (planner.new.columns ≤ planner.old.columns + (length values.now)) }
{
    match last {
        Some(last) => add_keys(alloc, planner, last.extents, values),
        None => Ok(Vec::new(alloc)),
    }
}

/// The plan of a binding, which has less than 2^32 columns.
fn make_plan(alloc: Global, bound: &Bound, schema: &Schema) -> Result<Plan, AllocError>
    requires room { plan_size bound.now.joins bound.now.conditions bound.now.groups bound.now.sums < 2 ^ 32 }
    ensures plan { IfOk result (λ plan. plan_view plan ≡ whole.plan_of (bound_view bound.now) schema.now) }
{
    let (mut planner, rows) = plan_rows(alloc, bound, schema)?;
    let groups = add_groups(alloc, &mut planner, bound, &rows)?;
    let ids = ids_of(groups.last);
    let sums = add_sums(alloc, &mut planner, bound, &rows, ids)?;
    let keys = keys_at(alloc, &mut planner, groups.last, groups.values.as_slice())?;
    Ok(planner.finish(keys, sums))
}

/// The plan of a bound query, in seven steps: the conditions and keys of each dimension, those of the fact table, the semi-joins of
/// dimensions of which nothing else is read, the joins of the others, groups, sums, and the columns of GROUP BY. The schema says which
/// keys may repeat: such a dimension is joined, too.
///
/// A choice of n literals makes n Selects and n - 1 Unions; nothing is shared between two mentions of a column. The time is that of the
/// operators, and for each dimension that of going over all conditions.
pub fn plan_of(alloc: Global, bound: &Bound, schema: &Schema) -> Result<Plan, AllocError>
    requires lawful { IsSchema schema.now }
    requires binding { IsBinding schema.now (bound_view bound.now) }
    ensures { IfOk result (λ plan. plan_view plan ≡ whole.plan_of (bound_view bound.now) schema.now) }
{
    make_plan(alloc, bound, schema)
}
