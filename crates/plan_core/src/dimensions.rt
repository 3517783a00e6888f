//! The planner's four steps that make the fact list and the row lists.

ghost use Rattle.std.specs.Prelude.{◌≡◌, ◌≤◌, ◌<◌, ◌^◌, sum_by, ◌==◌, ◌+◌, [], not, map, filter, length, OnOk, IfOk, None};
ghost use Rattle.std.specs.List.{list_any};
ghost use Rattle.query_bind.specs.LawfulBindings.{operands};
ghost use Rattle.query_bind.specs.Views.{bound_view};
ghost use Rattle.plan_core.specs.Planner.{add_dimension, add_dimensions, add_semi_joins, add_row_lists, add_join, add_joins, plan_rows, is_wanted, is_joined, repeats};
ghost use Rattle.plan_core.specs.Sizes.{sizes_of, rows_size};
ghost use Rattle.plan_core.specs.Views.{listed_of, dimension_view, dimensions_of, row_list_view, rows_of};

use crate::planner::Planner;
use crate::plans::Input;
use catalog_core::{ColumnId, Schema};
use query_bind::{Bound, JoinTo, SumOf};
use std::alloc::{AllocError, Global};

/// A dimension after step 1: its position list, if it has conditions, and its keys.
#[derive(Clone, Copy, Debug)]
pub struct Dimension {
    pub to: JoinTo,
    pub list: Option<u32>,
    pub keys: Input,
}

/// The row list of a joined dimension.
#[derive(Clone, Copy, Debug)]
pub struct RowList {
    pub table: u32,
    pub number: u32,
}

/// Step 1 for one dimension.
fn add_one(
    alloc: Global,
    planner: &mut Planner,
    bound: &Bound,
    to: JoinTo,
) -> Result<Dimension, AllocError>
    requires room { planner.old.columns + (sizes_of bound.now.conditions + 1) < 2 ^ 32 }
    ensures dimension { IfOk result (λ dimension. let read = add_dimension planner.old (bound_view bound.now) to in (planner.new ≡ read.0.steps) × (dimension_view dimension ≡ record { to = to; list = read.1; keys = read.0.input })) }
    ensures columns { OnOk result (planner.new.columns ≤ planner.old.columns + (sizes_of bound.now.conditions + 1)) }
{
    let list = planner.condition_list(alloc, to.key.table, bound.conditions.as_slice())?;
    let keys = planner.values(to.key, list)?;
    Ok(Dimension { to, list, keys })
}

/// Step 1.
fn add_all(
    alloc: Global,
    planner: &mut Planner,
    bound: &Bound,
) -> Result<Vec<Dimension>, AllocError>
    requires room { planner.old.columns + (sum_by (λ to. sizes_of bound.now.conditions + 1) bound.now.joins) < 2 ^ 32 }
    ensures made { IfOk result (λ dimensions. dimensions_of planner.new dimensions.items ≡ add_dimensions planner.old (bound_view bound.now) bound.now.joins []) }
    ensures columns { OnOk result (planner.new.columns ≤ planner.old.columns + (sum_by (λ to. sizes_of bound.now.conditions + 1) bound.now.joins)) }
    ensures count { IfOk result (λ dimensions. length dimensions.items ≡ length bound.now.joins) }
{
    let mut done = Vec::new(alloc);
    for to in bound.joins.as_slice() {
        done.push(add_one(alloc, planner, bound, *to)?)?;
    }
    Ok(done)
}

/// Whether a sum reads a column of the table.
fn reads(sum: SumOf, table: u32) -> bool
    ensures { result ≡ list_any (λ column. column.table == table) (operands sum) }
{
    match sum {
        SumOf::Plain(id) => id.table == table,
        SumOf::Product(first, second) => first.table == table || second.table == table,
        SumOf::Difference(first, second) => first.table == table || second.table == table,
    }
}

/// Whether one of the columns is of the table.
fn has_column(columns: &[ColumnId], table: u32) -> bool
    ensures { result ≡ list_any (λ column. column.table == table) columns.now }
{
    for id in columns {
        if id.table == table {
            return true;
        }
    }
    false
}

/// Whether one of the sums reads a column of the table.
fn has_operand(sums: &[SumOf], table: u32) -> bool
    ensures { result ≡ list_any (λ sum. list_any (λ column. column.table == table) (operands sum)) sums.now }
{
    for sum in sums {
        if reads(*sum, table) {
            return true;
        }
    }
    false
}

/// Whether a column of the table stands in GROUP BY or in a sum.
fn is_wanted(bound: &Bound, table: u32) -> bool
    ensures { result ≡ is_wanted (bound_view bound.now) table }
{
    has_column(bound.groups.as_slice(), table) || has_operand(bound.sums.as_slice(), table)
}

/// Whether the keys of a table may repeat.
fn repeats(schema: &Schema, table: u32) -> bool
    ensures { result ≡ repeats schema.now table }
{
    match schema.tables.as_slice().get(table as usize) {
        Some(table) => table.repeats,
        None => false,
    }
}

/// Whether a dimension is joined and not only semi-joined.
fn is_joined(bound: &Bound, schema: &Schema, to: JoinTo) -> bool
    ensures { result ≡ is_joined (bound_view bound.now) schema.now to }
{
    is_wanted(bound, to.key.table) || repeats(schema, to.key.table)
}

/// Step 3.
fn add_semi_joins(
    planner: &mut Planner,
    bound: &Bound,
    schema: &Schema,
    facts: Option<u32>,
    dimensions: &[Dimension],
) -> Result<Option<u32>, AllocError>
    requires room { planner.old.columns + (sum_by (λ dimension. 2) dimensions.now) < 2 ^ 32 }
    ensures made { IfOk result (λ list. listed_of planner.new list ≡ add_semi_joins (listed_of planner.old facts) (filter (λ dimension. not (is_joined (bound_view bound.now) schema.now dimension.to)) (map dimension_view dimensions.now))) }
    ensures columns { OnOk result (planner.new.columns ≤ planner.old.columns + (sum_by (λ dimension. 2) dimensions.now)) }
{
    let mut running = facts;
    for dimension in dimensions {
        if !is_joined(bound, schema, dimension.to) {
            let new = planner.semi_join(dimension.to.fact_column, dimension.keys)?;
            running = Some(planner.combine(running, new)?);
        }
    }
    Ok(running)
}

/// The row lists so far, each at the places of a Join's left output.
fn add_row_lists(
    alloc: Global,
    planner: &mut Planner,
    lists: &[RowList],
    left: u32,
) -> Result<Vec<RowList>, AllocError>
    requires room { planner.old.columns + (length lists.now) < 2 ^ 32 }
    ensures made { IfOk result (λ done. rows_of planner.new None done.items ≡ add_row_lists planner.old [] (map row_list_view lists.now) left) }
    ensures columns { OnOk result (planner.new.columns ≤ planner.old.columns + (length lists.now)) }
    ensures count { IfOk result (λ done. length done.items ≡ length lists.now) }
{
    let mut done = Vec::new(alloc);
    for rows in lists {
        let number = planner.project(Input::Made(rows.number), left)?;
        let table = rows.table;
        done.push(RowList { table, number })?;
    }
    Ok(done)
}

/// The fact list and the row lists of the dimensions joined so far.
#[derive(Drop)]
pub struct Rows {
    pub facts: Option<u32>,
    pub lists: Vec<RowList>,
}

/// Step 4 for one dimension.
fn add_join(
    alloc: Global,
    planner: &mut Planner,
    rows: Rows,
    dimension: Dimension,
) -> Result<Rows, AllocError>
    requires room { planner.old.columns + (5 + length rows.lists.items) < 2 ^ 32 }
    ensures made { IfOk result (λ after. rows_of planner.new after.facts after.lists.items ≡ add_join (rows_of planner.old rows.facts rows.lists.items) (dimension_view dimension)) }
    ensures columns { OnOk result (planner.new.columns ≤ planner.old.columns + (5 + length rows.lists.items)) }
    ensures count { IfOk result (λ after. length after.lists.items ≡ length rows.lists.items + 1) }
{
    let probe = planner.values(dimension.to.fact_column, rows.facts)?;
    let (left, right) = planner.join(probe, dimension.keys)?;
    let facts = planner.places(rows.facts, left)?;
    let mut lists = add_row_lists(alloc, planner, rows.lists.as_slice(), left)?;
    let number = planner.places(dimension.list, right)?;
    let table = dimension.to.key.table;
    lists.push(RowList { table, number })?;
    Ok(Rows {
        facts: Some(facts),
        lists,
    })
}

/// Step 4.
fn add_joins(
    alloc: Global,
    planner: &mut Planner,
    bound: &Bound,
    schema: &Schema,
    facts: Option<u32>,
    dimensions: &[Dimension],
) -> Result<Rows, AllocError>
    requires room { planner.old.columns + (sum_by (λ dimension. 5 + length dimensions.now) dimensions.now) < 2 ^ 32 }
    ensures made { IfOk result (λ after. rows_of planner.new after.facts after.lists.items ≡ add_joins (rows_of planner.old facts []) (filter (λ dimension. is_joined (bound_view bound.now) schema.now dimension.to) (map dimension_view dimensions.now))) }
    ensures columns { OnOk result (planner.new.columns ≤ planner.old.columns + (sum_by (λ dimension. 5 + length dimensions.now) dimensions.now)) }
{
    let mut rows = Rows {
        facts,
        lists: Vec::new(alloc),
    };
    for dimension in dimensions {
        if is_joined(bound, schema, dimension.to) {
            rows = add_join(alloc, planner, rows, *dimension)?;
        }
    }
    Ok(rows)
}

/// Steps 1 to 4: the plan of the fact list and of the row lists.
pub fn plan_rows(
    alloc: Global,
    bound: &Bound,
    schema: &Schema,
) -> Result<(Planner, Rows), AllocError>
    requires room { rows_size bound.now.joins bound.now.conditions < 2 ^ 32 }
    ensures plan { IfOk result (λ made. rows_of made.0 made.1.facts made.1.lists.items ≡ plan_rows (bound_view bound.now) schema.now) }
    ensures columns { IfOk result (λ made. made.0.columns ≤ rows_size bound.now.joins bound.now.conditions) }
{
    let mut planner = Planner::new(alloc);
    let dimensions = add_all(alloc, &mut planner, bound)?;
    let list = planner.condition_list(alloc, bound.fact, bound.conditions.as_slice())?;
    let facts = add_semi_joins(&mut planner, bound, schema, list, dimensions.as_slice())?;
    let rows = add_joins(
        alloc,
        &mut planner,
        bound,
        schema,
        facts,
        dimensions.as_slice(),
    )?;
    Ok((planner, rows))
}
