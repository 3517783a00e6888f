//! Bindings.

use crate::literals::put_test;
use crate::pieces::{put, put_between, put_column, put_number};
use catalog_core::{ColumnId, Needs};
use query_bind::{Bound, Condition, Item, JoinTo, OrderKey, SumOf};
use std::alloc::{AllocError, Global};

fn put_tables(alloc: Global, out: &mut Vec<u8>, tables: &[u32]) -> Result<(), AllocError> {
    for (number, table) in tables.iter().enumerate() {
        put_between(out, number, ",")?;
        put_number(alloc, out, u64::from(*table))?;
    }
    Ok(())
}

fn put_joins(alloc: Global, out: &mut Vec<u8>, joins: &[JoinTo]) -> Result<(), AllocError> {
    for (number, to) in joins.iter().enumerate() {
        put_between(out, number, ",")?;
        put_column(alloc, out, to.fact_column)?;
        put(out, "=")?;
        put_column(alloc, out, to.key)?;
    }
    Ok(())
}

fn put_conditions(
    alloc: Global,
    out: &mut Vec<u8>,
    conditions: &[Condition],
) -> Result<(), AllocError> {
    for (number, condition) in conditions.iter().enumerate() {
        put_between(out, number, ",")?;
        put_column(alloc, out, condition.column)?;
        put_test(alloc, out, &condition.test)?;
    }
    Ok(())
}

fn put_columns(alloc: Global, out: &mut Vec<u8>, columns: &[ColumnId]) -> Result<(), AllocError> {
    for (number, id) in columns.iter().enumerate() {
        put_between(out, number, ",")?;
        put_column(alloc, out, *id)?;
    }
    Ok(())
}

/// Two columns and the sign between them.
fn put_pair(
    alloc: Global,
    out: &mut Vec<u8>,
    first: ColumnId,
    sign: &str,
    second: ColumnId,
) -> Result<(), AllocError> {
    put_column(alloc, out, first)?;
    put(out, sign)?;
    put_column(alloc, out, second)
}

fn put_sums(alloc: Global, out: &mut Vec<u8>, sums: &[SumOf]) -> Result<(), AllocError> {
    for (number, sum) in sums.iter().enumerate() {
        put_between(out, number, ",")?;
        match *sum {
            SumOf::Plain(only) => put_column(alloc, out, only)?,
            SumOf::Product(first, second) => put_pair(alloc, out, first, "*", second)?,
            SumOf::Difference(first, second) => put_pair(alloc, out, first, "-", second)?,
        }
    }
    Ok(())
}

fn put_item(alloc: Global, out: &mut Vec<u8>, item: Item) -> Result<(), AllocError> {
    let (letter, number) = match item {
        Item::Group(number) => ("g", number),
        Item::Sum(number) => ("s", number),
    };
    put(out, letter)?;
    put_number(alloc, out, u64::from(number))
}

fn put_items(alloc: Global, out: &mut Vec<u8>, items: &[Item]) -> Result<(), AllocError> {
    for (number, item) in items.iter().enumerate() {
        put_between(out, number, ",")?;
        put_item(alloc, out, *item)?;
    }
    Ok(())
}

fn put_order(alloc: Global, out: &mut Vec<u8>, order: &[OrderKey]) -> Result<(), AllocError> {
    for (number, key) in order.iter().enumerate() {
        put_between(out, number, ",")?;
        put_item(alloc, out, key.item)?;
        if key.falling {
            put(out, " desc")?;
        }
    }
    Ok(())
}

/// Appends a binding, without a line feed: eight fields with `|` between them, whose entries have `,` between them.
///
/// 1. the number of the fact table;
/// 2. the numbers of the dimensions;
/// 3. the joins, as `0.4=2.1`: the column of the fact table and the key. A column is the number of its table, a dot and its place in
///    the table, all from 0;
/// 4. the conditions, as `1.1 = 1993`: a column, one of `=`, `<`, `<=`, `>`, `>=`, `between` and `in`, and the literals with `&` between
///    them. A number stands in decimal, a text in quotes: its letters, digits, spaces and quotes as they are, and any other byte as `\`
///    and its two hex digits in lower case;
/// 5. the columns of GROUP BY;
/// 6. the sums, as `0.3`, `0.3*0.2` or `0.3-0.2`;
/// 7. the items, as `g0` for the first column of GROUP BY and `s1` for the second sum;
/// 8. the keys of ORDER BY, as items, with ` desc` after one whose order falls.
pub fn put_bound(alloc: Global, out: &mut Vec<u8>, bound: &Bound) -> Result<(), AllocError> {
    put_number(alloc, out, u64::from(bound.fact))?;
    put(out, "|")?;
    put_tables(alloc, out, bound.dimensions.as_slice())?;
    put(out, "|")?;
    put_joins(alloc, out, bound.joins.as_slice())?;
    put(out, "|")?;
    put_conditions(alloc, out, bound.conditions.as_slice())?;
    put(out, "|")?;
    put_columns(alloc, out, bound.groups.as_slice())?;
    put(out, "|")?;
    put_sums(alloc, out, bound.sums.as_slice())?;
    put(out, "|")?;
    put_items(alloc, out, bound.items.as_slice())?;
    put(out, "|")?;
    put_order(alloc, out, bound.order.as_slice())
}

/// Appends what is to be opened for a query: the numbers of tables, a bar, and the columns, with commas between.
pub fn put_needs(alloc: Global, out: &mut Vec<u8>, needs: &Needs) -> Result<(), AllocError> {
    put_tables(alloc, out, needs.tables.as_slice())?;
    put(out, "|")?;
    put_columns(alloc, out, needs.columns.as_slice())
}
