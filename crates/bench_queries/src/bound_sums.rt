//! Checksums of bindings: over kinds of entries and numbers of tables, columns, groups and sums.

use crate::query_sums::{mixed, mixed_test};
use catalog_core::ColumnId;
use query_bind::{Bound, Item, OrderKey, SumOf};

fn mixed_column(sum: u64, id: ColumnId) -> u64 {
    mixed(mixed(sum, u64::from(id.table)), u64::from(id.column))
}

fn mixed_columns(sum: u64, ids: &[ColumnId]) -> u64 {
    let mut sum = mixed(sum, ids.len() as u64);
    for id in ids {
        sum = mixed_column(sum, *id);
    }
    sum
}

fn mixed_sum(sum: u64, of: SumOf) -> u64 {
    match of {
        SumOf::Plain(only) => mixed_column(mixed(sum, 1), only),
        SumOf::Product(first, second) => mixed_column(mixed_column(mixed(sum, 2), first), second),
        SumOf::Difference(first, second) => {
            mixed_column(mixed_column(mixed(sum, 3), first), second)
        }
    }
}

fn mixed_item(sum: u64, item: Item) -> u64 {
    match item {
        Item::Group(number) => mixed(mixed(sum, 1), u64::from(number)),
        Item::Sum(number) => mixed(mixed(sum, 2), u64::from(number)),
    }
}

fn mixed_key(sum: u64, key: OrderKey) -> u64 {
    mixed(mixed_item(sum, key.item), u64::from(key.falling))
}

/// The checksum of a binding.
pub fn bound_sum(bound: &Bound) -> u64 {
    let mut sum = u64::from(bound.fact);
    for table in bound.dimensions.as_slice() {
        sum = mixed(sum, u64::from(*table));
    }
    for to in bound.joins.as_slice() {
        sum = mixed_column(mixed_column(sum, to.fact_column), to.key);
    }
    for condition in bound.conditions.as_slice() {
        sum = mixed_test(mixed_column(sum, condition.column), &condition.test);
    }
    sum = mixed_columns(sum, bound.groups.as_slice());
    for of in bound.sums.as_slice() {
        sum = mixed_sum(sum, *of);
    }
    for item in bound.items.as_slice() {
        sum = mixed_item(sum, *item);
    }
    for key in bound.order.as_slice() {
        sum = mixed_key(sum, *key);
    }
    sum
}
