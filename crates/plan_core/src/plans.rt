//! Plans: operators that read base columns and earlier outputs.

use catalog_core::ColumnId;
use query_text::Test;
use stream_core::List;

/// A base column, or the output with this number.
#[derive(Clone, Copy, Debug, PartialEq, Eq)]
pub enum Input {
    Base(ColumnId),
    Made(u32),
}

/// An operator of a plan. `out` is the number of its output, from 1 on; of two outputs the second has the next number.
#[derive(Drop)]
pub enum Operator {
    /// The places of a base column whose values meet a test with one literal, or `between`.
    Select {
        input: ColumnId,
        test: Test,
        out: u32,
    },
    /// The numbers of either list.
    Union {
        left: u32,
        right: u32,
        out: u32,
    },
    /// The numbers of both lists.
    Intersect {
        left: u32,
        right: u32,
        out: u32,
    },
    /// The values at places.
    Project {
        values: Input,
        places: u32,
        out: u32,
    },
    /// The places of a base column whose values are keys.
    SemiJoin {
        probe: ColumnId,
        keys: Input,
        out: u32,
    },
    /// The places whose values are keys, and beside each the place of a key.
    Join {
        probe: Input,
        keys: Input,
        left: u32,
        right: u32,
    },
    /// The number of each value by first occurrence, and the places of first occurrences.
    Group {
        values: Input,
        ids: u32,
        extents: u32,
    },
    /// The same of pairs of an earlier group and a value.
    Refine {
        before: u32,
        values: Input,
        ids: u32,
        extents: u32,
    },
    /// A sum over all values, or for each group if there are ids. `sum` and `operand` count from 1.
    Sum {
        values: Input,
        ids: Option<u32>,
        out: u32,
        sum: u32,
        operand: u32,
    },
    /// The same of the products of two columns.
    SumProduct {
        first: Input,
        second: Input,
        ids: Option<u32>,
        out: u32,
        sum: u32,
    },
}

/// The column of a sum, and that of a difference's second operand.
#[derive(Clone, Copy, Debug, PartialEq, Eq)]
pub struct SumPlace {
    pub first: u32,
    pub second: Option<u32>,
}

/// A plan: its operators in the order in which they run, how many columns they make, and which of these are the columns of GROUP BY and the
/// sums of SELECT.
#[derive(Drop)]
pub struct Plan {
    pub operators: List<Operator>,
    pub columns: u32,
    pub keys: List<u32>,
    pub sums: List<SumPlace>,
}

/// The outputs of the last Group or Refine.
#[derive(Clone, Copy, Debug, PartialEq, Eq)]
pub struct Grouped {
    pub ids: u32,
    pub extents: u32,
}
