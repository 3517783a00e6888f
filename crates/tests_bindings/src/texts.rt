//! Tables of texts with their outcomes.

use crate::outcomes::{needs_in, of_text, schema};
use crate::tables::{BOUND, COLUMNS, CONDITIONS, Case, NEEDS, SELECTION, SEVERAL, STEPS, TABLES};
use std::alloc::{AllocError, Global};
use std::process::Abort;
use std::test::Fail;

fn expect_all(
    rt: &impl Abort,
    alloc: Global,
    cases: &[Case],
    several: bool,
) -> Result<(), AllocError> {
    let Ok(schema) = schema(alloc) else {
        return Err(AllocError);
    };
    for (text, expected) in cases {
        let found = of_text(alloc, &schema, text, several)?;
        let equal = found.as_slice() == expected.as_bytes();
        assert!(rt;
            equal,
            "{text:?} is answered by {found:?}, and not {expected}"
        );
    }
    Ok(())
}

#[test]
fn names_are_bound_to_tables_and_columns(rt: HostRuntime) -> Result<(), Fail> {
    expect_all(&rt, rt.alloc(), BOUND, false)?;
    Ok(())
}

#[test]
fn tables_and_columns_are_refused_at_their_names(rt: HostRuntime) -> Result<(), Fail> {
    expect_all(&rt, rt.alloc(), TABLES, false)?;
    expect_all(&rt, rt.alloc(), COLUMNS, false)?;
    Ok(())
}

#[test]
fn conditions_and_selections_are_refused_at_their_words(rt: HostRuntime) -> Result<(), Fail> {
    expect_all(&rt, rt.alloc(), CONDITIONS, false)?;
    expect_all(&rt, rt.alloc(), SELECTION, false)?;
    Ok(())
}

#[test]
fn the_first_step_that_refuses_counts(rt: HostRuntime) -> Result<(), Fail> {
    expect_all(&rt, rt.alloc(), STEPS, false)?;
    Ok(())
}

#[test]
fn texts_of_several_queries_are_bound_one_by_one(rt: HostRuntime) -> Result<(), Fail> {
    expect_all(&rt, rt.alloc(), SEVERAL, true)?;
    Ok(())
}

#[test]
fn what_a_query_reads_is_opened_in_the_order_of_the_schema(rt: HostRuntime) -> Result<(), Fail> {
    let Ok(schema) = schema(rt.alloc()) else {
        return Err(AllocError.into());
    };
    for (text, expected) in NEEDS {
        let found = needs_in(rt.alloc(), &schema, text)?;
        let equal = found.as_slice() == expected.as_bytes();
        assert!(&rt; equal, "{text:?} needs {found:?}, and not {expected}");
    }
    Ok(())
}
