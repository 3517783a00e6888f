//! A table of texts with the lines of their plans.

use crate::plans::{lines_of, schema};
use crate::tables::PLANS;
use std::alloc::AllocError;
use std::test::Fail;

#[test]
fn queries_have_the_lines_of_their_plans(rt: HostRuntime) -> Result<(), Fail> {
    let Ok(schema) = schema(rt.alloc()) else {
        return Err(AllocError.into());
    };
    for (text, expected) in PLANS {
        let found = lines_of(rt.alloc(), &schema, text.as_bytes())?;
        let equal = found.as_slice() == expected.as_bytes();
        let lines = found.as_slice();
        assert!(&rt; equal, "{text} has the plan {lines:?}, and not {expected}");
    }
    Ok(())
}
