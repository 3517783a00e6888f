//! Queries that are explained.

use crate::folders::{expect_explained, folder};
use crate::plans::PLANS;
use crate::stars::{STAR, TWO_FACTS};
use std::test::Fail;

#[test]
fn the_benchmark_is_explained(rt: HostRuntime) -> Result<(), Fail> {
    let alloc = rt.alloc();
    let mut store = folder(alloc, Some(STAR), &[])?;
    for (text, lines) in PLANS {
        expect_explained(&rt, alloc, &mut store, text, (0, lines))?;
    }
    Ok(())
}

/// Letters of keywords and names may be large, one `;` may stand behind a query, and a number may have 64 bits.
#[test]
fn short_queries_are_explained(rt: HostRuntime) -> Result<(), Fail> {
    let alloc = rt.alloc();
    let mut store = folder(alloc, Some(TWO_FACTS), &[])?;
    for (text, lines) in [
        ("select sum(s_price) from sales", "o1 c1 = sum s_price\n"),
        (
            "\tSELECT Sum( S_PRICE )\nFROM Sales ; ",
            "o1 c1 = sum s_price\n",
        ),
        (
            "select sum(r_day) from returns where r_day = 18446744073709551615",
            "o1 c1 = select r_day = 18446744073709551615\n\
             o2 c2 = project r_day c1\n\
             o3 c3 = sum c2\n",
        ),
    ] {
        expect_explained(&rt, alloc, &mut store, text, (0, lines))?;
    }
    Ok(())
}
