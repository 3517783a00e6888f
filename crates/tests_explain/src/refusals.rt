//! Queries that are refused, with the place at which they are.

use crate::folders::{expect_explained, folder};
use crate::stars::TWO_FACTS;
use std::test::Fail;

/// Texts that say no query, and what is said of them.
const TEXTS: &[(&str, &str)] = &[
    ("", "query: syntax at 0\n"),
    (" \n", "query: syntax at 2\n"),
    ("select", "query: syntax at 6\n"),
    ("select s_price", "query: syntax at 14\n"),
    ("select s_price from", "query: syntax at 19\n"),
    ("from sales", "query: syntax at 0\n"),
    ("select s_price sales", "query: syntax at 15\n"),
    ("select s_price from sales sales", "query: syntax at 26\n"),
    ("select s_price from sales;;", "query: syntax at 26\n"),
    ("select s_price, from sales", "query: syntax at 16\n"),
    ("select sum(s_price from sales", "query: syntax at 19\n"),
    (
        "select sum(s_price + s_day) from sales",
        "query: bad byte at 19\n",
    ),
    ("select s_price from sales where", "query: syntax at 31\n"),
    (
        "select s_price from sales where s_price",
        "query: syntax at 39\n",
    ),
    (
        "select s_price from sales where s_price = s_day or s_day = 1",
        "query: syntax at 48\n",
    ),
    (
        "select s_price from sales where s_note in ()",
        "query: syntax at 43\n",
    ),
    (
        "select s_price from sales where (s_day = 1 or s_price = 1)",
        "query: syntax at 46\n",
    ),
    (
        "select s_price from sales order s_price",
        "query: syntax at 32\n",
    ),
    ("select #", "query: bad byte at 7\n"),
    ("select s_price from sales é", "query: bad byte at 26\n"),
    (
        "select s_price from sales where s_price <> 1",
        "query: syntax at 41\n",
    ),
    (
        "select s_price from sales where s_price != 1",
        "query: bad byte at 40\n",
    ),
    (
        "select s_price from sales where s_price = 18446744073709551616",
        "query: number too large at 42\n",
    ),
    (
        "select 99999999999999999999999 from",
        "query: number too large at 7\n",
    ),
    (
        "select s_price from sales where s_note = 'it''s",
        "query: open string at 41\n",
    ),
    (
        "select s_price from sales where s_note = '",
        "query: open string at 41\n",
    ),
    ("select 'a' 'b", "query: syntax at 7\n"),
    ("select select #", "query: syntax at 7\n"),
];

/// Queries that do not bind to two facts, and what is said of them.
const BINDINGS: &[(&str, &str)] = &[
    ("select s_price from shop", "query: unknown table at 20\n"),
    (
        "select sum(s_price) from sales, shop, sales",
        "query: unknown table at 32\n",
    ),
    (
        "select sum(s_price) from sales, days, sales",
        "query: name twice at 38\n",
    ),
    (
        "select sum(s_price) from days, items, days",
        "query: name twice at 38\n",
    ),
    ("select sum(d_key) from days", "query: fact count at 23\n"),
    (
        "select sum(d_key) from  days, items",
        "query: fact count at 24\n",
    ),
    (
        "select sum(s_price) from sales, returns",
        "query: fact count at 32\n",
    ),
    (
        "select sum(s_price) from days, sales, items, returns",
        "query: fact count at 45\n",
    ),
    ("select sum(x) from sales", "query: unknown column at 11\n"),
    (
        "select sum(s_price - x) from sales",
        "query: unknown column at 21\n",
    ),
    ("select sum(d_key) from sales", "query: not in from at 11\n"),
    (
        "select sum(s_price) from sales where d_month = 'May'",
        "query: not in from at 37\n",
    ),
    (
        "select sum(s_price) from sales where x = 1 group by d_month",
        "query: unknown column at 37\n",
    ),
    (
        "select sum(s_price) from sales group by r_day",
        "query: not in from at 40\n",
    ),
    (
        "select sum(s_price) from sales, days where s_day = s_item",
        "query: join shape at 43\n",
    ),
    (
        "select sum(s_price) from sales, days where s_day = d_month",
        "query: join shape at 43\n",
    ),
    (
        "select sum(s_price) from sales, days where s_note = d_key",
        "query: join shape at 43\n",
    ),
    (
        "select sum(s_price) from sales, days, items where d_key = i_key",
        "query: join shape at 50\n",
    ),
    (
        "select sum(s_price) from sales, days",
        "query: join missing at 32\n",
    ),
    (
        "select sum(s_price) from items, days, sales where s_item = i_key",
        "query: join missing at 32\n",
    ),
    (
        "select sum(s_price) from sales, days where s_day = d_key and d_key = s_item",
        "query: join twice at 61\n",
    ),
    (
        "select sum(s_price) from sales, days where s_day = d_key and s_day = d_key",
        "query: join twice at 61\n",
    ),
    (
        "select sum(s_price) from sales where s_price = 'x'",
        "query: type mismatch at 47\n",
    ),
    (
        "select sum(s_price) from sales where s_note between 'a' and 3",
        "query: type mismatch at 60\n",
    ),
    (
        "select sum(s_price) from sales where s_price in (1, 2, 'x', 'y')",
        "query: type mismatch at 55\n",
    ),
    (
        "select sum(s_price) from sales where (s_note = 'a' or s_note = 3)",
        "query: type mismatch at 63\n",
    ),
    (
        "select sum(s_note) from sales",
        "query: type mismatch at 11\n",
    ),
    (
        "select sum(s_price * s_note) from sales",
        "query: type mismatch at 21\n",
    ),
    ("select s_price from sales", "query: group mismatch at 7\n"),
    (
        "select s_price, sum(s_price) from sales group by s_day",
        "query: group mismatch at 7\n",
    ),
    (
        "select sum(s_price) as total from sales order by s_price",
        "query: order unknown at 49\n",
    ),
    (
        "select sum(s_price) as total from sales order by total, TOTALS",
        "query: order unknown at 56\n",
    ),
    (
        "select s_day from sales group by s_day, s_day",
        "query: name twice at 40\n",
    ),
    (
        "select sum(s_price) as a, sum(s_day) as a from sales",
        "query: name twice at 40\n",
    ),
    (
        "select s_day, sum(s_price) as s_day from sales group by s_day",
        "query: name twice at 30\n",
    ),
    (
        "select s_price from sales where x = 1 order by y",
        "query: unknown column at 32\n",
    ),
    ("select x from sales, shop", "query: unknown table at 21\n"),
    (
        "select sum(s_price) from sales, days where s_price = 'x'",
        "query: type mismatch at 53\n",
    ),
    (
        "select s_item from sales where s_price = 'x'",
        "query: type mismatch at 41\n",
    ),
];

#[test]
fn refused_texts_and_bindings_are_said(rt: HostRuntime) -> Result<(), Fail> {
    let alloc = rt.alloc();
    let mut store = folder(alloc, Some(TWO_FACTS), &[])?;
    for table in [TEXTS, BINDINGS] {
        for (text, line) in table {
            expect_explained(&rt, alloc, &mut store, text, (1, line))?;
        }
    }
    Ok(())
}
