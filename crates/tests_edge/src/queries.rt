//! Queries and words, with the query's text in memory.

use crate::commands::printed;
use std::io;

/// A case, and the text of its query.
const QUERIES: [(&str, &str); 21] = [
    ("a sum of all rows", "select sum(a) from t"),
    (
        "a sum of some rows",
        "select sum(a) from t where b between 3 and 7",
    ),
    ("no row", "select sum(a) from t where b between 7 and 3"),
    (
        "a column in plain and one in static",
        "select sum(revenue) from sales where discount between 1 and 3",
    ),
    (
        "a column in dynamic and one in runs",
        "select sum(quantity) from sales where region between 3 and 9",
    ),
    (
        "a column in delta1+dynamic and one in delta16+dynamic",
        "select sum(sale) from sales where clock between 2000000 and 5000500",
    ),
    (
        "a column in reference+dynamic and one in delta1+runs",
        "select sum(price) from sales where day between 20050 and 20059",
    ),
    (
        "a file of version 1 and one of version 2",
        "select sum(a) from mixed where b between 3 and 7",
    ),
    ("no text", ""),
    ("a text that is no query", "select sum(a) from t;"),
    ("no file of the table", "select sum(a) from u"),
    ("no file of the column", "select sum(c) from t"),
    (
        "no file of the tested column",
        "select sum(a) from t where c between 3 and 7",
    ),
    ("a file of one byte too many", "select sum(a) from longer"),
    ("a file of one byte too few", "select sum(a) from shorter"),
    ("a file without a byte", "select sum(a) from hollow"),
    ("a file that is cut off", "select sum(c) from damaged"),
    ("a file with a wrong directory", "select sum(a) from astray"),
    ("a sum that is too wide", "select sum(a) from wide"),
    (
        "a folder in place of the now file",
        "select sum(a) from shelf",
    ),
    (
        "a folder in place of the column file",
        "select sum(a) from wide where b between 3 and 7",
    ),
];

/// Words that are no command.
const WORDS: [(&str, &[&str]); 5] = [
    ("no word", &[]),
    ("an empty word", &[""]),
    ("another word", &["helps"]),
    ("a word too many", &["query", "query"]),
    ("a word behind check", &["check", "t"]),
];

/// Runs the cases, and gives the sum of their statuses.
pub fn sum_of_statuses(rt: &HostRuntime) -> io::Result<u8> {
    let mut sum = 0u8;
    for (case, text) in QUERIES {
        let status = printed(rt, case, &["query"], text.as_bytes())?;
        sum = sum.saturating_add(status);
    }
    for (case, words) in WORDS {
        let status = printed(rt, case, words, "select sum(a) from t".as_bytes())?;
        sum = sum.saturating_add(status);
    }
    Ok(sum)
}
