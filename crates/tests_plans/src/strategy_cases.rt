//! Queries, texts of strategy files, and what the texts say of the queries' plans.

/// A query, a text, and the changes from the defaults or the refusal.
pub type Case<'a> = (&'a str, &'a str, &'a str);

/// o1, o3 and o4 are Selects, o6 is a SemiJoin, o5 and o7 are Intersects, o2, o8 and o9 Projects, and o10 is a sum of products.
pub const PRODUCTS: &str =
    "select sum(lo_extendedprice * lo_discount) from lineorder, date where lo_orderdate = d_datekey and d_year = 1993 and lo_discount between 1 and 3 and lo_quantity < 25";

/// One sum without groups.
const TOTAL: &str = "select sum(lo_quantity) from lineorder";

/// o1 is a Group, o2 a sum by groups, and o3 a Project.
const GROUPED: &str = "select lo_discount, sum(lo_quantity) from lineorder group by lo_discount";

pub const CASES: &[Case<'static>] = &[
    // Defaults.
    (PRODUCTS, "", ""),
    (PRODUCTS, "# nothing\n\n", ""),
    (PRODUCTS, "format = \"plain\"\nform = \"fly\"\n", ""),
    (
        TOTAL,
        "format = \"auto\"\nform = \"special\"\n",
        "c1 Auto o1 Special ",
    ),
    (
        PRODUCTS,
        "form = \"special\"\n",
        "o1 Special o3 Special o4 Special o6 Special ",
    ),
    (
        PRODUCTS,
        "form = \"morph\"\n",
        "o1 Morph o3 Morph o4 Morph o6 Morph ",
    ),
    (GROUPED, "form = \"special\"\n", "o1 Special "),
    (GROUPED, "form = \"plain\"\n", "o1 Plain o2 Plain o3 Plain "),
    (
        GROUPED,
        "format = \"runs\"\n",
        "c1 Fixed(Runs) c2 Fixed(Runs) c3 Fixed(Runs) c4 Fixed(Runs) ",
    ),
    // Columns and operators that keys name.
    (
        PRODUCTS,
        "[formats]\nc1 = \"plain\"\nc2 = \"static\"\nc3 = \"dynamic\"\nc4 = \"runs\"\nc5 = \"delta1+dynamic\"\nc6 = \"delta16+dynamic\"\nc7 = \"reference+dynamic\"\nc8 = \"delta1+runs\"\nc10 = \"auto\"\n",
        "c2 Fixed(Static) c3 Fixed(Dynamic) c4 Fixed(Runs) c5 Fixed(Delta1Dynamic) c6 Fixed(Delta16Dynamic) c7 Fixed(ReferenceDynamic) c8 Fixed(Delta1Runs) c10 Auto ",
    ),
    (
        PRODUCTS,
        "[forms]\no6 = \"morph\"\no1 = \"special\"\no10 = \"plain\"\no5 = \"fly\"\n",
        "o1 Special o6 Morph o10 Plain ",
    ),
    (
        PRODUCTS,
        "form = \"special\"\n[forms]\no1 = \"fly\"\no2 = \"plain\"\n",
        "o2 Plain o3 Special o4 Special o6 Special ",
    ),
    (
        GROUPED,
        "format = \"auto\"\n[formats]\nc2 = \"plain\"\n",
        "c1 Auto c3 Auto c4 Auto ",
    ),
    (TOTAL, "formats.c1 = \"runs\"\n", "c1 Fixed(Runs) "),
    (
        TOTAL,
        "formats = { \"c1\" = \"runs\" }\nforms = { o1 = \"morph\" }\n",
        "c1 Fixed(Runs) o1 Morph ",
    ),
    // No text.
    (TOTAL, "form = ", "no text"),
    (TOTAL, "form = \"fly\"\nform = \"fly\"\n", "no text"),
    // The top level.
    (TOTAL, "format = \"Runs\"\n", "unknown format"),
    (TOTAL, "format = 1\n", "unknown format"),
    (TOTAL, "format = \"fly\"\n", "unknown format"),
    (TOTAL, "form = \"auto\"\n", "unknown form"),
    (TOTAL, "[form]\n", "unknown form"),
    (TOTAL, "formats = \"runs\"\n", "unknown formats"),
    (TOTAL, "[[formats]]\nc1 = \"runs\"\n", "unknown formats"),
    (TOTAL, "forms = []\n", "unknown forms"),
    (TOTAL, "other = 1\n", "unknown other"),
    (TOTAL, "Other = 1\n", "unknown"),
    (TOTAL, "\"\" = 1\n", "unknown"),
    (TOTAL, "select = 1\n", "unknown"),
    (
        TOTAL,
        "abcdefghijklmnopqrstuvwxyz_1234 = 1\n",
        "unknown abcdefghijklmnopqrstuvwxyz_1234",
    ),
    (TOTAL, "abcdefghijklmnopqrstuvwxyz_12345 = 1\n", "unknown"),
    (TOTAL, "formats = 1\nformat = 1\nform = 1\n", "unknown form"),
    (TOTAL, "zebra = 1\nformats = 1\n", "unknown formats"),
    // The keys of `formats`.
    (PRODUCTS, "[formats]\nc0 = \"runs\"\n", "unknown c0"),
    (PRODUCTS, "[formats]\nc01 = \"runs\"\n", "unknown c01"),
    (PRODUCTS, "[formats]\nc11 = \"runs\"\n", "unknown c11"),
    (PRODUCTS, "[formats]\nc99 = \"runs\"\n", "unknown c99"),
    (
        PRODUCTS,
        "[formats]\nc4294967297 = \"runs\"\n",
        "unknown c4294967297",
    ),
    (
        PRODUCTS,
        "[formats]\nc18446744073709551617 = \"runs\"\n",
        "unknown c18446744073709551617",
    ),
    (PRODUCTS, "[formats]\nc = \"runs\"\n", "unknown c"),
    (PRODUCTS, "[formats]\nc1x = \"runs\"\n", "unknown c1x"),
    (PRODUCTS, "[formats]\n\"c+1\" = \"runs\"\n", "unknown"),
    (PRODUCTS, "[formats]\n1 = \"runs\"\n", "unknown"),
    (PRODUCTS, "[formats]\nC1 = \"runs\"\n", "unknown"),
    (PRODUCTS, "[formats]\no1 = \"runs\"\n", "unknown o1"),
    (PRODUCTS, "[formats]\nc1 = \"fly\"\n", "unknown c1"),
    (PRODUCTS, "[formats]\nc1 = 1\n", "unknown c1"),
    (PRODUCTS, "[formats.c1]\n", "unknown c1"),
    // c10 stands before c2 by its bytes.
    (
        PRODUCTS,
        "[formats]\nc2 = \"rows\"\nc10 = \"rows\"\n",
        "unknown c10",
    ),
    // The keys of `forms`.
    (PRODUCTS, "[forms]\no0 = \"fly\"\n", "unknown o0"),
    (PRODUCTS, "[forms]\no01 = \"fly\"\n", "unknown o01"),
    (PRODUCTS, "[forms]\no11 = \"fly\"\n", "unknown o11"),
    (PRODUCTS, "[forms]\nc1 = \"fly\"\n", "unknown c1"),
    (PRODUCTS, "[forms]\no1 = \"runs\"\n", "unknown o1"),
    // Special forms that operators do not have: the least number, though o10 stands before o9 by its bytes.
    (
        PRODUCTS,
        "[forms]\no5 = \"special\"\n",
        "no special form for o5",
    ),
    (
        PRODUCTS,
        "[forms]\no2 = \"morph\"\n",
        "no special form for o2",
    ),
    (
        PRODUCTS,
        "[forms]\no10 = \"special\"\no9 = \"morph\"\n",
        "no special form for o9",
    ),
    (
        GROUPED,
        "form = \"special\"\n[forms]\no2 = \"special\"\n",
        "no special form for o2",
    ),
    // Which refusal is first.
    (
        PRODUCTS,
        "zebra = 1\n[formats]\nc0 = \"runs\"\n",
        "unknown zebra",
    ),
    (
        PRODUCTS,
        "[forms]\no0 = \"fly\"\n[formats]\nc99 = \"runs\"\n",
        "unknown c99",
    ),
    (
        PRODUCTS,
        "[forms]\no5 = \"special\"\no99 = \"fly\"\n",
        "unknown o99",
    ),
];
