//! Texts, and what each binds to or where it is refused. Made with a second implementation of the language.

/// A text and its outcome.
pub type Case<'a> = (&'a [u8], &'a str);

/// Texts that bind, and what each name stands for.
pub const BOUND: &[Case<'static>] = &[
    (b"select sum(lo_quantity) from lineorder", "0|||||0.1|s0|"),
    (
        b"select sum(lo_extendedprice * lo_discount) as revenue from lineorder, date where lo_orderdate = d_datekey and d_year = 1993 and lo_discount between 1 and 3 and lo_quantity < 25",
        "0|1|0.0=1.0|1.1 = 1993,0.2 between 1&3,0.1 < 25||0.3*0.2|s0|",
    ),
    (
        b"select sum(lo_quantity) from date, lineorder where d_datekey = lo_orderdate",
        "0|1|0.0=1.0|||0.1|s0|",
    ),
    (
        b"select sum(lo_quantity) from customer, lineorder, date where lo_orderdate = d_datekey and c_region = 'ASIA' and c_custkey = lo_custkey",
        "0|2,1|0.4=2.1,0.0=1.0|2.2 = 'ASIA'||0.1|s0|",
    ),
    (
        b"select sum(lo_quantity) from lineorder, date where lo_quantity = d_datekey",
        "0|1|0.1=1.0|||0.1|s0|",
    ),
    (
        b"select sum(r_date) from returns, date where r_date = d_datekey",
        "3|1|3.0=1.0|||3.0|s0|",
    ),
    (
        b"select sum(r_date - r_date), sum(r_date*r_date) from returns where r_date >= 0",
        "3|||3.0 >= 0||3.0-3.0,3.0*3.0|s0,s1|",
    ),
    (
        b"select sum(lo_quantity) from lineorder where lo_shipmode in ('AIR', '', 'MAIL') and lo_quantity <= 1 and lo_quantity > 2 and (lo_discount = 3 or lo_discount = 4)",
        "0|||0.5 in 'AIR'&''&'MAIL',0.1 <= 1,0.1 > 2,0.2 in 3&4||0.1|s0|",
    ),
    (
        b"select sum(lo_quantity) from lineorder where lo_shipmode between 'A' and 'B' and lo_shipmode = 'it''s' and lo_quantity between 18446744073709551615 and 0",
        "0|||0.5 between 'A'&'B',0.5 = 'it's',0.1 between 18446744073709551615&0||0.1|s0|",
    ),
    (
        b"select d_year, d_year, sum(lo_quantity) from lineorder, date where lo_orderdate = d_datekey group by d_year",
        "0|1|0.0=1.0||1.1|0.1|g0,g0,s0|",
    ),
    (
        b"select d_year from lineorder, date where lo_orderdate = d_datekey group by d_year, d_datekey",
        "0|1|0.0=1.0||1.1,1.0||g0|",
    ),
    (
        b"select c_nation, sum(lo_discount) as d, d_year, sum(lo_quantity - lo_discount) as q from lineorder, date, customer where lo_orderdate = d_datekey and lo_custkey = c_custkey group by d_year, c_region, c_nation order by d, d_year desc, c_nation asc, q desc, c_region",
        "0|1,2|0.0=1.0,0.4=2.1||1.1,2.2,2.0|0.2,0.1-0.2|g2,s0,g0,s1|s0,g0 desc,g2,s1 desc,g1",
    ),
    (
        b"select sum(lo_quantity) as lo_quantity, sum(lo_quantity) from lineorder order by lo_quantity desc",
        "0|||||0.1,0.1|s0,s1|s0 desc",
    ),
    (
        b"select sum(lo_quantity) as d_year from lineorder, date where lo_orderdate = d_datekey order by d_year",
        "0|1|0.0=1.0|||0.1|s0|s0",
    ),
    (
        b"select sum(lo_quantity) as date, sum(lo_quantity) as lineorder from lineorder order by lineorder, date, lineorder desc",
        "0|||||0.1,0.1|s0,s1|s1,s0,s1 desc",
    ),
    (
        b"SELECT SUM(LO_Quantity) AS Total FROM LineOrder ORDER BY TOTAL",
        "0|||||0.1|s0|s0",
    ),
    (
        b"select lo_quantity from lineorder group by lo_quantity order by lo_quantity, lo_quantity desc;",
        "0||||0.1||g0|g0,g0 desc",
    ),
];

/// Texts that are refused for the tables of FROM.
pub const TABLES: &[Case<'static>] = &[
    (
        b"select sum(lo_quantity) from orders, lineorder, date",
        "unknown table@29",
    ),
    (
        b"select sum(lo_quantity) from lineorder, dates, customer",
        "unknown table@40",
    ),
    (
        b"select sum(lo_quantity) from lineorder, date, d_year",
        "unknown table@46",
    ),
    (
        b"select sum(lo_quantity) from lineorder, lineorder",
        "name twice@40",
    ),
    (
        b"select sum(lo_quantity) from date, date, lineorder",
        "name twice@35",
    ),
    (
        b"select sum(lo_quantity) from date, lineorder, customer, date",
        "name twice@56",
    ),
    (
        b"select sum(lo_quantity) from lineorder, date, date, orders",
        "name twice@46",
    ),
    (b"select sum(lo_quantity) from date", "fact count@29"),
    (
        b"select sum(lo_quantity) from date, customer",
        "fact count@29",
    ),
    (
        b"select sum(lo_quantity) from lineorder, returns",
        "fact count@40",
    ),
    (
        b"select sum(lo_quantity) from lineorder, date, returns",
        "fact count@46",
    ),
    (
        b"select sum(lo_quantity) from date, returns, lineorder, customer",
        "fact count@44",
    ),
];

/// Texts that are refused for a name that is no column of the tables.
pub const COLUMNS: &[Case<'static>] = &[
    (b"select quantity from lineorder", "unknown column@7"),
    (
        b"select sum(lo_quantity*d) from lineorder",
        "unknown column@23",
    ),
    (
        b"select sum(lo_quantity) from lineorder, date where lo_orderdate = d_datekey and year = 1993 and d_month = 1",
        "unknown column@80",
    ),
    (
        b"select sum(lo_quantity) from lineorder where lo_orderdate = datekey",
        "unknown column@60",
    ),
    (
        b"select sum(lo_quantity) from lineorder, date where lo_orderdate = d_datekey group by d_year, lineorder",
        "unknown column@93",
    ),
    (
        b"select d_year, sum(lo_quantity) from lineorder group by d_year",
        "not in from@7",
    ),
    (
        b"select sum(lo_quantity - r_date) from lineorder",
        "not in from@25",
    ),
    (
        b"select sum(lo_quantity) from lineorder where lo_quantity < 3 and lo_orderdate = d_datekey",
        "not in from@80",
    ),
    (
        b"select sum(lo_quantity) from lineorder, date where lo_orderdate = d_datekey group by d_year, c_nation",
        "not in from@93",
    ),
];

/// Texts that are refused for a condition, or for a join that is missing.
pub const CONDITIONS: &[Case<'static>] = &[
    (
        b"select sum(lo_quantity) from lineorder, date where lo_orderdate = d_year",
        "join shape@51",
    ),
    (
        b"select sum(lo_quantity) from lineorder, date where lo_orderdate = d_datekey and lo_orderdate = lo_quantity",
        "join shape@80",
    ),
    (
        b"select sum(lo_quantity) from lineorder, date, customer where lo_custkey = c_custkey and c_custkey = d_datekey and lo_orderdate = d_datekey",
        "join shape@88",
    ),
    (
        b"select sum(lo_quantity) from lineorder, date where lo_shipmode = d_datekey",
        "join shape@51",
    ),
    (
        b"select sum(lo_quantity) from lineorder, customer where c_nation = lo_shipmode",
        "join shape@55",
    ),
    (
        b"select sum(lo_quantity) from lineorder, date, customer where lo_orderdate = d_datekey and lo_custkey = c_custkey and c_nation = c_region",
        "join shape@117",
    ),
    (
        b"select sum(lo_quantity) from lineorder, date where d_year = d_datekey",
        "join shape@51",
    ),
    (
        b"select sum(lo_quantity) from lineorder, date where lo_orderdate = d_datekey and lo_orderdate = d_datekey",
        "join twice@80",
    ),
    (
        b"select sum(lo_quantity) from lineorder, date where lo_orderdate = d_datekey and d_datekey = lo_quantity and d_year = 1993",
        "join twice@80",
    ),
    (
        b"select sum(lo_quantity) from lineorder, date, customer where lo_orderdate = d_datekey and lo_custkey = c_custkey and d_year = 1993 and lo_quantity = c_custkey",
        "join twice@135",
    ),
    (
        b"select sum(lo_quantity) from lineorder, date",
        "join missing@40",
    ),
    (
        b"select sum(lo_quantity) from date, lineorder where d_year = 1993",
        "join missing@29",
    ),
    (
        b"select sum(lo_quantity) from lineorder, date, customer where lo_custkey = c_custkey",
        "join missing@40",
    ),
    (
        b"select sum(lo_quantity) from lineorder, date, customer where lo_orderdate = d_datekey",
        "join missing@46",
    ),
    (
        b"select sum(lo_quantity) from customer, date, lineorder",
        "join missing@29",
    ),
    (
        b"select sum(lo_quantity) from lineorder where lo_quantity = '3' and lo_discount = 1",
        "type mismatch@59",
    ),
    (
        b"select sum(lo_quantity) from lineorder where lo_quantity = 3 and lo_shipmode >= 7",
        "type mismatch@80",
    ),
    (
        b"select sum(lo_quantity) from lineorder where lo_discount between 1 and '3'",
        "type mismatch@71",
    ),
    (
        b"select sum(lo_quantity) from lineorder where lo_discount between '1' and '3'",
        "type mismatch@65",
    ),
    (
        b"select sum(lo_quantity) from lineorder where lo_discount in (1, 2, '3', 4, '5')",
        "type mismatch@67",
    ),
    (
        b"select sum(lo_quantity) from lineorder where (lo_shipmode = 'AIR' or lo_shipmode = 'MAIL' or lo_shipmode = 2)",
        "type mismatch@107",
    ),
];

/// Texts that are refused for GROUP BY, SELECT or ORDER BY.
pub const SELECTION: &[Case<'static>] = &[
    (b"select lo_quantity from lineorder", "group mismatch@7"),
    (
        b"select d_year, d_datekey, sum(lo_quantity) from lineorder, date where lo_orderdate = d_datekey group by d_year",
        "group mismatch@15",
    ),
    (
        b"select d_year, sum(lo_quantity), d_year, d_datekey from lineorder, date where lo_orderdate = d_datekey group by d_year",
        "group mismatch@41",
    ),
    (
        b"select sum(lo_quantity) from lineorder, date where lo_orderdate = d_datekey group by d_year, d_year, d_datekey",
        "name twice@93",
    ),
    (
        b"select sum(lo_quantity) from lineorder, date where lo_orderdate = d_datekey group by d_year, d_datekey, lo_discount, d_datekey",
        "name twice@117",
    ),
    (
        b"select sum(lo_shipmode) from lineorder",
        "type mismatch@11",
    ),
    (
        b"select sum(lo_quantity), sum(lo_quantity * lo_shipmode), sum(lo_shipmode) from lineorder",
        "type mismatch@43",
    ),
    (
        b"select sum(lo_quantity) as a, sum(lo_discount) as b, sum(lo_quantity) as a from lineorder",
        "name twice@73",
    ),
    (
        b"select sum(lo_quantity) as a, sum(lo_discount) as A, sum(lo_quantity) as b from lineorder",
        "name twice@50",
    ),
    (
        b"select sum(lo_quantity) as d_year from lineorder, date where lo_orderdate = d_datekey group by d_year",
        "name twice@27",
    ),
    (
        b"select d_year, sum(lo_quantity) as q, sum(lo_discount) as d_datekey from lineorder, date where lo_orderdate = d_datekey group by d_year, d_datekey",
        "name twice@58",
    ),
    (
        b"select sum(lo_quantity) as a from lineorder order by b, a",
        "order unknown@53",
    ),
    (
        b"select d_year, sum(lo_quantity) as a from lineorder, date where lo_orderdate = d_datekey group by d_year order by a, d_datekey desc, d_year",
        "order unknown@117",
    ),
    (
        b"select sum(lo_quantity) from lineorder order by lo_quantity",
        "order unknown@48",
    ),
    (
        b"select d_year, sum(lo_quantity) as a from lineorder, date where lo_orderdate = d_datekey group by d_year order by a desc, d_year, lo_quantity asc",
        "order unknown@130",
    ),
];

/// Texts that more than one step refuses: the first step counts, and not the first place.
pub const STEPS: &[Case<'static>] = &[
    (b"select a from b", "unknown table@14"),
    (
        b"select lo_shipping, sum(a) from lineorder, orders",
        "unknown table@43",
    ),
    (b"select d_year from date, lineorder, date", "name twice@36"),
    (b"select a from date", "fact count@14"),
    (b"select r_date, b from lineorder", "not in from@7"),
    (
        b"select lo_quantity, sum(lo_shipmode) from lineorder where lo_quantity = lo_discount and a = 1",
        "unknown column@88",
    ),
    (
        b"select sum(lo_quantity) from lineorder, date where lo_quantity = 'x' and d_year = lo_quantity",
        "type mismatch@65",
    ),
    (
        b"select sum(lo_quantity) from lineorder, date where d_year = lo_quantity and lo_quantity = 'x' group by a",
        "unknown column@103",
    ),
    (
        b"select sum(lo_quantity) from lineorder, date where lo_quantity = 'x'",
        "type mismatch@65",
    ),
    (
        b"select sum(lo_quantity) from lineorder, date where lo_quantity = 1 group by d_year, d_year",
        "join missing@40",
    ),
    (
        b"select d_datekey from lineorder, date where lo_orderdate = d_datekey group by d_year, d_year",
        "name twice@86",
    ),
    (
        b"select sum(lo_quantity) as a, sum(lo_discount) as a from lineorder group by lo_quantity, lo_quantity",
        "name twice@89",
    ),
    (
        b"select d_datekey, sum(lo_shipmode) from lineorder, date where lo_orderdate = d_datekey group by d_year",
        "group mismatch@7",
    ),
    (
        b"select sum(lo_shipmode) as d_year, d_datekey from lineorder, date where lo_orderdate = d_datekey group by d_year",
        "type mismatch@11",
    ),
    (
        b"select sum(lo_quantity) as d_year, d_datekey from lineorder, date where lo_orderdate = d_datekey group by d_year order by a",
        "name twice@27",
    ),
    (
        b"select lo_quantity from lineorder order by a",
        "group mismatch@7",
    ),
];

/// Texts of several queries: the number of queries, and what each of them binds to or where it is refused.
pub const SEVERAL: &[Case<'static>] = &[
    (
        b"select sum(lo_quantity) from lineorder;",
        "1;0|||||0.1|s0|",
    ),
    (
        b"select sum(lo_quantity) from lineorder; select r_date from returns group by r_date;select r_date from returns",
        "3;0|||||0.1|s0|;3||||3.0||g0|;group mismatch@90",
    ),
    (
        b"select sum(lo_quantity) from lineorder, date; select sum(lo_shipmode) from lineorder; select sum(lo_quantity) from lineorder where lo_shipmode = 'a;b'",
        "3;join missing@40;type mismatch@57;0|||0.5 = 'a\\3bb'||0.1|s0|",
    ),
    (
        b"select a from b; select sum(lo_quantity) from lineorder; !",
        "bad byte@57",
    ),
    (b";", "syntax@0"),
];

/// Texts of queries, and the tables and columns that they read.
pub const NEEDS: &[Case<'static>] = &[
    (b"select sum(lo_quantity) from lineorder", "0|0.1"),
    (
        b"select sum(lo_quantity - lo_discount), sum(lo_quantity) from lineorder where lo_quantity < 25",
        "0|0.1,0.2",
    ),
    (
        b"select c_nation, d_year, sum(lo_extendedprice * lo_discount) from customer, lineorder, date where c_custkey = lo_custkey and lo_orderdate = d_datekey and c_region = 'ASIA' group by c_nation, d_year",
        "0,1,2|0.0,0.2,0.3,0.4,1.0,1.1,2.0,2.1,2.2",
    ),
    (b"select r_date from returns group by r_date", "3|3.0"),
    (
        b"select sum(lo_quantity) from lineorder, date",
        "join missing@40",
    ),
];
