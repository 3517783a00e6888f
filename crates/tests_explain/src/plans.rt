//! The Star Schema Benchmark's queries, and the lines of their plans.

/// A query's text, and the lines of its plan.
pub type Case<'a> = (&'a str, &'a str);

/// A query that is known by its ten lines, and then the thirteen of the benchmark in their order.
pub const PLANS: &[Case<'static>] = &[
    (
        "select sum(lo_extendedprice * lo_discount) from lineorder, date where lo_orderdate = d_datekey and d_year = 1993 and lo_discount between 1 and 3 and lo_quantity < 25",
        "o1 c1 = select d_year = 1993\n\
         o2 c2 = project d_datekey c1\n\
         o3 c3 = select lo_discount between 1 and 3\n\
         o4 c4 = select lo_quantity < 25\n\
         o5 c5 = intersect c3 c4\n\
         o6 c6 = semijoin lo_orderdate c2\n\
         o7 c7 = intersect c5 c6\n\
         o8 c8 = project lo_extendedprice c7\n\
         o9 c9 = project lo_discount c7\n\
         o10 c10 = sumproduct c8 c9\n",
    ),
    (
        "select sum(lo_extendedprice*lo_discount) as revenue from lineorder, date where lo_orderdate = d_datekey and d_year = 1993 and lo_discount between 1 and 3 and lo_quantity < 25",
        "o1 c1 = select d_year = 1993\n\
         o2 c2 = project d_datekey c1\n\
         o3 c3 = select lo_discount between 1 and 3\n\
         o4 c4 = select lo_quantity < 25\n\
         o5 c5 = intersect c3 c4\n\
         o6 c6 = semijoin lo_orderdate c2\n\
         o7 c7 = intersect c5 c6\n\
         o8 c8 = project lo_extendedprice c7\n\
         o9 c9 = project lo_discount c7\n\
         o10 c10 = sumproduct c8 c9\n",
    ),
    (
        "select sum(lo_extendedprice*lo_discount) as revenue from lineorder, date where lo_orderdate = d_datekey and d_yearmonthnum = 199401 and lo_discount between 4 and 6 and lo_quantity between 26 and 35",
        "o1 c1 = select d_yearmonthnum = 199401\n\
         o2 c2 = project d_datekey c1\n\
         o3 c3 = select lo_discount between 4 and 6\n\
         o4 c4 = select lo_quantity between 26 and 35\n\
         o5 c5 = intersect c3 c4\n\
         o6 c6 = semijoin lo_orderdate c2\n\
         o7 c7 = intersect c5 c6\n\
         o8 c8 = project lo_extendedprice c7\n\
         o9 c9 = project lo_discount c7\n\
         o10 c10 = sumproduct c8 c9\n",
    ),
    (
        "select sum(lo_extendedprice*lo_discount) as revenue from lineorder, date where lo_orderdate = d_datekey and d_weeknuminyear = 6 and d_year = 1994 and lo_discount between 5 and 7 and lo_quantity between 26 and 35",
        "o1 c1 = select d_weeknuminyear = 6\n\
         o2 c2 = select d_year = 1994\n\
         o3 c3 = intersect c1 c2\n\
         o4 c4 = project d_datekey c3\n\
         o5 c5 = select lo_discount between 5 and 7\n\
         o6 c6 = select lo_quantity between 26 and 35\n\
         o7 c7 = intersect c5 c6\n\
         o8 c8 = semijoin lo_orderdate c4\n\
         o9 c9 = intersect c7 c8\n\
         o10 c10 = project lo_extendedprice c9\n\
         o11 c11 = project lo_discount c9\n\
         o12 c12 = sumproduct c10 c11\n",
    ),
    (
        "select sum(lo_revenue), d_year, p_brand1 from lineorder, date, part, supplier where lo_orderdate = d_datekey and lo_partkey = p_partkey and lo_suppkey = s_suppkey and p_category = 'MFGR#12' and s_region = 'AMERICA' group by d_year, p_brand1 order by d_year, p_brand1",
        "o1 c1 = select p_category = 'MFGR#12'\n\
         o2 c2 = project p_partkey c1\n\
         o3 c3 = select s_region = 'AMERICA'\n\
         o4 c4 = project s_suppkey c3\n\
         o5 c5 = semijoin lo_suppkey c4\n\
         o6 c6 = project lo_orderdate c5\n\
         o7 c7 c8 = join c6 d_datekey\n\
         o8 c9 = project c5 c7\n\
         o9 c10 = project lo_partkey c9\n\
         o10 c11 c12 = join c10 c2\n\
         o11 c13 = project c9 c11\n\
         o12 c14 = project c8 c11\n\
         o13 c15 = project c1 c12\n\
         o14 c16 = project d_year c14\n\
         o15 c17 c18 = group c16\n\
         o16 c19 = project p_brand1 c15\n\
         o17 c20 c21 = refine c17 c19\n\
         o18 c22 = project lo_revenue c13\n\
         o19 c23 = sum c22 by c20\n\
         o20 c24 = project c16 c21\n\
         o21 c25 = project c19 c21\n",
    ),
    (
        "select sum(lo_revenue), d_year, p_brand1 from lineorder, date, part, supplier where lo_orderdate = d_datekey and lo_partkey = p_partkey and lo_suppkey = s_suppkey and p_brand1 between 'MFGR#2221' and 'MFGR#2228' and s_region = 'ASIA' group by d_year, p_brand1 order by d_year, p_brand1",
        "o1 c1 = select p_brand1 between 'MFGR#2221' and 'MFGR#2228'\n\
         o2 c2 = project p_partkey c1\n\
         o3 c3 = select s_region = 'ASIA'\n\
         o4 c4 = project s_suppkey c3\n\
         o5 c5 = semijoin lo_suppkey c4\n\
         o6 c6 = project lo_orderdate c5\n\
         o7 c7 c8 = join c6 d_datekey\n\
         o8 c9 = project c5 c7\n\
         o9 c10 = project lo_partkey c9\n\
         o10 c11 c12 = join c10 c2\n\
         o11 c13 = project c9 c11\n\
         o12 c14 = project c8 c11\n\
         o13 c15 = project c1 c12\n\
         o14 c16 = project d_year c14\n\
         o15 c17 c18 = group c16\n\
         o16 c19 = project p_brand1 c15\n\
         o17 c20 c21 = refine c17 c19\n\
         o18 c22 = project lo_revenue c13\n\
         o19 c23 = sum c22 by c20\n\
         o20 c24 = project c16 c21\n\
         o21 c25 = project c19 c21\n",
    ),
    (
        "select sum(lo_revenue), d_year, p_brand1 from lineorder, date, part, supplier where lo_orderdate = d_datekey and lo_partkey = p_partkey and lo_suppkey = s_suppkey and p_brand1 = 'MFGR#2221' and s_region = 'EUROPE' group by d_year, p_brand1 order by d_year, p_brand1",
        "o1 c1 = select p_brand1 = 'MFGR#2221'\n\
         o2 c2 = project p_partkey c1\n\
         o3 c3 = select s_region = 'EUROPE'\n\
         o4 c4 = project s_suppkey c3\n\
         o5 c5 = semijoin lo_suppkey c4\n\
         o6 c6 = project lo_orderdate c5\n\
         o7 c7 c8 = join c6 d_datekey\n\
         o8 c9 = project c5 c7\n\
         o9 c10 = project lo_partkey c9\n\
         o10 c11 c12 = join c10 c2\n\
         o11 c13 = project c9 c11\n\
         o12 c14 = project c8 c11\n\
         o13 c15 = project c1 c12\n\
         o14 c16 = project d_year c14\n\
         o15 c17 c18 = group c16\n\
         o16 c19 = project p_brand1 c15\n\
         o17 c20 c21 = refine c17 c19\n\
         o18 c22 = project lo_revenue c13\n\
         o19 c23 = sum c22 by c20\n\
         o20 c24 = project c16 c21\n\
         o21 c25 = project c19 c21\n",
    ),
    (
        "select c_nation, s_nation, d_year, sum(lo_revenue) as revenue from customer, lineorder, supplier, date where lo_custkey = c_custkey and lo_suppkey = s_suppkey and lo_orderdate = d_datekey and c_region = 'ASIA' and s_region = 'ASIA' and d_year >= 1992 and d_year <= 1997 group by c_nation, s_nation, d_year order by d_year asc, revenue desc",
        "o1 c1 = select c_region = 'ASIA'\n\
         o2 c2 = project c_custkey c1\n\
         o3 c3 = select s_region = 'ASIA'\n\
         o4 c4 = project s_suppkey c3\n\
         o5 c5 = select d_year >= 1992\n\
         o6 c6 = select d_year <= 1997\n\
         o7 c7 = intersect c5 c6\n\
         o8 c8 = project d_datekey c7\n\
         o9 c9 c10 = join lo_custkey c2\n\
         o10 c11 = project c1 c10\n\
         o11 c12 = project lo_suppkey c9\n\
         o12 c13 c14 = join c12 c4\n\
         o13 c15 = project c9 c13\n\
         o14 c16 = project c11 c13\n\
         o15 c17 = project c3 c14\n\
         o16 c18 = project lo_orderdate c15\n\
         o17 c19 c20 = join c18 c8\n\
         o18 c21 = project c15 c19\n\
         o19 c22 = project c16 c19\n\
         o20 c23 = project c17 c19\n\
         o21 c24 = project c7 c20\n\
         o22 c25 = project c_nation c22\n\
         o23 c26 c27 = group c25\n\
         o24 c28 = project s_nation c23\n\
         o25 c29 c30 = refine c26 c28\n\
         o26 c31 = project d_year c24\n\
         o27 c32 c33 = refine c29 c31\n\
         o28 c34 = project lo_revenue c21\n\
         o29 c35 = sum c34 by c32\n\
         o30 c36 = project c25 c33\n\
         o31 c37 = project c28 c33\n\
         o32 c38 = project c31 c33\n",
    ),
    (
        "select c_city, s_city, d_year, sum(lo_revenue) as revenue from customer, lineorder, supplier, date where lo_custkey = c_custkey and lo_suppkey = s_suppkey and lo_orderdate = d_datekey and c_nation = 'UNITED STATES' and s_nation = 'UNITED STATES' and d_year >= 1992 and d_year <= 1997 group by c_city, s_city, d_year order by d_year asc, revenue desc",
        "o1 c1 = select c_nation = 'UNITED STATES'\n\
         o2 c2 = project c_custkey c1\n\
         o3 c3 = select s_nation = 'UNITED STATES'\n\
         o4 c4 = project s_suppkey c3\n\
         o5 c5 = select d_year >= 1992\n\
         o6 c6 = select d_year <= 1997\n\
         o7 c7 = intersect c5 c6\n\
         o8 c8 = project d_datekey c7\n\
         o9 c9 c10 = join lo_custkey c2\n\
         o10 c11 = project c1 c10\n\
         o11 c12 = project lo_suppkey c9\n\
         o12 c13 c14 = join c12 c4\n\
         o13 c15 = project c9 c13\n\
         o14 c16 = project c11 c13\n\
         o15 c17 = project c3 c14\n\
         o16 c18 = project lo_orderdate c15\n\
         o17 c19 c20 = join c18 c8\n\
         o18 c21 = project c15 c19\n\
         o19 c22 = project c16 c19\n\
         o20 c23 = project c17 c19\n\
         o21 c24 = project c7 c20\n\
         o22 c25 = project c_city c22\n\
         o23 c26 c27 = group c25\n\
         o24 c28 = project s_city c23\n\
         o25 c29 c30 = refine c26 c28\n\
         o26 c31 = project d_year c24\n\
         o27 c32 c33 = refine c29 c31\n\
         o28 c34 = project lo_revenue c21\n\
         o29 c35 = sum c34 by c32\n\
         o30 c36 = project c25 c33\n\
         o31 c37 = project c28 c33\n\
         o32 c38 = project c31 c33\n",
    ),
    (
        "select c_city, s_city, d_year, sum(lo_revenue) as revenue from customer, lineorder, supplier, date where lo_custkey = c_custkey and lo_suppkey = s_suppkey and lo_orderdate = d_datekey and (c_city = 'UNITED KI1' or c_city = 'UNITED KI5') and (s_city = 'UNITED KI1' or s_city = 'UNITED KI5') and d_year >= 1992 and d_year <= 1997 group by c_city, s_city, d_year order by d_year asc, revenue desc",
        "o1 c1 = select c_city = 'UNITED KI1'\n\
         o2 c2 = select c_city = 'UNITED KI5'\n\
         o3 c3 = union c1 c2\n\
         o4 c4 = project c_custkey c3\n\
         o5 c5 = select s_city = 'UNITED KI1'\n\
         o6 c6 = select s_city = 'UNITED KI5'\n\
         o7 c7 = union c5 c6\n\
         o8 c8 = project s_suppkey c7\n\
         o9 c9 = select d_year >= 1992\n\
         o10 c10 = select d_year <= 1997\n\
         o11 c11 = intersect c9 c10\n\
         o12 c12 = project d_datekey c11\n\
         o13 c13 c14 = join lo_custkey c4\n\
         o14 c15 = project c3 c14\n\
         o15 c16 = project lo_suppkey c13\n\
         o16 c17 c18 = join c16 c8\n\
         o17 c19 = project c13 c17\n\
         o18 c20 = project c15 c17\n\
         o19 c21 = project c7 c18\n\
         o20 c22 = project lo_orderdate c19\n\
         o21 c23 c24 = join c22 c12\n\
         o22 c25 = project c19 c23\n\
         o23 c26 = project c20 c23\n\
         o24 c27 = project c21 c23\n\
         o25 c28 = project c11 c24\n\
         o26 c29 = project c_city c26\n\
         o27 c30 c31 = group c29\n\
         o28 c32 = project s_city c27\n\
         o29 c33 c34 = refine c30 c32\n\
         o30 c35 = project d_year c28\n\
         o31 c36 c37 = refine c33 c35\n\
         o32 c38 = project lo_revenue c25\n\
         o33 c39 = sum c38 by c36\n\
         o34 c40 = project c29 c37\n\
         o35 c41 = project c32 c37\n\
         o36 c42 = project c35 c37\n",
    ),
    (
        "select c_city, s_city, d_year, sum(lo_revenue) as revenue from customer, lineorder, supplier, date where lo_custkey = c_custkey and lo_suppkey = s_suppkey and lo_orderdate = d_datekey and (c_city = 'UNITED KI1' or c_city = 'UNITED KI5') and (s_city = 'UNITED KI1' or s_city = 'UNITED KI5') and d_yearmonth = 'Dec1997' group by c_city, s_city, d_year order by d_year asc, revenue desc",
        "o1 c1 = select c_city = 'UNITED KI1'\n\
         o2 c2 = select c_city = 'UNITED KI5'\n\
         o3 c3 = union c1 c2\n\
         o4 c4 = project c_custkey c3\n\
         o5 c5 = select s_city = 'UNITED KI1'\n\
         o6 c6 = select s_city = 'UNITED KI5'\n\
         o7 c7 = union c5 c6\n\
         o8 c8 = project s_suppkey c7\n\
         o9 c9 = select d_yearmonth = 'Dec1997'\n\
         o10 c10 = project d_datekey c9\n\
         o11 c11 c12 = join lo_custkey c4\n\
         o12 c13 = project c3 c12\n\
         o13 c14 = project lo_suppkey c11\n\
         o14 c15 c16 = join c14 c8\n\
         o15 c17 = project c11 c15\n\
         o16 c18 = project c13 c15\n\
         o17 c19 = project c7 c16\n\
         o18 c20 = project lo_orderdate c17\n\
         o19 c21 c22 = join c20 c10\n\
         o20 c23 = project c17 c21\n\
         o21 c24 = project c18 c21\n\
         o22 c25 = project c19 c21\n\
         o23 c26 = project c9 c22\n\
         o24 c27 = project c_city c24\n\
         o25 c28 c29 = group c27\n\
         o26 c30 = project s_city c25\n\
         o27 c31 c32 = refine c28 c30\n\
         o28 c33 = project d_year c26\n\
         o29 c34 c35 = refine c31 c33\n\
         o30 c36 = project lo_revenue c23\n\
         o31 c37 = sum c36 by c34\n\
         o32 c38 = project c27 c35\n\
         o33 c39 = project c30 c35\n\
         o34 c40 = project c33 c35\n",
    ),
    (
        "select d_year, c_nation, sum(lo_revenue - lo_supplycost) as profit from date, customer, supplier, part, lineorder where lo_custkey = c_custkey and lo_suppkey = s_suppkey and lo_partkey = p_partkey and lo_orderdate = d_datekey and c_region = 'AMERICA' and s_region = 'AMERICA' and (p_mfgr = 'MFGR#1' or p_mfgr = 'MFGR#2') group by d_year, c_nation order by d_year, c_nation",
        "o1 c1 = select c_region = 'AMERICA'\n\
         o2 c2 = project c_custkey c1\n\
         o3 c3 = select s_region = 'AMERICA'\n\
         o4 c4 = project s_suppkey c3\n\
         o5 c5 = select p_mfgr = 'MFGR#1'\n\
         o6 c6 = select p_mfgr = 'MFGR#2'\n\
         o7 c7 = union c5 c6\n\
         o8 c8 = project p_partkey c7\n\
         o9 c9 = semijoin lo_suppkey c4\n\
         o10 c10 = semijoin lo_partkey c8\n\
         o11 c11 = intersect c9 c10\n\
         o12 c12 = project lo_orderdate c11\n\
         o13 c13 c14 = join c12 d_datekey\n\
         o14 c15 = project c11 c13\n\
         o15 c16 = project lo_custkey c15\n\
         o16 c17 c18 = join c16 c2\n\
         o17 c19 = project c15 c17\n\
         o18 c20 = project c14 c17\n\
         o19 c21 = project c1 c18\n\
         o20 c22 = project d_year c20\n\
         o21 c23 c24 = group c22\n\
         o22 c25 = project c_nation c21\n\
         o23 c26 c27 = refine c23 c25\n\
         o24 c28 = project lo_revenue c19\n\
         o25 c29 = project lo_supplycost c19\n\
         o26 c30 = sum c28 by c26\n\
         o27 c31 = sum c29 by c26\n\
         o28 c32 = project c22 c27\n\
         o29 c33 = project c25 c27\n",
    ),
    (
        "select d_year, s_nation, p_category, sum(lo_revenue - lo_supplycost) as profit from date, customer, supplier, part, lineorder where lo_custkey = c_custkey and lo_suppkey = s_suppkey and lo_partkey = p_partkey and lo_orderdate = d_datekey and c_region = 'AMERICA' and s_region = 'AMERICA' and (d_year = 1997 or d_year = 1998) and (p_mfgr = 'MFGR#1' or p_mfgr = 'MFGR#2') group by d_year, s_nation, p_category order by d_year, s_nation, p_category",
        "o1 c1 = select d_year = 1997\n\
         o2 c2 = select d_year = 1998\n\
         o3 c3 = union c1 c2\n\
         o4 c4 = project d_datekey c3\n\
         o5 c5 = select c_region = 'AMERICA'\n\
         o6 c6 = project c_custkey c5\n\
         o7 c7 = select s_region = 'AMERICA'\n\
         o8 c8 = project s_suppkey c7\n\
         o9 c9 = select p_mfgr = 'MFGR#1'\n\
         o10 c10 = select p_mfgr = 'MFGR#2'\n\
         o11 c11 = union c9 c10\n\
         o12 c12 = project p_partkey c11\n\
         o13 c13 = semijoin lo_custkey c6\n\
         o14 c14 = project lo_orderdate c13\n\
         o15 c15 c16 = join c14 c4\n\
         o16 c17 = project c13 c15\n\
         o17 c18 = project c3 c16\n\
         o18 c19 = project lo_suppkey c17\n\
         o19 c20 c21 = join c19 c8\n\
         o20 c22 = project c17 c20\n\
         o21 c23 = project c18 c20\n\
         o22 c24 = project c7 c21\n\
         o23 c25 = project lo_partkey c22\n\
         o24 c26 c27 = join c25 c12\n\
         o25 c28 = project c22 c26\n\
         o26 c29 = project c23 c26\n\
         o27 c30 = project c24 c26\n\
         o28 c31 = project c11 c27\n\
         o29 c32 = project d_year c29\n\
         o30 c33 c34 = group c32\n\
         o31 c35 = project s_nation c30\n\
         o32 c36 c37 = refine c33 c35\n\
         o33 c38 = project p_category c31\n\
         o34 c39 c40 = refine c36 c38\n\
         o35 c41 = project lo_revenue c28\n\
         o36 c42 = project lo_supplycost c28\n\
         o37 c43 = sum c41 by c39\n\
         o38 c44 = sum c42 by c39\n\
         o39 c45 = project c32 c40\n\
         o40 c46 = project c35 c40\n\
         o41 c47 = project c38 c40\n",
    ),
    (
        "select d_year, s_city, p_brand1, sum(lo_revenue - lo_supplycost) as profit from date, customer, supplier, part, lineorder where lo_custkey = c_custkey and lo_suppkey = s_suppkey and lo_partkey = p_partkey and lo_orderdate = d_datekey and c_region = 'AMERICA' and s_nation = 'UNITED STATES' and (d_year = 1997 or d_year = 1998) and p_category = 'MFGR#14' group by d_year, s_city, p_brand1 order by d_year, s_city, p_brand1",
        "o1 c1 = select d_year = 1997\n\
         o2 c2 = select d_year = 1998\n\
         o3 c3 = union c1 c2\n\
         o4 c4 = project d_datekey c3\n\
         o5 c5 = select c_region = 'AMERICA'\n\
         o6 c6 = project c_custkey c5\n\
         o7 c7 = select s_nation = 'UNITED STATES'\n\
         o8 c8 = project s_suppkey c7\n\
         o9 c9 = select p_category = 'MFGR#14'\n\
         o10 c10 = project p_partkey c9\n\
         o11 c11 = semijoin lo_custkey c6\n\
         o12 c12 = project lo_orderdate c11\n\
         o13 c13 c14 = join c12 c4\n\
         o14 c15 = project c11 c13\n\
         o15 c16 = project c3 c14\n\
         o16 c17 = project lo_suppkey c15\n\
         o17 c18 c19 = join c17 c8\n\
         o18 c20 = project c15 c18\n\
         o19 c21 = project c16 c18\n\
         o20 c22 = project c7 c19\n\
         o21 c23 = project lo_partkey c20\n\
         o22 c24 c25 = join c23 c10\n\
         o23 c26 = project c20 c24\n\
         o24 c27 = project c21 c24\n\
         o25 c28 = project c22 c24\n\
         o26 c29 = project c9 c25\n\
         o27 c30 = project d_year c27\n\
         o28 c31 c32 = group c30\n\
         o29 c33 = project s_city c28\n\
         o30 c34 c35 = refine c31 c33\n\
         o31 c36 = project p_brand1 c29\n\
         o32 c37 c38 = refine c34 c36\n\
         o33 c39 = project lo_revenue c26\n\
         o34 c40 = project lo_supplycost c26\n\
         o35 c41 = sum c39 by c37\n\
         o36 c42 = sum c40 by c37\n\
         o37 c43 = project c30 c38\n\
         o38 c44 = project c33 c38\n\
         o39 c45 = project c36 c38\n",
    ),
];
