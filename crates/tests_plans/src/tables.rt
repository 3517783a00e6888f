//! Queries, and the lines of their plans.

/// A query, and its lines.
pub type Case<'a> = (&'a str, &'a str);

pub const PLANS: &[Case<'static>] = &[
    (
        "select sum(lo_extendedprice * lo_discount) from lineorder, date where lo_orderdate = d_datekey and d_year = 1993 and lo_discount between 1 and 3 and lo_quantity < 25",
        "o1 c1 = select d_year = 1993\n\
         o2 c2 = project d_datekey c1\n\
         o3 c3 = select lo_discount between 1 and 3\n\
         o4 c4 = select lo_quantity < 25\n\
         o5 c5 = intersect c3 c4\n\
         o6 c6 = semijoin lo_orderdate c2\n\
         o7 c7 = intersect c5 c6\n\
         o8 c8 = project lo_extendedprice c7\n\
         o9 c9 = project lo_discount c7\n\
         o10 c10 = sumproduct c8 c9\n",
    ),
    (
        "select sum(lo_quantity) from lineorder",
        "o1 c1 = sum lo_quantity\n",
    ),
    (
        "select lo_discount from lineorder group by lo_discount",
        "o1 c1 c2 = group lo_discount\n\
         o2 c3 = project lo_discount c2\n",
    ),
    (
        "select d_year, c_nation, sum(lo_revenue - lo_supplycost) as profit from lineorder, date, customer, part where lo_orderdate = d_datekey and lo_custkey = c_custkey and lo_partkey = p_partkey and c_region = 'AMERICA' and (p_mfgr = 'MFGR#1' or p_mfgr = 'it''s' or p_mfgr = '') group by d_year, c_nation order by d_year",
        "o1 c1 = select c_region = 'AMERICA'\n\
         o2 c2 = project c_custkey c1\n\
         o3 c3 = select p_mfgr = 'MFGR#1'\n\
         o4 c4 = select p_mfgr = 'it''s'\n\
         o5 c5 = select p_mfgr = ''\n\
         o6 c6 = union c3 c4\n\
         o7 c7 = union c6 c5\n\
         o8 c8 = project p_partkey c7\n\
         o9 c9 = semijoin lo_partkey c8\n\
         o10 c10 = project lo_orderdate c9\n\
         o11 c11 c12 = join c10 d_datekey\n\
         o12 c13 = project c9 c11\n\
         o13 c14 = project lo_custkey c13\n\
         o14 c15 c16 = join c14 c2\n\
         o15 c17 = project c13 c15\n\
         o16 c18 = project c12 c15\n\
         o17 c19 = project c1 c16\n\
         o18 c20 = project d_year c18\n\
         o19 c21 c22 = group c20\n\
         o20 c23 = project c_nation c19\n\
         o21 c24 c25 = refine c21 c23\n\
         o22 c26 = project lo_revenue c17\n\
         o23 c27 = project lo_supplycost c17\n\
         o24 c28 = sum c26 by c24\n\
         o25 c29 = sum c27 by c24\n\
         o26 c30 = project c20 c25\n\
         o27 c31 = project c23 c25\n",
    ),
    (
        "select sum(lo_revenue), sum(lo_quantity) from supplier, lineorder, part where s_suppkey = lo_suppkey and lo_partkey = p_partkey and s_region >= 'A' and lo_quantity in (7)",
        "o1 c1 = select s_region >= 'A'\n\
         o2 c2 = project s_suppkey c1\n\
         o3 c3 = select lo_quantity = 7\n\
         o4 c4 = semijoin lo_partkey p_partkey\n\
         o5 c5 = intersect c3 c4\n\
         o6 c6 = project lo_suppkey c5\n\
         o7 c7 c8 = join c6 c2\n\
         o8 c9 = project c5 c7\n\
         o9 c10 = project c1 c8\n\
         o10 c11 = project lo_revenue c9\n\
         o11 c12 = sum c11\n\
         o12 c13 = project lo_quantity c9\n\
         o13 c14 = sum c13\n",
    ),
    (
        "select c_nation, sum(lo_revenue * lo_quantity) from lineorder, customer, date where d_datekey = lo_orderdate and lo_custkey = c_custkey and d_year <= 1997 and d_year > 1992 and lo_discount between 3 and 1 group by c_nation",
        "o1 c1 = select d_year <= 1997\n\
         o2 c2 = select d_year > 1992\n\
         o3 c3 = intersect c1 c2\n\
         o4 c4 = project d_datekey c3\n\
         o5 c5 = select lo_discount between 3 and 1\n\
         o6 c6 = semijoin lo_orderdate c4\n\
         o7 c7 = intersect c5 c6\n\
         o8 c8 = project lo_custkey c7\n\
         o9 c9 c10 = join c8 c_custkey\n\
         o10 c11 = project c7 c9\n\
         o11 c12 = project c_nation c10\n\
         o12 c13 c14 = group c12\n\
         o13 c15 = project lo_revenue c11\n\
         o14 c16 = project lo_quantity c11\n\
         o15 c17 = sumproduct c15 c16 by c13\n\
         o16 c18 = project c12 c14\n",
    ),
];
