//! Texts, and what each is read as or where it is refused. Made with a second implementation of the language.

/// A text and its outcome.
pub type Case<'a> = (&'a [u8], &'a str);

/// Texts of one query, and what they say: items, tables, conditions, groups and order keys, each name with its place.
pub const QUERIES: &[Case<'static>] = &[
    (b"select a from t", "a@7|t@14|||"),
    (b"SELECT Abc , _x9 FROM Tab;", "abc@7,_x9@13|tab@22|||"),
    (
        b"select sum(a), sum(a*b) as c, sum(a-b) from t",
        "sum(a@11),sum(a@19*b@21)as c@27,sum(a@34-b@36)|t@44|||",
    ),
    (
        b"select a from t where a=b and a=1 and a<2 and a<=3 and a>4 and a>=5 and a between 6 and 7 and a in(8) and a in (9,'x') and (a=10) and (a=11 or a='y'or A=12)",
        "a@7|t@14|a@22=b@24,a@30 = 1@32,a@38 < 2@40,a@46 <= 3@49,a@55 > 4@57,a@63 >= 5@66,a@72 between 6@82&7@88,a@94 in 8@99,a@106 in 9@112&'120'@114,a@124 in 10@126,a@135 in 11@137&'121'@145&12@153||",
    ),
    (
        b"select a from t group by a,b order by a, b asc, c desc",
        "a@7|t@14||a@25,b@27|a@38,b@41,c@48 desc",
    ),
    (b"select a from t where a = ''", "a@7|t@14|a@22 = ''@26||"),
    (
        b"select a from t where a = ''''",
        "a@7|t@14|a@22 = '39'@26||",
    ),
    (
        b"select a from t where a = 'it''s' and b = '''' and c = '''''' and d = 'x'''",
        "a@7|t@14|a@22 = '105.116.39.115'@26,b@38 = '39'@42,c@51 = '39.39'@55,d@66 = '120.39'@70||",
    ),
    (
        b"select a from t where a = '\xff\x80\x00\x0a;' and b > 'caf\xc3\xa9'",
        "a@7|t@14|a@22 = '255.128.0.10.59'@26,b@38 > '99.97.102.195.169'@42||",
    ),
    (
        b"select a from t where a = 18446744073709551615 and b = 0 and c = 000 and d = 0018446744073709551615 and e = 0000000000000000000000000000007",
        "a@7|t@14|a@22 = 18446744073709551615@26,b@51 = 0@55,c@61 = 0@65,d@73 = 18446744073709551615@77,e@104 = 7@108||",
    ),
    (
        b" \x09\x0d\x0aselect\x09a\x0dfrom\x0at\x0a; \x09",
        "a@11|t@18|||",
    ),
    (
        b"select selects from froms where ors = ands",
        "selects@7|froms@20|ors@32=ands@38||",
    ),
    (
        b"select a from t where a<=1 and a>=1",
        "a@7|t@14|a@22 <= 1@25,a@31 >= 1@34||",
    ),
    (
        b"select a from t where a between 'x' and 3",
        "a@7|t@14|a@22 between '120'@32&3@40||",
    ),
];

/// Texts that are refused: the first letter of the cause, and the place.
pub const REFUSED: &[Case<'static>] = &[
    (b"", "S0"),
    (b" ", "S1"),
    (b";", "S0"),
    (b" \x0a ;", "S3"),
    (b"a", "S0"),
    (b"select", "S6"),
    (b"select ", "S7"),
    (b"select a", "S8"),
    (b"select a from", "S13"),
    (b"select a from t,", "S16"),
    (b"select a, from t", "S10"),
    (b"select from t", "S7"),
    (b"select sum(a) from t where", "S26"),
    (b"select sum(a) from t where a <> 3", "S30"),
    (b"select sum(t.a) from t", "B12"),
    (b"select sum(a) from t where (a = 1 or b = 2)", "S37"),
    (b"select a from t; ;", "S17"),
    (b"select a from t;;", "S16"),
    (b"select a from t; select b from u", "S17"),
    (b"select a from t x", "S16"),
    (b"select a from t where a", "S23"),
    (b"select a from t where a = select", "S26"),
    (b"select a from t where ()", "S23"),
    (b"select a from t where ((a = 1))", "S23"),
    (b"select a from t where (a = 1", "S28"),
    (b"select a from t where (a = 1))", "S29"),
    (b"select a from t where (a < 1)", "S25"),
    (b"select a from t where (a = b)", "S27"),
    (b"select a from t where (a = 1 or", "S31"),
    (b"select a from t where (a = 1 or a", "S33"),
    (b"select a from t where (a = 1 or a =", "S35"),
    (b"select a from t where (a = 1, a = 2)", "S28"),
    (b"select a from t where (a in (1))", "S25"),
    (b"select a from t where (a = 1 and a = 2)", "S29"),
    (b"select a from t where a in ()", "S28"),
    (b"select a from t where a in (1,)", "S30"),
    (b"select a from t where a in 1", "S27"),
    (b"select a from t where a in (1", "S29"),
    (b"select a from t where a in (b)", "S28"),
    (b"select a from t where a in ((1))", "S28"),
    (b"select a from t where a between 1", "S33"),
    (b"select a from t where a between 1 or 2", "S34"),
    (b"select a from t where a between b and 2", "S32"),
    (b"select a from t where 1 = a", "S22"),
    (b"select a from t where a == 1", "S25"),
    (b"select a from t where a = = 1", "S26"),
    (b"select a from t where a => 1", "S25"),
    (b"select a from t where a < b", "S26"),
    (b"select a from t where a = 18446744073709551616", "N26"),
    (b"select a from t where a = 018446744073709551616", "N26"),
    (
        b"select a from t where a = 123456789012345678901234567890",
        "N26",
    ),
    (b"select a from t where a = 99999999999999999999", "N26"),
    (b"18446744073709551616", "N0"),
    (b"select 18446744073709551616", "N7"),
    (b"select a from t where a = 'x", "O26"),
    (b"select a from t where a = 'x''", "O26"),
    (b"select a from t where a = '", "O26"),
    (b"select a from t where a = '''", "O26"),
    (b"'", "O0"),
    (b"select 'x", "O7"),
    (b"select a from t where a = 'x'y'", "S29"),
    (b"select a.b from t", "B8"),
    (b"!", "B0"),
    (b"select a ! from t", "B9"),
    (b"select a from t where a = 1 ! 2", "B28"),
    (b"select a from from !", "S14"),
    (b"select a from t \xff", "B16"),
    (b"select \xff", "B7"),
    (b"select a\x00 from t", "B8"),
    (b"select a from t;!", "B16"),
    (b"select a from t; 'x", "O17"),
    (b"select a from t; x !", "S17"),
    (b"#select", "B0"),
    (b"select a \"b\" from t", "B9"),
    (b"select sum from t", "S11"),
    (b"select sum() from t", "S11"),
    (b"select sum(a from t", "S13"),
    (b"select sum(a b) from t", "S13"),
    (b"select sum(a*) from t", "S13"),
    (b"select sum(a*b*c) from t", "S14"),
    (b"select sum(a+b) from t", "B12"),
    (b"select sum(1) from t", "S11"),
    (b"select sum(sum(a)) from t", "S11"),
    (b"select sum(a) as from t", "S17"),
    (b"select a as b from t", "S9"),
    (b"select sum(a) b from t", "S14"),
    (b"select * from t", "S7"),
    (b"select a from t group a", "S22"),
    (b"select a from t group by", "S24"),
    (b"select a from t group by a,", "S27"),
    (b"select a from t order a", "S22"),
    (b"select a from t order by a asc desc", "S31"),
    (b"select a from t order by a, desc", "S28"),
    (b"select a from t order by b group by a", "S27"),
    (b"select a from t where a = 1 or b = 2", "S28"),
    (b"select a from t where a = 1, b = 2", "S27"),
    (b"select a from t group by a where a = 1", "S27"),
    (b"select a from where", "S14"),
    (b"select and from t", "S7"),
    (b"select a from t where as = 1", "S22"),
    (b"sel\x09ect a from t", "S0"),
    (b"select a from t where a < = 1", "S26"),
    (b"select a from t where a = -1", "S26"),
    (b"9a", "S0"),
    (b"select 9a from t", "S7"),
    (b"select a9_ from 9", "S16"),
    (b"1 2 3", "S0"),
];

/// Texts of several queries.
pub const SEVERAL: &[Case<'static>] = &[
    (b"", "S0"),
    (b" ", "S1"),
    (b";", "S0"),
    (b" ;", "S1"),
    (b" \x09;", "S2"),
    (b"; select a from t", "S0"),
    (b"!", "B0"),
    (b"'", "O0"),
    (b"select a from t", "a@7|t@14|||"),
    (b"select a from t;", "a@7|t@14|||"),
    (b" select a from t ; ", "a@8|t@15|||"),
    (b"select a from t;;", "S16"),
    (b"select a from t; ;", "S17"),
    (b"select a from t; ; select b from u", "S17"),
    (
        b"select a from t; select b from u",
        "a@7|t@14|||;b@24|u@31|||",
    ),
    (
        b"select a from t; select b from u;",
        "a@7|t@14|||;b@24|u@31|||",
    ),
    (
        b"select a from t;select b from u where x = 'a;b';select sum(c) from v",
        "a@7|t@14|||;b@23|u@30|x@38 = '97.59.98'@42||;sum(c@59)|v@67|||",
    ),
    (b"select a from t select b from u", "S16"),
    (b"select a from t; select b", "S25"),
    (b"select a from t; select b from u;;", "S33"),
    (b"select a from t; select b from u; x", "S34"),
    (b"select a from t; x", "S17"),
    (b"select a from t;!", "B16"),
    (b"select a from t; 'x", "O17"),
    (b"select a from t;  99999999999999999999", "N18"),
    (b"select a from t; select ! from u", "B24"),
    (b"select a from t; select b from u; !", "B34"),
    (b"select a from ; select b !", "S14"),
    (b"select a; select b from u", "S8"),
    (b"select a from t where a = ; 'x", "S26"),
    (
        b"select a from t; select b from u group by c order by d desc; select e from w;",
        "a@7|t@14|||;b@24|u@31||c@42|d@53 desc;e@68|w@75|||",
    ),
];

/// Long queries, each with the outcomes of its fronts, from the empty one to the whole.
pub const LONG: &[Case<'static>] = &[
    (
        b"select sum(lo_extendedprice * lo_discount) as revenue from lineorder, date where lo_orderdate = d_datekey and d_year = 1993 and lo_discount between 1 and 3 and lo_quantity < 25",
        "S0 S0 S0 S0 S0 S0 S6 S7 S8 S9 S10 S11 S12 S13 S14 S15 S16 S17 S18 S19 S20 S21 S22 S23 S24 S25 S26 S27 S28 S29 S30 S31 S32 S33 S34 S35 S36 S37 S38 S39 S40 S41 S42 S43 S43 S45 S46 S47 S48 S49 S50 S51 S52 S53 S54 S54 S54 S54 S58 S59 Q Q Q Q Q Q Q Q Q S69 S70 Q Q Q Q Q S75 S75 S75 S75 S80 S81 S82 S83 S84 S85 S86 S87 S88 S89 S90 S91 S92 S93 S94 S95 S96 Q Q Q Q Q Q Q Q Q Q S106 S106 S109 S110 S111 S112 S113 S114 S115 S116 S117 S118 S119 Q Q Q Q Q S124 S124 S127 S128 S129 S130 S131 S132 S133 S134 S135 S136 S137 S138 S139 S140 S140 S140 S140 S140 S140 S140 S147 S148 S149 S150 S150 S150 S153 S154 Q Q S156 S156 S159 S160 S161 S162 S163 S164 S165 S166 S167 S168 S169 S170 S171 S172 S173 S174 Q Q",
    ),
    (
        b"select d_year, p_brand1, sum(lo_revenue) from lineorder, date, part where p_category = 'MFGR#12' and s_region in ('AMERICA', 'ASIA') group by d_year, p_brand1 order by d_year, p_brand1 desc;",
        "S0 S0 S0 S0 S0 S0 S6 S7 S8 S9 S10 S11 S12 S13 S14 S15 S16 S17 S18 S19 S20 S21 S22 S23 S24 S25 S26 S27 S28 S29 S30 S31 S32 S33 S34 S35 S36 S37 S38 S39 S40 S41 S41 S41 S41 S45 S46 Q Q Q Q Q Q Q Q Q S56 S57 Q Q Q Q S62 S63 Q Q Q Q Q S68 S68 S68 S68 S73 S74 S75 S76 S77 S78 S79 S80 S81 S82 S83 S84 S85 S86 S87 O87 O87 O87 O87 O87 O87 O87 O87 Q Q S97 S97 S100 S101 S102 S103 S104 S105 S106 S107 S108 S109 S110 S110 S112 S113 S114 O114 O114 O114 O114 O114 O114 O114 O114 S123 S124 S125 O125 O125 O125 O125 O125 S131 Q Q S133 S133 S133 S133 S138 S139 S139 S141 S142 Q Q Q Q Q Q S149 S150 Q Q Q Q Q Q Q Q Q S159 S159 S159 S159 S164 S165 S165 S167 S168 Q Q Q Q Q Q S175 S176 Q Q Q Q Q Q Q Q Q S185 S185 S185 Q Q",
    ),
    (
        b"Select c_city,sum(lo_revenue-lo_supplycost)As profit From lineorder,customer Where(c_city='UNITED KI1'or c_city='O''Brien'or c_city='')And d_year>=1992 and d_year<=1997",
        "S0 S0 S0 S0 S0 S0 S6 S7 S8 S9 S10 S11 S12 S13 S14 S15 S16 S17 S18 S19 S20 S21 S22 S23 S24 S25 S26 S27 S28 S29 S30 S31 S32 S33 S34 S35 S36 S37 S38 S39 S40 S41 S42 S43 S43 S45 S46 S47 S48 S49 S50 S51 S52 S53 S53 S53 S53 S57 S58 Q Q Q Q Q Q Q Q Q S68 Q Q Q Q Q Q Q Q Q S77 S77 S77 S77 S82 S83 S84 S85 S86 S87 S88 S89 S90 O90 O90 O90 O90 O90 O90 O90 O90 O90 O90 O90 S102 S102 S104 S105 S105 S105 S105 S105 S105 S111 S112 O112 O112 S115 O112 O112 O112 O112 O112 O112 S122 S122 S124 S125 S125 S125 S125 S125 S125 S131 S132 O132 S134 Q S135 S135 S138 S139 S140 S141 S142 S143 S144 S145 S146 S147 Q Q Q Q Q S152 S152 S155 S156 S157 S158 S159 S160 S161 S162 S163 S164 Q Q Q Q",
    ),
    (
        b"select sum(a), sum(a * b), sum(a - b) from t where a > 18446744073709551615 and x < 'z' and (a = 1) and b in (007) order by k asc, m desc",
        "S0 S0 S0 S0 S0 S0 S6 S7 S8 S9 S10 S11 S12 S13 S14 S15 S16 S17 S18 S19 S20 S21 S22 S23 S24 S25 S26 S27 S28 S29 S30 S31 S32 S33 S34 S35 S36 S37 S38 S38 S38 S38 S42 S43 Q Q S45 S45 S45 S45 S50 S51 S52 S53 S54 S55 Q Q Q Q Q Q Q Q Q Q Q Q Q Q Q Q Q Q Q Q Q S76 S76 S79 S80 S81 S82 S83 S84 O84 O84 Q Q S88 S88 S91 S92 S93 S94 S95 S96 S97 S98 Q Q S100 S100 S103 S104 S105 S106 S106 S108 S109 S110 S111 S112 S113 Q Q S115 S115 S115 S115 S120 S121 S121 S123 S124 Q Q S126 S126 Q S130 S131 Q Q S133 S133 S133 Q",
    ),
    (
        b"\x09 select\x0d\x0a_x1 from T_2 where t9=u and 'no' = 3",
        "S0 S1 S2 S2 S2 S2 S2 S2 S8 S9 S10 S11 S12 S13 S14 S14 S14 S14 S18 S19 Q Q Q Q S23 S23 S23 S23 S28 S29 S30 S31 S32 Q Q S34 S34 S37 S38 O38 O38 O38 S38 S38 S38 S38 S38",
    ),
];

/// Tokens of each kind.
pub const OTHERS: &[&str] = &["x", "9", "'s'", "select", "and", "(", ")", ",", ";", "="];

/// The tokens of queries, and the outcomes where each in turn is replaced by each of the others.
pub const REPLACED: &[(&[&str], &str)] = &[
    (
        &[
            "select", "a", ",", "sum", "(", "b", "*", "c", ")", "as", "d", "from", "t", ",", "u",
        ],
        "S0 S0 S0 Q S0 S0 S0 S0 S0 S0 Q S7 S7 S7 S7 S7 S7 S7 S7 S7 S9 S9 S9 S9 S9 S9 S9 Q S9 S9 S13 S11 S11 S11 S11 S11 S11 S11 S11 S11 S15 S15 S15 S15 S15 Q S15 S15 S15 S15 Q S17 S17 S17 S17 S17 S17 S17 S17 S17 S19 S19 S19 S19 S19 S19 S21 S19 S19 S19 Q S21 S21 S21 S21 S21 S21 S21 S21 S21 S23 S23 S23 S23 S23 S23 Q S23 S23 S23 S25 S25 S25 S25 S25 S25 S25 Q S25 S25 Q S28 S28 S28 S28 S28 S28 S28 S28 S28 S30 S30 S30 S30 S30 S30 S30 S37 S30 S30 Q S35 S35 S35 S35 S35 S35 S35 S35 S35 S37 S37 S37 S37 S37 S37 S37 Q S39 S37 Q S39 S39 S39 S39 S39 S39 S39 S39 S39",
    ),
    (
        &[
            "select", "sum", "(", "a", "-", "b", ")", "from", "t", "where", "x", "=", "y", "and",
            "z", "<=", "'q'", "group", "by", "g", ",", "h",
        ],
        "S0 S0 S0 Q S0 S0 S0 S0 S0 S0 S9 S7 S7 S7 S7 S7 S7 S7 S7 S7 S11 S11 S11 S11 S11 Q S11 S11 S11 S11 Q S13 S13 S13 S13 S13 S13 S13 S13 S13 S15 S15 S15 S15 S15 S15 S17 S15 S15 S15 Q S17 S17 S17 S17 S17 S17 S17 S17 S17 S19 S19 S19 S19 S19 S19 Q S19 S19 S19 S21 S21 S21 S21 S21 S21 S21 S25 S21 S21 Q S26 S26 S26 S26 S26 S26 S26 S26 S26 S28 S28 S28 S28 S28 S28 S28 S32 S30 S28 Q S34 S34 S34 S34 S36 S34 S34 S34 S34 S36 S36 S36 S36 S36 S36 S36 S36 S36 Q Q Q Q S38 S38 S38 S38 S38 S38 S38 S40 S40 S40 S40 Q S40 S40 S40 S42 S40 Q S44 S44 S44 S44 S46 S44 S44 S44 S44 S46 S46 S46 S46 S46 S46 S46 S46 S46 Q S49 Q Q S49 S49 S49 S49 S49 S49 S49 S53 S53 S53 S53 S57 S53 S53 S53 S55 S53 S59 S59 S59 S59 S59 S59 S59 S59 S59 S59 Q S62 S62 S62 S62 S62 S62 S62 S62 S62 S64 S64 S64 S64 S64 S64 S64 Q S66 S64 Q S66 S66 S66 S66 S66 S66 S66 S66 S66",
    ),
    (
        &[
            "select", "a", "from", "t", "where", "x", "between", "1", "and", "'b'", "and", "y",
            "in", "(", "1", ",", "'c'", ")", ";",
        ],
        "S0 S0 S0 Q S0 S0 S0 S0 S0 S0 Q S7 S7 S7 S7 S7 S7 S7 S7 S7 S9 S9 S9 S9 S9 S9 S9 S13 S9 S9 Q S14 S14 S14 S14 S14 S14 S14 S14 S14 S16 S16 S16 S16 S16 S16 S16 S20 S18 S16 Q S22 S22 S22 S22 S24 S22 S22 S22 S22 S24 S24 S24 S24 S24 S24 S24 S24 S24 S32 S32 Q Q S32 S32 S32 S32 S32 S32 S32 S34 S34 S34 S34 Q S34 S34 S34 S34 S34 S38 Q Q S38 S38 S38 S38 S38 S38 S38 S42 S42 S42 S42 Q S42 S42 S42 S44 S42 Q S46 S46 S46 S46 S48 S46 S46 S46 S46 S48 S48 S48 S48 S48 S48 S48 S48 S48 S50 S51 S51 S51 S51 S51 Q S51 S51 S51 S51 S53 Q Q S53 S53 S53 S53 S53 S53 S53 S55 S55 S55 S55 S55 S55 S57 Q S55 S55 S57 Q Q S57 S57 S57 S57 S57 S57 S57 S61 S61 S61 S61 S61 S61 Q S63 S61 S61 S63 S63 S63 S63 S66 S63 S63 S63 Q S63",
    ),
    (
        &[
            "select", "a", "from", "t", "where", "(", "x", "=", "1", "or", "x", "=", "'b'", ")",
            "and", "z", ">", "9", "order", "by", "k", ",", "m", "desc", ";",
        ],
        "S0 S0 S0 Q S0 S0 S0 S0 S0 S0 Q S7 S7 S7 S7 S7 S7 S7 S7 S7 S9 S9 S9 S9 S9 S9 S9 S13 S9 S9 Q S14 S14 S14 S14 S14 S14 S14 S14 S14 S16 S16 S16 S16 S16 S16 S16 S18 S18 S16 S24 S22 S22 S22 S22 Q S22 S22 S22 S22 Q S24 S24 S24 S24 S24 S24 S24 S24 S24 S26 S26 S26 S26 S26 S26 S26 S26 S26 Q S28 Q Q S28 S28 S28 S28 S28 S28 S28 S30 S30 S30 S30 S30 S30 S32 S30 S30 S30 Q S33 S33 S33 S33 S33 S33 S33 S33 S33 S35 S35 S35 S35 S35 S35 S35 S35 S35 Q S37 Q Q S37 S37 S37 S37 S37 S37 S37 S41 S41 S41 S41 S41 S41 Q S41 S41 S41 S43 S43 S43 S43 Q S43 S43 S43 S45 S43 Q S47 S47 S47 S47 S49 S47 S47 S47 S47 S49 S49 S49 S49 S49 S49 S49 S49 S49 Q S51 Q Q S51 S51 S51 S51 S51 S51 S51 S53 S53 S53 S53 S57 S53 S53 S53 S55 S53 S59 S59 S59 S59 S59 S59 S59 S59 S59 S59 Q S62 S62 S62 S62 S62 S62 S62 S62 S62 S64 S64 S64 S64 S64 S64 S64 Q S66 S64 Q S66 S66 S66 S66 S66 S66 S66 S66 S66 S68 S68 S68 S68 S68 S68 S68 S70 S70 S68 S73 S73 S73 S73 S73 S73 S73 S74 Q S73",
    ),
    (
        &[
            "select", "sum", "(", "a", ")", "as", "s", "from", "t", "where", "x", ">=", "0",
            "order", "by", "k", "asc", ";",
        ],
        "S0 S0 S0 Q S0 S0 S0 S0 S0 S0 S9 S7 S7 S7 S7 S7 S7 S7 S7 S7 S11 S11 S11 S11 S11 Q S11 S11 S11 S11 Q S13 S13 S13 S13 S13 S13 S13 S13 S13 S15 S15 S15 S15 S15 S15 Q S15 S15 S15 S17 S17 S17 S17 S17 S17 S17 Q S17 S17 Q S20 S20 S20 S20 S20 S20 S20 S20 S20 S22 S22 S22 S22 S22 S22 S22 S26 S22 S22 Q S27 S27 S27 S27 S27 S27 S27 S27 S27 S29 S29 S29 S29 S29 S29 S29 S33 S31 S29 Q S35 S35 S35 S35 S37 S35 S35 S35 S35 S37 S37 S37 S37 S37 S37 S37 S37 S37 Q S40 Q Q S40 S40 S40 S40 S40 S40 S40 S42 S42 S42 S42 S46 S42 S42 S42 S44 S42 S48 S48 S48 S48 S48 S48 S48 S48 S48 S48 Q S51 S51 S51 S51 S51 S51 S51 S51 S51 S53 S53 S53 S53 S53 S53 S53 S55 S55 S53 S57 S57 S57 S57 S57 S57 S57 S58 Q S57",
    ),
];
