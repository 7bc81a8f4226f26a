//! Rows, each with its kind, what is due, and the form that it is asked of.

/// Small expressions and their code; forms with their loads reused, as an independent implementation has them; the variables that occur where
/// they are renamed by webs, and where common subexpressions are eliminated; a statement where invariants of loops are held before
/// them; and forms with conditions threaded, and with checks of sums before the sums.
pub const PASSES: &str = r#"lower|1;print c 10;halt 7|
reuse|main 0 5 0;store 4 16 3;v4 = load 4 16;v0 = v4;v1 = v4;v2 = v0 * v1;store 4 20 v2;v3 = load 4 20;print d v3;print c 10;halt 0|main 0 4 0;store 4 16 3;v0 = load 4 16;v1 = load 4 16;v2 = v0 * v1;store 4 20 v2;v3 = load 4 20;print d v3;print c 10;halt 0
reuse|main 0 10 0;v0 = 16;v1 = v0 + 4;good 4 v1;v8 = load 4 v1;v2 = v8;good 4 v2;v9 = load 4 v2;v3 = v9;v4 = v0 + 4;good 4 v4;v5 = v8;good 4 v5;v6 = v9;v7 = v3 + v6;halt v7|main 0 8 0;v0 = 16;v1 = v0 + 4;good 4 v1;v2 = load 4 v1;good 4 v2;v3 = load 4 v2;v4 = v0 + 4;good 4 v4;v5 = load 4 v4;good 4 v5;v6 = load 4 v5;v7 = v3 + v6;halt v7
reuse|main 0 13 0;good 4 v0;v11 = load 4 v0;v2 = v11;v3 = v0 + 4;good 4 v3;v12 = load 4 v3;v4 = v12;v5 = v2 + v4;v1 = v5;v6 = v0 + 8;good 4 v6;store 4 v6 v1;good 4 v0;v7 = v11;v8 = v0 + 4;good 4 v8;v9 = v12;v10 = v7 + v9;return v10|main 0 11 0;good 4 v0;v2 = load 4 v0;v3 = v0 + 4;good 4 v3;v4 = load 4 v3;v5 = v2 + v4;v1 = v5;v6 = v0 + 8;good 4 v6;store 4 v6 v1;good 4 v0;v7 = load 4 v0;v8 = v0 + 4;good 4 v8;v9 = load 4 v8;v10 = v7 + v9;return v10
reuse|main 0 8 0;good 1 v0;v7 = load s1 v0;v2 = v7;v1 = v2;good 1 v0;v3 = load u1 v0;v4 = v1 + v3;v1 = v4;good 1 v0;v5 = v7;v6 = v1 + v5;return v6|main 0 7 0;good 1 v0;v2 = load s1 v0;v1 = v2;good 1 v0;v3 = load u1 v0;v4 = v1 + v3;v1 = v4;good 1 v0;v5 = load s1 v0;v6 = v1 + v5;return v6
reuse|main 0 6 0;good 4 v0;v3 = load 4 v0;v2 = v3;good 4 v1;store 4 v1 1;good 4 v0;v4 = load 4 v0;v5 = v2 + v4;return v5|main 0 6 0;good 4 v0;v3 = load 4 v0;v2 = v3;good 4 v1;store 4 v1 1;good 4 v0;v4 = load 4 v0;v5 = v2 + v4;return v5
reuse|main 0 5 0;good 4 v0;v2 = load 4 v0;v1 = v2;good 1 v0;store 1 v0 1;good 4 v0;v3 = load 4 v0;v4 = v1 + v3;return v4|main 0 5 0;good 4 v0;v2 = load 4 v0;v1 = v2;good 1 v0;store 1 v0 1;good 4 v0;v3 = load 4 v0;v4 = v1 + v3;return v4
reuse|main 0 4 0;v1 = load 4 16;v0 = v1;room 0;call v0 0;v2 = load 4 16;v3 = v0 + v2;v0 = v3;halt v0|main 0 4 0;v1 = load 4 16;v0 = v1;room 0;call v0 0;v2 = load 4 16;v3 = v0 + v2;v0 = v3;halt v0
reuse|main 0 8 0;v1 = load 4 16;v0 = v1;if v0 != 0;v7 = load 4 16;v2 = v7;v3 = v7;v4 = v2 + v3;v0 = v4;else;end;v5 = load 4 16;v6 = v0 + v5;v0 = v6;halt v0|main 0 7 0;v1 = load 4 16;v0 = v1;if v0 != 0;v2 = load 4 16;v3 = load 4 16;v4 = v2 + v3;v0 = v4;else;end;v5 = load 4 16;v6 = v0 + v5;v0 = v6;halt v0
reuse|main 0 5 0;store 4 16 3;v4 = load 4 16;v0 = v4;v1 = v4;v2 = v0 * v1;store 4 20 v2;v3 = load 4 20;print d v3;halt 0|main 0 4 0;store 4 16 3;v0 = load 4 16;v1 = load 4 16;v2 = v0 * v1;store 4 20 v2;v3 = load 4 20;print d v3;halt 0
webs|12 v1 v1 v1 v1 v1 v11 v11 v11 v11 v11|main 0 11 0;v1 = 16;loop;if v1 < 24;else;break;end;store 4 v1 7;step;v1 = v1 + 4;end;v1 = 0;loop;if v1 < 2;else;break;end;print d v1;step;v1 = v1 + 1;end;halt 0
webs|12 v1 v11 v11 v11 v11 v11|main 0 11 0;v1 = 16;loop;v1 = 0;loop;if v1 < 2;else;break;end;print d v1;step;v1 = v1 + 1;end;step;end;halt 0
webs|11 v1 v1 v1 v1 v1 v1 v1|main 0 11 0;v1 = 16;loop;store 4 v1 7;v1 = 0;loop;if v1 < 2;else;break;end;print d v1;step;v1 = v1 + 1;end;step;end;halt 0
webs|10 v1 v1 v1 v1|main 0 10 0;v1 = 1;print d v1;v1 = 2;print d v1;halt 0
commons| v1 v2 v1 v3 v2 v2 v2|main 0 5 0;v1 = load 4 64;v2 = v1 * 4;v3 = v1 * 4;store 4 v2 7;store 4 v3 7;halt 0|naaaa
commons| v1 v2 v1 v1 v1 v3 v1 v2 v3|main 0 5 0;v1 = load 4 64;v2 = v1 * 4;v1 = v1 + 1;v3 = v1 * 4;store 4 v2 7;store 4 v3 7;halt 0|naaaa
commons| v1 v2 v1 v3 v1 v2 v3|main 0 5 0;v1 = load 4 64;v2 = v1 * 4;v3 = v1 * 4;store 4 v2 7;store 4 v3 7;halt 0|naaba
commons| v1 v3 v1 v3 v1 v3|main 0 5 0;v1 = load 4 64;v3 = 64 + v1;v3 = v3;store 4 v3 7;halt 0|naaaa
commons| v1 v3 v1 v1 v1 v3 v3 v3|main 0 5 0;v1 = load 4 64;v3 = 64 + v1;v1 = v1 + 1;v3 = v3;store 4 v3 7;halt 0|naaaa
commons| v1 v3 v1 v3 v3 v3|main 0 5 0;v1 = load 4 64;v3 = 64 + v1;v3 = v3;store 4 v3 7;halt 0|naaba
commons| v1 v2 v1 v1 v3 v2 v2 v4 v2 v2|main 0 5 0;v1 = load 4 64;v2 = v1 * 4;if v1 < 9;v3 = v1 * 4;store 4 v3 7;else;end;v4 = v1 * 4;store 4 v4 7;halt 0|naaaa
commons| v1 v2 v1 v1 v1 v1 v4 v1 v4|main 0 5 0;v1 = load 4 64;v2 = v1 * 4;if v1 < 9;v1 = v1 + 1;else;end;v4 = v1 * 4;store 4 v4 7;halt 0|naaaa
commons| v1 v2 v1 v1 v1 v1 v4 v2 v2|main 0 5 0;v1 = load 4 64;v2 = v1 * 4;if v1 < 9;v1 = v1 + 1;halt 0;else;end;v4 = v1 * 4;store 4 v4 7;halt 0|naaaa
commons| v1 v2 v1 v3 v1 v3 v1 v1|main 0 5 0;v1 = load 4 64;v2 = v1 * 4;loop;v3 = v1 * 4;store 4 v3 7;step;v1 = v1 + 1;end;halt 0|naaaa
commons| v1 v2 v1 v3 v1 v3 v2 v2|main 0 5 0;v1 = load 4 64;v2 = v1 * 4;loop;v3 = v1 * 4;store 4 v3 7;step;v2 = v2 + 1;end;halt 0|naaaa
commons| v1 v2 v1 v3 v2 v2 v4 v2 v2|main 0 5 0;v1 = load 4 64;v2 = v1 * 4;loop;v3 = v1 * 4;store 4 v3 7;step;end;v4 = v1 * 4;store 4 v4 7;halt 0|naaaa
hoisted|v2 = v1 + 4|main 0 6 0;v1 = load 4 64;v2 = 0;v3 = 0;loop;v4 = v1 + 4;v5 = v4 + 8;store 4 v5 7;step;end;halt 0|nannaa|2
hoisted|v3 = v2 + 8|main 0 6 0;v1 = load 4 64;v2 = 0;v3 = 0;loop;v4 = v1 + 4;v5 = v4 + 8;store 4 v5 7;step;end;halt 0|nannaa|3
stored|store 4 v3 7|main 0 6 0;v1 = load 4 64;v2 = 0;v3 = 0;loop;v4 = v1 + 4;v5 = v4 + 8;store 4 v5 7;step;end;halt 0|nannaa|7
hoisted|v2 = 0|main 0 6 0;v1 = load 4 64;v2 = 0;v3 = 0;loop;v4 = v1 + 4;v5 = v4 + 8;store 4 v5 7;step;v1 = v1 + 1;end;halt 0|nannaa|2
stored|store 4 v5 7|main 0 6 0;v1 = load 4 64;v2 = 0;v3 = 0;loop;v4 = v1 + 4;v5 = v4 + 8;store 4 v5 7;step;v1 = v1 + 1;end;halt 0|nannaa|7
hoisted|v2 = 0|main 0 6 0;v1 = load 4 64;v2 = 0;v3 = 0;loop;store 4 v2 7;v4 = v1 + 4;store 4 v4 7;step;end;halt 0|nannaa|2
hoisted|v3 = v1 + 4|main 0 6 0;v1 = load 4 64;v2 = 0;v3 = 0;loop;store 4 v2 7;v4 = v1 + 4;store 4 v4 7;step;end;halt 0|nannaa|3
threads|main 0 6 0;v1 = load 4 64;v2 = load 4 68;if v1 != 0;if v2 != 0;v3 = 1;v4 = load 4 72;store 4 64 v4;else;v3 = 0;end;else;v3 = 0;end;halt 0|main 0 6 0;v1 = load 4 64;v2 = load 4 68;if v1 != 0;if v2 != 0;v3 = 1;else;v3 = 0;end;else;v3 = 0;end;if v3 != 0;v4 = load 4 72;store 4 64 v4;else;end;halt 0
threads|main 0 6 0;v1 = load 4 64;loop;if v1 < 9;else;print d 1;break;end;print d 2;v1 = v1 + 1;store 4 64 v1;step;end;halt 0|main 0 6 0;v1 = load 4 64;loop;if v1 < 9;print d 2;v1 = v1 + 1;else;print d 1;break;end;store 4 64 v1;step;end;halt 0
threads|main 0 6 0;v1 = load 4 64;if v1 < 9;else;halt 1;v2 = 3;end;print d 2;print d 3;halt 0|main 0 6 0;v1 = load 4 64;if v1 < 9;print d 2;else;halt 1;v2 = 3;end;print d 3;halt 0
threads|main 0 6 0;v1 = load 4 64;if v1 < 9;halt 1;else;print d 2;end;print d 3;halt 0|main 0 6 0;v1 = load 4 64;if v1 < 9;halt 1;else;print d 2;end;print d 3;halt 0
threads|main 0 6 0;v1 = load 4 64;v2 = load 4 68;loop;if v1 != 0;else;v3 = 0;break;end;if v2 != 0;else;v3 = 0;break;end;v3 = 1;store 4 64 7;step;end;halt 0|main 0 6 0;v1 = load 4 64;v2 = load 4 68;loop;if v1 != 0;if v2 != 0;v3 = 1;else;v3 = 0;end;else;v3 = 0;end;if v3 != 0;else;break;end;store 4 64 7;step;end;halt 0
threads|main 0 6 0;v1 = load 4 64;v2 = load 4 68;if v1 != 0;v3 = 1;print d 1;else;if v2 != 0;v3 = 1;print d 1;else;v3 = 0;end;end;halt 0|main 0 6 0;v1 = load 4 64;v2 = load 4 68;if v1 != 0;v3 = 1;else;if v2 != 0;v3 = 1;else;v3 = 0;end;end;if v3 != 0;print d 1;else;end;halt 0
threads|main 0 6 0;v1 = load 4 64;v2 = load 4 68;v4 = load 4 72;if v1 != 0;if v2 != 0;v3 = 1;if v4 != 0;v5 = 1;print d 1;print d 2;else;v5 = 0;end;else;v3 = 0;v5 = 0;end;else;v3 = 0;v5 = 0;end;halt 0|main 0 6 0;v1 = load 4 64;v2 = load 4 68;v4 = load 4 72;if v1 != 0;if v2 != 0;v3 = 1;else;v3 = 0;end;else;v3 = 0;end;if v3 != 0;if v4 != 0;v5 = 1;else;v5 = 0;end;else;v5 = 0;end;if v5 != 0;print d 1;print d 2;else;end;halt 0
threads|main 0 6 0;v1 = load 4 64;v2 = load 4 68;if v1 != 0;v3 = 1;else;if v2 != 0;v3 = 1;else;v3 = 0;end;end;if v3 != 0;print d 1;print d 2;else;end;halt 0|main 0 6 0;v1 = load 4 64;v2 = load 4 68;if v1 != 0;v3 = 1;else;if v2 != 0;v3 = 1;else;v3 = 0;end;end;if v3 != 0;print d 1;print d 2;else;end;halt 0
threads|main 0 6 0;v1 = load 4 64;v2 = load 4 68;if v1 != 0;v3 = 1;else;if v2 != 0;v3 = 1;else;v3 = 0;end;end;if v3 != 0;v4 = load 4 72;else;end;halt 0|main 0 6 0;v1 = load 4 64;v2 = load 4 68;if v1 != 0;v3 = 1;else;if v2 != 0;v3 = 1;else;v3 = 0;end;end;if v3 != 0;v4 = load 4 72;else;end;halt 0
threads|main 0 6 0;v1 = load 4 64;v2 = load 4 68;if v1 != 0;if v2 != 0;v3 = 1;else;v3 = 0;end;else;v3 = 0;end;if v1 != 0;print d 1;else;end;halt 0|main 0 6 0;v1 = load 4 64;v2 = load 4 68;if v1 != 0;if v2 != 0;v3 = 1;else;v3 = 0;end;else;v3 = 0;end;if v1 != 0;print d 1;else;end;halt 0
threads|main 0 6 0;v1 = load 4 64;v2 = load 4 68;if v1 != 0;if v2 != 0;v3 = 1;else;v3 = 0;end;else;v3 = 0;end;if v3 < 1;print d 1;else;end;halt 0|main 0 6 0;v1 = load 4 64;v2 = load 4 68;if v1 != 0;if v2 != 0;v3 = 1;else;v3 = 0;end;else;v3 = 0;end;if v3 < 1;print d 1;else;end;halt 0
threads|main 0 6 0;v1 = load 4 64;v2 = load 4 68;if v1 != 0;if v2 != 0;v3 = 1;else;v3 = 0;end;else;v3 = 0;end;store 4 64 7;if v3 != 0;print d 1;else;end;halt 0|main 0 6 0;v1 = load 4 64;v2 = load 4 68;if v1 != 0;if v2 != 0;v3 = 1;else;v3 = 0;end;else;v3 = 0;end;store 4 64 7;if v3 != 0;print d 1;else;end;halt 0
threads|main 0 5 0;v1 = load 4 64;bounds v1 16;v2 = v1 + 16;v3 = load 4 v2;store 4 64 v3;halt 0|main 0 5 0;v1 = load 4 64;v2 = v1 + 16;good 1 v2;v3 = load 4 v2;store 4 64 v3;halt 0
threads|main 0 5 0;v1 = load 4 64;loop;bounds v1 2047;v2 = v1 + 2047;store 1 v2 7;step;v1 = v1 + 4;good 1 v1;end;halt 0|main 0 5 0;v1 = load 4 64;loop;v2 = v1 + 2047;good 1 v2;store 1 v2 7;step;v1 = v1 + 4;good 1 v1;end;halt 0
threads|main 0 5 0;v1 = load 4 64;bounds v1 16;v2 = v1 + 16;v3 = load 4 v2;store 4 64 v3;halt 0|main 0 5 0;v1 = load 4 64;v2 = 16 + v1;good 1 v2;v3 = load 4 v2;store 4 64 v3;halt 0
threads|main 0 5 0;v1 = load 4 64;v2 = 16 + v1;good 1 v1;v2 = 16 + 8;good 1 v2;halt 0|main 0 5 0;v1 = load 4 64;v2 = 16 + v1;good 1 v1;v2 = 16 + 8;good 1 v2;halt 0
threads|main 0 5 0;v1 = load 4 64;v2 = v1 + 2048;good 1 v2;v3 = load 4 v2;store 4 64 v3;halt 0|main 0 5 0;v1 = load 4 64;v2 = v1 + 2048;good 1 v2;v3 = load 4 v2;store 4 64 v3;halt 0
threads|main 0 5 0;v1 = load 4 64;v2 = v1 + 16;good 1 v1;v3 = load 4 v2;store 4 64 v3;halt 0|main 0 5 0;v1 = load 4 64;v2 = v1 + 16;good 1 v1;v3 = load 4 v2;store 4 64 v3;halt 0
threads|main 0 5 0;v1 = load 4 64;v2 = v1 + 16;good 4 v2;v3 = load 4 v2;store 4 64 v3;halt 0|main 0 5 0;v1 = load 4 64;v2 = v1 + 16;good 4 v2;v3 = load 4 v2;store 4 64 v3;halt 0
threads|main 0 5 0;v1 = load 4 64;v2 = v1 - 16;good 1 v2;v3 = load 4 v2;store 4 64 v3;halt 0|main 0 5 0;v1 = load 4 64;v2 = v1 - 16;good 1 v2;v3 = load 4 v2;store 4 64 v3;halt 0"#;

/// What reports count; and what two accesses have in common, asked both ways.
pub const REPORTS: &str =
    r#"report|main 0 3 2 0 0|main 0 4 0;store 4 16 3;v0 = load 4 16;v1 = load 4 16;v2 = v0 * v1;store 4 20 v2;v3 = load 4 20;print d v3;halt 0|eeee
report|main 0 2 2 0 0|main 0 5 0;store 4 16 3;v4 = load 4 16;v0 = v4;v1 = v4;v2 = v0 * v1;store 4 20 v2;v3 = load 4 20;print d v3;halt 0|eeeee
line|{"budget":{"ab":0,"al":0,"cq":0,"eb":0,"ld":1,"sa":1,"sd":1},"functions":[{"conditions_a":0,"conditions_e":0,"loads_a":0,"loads_e":2,"name":"main","stores":2}]}`|main 0 5 0;store 4 16 3;v4 = load 4 16;v0 = v4;v1 = v4;v2 = v0 * v1;store 4 20 v2;v3 = load 4 20;print d v3;halt 0|eeeee
report|main 1 1 0 1 0|main 0 8 0;v0 = 0;loop;if v0 < 3;else;break;end;v1 = v0 * 4;v2 = 16 + v1;good 4 v2;v3 = load 4 v2;v4 = v3 * 4;v5 = 28 + v4;good 4 v5;v6 = load 4 v5;print d v6;print c 10;step;v7 = v0 + 1;v0 = v7;end;halt 0|aaaaaaea
report|main 0 2 1 0 1|main 0 2 0;v0 = load 4 16;if v0 != 0;store 4 20 1;else;end;v1 = load 4 20;halt v1|ee
report|main 0 1 1 0 1|main 0 2 0;v0 = load 4 16;if v0 != 0;store 4 20 1;else;end;v1 = load 4 20;halt v1|en
relation|same same|variable 1 0 8 4|variable 1 0 8 4
relation|unknown unknown|variable 1 0 8 4|variable 1 0 8 2
relation|apart apart|variable 1 0 8 4|variable 1 0 12 4
relation|unknown unknown|variable 1 0 8 4|variable 1 0 11 1
relation|apart apart|variable 1 0 8 2|variable 1 0 10 1
relation|same same|variable 1 0 8 1|variable 1 0 8 1
relation|unknown unknown|variable 1 0 4294967294 4|variable 1 0 1 1
relation|apart apart|variable 1 0 4294967294 4|variable 1 0 2 2
relation|apart apart|variable 1 0 4294967295 1|variable 1 0 0 4
relation|unknown unknown|variable 1 0 8 4|variable 1 1 8 4
relation|unknown unknown|variable 1 0 8 4|variable 2 0 8 4
relation|unknown unknown|variable 1 0 8 4|variable 2 0 100 4
relation|unknown unknown|number 0 0 16 4|frame 0 0 16 4
relation|apart apart|number 0 0 16 4|number 0 0 20 4
relation|same same|frame 0 0 16 4|frame 0 0 16 4"#;

/// Budgets with the most loads for E and copies in a group; the classes of a function; forms that are well made or not; and steps of streams.
pub const SPLITS: &str =
    r#"budget|2 0 1 1 1 0 0|main 0 16 0;v1 = 0;v1 = 0;loop;if v1 < 4;else;break;end;v2 = v1 * 4;v3 = 48 + v2;v4 = v1 * 4;v5 = 16 + v4;good 4 v5;v6 = load 4 v5;v7 = v1 * 4;v8 = 32 + v7;good 4 v8;v9 = load 4 v8;v10 = v6 + v9;good 4 v3;store 4 v3 v10;step;v11 = v1 + 1;v1 = v11;end;v1 = 0;loop;if v1 < 4;else;break;end;v12 = v1 * 4;v13 = 48 + v12;good 4 v13;v14 = load 4 v13;print d v14;print c 10;step;v15 = v1 + 1;v1 = v15;end;halt 0|16
budget|1 1 0 0 1 0 0|main 0 7 0;v1 = 0;v1 = 0;loop;if v1 < 3;else;break;end;v2 = v1 * 4;v3 = 24 + v2;good 4 v3;v4 = load 4 v3;good 4 v4;v5 = load 4 v4;print d v5;print c 10;step;v6 = v1 + 1;v1 = v6;end;halt 0|16
budget|1 0 1 1 1 0 0|main 0 11 0;v1 = 0;good 4 16;store 4 16 0;v1 = 1;loop;if v1 < 10;else;break;end;v2 = v1 * 4;v3 = 16 + v2;v4 = v1 - 1;v5 = v4 * 4;v6 = 16 + v5;good 4 v6;v7 = load 4 v6;v8 = v7 + 1;good 4 v3;store 4 v3 v8;step;v9 = v1 + 1;v1 = v9;end;good 4 52;v10 = load 4 52;print d v10;print c 10;halt 0|16
budget|0 0 0 0 0 0 0|main 0 1 0;print d 4294967293;print c 32;print d 4294967295;print c 10;halt 0|16
budget|1 0 1 1 0 0 0|main 0 4 0;store 4 16 6;v1 = load 4 16;v2 = v1 * 7;store 4 20 v2;v3 = load 4 20;print d v3;print c 10;halt 0|16
budget|1 0 1 1 1 0 0|main 0 4 0;v1 = 16;good 4 16;store 4 16 287454020;v2 = v1 + 1;good 1 v2;store 1 v2 0;good 4 16;v3 = load 4 16;print x v3;print c 10;halt 0|16
budget|1 1 0 0 1 0 0|main 0 9 0;v1 = 0;v1 = 0;loop;if v1 < 3;else;break;end;v2 = v1 * 4;v3 = 16 + v2;good 4 v3;v4 = load 4 v3;v5 = v4 * 4;v6 = 28 + v5;good 4 v6;v7 = load 4 v6;print d v7;print c 10;step;v8 = v1 + 1;v1 = v8;end;halt 0|16
budget|1 0 1 1 1 0 0|main 0 8 16;deep;v1 = frame 4;good 4 v1;store 4 v1 5;v2 = frame 14;v3 = frame 4;good 4 v3;v4 = load 4 v3;v5 = cut s2 v4;good 2 v2;store 2 v2 v5;v6 = frame 14;good 2 v6;v7 = load s2 v6;print d v7;print c 10;halt 0|16
budget|1 0 0 0 1 0 0|main 0 10 0;good 4 16;v1 = load 4 16;good 4 20;v2 = load 4 20;v3 = v1 + v2;good 4 24;v4 = load 4 24;v5 = v3 + v4;good 4 28;v6 = load 4 28;v7 = v5 + v6;good 4 32;v8 = load 4 32;v9 = v7 + v8;print d v9;print c 10;halt 0|1
budget|4 0 0 0 1 0 0|main 0 10 0;good 4 16;v1 = load 4 16;good 4 20;v2 = load 4 20;v3 = v1 + v2;good 4 24;v4 = load 4 24;v5 = v3 + v4;good 4 28;v6 = load 4 28;v7 = v5 + v6;good 4 32;v8 = load 4 32;v9 = v7 + v8;print d v9;print c 10;halt 0|4
budget|5 0 0 0 1 0 0|main 0 10 0;good 4 16;v1 = load 4 16;good 4 20;v2 = load 4 20;v3 = v1 + v2;good 4 24;v4 = load 4 24;v5 = v3 + v4;good 4 28;v6 = load 4 28;v7 = v5 + v6;good 4 32;v8 = load 4 32;v9 = v7 + v8;print d v9;print c 10;halt 0|16
budget|1 1 1 1 1 0 1|main 0 16 0;good 4 16;v4 = load 4 16;v1 = v4;good 4 20;v5 = load 4 20;v2 = v5;good 4 24;v6 = load 4 24;v3 = v6;v7 = v1 * 4;v8 = 28 + v7;v9 = v1 + v2;v10 = v9 + v3;good 4 v8;store 4 v8 v10;v11 = v2 * 4;v12 = 28 + v11;good 4 v12;store 4 v12 v3;v13 = v3 * 4;v14 = 28 + v13;good 4 v14;store 4 v14 0;good 4 36;v15 = load 4 36;print d v15;print c 10;halt 0|1
budget|1 1 1 1 1 0 2|main 0 16 0;good 4 16;v4 = load 4 16;v1 = v4;good 4 20;v5 = load 4 20;v2 = v5;good 4 24;v6 = load 4 24;v3 = v6;v7 = v1 * 4;v8 = 28 + v7;v9 = v1 + v2;v10 = v9 + v3;good 4 v8;store 4 v8 v10;v11 = v2 * 4;v12 = 28 + v11;good 4 v12;store 4 v12 v3;v13 = v3 * 4;v14 = 28 + v13;good 4 v14;store 4 v14 0;good 4 36;v15 = load 4 36;print d v15;print c 10;halt 0|2
budget|1 1 1 1 1 0 3|main 0 16 0;good 4 16;v4 = load 4 16;v1 = v4;good 4 20;v5 = load 4 20;v2 = v5;good 4 24;v6 = load 4 24;v3 = v6;v7 = v1 * 4;v8 = 28 + v7;v9 = v1 + v2;v10 = v9 + v3;good 4 v8;store 4 v8 v10;v11 = v2 * 4;v12 = 28 + v11;good 4 v12;store 4 v12 v3;v13 = v3 * 4;v14 = 28 + v13;good 4 v14;store 4 v14 0;good 4 36;v15 = load 4 36;print d v15;print c 10;halt 0|16
budget|1 0 1 1 1 0 0|f 2 5 0;good 4 v2;v3 = load 4 v2;v4 = v1 + v3;return v4#main 0 3 0;v1 = 3;store 4 16 4;room 0;call v2 0 v1 16;v1 = v2;print d v1;print c 10;halt 0|16
budget|1 0 1 1 1 0 1|main 0 6 0;v1 = 0;loop;if v1 < 4;else;break;end;v2 = v1 * 4;v3 = 16 + v2;good 4 v3;store 4 v3 v1;v4 = v1 + 1;v1 = v4;step;end;good 4 28;v5 = load 4 28;print d v5;print c 10;halt 0|16
budget|1 1 1 1 1 0 1|main 0 6 0;v2 = load 4 16;v1 = v2;v3 = v1 * 4;v4 = 20 + v3;good 4 v4;store 4 v4 v1;good 4 28;v5 = load 4 28;print d v5;print c 10;halt 0|16
budget|0 0 0 0 0 0 0|main 0 8 0;v1 = 27;v2 = 0;loop;if v1 != 1;else;break;end;v3 = v1 % 2;if v3 != 0;v4 = 3 * v1;v5 = v4 + 1;v1 = v5;else;v6 = v1 / 2;v1 = v6;end;v7 = v2 + 1;v2 = v7;step;end;print d v2;print c 10;halt 0|16
budget|0 0 0 0 1 0 0|main 0 1 0;loop;step;end;halt 0|16
budget|1 0 1 1 1 0 0|main 0 6 0;v1 = 0;v1 = 0;loop;if v1 < 4;else;break;end;step;v2 = v1 + 1;v1 = v2;end;v3 = v1 * 4;v4 = 16 + v3;good 4 v4;store 4 v4 7;good 4 32;v5 = load 4 32;print d v5;print c 10;halt 0|16
budget|0 0 0 0 0 1 0|main 0 4 0;v1 = 10;v2 = 0;if 5 < v1;zero v2;v3 = v1 / v2;v1 = v3;else;end;print d v1;print c 10;halt 0|16
budget|2 0 1 1 0 1 0|main 0 4 0;print d 5;print c 10;store 4 16 7;v1 = load 4 16;v2 = load 4 20;zero v2;v3 = v1 / v2;store 4 16 v3;halt 0|16
classes|eeaee|f 2 5 0;good 4 v2;v3 = load 4 v2;v4 = v1 + v3;return v4#main 0 3 0;v1 = 3;store 4 16 4;room 0;call v2 0 v1 16;v1 = v2;print d v1;print c 10;halt 0|0
classes|nee|f 2 5 0;good 4 v2;v3 = load 4 v2;v4 = v1 + v3;return v4#main 0 3 0;v1 = 3;store 4 16 4;room 0;call v2 0 v1 16;v1 = v2;print d v1;print c 10;halt 0|1
classes|naaaaaaea|main 0 9 0;v1 = 0;v1 = 0;loop;if v1 < 3;else;break;end;v2 = v1 * 4;v3 = 16 + v2;good 4 v3;v4 = load 4 v3;v5 = v4 * 4;v6 = 28 + v5;good 4 v6;v7 = load 4 v6;print d v7;print c 10;step;v8 = v1 + 1;v1 = v8;end;halt 0|0
classes|naaaeeae|main 0 8 16;deep;v1 = frame 4;good 4 v1;store 4 v1 5;v2 = frame 14;v3 = frame 4;good 4 v3;v4 = load 4 v3;v5 = cut s2 v4;good 2 v2;store 2 v2 v5;v6 = frame 14;good 2 v6;v7 = load s2 v6;print d v7;print c 10;halt 0|0
classes|nbaaae|main 0 6 0;v1 = 0;loop;if v1 < 4;else;break;end;v2 = v1 * 4;v3 = 16 + v2;good 4 v3;store 4 v3 v1;v4 = v1 + 1;v1 = v4;step;end;good 4 28;v5 = load 4 28;print d v5;print c 10;halt 0|0
scoped|false|main 0 1 0;break;halt 0
scoped|false|main 0 2 0;print d v2;halt 0
scoped|false|main 0 2 0;call v1 0 1;halt 0
scoped|false|main 0 1 0;print c 10
scoped|false|main 0 1 0;return 0
scoped|false|main 0 1 0;v0 = 1;halt 0
single|true 1|main 0 6 0;v1 = 0;v1 = 0;loop;if v1 < 4;else;break;end;step;v2 = v1 + 1;v1 = v2;end;v3 = v1 * 4;v4 = 16 + v3;good 4 v4;store 4 v4 7;good 4 32;v5 = load 4 32;print d v5;print c 10;halt 0
steps| stop and line feed end 7|main 0 1 0;print c 10;halt 7|n"#;

/// Images of forms, which run as these mean under every schedule: the budget, how each run ends and what it prints, with data in hexadecimal;
/// forms that go on and print one letter or none; whether all variables are in registers; and the marks of lines, each with its side, its
/// word, its file and its line.
pub const IMAGES: &str =
    r#"image|1 0 1 1 1 0 1 Some(Final(Ended(0))) 3`|main 0 5 0;v1 = 0;loop;if v1 < 4;else;break;end;v2 = v1 * 4;v2 = 16 + v2;good 4 v2;store 4 v2 v1;v3 = v1 + 1;v1 = v3;step;end;good 4 28;v4 = load 4 28;print d v4;print c 10;halt 0|
image|1 1 1 1 1 0 1 Some(Final(Ended(0))) 2`|main 0 5 0;v2 = load 4 16;v1 = v2;v3 = v1 * 4;v3 = 20 + v3;good 4 v3;store 4 v3 v1;good 4 28;v4 = load 4 28;print d v4;print c 10;halt 0|02000000
image|1 1 1 1 0 0 0 Some(Final(Ended(0))) 7`|main 0 5 0;v1 = load 4 16;v2 = v1 * 4;v3 = v2 + 20;store 4 v3 7;v3 = v2 + 20;v4 = load 4 v3;print d v4;print c 10;halt 0|02000000
image|0 0 0 0 0 0 0 Some(Final(Ended(0))) 111`|main 0 6 0;v1 = 27;v2 = 0;loop;if v1 != 1;else;break;end;v3 = v1 % 2;if v3 != 0;v4 = 3 * v1;v5 = v4 + 1;v1 = v5;else;v4 = v1 / 2;v1 = v4;end;v4 = v2 + 1;v2 = v4;step;end;print d v2;print c 10;halt 0|
image|0 0 0 0 0 1 0 Some(Final(Trapped(1))) |main 0 4 0;v1 = 10;v2 = 0;if 5 < v1;zero v2;v3 = v1 / v2;v1 = v3;else;end;print d v1;print c 10;halt 0|
image|1 0 1 1 1 0 0 Some(Final(Ended(0))) 7`|main 0 5 0;v1 = 0;loop;if v1 < 4;else;break;end;step;v2 = v1 + 1;v1 = v2;end;v3 = v1 * 4;v3 = 16 + v3;good 4 v3;store 4 v3 7;good 4 32;v4 = load 4 32;print d v4;print c 10;halt 0|
goes on|true|main 0 1 0;loop;step;end;halt 0|
goes on|true|main 0 1 0;loop;print c 120;step;end;halt 0|x
image|0 0 0 0 1 1 0 Some(Final(Ended(0))) 98`|f 1 6 0;if v1 != 0;v2 = v1 - 1;room 0;call v3 0 v2;v4 = 1 + v3;v5 = v4;else;v5 = 0;end;return v5#main 0 2 0;room 0;call v1 0 98;print d v1;print c 10;halt 0|
image|0 0 0 0 1 1 0 Some(Final(Trapped(4))) |f 1 6 0;if v1 != 0;v2 = v1 - 1;room 0;call v3 0 v2;v4 = 1 + v3;v5 = v4;else;v5 = 0;end;return v5#main 0 2 0;room 0;call v1 0 99;print d v1;print c 10;halt 0|
image|1 0 0 0 1 0 0 Some(Final(Ended(0))) 0`|main 0 3 0;v1 = 4095;good 1 v1;v2 = load u1 v1;print d v2;print c 10;halt 0|
image|1 0 0 0 1 0 0 Some(Final(Trapped(2))) |main 0 3 0;v1 = 4096;good 1 v1;v2 = load u1 v1;print d v2;print c 10;halt 0|
image|1 0 0 0 1 0 0 Some(Final(Ended(0))) 0`|main 0 4 0;v1 = 4079;bounds v1 16;v2 = v1 + 16;v3 = load u1 v2;print d v3;print c 10;halt 0|
image|1 0 0 0 1 0 0 Some(Final(Trapped(2))) |main 0 4 0;v1 = 4080;bounds v1 16;v2 = v1 + 16;v3 = load u1 v2;print d v3;print c 10;halt 0|
image|1 0 0 0 1 0 0 Some(Final(Ended(0))) 0`|main 0 4 0;v1 = 4063;bounds v1 32;v2 = v1 + 32;v3 = load u1 v2;print d v3;print c 10;halt 0|
image|1 0 0 0 1 0 0 Some(Final(Trapped(2))) |main 0 4 0;v1 = 4064;bounds v1 32;v2 = v1 + 32;v3 = load u1 v2;print d v3;print c 10;halt 0|
image|1 0 0 0 1 0 0 Some(Final(Ended(0))) 0`|main 0 4 0;v1 = 16;bounds v1 0;v2 = v1 + 0;v3 = load u1 v2;print d v3;print c 10;halt 0|
image|1 0 0 0 1 0 0 Some(Final(Trapped(2))) |main 0 4 0;v1 = 15;bounds v1 0;v2 = v1 + 0;v3 = load u1 v2;print d v3;print c 10;halt 0|
image|1 0 0 0 1 0 0 Some(Final(Ended(0))) 0`|main 0 4 0;v1 = 4294967280;bounds v1 32;v2 = v1 + 32;v3 = load u1 v2;print d v3;print c 10;halt 0|
image|1 0 0 0 1 0 0 Some(Final(Trapped(2))) |main 0 4 0;v1 = 4294967280;bounds v1 31;v2 = v1 + 31;v3 = load u1 v2;print d v3;print c 10;halt 0|
image|1 0 0 0 1 0 0 Some(Final(Trapped(2))) |main 0 3 0;v1 = 4096;good 4 v1;v2 = load 4 v1;print d v2;print c 10;halt 0|
image|1 0 0 0 1 0 0 Some(Final(Trapped(3))) |main 0 3 0;v1 = 4094;good 4 v1;v2 = load 4 v1;print d v2;print c 10;halt 0|
registers|true|f 1 19 0;v18 = v1 + 1;v2 = v18;v18 = v1 + 2;v3 = v18;v18 = v1 + 3;v4 = v18;v18 = v1 + 4;v5 = v18;v18 = v1 + 5;v6 = v18;v18 = v1 + 6;v7 = v18;v18 = v1 + 7;v8 = v18;v18 = v1 + 8;v9 = v18;v18 = v1 + 9;v10 = v18;v18 = v1 + 10;v11 = v18;v18 = v1 + 11;v12 = v18;v18 = v1 + 12;v13 = v18;v18 = v1 + 13;v14 = v18;v18 = v1 + 14;v15 = v18;v18 = v1 + 15;v16 = v18;v18 = v1 + 16;v17 = v18;v18 = v2;v18 = v18 + v3;v18 = v18 + v4;v18 = v18 + v5;v18 = v18 + v6;v18 = v18 + v7;v18 = v18 + v8;v18 = v18 + v9;v18 = v18 + v10;v18 = v18 + v11;v18 = v18 + v12;v18 = v18 + v13;v18 = v18 + v14;v18 = v18 + v15;v18 = v18 + v16;v18 = v18 + v17;return v18#main 0 2 0;room 0;call v1 0 3;print d v1;print c 10;halt 0
registers|false|f 1 43 0;v42 = v1 + 1;v2 = v42;v42 = v1 + 2;v3 = v42;v42 = v1 + 3;v4 = v42;v42 = v1 + 4;v5 = v42;v42 = v1 + 5;v6 = v42;v42 = v1 + 6;v7 = v42;v42 = v1 + 7;v8 = v42;v42 = v1 + 8;v9 = v42;v42 = v1 + 9;v10 = v42;v42 = v1 + 10;v11 = v42;v42 = v1 + 11;v12 = v42;v42 = v1 + 12;v13 = v42;v42 = v1 + 13;v14 = v42;v42 = v1 + 14;v15 = v42;v42 = v1 + 15;v16 = v42;v42 = v1 + 16;v17 = v42;v42 = v1 + 17;v18 = v42;v42 = v1 + 18;v19 = v42;v42 = v1 + 19;v20 = v42;v42 = v1 + 20;v21 = v42;v42 = v1 + 21;v22 = v42;v42 = v1 + 22;v23 = v42;v42 = v1 + 23;v24 = v42;v42 = v1 + 24;v25 = v42;v42 = v1 + 25;v26 = v42;v42 = v1 + 26;v27 = v42;v42 = v1 + 27;v28 = v42;v42 = v1 + 28;v29 = v42;v42 = v1 + 29;v30 = v42;v42 = v1 + 30;v31 = v42;v42 = v1 + 31;v32 = v42;v42 = v1 + 32;v33 = v42;v42 = v1 + 33;v34 = v42;v42 = v1 + 34;v35 = v42;v42 = v1 + 35;v36 = v42;v42 = v1 + 36;v37 = v42;v42 = v1 + 37;v38 = v42;v42 = v1 + 38;v39 = v42;v42 = v1 + 39;v40 = v42;v42 = v1 + 40;v41 = v42;v42 = v2;v42 = v42 + v3;v42 = v42 + v4;v42 = v42 + v5;v42 = v42 + v6;v42 = v42 + v7;v42 = v42 + v8;v42 = v42 + v9;v42 = v42 + v10;v42 = v42 + v11;v42 = v42 + v12;v42 = v42 + v13;v42 = v42 + v14;v42 = v42 + v15;v42 = v42 + v16;v42 = v42 + v17;v42 = v42 + v18;v42 = v42 + v19;v42 = v42 + v20;v42 = v42 + v21;v42 = v42 + v22;v42 = v42 + v23;v42 = v42 + v24;v42 = v42 + v25;v42 = v42 + v26;v42 = v42 + v27;v42 = v42 + v28;v42 = v42 + v29;v42 = v42 + v30;v42 = v42 + v31;v42 = v42 + v32;v42 = v42 + v33;v42 = v42 + v34;v42 = v42 + v35;v42 = v42 + v36;v42 = v42 + v37;v42 = v42 + v38;v42 = v42 + v39;v42 = v42 + v40;v42 = v42 + v41;return v42#main 0 2 0;room 0;call v1 0 3;print d v1;print c 10;halt 0
image|0 0 0 0 1 0 0 Some(Final(Ended(0))) 184`|f 1 19 0;v18 = v1 + 1;v2 = v18;v18 = v1 + 2;v3 = v18;v18 = v1 + 3;v4 = v18;v18 = v1 + 4;v5 = v18;v18 = v1 + 5;v6 = v18;v18 = v1 + 6;v7 = v18;v18 = v1 + 7;v8 = v18;v18 = v1 + 8;v9 = v18;v18 = v1 + 9;v10 = v18;v18 = v1 + 10;v11 = v18;v18 = v1 + 11;v12 = v18;v18 = v1 + 12;v13 = v18;v18 = v1 + 13;v14 = v18;v18 = v1 + 14;v15 = v18;v18 = v1 + 15;v16 = v18;v18 = v1 + 16;v17 = v18;v18 = v2;v18 = v18 + v3;v18 = v18 + v4;v18 = v18 + v5;v18 = v18 + v6;v18 = v18 + v7;v18 = v18 + v8;v18 = v18 + v9;v18 = v18 + v10;v18 = v18 + v11;v18 = v18 + v12;v18 = v18 + v13;v18 = v18 + v14;v18 = v18 + v15;v18 = v18 + v16;v18 = v18 + v17;return v18#main 0 2 0;room 0;call v1 0 3;print d v1;print c 10;halt 0|
image|0 0 0 0 1 0 0 Some(Final(Ended(0))) 940`|f 1 43 0;v42 = v1 + 1;v2 = v42;v42 = v1 + 2;v3 = v42;v42 = v1 + 3;v4 = v42;v42 = v1 + 4;v5 = v42;v42 = v1 + 5;v6 = v42;v42 = v1 + 6;v7 = v42;v42 = v1 + 7;v8 = v42;v42 = v1 + 8;v9 = v42;v42 = v1 + 9;v10 = v42;v42 = v1 + 10;v11 = v42;v42 = v1 + 11;v12 = v42;v42 = v1 + 12;v13 = v42;v42 = v1 + 13;v14 = v42;v42 = v1 + 14;v15 = v42;v42 = v1 + 15;v16 = v42;v42 = v1 + 16;v17 = v42;v42 = v1 + 17;v18 = v42;v42 = v1 + 18;v19 = v42;v42 = v1 + 19;v20 = v42;v42 = v1 + 20;v21 = v42;v42 = v1 + 21;v22 = v42;v42 = v1 + 22;v23 = v42;v42 = v1 + 23;v24 = v42;v42 = v1 + 24;v25 = v42;v42 = v1 + 25;v26 = v42;v42 = v1 + 26;v27 = v42;v42 = v1 + 27;v28 = v42;v42 = v1 + 28;v29 = v42;v42 = v1 + 29;v30 = v42;v42 = v1 + 30;v31 = v42;v42 = v1 + 31;v32 = v42;v42 = v1 + 32;v33 = v42;v42 = v1 + 33;v34 = v42;v42 = v1 + 34;v35 = v42;v42 = v1 + 35;v36 = v42;v42 = v1 + 36;v37 = v42;v42 = v1 + 37;v38 = v42;v42 = v1 + 38;v39 = v42;v42 = v1 + 39;v40 = v42;v42 = v1 + 40;v41 = v42;v42 = v2;v42 = v42 + v3;v42 = v42 + v4;v42 = v42 + v5;v42 = v42 + v6;v42 = v42 + v7;v42 = v42 + v8;v42 = v42 + v9;v42 = v42 + v10;v42 = v42 + v11;v42 = v42 + v12;v42 = v42 + v13;v42 = v42 + v14;v42 = v42 + v15;v42 = v42 + v16;v42 = v42 + v17;v42 = v42 + v18;v42 = v42 + v19;v42 = v42 + v20;v42 = v42 + v21;v42 = v42 + v22;v42 = v42 + v23;v42 = v42 + v24;v42 = v42 + v25;v42 = v42 + v26;v42 = v42 + v27;v42 = v42 + v28;v42 = v42 + v29;v42 = v42 + v30;v42 = v42 + v31;v42 = v42 + v32;v42 = v42 + v33;v42 = v42 + v34;v42 = v42 + v35;v42 = v42 + v36;v42 = v42 + v37;v42 = v42 + v38;v42 = v42 + v39;v42 = v42 + v40;v42 = v42 + v41;return v42#main 0 2 0;room 0;call v1 0 3;print d v1;print c 10;halt 0|
marks| A 5 0 5 E 5 0 2 E 8 0 3 E 14 0 5|main 0 1 0;line 2;print c 97;line 3;print c 98;print c 98;line 5;halt 0"#;
