//! Texts, what they are read as, and where a line stops being a request. What is read is copied and printed, so copies and
//! printed texts are tried too.
use apply_ast::{BinOp, Expr, Request, print};
use apply_grammar::{
    ExprRefused, GrammarRefused, one_expression, one_pipeline, read_expr, read_path, read_request,
};
use std::test::*;

/// A copy of what the line asks for, or `None` where it is no request.
fn copied(rt: &HostRuntime, line: &str) -> Option<Request> {
    let request = read_request(rt.alloc(), line.as_bytes()).ok()?;
    request.copy(rt.alloc()).ok()
}

/// The printed text of what the line asks for, or `None` where it is no request.
fn printed(rt: &HostRuntime, line: &str) -> Option<String> {
    let request = copied(rt, line)?;
    print(rt.alloc(), &request.pipe).ok()
}

fn prints(rt: &HostRuntime, line: &str, text: &str) -> bool {
    match printed(rt, line) {
        Some(printed) => printed.as_str() == text,
        None => false,
    }
}

/// Lines, and what is printed of what they ask for.
const PRINTED: &str = r"
/Sales?%24apply=aggregate( Amount with sum as Total ) => aggregate(Amount with sum as Total)
explain S?$apply=groupby((rollup($all,A/B)),top(02)) => groupby((rollup($all,A/B)),top(2))
S?$apply=ancestors($root/O,Q,P,filter(A eq 'it''s'),1,keep  start) => ancestors($root/O,Q,P,filter(A eq 'it''s'),1,keep start)
S?$apply=filter((A) mul (B add 1) or C)/identity => filter(A mul (B add 1) or C)/identity
S?$apply=aggregate(Best as Best)/orderby(A asc , B desc) => aggregate(Best)/orderby(A,B desc)
S?$apply=filter(null) => filter(null)
S?$apply=filter(false) => filter(false)
S?$apply=filter(9223372036854775807) => filter(9223372036854775807)
S?$apply=filter(0001-01-01) => filter(0001-01-01)
S?$apply=filter('O''Neil''s é (/,') => filter('O''Neil''s é (/,')
S?$apply=filter(12.50) => filter(12.50)
S?$apply=filter(0.000000005) => filter(0.000000005)
S?$apply=filter(99999999999999999.9) => filter(99999999999999999.9)
S?$apply=filter(not (ID eq 1)) => filter(not (ID eq 1))
S?$apply=filter(not ID eq 1) => filter(not ID eq 1)
S?$apply=filter(-2 mul -3) => filter(-2 mul -3)
S?$apply=filter(1 sub 2 sub 3) => filter(1 sub 2 sub 3)
S?$apply=filter(1 sub (2 sub 3)) => filter(1 sub (2 sub 3))
S?$apply=filter(contains(Name,'A')) => filter(contains(Name,'A'))
S?$apply=filter(year(Day)) => filter(year(Day))
S?$apply=compute(ID eq 1 as X) => compute(ID eq 1 as X)
S?$apply=orderby(ID desc) => orderby(ID desc)
S?$apply=aggregate($count as N) => aggregate($count as N)
S?$apply=aggregate(Amount with sum as Total) => aggregate(Amount with sum as Total)
S?$apply=aggregate(Best) => aggregate(Best)
S?$apply=aggregate(Best as B) => aggregate(Best as B)
S?$apply=groupby((rollup($all,Year,Month))) => groupby((rollup($all,Year,Month)))
S?$apply=groupby((rollup(Year,Month))) => groupby((rollup(Year,Month)))
S?$apply=groupby((rolluprecursive($root/Orgs,OrgTree,OrgID,filter(ID eq 1)))) => groupby((rolluprecursive($root/Orgs,OrgTree,OrgID,filter(ID eq 1))))
S?$apply=groupby((Year),filter(ID eq 1)) => groupby((Year),filter(ID eq 1))
S?$apply=concat(identity,top(1)/skip(2)) => concat(identity,top(1)/skip(2))
S?$apply=outerjoin(Sales as S,filter(ID eq 1)) => outerjoin(Sales as S,filter(ID eq 1))
S?$apply=descendants($root/Orgs,OrgTree,OrgID,filter(ID eq 1),2,keep start) => descendants($root/Orgs,OrgTree,OrgID,filter(ID eq 1),2,keep start)
S?$apply=traverse($root/Orgs,OrgTree,ID,postorder,ID) => traverse($root/Orgs,OrgTree,ID,postorder,ID)
S?$apply=topcount(2,Amount) => topcount(2,Amount)
S?$apply=bottompercent(100,Amount) => bottompercent(100,Amount)
S?$apply=topsum(10,Amount) => topsum(10,Amount)
";

#[test]
fn what_is_read_is_printed(rt: HostRuntime) {
    for row in PRINTED.lines() {
        match row.split_once(" => ") {
            Some((line, text)) => assert!(rt; prints(&rt, line, text), "{line}"),
            None => assert!(rt; row.is_empty(), "no row: {row}"),
        }
    }
    assert!(rt;
        matches!(
            copied(&rt, "explain Sales?$apply=identity"),
            Some(r) if r.explain && r.set.text() == "Sales" && r.pipe.steps().len() == 1
        )
    );
    one_pipeline();
    one_expression();
}

/// The number of the step where the line stops being a request, -1 where it is one, -2 where it is too long, and -3
/// without memory.
fn stops_at(rt: &HostRuntime, line: &[u8]) -> i64 {
    match read_request(rt.alloc(), line) {
        Ok(_) => -1,
        Err(GrammarRefused::TooLong) => -2,
        Err(GrammarRefused::Syntax(k)) => i64::from(k),
        Err(GrammarRefused::Memory) => -3,
    }
}

/// A front, a part as often as this, and a last one.
fn repeated(
    rt: &HostRuntime,
    front: &str,
    part: &str,
    times: u32,
    last: &str,
) -> Result<String, Fail> {
    let mut text = String::from_str(rt.alloc(), front)?;
    for _ in 0..times {
        text.push_str(part)?;
    }
    text.push_str(last)?;
    Ok(text)
}

/// A front, a part as often as this, and a last one, and where the line of them stops being a request.
const LINES: &[(&str, &str, u32, &str, i64)] = &[
    ("Sales", "", 0, "", 0),
    ("S?$apply=filter(A eq '%c3')", "", 0, "", 0),
    ("S?$apply=identity/", "", 0, "", 2),
    ("S?$apply=filter(ID eq 1)/aggregate(", "", 0, "", 2),
    ("S?$apply=aggregate(Amount with average as X)", "", 0, "", 1),
    ("S?$apply=concat(identity)", "", 0, "", 1),
    ("S?$apply=identity", "", 0, "", -1),
    ("", "x", 65_537, "", -2),
    ("", "x", 65_536, "", 0),
    ("S?$apply=", "identity/", 255, "identity", -1),
    ("S?$apply=", "identity/", 256, "identity", 257),
];

#[test]
fn lines_stop_being_requests(rt: HostRuntime) -> Result<(), Fail> {
    for (front, part, times, last, number) in LINES {
        let line = repeated(&rt, front, part, *times, last)?;
        assert_eq!(rt;
            stops_at(&rt, line.as_bytes()),
            *number,
            "{front} {times} times {part}"
        );
    }
    Ok(())
}

fn is_expr(rt: &HostRuntime, text: &str) -> bool {
    read_expr(rt.alloc(), text).is_ok()
}

/// A part as often as this, and a last one, and whether they are an expression.
const EXPRESSIONS: &[(&str, u32, &str, bool)] = &[
    ("-", 512, "A", true),
    ("not ", 513, "A", false),
    ("(", 32, "A))))))))))))))))))))))))))))))))", true),
    ("(", 33, "A)))))))))))))))))))))))))))))))))", false),
    ("A eq '((((((((((((((((((((((((((((((((((", 1, "'", true),
    ("", 0, "2020-02-29 lt Since and 0.50 mul A ge 1", true),
    ("", 0, "2019-02-29", false),
    ("", 0, "A eq 'O''Neil'", true),
    ("", 0, "A eq", false),
];

#[test]
fn expressions_and_paths(rt: HostRuntime) -> Result<(), Fail> {
    for (part, times, last, is_one) in EXPRESSIONS {
        let text = repeated(&rt, "", part, *times, last)?;
        assert_eq!(rt; is_expr(&rt, text.as_str()), *is_one, "{part} {last}");
    }
    assert!(rt;
        matches!(
            read_expr(rt.alloc(), "not A eq B"),
            Ok(Expr::Binary(BinOp::Eq, _, _))
        )
    );
    assert!(rt; matches!(read_path(rt.alloc(), "Customer/Country"), Ok(p) if p.names().len() == 2));
    assert!(rt;
        matches!(
            read_path(rt.alloc(), "Customer/eq"),
            Err(ExprRefused::Syntax)
        )
    );
    Ok(())
}
