//! Files and lines that are made to hurt get their refusal, and nothing else.
use crate::worlds::{PLAIN, expect_run};
use apply_service::Status;
use run_support::Case;
use std::alloc::Global;
use std::process::Abort;
use std::test::Fail;
use std::thread::Threads;
use test_support::samples::{SALES_DATA, SAMPLE};

/// Runs over two files without a request, one of which is refused.
fn expect_refused<'a, R: Threads + Sync + Abort>(
    rt: &R,
    alloc: Global,
    model: &'a str,
    data: &'a str,
    status: Status,
    line: &[u8],
) -> Result<(), Fail> {
    let case = Case {
        model,
        data,
        input: b"",
        ..PLAIN
    };
    expect_run(rt, alloc, &case, status, line)
}

#[test]
fn a_file_that_is_cut_short_is_no_json(rt: HostRuntime) -> Result<(), Fail> {
    let alloc = rt.alloc();
    for length in 0..SAMPLE.len() {
        let model = SAMPLE.get(..length).unwrap_or("");
        let line = b"model Json\n";
        expect_refused(&rt, alloc, model, SALES_DATA, Status::ModelRefused, line)?;
    }
    for length in 0..SALES_DATA.len() {
        let data = SALES_DATA.get(..length).unwrap_or("");
        let line = b"data Json\n";
        expect_refused(&rt, alloc, SAMPLE, data, Status::DataRefused, line)?;
    }
    Ok(())
}

#[test]
fn a_file_of_200_lists_in_one_another_is_no_json(rt: HostRuntime) -> Result<(), Fail> {
    let alloc = rt.alloc();
    let open = "[".repeat(alloc, 200)?;
    let close = "]".repeat(alloc, 200)?;
    let deep = format!(in alloc; "{open}{close}")?;
    let line = b"data Json\n";
    expect_refused(&rt, alloc, SAMPLE, deep.as_str(), Status::DataRefused, line)
}

/// A line: what stands before, a part, how often it stands there, what follows, a part that stands there as often, and the end.
/// Then the code and the body of its response over the sample.
type Row = (
    &'static str,
    &'static str,
    usize,
    &'static str,
    &'static str,
    &'static str,
    &'static str,
    &'static str,
);

const AT_LIMITS: &[Row] = &[
    (
        "Sales?$apply=filter(",
        "(",
        31,
        "ID eq 1",
        ")",
        ")/aggregate($count as N)",
        "200",
        "{\"@context\":\"$metadata#Sales(N)\",\"value\":[{\"N@type\":\"Int64\",\"N\":\"1\"}]}",
    ),
    (
        "Sales?$apply=filter(",
        "(",
        32,
        "ID eq 1",
        ")",
        ")/aggregate($count as N)",
        "400",
        "{\"error\":{\"code\":\"Syntax\",\"message\":\"the text is no pipeline\",\"target\":\"1\"}}",
    ),
    (
        "Sales?$apply=identity",
        "/identity",
        255,
        "",
        "",
        "",
        "200",
        "{\"@context\":\"$metadata#Sales\",\"value\":[{\"Amount\":\"10.00\",\"CustomerID\":\"C1\",\"ID\":\"1\",\"OrgID\":\"West\"},{\"Amount\":\"5.50\",\"CustomerID\":\"C1\",\"ID\":\"2\",\"OrgID\":\"East\"},{\"Amount\":\"7.25\",\"CustomerID\":\"C2\",\"ID\":\"3\",\"OrgID\":\"EMEA\"},{\"Amount\":null,\"CustomerID\":\"C3\",\"ID\":\"4\",\"OrgID\":\"West\"},{\"Amount\":\"1.00\",\"CustomerID\":\"C2\",\"ID\":\"5\",\"OrgID\":null},{\"Amount\":\"2.25\",\"CustomerID\":\"C1\",\"ID\":\"6\",\"OrgID\":\"US\"}]}",
    ),
    (
        "Sales?$apply=identity",
        "/identity",
        256,
        "",
        "",
        "",
        "400",
        "{\"error\":{\"code\":\"Syntax\",\"message\":\"the text is no pipeline\",\"target\":\"257\"}}",
    ),
    (
        "Sales?$apply=filter(",
        "not ",
        512,
        "true",
        "",
        ")/aggregate($count as N)",
        "200",
        "{\"@context\":\"$metadata#Sales(N)\",\"value\":[{\"N@type\":\"Int64\",\"N\":\"6\"}]}",
    ),
    (
        "Sales?$apply=filter(",
        "not ",
        513,
        "true",
        "",
        ")/aggregate($count as N)",
        "400",
        "{\"error\":{\"code\":\"Syntax\",\"message\":\"the text is no pipeline\",\"target\":\"1\"}}",
    ),
    (
        "%ff?$apply=identity",
        "",
        0,
        "",
        "",
        "",
        "400",
        "{\"error\":{\"code\":\"Syntax\",\"message\":\"the text is no pipeline\",\"target\":\"0\"}}",
    ),
];

/// The line of a row.
fn line(alloc: Global, row: &Row) -> Result<String, Fail> {
    let (before, open, count, middle, close, end, _, _) = *row;
    let opened = open.repeat(alloc, count)?;
    let closed = close.repeat(alloc, count)?;
    Ok(format!(in alloc; "{before}{opened}{middle}{closed}{end}")?)
}

/// Compares the response to the line of a row.
fn expect_row<R: Threads + Sync + Abort>(rt: &R, alloc: Global, row: &Row) -> Result<(), Fail> {
    let line = line(alloc, row)?;
    let case = Case {
        model: SAMPLE,
        data: SALES_DATA,
        input: line.as_bytes(),
        ..PLAIN
    };
    let (code, body) = (row.6, row.7);
    let length = body.len();
    let response = format!(in alloc; "{code} {length}\n{body}\n")?;
    expect_run(rt, alloc, &case, Status::Served, response.as_bytes())
}

#[test]
fn limits_of_the_grammar_are_met_exactly(rt: HostRuntime) -> Result<(), Fail> {
    for row in AT_LIMITS {
        expect_row(&rt, rt.alloc(), row)?;
    }
    Ok(())
}
