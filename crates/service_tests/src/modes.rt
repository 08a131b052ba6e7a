//! What each mode writes, and that workers and the plan change nothing.
use crate::worlds::{PLAIN, answered, expect_ended, expect_run};
use apply_service::Status;
use run_support::{Case, RunResult, outcome, outcome_of, texts};
use std::alloc::Global;
use std::test::Fail;
use std::thread::Threads;
use test_support::samples::{CYCLE_DATA, SALES_DATA, SAMPLE};

/// Requests whose stages are folds.
const FOLDS: &[u8] =
    b"Sales?$apply=groupby((Customer/Country),aggregate(Amount with sum as T))\nSales?$apply=groupby((rollup(Customer/Country,Customer/Name)),aggregate($count as N))\nSales?$apply=groupby((rolluprecursive($root/Orgs,OrgTree,OrgID)),aggregate(Amount with sum as T))\n";

/// The responses to the sample requests over three sales.
const THREE_SALES: &str =
    "200 103\n{\"@context\":\"$metadata#Sales(N,T)\",\"value\":[{\"N@type\":\"Int64\",\"N\":\"3\",\"T@type\":\"Decimal\",\"T\":\"87.26\"}]}\n200 122\n{\"@context\":\"$metadata#Sales(Customer(Country),T)\",\"value\":[{\"Customer\":{\"Country\":\"US\"},\"T@type\":\"Decimal\",\"T\":\"87.26\"}]}\n200 273\n{\"@context\":\"$metadata#Sales(Customer(Country),CustomerID,N)\",\"value\":[{\"Customer\":{\"Country\":\"US\"},\"CustomerID\":\"C0\",\"N@type\":\"Int64\",\"N\":\"1\"},{\"Customer\":{\"Country\":\"US\"},\"CustomerID\":\"C4\",\"N@type\":\"Int64\",\"N\":\"2\"},{\"Customer\":{\"Country\":\"US\"},\"N@type\":\"Int64\",\"N\":\"3\"}]}\n200 95\n{\"@context\":\"$metadata#Sales(OrgID,T)\",\"value\":[{\"OrgID\":\"O0\",\"T@type\":\"Decimal\",\"T\":\"87.26\"}]}\n200 76\n{\"@context\":\"$metadata#Sales(L)\",\"value\":[{\"L@type\":\"Decimal\",\"L\":\"23.45\"}]}\n";

/// The requests over the sample.
const SAMPLE_FOLDS: Case<'static> = Case {
    model: SAMPLE,
    data: SALES_DATA,
    input: FOLDS,
    ..PLAIN
};

/// Numbers of workers, and plans.
const WORDS: &[&[&str]] = &[
    &["--workers", "1", "--plan", "optimised"],
    &["--workers", "2", "--plan", "written"],
    &["--workers", "7"],
    &["--workers", "64", "--plan", "written"],
];

#[test]
fn workers_and_the_plan_change_no_byte(rt: HostRuntime) -> Result<(), Fail> {
    let plain = outcome(&rt, rt.alloc(), &SAMPLE_FOLDS)?;
    assert_eq!(rt; plain.status, Status::Served);
    for words in WORDS {
        let case = Case {
            words,
            ..SAMPLE_FOLDS
        };
        expect_run(
            &rt,
            rt.alloc(),
            &case,
            Status::Served,
            plain.output.as_slice(),
        )?;
    }
    Ok(())
}

/// A check, which reads no input.
const CHECK: Case<'static> = Case {
    words: &["--mode", "check"],
    input_fails: 1,
    ..PLAIN
};

/// A model file and a data file, how a check of them ends, and what it tells of them.
const CHECKS: &[(&str, &str, Status, &[u8])] = &[
    (
        SAMPLE,
        SALES_DATA,
        Status::Served,
        b"entities 16\nhierarchy Org OrgTree ok\n",
    ),
    (
        SAMPLE,
        CYCLE_DATA,
        Status::Served,
        b"entities 2\nhierarchy Org OrgTree cycle \"A\"\n",
    ),
    (
        SAMPLE,
        "{}",
        Status::Served,
        b"entities 0\nhierarchy Org OrgTree ok\n",
    ),
    (SAMPLE, "{", Status::DataRefused, b"data Json\n"),
    ("{", SALES_DATA, Status::ModelRefused, b"model Json\n"),
];

#[test]
fn a_check_tells_of_the_files_and_reads_no_input(rt: HostRuntime) -> Result<(), Fail> {
    for (model, data, status, output) in CHECKS {
        let case = Case {
            model,
            data,
            ..CHECK
        };
        expect_run(&rt, rt.alloc(), &case, *status, output)?;
    }
    Ok(())
}

/// A run whose words name the mode, and which reads no file and no input.
const ALONE: Case<'static> = Case {
    folder_fails: 1,
    input_fails: 1,
    ..PLAIN
};

/// What the sample requests over so many generated sales are answered by.
fn generated<R: Threads + Sync>(rt: &R, alloc: Global, count: &str) -> Result<RunResult, Fail> {
    let words = texts(alloc, &["--mode", "gen", "--count", count])?;
    outcome_of(rt, alloc, &ALONE, words.as_slice(), Vec::new(alloc))
}

#[test]
fn the_sample_requests_are_answered_without_files_and_input(rt: HostRuntime) -> Result<(), Fail> {
    let three = generated(&rt, rt.alloc(), "3")?;
    expect_ended(
        &rt,
        &three,
        Status::Served,
        THREE_SALES.as_bytes(),
        "sales",
        3,
    );
    let once = generated(&rt, rt.alloc(), "2000")?;
    let again = generated(&rt, rt.alloc(), "2000")?;
    assert_eq!(rt; once.status, Status::Served);
    expect_ended(
        &rt,
        &again,
        Status::Served,
        once.output.as_slice(),
        "sales",
        2000,
    );
    assert_eq!(rt; answered(once.output.as_slice()), 5);
    Ok(())
}
