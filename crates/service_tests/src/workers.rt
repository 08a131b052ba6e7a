//! Runs with several workers.
use crate::worlds::{DEFINITION, PLAIN, answered, expect_ended};
use apply_service::Status;
use run_support::{Case, RunResult, outcome, outcome_at, outcome_of, texts};
use sample_data::gen_data;
use std::alloc::Global;
use std::process::Abort;
use std::test::Fail;
use std::thread::Threads;
use test_support::meetings::Meeting;
use test_support::samples::{SALES_DATA, SAMPLE};

/// A request for each kind of stage that folds in pieces, and how many pieces of its folds are not alone with two workers: two of
/// each fold, of which the custom aggregate has one that numbers its customers, one of their sums and one over these.
const STAGES: &[(&str, u64)] = &[
    ("Sales?$apply=aggregate(Amount with sum as Total)\n", 2),
    ("Sales?$apply=aggregate(Amount with min as Least)\n", 2),
    ("Sales?$apply=aggregate(Amount with max as Most)\n", 2),
    (
        "Sales?$apply=aggregate(OrgID with countdistinct as Orgs)\n",
        2,
    ),
    ("Sales?$apply=aggregate(Best)\n", 6),
    ("Sales?$apply=groupby((OrgID))\n", 2),
    ("Sales?$apply=groupby((rollup($all,OrgID)))\n", 2),
    (
        "Sales?$apply=groupby((rolluprecursive($root/Orgs,OrgTree,OrgID)))\n",
        2,
    ),
];

/// Runs a request over the sample's data with two workers; two pieces of its folds meet, and so many are not alone.
fn expect_meeting<'a, R: Threads + Sync + Abort>(
    rt: &R,
    alloc: Global,
    model: &'a str,
    line: &'a str,
    shared: u64,
) -> Result<(), Fail> {
    let gate = Meeting::new();
    let case = Case {
        words: &["--workers", "2"],
        model,
        data: SALES_DATA,
        input: line.as_bytes(),
        ..PLAIN
    };
    let ran = outcome_at(rt, alloc, &case, &gate)?;
    assert_eq!(rt; ran.status, Status::Served);
    assert!(rt; gate.met(), "no two pieces of {line}");
    assert_eq!(rt; gate.shared(), shared, "pieces of {line}");
    Ok(())
}

#[test]
fn two_pieces_of_each_stage_are_under_way_together(rt: HostRuntime) -> Result<(), Fail> {
    for (line, shared) in STAGES {
        expect_meeting(&rt, rt.alloc(), SAMPLE, line, *shared)?;
    }
    let ungrouped = "{\"Of\":\"Amount\",\"With\":\"sum\"}";
    let model = SAMPLE.replace(rt.alloc(), DEFINITION, ungrouped)?;
    expect_meeting(
        &rt,
        rt.alloc(),
        model.as_str(),
        "Sales?$apply=aggregate(Best)\n",
        2,
    )
}

/// The responses to the sample requests over 3,000 generated sales, by so many workers.
fn generated<R: Threads + Sync>(rt: &R, alloc: Global, workers: &str) -> Result<RunResult, Fail> {
    let words = texts(
        alloc,
        &["--mode", "gen", "--count", "3000", "--workers", workers],
    )?;
    outcome_of(rt, alloc, &PLAIN, words.as_slice(), Vec::new(alloc))
}

#[test]
fn generated_worlds_have_one_answer_for_all_workers(rt: HostRuntime) -> Result<(), Fail> {
    let alone = generated(&rt, rt.alloc(), "1")?;
    assert_eq!(rt; alone.status, Status::Served);
    for workers in ["2", "7", "64"] {
        let ran = generated(&rt, rt.alloc(), workers)?;
        expect_ended(
            &rt,
            &ran,
            Status::Served,
            alone.output.as_slice(),
            workers,
            3000,
        );
    }
    Ok(())
}

/// Requests whose values, keys and columns are worked out on parts of a long list, by threads: of sales of which no row is made,
/// and, behind a grouping by `ID`, of rows.
const VALUED: &str = concat!(
    "Sales?$apply=filter(Amount mul 2 gt 50)/aggregate($count as N,ID with sum as S)\n",
    "Sales?$apply=compute(Amount mul 2 as D,OrgID as E)/aggregate(D with sum as S,E with max as M)\n",
    "Sales?$apply=topcount(5,Amount mul 3)\n",
    "Sales?$apply=topsum(100000,Amount)/aggregate($count as N,ID with sum as S)\n",
    "Sales?$apply=orderby(Customer/Country desc,Amount)/skip(19995)\n",
    "Sales?$apply=groupby((Customer/Country,OrgID),aggregate(Amount mul 2 with sum as S))/topcount(5,S)\n",
    "Sales?$apply=compute(Amount mul 2 as D)/groupby((D),aggregate($count as N))/topcount(5,N)\n",
    "Sales?$apply=groupby((rollup($all,Customer/Country,CustomerID)),aggregate(Amount with sum as S))/topcount(5,S)\n",
    "Sales?$apply=groupby((ID,Amount))/filter(Amount mul 2 gt 50)/aggregate($count as N,ID with sum as S)\n",
    "Sales?$apply=groupby((ID,Amount))/compute(Amount mul 2 as D)/topcount(5,D)\n",
    "Sales?$apply=groupby((ID,CustomerID))/groupby((CustomerID),aggregate(ID with sum as S))/topcount(5,S)\n",
);

/// How many requests these are.
const VALUED_COUNT: usize = 11;

/// Compares the responses over these data by several numbers of workers with those by one.
fn expect_one_answer<R: Threads + Sync + Abort>(
    rt: &R,
    alloc: Global,
    data: &str,
) -> Result<(), Fail> {
    let case = Case {
        words: &["--workers", "1"],
        model: SAMPLE,
        data,
        input: VALUED.as_bytes(),
        ..PLAIN
    };
    let alone = outcome(rt, alloc, &case)?;
    assert_eq!(rt; alone.status, Status::Served);
    assert_eq!(rt; answered(alone.output.as_slice()), VALUED_COUNT);
    for workers in ["2", "4", "64"] {
        let words = ["--workers", workers];
        let case = Case {
            words: &words,
            ..case
        };
        let ran = outcome(rt, alloc, &case)?;
        let output = alone.output.as_slice();
        expect_ended(rt, &ran, Status::Served, output, workers, 20_000);
    }
    Ok(())
}

#[test]
fn values_on_many_rows_are_the_same_for_all_workers(rt: HostRuntime) -> Result<(), Fail> {
    let data = String::from_utf8(gen_data(rt.alloc(), 20_000)?)?;
    expect_one_answer(&rt, rt.alloc(), data.as_str())
}
