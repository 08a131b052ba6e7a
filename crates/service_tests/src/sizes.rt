//! Requests over many rows, and over groups of many rows and of few.
use crate::lines::expect_answers;
use crate::worlds::{PLAIN, expect_ended, expect_run};
use apply_service::Status;
use run_support::{Case, RunResult, outcome_of, texts};
use sample_data::gen_data;
use std::alloc::Global;
use std::process::Abort;
use std::test::Fail;
use std::thread::Threads;
use test_support::samples::SAMPLE;

/// A grouping by as many keys as there are sales.
const BY_KEYS: Case<'static> = Case {
    words: &["--workers", "1"],
    model: SAMPLE,
    input: b"Sales?$apply=groupby((ID))/aggregate($count as N)\n",
    ..PLAIN
};

/// The number of keys, as it is answered.
const COUNTED: &str =
    "200 75\n{\"@context\":\"$metadata#Sales(N)\",\"value\":[{\"N@type\":\"Int64\",\"N\":\"200000\"}]}\n";

/// Joins behind a filter in the plan, which make no row.
const JOINS: Case<'static> = Case {
    model: SAMPLE,
    input: b"Customers?$apply=join(Sales as S)/join(Sales as T)/join(Sales as U)/filter(Country eq 'XX')\n",
    ..PLAIN
};

/// The response to three joins of no customer.
const NONE_JOINED: &str =
    "200 63\n{\"@context\":\"$metadata#Customers(*,S(*),T(*),U(*))\",\"value\":[]}\n";

/// Runs over 200,000 sales, and compares the response.
fn expect_large<R: Threads + Sync + Abort>(
    rt: &R,
    alloc: Global,
    case: &Case<'static>,
    output: &str,
) -> Result<(), Fail> {
    let data = String::from_utf8(gen_data(alloc, 200_000)?)?;
    let case = Case {
        data: data.as_str(),
        ..*case
    };
    expect_run(rt, alloc, &case, Status::Served, output.as_bytes())
}

#[test]
fn a_grouping_by_200000_keys_is_answered(rt: HostRuntime) -> Result<(), Fail> {
    expect_large(&rt, rt.alloc(), &BY_KEYS, COUNTED)
}

#[test]
fn joins_behind_a_filter_in_the_plan_make_no_row(rt: HostRuntime) -> Result<(), Fail> {
    expect_large(&rt, rt.alloc(), &JOINS, NONE_JOINED)
}

/// Requests whose inner pipelines are run on groups of hundreds of 2,000 generated sales, on groups of 9 to 37, and on groups of
/// both kinds of rollups, with the code and the body of their responses, from a program that was written apart.
const GROUPS: &[(&str, &str, &str)] = &[
    (
        "Sales?$apply=groupby((CustomerID),filter(Amount gt 90)/aggregate($count as N,ID with max as L))",
        "200",
        "{\"@context\":\"$metadata#Sales(CustomerID,L,N)\",\"value\":[{\"CustomerID\":\"C0\",\"L@type\":\"Int64\",\"L\":\"1947\",\"N@type\":\"Int64\",\"N\":\"19\"},{\"CustomerID\":\"C4\",\"L@type\":\"Int64\",\"L\":\"1983\",\"N@type\":\"Int64\",\"N\":\"26\"},{\"CustomerID\":\"C5\",\"L@type\":\"Int64\",\"L\":\"1787\",\"N@type\":\"Int64\",\"N\":\"23\"},{\"CustomerID\":\"C2\",\"L@type\":\"Int64\",\"L\":\"1971\",\"N@type\":\"Int64\",\"N\":\"19\"},{\"CustomerID\":\"C7\",\"L@type\":\"Int64\",\"L\":\"1960\",\"N@type\":\"Int64\",\"N\":\"24\"},{\"CustomerID\":\"C3\",\"L@type\":\"Int64\",\"L\":\"1918\",\"N@type\":\"Int64\",\"N\":\"29\"},{\"CustomerID\":\"C6\",\"L@type\":\"Int64\",\"L\":\"1790\",\"N@type\":\"Int64\",\"N\":\"25\"},{\"CustomerID\":\"C1\",\"L@type\":\"Int64\",\"L\":\"1889\",\"N@type\":\"Int64\",\"N\":\"26\"}]}",
    ),
    (
        "Sales?$apply=groupby((CustomerID),compute(Amount mul 2 as D)/topcount(1,D)/aggregate(ID with max as L,D with max as M))",
        "200",
        "{\"@context\":\"$metadata#Sales(CustomerID,L,M)\",\"value\":[{\"CustomerID\":\"C0\",\"L@type\":\"Int64\",\"L\":\"1546\",\"M@type\":\"Decimal\",\"M\":\"196.92\"},{\"CustomerID\":\"C4\",\"L@type\":\"Int64\",\"L\":\"1470\",\"M@type\":\"Decimal\",\"M\":\"199.40\"},{\"CustomerID\":\"C5\",\"L@type\":\"Int64\",\"L\":\"1787\",\"M@type\":\"Decimal\",\"M\":\"198.86\"},{\"CustomerID\":\"C2\",\"L@type\":\"Int64\",\"L\":\"1971\",\"M@type\":\"Decimal\",\"M\":\"199.66\"},{\"CustomerID\":\"C7\",\"L@type\":\"Int64\",\"L\":\"1960\",\"M@type\":\"Decimal\",\"M\":\"199.84\"},{\"CustomerID\":\"C3\",\"L@type\":\"Int64\",\"L\":\"1657\",\"M@type\":\"Decimal\",\"M\":\"198.42\"},{\"CustomerID\":\"C6\",\"L@type\":\"Int64\",\"L\":\"1754\",\"M@type\":\"Decimal\",\"M\":\"199.48\"},{\"CustomerID\":\"C1\",\"L@type\":\"Int64\",\"L\":\"1641\",\"M@type\":\"Decimal\",\"M\":\"199.06\"}]}",
    ),
    (
        "Sales?$apply=groupby((CustomerID),concat(filter(Amount gt 90)/aggregate($count as N),orderby(Amount desc)/top(1)))/aggregate(N with sum as S,ID with sum as I,$count as G)",
        "200",
        "{\"@context\":\"$metadata#Sales(G,I,S)\",\"value\":[{\"G@type\":\"Int64\",\"G\":\"16\",\"I@type\":\"Int64\",\"I\":\"13786\",\"S@type\":\"Int64\",\"S\":\"191\"}]}",
    ),
    (
        "Sales?$apply=groupby((OrgID),compute(Amount mul 2 as D)/topcount(1,D))/aggregate(ID with sum as S,D with max as M,$count as G)",
        "200",
        "{\"@context\":\"$metadata#Sales(G,M,S)\",\"value\":[{\"G@type\":\"Int64\",\"G\":\"11\",\"M@type\":\"Decimal\",\"M\":\"199.84\",\"S@type\":\"Int64\",\"S\":\"15457\"}]}",
    ),
    (
        "Sales?$apply=groupby((CustomerID,OrgID),filter(Amount gt 90)/aggregate($count as N))/aggregate(N with sum as S,N with max as M,$count as G)",
        "200",
        "{\"@context\":\"$metadata#Sales(G,M,S)\",\"value\":[{\"G@type\":\"Int64\",\"G\":\"88\",\"M@type\":\"Int64\",\"M\":\"6\",\"S@type\":\"Int64\",\"S\":\"191\"}]}",
    ),
    (
        "Sales?$apply=groupby((rollup(CustomerID,OrgID)),filter(Amount gt 90)/aggregate($count as N))/aggregate(N with sum as S,N with max as M,$count as G)",
        "200",
        "{\"@context\":\"$metadata#Sales(G,M,S)\",\"value\":[{\"G@type\":\"Int64\",\"G\":\"96\",\"M@type\":\"Int64\",\"M\":\"29\",\"S@type\":\"Int64\",\"S\":\"382\"}]}",
    ),
    (
        "Sales?$apply=groupby((CustomerID),groupby((OrgID),aggregate(Amount with sum as T))/topcount(1,T))",
        "200",
        "{\"@context\":\"$metadata#Sales(CustomerID,OrgID,T)\",\"value\":[{\"CustomerID\":\"C0\",\"OrgID\":\"O2\",\"T@type\":\"Decimal\",\"T\":\"1843.36\"},{\"CustomerID\":\"C4\",\"OrgID\":\"O10\",\"T@type\":\"Decimal\",\"T\":\"1508.55\"},{\"CustomerID\":\"C5\",\"OrgID\":\"O10\",\"T@type\":\"Decimal\",\"T\":\"1607.97\"},{\"CustomerID\":\"C2\",\"OrgID\":\"O3\",\"T@type\":\"Decimal\",\"T\":\"1663.73\"},{\"CustomerID\":\"C7\",\"OrgID\":\"O3\",\"T@type\":\"Decimal\",\"T\":\"1685.61\"},{\"CustomerID\":\"C3\",\"OrgID\":\"O6\",\"T@type\":\"Decimal\",\"T\":\"1966.31\"},{\"CustomerID\":\"C6\",\"OrgID\":\"O1\",\"T@type\":\"Decimal\",\"T\":\"1634.84\"},{\"CustomerID\":\"C1\",\"OrgID\":\"O6\",\"T@type\":\"Decimal\",\"T\":\"1590.80\"}]}",
    ),
    (
        "Sales?$apply=groupby((rolluprecursive($root/Orgs,OrgTree,OrgID)),filter(Amount gt 90)/aggregate($count as N))/aggregate(N with sum as S,N with max as M,$count as G)",
        "200",
        "{\"@context\":\"$metadata#Sales(G,M,S)\",\"value\":[{\"G@type\":\"Int64\",\"G\":\"11\",\"M@type\":\"Int64\",\"M\":\"191\",\"S@type\":\"Int64\",\"S\":\"479\"}]}",
    ),
];

#[test]
fn inner_pipelines_give_the_same_on_groups_of_all_sizes(rt: HostRuntime) -> Result<(), Fail> {
    let data = String::from_utf8(gen_data(rt.alloc(), 2000)?)?;
    expect_answers(&rt, rt.alloc(), SAMPLE, data.as_str(), GROUPS)
}

/// The responses to the sample requests over 50,000 generated sales, by this plan.
fn generated<R: Threads + Sync>(rt: &R, alloc: Global, plan: &str) -> Result<RunResult, Fail> {
    let words = texts(
        alloc,
        &["--mode", "gen", "--count", "50000", "--plan", plan],
    )?;
    outcome_of(rt, alloc, &PLAIN, words.as_slice(), Vec::new(alloc))
}

#[test]
fn both_plans_write_the_same_over_50000_sales(rt: HostRuntime) -> Result<(), Fail> {
    let written = generated(&rt, rt.alloc(), "written")?;
    let optimised = generated(&rt, rt.alloc(), "optimised")?;
    assert_eq!(rt; optimised.status, Status::Served);
    expect_ended(
        &rt,
        &written,
        Status::Served,
        optimised.output.as_slice(),
        "sales",
        50_000,
    );
    Ok(())
}
