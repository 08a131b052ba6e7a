//! Into how many pieces folds are cut where there are more than two workers.
ghost use Rattle.std.specs.Prelude.{◌≤◌};

use crate::worlds::PLAIN;
use apply_service::Status;
use run_support::{Case, outcome_at};
use sample_data::gen_data;
use std::alloc::Global;
use std::process::Abort;
use std::test::Fail;
use std::thread::Threads;
use test_support::meetings::Meeting;
use test_support::samples::SAMPLE;

/// A request for each kind of stage that folds in pieces, and how many pieces of its folds are not alone with four workers over
/// a long list: four of each fold, of which the custom aggregate has one that numbers its customers, one of their sums and one over
/// these.
const STAGES: [(&str, u64); 8] = [
    ("Sales?$apply=aggregate(Amount with sum as Total)\n", 4),
    ("Sales?$apply=aggregate(Amount with min as Least)\n", 4),
    ("Sales?$apply=aggregate(Amount with max as Most)\n", 4),
    (
        "Sales?$apply=aggregate(OrgID with countdistinct as Orgs)\n",
        4,
    ),
    ("Sales?$apply=aggregate(Best)\n", 12),
    ("Sales?$apply=groupby((OrgID))\n", 4),
    ("Sales?$apply=groupby((rollup($all,OrgID)))\n", 4),
    (
        "Sales?$apply=groupby((rolluprecursive($root/Orgs,OrgTree,OrgID,filter(ID eq 'O0'))))\n",
        4,
    ),
];

/// Compares how many pieces of each stage are not alone with four workers over so many sales: those of the table where lists of
/// this length are cut, and else none.
fn expect_pieces<R: Threads + Sync + Abort>(
    rt: &R,
    alloc: Global,
    sales: u32,
    is_cut: bool,
) -> Result<(), Fail>
    requires some { 1 ≤ sales }
    requires few { sales ≤ 200000 }
{
    let data = String::from_utf8(gen_data(alloc, sales)?)?;
    for (line, pieces) in STAGES {
        let gate = Meeting::new();
        let case = Case {
            words: &["--workers", "4"],
            model: SAMPLE,
            data: data.as_str(),
            input: line.as_bytes(),
            ..PLAIN
        };
        let ran = outcome_at(rt, alloc, &case, &gate)?;
        let expected = if is_cut { pieces } else { 0 };
        assert_eq!(rt; ran.status, Status::Served);
        assert_eq!(rt; gate.shared(), expected, "pieces of {line} over {sales}");
    }
    Ok(())
}

#[test]
fn four_workers_cut_long_lists_into_four_and_short_ones_not(rt: HostRuntime) -> Result<(), Fail> {
    expect_pieces(&rt, rt.alloc(), 2000, false)?;
    expect_pieces(&rt, rt.alloc(), 20_000, true)
}
