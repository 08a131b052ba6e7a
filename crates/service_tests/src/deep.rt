//! A hierarchy as deep as it has nodes.
use crate::worlds::{PLAIN, expect_run};
use apply_service::Status;
use run_support::Case;
use std::alloc::Global;
use std::test::Fail;
use test_support::samples::SAMPLE;

/// How many organisations the chain has.
const COUNT: u32 = 400_000;

/// All organisations from the first down.
const ALL_BELOW: &[u8] =
    b"Orgs?$apply=descendants($root/Orgs,OrgTree,ID,filter(ID eq 'N0'),keep start)/aggregate($count as N)";

/// Their number.
const COUNTED: &str =
    "200 74\n{\"@context\":\"$metadata#Orgs(N)\",\"value\":[{\"N@type\":\"Int64\",\"N\":\"400000\"}]}\n";

/// A data file of organisations, each below the one before it.
fn chain(alloc: Global) -> Result<String, Fail> {
    let mut data = String::from_str(alloc, "{\"Orgs\":[{\"ID\":\"N0\"}")?;
    for node in 1..COUNT {
        let parent = node - 1;
        let entity = format!(in alloc; ",{{\"ID\":\"N{node}\",\"ParentID\":\"N{parent}\"}}")?;
        data.push_str(entity.as_str())?;
    }
    data.push_str("]}")?;
    Ok(data)
}

#[test]
fn all_nodes_of_a_long_chain_are_below_its_root(rt: HostRuntime) -> Result<(), Fail> {
    let alloc = rt.alloc();
    let data = chain(alloc)?;
    let case = Case {
        words: &["--workers", "1"],
        model: SAMPLE,
        data: data.as_str(),
        input: ALL_BELOW,
        ..PLAIN
    };
    expect_run(&rt, alloc, &case, Status::Served, COUNTED.as_bytes())
}
