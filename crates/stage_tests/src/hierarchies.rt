//! Walks, descendants, intervals and cycles of hierarchies, and rows by their nodes. The expected answers come from the rules and from a
//! program that was written apart from this one.
use crate::node_words::{
    CHAIN, MIXED, ORGS, TREE, limit_of, names, node_named, node_world, nodes_of, numbers, rows_of,
};
use edm_data::{Data, read_data};
use edm_model::read_model;
use hier_index::{Index, IndexRefused, WalkOrder, build};
use hier_traverse::{ancestors, descendants, traverse};
use std::alloc::Global;
use std::process::Abort;
use std::test::Fail;
use test_support::samples::{CYCLE_DATA, SALES_DATA, SAMPLE, STOCK};

/// What is asked of the organisations of the sample, and the answers.
const ORGS_ANSWERS: &str = r"
// Walks in preorder and in postorder, siblings by the ranks of the nodes.
walk 0 0 0 0 0 0 => [Corp EMEA US West East Lab] [EMEA West East US Corp Lab]
// By name, descending: roots are ordered like siblings.
walk 5 4 1 0 3 2 => [Lab Corp US West East EMEA] [Lab West East US EMEA Corp]
// By the length of the name, where siblings of one length stay in data order.
walk 4 4 2 4 4 3 => [Lab Corp US West East EMEA] [Lab West East US EMEA Corp]
// The nodes below one, at most as far as told.
below Corp all => [EMEA US West East]
below Corp 0 => []
below Corp 1 => [EMEA US]
below Corp 2 => [EMEA US West East]
below US all => [West East]
below US 1 => [West East]
below West all => []
below Lab all => []
// The numbers of the nodes in preorder, and the last number at or below each.
intervals => [0, 1, 2, 3, 4, 5] [4, 1, 4, 3, 4, 5]
// The places of the rows at ancestors and at descendants of start nodes, at most as far as told, with the start nodes or without.
// Sales by organisation: the one above the first sale's, a parent.
relatives 1 without West of West East EMEA West - US => [5] []
// The same with the start node itself.
relatives all with West of West East EMEA West - US => [0, 3, 5] [0, 3]
// One start node lies below the other, and each row is taken once.
relatives all with US West of West East EMEA West - US => [0, 3, 5] [0, 1, 3, 5]
relatives all with - of West East EMEA West - US => [] []
relatives all with of West East EMEA West - US => [] []
relatives 1 without West of Corp US West Lab US Corp - West => [1, 4] []
relatives 2 with West of Corp US West Lab US Corp - West => [0, 1, 2, 4, 5, 7] [2, 7]
relatives 1 without Corp US of Corp US West Lab US Corp - West => [0, 5] [1, 2, 4, 7]
relatives all without Corp US of Corp US West Lab US Corp - West => [0, 5] [1, 2, 4, 7]
relatives 1 with US US West of Corp US West Lab US Corp - West => [0, 1, 2, 4, 5, 7] [1, 2, 4, 7]
// The places of the rows in preorder and in postorder of their nodes.
// Each organisation is a row.
traverse 0 0 0 0 0 0 of Corp EMEA US West East Lab => [0, 1, 2, 3, 4, 5] [1, 3, 4, 2, 0, 5]
// By name, descending.
traverse 5 4 1 0 3 2 of Corp EMEA US West East Lab => [5, 0, 2, 3, 4, 1] [5, 3, 4, 2, 1, 0]
traverse 0 0 0 0 0 0 of West Corp East EMEA West - US Lab Corp => [1, 8, 3, 6, 0, 4, 2, 7] [3, 0, 4, 2, 6, 1, 8, 7]
traverse 5 4 1 0 3 2 of West Corp East EMEA West - US Lab Corp => [7, 1, 8, 6, 0, 4, 2, 3] [7, 0, 4, 2, 6, 3, 1, 8]
traverse 4 4 2 4 4 3 of West Corp East EMEA West - US Lab Corp => [7, 1, 8, 6, 0, 4, 2, 3] [7, 0, 4, 2, 6, 3, 1, 8]
traverse 2 3 0 5 4 1 of West Corp East EMEA West - US Lab Corp => [7, 1, 8, 6, 2, 0, 4, 3] [7, 2, 0, 4, 6, 3, 1, 8]
";

/// The same of a hierarchy whose children stand before their parents.
const MIXED_ANSWERS: &str = r"
walk 0 0 0 0 0 0 0 => [Lab Annex Corp US West East EMEA] [Annex Lab West East US EMEA Corp]
walk 1 3 2 1 1 1 0 => [Corp EMEA US West East Lab Annex] [EMEA West East US Corp Annex Lab]
below Corp all => [West US East EMEA]
below Corp 1 => [US EMEA]
below Lab 1 => [Annex]
intervals => [4, 3, 0, 2, 5, 6, 1] [4, 5, 1, 6, 5, 6, 1]
relatives 1 without Corp of Annex East Lab Corp US EMEA West Annex - => [] [4, 5]
relatives all without Annex Lab Annex of Annex East Lab Corp US EMEA West Annex - => [2] [0, 7]
relatives all with East Lab of Annex East Lab Corp US EMEA West Annex - => [1, 2, 3, 4] [0, 1, 2, 7]
traverse 0 0 0 0 0 0 0 of Annex East Lab - Corp US EMEA West Annex US => [2, 0, 8, 4, 5, 9, 7, 1, 6] [0, 8, 2, 7, 1, 5, 9, 6, 4]
traverse 0 1 2 5 3 4 6 of Annex East Lab - Corp US EMEA West Annex US => [2, 0, 8, 4, 5, 9, 7, 1, 6] [0, 8, 2, 7, 1, 5, 9, 6, 4]
traverse 5 0 1 2 4 3 6 of Annex East Lab - Corp US EMEA West Annex US => [2, 0, 8, 4, 5, 9, 1, 7, 6] [0, 8, 2, 1, 7, 5, 9, 6, 4]
";

/// The same of three levels below one root.
const TREE_ANSWERS: &str = r"
walk 6 5 4 3 2 1 0 => [A E G F B C D] [G F E D C B A]
below A 2 => [B C E F G]
below A 3 => [B C D E F G]
below A 18446744073709551615 => [B C D E F G]
below B 1 => [C]
below E all => [F G]
relatives 2 without D of G F E D C B A A - => [4, 5] []
relatives 1 with D G of G F E D C B A A - => [0, 2, 3, 4] [0, 3]
relatives 2 without A of G F E D C B A A - => [] [0, 1, 2, 4, 5]
relatives 1 without B E of G F E D C B A A - => [6, 7] [0, 1, 4]
relatives 0 without C E of G F E D C B A A - => [] []
relatives 0 with C E of G F E D C B A A - => [2, 4] [2, 4]
traverse 0 0 0 0 0 0 0 of G F E D - C B A A G => [7, 8, 6, 5, 3, 2, 1, 0, 9] [3, 5, 6, 1, 0, 9, 2, 7, 8]
traverse 6 5 4 3 2 1 0 of G F E D - C B A A G => [7, 8, 2, 0, 9, 1, 6, 5, 3] [0, 9, 1, 2, 3, 5, 6, 7, 8]
";

/// The same of a chain.
const CHAIN_ANSWERS: &str = r"
walk 0 1 2 3 => [A B C D] [D C B A]
below A all => [D C B]
below A 2 => [C B]
below B 1 => [C]
below D all => []
intervals => [3, 2, 1, 0] [3, 3, 3, 3]
relatives 3 without D of D C B A D C B A => [1, 2, 3, 5, 6, 7] []
relatives 1 with C of D C B A D C B A => [1, 2, 5, 6] [0, 1, 4, 5]
relatives 2 with A of D C B A D C B A => [3, 7] [1, 2, 3, 5, 6, 7]
relatives all without A B of D C B A D C B A => [3, 7] [0, 1, 2, 4, 5, 6]
relatives 18446744073709551615 without D of D C B A => [1, 2, 3] []
traverse 0 0 0 0 of A B C D D C B A => [0, 7, 1, 6, 2, 5, 3, 4] [3, 4, 2, 5, 1, 6, 0, 7]
";

/// The same of roots alone.
const ROOTS_ANSWERS: &str = "walk 7 7 7 => [A B C] [A B C]";

/// The same of one root.
const ROOT_ANSWERS: &str = "walk 0 => [A] [A]";

/// The same of no node.
const NO_ANSWERS: &str = r"
walk => [] []
intervals => [] []
relatives all with of - - => [] []
traverse of - => [] []
";

/// Hierarchies, and what is asked of each.
const HIERARCHIES: &[(&[&str], &str)] = &[
    (ORGS, ORGS_ANSWERS),
    (MIXED, MIXED_ANSWERS),
    (TREE, TREE_ANSWERS),
    (CHAIN, CHAIN_ANSWERS),
    (&["A", "B", "C"], ROOTS_ANSWERS),
    (&["A"], ROOT_ANSWERS),
    (&[], NO_ANSWERS),
];

/// Hierarchies, and the first node whose chain does not end, which need not be in the cycle.
const CYCLES: &[(&[&str], Option<u32>)] = &[
    (&["A B", "B A"], Some(0)),
    (&["A A"], Some(0)),
    (&["R", "A B", "B C", "C B", "D R"], Some(1)),
    (&["C D", "D C", "R"], Some(0)),
    (&["R", "S", "T V", "U T", "V U"], Some(2)),
    (&["L K", "K J", "J J"], Some(0)),
    (&["R", "A R", "B B", "C C"], Some(2)),
    (&["R", "X R", "A B", "B X"], None),
];

/// Items, shops and people, each with parents of its own.
const STOCK_DATA: &str =
    "{\"Items\":[{\"Code\":4,\"PartOf\":2,\"Twin\":null,\"Ratio\":\"1.00\",\"Made\":\"2020-01-01\",\"Label\":\"x\",\"Opened\":\"2020-01-01\",\"Fresh\":true},{\"Code\":1,\"Ratio\":\"1.00\",\"Made\":\"2020-01-01\",\"Label\":\"x\",\"Opened\":\"2020-01-01\",\"Fresh\":true},{\"Code\":2,\"PartOf\":1,\"Twin\":4,\"Ratio\":\"1.00\",\"Made\":\"2020-01-01\",\"Label\":\"x\",\"Opened\":\"2020-01-01\",\"Fresh\":true},{\"Code\":3,\"PartOf\":1,\"Twin\":3,\"Ratio\":\"1.00\",\"Made\":\"2020-01-01\",\"Label\":\"x\",\"Opened\":\"2020-01-01\",\"Fresh\":true},{\"Code\":5,\"Twin\":1,\"Ratio\":\"1.00\",\"Made\":\"2020-01-01\",\"Label\":\"x\",\"Opened\":\"2020-01-01\",\"Fresh\":true}],\"Shops\":[{\"Day\":\"2020-01-02\",\"Before\":\"2020-01-01\",\"City\":\"X\"},{\"Day\":\"2020-01-01\",\"City\":\"X\"},{\"Day\":\"2020-01-03\",\"Before\":\"2020-01-01\",\"City\":\"X\"},{\"Day\":\"2020-01-04\",\"City\":\"X\"}],\"People\":[{\"ID\":\"a\",\"MentorID\":\"b\",\"Name\":\"n\"},{\"ID\":\"b\",\"MentorID\":\"c\",\"Name\":\"n\"},{\"ID\":\"c\",\"MentorID\":\"a\",\"Name\":\"n\"},{\"ID\":\"d\",\"Name\":\"n\"}]}";

/// Hierarchies over keys of several types, and the places of their nodes in preorder, or the first node whose chain does
/// not end.
const SEVERAL: &[(&str, &str, &str)] = &[
    ("Items", "Tree", "[1, 2, 0, 3, 4]"),
    ("Items", "Copies", "a cycle at 3"),
    ("Shops", "Moves", "[1, 0, 2, 3]"),
    ("People", "Tree", "a cycle at 0"),
];

/// The organisations of the sample, and those that are each the parent of the other.
const SAMPLE_ORGS: &[(&str, &str, &str)] = &[("Orgs", "OrgTree", "[0, 1, 2, 3, 4, 5]")];

const CYCLIC_ORGS: &[(&str, &str, &str)] = &[("Orgs", "OrgTree", "a cycle at 0")];

/// The index of a hierarchy, or the first node whose chain does not end.
fn index_of(
    alloc: Global,
    store: &Data,
    set: &str,
    qualifier: &str,
) -> Result<Result<Index, u32>, Fail> {
    let model = store.model();
    let Some(s) = model.set_named(set) else {
        return Err(Fail::new("no such set"));
    };
    let Some(h) = model.hier_named(s, qualifier) else {
        return Err(Fail::new("no such hierarchy"));
    };
    match build(alloc, store, h) {
        Ok(index) => Ok(Ok(index)),
        Err(IndexRefused::Cycle(x)) => Ok(Err(x)),
        Err(IndexRefused::Memory) => Err(Fail::new("out of memory")),
    }
}

/// The index of the organisations that these words have, which have no cycle.
fn orgs(alloc: Global, nodes: &[&str]) -> Result<Index, Fail> {
    let store = node_world(alloc, nodes)?;
    match index_of(alloc, &store, "Orgs", "OrgTree")? {
        Ok(index) => Ok(index),
        Err(_) => Err(Fail::new("a cycle")),
    }
}

/// A walk over all nodes.
fn walked(index: &Index, order: WalkOrder, rank: &[u32]) -> Result<Vec<u32>, Fail> {
    if rank.len() != index.count() as usize {
        return Err(Fail::new("another number of ranks"));
    }
    Ok(index.walk(order, rank)?)
}

/// The names of the nodes in preorder and in postorder, by the ranks of the nodes.
fn walks(alloc: Global, nodes: &[&str], index: &Index, ranks: &str) -> Result<String, Fail> {
    let rank = numbers(alloc, ranks)?;
    let pre = walked(index, WalkOrder::Pre, &rank)?;
    let post = walked(index, WalkOrder::Post, &rank)?;
    let pre = names(alloc, nodes, &pre)?;
    let post = names(alloc, nodes, &post)?;
    Ok(format!(in alloc; "[{pre}] [{post}]")?)
}

/// The names of the nodes below the one of this name within a limit, in data order.
fn below(alloc: Global, nodes: &[&str], index: &Index, asked: &str) -> Result<String, Fail> {
    let (name, limit) = asked.split_once(' ').unwrap_or((asked, ""));
    let d = limit_of(limit)?;
    let Some(x) = node_named(nodes, index.count(), name) else {
        return Err(Fail::new("no such node"));
    };
    let mut found = Vec::new(alloc);
    for y in 0..index.count() {
        if index.is_descendant(x, y, d) {
            found.push(y)?;
        }
    }
    let found = names(alloc, nodes, &found)?;
    Ok(format!(in alloc; "[{found}]")?)
}

/// The places of the rows at ancestors and at descendants of start nodes: a limit, whether the start nodes are kept, their names, and behind
/// `of` the nodes of the rows.
fn relatives(alloc: Global, nodes: &[&str], index: &Index, asked: &str) -> Result<String, Fail> {
    let (limit, rest) = asked.split_once(' ').unwrap_or((asked, ""));
    let (kept, rest) = rest.split_once(' ').unwrap_or((rest, ""));
    let (starts, words) = rest.split_once("of ").unwrap_or((rest, ""));
    let d = limit_of(limit)?;
    let keep = kept == "with";
    let rows = rows_of(alloc, nodes, index.count(), words)?;
    let starts = nodes_of(alloc, nodes, index.count(), starts)?;
    let above = ancestors(alloc, index, &rows, &starts, d, keep)?;
    let below = descendants(alloc, index, &rows, &starts, d, keep)?;
    Ok(format!(in alloc; "{:?} {:?}", above.as_slice(), below.as_slice())?)
}

/// The places of the rows in preorder and in postorder: the ranks of the nodes, and behind `of` the nodes of the rows.
fn traversals(alloc: Global, nodes: &[&str], index: &Index, asked: &str) -> Result<String, Fail> {
    let (ranks, words) = asked.split_once("of ").unwrap_or((asked, ""));
    let rank = numbers(alloc, ranks)?;
    if rank.len() != index.count() as usize {
        return Err(Fail::new("another number of ranks"));
    }
    let rows = rows_of(alloc, nodes, index.count(), words)?;
    let pre = traverse(alloc, index, &rows, WalkOrder::Pre, &rank)?;
    let post = traverse(alloc, index, &rows, WalkOrder::Post, &rank)?;
    Ok(format!(in alloc; "{:?} {:?}", pre.as_slice(), post.as_slice())?)
}

/// The numbers of the nodes in preorder, and the last number at or below each.
fn intervals(alloc: Global, index: &Index) -> Result<String, Fail> {
    let (own, last) = index.intervals();
    Ok(format!(in alloc; "{own:?} {last:?}")?)
}

/// The answer to what is asked of a hierarchy; the first word says which it is.
fn answer(alloc: Global, nodes: &[&str], index: &Index, asked: &str) -> Result<String, Fail> {
    let (word, rest) = asked.split_once(' ').unwrap_or((asked, ""));
    match word {
        "walk" => walks(alloc, nodes, index, rest),
        "below" => below(alloc, nodes, index, rest),
        "intervals" => intervals(alloc, index),
        "relatives" => relatives(alloc, nodes, index, rest),
        "traverse" => traversals(alloc, nodes, index, rest),
        _ => Err(Fail::new("nothing is asked so")),
    }
}

/// Compares the answers of a table. A row has what is asked, an arrow and the answer; other lines of the table are blank or headings.
fn expect_answers(rt: &impl Abort, alloc: Global, nodes: &[&str], table: &str) -> Result<(), Fail> {
    let index = orgs(alloc, nodes)?;
    for row in table.lines() {
        match row.split_once(" => ") {
            Some((asked, wanted)) => {
                let found = answer(alloc, nodes, &index, asked)?;
                assert_eq!(rt; found.as_str(), wanted, "{asked} of {nodes:?}");
            }
            None => assert!(rt; row.is_empty() || row.starts_with("//"), "no row: {row}"),
        }
    }
    Ok(())
}

#[test]
fn hierarchies_have_their_walks_their_relatives_and_their_rows(
    rt: HostRuntime,
) -> Result<(), Fail> {
    for (nodes, table) in HIERARCHIES {
        expect_answers(&rt, rt.alloc(), nodes, table)?;
    }
    Ok(())
}

#[test]
fn cycles_are_named(rt: HostRuntime) -> Result<(), Fail> {
    let alloc = rt.alloc();
    for (nodes, expected) in CYCLES {
        let store = node_world(alloc, nodes)?;
        let cycle = index_of(alloc, &store, "Orgs", "OrgTree")?.err();
        assert_eq!(rt; cycle, *expected, "the cycle of {nodes:?}");
    }
    Ok(())
}

/// The places of the nodes of a hierarchy in preorder, or the first node whose chain does not end.
fn walk_of(alloc: Global, store: &Data, set: &str, qualifier: &str) -> Result<String, Fail> {
    let index = match index_of(alloc, store, set, qualifier)? {
        Ok(index) => index,
        Err(x) => return Ok(format!(in alloc; "a cycle at {x}")?),
    };
    let rank = vec![in alloc; 0; index.count() as usize]?;
    let nodes = walked(&index, WalkOrder::Pre, &rank)?;
    Ok(format!(in alloc; "{:?}", nodes.as_slice())?)
}

/// Reads a world, and compares the walks over its hierarchies.
fn expect_walks(
    rt: &impl Abort,
    alloc: Global,
    model: &str,
    data: &str,
    rows: &[(&str, &str, &str)],
) -> Result<(), Fail> {
    let model = read_model(alloc, model.as_bytes())?;
    let store = read_data(alloc, model, data.as_bytes())?;
    for (set, qualifier, expected) in rows {
        let found = walk_of(alloc, &store, set, qualifier)?;
        assert_eq!(rt; found.as_str(), *expected, "{set} {qualifier}");
    }
    Ok(())
}

#[test]
fn hierarchies_of_samples_are_indexed(rt: HostRuntime) -> Result<(), Fail> {
    expect_walks(&rt, rt.alloc(), STOCK, STOCK_DATA, SEVERAL)?;
    expect_walks(&rt, rt.alloc(), SAMPLE, SALES_DATA, SAMPLE_ORGS)?;
    expect_walks(&rt, rt.alloc(), SAMPLE, CYCLE_DATA, CYCLIC_ORGS)
}
