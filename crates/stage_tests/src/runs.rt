//! Pipelines over the sample's data, run as they are written: by `run`, and by `run_plain` where they are plain. The expected
//! rows come from the rules and from a program that was written apart from this one.
ghost use Rattle.std.specs.Prelude.{◌≡◌, ◌<◌, IfOk, IsTrue};
ghost use Rattle.context_typing.specs.Readings.{readings, AreTypedOver};
ghost use Rattle.context_typing.specs.Typing.{customs_typed};
ghost use Rattle.hier_states.specs.States.{AreStates};

use crate::rows::{shown, world};
use crate::run_rows::{BY_NODES, GROUPED, JOINED, ROW_WISE, TAKEN};
use apply_grammar::read_request;
use apply_meaning::{Row, RunRefused, Steps, is_plain, run_plain};
use context_typing::{Customs, customs_are_typed, type_customs, type_pipe};
use custom_readings::read_customs;
use edm_data::{Data, EntityRef};
use edm_model::Model;
use hier_states::{HierState, first_cycle, hier_states};
use optimiser::Plan;
use par_stages::NoGate;
use plan_run::run;
use std::alloc::{AllocError, Global};
use std::marker::Brand;
use std::process::Abort;
use std::sync::ledger::{Blank, Ledger};
use std::test::Fail;
use std::thread::Threads;
use test_support::samples::SALES_DATA;
use test_support::texts::push_path;

/// The place of an entity, or a dash.
fn entity_text(alloc: Global, entity: Option<EntityRef>) -> Result<String, Fail> {
    match entity {
        Some(entity) => Ok(format!(in alloc; "{}", entity.at)?),
        None => Ok(String::from_str(alloc, "-")?),
    }
}

/// The place of the row's entity, those at its other prefixes, and its columns.
fn row_text(alloc: Global, row: &Row) -> Result<String, Fail> {
    let mut text = entity_text(alloc, row.root())?;
    for (path, entity) in row.prefixes() {
        text.push_str("; ")?;
        push_path(&mut text, path)?;
        text.push_str("@")?;
        text.push_str(entity_text(alloc, *entity)?.as_str())?;
    }
    for (path, value) in row.columns() {
        text.push_str("; ")?;
        push_path(&mut text, path)?;
        text.push_str(": ")?;
        text.push_str(shown(alloc, value.seen())?.as_str())?;
    }
    Ok(text)
}

/// The rows, or why there are none.
fn answer_text(alloc: Global, answer: Result<Vec<Row>, RunRefused>) -> Result<String, Fail> {
    let rows = match answer {
        Ok(rows) => rows,
        Err(RunRefused::Range) => return Ok(String::from_str(alloc, "Range")?),
        Err(RunRefused::Memory) => return Ok(String::from_str(alloc, "no memory")?),
    };
    let mut text = String::new(alloc);
    for (k, row) in rows.iter().enumerate() {
        if k > 0 {
            text.push_str(" | ")?;
        }
        text.push_str(row_text(alloc, row)?.as_str())?;
    }
    Ok(text)
}

/// Compares the rows, or why there are none.
fn expect_rows(
    rt: &impl Abort,
    alloc: Global,
    answer: Result<Vec<Row>, RunRefused>,
    line: &str,
    wanted: &str,
) -> Result<(), Fail> {
    let found = answer_text(alloc, answer)?;
    assert_eq!(rt; found.as_str(), wanted, "{line}");
    Ok(())
}

/// All custom aggregates of a model, with their typing.
pub(crate) fn typed_customs(alloc: Global, m: &Model) -> Result<Customs, Fail>
    ensures over { IfOk result (AreTypedOver m.now) }
    ensures whole { IfOk result (λ c. IsTrue (customs_typed m.now (readings c))) }
{
    let list = read_customs(alloc, m)?;
    if list.len() != m.customs().len() {
        return Err(AllocError.into());
    }
    let customs = type_customs(alloc, m, list)?;
    customs_are_typed(m, &customs);
    Ok(customs)
}

/// All custom aggregates of the data's model, with their typing.
fn all_customs(alloc: Global, store: &Data) -> Result<Customs, Fail>
    ensures over { IfOk result (AreTypedOver store.now.model) }
    ensures whole { IfOk result (λ c. IsTrue (customs_typed store.now.model (readings c))) }
{
    typed_customs(alloc, store.model())
}

/// Runs a request, and compares the rows.
fn expect_run<R: Threads + Sync + Abort, L: Ledger>(
    rt: &R,
    alloc: Global,
    store: &Data,
    customs: &Customs,
    hiers: &[HierState],
    line: &str,
    wanted: &str,
    steps: &mut Steps<L>,
) -> Result<(), Fail>
    requires typed { AreTypedOver store.now.model customs.now }
    requires whole { IsTrue (customs_typed store.now.model (readings customs.now)) }
    requires states { AreStates store.now hiers.now }
{
    let request = read_request(alloc, line.as_bytes())?;
    let Some(set) = store.model().set_named(request.set.text()) else {
        panic!(rt; "no set: {line}");
    };
    let typed = type_pipe(alloc, store.model(), customs, set, &request.pipe)?;
    if is_plain(&typed.pipe) {
        let answer = run_plain(alloc, store, customs, &typed, steps);
        expect_rows(rt, alloc, answer, line, wanted)?;
    }
    if first_cycle(store, hiers, &typed.pipe).is_some() {
        panic!(rt; "cyclic: {line}");
    }
    let plan = Plan::written(typed);
    let answer = run(rt, alloc, store, customs, hiers, &plan, 1, &NoGate, steps);
    expect_rows(rt, alloc, answer, line, wanted)
}

/// Runs each request of the tables by a new counter of steps. A row has a request, an arrow and the rows that it gives; other lines
/// of a table are blank or headings.
fn expect_runs<R: Threads + Sync + Abort, L: Ledger>(
    rt: &R,
    alloc: Global,
    tables: &[&str],
    blank: Blank,
) -> Result<(), Fail>
    requires name { blank.name ≡ L.name }
    requires parts { blank.parts ≡ L.parts }
    requires some { 0 < blank.parts }
{
    let mut steps = Steps::<L>::new(blank);
    let store = world(alloc, SALES_DATA)?;
    let customs = all_customs(alloc, &store)?;
    let hiers = hier_states(alloc, &store)?;
    for table in tables {
        for row in table.lines() {
            match row.split_once(" =>") {
                Some((line, wanted)) => expect_run(
                    rt,
                    alloc,
                    &store,
                    &customs,
                    hiers.as_slice(),
                    line,
                    wanted.trim_start(),
                    &mut steps,
                )?,
                None => assert!(rt; row.is_empty() || row.starts_with("//"), "no row: {row}"),
            }
        }
    }
    Ok(())
}

#[test]
fn pipelines_give_their_rows(rt: HostRuntime) -> Result<(), Fail> {
    let tables = [ROW_WISE, GROUPED, TAKEN, JOINED, BY_NODES];
    expect_runs::<_, Brand>(&rt, rt.alloc(), &tables, Blank::new(1))
}

/// Forms of pipelines, and whether they are plain.
const FORMS: &[(&str, bool)] = &[
    ("Sales?$apply=identity/skip(1)/top(1)", true),
    ("Sales?$apply=compute(1 as A)/filter(A eq 1)", true),
    ("Sales?$apply=aggregate($count as N)", true),
    ("Sales?$apply=aggregate(Best)", false),
    ("Sales?$apply=aggregate($count as N,Best)", false),
    ("Sales?$apply=orderby(ID)/top(1)", false),
    ("Sales?$apply=groupby((ID))", false),
    (
        "Sales?$apply=identity/groupby((ID,rollup($all,OrgID)),aggregate(Best))/top(1)",
        false,
    ),
    ("Sales?$apply=topcount(1,Amount)", false),
    ("Sales?$apply=concat(identity,identity)", false),
    ("Customers?$apply=join(Sales as S)", false),
    (
        "Sales?$apply=ancestors($root/Orgs,OrgTree,OrgID,identity)",
        false,
    ),
    (
        "Sales?$apply=traverse($root/Orgs,OrgTree,OrgID,preorder)",
        false,
    ),
];

#[test]
fn plain_forms(rt: HostRuntime) -> Result<(), Fail> {
    let alloc = rt.alloc();
    for (line, plain) in FORMS {
        let request = read_request(alloc, line.as_bytes())?;
        assert_eq!(rt; is_plain(&request.pipe), *plain, "{line}");
    }
    Ok(())
}
