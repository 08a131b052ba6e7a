//! Definitions of custom aggregates that have a typing, and the first that has no reading or no typing. The expected answers
//! come from a program that was written apart from this one.

use crate::typing_customs_rows::{DEFINITION, DEFINITIONS, PLACES};
use crate::typing_table::set_of;
use context_typing::{CustomRefused, type_customs};
use custom_readings::read_customs;
use edm_model::{CustomId, Model, ModelRefused, read_model};
use std::alloc::{AllocError, Global};
use std::process::Abort;
use std::test::Fail;
use test_support::samples::{SAMPLE, STOCK};

/// The place of the custom aggregate of this id.
fn place_of(m: &Model, id: CustomId) -> usize {
    for (place, custom) in m.customs().iter().enumerate() {
        if custom.id == id {
            return place;
        }
    }
    m.customs().len()
}

/// The place of the custom aggregate that has no typing.
fn place_refused(m: &Model, refused: &CustomRefused) -> Result<usize, AllocError> {
    match refused {
        CustomRefused::At(id) => Ok(place_of(m, *id)),
        CustomRefused::Memory => Err(AllocError),
    }
}

/// The place of the first custom aggregate that has no reading or no typing, or the number of all of them.
fn first_refused(alloc: Global, m: &Model) -> Result<usize, AllocError> {
    let list = read_customs(alloc, m)?;
    let read = list.len();
    match &type_customs(alloc, m, list).err() {
        None => Ok(read),
        Some(refused) => place_refused(m, refused),
    }
}

/// The entity set and the name of the custom aggregate at a place, or nothing behind the last.
fn named(alloc: Global, m: &Model, place: usize) -> Result<String, AllocError> {
    match m.customs().get(place) {
        Some(custom) => {
            let set = set_of(m, custom.owner);
            let name = custom.name.as_str();
            format!(in alloc; "{set} {name}")
        }
        None => Ok(String::new(alloc)),
    }
}

/// What is said of the definitions of a model file.
fn said_of(alloc: Global, model: &str) -> Result<String, Fail> {
    let m = match read_model(alloc, model.as_bytes()) {
        Ok(m) => m,
        Err(ModelRefused::Model) => return Ok(String::from_str(alloc, "no model")?),
        Err(_) => return Ok(String::from_str(alloc, "refused")?),
    };
    let place = first_refused(alloc, &m)?;
    Ok(named(alloc, &m, place)?)
}

/// Compares what is said of a model with another text in the place of one of its texts.
fn expect_said(
    rt: &impl Abort,
    alloc: Global,
    model: &str,
    from: &str,
    to: &str,
    wanted: &str,
) -> Result<(), Fail> {
    assert!(rt; model.contains(from), "no {from}");
    let model = model.replace(alloc, from, to)?;
    let said = said_of(alloc, model.as_str())?;
    assert_eq!(rt; said.as_str(), wanted, "in the place of {from}");
    Ok(())
}

/// Compares what is said of the sample by an edit of one of its texts: the other text, an arrow and what is said.
fn expect_edit(rt: &impl Abort, alloc: Global, from: &str, edit: &str) -> Result<(), Fail> {
    match edit.split_once(" =>") {
        Some((to, wanted)) => expect_said(rt, alloc, SAMPLE, from, to, wanted.trim_start()),
        None => panic!(rt; "no edit {edit}"),
    }
}

/// The same by a row of a table. Where no text is given, the row has it before the edit, and an arrow.
fn expect_row(rt: &impl Abort, alloc: Global, given: Option<&str>, row: &str) -> Result<(), Fail> {
    match given {
        Some(from) => expect_edit(rt, alloc, from, row),
        None => match row.split_once(" => ") {
            Some((from, edit)) => expect_edit(rt, alloc, from, edit),
            None => panic!(rt; "no text in {row}"),
        },
    }
}

/// Compares what is said by each row of a table, whose other lines are blank or headings.
fn expect_table(
    rt: &impl Abort,
    alloc: Global,
    given: Option<&str>,
    table: &str,
) -> Result<(), Fail> {
    for row in table.lines() {
        if !row.is_empty() && !row.starts_with("//") {
            expect_row(rt, alloc, given, row)?;
        }
    }
    Ok(())
}

#[test]
fn the_first_definition_without_a_typing_is_named(rt: HostRuntime) -> Result<(), Fail> {
    expect_table(&rt, rt.alloc(), Some(DEFINITION), DEFINITIONS)?;
    expect_table(&rt, rt.alloc(), None, PLACES)
}

/// What stands so often before a literal, what as often behind it, and what is said of the definition.
const NESTED: &[(&str, usize, &str, &str)] = &[
    ("not ", 512, "", ""),
    ("not ", 513, "", "Sales Best"),
    ("(", 32, ")", ""),
    ("(", 33, ")", "Sales Best"),
];

/// A definition of a literal in so many of these.
fn nested(alloc: Global, open: &str, count: usize, close: &str) -> Result<String, AllocError> {
    let before = open.repeat(alloc, count)?;
    let after = close.repeat(alloc, count)?;
    format!(in alloc; "{{\"Of\":\"{before}true{after}\",\"With\":\"countdistinct\"}}")
}

/// Texts of the stock's model between which a path begins.
const PATHS: &[(&str, &str)] = &[
    ("{\"Of\":\"", "Label\",\"With\":\"min\""),
    ("\"Per\":[\"", "Label\",\"Shop/Chief/ID\"]"),
];

/// Compares what is said of definitions with a path of 200,000 names more.
fn expect_long_paths(rt: &impl Abort, alloc: Global) -> Result<(), Fail> {
    let navigations = "Copy/".repeat(alloc, 200_000)?;
    for (before, after) in PATHS {
        let short = format!(in alloc; "{before}{after}")?;
        let long = format!(in alloc; "{before}{navigations}{after}")?;
        expect_said(rt, alloc, STOCK, short.as_str(), long.as_str(), "")?;
    }
    Ok(())
}

#[test]
fn definitions_keep_the_limits_of_expressions(rt: HostRuntime) -> Result<(), Fail> {
    for (open, count, close, wanted) in NESTED {
        let to = nested(rt.alloc(), open, *count, close)?;
        expect_said(&rt, rt.alloc(), SAMPLE, DEFINITION, to.as_str(), wanted)?;
    }
    expect_long_paths(&rt, rt.alloc())
}
