//! Requests beside what typing says of them: the shape that the pipeline leads to, or the first step that has no typing. The
//! expected texts come from the rules of typing and from a program that was written apart from this one.
//!
//! A shape is written with the entity set of its own entities, or `-` where there are none, then its prefixes and its
//! columns; `(may be refused)` stands behind it where the pipeline is not quiet.
ghost use Rattle.std.specs.Prelude.{◌≡◌};
ghost use Rattle.edm_model.specs.LookUps.{IsSet};
ghost use Rattle.context_typing.specs.Shapes.{set_shape};
ghost use Rattle.context_typing.specs.Readings.{AreTypedOver};

use crate::{stock_requests, typed_requests, untyped_requests};
use apply_ast::Pipe;
use apply_grammar::{GrammarRefused, read_request};
use context_typing::{
    ColumnList, ColumnShape, Customs, PrefixList, RootShape, Shape, TypeRefused, Typed, is_quiet,
    type_customs, type_pipe,
};
use custom_readings::read_customs;
use edm_model::{Model, SetId, TypeId, read_model};
use edm_values::EdmType;
use std::alloc::{AllocError, Global};
use std::process::Abort;
use std::test::Fail;
use test_support::samples::{SAMPLE, STOCK, WORDS};
use test_support::texts::push_path;

type Done = Result<(), AllocError>;

/// The entity sets of the models.
const SETS: &[&str] = &[
    "Customers",
    "Orgs",
    "Sales",
    "Items",
    "People",
    "Shops",
    "count",
];

/// The name of the entity set whose type this is.
pub(crate) fn set_of(m: &Model, of: TypeId) -> &'static str {
    for name in SETS {
        if let Some(set) = m.set_named(name) {
            if m.set_type(set) == of {
                return *name;
            }
        }
    }
    "?"
}

/// Appends a type's name, without its namespace, and the scale and precision of a decimal type.
fn push_kind(alloc: Global, text: &mut String, kind: EdmType) -> Done {
    match kind {
        EdmType::Bool => text.push_str("Boolean"),
        EdmType::Int => text.push_str("Int64"),
        EdmType::Text => text.push_str("String"),
        EdmType::Day => text.push_str("Date"),
        EdmType::Dec { scale, precision } => {
            let decimal = format!(in alloc; "Decimal({scale},{precision})")?;
            text.push_str(decimal.as_str())
        }
    }
}

/// Appends a word where something holds.
fn push_if(text: &mut String, holds: bool, word: &str) -> Done {
    if holds { text.push_str(word) } else { Ok(()) }
}

/// Appends the entity set of the entities at a prefix.
fn push_set(text: &mut String, m: &Model, of: TypeId, absent: bool) -> Done {
    text.push_str(set_of(m, of))?;
    push_if(text, absent, " absent")
}

fn push_column(alloc: Global, text: &mut String, column: &ColumnShape) -> Done {
    text.push_str("; ")?;
    push_path(text, &column.path)?;
    text.push_str(": ")?;
    push_kind(alloc, text, column.kind)?;
    push_if(text, column.declared, " declared")?;
    push_if(text, column.absent, " absent")?;
    push_if(text, column.risky, " risky")
}

/// A shape as text.
fn shape_text(alloc: Global, m: &Model, shape: &Shape) -> Result<String, AllocError> {
    let mut text = String::new(alloc);
    match &shape.root {
        Some(root) => push_set(&mut text, m, root.of, root.absent)?,
        None => text.push('-')?,
    }
    for prefix in shape.prefixes.as_slice() {
        text.push_str("; ")?;
        push_path(&mut text, &prefix.path)?;
        text.push_str(": ")?;
        push_set(&mut text, m, prefix.of, prefix.absent)?;
    }
    for column in shape.columns.as_slice() {
        push_column(alloc, &mut text, column)?;
    }
    Ok(text)
}

/// The shape of a set's own entities.
pub(crate) fn own_shape(alloc: Global, of: TypeId) -> Shape
    ensures { result ≡ set_shape of }
{
    Shape {
        root: Some(RootShape { of, absent: false }),
        prefixes: PrefixList::new(Vec::new(alloc)),
        columns: ColumnList::new(Vec::new(alloc)),
    }
}

/// Whether two typed pipelines are over one set and have as many steps.
fn is_copy(a: &Typed, b: &Typed) -> bool {
    a.set == b.set && a.pipe.steps().len() == b.pipe.steps().len()
}

/// The shape of a copy of what is typed, and a word behind it.
fn typed_text(alloc: Global, m: &Model, typed: &Typed, word: &str) -> Result<String, Fail> {
    let copy = typed.copy(alloc)?;
    let mut text = shape_text(alloc, m, &copy.shape)?;
    text.push_str(word)?;
    push_if(&mut text, !is_copy(typed, &copy), " (no copy)")?;
    Ok(text)
}

/// What typing says of a pipeline over a set. The shape is that of a copy.
pub(crate) fn typing_of(
    alloc: Global,
    m: &Model,
    c: &Customs,
    set: SetId,
    pipe: &Pipe,
) -> Result<String, Fail>
    requires set { IsSet m.now set }
    requires customs { AreTypedOver m.now c.now }
{
    match type_pipe(alloc, m, c, set, pipe) {
        Ok(typed) => {
            let own = own_shape(alloc, m.set_type(set));
            let quiet = is_quiet(alloc, m, c, &own, pipe)?;
            let word = if quiet { "" } else { " (may be refused)" };
            typed_text(alloc, m, &typed, word)
        }
        Err(TypeRefused::At(k)) => Ok(format!(in alloc; "at {k}")?),
        Err(TypeRefused::Memory) => Ok(String::from_str(alloc, "no memory")?),
    }
}

/// What is said of a line.
fn answer(alloc: Global, m: &Model, c: &Customs, line: &str) -> Result<String, Fail>
    requires { AreTypedOver m.now c.now }
{
    match read_request(alloc, line.as_bytes()) {
        Ok(request) => match m.set_named(request.set.text()) {
            Some(set) => typing_of(alloc, m, c, set, &request.pipe),
            None => Ok(String::from_str(alloc, "no set")?),
        },
        Err(GrammarRefused::Syntax(k)) => Ok(format!(in alloc; "no text at {k}")?),
        Err(_) => Ok(String::from_str(alloc, "refused")?),
    }
}

/// Compares what is said of each line of a table over a model and its custom aggregates. A row has a line, an arrow and what is said;
/// other lines of the table are blank or headings.
fn expect_rows(
    rt: &impl Abort,
    alloc: Global,
    m: &Model,
    c: &Customs,
    table: &str,
) -> Result<(), Fail>
    requires { AreTypedOver m.now c.now }
{
    for row in table.lines() {
        match row.split_once(" =>") {
            Some((line, wanted)) => {
                let said = answer(alloc, m, c, line)?;
                assert_eq!(rt; said.as_str(), wanted.trim_start(), "{line}");
            }
            None => assert!(rt; row.is_empty() || row.starts_with("//"), "no row: {row}"),
        }
    }
    Ok(())
}

/// Compares what is said of each line of a table over the model of a file.
fn expect_table(rt: &impl Abort, alloc: Global, model: &str, table: &str) -> Result<(), Fail> {
    let m = read_model(alloc, model.as_bytes())?;
    let c = type_customs(alloc, &m, read_customs(alloc, &m)?)?;
    expect_rows(rt, alloc, &m, &c, table)
}

/// Models, and tables over them.
const TABLES: &[(&str, &str)] = &[
    (SAMPLE, typed_requests::VALUES),
    (SAMPLE, typed_requests::TRANSFORMATIONS),
    (SAMPLE, typed_requests::RISKS),
    (SAMPLE, untyped_requests::VALUES),
    (SAMPLE, untyped_requests::TRANSFORMATIONS),
    (SAMPLE, untyped_requests::NO_TEXT),
    (STOCK, stock_requests::TYPED),
    (STOCK, stock_requests::UNTYPED),
    (WORDS, stock_requests::WORDS_TYPED),
    (WORDS, stock_requests::WORDS_UNTYPED),
];

#[test]
fn requests_have_the_typing_of_the_tables(rt: HostRuntime) -> Result<(), Fail> {
    for (model, table) in TABLES {
        expect_table(&rt, rt.alloc(), model, table)?;
    }
    Ok(())
}
