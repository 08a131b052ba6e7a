//! The values of expressions on rows, and rows as they are read back. The expected texts come from the rules and from a
//! program that was written apart from this one.
ghost use Rattle.std.specs.Prelude.{◌≡◌, ◌+◌, ◌<◌, ◌∷◌, [], IfOk, OnOk, IsTrue, Some, None, codes, pos};
ghost use Rattle.edm_values.specs.declared.Value.{Value};
ghost use Rattle.apply_meaning.specs.RowViews.{is_of};

use apply_ast::Path;
use apply_grammar::{read_expr, read_path};
use apply_meaning::{Row, Steps, eval, lookup};
use edm_data::{Data, EntityRef, read_data};
use edm_model::read_model;
use edm_values::{Seen, Value, print_value};
use std::alloc::{AllocError, Global};
use std::marker::Brand;
use std::process::Abort;
use std::sync::ledger::{Blank, Ledger};
use std::test::Fail;
use test_support::names::{longer_path, path};
use test_support::samples::{CYCLE_DATA, SALES_DATA, SAMPLE};
use test_support::texts::push_path;

type Made<T> = Result<T, AllocError>;

/// The parts of the row of the first sale, each entity by its set, counted in byte order of names, and its place there.
const PARTS: &str =
    "Some(EntityRef { set: SetId { place: 2 }, at: 0 }); S: Some(EntityRef { set: SetId { place: 2 }, at: 1 }); S/T: Some(EntityRef { set: SetId { place: 0 }, at: 3 }); N: None; P: 7; Customer/Country: XX; B: null";

/// Expressions, and their values on the row of the sale at this place.
const VALUES: &[(u32, &str, &str)] = &[
    // What a path leads to from the root.
    (0, "Amount", "10.00"),
    (0, "Customer/Name", "Joe"),
    (0, "Customer/Since", "2019-05-01"),
    (0, "Org/Superordinate/Superordinate/ID", "Corp"),
    (
        0,
        "Org/Superordinate/Superordinate/Superordinate/ID",
        "null",
    ),
    (4, "Org/ID", "null"),
    (0, "Customer/Nope", "null"),
    (0, "Customer", "null"),
    (0, "Nope", "null"),
    (0, "Nope/ID", "null"),
    (0, "ID/ID", "null"),
    (0, "Customer/Sales/ID", "null"),
    // A column comes before all else, and the longest prefix before shorter ones.
    (0, "P", "7"),
    (0, "Customer/Country", "XX"),
    (0, "S/ID", "2"),
    (0, "S/Customer/Name", "Joe"),
    (0, "S/Customer/ID", "C1"),
    (0, "S/T/ID", "C4"),
    (0, "S/T/Name", "Ann"),
    (0, "S/T", "null"),
    (0, "N/ID", "null"),
    // Literals.
    (0, "1.50", "1.50"),
    (0, "true", "true"),
    (0, "2020-02-29", "2020-02-29"),
    // Arithmetic.
    (0, "Amount add 1", "11.00"),
    (0, "Amount sub ID", "9.00"),
    (0, "ID sub Amount", "-9.00"),
    (0, "Amount mul Amount", "100.0000"),
    (0, "-Amount", "-10.00"),
    (3, "-Amount", "null"),
    (3, "Amount add 1", "null"),
    (0, "S/Amount mul 100000000000000000", "Beyond"),
    // Comparison.
    (0, "Amount eq 10", "true"),
    (0, "Amount gt 9.999", "true"),
    (0, "Amount ge 10", "true"),
    (0, "Amount lt 10", "false"),
    (0, "Amount le 10.0", "true"),
    (0, "'a' lt 'b'", "true"),
    (3, "Amount eq null", "true"),
    (3, "Amount ne null", "false"),
    (3, "Amount eq 1", "false"),
    (3, "Amount ne 1", "true"),
    (3, "Amount gt 1", "false"),
    (3, "Amount le 1", "false"),
    (3, "null ge null", "false"),
    (0, "null eq null", "true"),
    (0, "null ne null", "false"),
    // Logic.
    (0, "(9223372036854775807 add 1 eq 1) and false", "Beyond"),
    (0, "(9223372036854775807 add 1 eq 1) or true", "Beyond"),
    (0, "not (9223372036854775807 add 1 eq 1)", "Beyond"),
    (0, "B and false", "false"),
    (0, "B and true", "null"),
    (0, "B or true", "true"),
    (0, "B or false", "null"),
    (0, "not B", "null"),
    (0, "not (1 eq 1)", "false"),
    // Functions.
    (0, "length(Customer/Name)", "3"),
    (0, "length('\u{e9}\u{20ac}')", "2"),
    (0, "length('')", "0"),
    (0, "year(Customer/Since)", "2019"),
    (0, "month(Customer/Since)", "5"),
    (0, "day(Customer/Since)", "1"),
    (3, "year(Customer/Since)", "null"),
    (0, "startswith(Customer/Name,'Jo')", "true"),
    (0, "startswith('Jo',Customer/Name)", "false"),
    (0, "endswith(Customer/Name,'oe')", "true"),
    (0, "endswith(Customer/Name,'Jo')", "false"),
    (0, "contains(Customer/Name,'o')", "true"),
    (0, "contains('o',Customer/Name)", "false"),
    (0, "contains(Customer/Name,'')", "true"),
    (
        0,
        "contains(Org/Superordinate/Superordinate/ParentID,'x')",
        "null",
    ),
];

/// The data of a file over the sample's model.
pub(crate) fn world(alloc: Global, data: &str) -> Result<Data, Fail> {
    let model = read_model(alloc, SAMPLE.as_bytes())?;
    Ok(read_data(alloc, model, data.as_bytes())?)
}

/// Prefixes of one name and of two, and one without an entity.
fn prefixes(
    alloc: Global,
    sale: EntityRef,
    customer: EntityRef,
) -> Made<Vec<(Path, Option<EntityRef>)>>
    ensures { IfOk result (λ ps. ps.items ≡ (codes "S" ∷ [], Some sale) ∷ (codes "S" ∷ codes "T" ∷ [], Some customer) ∷ (codes "N" ∷ [], None) ∷ []) }
{
    let own = path(alloc, "S")?;
    let below = longer_path(alloc, "S", "T")?;
    let none = path(alloc, "N")?;
    Ok(vec![in alloc; (own, Some(sale)), (below, Some(customer)), (none, None)]?)
}

/// A new column, and one in the place of a property.
fn columns(alloc: Global) -> Made<Vec<(Path, Value)>>
    ensures { IfOk result (λ cs. cs.items ≡ (codes "P" ∷ [], Value.Int (pos 7)) ∷ (codes "Customer" ∷ codes "Country" ∷ [], Value.Text (codes "XX")) ∷ []) }
{
    let new = path(alloc, "P")?;
    let country = longer_path(alloc, "Customer", "Country")?;
    let text = Seen::Text("XX").own(alloc)?;
    Ok(vec![in alloc; (new, Value::Int(7)), (country, text)]?)
}

/// The row of the sale at this place, with a column that is added behind the others.
fn sale_row<L: Ledger>(alloc: Global, store: &Data, at: u32, steps: &mut Steps<L>) -> Made<Row>
    ensures entities { IfOk result (λ r. IsTrue (is_of store.now r)) }
    ensures steps { OnOk result (steps.new ≡ steps.old + 2) }
{
    let Some(sales) = store.model().set_named("Sales") else {
        return Err(AllocError);
    };
    let Some(customers) = store.model().set_named("Customers") else {
        return Err(AllocError);
    };
    let sale = EntityRef { set: sales, at: 1 };
    let customer = EntityRef {
        set: customers,
        at: 3,
    };
    let prefixes = prefixes(alloc, sale, customer)?;
    let root = Some(EntityRef { set: sales, at });
    let columns = columns(alloc)?;
    let made = Row::make(alloc, prefixes, root, columns, steps)?;
    let added = path(alloc, "B")?;
    let more = vec![in alloc; (added, Value::Null)]?;
    let row = made.extend(more, steps)?;
    Ok(row)
}

/// The plain text of a value, or a word for what has none.
pub(crate) fn shown(alloc: Global, value: Seen<'_>) -> Result<String, Fail> {
    let mut out = Vec::new(alloc);
    match value {
        Seen::Null => out.extend_from_slice(b"null")?,
        Seen::Beyond => out.extend_from_slice(b"Beyond")?,
        other => print_value(other, &mut out)?,
    }
    Ok(String::from_utf8(out)?)
}

/// The parts of a row as text.
fn parts(alloc: Global, row: &Row) -> Result<String, Fail> {
    let mut text = format!(in alloc; "{:?}", row.root())?;
    for (path, bound) in row.prefixes() {
        text.push_str("; ")?;
        push_path(&mut text, path)?;
        text.push_str(format!(in alloc; ": {bound:?}")?.as_str())?;
    }
    for (path, value) in row.columns() {
        text.push_str("; ")?;
        push_path(&mut text, path)?;
        text.push_str(": ")?;
        text.push_str(shown(alloc, value.seen())?.as_str())?;
    }
    Ok(text)
}

/// Reads a row and its copy back.
fn expect_parts<R: Abort, L: Ledger>(
    rt: &R,
    alloc: Global,
    store: &Data,
    steps: &mut Steps<L>,
) -> Result<(), Fail> {
    let row = sale_row(alloc, store, 0, steps)?;
    assert_eq!(rt; parts(alloc, &row)?.as_str(), PARTS);
    let copy = row.copy(alloc, steps)?;
    assert_eq!(rt; parts(alloc, &copy)?.as_str(), PARTS);
    Ok(())
}

/// Compares the values of the table.
fn expect_values<R: Abort, L: Ledger>(
    rt: &R,
    alloc: Global,
    store: &Data,
    steps: &mut Steps<L>,
) -> Result<(), Fail> {
    for (at, text, wanted) in VALUES {
        let row = sale_row(alloc, store, *at, steps)?;
        let e = read_expr(alloc, text)?;
        let found = shown(alloc, eval(store, &row, &e))?;
        assert_eq!(rt; found.as_str(), *wanted, "{text} on {at}");
    }
    Ok(())
}

/// Follows a path of 60,000 names, each but the last from a parent to its own.
fn expect_a_long_path<R: Abort, L: Ledger>(
    rt: &R,
    alloc: Global,
    store: &Data,
    steps: &mut Steps<L>,
) -> Result<(), Fail> {
    let Some(orgs) = store.model().set_named("Orgs") else {
        panic!(rt; "no set");
    };
    let root = Some(EntityRef { set: orgs, at: 0 });
    let row = Row::make(alloc, Vec::new(alloc), root, Vec::new(alloc), steps)?;
    let parents = "Superordinate/".repeat(alloc, 59_999)?;
    let text = format!(in alloc; "{parents}ID")?;
    let path = read_path(alloc, text.as_str())?;
    let found = shown(alloc, lookup(store, &row, &path))?;
    assert_eq!(rt; found.as_str(), "B");
    Ok(())
}

/// Goes through all rows with a new counter of steps.
fn expect_rows<R: Abort, L: Ledger>(rt: &R, alloc: Global, blank: Blank) -> Result<(), Fail>
    requires name { blank.name ≡ L.name }
    requires parts { blank.parts ≡ L.parts }
    requires some { 0 < blank.parts }
{
    let mut steps = Steps::<L>::new(blank);
    let store = world(alloc, SALES_DATA)?;
    expect_parts(rt, alloc, &store, &mut steps)?;
    expect_values(rt, alloc, &store, &mut steps)?;
    let cycle = world(alloc, CYCLE_DATA)?;
    expect_a_long_path(rt, alloc, &cycle, &mut steps)
}

#[test]
fn rows_are_read_back_and_expressions_have_values(rt: HostRuntime) -> Result<(), Fail> {
    expect_rows::<_, Brand>(&rt, rt.alloc(), Blank::new(1))
}
