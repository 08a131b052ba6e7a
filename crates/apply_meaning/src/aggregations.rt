//! Aggregations without custom aggregates: one row of all rows.
ghost use Rattle.std.specs.Prelude.{◌≡◌, ◌+◌, ◌≤◌, ◌∷◌, [], IfOk, IsTrue, map};
ghost use Rattle.std.specs.List.{list_all};
ghost use Rattle.edm_values.specs.Values.{seen_value};
ghost use Rattle.apply_ast.specs.Views.{agg_of, expr_of};
ghost use Rattle.context_typing.specs.Shapes.{Shape};
ghost use Rattle.context_typing.specs.Typing.{Customs};
ghost use Rattle.apply_meaning.specs.Instances.{no_instance};
ghost use Rattle.apply_meaning.specs.Meaning.{item_value, values};
ghost use Rattle.apply_meaning.specs.Running.{all_of, is_standard, AreSummable, IsSummable, ItemsDiffer};

use crate::aggregates::{aggregate, count};
use crate::{Row, Steps, eval};
use apply_ast::{AggItem, Expr, Name, Path};
use edm_data::Data;
use edm_values::{Seen, Value};
use std::alloc::{AllocError, Global};
use std::sync::ledger::Ledger;

/// The values of an expression on rows, as they are seen.
pub fn seen_values<'a>(
    alloc: Global,
    store: &'a Data,
    e: &'a Expr,
    rows: &'a [Row],
) -> Result<Vec<Seen<'a>>, AllocError>
    requires { IsTrue (all_of store.now rows.now) }
    ensures value { IfOk result (λ vs. map seen_value vs.items ≡ values store.now (expr_of e.now) rows.now) }
{
    let mut found = Vec::with_capacity(alloc, rows.len())?;
    for row in rows {
        found.push(eval(store, row, e))?;
    }
    Ok(found)
}

/// The values of an expression on rows.
pub fn values_of(
    alloc: Global,
    store: &Data,
    e: &Expr,
    rows: &[Row],
) -> Result<Vec<Value>, AllocError>
    requires { IsTrue (all_of store.now rows.now) }
    ensures value { IfOk result (λ vs. vs.items ≡ values store.now (expr_of e.now) rows.now) }
{
    let mut found = Vec::with_capacity(alloc, rows.len())?;
    for row in rows {
        found.push(eval(store, row, e).own(alloc)?)?;
    }
    Ok(found)
}

/// The path of one name.
pub fn path_of(alloc: Global, name: &Name) -> Result<Path, AllocError>
    ensures value { IfOk result (λ p. p ≡ name.now ∷ []) }
{
    let mut names = Vec::new(alloc);
    names.push(name.copy(alloc)?)?;
    Ok(Path::new(names))
}

/// The name and the value of an item.
fn item_value(
    alloc: Global,
    store: &Data,
    item: &AggItem,
    rows: &[Row],
) -> Result<(Path, Value), AllocError>
    requires of { IsTrue (all_of store.now rows.now) }
    requires standard { IsTrue (is_standard (agg_of item.now)) }
    requires summable { IsSummable store.now rows.now (agg_of item.now) }
    ensures { (c : Customs) (S : Shape) → IfOk result (λ column. column ≡ item_value store.now c S rows.now (agg_of item.now)) }
{
    match item {
        AggItem::Count(name) => Ok((path_of(alloc, name)?, count(rows.len())?)),
        AggItem::Standard(e, method, name) => {
            let values = seen_values(alloc, store, e, rows)?;
            let value = aggregate(alloc, *method, values.as_slice())?;
            Ok((path_of(alloc, name)?, value))
        }
        AggItem::Custom(..) => unreachable!(),
    }
}

/// The row of the items over all rows, which has a column for each and no entity: one step.
pub fn aggregate_rows<L: Ledger>(
    alloc: Global,
    store: &Data,
    items: &[AggItem],
    rows: &[Row],
    steps: &mut Steps<L>,
) -> Result<Row, AllocError>
    requires of { IsTrue (all_of store.now rows.now) }
    requires standard { IsTrue (list_all is_standard (map agg_of items.now)) }
    requires summable { AreSummable store.now rows.now (map agg_of items.now) }
    requires differ { ItemsDiffer store.now rows.now (map agg_of items.now) }
    ensures row { (c : Customs) (S : Shape) → IfOk result (λ row. row ≡ record no_instance { columns = map (item_value store.now c S rows.now) (map agg_of items.now) }) }
    ensures each { IfOk result (λ row. steps.new ≡ steps.old + 1) }
    ensures steps { steps.new ≤ steps.old + 1 }
    ensures grown { steps.old ≤ steps.new }
{
    let mut columns = Vec::with_capacity(alloc, items.len())?;
    for item in items {
        columns.push(item_value(alloc, store, item, rows)?)?;
    }
    Row::make(alloc, Vec::new(alloc), None, columns, steps)
}
