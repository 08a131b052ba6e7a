//! Aggregations: one row of all rows, or of those at some places. No row is copied.
ghost use Rattle.std.specs.Prelude.{◌≡◌, ◌+◌, ◌≤◌, Some, IfOk, IfSome, IsTrue, is_some, map};
ghost use Rattle.edm_model.specs.LookUps.{IsType};
ghost use Rattle.apply_ast.specs.Trees as tree;
ghost use Rattle.apply_ast.specs.Views.{agg_of};
ghost use Rattle.context_typing.specs.Readings.{AreTypedOver, readings};
ghost use Rattle.context_typing.specs.Shapes.{Shape};
ghost use Rattle.context_typing.specs.Typing.{root_type};
ghost use Rattle.apply_meaning.specs.Instances.{no_instance};
ghost use Rattle.apply_meaning.specs.Meaning as spec;
ghost use Rattle.apply_meaning.specs.Meaning.{step_mean};
ghost use Rattle.step_run.specs.Conditions.{ItemReady, ItemsReady, RootFits, StepReadyFrom, named_custom, named_value};

use crate::contexts::Context;
use apply_ast::{AggItem, AggList, Name, Path};
use apply_meaning::{Row, Steps, count, data_is_loaded, path_of};
use edm_model::TypeId;
use edm_values::Value;
use par_stages::Gate;
use row_values::PlacedRows;
use std::alloc::{AllocError, Global};
use std::sync::ledger::Ledger;
use std::thread::Threads;

/// The custom aggregates are typed over the model, and the type that has one is one of the model.
fn custom_ready<R: Threads + Sync, G: Gate>(
    context: &Context<'_, R, G>,
    root: &Option<TypeId>,
    name: &Name,
)
    requires { IsTrue (is_some (named_custom context.now root.now name.now)) }
    ensures typed { AreTypedOver context.now.world.model context.now.customs }
    ensures there { IfSome root.now (IsType context.now.world.model) }
{
    let _customs = context.customs();
}

/// The value of the custom aggregate of this name of the type at the empty prefix; null where there is none.
fn custom_value<R: Threads + Sync, G: Gate>(
    alloc: Global,
    context: &Context<'_, R, G>,
    root: &Option<TypeId>,
    name: &Name,
    rows: &PlacedRows<'_>,
) -> Result<Value, AllocError>
    requires there { IsTrue (is_some (named_custom context.now root.now name.now)) }
    requires fit { RootFits context.now.world root.now rows.now }
    ensures { IfOk result (λ v. v ≡ named_value context.now root.now name.now rows.now) }
{
    custom_ready(context, root, name);
    let Some(of) = root else {
        return Ok(Value::Null);
    };
    match context.store().model().custom_named(*of, name.text()) {
        Some(id) => context.custom(alloc, id, rows),
        None => Ok(Value::Null),
    }
}

/// The name and the value of an item.
pub(crate) fn item_value<R: Threads + Sync, G: Gate>(
    alloc: Global,
    context: &Context<'_, R, G>,
    root: &Option<TypeId>,
    item: &AggItem,
    rows: &PlacedRows<'_>,
) -> Result<(Path, Value), AllocError>
    requires ready { ItemReady context.now root.now (agg_of item.now) rows.now }
    ensures { (S : Shape) → root_type S ≡ root.now
        → IfOk result (λ column. column ≡ spec.item_value context.now.world (readings context.now.customs) S rows.now (agg_of item.now)) }
{
    data_is_loaded(context.store());
    match item {
        AggItem::Count(name) => Ok((path_of(alloc, name)?, count(rows.len())?)),
        AggItem::Standard(e, method, name) => {
            let value = context.aggregate_on(alloc, *method, e, rows)?;
            Ok((path_of(alloc, name)?, value))
        }
        AggItem::Custom(custom, name) => {
            let value = custom_value(alloc, context, root, custom, rows)?;
            Ok((path_of(alloc, name)?, value))
        }
    }
}

/// The row of the items over all rows, which has a column for each and no entity: one step.
fn aggregate_row<R: Threads + Sync, G: Gate, L: Ledger>(
    alloc: Global,
    context: &Context<'_, R, G>,
    root: &Option<TypeId>,
    items: &[AggItem],
    rows: &PlacedRows<'_>,
    steps: &mut Steps<L>,
) -> Result<Row, AllocError>
    requires ready { ItemsReady context.now root.now (map agg_of items.now) rows.now }
    ensures row { (S : Shape) → root_type S ≡ root.now
        → IfOk result (λ row. row ≡ record no_instance { columns = map (spec.item_value context.now.world (readings context.now.customs) S rows.now) (map agg_of items.now) }) }
    ensures steps { steps.new ≤ steps.old + 1 }
    ensures grown { steps.old ≤ steps.new }
{
    let mut columns = Vec::with_capacity(alloc, items.len())?;
    for item in items {
        columns.push(item_value(alloc, context, root, item, rows)?)?;
    }
    Row::make(alloc, Vec::new(alloc), None, columns, steps)
}

/// The items of an aggregation can be evaluated on the rows.
fn aggregation_ready<R: Threads + Sync, G: Gate>(
    context: &Context<'_, R, G>,
    root: &Option<TypeId>,
    items: &AggList,
    rows: &PlacedRows<'_>,
)
    requires { StepReadyFrom context.now root.now (tree.Step.Aggregate (map agg_of items.now)) rows.now }
    ensures { ItemsReady context.now root.now (map agg_of items.now) rows.now }
{
    data_is_loaded(context.store());
}

/// The row of an aggregation, alone in a list.
pub fn aggregated<R: Threads + Sync, G: Gate, L: Ledger>(
    alloc: Global,
    context: &Context<'_, R, G>,
    root: &Option<TypeId>,
    items: &AggList,
    rows: &PlacedRows<'_>,
    steps: &mut Steps<L>,
) -> Result<Vec<Row>, AllocError>
    requires ready { StepReadyFrom context.now root.now (tree.Step.Aggregate (map agg_of items.now)) rows.now }
    ensures mean { (S : Shape) → root_type S ≡ root.now
        → IfOk result (λ made. step_mean context.now.world (readings context.now.customs) S (tree.Step.Aggregate (map agg_of items.now)) rows.now ≡ Some made.items) }
    ensures steps { steps.new ≤ steps.old + 1 }
    ensures grown { steps.old ≤ steps.new }
{
    aggregation_ready(context, root, items, rows);
    let mut made = Vec::new(alloc);
    made.push(aggregate_row(alloc, context, root, items.as_slice(), rows, steps)?)?;
    Ok(made)
}
