//! The values of the items of an aggregation on a whole list, worked out once for all its groups.
ghost use Rattle.std.specs.Prelude.{◌≡◌, ◌+◌, ◌≤◌, ◌<◌, Some, IfOk, IsTrue, length, map, nat_lt, option_map, slice_get};
ghost use Rattle.std.specs.Global.{Vec as Vec'};
ghost use Rattle.std.specs.List.{list_all};
ghost use Rattle.edm_values.specs.declared.Value.{Value as Value'};
ghost use Rattle.edm_values.specs.Lists.{at_places};
ghost use Rattle.apply_ast.specs.Trees as tree;
ghost use Rattle.apply_ast.specs.Views.{agg_of, pipe_of};
ghost use Rattle.context_typing.specs.Readings.{readings};
ghost use Rattle.context_typing.specs.Shapes.{Shape};
ghost use Rattle.context_typing.specs.Typing.{root_type};
ghost use Rattle.apply_meaning.specs.Instances.{no_instance};
ghost use Rattle.apply_meaning.specs.Meaning as spec;
ghost use Rattle.apply_meaning.specs.Meaning.{step_mean};
ghost use Rattle.apply_meaning.specs.Running.{all_of};
ghost use Rattle.step_run.specs.Conditions.{ItemReady, ItemsReady, StepReadyFrom};
ghost use Rattle.step_run.specs.ItemLists.{AreFirstLists, AreItemLists, item_list};

use crate::aggregations::item_value;
use crate::contexts::Context;
use apply_ast::{AggItem, AggList, Path, Pipe, Step};
use apply_meaning::{Row, Steps, data_is_loaded, path_of};
use edm_model::TypeId;
use edm_values::Value;
use par_stages::Gate;
use row_values::{PlacedRows, RowList};
use std::alloc::{AllocError, Global};
use std::sync::ledger::Ledger;
use std::thread::Threads;

/// The values of an item on a list, where it aggregates an expression by a method.
pub type ItemList = Option<Vec<Value>>;

/// The values of an item on the list.
fn list_of<R: Threads + Sync, G: Gate>(
    alloc: Global,
    context: &Context<'_, R, G>,
    item: &AggItem,
    rows: &RowList<'_>,
) -> Result<ItemList, AllocError>
    requires { IsTrue (all_of context.now.world rows.now) }
    ensures { IfOk result (λ list. option_map (λ v. v.items) list ≡ item_list context.now.world rows.now (agg_of item.now)) }
{
    match item {
        AggItem::Standard(e, _, _) => {
            let all = PlacedRows::all(rows);
            Ok(Some(context.values(alloc, e, &all)?))
        }
        AggItem::Count(_) => Ok(None),
        AggItem::Custom(..) => Ok(None),
    }
}

/// The values of each item on the list.
fn lists_of<R: Threads + Sync, G: Gate>(
    alloc: Global,
    context: &Context<'_, R, G>,
    items: &[AggItem],
    rows: &RowList<'_>,
) -> Result<Vec<ItemList>, AllocError>
    requires { IsTrue (all_of context.now.world rows.now) }
    ensures { IfOk result (λ lists. map (option_map (λ v. v.items)) lists.items ≡ map (λ i. item_list context.now.world rows.now (agg_of i)) items.now) }
{
    let mut lists = Vec::with_capacity(alloc, items.len())?;
    for item in items {
        lists.push(list_of(alloc, context, item, rows)?)?;
    }
    Ok(lists)
}

/// The values of each item of the aggregation that the pipeline begins with, where it begins with one. Where there are several
/// workers, they work out the values.
pub fn first_lists<R: Threads + Sync, G: Gate>(
    alloc: Global,
    context: &Context<'_, R, G>,
    pipe: &Pipe,
    rows: &RowList<'_>,
) -> Result<Vec<ItemList>, AllocError>
    requires of { IsTrue (all_of context.now.world rows.now) }
    ensures lists { IfOk result (λ lists. AreFirstLists context.now.world rows.now (pipe_of pipe.now) lists.items) }
{
    let all = pipe.steps();
    match &all[0] {
        Step::Aggregate(items) => lists_of(alloc, context, items.as_slice(), rows),
        _ => Ok(Vec::new(alloc)),
    }
}

/// The name and the value of an item on the instances at these places of a list, of whose values on the whole list they are some.
fn known_value<R: Threads + Sync, G: Gate>(
    alloc: Global,
    context: &Context<'_, R, G>,
    root: &Option<TypeId>,
    item: &AggItem,
    values: &[Value],
    rows: &RowList<'_>,
    places: &[usize],
) -> Result<(Path, Value), AllocError>
    requires within { IsTrue (list_all (λ k. nat_lt k (length rows.now)) places.now) }
    requires values { item_list context.now.world rows.now (agg_of item.now) ≡ Some values.now }
    requires ready { ItemReady context.now root.now (agg_of item.now) (at_places rows.now places.now) }
    ensures { (S : Shape) → root_type S ≡ root.now
        → IfOk result (λ column. column ≡ spec.item_value context.now.world (readings context.now.customs) S (at_places rows.now places.now) (agg_of item.now)) }
{
    data_is_loaded(context.store());
    match item {
        AggItem::Standard(_, method, name) => {
            let value = context.aggregate_at(alloc, *method, values, places)?;
            Ok((path_of(alloc, name)?, value))
        }
        AggItem::Count(_) => unreachable!(),
        AggItem::Custom(..) => unreachable!(),
    }
}

/// The name and the value of an item on the instances at these places of a list, where no values are known.
fn new_value<R: Threads + Sync, G: Gate>(
    alloc: Global,
    context: &Context<'_, R, G>,
    root: &Option<TypeId>,
    item: &AggItem,
    rows: &RowList<'_>,
    places: &[usize],
) -> Result<(Path, Value), AllocError>
    requires within { IsTrue (list_all (λ k. nat_lt k (length rows.now)) places.now) }
    requires ready { ItemReady context.now root.now (agg_of item.now) (at_places rows.now places.now) }
    ensures { (S : Shape) → root_type S ≡ root.now
        → IfOk result (λ column. column ≡ spec.item_value context.now.world (readings context.now.customs) S (at_places rows.now places.now) (agg_of item.now)) }
{
    let placed = PlacedRows::at(rows, places);
    item_value(alloc, context, root, item, &placed)
}

/// The name and the value of an item on the instances at these places of a list.
fn value_at<R: Threads + Sync, G: Gate>(
    alloc: Global,
    context: &Context<'_, R, G>,
    root: &Option<TypeId>,
    item: &AggItem,
    list: Option<&ItemList>,
    rows: &RowList<'_>,
    places: &[usize],
) -> Result<(Path, Value), AllocError>
    requires within { IsTrue (list_all (λ k. nat_lt k (length rows.now)) places.now) }
    requires list { (v : Vec' Value') → option_map (λ o. o.now) list ≡ Some (Some v) → item_list context.now.world rows.now (agg_of item.now) ≡ Some v.items }
    requires ready { ItemReady context.now root.now (agg_of item.now) (at_places rows.now places.now) }
    ensures { (S : Shape) → root_type S ≡ root.now
        → IfOk result (λ column. column ≡ spec.item_value context.now.world (readings context.now.customs) S (at_places rows.now places.now) (agg_of item.now)) }
{
    let Some(own) = list else {
        return new_value(alloc, context, root, item, rows, places);
    };
    match own {
        Some(values) => known_value(alloc, context, root, item, values.as_slice(), rows, places),
        None => new_value(alloc, context, root, item, rows, places),
    }
}

/// The values at place k, where there are some.
pub(crate) fn list_at(lists: &[ItemList], k: usize) -> Option<&ItemList>
    ensures { option_map (λ o. o.now) result ≡ slice_get lists.now k }
{
    lists.get(k)
}

/// The row of the items over the instances at these places, which has a column for each and no entity: one step.
fn row_at<R: Threads + Sync, G: Gate, L: Ledger>(
    alloc: Global,
    context: &Context<'_, R, G>,
    root: &Option<TypeId>,
    items: &[AggItem],
    lists: &[ItemList],
    rows: &RowList<'_>,
    places: &[usize],
    steps: &mut Steps<L>,
) -> Result<Row, AllocError>
    requires within { IsTrue (list_all (λ k. nat_lt k (length rows.now)) places.now) }
    requires lists { AreItemLists context.now.world rows.now (map agg_of items.now) lists.now }
    requires ready { ItemsReady context.now root.now (map agg_of items.now) (at_places rows.now places.now) }
    ensures row { (S : Shape) → root_type S ≡ root.now
        → IfOk result (λ row. row ≡ record no_instance { columns = map (spec.item_value context.now.world (readings context.now.customs) S (at_places rows.now places.now)) (map agg_of items.now) }) }
    ensures steps { steps.new ≤ steps.old + 1 }
    ensures grown { steps.old ≤ steps.new }
{
    let mut columns = Vec::with_capacity(alloc, items.len())?;
    for (k, item) in items.iter().enumerate() {
        let list = list_at(lists, k);
        columns.push(value_at(alloc, context, root, item, list, rows, places)?)?;
    }
    Row::make(alloc, Vec::new(alloc), None, columns, steps)
}

/// The items of an aggregation can be evaluated on the instances at these places.
fn places_ready<R: Threads + Sync, G: Gate>(
    context: &Context<'_, R, G>,
    root: &Option<TypeId>,
    items: &AggList,
    rows: &RowList<'_>,
    places: &[usize],
)
    requires { StepReadyFrom context.now root.now (tree.Step.Aggregate (map agg_of items.now)) (at_places rows.now places.now) }
    ensures { ItemsReady context.now root.now (map agg_of items.now) (at_places rows.now places.now) }
{
    data_is_loaded(context.store());
}

/// The row of an aggregation of the instances at these places of a list, alone in a list. The values of its items on the whole list
/// that are known are not worked out again.
pub fn aggregated_at<R: Threads + Sync, G: Gate, L: Ledger>(
    alloc: Global,
    context: &Context<'_, R, G>,
    root: &Option<TypeId>,
    items: &AggList,
    lists: &[ItemList],
    rows: &RowList<'_>,
    places: &[usize],
    steps: &mut Steps<L>,
) -> Result<Vec<Row>, AllocError>
    requires within { IsTrue (list_all (λ k. nat_lt k (length rows.now)) places.now) }
    requires lists { AreItemLists context.now.world rows.now (map agg_of items.now) lists.now }
    requires ready { StepReadyFrom context.now root.now (tree.Step.Aggregate (map agg_of items.now)) (at_places rows.now places.now) }
    ensures mean { (S : Shape) → root_type S ≡ root.now
        → IfOk result (λ made. step_mean context.now.world (readings context.now.customs) S (tree.Step.Aggregate (map agg_of items.now)) (at_places rows.now places.now) ≡ Some made.items) }
    ensures steps { steps.new ≤ steps.old + 1 }
    ensures grown { steps.old ≤ steps.new }
{
    places_ready(context, root, items, rows, places);
    let mut made = Vec::new(alloc);
    let items = items.as_slice();
    made.push(row_at(alloc, context, root, items, lists, rows, places, steps)?)?;
    Ok(made)
}
