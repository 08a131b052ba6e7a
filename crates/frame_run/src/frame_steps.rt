//! Transformations of a frame of which no row is made: those that give a frame, and aggregations.
ghost use Rattle.std.specs.Prelude.{◌≡◌, ◌+◌, ◌≤◌, ◌<◌, ◌∷◌, [], Some, IfOk, IsTrue, is_some, length, map, nat_lt};
ghost use Rattle.std.specs.List.{list_all};
ghost use Rattle.edm_values.specs.Lists.{sorted};
ghost use Rattle.apply_ast.specs.Trees as tree;
ghost use Rattle.apply_ast.specs.Views.{agg_of, hier_of, item_of, named_of, top_of, traverse_of};
ghost use Rattle.context_typing.specs.Readings.{readings};
ghost use Rattle.context_typing.specs.Shapes.{Shape};
ghost use Rattle.context_typing.specs.Typing.{hierarchy_at, root_type};
ghost use Rattle.apply_meaning.specs.Instances.{extended};
ghost use Rattle.apply_meaning.specs.Meaning.{order_before, order_values, refused_at_beyond, selected, step_mean, values};
ghost use Rattle.apply_meaning.specs.Running.{all_free, all_of, new_columns};
ghost use Rattle.row_frames.specs.Frames.{GivesFrame};
ghost use Rattle.row_orders.specs.Places.{GivesOrder};
ghost use Rattle.hier_states.specs.States.{IsReadyAt};
ghost use Rattle.step_run.specs.Conditions.{LimitReady, StepReadyFrom};
ghost use Rattle.step_run.specs.Costs.{walk_cost};
ghost use Rattle.step_run.specs.Hierarchies.{climb_from, traversal};
ghost use Rattle.frame_run.specs.HeldRows.{rows_of};

use crate::held::Held;
use apply_ast::{AggList, ClimbStep, NamedList, OrderItem, OrderList, TopStep, TraverseStep};
use apply_meaning::{Row, RunRefused, Steps, data_is_loaded};
use edm_data::Data;
use edm_model::TypeId;
use par_stages::Gate;
use row_frames::Frame;
use row_orders::item_places;
use row_values::{PlacedRows, RowList};
use std::alloc::{AllocError, Global};
use std::sync::ledger::Ledger;
use std::thread::Threads;
use step_run::{Context, aggregated, climbed_places, selected_places, traversed_places};

/// The instances have values that a selection can be made by.
fn selection_ready<R: Threads + Sync, G: Gate>(
    context: &Context<'_, R, G>,
    root: &Option<TypeId>,
    top: &TopStep,
    frame: &Frame,
)
    requires { StepReadyFrom context.now root.now (tree.Step.TopBy (top_of top.now)) frame.now }
    ensures of { IsTrue (all_of context.now.world frame.now) }
    ensures limit { let t = top_of top.now in LimitReady t.limit (values context.now.world t.expr frame.now) }
{
    data_is_loaded(context.store());
}

/// The instances that a selection takes, in their order.
pub(crate) fn frame_selected<R: Threads + Sync, G: Gate>(
    alloc: Global,
    context: &Context<'_, R, G>,
    root: &Option<TypeId>,
    top: &TopStep,
    frame: Frame,
) -> Result<Frame, RunRefused>
    requires { StepReadyFrom context.now root.now (tree.Step.TopBy (top_of top.now)) frame }
    ensures { GivesFrame result (selected context.now.world (top_of top.now) frame) }
{
    selection_ready(context, root, top, &frame);
    let store = context.store();
    let workers = context.workers();
    let values = frame.seen_values(context.rt(), alloc, store, &top.expr, workers)?;
    let places = selected_places(alloc, context, top, values.as_slice())?;
    drop(values);
    Ok(frame.at(alloc, places.as_slice())?)
}

/// The instances can have the new columns.
fn computation_ready<R: Threads + Sync, G: Gate>(
    context: &Context<'_, R, G>,
    root: &Option<TypeId>,
    items: &NamedList,
    frame: &Frame,
)
    requires { StepReadyFrom context.now root.now (tree.Step.Compute (map named_of items.now)) frame.now }
    ensures of { IsTrue (all_of context.now.world frame.now) }
    ensures free { IsTrue (all_free context.now.world (map named_of items.now) frame.now) }
{
    data_is_loaded(context.store());
}

/// Each instance with its new columns.
pub(crate) fn frame_computed<R: Threads + Sync, G: Gate>(
    alloc: Global,
    context: &Context<'_, R, G>,
    root: &Option<TypeId>,
    items: &NamedList,
    frame: Frame,
) -> Result<Frame, AllocError>
    requires { StepReadyFrom context.now root.now (tree.Step.Compute (map named_of items.now)) frame }
    ensures { let ns = map named_of items.now in IfOk result (λ f. f ≡ map (λ i. extended i (new_columns context.now.world ns i)) frame) }
{
    computation_ready(context, root, items, &frame);
    let store = context.store();
    frame.compute(
        context.rt(),
        alloc,
        store,
        items.as_slice(),
        context.workers(),
    )
}

/// The instances in the order of one item; those that tie stand as before.
fn ordered_by_item<R: Threads + Sync>(
    rt: &R,
    alloc: Global,
    store: &Data,
    item: &OrderItem,
    frame: Frame,
    workers: u32,
) -> Result<Frame, RunRefused>
    requires some { 0 < workers }
    requires of { IsTrue (all_of store.now frame) }
    ensures { let xs = item_of item.now ∷ [] in GivesFrame result (refused_at_beyond (order_values store.now xs frame) (sorted (order_before store.now xs) frame)) }
{
    let values = frame.values(rt, alloc, store, &item.expr, workers)?;
    let places = item_places(alloc, item, values.as_slice())?;
    Ok(frame.at(alloc, places.as_slice())?)
}

/// The instances in the order of the items, from left to right; those that tie stand as before. They are sorted by one item after
/// another, from the last to the first.
pub(crate) fn frame_ordered<R: Threads + Sync>(
    rt: &R,
    alloc: Global,
    store: &Data,
    items: &OrderList,
    frame: Frame,
    workers: u32,
) -> Result<Frame, RunRefused>
    requires some { 0 < workers }
    requires of { IsTrue (all_of store.now frame) }
    ensures { let xs = map item_of items.now in GivesFrame result (refused_at_beyond (order_values store.now xs frame) (sorted (order_before store.now xs) frame)) }
{
    let mut frame = frame;
    let all = items.as_slice();
    for k in 0..all.len() {
        let last = all.len() - 1 - k;
        frame = ordered_by_item(rt, alloc, store, &all[last], frame, workers)?;
    }
    Ok(frame)
}

/// The row of an aggregation, alone in a list.
pub(crate) fn frame_aggregated<R: Threads + Sync, G: Gate, L: Ledger>(
    alloc: Global,
    context: &Context<'_, R, G>,
    root: &Option<TypeId>,
    items: &AggList,
    frame: &Frame,
    steps: &mut Steps<L>,
) -> Result<Vec<Row>, AllocError>
    requires { StepReadyFrom context.now root.now (tree.Step.Aggregate (map agg_of items.now)) frame.now }
    ensures mean { (S : Shape) → root_type S ≡ root.now
        → IfOk result (λ made. step_mean context.now.world (readings context.now.customs) S (tree.Step.Aggregate (map agg_of items.now)) frame.now ≡ Some made.items) }
    ensures steps { steps.new ≤ steps.old + 1 }
    ensures grown { steps.old ≤ steps.new }
{
    let list = RowList::of_frame(frame);
    let all = PlacedRows::all(&list);
    aggregated(alloc, context, root, items, &all, steps)
}

/// The places of the instances that a climb keeps, from the nodes of these rows on.
fn climbed_at<R: Threads + Sync, G: Gate>(
    alloc: Global,
    context: &Context<'_, R, G>,
    climb: &ClimbStep,
    frame: &Frame,
    starts: &Held,
) -> Result<Vec<usize>, RunRefused>
    requires of { IsTrue (all_of context.now.world frame.now) }
    requires starts { IsTrue (all_of context.now.world (rows_of starts.now)) }
    requires there { IsTrue (is_some (hierarchy_at context.now.world.model (hier_of climb.now.hier))) }
    requires ready { IsReadyAt context.now.world context.now.hiers (hier_of climb.now.hier) }
    ensures value { GivesOrder result frame.now (climb_from context.now.world climb.now.up (hier_of climb.now.hier) climb.now.path climb.now.distance climb.now.keep frame.now (rows_of starts.now)) }
    ensures within { IfOk result (λ v. IsTrue (list_all (λ k. nat_lt k (length frame.now)) v.items)) }
{
    let list = RowList::of_frame(frame);
    match starts {
        Held::Set(set, n) => {
            let starts = Frame::of_first(alloc, *set, *n)?;
            climbed_places(alloc, context, climb, &list, &RowList::of_frame(&starts))
        }
        Held::Frame(starts) => {
            climbed_places(alloc, context, climb, &list, &RowList::of_frame(starts))
        }
        Held::Rows(starts) => {
            climbed_places(
                alloc,
                context,
                climb,
                &list,
                &RowList::of_rows(starts.as_slice()),
            )
        }
    }
}

/// The instances that a climb keeps, from the nodes of these rows on.
pub(crate) fn frame_climbed<R: Threads + Sync, G: Gate>(
    alloc: Global,
    context: &Context<'_, R, G>,
    climb: &ClimbStep,
    frame: Frame,
    starts: &Held,
) -> Result<Frame, RunRefused>
    requires of { IsTrue (all_of context.now.world frame) }
    requires starts { IsTrue (all_of context.now.world (rows_of starts.now)) }
    requires there { IsTrue (is_some (hierarchy_at context.now.world.model (hier_of climb.now.hier))) }
    requires ready { IsReadyAt context.now.world context.now.hiers (hier_of climb.now.hier) }
    ensures { GivesFrame result (climb_from context.now.world climb.now.up (hier_of climb.now.hier) climb.now.path climb.now.distance climb.now.keep frame (rows_of starts.now)) }
{
    let places = climbed_at(alloc, context, climb, &frame, starts)?;
    Ok(frame.at(alloc, places.as_slice())?)
}

/// The instances that a traversal lists, node by node. Where there are items, one step for each node.
pub(crate) fn frame_traversed<R: Threads + Sync, G: Gate, L: Ledger>(
    alloc: Global,
    context: &Context<'_, R, G>,
    walk: &TraverseStep,
    frame: Frame,
    steps: &mut Steps<L>,
) -> Result<Frame, RunRefused>
    requires of { IsTrue (all_of context.now.world frame) }
    requires there { IsTrue (is_some (hierarchy_at context.now.world.model (traverse_of walk.now).hier)) }
    requires ready { IsReadyAt context.now.world context.now.hiers (traverse_of walk.now).hier }
    ensures mean { GivesFrame result (traversal context.now.world (traverse_of walk.now) frame) }
    ensures steps { steps.new ≤ steps.old + walk_cost context.now.world (traverse_of walk.now) }
    ensures grown { steps.old ≤ steps.new }
{
    let places = traversed_places(alloc, context, walk, &RowList::of_frame(&frame), steps)?;
    Ok(frame.at(alloc, places.as_slice())?)
}
