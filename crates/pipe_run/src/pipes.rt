//! Pipelines over lists of rows.
ghost use Rattle.std.specs.Prelude.{◌≡◌, ℕ, ◌+◌, ◌≤◌, ◌<◌, ◌∷◌, [], All, List, Option, Some, IfOk, IsTrue, is_some, length, drop, flat_map, get_or, map, nat_lt, option_map, slice_get, sum};
ghost use Rattle.std.specs.List.{list_all};
ghost use Rattle.edm_values.specs.declared.Value.{Value as Value'};
ghost use Rattle.edm_values.specs.Lists.{at_places};
ghost use Rattle.edm_model.specs.LookUps.{HierarchyPlace, IsNavigation, navigation_on};
ghost use Rattle.edm_model.specs.Models.{Navigation};
ghost use Rattle.edm_data.specs.References.{count};
ghost use Rattle.apply_ast.specs.Trees as tree;
ghost use Rattle.apply_ast.specs.Trees.{pipe};
ghost use Rattle.apply_ast.specs.Views.{agg_of, climb_of, hier_of, inner_of, join_of, keys_of, pipe_of, pipes_in, pipes_of, step_of, top_of};
ghost use Rattle.context_typing.specs.Readings.{readings};
ghost use Rattle.context_typing.specs.Shapes.{Shape, set_shape};
ghost use Rattle.context_typing.specs.Typing as typing;
ghost use Rattle.context_typing.specs.Typing.{group_keys, hierarchy_at, key_paths, root_type};
ghost use Rattle.apply_meaning.specs.Meaning as meaning;
ghost use Rattle.apply_meaning.specs.Instances as instances;
ghost use Rattle.apply_meaning.specs.Meaning.{inner_mean, joined, mean, shown_of, step_mean, values};
ghost use Rattle.apply_meaning.specs.Running.{Gives, all_of};
ghost use Rattle.join_concat.specs.Joins.{has_root_of};
ghost use Rattle.row_orders.specs.Ranks.{GivesNumbers};
ghost use Rattle.hier_states.specs.NamedHierarchies.{branch_hierarchies, hierarchies, inner_hierarchies, keys_hierarchies, step_hierarchies};
ghost use Rattle.hier_states.specs.States.{IsReadyAt};
ghost use Rattle.pipe_run.specs.SeveralRuns.{BranchesReady, BranchesRun, GivesAll, RelatedReady, RelatedRun};
ghost use Rattle.step_run.specs.Conditions.{AreReady, GroupReady, GroupRuns, InnerReady, InnerRuns, KeysReady, LevelsReady, LevelsRun, LimitReady, ReadyFrom, RunsFrom, ShownReady, ShownRuns, StepReadyFrom, StepRunsFrom, charge_of, is_grouping};
ghost use Rattle.step_run.specs.Costs.{application, applications, cost, given_applications, inner_cost, keys_cost, step_cost};
ghost use Rattle.step_run.specs.GroupTotals.{grouped_step};
ghost use Rattle.step_run.specs.ItemLists.{AreFirstLists};
ghost use Rattle.step_run.specs.KeyedTotals.{IsKeyedBy};
ghost use Rattle.step_run.specs.Levels.{GivesLevels, group_made, level_lists, level_made};
ghost use Rattle.step_run.specs.RecursiveKeys.{HasKey};
ghost use Rattle.step_run.specs.Totals.{totals_step};

use crate::copies::copy_rows;
use crate::joins::{alias_ready, join_navigation};
use crate::ready::{
    branch_ready, branches_ready, group_ready, inner_ready, level_ready, related_ready,
    selection_ready, step_ready,
};
use apply_ast::{
    ClimbStep, HierName, JoinStep, KeyItem, KeyList, Name, Path, Pipe, PipeList, Step, TopStep,
};
use apply_meaning::{Row, RunRefused, Steps, data_is_loaded, set_rows, skip_rows, top_rows};
use edm_model::{NavId, TypeId};
use hier_rows::{all_nodes, shown_nodes};
use join_concat::{concat, join, outerjoin, related_rows};
use par_stages::Gate;
use row_orders::order_rows;
use row_values::{PlacedRows, RowList};
use std::alloc::Global;
use std::sync::ledger::Ledger;
use std::thread::Threads;
use step_run::{
    Context, ItemList, KeyedGroups, Level, NodeTotals, aggregated, aggregated_at, all_paths,
    as_group_totals, climb_rows, first_lists, key_rows, keyed_fits, keyed_groups, keyed_rows,
    levels_of, node_levels, node_totals, root_after, run_group_totals, select_rows, total_rows,
    traverse_rows, with_keys,
};

/// The rows that the pipeline gives, where the type at the empty prefix of these rows is `root`.
#[cycle(run)]
pub fn run_pipe<R: Threads + Sync, G: Gate, L: Ledger>(
    alloc: Global,
    context: &Context<'_, R, G>,
    root: &Option<TypeId>,
    pipe: &Pipe,
    rows: Vec<Row>,
    steps: &mut Steps<L>,
) -> Result<Vec<Row>, RunRefused>
    requires ready { ReadyFrom context.now root.now (pipe_of pipe.now) rows.items }
    requires named { AreReady context.now (hierarchies (pipe_of pipe.now)) }
    ensures mean { (S S' : Shape) → RunsFrom context.now root.now S S' (pipe_of pipe.now) rows.items
        → Gives result (mean context.now.world (readings context.now.customs) S (pipe_of pipe.now) rows.items) }
    ensures steps { (S S' : Shape) → RunsFrom context.now root.now S S' (pipe_of pipe.now) rows.items
        → steps.new ≤ steps.old + cost context.now.world (readings context.now.customs) S (pipe_of pipe.now) rows.items }
    ensures grown { steps.old ≤ steps.new }
{
    let all = pipe.steps();
    run_steps(alloc, context, root, all, rows, steps)
}

/// The rows that these transformations give, one after the other.
#[cycle(run)]
fn run_steps<R: Threads + Sync, G: Gate, L: Ledger>(
    alloc: Global,
    context: &Context<'_, R, G>,
    root: &Option<TypeId>,
    all: &[Step],
    rows: Vec<Row>,
    steps: &mut Steps<L>,
) -> Result<Vec<Row>, RunRefused>
    requires ready { ReadyFrom context.now root.now (pipe (map step_of all.now)) rows.items }
    requires named { AreReady context.now (hierarchies (pipe (map step_of all.now))) }
    ensures mean { (S S' : Shape) → RunsFrom context.now root.now S S' (pipe (map step_of all.now)) rows.items
        → Gives result (mean context.now.world (readings context.now.customs) S (pipe (map step_of all.now)) rows.items) }
    ensures steps { (S S' : Shape) → RunsFrom context.now root.now S S' (pipe (map step_of all.now)) rows.items
        → steps.new ≤ steps.old + cost context.now.world (readings context.now.customs) S (pipe (map step_of all.now)) rows.items }
    ensures grown { steps.old ≤ steps.new }
{
    data_is_loaded(context.store());
    let mut rows = rows;
    let mut root = *root;
    for (i, step) in all.iter().enumerate() {
        step_ready(context, &root, all, i, step, &rows);
        rows = run_step(alloc, context, &root, step, rows, steps)?;
        root = root_after(step, root);
    }
    Ok(rows)
}

/// The rows that the pipeline gives of the instances at these places of a list. An aggregation that comes first takes the values of
/// its items that stand there, and for any other transformation rows are copied, or made of the instances.
#[cycle(run)]
fn run_at<R: Threads + Sync, G: Gate, L: Ledger>(
    alloc: Global,
    context: &Context<'_, R, G>,
    root: &Option<TypeId>,
    pipe: &Pipe,
    rows: &RowList<'_>,
    places: &[usize],
    lists: &[ItemList],
    steps: &mut Steps<L>,
) -> Result<Vec<Row>, RunRefused>
    requires within { IsTrue (list_all (λ k. nat_lt k (length rows.now)) places.now) }
    requires ready { ReadyFrom context.now root.now (pipe_of pipe.now) (at_places rows.now places.now) }
    requires lists { AreFirstLists context.now.world rows.now (pipe_of pipe.now) lists.now }
    requires named { AreReady context.now (hierarchies (pipe_of pipe.now)) }
    ensures mean { (S S' : Shape) → RunsFrom context.now root.now S S' (pipe_of pipe.now) (at_places rows.now places.now)
        → Gives result (mean context.now.world (readings context.now.customs) S (pipe_of pipe.now) (at_places rows.now places.now)) }
    ensures steps { (S S' : Shape) → RunsFrom context.now root.now S S' (pipe_of pipe.now) (at_places rows.now places.now)
        → steps.new ≤ steps.old + (length (at_places rows.now places.now) + cost context.now.world (readings context.now.customs) S (pipe_of pipe.now) (at_places rows.now places.now)) }
    ensures grown { steps.old ≤ steps.new }
{
    data_is_loaded(context.store());
    let all = pipe.steps();
    let first = &all[0];
    match first {
        Step::Aggregate(items) => {
            let made = aggregated_at(alloc, context, root, items, lists, rows, places, steps)?;
            let root = root_after(first, *root);
            run_steps(alloc, context, &root, &all[1..], made, steps)
        }
        _ => {
            let copies = rows.members(alloc, places, steps)?;
            run_steps(alloc, context, root, all, copies, steps)
        }
    }
}

/// The rows that the pipeline gives, each list folded in one piece: for a pipeline that is run again and again, on few rows each.
#[cycle(run)]
fn run_alone<R: Threads + Sync, G: Gate, L: Ledger>(
    alloc: Global,
    context: &Context<'_, R, G>,
    root: &Option<TypeId>,
    pipe: &Pipe,
    rows: Vec<Row>,
    steps: &mut Steps<L>,
) -> Result<Vec<Row>, RunRefused>
    requires ready { ReadyFrom context.now root.now (pipe_of pipe.now) rows.items }
    requires named { AreReady context.now (hierarchies (pipe_of pipe.now)) }
    ensures mean { (S S' : Shape) → RunsFrom context.now root.now S S' (pipe_of pipe.now) rows.items
        → Gives result (mean context.now.world (readings context.now.customs) S (pipe_of pipe.now) rows.items) }
    ensures steps { (S S' : Shape) → RunsFrom context.now root.now S S' (pipe_of pipe.now) rows.items
        → steps.new ≤ steps.old + cost context.now.world (readings context.now.customs) S (pipe_of pipe.now) rows.items }
    ensures grown { steps.old ≤ steps.new }
{
    let inner = context.alone();
    run_pipe(alloc, &inner, root, pipe, rows, steps)
}

/// The rows that one transformation gives, where the type at the empty prefix of these rows is `root`.
#[cycle(run)]
pub fn run_step<R: Threads + Sync, G: Gate, L: Ledger>(
    alloc: Global,
    context: &Context<'_, R, G>,
    root: &Option<TypeId>,
    step: &Step,
    rows: Vec<Row>,
    steps: &mut Steps<L>,
) -> Result<Vec<Row>, RunRefused>
    requires ready { StepReadyFrom context.now root.now (step_of step.now) rows.items }
    requires named { AreReady context.now (step_hierarchies (step_of step.now)) }
    ensures mean { (S S' : Shape) → StepRunsFrom context.now root.now S S' (step_of step.now) rows.items
        → Gives result (step_mean context.now.world (readings context.now.customs) S (step_of step.now) rows.items) }
    ensures steps { (S S' : Shape) → StepRunsFrom context.now root.now S S' (step_of step.now) rows.items
        → steps.new ≤ steps.old + step_cost context.now.world (readings context.now.customs) S (step_of step.now) rows.items }
    ensures grown { steps.old ≤ steps.new }
{
    let store = context.store();
    data_is_loaded(store);
    match step {
        Step::GroupBy(..) => {
            let list = RowList::of_rows(rows.as_slice());
            run_grouping(alloc, context, root, step, &list, steps)
        }
        Step::Concat(branches) => {
            run_concat(alloc, context, root, branches, rows.as_slice(), steps)
        }
        Step::Join(join) => run_join(alloc, context, root, join, rows.as_slice(), steps),
        Step::TopBy(top) => {
            selection_ready(context, root, top, &rows);
            select_rows(alloc, context, top, rows)
        }
        Step::Climb(climb) => run_climb(alloc, context, root, climb, rows, steps),
        Step::Traverse(walk) => traverse_rows(alloc, context, walk, rows.as_slice(), steps),
        Step::Identity => Ok(rows),
        Step::Filter(e) => context.filter(alloc, e, rows),
        Step::Compute(items) => Ok(context.compute(alloc, items.as_slice(), rows, steps)?),
        Step::OrderBy(items) => order_rows(alloc, store, items, rows),
        Step::Skip(n) => Ok(skip_rows(*n, rows)),
        Step::Top(n) => Ok(top_rows(*n, rows)),
        Step::Aggregate(items) => {
            let list = RowList::of_rows(rows.as_slice());
            let all = PlacedRows::all(&list);
            Ok(aggregated(alloc, context, root, items, &all, steps)?)
        }
    }
}

/// What a grouping gives on a list: what the inner pipeline makes of each group, or a row for each group where there is none.
#[cycle(run)]
pub fn run_grouping<R: Threads + Sync, G: Gate, L: Ledger>(
    alloc: Global,
    context: &Context<'_, R, G>,
    root: &Option<TypeId>,
    step: &Step,
    rows: &RowList<'_>,
    steps: &mut Steps<L>,
) -> Result<Vec<Row>, RunRefused>
    requires grouping { IsTrue (is_grouping (step_of step.now)) }
    requires ready { StepReadyFrom context.now root.now (step_of step.now) rows.now }
    requires named { AreReady context.now (step_hierarchies (step_of step.now)) }
    ensures mean { (S S' : Shape) → StepRunsFrom context.now root.now S S' (step_of step.now) rows.now
        → Gives result (step_mean context.now.world (readings context.now.customs) S (step_of step.now) rows.now) }
    ensures steps { (S S' : Shape) → StepRunsFrom context.now root.now S S' (step_of step.now) rows.now
        → steps.new ≤ steps.old + step_cost context.now.world (readings context.now.customs) S (step_of step.now) rows.now }
    ensures grown { steps.old ≤ steps.new }
{
    let Some(totals) = node_totals(step) else {
        if let Some(groups) = as_group_totals(step) {
            return run_group_totals(alloc, context, root, step, &groups, rows, steps);
        }
        if let Some(keyed) = keyed_groups(alloc, context, step, rows)? {
            return run_keyed(alloc, context, root, step, &keyed, rows, steps);
        }
        return run_by_levels(alloc, context, root, step, rows, steps);
    };
    match step {
        Step::GroupBy(keys, _) => {
            let items = keys.as_slice();
            if items.len() == 0 {
                return run_by_levels(alloc, context, root, step, rows, steps);
            }
            match &items[0] {
                KeyItem::Recursive(_, _, shown) => {
                    run_totals(alloc, context, root, &totals, shown, rows, steps)
                }
                _ => run_by_levels(alloc, context, root, step, rows, steps),
            }
        }
        _ => run_by_levels(alloc, context, root, step, rows, steps),
    }
}

/// What a recursive rollup gives on a list, where it is the only key and an aggregation alone is made of each group.
#[cycle(run)]
fn run_totals<R: Threads + Sync, G: Gate, L: Ledger>(
    alloc: Global,
    context: &Context<'_, R, G>,
    root: &Option<TypeId>,
    totals: &NodeTotals<'_>,
    shown: &Option<Pipe>,
    rows: &RowList<'_>,
    steps: &mut Steps<L>,
) -> Result<Vec<Row>, RunRefused>
    requires ready { StepReadyFrom context.now root.now (totals_step (hier_of totals.now.hier.now) totals.now.path.now (inner_of (option_map pipe_of shown.now)) (map agg_of totals.now.items.now)) rows.now }
    requires named { AreReady context.now (step_hierarchies (totals_step (hier_of totals.now.hier.now) totals.now.path.now (inner_of (option_map pipe_of shown.now)) (map agg_of totals.now.items.now))) }
    ensures mean { let s = totals_step (hier_of totals.now.hier.now) totals.now.path.now (inner_of (option_map pipe_of shown.now)) (map agg_of totals.now.items.now) in
        (S S' : Shape) → StepRunsFrom context.now root.now S S' s rows.now → Gives result (step_mean context.now.world (readings context.now.customs) S s rows.now) }
    ensures steps { let s = totals_step (hier_of totals.now.hier.now) totals.now.path.now (inner_of (option_map pipe_of shown.now)) (map agg_of totals.now.items.now) in
        (S S' : Shape) → StepRunsFrom context.now root.now S S' s rows.now → steps.new ≤ steps.old + step_cost context.now.world (readings context.now.customs) S s rows.now }
    ensures grown { steps.old ≤ steps.new }
{
    data_is_loaded(context.store());
    let shown = run_shown(alloc, context, totals.hier, shown, steps)?;
    total_rows(alloc, context, root, totals, shown.as_slice(), rows, steps)
}

/// What a recursive rollup with plain keys gives on a list, where an aggregation alone is made of each group. The groups of the list by
/// the plain keys are known.
#[cycle(run)]
fn run_keyed_totals<R: Threads + Sync, G: Gate, L: Ledger>(
    alloc: Global,
    context: &Context<'_, R, G>,
    root: &Option<TypeId>,
    keyed: &KeyedGroups<'_>,
    hier: &HierName,
    path: &Path,
    shown: &Option<Pipe>,
    rows: &RowList<'_>,
    steps: &mut Steps<L>,
) -> Result<Vec<Row>, RunRefused>
    requires key { HasKey (tree.Key.Recursive (hier_of hier.now) path.now (inner_of (option_map pipe_of shown.now))) (keys_of keyed.now.keys.now) }
    requires ready { StepReadyFrom context.now root.now (grouped_step (keys_of keyed.now.keys.now) (map agg_of keyed.now.items.now)) rows.now }
    requires named { AreReady context.now (step_hierarchies (grouped_step (keys_of keyed.now.keys.now) (map agg_of keyed.now.items.now))) }
    requires keyed { IsKeyedBy context.now.world (grouped_step (keys_of keyed.now.keys.now) (map agg_of keyed.now.items.now)) (keys_of keyed.now.keys.now) (map agg_of keyed.now.items.now) rows.now keyed.now.groups }
    ensures mean { let s = grouped_step (keys_of keyed.now.keys.now) (map agg_of keyed.now.items.now) in
        (S S' : Shape) → StepRunsFrom context.now root.now S S' s rows.now → Gives result (step_mean context.now.world (readings context.now.customs) S s rows.now) }
    ensures steps { let s = grouped_step (keys_of keyed.now.keys.now) (map agg_of keyed.now.items.now) in
        (S S' : Shape) → StepRunsFrom context.now root.now S S' s rows.now → steps.new ≤ steps.old + step_cost context.now.world (readings context.now.customs) S s rows.now }
    ensures grown { steps.old ≤ steps.new }
{
    data_is_loaded(context.store());
    let shown = run_shown(alloc, context, hier, shown, steps)?;
    keyed_rows(
        alloc,
        context,
        root,
        keyed,
        hier,
        path,
        shown.as_slice(),
        rows,
        steps,
    )
}

/// What a grouping gives on a list by plain keys and a recursive rollup, where an aggregation alone is made of each group. The groups
/// of the list by the plain keys are known. Where there are many nodes for as many keys, it is run level by level.
#[cycle(run)]
fn run_keyed<R: Threads + Sync, G: Gate, L: Ledger>(
    alloc: Global,
    context: &Context<'_, R, G>,
    root: &Option<TypeId>,
    step: &Step,
    keyed: &KeyedGroups<'_>,
    rows: &RowList<'_>,
    steps: &mut Steps<L>,
) -> Result<Vec<Row>, RunRefused>
    requires grouping { IsTrue (is_grouping (step_of step.now)) }
    requires ready { StepReadyFrom context.now root.now (step_of step.now) rows.now }
    requires named { AreReady context.now (step_hierarchies (step_of step.now)) }
    requires keyed { IsKeyedBy context.now.world (step_of step.now) (keys_of keyed.now.keys.now) (map agg_of keyed.now.items.now) rows.now keyed.now.groups }
    ensures mean { (S S' : Shape) → StepRunsFrom context.now root.now S S' (step_of step.now) rows.now
        → Gives result (step_mean context.now.world (readings context.now.customs) S (step_of step.now) rows.now) }
    ensures steps { (S S' : Shape) → StepRunsFrom context.now root.now S S' (step_of step.now) rows.now
        → steps.new ≤ steps.old + step_cost context.now.world (readings context.now.customs) S (step_of step.now) rows.now }
    ensures grown { steps.old ≤ steps.new }
{
    match step {
        Step::GroupBy(keys, _) => {
            let items = keys.as_slice();
            for key in items {
                match key {
                    KeyItem::Plain(_) => {}
                    KeyItem::Rollup(..) => {}
                    KeyItem::Recursive(hier, path, shown) => {
                        if keyed_fits(context, hier, keyed, rows) {
                            return run_keyed_totals(
                                alloc, context, root, keyed, hier, path, shown, rows, steps,
                            );
                        }
                    }
                }
            }
            run_by_levels(alloc, context, root, step, rows, steps)
        }
        _ => run_by_levels(alloc, context, root, step, rows, steps),
    }
}

/// The same, level by level.
#[cycle(run)]
fn run_by_levels<R: Threads + Sync, G: Gate, L: Ledger>(
    alloc: Global,
    context: &Context<'_, R, G>,
    root: &Option<TypeId>,
    step: &Step,
    rows: &RowList<'_>,
    steps: &mut Steps<L>,
) -> Result<Vec<Row>, RunRefused>
    requires grouping { IsTrue (is_grouping (step_of step.now)) }
    requires ready { StepReadyFrom context.now root.now (step_of step.now) rows.now }
    requires named { AreReady context.now (step_hierarchies (step_of step.now)) }
    ensures mean { (S S' : Shape) → StepRunsFrom context.now root.now S S' (step_of step.now) rows.now
        → Gives result (step_mean context.now.world (readings context.now.customs) S (step_of step.now) rows.now) }
    ensures steps { (S S' : Shape) → StepRunsFrom context.now root.now S S' (step_of step.now) rows.now
        → steps.new ≤ steps.old + step_cost context.now.world (readings context.now.customs) S (step_of step.now) rows.now }
    ensures grown { steps.old ≤ steps.new }
{
    data_is_loaded(context.store());
    match step {
        Step::GroupBy(keys, inner) => {
            let paths = all_paths(alloc, keys)?;
            let paths = paths.as_slice();
            let levels = grouping_levels(alloc, context, keys, paths, rows, steps)?;
            match inner {
                Some(pipe) => {
                    let lists = first_lists(alloc, context, pipe, rows)?;
                    let lists = lists.as_slice();
                    let levels = levels.as_slice();
                    run_levels(alloc, context, root, pipe, levels, rows, lists, steps)
                }
                None => Ok(key_rows(alloc, levels.as_slice(), steps)?),
            }
        }
        _ => unreachable!(),
    }
}

/// The levels of a grouping on a list, each with its groups. They borrow the paths of the keys.
#[cycle(run)]
pub fn grouping_levels<'a, R: Threads + Sync, G: Gate, L: Ledger>(
    alloc: Global,
    context: &Context<'_, R, G>,
    keys: &KeyList,
    paths: &'a [Path],
    rows: &RowList<'_>,
    steps: &mut Steps<L>,
) -> Result<Vec<Level<'a>>, RunRefused>
    requires all { paths.now ≡ key_paths (group_keys (keys_of keys.now)) }
    requires of { IsTrue (all_of context.now.world rows.now) }
    requires ready { KeysReady context.now (keys_of keys.now) }
    requires named { AreReady context.now (keys_hierarchies (keys_of keys.now)) }
    ensures levels { GivesLevels result context.now.world (readings context.now.customs) (keys_of keys.now) rows.now }
    ensures steps { steps.new ≤ steps.old + keys_cost context.now.world (readings context.now.customs) (keys_of keys.now) }
    ensures grown { steps.old ≤ steps.new }
{
    let items = keys.as_slice();
    for key in items {
        match key {
            KeyItem::Plain(_) => {}
            KeyItem::Rollup(..) => {}
            KeyItem::Recursive(hier, path, inner) => {
                let shown = run_shown(alloc, context, hier, inner, steps)?;
                let shown = shown.as_slice();
                return node_levels(alloc, context, keys, paths, hier, path, shown, rows);
            }
        }
    }
    levels_of(alloc, context, keys, paths, rows)
}

/// The nodes that a recursive rollup shows: those that its pipeline gives from all nodes on, each once, or all nodes where there
/// is no pipeline.
#[cycle(run)]
fn run_shown<R: Threads + Sync, G: Gate, L: Ledger>(
    alloc: Global,
    context: &Context<'_, R, G>,
    hier: &HierName,
    inner: &Option<Pipe>,
    steps: &mut Steps<L>,
) -> Result<Vec<u32>, RunRefused>
    requires there { IsTrue (is_some (hierarchy_at context.now.world.model (hier_of hier.now))) }
    requires index { IsReadyAt context.now.world context.now.hiers (hier_of hier.now) }
    requires ready { ShownReady context.now (hier_of hier.now) (inner_of (option_map pipe_of inner.now)) }
    requires named { AreReady context.now (inner_hierarchies (inner_of (option_map pipe_of inner.now))) }
    ensures shown { (f : HierarchyPlace) → hierarchy_at context.now.world.model (hier_of hier.now) ≡ Some f
        → GivesNumbers result (option_map shown_of (inner_mean context.now.world (readings context.now.customs) (set_shape f.type) (λ l. Some l) (inner_of (option_map pipe_of inner.now)) (instances.rows context.now.world f.set))) }
    ensures within { (f : HierarchyPlace) → hierarchy_at context.now.world.model (hier_of hier.now) ≡ Some f
        → IfOk result (λ shown. All (λ x. x < count context.now.world f.set) shown.items) }
    ensures steps { (f : HierarchyPlace) → hierarchy_at context.now.world.model (hier_of hier.now) ≡ Some f
        → steps.new ≤ steps.old + given_applications context.now.world (readings context.now.customs) (set_shape f.type) (inner_of (option_map pipe_of inner.now)) (instances.rows context.now.world f.set ∷ []) }
    ensures grown { steps.old ≤ steps.new }
{
    let store = context.store();
    data_is_loaded(store);
    let nodes = context.nodes(hier);
    match inner {
        Some(pipe) => {
            let root = Some(store.model().set_type(nodes.set));
            let rows = set_rows(alloc, store, nodes.set, steps)?;
            let made = run_pipe(alloc, context, &root, pipe, rows, steps)?;
            Ok(shown_nodes(alloc, store.count(nodes.set), made.as_slice())?)
        }
        None => Ok(all_nodes(alloc, store, nodes.set)?),
    }
}

/// What the pipeline makes of each group of each level, each result with the group's key columns.
#[cycle(run)]
fn run_levels<R: Threads + Sync, G: Gate, L: Ledger>(
    alloc: Global,
    context: &Context<'_, R, G>,
    root: &Option<TypeId>,
    pipe: &Pipe,
    levels: &[Level<'_>],
    rows: &RowList<'_>,
    lists: &[ItemList],
    steps: &mut Steps<L>,
) -> Result<Vec<Row>, RunRefused>
    requires ready { LevelsReady context.now root.now levels.now (pipe_of pipe.now) rows.now }
    requires lists { AreFirstLists context.now.world rows.now (pipe_of pipe.now) lists.now }
    requires named { AreReady context.now (hierarchies (pipe_of pipe.now)) }
    ensures mean { (S G' : Shape) → LevelsRun context.now root.now S G' levels.now (pipe_of pipe.now) rows.now
        → Gives result (joined (map (level_made (mean context.now.world (readings context.now.customs) S (pipe_of pipe.now)) rows.now) levels.now)) }
    ensures steps { (S G' : Shape) → LevelsRun context.now root.now S G' levels.now (pipe_of pipe.now) rows.now
        → steps.new ≤ steps.old + sum (map (application (cost context.now.world (readings context.now.customs) S (pipe_of pipe.now)) (mean context.now.world (readings context.now.customs) S (pipe_of pipe.now))) (flat_map (level_lists rows.now) levels.now)) }
    ensures grown { steps.old ≤ steps.new }
{
    let mut all = Vec::new(alloc);
    for (i, level) in levels.iter().enumerate() {
        level_ready(context, root, pipe, levels, i, level, rows);
        let mut made = run_groups(alloc, context, root, pipe, level, rows, lists, steps)?;
        all.append(&mut made)?;
    }
    Ok(all)
}

/// What the pipeline makes of each group of a level, each result with the group's key columns.
#[cycle(run)]
fn run_groups<R: Threads + Sync, G: Gate, L: Ledger>(
    alloc: Global,
    context: &Context<'_, R, G>,
    root: &Option<TypeId>,
    pipe: &Pipe,
    level: &Level<'_>,
    rows: &RowList<'_>,
    lists: &[ItemList],
    steps: &mut Steps<L>,
) -> Result<Vec<Row>, RunRefused>
    requires ready { GroupReady context.now root.now level.now (pipe_of pipe.now) rows.now }
    requires lists { AreFirstLists context.now.world rows.now (pipe_of pipe.now) lists.now }
    requires named { AreReady context.now (hierarchies (pipe_of pipe.now)) }
    ensures mean { (S G' : Shape) → GroupRuns context.now root.now S G' level.now (pipe_of pipe.now) rows.now
        → Gives result (level_made (mean context.now.world (readings context.now.customs) S (pipe_of pipe.now)) rows.now level.now) }
    ensures steps { (S G' : Shape) → GroupRuns context.now root.now S G' level.now (pipe_of pipe.now) rows.now
        → steps.new ≤ steps.old + sum (map (application (cost context.now.world (readings context.now.customs) S (pipe_of pipe.now)) (mean context.now.world (readings context.now.customs) S (pipe_of pipe.now))) (level_lists rows.now level.now)) }
    ensures grown { steps.old ≤ steps.new }
{
    let mut all = Vec::new(alloc);
    for k in 0..level.len() {
        let mut made = run_group(alloc, context, root, pipe, level, k, rows, lists, steps)?;
        all.append(&mut made)?;
    }
    Ok(all)
}

/// What the pipeline makes of group k of a level, each result with the group's key columns.
#[cycle(run)]
fn run_group<R: Threads + Sync, G: Gate, L: Ledger>(
    alloc: Global,
    context: &Context<'_, R, G>,
    root: &Option<TypeId>,
    pipe: &Pipe,
    level: &Level<'_>,
    k: usize,
    rows: &RowList<'_>,
    lists: &[ItemList],
    steps: &mut Steps<L>,
) -> Result<Vec<Row>, RunRefused>
    requires within { k < length level.now.1 }
    requires ready { GroupReady context.now root.now level.now (pipe_of pipe.now) rows.now }
    requires lists { AreFirstLists context.now.world rows.now (pipe_of pipe.now) lists.now }
    requires named { AreReady context.now (hierarchies (pipe_of pipe.now)) }
    ensures mean { (S G' : Shape) (g : List Value' × List ℕ) → GroupRuns context.now root.now S G' level.now (pipe_of pipe.now) rows.now
        → slice_get level.now.1 k ≡ Some g
        → Gives result (group_made level.now.0 (mean context.now.world (readings context.now.customs) S (pipe_of pipe.now)) rows.now g) }
    ensures steps { (S G' : Shape) (g : List Value' × List ℕ) → GroupRuns context.now root.now S G' level.now (pipe_of pipe.now) rows.now
        → slice_get level.now.1 k ≡ Some g
        → steps.new ≤ steps.old + charge_of context.now S (pipe_of pipe.now) rows.now g }
    ensures grown { steps.old ≤ steps.new }
{
    let places = level.places(k);
    group_ready(context, root, pipe, level, rows, places);
    let inner = context.alone();
    let results = run_at(alloc, &inner, root, pipe, rows, places, lists, steps)?;
    let key = level.key(alloc, k)?;
    Ok(with_keys(alloc, level.paths(), key.as_slice(), results, steps)?)
}

/// The rows that a climb keeps: those whose node is an ancestor, or a descendant, of a node that the inner pipeline comes to.
#[cycle(run)]
fn run_climb<R: Threads + Sync, G: Gate, L: Ledger>(
    alloc: Global,
    context: &Context<'_, R, G>,
    root: &Option<TypeId>,
    climb: &ClimbStep,
    rows: Vec<Row>,
    steps: &mut Steps<L>,
) -> Result<Vec<Row>, RunRefused>
    requires ready { StepReadyFrom context.now root.now (climb_of climb.now) rows.items }
    requires named { AreReady context.now (step_hierarchies (climb_of climb.now)) }
    ensures mean { (S S' : Shape) → StepRunsFrom context.now root.now S S' (climb_of climb.now) rows.items
        → Gives result (step_mean context.now.world (readings context.now.customs) S (climb_of climb.now) rows.items) }
    ensures steps { (S S' : Shape) → StepRunsFrom context.now root.now S S' (climb_of climb.now) rows.items
        → steps.new ≤ steps.old + step_cost context.now.world (readings context.now.customs) S (climb_of climb.now) rows.items }
    ensures grown { steps.old ≤ steps.new }
{
    data_is_loaded(context.store());
    let copies = copy_rows(alloc, rows.as_slice(), steps)?;
    let starts = run_pipe(alloc, context, root, &climb.inner, copies, steps)?;
    climb_rows(alloc, context, climb, rows, starts.as_slice())
}

/// The rows that a concatenation gives: those of each branch on the same rows.
#[cycle(run)]
fn run_concat<R: Threads + Sync, G: Gate, L: Ledger>(
    alloc: Global,
    context: &Context<'_, R, G>,
    root: &Option<TypeId>,
    branches: &PipeList,
    rows: &[Row],
    steps: &mut Steps<L>,
) -> Result<Vec<Row>, RunRefused>
    requires ready { StepReadyFrom context.now root.now (tree.Step.Concat (pipes_of branches.now)) rows.now }
    requires named { AreReady context.now (branch_hierarchies (pipes_of branches.now)) }
    ensures mean { (S S' : Shape) → StepRunsFrom context.now root.now S S' (tree.Step.Concat (pipes_of branches.now)) rows.now
        → Gives result (step_mean context.now.world (readings context.now.customs) S (tree.Step.Concat (pipes_of branches.now)) rows.now) }
    ensures steps { (S S' : Shape) → StepRunsFrom context.now root.now S S' (tree.Step.Concat (pipes_of branches.now)) rows.now
        → steps.new ≤ steps.old + step_cost context.now.world (readings context.now.customs) S (tree.Step.Concat (pipes_of branches.now)) rows.now }
    ensures grown { steps.old ≤ steps.new }
{
    data_is_loaded(context.store());
    branches_ready(context, root, branches, rows);
    let parts = run_branches(alloc, context, root, branches.as_slice(), rows, steps)?;
    Ok(concat(alloc, parts)?)
}

/// The rows that each branch gives on copies of the rows.
#[cycle(run)]
fn run_branches<R: Threads + Sync, G: Gate, L: Ledger>(
    alloc: Global,
    context: &Context<'_, R, G>,
    root: &Option<TypeId>,
    branches: &[Pipe],
    rows: &[Row],
    steps: &mut Steps<L>,
) -> Result<Vec<Vec<Row>>, RunRefused>
    requires ready { BranchesReady context.now root.now (map pipe_of branches.now) rows.now }
    requires named { (n : ℕ) (p : tree.Pipe) → slice_get (map pipe_of branches.now) n ≡ Some p → AreReady context.now (hierarchies p) }
    ensures mean { (S : Shape) → BranchesRun context.now root.now S (map pipe_of branches.now) rows.now
        → GivesAll result (map (λ p. mean context.now.world (readings context.now.customs) S p rows.now) (map pipe_of branches.now)) }
    ensures steps { (S : Shape) → BranchesRun context.now root.now S (map pipe_of branches.now) rows.now
        → steps.new ≤ steps.old + sum (map (λ p. application (cost context.now.world (readings context.now.customs) S p) (mean context.now.world (readings context.now.customs) S p) rows.now) (map pipe_of branches.now)) }
    ensures grown { steps.old ≤ steps.new }
{
    let mut parts = Vec::with_capacity(alloc, branches.len())?;
    for (k, branch) in branches.iter().enumerate() {
        branch_ready(context, root, branches, k, branch, rows);
        let copies = copy_rows(alloc, rows, steps)?;
        parts.push(run_pipe(alloc, context, root, branch, copies, steps)?)?;
    }
    Ok(parts)
}

/// The rows that a join gives: each row beside each that its related rows become.
#[cycle(run)]
fn run_join<R: Threads + Sync, G: Gate, L: Ledger>(
    alloc: Global,
    context: &Context<'_, R, G>,
    root: &Option<TypeId>,
    join: &JoinStep,
    rows: &[Row],
    steps: &mut Steps<L>,
) -> Result<Vec<Row>, RunRefused>
    requires ready { StepReadyFrom context.now root.now (join_of join.now) rows.now }
    requires named { AreReady context.now (step_hierarchies (join_of join.now)) }
    ensures mean { (S S' : Shape) → StepRunsFrom context.now root.now S S' (join_of join.now) rows.now
        → Gives result (step_mean context.now.world (readings context.now.customs) S (join_of join.now) rows.now) }
    ensures steps { (S S' : Shape) → StepRunsFrom context.now root.now S S' (join_of join.now) rows.now
        → steps.new ≤ steps.old + step_cost context.now.world (readings context.now.customs) S (join_of join.now) rows.now }
    ensures grown { steps.old ≤ steps.new }
{
    run_joined(
        alloc,
        context,
        root,
        join.outer,
        &join.nav,
        &join.alias,
        &join.inner,
        rows,
        steps,
    )
}

/// The rows that a join of these parts gives.
#[cycle(run)]
fn run_joined<R: Threads + Sync, G: Gate, L: Ledger>(
    alloc: Global,
    context: &Context<'_, R, G>,
    root: &Option<TypeId>,
    outer: bool,
    nav: &Name,
    alias: &Name,
    inner: &Option<Pipe>,
    rows: &[Row],
    steps: &mut Steps<L>,
) -> Result<Vec<Row>, RunRefused>
    requires ready { StepReadyFrom context.now root.now (tree.Step.Join outer nav.now alias.now (inner_of (option_map pipe_of inner.now))) rows.now }
    requires named { AreReady context.now (inner_hierarchies (inner_of (option_map pipe_of inner.now))) }
    ensures mean { let s = tree.Step.Join outer nav.now alias.now (inner_of (option_map pipe_of inner.now)) in
        (S S' : Shape) → StepRunsFrom context.now root.now S S' s rows.now → Gives result (step_mean context.now.world (readings context.now.customs) S s rows.now) }
    ensures steps { let s = tree.Step.Join outer nav.now alias.now (inner_of (option_map pipe_of inner.now)) in
        (S S' : Shape) → StepRunsFrom context.now root.now S S' s rows.now → steps.new ≤ steps.old + step_cost context.now.world (readings context.now.customs) S s rows.now }
    ensures grown { steps.old ≤ steps.new }
{
    let found = join_navigation(context, root, outer, nav, alias, inner, rows);
    related_ready(context, root, outer, nav, alias, inner, rows, found);
    let results = run_related(alloc, context, found, inner, rows, steps)?;
    alias_ready(context, root, outer, nav, alias, inner, rows);
    if outer {
        Ok(outerjoin(alloc, rows, results.as_slice(), alias, steps)?)
    } else {
        Ok(join(alloc, rows, results.as_slice(), alias, steps)?)
    }
}

/// What the rows related to each row become: what the inner pipeline gives, or the rows themselves where there is none.
#[cycle(run)]
fn run_related<R: Threads + Sync, G: Gate, L: Ledger>(
    alloc: Global,
    context: &Context<'_, R, G>,
    nav: NavId,
    inner: &Option<Pipe>,
    rows: &[Row],
    steps: &mut Steps<L>,
) -> Result<Vec<Vec<Row>>, RunRefused>
    requires there { IsNavigation context.now.world.model nav }
    requires many { (v : Navigation) → navigation_on context.now.world.model nav ≡ Some v → IsTrue v.many }
    requires roots { IsTrue (list_all (has_root_of context.now.world nav.of) rows.now) }
    requires ready { RelatedReady context.now nav (inner_of (option_map pipe_of inner.now)) rows.now }
    requires named { AreReady context.now (inner_hierarchies (inner_of (option_map pipe_of inner.now))) }
    ensures mean { (v : Navigation) (T' : Shape) → navigation_on context.now.world.model nav ≡ Some v
        → RelatedRun context.now v T' (inner_of (option_map pipe_of inner.now)) rows.now
        → GivesAll result (map (λ i. inner_mean context.now.world (readings context.now.customs) (set_shape v.target) (λ r. Some r) (inner_of (option_map pipe_of inner.now)) (meaning.related_rows context.now.world v i)) rows.now) }
    ensures steps { (v : Navigation) (T' : Shape) → navigation_on context.now.world.model nav ≡ Some v
        → RelatedRun context.now v T' (inner_of (option_map pipe_of inner.now)) rows.now
        → steps.new ≤ steps.old + applications context.now.world (readings context.now.customs) (set_shape v.target) (inner_of (option_map pipe_of inner.now)) (map (meaning.related_rows context.now.world v) rows.now) }
    ensures grown { steps.old ≤ steps.new }
{
    let target = context.store().model().nav_target(nav);
    let root = Some(target);
    let mut all = Vec::with_capacity(alloc, rows.len())?;
    for (i, row) in rows.iter().enumerate() {
        let related = related_rows(alloc, context.store(), nav, row, steps)?;
        inner_ready(context, nav, target, inner, rows, i, row, &related);
        all.push(run_inner(alloc, context, &root, inner, related, steps)?)?;
    }
    Ok(all)
}

/// What rows become: what the inner pipeline gives, or the rows themselves where there is none.
#[cycle(run)]
fn run_inner<R: Threads + Sync, G: Gate, L: Ledger>(
    alloc: Global,
    context: &Context<'_, R, G>,
    root: &Option<TypeId>,
    inner: &Option<Pipe>,
    rows: Vec<Row>,
    steps: &mut Steps<L>,
) -> Result<Vec<Row>, RunRefused>
    requires ready { InnerReady context.now root.now (inner_of (option_map pipe_of inner.now)) rows.items }
    requires named { AreReady context.now (inner_hierarchies (inner_of (option_map pipe_of inner.now))) }
    ensures mean { (S S' : Shape) → InnerRuns context.now root.now S S' (inner_of (option_map pipe_of inner.now)) rows.items
        → Gives result (inner_mean context.now.world (readings context.now.customs) S (λ r. Some r) (inner_of (option_map pipe_of inner.now)) rows.items) }
    ensures steps { (S S' : Shape) → InnerRuns context.now root.now S S' (inner_of (option_map pipe_of inner.now)) rows.items
        → steps.new ≤ steps.old + inner_cost context.now.world (readings context.now.customs) S (inner_of (option_map pipe_of inner.now)) rows.items }
    ensures grown { steps.old ≤ steps.new }
{
    match inner {
        Some(pipe) => run_alone(alloc, context, root, pipe, rows, steps),
        None => Ok(rows),
    }
}
