//! Groupings by plain keys and the levels of a rollup whose groups become one row each: that of an aggregation, or of the key alone.
//! The groups are told by numbers, and no list of the places of each is kept: an item is folded for all groups of a level at once,
//! and a key is read at the first instance of each group. What comes of it is a frame of these columns, of which no row is made.
ghost use Rattle.std.specs.Prelude.{◌≡◌, ◌+◌, ◌≤◌, ◌++◌, ◌∷◌, [], All, IfOk, IfSome, IsTrue, flat_map, length, map, pos};
ghost use Rattle.std.specs.List.{list_all, zip};
ghost use Rattle.edm_values.specs.declared.Value.{Value as Value'};
ghost use Rattle.edm_values.specs.Lists.{places};
ghost use Rattle.edm_values.specs.Values.{seen_value};
ghost use Rattle.apply_ast.specs.Views.{agg_of, key_of, keys_from, keys_of, step_of};
ghost use Rattle.context_typing.specs.Readings.{readings};
ghost use Rattle.context_typing.specs.Shapes.{Shape};
ghost use Rattle.context_typing.specs.Typing.{rollup_paths};
ghost use Rattle.apply_meaning.specs.Meaning.{level_paths, step_mean};
ghost use Rattle.apply_meaning.specs.Running.{Gives, all_of};
ghost use Rattle.group_rollup.specs.NumberedBy.{AreNumberedBy, AreNumberedByEach};
ghost use Rattle.numbered_groups.specs.Numbered.{places_with};
ghost use Rattle.step_run.specs.Conditions.{StepReadyFrom, StepRunsFrom};
ghost use Rattle.step_run.specs.Costs.{step_cost};
ghost use Rattle.step_run.specs.GroupTotals.{AreApart, GivesFound, GivesGroupTotals, GroupsReady, IsFoldable, IsGroupedBy, is_folded, listed_column, item_name, level_totals, values_by};
ghost use Rattle.step_run.specs.Levels.{level_on, part_of};
ghost use Rattle.step_run.specs.RecursiveKeys.{are_flat_keys};
ghost use Rattle.row_frames.specs.Columned.{given};
ghost use Rattle.row_frames.specs.Frames.{GivesFrame};
ghost use Rattle.row_frames.specs.Keys.{seen_columns};

use crate::contexts::Context;
use crate::levels::{LevelKeys, all_paths, numbered_groups, paths_at, taken_apart};
use crate::totals::lone_items;
use apply_ast::{AggItem, KeyItem, KeyList, Name, Path, Step};
use apply_meaning::{Row, RunRefused, Steps, count, data_is_loaded, path_of};
use edm_model::TypeId;
use edm_values::{Seen, Value};
use numbered_groups::NumberedGroups;
use par_stages::Gate;
use row_frames::Frame;
use row_values::RowList;
use std::alloc::{AllocError, Global};
use std::sync::ledger::Ledger;
use std::thread::Threads;

/// A grouping without a recursive rollup among its keys, whose inner pipeline is an aggregation alone of counts and of aggregates
/// by methods. Without an inner pipeline it has no items.
#[derive(Clone, Copy)]
pub struct GroupTotals<'a> {
    /// The keys, none of which is a recursive rollup.
    pub keys: &'a KeyList,
    /// The counts and the aggregates by methods.
    pub items: &'a [AggItem],
}

/// Whether no key is a recursive rollup.
pub(crate) fn are_flat(keys: &[KeyItem]) -> bool
    ensures { result ≡ are_flat_keys (keys_from (map key_of keys.now)) }
{
    for key in keys {
        match key {
            KeyItem::Plain(_) => {}
            KeyItem::Rollup(..) => {}
            KeyItem::Recursive(..) => return false,
        }
    }
    true
}

/// Whether each item is a count or an aggregate by a method.
fn are_folded(items: &[AggItem]) -> bool
    ensures { result ≡ list_all is_folded (map agg_of items.now) }
{
    for item in items {
        match item {
            AggItem::Count(_) => {}
            AggItem::Standard(..) => {}
            AggItem::Custom(..) => return false,
        }
    }
    true
}

/// The most levels of a rollup whose groups are told by numbers. Each level has columns of its own for all values of its keys, so that
/// many take time and memory with the square of their number.
const MOST_LEVELS: usize = 64;

/// Whether a key is a rollup of more levels.
fn has_many_levels(keys: &[KeyItem]) -> bool {
    for key in keys {
        if let KeyItem::Rollup(_, paths) = key {
            if paths.as_slice().len() > MOST_LEVELS {
                return true;
            }
        }
    }
    false
}

/// What keys with an aggregation over them are, where no key is a recursive rollup, nor a rollup of many levels, and no item a custom
/// aggregate.
fn totals_of<'a>(keys: &'a KeyList, items: &'a [AggItem]) -> Option<GroupTotals<'a>>
    ensures keys { IfSome result (λ t. t.keys.now ≡ keys.now) }
    ensures items { IfSome result (λ t. t.items.now ≡ items.now) }
    ensures flat { IfSome result (λ t. IsTrue (are_flat_keys (keys_of t.keys.now))) }
    ensures folded { IfSome result (λ t. IsTrue (list_all is_folded (map agg_of t.items.now))) }
{
    if !are_flat(keys.as_slice()) {
        return None;
    }
    if !are_folded(items) {
        return None;
    }
    if has_many_levels(keys.as_slice()) {
        return None;
    }
    Some(GroupTotals { keys, items })
}

/// The transformation as such a grouping, where it is one.
pub fn as_group_totals(step: &Step) -> Option<GroupTotals<'_>>
    ensures step { IfSome result (λ t. IsGroupedBy (step_of step.now) (keys_of t.keys.now) (map agg_of t.items.now)) }
    ensures flat { IfSome result (λ t. IsTrue (are_flat_keys (keys_of t.keys.now))) }
    ensures folded { IfSome result (λ t. IsTrue (list_all is_folded (map agg_of t.items.now))) }
{
    match step {
        Step::GroupBy(keys, Some(pipe)) => match lone_items(pipe) {
            Some(items) => totals_of(keys, items.as_slice()),
            None => None,
        },
        Step::GroupBy(keys, None) => totals_of(keys, &[]),
        _ => None,
    }
}

/// One more. An error where it would pass the range of counts.
fn one_more(n: usize) -> Result<usize, AllocError>
    ensures { IfOk result (λ m. m ≡ n + 1) }
{
    match n.checked_add(1) {
        Some(more) => Ok(more),
        None => Err(AllocError),
    }
}

/// How many instances each group has, by the number of each instance's group.
pub(crate) fn counts(alloc: Global, groups: &NumberedGroups) -> Result<Vec<usize>, AllocError>
    ensures { IfOk result (λ counts. counts.items ≡ map (λ j. length (places_with groups.now.numbers j)) (places (length groups.now.firsts))) }
{
    let numbers = groups.numbers();
    let mut counts = Vec::from_elem(alloc, 0, groups.len())?;
    for number in numbers {
        let at = *number as usize;
        let more = one_more(counts[at])?;
        counts[at] = more;
    }
    Ok(counts)
}

/// The same as values.
fn count_values(alloc: Global, groups: &NumberedGroups) -> Result<Vec<Value>, AllocError>
    ensures { IfOk result (λ vs. vs.items ≡ map (λ j. Value'.Int (pos (length (places_with groups.now.numbers j)))) (places (length groups.now.firsts))) }
{
    let counts = counts(alloc, groups)?;
    let counted = counts.as_slice();
    let mut values = Vec::with_capacity(alloc, counted.len())?;
    for n in counted {
        values.push(count(*n)?)?;
    }
    Ok(values)
}

/// The values of an item on the groups of a list.
fn item_values<R: Threads + Sync, G: Gate>(
    alloc: Global,
    context: &Context<'_, R, G>,
    item: &AggItem,
    rows: &RowList<'_>,
    groups: &NumberedGroups,
) -> Result<Vec<Value>, AllocError>
    requires of { IsTrue (all_of context.now.world rows.now) }
    requires kind { IsFoldable context.now.world rows.now (agg_of item.now) }
    requires size { length groups.now.numbers ≡ length rows.now }
    ensures { IfOk result (λ vs. vs.items ≡ values_by context.now.world rows.now groups.now (agg_of item.now)) }
{
    match item {
        AggItem::Count(_) => count_values(alloc, groups),
        AggItem::Standard(e, method, _) => {
            let numbers = groups.numbers();
            let count = groups.len();
            context.aggregates_by(alloc, *method, e, rows, numbers, count)
        }
        AggItem::Custom(..) => Ok(Vec::new(alloc)),
    }
}

/// The name of the result of an item.
fn name_of(item: &AggItem) -> &Name
    ensures { result.now ≡ item_name (agg_of item.now) }
{
    match item {
        AggItem::Count(name) => name,
        AggItem::Standard(_, _, name) => name,
        AggItem::Custom(_, name) => name,
    }
}

/// The column of each item on the groups of a list.
fn item_columns<R: Threads + Sync, G: Gate>(
    alloc: Global,
    context: &Context<'_, R, G>,
    items: &[AggItem],
    rows: &RowList<'_>,
    groups: &NumberedGroups,
) -> Result<Vec<(Path, Vec<Value>)>, AllocError>
    requires of { IsTrue (all_of context.now.world rows.now) }
    requires kind { All (IsFoldable context.now.world rows.now) (map agg_of items.now) }
    requires size { length groups.now.numbers ≡ length rows.now }
    ensures { IfOk result (λ cs. given cs.items ≡ map (listed_column context.now.world rows.now groups.now) (map agg_of items.now)) }
{
    let mut columns = Vec::with_capacity(alloc, items.len())?;
    for item in items {
        let values = item_values(alloc, context, item, rows, groups)?;
        columns.push((path_of(alloc, name_of(item))?, values))?;
    }
    Ok(columns)
}

/// The values with texts of their own.
fn own_values(alloc: Global, values: &[Seen<'_>]) -> Result<Vec<Value>, AllocError>
    ensures { IfOk result (λ own. own.items ≡ map (λ v. seen_value v) values.now) }
{
    let mut own = Vec::with_capacity(alloc, values.len())?;
    for value in values {
        own.push(value.own(alloc)?)?;
    }
    Ok(own)
}

/// The columns of these paths, each with the values of its list.
pub(crate) fn key_columns(
    alloc: Global,
    paths: &[Path],
    lists: &[Vec<Seen<'_>>],
) -> Result<Vec<(Path, Vec<Value>)>, AllocError>
    ensures { IfOk result (λ cs. given cs.items ≡ zip paths.now (seen_columns lists.now)) }
{
    let mut columns = Vec::new(alloc);
    for (path, list) in paths.iter().zip(lists) {
        columns.push((path.copy(alloc)?, own_values(alloc, list.as_slice())?))?;
    }
    Ok(columns)
}

/// The rows of the groups by these paths, as a frame of which no row is made.
fn level_frame<R: Threads + Sync, G: Gate>(
    alloc: Global,
    context: &Context<'_, R, G>,
    items: &[AggItem],
    paths: &[Path],
    groups: &NumberedGroups,
    rows: &RowList<'_>,
) -> Result<Frame, AllocError>
    requires of { IsTrue (all_of context.now.world rows.now) }
    requires kind { All (IsFoldable context.now.world rows.now) (map agg_of items.now) }
    requires folded { IsTrue (list_all is_folded (map agg_of items.now)) }
    requires numbered { AreNumberedBy context.now.world paths.now rows.now groups.now }
    requires apart { AreApart context.now.world (map agg_of items.now) rows.now (level_on context.now.world rows.now paths.now) }
    ensures { IfOk result (λ f. f ≡ level_totals context.now.world (map agg_of items.now) rows.now (level_on context.now.world rows.now paths.now)) }
{
    let mut columns = item_columns(alloc, context, items, rows, groups)?;
    let firsts = groups.firsts();
    let keys = rows.key_columns_at(alloc, context.store(), paths, firsts)?;
    let mut behind = key_columns(alloc, paths, keys.as_slice())?;
    columns.append(&mut behind)?;
    Frame::of_columns(alloc, columns, groups.len())
}

/// The rows of the groups of all levels, the finest first.
fn frame_of_levels<R: Threads + Sync, G: Gate>(
    alloc: Global,
    context: &Context<'_, R, G>,
    items: &[AggItem],
    keys: &LevelKeys<'_>,
    paths: &[Path],
    levels: &[NumberedGroups],
    rows: &RowList<'_>,
) -> Result<Frame, AllocError>
    requires of { IsTrue (all_of context.now.world rows.now) }
    requires kind { All (IsFoldable context.now.world rows.now) (map agg_of items.now) }
    requires folded { IsTrue (list_all is_folded (map agg_of items.now)) }
    requires all { paths.now ≡ keys.now.plain ++ rollup_paths (part_of keys.now.rollup) }
    requires numbered { AreNumberedByEach context.now.world (level_paths keys.now.plain (part_of keys.now.rollup)) rows.now levels.now }
    requires apart { All (λ level. AreApart context.now.world (map agg_of items.now) rows.now (level_on context.now.world rows.now level)) (level_paths keys.now.plain (part_of keys.now.rollup)) }
    ensures { IfOk result (λ f. f ≡ flat_map (λ level. level_totals context.now.world (map agg_of items.now) rows.now (level_on context.now.world rows.now level)) (level_paths keys.now.plain (part_of keys.now.rollup))) }
{
    let mut all = Frame::none(alloc);
    for (k, groups) in levels.iter().enumerate() {
        let own = paths_at(keys, paths, k);
        all = all.append(level_frame(alloc, context, items, own, groups, rows)?)?;
    }
    Ok(all)
}

/// The rows of all groups, and a refusal where a key is Beyond.
fn total_groups<R: Threads + Sync, G: Gate>(
    alloc: Global,
    context: &Context<'_, R, G>,
    totals: &GroupTotals<'_>,
    rows: &RowList<'_>,
) -> Result<Frame, RunRefused>
    requires of { IsTrue (all_of context.now.world rows.now) }
    requires flat { IsTrue (are_flat_keys (keys_of totals.now.keys.now)) }
    requires folded { IsTrue (list_all is_folded (map agg_of totals.now.items.now)) }
    requires ready { GroupsReady context.now.world (keys_of totals.now.keys.now) (map agg_of totals.now.items.now) rows.now }
    ensures { GivesGroupTotals result context.now.world (keys_of totals.now.keys.now) (map agg_of totals.now.items.now) rows.now }
{
    let paths = all_paths(alloc, totals.keys)?;
    let paths = paths.as_slice();
    let keys = taken_apart(alloc, totals.keys)?;
    let levels = numbered_groups(alloc, context, &keys, rows)?;
    let levels = levels.as_slice();
    Ok(frame_of_levels(alloc, context, totals.items, &keys, paths, levels, rows)?)
}

/// What a transformation that is such a grouping gives on a list, as a frame.
fn frame_of_groups<R: Threads + Sync, G: Gate>(
    alloc: Global,
    context: &Context<'_, R, G>,
    root: &Option<TypeId>,
    step: &Step,
    totals: &GroupTotals<'_>,
    rows: &RowList<'_>,
) -> Result<Frame, RunRefused>
    requires step { IsGroupedBy (step_of step.now) (keys_of totals.now.keys.now) (map agg_of totals.now.items.now) }
    requires flat { IsTrue (are_flat_keys (keys_of totals.now.keys.now)) }
    requires folded { IsTrue (list_all is_folded (map agg_of totals.now.items.now)) }
    requires ready { StepReadyFrom context.now root.now (step_of step.now) rows.now }
    ensures mean { (S S' : Shape) → StepRunsFrom context.now root.now S S' (step_of step.now) rows.now
        → GivesFrame result (step_mean context.now.world (readings context.now.customs) S (step_of step.now) rows.now) }
{
    data_is_loaded(context.store());
    total_groups(alloc, context, totals, rows)
}

/// What a transformation that is such a grouping gives on a list: one step a row.
pub fn run_group_totals<R: Threads + Sync, G: Gate, L: Ledger>(
    alloc: Global,
    context: &Context<'_, R, G>,
    root: &Option<TypeId>,
    step: &Step,
    totals: &GroupTotals<'_>,
    rows: &RowList<'_>,
    steps: &mut Steps<L>,
) -> Result<Vec<Row>, RunRefused>
    requires step { IsGroupedBy (step_of step.now) (keys_of totals.now.keys.now) (map agg_of totals.now.items.now) }
    requires flat { IsTrue (are_flat_keys (keys_of totals.now.keys.now)) }
    requires folded { IsTrue (list_all is_folded (map agg_of totals.now.items.now)) }
    requires ready { StepReadyFrom context.now root.now (step_of step.now) rows.now }
    ensures mean { (S S' : Shape) → StepRunsFrom context.now root.now S S' (step_of step.now) rows.now
        → Gives result (step_mean context.now.world (readings context.now.customs) S (step_of step.now) rows.now) }
    ensures steps { (S S' : Shape) → StepRunsFrom context.now root.now S S' (step_of step.now) rows.now
        → steps.new ≤ steps.old + step_cost context.now.world (readings context.now.customs) S (step_of step.now) rows.now }
    ensures grown { steps.old ≤ steps.new }
{
    let frame = frame_of_groups(alloc, context, root, step, totals, rows)?;
    Ok(frame.into_rows(alloc, steps)?)
}

/// What a grouping gives on a list, as a frame of which no row is made, where its groups are told by numbers; nothing where they are
/// not.
pub fn grouped_frame<R: Threads + Sync, G: Gate>(
    alloc: Global,
    context: &Context<'_, R, G>,
    root: &Option<TypeId>,
    step: &Step,
    rows: &RowList<'_>,
) -> Result<Option<Frame>, RunRefused>
    requires ready { StepReadyFrom context.now root.now (step_of step.now) rows.now }
    ensures mean { (S S' : Shape) → StepRunsFrom context.now root.now S S' (step_of step.now) rows.now
        → GivesFound result (step_mean context.now.world (readings context.now.customs) S (step_of step.now) rows.now) }
{
    match as_group_totals(step) {
        Some(totals) => {
            let made = frame_of_groups(alloc, context, root, step, &totals, rows)?;
            Ok(Some(made))
        }
        None => Ok(None),
    }
}
