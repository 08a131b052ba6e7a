//! Groupings whose inner pipelines only keep some of the instances of each group, or put them in order. They are run on places of a
//! frame: what a transformation reads is worked out once for all instances, and a group is a list of places. What comes of it is a
//! frame of the same instances with the columns of their keys; no row is made.
ghost use Rattle.std.specs.Prelude.{◌≡◌, ◌<◌, slice_get, ◌++◌, ◌∷◌, [], ℕ, All, IfOk, IfSome, IsTrue, List, Some, drop, filter, get_or, if◌then◌else◌, length, map, nat_lt, take, true};
ghost use Rattle.std.specs.List.{list_all};
ghost use Rattle.edm_values.specs.Lists.{at_places, places as all_places, sorted};
ghost use Rattle.edm_values.specs.Values.{is_value, seen_value};
ghost use Rattle.edm_values.specs.declared.Value.{Value as Value'};
ghost use Rattle.apply_ast.specs.Trees as tree;
ghost use Rattle.apply_ast.specs.Trees.{OptPipe, pipe as pipe'};
ghost use Rattle.apply_ast.specs.Views.{expr_of, item_of, keys_of, pipe_of, step_of, top_of};
ghost use Rattle.context_typing.specs.Readings.{readings};
ghost use Rattle.context_typing.specs.Shapes.{Shape};
ghost use Rattle.context_typing.specs.Typing.{rollup_paths};
ghost use Rattle.apply_meaning.specs.Instances.{val};
ghost use Rattle.apply_meaning.specs.Meaning.{joined, level_paths, mean, order_before, order_values, refused_at_beyond, selected, step_mean, values};
ghost use Rattle.apply_meaning.specs.Running.{all_of};
ghost use Rattle.group_rollup.specs.NumberedBy.{AreNumberedBy, AreNumberedByEach};
ghost use Rattle.numbered_groups.specs.Numbered.{places_with};
ghost use Rattle.row_frames.specs.Frames.{GivesFrame};
ghost use Rattle.row_frames.specs.Keys.{seen_columns};
ghost use Rattle.row_orders.specs.Places.{GivesOrder};
ghost use Rattle.step_run.specs.Conditions.{GroupReady, GroupRuns, LevelsReady, LevelsRun, LimitReady, ReadyFrom, RunsFrom, StepReadyFrom, StepRunsFrom};
ghost use Rattle.step_run.specs.GroupTotals.{GivesFound};
ghost use Rattle.step_run.specs.KeptGroups.{AreRead, GivesKept, GivesLevelsMade, GivesTrue, GivesTruth, is_keeping, read_of};
ghost use Rattle.step_run.specs.Levels.{level_made, level_on, levels_of, part_of};
ghost use Rattle.step_run.specs.RecursiveKeys.{are_flat_keys};

use crate::contexts::Context;
use crate::group_totals::{are_flat, counts, key_columns};
use crate::levels::{LevelKeys, all_paths, numbered_groups, paths_at, taken_apart};
use crate::roots::root_after;
use crate::selections::selected_places;
use apply_ast::{Expr, KeyItem, KeyList, OrderItem, OrderList, Path, Pipe, Step, TopStep};
use apply_meaning::{RunRefused, data_is_loaded};
use edm_model::TypeId;
use edm_values::{Seen, Value};
use numbered_groups::NumberedGroups;
use par_stages::Gate;
use row_frames::Frame;
use row_orders::item_places;
use row_values::RowList;
use std::alloc::{AllocError, Global};
use std::thread::Threads;

/// The values that a transformation reads of all instances: a list for each of its expressions.
type Read<'s> = Vec<Vec<Seen<'s>>>;

/// Whether a transformation only keeps some of the instances, or puts them in order.
fn keeps(step: &Step) -> bool
    ensures { result ≡ is_keeping (step_of step.now) }
{
    match step {
        Step::Identity => true,
        Step::Filter(_) => true,
        Step::OrderBy(_) => true,
        Step::Skip(_) => true,
        Step::Top(_) => true,
        Step::TopBy(_) => true,
        _ => false,
    }
}

/// Whether each transformation does.
fn all_keep(steps: &[Step]) -> bool
    ensures { result ≡ list_all is_keeping (map step_of steps.now) }
{
    for step in steps {
        if !keeps(step) {
            return false;
        }
    }
    true
}

/// The most levels of a rollup whose groups are told by numbers here. Each level is a frame with tables of its own.
const MOST_LEVELS: usize = 4;

/// Whether a key is a rollup of more levels.
fn has_many_levels(keys: &[KeyItem]) -> bool {
    for key in keys {
        if let KeyItem::Rollup(_, paths) = key {
            if paths.as_slice().len() > MOST_LEVELS {
                return true;
            }
        }
    }
    false
}

/// A grouping without a recursive rollup among its keys, whose inner pipeline only keeps some of the instances of each group, or puts
/// them in order.
#[derive(Clone, Copy)]
struct KeptGroups<'a> {
    keys: &'a KeyList,
    pipe: &'a Pipe,
    steps: &'a [Step],
}

/// What keys with an inner pipeline are, where no key is a recursive rollup, nor a rollup of many levels, and each transformation
/// only keeps some of the instances, or puts them in order.
fn kept_of_keys<'a>(keys: &'a KeyList, pipe: &'a Pipe) -> Option<KeptGroups<'a>>
    ensures keys { IfSome result (λ g. g.keys.now ≡ keys.now) }
    ensures pipe { IfSome result (λ g. g.pipe.now ≡ pipe.now) }
    ensures flat { IfSome result (λ g. IsTrue (are_flat_keys (keys_of g.keys.now))) }
    ensures tree { IfSome result (λ g. pipe_of g.pipe.now ≡ pipe' (map step_of g.steps.now)) }
    ensures keeping { IfSome result (λ g. IsTrue (list_all is_keeping (map step_of g.steps.now))) }
{
    if !are_flat(keys.as_slice()) {
        return None;
    }
    if has_many_levels(keys.as_slice()) {
        return None;
    }
    let steps = pipe.steps();
    if !all_keep(steps) {
        return None;
    }
    Some(KeptGroups { keys, pipe, steps })
}

/// The transformation as such a grouping, where it is one.
fn kept_groups(step: &Step) -> Option<KeptGroups<'_>>
    ensures step { IfSome result (λ g. step_of step.now ≡ tree.Step.GroupBy (keys_of g.keys.now) (OptPipe.SomePipe (pipe_of g.pipe.now))) }
    ensures flat { IfSome result (λ g. IsTrue (are_flat_keys (keys_of g.keys.now))) }
    ensures tree { IfSome result (λ g. pipe_of g.pipe.now ≡ pipe' (map step_of g.steps.now)) }
    ensures keeping { IfSome result (λ g. IsTrue (list_all is_keeping (map step_of g.steps.now))) }
{
    match step {
        Step::GroupBy(keys, Some(pipe)) => kept_of_keys(keys, pipe),
        _ => None,
    }
}

/// The values of each item on the instances.
fn read_items<'s, R: Threads + Sync, G: Gate>(
    alloc: Global,
    context: &'s Context<'_, R, G>,
    items: &'s [OrderItem],
    rows: &'s RowList<'_>,
) -> Result<Read<'s>, AllocError>
    requires { IsTrue (all_of context.now.world rows.now) }
    ensures { IfOk result (λ lists. seen_columns lists.items ≡ map (λ x. values context.now.world (item_of x).expr rows.now) items.now) }
{
    let mut lists = Vec::with_capacity(alloc, items.len())?;
    for item in items {
        lists.push(context.seen_values(alloc, &item.expr, rows)?)?;
    }
    Ok(lists)
}

/// What a transformation reads of the instances.
fn read_by<'s, R: Threads + Sync, G: Gate>(
    alloc: Global,
    context: &'s Context<'_, R, G>,
    step: &'s Step,
    rows: &'s RowList<'_>,
) -> Result<Read<'s>, AllocError>
    requires { IsTrue (all_of context.now.world rows.now) }
    ensures { IfOk result (λ lists. seen_columns lists.items ≡ read_of context.now.world rows.now (step_of step.now)) }
{
    let mut lists = Vec::new(alloc);
    match step {
        Step::Filter(e) => lists.push(context.seen_values(alloc, e, rows)?)?,
        Step::TopBy(top) => lists.push(context.seen_values(alloc, &top.expr, rows)?)?,
        Step::OrderBy(items) => return read_items(alloc, context, items.as_slice(), rows),
        _ => {}
    }
    Ok(lists)
}

/// What each transformation reads of the instances.
fn all_read<'s, R: Threads + Sync, G: Gate>(
    alloc: Global,
    context: &'s Context<'_, R, G>,
    steps: &'s [Step],
    rows: &'s RowList<'_>,
) -> Result<Vec<Read<'s>>, AllocError>
    requires { IsTrue (all_of context.now.world rows.now) }
    ensures { IfOk result (λ all. AreRead context.now.world rows.now (map step_of steps.now) all.items) }
{
    let mut all = Vec::with_capacity(alloc, steps.len())?;
    for step in steps {
        all.push(read_by(alloc, context, step, rows)?)?;
    }
    Ok(all)
}

/// The values at these places.
pub(crate) fn values_at<'s>(
    alloc: Global,
    values: &[Seen<'s>],
    places: &[usize],
) -> Result<Vec<Seen<'s>>, AllocError>
    requires { IsTrue (list_all (λ k. nat_lt k (length values.now)) places.now) }
    ensures { IfOk result (λ found. map (λ v. seen_value v) found.items ≡ at_places (map (λ v. seen_value v) values.now) places.now) }
{
    let mut found = Vec::with_capacity(alloc, places.len())?;
    for at in places {
        found.push(values[*at])?;
    }
    Ok(found)
}

/// The same with texts of their own.
fn own_values_at(
    alloc: Global,
    values: &[Seen<'_>],
    places: &[usize],
) -> Result<Vec<Value>, AllocError>
    requires { IsTrue (list_all (λ k. nat_lt k (length values.now)) places.now) }
    ensures { IfOk result (λ found. found.items ≡ at_places (map (λ v. seen_value v) values.now) places.now) }
{
    let mut found = Vec::with_capacity(alloc, places.len())?;
    for at in places {
        found.push(values[*at].own(alloc)?)?;
    }
    Ok(found)
}

/// Of these places those at places of their list.
pub(crate) fn places_at(
    alloc: Global,
    places: &[usize],
    chosen: &[usize],
) -> Result<Vec<usize>, AllocError>
    requires { IsTrue (list_all (λ k. nat_lt k (length places.now)) chosen.now) }
    ensures { IfOk result (λ found. found.items ≡ at_places places.now chosen.now) }
{
    let mut found = Vec::with_capacity(alloc, chosen.len())?;
    for k in chosen {
        found.push(places[*k])?;
    }
    Ok(found)
}

/// Whether a value is true, refused where it is past its range.
fn truth(value: Seen<'_>) -> Result<bool, RunRefused>
    ensures { GivesTruth result (seen_value value.entry) }
{
    match value {
        Seen::Beyond => Err(RunRefused::Range),
        Seen::Bool(b) => Ok(b),
        _ => Ok(false),
    }
}

/// The places, and the next one where it is kept.
fn with_place(kept: Vec<usize>, at: usize, keep: bool) -> Result<Vec<usize>, AllocError>
    ensures { IfOk result (λ all. all.items ≡ kept.items ++ (if keep then at ∷ [] else [])) }
{
    let mut kept = kept;
    if keep {
        kept.push(at)?;
    }
    Ok(kept)
}

/// The places at which a value is true.
fn true_places(
    alloc: Global,
    values: &[Seen<'_>],
    places: &[usize],
) -> Result<Vec<usize>, RunRefused>
    requires { IsTrue (list_all (λ k. nat_lt k (length values.now)) places.now) }
    ensures { GivesTrue result (map (λ v. seen_value v) values.now) places.now }
{
    let mut kept = Vec::with_capacity(alloc, places.len())?;
    for at in places {
        let keep = truth(values[*at])?;
        kept = with_place(kept, *at, keep)?;
    }
    Ok(kept)
}

/// The first of the lists.
fn first_list<'a, 's>(lists: &'a [Vec<Seen<'s>>]) -> &'a [Seen<'s>]
    requires { 0 < length lists.now }
    ensures { (vs : List Value') → seen_columns lists.now ≡ vs ∷ [] → map (λ v. seen_value v) result.now ≡ vs }
{
    lists[0].as_slice()
}

/// The places of these at which an expression is true.
fn filtered_at<R: Threads + Sync, G: Gate>(
    alloc: Global,
    context: &Context<'_, R, G>,
    e: &Expr,
    lists: &[Vec<Seen<'_>>],
    rows: &RowList<'_>,
    places: &[usize],
) -> Result<Vec<usize>, RunRefused>
    requires within { IsTrue (list_all (λ k. nat_lt k (length rows.now)) places.now) }
    requires lists { seen_columns lists.now ≡ values context.now.world (expr_of e.now) rows.now ∷ [] }
    ensures mean { let l = at_places rows.now places.now in
        GivesOrder result rows.now (refused_at_beyond (values context.now.world (expr_of e.now) l) (filter (λ i. is_value true (val context.now.world i (expr_of e.now))) l)) }
    ensures within { IfOk result (λ kept. IsTrue (list_all (λ k. nat_lt k (length rows.now)) kept.items)) }
{
    let seen = first_list(lists);
    true_places(alloc, seen, places)
}

/// The places that a selection takes of these.
fn selected_at<R: Threads + Sync, G: Gate>(
    alloc: Global,
    context: &Context<'_, R, G>,
    top: &TopStep,
    lists: &[Vec<Seen<'_>>],
    rows: &RowList<'_>,
    places: &[usize],
) -> Result<Vec<usize>, RunRefused>
    requires within { IsTrue (list_all (λ k. nat_lt k (length rows.now)) places.now) }
    requires lists { seen_columns lists.now ≡ values context.now.world (top_of top.now).expr rows.now ∷ [] }
    requires limit { let t = top_of top.now in LimitReady t.limit (values context.now.world t.expr (at_places rows.now places.now)) }
    ensures mean { GivesOrder result rows.now (selected context.now.world (top_of top.now) (at_places rows.now places.now)) }
    ensures within { IfOk result (λ kept. IsTrue (list_all (λ k. nat_lt k (length rows.now)) kept.items)) }
{
    let seen = first_list(lists);
    let own = values_at(alloc, seen, places)?;
    let taken = selected_places(alloc, context, top, own.as_slice())?;
    Ok(places_at(alloc, places, taken.as_slice())?)
}

/// The places in the order of one item; those that tie stand as before.
fn ordered_by_item<R: Threads + Sync, G: Gate>(
    alloc: Global,
    context: &Context<'_, R, G>,
    item: &OrderItem,
    seen: &[Seen<'_>],
    rows: &RowList<'_>,
    places: &[usize],
) -> Result<Vec<usize>, RunRefused>
    requires within { IsTrue (list_all (λ k. nat_lt k (length rows.now)) places.now) }
    requires values { map (λ v. seen_value v) seen.now ≡ values context.now.world (item_of item.now).expr rows.now }
    ensures mean { let xs = item_of item.now ∷ [] in let l = at_places rows.now places.now in
        GivesOrder result rows.now (refused_at_beyond (order_values context.now.world xs l) (sorted (order_before context.now.world xs) l)) }
    ensures within { IfOk result (λ kept. IsTrue (list_all (λ k. nat_lt k (length rows.now)) kept.items)) }
{
    let own = own_values_at(alloc, seen, places)?;
    let order = item_places(alloc, item, own.as_slice())?;
    Ok(places_at(alloc, places, order.as_slice())?)
}

/// The places in the order of the items, from left to right; those that tie stand as before. They are sorted by one item after
/// another, from the last to the first.
fn ordered_at<R: Threads + Sync, G: Gate>(
    alloc: Global,
    context: &Context<'_, R, G>,
    items: &OrderList,
    lists: &[Vec<Seen<'_>>],
    rows: &RowList<'_>,
    places: Vec<usize>,
) -> Result<Vec<usize>, RunRefused>
    requires of { IsTrue (all_of context.now.world (at_places rows.now places.items)) }
    requires within { IsTrue (list_all (λ k. nat_lt k (length rows.now)) places.items) }
    requires lists { seen_columns lists.now ≡ map (λ x. values context.now.world (item_of x).expr rows.now) items.now }
    ensures mean { let xs = map item_of items.now in let l = at_places rows.now places.items in
        GivesOrder result rows.now (refused_at_beyond (order_values context.now.world xs l) (sorted (order_before context.now.world xs) l)) }
    ensures within { IfOk result (λ kept. IsTrue (list_all (λ k. nat_lt k (length rows.now)) kept.items)) }
{
    let mut places = places;
    let all = items.as_slice();
    for k in 0..all.len() {
        let last = all.len() - 1 - k;
        let seen = lists[last].as_slice();
        places = ordered_by_item(alloc, context, &all[last], seen, rows, places.as_slice())?;
    }
    Ok(places)
}

/// The first `n` places.
fn first_places(n: u64, places: Vec<usize>) -> Vec<usize>
    ensures { result.items ≡ take n places.items }
{
    let mut places = places;
    if let Ok(n) = usize::try_from(n) {
        places.truncate(n);
    }
    places
}

/// The places without the first `n`.
fn later_places(n: u64, places: Vec<usize>) -> Vec<usize>
    ensures { result.items ≡ drop n places.items }
{
    let mut places = places;
    let n = match usize::try_from(n) {
        Ok(n) => n.min(places.len()),
        Err(_) => places.len(),
    };
    drop(places.drain(..n));
    places
}

/// The instances at these places have values that a selection can be made by.
fn selection_ready<R: Threads + Sync, G: Gate>(
    context: &Context<'_, R, G>,
    root: &Option<TypeId>,
    top: &TopStep,
    rows: &RowList<'_>,
    places: &[usize],
)
    requires { StepReadyFrom context.now root.now (tree.Step.TopBy (top_of top.now)) (at_places rows.now places.now) }
    ensures { let t = top_of top.now in LimitReady t.limit (values context.now.world t.expr (at_places rows.now places.now)) }
{
    data_is_loaded(context.store());
}

/// The places of the instances that one transformation gives of those at these places.
fn kept_by<R: Threads + Sync, G: Gate>(
    alloc: Global,
    context: &Context<'_, R, G>,
    root: &Option<TypeId>,
    step: &Step,
    lists: &[Vec<Seen<'_>>],
    rows: &RowList<'_>,
    places: Vec<usize>,
) -> Result<Vec<usize>, RunRefused>
    requires keeping { IsTrue (is_keeping (step_of step.now)) }
    requires within { IsTrue (list_all (λ k. nat_lt k (length rows.now)) places.items) }
    requires lists { seen_columns lists.now ≡ read_of context.now.world rows.now (step_of step.now) }
    requires ready { StepReadyFrom context.now root.now (step_of step.now) (at_places rows.now places.items) }
    ensures mean { (S S' : Shape) → StepRunsFrom context.now root.now S S' (step_of step.now) (at_places rows.now places.items)
        → GivesOrder result rows.now (step_mean context.now.world (readings context.now.customs) S (step_of step.now) (at_places rows.now places.items)) }
    ensures within { IfOk result (λ kept. IsTrue (list_all (λ k. nat_lt k (length rows.now)) kept.items)) }
{
    match step {
        Step::Identity => Ok(places),
        Step::Skip(n) => Ok(later_places(*n, places)),
        Step::Top(n) => Ok(first_places(*n, places)),
        Step::Filter(e) => {
            let own = places.as_slice();
            filtered_at(alloc, context, e, lists, rows, own)
        }
        Step::TopBy(top) => {
            let own = places.as_slice();
            selection_ready(context, root, top, rows, own);
            selected_at(alloc, context, top, lists, rows, own)
        }
        Step::OrderBy(items) => ordered_at(alloc, context, items, lists, rows, places),
        _ => unreachable!(),
    }
}

/// The next transformation may be run on the instances at these places.
fn next_ready<R: Threads + Sync, G: Gate>(
    context: &Context<'_, R, G>,
    root: &Option<TypeId>,
    steps: &[Step],
    i: usize,
    step: &Step,
    rows: &RowList<'_>,
    places: &Vec<usize>,
)
    requires within { i < length steps.now }
    requires step { step.now ≡ get_or steps.now i step.now }
    requires ready { ReadyFrom context.now root.now (pipe' (map step_of (drop i steps.now))) (at_places rows.now places.now.items) }
    ensures { StepReadyFrom context.now root.now (step_of step.now) (at_places rows.now places.now.items) }
{}

/// The places of the instances that the transformations give, one after the other, of those at these places.
fn kept_places<R: Threads + Sync, G: Gate>(
    alloc: Global,
    context: &Context<'_, R, G>,
    root: &Option<TypeId>,
    steps: &[Step],
    lists: &[Read<'_>],
    rows: &RowList<'_>,
    members: &[usize],
) -> Result<Vec<usize>, RunRefused>
    requires keeping { IsTrue (list_all is_keeping (map step_of steps.now)) }
    requires within { IsTrue (list_all (λ k. nat_lt k (length rows.now)) members.now) }
    requires lists { AreRead context.now.world rows.now (map step_of steps.now) lists.now }
    requires ready { ReadyFrom context.now root.now (pipe' (map step_of steps.now)) (at_places rows.now members.now) }
    ensures mean { (S S' : Shape) → RunsFrom context.now root.now S S' (pipe' (map step_of steps.now)) (at_places rows.now members.now)
        → GivesOrder result rows.now (mean context.now.world (readings context.now.customs) S (pipe' (map step_of steps.now)) (at_places rows.now members.now)) }
    ensures within { IfOk result (λ kept. IsTrue (list_all (λ k. nat_lt k (length rows.now)) kept.items)) }
{
    data_is_loaded(context.store());
    let mut places = Vec::with_capacity(alloc, members.len())?;
    places.extend_from_slice(members)?;
    let mut root = *root;
    for (i, step) in steps.iter().enumerate() {
        next_ready(context, &root, steps, i, step, rows, &places);
        places = kept_by(
            alloc,
            context,
            &root,
            step,
            lists[i].as_slice(),
            rows,
            places,
        )?;
        root = root_after(step, root);
    }
    Ok(places)
}

/// As many empty lists, each with room for its number of elements.
fn empty_lists(alloc: Global, counts: &[usize]) -> Result<Vec<Vec<usize>>, AllocError>
    ensures { IfOk result (λ lists. map (λ v. v.items) lists.items ≡ map (λ n. []) counts.now) }
{
    let mut lists = Vec::with_capacity(alloc, counts.len())?;
    for n in counts {
        lists.push(Vec::with_capacity(alloc, *n)?)?;
    }
    Ok(lists)
}

/// The places of each group's instances, in their order.
pub(crate) fn members_of(
    alloc: Global,
    groups: &NumberedGroups,
) -> Result<Vec<Vec<usize>>, AllocError>
    ensures lists { IfOk result (λ lists. map (λ v. v.items) lists.items ≡ map (places_with groups.now.numbers) (all_places (length groups.now.firsts))) }
    ensures size { IfOk result (λ lists. length lists.items ≡ length groups.now.firsts) }
{
    let counts = counts(alloc, groups)?;
    let mut lists = empty_lists(alloc, counts.as_slice())?;
    let numbers = groups.numbers();
    for (k, number) in numbers.iter().enumerate() {
        lists[*number as usize].push(k)?;
    }
    Ok(lists)
}

/// Places of instances that are kept, and beside each the place of the first instance of its group.
#[derive(Drop)]
pub(crate) struct Kept {
    places: Vec<usize>,
    heads: Vec<usize>,
}

/// The places so far, and then those that are kept of a group.
fn with_group(kept: Kept, own: Vec<usize>, head: usize) -> Result<Kept, AllocError>
    ensures places { IfOk result (λ all. all.places.items ≡ kept.places.items ++ own.items) }
    ensures heads { IfOk result (λ all. all.heads.items ≡ kept.heads.items ++ map (λ k. head) own.items) }
{
    let Kept { places, heads } = kept;
    let mut places = places;
    let mut heads = heads;
    for _k in 0..own.len() {
        heads.push(head)?;
    }
    let mut own = own;
    places.append(&mut own)?;
    Ok(Kept { places, heads })
}

/// The inner pipeline may be run on the instances at these places.
fn group_ready<R: Threads + Sync, G: Gate>(
    context: &Context<'_, R, G>,
    root: &Option<TypeId>,
    steps: &[Step],
    paths: &[Path],
    rows: &RowList<'_>,
    places: &[usize],
)
    requires ready { GroupReady context.now root.now (level_on context.now.world rows.now paths.now) (pipe' (map step_of steps.now)) rows.now }
    ensures { ReadyFrom context.now root.now (pipe' (map step_of steps.now)) (at_places rows.now places.now) }
{}

/// What the inner pipeline keeps of each group of a level.
fn kept_of<R: Threads + Sync, G: Gate>(
    alloc: Global,
    context: &Context<'_, R, G>,
    root: &Option<TypeId>,
    steps: &[Step],
    lists: &[Read<'_>],
    paths: &[Path],
    groups: &NumberedGroups,
    rows: &RowList<'_>,
) -> Result<Kept, RunRefused>
    requires keeping { IsTrue (list_all is_keeping (map step_of steps.now)) }
    requires lists { AreRead context.now.world rows.now (map step_of steps.now) lists.now }
    requires numbered { AreNumberedBy context.now.world paths.now rows.now groups.now }
    requires ready { GroupReady context.now root.now (level_on context.now.world rows.now paths.now) (pipe' (map step_of steps.now)) rows.now }
    ensures mean { (S G' : Shape) → GroupRuns context.now root.now S G' (level_on context.now.world rows.now paths.now) (pipe' (map step_of steps.now)) rows.now
        → GivesKept result context.now.world paths.now rows.now (level_made (mean context.now.world (readings context.now.customs) S (pipe' (map step_of steps.now))) rows.now (level_on context.now.world rows.now paths.now)) }
    ensures places { IfOk result (λ kept. IsTrue (list_all (λ k. nat_lt k (length rows.now)) kept.places.items)) }
    ensures heads { IfOk result (λ kept. IsTrue (list_all (λ k. nat_lt k (length rows.now)) kept.heads.items)) }
    ensures even { IfOk result (λ kept. length kept.places.items ≡ length kept.heads.items) }
{
    let mut kept = Kept {
        places: Vec::new(alloc),
        heads: Vec::new(alloc),
    };
    let firsts = groups.firsts();
    let members = members_of(alloc, groups)?;
    let members = members.as_slice();
    for k in 0..groups.len() {
        let own = members[k].as_slice();
        group_ready(context, root, steps, paths, rows, own);
        let own = kept_places(alloc, context, root, steps, lists, rows, own)?;
        kept = with_group(kept, own, firsts[k])?;
    }
    Ok(kept)
}

/// What the inner pipeline keeps of each group of a level, each instance with the columns of the group's key.
fn level_frame<R: Threads + Sync, G: Gate>(
    alloc: Global,
    context: &Context<'_, R, G>,
    root: &Option<TypeId>,
    steps: &[Step],
    lists: &[Read<'_>],
    paths: &[Path],
    groups: &NumberedGroups,
    frame: &Frame,
) -> Result<Frame, RunRefused>
    requires of { IsTrue (all_of context.now.world frame.now) }
    requires keeping { IsTrue (list_all is_keeping (map step_of steps.now)) }
    requires lists { AreRead context.now.world frame.now (map step_of steps.now) lists.now }
    requires numbered { AreNumberedBy context.now.world paths.now frame.now groups.now }
    requires ready { GroupReady context.now root.now (level_on context.now.world frame.now paths.now) (pipe' (map step_of steps.now)) frame.now }
    ensures mean { (S G' : Shape) → GroupRuns context.now root.now S G' (level_on context.now.world frame.now paths.now) (pipe' (map step_of steps.now)) frame.now
        → GivesFrame result (level_made (mean context.now.world (readings context.now.customs) S (pipe' (map step_of steps.now))) frame.now (level_on context.now.world frame.now paths.now)) }
{
    let rows = RowList::of_frame(frame);
    let kept = kept_of(alloc, context, root, steps, lists, paths, groups, &rows)?;
    let Kept { places, heads } = kept;
    let keys = rows.key_columns_at(alloc, context.store(), paths, heads.as_slice())?;
    let columns = key_columns(alloc, paths, keys.as_slice())?;
    let own = frame.copy(alloc)?.at(alloc, places.as_slice())?;
    Ok(own.extend(alloc, columns)?)
}

/// The inner pipeline may be run on the groups of one level.
fn level_ready<R: Threads + Sync, G: Gate>(
    context: &Context<'_, R, G>,
    root: &Option<TypeId>,
    steps: &[Step],
    keys: &LevelKeys<'_>,
    k: usize,
    paths: &[Path],
    frame: &Frame,
)
    requires at { Some paths.now ≡ slice_get (level_paths keys.now.plain (part_of keys.now.rollup)) k }
    requires ready { LevelsReady context.now root.now (map (level_on context.now.world frame.now) (level_paths keys.now.plain (part_of keys.now.rollup))) (pipe' (map step_of steps.now)) frame.now }
    ensures { GroupReady context.now root.now (level_on context.now.world frame.now paths.now) (pipe' (map step_of steps.now)) frame.now }
{}

/// The same of all levels, the finest first.
fn frame_of_levels<R: Threads + Sync, G: Gate>(
    alloc: Global,
    context: &Context<'_, R, G>,
    root: &Option<TypeId>,
    steps: &[Step],
    lists: &[Read<'_>],
    keys: &LevelKeys<'_>,
    paths: &[Path],
    levels: &[NumberedGroups],
    frame: &Frame,
) -> Result<Frame, RunRefused>
    requires of { IsTrue (all_of context.now.world frame.now) }
    requires keeping { IsTrue (list_all is_keeping (map step_of steps.now)) }
    requires lists { AreRead context.now.world frame.now (map step_of steps.now) lists.now }
    requires all { paths.now ≡ keys.now.plain ++ rollup_paths (part_of keys.now.rollup) }
    requires numbered { AreNumberedByEach context.now.world (level_paths keys.now.plain (part_of keys.now.rollup)) frame.now levels.now }
    requires ready { LevelsReady context.now root.now (map (level_on context.now.world frame.now) (level_paths keys.now.plain (part_of keys.now.rollup))) (pipe' (map step_of steps.now)) frame.now }
    ensures mean { (S G' : Shape) → LevelsRun context.now root.now S G' (map (level_on context.now.world frame.now) (level_paths keys.now.plain (part_of keys.now.rollup))) (pipe' (map step_of steps.now)) frame.now
        → GivesFrame result (joined (map (level_made (mean context.now.world (readings context.now.customs) S (pipe' (map step_of steps.now))) frame.now) (map (level_on context.now.world frame.now) (level_paths keys.now.plain (part_of keys.now.rollup))))) }
{
    let mut all = Frame::none(alloc);
    for (k, groups) in levels.iter().enumerate() {
        let own = paths_at(keys, paths, k);
        level_ready(context, root, steps, keys, k, own, frame);
        all = all.append(level_frame(alloc, context, root, steps, lists, own, groups, frame)?)?;
    }
    Ok(all)
}

/// What such a grouping makes of the groups of all levels, and a refusal where a key is Beyond.
fn kept_levels<R: Threads + Sync, G: Gate>(
    alloc: Global,
    context: &Context<'_, R, G>,
    root: &Option<TypeId>,
    groups: &KeptGroups<'_>,
    frame: &Frame,
) -> Result<Frame, RunRefused>
    requires of { IsTrue (all_of context.now.world frame.now) }
    requires flat { IsTrue (are_flat_keys (keys_of groups.now.keys.now)) }
    requires tree { pipe_of groups.now.pipe.now ≡ pipe' (map step_of groups.now.steps.now) }
    requires keeping { IsTrue (list_all is_keeping (map step_of groups.now.steps.now)) }
    requires ready { LevelsReady context.now root.now (map (level_on context.now.world frame.now) (levels_of (keys_of groups.now.keys.now))) (pipe_of groups.now.pipe.now) frame.now }
    ensures mean { (S G' : Shape) → LevelsRun context.now root.now S G' (map (level_on context.now.world frame.now) (levels_of (keys_of groups.now.keys.now))) (pipe_of groups.now.pipe.now) frame.now
        → GivesLevelsMade result context.now.world (keys_of groups.now.keys.now) (mean context.now.world (readings context.now.customs) S (pipe_of groups.now.pipe.now)) frame.now }
{
    let rows = RowList::of_frame(frame);
    let paths = all_paths(alloc, groups.keys)?;
    let paths = paths.as_slice();
    let keys = taken_apart(alloc, groups.keys)?;
    let levels = numbered_groups(alloc, context, &keys, &rows)?;
    let levels = levels.as_slice();
    let steps = groups.steps;
    let lists = all_read(alloc, context, steps, &rows)?;
    let lists = lists.as_slice();
    let inner = context.alone();
    frame_of_levels(
        alloc, &inner, root, steps, lists, &keys, paths, levels, frame,
    )
}

/// What a transformation that is such a grouping gives on a frame.
fn frame_of_kept<R: Threads + Sync, G: Gate>(
    alloc: Global,
    context: &Context<'_, R, G>,
    root: &Option<TypeId>,
    step: &Step,
    groups: &KeptGroups<'_>,
    frame: &Frame,
) -> Result<Frame, RunRefused>
    requires step { step_of step.now ≡ tree.Step.GroupBy (keys_of groups.now.keys.now) (OptPipe.SomePipe (pipe_of groups.now.pipe.now)) }
    requires flat { IsTrue (are_flat_keys (keys_of groups.now.keys.now)) }
    requires tree { pipe_of groups.now.pipe.now ≡ pipe' (map step_of groups.now.steps.now) }
    requires keeping { IsTrue (list_all is_keeping (map step_of groups.now.steps.now)) }
    requires ready { StepReadyFrom context.now root.now (step_of step.now) frame.now }
    ensures mean { (S S' : Shape) → StepRunsFrom context.now root.now S S' (step_of step.now) frame.now
        → GivesFrame result (step_mean context.now.world (readings context.now.customs) S (step_of step.now) frame.now) }
{
    data_is_loaded(context.store());
    kept_levels(alloc, context, root, groups, frame)
}

/// What a grouping gives on a frame, as a frame of which no row is made, where its inner pipeline only keeps some of the instances of
/// each group, or puts them in order; nothing where it does not.
pub fn kept_frame<R: Threads + Sync, G: Gate>(
    alloc: Global,
    context: &Context<'_, R, G>,
    root: &Option<TypeId>,
    step: &Step,
    frame: &Frame,
) -> Result<Option<Frame>, RunRefused>
    requires ready { StepReadyFrom context.now root.now (step_of step.now) frame.now }
    ensures mean { (S S' : Shape) → StepRunsFrom context.now root.now S S' (step_of step.now) frame.now
        → GivesFound result (step_mean context.now.world (readings context.now.customs) S (step_of step.now) frame.now) }
{
    match kept_groups(step) {
        Some(groups) => {
            let made = frame_of_kept(alloc, context, root, step, &groups, frame)?;
            Ok(Some(made))
        }
        None => Ok(None),
    }
}
