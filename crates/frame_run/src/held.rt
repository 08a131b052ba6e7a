//! What a pipeline has come to: a whole set, a frame, as long as no transformation wants rows, and then rows.
ghost use Rattle.std.specs.Prelude.{◌≡◌, ℕ, ◌+◌, ◌≤◌, ◌<◌, ◌++◌, List, Some, IfOk, IsTrue, drop, filter, flat_map, get_or, length, map, option_map, slice_get, sum, true};
ghost use Rattle.std.specs.List.{list_all};
ghost use Rattle.edm_values.specs.declared.Value.{Value as Value'};
ghost use Rattle.edm_values.specs.Values.{is_value};
ghost use Rattle.apply_ast.specs.Trees as tree;
ghost use Rattle.apply_ast.specs.Trees.{pipe};
ghost use Rattle.apply_ast.specs.Views.{climb_of, expr_of, inner_of, join_of, keys_of, pipe_of, pipes_in, pipes_of, step_of};
ghost use Rattle.context_typing.specs.Readings.{readings};
ghost use Rattle.edm_model.specs.LookUps.{IsNavigation, navigation_on};
ghost use Rattle.edm_model.specs.Models.{Navigation};
ghost use Rattle.context_typing.specs.Shapes.{Shape, set_shape};
ghost use Rattle.edm_data.specs.References.{count};
ghost use Rattle.apply_meaning.specs.Instances.{rows, val};
ghost use Rattle.apply_meaning.specs.Meaning.{Outcome, inner_mean, joined, mean, refused_at_beyond, related_rows, step_mean, values};
ghost use Rattle.apply_meaning.specs.Running.{Gives, all_of};
ghost use Rattle.row_frames.specs.Frames.{GivesFrame};
ghost use Rattle.hier_states.specs.NamedHierarchies.{branch_hierarchies, hierarchies, inner_hierarchies, step_hierarchies};
ghost use Rattle.pipe_run.specs.SeveralRuns.{BranchesReady, BranchesRun, RelatedReady, RelatedRun};
ghost use Rattle.step_run.specs.Conditions.{AreReady, GroupReady, GroupRuns, InnerReady, InnerRuns, LevelsReady, LevelsRun, ReadyFrom, RunsFrom, StepReadyFrom, StepRunsFrom, charge_of, is_grouping};
ghost use Rattle.step_run.specs.Costs.{application, applications, cost, inner_cost, step_cost};
ghost use Rattle.step_run.specs.Levels.{group_made, level_lists, level_made};
ghost use Rattle.join_concat.specs.Joins.{has_root_of};
ghost use Rattle.frame_run.specs.HeldRows as spec;

use crate::frame_steps::{
    frame_aggregated, frame_climbed, frame_computed, frame_ordered, frame_selected, frame_traversed,
};
use crate::front::{set_climbed, set_filtered};
use crate::grouped::{begins_with_values, frame_of_groups, group_of, held_groups};
use crate::joins::{
    alias_ready, inner_ready, join_navigation, joined_lists, related_frame, related_ready,
    target_set, target_type,
};
use apply_ast::{ClimbStep, Expr, JoinStep, KeyList, Name, Pipe, PipeList, Step};
use apply_meaning::{Row, RunRefused, Steps, data_is_loaded};
use edm_data::Data;
use edm_model::{NavId, SetId, TypeId};
use par_stages::Gate;
use pipe_run::{grouping_levels, run_grouping, run_step};
use row_frames::Frame;
use row_values::RowList;
use std::alloc::{AllocError, Global};
use std::sync::ledger::Ledger;
use std::thread::Threads;
use step_run::{Context, Level, all_paths, root_after, with_keys};

/// The rows that a pipeline has come to.
#[derive(Debug, Drop)]
pub enum Held {
    /// The first entities of a set, so many, of which no list is made yet.
    Set(SetId, u32),
    /// Rows that are not made yet.
    Frame(Frame),
    Rows(Vec<Row>),
}

impl Held {
    /// The instances of a set's entities in data order, of which no list is made yet.
    pub fn of_set(store: &Data, set: SetId) -> Held
        ensures rows { spec.rows_of result ≡ rows store.now set }
        ensures owed { spec.owed result ≡ count store.now set }
    {
        Held::Set(set, store.count(set))
    }

    /// The same instances, with a list of them where none was made yet. No row is made.
    pub fn listed(self, alloc: Global) -> Result<Held, AllocError>
        ensures rows { IfOk result (λ h. spec.rows_of h ≡ spec.rows_of self) }
        ensures owed { IfOk result (λ h. spec.owed h ≡ spec.owed self) }
    {
        match self {
            Held::Set(set, n) => Ok(Held::Frame(Frame::of_first(alloc, set, n)?)),
            held => Ok(held),
        }
    }
}

/// The rows themselves: one step each, where they are not made yet.
pub fn made_rows<L: Ledger>(
    alloc: Global,
    held: Held,
    steps: &mut Steps<L>,
) -> Result<Vec<Row>, AllocError>
    ensures rows { IfOk result (λ made. made.items ≡ spec.rows_of held) }
    ensures steps { steps.new ≤ steps.old + spec.owed held }
    ensures grown { steps.old ≤ steps.new }
{
    match held {
        Held::Set(set, n) => Frame::of_first(alloc, set, n)?.into_rows(alloc, steps),
        Held::Frame(frame) => frame.into_rows(alloc, steps),
        Held::Rows(rows) => Ok(rows),
    }
}

/// The next transformation of a pipeline may be run.
fn held_ready<R: Threads + Sync, G: Gate>(
    context: &Context<'_, R, G>,
    root: &Option<TypeId>,
    all: &[Step],
    i: usize,
    step: &Step,
    held: &Held,
)
    requires within { i < length all.now }
    requires step { step.now ≡ get_or all.now i step.now }
    requires ready { ReadyFrom context.now root.now (pipe (map step_of (drop i all.now))) (spec.rows_of held.now) }
    ensures { StepReadyFrom context.now root.now (step_of step.now) (spec.rows_of held.now) }
{}

/// Rows that were made, or why there are none.
fn as_held(made: Result<Vec<Row>, RunRefused>) -> Result<Held, RunRefused>
    ensures gives { (m : Outcome) → Gives made m → spec.GivesHeld result m }
    ensures owed { spec.owed_by result ≡ 0 }
{
    match made {
        Ok(rows) => Ok(Held::Rows(rows)),
        Err(refused) => Err(refused),
    }
}

/// A frame that was made, or why there is none.
fn as_frame(made: Result<Frame, RunRefused>) -> Result<Held, RunRefused>
    ensures { (m : Outcome) → GivesFrame made m → spec.GivesHeld result m }
{
    match made {
        Ok(frame) => Ok(Held::Frame(frame)),
        Err(refused) => Err(refused),
    }
}

/// What one transformation gives on the rows of a frame, which are made for it.
fn run_on_rows<R: Threads + Sync, G: Gate, L: Ledger>(
    alloc: Global,
    context: &Context<'_, R, G>,
    root: &Option<TypeId>,
    step: &Step,
    frame: Frame,
    steps: &mut Steps<L>,
) -> Result<Held, RunRefused>
    requires ready { StepReadyFrom context.now root.now (step_of step.now) frame }
    requires named { AreReady context.now (step_hierarchies (step_of step.now)) }
    ensures mean { (S S' : Shape) → StepRunsFrom context.now root.now S S' (step_of step.now) frame
        → spec.GivesHeld result (step_mean context.now.world (readings context.now.customs) S (step_of step.now) frame) }
    ensures steps { (S S' : Shape) → StepRunsFrom context.now root.now S S' (step_of step.now) frame
        → steps.new + spec.owed_by result ≤ steps.old + length frame + step_cost context.now.world (readings context.now.customs) S (step_of step.now) frame }
    ensures grown { steps.old ≤ steps.new }
{
    let rows = frame.into_rows(alloc, steps)?;
    as_held(run_step(alloc, context, root, step, rows, steps))
}

/// The instances of a frame on which an expression is true.
fn frame_filter<R: Threads + Sync, G: Gate>(
    alloc: Global,
    context: &Context<'_, R, G>,
    e: &Expr,
    frame: Frame,
) -> Result<Frame, RunRefused>
    requires { IsTrue (all_of context.now.world frame) }
    ensures { GivesFrame result (refused_at_beyond (values context.now.world (expr_of e.now) frame) (filter (λ i. is_value true (val context.now.world i (expr_of e.now))) frame)) }
{
    frame.filter(context.rt(), alloc, context.store(), e, context.workers())
}

/// What one transformation gives on a frame, but for those whose inner pipelines are run on the same instances. No row is made where
/// none is wanted.
fn run_on_frame<R: Threads + Sync, G: Gate, L: Ledger>(
    alloc: Global,
    context: &Context<'_, R, G>,
    root: &Option<TypeId>,
    step: &Step,
    frame: Frame,
    steps: &mut Steps<L>,
) -> Result<Held, RunRefused>
    requires ready { StepReadyFrom context.now root.now (step_of step.now) frame }
    requires named { AreReady context.now (step_hierarchies (step_of step.now)) }
    ensures mean { (S S' : Shape) → StepRunsFrom context.now root.now S S' (step_of step.now) frame
        → spec.GivesHeld result (step_mean context.now.world (readings context.now.customs) S (step_of step.now) frame) }
    ensures steps { (S S' : Shape) → StepRunsFrom context.now root.now S S' (step_of step.now) frame
        → steps.new + spec.owed_by result ≤ steps.old + length frame + step_cost context.now.world (readings context.now.customs) S (step_of step.now) frame }
    ensures grown { steps.old ≤ steps.new }
{
    match step {
        Step::Identity => Ok(Held::Frame(frame)),
        Step::Skip(n) => Ok(Held::Frame(frame.skip(*n))),
        Step::Top(n) => Ok(Held::Frame(frame.top(*n))),
        Step::Filter(e) => as_frame(frame_filter(alloc, context, e, frame)),
        Step::TopBy(top) => as_frame(frame_selected(alloc, context, root, top, frame)),
        Step::Compute(items) => {
            let frame = frame_computed(alloc, context, root, items, frame)?;
            Ok(Held::Frame(frame))
        }
        Step::OrderBy(items) => {
            let store = context.store();
            let workers = context.workers();
            as_frame(frame_ordered(context.rt(), alloc, store, items, frame, workers))
        }
        Step::Aggregate(items) => {
            let made = frame_aggregated(alloc, context, root, items, &frame, steps)?;
            Ok(Held::Rows(made))
        }
        Step::Traverse(walk) => as_frame(frame_traversed(alloc, context, walk, frame, steps)),
        _ => run_on_rows(alloc, context, root, step, frame, steps),
    }
}

/// The instances of a frame that a climb keeps: those whose node is an ancestor, or a descendant, of a node that the inner pipeline
/// comes to.
#[cycle(held)]
fn run_climb<R: Threads + Sync, G: Gate, L: Ledger>(
    alloc: Global,
    context: &Context<'_, R, G>,
    root: &Option<TypeId>,
    climb: &ClimbStep,
    frame: Frame,
    steps: &mut Steps<L>,
) -> Result<Held, RunRefused>
    requires ready { StepReadyFrom context.now root.now (climb_of climb.now) frame }
    requires named { AreReady context.now (step_hierarchies (climb_of climb.now)) }
    ensures mean { (S S' : Shape) → StepRunsFrom context.now root.now S S' (climb_of climb.now) frame
        → spec.GivesHeld result (step_mean context.now.world (readings context.now.customs) S (climb_of climb.now) frame) }
    ensures steps { (S S' : Shape) → StepRunsFrom context.now root.now S S' (climb_of climb.now) frame
        → steps.new + spec.owed_by result ≤ steps.old + length frame + step_cost context.now.world (readings context.now.customs) S (climb_of climb.now) frame }
    ensures grown { steps.old ≤ steps.new }
{
    data_is_loaded(context.store());
    let copy = Held::Frame(frame.copy(alloc)?);
    let starts = held_after(alloc, context, root, &climb.inner, copy, steps)?;
    as_frame(frame_climbed(alloc, context, climb, frame, &starts))
}

/// The instances of a set that a climb keeps. The inner pipeline is run on the set too, of which no list is made for either.
#[cycle(held)]
fn run_set_climb<R: Threads + Sync, G: Gate, L: Ledger>(
    alloc: Global,
    context: &Context<'_, R, G>,
    root: &Option<TypeId>,
    climb: &ClimbStep,
    set: SetId,
    n: u32,
    steps: &mut Steps<L>,
) -> Result<Held, RunRefused>
    requires ready { StepReadyFrom context.now root.now (climb_of climb.now) (spec.first_of set n) }
    requires named { AreReady context.now (step_hierarchies (climb_of climb.now)) }
    ensures mean { (S S' : Shape) → StepRunsFrom context.now root.now S S' (climb_of climb.now) (spec.first_of set n)
        → spec.GivesHeld result (step_mean context.now.world (readings context.now.customs) S (climb_of climb.now) (spec.first_of set n)) }
    ensures steps { (S S' : Shape) → StepRunsFrom context.now root.now S S' (climb_of climb.now) (spec.first_of set n)
        → steps.new + spec.owed_by result ≤ steps.old + n + step_cost context.now.world (readings context.now.customs) S (climb_of climb.now) (spec.first_of set n) }
    ensures grown { steps.old ≤ steps.new }
{
    data_is_loaded(context.store());
    let starts = held_after(alloc, context, root, &climb.inner, Held::Set(set, n), steps)?;
    as_frame(set_climbed(alloc, context, climb, set, n, &starts))
}

/// Each branch of a concatenation may be run on the instances.
fn branches_ready<R: Threads + Sync, G: Gate>(
    context: &Context<'_, R, G>,
    root: &Option<TypeId>,
    branches: &PipeList,
    frame: &Frame,
)
    requires { StepReadyFrom context.now root.now (tree.Step.Concat (pipes_of branches.now)) frame.now }
    ensures { BranchesReady context.now root.now (map pipe_of (pipes_in branches.now)) frame.now }
{}

/// The next branch may be run on the instances.
fn branch_ready<R: Threads + Sync, G: Gate>(
    context: &Context<'_, R, G>,
    root: &Option<TypeId>,
    branches: &[Pipe],
    k: usize,
    branch: &Pipe,
    frame: &Frame,
)
    requires within { k < length branches.now }
    requires branch { branch.now ≡ get_or branches.now k branch.now }
    requires ready { BranchesReady context.now root.now (map pipe_of branches.now) frame.now }
    ensures { ReadyFrom context.now root.now (pipe_of branch.now) frame.now }
{}

/// The most tables that each of two frames may have that are put one behind the other. Concatenations of concatenations could double
/// the tables of a few rows again and again.
const MOST_TABLES: usize = 64;

/// The rows of both as rows, one list behind the other.
fn joined_rows<L: Ledger>(
    alloc: Global,
    first: Held,
    other: Held,
    steps: &mut Steps<L>,
) -> Result<Held, AllocError>
    ensures rows { IfOk result (λ all. spec.rows_of all ≡ spec.rows_of first ++ spec.rows_of other) }
    ensures steps { steps.new + spec.owed_by result ≤ steps.old + spec.owed first + spec.owed other }
    ensures grown { steps.old ≤ steps.new }
{
    let mut all = made_rows(alloc, first, steps)?;
    let mut others = made_rows(alloc, other, steps)?;
    all.append(&mut others)?;
    Ok(Held::Rows(all))
}

/// The rows of both, one list behind the other. No row is made where none was, but of frames of many tables.
fn joined_held<L: Ledger>(
    alloc: Global,
    first: Held,
    other: Held,
    steps: &mut Steps<L>,
) -> Result<Held, AllocError>
    ensures rows { IfOk result (λ all. spec.rows_of all ≡ spec.rows_of first ++ spec.rows_of other) }
    ensures steps { steps.new + spec.owed_by result ≤ steps.old + spec.owed first + spec.owed other }
    ensures grown { steps.old ≤ steps.new }
{
    match (first, other) {
        (Held::Frame(first), Held::Frame(other)) => {
            if first.table_count() > MOST_TABLES || other.table_count() > MOST_TABLES {
                return joined_rows(alloc, Held::Frame(first), Held::Frame(other), steps);
            }
            Ok(Held::Frame(first.append(other)?))
        }
        (first, other) => joined_rows(alloc, first, other, steps),
    }
}

/// What a concatenation gives on a frame: what each branch gives on the same instances.
#[cycle(held)]
fn run_concat<R: Threads + Sync, G: Gate, L: Ledger>(
    alloc: Global,
    context: &Context<'_, R, G>,
    root: &Option<TypeId>,
    branches: &PipeList,
    frame: Frame,
    steps: &mut Steps<L>,
) -> Result<Held, RunRefused>
    requires ready { StepReadyFrom context.now root.now (tree.Step.Concat (pipes_of branches.now)) frame }
    requires named { AreReady context.now (branch_hierarchies (pipes_of branches.now)) }
    ensures mean { (S S' : Shape) → StepRunsFrom context.now root.now S S' (tree.Step.Concat (pipes_of branches.now)) frame
        → spec.GivesHeld result (step_mean context.now.world (readings context.now.customs) S (tree.Step.Concat (pipes_of branches.now)) frame) }
    ensures steps { (S S' : Shape) → StepRunsFrom context.now root.now S S' (tree.Step.Concat (pipes_of branches.now)) frame
        → steps.new + spec.owed_by result ≤ steps.old + length frame + step_cost context.now.world (readings context.now.customs) S (tree.Step.Concat (pipes_of branches.now)) frame }
    ensures grown { steps.old ≤ steps.new }
{
    branches_ready(context, root, branches, &frame);
    run_branches(alloc, context, root, branches.as_slice(), &frame, steps)
}

/// What each branch gives on the instances, one behind the other.
#[cycle(held)]
fn run_branches<R: Threads + Sync, G: Gate, L: Ledger>(
    alloc: Global,
    context: &Context<'_, R, G>,
    root: &Option<TypeId>,
    branches: &[Pipe],
    frame: &Frame,
    steps: &mut Steps<L>,
) -> Result<Held, RunRefused>
    requires ready { BranchesReady context.now root.now (map pipe_of branches.now) frame.now }
    requires named { (n : ℕ) (p : tree.Pipe) → slice_get (map pipe_of branches.now) n ≡ Some p → AreReady context.now (hierarchies p) }
    ensures mean { (S : Shape) → BranchesRun context.now root.now S (map pipe_of branches.now) frame.now
        → spec.GivesHeld result (joined (map (λ p. mean context.now.world (readings context.now.customs) S p frame.now) (map pipe_of branches.now))) }
    ensures steps { (S : Shape) → BranchesRun context.now root.now S (map pipe_of branches.now) frame.now
        → steps.new + spec.owed_by result ≤ steps.old + sum (map (λ p. application (cost context.now.world (readings context.now.customs) S p) (mean context.now.world (readings context.now.customs) S p) frame.now) (map pipe_of branches.now)) }
    ensures grown { steps.old ≤ steps.new }
{
    let mut all = Held::Frame(Frame::none(alloc));
    for (k, branch) in branches.iter().enumerate() {
        branch_ready(context, root, branches, k, branch, frame);
        let copy = Held::Frame(frame.copy(alloc)?);
        let made = held_after(alloc, context, root, branch, copy, steps)?;
        all = joined_held(alloc, all, made, steps)?;
    }
    Ok(all)
}

/// What a join gives on a frame: each instance beside each that its related ones become.
#[cycle(held)]
fn run_join<R: Threads + Sync, G: Gate, L: Ledger>(
    alloc: Global,
    context: &Context<'_, R, G>,
    root: &Option<TypeId>,
    join: &JoinStep,
    frame: Frame,
    steps: &mut Steps<L>,
) -> Result<Held, RunRefused>
    requires ready { StepReadyFrom context.now root.now (join_of join.now) frame }
    requires named { AreReady context.now (step_hierarchies (join_of join.now)) }
    ensures mean { (S S' : Shape) → StepRunsFrom context.now root.now S S' (join_of join.now) frame
        → spec.GivesHeld result (step_mean context.now.world (readings context.now.customs) S (join_of join.now) frame) }
    ensures steps { (S S' : Shape) → StepRunsFrom context.now root.now S S' (join_of join.now) frame
        → steps.new + spec.owed_by result ≤ steps.old + length frame + step_cost context.now.world (readings context.now.customs) S (join_of join.now) frame }
    ensures grown { steps.old ≤ steps.new }
{
    run_joined(
        alloc,
        context,
        root,
        join.outer,
        &join.nav,
        &join.alias,
        &join.inner,
        frame,
        steps,
    )
}

/// What a join of these parts gives on a frame.
#[cycle(held)]
fn run_joined<R: Threads + Sync, G: Gate, L: Ledger>(
    alloc: Global,
    context: &Context<'_, R, G>,
    root: &Option<TypeId>,
    outer: bool,
    nav: &Name,
    alias: &Name,
    inner: &Option<Pipe>,
    frame: Frame,
    steps: &mut Steps<L>,
) -> Result<Held, RunRefused>
    requires ready { StepReadyFrom context.now root.now (tree.Step.Join outer nav.now alias.now (inner_of (option_map pipe_of inner.now))) frame }
    requires named { AreReady context.now (inner_hierarchies (inner_of (option_map pipe_of inner.now))) }
    ensures mean { let s = tree.Step.Join outer nav.now alias.now (inner_of (option_map pipe_of inner.now)) in
        (S S' : Shape) → StepRunsFrom context.now root.now S S' s frame → spec.GivesHeld result (step_mean context.now.world (readings context.now.customs) S s frame) }
    ensures steps { let s = tree.Step.Join outer nav.now alias.now (inner_of (option_map pipe_of inner.now)) in
        (S S' : Shape) → StepRunsFrom context.now root.now S S' s frame → steps.new + spec.owed_by result ≤ steps.old + length frame + step_cost context.now.world (readings context.now.customs) S s frame }
    ensures grown { steps.old ≤ steps.new }
{
    let found = join_navigation(context, root, outer, nav, alias, inner, &frame);
    related_ready(context, root, outer, nav, alias, inner, &frame, found);
    let results = run_related(alloc, context, found, inner, &frame, steps)?;
    alias_ready(context, root, outer, nav, alias, inner, &frame);
    let set = target_set(context, found);
    Ok(joined_lists(alloc, outer, alias, set, frame, results, steps)?)
}

/// What the instances related to each instance become: what the inner pipeline gives, or themselves where there is none.
#[cycle(held)]
fn run_related<R: Threads + Sync, G: Gate, L: Ledger>(
    alloc: Global,
    context: &Context<'_, R, G>,
    nav: NavId,
    inner: &Option<Pipe>,
    frame: &Frame,
    steps: &mut Steps<L>,
) -> Result<Vec<Held>, RunRefused>
    requires there { IsNavigation context.now.world.model nav }
    requires many { (v : Navigation) → navigation_on context.now.world.model nav ≡ Some v → IsTrue v.many }
    requires roots { IsTrue (list_all (has_root_of context.now.world nav.of) frame.now) }
    requires ready { RelatedReady context.now nav (inner_of (option_map pipe_of inner.now)) frame.now }
    requires named { AreReady context.now (inner_hierarchies (inner_of (option_map pipe_of inner.now))) }
    ensures mean { (v : Navigation) (T' : Shape) → navigation_on context.now.world.model nav ≡ Some v
        → RelatedRun context.now v T' (inner_of (option_map pipe_of inner.now)) frame.now
        → spec.GivesLists result (map (λ i. inner_mean context.now.world (readings context.now.customs) (set_shape v.target) (λ r. Some r) (inner_of (option_map pipe_of inner.now)) (related_rows context.now.world v i)) frame.now) }
    ensures steps { (v : Navigation) (T' : Shape) → navigation_on context.now.world.model nav ≡ Some v
        → RelatedRun context.now v T' (inner_of (option_map pipe_of inner.now)) frame.now
        → steps.new + spec.lists_owed result ≤ steps.old + applications context.now.world (readings context.now.customs) (set_shape v.target) (inner_of (option_map pipe_of inner.now)) (map (related_rows context.now.world v) frame.now) }
    ensures grown { steps.old ≤ steps.new }
{
    let target = target_type(context, nav);
    let root = Some(target);
    let mut all = Vec::with_capacity(alloc, frame.len())?;
    for k in 0..frame.len() {
        let related = related_frame(alloc, context, nav, frame, k)?;
        inner_ready(context, nav, target, inner, frame, k, &related);
        all.push(run_inner(alloc, context, &root, inner, related, steps)?)?;
    }
    Ok(all)
}

/// What instances become: what the inner pipeline gives, or themselves where there is none.
#[cycle(held)]
fn run_inner<R: Threads + Sync, G: Gate, L: Ledger>(
    alloc: Global,
    context: &Context<'_, R, G>,
    root: &Option<TypeId>,
    inner: &Option<Pipe>,
    frame: Frame,
    steps: &mut Steps<L>,
) -> Result<Held, RunRefused>
    requires ready { InnerReady context.now root.now (inner_of (option_map pipe_of inner.now)) frame }
    requires named { AreReady context.now (inner_hierarchies (inner_of (option_map pipe_of inner.now))) }
    ensures mean { (S S' : Shape) → InnerRuns context.now root.now S S' (inner_of (option_map pipe_of inner.now)) frame
        → spec.GivesHeld result (inner_mean context.now.world (readings context.now.customs) S (λ r. Some r) (inner_of (option_map pipe_of inner.now)) frame) }
    ensures steps { (S S' : Shape) → InnerRuns context.now root.now S S' (inner_of (option_map pipe_of inner.now)) frame
        → steps.new + spec.owed_by result ≤ steps.old + length frame + inner_cost context.now.world (readings context.now.customs) S (inner_of (option_map pipe_of inner.now)) frame }
    ensures grown { steps.old ≤ steps.new }
{
    match inner {
        Some(pipe) => held_after(alloc, context, root, pipe, Held::Frame(frame), steps),
        None => Ok(Held::Frame(frame)),
    }
}

/// What a grouping gives on a frame: a frame where its inner pipeline only keeps some of the instances of each group, or puts them in
/// order, or where its groups are told by numbers, and else rows.
#[cycle(held)]
fn run_grouped<R: Threads + Sync, G: Gate, L: Ledger>(
    alloc: Global,
    context: &Context<'_, R, G>,
    root: &Option<TypeId>,
    step: &Step,
    frame: &Frame,
    steps: &mut Steps<L>,
) -> Result<Held, RunRefused>
    requires grouping { IsTrue (is_grouping (step_of step.now)) }
    requires ready { StepReadyFrom context.now root.now (step_of step.now) frame.now }
    requires named { AreReady context.now (step_hierarchies (step_of step.now)) }
    ensures mean { (S S' : Shape) → StepRunsFrom context.now root.now S S' (step_of step.now) frame.now
        → spec.GivesHeld result (step_mean context.now.world (readings context.now.customs) S (step_of step.now) frame.now) }
    ensures steps { (S S' : Shape) → StepRunsFrom context.now root.now S S' (step_of step.now) frame.now
        → steps.new + spec.owed_by result ≤ steps.old + step_cost context.now.world (readings context.now.customs) S (step_of step.now) frame.now }
    ensures grown { steps.old ≤ steps.new }
{
    match frame_of_groups(alloc, context, root, step, frame)? {
        Some(made) => held_groups(alloc, made, steps),
        None => {
            let list = RowList::of_frame(frame);
            as_held(run_by_groups(alloc, context, root, step, &list, steps))
        }
    }
}

/// What a grouping gives on a list. An inner pipeline that begins with an aggregation takes values at the places of each group, and any
/// other is run on a frame of the group.
#[cycle(held)]
fn run_by_groups<R: Threads + Sync, G: Gate, L: Ledger>(
    alloc: Global,
    context: &Context<'_, R, G>,
    root: &Option<TypeId>,
    step: &Step,
    rows: &RowList<'_>,
    steps: &mut Steps<L>,
) -> Result<Vec<Row>, RunRefused>
    requires grouping { IsTrue (is_grouping (step_of step.now)) }
    requires ready { StepReadyFrom context.now root.now (step_of step.now) rows.now }
    requires named { AreReady context.now (step_hierarchies (step_of step.now)) }
    ensures mean { (S S' : Shape) → StepRunsFrom context.now root.now S S' (step_of step.now) rows.now
        → Gives result (step_mean context.now.world (readings context.now.customs) S (step_of step.now) rows.now) }
    ensures steps { (S S' : Shape) → StepRunsFrom context.now root.now S S' (step_of step.now) rows.now
        → steps.new ≤ steps.old + step_cost context.now.world (readings context.now.customs) S (step_of step.now) rows.now }
    ensures grown { steps.old ≤ steps.new }
{
    match step {
        Step::GroupBy(keys, inner) => match inner {
            Some(pipe) => {
                if begins_with_values(pipe) {
                    return run_grouping(alloc, context, root, step, rows, steps);
                }
                run_by_levels(alloc, context, root, pipe, keys, rows, steps)
            }
            None => run_grouping(alloc, context, root, step, rows, steps),
        },
        _ => run_grouping(alloc, context, root, step, rows, steps),
    }
}

/// What a grouping by these keys gives on a list, whose inner pipeline is run on a frame of each group.
#[cycle(held)]
fn run_by_levels<R: Threads + Sync, G: Gate, L: Ledger>(
    alloc: Global,
    context: &Context<'_, R, G>,
    root: &Option<TypeId>,
    pipe: &Pipe,
    keys: &KeyList,
    rows: &RowList<'_>,
    steps: &mut Steps<L>,
) -> Result<Vec<Row>, RunRefused>
    requires ready { StepReadyFrom context.now root.now (tree.Step.GroupBy (keys_of keys.now) (tree.OptPipe.SomePipe (pipe_of pipe.now))) rows.now }
    requires named { AreReady context.now (step_hierarchies (tree.Step.GroupBy (keys_of keys.now) (tree.OptPipe.SomePipe (pipe_of pipe.now)))) }
    ensures mean { let s = tree.Step.GroupBy (keys_of keys.now) (tree.OptPipe.SomePipe (pipe_of pipe.now)) in
        (S S' : Shape) → StepRunsFrom context.now root.now S S' s rows.now → Gives result (step_mean context.now.world (readings context.now.customs) S s rows.now) }
    ensures steps { let s = tree.Step.GroupBy (keys_of keys.now) (tree.OptPipe.SomePipe (pipe_of pipe.now)) in
        (S S' : Shape) → StepRunsFrom context.now root.now S S' s rows.now → steps.new ≤ steps.old + step_cost context.now.world (readings context.now.customs) S s rows.now }
    ensures grown { steps.old ≤ steps.new }
{
    data_is_loaded(context.store());
    let paths = all_paths(alloc, keys)?;
    let paths = paths.as_slice();
    let levels = grouping_levels(alloc, context, keys, paths, rows, steps)?;
    run_levels(alloc, context, root, pipe, levels.as_slice(), rows, steps)
}

/// What the pipeline makes of each group of each level, each result with the group's key columns.
#[cycle(held)]
fn run_levels<R: Threads + Sync, G: Gate, L: Ledger>(
    alloc: Global,
    context: &Context<'_, R, G>,
    root: &Option<TypeId>,
    pipe: &Pipe,
    levels: &[Level<'_>],
    rows: &RowList<'_>,
    steps: &mut Steps<L>,
) -> Result<Vec<Row>, RunRefused>
    requires ready { LevelsReady context.now root.now levels.now (pipe_of pipe.now) rows.now }
    requires named { AreReady context.now (hierarchies (pipe_of pipe.now)) }
    ensures mean { (S G' : Shape) → LevelsRun context.now root.now S G' levels.now (pipe_of pipe.now) rows.now
        → Gives result (joined (map (level_made (mean context.now.world (readings context.now.customs) S (pipe_of pipe.now)) rows.now) levels.now)) }
    ensures steps { (S G' : Shape) → LevelsRun context.now root.now S G' levels.now (pipe_of pipe.now) rows.now
        → steps.new ≤ steps.old + sum (map (application (cost context.now.world (readings context.now.customs) S (pipe_of pipe.now)) (mean context.now.world (readings context.now.customs) S (pipe_of pipe.now))) (flat_map (level_lists rows.now) levels.now)) }
    ensures grown { steps.old ≤ steps.new }
{
    let mut all = Vec::new(alloc);
    for level in levels {
        let mut made = run_groups(alloc, context, root, pipe, level, rows, steps)?;
        all.append(&mut made)?;
    }
    Ok(all)
}

/// What the pipeline makes of each group of a level, each result with the group's key columns.
#[cycle(held)]
fn run_groups<R: Threads + Sync, G: Gate, L: Ledger>(
    alloc: Global,
    context: &Context<'_, R, G>,
    root: &Option<TypeId>,
    pipe: &Pipe,
    level: &Level<'_>,
    rows: &RowList<'_>,
    steps: &mut Steps<L>,
) -> Result<Vec<Row>, RunRefused>
    requires ready { GroupReady context.now root.now level.now (pipe_of pipe.now) rows.now }
    requires named { AreReady context.now (hierarchies (pipe_of pipe.now)) }
    ensures mean { (S G' : Shape) → GroupRuns context.now root.now S G' level.now (pipe_of pipe.now) rows.now
        → Gives result (level_made (mean context.now.world (readings context.now.customs) S (pipe_of pipe.now)) rows.now level.now) }
    ensures steps { (S G' : Shape) → GroupRuns context.now root.now S G' level.now (pipe_of pipe.now) rows.now
        → steps.new ≤ steps.old + sum (map (application (cost context.now.world (readings context.now.customs) S (pipe_of pipe.now)) (mean context.now.world (readings context.now.customs) S (pipe_of pipe.now))) (level_lists rows.now level.now)) }
    ensures grown { steps.old ≤ steps.new }
{
    let mut all = Vec::new(alloc);
    for k in 0..level.len() {
        let mut made = run_group(alloc, context, root, pipe, level, k, rows, steps)?;
        all.append(&mut made)?;
    }
    Ok(all)
}

/// What the pipeline makes of group k of a level, each result with the group's key columns.
#[cycle(held)]
fn run_group<R: Threads + Sync, G: Gate, L: Ledger>(
    alloc: Global,
    context: &Context<'_, R, G>,
    root: &Option<TypeId>,
    pipe: &Pipe,
    level: &Level<'_>,
    k: usize,
    rows: &RowList<'_>,
    steps: &mut Steps<L>,
) -> Result<Vec<Row>, RunRefused>
    requires within { k < length level.now.1 }
    requires ready { GroupReady context.now root.now level.now (pipe_of pipe.now) rows.now }
    requires named { AreReady context.now (hierarchies (pipe_of pipe.now)) }
    ensures mean { (S G' : Shape) (g : List Value' × List ℕ) → GroupRuns context.now root.now S G' level.now (pipe_of pipe.now) rows.now
        → slice_get level.now.1 k ≡ Some g
        → Gives result (group_made level.now.0 (mean context.now.world (readings context.now.customs) S (pipe_of pipe.now)) rows.now g) }
    ensures steps { (S G' : Shape) (g : List Value' × List ℕ) → GroupRuns context.now root.now S G' level.now (pipe_of pipe.now) rows.now
        → slice_get level.now.1 k ≡ Some g
        → steps.new ≤ steps.old + charge_of context.now S (pipe_of pipe.now) rows.now g }
    ensures grown { steps.old ≤ steps.new }
{
    let places = level.places(k);
    let inner = context.alone();
    let group = group_of(alloc, rows, places, steps)?;
    let made = held_after(alloc, &inner, root, pipe, group, steps)?;
    let results = made_rows(alloc, made, steps)?;
    let key = level.key(alloc, k)?;
    Ok(with_keys(alloc, level.paths(), key.as_slice(), results, steps)?)
}

/// What one transformation gives on a frame.
#[cycle(held)]
fn run_frame<R: Threads + Sync, G: Gate, L: Ledger>(
    alloc: Global,
    context: &Context<'_, R, G>,
    root: &Option<TypeId>,
    step: &Step,
    frame: Frame,
    steps: &mut Steps<L>,
) -> Result<Held, RunRefused>
    requires ready { StepReadyFrom context.now root.now (step_of step.now) frame }
    requires named { AreReady context.now (step_hierarchies (step_of step.now)) }
    ensures mean { (S S' : Shape) → StepRunsFrom context.now root.now S S' (step_of step.now) frame
        → spec.GivesHeld result (step_mean context.now.world (readings context.now.customs) S (step_of step.now) frame) }
    ensures steps { (S S' : Shape) → StepRunsFrom context.now root.now S S' (step_of step.now) frame
        → steps.new + spec.owed_by result ≤ steps.old + length frame + step_cost context.now.world (readings context.now.customs) S (step_of step.now) frame }
    ensures grown { steps.old ≤ steps.new }
{
    match step {
        Step::Climb(climb) => run_climb(alloc, context, root, climb, frame, steps),
        Step::Concat(branches) => run_concat(alloc, context, root, branches, frame, steps),
        Step::Join(join) => run_join(alloc, context, root, join, frame, steps),
        Step::GroupBy(..) => run_grouped(alloc, context, root, step, &frame, steps),
        _ => run_on_frame(alloc, context, root, step, frame, steps),
    }
}

/// What one transformation gives on a set of which no list is made yet: it is made where neither the set nor a key is enough.
#[cycle(held)]
fn run_set<R: Threads + Sync, G: Gate, L: Ledger>(
    alloc: Global,
    context: &Context<'_, R, G>,
    root: &Option<TypeId>,
    step: &Step,
    set: SetId,
    n: u32,
    steps: &mut Steps<L>,
) -> Result<Held, RunRefused>
    requires ready { StepReadyFrom context.now root.now (step_of step.now) (spec.first_of set n) }
    requires named { AreReady context.now (step_hierarchies (step_of step.now)) }
    ensures mean { (S S' : Shape) → StepRunsFrom context.now root.now S S' (step_of step.now) (spec.first_of set n)
        → spec.GivesHeld result (step_mean context.now.world (readings context.now.customs) S (step_of step.now) (spec.first_of set n)) }
    ensures steps { (S S' : Shape) → StepRunsFrom context.now root.now S S' (step_of step.now) (spec.first_of set n)
        → steps.new + spec.owed_by result ≤ steps.old + n + step_cost context.now.world (readings context.now.customs) S (step_of step.now) (spec.first_of set n) }
    ensures grown { steps.old ≤ steps.new }
{
    match step {
        Step::Filter(e) => as_frame(set_filtered(alloc, context, e, set, n)),
        Step::Climb(climb) => run_set_climb(alloc, context, root, climb, set, n, steps),
        _ => {
            let frame = Frame::of_first(alloc, set, n)?;
            run_frame(alloc, context, root, step, frame, steps)
        }
    }
}

/// What one transformation gives.
#[cycle(held)]
fn run_on_held<R: Threads + Sync, G: Gate, L: Ledger>(
    alloc: Global,
    context: &Context<'_, R, G>,
    root: &Option<TypeId>,
    step: &Step,
    held: Held,
    steps: &mut Steps<L>,
) -> Result<Held, RunRefused>
    requires ready { StepReadyFrom context.now root.now (step_of step.now) (spec.rows_of held) }
    requires named { AreReady context.now (step_hierarchies (step_of step.now)) }
    ensures mean { (S S' : Shape) → StepRunsFrom context.now root.now S S' (step_of step.now) (spec.rows_of held)
        → spec.GivesHeld result (step_mean context.now.world (readings context.now.customs) S (step_of step.now) (spec.rows_of held)) }
    ensures steps { (S S' : Shape) → StepRunsFrom context.now root.now S S' (step_of step.now) (spec.rows_of held)
        → steps.new + spec.owed_by result ≤ steps.old + spec.owed held + step_cost context.now.world (readings context.now.customs) S (step_of step.now) (spec.rows_of held) }
    ensures grown { steps.old ≤ steps.new }
{
    match held {
        Held::Set(set, n) => run_set(alloc, context, root, step, set, n, steps),
        Held::Frame(frame) => run_frame(alloc, context, root, step, frame, steps),
        Held::Rows(rows) => as_held(run_step(alloc, context, root, step, rows, steps)),
    }
}

/// What the pipeline comes to. Rows are made where a transformation wants them.
#[cycle(held)]
pub fn held_after<R: Threads + Sync, G: Gate, L: Ledger>(
    alloc: Global,
    context: &Context<'_, R, G>,
    root: &Option<TypeId>,
    pipe: &Pipe,
    held: Held,
    steps: &mut Steps<L>,
) -> Result<Held, RunRefused>
    requires ready { ReadyFrom context.now root.now (pipe_of pipe.now) (spec.rows_of held) }
    requires named { AreReady context.now (hierarchies (pipe_of pipe.now)) }
    ensures mean { (S S' : Shape) → RunsFrom context.now root.now S S' (pipe_of pipe.now) (spec.rows_of held)
        → spec.GivesHeld result (mean context.now.world (readings context.now.customs) S (pipe_of pipe.now) (spec.rows_of held)) }
    ensures steps { (S S' : Shape) → RunsFrom context.now root.now S S' (pipe_of pipe.now) (spec.rows_of held)
        → steps.new + spec.owed_by result ≤ steps.old + spec.owed held + cost context.now.world (readings context.now.customs) S (pipe_of pipe.now) (spec.rows_of held) }
    ensures grown { steps.old ≤ steps.new }
{
    data_is_loaded(context.store());
    let mut held = held;
    let mut root = *root;
    let all = pipe.steps();
    for (i, step) in all.iter().enumerate() {
        held_ready(context, &root, all, i, step, &held);
        held = run_on_held(alloc, context, &root, step, held, steps)?;
        root = root_after(step, root);
    }
    Ok(held)
}
