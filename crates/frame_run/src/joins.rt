//! Joins on frames: what they take, and the instances beside what belongs to them.
ghost use Rattle.std.specs.Prelude.{◌≡◌, ◌+◌, ◌≤◌, ◌<◌, true, false, IfOk, IfSome, IsTrue, Some, get_or, length, map, option_map, sum};
ghost use Rattle.std.specs.List.{list_all};
ghost use Rattle.edm_model.specs.LookUps.{IsNavigation, navigation_on};
ghost use Rattle.edm_model.specs.Models.{Navigation};
ghost use Rattle.apply_ast.specs.Trees as tree;
ghost use Rattle.apply_ast.specs.Views.{inner_of, pipe_of};
ghost use Rattle.context_typing.specs.Shapes.{Shape};
ghost use Rattle.context_typing.specs.Typing as typing;
ghost use Rattle.context_typing.specs.Typing.{root_type};
ghost use Rattle.apply_meaning.specs.Instances.{no_instance};
ghost use Rattle.apply_meaning.specs.Meaning as meaning;
ghost use Rattle.join_concat.specs.Joins.{bound_rows, has_root_of, is_free_of};
ghost use Rattle.row_frames.specs.Related.{placed};
ghost use Rattle.pipe_run.specs.SeveralRuns.{RelatedReady};
ghost use Rattle.step_run.specs.Conditions.{InnerReady, StepReadyFrom};
ghost use Rattle.frame_run.specs.HeldRows.{owed, owed_by, rows_of};

use crate::held::{Held, made_rows};
use apply_ast::{Name, Pipe};
use apply_meaning::{Row, Steps, data_is_loaded};
use edm_model::{NavId, SetId, TypeId};
use join_concat::{join, outerjoin};
use par_stages::Gate;
use row_frames::Frame;
use std::alloc::{AllocError, Global};
use std::sync::ledger::Ledger;
use std::thread::Threads;
use step_run::Context;

/// The navigation property that a join takes, which is one of the type at the empty prefix.
pub(crate) fn join_navigation<R: Threads + Sync, G: Gate>(
    context: &Context<'_, R, G>,
    root: &Option<TypeId>,
    outer: bool,
    nav: &Name,
    alias: &Name,
    inner: &Option<Pipe>,
    frame: &Frame,
) -> NavId
    requires { StepReadyFrom context.now root.now (tree.Step.Join outer nav.now alias.now (inner_of (option_map pipe_of inner.now))) frame.now }
    ensures there { IsNavigation context.now.world.model result }
    ensures value { (S : Shape) → root_type S ≡ root.now → typing.join_navigation context.now.world.model S nav.now ≡ navigation_on context.now.world.model result }
    ensures of { IsTrue (list_all (has_root_of context.now.world result.of) frame.now) }
{
    let model = context.store().model();
    data_is_loaded(context.store());
    let Some(of) = root else { unreachable!() };
    let Some(found) = model.nav_named(*of, nav.text()) else {
        unreachable!()
    };
    found
}

/// The inner pipeline of a join may be run on the instances related to each instance.
pub(crate) fn related_ready<R: Threads + Sync, G: Gate>(
    context: &Context<'_, R, G>,
    root: &Option<TypeId>,
    outer: bool,
    nav: &Name,
    alias: &Name,
    inner: &Option<Pipe>,
    frame: &Frame,
    found: NavId,
)
    requires ready { StepReadyFrom context.now root.now (tree.Step.Join outer nav.now alias.now (inner_of (option_map pipe_of inner.now))) frame.now }
    requires value { (S : Shape) → root_type S ≡ root.now → typing.join_navigation context.now.world.model S nav.now ≡ navigation_on context.now.world.model found }
    ensures { RelatedReady context.now found (inner_of (option_map pipe_of inner.now)) frame.now }
{
    data_is_loaded(context.store());
}

/// The inner pipeline of a join may be run on the instances related to the next one.
pub(crate) fn inner_ready<R: Threads + Sync, G: Gate>(
    context: &Context<'_, R, G>,
    nav: NavId,
    target: TypeId,
    inner: &Option<Pipe>,
    frame: &Frame,
    k: usize,
    related: &Frame,
)
    requires within { k < length frame.now }
    requires ready { RelatedReady context.now nav (inner_of (option_map pipe_of inner.now)) frame.now }
    requires target { option_map (λ v. v.target) (navigation_on context.now.world.model nav) ≡ Some target }
    requires related { (v : Navigation) → navigation_on context.now.world.model nav ≡ Some v → related.now ≡ meaning.related_rows context.now.world v (get_or frame.now k no_instance) }
    ensures { InnerReady context.now (Some target) (inner_of (option_map pipe_of inner.now)) related.now }
{}

/// The alias of a join begins no prefix and no column of an instance.
pub(crate) fn alias_ready<R: Threads + Sync, G: Gate>(
    context: &Context<'_, R, G>,
    root: &Option<TypeId>,
    outer: bool,
    nav: &Name,
    alias: &Name,
    inner: &Option<Pipe>,
    frame: &Frame,
)
    requires { StepReadyFrom context.now root.now (tree.Step.Join outer nav.now alias.now (inner_of (option_map pipe_of inner.now))) frame.now }
    ensures { IsTrue (list_all (is_free_of alias.now) frame.now) }
{
    data_is_loaded(context.store());
}

/// The set that a navigation property leads to.
pub(crate) fn target_set<R: Threads + Sync, G: Gate>(
    context: &Context<'_, R, G>,
    nav: NavId,
) -> SetId
    requires { IsNavigation context.now.world.model nav }
{
    let model = context.store().model();
    model.type_set(model.nav_target(nav))
}

/// The type that a navigation property leads to.
pub(crate) fn target_type<R: Threads + Sync, G: Gate>(
    context: &Context<'_, R, G>,
    nav: NavId,
) -> TypeId
    requires { IsNavigation context.now.world.model nav }
    ensures { option_map (λ v. v.target) (navigation_on context.now.world.model nav) ≡ Some result }
{
    context.store().model().nav_target(nav)
}

/// The instances related to instance k, counted from 0. No row is made.
pub(crate) fn related_frame<R: Threads + Sync, G: Gate>(
    alloc: Global,
    context: &Context<'_, R, G>,
    nav: NavId,
    frame: &Frame,
    k: usize,
) -> Result<Frame, AllocError>
    requires there { IsNavigation context.now.world.model nav }
    requires many { (v : Navigation) → navigation_on context.now.world.model nav ≡ Some v → IsTrue v.many }
    requires roots { IsTrue (list_all (has_root_of context.now.world nav.of) frame.now) }
    requires within { k < length frame.now }
    ensures { (v : Navigation) → navigation_on context.now.world.model nav ≡ Some v → IfOk result (λ f. f ≡ meaning.related_rows context.now.world v (get_or frame.now k no_instance)) }
{
    Frame::of_related(alloc, context.store(), nav, frame.root(k))
}

/// The places in the set of what a list holds, where it holds entities of the set alone.
fn held_places(alloc: Global, set: SetId, held: &Held) -> Result<Option<Vec<u32>>, AllocError>
    ensures { IfOk result (λ o. IfSome o (λ ks. map (placed set) ks.items ≡ rows_of held.now)) }
{
    match held {
        Held::Frame(frame) => frame.places_in(alloc, set),
        Held::Set(..) | Held::Rows(_) => Ok(None),
    }
}

/// The places in the set of what each list holds, where each holds entities of the set alone.
fn all_places(
    alloc: Global,
    set: SetId,
    results: &[Held],
) -> Result<Option<Vec<Vec<u32>>>, AllocError>
    ensures { IfOk result (λ o. IfSome o (λ ls. map (λ l. map (placed set) l.items) ls.items ≡ map rows_of results.now)) }
{
    let mut all = Vec::with_capacity(alloc, results.len())?;
    for held in results {
        let Some(places) = held_places(alloc, set, held)? else {
            return Ok(None);
        };
        all.push(places)?;
    }
    Ok(Some(all))
}

/// The rows of each list: one step for each that is not made yet.
fn all_rows<L: Ledger>(
    alloc: Global,
    results: Vec<Held>,
    steps: &mut Steps<L>,
) -> Result<Vec<Vec<Row>>, AllocError>
    ensures rows { IfOk result (λ made. map (λ l. l.items) made.items ≡ map rows_of results.items) }
    ensures steps { steps.new ≤ steps.old + sum (map owed results.items) }
    ensures grown { steps.old ≤ steps.new }
{
    let mut all = Vec::with_capacity(alloc, results.len())?;
    for held in results {
        all.push(made_rows(alloc, held, steps)?)?;
    }
    Ok(all)
}

/// Each row beside each row of its list.
fn rows_beside<L: Ledger>(
    alloc: Global,
    outer: bool,
    alias: &Name,
    rows: &[Row],
    lists: &[Vec<Row>],
    steps: &mut Steps<L>,
) -> Result<Vec<Row>, AllocError>
    requires lists { length lists.now ≡ length rows.now }
    requires free { IsTrue (list_all (is_free_of alias.now) rows.now) }
    ensures rows { IfOk result (λ made. made.items ≡ bound_rows outer alias.now rows.now (map (λ l. l.items) lists.now)) }
    ensures steps { steps.new ≤ steps.old + length (bound_rows outer alias.now rows.now (map (λ l. l.items) lists.now)) }
    ensures grown { steps.old ≤ steps.new }
{
    if outer {
        outerjoin(alloc, rows, lists, alias, steps)
    } else {
        join(alloc, rows, lists, alias, steps)
    }
}

/// Each instance as a row beside each row of its list.
fn joined_rows<L: Ledger>(
    alloc: Global,
    outer: bool,
    alias: &Name,
    frame: Frame,
    results: Vec<Held>,
    steps: &mut Steps<L>,
) -> Result<Vec<Row>, AllocError>
    requires lists { length results.items ≡ length frame }
    requires free { IsTrue (list_all (is_free_of alias.now) frame) }
    ensures rows { IfOk result (λ made. made.items ≡ bound_rows outer alias.now frame (map rows_of results.items)) }
    ensures steps { steps.new ≤ steps.old + length frame + sum (map owed results.items) + length (bound_rows outer alias.now frame (map rows_of results.items)) }
    ensures grown { steps.old ≤ steps.new }
{
    let rows = frame.into_rows(alloc, steps)?;
    let lists = all_rows(alloc, results, steps)?;
    rows_beside(
        alloc,
        outer,
        alias,
        rows.as_slice(),
        lists.as_slice(),
        steps,
    )
}

/// Each instance beside each that its list holds. No row is made where all lists hold entities of the set alone.
pub(crate) fn joined_lists<L: Ledger>(
    alloc: Global,
    outer: bool,
    alias: &Name,
    set: SetId,
    frame: Frame,
    results: Vec<Held>,
    steps: &mut Steps<L>,
) -> Result<Held, AllocError>
    requires lists { length results.items ≡ length frame }
    requires free { IsTrue (list_all (is_free_of alias.now) frame) }
    ensures rows { IfOk result (λ h. rows_of h ≡ bound_rows outer alias.now frame (map rows_of results.items)) }
    ensures steps { steps.new + owed_by result ≤ steps.old + length frame + sum (map owed results.items) + length (bound_rows outer alias.now frame (map rows_of results.items)) }
    ensures grown { steps.old ≤ steps.new }
{
    match all_places(alloc, set, results.as_slice())? {
        Some(places) => {
            let made = frame.join(alloc, outer, alias, set, places.as_slice())?;
            Ok(Held::Frame(made))
        }
        None => {
            let made = joined_rows(alloc, outer, alias, frame, results, steps)?;
            Ok(Held::Rows(made))
        }
    }
}
