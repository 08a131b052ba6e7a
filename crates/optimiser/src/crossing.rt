//! Filters behind a concatenation that would go into all of its branches, to the front of each, and out of all: they are put before it.
ghost use Rattle.std.specs.Prelude.{◌≡◌, ◌≤◌, ◌<◌, ◌+◌, true, drop, get_or, IfOk, IfSome, IsTrue, is_some, length, map, take};
ghost use Rattle.std.specs.List.{list_all};
ghost use Rattle.edm_model.specs.LookUps.{IsSet};
ghost use Rattle.edm_model.specs.Models as seen;
ghost use Rattle.edm_model.specs.Soundness.{IsSound};
ghost use Rattle.apply_ast.specs.Trees as tree;
ghost use Rattle.apply_ast.specs.Views.{expr_of, pipe_of, pipes_in, pipes_of, step_of};
ghost use Rattle.context_typing.specs.Answers.{IsTyping};
ghost use Rattle.context_typing.specs.Readings.{AreTypedOver, readings};
ghost use Rattle.context_typing.specs.Shapes as shapes;
ghost use Rattle.context_typing.specs.ShapeTypes.{has_types};
ghost use Rattle.context_typing.specs.Typing.{customs_typed};
ghost use Rattle.context_typing.specs.Typing as typing;
ghost use Rattle.optimiser.specs.CrossingForms as form;
ghost use Rattle.optimiser.specs.HeldSegments as held;
ghost use Rattle.optimiser.specs.Plans.{HasPlanOf};
ghost use Rattle.optimiser.specs.WalkForms.{branches_typed};
ghost use Rattle.walk_laws.specs.Crossing as spec;
ghost use Rattle.walk_laws.specs.FiltersOut as other;
ghost use Rattle.walk_laws.specs.Walks.{shape_behind};

use crate::anywhere::{gives_alone, gives_anywhere};
use crate::ends::pipe_or_identity;
use crate::factoring::behind;
use crate::heads::{passage_of, step_lets};
use crate::held::{Passage, passes_as};
use crate::inside::{branch_is_typed, branches_are_typed, next_is_typed};
use crate::known::shape_past;
use crate::resting::is_one;
use crate::rules::Rules;
use apply_ast::{Expr, Pipe, PipeList, Step};
use context_typing::{Customs, Shape, Typed, is_sure, is_test, set_shape};
use edm_model::Model;
use rewrite_forms::{begins_with_filter, is_identity, put_copies};
use std::alloc::{AllocError, Global};
use walk_laws::crossing_keeps_plan;

/// Which filters pass the steps of a branch, and the shape at its end.
#[derive(Drop)]
pub(crate) struct Way<'a> {
    passages: Vec<Passage<'a>>,
    end: Shape,
}

/// Whether an expression is a filter on a shape, and sure there.
fn is_sure_test(m: &Model, shape: &Shape, e: &Expr) -> bool
    requires { IsTrue (has_types m.now shape.now) }
    ensures { result ≡ spec.is_sure_test m.now shape.now (expr_of e.now) }
{
    is_test(m, shape, e) && is_sure(m, shape, e)
}

/// Which sure filters pass a step of a branch; nothing where none does.
fn passage_by<'a>(
    alloc: Global,
    m: &Model,
    c: &Customs,
    shape: &Shape,
    step: &'a Step,
) -> Result<Option<Passage<'a>>, AllocError>
    requires types { IsTrue (has_types m.now shape.now) }
    requires customs { AreTypedOver m.now c.now }
    requires sound { IsSound m.now }
    requires typed { IsTrue (is_some (typing.step_shape m.now (readings c.now) shape.now (step_of step.now))) }
    ensures { (e : tree.Expr) → IfOk result (λ o. IfSome o (λ p. IsTrue (held.passes p (spec.sure_test e)) → IsTrue (spec.step_crossed m.now (readings c.now) shape.now (step_of step.now) e))) }
{
    if is_identity(step) {
        return Ok(Some(Passage::Free));
    }
    let lets = step_lets(alloc, m, c, shape, step)?;
    if !lets {
        return Ok(None);
    }
    Ok(Some(passage_of(alloc, Rules::All, step)?))
}

/// Which sure filters pass all steps of a branch; nothing where none does.
fn way_of<'a>(
    alloc: Global,
    m: &Model,
    c: &Customs,
    branch: &'a Pipe,
    start: &Shape,
) -> Result<Option<Way<'a>>, AllocError>
    requires types { IsTrue (has_types m.now start.now) }
    requires customs { AreTypedOver m.now c.now }
    requires sound { IsSound m.now }
    requires typed { IsTrue (is_some (typing.steps_shape m.now (readings c.now) start.now (pipe_of branch.now))) }
    ensures value { (e : tree.Expr) → IfOk result (λ o. IfSome o (λ w. IsTrue (form.goes m.now e w) → IsTrue (spec.branch_crossed m.now (readings c.now) start.now (pipe_of branch.now) e))) }
    ensures types { IfOk result (λ o. IfSome o (λ w. IsTrue (has_types m.now w.end))) }
{
    let mut passages = Vec::new(alloc);
    let mut shape = start.copy(alloc)?;
    let steps = branch.steps();
    for (i, step) in steps.iter().enumerate() {
        next_is_typed(m, c, steps, i, step, &shape);
        match passage_by(alloc, m, c, &shape, step)? {
            Some(passage) => passages.push(passage)?,
            None => return Ok(None),
        }
        let next = shape_past(alloc, m, c, shape, step)?;
        shape = next;
    }
    Ok(Some(Way {
        passages,
        end: shape,
    }))
}

/// Which pass all steps of each branch; nothing where none does.
fn ways_of<'a>(
    alloc: Global,
    m: &Model,
    c: &Customs,
    branches: &'a PipeList,
    shape: &Shape,
) -> Result<Option<Vec<Way<'a>>>, AllocError>
    requires types { IsTrue (has_types m.now shape.now) }
    requires customs { AreTypedOver m.now c.now }
    requires sound { IsSound m.now }
    requires typed { IsTrue (branches_typed m.now (readings c.now) shape.now (map pipe_of (pipes_in branches.now))) }
    ensures value { (e : tree.Expr) → IfOk result (λ o. IfSome o (λ v. IsTrue (list_all (form.goes m.now e) v.items) → IsTrue (list_all (λ p. spec.branch_crossed m.now (readings c.now) shape.now p e) (map pipe_of (pipes_in branches.now))))) }
    ensures types { IfOk result (λ o. IfSome o (λ v. IsTrue (form.ways_typed m.now v.items))) }
{
    let mut ways = Vec::new(alloc);
    let all = branches.as_slice();
    for (i, branch) in all.iter().enumerate() {
        branch_is_typed(m, c, shape, branches, all, i, branch);
        match way_of(alloc, m, c, branch, shape)? {
            Some(way) => ways.push(way)?,
            None => return Ok(None),
        }
    }
    Ok(Some(ways))
}

/// Whether all these passages let a sure filter pass.
fn pass_all(passages: &[Passage], e: &Expr) -> bool
    ensures { result ≡ list_all (λ p. held.passes p (spec.sure_test (expr_of e.now))) passages.now }
{
    passages.iter().all(|passage| passes_as(passage, e, true))
}

/// Whether a filter passes all steps of a branch.
fn goes(m: &Model, way: &Way, e: &Expr) -> bool
    requires { IsTrue (has_types m.now way.now.end) }
    ensures { result ≡ form.goes m.now (expr_of e.now) way.now }
{
    pass_all(way.passages.as_slice(), e) && is_sure_test(m, &way.end, e)
}

/// Whether a filter passes all steps of each branch.
fn all_go(m: &Model, ways: &[Way], e: &Expr) -> bool
    requires { IsTrue (form.ways_typed m.now ways.now) }
    ensures { result ≡ list_all (form.goes m.now (expr_of e.now)) ways.now }
{
    for way in ways {
        if !goes(m, way, e) {
            return false;
        }
    }
    true
}

/// Whether a step is a filter that crosses a concatenation.
fn crosses(m: &Model, shape: &Shape, ways: &[Way], step: &Step) -> bool
    requires types { IsTrue (has_types m.now shape.now) }
    requires ways { IsTrue (form.ways_typed m.now ways.now) }
    ensures { result ≡ form.crosses_by m.now shape.now ways.now (step_of step.now) }
{
    match step {
        Step::Filter(e) => is_one(e) && is_sure_test(m, shape, e) && all_go(m, ways, e),
        _ => false,
    }
}

/// How many of the first steps do.
fn count_crossing(m: &Model, shape: &Shape, ways: &[Way], steps: &[Step]) -> usize
    requires types { IsTrue (has_types m.now shape.now) }
    requires ways { IsTrue (form.ways_typed m.now ways.now) }
    ensures within { result ≤ length steps.now }
    ensures value { IsTrue (list_all (form.crosses_by m.now shape.now ways.now) (map step_of (take result steps.now))) }
{
    for (at, step) in steps.iter().enumerate() {
        if !crosses(m, shape, ways, step) {
            return at;
        }
    }
    steps.len()
}

/// How many of the steps behind a concatenation are filters that cross it.
fn crossing_branches(
    alloc: Global,
    m: &Model,
    c: &Customs,
    shape: &Shape,
    step: &Step,
    branches: &PipeList,
    behind: &[Step],
) -> Result<usize, AllocError>
    requires types { IsTrue (has_types m.now shape.now) }
    requires customs { AreTypedOver m.now c.now }
    requires sound { IsSound m.now }
    requires concat { step_of step.now ≡ tree.Step.Concat (pipes_of branches.now) }
    requires typed { IsTrue (is_some (typing.step_shape m.now (readings c.now) shape.now (step_of step.now))) }
    requires gives { IsTrue (other.gives_alone true (step_of step.now)) }
    ensures within { IfOk result (λ n. n ≤ length behind.now) }
    ensures value { IfOk result (λ n. 0 < n → IsTrue (spec.all_cross m.now (readings c.now) shape.now (step_of step.now) (map step_of (take n behind.now)))) }
{
    branches_are_typed(m, c, shape, step, branches);
    match ways_of(alloc, m, c, branches, shape)? {
        Some(ways) => Ok(count_crossing(m, shape, ways.as_slice(), behind)),
        None => Ok(0),
    }
}

/// How many of the steps behind a step are filters that cross it.
fn crossing_step(
    alloc: Global,
    m: &Model,
    c: &Customs,
    shape: &Shape,
    step: &Step,
    behind: &[Step],
) -> Result<usize, AllocError>
    requires types { IsTrue (has_types m.now shape.now) }
    requires customs { AreTypedOver m.now c.now }
    requires sound { IsSound m.now }
    requires typed { IsTrue (is_some (typing.step_shape m.now (readings c.now) shape.now (step_of step.now))) }
    ensures within { IfOk result (λ n. n ≤ length behind.now) }
    ensures value { IfOk result (λ n. 0 < n → IsTrue (spec.all_cross m.now (readings c.now) shape.now (step_of step.now) (map step_of (take n behind.now)))) }
{
    if !begins_with_filter(behind) || !gives_alone(step) {
        return Ok(0);
    }
    match step {
        Step::Concat(branches) => crossing_branches(alloc, m, c, shape, step, branches, behind),
        _ => Ok(0),
    }
}

/// Filters that cross a concatenation, and what stands before and behind both.
#[derive(Drop)]
pub(crate) struct Crossing<'a> {
    before: &'a [Step],
    concat: &'a Step,
    filters: &'a [Step],
    behind: &'a [Step],
}

/// The first of the steps behind the one at a place, as many as these, and what stands around them.
fn crossing_at<'a>(steps: &'a [Step], at: usize, concat: &'a Step, count: usize) -> Crossing<'a>
    requires within { at < length steps.now }
    requires concat { concat.now ≡ get_or steps.now at concat.now }
    requires count { count ≤ length (drop (at + 1) steps.now) }
    ensures whole { map step_of steps.now ≡ form.whole_of result }
    ensures before { result.before.now ≡ take at steps.now }
    ensures concat { result.concat.now ≡ concat.now }
    ensures filters { result.filters.now ≡ take count (drop (at + 1) steps.now) }
{
    let rest = behind(steps, at + 1);
    Crossing {
        before: &steps[..at],
        concat,
        filters: &rest[..count],
        behind: behind(rest, count),
    }
}

/// These filters with the concatenation before them, where there are some; else those that were found before.
fn later_crossing<'a>(
    found: Option<Crossing<'a>>,
    steps: &'a [Step],
    at: usize,
    concat: &'a Step,
    count: usize,
) -> Option<Crossing<'a>>
    requires within { at < length steps.now }
    requires concat { concat.now ≡ get_or steps.now at concat.now }
    requires count { count ≤ length (drop (at + 1) steps.now) }
    ensures { (m : seen.Model) (c : typing.Customs) (S : shapes.Shape) → IfSome found.entry (form.IsCrossing m c S (map step_of steps.now)) → (0 < count → IsTrue (spec.all_cross m c (shape_behind m c S (tree.pipe (map step_of (take at steps.now)))) (step_of concat.now) (map step_of (take count (drop (at + 1) steps.now))))) → IfSome result (form.IsCrossing m c S (map step_of steps.now)) }
{
    if count > 0 {
        Some(crossing_at(steps, at, concat, count))
    } else {
        found
    }
}

/// The last concatenation that filters behind it cross, with these.
fn last_crossing<'a>(
    alloc: Global,
    m: &Model,
    c: &Customs,
    steps: &'a [Step],
    start: &Shape,
) -> Result<Option<Crossing<'a>>, AllocError>
    requires types { IsTrue (has_types m.now start.now) }
    requires customs { AreTypedOver m.now c.now }
    requires sound { IsSound m.now }
    requires typed { IsTrue (is_some (typing.steps_shape m.now (readings c.now) start.now (tree.pipe (map step_of steps.now)))) }
    ensures { IfOk result (λ o. IfSome o (form.IsCrossing m.now (readings c.now) start.now (map step_of steps.now))) }
{
    let mut found = None;
    let mut shape = start.copy(alloc)?;
    for (at, step) in steps.iter().enumerate() {
        next_is_typed(m, c, steps, at, step, &shape);
        let rest = behind(steps, at + 1);
        let count = crossing_step(alloc, m, c, &shape, step, rest)?;
        found = later_crossing(found, steps, at, step, count);
        let next = shape_past(alloc, m, c, shape, step)?;
        shape = next;
    }
    Ok(found)
}

/// The steps, with the filters before the concatenation.
fn moved(alloc: Global, crossing: &Crossing) -> Result<Vec<Step>, AllocError>
    ensures { IfOk result (λ v. map step_of v.items ≡ form.moved crossing.now) }
{
    let mut made = Vec::new(alloc);
    put_copies(&mut made, alloc, crossing.before)?;
    put_copies(&mut made, alloc, crossing.filters)?;
    let concat = crossing.concat.copy(alloc)?;
    made.push(concat)?;
    put_copies(&mut made, alloc, crossing.behind)?;
    Ok(made)
}

/// A typed pipeline with the same plan, in which filters stand before the last concatenation that they cross; nothing where none
/// crosses one.
fn crossed(alloc: Global, m: &Model, c: &Customs, t: &Typed) -> Result<Option<Typed>, AllocError>
    requires set { IsSet m.now t.now.set }
    requires customs { AreTypedOver m.now c.now }
    requires whole { IsTrue (customs_typed m.now (readings c.now)) }
    requires typing { IsTyping m.now (readings c.now) t.now }
    ensures { IfOk result (λ o. IfSome o (HasPlanOf m.now (readings c.now) t.now)) }
{
    crossing_keeps_plan();
    if !gives_anywhere(&t.pipe) {
        return Ok(None);
    }
    let _sets = m.sets();
    let start = set_shape(alloc, m.set_type(t.set));
    match last_crossing(alloc, m, c, t.pipe.steps(), &start)? {
        Some(crossing) => {
            let shape = t.shape.copy(alloc)?;
            let steps = moved(alloc, &crossing)?;
            let pipe = pipe_or_identity(steps)?;
            Ok(Some(Typed {
                set: t.set,
                pipe,
                shape,
            }))
        }
        None => Ok(None),
    }
}

/// How often filters cross a concatenation, at most: a line has fewer steps.
const CROSSINGS: usize = 256;

/// A typed pipeline with the same plan, in which filters stand before the concatenations that they cross.
pub(crate) fn all_crossed(
    alloc: Global,
    m: &Model,
    c: &Customs,
    t: &Typed,
) -> Result<Typed, AllocError>
    requires set { IsSet m.now t.now.set }
    requires customs { AreTypedOver m.now c.now }
    requires whole { IsTrue (customs_typed m.now (readings c.now)) }
    requires typing { IsTyping m.now (readings c.now) t.now }
    ensures { IfOk result (HasPlanOf m.now (readings c.now) t.now) }
{
    let mut current = t.copy(alloc)?;
    for _crossing in 0..CROSSINGS {
        match crossed(alloc, m, c, &current)? {
            Some(next) => current = next,
            None => return Ok(current),
        }
    }
    Ok(current)
}
