//! A pipeline settled in one walk over its steps, and over those of the pipelines inside them.
ghost use Rattle.std.specs.Prelude.{◌≡◌, IfOk, IfSome, IsTrue, List, is_some, map, option_map};
ghost use Rattle.edm_model.specs.LookUps.{IsType};
ghost use Rattle.edm_model.specs.Soundness.{IsSound};
ghost use Rattle.apply_ast.specs.Trees as tree;
ghost use Rattle.apply_ast.specs.Views.{climb_of, expr_of, inner_of, join_of, key_of, keys_in, keys_of, pipe_of, pipes_in, pipes_of, step_of};
ghost use Rattle.context_typing.specs.Readings.{AreTypedOver, readings};
ghost use Rattle.context_typing.specs.Shapes as shapes;
ghost use Rattle.context_typing.specs.ShapeTypes.{has_types};
ghost use Rattle.context_typing.specs.Typing as typing;
ghost use Rattle.optimiser.specs.KnownSteps as facts;
ghost use Rattle.optimiser.specs.WalkForms as form;
ghost use Rattle.optimiser.specs.WalkRules.{rules_named};
ghost use Rattle.walk_laws.specs.Walks as spec;

use crate::ends::{climbed_by, of_filters, pipe_or_identity, put_pipe, put_segment};
use crate::held::{Head, Segment, Test};
use crate::inside::{
    branch_is_among, branch_is_known, branch_is_typed, branches_are_known, branches_are_typed,
    grouping_is_typed, key_is_typed, nodes_are_typed, place_is_there, related_is_typed,
    starts_are_typed, step_is_typed,
};
use crate::known::{Known, known_pipe};
use crate::rules::Rules;
use apply_ast::{ClimbStep, Expr, JoinStep, KeyItem, KeyList, Path, Pipe, PipeList, Step};
use context_typing::{Customs, Shape, join_target, nodes_of, set_shape};
use edm_model::{Model, TypeId};
use rewrite_forms::{copy_inner, type_of};
use std::alloc::{AllocError, Global};

/// The step of a segment, the filters that have gone into it, and those behind it.
fn taken_apart<'a>(segment: Segment<'a>) -> (Head, Vec<Expr>, Vec<Test>)
    ensures head { result.0 ≡ segment.entry.head }
    ensures entered { (result.1).items ≡ segment.entry.entered.items }
    ensures tests { (result.2).items ≡ segment.entry.tests.items }
{
    let Segment {
        head,
        lets: _,
        passage: _,
        entry: _,
        entered,
        tests,
    } = segment;
    (head, entered, tests)
}

/// A pipeline, settled once filters have gone to its end, and without the steps at its end that are idle before a climb to a path,
/// where one is given.
#[cycle(walked)]
fn walked_pipe(
    alloc: Global,
    m: &Model,
    c: &Customs,
    rules: Rules,
    pipe: &Pipe,
    start: &Shape,
    entered: &[Expr],
    climbed: Option<&Path>,
) -> Result<Pipe, AllocError>
    requires types { IsTrue (has_types m.now start.now) }
    requires customs { AreTypedOver m.now c.now }
    requires sound { IsSound m.now }
    requires typed { IsTrue (is_some (typing.steps_shape m.now (readings c.now) start.now (pipe_of pipe.now))) }
    ensures { IfOk result (λ p. pipe_of p ≡ form.walked (rules_named rules) m.now (readings c.now) start.now (pipe_of pipe.now) (map expr_of entered.now) (option_map (λ p. p.now) climbed.entry)) }
{
    let (known, _end) = known_pipe(alloc, m, c, pipe, start)?;
    walked_known(
        alloc,
        m,
        c,
        rules,
        pipe,
        start,
        known.as_slice(),
        entered,
        climbed,
    )
}

/// The same of a pipeline of whose steps something is known.
#[cycle(walked)]
fn walked_known(
    alloc: Global,
    m: &Model,
    c: &Customs,
    rules: Rules,
    pipe: &Pipe,
    start: &Shape,
    known: &[Known],
    entered: &[Expr],
    climbed: Option<&Path>,
) -> Result<Pipe, AllocError>
    requires types { IsTrue (has_types m.now start.now) }
    requires customs { AreTypedOver m.now c.now }
    requires sound { IsSound m.now }
    requires typed { IsTrue (is_some (typing.steps_shape m.now (readings c.now) start.now (pipe_of pipe.now))) }
    requires known { IsTrue (facts.are_known m.now (readings c.now) start.now (pipe_of pipe.now) known.now) }
    ensures { IfOk result (λ p. pipe_of p ≡ form.walked (rules_named rules) m.now (readings c.now) start.now (pipe_of pipe.now) (map expr_of entered.now) (option_map (λ p. p.now) climbed.entry)) }
{
    let written = pipe.steps();
    let segments = put_pipe(alloc, m, c, rules, written, known, start, entered, climbed)?;
    let mut steps = Vec::new(alloc);
    for segment in segments {
        let (head, entered, tests) = taken_apart(segment);
        match head {
            Head::Front => {
                put_segment(&mut steps, None, tests)?;
                continue;
            }
            Head::Count(top) => {
                put_segment(&mut steps, Some(Step::TopBy(top)), tests)?;
                continue;
            }
            Head::Written(at, shape) => {
                place_is_there(m, c, written, known, at, &shape);
                let step = &written[at];
                let of = &known[at];
                step_is_typed(m, c, written, known, at, &shape, step, of);
                let made = settled_step(alloc, m, c, rules, step, &shape, of, entered.as_slice())?;
                put_segment(&mut steps, Some(made), tests)?;
                continue;
            }
        }
    }
    pipe_or_identity(steps)
}

/// A step with the pipelines inside it settled once filters have gone into it. A step without any is copied.
#[cycle(walked)]
fn settled_step(
    alloc: Global,
    m: &Model,
    c: &Customs,
    rules: Rules,
    step: &Step,
    shape: &Shape,
    of: &Known,
    entered: &[Expr],
) -> Result<Step, AllocError>
    requires types { IsTrue (has_types m.now shape.now) }
    requires customs { AreTypedOver m.now c.now }
    requires sound { IsSound m.now }
    requires typed { IsTrue (is_some (typing.step_shape m.now (readings c.now) shape.now (step_of step.now))) }
    requires known { IsTrue (facts.is_known m.now (readings c.now) shape.now (step_of step.now) of.now) }
    ensures { IfOk result (λ s. step_of s ≡ spec.settled_step (rules_named rules) m.now (readings c.now) shape.now (step_of step.now) (map expr_of entered.now)) }
{
    match step {
        Step::GroupBy(keys, inner) => {
            grouping_is_typed(m, c, shape, step, keys, inner);
            let keys = settled_keys(alloc, m, c, rules, keys, entered)?;
            let inner = settled_inner(alloc, m, c, rules, inner, shape, &[])?;
            Ok(Step::GroupBy(keys, inner))
        }
        Step::Concat(branches) => {
            branches_are_typed(m, c, shape, step, branches);
            branches_are_known(m, c, shape, step, branches, of);
            let inside = of.inside.as_slice();
            Ok(Step::Concat(settled_branches(
                alloc, m, c, rules, branches, shape, inside, entered,
            )?))
        }
        Step::Join(join) => Ok(Step::Join(settled_join(alloc, m, c, rules, join, shape, entered)?)),
        Step::Climb(climb) => Ok(Step::Climb(settled_climb(alloc, m, c, rules, climb, shape)?)),
        Step::Identity
        | Step::Filter(_)
        | Step::Compute(_)
        | Step::OrderBy(_)
        | Step::Skip(_)
        | Step::Top(_)
        | Step::Aggregate(_)
        | Step::TopBy(_)
        | Step::Traverse(_) => step.copy(alloc),
    }
}

/// An inner pipeline, settled once filters have gone to its end.
#[cycle(walked)]
fn settled_inner(
    alloc: Global,
    m: &Model,
    c: &Customs,
    rules: Rules,
    inner: &Option<Pipe>,
    shape: &Shape,
    entered: &[Expr],
) -> Result<Option<Pipe>, AllocError>
    requires types { IsTrue (has_types m.now shape.now) }
    requires customs { AreTypedOver m.now c.now }
    requires sound { IsSound m.now }
    requires typed { IfSome inner.now (λ p. IsTrue (is_some (typing.steps_shape m.now (readings c.now) shape.now (pipe_of p)))) }
    ensures { IfOk result (λ o. inner_of (option_map pipe_of o) ≡ spec.settled_inner (rules_named rules) m.now (readings c.now) shape.now (inner_of (option_map pipe_of inner.now)) (map expr_of entered.now)) }
{
    match inner {
        Some(pipe) => Ok(Some(walked_pipe(alloc, m, c, rules, pipe, shape, entered, None)?)),
        None => of_filters(alloc, m, shape, entered),
    }
}

/// An inner pipeline on the instances of an entity type, settled once filters have gone to its end.
#[cycle(walked)]
fn settled_on(
    alloc: Global,
    m: &Model,
    c: &Customs,
    rules: Rules,
    inner: &Option<Pipe>,
    of: Option<TypeId>,
    entered: &[Expr],
) -> Result<Option<Pipe>, AllocError>
    requires there { IfSome of (IsType m.now) }
    requires customs { AreTypedOver m.now c.now }
    requires sound { IsSound m.now }
    requires typed { IfSome of (λ t. IfSome inner.now (λ p. IsTrue (is_some (typing.steps_shape m.now (readings c.now) (shapes.set_shape t) (pipe_of p))))) }
    ensures { IfOk result (λ o. inner_of (option_map pipe_of o) ≡ form.settled_on (rules_named rules) m.now (readings c.now) of (inner_of (option_map pipe_of inner.now)) (map expr_of entered.now)) }
{
    match of {
        Some(of) => {
            let shape = set_shape(alloc, of);
            settled_inner(alloc, m, c, rules, inner, &shape, entered)
        }
        None => copy_inner(alloc, inner),
    }
}

/// Branches, each settled once filters have gone to its end.
#[cycle(walked)]
fn settled_branches(
    alloc: Global,
    m: &Model,
    c: &Customs,
    rules: Rules,
    branches: &PipeList,
    shape: &Shape,
    inside: &[Vec<Known>],
    entered: &[Expr],
) -> Result<PipeList, AllocError>
    requires types { IsTrue (has_types m.now shape.now) }
    requires customs { AreTypedOver m.now c.now }
    requires sound { IsSound m.now }
    requires typed { IsTrue (form.branches_typed m.now (readings c.now) shape.now (map pipe_of (pipes_in branches.now))) }
    requires known { IsTrue (facts.branches_known m.now (readings c.now) shape.now (pipes_of branches.now) inside.now) }
    ensures { IfOk result (λ l. pipes_of l ≡ spec.settled_branches (rules_named rules) m.now (readings c.now) shape.now (pipes_of branches.now) (map expr_of entered.now)) }
{
    let mut settled = Vec::new(alloc);
    let all = branches.as_slice();
    for (i, branch) in all.iter().enumerate() {
        branch_is_typed(m, c, shape, branches, all, i, branch);
        branch_is_among(m, c, shape, branches, all, inside, i);
        let of = &inside[i];
        branch_is_known(m, c, shape, branches, all, inside, i, branch, of);
        let known = of.as_slice();
        settled.push(walked_known(alloc, m, c, rules, branch, shape, known, entered, None)?)?;
    }
    Ok(PipeList::new(settled))
}

/// Keys, each with its pipeline settled once filters have gone to its end.
#[cycle(walked)]
fn settled_keys(
    alloc: Global,
    m: &Model,
    c: &Customs,
    rules: Rules,
    keys: &KeyList,
    entered: &[Expr],
) -> Result<KeyList, AllocError>
    requires customs { AreTypedOver m.now c.now }
    requires sound { IsSound m.now }
    requires typed { IsTrue (form.keys_inside_typed m.now (readings c.now) (map key_of (keys_in keys.now))) }
    ensures { IfOk result (λ l. keys_of l ≡ spec.settled_keys (rules_named rules) m.now (readings c.now) (keys_of keys.now) (map expr_of entered.now)) }
{
    let mut settled = Vec::new(alloc);
    let all = keys.as_slice();
    for (i, key) in all.iter().enumerate() {
        key_is_typed(m, c, keys, all, i, key);
        settled.push(settled_key(alloc, m, c, rules, key, entered)?)?;
    }
    Ok(KeyList::new(settled))
}

/// A key with the pipeline that chooses its nodes settled once filters have gone to its end.
#[cycle(walked)]
fn settled_key(
    alloc: Global,
    m: &Model,
    c: &Customs,
    rules: Rules,
    key: &KeyItem,
    entered: &[Expr],
) -> Result<KeyItem, AllocError>
    requires customs { AreTypedOver m.now c.now }
    requires sound { IsSound m.now }
    requires typed { IsTrue (form.key_inside_typed m.now (readings c.now) (key_of key.now)) }
    ensures { IfOk result (λ k. key_of k ≡ spec.settled_key (rules_named rules) m.now (readings c.now) (key_of key.now) (map expr_of entered.now)) }
{
    match key {
        KeyItem::Recursive(hier, path, inner) => {
            let of = type_of(m, nodes_of(m, hier));
            nodes_are_typed(m, c, key, hier, path, inner, &of);
            let nodes = settled_on(alloc, m, c, rules, inner, of, entered)?;
            let hier = hier.copy(alloc)?;
            Ok(KeyItem::Recursive(hier, path.copy(alloc)?, nodes))
        }
        KeyItem::Plain(_) => key.copy(alloc),
        KeyItem::Rollup(_, _) => key.copy(alloc),
    }
}

/// A join with its pipeline settled once filters have gone to its end.
#[cycle(walked)]
fn settled_join(
    alloc: Global,
    m: &Model,
    c: &Customs,
    rules: Rules,
    join: &JoinStep,
    shape: &Shape,
    entered: &[Expr],
) -> Result<JoinStep, AllocError>
    requires types { IsTrue (has_types m.now shape.now) }
    requires customs { AreTypedOver m.now c.now }
    requires sound { IsSound m.now }
    requires typed { IsTrue (is_some (typing.step_shape m.now (readings c.now) shape.now (join_of join.now))) }
    ensures { IfOk result (λ j. join_of j ≡ spec.settled_step (rules_named rules) m.now (readings c.now) shape.now (join_of join.now) (map expr_of entered.now)) }
{
    let of = join_target(m, shape, &join.nav);
    related_is_typed(m, c, shape, join, &of);
    Ok(JoinStep {
        outer: join.outer,
        nav: join.nav.copy(alloc)?,
        alias: join.alias.copy(alloc)?,
        inner: settled_on(alloc, m, c, rules, &join.inner, of, entered)?,
    })
}

/// A climb with the pipeline that chooses its start nodes settled.
#[cycle(walked)]
fn settled_climb(
    alloc: Global,
    m: &Model,
    c: &Customs,
    rules: Rules,
    climb: &ClimbStep,
    shape: &Shape,
) -> Result<ClimbStep, AllocError>
    requires types { IsTrue (has_types m.now shape.now) }
    requires customs { AreTypedOver m.now c.now }
    requires sound { IsSound m.now }
    requires typed { IsTrue (is_some (typing.step_shape m.now (readings c.now) shape.now (climb_of climb.now))) }
    ensures { (es : List tree.Expr) → IfOk result (λ k. climb_of k ≡ spec.settled_step (rules_named rules) m.now (readings c.now) shape.now (climb_of climb.now) es) }
{
    let climbed = climbed_by(rules, &climb.path);
    starts_are_typed(m, c, shape, climb);
    Ok(ClimbStep {
        up: climb.up,
        hier: climb.hier.copy(alloc)?,
        path: climb.path.copy(alloc)?,
        inner: walked_pipe(alloc, m, c, rules, &climb.inner, shape, &[], climbed)?,
        distance: climb.distance,
        keep: climb.keep,
    })
}

/// A pipeline, settled by one walk over its steps and those of the pipelines inside them.
pub(crate) fn walk(
    alloc: Global,
    m: &Model,
    c: &Customs,
    rules: Rules,
    pipe: &Pipe,
    start: &Shape,
) -> Result<Pipe, AllocError>
    requires types { IsTrue (has_types m.now start.now) }
    requires customs { AreTypedOver m.now c.now }
    requires sound { IsSound m.now }
    requires typed { IsTrue (is_some (typing.steps_shape m.now (readings c.now) start.now (pipe_of pipe.now))) }
    ensures value { IfOk result (λ p. pipe_of p ≡ spec.walk (rules_named rules) m.now (readings c.now) start.now (pipe_of pipe.now)) }
{
    walked_pipe(alloc, m, c, rules, pipe, start, &[], None)
}
