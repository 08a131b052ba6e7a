//! A rule at its first place in a typed pipeline, in the order in which the places are printed.
ghost use Rattle.std.specs.Prelude.{◌≡◌, false, IfOk, IfSome, IsTrue, is_some, map, option_map};
ghost use Rattle.edm_values.specs.Lists.{all_some};
ghost use Rattle.edm_model.specs.LookUps.{IsType};
ghost use Rattle.edm_model.specs.Soundness.{IsSound};
ghost use Rattle.apply_ast.specs.Trees.{Step as tree, Key as key, OptPipe as opt};
ghost use Rattle.apply_ast.specs.Views.{climb_of, hier_of, inner_of, join_of, key_of, keys_of, pipe_of, pipes_of, step_of};
ghost use Rattle.context_typing.specs.Readings.{readings, AreTypedOver};
ghost use Rattle.context_typing.specs.Shapes as shapes;
ghost use Rattle.context_typing.specs.ShapeTypes.{has_types};
ghost use Rattle.context_typing.specs.Typing.{branch_shapes, inner_shape, key_typed, keys_typed, no_shape, step_shape, steps_shape};
ghost use Rattle.rewrite_places.specs.Places.{first_in_branches, first_in_inner, first_in_key, first_in_keys, first_in_pipe, first_in_step, first_on};
ghost use Rattle.rewrite_rules.specs.RuleNames.{rule_of};
ghost use Rattle.rewrite_forms.specs.StepShapes.{shape_behind};

use crate::trees::{
    with_branch, with_groups, with_key, with_nodes, with_related, with_rest, with_step,
};
use crate::typed::{
    branch_is_typed, branches_are_typed, grouping_is_typed, groups_are_typed, key_is_typed,
    nodes_are_typed, related_is_typed, starts_are_typed, step_is_typed,
};
use apply_ast::{ClimbStep, HierName, JoinStep, KeyItem, KeyList, Path, Pipe, PipeList, Step};
use context_typing::{Customs, Shape, join_target, nodes_of, set_shape};
use edm_model::{Model, TypeId};
use rewrite_forms::{copy_inner, shape_behind, type_of, with_starts};
use rewrite_rules::{RuleName, at_place};
use std::alloc::{AllocError, Global};

/// What a rule makes of a pipeline at its first place.
#[cycle(places)]
pub fn in_pipe(
    alloc: Global,
    m: &Model,
    c: &Customs,
    rule: RuleName,
    pipe: &Pipe,
    start: &Shape,
) -> Result<Option<Pipe>, AllocError>
    requires types { IsTrue (has_types m.now start.now) }
    requires customs { AreTypedOver m.now c.now }
    requires sound { IsSound m.now }
    requires typed { IsTrue (is_some (steps_shape m.now (readings c.now) start.now (pipe_of pipe.now))) }
    ensures { IfOk result (λ o. option_map pipe_of o ≡ first_in_pipe (rule_of rule) m.now (readings c.now) start.now false (pipe_of pipe.now)) }
{
    let steps = pipe.steps();
    for (i, step) in steps.iter().enumerate() {
        let before = &steps[..i];
        let rest = &steps[i + 1..];
        step_is_typed(m, c, start, pipe, steps, i, step);
        if let Some(made) = at_place(alloc, m, c, rule, start, before, step, rest)? {
            return Ok(Some(with_rest(alloc, before, made)?));
        }
        if let Some(made) = in_step(alloc, m, c, rule, step, start, before)? {
            return Ok(Some(with_step(alloc, before, made, rest)?));
        }
    }
    Ok(None)
}

/// What it makes inside a step.
#[cycle(places)]
fn in_step(
    alloc: Global,
    m: &Model,
    c: &Customs,
    rule: RuleName,
    step: &Step,
    start: &Shape,
    before: &[Step],
) -> Result<Option<Step>, AllocError>
    requires types { IsTrue (has_types m.now start.now) }
    requires customs { AreTypedOver m.now c.now }
    requires sound { IsSound m.now }
    requires typed { IsTrue (is_some (step_shape m.now (readings c.now) (shape_behind m.now (readings c.now) start.now (map step_of before.now)) (step_of step.now))) }
    ensures { IfOk result (λ o. option_map step_of o ≡ first_in_step (rule_of rule) m.now (readings c.now) (shape_behind m.now (readings c.now) start.now (map step_of before.now)) (step_of step.now)) }
{
    match step {
        Step::Identity => Ok(None),
        Step::Filter(_) => Ok(None),
        Step::Compute(_) => Ok(None),
        Step::OrderBy(_) => Ok(None),
        Step::Skip(_) => Ok(None),
        Step::Top(_) => Ok(None),
        Step::Aggregate(_) => Ok(None),
        Step::GroupBy(keys, inner) => {
            grouping_is_typed(m, c, start, before, step, keys, inner);
            match in_keys(alloc, m, c, rule, keys)? {
                Some(made) => Ok(Some(Step::GroupBy(made, copy_inner(alloc, inner)?))),
                None => {
                    let made = in_groups(alloc, m, c, rule, inner, start, before)?;
                    with_groups(alloc, keys, made)
                }
            }
        }
        Step::Concat(branches) => in_concat(alloc, m, c, rule, branches, start, before),
        Step::Join(join) => in_join(alloc, m, c, rule, join, start, before),
        Step::TopBy(_) => Ok(None),
        Step::Climb(climb) => in_climb(alloc, m, c, rule, climb, start, before),
        Step::Traverse(_) => Ok(None),
    }
}

/// What it makes of the pipeline for each group.
#[cycle(places)]
fn in_groups(
    alloc: Global,
    m: &Model,
    c: &Customs,
    rule: RuleName,
    inner: &Option<Pipe>,
    start: &Shape,
    before: &[Step],
) -> Result<Option<Pipe>, AllocError>
    requires types { IsTrue (has_types m.now start.now) }
    requires customs { AreTypedOver m.now c.now }
    requires sound { IsSound m.now }
    requires typed { IsTrue (is_some (inner_shape m.now (readings c.now) (shape_behind m.now (readings c.now) start.now (map step_of before.now)) no_shape (inner_of (option_map pipe_of inner.now)))) }
    ensures { IfOk result (λ o. option_map (λ p. opt.SomePipe (pipe_of p)) o ≡ first_in_inner (rule_of rule) m.now (readings c.now) (shape_behind m.now (readings c.now) start.now (map step_of before.now)) (inner_of (option_map pipe_of inner.now))) }
{
    match inner {
        Some(pipe) => {
            let shape = shape_behind(alloc, m, c, start, before)?;
            groups_are_typed(m, c, start, before, inner, pipe, &shape);
            in_pipe(alloc, m, c, rule, pipe, &shape)
        }
        None => Ok(None),
    }
}

/// What it makes of keys.
#[cycle(places)]
fn in_keys(
    alloc: Global,
    m: &Model,
    c: &Customs,
    rule: RuleName,
    keys: &KeyList,
) -> Result<Option<KeyList>, AllocError>
    requires customs { AreTypedOver m.now c.now }
    requires sound { IsSound m.now }
    requires typed { (S : shapes.Shape) × IsTrue (keys_typed m.now (readings c.now) S (keys_of keys.now)) }
    ensures { IfOk result (λ o. option_map keys_of o ≡ first_in_keys (rule_of rule) m.now (readings c.now) (keys_of keys.now)) }
{
    let all = keys.as_slice();
    for (i, key) in all.iter().enumerate() {
        key_is_typed(m, c, keys, all, i, key);
        if let Some(made) = in_key(alloc, m, c, rule, key)? {
            return Ok(Some(with_key(alloc, &all[..i], made, &all[i + 1..])?));
        }
    }
    Ok(None)
}

/// What it makes of a key.
#[cycle(places)]
fn in_key(
    alloc: Global,
    m: &Model,
    c: &Customs,
    rule: RuleName,
    key: &KeyItem,
) -> Result<Option<KeyItem>, AllocError>
    requires customs { AreTypedOver m.now c.now }
    requires sound { IsSound m.now }
    requires typed { (S : shapes.Shape) × IsTrue (key_typed m.now (readings c.now) S (key_of key.now)) }
    ensures { IfOk result (λ o. option_map key_of o ≡ first_in_key (rule_of rule) m.now (readings c.now) (key_of key.now)) }
{
    match key {
        KeyItem::Plain(_) => Ok(None),
        KeyItem::Rollup(_, _) => Ok(None),
        KeyItem::Recursive(hier, path, inner) => { in_nodes(alloc, m, c, rule, inner, hier, path) }
    }
}

/// What it makes of the pipeline that chooses the nodes of a recursive rollup.
#[cycle(places)]
fn in_nodes(
    alloc: Global,
    m: &Model,
    c: &Customs,
    rule: RuleName,
    inner: &Option<Pipe>,
    hier: &HierName,
    path: &Path,
) -> Result<Option<KeyItem>, AllocError>
    requires customs { AreTypedOver m.now c.now }
    requires sound { IsSound m.now }
    requires typed { (S : shapes.Shape) × IsTrue (key_typed m.now (readings c.now) S (key.Recursive (hier_of hier.now) path.now (inner_of (option_map pipe_of inner.now)))) }
    ensures { IfOk result (λ o. option_map key_of o ≡ first_in_key (rule_of rule) m.now (readings c.now) (key.Recursive (hier_of hier.now) path.now (inner_of (option_map pipe_of inner.now)))) }
{
    match inner {
        Some(pipe) => {
            let of = type_of(m, nodes_of(m, hier));
            nodes_are_typed(m, c, hier, path, inner, pipe, &of);
            let made = in_pipe_on(alloc, m, c, rule, pipe, of)?;
            with_nodes(alloc, hier, path, made)
        }
        None => Ok(None),
    }
}

/// What it makes of a pipeline on the instances of an entity type, where there is one.
#[cycle(places)]
fn in_pipe_on(
    alloc: Global,
    m: &Model,
    c: &Customs,
    rule: RuleName,
    pipe: &Pipe,
    of: Option<TypeId>,
) -> Result<Option<Pipe>, AllocError>
    requires there { IfSome of (IsType m.now) }
    requires customs { AreTypedOver m.now c.now }
    requires sound { IsSound m.now }
    requires typed { IfSome of (λ t. IsTrue (is_some (steps_shape m.now (readings c.now) (shapes.set_shape t) (pipe_of pipe.now)))) }
    ensures { IfOk result (λ o. option_map pipe_of o ≡ first_on (rule_of rule) m.now (readings c.now) of (pipe_of pipe.now)) }
{
    match of {
        Some(of) => {
            let shape = set_shape(alloc, of);
            in_pipe(alloc, m, c, rule, pipe, &shape)
        }
        None => Ok(None),
    }
}

/// What it makes inside a concatenation.
#[cycle(places)]
fn in_concat(
    alloc: Global,
    m: &Model,
    c: &Customs,
    rule: RuleName,
    branches: &PipeList,
    start: &Shape,
    before: &[Step],
) -> Result<Option<Step>, AllocError>
    requires types { IsTrue (has_types m.now start.now) }
    requires customs { AreTypedOver m.now c.now }
    requires sound { IsSound m.now }
    requires typed { IsTrue (is_some (step_shape m.now (readings c.now) (shape_behind m.now (readings c.now) start.now (map step_of before.now)) (tree.Concat (pipes_of branches.now)))) }
    ensures { IfOk result (λ o. option_map step_of o ≡ first_in_step (rule_of rule) m.now (readings c.now) (shape_behind m.now (readings c.now) start.now (map step_of before.now)) (tree.Concat (pipes_of branches.now))) }
{
    let shape = shape_behind(alloc, m, c, start, before)?;
    branches_are_typed(m, c, start, before, branches, &shape);
    match in_branches(alloc, m, c, rule, branches, &shape)? {
        Some(branches) => Ok(Some(Step::Concat(branches))),
        None => Ok(None),
    }
}

/// What it makes of branches.
#[cycle(places)]
fn in_branches(
    alloc: Global,
    m: &Model,
    c: &Customs,
    rule: RuleName,
    branches: &PipeList,
    shape: &Shape,
) -> Result<Option<PipeList>, AllocError>
    requires types { IsTrue (has_types m.now shape.now) }
    requires customs { AreTypedOver m.now c.now }
    requires sound { IsSound m.now }
    requires typed { IsTrue (is_some (all_some (branch_shapes m.now (readings c.now) shape.now (pipes_of branches.now)))) }
    ensures { IfOk result (λ o. option_map pipes_of o ≡ first_in_branches (rule_of rule) m.now (readings c.now) shape.now (pipes_of branches.now)) }
{
    let all = branches.as_slice();
    for (i, branch) in all.iter().enumerate() {
        branch_is_typed(m, c, shape, branches, all, i, branch);
        if let Some(made) = in_pipe(alloc, m, c, rule, branch, shape)? {
            return Ok(Some(with_branch(alloc, &all[..i], made, &all[i + 1..])?));
        }
    }
    Ok(None)
}

/// What it makes inside a join.
#[cycle(places)]
fn in_join(
    alloc: Global,
    m: &Model,
    c: &Customs,
    rule: RuleName,
    join: &JoinStep,
    start: &Shape,
    before: &[Step],
) -> Result<Option<Step>, AllocError>
    requires types { IsTrue (has_types m.now start.now) }
    requires customs { AreTypedOver m.now c.now }
    requires sound { IsSound m.now }
    requires typed { IsTrue (is_some (step_shape m.now (readings c.now) (shape_behind m.now (readings c.now) start.now (map step_of before.now)) (join_of join.now))) }
    ensures { IfOk result (λ o. option_map step_of o ≡ first_in_step (rule_of rule) m.now (readings c.now) (shape_behind m.now (readings c.now) start.now (map step_of before.now)) (join_of join.now)) }
{
    match &join.inner {
        Some(pipe) => {
            let shape = shape_behind(alloc, m, c, start, before)?;
            let of = join_target(m, &shape, &join.nav);
            related_is_typed(m, c, start, before, join, pipe, &shape, &of);
            let made = in_pipe_on(alloc, m, c, rule, pipe, of)?;
            with_related(alloc, join, made)
        }
        None => Ok(None),
    }
}

/// What it makes inside a climb.
#[cycle(places)]
fn in_climb(
    alloc: Global,
    m: &Model,
    c: &Customs,
    rule: RuleName,
    climb: &ClimbStep,
    start: &Shape,
    before: &[Step],
) -> Result<Option<Step>, AllocError>
    requires types { IsTrue (has_types m.now start.now) }
    requires customs { AreTypedOver m.now c.now }
    requires sound { IsSound m.now }
    requires typed { IsTrue (is_some (step_shape m.now (readings c.now) (shape_behind m.now (readings c.now) start.now (map step_of before.now)) (climb_of climb.now))) }
    ensures { IfOk result (λ o. option_map step_of o ≡ first_in_step (rule_of rule) m.now (readings c.now) (shape_behind m.now (readings c.now) start.now (map step_of before.now)) (climb_of climb.now)) }
{
    let shape = shape_behind(alloc, m, c, start, before)?;
    starts_are_typed(m, c, start, before, climb, &shape);
    let made = in_pipe(alloc, m, c, rule, &climb.inner, &shape)?;
    with_starts(alloc, climb, made)
}
