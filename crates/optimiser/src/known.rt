//! What is known of the steps of a pipeline before a walk comes to them, so that what stands inside a concatenation is not typed
//! again where the walk comes by it and where it goes into it.
ghost use Rattle.std.specs.Prelude.{◌≡◌, IfOk, IfSome, IsTrue, Some, false, is_some, map, unwrap_or};
ghost use Rattle.std.specs.List.{list_all};
ghost use Rattle.edm_model.specs.Soundness.{IsSound};
ghost use Rattle.apply_ast.specs.Trees as tree;
ghost use Rattle.apply_ast.specs.Views.{pipe_of, pipes_in, pipes_of, step_of};
ghost use Rattle.context_typing.specs.Readings.{AreTypedOver, readings};
ghost use Rattle.context_typing.specs.ShapeTypes.{has_types};
ghost use Rattle.context_typing.specs.Typing as typing;
ghost use Rattle.optimiser.specs.KnownSteps as form;
ghost use Rattle.optimiser.specs.WalkForms.{branches_typed};
ghost use Rattle.optimiser.specs.declared.known.Known.{out-Known};
ghost use Rattle.walk_laws.specs.Walks as spec;

use crate::inside::{branch_is_typed, branches_are_typed, next_is_typed};
use apply_ast::{Pipe, PipeList, Step};
use context_typing::{Customs, Shape, concat_shape};
use edm_model::Model;
use rewrite_forms::shape_after;
use std::alloc::{AllocError, Global};

/// What is known of a step.
#[derive(Drop)]
pub(crate) struct Known {
    /// The shapes at the ends of the branches of a concatenation.
    pub(crate) ends: Vec<Shape>,
    /// What is known of the steps of each branch.
    pub(crate) inside: Vec<Vec<Known>>,
    /// The shape behind the step, where it is known.
    pub(crate) behind: Option<Shape>,
}

/// What is known of a step that is no concatenation: the shape behind it, where it is given.
fn unbranched(alloc: Global, behind: Option<Shape>) -> Known
    ensures { (out-Known result).behind ≡ behind }
{
    Known {
        ends: Vec::new(alloc),
        inside: Vec::new(alloc),
        behind,
    }
}

/// What is known of a concatenation, of these parts.
fn of_parts(ends: Vec<Shape>, inside: Vec<Vec<Known>>, behind: Shape) -> Known
    ensures ends { (out-Known result).ends ≡ ends }
    ensures inside { (out-Known result).inside ≡ inside }
    ensures behind { (out-Known result).behind ≡ Some behind }
{
    Known {
        ends,
        inside,
        behind: Some(behind),
    }
}

/// The shape behind a step. `identity` and filters leave the shape, and are not typed again.
pub(crate) fn shape_past(
    alloc: Global,
    m: &Model,
    c: &Customs,
    shape: Shape,
    step: &Step,
) -> Result<Shape, AllocError>
    requires types { IsTrue (has_types m.now shape) }
    requires customs { AreTypedOver m.now c.now }
    requires sound { IsSound m.now }
    ensures value { IfOk result (λ S. S ≡ typing.after m.now (readings c.now) shape (step_of step.now)) }
    ensures types { IfOk result (λ S. IsTrue (has_types m.now S)) }
{
    match step {
        Step::Identity => Ok(shape),
        Step::Filter(_) => Ok(shape),
        _ => shape_after(alloc, m, c, shape, step),
    }
}

/// The shape behind a step, copied where pipelines stand inside the step.
fn kept_behind(alloc: Global, step: &Step, next: &Shape) -> Result<Option<Shape>, AllocError>
    ensures { IfOk result (λ o. IfSome o (λ S. S ≡ next.now)) }
{
    match step {
        Step::GroupBy(_, _) => Ok(Some(next.copy(alloc)?)),
        Step::Join(_) => Ok(Some(next.copy(alloc)?)),
        Step::Climb(_) => Ok(Some(next.copy(alloc)?)),
        _ => Ok(None),
    }
}

/// What is known of a step that is no concatenation, and the shape behind it.
fn known_unbranched(
    alloc: Global,
    m: &Model,
    c: &Customs,
    step: &Step,
    shape: Shape,
) -> Result<(Known, Shape), AllocError>
    requires types { IsTrue (has_types m.now shape) }
    requires customs { AreTypedOver m.now c.now }
    requires sound { IsSound m.now }
    requires unbranched { form.is_concat (step_of step.now) ≡ false }
    ensures known { IfOk result (λ x. IsTrue (form.is_known m.now (readings c.now) shape (step_of step.now) x.0)) }
    ensures value { IfOk result (λ x. x.1 ≡ typing.after m.now (readings c.now) shape (step_of step.now)) }
    ensures types { IfOk result (λ x. IsTrue (has_types m.now x.1)) }
{
    let next = shape_past(alloc, m, c, shape, step)?;
    let behind = kept_behind(alloc, step, &next)?;
    Ok((unbranched(alloc, behind), next))
}

/// The shape behind a concatenation, from those at the ends of its branches; the one before it, where they do not agree.
fn past_branches(
    alloc: Global,
    m: &Model,
    shape: Shape,
    ends: &[Shape],
) -> Result<Shape, AllocError>
    requires { IsTrue (list_all (has_types m.now) ends.now) }
    ensures { IfOk result (λ S. S ≡ unwrap_or (typing.concat_shape m.now ends.now) shape) }
{
    match concat_shape(alloc, m, ends)? {
        Some(next) => Ok(next),
        None => Ok(shape),
    }
}

/// What is known of a concatenation, and the shape behind it, from what is known of its branches.
fn known_concat(
    alloc: Global,
    m: &Model,
    c: &Customs,
    step: &Step,
    branches: &PipeList,
    shape: Shape,
    ends: Vec<Shape>,
    inside: Vec<Vec<Known>>,
) -> Result<(Known, Shape), AllocError>
    requires types { IsTrue (has_types m.now shape) }
    requires sound { IsSound m.now }
    requires concat { step_of step.now ≡ tree.Step.Concat (pipes_of branches.now) }
    requires typed { IsTrue (is_some (typing.step_shape m.now (readings c.now) shape (step_of step.now))) }
    requires ends { ends.items ≡ map (λ p. spec.shape_behind m.now (readings c.now) shape (pipe_of p)) (pipes_in branches.now) }
    requires end_types { IsTrue (list_all (has_types m.now) ends.items) }
    requires inside { IsTrue (form.branches_known m.now (readings c.now) shape (pipes_of branches.now) inside.items) }
    ensures known { IfOk result (λ x. IsTrue (form.is_known m.now (readings c.now) shape (step_of step.now) x.0)) }
    ensures value { IfOk result (λ x. x.1 ≡ typing.after m.now (readings c.now) shape (step_of step.now)) }
    ensures types { IfOk result (λ x. IsTrue (has_types m.now x.1)) }
{
    let next = past_branches(alloc, m, shape, ends.as_slice())?;
    let behind = next.copy(alloc)?;
    Ok((of_parts(ends, inside, behind), next))
}

/// The shapes at the ends of branches, and what is known of the steps of each.
#[cycle(known)]
fn known_branches(
    alloc: Global,
    m: &Model,
    c: &Customs,
    branches: &PipeList,
    shape: &Shape,
) -> Result<(Vec<Shape>, Vec<Vec<Known>>), AllocError>
    requires types { IsTrue (has_types m.now shape.now) }
    requires customs { AreTypedOver m.now c.now }
    requires sound { IsSound m.now }
    requires typed { IsTrue (branches_typed m.now (readings c.now) shape.now (map pipe_of (pipes_in branches.now))) }
    ensures ends { IfOk result (λ x. (x.0).items ≡ map (λ p. spec.shape_behind m.now (readings c.now) shape.now (pipe_of p)) (pipes_in branches.now)) }
    ensures types { IfOk result (λ x. IsTrue (list_all (has_types m.now) (x.0).items)) }
    ensures inside { IfOk result (λ x. IsTrue (form.branches_known m.now (readings c.now) shape.now (pipes_of branches.now) (x.1).items)) }
{
    let mut ends = Vec::new(alloc);
    let mut inside = Vec::new(alloc);
    let all = branches.as_slice();
    for (i, branch) in all.iter().enumerate() {
        branch_is_typed(m, c, shape, branches, all, i, branch);
        let (known, end) = known_pipe(alloc, m, c, branch, shape)?;
        ends.push(end)?;
        inside.push(known)?;
    }
    Ok((ends, inside))
}

/// What is known of a step, and the shape behind it.
#[cycle(known)]
fn known_step(
    alloc: Global,
    m: &Model,
    c: &Customs,
    step: &Step,
    shape: Shape,
) -> Result<(Known, Shape), AllocError>
    requires types { IsTrue (has_types m.now shape) }
    requires customs { AreTypedOver m.now c.now }
    requires sound { IsSound m.now }
    requires typed { IsTrue (is_some (typing.step_shape m.now (readings c.now) shape (step_of step.now))) }
    ensures known { IfOk result (λ x. IsTrue (form.is_known m.now (readings c.now) shape (step_of step.now) x.0)) }
    ensures value { IfOk result (λ x. x.1 ≡ typing.after m.now (readings c.now) shape (step_of step.now)) }
    ensures types { IfOk result (λ x. IsTrue (has_types m.now x.1)) }
{
    match step {
        Step::Concat(branches) => {
            branches_are_typed(m, c, &shape, step, branches);
            let (ends, inside) = known_branches(alloc, m, c, branches, &shape)?;
            known_concat(alloc, m, c, step, branches, shape, ends, inside)
        }
        Step::Identity
        | Step::Filter(_)
        | Step::Compute(_)
        | Step::OrderBy(_)
        | Step::Skip(_)
        | Step::Top(_)
        | Step::Aggregate(_)
        | Step::GroupBy(_, _)
        | Step::Join(_)
        | Step::TopBy(_)
        | Step::Climb(_)
        | Step::Traverse(_) => known_unbranched(alloc, m, c, step, shape),
    }
}

/// What is known of the steps of a pipeline, and the shape behind it.
#[cycle(known)]
pub(crate) fn known_pipe(
    alloc: Global,
    m: &Model,
    c: &Customs,
    pipe: &Pipe,
    start: &Shape,
) -> Result<(Vec<Known>, Shape), AllocError>
    requires types { IsTrue (has_types m.now start.now) }
    requires customs { AreTypedOver m.now c.now }
    requires sound { IsSound m.now }
    requires typed { IsTrue (is_some (typing.steps_shape m.now (readings c.now) start.now (pipe_of pipe.now))) }
    ensures known { IfOk result (λ x. IsTrue (form.are_known m.now (readings c.now) start.now (pipe_of pipe.now) (x.0).items)) }
    ensures value { IfOk result (λ x. x.1 ≡ spec.shape_behind m.now (readings c.now) start.now (pipe_of pipe.now)) }
    ensures types { IfOk result (λ x. IsTrue (has_types m.now x.1)) }
{
    let mut known = Vec::new(alloc);
    let mut shape = start.copy(alloc)?;
    let steps = pipe.steps();
    for (i, step) in steps.iter().enumerate() {
        next_is_typed(m, c, steps, i, step, &shape);
        let (of, next) = known_step(alloc, m, c, step, shape)?;
        known.push(of)?;
        shape = next;
    }
    Ok((known, shape))
}
