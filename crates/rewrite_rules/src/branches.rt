//! The rules of concatenations: a filter goes into the branches, and a step with which all begin goes before them.
ghost use Rattle.std.specs.Prelude.{◌≡◌, ◌<◌, ◌∷◌, Bool, IfOk, IfSome, IsTrue, Some, length, map, option_map, slice_get};
ghost use Rattle.std.specs.List.{list_all};
ghost use Rattle.edm_model.specs.Models as seen;
ghost use Rattle.edm_model.specs.Soundness.{IsSound};
ghost use Rattle.apply_ast.specs.Trees.{steps, Step as tree};
ghost use Rattle.apply_ast.specs.Views.{expr_of, pipe_of, pipes_from, pipes_of, step_of};
ghost use Rattle.context_typing.specs.Readings.{readings, AreTypedOver};
ghost use Rattle.context_typing.specs.Shapes as shapes;
ghost use Rattle.context_typing.specs.ShapeTypes.{has_types};
ghost use Rattle.context_typing.specs.Typing as typing;
ghost use Rattle.rewrite_rules.specs.Branches as spec;
ghost use Rattle.rewrite_forms.specs.StepShapes.{shape_behind};
ghost use Rattle.rewrite_laws.specs.Rewrites as rule;

use crate::filters::{Condition, entered, nearest};
use crate::made::put_copy;
use crate::pipelines::{ended, pipe_or_identity};
use apply_ast::{Expr, Pipe, PipeList, Step};
use context_typing::{Customs, Shape};
use edm_model::Model;
use rewrite_forms::{
    begins_with_filter, branch_shapes, branches_of, is_identity, put_copies, same_step,
    shape_after, shape_behind,
};
use std::alloc::{AllocError, Global};

/// The branches with a step more at the end of each.
fn ended_branches(alloc: Global, branches: &[Pipe], step: &Step) -> Result<PipeList, AllocError>
    ensures { IfOk result (λ l. pipes_of l ≡ pipes_from (map (λ p. rule.ended p (step_of step.now)) (map pipe_of branches.now))) }
{
    let mut made = Vec::new(alloc);
    for branch in branches {
        made.push(ended(alloc, branch, step)?)?;
    }
    Ok(PipeList::new(made))
}

/// The concatenation of the branches with a filter at the end of each.
fn ended_by(alloc: Global, branches: &[Pipe], e: &Expr) -> Result<Step, AllocError>
    ensures { IfOk result (λ s. step_of s ≡ rule.concat (map (λ p. rule.ended p (tree.Filter (expr_of e.now))) (map pipe_of branches.now))) }
{
    let filter = Step::Filter(e.copy(alloc)?);
    Ok(Step::Concat(ended_branches(alloc, branches, &filter)?))
}

/// The steps after the nearest filter that is a test on the shape behind each branch has gone to the end of every branch.
fn into_branches(
    alloc: Global,
    m: &Model,
    shape: &Shape,
    shapes: &[Shape],
    branches: &[Pipe],
    rest: &[Step],
) -> Result<Option<Vec<Step>>, AllocError>
    requires types { IsTrue (has_types m.now shape.now) }
    requires branch_types { IsTrue (list_all (has_types m.now) shapes.now) }
    ensures value { IfOk result (λ o. option_map (λ v. map step_of v.items) o ≡ spec.into_branches m.now shape.now shapes.now (map pipe_of branches.now) (map step_of rest.now)) }
    ensures some { IfOk result (λ o. IfSome o (λ v. 0 < length v.items)) }
{
    match nearest(alloc, m, shape, &Condition::TypedOn(shapes), rest)? {
        Some((k, e)) => {
            let made = ended_by(alloc, branches, e)?;
            Ok(Some(entered(alloc, made, rest, k)?))
        }
        None => Ok(None),
    }
}

/// A filter that is typed on each branch goes to the end of every branch.
pub(crate) fn filter_branches(
    alloc: Global,
    m: &Model,
    c: &Customs,
    start: &Shape,
    before: &[Step],
    step: &Step,
    rest: &[Step],
) -> Result<Option<Vec<Step>>, AllocError>
    requires types { IsTrue (has_types m.now start.now) }
    requires customs { AreTypedOver m.now c.now }
    requires sound { IsSound m.now }
    ensures value { (b : Bool) → IfOk result (λ o. option_map (λ v. map step_of v.items) o ≡ rule.filter_branches m.now (readings c.now) (shape_behind m.now (readings c.now) start.now (map step_of before.now)) b (step_of step.now) (map step_of rest.now)) }
    ensures some { IfOk result (λ o. IfSome o (λ v. 0 < length v.items)) }
{
    match branches_of(step) {
        Some(branches) => {
            if !begins_with_filter(rest) {
                return Ok(None);
            }
            let branches = branches.as_slice();
            let there = shape_behind(alloc, m, c, start, before)?;
            match branch_shapes(alloc, m, c, &there, branches)? {
                Some(shapes) => {
                    let shape = shape_after(alloc, m, c, there, step)?;
                    into_branches(alloc, m, &shape, shapes.as_slice(), branches, rest)
                }
                None => Ok(None),
            }
        }
        None => Ok(None),
    }
}

/// The first step of a pipeline.
fn first_step(pipe: &Pipe) -> &Step
    ensures { Some (step_of result.now) ≡ slice_get (steps (pipe_of pipe.now)) 0 }
{
    &pipe.steps()[0]
}

/// Whether a pipeline begins with a step.
fn begins_with(step: &Step, pipe: &Pipe) -> bool
    ensures { result ≡ spec.begins_with (step_of step.now) (pipe_of pipe.now) }
{
    same_step(step, first_step(pipe))
}

/// Whether all branches begin with a step.
fn all_begin_with(step: &Step, branches: &[Pipe]) -> bool
    ensures { result ≡ list_all (spec.begins_with (step_of step.now)) (map pipe_of branches.now) }
{
    each_begins_with(step, branches)
}

/// Whether each branch begins with a step.
fn each_begins_with(step: &Step, branches: &[Pipe]) -> bool
    ensures { result ≡ list_all (λ p. spec.begins_with (step_of step.now) (pipe_of p)) branches.now }
{
    branches.iter().all(|branch| begins_with(step, branch))
}

/// The step with which all branches begin, but `identity`.
fn common_first(branches: &[Pipe]) -> Option<&Step>
    ensures { option_map (λ s. step_of s.now) result ≡ spec.common_first (map pipe_of branches.now) }
{
    match branches.first() {
        Some(branch) => {
            let step = first_step(branch);
            if is_identity(step) || !all_begin_with(step, branches) {
                None
            } else {
                Some(step)
            }
        }
        None => None,
    }
}

/// The branches without the first step of each: `identity` where it was the only one.
fn without_first(alloc: Global, branches: &[Pipe]) -> Result<PipeList, AllocError>
    ensures { IfOk result (λ l. pipes_of l ≡ pipes_from (map spec.without_first (map pipe_of branches.now))) }
{
    let mut made = Vec::new(alloc);
    for branch in branches {
        made.push(pipe_or_identity(alloc, &branch.steps()[1..])?)?;
    }
    Ok(PipeList::new(made))
}

/// A step, the concatenation of the branches without their first steps, and copies of other steps behind it.
fn factored(
    alloc: Global,
    first: &Step,
    branches: &[Pipe],
    rest: &[Step],
) -> Result<Vec<Step>, AllocError>
    ensures value { IfOk result (λ v. map step_of v.items ≡ step_of first.now ∷ tree.Concat (pipes_from (map spec.without_first (map pipe_of branches.now))) ∷ map step_of rest.now) }
    ensures some { IfOk result (λ v. 0 < length v.items) }
{
    let mut made = Vec::new(alloc);
    put_copy(&mut made, alloc, first)?;
    made.push(Step::Concat(without_first(alloc, branches)?))?;
    put_copies(&mut made, alloc, rest)?;
    Ok(made)
}

/// A step with which all branches begin goes before the concatenation.
pub(crate) fn factor_branches(
    alloc: Global,
    step: &Step,
    rest: &[Step],
) -> Result<Option<Vec<Step>>, AllocError>
    ensures value { (m : seen.Model) (c : typing.Customs) (S : shapes.Shape) (before : Bool) → IfOk result (λ o. option_map (λ v. map step_of v.items) o ≡ rule.factor_branches m c S before (step_of step.now) (map step_of rest.now)) }
    ensures some { IfOk result (λ o. IfSome o (λ v. 0 < length v.items)) }
{
    match branches_of(step) {
        Some(branches) => {
            let branches = branches.as_slice();
            match common_first(branches) {
                Some(first) => {
                    let made = factored(alloc, first, branches, rest)?;
                    Ok(Some(made))
                }
                None => Ok(None),
            }
        }
        None => Ok(None),
    }
}
