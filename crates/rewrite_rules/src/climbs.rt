//! The rule of climbs: a last step that does not change which nodes are chosen is dropped.
ghost use Rattle.std.specs.Prelude.{◌≡◌, ◌<◌, Bool, IfOk, IfSome, IsTrue, length, map, option_map};
ghost use Rattle.edm_model.specs.Soundness.{IsSound};
ghost use Rattle.apply_ast.specs.Views.{pipe_of, step_of};
ghost use Rattle.context_typing.specs.Readings.{readings, AreTypedOver};
ghost use Rattle.context_typing.specs.ShapeTypes.{has_types};
ghost use Rattle.rewrite_rules.specs.Climbs as spec;
ghost use Rattle.rewrite_forms.specs.StepShapes.{shape_behind};
ghost use Rattle.rewrite_laws.specs.Rewrites as rule;

use crate::made::before_copies;
use crate::pipelines::pipe_or_identity;
use apply_ast::{ClimbStep, Path, Pipe, Step};
use context_typing::{Customs, Shape};
use edm_model::Model;
use rewrite_forms::{climbed_by, is_made, order_sure, shape_behind, steps_shape, with_starts};
use std::alloc::{AllocError, Global};

/// Whether a step may be idle at the end of a climb's pipeline.
fn may_be_idle(step: &Step) -> bool
    ensures { result ≡ spec.may_be_idle (step_of step.now) }
{
    match step {
        Step::OrderBy(_) => true,
        Step::Compute(_) => true,
        _ => false,
    }
}

/// Whether a step is idle at the end of a climb's pipeline: an order by sure expressions, or a computation that does not make the
/// node's path.
fn is_idle(m: &Model, shape: &Shape, path: &Path, step: &Step) -> bool
    requires { IsTrue (has_types m.now shape.now) }
    ensures { result ≡ rule.is_idle m.now shape.now path.now (step_of step.now) }
{
    match step {
        Step::OrderBy(items) => order_sure(m, shape, items.as_slice()),
        Step::Compute(items) => !is_made(path, items.as_slice()),
        _ => false,
    }
}

/// The pipeline of a climb without its last step, where that is idle.
fn without_idle(
    alloc: Global,
    m: &Model,
    c: &Customs,
    start: &Shape,
    before: &[Step],
    climb: &ClimbStep,
) -> Result<Option<Pipe>, AllocError>
    requires types { IsTrue (has_types m.now start.now) }
    requires customs { AreTypedOver m.now c.now }
    requires sound { IsSound m.now }
    ensures { IfOk result (λ o. option_map pipe_of o ≡ spec.without_idle m.now (readings c.now) (shape_behind m.now (readings c.now) start.now (map step_of before.now)) climb.now.path (pipe_of climb.now.inner)) }
{
    let steps = climb.inner.steps();
    let end = steps.len() - 1;
    let front = &steps[..end];
    let last = &steps[end];
    if !may_be_idle(last) {
        return Ok(None);
    }
    let there = shape_behind(alloc, m, c, start, before)?;
    match steps_shape(alloc, m, c, &there, front)? {
        Some(shape) => {
            if !is_idle(m, &shape, &climb.path, last) {
                return Ok(None);
            }
            Ok(Some(pipe_or_identity(alloc, front)?))
        }
        None => Ok(None),
    }
}

/// The last step of a climb's pipeline is dropped where it is idle.
pub(crate) fn drop_idle(
    alloc: Global,
    m: &Model,
    c: &Customs,
    start: &Shape,
    before: &[Step],
    step: &Step,
    rest: &[Step],
) -> Result<Option<Vec<Step>>, AllocError>
    requires types { IsTrue (has_types m.now start.now) }
    requires customs { AreTypedOver m.now c.now }
    requires sound { IsSound m.now }
    ensures value { (b : Bool) → IfOk result (λ o. option_map (λ v. map step_of v.items) o ≡ rule.drop_idle m.now (readings c.now) (shape_behind m.now (readings c.now) start.now (map step_of before.now)) b (step_of step.now) (map step_of rest.now)) }
    ensures some { IfOk result (λ o. IfSome o (λ v. 0 < length v.items)) }
{
    match climbed_by(step) {
        Some(climb) => {
            let made = without_idle(alloc, m, c, start, before, climb)?;
            match with_starts(alloc, climb, made)? {
                Some(step) => Ok(Some(before_copies(alloc, step, rest)?)),
                None => Ok(None),
            }
        }
        None => Ok(None),
    }
}
