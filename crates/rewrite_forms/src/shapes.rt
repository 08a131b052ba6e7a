//! The shapes behind steps.
ghost use Rattle.std.specs.Prelude.{◌≡◌, IfOk, IfSome, IsTrue, map, option_map};
ghost use Rattle.edm_model.specs.LookUps.{IsType};
ghost use Rattle.edm_model.specs.Soundness.{IsSound};
ghost use Rattle.apply_ast.specs.Trees.{pipe};
ghost use Rattle.apply_ast.specs.Views.{step_of};
ghost use Rattle.context_typing.specs.Readings.{readings, AreTypedOver};
ghost use Rattle.context_typing.specs.Nodes.{nodes_pair};
ghost use Rattle.context_typing.specs.ShapeTypes.{has_types};
ghost use Rattle.context_typing.specs.Typing.{after, steps_shape};
ghost use Rattle.rewrite_forms.specs.StepShapes.{shape_behind};

use apply_ast::Step;
use context_typing::{Customs, Nodes, Shape, type_step};
use edm_model::{Model, TypeId};
use std::alloc::{AllocError, Global};

/// The shape behind a step, or the one before it where the step has no typing.
pub fn shape_after(
    alloc: Global,
    m: &Model,
    c: &Customs,
    shape: Shape,
    step: &Step,
) -> Result<Shape, AllocError>
    requires types { IsTrue (has_types m.now shape) }
    requires customs { AreTypedOver m.now c.now }
    requires sound { IsSound m.now }
    ensures value { IfOk result (λ S. S ≡ after m.now (readings c.now) shape (step_of step.now)) }
    ensures types { IfOk result (λ S. IsTrue (has_types m.now S)) }
{
    match type_step(alloc, m, c, shape.copy(alloc)?, step)? {
        Some(outcome) => Ok(outcome.shape),
        None => Ok(shape),
    }
}

/// The shape behind steps.
pub fn shape_behind(
    alloc: Global,
    m: &Model,
    c: &Customs,
    start: &Shape,
    before: &[Step],
) -> Result<Shape, AllocError>
    requires types { IsTrue (has_types m.now start.now) }
    requires customs { AreTypedOver m.now c.now }
    requires sound { IsSound m.now }
    ensures value { IfOk result (λ S. S ≡ shape_behind m.now (readings c.now) start.now (map step_of before.now)) }
    ensures types { IfOk result (λ S. IsTrue (has_types m.now S)) }
{
    let mut shape = start.copy(alloc)?;
    for step in before {
        let next = shape_after(alloc, m, c, shape, step)?;
        shape = next;
    }
    Ok(shape)
}

/// The shape behind steps, where they have a typing.
pub fn steps_shape(
    alloc: Global,
    m: &Model,
    c: &Customs,
    start: &Shape,
    steps: &[Step],
) -> Result<Option<Shape>, AllocError>
    requires types { IsTrue (has_types m.now start.now) }
    requires customs { AreTypedOver m.now c.now }
    requires sound { IsSound m.now }
    ensures value { IfOk result (λ o. o ≡ steps_shape m.now (readings c.now) start.now (pipe (map step_of steps.now))) }
    ensures types { IfOk result (λ o. IfSome o (λ S. IsTrue (has_types m.now S))) }
{
    let mut shape = start.copy(alloc)?;
    for step in steps {
        match type_step(alloc, m, c, shape, step)? {
            Some(outcome) => shape = outcome.shape,
            None => return Ok(None),
        }
    }
    Ok(Some(shape))
}

/// The entity type of nodes.
pub fn type_of(m: &Model, nodes: Option<Nodes>) -> Option<TypeId>
    requires { IfSome nodes (λ x. IsType m.now x.of) }
    ensures value { result ≡ option_map (λ x. x.0) (option_map nodes_pair nodes) }
    ensures there { IfSome result (IsType m.now) }
{
    match nodes {
        Some(nodes) => Some(nodes.of),
        None => None,
    }
}
