//! The shapes behind the branches of a concatenation, and tests on them.
ghost use Rattle.std.specs.Prelude.{◌≡◌, IfOk, IfSome, IsTrue, map, option_map};
ghost use Rattle.std.specs.List.{list_all};
ghost use Rattle.edm_values.specs.Lists.{all_some};
ghost use Rattle.edm_model.specs.Soundness.{IsSound};
ghost use Rattle.apply_ast.specs.Views.{expr_of, pipe_of};
ghost use Rattle.context_typing.specs.Readings.{readings, AreTypedOver};
ghost use Rattle.context_typing.specs.ShapeTypes.{has_types};
ghost use Rattle.context_typing.specs.Typing as typing;
ghost use Rattle.rewrite_forms.specs.Branches as spec;

use crate::shapes::steps_shape;
use apply_ast::{Expr, Pipe};
use context_typing::{Customs, Shape, is_test};
use edm_model::Model;
use std::alloc::{AllocError, Global};

/// Whether an expression is a test on each of these shapes.
pub fn is_test_on(m: &Model, shapes: &[Shape], e: &Expr) -> bool
    requires { IsTrue (list_all (has_types m.now) shapes.now) }
    ensures value { result ≡ spec.is_test_on m.now shapes.now (expr_of e.now) }
{
    for shape in shapes {
        if !is_test(m, shape, e) {
            return false;
        }
    }
    true
}

/// The shape behind each branch, where all of them have a typing.
pub fn branch_shapes(
    alloc: Global,
    m: &Model,
    c: &Customs,
    shape: &Shape,
    branches: &[Pipe],
) -> Result<Option<Vec<Shape>>, AllocError>
    requires types { IsTrue (has_types m.now shape.now) }
    requires customs { AreTypedOver m.now c.now }
    requires sound { IsSound m.now }
    ensures value { IfOk result (λ o. option_map (λ v. v.items) o ≡ all_some (map (typing.steps_shape m.now (readings c.now) shape.now) (map pipe_of branches.now))) }
    ensures types { IfOk result (λ o. IfSome o (λ v. IsTrue (list_all (has_types m.now) v.items))) }
{
    let mut shapes = Vec::new(alloc);
    for branch in branches {
        match steps_shape(alloc, m, c, shape, branch.steps())? {
            Some(next) => shapes.push(next)?,
            None => return Ok(None),
        }
    }
    Ok(Some(shapes))
}
