//! The rule that takes a filter past a walk over nodes.
ghost use Rattle.std.specs.Prelude.{◌≡◌, ◌<◌, Bool, IfOk, IfSome, IsTrue, length, map, option_map};
ghost use Rattle.edm_model.specs.Soundness.{IsSound};
ghost use Rattle.apply_ast.specs.Views.{step_of};
ghost use Rattle.context_typing.specs.Readings.{readings, AreTypedOver};
ghost use Rattle.context_typing.specs.ShapeTypes.{has_types};
ghost use Rattle.rewrite_forms.specs.StepShapes.{shape_behind};
ghost use Rattle.rewrite_laws.specs.Rewrites as rule;

use crate::filters::{Condition, passed_by};
use apply_ast::Step;
use context_typing::{Customs, Shape, is_risky};
use edm_model::Model;
use rewrite_forms::{begins_with_filter, shape_behind, walked_by};
use std::alloc::{AllocError, Global};

/// A sure filter passes a walk over the nodes of a sure path.
pub(crate) fn pass_traverse(
    alloc: Global,
    m: &Model,
    c: &Customs,
    start: &Shape,
    before: &[Step],
    step: &Step,
    rest: &[Step],
) -> Result<Option<Vec<Step>>, AllocError>
    requires types { IsTrue (has_types m.now start.now) }
    requires customs { AreTypedOver m.now c.now }
    requires sound { IsSound m.now }
    ensures value { (b : Bool) → IfOk result (λ o. option_map (λ v. map step_of v.items) o ≡ rule.pass_traverse m.now (readings c.now) (shape_behind m.now (readings c.now) start.now (map step_of before.now)) b (step_of step.now) (map step_of rest.now)) }
    ensures some { IfOk result (λ o. IfSome o (λ v. 0 < length v.items)) }
{
    match walked_by(step) {
        Some(path) => {
            if !begins_with_filter(rest) {
                return Ok(None);
            }
            let shape = shape_behind(alloc, m, c, start, before)?;
            if is_risky(&shape, path) {
                return Ok(None);
            }
            passed_by(alloc, m, &shape, &Condition::Sure, step, rest)
        }
        None => Ok(None),
    }
}
