//! The rules that take a filter past a join, or into one.
ghost use Rattle.std.specs.Prelude.{◌≡◌, ◌<◌, Bool, IfOk, IfSome, IsTrue, is_some, length, map, option_map};
ghost use Rattle.edm_model.specs.Soundness.{IsSound};
ghost use Rattle.apply_ast.specs.Views.{step_of};
ghost use Rattle.context_typing.specs.Readings.{readings, AreTypedOver};
ghost use Rattle.context_typing.specs.ShapeTypes.{has_types};
ghost use Rattle.context_typing.specs.Typing.{step_shape};
ghost use Rattle.rewrite_rules.specs.Conditions.{IsRight};
ghost use Rattle.rewrite_rules.specs.Joins.{passing_quiet, IsTypedFrom};
ghost use Rattle.rewrite_forms.specs.StepShapes.{shape_behind};
ghost use Rattle.rewrite_laws.specs.Rewrites as rule;

use crate::filters::{Condition, entered, nearest, passed_by};
use crate::related::{joined_by, with_filter};
use apply_ast::Step;
use context_typing::{Customs, Shape, type_step};
use edm_model::Model;
use rewrite_forms::{begins_with_filter, shape_after, shape_behind};
use std::alloc::{AllocError, Global};

/// The nearest filter that meets a condition passes a step that is quiet.
fn pass_quiet(
    alloc: Global,
    m: &Model,
    c: &Customs,
    start: &Shape,
    before: &[Step],
    step: &Step,
    condition: &Condition,
    rest: &[Step],
) -> Result<Option<Vec<Step>>, AllocError>
    requires types { IsTrue (has_types m.now start.now) }
    requires customs { AreTypedOver m.now c.now }
    requires sound { IsSound m.now }
    requires typed { IsTrue (is_some (step_shape m.now (readings c.now) (shape_behind m.now (readings c.now) start.now (map step_of before.now)) (step_of step.now))) }
    requires right { IsRight m.now condition.now }
    ensures value { IfOk result (λ o. option_map (λ v. map step_of v.items) o ≡ passing_quiet m.now (readings c.now) (shape_behind m.now (readings c.now) start.now (map step_of before.now)) condition.now (step_of step.now) (map step_of rest.now)) }
    ensures some { IfOk result (λ o. IfSome o (λ v. 0 < length v.items)) }
{
    if !begins_with_filter(rest) {
        return Ok(None);
    }
    let there = shape_behind(alloc, m, c, start, before)?;
    match type_step(alloc, m, c, there, step)? {
        Some(outcome) => {
            if !outcome.quiet {
                return Ok(None);
            }
            passed_by(alloc, m, &outcome.shape, condition, step, rest)
        }
        None => unreachable!(),
    }
}

/// A sure filter with no path under the alias passes a join.
pub(crate) fn pass_join(
    alloc: Global,
    m: &Model,
    c: &Customs,
    start: &Shape,
    before: &[Step],
    step: &Step,
    rest: &[Step],
) -> Result<Option<Vec<Step>>, AllocError>
    requires types { IsTrue (has_types m.now start.now) }
    requires customs { AreTypedOver m.now c.now }
    requires sound { IsSound m.now }
    requires typed { IsTrue (is_some (step_shape m.now (readings c.now) (shape_behind m.now (readings c.now) start.now (map step_of before.now)) (step_of step.now))) }
    ensures value { (b : Bool) → IfOk result (λ o. option_map (λ v. map step_of v.items) o ≡ rule.pass_join m.now (readings c.now) (shape_behind m.now (readings c.now) start.now (map step_of before.now)) b (step_of step.now) (map step_of rest.now)) }
    ensures some { IfOk result (λ o. IfSome o (λ v. 0 < length v.items)) }
{
    match joined_by(step) {
        Some(join) => {
            if join.outer {
                return Ok(None);
            }
            let condition = Condition::SureOutside(&join.alias);
            pass_quiet(alloc, m, c, start, before, step, &condition, rest)
        }
        None => Ok(None),
    }
}

/// A filter with no path under the alias passes an outer join.
pub(crate) fn pass_outer_join(
    alloc: Global,
    m: &Model,
    c: &Customs,
    start: &Shape,
    before: &[Step],
    step: &Step,
    rest: &[Step],
) -> Result<Option<Vec<Step>>, AllocError>
    requires types { IsTrue (has_types m.now start.now) }
    requires customs { AreTypedOver m.now c.now }
    requires sound { IsSound m.now }
    requires typed { IsTrue (is_some (step_shape m.now (readings c.now) (shape_behind m.now (readings c.now) start.now (map step_of before.now)) (step_of step.now))) }
    ensures value { (b : Bool) → IfOk result (λ o. option_map (λ v. map step_of v.items) o ≡ rule.pass_outer_join m.now (readings c.now) (shape_behind m.now (readings c.now) start.now (map step_of before.now)) b (step_of step.now) (map step_of rest.now)) }
    ensures some { IfOk result (λ o. IfSome o (λ v. 0 < length v.items)) }
{
    match joined_by(step) {
        Some(join) => {
            if !join.outer {
                return Ok(None);
            }
            let condition = Condition::Outside(&join.alias);
            pass_quiet(alloc, m, c, start, before, step, &condition, rest)
        }
        None => Ok(None),
    }
}

/// A filter whose paths all lie under the alias goes into the join.
pub(crate) fn filter_related(
    alloc: Global,
    m: &Model,
    c: &Customs,
    start: &Shape,
    before: &[Step],
    step: &Step,
    rest: &[Step],
) -> Result<Option<Vec<Step>>, AllocError>
    requires types { IsTrue (has_types m.now start.now) }
    requires customs { AreTypedOver m.now c.now }
    requires sound { IsSound m.now }
    requires typed { IsTypedFrom m.now (readings c.now) (shape_behind m.now (readings c.now) start.now (map step_of before.now)) (step_of step.now) (map step_of rest.now) }
    ensures value { (b : Bool) → IfOk result (λ o. option_map (λ v. map step_of v.items) o ≡ rule.filter_related m.now (readings c.now) (shape_behind m.now (readings c.now) start.now (map step_of before.now)) b (step_of step.now) (map step_of rest.now)) }
    ensures some { IfOk result (λ o. IfSome o (λ v. 0 < length v.items)) }
{
    match joined_by(step) {
        Some(join) => {
            if join.outer || !begins_with_filter(rest) {
                return Ok(None);
            }
            let there = shape_behind(alloc, m, c, start, before)?;
            let shape = shape_after(alloc, m, c, there, step)?;
            match nearest(alloc, m, &shape, &Condition::Inside(&join.alias), rest)? {
                Some((k, e)) => {
                    let made = with_filter(alloc, join, e)?;
                    Ok(Some(entered(alloc, made, rest, k)?))
                }
                None => Ok(None),
            }
        }
        None => Ok(None),
    }
}
