//! The filters behind a step: which of them may pass it, and the steps after it has.
ghost use Rattle.std.specs.Prelude.{◌≡◌, ◌<◌, ◌==◌, ◌&&◌, ◌||◌, IfOk, IfSome, IsTrue, length, map, option_map};
ghost use Rattle.edm_values.specs.Literals.{is_boolean_kind};
ghost use Rattle.apply_ast.specs.Views.{expr_of, step_of};
ghost use Rattle.context_typing.specs.ShapeTypes.{has_types};
ghost use Rattle.context_typing.specs.Typing as typing;
ghost use Rattle.rewrite_rules.specs.Conditions as spec;
ghost use Rattle.rewrite_laws.specs.Rewrites.{passing};
ghost use Rattle.rewrite_laws.specs.Rewrites as rule;

use crate::made::{before_copies, put_copy};
use apply_ast::{Expr, Name, Named, Path, Step};
use context_typing::{Shape, is_sure, is_test};
use edm_model::Model;
use rewrite_forms::{
    all_begin, any_begins, filtered_by, has_path, is_test_on, names_any, on_node, over, put_copies,
};
use std::alloc::{AllocError, Global};

/// What a filter must meet to pass a step, or to go into it.
#[derive(Drop)]
pub(crate) enum Condition<'a> {
    /// Every filter does.
    Any,
    /// None of the paths is one of these new columns.
    NamesNone(&'a [Named]),
    /// It is sure.
    Sure,
    /// It is sure, and each path is one of these.
    SureOver(&'a [Path]),
    /// It is sure, and no path begins with this alias.
    SureOutside(&'a Name),
    /// No path begins with this alias.
    Outside(&'a Name),
    /// There is a path, and each begins with this alias.
    Inside(&'a Name),
    /// It has a typing on each of these shapes.
    TypedOn(&'a [Shape]),
    /// It is sure, there is a path, each is one of these, and with the key's name in place of each it is a sure test on the nodes' shape.
    OnNodes(&'a [Path], &'a Name, &'a Shape),
}

/// Whether an expression meets a condition, on the shape behind the step. It is passed whether it is sure there.
fn meets(
    alloc: Global,
    m: &Model,
    shape: &Shape,
    condition: &Condition,
    e: &Expr,
    sure: bool,
) -> Result<bool, AllocError>
    requires right { spec.IsRight m.now condition.now }
    requires judged { sure ≡ typing.is_sure m.now shape.now (expr_of e.now) }
    ensures { IfOk result (λ b. b ≡ spec.meets m.now shape.now condition.now (expr_of e.now)) }
{
    match condition {
        Condition::Any => Ok(true),
        Condition::NamesNone(made) => Ok(!names_any(e, made)),
        Condition::Sure => Ok(sure),
        Condition::SureOver(paths) => Ok(over(paths, e) && sure),
        Condition::SureOutside(alias) => Ok(!any_begins(alias, e) && sure),
        Condition::Outside(alias) => Ok(!any_begins(alias, e)),
        Condition::Inside(alias) => Ok(all_begin(alias, e)),
        Condition::TypedOn(shapes) => Ok(is_test_on(m, shapes, e)),
        Condition::OnNodes(paths, key, nodes) => {
            if !has_path(e) || !over(paths, e) || !sure {
                return Ok(false);
            }
            may_choose(alloc, m, key, nodes, e)
        }
    }
}

/// Whether an expression is a sure test of nodes, with the name of their key in place of each path.
fn may_choose(
    alloc: Global,
    m: &Model,
    key: &Name,
    nodes: &Shape,
    e: &Expr,
) -> Result<bool, AllocError>
    requires { IsTrue (has_types m.now nodes.now) }
    ensures { IfOk result (λ b. b ≡ (typing.has_kind is_boolean_kind m.now nodes.now (rule.on_node key.now (expr_of e.now)) && typing.is_sure m.now nodes.now (rule.on_node key.now (expr_of e.now)))) }
{
    let there = on_node(alloc, key, e)?;
    Ok(is_test(m, nodes, &there) && is_sure(m, nodes, &there))
}

/// Whether a filter behind so many others may pass them, and meets the condition.
fn passes(
    alloc: Global,
    m: &Model,
    shape: &Shape,
    condition: &Condition,
    e: &Expr,
    k: usize,
    sure: bool,
) -> Result<bool, AllocError>
    requires right { spec.IsRight m.now condition.now }
    requires judged { sure ≡ typing.is_sure m.now shape.now (expr_of e.now) }
    ensures { IfOk result (λ b. b ≡ ((k == 0 || sure) && spec.meets m.now shape.now condition.now (expr_of e.now))) }
{
    if k == 0 || sure {
        meets(alloc, m, shape, condition, e, sure)
    } else {
        Ok(false)
    }
}

/// The nearest filter behind a step that may pass those before it and meets the condition, on the shape behind the step:
/// how many filters stand before it, and what it tests.
pub(crate) fn nearest<'a>(
    alloc: Global,
    m: &Model,
    shape: &Shape,
    condition: &Condition,
    rest: &'a [Step],
) -> Result<Option<(usize, &'a Expr)>, AllocError>
    requires types { IsTrue (has_types m.now shape.now) }
    requires right { spec.IsRight m.now condition.now }
    ensures value { IfOk result (λ o. option_map (λ x. (x.0, expr_of x.1.now)) o ≡ spec.nearest m.now shape.now (spec.meets m.now shape.now condition.now) (map step_of rest.now)) }
    ensures within { IfOk result (λ o. IfSome o (λ x. x.0 < length rest.now)) }
{
    for (k, step) in rest.iter().enumerate() {
        let e = match filtered_by(step) {
            Some(e) => e,
            None => return Ok(None),
        };
        let sure = is_sure(m, shape, e);
        let fits = passes(alloc, m, shape, condition, e, k, sure)?;
        if fits {
            return Ok(Some((k, e)));
        }
        if !sure {
            return Ok(None);
        }
    }
    Ok(None)
}

/// The steps after the filter behind so many others has passed the step.
fn moved(alloc: Global, step: &Step, rest: &[Step], k: usize) -> Result<Vec<Step>, AllocError>
    requires { k < length rest.now }
    ensures value { IfOk result (λ v. map step_of v.items ≡ spec.moved (step_of step.now) (map step_of rest.now) k) }
    ensures some { IfOk result (λ v. 0 < length v.items) }
{
    let mut made = Vec::new(alloc);
    put_copy(&mut made, alloc, &rest[k])?;
    put_copy(&mut made, alloc, step)?;
    put_copies(&mut made, alloc, &rest[..k])?;
    put_copies(&mut made, alloc, &rest[k + 1..])?;
    Ok(made)
}

/// The steps after the filter behind so many others has gone into a step, which it made another.
pub(crate) fn entered(
    alloc: Global,
    made: Step,
    rest: &[Step],
    k: usize,
) -> Result<Vec<Step>, AllocError>
    requires { k < length rest.now }
    ensures value { IfOk result (λ v. map step_of v.items ≡ spec.entered (step_of made) (map step_of rest.now) k) }
    ensures some { IfOk result (λ v. 0 < length v.items) }
{
    let mut steps = before_copies(alloc, made, &rest[..k])?;
    put_copies(&mut steps, alloc, &rest[k + 1..])?;
    Ok(steps)
}

/// The steps after the nearest filter that may pass a step has passed it, if there is one.
pub(crate) fn passed_by(
    alloc: Global,
    m: &Model,
    shape: &Shape,
    condition: &Condition,
    step: &Step,
    rest: &[Step],
) -> Result<Option<Vec<Step>>, AllocError>
    requires types { IsTrue (has_types m.now shape.now) }
    requires right { spec.IsRight m.now condition.now }
    ensures value { IfOk result (λ o. option_map (λ v. map step_of v.items) o ≡ passing m.now shape.now (spec.meets m.now shape.now condition.now) (step_of step.now) (map step_of rest.now)) }
    ensures some { IfOk result (λ o. IfSome o (λ v. 0 < length v.items)) }
{
    match nearest(alloc, m, shape, condition, rest)? {
        Some((k, _)) => Ok(Some(moved(alloc, step, rest, k)?)),
        None => Ok(None),
    }
}
