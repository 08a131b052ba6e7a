//! The rules at one place.
ghost use Rattle.std.specs.Prelude.{◌≡◌, ◌<◌, ◌+◌, Bool, IfOk, IfSome, IsTrue, is_some, length, map, option_map};
ghost use Rattle.edm_model.specs.Models as seen;
ghost use Rattle.edm_model.specs.Soundness.{IsSound};
ghost use Rattle.edm_values.specs.Lists.{is_nonempty};
ghost use Rattle.apply_ast.specs.Views.{step_of};
ghost use Rattle.context_typing.specs.Readings.{readings, AreTypedOver};
ghost use Rattle.context_typing.specs.Shapes as shapes;
ghost use Rattle.context_typing.specs.ShapeTypes.{has_types};
ghost use Rattle.context_typing.specs.Typing as typing;
ghost use Rattle.context_typing.specs.Typing.{step_shape};
ghost use Rattle.rewrite_rules.specs.Joins.{IsTypedFrom};
ghost use Rattle.rewrite_rules.specs.RuleNames.{rule_of};
ghost use Rattle.rewrite_forms.specs.StepShapes.{shape_behind};
ghost use Rattle.rewrite_laws.specs.Rewrites as rule;

use crate::branches::{factor_branches, filter_branches};
use crate::climbs::drop_idle;
use crate::filters::{Condition, passed_by};
use crate::groups::{Grouping, filter_nodes, pass_grouping};
use crate::joins::{filter_related, pass_join, pass_outer_join};
use crate::made::{before_copies, copies, count_before_copies, filters_before_copies};
use crate::walks::pass_traverse;
use apply_ast::Step;
use context_typing::{Customs, Shape, is_sure};
use edm_model::Model;
use rewrite_forms::{
    begins_with_aggregate, begins_with_filter, computed_by, count_from_top, first_count,
    is_identity, operands, order_sure, ordered_by, passes_all, same_expr, shape_after,
    shape_behind,
};
use std::alloc::{AllocError, Global};

/// A rule by its name, in the order in which the rules come.
#[derive(Clone, Copy, Debug, Drop)]
pub enum RuleName {
    DropIdentity,
    SplitConjunction,
    DropTrue,
    PassCompute,
    PassOrder,
    PassGroups,
    PassRollup,
    FilterBranches,
    FactorBranches,
    PassJoin,
    FilterRelated,
    PassOuterJoin,
    DropOrder,
    JoinCounts,
    PassTraverse,
    PassNodes,
    FilterNodes,
    DropIdle,
}

/// `identity` beside another step is dropped.
fn drop_identity(
    alloc: Global,
    before: &[Step],
    step: &Step,
    rest: &[Step],
) -> Result<Option<Vec<Step>>, AllocError>
    ensures value { (m : seen.Model) (c : typing.Customs) (S : shapes.Shape) → IfOk result (λ o. option_map (λ v. map step_of v.items) o ≡ rule.drop_identity m c S (is_nonempty (map step_of before.now)) (step_of step.now) (map step_of rest.now)) }
    ensures some { IfOk result (λ o. IfSome o (λ v. 0 < length before.now + length v.items)) }
{
    if !is_identity(step) || (before.is_empty() && rest.is_empty()) {
        return Ok(None);
    }
    Ok(Some(copies(alloc, rest)?))
}

/// A conjunction whose second operand is sure becomes two filters.
fn split_conjunction(
    alloc: Global,
    m: &Model,
    c: &Customs,
    start: &Shape,
    before: &[Step],
    step: &Step,
    rest: &[Step],
) -> Result<Option<Vec<Step>>, AllocError>
    requires types { IsTrue (has_types m.now start.now) }
    requires customs { AreTypedOver m.now c.now }
    requires sound { IsSound m.now }
    ensures value { (b : Bool) → IfOk result (λ o. option_map (λ v. map step_of v.items) o ≡ rule.split_conjunction m.now (readings c.now) (shape_behind m.now (readings c.now) start.now (map step_of before.now)) b (step_of step.now) (map step_of rest.now)) }
    ensures some { IfOk result (λ o. IfSome o (λ v. 0 < length v.items)) }
{
    match operands(step) {
        Some((first, second)) => {
            let shape = shape_behind(alloc, m, c, start, before)?;
            if !is_sure(m, &shape, second) {
                return Ok(None);
            }
            Ok(Some(filters_before_copies(alloc, first, second, rest)?))
        }
        None => Ok(None),
    }
}

/// The filter that is always true becomes `identity`.
fn drop_true(alloc: Global, step: &Step, rest: &[Step]) -> Result<Option<Vec<Step>>, AllocError>
    ensures value { (m : seen.Model) (c : typing.Customs) (S : shapes.Shape) (before : Bool) → IfOk result (λ o. option_map (λ v. map step_of v.items) o ≡ rule.drop_true m c S before (step_of step.now) (map step_of rest.now)) }
    ensures some { IfOk result (λ o. IfSome o (λ v. 0 < length v.items)) }
{
    if !passes_all(step) {
        return Ok(None);
    }
    Ok(Some(before_copies(alloc, Step::Identity, rest)?))
}

/// A filter that names no new column passes a computation.
fn pass_compute(
    alloc: Global,
    m: &Model,
    c: &Customs,
    start: &Shape,
    before: &[Step],
    step: &Step,
    rest: &[Step],
) -> Result<Option<Vec<Step>>, AllocError>
    requires types { IsTrue (has_types m.now start.now) }
    requires customs { AreTypedOver m.now c.now }
    requires sound { IsSound m.now }
    ensures value { (b : Bool) → IfOk result (λ o. option_map (λ v. map step_of v.items) o ≡ rule.pass_compute m.now (readings c.now) (shape_behind m.now (readings c.now) start.now (map step_of before.now)) b (step_of step.now) (map step_of rest.now)) }
    ensures some { IfOk result (λ o. IfSome o (λ v. 0 < length v.items)) }
{
    match computed_by(step) {
        Some(items) => {
            if !begins_with_filter(rest) {
                return Ok(None);
            }
            let there = shape_behind(alloc, m, c, start, before)?;
            let shape = shape_after(alloc, m, c, there, step)?;
            passed_by(
                alloc,
                m,
                &shape,
                &Condition::NamesNone(items.as_slice()),
                step,
                rest,
            )
        }
        None => Ok(None),
    }
}

/// A filter passes an order by sure expressions.
fn pass_order(
    alloc: Global,
    m: &Model,
    c: &Customs,
    start: &Shape,
    before: &[Step],
    step: &Step,
    rest: &[Step],
) -> Result<Option<Vec<Step>>, AllocError>
    requires types { IsTrue (has_types m.now start.now) }
    requires customs { AreTypedOver m.now c.now }
    requires sound { IsSound m.now }
    ensures value { (b : Bool) → IfOk result (λ o. option_map (λ v. map step_of v.items) o ≡ rule.pass_order m.now (readings c.now) (shape_behind m.now (readings c.now) start.now (map step_of before.now)) b (step_of step.now) (map step_of rest.now)) }
    ensures some { IfOk result (λ o. IfSome o (λ v. 0 < length v.items)) }
{
    match ordered_by(step) {
        Some(items) => {
            if !begins_with_filter(rest) {
                return Ok(None);
            }
            let shape = shape_behind(alloc, m, c, start, before)?;
            if !order_sure(m, &shape, items.as_slice()) {
                return Ok(None);
            }
            passed_by(alloc, m, &shape, &Condition::Any, step, rest)
        }
        None => Ok(None),
    }
}

/// An order by sure expressions directly before an aggregation is dropped.
fn drop_order(
    alloc: Global,
    m: &Model,
    c: &Customs,
    start: &Shape,
    before: &[Step],
    step: &Step,
    rest: &[Step],
) -> Result<Option<Vec<Step>>, AllocError>
    requires types { IsTrue (has_types m.now start.now) }
    requires customs { AreTypedOver m.now c.now }
    requires sound { IsSound m.now }
    ensures value { (b : Bool) → IfOk result (λ o. option_map (λ v. map step_of v.items) o ≡ rule.drop_order m.now (readings c.now) (shape_behind m.now (readings c.now) start.now (map step_of before.now)) b (step_of step.now) (map step_of rest.now)) }
    ensures some { IfOk result (λ o. IfSome o (λ v. 0 < length v.items)) }
{
    match ordered_by(step) {
        Some(order) => {
            if !begins_with_aggregate(rest) {
                return Ok(None);
            }
            let shape = shape_behind(alloc, m, c, start, before)?;
            if !order_sure(m, &shape, order.as_slice()) {
                return Ok(None);
            }
            Ok(Some(copies(alloc, rest)?))
        }
        None => Ok(None),
    }
}

/// Two counts from the top by one expression become the lesser.
fn join_counts(alloc: Global, step: &Step, rest: &[Step]) -> Result<Option<Vec<Step>>, AllocError>
    ensures value { (m : seen.Model) (c : typing.Customs) (S : shapes.Shape) (before : Bool) → IfOk result (λ o. option_map (λ v. map step_of v.items) o ≡ rule.join_counts m c S before (step_of step.now) (map step_of rest.now)) }
    ensures some { IfOk result (λ o. IfSome o (λ v. 0 < length v.items)) }
{
    match count_from_top(step) {
        Some((n, by)) => match first_count(rest) {
            Some((k, next)) => {
                if !same_expr(by, next) {
                    return Ok(None);
                }
                Ok(Some(count_before_copies(alloc, n.min(k), by, &rest[1..])?))
            }
            None => Ok(None),
        },
        None => Ok(None),
    }
}

/// What a rule makes of the steps from a place on, where it applies there.
pub fn at_place(
    alloc: Global,
    m: &Model,
    c: &Customs,
    rule: RuleName,
    start: &Shape,
    before: &[Step],
    step: &Step,
    rest: &[Step],
) -> Result<Option<Vec<Step>>, AllocError>
    requires types { IsTrue (has_types m.now start.now) }
    requires customs { AreTypedOver m.now c.now }
    requires sound { IsSound m.now }
    requires typed { IsTrue (is_some (step_shape m.now (readings c.now) (shape_behind m.now (readings c.now) start.now (map step_of before.now)) (step_of step.now))) }
    requires onward { IsTypedFrom m.now (readings c.now) (shape_behind m.now (readings c.now) start.now (map step_of before.now)) (step_of step.now) (map step_of rest.now) }
    ensures value { IfOk result (λ o. option_map (λ v. map step_of v.items) o ≡ rule_of rule m.now (readings c.now) (shape_behind m.now (readings c.now) start.now (map step_of before.now)) (is_nonempty (map step_of before.now)) (step_of step.now) (map step_of rest.now)) }
    ensures some { IfOk result (λ o. IfSome o (λ v. 0 < length before.now + length v.items)) }
{
    match rule {
        RuleName::DropIdentity => drop_identity(alloc, before, step, rest),
        RuleName::SplitConjunction => split_conjunction(alloc, m, c, start, before, step, rest),
        RuleName::DropTrue => drop_true(alloc, step, rest),
        RuleName::PassCompute => pass_compute(alloc, m, c, start, before, step, rest),
        RuleName::PassOrder => pass_order(alloc, m, c, start, before, step, rest),
        RuleName::PassGroups => pass_grouping(
            alloc,
            m,
            c,
            Grouping::Plain,
            start,
            before,
            step,
            rest,
        ),
        RuleName::PassRollup => pass_grouping(
            alloc,
            m,
            c,
            Grouping::Levels,
            start,
            before,
            step,
            rest,
        ),
        RuleName::FilterBranches => filter_branches(alloc, m, c, start, before, step, rest),
        RuleName::FactorBranches => factor_branches(alloc, step, rest),
        RuleName::PassJoin => pass_join(alloc, m, c, start, before, step, rest),
        RuleName::FilterRelated => filter_related(alloc, m, c, start, before, step, rest),
        RuleName::PassOuterJoin => pass_outer_join(alloc, m, c, start, before, step, rest),
        RuleName::DropOrder => drop_order(alloc, m, c, start, before, step, rest),
        RuleName::JoinCounts => join_counts(alloc, step, rest),
        RuleName::PassTraverse => pass_traverse(alloc, m, c, start, before, step, rest),
        RuleName::PassNodes => pass_grouping(
            alloc,
            m,
            c,
            Grouping::Nodes,
            start,
            before,
            step,
            rest,
        ),
        RuleName::FilterNodes => filter_nodes(alloc, m, c, start, before, step, rest),
        RuleName::DropIdle => drop_idle(alloc, m, c, start, before, step, rest),
    }
}
