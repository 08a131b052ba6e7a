//! The rules of groupings: filters that pass one, or go into the pipeline that chooses its nodes.
ghost use Rattle.std.specs.Prelude.{◌≡◌, ◌<◌, Bool, IfOk, IfSome, IsTrue, None, is_some, length, map, option_map};
ghost use Rattle.edm_model.specs.Soundness.{IsSound};
ghost use Rattle.apply_ast.specs.Trees.{Step as tree};
ghost use Rattle.apply_ast.specs.Views.{expr_of, inner_of, key_of, keys_from, pipe_of, step_of};
ghost use Rattle.context_typing.specs.Readings.{readings, AreTypedOver};
ghost use Rattle.context_typing.specs.ShapeTypes.{has_types};
ghost use Rattle.context_typing.specs.Typing as typing;
ghost use Rattle.rewrite_forms.specs.GroupForms.{key_part, part_of};
ghost use Rattle.rewrite_rules.specs.GroupForms as spec;
ghost use Rattle.rewrite_forms.specs.StepShapes.{shape_behind};
ghost use Rattle.rewrite_laws.specs.Rewrites as rule;

use crate::filters::{Condition, entered, nearest, passed_by};
use crate::nodes::with_chosen;
use apply_ast::{Expr, KeyItem, Name, Path, Pipe, Step};
use context_typing::{Customs, Shape};
use edm_model::Model;
use rewrite_forms::{
    begins_with_filter, chosen_nodes, first_rollup, grouping_quiet, in_every_row, on_node, only,
    recursive_key, shape_after, shape_behind,
};
use std::alloc::{AllocError, Global};

/// What stands beside plain keys in the groupings of a rule.
#[derive(Clone, Copy, Drop)]
pub(crate) enum Grouping {
    /// Nothing.
    Plain,
    /// The levels of a rollup.
    Levels,
    /// The nodes of a hierarchy.
    Nodes,
}

/// The keys of a grouping, and what is made of each group.
fn grouped_by(step: &Step) -> Option<(&[KeyItem], &Option<Pipe>)>
    ensures { option_map (λ x. (keys_from (map key_of x.0.now), inner_of (option_map pipe_of x.1.now))) result ≡ spec.grouped_by (step_of step.now) }
{
    match step {
        Step::GroupBy(keys, inner) => Some((keys.as_slice(), inner)),
        _ => None,
    }
}

/// Whether a key is a plain path.
fn is_path(key: &KeyItem) -> bool
    ensures { result ≡ rule.is_no_rollup (key_part (key_of key.now)) }
{
    match key {
        KeyItem::Plain(_) => true,
        KeyItem::Rollup(_, _) => false,
        KeyItem::Recursive(_, _, _) => false,
    }
}

/// Whether a key is the levels of a rollup.
fn is_levels(key: &KeyItem) -> bool
    ensures { result ≡ rule.is_levels (key_part (key_of key.now)) }
{
    match key {
        KeyItem::Plain(_) => false,
        KeyItem::Rollup(_, _) => true,
        KeyItem::Recursive(_, _, _) => false,
    }
}

/// Whether a key is a recursive rollup.
fn is_recursive(key: &KeyItem) -> bool
    ensures { result ≡ typing.is_nodes (key_part (key_of key.now)) }
{
    match key {
        KeyItem::Plain(_) => false,
        KeyItem::Rollup(_, _) => false,
        KeyItem::Recursive(_, _, _) => true,
    }
}

/// Whether a key is what is looked for.
fn is_of(kind: Grouping, key: &KeyItem) -> bool
    ensures { result ≡ spec.is_of kind (key_part (key_of key.now)) }
{
    match kind {
        Grouping::Plain => is_path(key),
        Grouping::Levels => is_levels(key),
        Grouping::Nodes => is_recursive(key),
    }
}

/// Whether nothing beside plain keys is looked for.
fn is_plain(kind: Grouping) -> bool
    ensures { result ≡ spec.is_of kind (part_of None) }
{
    match kind {
        Grouping::Plain => true,
        Grouping::Levels => false,
        Grouping::Nodes => false,
    }
}

/// Whether what stands beside plain keys is what is looked for.
fn has_part(kind: Grouping, keys: &[KeyItem]) -> bool
    ensures { result ≡ spec.is_of kind (typing.rollup_part (typing.group_keys (keys_from (map key_of keys.now)))) }
{
    match first_rollup(keys) {
        Some(key) => is_of(kind, key),
        None => is_plain(kind),
    }
}

/// A sure filter on keys that stand in every row passes a grouping whose keys are of this kind.
pub(crate) fn pass_grouping(
    alloc: Global,
    m: &Model,
    c: &Customs,
    kind: Grouping,
    start: &Shape,
    before: &[Step],
    step: &Step,
    rest: &[Step],
) -> Result<Option<Vec<Step>>, AllocError>
    requires types { IsTrue (has_types m.now start.now) }
    requires customs { AreTypedOver m.now c.now }
    requires sound { IsSound m.now }
    requires typed { IsTrue (is_some (typing.step_shape m.now (readings c.now) (shape_behind m.now (readings c.now) start.now (map step_of before.now)) (step_of step.now))) }
    ensures value { (b : Bool) → IfOk result (λ o. option_map (λ v. map step_of v.items) o ≡ rule.pass_grouping (spec.is_of kind) m.now (readings c.now) (shape_behind m.now (readings c.now) start.now (map step_of before.now)) b (step_of step.now) (map step_of rest.now)) }
    ensures some { IfOk result (λ o. IfSome o (λ v. 0 < length v.items)) }
{
    match grouped_by(step) {
        Some((keys, inner)) => {
            if !begins_with_filter(rest) {
                return Ok(None);
            }
            if !has_part(kind, keys) {
                return Ok(None);
            }
            let there = shape_behind(alloc, m, c, start, before)?;
            let quiet = grouping_quiet(alloc, m, c, &there, keys, inner)?;
            if !quiet {
                return Ok(None);
            }
            let shape = shape_after(alloc, m, c, there, step)?;
            let over = in_every_row(alloc, keys)?;
            passed_by(alloc, m, &shape, &Condition::SureOver(&over), step, rest)
        }
        None => Ok(None),
    }
}

/// The grouping with a filter at the end of the pipeline that chooses its nodes, which has the node's key in place of each path.
fn chosen_by(
    alloc: Global,
    keys: &[KeyItem],
    inner: &Option<Pipe>,
    key: &Name,
    e: &Expr,
) -> Result<Step, AllocError>
    ensures { IfOk result (λ s. step_of s ≡ tree.GroupBy (rule.ended_keys (tree.Filter (rule.on_node key.now (expr_of e.now))) (keys_from (map key_of keys.now))) (inner_of (option_map pipe_of inner.now))) }
{
    let test = on_node(alloc, key, e)?;
    with_chosen(alloc, keys, inner, &test)
}

/// The steps after the nearest filter on the node alone has gone into the pipeline that chooses the nodes, if there is one.
fn into_nodes(
    alloc: Global,
    m: &Model,
    shape: &Shape,
    keys: &[KeyItem],
    inner: &Option<Pipe>,
    path: &Path,
    nodes: &(Shape, Name),
    rest: &[Step],
) -> Result<Option<Vec<Step>>, AllocError>
    requires types { IsTrue (has_types m.now shape.now) }
    requires nodes { IsTrue (has_types m.now nodes.now.0) }
    ensures value { IfOk result (λ o. option_map (λ v. map step_of v.items) o ≡ spec.into_nodes m.now shape.now (keys_from (map key_of keys.now)) (inner_of (option_map pipe_of inner.now)) path.now nodes.now (map step_of rest.now)) }
    ensures some { IfOk result (λ o. IfSome o (λ v. 0 < length v.items)) }
{
    let paths = only(alloc, path)?;
    let condition = Condition::OnNodes(&paths, &nodes.1, &nodes.0);
    match nearest(alloc, m, shape, &condition, rest)? {
        Some((k, e)) => {
            let made = chosen_by(alloc, keys, inner, &nodes.1, e)?;
            Ok(Some(entered(alloc, made, rest, k)?))
        }
        None => Ok(None),
    }
}

/// A sure filter on the node alone goes to the end of the pipeline that chooses the nodes.
pub(crate) fn filter_nodes(
    alloc: Global,
    m: &Model,
    c: &Customs,
    start: &Shape,
    before: &[Step],
    step: &Step,
    rest: &[Step],
) -> Result<Option<Vec<Step>>, AllocError>
    requires types { IsTrue (has_types m.now start.now) }
    requires customs { AreTypedOver m.now c.now }
    requires sound { IsSound m.now }
    requires typed { IsTrue (is_some (typing.step_shape m.now (readings c.now) (shape_behind m.now (readings c.now) start.now (map step_of before.now)) (step_of step.now))) }
    ensures value { (b : Bool) → IfOk result (λ o. option_map (λ v. map step_of v.items) o ≡ rule.filter_nodes m.now (readings c.now) (shape_behind m.now (readings c.now) start.now (map step_of before.now)) b (step_of step.now) (map step_of rest.now)) }
    ensures some { IfOk result (λ o. IfSome o (λ v. 0 < length v.items)) }
{
    match grouped_by(step) {
        Some((keys, inner)) => {
            if !begins_with_filter(rest) {
                return Ok(None);
            }
            match recursive_key(keys) {
                Some((hier, path, chosen)) => {
                    let there = shape_behind(alloc, m, c, start, before)?;
                    let quiet = grouping_quiet(alloc, m, c, &there, keys, inner)?;
                    if !quiet {
                        return Ok(None);
                    }
                    let shape = shape_after(alloc, m, c, there, step)?;
                    match chosen_nodes(alloc, m, c, hier, chosen)? {
                        Some(nodes) => into_nodes(
                            alloc, m, &shape, keys, inner, path, &nodes, rest,
                        ),
                        None => Ok(None),
                    }
                }
                None => Ok(None),
            }
        }
        None => Ok(None),
    }
}
