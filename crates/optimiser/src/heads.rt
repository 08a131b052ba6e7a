//! Which filters pass a step, and which go into it.
ghost use Rattle.std.specs.Prelude.{◌≡◌, ◌&&◌, ◌||◌, not, IfOk, IfSome, IsTrue, is_some, map};
ghost use Rattle.edm_model.specs.Soundness.{IsSound};
ghost use Rattle.apply_ast.specs.Views.{join_of, key_of, keys_from, step_of};
ghost use Rattle.context_typing.specs.Readings.{AreTypedOver, readings};
ghost use Rattle.context_typing.specs.ShapeTypes.{has_types};
ghost use Rattle.context_typing.specs.Typing as typing;
ghost use Rattle.optimiser.specs.HeldSegments as held;
ghost use Rattle.rewrite_forms.specs.GroupForms as groups;
ghost use Rattle.edm_model.specs.Models as seen;
ghost use Rattle.context_typing.specs.Shapes as shapes;
ghost use Rattle.optimiser.specs.HeadForms as form;
ghost use Rattle.optimiser.specs.KnownSteps as known;
ghost use Rattle.optimiser.specs.WalkRules.{rules_named};
ghost use Rattle.walk_laws.specs.Walks as spec;

use crate::held::{Entry, Passage};
use crate::rules::{Rules, is_late};
use apply_ast::{JoinStep, KeyItem, KeyList, PipeList, Step};
use context_typing::{Customs, Shape, is_risky, join_target, set_shape};
use edm_model::Model;
use rewrite_forms::{
    chosen_nodes, grouping_quiet, in_every_row, inner_quiet, order_sure, recursive_key,
};
use std::alloc::{AllocError, Global};

// ---- whether filters may pass a step, as far as the step alone decides

/// Whether filters may pass a join: its pipeline is quiet.
fn join_lets(
    alloc: Global,
    m: &Model,
    c: &Customs,
    shape: &Shape,
    join: &JoinStep,
) -> Result<bool, AllocError>
    requires types { IsTrue (has_types m.now shape.now) }
    requires customs { AreTypedOver m.now c.now }
    requires sound { IsSound m.now }
    requires typed { IsTrue (is_some (typing.step_shape m.now (readings c.now) shape.now (join_of join.now))) }
    ensures { IfOk result (λ b. b ≡ spec.step_lets m.now (readings c.now) shape.now (join_of join.now)) }
{
    match join_target(m, shape, &join.nav) {
        Some(of) => {
            let start = set_shape(alloc, of);
            inner_quiet(alloc, m, c, &start, &join.inner)
        }
        None => Ok(false),
    }
}

/// Whether filters may pass a step, as far as the step alone decides.
pub(crate) fn step_lets(
    alloc: Global,
    m: &Model,
    c: &Customs,
    shape: &Shape,
    step: &Step,
) -> Result<bool, AllocError>
    requires types { IsTrue (has_types m.now shape.now) }
    requires customs { AreTypedOver m.now c.now }
    requires sound { IsSound m.now }
    requires typed { IsTrue (is_some (typing.step_shape m.now (readings c.now) shape.now (step_of step.now))) }
    ensures { IfOk result (λ b. b ≡ spec.step_lets m.now (readings c.now) shape.now (step_of step.now)) }
{
    match step {
        Step::Compute(_) => Ok(true),
        Step::OrderBy(items) => Ok(order_sure(m, shape, items.as_slice())),
        Step::GroupBy(keys, inner) => grouping_quiet(alloc, m, c, shape, keys.as_slice(), inner),
        Step::Join(join) => join_lets(alloc, m, c, shape, join),
        Step::Traverse(walk) => Ok(!is_risky(shape, &walk.path)),
        Step::Identity => Ok(false),
        Step::Filter(_) => Ok(false),
        Step::Skip(_) => Ok(false),
        Step::Top(_) => Ok(false),
        Step::Aggregate(_) => Ok(false),
        Step::Concat(_) => Ok(false),
        Step::TopBy(_) => Ok(false),
        Step::Climb(_) => Ok(false),
    }
}

// ---- which filters may pass then

/// Whether keys show the nodes of a hierarchy.
fn has_nodes(keys: &[KeyItem]) -> bool
    ensures { result ≡ is_some (groups.recursive_key (map key_of keys.now)) }
{
    match recursive_key(keys) {
        Some(_) => true,
        None => false,
    }
}

/// Whether filters may pass a grouping: by the early rules only one that shows no nodes.
fn may_pass(rules: Rules, nodes: bool) -> bool
    ensures { result ≡ (spec.is_late (rules_named rules) || not nodes) }
{
    is_late(rules) || !nodes
}

/// Which filters may pass a grouping by these keys.
fn grouping_passage<'a>(
    alloc: Global,
    rules: Rules,
    keys: &[KeyItem],
) -> Result<Passage<'a>, AllocError>
    ensures { IfOk result (λ p. held.passes p ≡ form.grouping_passes (rules_named rules) (keys_from (map key_of keys.now))) }
{
    let nodes = has_nodes(keys);
    if may_pass(rules, nodes) {
        Ok(Passage::Over(in_every_row(alloc, keys)?))
    } else {
        Ok(Passage::Closed)
    }
}

/// Which filters may pass a join.
fn join_passage<'a>(rules: Rules, join: &'a JoinStep) -> Passage<'a>
    ensures { held.passes result ≡ spec.step_passed (rules_named rules) (join_of join.now) }
{
    if is_late(rules) {
        Passage::Outside(&join.alias, join.outer)
    } else {
        Passage::Closed
    }
}

/// Which filters may pass a walk over nodes.
fn walk_passage<'a>(rules: Rules) -> Passage<'a>
    ensures { held.passes result ≡ form.walk_passes (rules_named rules) }
{
    if is_late(rules) {
        Passage::Sure
    } else {
        Passage::Closed
    }
}

/// Which filters may pass a step that lets filters pass.
pub(crate) fn passage_of<'a>(
    alloc: Global,
    rules: Rules,
    step: &'a Step,
) -> Result<Passage<'a>, AllocError>
    ensures { IfOk result (λ p. held.passes p ≡ spec.step_passed (rules_named rules) (step_of step.now)) }
{
    match step {
        Step::Compute(items) => Ok(Passage::Beside(items.as_slice())),
        Step::OrderBy(_) => Ok(Passage::Free),
        Step::GroupBy(keys, _) => grouping_passage(alloc, rules, keys.as_slice()),
        Step::Join(join) => Ok(join_passage(rules, join)),
        Step::Traverse(_) => Ok(walk_passage(rules)),
        Step::Identity => Ok(Passage::Closed),
        Step::Filter(_) => Ok(Passage::Closed),
        Step::Skip(_) => Ok(Passage::Closed),
        Step::Top(_) => Ok(Passage::Closed),
        Step::Aggregate(_) => Ok(Passage::Closed),
        Step::Concat(_) => Ok(Passage::Closed),
        Step::TopBy(_) => Ok(Passage::Closed),
        Step::Climb(_) => Ok(Passage::Closed),
    }
}

// ---- which filters go in

/// Whether filters may go to the nodes of a grouping: where it lets filters pass, and not by the early rules.
fn may_choose(rules: Rules, lets: bool) -> bool
    ensures { result ≡ (spec.is_late (rules_named rules) && lets) }
{
    is_late(rules) && lets
}

/// Which filters go to the nodes that a grouping shows. It is passed whether some may.
fn nodes_entry<'a>(
    alloc: Global,
    m: &Model,
    c: &Customs,
    keys: &[KeyItem],
    may: bool,
) -> Result<Entry<'a>, AllocError>
    requires customs { AreTypedOver m.now c.now }
    requires sound { IsSound m.now }
    requires typed { IfSome (groups.recursive_key (map key_of keys.now)) (λ x. IsTrue (is_some (groups.chosen_nodes m.now (readings c.now) x.0 x.1.1))) }
    ensures value { IfOk result (λ e. held.enters m.now e ≡ form.nodes_enter m.now (readings c.now) (keys_from (map key_of keys.now)) may) }
    ensures right { IfOk result (λ e. IsTrue (held.is_right m.now e)) }
{
    if !may {
        return Ok(Entry::Closed);
    }
    match recursive_key(keys) {
        Some((hier, path, chosen)) => match chosen_nodes(alloc, m, c, hier, chosen)? {
            Some((shape, key)) => {
                let mut paths = Vec::new(alloc);
                paths.push(path.copy(alloc)?)?;
                Ok(Entry::Nodes(paths, shape, key))
            }
            None => Ok(Entry::Closed),
        },
        None => Ok(Entry::Closed),
    }
}

/// Which filters go into a join.
fn join_entry<'a>(rules: Rules, join: &'a JoinStep) -> Entry<'a>
    ensures value { (m : seen.Model) (c : typing.Customs) (S : shapes.Shape) → held.enters m result ≡ spec.step_enters (rules_named rules) m c S (join_of join.now) }
    ensures right { (m : seen.Model) → IsTrue (held.is_right m result) }
{
    if is_late(rules) && !join.outer {
        Entry::Related(&join.alias)
    } else {
        Entry::Closed
    }
}

/// Which filters go into a step. It is passed whether it lets filters pass, and the shapes at the ends of its branches.
pub(crate) fn entry_of<'a>(
    alloc: Global,
    m: &Model,
    c: &Customs,
    rules: Rules,
    shape: &Shape,
    step: &'a Step,
    ends: &'a [Shape],
    lets: bool,
) -> Result<Entry<'a>, AllocError>
    requires types { IsTrue (has_types m.now shape.now) }
    requires customs { AreTypedOver m.now c.now }
    requires sound { IsSound m.now }
    requires typed { IsTrue (is_some (typing.step_shape m.now (readings c.now) shape.now (step_of step.now))) }
    requires ends { IsTrue (known.ends_known m.now (readings c.now) shape.now (step_of step.now) ends.now) }
    requires judged { lets ≡ spec.step_lets m.now (readings c.now) shape.now (step_of step.now) }
    ensures value { IfOk result (λ e. held.enters m.now e ≡ spec.step_enters (rules_named rules) m.now (readings c.now) shape.now (step_of step.now)) }
    ensures right { IfOk result (λ e. IsTrue (held.is_right m.now e)) }
{
    match step {
        Step::GroupBy(keys, _) => {
            let may = may_choose(rules, lets);
            nodes_entry(alloc, m, c, keys.as_slice(), may)
        }
        Step::Concat(_) => Ok(Entry::Branches(ends)),
        Step::Join(join) => Ok(join_entry(rules, join)),
        Step::Compute(_) => Ok(Entry::Closed),
        Step::OrderBy(_) => Ok(Entry::Closed),
        Step::Traverse(_) => Ok(Entry::Closed),
        Step::Identity => Ok(Entry::Closed),
        Step::Filter(_) => Ok(Entry::Closed),
        Step::Skip(_) => Ok(Entry::Closed),
        Step::Top(_) => Ok(Entry::Closed),
        Step::Aggregate(_) => Ok(Entry::Closed),
        Step::TopBy(_) => Ok(Entry::Closed),
        Step::Climb(_) => Ok(Entry::Closed),
    }
}
