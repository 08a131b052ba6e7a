//! Segments at the end of a walk, and the steps of segments.
ghost use Rattle.std.specs.Prelude.{◌≡◌, ◌++◌, IfOk, IsTrue, List, OnOk, is_some, map, option_map, option_to_list};
ghost use Rattle.std.specs.Bool.{then_some};
ghost use Rattle.edm_model.specs.Models as seen;
ghost use Rattle.edm_model.specs.Soundness.{IsSound};
ghost use Rattle.apply_ast.specs.Trees as tree;
ghost use Rattle.apply_ast.specs.Trees.Step.{Filter};
ghost use Rattle.apply_ast.specs.Views.{expr_of, inner_of, pipe_of, step_of};
ghost use Rattle.context_typing.specs.Readings.{AreTypedOver, readings};
ghost use Rattle.context_typing.specs.ShapeTypes.{has_types};
ghost use Rattle.context_typing.specs.Typing as typing;
ghost use Rattle.rewrite_laws.specs.Rewrites as rule;
ghost use Rattle.optimiser.specs.HeldSegments as held;
ghost use Rattle.optimiser.specs.IdleForms as idle;
ghost use Rattle.optimiser.specs.KnownSteps.{are_known};
ghost use Rattle.optimiser.specs.declared.known.Known.{Known};
ghost use Rattle.optimiser.specs.WalkForms as form;
ghost use Rattle.optimiser.specs.WalkRules.{rules_named};
ghost use Rattle.walk_laws.specs.Walks as spec;

use crate::held::{Segment, Test};
use crate::idle::drop_idle;
use crate::known::Known;
use crate::putting::put_filters;
use crate::rules::{Rules, is_late};
use crate::stepping::{front, put_steps};
use apply_ast::{Expr, Path, Pipe, Step};
use context_typing::{Customs, Shape};
use edm_model::Model;
use std::alloc::{AllocError, Global};

/// Puts filters behind steps.
pub(crate) fn put_tests(steps: &mut Vec<Step>, tests: Vec<Test>) -> Result<(), AllocError>
    ensures { OnOk result (map step_of steps.new.items ≡ map step_of steps.old.items ++ map (λ t. Filter (expr_of t.expr)) tests.items) }
{
    for test in tests {
        steps.push(Step::Filter(test.expr))?;
    }
    Ok(())
}

/// Puts the steps of a segment behind others.
pub(crate) fn put_segment(
    steps: &mut Vec<Step>,
    head: Option<Step>,
    tests: Vec<Test>,
) -> Result<(), AllocError>
    ensures { OnOk result (map step_of steps.new.items ≡ map step_of steps.old.items ++ (option_to_list (option_map step_of head) ++ map (λ t. Filter (expr_of t.expr)) tests.items)) }
{
    if let Some(step) = head {
        steps.push(step)?;
    }
    put_tests(steps, tests)
}

/// The pipeline of steps, which is `identity` where there are none.
pub(crate) fn pipe_or_identity(steps: Vec<Step>) -> Result<Pipe, AllocError>
    ensures { IfOk result (λ p. pipe_of p ≡ rule.pipe_or_identity (map step_of steps.items)) }
{
    let mut steps = steps;
    if steps.is_empty() {
        steps.push(Step::Identity)?;
    }
    Ok(Pipe::new(steps))
}

/// Drops the segments at the end that are idle before a climb to a path, where one is given.
pub(crate) fn drop_before(segments: &mut Vec<Segment>, steps: &[Step], climbed: Option<&Path>)
    ensures value { (m : seen.Model) (r : spec.Rules) (c : typing.Customs) → held.segments_of m (idle.frame r c (map step_of steps.now)) segments.new.items ≡ form.dropped (option_map (λ p. p.now) climbed.entry) (held.segments_of m (idle.frame r c (map step_of steps.now)) segments.old.items) }
    ensures kept { held.IsKept segments.old.items segments.new.items }
{
    match climbed {
        Some(path) => drop_idle(segments, steps, Some(path)),
        None => {}
    }
}

/// Puts filters behind the segments of steps, and drops those at the end that are idle before a climb to a path, where one is given.
pub(crate) fn put_end<'a>(
    segments: &mut Vec<Segment<'a>>,
    alloc: Global,
    m: &Model,
    c: &Customs,
    rules: Rules,
    shape: &Shape,
    entered: &[Expr],
    steps: &[Step],
    climbed: Option<&Path>,
) -> Result<(), AllocError>
    requires types { IsTrue (has_types m.now shape.now) }
    requires right { IsTrue (held.are_right m.now segments.old.items) }
    ensures value { OnOk result (held.segments_of m.now (idle.frame (rules_named rules) (readings c.now) (map step_of steps.now)) segments.new.items ≡ form.ended (option_map (λ p. p.now) climbed.entry) m.now shape.now (map expr_of entered.now) (held.segments_of m.now (idle.frame (rules_named rules) (readings c.now) (map step_of steps.now)) segments.old.items)) }
    ensures there { (ks : List Known) → IsTrue (held.are_there m.now (readings c.now) (map step_of steps.now) ks segments.old.items) → OnOk result (IsTrue (held.are_there m.now (readings c.now) (map step_of steps.now) ks segments.new.items)) }
{
    put_filters(segments, alloc, m, shape, entered)?;
    drop_before(segments, steps, climbed);
    Ok(())
}

/// The segments of steps, once filters have gone to their end, without those at the end that are idle before a climb to a path,
/// where one is given.
pub(crate) fn put_pipe<'a>(
    alloc: Global,
    m: &Model,
    c: &Customs,
    rules: Rules,
    steps: &'a [Step],
    known: &'a [Known],
    start: &Shape,
    entered: &[Expr],
    climbed: Option<&Path>,
) -> Result<Vec<Segment<'a>>, AllocError>
    requires types { IsTrue (has_types m.now start.now) }
    requires customs { AreTypedOver m.now c.now }
    requires sound { IsSound m.now }
    requires typed { IsTrue (is_some (typing.steps_shape m.now (readings c.now) start.now (tree.pipe (map step_of steps.now)))) }
    requires known { IsTrue (are_known m.now (readings c.now) start.now (tree.pipe (map step_of steps.now)) known.now) }
    ensures value { IfOk result (λ v. held.segments_of m.now (idle.frame (rules_named rules) (readings c.now) (map step_of steps.now)) v.items ≡ form.put_walk (rules_named rules) m.now (readings c.now) start.now (tree.pipe (map step_of steps.now)) (map expr_of entered.now) (option_map (λ p. p.now) climbed.entry)) }
    ensures there { IfOk result (λ v. IsTrue (held.are_there m.now (readings c.now) (map step_of steps.now) known.now v.items)) }
{
    let (mut segments, shape) = put_steps(alloc, m, c, rules, steps, known, start)?;
    put_end(
        &mut segments,
        alloc,
        m,
        c,
        rules,
        &shape,
        entered,
        steps,
        climbed,
    )?;
    Ok(segments)
}

/// The pipeline of filters alone, put one after the other; none where there are none.
pub(crate) fn of_filters(
    alloc: Global,
    m: &Model,
    shape: &Shape,
    entered: &[Expr],
) -> Result<Option<Pipe>, AllocError>
    requires types { IsTrue (has_types m.now shape.now) }
    ensures { IfOk result (λ o. inner_of (option_map pipe_of o) ≡ form.of_filters m.now shape.now (map expr_of entered.now)) }
{
    if entered.is_empty() {
        return Ok(None);
    }
    let mut segments = front(alloc)?;
    put_filters(&mut segments, alloc, m, shape, entered)?;
    let mut steps = Vec::new(alloc);
    match segments.pop() {
        Some(last) => {
            put_tests(&mut steps, last.tests)?;
            Ok(Some(pipe_or_identity(steps)?))
        }
        None => unreachable!(),
    }
}

/// The path of a climb, where steps that are idle before it are dropped.
pub(crate) fn climbed_by(rules: Rules, path: &Path) -> Option<&Path>
    ensures { option_map (λ p. p.now) result ≡ then_some (spec.is_late (rules_named rules)) path.now }
{
    if is_late(rules) { Some(path) } else { None }
}
