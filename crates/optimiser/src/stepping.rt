//! The steps of a pipeline, put one after the other.
ghost use Rattle.std.specs.Prelude.{◌≡◌, ◌∷◌, IfOk, IsTrue, List, OnOk, Some, is_some, map, slice_get};
ghost use Rattle.edm_model.specs.Models as seen;
ghost use Rattle.edm_model.specs.Soundness.{IsSound};
ghost use Rattle.apply_ast.specs.Trees as tree;
ghost use Rattle.apply_ast.specs.Views.{step_of, top_of};
ghost use Rattle.context_typing.specs.Readings.{AreTypedOver, readings};
ghost use Rattle.context_typing.specs.ShapeTypes.{has_types};
ghost use Rattle.context_typing.specs.Typing as typing;
ghost use Rattle.optimiser.specs.HeldSegments as held;
ghost use Rattle.optimiser.specs.IdleForms as form;
ghost use Rattle.optimiser.specs.KnownSteps as facts;
ghost use Rattle.optimiser.specs.declared.known.Known.{Known};
ghost use Rattle.optimiser.specs.WalkRules.{rules_named};
ghost use Rattle.walk_laws.specs.Walks as spec;

use crate::heads::{entry_of, passage_of, step_lets};
use crate::held::{Entry, Head, Passage, Segment};
use crate::idle::{drop_idle, joined_last};
use crate::inside::{all_are_known, next_is_known, next_is_typed, one_is_known};
use crate::known::{Known, shape_past};
use crate::putting::put_filter;
use crate::rules::{Rules, is_late};
use apply_ast::{Step, TopStep};
use context_typing::{Customs, Shape};
use edm_model::Model;
use std::alloc::{AllocError, Global};

/// The segments of no steps.
pub(crate) fn front<'a>(alloc: Global) -> Result<Vec<Segment<'a>>, AllocError>
    ensures value { (m : seen.Model) (w : held.Frame) → IfOk result (λ v. held.segments_of m w v.items ≡ spec.front) }
    ensures alone { IfOk result (λ v. form.AreFront v.items) }
    ensures right { (m : seen.Model) → IfOk result (λ v. IsTrue (held.are_right m v.items)) }
    ensures there { (m : seen.Model) (c : typing.Customs) (ss : List tree.Step) (ks : List Known) → IfOk result (λ v. IsTrue (held.are_there m c ss ks v.items)) }
{
    let mut segments = Vec::new(alloc);
    segments.push(Segment {
        head: Head::Front,
        lets: false,
        passage: Passage::Closed,
        entry: Entry::Closed,
        entered: Vec::new(alloc),
        tests: Vec::new(alloc),
    })?;
    Ok(segments)
}

/// Puts a count that stands for two.
fn put_count<'a>(
    segments: &mut Vec<Segment<'a>>,
    alloc: Global,
    top: TopStep,
) -> Result<(), AllocError>
    ensures value { (m : seen.Model) (w : held.Frame) → OnOk result (held.segments_of m w segments.new.items ≡ spec.selection (top_of top) ∷ held.segments_of m w segments.old.items) }
    ensures right { (m : seen.Model) → IsTrue (held.are_right m segments.old.items) → OnOk result (IsTrue (held.are_right m segments.new.items)) }
    ensures there { (m : seen.Model) (c : typing.Customs) (ss : List tree.Step) (ks : List Known) → IsTrue (held.are_there m c ss ks segments.old.items) → OnOk result (IsTrue (held.are_there m c ss ks segments.new.items)) }
{
    segments.push(Segment {
        head: Head::Count(top),
        lets: false,
        passage: Passage::Closed,
        entry: Entry::Closed,
        entered: Vec::new(alloc),
        tests: Vec::new(alloc),
    })?;
    Ok(())
}

/// Puts the step at a place of the pipeline, on the shape before it, with no filter behind it.
fn put_head<'a>(
    segments: &mut Vec<Segment<'a>>,
    alloc: Global,
    m: &Model,
    c: &Customs,
    rules: Rules,
    shape: &Shape,
    step: &'a Step,
    of: &'a Known,
    at: usize,
) -> Result<(), AllocError>
    requires types { IsTrue (has_types m.now shape.now) }
    requires customs { AreTypedOver m.now c.now }
    requires sound { IsSound m.now }
    requires typed { IsTrue (is_some (typing.step_shape m.now (readings c.now) shape.now (step_of step.now))) }
    requires known { IsTrue (facts.is_known m.now (readings c.now) shape.now (step_of step.now) of.now) }
    requires right { IsTrue (held.are_right m.now segments.old.items) }
    ensures value { (ss : List tree.Step) → slice_get ss at ≡ Some (step_of step.now) → OnOk result (held.segments_of m.now (form.frame (rules_named rules) (readings c.now) ss) segments.new.items ≡ form.segment (rules_named rules) m.now (readings c.now) shape.now (step_of step.now) ∷ held.segments_of m.now (form.frame (rules_named rules) (readings c.now) ss) segments.old.items) }
    ensures right { OnOk result (IsTrue (held.are_right m.now segments.new.items)) }
    ensures there { (ss : List tree.Step) (ks : List Known) → slice_get ss at ≡ Some (step_of step.now) → slice_get ks at ≡ Some of.now → IsTrue (held.are_there m.now (readings c.now) ss ks segments.old.items) → OnOk result (IsTrue (held.are_there m.now (readings c.now) ss ks segments.new.items)) }
{
    let lets = step_lets(alloc, m, c, shape, step)?;
    let entry = entry_of(alloc, m, c, rules, shape, step, of.ends.as_slice(), lets)?;
    let passage = passage_of(alloc, rules, step)?;
    let before = shape.copy(alloc)?;
    segments.push(Segment {
        head: Head::Written(at, before),
        lets,
        passage,
        entry,
        entered: Vec::new(alloc),
        tests: Vec::new(alloc),
    })?;
    Ok(())
}

/// Puts a selection, or the count that stands for it and the last step.
fn put_selection<'a>(
    segments: &mut Vec<Segment<'a>>,
    alloc: Global,
    m: &Model,
    c: &Customs,
    shape: &Shape,
    steps: &'a [Step],
    step: &'a Step,
    of: &'a Known,
    top: &TopStep,
    at: usize,
) -> Result<(), AllocError>
    requires types { IsTrue (has_types m.now shape.now) }
    requires customs { AreTypedOver m.now c.now }
    requires sound { IsSound m.now }
    requires typed { IsTrue (is_some (typing.step_shape m.now (readings c.now) shape.now (step_of step.now))) }
    requires known { IsTrue (facts.is_known m.now (readings c.now) shape.now (step_of step.now) of.now) }
    requires there { slice_get (map step_of steps.now) at ≡ Some (step_of step.now) }
    requires top { step_of step.now ≡ tree.Step.TopBy (top_of top.now) }
    requires right { IsTrue (held.are_right m.now segments.old.items) }
    ensures value { OnOk result (held.segments_of m.now (form.frame spec.Rules.All (readings c.now) (map step_of steps.now)) segments.new.items ≡ spec.put_selection (top_of top.now) (held.segments_of m.now (form.frame spec.Rules.All (readings c.now) (map step_of steps.now)) segments.old.items)) }
    ensures right { OnOk result (IsTrue (held.are_right m.now segments.new.items)) }
    ensures there { (ks : List Known) → slice_get ks at ≡ Some of.now → IsTrue (held.are_there m.now (readings c.now) (map step_of steps.now) ks segments.old.items) → OnOk result (IsTrue (held.are_there m.now (readings c.now) (map step_of steps.now) ks segments.new.items)) }
{
    match joined_last(alloc, segments.as_slice(), steps, top)? {
        Some(count) => {
            segments.pop();
            put_count(segments, alloc, count)
        }
        None => put_head(segments, alloc, m, c, Rules::All, shape, step, of, at),
    }
}

/// Drops the orders at the end that let filters pass, where the walk goes by all rules.
fn drop_orders(segments: &mut Vec<Segment>, rules: Rules, steps: &[Step])
    ensures value { (m : seen.Model) (r : spec.Rules) (c : typing.Customs) → held.segments_of m (form.frame r c (map step_of steps.now)) segments.new.items ≡ form.before_aggregate (rules_named rules) (held.segments_of m (form.frame r c (map step_of steps.now)) segments.old.items) }
    ensures kept { held.IsKept segments.old.items segments.new.items }
{
    if is_late(rules) {
        drop_idle(segments, steps, None);
    }
}

/// Puts the step at a place of the pipeline, on the shape before it.
fn put_step<'a>(
    segments: &mut Vec<Segment<'a>>,
    alloc: Global,
    m: &Model,
    c: &Customs,
    rules: Rules,
    shape: &Shape,
    steps: &'a [Step],
    step: &'a Step,
    of: &'a Known,
    at: usize,
) -> Result<(), AllocError>
    requires types { IsTrue (has_types m.now shape.now) }
    requires customs { AreTypedOver m.now c.now }
    requires sound { IsSound m.now }
    requires typed { IsTrue (is_some (typing.step_shape m.now (readings c.now) shape.now (step_of step.now))) }
    requires known { IsTrue (facts.is_known m.now (readings c.now) shape.now (step_of step.now) of.now) }
    requires there { slice_get (map step_of steps.now) at ≡ Some (step_of step.now) }
    requires right { IsTrue (held.are_right m.now segments.old.items) }
    ensures value { OnOk result (held.segments_of m.now (form.frame (rules_named rules) (readings c.now) (map step_of steps.now)) segments.new.items ≡ form.stepped (rules_named rules) m.now (readings c.now) shape.now (step_of step.now) (held.segments_of m.now (form.frame (rules_named rules) (readings c.now) (map step_of steps.now)) segments.old.items)) }
    ensures right { OnOk result (IsTrue (held.are_right m.now segments.new.items)) }
    ensures there { (ks : List Known) → slice_get ks at ≡ Some of.now → IsTrue (held.are_there m.now (readings c.now) (map step_of steps.now) ks segments.old.items) → OnOk result (IsTrue (held.are_there m.now (readings c.now) (map step_of steps.now) ks segments.new.items)) }
{
    match step {
        Step::Identity => Ok(()),
        Step::Filter(e) => put_filter(segments, alloc, m, shape, e.copy(alloc)?),
        Step::Aggregate(_) => {
            drop_orders(segments, rules, steps);
            put_head(segments, alloc, m, c, rules, shape, step, of, at)
        }
        Step::TopBy(top) => match rules {
            Rules::All => put_selection(segments, alloc, m, c, shape, steps, step, of, top, at),
            Rules::Early => put_head(segments, alloc, m, c, rules, shape, step, of, at),
        },
        Step::Compute(_)
        | Step::OrderBy(_)
        | Step::Skip(_)
        | Step::Top(_)
        | Step::GroupBy(_, _)
        | Step::Concat(_)
        | Step::Join(_)
        | Step::Climb(_)
        | Step::Traverse(_) => put_head(segments, alloc, m, c, rules, shape, step, of, at),
    }
}

/// The shape behind a step: the one that is known, if one is.
fn next_shape(
    alloc: Global,
    m: &Model,
    c: &Customs,
    shape: Shape,
    step: &Step,
    of: &Known,
) -> Result<Shape, AllocError>
    requires types { IsTrue (has_types m.now shape) }
    requires customs { AreTypedOver m.now c.now }
    requires sound { IsSound m.now }
    requires known { IsTrue (facts.is_known m.now (readings c.now) shape (step_of step.now) of.now) }
    ensures value { IfOk result (λ S. S ≡ typing.after m.now (readings c.now) shape (step_of step.now)) }
    ensures types { IfOk result (λ S. IsTrue (has_types m.now S)) }
{
    match &of.behind {
        Some(behind) => behind.copy(alloc),
        None => shape_past(alloc, m, c, shape, step),
    }
}

/// The segments after the steps of a pipeline, and the shape behind them.
pub(crate) fn put_steps<'a>(
    alloc: Global,
    m: &Model,
    c: &Customs,
    rules: Rules,
    steps: &'a [Step],
    known: &'a [Known],
    start: &Shape,
) -> Result<(Vec<Segment<'a>>, Shape), AllocError>
    requires types { IsTrue (has_types m.now start.now) }
    requires customs { AreTypedOver m.now c.now }
    requires sound { IsSound m.now }
    requires typed { IsTrue (is_some (typing.steps_shape m.now (readings c.now) start.now (tree.pipe (map step_of steps.now)))) }
    requires known { IsTrue (facts.are_known m.now (readings c.now) start.now (tree.pipe (map step_of steps.now)) known.now) }
    ensures value { IfOk result (λ x. held.segments_of m.now (form.frame (rules_named rules) (readings c.now) (map step_of steps.now)) (x.0).items ≡ spec.put_steps (rules_named rules) m.now (readings c.now) start.now (tree.pipe (map step_of steps.now)) spec.front) }
    ensures shape { IfOk result (λ x. x.1 ≡ spec.shape_behind m.now (readings c.now) start.now (tree.pipe (map step_of steps.now))) }
    ensures types { IfOk result (λ x. IsTrue (has_types m.now x.1)) }
    ensures right { IfOk result (λ x. IsTrue (held.are_right m.now (x.0).items)) }
    ensures there { IfOk result (λ x. IsTrue (held.are_there m.now (readings c.now) (map step_of steps.now) known.now (x.0).items)) }
{
    let mut segments = front(alloc)?;
    let mut shape = start.copy(alloc)?;
    all_are_known(m, c, steps, known, start, &shape);
    for (at, step) in steps.iter().enumerate() {
        one_is_known(m, c, steps, known, start, at);
        let of = &known[at];
        next_is_typed(m, c, steps, at, step, &shape);
        next_is_known(m, c, steps, known, at, step, of, &shape);
        put_step(
            &mut segments,
            alloc,
            m,
            c,
            rules,
            &shape,
            steps,
            step,
            of,
            at,
        )?;
        let next = next_shape(alloc, m, c, shape, step, of)?;
        shape = next;
    }
    Ok((segments, shape))
}
