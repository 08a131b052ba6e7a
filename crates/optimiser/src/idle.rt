//! Steps at the end of segments that are dropped, or become one with the next.
ghost use Rattle.std.specs.Prelude.{◌≡◌, ◌&&◌, not, IfOk, Some, map, option_map};
ghost use Rattle.edm_model.specs.Models as seen;
ghost use Rattle.edm_values.specs.Lists.{is_nonempty};
ghost use Rattle.apply_ast.specs.Trees as tree;
ghost use Rattle.apply_ast.specs.Views.{step_of, top_of};
ghost use Rattle.context_typing.specs.Typing as typing;
ghost use Rattle.optimiser.specs.HeldSegments as held;
ghost use Rattle.optimiser.specs.IdleForms as form;
ghost use Rattle.walk_laws.specs.Walks as spec;

use crate::held::{Head, Segment};
use apply_ast::{Limit, Path, Step, TopStep};
use rewrite_forms::{count_by, is_made, same_expr};
use std::alloc::{AllocError, Global};

/// Whether a step is idle at the end: an order that lets filters pass, or before a climb to a path a computation that does not make
/// it.
fn step_idle(step: &Step, lets: bool, climbed: Option<&Path>) -> bool
    ensures { result ≡ form.step_idle (option_map (λ p. p.now) climbed.entry) lets (step_of step.now) }
{
    match step {
        Step::OrderBy(_) => lets,
        Step::Compute(items) => match climbed {
            Some(path) => !is_made(path, items.as_slice()),
            None => false,
        },
        Step::Identity => false,
        Step::Filter(_) => false,
        Step::Skip(_) => false,
        Step::Top(_) => false,
        Step::Aggregate(_) => false,
        Step::GroupBy(_, _) => false,
        Step::Concat(_) => false,
        Step::Join(_) => false,
        Step::TopBy(_) => false,
        Step::Climb(_) => false,
        Step::Traverse(_) => false,
    }
}

/// The written step of a segment.
fn written<'b>(steps: &'b [Step], head: &Head) -> Option<&'b Step>
    ensures { option_map (λ s. step_of s.now) result ≡ held.written (map step_of steps.now) head.now }
{
    match head {
        Head::Front => None,
        Head::Count(_) => None,
        Head::Written(at, _) => steps.get(*at),
    }
}

/// Whether a segment is idle at the end: no filter is behind its step, and that is idle.
fn is_idle(segment: &Segment, steps: &[Step], climbed: Option<&Path>) -> bool
    ensures { result ≡ (not (is_nonempty (map held.test_of segment.now.tests.items)) && form.head_idle (option_map (λ p. p.now) climbed.entry) segment.now.lets (held.written (map step_of steps.now) segment.now.head)) }
{
    if !segment.tests.is_empty() {
        return false;
    }
    match written(steps, &segment.head) {
        Some(step) => step_idle(step, segment.lets, climbed),
        None => false,
    }
}

/// Drops the segments at the end that are idle.
pub(crate) fn drop_idle(segments: &mut Vec<Segment>, steps: &[Step], climbed: Option<&Path>)
    ensures value { (m : seen.Model) (r : spec.Rules) (c : typing.Customs) → held.segments_of m (form.frame r c (map step_of steps.now)) segments.new.items ≡ form.without (option_map (λ p. p.now) climbed.entry) (held.segments_of m (form.frame r c (map step_of steps.now)) segments.old.items) }
    ensures kept { held.IsKept segments.old.items segments.new.items }
{
    while let Some(last) = segments.last() {
        if !is_idle(last, steps, climbed) {
            return;
        }
        segments.pop();
    }
}

/// The count that stands for two.
fn joined(alloc: Global, first: &TopStep, next: &TopStep) -> Result<Option<TopStep>, AllocError>
    ensures { IfOk result (λ o. option_map top_of o ≡ spec.joined_count (Some (tree.Step.TopBy (top_of first.now))) (top_of next.now)) }
{
    let (n, by) = match count_by(first) {
        Some(count) => count,
        None => return Ok(None),
    };
    match count_by(next) {
        Some((k, other)) => {
            if same_expr(by, other) {
                Ok(Some(TopStep {
                    bottom: false,
                    limit: Limit::Count(n.min(k)),
                    expr: by.copy(alloc)?,
                }))
            } else {
                Ok(None)
            }
        }
        None => Ok(None),
    }
}

/// The selection that a step is.
fn selected(step: &Step) -> Option<&TopStep>
    ensures { option_map (λ t. top_of t.now) result ≡ form.selected (Some (step_of step.now)) }
{
    match step {
        Step::TopBy(top) => Some(top),
        _ => None,
    }
}

/// The selection that the step of a segment is.
fn selection<'b>(steps: &'b [Step], head: &'b Head) -> Option<&'b TopStep>
    ensures { option_map (λ t. top_of t.now) result ≡ form.head_selection (map step_of steps.now) head.now }
{
    match head {
        Head::Count(top) => Some(top),
        Head::Front => None,
        Head::Written(at, _) => match steps.get(*at) {
            Some(step) => selected(step),
            None => None,
        },
    }
}

/// The count that stands for the last step and another.
fn last_count(
    alloc: Global,
    segment: &Segment,
    steps: &[Step],
    top: &TopStep,
) -> Result<Option<TopStep>, AllocError>
    ensures { (m : seen.Model) (r : spec.Rules) (c : typing.Customs) → IfOk result (λ o. option_map top_of o ≡ spec.last_count (held.segment_of m (form.frame r c (map step_of steps.now)) segment.now) (top_of top.now)) }
{
    if !segment.tests.is_empty() {
        return Ok(None);
    }
    match selection(steps, &segment.head) {
        Some(first) => joined(alloc, first, top),
        None => Ok(None),
    }
}

/// The count that stands for the last step of segments and another.
pub(crate) fn joined_last(
    alloc: Global,
    segments: &[Segment],
    steps: &[Step],
    top: &TopStep,
) -> Result<Option<TopStep>, AllocError>
    ensures { (m : seen.Model) (r : spec.Rules) (c : typing.Customs) → IfOk result (λ o. option_map top_of o ≡ form.joined_last (held.segments_of m (form.frame r c (map step_of steps.now)) segments.now) (top_of top.now)) }
{
    match segments.last() {
        Some(last) => last_count(alloc, last, steps, top),
        None => Ok(None),
    }
}
