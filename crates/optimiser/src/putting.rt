//! Filters that are put behind the segments of a walk.
ghost use Rattle.std.specs.Prelude.{◌≡◌, ◌≤◌, ◌&&◌, IfOk, IsTrue, None, OnOk, length, map, option_map, if◌then◌else◌};
ghost use Rattle.edm_model.specs.Models as seen;
ghost use Rattle.apply_ast.specs.Views.{expr_of};
ghost use Rattle.context_typing.specs.ShapeTypes.{has_types};
ghost use Rattle.optimiser.specs.HeldSegments as held;
ghost use Rattle.walk_laws.specs.Walks as spec;

use crate::held::{Segment, Test, enters, passes, tests_passed};
use apply_ast::{BinOp, Expr};
use context_typing::{Shape, is_sure};
use edm_model::Model;
use std::alloc::{AllocError, Global};

/// Whether a filter passes a segment. The filters behind it are looked at last, since they may be many.
fn passed(segment: &Segment, test: &Test) -> bool
    ensures { result ≡ (spec.tests_passed (map held.test_of segment.now.tests.items) (held.test_of test.now) && segment.now.lets && held.passes segment.now.passage (held.test_of test.now)) }
{
    segment.lets && passes(&segment.passage, test) && tests_passed(segment.tests.as_slice(), test)
}

/// How many segments stand before those at the end that a filter passes.
fn unpassed(segments: &[Segment], test: &Test) -> usize
    ensures within { result ≤ length segments.now }
    ensures place { (m : seen.Model) (w : held.Frame) → held.GoesTo m w (held.test_of test.now) segments.now result }
{
    let mut k = segments.len();
    while k > 0 {
        if !passed(&segments[k - 1], test) {
            return k;
        }
        k -= 1;
    }
    0
}

/// As what a filter that does not pass a segment goes into its step, if it does.
fn entering(
    alloc: Global,
    m: &Model,
    segment: &Segment,
    test: &Test,
) -> Result<Option<Expr>, AllocError>
    requires { IsTrue (held.is_right m.now segment.now.entry) }
    ensures { IfOk result (λ o. option_map expr_of o ≡ (if spec.tests_passed (map held.test_of segment.now.tests.items) (held.test_of test.now) then held.enters m.now segment.now.entry (held.test_of test.now) else None)) }
{
    match enters(alloc, m, &segment.entry, test)? {
        Some(into) => {
            if tests_passed(segment.tests.as_slice(), test) {
                Ok(Some(into))
            } else {
                Ok(None)
            }
        }
        None => Ok(None),
    }
}

/// Puts a filter into the step of a segment, as what it goes into it, or else behind it.
fn take_as(segment: &mut Segment, test: Test, into: Option<Expr>) -> Result<(), AllocError>
    ensures value { (m : seen.Model) (w : held.Frame) → OnOk result (held.segment_of m w segment.new ≡ spec.taken_as (held.segment_of m w segment.old) (held.test_of test) (option_map expr_of into)) }
    ensures kept { OnOk result (held.outline segment.new ≡ held.outline segment.old) }
{
    match into {
        Some(e) => {
            segment.entered.push(e)?;
            segment.lets = segment.lets && test.sure;
            Ok(())
        }
        None => {
            segment.tests.push(test)?;
            Ok(())
        }
    }
}

/// Puts a filter that does not pass a segment into its step or behind it.
fn take(segment: &mut Segment, alloc: Global, m: &Model, test: Test) -> Result<(), AllocError>
    requires { IsTrue (held.is_right m.now segment.old.entry) }
    ensures value { (w : held.Frame) → OnOk result (held.segment_of m.now w segment.new ≡ spec.taken (held.segment_of m.now w segment.old) (held.test_of test)) }
    ensures kept { OnOk result (held.outline segment.new ≡ held.outline segment.old) }
{
    let into = entering(alloc, m, segment, &test)?;
    take_as(segment, test, into)
}

/// Puts a filter into or behind the last segment that it does not pass.
fn put_test(
    segments: &mut Vec<Segment>,
    alloc: Global,
    m: &Model,
    test: Test,
) -> Result<(), AllocError>
    requires right { IsTrue (held.are_right m.now segments.old.items) }
    ensures value { (w : held.Frame) → OnOk result (held.segments_of m.now w segments.new.items ≡ spec.put_test (held.test_of test) (held.segments_of m.now w segments.old.items)) }
    ensures kept { OnOk result (map held.outline segments.new.items ≡ map held.outline segments.old.items) }
{
    let k = unpassed(segments.as_slice(), &test);
    if k > 0 {
        let last = &mut segments[k - 1];
        take(last, alloc, m, test)?;
    }
    Ok(())
}

/// Puts a filter that is not split.
fn put_part(
    segments: &mut Vec<Segment>,
    alloc: Global,
    m: &Model,
    shape: &Shape,
    e: Expr,
) -> Result<(), AllocError>
    requires types { IsTrue (has_types m.now shape.now) }
    requires right { IsTrue (held.are_right m.now segments.old.items) }
    ensures value { (w : held.Frame) → OnOk result (held.segments_of m.now w segments.new.items ≡ spec.put_test (spec.judged m.now shape.now (expr_of e)) (held.segments_of m.now w segments.old.items)) }
    ensures kept { OnOk result (map held.outline segments.new.items ≡ map held.outline segments.old.items) }
{
    let sure = is_sure(m, shape, &e);
    put_test(segments, alloc, m, Test { expr: e, sure })
}

/// Puts the filters that a filter is split into, but those that are always true.
pub(crate) fn put_filter(
    segments: &mut Vec<Segment>,
    alloc: Global,
    m: &Model,
    shape: &Shape,
    e: Expr,
) -> Result<(), AllocError>
    requires types { IsTrue (has_types m.now shape.now) }
    requires right { IsTrue (held.are_right m.now segments.old.items) }
    ensures value { (w : held.Frame) → OnOk result (held.segments_of m.now w segments.new.items ≡ spec.put_filter m.now shape.now (expr_of e) (held.segments_of m.now w segments.old.items)) }
    ensures kept { OnOk result (map held.outline segments.new.items ≡ map held.outline segments.old.items) }
{
    match e {
        Expr::Binary(BinOp::And, a, b) => {
            if is_sure(m, shape, &b) {
                put_filter(segments, alloc, m, shape, Box::into_inner(a))?;
                put_filter(segments, alloc, m, shape, Box::into_inner(b))
            } else {
                put_part(segments, alloc, m, shape, Expr::Binary(BinOp::And, a, b))
            }
        }
        Expr::Bool(true) => Ok(()),
        part => put_part(segments, alloc, m, shape, part),
    }
}

/// Puts filters, one after the other.
pub(crate) fn put_filters(
    segments: &mut Vec<Segment>,
    alloc: Global,
    m: &Model,
    shape: &Shape,
    es: &[Expr],
) -> Result<(), AllocError>
    requires types { IsTrue (has_types m.now shape.now) }
    requires right { IsTrue (held.are_right m.now segments.old.items) }
    ensures value { (w : held.Frame) → OnOk result (held.segments_of m.now w segments.new.items ≡ spec.put_filters m.now shape.now (map expr_of es.now) (held.segments_of m.now w segments.old.items)) }
    ensures kept { OnOk result (map held.outline segments.new.items ≡ map held.outline segments.old.items) }
{
    for e in es {
        put_filter(segments, alloc, m, shape, e.copy(alloc)?)?;
    }
    Ok(())
}
