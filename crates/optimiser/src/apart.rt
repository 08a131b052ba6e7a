//! Whether the branches of each concatenation begin apart for good, so that no step ever comes out of them.
ghost use Rattle.std.specs.Prelude.{◌≡◌, Some, option_map};
ghost use Rattle.edm_values.specs.Lists.{is_some_and};
ghost use Rattle.apply_ast.specs.Views.{inner_of, key_of, keys_of, pipe_of, pipes_of, step_of};
ghost use Rattle.rewrite_laws.specs.TreeEquality.{step_same};
ghost use Rattle.walk_laws.specs.Apart as spec;

use crate::kinds::kinds_apart;
use crate::resting::is_one;
use apply_ast::{KeyItem, KeyList, Pipe, PipeList, Step};
use rewrite_forms::same_step;

/// Whether no rule changes a step, nor splits or drops it where it is a filter.
pub(crate) fn is_firm(step: &Step) -> bool
    ensures { result ≡ spec.is_firm (step_of step.now) }
{
    match step {
        Step::Compute(_) => true,
        Step::Skip(_) => true,
        Step::Top(_) => true,
        Step::Aggregate(_) => true,
        Step::Traverse(_) => true,
        Step::Identity => false,
        Step::Filter(e) => is_one(e),
        Step::OrderBy(_) => false,
        Step::GroupBy(_, _) => false,
        Step::Concat(_) => false,
        Step::Join(_) => false,
        Step::TopBy(_) => false,
        Step::Climb(_) => false,
    }
}

/// Whether no filter passes a step, but through all branches of a concatenation.
fn is_end(step: &Step) -> bool
    ensures { result ≡ spec.is_end (step_of step.now) }
{
    match step {
        Step::Skip(_) => true,
        Step::Top(_) => true,
        Step::Aggregate(_) => true,
        Step::TopBy(_) => true,
        Step::Concat(_) => true,
        Step::Climb(_) => true,
        Step::Identity => false,
        Step::Filter(_) => false,
        Step::Compute(_) => false,
        Step::OrderBy(_) => false,
        Step::GroupBy(_, _) => false,
        Step::Join(_) => false,
        Step::Traverse(_) => false,
    }
}

/// Whether a step is dropped, or moves to the front.
pub(crate) fn is_loose(step: &Step) -> bool
    ensures { result ≡ spec.is_loose (step_of step.now) }
{
    match step {
        Step::Identity => true,
        Step::Filter(_) => true,
        Step::Compute(_) => false,
        Step::OrderBy(_) => false,
        Step::Skip(_) => false,
        Step::Top(_) => false,
        Step::Aggregate(_) => false,
        Step::GroupBy(_, _) => false,
        Step::Concat(_) => false,
        Step::Join(_) => false,
        Step::TopBy(_) => false,
        Step::Climb(_) => false,
        Step::Traverse(_) => false,
    }
}

/// Whether a step may go from the front of a branch.
pub(crate) fn may_go(step: &Step) -> bool
    ensures { result ≡ spec.may_go (step_of step.now) }
{
    match step {
        Step::OrderBy(_) => true,
        Step::Identity => true,
        Step::Filter(_) => true,
        Step::Compute(_) => false,
        Step::Skip(_) => false,
        Step::Top(_) => false,
        Step::Aggregate(_) => false,
        Step::GroupBy(_, _) => false,
        Step::Concat(_) => false,
        Step::Join(_) => false,
        Step::TopBy(_) => false,
        Step::Climb(_) => false,
        Step::Traverse(_) => false,
    }
}

/// Whether a step that no filter passes stands before the first filter.
pub(crate) fn is_closed(pipe: &Pipe) -> bool
    ensures { result ≡ spec.is_closed (pipe_of pipe.now) }
{
    for step in pipe.steps() {
        if is_end(step) {
            return true;
        }
        if is_loose(step) {
            return false;
        }
    }
    false
}

/// The first step of a pipeline.
pub(crate) fn first_step(pipe: &Pipe) -> &Step
    ensures { spec.first_of (pipe_of pipe.now) ≡ Some (step_of result.now) }
{
    let steps = pipe.steps();
    &steps[0]
}

/// Whether the first step stays first, and as it is.
fn is_fixed(pipe: &Pipe) -> bool
    ensures { result ≡ spec.is_fixed (pipe_of pipe.now) }
{
    let first = first_step(pipe);
    is_firm(first) && (is_loose(first) || is_closed(pipe))
}

/// Whether the first step that stays, but filters, is this one.
pub(crate) fn leads_to(step: &Step, pipe: &Pipe) -> bool
    ensures { result ≡ spec.leads_to (step_of step.now) (pipe_of pipe.now) }
{
    for there in pipe.steps() {
        if !may_go(there) {
            return same_step(step, there);
        }
    }
    false
}

/// Whether a pipeline begins with a step.
fn begins(step: &Step, pipe: &Pipe) -> bool
    ensures { result ≡ is_some_and (step_same (step_of step.now)) (spec.first_of (pipe_of pipe.now)) }
{
    same_step(step, first_step(pipe))
}

/// Whether a pipeline never comes to begin with a step.
fn never_begins(step: &Step, pipe: &Pipe) -> bool
    ensures { result ≡ spec.never_begins (step_of step.now) (pipe_of pipe.now) }
{
    if is_fixed(pipe) && !begins(step, pipe) {
        return true;
    }
    !is_loose(step) && !leads_to(step, pipe)
}

/// Whether one of some branches never does.
fn some_other(step: &Step, branches: &PipeList) -> bool
    ensures { result ≡ spec.some_other (step_of step.now) (pipes_of branches.now) }
{
    for branch in branches.as_slice() {
        if never_begins(step, branch) {
            return true;
        }
    }
    false
}

/// Whether a branch begins with a step for good, and one of all branches never does.
fn is_apart_from(all: &PipeList, branch: &Pipe) -> bool
    ensures { result ≡ spec.is_apart_from (pipes_of all.now) (pipe_of branch.now) }
{
    is_fixed(branch) && some_other(first_step(branch), all)
}

/// Whether one of the branches does.
fn begin_apart(branches: &PipeList) -> bool
    ensures { result ≡ spec.begin_apart (pipes_of branches.now) (pipes_of branches.now) }
{
    for branch in branches.as_slice() {
        if is_apart_from(branches, branch) {
            return true;
        }
    }
    false
}

/// Whether the branches of each concatenation in a pipeline begin apart for good, inner pipelines included.
#[cycle(apart)]
pub(crate) fn stays_apart(pipe: &Pipe) -> bool
    ensures value { result ≡ spec.stays_apart (pipe_of pipe.now) }
{
    for step in pipe.steps() {
        if !step_apart(step) {
            return false;
        }
    }
    true
}

/// Whether those in an inner pipeline do.
#[cycle(apart)]
fn inner_apart(inner: &Option<Pipe>) -> bool
    ensures { result ≡ spec.inner_apart (inner_of (option_map pipe_of inner.now)) }
{
    match inner {
        Some(pipe) => stays_apart(pipe),
        None => true,
    }
}

/// Whether those in a key do.
#[cycle(apart)]
fn key_apart(key: &KeyItem) -> bool
    ensures { result ≡ spec.key_apart (key_of key.now) }
{
    match key {
        KeyItem::Plain(_) => true,
        KeyItem::Rollup(_, _) => true,
        KeyItem::Recursive(_, _, inner) => inner_apart(inner),
    }
}

/// Whether those in keys do.
#[cycle(apart)]
fn keys_apart(keys: &KeyList) -> bool
    ensures { result ≡ spec.keys_apart (keys_of keys.now) }
{
    for key in keys.as_slice() {
        if !key_apart(key) {
            return false;
        }
    }
    true
}

/// Whether those in branches do.
#[cycle(apart)]
pub(crate) fn branches_apart(branches: &PipeList) -> bool
    ensures { result ≡ spec.branches_apart (pipes_of branches.now) }
{
    for branch in branches.as_slice() {
        if !stays_apart(branch) {
            return false;
        }
    }
    true
}

/// Whether those of a step do, and those in it.
#[cycle(apart)]
pub(crate) fn step_apart(step: &Step) -> bool
    ensures { result ≡ spec.step_apart (step_of step.now) }
{
    match step {
        Step::GroupBy(keys, inner) => keys_apart(keys) && inner_apart(inner),
        Step::Concat(branches) => {
            (begin_apart(branches) || kinds_apart(branches)) && branches_apart(branches)
        }
        Step::Join(join) => inner_apart(&join.inner),
        Step::Climb(climb) => stays_apart(&climb.inner),
        Step::Identity => true,
        Step::Filter(_) => true,
        Step::Compute(_) => true,
        Step::OrderBy(_) => true,
        Step::Skip(_) => true,
        Step::Top(_) => true,
        Step::Aggregate(_) => true,
        Step::TopBy(_) => true,
        Step::Traverse(_) => true,
    }
}
