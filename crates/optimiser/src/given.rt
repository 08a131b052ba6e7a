//! Whether each concatenation gives nothing to the pipeline around it, or filters that stay before it.
ghost use Rattle.std.specs.Prelude.{◌≡◌, ◌&&◌, ◌||◌, option_map};
ghost use Rattle.apply_ast.specs.Views.{pipe_of, pipes_of, step_of};
ghost use Rattle.walk_laws.specs.Apart as other;
ghost use Rattle.walk_laws.specs.FiltersOut as spec;

use crate::apart::{branches_apart, is_firm, is_loose, leads_to, step_apart};
use crate::lasting::gives_no_other;
use apply_ast::{Pipe, PipeList, Step};

/// Whether no filter passes a step, nor goes into it.
fn is_stop(step: &Step) -> bool
    ensures { result ≡ spec.is_stop (step_of step.now) }
{
    match step {
        Step::Skip(_) => true,
        Step::Top(_) => true,
        Step::Aggregate(_) => true,
        Step::TopBy(_) => true,
        Step::Climb(_) => true,
        Step::Identity => false,
        Step::Filter(_) => false,
        Step::Compute(_) => false,
        Step::OrderBy(_) => false,
        Step::GroupBy(_, _) => false,
        Step::Concat(_) => false,
        Step::Join(_) => false,
        Step::Traverse(_) => false,
    }
}

/// The first step but filters and `identity`.
pub(crate) fn front_of(pipe: &Pipe) -> Option<&Step>
    ensures { option_map (λ s. step_of s.now) result ≡ spec.front_of (pipe_of pipe.now) }
{
    for step in pipe.steps() {
        if !is_loose(step) {
            return Some(step);
        }
    }
    None
}

/// Whether one of some branches never leads to a step.
fn some_beside(step: &Step, branches: &PipeList) -> bool
    ensures { result ≡ spec.some_beside (step_of step.now) (pipes_of branches.now) }
{
    for branch in branches.as_slice() {
        if !leads_to(step, branch) {
            return true;
        }
    }
    false
}

/// Whether a branch has no step but filters, or behind them one that no rule changes, and to which another branch never leads.
fn has_own_front(all: &PipeList, branch: &Pipe) -> bool
    ensures { result ≡ spec.has_own_front (pipes_of all.now) (spec.front_of (pipe_of branch.now)) }
{
    match front_of(branch) {
        Some(step) => is_firm(step) && some_beside(step, all),
        None => true,
    }
}

/// Whether so it is with one of the branches.
pub(crate) fn some_own(branches: &PipeList) -> bool
    ensures { result ≡ spec.some_own (pipes_of branches.now) (pipes_of branches.now) }
{
    for branch in branches.as_slice() {
        if has_own_front(branches, branch) {
            return true;
        }
    }
    false
}

/// Whether nothing but filters comes out of the branches of a concatenation.
fn gives_filters(step: &Step) -> bool
    ensures { result ≡ spec.gives_filters (step_of step.now) }
{
    match step {
        Step::Concat(branches) => gives_no_other(branches) && branches_apart(branches),
        Step::Identity => false,
        Step::Filter(_) => false,
        Step::Compute(_) => false,
        Step::OrderBy(_) => false,
        Step::Skip(_) => false,
        Step::Top(_) => false,
        Step::Aggregate(_) => false,
        Step::GroupBy(_, _) => false,
        Step::Join(_) => false,
        Step::TopBy(_) => false,
        Step::Climb(_) => false,
        Step::Traverse(_) => false,
    }
}

/// Whether a step may stand where it does: it gives nothing to the pipeline around it, or filters that stay before it. `stays`:
/// whether filters do there.
fn may_stand(stays: bool, step: &Step) -> bool
    ensures { result ≡ (other.step_apart (step_of step.now) || (stays && spec.gives_filters (step_of step.now))) }
{
    step_apart(step) || (stays && gives_filters(step))
}

/// Whether filters stay behind a step. `stays`: whether they do before it.
fn stays_behind(stays: bool, step: &Step) -> bool
    ensures { result ≡ spec.stays_behind stays (step_of step.now) }
{
    is_stop(step) || (stays && is_loose(step))
}

/// Whether each concatenation in a pipeline gives nothing to it, or filters that stay before it.
pub(crate) fn gives_at_front(pipe: &Pipe) -> bool
    ensures value { result ≡ spec.gives_at_front (pipe_of pipe.now) }
{
    let mut stays = true;
    for step in pipe.steps() {
        if !may_stand(stays, step) {
            return false;
        }
        stays = stays_behind(stays, step);
    }
    true
}
