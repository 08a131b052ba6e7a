//! Whether each concatenation gives nothing to the pipeline around it, or filters alone, wherever it stands.
ghost use Rattle.std.specs.Prelude.{◌≡◌, ◌||◌, true, option_map};
ghost use Rattle.apply_ast.specs.Views.{inner_of, key_of, keys_of, pipe_of, pipes_of, step_of};
ghost use Rattle.walk_laws.specs.Apart as other;
ghost use Rattle.walk_laws.specs.FiltersOut as spec;

use crate::apart::step_apart;
use crate::lasting::gives_no_other;
use apply_ast::{KeyItem, KeyList, Pipe, PipeList, Step};

/// Whether each concatenation in some branches gives nothing to its branch, or filters alone.
#[cycle(anywhere)]
fn all_give(branches: &PipeList) -> bool
    ensures { result ≡ spec.branches_give true (pipes_of branches.now) }
{
    for branch in branches.as_slice() {
        if !gives_anywhere(branch) {
            return false;
        }
    }
    true
}

/// Whether each concatenation in an inner pipeline gives nothing to it, or filters alone.
#[cycle(anywhere)]
fn inner_gives(inner: &Option<Pipe>) -> bool
    ensures { result ≡ spec.inner_gives (inner_of (option_map pipe_of inner.now)) }
{
    match inner {
        Some(pipe) => gives_anywhere(pipe),
        None => true,
    }
}

/// Whether each concatenation in what chooses the nodes of a key gives nothing to it, or filters alone.
#[cycle(anywhere)]
fn key_gives(key: &KeyItem) -> bool
    ensures { result ≡ spec.key_gives (key_of key.now) }
{
    match key {
        KeyItem::Recursive(_, _, inner) => inner_gives(inner),
        KeyItem::Plain(_) => true,
        KeyItem::Rollup(_, _) => true,
    }
}

/// Whether so it is with keys.
#[cycle(anywhere)]
fn keys_give(keys: &KeyList) -> bool
    ensures { result ≡ spec.keys_give (keys_of keys.now) }
{
    for key in keys.as_slice() {
        if !key_gives(key) {
            return false;
        }
    }
    true
}

/// Whether nothing but filters comes out of the branches of a concatenation, nor of those in the pipelines inside a join, a grouping or
/// a climb.
#[cycle(anywhere)]
pub(crate) fn gives_alone(step: &Step) -> bool
    ensures { result ≡ spec.gives_alone true (step_of step.now) }
{
    match step {
        Step::Concat(branches) => gives_no_other(branches) && all_give(branches),
        Step::GroupBy(keys, inner) => keys_give(keys) && inner_gives(inner),
        Step::Join(join) => inner_gives(&join.inner),
        Step::Identity => false,
        Step::Filter(_) => false,
        Step::Compute(_) => false,
        Step::OrderBy(_) => false,
        Step::Skip(_) => false,
        Step::Top(_) => false,
        Step::Aggregate(_) => false,
        Step::TopBy(_) => false,
        Step::Climb(climb) => gives_anywhere(&climb.inner),
        Step::Traverse(_) => false,
    }
}

/// Whether a step gives nothing to the pipeline around it, or filters alone.
#[cycle(anywhere)]
fn may_stand(step: &Step) -> bool
    ensures { result ≡ (other.step_apart (step_of step.now) || spec.gives_alone true (step_of step.now)) }
{
    step_apart(step) || gives_alone(step)
}

/// Whether each concatenation in a pipeline gives nothing to it, or filters alone.
#[cycle(anywhere)]
pub(crate) fn gives_anywhere(pipe: &Pipe) -> bool
    ensures value { result ≡ spec.gives_anywhere (pipe_of pipe.now) }
{
    for step in pipe.steps() {
        if !may_stand(step) {
            return false;
        }
    }
    true
}
