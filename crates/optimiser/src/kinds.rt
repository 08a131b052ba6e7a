//! Whether two branches of a concatenation begin with steps of different kinds, whatever the rules make of them, so that no step ever
//! comes out of it.
ghost use Rattle.std.specs.Prelude.{◌≡◌};
ghost use Rattle.edm_values.specs.Lists.{same_text};
ghost use Rattle.apply_ast.specs.Trees.{Keys as keys, OptPipe as inner, Pipes as branches, Step as tree};
ghost use Rattle.apply_ast.specs.Views.{pipe_of, pipes_of, step_of, top_of};
ghost use Rattle.rewrite_laws.specs.TreeEquality.{step_same};
ghost use Rattle.walk_laws.specs.Apart as spec;

use crate::apart::{first_step, is_closed, may_go};
use apply_ast::{Name, Pipe, PipeList, Step, TopStep};
use rewrite_forms::{same_expr, same_step};

/// Whether a step is neither dropped nor moved, unless it is an order, and no other comes out of it.
pub(crate) fn is_solid(step: &Step) -> bool
    ensures { result ≡ spec.is_solid (step_of step.now) }
{
    match step {
        Step::Identity => false,
        Step::Filter(_) => false,
        Step::Concat(_) => false,
        Step::Compute(_) => true,
        Step::OrderBy(_) => true,
        Step::Skip(_) => true,
        Step::Top(_) => true,
        Step::Aggregate(_) => true,
        Step::GroupBy(_, _) => true,
        Step::Join(_) => true,
        Step::TopBy(_) => true,
        Step::Climb(_) => true,
        Step::Traverse(_) => true,
    }
}

/// Whether a step is an order.
fn is_ordering(step: &Step) -> bool
    ensures { result ≡ spec.is_ordering (step_of step.now) }
{
    match step {
        Step::OrderBy(_) => true,
        _ => false,
    }
}

/// Whether a step is an aggregation.
pub(crate) fn is_aggregate(step: &Step) -> bool
    ensures { result ≡ spec.is_aggregate (step_of step.now) }
{
    match step {
        Step::Aggregate(_) => true,
        _ => false,
    }
}

/// Whether the first step but orders is no aggregation.
fn keeps_orders(pipe: &Pipe) -> bool
    ensures { result ≡ spec.keeps_orders (pipe_of pipe.now) }
{
    for step in pipe.steps() {
        if !is_ordering(step) {
            return !is_aggregate(step);
        }
    }
    false
}

/// Whether a step of the kind of the first one stays first.
fn is_held(pipe: &Pipe) -> bool
    ensures { result ≡ spec.is_held (pipe_of pipe.now) }
{
    is_solid(first_step(pipe)) && is_closed(pipe) && keeps_orders(pipe)
}

/// Whether a step is a grouping.
fn is_grouping(step: &Step) -> bool
    ensures { result ≡ step_same (tree.GroupBy keys.NoKeys inner.NoPipe) (spec.kind_of (step_of step.now)) }
{
    match step {
        Step::GroupBy(_, _) => true,
        _ => false,
    }
}

/// Whether a step is a concatenation.
fn is_concat(step: &Step) -> bool
    ensures { result ≡ step_same (tree.Concat branches.NoPipes) (spec.kind_of (step_of step.now)) }
{
    match step {
        Step::Concat(_) => true,
        _ => false,
    }
}

/// Whether a step is a climb.
fn is_climb(step: &Step) -> bool
    ensures { result ≡ step_same spec.any_climb (spec.kind_of (step_of step.now)) }
{
    match step {
        Step::Climb(_) => true,
        _ => false,
    }
}

/// Whether two names are equal.
fn same_name(a: &Name, b: &Name) -> bool
    ensures { result ≡ same_text a.now b.now }
{
    a.text() == b.text()
}

/// Whether a step is a join by the same property under the same alias.
fn is_join(outer: bool, nav: &Name, alias: &Name, step: &Step) -> bool
    ensures { result ≡ step_same (tree.Join outer nav.now alias.now inner.NoPipe) (spec.kind_of (step_of step.now)) }
{
    match step {
        Step::Join(join) => {
            outer == join.outer && same_name(nav, &join.nav) && same_name(alias, &join.alias)
        }
        _ => false,
    }
}

/// Whether a step is a selection from the same end by the same expression.
fn is_selection(top: &TopStep, step: &Step) -> bool
    ensures { result ≡ step_same (spec.kind_of (tree.TopBy (top_of top.now))) (spec.kind_of (step_of step.now)) }
{
    match step {
        Step::TopBy(other) => top.bottom == other.bottom && same_expr(&top.expr, &other.expr),
        _ => false,
    }
}

/// Whether two steps are of one kind.
fn same_kind(step: &Step, there: &Step) -> bool
    ensures { result ≡ step_same (spec.kind_of (step_of step.now)) (spec.kind_of (step_of there.now)) }
{
    match step {
        Step::GroupBy(_, _) => is_grouping(there),
        Step::Concat(_) => is_concat(there),
        Step::Join(join) => is_join(join.outer, &join.nav, &join.alias, there),
        Step::TopBy(top) => is_selection(top, there),
        Step::Climb(_) => is_climb(there),
        Step::Identity => same_step(step, there),
        Step::Filter(_) => same_step(step, there),
        Step::Compute(_) => same_step(step, there),
        Step::OrderBy(_) => same_step(step, there),
        Step::Skip(_) => same_step(step, there),
        Step::Top(_) => same_step(step, there),
        Step::Aggregate(_) => same_step(step, there),
        Step::Traverse(_) => same_step(step, there),
    }
}

/// Whether a pipeline never comes to begin with a step of the kind of this one.
fn never_first(step: &Step, pipe: &Pipe) -> bool
    ensures { result ≡ spec.never_first (spec.kind_of (step_of step.now)) (pipe_of pipe.now) }
{
    for there in pipe.steps() {
        if same_kind(step, there) {
            return false;
        }
        if !may_go(there) {
            return true;
        }
    }
    true
}

/// Whether one of some branches never does.
pub(crate) fn some_never(step: &Step, branches: &PipeList) -> bool
    ensures { result ≡ spec.some_never (spec.kind_of (step_of step.now)) (pipes_of branches.now) }
{
    for branch in branches.as_slice() {
        if never_first(step, branch) {
            return true;
        }
    }
    false
}

/// Whether a branch begins with a step of one kind for good, and one of all branches never does.
fn is_unlike(all: &PipeList, branch: &Pipe) -> bool
    ensures { result ≡ spec.is_unlike (pipes_of all.now) (pipe_of branch.now) }
{
    is_held(branch) && some_never(first_step(branch), all)
}

/// Whether one of the branches does.
pub(crate) fn kinds_apart(branches: &PipeList) -> bool
    ensures { result ≡ spec.kinds_apart (pipes_of branches.now) (pipes_of branches.now) }
{
    for branch in branches.as_slice() {
        if is_unlike(branches, branch) {
            return true;
        }
    }
    false
}
