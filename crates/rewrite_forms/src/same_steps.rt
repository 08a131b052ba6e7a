//! Equality of steps.
ghost use Rattle.std.specs.Prelude.{◌≡◌, map, option_map};
ghost use Rattle.apply_ast.specs.Trees.{Step as tree};
ghost use Rattle.apply_ast.specs.Views.{agg_of, climb_of, expr_of, inner_of, item_of, join_of, key_of, keys_of, named_of, pipe_of, pipes_of, step_of, top_of, traverse_of};
ghost use Rattle.rewrite_laws.specs.TreeEquality as spec;

use crate::forms::{computed_by, filtered_by, is_identity, ordered_by};
use crate::same::same_expr;
use crate::same_items::{
    same_aggregation, same_computation, same_distance, same_hier, same_name, same_order,
    same_paths, same_top, same_walk,
};
use crate::step_forms::{branches_of, climbed_by, grouped_by, joined_by};
use apply_ast::{
    AggItem, ClimbStep, Expr, JoinStep, KeyItem, KeyList, Named, OrderItem, Pipe, PipeList, Step,
    TopStep, TraverseStep,
};
use context_typing::same_path;

/// Whether a step is the filter by this expression.
fn is_filter(e: &Expr, step: &Step) -> bool
    ensures { result ≡ spec.step_same (tree.Filter (expr_of e.now)) (step_of step.now) }
{
    match step {
        Step::Filter(other) => same_expr(e, other),
        _ => false,
    }
}

/// Whether a step is the computation of these items.
fn is_compute(items: &[Named], step: &Step) -> bool
    ensures { result ≡ spec.step_same (tree.Compute (map named_of items.now)) (step_of step.now) }
{
    match step {
        Step::Compute(others) => same_computation(items, others.as_slice()),
        _ => false,
    }
}

/// Whether a step is the order by these items.
fn is_order(items: &[OrderItem], step: &Step) -> bool
    ensures { result ≡ spec.step_same (tree.OrderBy (map item_of items.now)) (step_of step.now) }
{
    match step {
        Step::OrderBy(others) => same_order(items, others.as_slice()),
        _ => false,
    }
}

/// Whether a step skips so many.
fn is_skip(n: u64, step: &Step) -> bool
    ensures { result ≡ spec.step_same (tree.Skip n) (step_of step.now) }
{
    match step {
        Step::Skip(k) => n == *k,
        _ => false,
    }
}

/// Whether a step leaves so many.
fn is_top(n: u64, step: &Step) -> bool
    ensures { result ≡ spec.step_same (tree.Top n) (step_of step.now) }
{
    match step {
        Step::Top(k) => n == *k,
        _ => false,
    }
}

/// Whether a step is the aggregation by these items.
fn is_aggregate(items: &[AggItem], step: &Step) -> bool
    ensures { result ≡ spec.step_same (tree.Aggregate (map agg_of items.now)) (step_of step.now) }
{
    match step {
        Step::Aggregate(others) => same_aggregation(items, others.as_slice()),
        _ => false,
    }
}

/// Whether a step is this selection.
fn is_selection(top: &TopStep, step: &Step) -> bool
    ensures { result ≡ spec.step_same (tree.TopBy (top_of top.now)) (step_of step.now) }
{
    match step {
        Step::TopBy(other) => same_top(top, other),
        _ => false,
    }
}

/// Whether a step is this walk.
fn is_walk(walk: &TraverseStep, step: &Step) -> bool
    ensures { result ≡ spec.step_same (tree.Traverse (traverse_of walk.now)) (step_of step.now) }
{
    match step {
        Step::Traverse(other) => same_walk(walk, other),
        _ => false,
    }
}

/// Whether two steps are equal: the same transformation with the same parts.
#[cycle(same)]
pub fn same_step(a: &Step, b: &Step) -> bool
    ensures value { result ≡ spec.step_same (step_of a.now) (step_of b.now) }
{
    match a {
        Step::Identity => is_identity(b),
        Step::Filter(e) => is_filter(e, b),
        Step::Compute(items) => is_compute(items.as_slice(), b),
        Step::OrderBy(items) => is_order(items.as_slice(), b),
        Step::Skip(n) => is_skip(*n, b),
        Step::Top(n) => is_top(*n, b),
        Step::Aggregate(items) => is_aggregate(items.as_slice(), b),
        Step::GroupBy(keys, inner) => match grouped_by(b) {
            Some((others, other)) => same_keys(keys, others) && same_inner(inner, other),
            None => false,
        },
        Step::Concat(branches) => is_concat(branches, b),
        Step::Join(join) => is_join(join, b),
        Step::TopBy(top) => is_selection(top, b),
        Step::Climb(climb) => is_climb(climb, b),
        Step::Traverse(walk) => is_walk(walk, b),
    }
}

/// Whether a step is the concatenation of these branches.
#[cycle(same)]
fn is_concat(branches: &PipeList, step: &Step) -> bool
    ensures { result ≡ spec.step_same (tree.Concat (pipes_of branches.now)) (step_of step.now) }
{
    match branches_of(step) {
        Some(others) => same_branches(branches, others),
        None => false,
    }
}

/// Whether a step is this join.
#[cycle(same)]
fn is_join(join: &JoinStep, step: &Step) -> bool
    ensures { result ≡ spec.step_same (join_of join.now) (step_of step.now) }
{
    match joined_by(step) {
        Some(other) => join.outer == other.outer
            && same_name(&join.nav, &other.nav)
            && same_name(&join.alias, &other.alias)
            && same_inner(&join.inner, &other.inner),
        None => false,
    }
}

/// Whether a step is this climb.
#[cycle(same)]
fn is_climb(climb: &ClimbStep, step: &Step) -> bool
    ensures { result ≡ spec.step_same (climb_of climb.now) (step_of step.now) }
{
    match climbed_by(step) {
        Some(other) => climb.up == other.up
            && same_hier(&climb.hier, &other.hier)
            && same_path(climb.path.names(), other.path.names())
            && same_pipe(&climb.inner, &other.inner)
            && same_distance(climb.distance, other.distance)
            && climb.keep == other.keep,
        None => false,
    }
}

/// Whether two pipelines are equal.
#[cycle(same)]
fn same_pipe(a: &Pipe, b: &Pipe) -> bool
    ensures { result ≡ spec.pipe_same (pipe_of a.now) (pipe_of b.now) }
{
    let steps = a.steps();
    let others = b.steps();
    if steps.len() != others.len() {
        return false;
    }
    for (i, step) in steps.iter().enumerate() {
        if !same_step(step, &others[i]) {
            return false;
        }
    }
    true
}

/// Whether two inner pipelines are equal, or there is neither.
#[cycle(same)]
fn same_inner(a: &Option<Pipe>, b: &Option<Pipe>) -> bool
    ensures { result ≡ spec.inner_same (inner_of (option_map pipe_of a.now)) (inner_of (option_map pipe_of b.now)) }
{
    match a {
        Some(pipe) => match b {
            Some(other) => same_pipe(pipe, other),
            None => false,
        },
        None => b.is_none(),
    }
}

/// Whether the branches of two concatenations are equal.
#[cycle(same)]
fn same_branches(a: &PipeList, b: &PipeList) -> bool
    ensures { result ≡ spec.pipes_same (pipes_of a.now) (pipes_of b.now) }
{
    let branches = a.as_slice();
    let others = b.as_slice();
    if branches.len() != others.len() {
        return false;
    }
    for (i, branch) in branches.iter().enumerate() {
        if !same_pipe(branch, &others[i]) {
            return false;
        }
    }
    true
}

/// Whether two keys are equal.
#[cycle(same)]
fn same_key(a: &KeyItem, b: &KeyItem) -> bool
    ensures { result ≡ spec.key_same (key_of a.now) (key_of b.now) }
{
    match a {
        KeyItem::Plain(path) => match b {
            KeyItem::Plain(other) => same_path(path.names(), other.names()),
            _ => false,
        },
        KeyItem::Rollup(all, paths) => match b {
            KeyItem::Rollup(flag, others) => {
                *all == *flag && same_paths(paths.as_slice(), others.as_slice())
            }
            _ => false,
        },
        KeyItem::Recursive(hier, path, inner) => match b {
            KeyItem::Recursive(name, node, other) => same_hier(hier, name)
                && same_path(path.names(), node.names())
                && same_inner(inner, other),
            _ => false,
        },
    }
}

/// Whether the keys of two groupings are equal.
#[cycle(same)]
fn same_keys(a: &KeyList, b: &KeyList) -> bool
    ensures { result ≡ spec.keys_same (keys_of a.now) (keys_of b.now) }
{
    let keys = a.as_slice();
    let others = b.as_slice();
    if keys.len() != others.len() {
        return false;
    }
    for (i, key) in keys.iter().enumerate() {
        if !same_key(key, &others[i]) {
            return false;
        }
    }
    true
}
