//! The typing of pipelines and their steps, and which of them are quiet (Data Aggregation 4.0, sections 3 and 6).
ghost use Rattle.std.specs.Prelude.{◌≡◌, ◌&&◌, not, true, if◌then◌else◌, IfOk, IfSome, IsTrue, option_map, map};
ghost use Rattle.apply_ast.specs.Trees.{is_distance, is_long, Step as tree, Key as key};
ghost use Rattle.apply_ast.specs.Views.{climb_of, expr_of, hier_of, inner_of, item_of, join_of, key_of, keys_of, pipe_of, pipes_of, step_of, top_of, traverse_of};
ghost use Rattle.context_typing.specs.Outcomes as spec;
ghost use Rattle.context_typing.specs.Readings.{readings, AreTypedOver};
ghost use Rattle.context_typing.specs.Shapes.{set_shape};
ghost use Rattle.context_typing.specs.ShapeTypes.{has_types};
ghost use Rattle.context_typing.specs.Typing.{group_keys, is_risky, is_typed, no_shape};
ghost use Rattle.context_typing.specs.Walks.{IsWalk, long_outcome};
ghost use Rattle.context_typing.specs.Nodes.{nodes_pair};
ghost use Rattle.context_typing.specs.Walks as walks;
ghost use Rattle.edm_model.specs.LookUps.{IsType};
ghost use Rattle.edm_model.specs.Soundness.{IsSound};
ghost use Rattle.std.specs.List.{list_all};
ghost use Rattle.edm_values.specs.Lists.{is_nonempty};

use crate::columns::ColumnList;
use crate::customs::Customs;
use crate::expressions::is_sure;
use crate::grouping::grouped_shape;
use crate::items::{
    Nodes, aggregate_shape, bare_shape, compute_shape, is_count, is_node_path, is_test, nodes_of,
    order_sure, order_typed, set_shape, top_typed, walk_sure, walk_typed,
};
use crate::joining::{join_target, joined_shape};
use crate::lookups::{is_free, is_risky};
use crate::merging::concat_shape;
use crate::outcomes::{Outcome, Walk};
use crate::shapes::Shape;
use apply_ast::{
    ClimbStep, Expr, HierName, JoinStep, KeyItem, KeyList, Name, OrderItem, OrderList, Path,
    PathList, Pipe, PipeList, Step, TopStep, TraverseStep,
};
use edm_model::{Model, TypeId};
use std::alloc::{AllocError, Global};

/// The outcome of a step that leaves the shape as it is, where it has a typing.
fn kept(shape: Shape, typed: bool, quiet: bool) -> Option<Outcome>
    ensures { result ≡ walks.kept shape typed quiet }
{
    if typed {
        Some(Outcome { shape, quiet })
    } else {
        None
    }
}

/// The outcome of a step that is always quiet.
fn quiet(shape: Option<Shape>) -> Option<Outcome>
    ensures { result ≡ spec.outcome shape true }
{
    match shape {
        Some(shape) => Some(Outcome { shape, quiet: true }),
        None => None,
    }
}

/// `filter`
fn type_filter(m: &Model, c: &Customs, shape: Shape, e: &Expr) -> Option<Outcome>
    requires { IsTrue (has_types m.now shape) }
    ensures { result ≡ spec.step_outcome m.now (readings c.now) shape (tree.Filter (expr_of e.now)) }
{
    let typed = is_test(m, &shape, e);
    let quiet = is_sure(m, &shape, e);
    kept(shape, typed, quiet)
}

/// `orderby`
fn type_order(m: &Model, c: &Customs, shape: Shape, items: &OrderList) -> Option<Outcome>
    requires { IsTrue (has_types m.now shape) }
    ensures { result ≡ spec.step_outcome m.now (readings c.now) shape (tree.OrderBy (map item_of items.now)) }
{
    let items = items.as_slice();
    let typed = is_order(m, &shape, items);
    let quiet = order_sure(m, &shape, items);
    kept(shape, typed, quiet)
}

/// Whether the items are an order that has a typing.
fn is_order(m: &Model, shape: &Shape, items: &[OrderItem]) -> bool
    requires { IsTrue (has_types m.now shape.now) }
    ensures { result ≡ (is_nonempty (map item_of items.now) && list_all (λ x. is_typed m.now shape.now x.expr) (map item_of items.now)) }
{
    !items.is_empty() && order_typed(m, shape, items)
}

/// Top and bottom counts, sums and percents
fn type_top(m: &Model, c: &Customs, shape: Shape, top: &TopStep) -> Option<Outcome>
    requires { IsTrue (has_types m.now shape) }
    ensures { result ≡ spec.step_outcome m.now (readings c.now) shape (tree.TopBy (top_of top.now)) }
{
    let typed = top_typed(m, &shape, top);
    let quiet = is_sure(m, &shape, &top.expr);
    kept(shape, typed, quiet)
}

/// `traverse`
fn type_traverse(
    alloc: Global,
    m: &Model,
    c: &Customs,
    shape: Shape,
    walk: &TraverseStep,
) -> Option<Outcome>
    requires { IsTrue (has_types m.now shape) }
    ensures { result ≡ spec.step_outcome m.now (readings c.now) shape (tree.Traverse (traverse_of walk.now)) }
{
    walk_outcome(alloc, m, shape, nodes_of(m, &walk.hier), walk)
}

/// `traverse`, from the nodes of its hierarchy.
fn walk_outcome(
    alloc: Global,
    m: &Model,
    shape: Shape,
    nodes: Option<Nodes>,
    walk: &TraverseStep,
) -> Option<Outcome>
    requires types { IsTrue (has_types m.now shape) }
    requires there { IfSome nodes (λ x. IsType m.now x.of) }
    ensures { result ≡ walks.walk_outcome m.now shape walk.now.path (map item_of walk.now.items) (option_map nodes_pair nodes) }
{
    match nodes {
        Some(nodes) => {
            let leads = is_node_path(m, &shape, &nodes, &walk.path);
            let typed = both(leads, walk_typed(alloc, m, &nodes, walk));
            let kept_path = !is_risky(&shape, &walk.path);
            let quiet = both(kept_path, walk_sure(alloc, m, &nodes, walk));
            kept(shape, typed, quiet)
        }
        None => None,
    }
}

/// Whether both hold.
fn both(a: bool, b: bool) -> bool
    ensures { result ≡ (a && b) }
{
    a && b
}

/// The steps of a pipeline, one after another.
#[cycle(typing)]
pub(crate) fn type_steps(
    alloc: Global,
    m: &Model,
    c: &Customs,
    shape: Shape,
    pipe: &Pipe,
) -> Result<Walk, AllocError>
    requires types { IsTrue (has_types m.now shape) }
    requires customs { AreTypedOver m.now c.now }
    requires sound { IsSound m.now }
    ensures walk { IfOk result (IsWalk m.now (readings c.now) shape (pipe_of pipe.now)) }
    ensures long { IsTrue (is_long (pipe_of pipe.now)) }
{
    let mut shape = shape;
    let mut quiet = true;
    for (i, step) in pipe.steps().iter().enumerate() {
        match type_step(alloc, m, c, shape, step)? {
            Some(next) => {
                let both_quiet = both(quiet, next.quiet);
                shape = next.shape;
                quiet = both_quiet;
            }
            None => return Ok(Walk::Untyped(i + 1)),
        }
    }
    Ok(Walk::Typed(Outcome { shape, quiet }))
}

/// An inner pipeline.
#[cycle(typing)]
fn type_long(
    alloc: Global,
    m: &Model,
    c: &Customs,
    shape: Shape,
    pipe: &Pipe,
) -> Result<Option<Outcome>, AllocError>
    requires types { IsTrue (has_types m.now shape) }
    requires customs { AreTypedOver m.now c.now }
    requires sound { IsSound m.now }
    ensures { IfOk result (λ o. o ≡ long_outcome m.now (readings c.now) shape (pipe_of pipe.now)) }
{
    match type_steps(alloc, m, c, shape, pipe)? {
        Walk::Typed(outcome) => Ok(Some(outcome)),
        Walk::Untyped(_) => Ok(None),
    }
}

/// An inner pipeline on the instances of an entity type, which may be left out.
#[cycle(typing)]
fn type_on_set(
    alloc: Global,
    m: &Model,
    c: &Customs,
    of: TypeId,
    inner: &Option<Pipe>,
) -> Result<Option<Outcome>, AllocError>
    requires there { IsType m.now of }
    requires customs { AreTypedOver m.now c.now }
    requires sound { IsSound m.now }
    ensures { IfOk result (λ o. o ≡ spec.inner_outcome m.now (readings c.now) (set_shape of) (set_shape of) (inner_of (option_map pipe_of inner.now))) }
{
    let shape = set_shape(alloc, of);
    match inner {
        Some(pipe) => type_long(alloc, m, c, shape, pipe),
        None => Ok(Some(Outcome { shape, quiet: true })),
    }
}

/// What each group of a grouping becomes.
#[cycle(typing)]
fn type_groups(
    alloc: Global,
    m: &Model,
    c: &Customs,
    shape: &Shape,
    inner: &Option<Pipe>,
) -> Result<Option<Outcome>, AllocError>
    requires types { IsTrue (has_types m.now shape.now) }
    requires customs { AreTypedOver m.now c.now }
    requires sound { IsSound m.now }
    ensures { IfOk result (λ o. o ≡ spec.inner_outcome m.now (readings c.now) shape.now no_shape (inner_of (option_map pipe_of inner.now))) }
{
    match inner {
        Some(pipe) => type_long(alloc, m, c, shape.copy(alloc)?, pipe),
        None => Ok(Some(Outcome {
            shape: bare_shape(alloc, ColumnList::empty(alloc)),
            quiet: true,
        })),
    }
}

/// Whether the levels of a rollup are quiet, where there are enough of them.
fn type_levels(shape: &Shape, all: bool, paths: &PathList) -> Option<bool>
    ensures { result ≡ walks.levels_outcome shape.now all paths.now }
{
    let paths = paths.as_slice();
    if paths.len() < least_levels(all) {
        return None;
    }
    Some(none_risky(shape, paths))
}

/// The least number of levels of a rollup.
fn least_levels(all: bool) -> usize
    ensures { result ≡ (if all then 1 else 2) }
{
    if all { 1 } else { 2 }
}

/// Whether no path is that of a column that may be past its range.
fn none_risky(shape: &Shape, paths: &[Path]) -> bool
    ensures { result ≡ list_all (λ p. not (is_risky shape.now p)) paths.now }
{
    paths.iter().all(|path| !is_risky(shape, path))
}

/// Whether a recursive rollup is quiet, where it has a typing but for what it has to do with the other keys.
#[cycle(typing)]
fn type_recursive(
    alloc: Global,
    m: &Model,
    c: &Customs,
    shape: &Shape,
    hier: &HierName,
    path: &Path,
    inner: &Option<Pipe>,
) -> Result<Option<bool>, AllocError>
    requires types { IsTrue (has_types m.now shape.now) }
    requires customs { AreTypedOver m.now c.now }
    requires sound { IsSound m.now }
    ensures { IfOk result (λ o. o ≡ spec.key_outcome m.now (readings c.now) shape.now (key.Recursive (hier_of hier.now) path.now (inner_of (option_map pipe_of inner.now)))) }
{
    let nodes = nodes_of(m, hier);
    let inner = type_related(alloc, m, c, nodes_type(m, &nodes), inner)?;
    Ok(recursive_outcome(m, shape, nodes, path, inner))
}

/// The entity type of the nodes of a hierarchy.
fn nodes_type(m: &Model, nodes: &Option<Nodes>) -> Option<TypeId>
    requires { IfSome nodes.now (λ x. IsType m.now x.of) }
    ensures value { result ≡ option_map (λ x. x.0) (option_map nodes_pair nodes.now) }
    ensures there { IfSome result (IsType m.now) }
{
    match nodes {
        Some(nodes) => Some(nodes.of),
        None => None,
    }
}

/// Whether a recursive rollup is quiet, from the nodes of its hierarchy and from what its pipeline gives on them.
fn recursive_outcome(
    m: &Model,
    shape: &Shape,
    nodes: Option<Nodes>,
    path: &Path,
    inner: Option<Outcome>,
) -> Option<bool>
    requires { IsTrue (has_types m.now shape.now) }
    ensures { result ≡ walks.recursive_outcome m.now shape.now path.now (option_map nodes_pair nodes) inner }
{
    match nodes {
        Some(nodes) => match inner {
            Some(inner) => {
                let leads = is_node_path(m, shape, &nodes, path);
                let typed = both(leads, is_root(&inner.shape, nodes.of));
                let quiet = both(!is_risky(shape, path), inner.quiet);
                if typed { Some(quiet) } else { None }
            }
            None => None,
        },
        None => None,
    }
}

/// Whether the shape has this entity type at the empty prefix, where no instance lacks it.
fn is_root(shape: &Shape, of: TypeId) -> bool
    ensures { result ≡ walks.is_root shape.now of }
{
    match shape.root {
        Some(root) => !root.absent && root.of.place() == of.place(),
        None => false,
    }
}

/// Whether a key is quiet, where it has a typing but for what it has to do with the others.
#[cycle(typing)]
fn type_key(
    alloc: Global,
    m: &Model,
    c: &Customs,
    shape: &Shape,
    key: &KeyItem,
) -> Result<Option<bool>, AllocError>
    requires types { IsTrue (has_types m.now shape.now) }
    requires customs { AreTypedOver m.now c.now }
    requires sound { IsSound m.now }
    ensures { IfOk result (λ o. o ≡ spec.key_outcome m.now (readings c.now) shape.now (key_of key.now)) }
{
    match key {
        KeyItem::Plain(path) => Ok(Some(!is_risky(shape, path))),
        KeyItem::Rollup(all, paths) => Ok(type_levels(shape, *all, paths)),
        KeyItem::Recursive(hier, path, inner) => {
            type_recursive(alloc, m, c, shape, hier, path, inner)
        }
    }
}

/// Whether each key is quiet, where each has a typing but for what it has to do with the others.
#[cycle(typing)]
fn type_keys(
    alloc: Global,
    m: &Model,
    c: &Customs,
    shape: &Shape,
    keys: &KeyList,
) -> Result<Option<bool>, AllocError>
    requires types { IsTrue (has_types m.now shape.now) }
    requires customs { AreTypedOver m.now c.now }
    requires sound { IsSound m.now }
    ensures { IfOk result (λ o. o ≡ spec.keys_outcome m.now (readings c.now) shape.now (keys_of keys.now)) }
{
    let mut quiet = true;
    for key in keys.as_slice() {
        match type_key(alloc, m, c, shape, key)? {
            Some(next) => {
                let both_quiet = both(quiet, next);
                quiet = both_quiet;
            }
            None => return Ok(None),
        }
    }
    Ok(Some(quiet))
}

/// `groupby`, from whether its keys are quiet and from what each group becomes, where they have a typing.
fn group_outcome(
    alloc: Global,
    m: &Model,
    shape: &Shape,
    keys: &KeyList,
    keys_quiet: Option<bool>,
    groups: Option<Outcome>,
) -> Result<Option<Outcome>, AllocError>
    requires { IsTrue (has_types m.now shape.now) }
    ensures { IfOk result (λ o. o ≡ walks.group_outcome m.now shape.now (group_keys (keys_of keys.now)) keys_quiet groups) }
{
    let keys_quiet = match keys_quiet {
        Some(quiet) => quiet,
        None => return Ok(None),
    };
    match groups {
        Some(groups) => {
            let quiet = both(keys_quiet, groups.quiet);
            match grouped_shape(alloc, m, shape, keys.as_slice(), groups.shape)? {
                Some(shape) => Ok(Some(Outcome { shape, quiet })),
                None => Ok(None),
            }
        }
        None => Ok(None),
    }
}

/// The shapes after the branches of a concatenation, and whether all branches are quiet.
#[cycle(typing)]
fn type_branches(
    alloc: Global,
    m: &Model,
    c: &Customs,
    shape: &Shape,
    branches: &PipeList,
) -> Result<Option<(Vec<Shape>, bool)>, AllocError>
    requires types { IsTrue (has_types m.now shape.now) }
    requires customs { AreTypedOver m.now c.now }
    requires sound { IsSound m.now }
    ensures { IfOk result (λ o. option_map (λ x. (x.0.items, x.1)) o ≡ spec.branches_outcome m.now (readings c.now) shape.now (pipes_of branches.now)) }
{
    let mut shapes = Vec::new(alloc);
    let mut quiet = true;
    for branch in branches.as_slice() {
        match type_long(alloc, m, c, shape.copy(alloc)?, branch)? {
            Some(next) => {
                let both_quiet = both(quiet, next.quiet);
                shapes.push(next.shape)?;
                quiet = both_quiet;
            }
            None => return Ok(None),
        }
    }
    Ok(Some((shapes, quiet)))
}

/// `concat`
#[cycle(typing)]
fn type_concat(
    alloc: Global,
    m: &Model,
    c: &Customs,
    shape: &Shape,
    branches: &PipeList,
) -> Result<Option<Outcome>, AllocError>
    requires types { IsTrue (has_types m.now shape.now) }
    requires customs { AreTypedOver m.now c.now }
    requires sound { IsSound m.now }
    ensures { IfOk result (λ o. o ≡ spec.step_outcome m.now (readings c.now) shape.now (tree.Concat (pipes_of branches.now))) }
{
    match type_branches(alloc, m, c, shape, branches)? {
        Some((shapes, quiet)) => match concat_shape(alloc, m, &shapes)? {
            Some(shape) => Ok(Some(Outcome { shape, quiet })),
            None => Ok(None),
        },
        None => Ok(None),
    }
}

/// `join` and `outerjoin`
#[cycle(typing)]
fn type_join(
    alloc: Global,
    m: &Model,
    c: &Customs,
    shape: Shape,
    join: &JoinStep,
) -> Result<Option<Outcome>, AllocError>
    requires types { IsTrue (has_types m.now shape) }
    requires customs { AreTypedOver m.now c.now }
    requires sound { IsSound m.now }
    ensures { IfOk result (λ o. o ≡ spec.step_outcome m.now (readings c.now) shape (join_of join.now)) }
{
    let target = join_target(m, &shape, &join.nav);
    let related = type_related(alloc, m, c, target, &join.inner)?;
    join_outcome(alloc, m, shape, join.outer, &join.alias, related)
}

/// What the related entities of a join become, where they have an entity type.
#[cycle(typing)]
fn type_related(
    alloc: Global,
    m: &Model,
    c: &Customs,
    target: Option<TypeId>,
    inner: &Option<Pipe>,
) -> Result<Option<Outcome>, AllocError>
    requires there { IfSome target (IsType m.now) }
    requires customs { AreTypedOver m.now c.now }
    requires sound { IsSound m.now }
    ensures { IfOk result (λ o. o ≡ walks.related_outcome m.now (readings c.now) target (inner_of (option_map pipe_of inner.now))) }
{
    match target {
        Some(of) => type_on_set(alloc, m, c, of, inner),
        None => Ok(None),
    }
}

/// `join` and `outerjoin`, from what the related entities become, where they have a typing.
fn join_outcome(
    alloc: Global,
    m: &Model,
    shape: Shape,
    outer: bool,
    alias: &Name,
    related: Option<Outcome>,
) -> Result<Option<Outcome>, AllocError>
    requires { IsTrue (has_types m.now shape) }
    ensures { IfOk result (λ o. o ≡ walks.join_outcome m.now shape outer alias.now related) }
{
    match related {
        Some(related) => {
            if is_free(m, &shape, alias) {
                let quiet = related.quiet;
                let shape = joined_shape(alloc, outer, alias, shape, &related.shape)?;
                Ok(Some(Outcome { shape, quiet }))
            } else {
                Ok(None)
            }
        }
        None => Ok(None),
    }
}

/// `ancestors` and `descendants`
#[cycle(typing)]
fn type_climb(
    alloc: Global,
    m: &Model,
    c: &Customs,
    shape: Shape,
    climb: &ClimbStep,
) -> Result<Option<Outcome>, AllocError>
    requires types { IsTrue (has_types m.now shape) }
    requires customs { AreTypedOver m.now c.now }
    requires sound { IsSound m.now }
    ensures { IfOk result (λ o. o ≡ spec.step_outcome m.now (readings c.now) shape (climb_of climb.now)) }
{
    let starts = type_long(alloc, m, c, shape.copy(alloc)?, &climb.inner)?;
    let nodes = nodes_of(m, &climb.hier);
    Ok(climb_outcome(m, shape, nodes, climb.distance, &climb.path, starts))
}

/// `ancestors` and `descendants`, from the nodes of their hierarchy and from what gives the start nodes.
fn climb_outcome(
    m: &Model,
    shape: Shape,
    nodes: Option<Nodes>,
    distance: Option<u64>,
    path: &Path,
    starts: Option<Outcome>,
) -> Option<Outcome>
    requires types { IsTrue (has_types m.now shape) }
    requires starts { IfSome starts (λ x. IsTrue (has_types m.now x.shape)) }
    ensures { result ≡ walks.climb_outcome m.now shape path.now distance (option_map nodes_pair nodes) starts }
{
    match nodes {
        Some(nodes) => match starts {
            Some(starts) => {
                let leads = both(is_node_path(m, &shape, &nodes, path), is_distance(distance));
                let typed = both(leads, is_node_path(m, &starts.shape, &nodes, path));
                let before = both(!is_risky(&shape, path), starts.quiet);
                let quiet = both(before, !is_risky(&starts.shape, path));
                kept(shape, typed, quiet)
            }
            None => None,
        },
        None => None,
    }
}

/// Whether a greatest distance is at least 1 and has 63 bits.
fn is_distance(distance: Option<u64>) -> bool
    ensures { result ≡ is_distance distance }
{
    match distance {
        Some(d) => d >= 1 && is_count(d),
        None => true,
    }
}

/// One step: the shape after it, and whether it is quiet.
#[cycle(typing)]
pub fn type_step(
    alloc: Global,
    m: &Model,
    c: &Customs,
    shape: Shape,
    step: &Step,
) -> Result<Option<Outcome>, AllocError>
    requires types { IsTrue (has_types m.now shape) }
    requires customs { AreTypedOver m.now c.now }
    requires sound { IsSound m.now }
    ensures value { IfOk result (λ o. o ≡ spec.step_outcome m.now (readings c.now) shape (step_of step.now)) }
{
    match step {
        Step::Identity => Ok(kept(shape, true, true)),
        Step::Filter(e) => Ok(type_filter(m, c, shape, e)),
        Step::Compute(items) => Ok(quiet(compute_shape(alloc, m, shape, items)?)),
        Step::OrderBy(items) => Ok(type_order(m, c, shape, items)),
        Step::Skip(n) => Ok(kept(shape, is_count(*n), true)),
        Step::Top(n) => Ok(kept(shape, is_count(*n), true)),
        Step::Aggregate(items) => Ok(quiet(aggregate_shape(alloc, m, c, &shape, items)?)),
        Step::GroupBy(keys, inner) => {
            let keys_quiet = type_keys(alloc, m, c, &shape, keys)?;
            let groups = type_groups(alloc, m, c, &shape, inner)?;
            group_outcome(alloc, m, &shape, keys, keys_quiet, groups)
        }
        Step::Concat(branches) => type_concat(alloc, m, c, &shape, branches),
        Step::Join(join) => type_join(alloc, m, c, shape, join),
        Step::TopBy(top) => Ok(type_top(m, c, shape, top)),
        Step::Climb(climb) => type_climb(alloc, m, c, shape, climb),
        Step::Traverse(walk) => Ok(type_traverse(alloc, m, c, shape, walk)),
    }
}
