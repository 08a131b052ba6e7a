//! Steps with which all branches of a concatenation begin, before it, in joins, groupings and climbs too: those of all concatenations at
//! once.
ghost use Rattle.std.specs.Prelude.{◌≡◌, ◌∷◌, ◌++◌, [], IfOk, OnOk, map, option_map};
ghost use Rattle.apply_ast.specs.Views.{climb_of, inner_of, join_of, key_of, keys_of, pipe_of, pipes_of, step_of};
ghost use Rattle.optimiser.specs.RestForms as form;
ghost use Rattle.walk_laws.specs.Factored as spec;

use crate::ends::pipe_or_identity;
use crate::factoring::put_concat;
use apply_ast::{ClimbStep, JoinStep, KeyItem, KeyList, Pipe, PipeList, Step};
use std::alloc::{AllocError, Global};

/// The steps of a pipeline, with those before each concatenation that come out of its branches.
#[cycle(within)]
fn inside_steps(alloc: Global, pipe: &Pipe) -> Result<Vec<Step>, AllocError>
    ensures { IfOk result (λ v. map step_of v.items ≡ spec.inside_steps (pipe_of pipe.now)) }
{
    let mut made = Vec::new(alloc);
    for step in pipe.steps() {
        put_inside(&mut made, alloc, step)?;
    }
    Ok(made)
}

/// The same of branches.
#[cycle(within)]
fn inside_branches(alloc: Global, branches: &PipeList) -> Result<Vec<Vec<Step>>, AllocError>
    ensures { IfOk result (λ v. form.lists_of v.items ≡ spec.inside_branches (pipes_of branches.now)) }
{
    let mut lists = Vec::new(alloc);
    for branch in branches.as_slice() {
        lists.push(inside_steps(alloc, branch)?)?;
    }
    Ok(lists)
}

/// A pipeline with those steps before its concatenations.
#[cycle(within)]
fn inside_pipe(alloc: Global, pipe: &Pipe) -> Result<Pipe, AllocError>
    ensures { IfOk result (λ p. pipe_of p ≡ spec.factored_inside (pipe_of pipe.now)) }
{
    pipe_or_identity(inside_steps(alloc, pipe)?)
}

/// The same of an inner pipeline.
#[cycle(within)]
fn inside_inner(alloc: Global, inner: &Option<Pipe>) -> Result<Option<Pipe>, AllocError>
    ensures { IfOk result (λ p. inner_of (option_map pipe_of p) ≡ spec.inside_inner (inner_of (option_map pipe_of inner.now))) }
{
    match inner {
        Some(pipe) => Ok(Some(inside_pipe(alloc, pipe)?)),
        None => Ok(None),
    }
}

/// The same of what chooses the nodes of a key.
#[cycle(within)]
fn inside_key(alloc: Global, key: &KeyItem) -> Result<KeyItem, AllocError>
    ensures { IfOk result (λ k. key_of k ≡ spec.inside_key (key_of key.now)) }
{
    match key {
        KeyItem::Recursive(hier, path, inner) => {
            let nodes = inside_inner(alloc, inner)?;
            let hier = hier.copy(alloc)?;
            Ok(KeyItem::Recursive(hier, path.copy(alloc)?, nodes))
        }
        KeyItem::Plain(_) => key.copy(alloc),
        KeyItem::Rollup(_, _) => key.copy(alloc),
    }
}

/// The same of keys.
#[cycle(within)]
fn inside_keys(alloc: Global, keys: &KeyList) -> Result<KeyList, AllocError>
    ensures { IfOk result (λ l. keys_of l ≡ spec.inside_keys (keys_of keys.now)) }
{
    let mut made = Vec::new(alloc);
    for key in keys.as_slice() {
        made.push(inside_key(alloc, key)?)?;
    }
    Ok(KeyList::new(made))
}

/// The same of a join.
#[cycle(within)]
fn inside_join(alloc: Global, join: &JoinStep) -> Result<JoinStep, AllocError>
    ensures { IfOk result (λ j. spec.inside_step (join_of join.now) ≡ join_of j ∷ []) }
{
    Ok(JoinStep {
        outer: join.outer,
        nav: join.nav.copy(alloc)?,
        alias: join.alias.copy(alloc)?,
        inner: inside_inner(alloc, &join.inner)?,
    })
}

/// The same of a climb.
#[cycle(within)]
fn inside_climb(alloc: Global, climb: &ClimbStep) -> Result<ClimbStep, AllocError>
    ensures { IfOk result (λ k. spec.inside_step (climb_of climb.now) ≡ climb_of k ∷ []) }
{
    Ok(ClimbStep {
        up: climb.up,
        hier: climb.hier.copy(alloc)?,
        path: climb.path.copy(alloc)?,
        inner: inside_pipe(alloc, &climb.inner)?,
        distance: climb.distance,
        keep: climb.keep,
    })
}

/// Puts a step behind others, with those before it that come out of its branches.
#[cycle(within)]
fn put_inside(made: &mut Vec<Step>, alloc: Global, step: &Step) -> Result<(), AllocError>
    ensures { OnOk result (map step_of made.new.items ≡ map step_of made.old.items ++ spec.inside_step (step_of step.now)) }
{
    match step {
        Step::Identity => Ok(()),
        Step::Concat(branches) => {
            let lists = inside_branches(alloc, branches)?;
            put_concat(made, alloc, lists.as_slice())
        }
        Step::GroupBy(keys, inner) => {
            let chosen = inside_keys(alloc, keys)?;
            let within = inside_inner(alloc, inner)?;
            made.push(Step::GroupBy(chosen, within))?;
            Ok(())
        }
        Step::Join(join) => {
            made.push(Step::Join(inside_join(alloc, join)?))?;
            Ok(())
        }
        Step::Climb(climb) => {
            made.push(Step::Climb(inside_climb(alloc, climb)?))?;
            Ok(())
        }
        Step::Filter(_)
        | Step::Compute(_)
        | Step::OrderBy(_)
        | Step::Skip(_)
        | Step::Top(_)
        | Step::Aggregate(_)
        | Step::TopBy(_)
        | Step::Traverse(_) => {
            made.push(step.copy(alloc)?)?;
            Ok(())
        }
    }
}

/// A pipeline, with the steps that come out of branches before the concatenations, in joins, groupings and climbs too.
pub(crate) fn factored_inside(alloc: Global, pipe: &Pipe) -> Result<Pipe, AllocError>
    ensures value { IfOk result (λ p. pipe_of p ≡ spec.factored_inside (pipe_of pipe.now)) }
{
    inside_pipe(alloc, pipe)
}
