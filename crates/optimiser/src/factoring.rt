//! Steps with which all branches of a concatenation begin, before it: those of all concatenations at once.
ghost use Rattle.std.specs.Prelude.{◌≡◌, ◌≤◌, ◌∷◌, ◌++◌, [], IfOk, OnOk, drop, length, map, take};
ghost use Rattle.std.specs.List.{list_all};
ghost use Rattle.apply_ast.specs.Views.{pipe_of, pipes_from, pipes_of, step_of};
ghost use Rattle.optimiser.specs.RestForms as form;
ghost use Rattle.rewrite_laws.specs.Rewrites as rule;
ghost use Rattle.walk_laws.specs.Factored as spec;

use crate::ends::pipe_or_identity;
use apply_ast::{Pipe, PipeList, Step};
use rewrite_forms::{put_copies, same_step};
use std::alloc::{AllocError, Global};

/// The steps of a list from a place on, none where it is shorter.
pub(crate) fn behind(list: &[Step], at: usize) -> &[Step]
    ensures { result.now ≡ drop at list.now }
{
    if at < list.len() {
        &list[at..]
    } else {
        &list[list.len()..]
    }
}

/// Whether a step stands at a place of a list.
fn stands_at(step: &Step, list: &[Step], at: usize) -> bool
    ensures { result ≡ form.stands_at (step_of step.now) at (map step_of list.now) }
{
    match behind(list, at).first() {
        Some(there) => same_step(step, there),
        None => false,
    }
}

/// Whether a step stands at a place of each list.
fn stands_in_each(step: &Step, lists: &[Vec<Step>], at: usize) -> bool
    ensures { result ≡ list_all (λ l. form.stands_at (step_of step.now) at (map step_of l.items)) lists.now }
{
    lists
        .iter()
        .all(|list| stands_at(step, list.as_slice(), at))
}

/// Whether all lists have a step at a place.
fn stands_in_all(step: &Step, lists: &[Vec<Step>], at: usize) -> bool
    ensures { result ≡ spec.all_begin (step_of step.now) (map (drop at) (form.lists_of lists.now)) }
{
    stands_in_each(step, lists, at)
}

/// With how many steps of the first list all others begin.
fn common(first: &[Step], others: &[Vec<Step>]) -> usize
    ensures within { result ≤ length first.now }
    ensures value { spec.taken_out (map step_of first.now) (form.lists_of others.now) ≡ map step_of (take result first.now) ++ spec.concat_of (map (drop result) (map step_of first.now ∷ form.lists_of others.now)) ∷ [] }
{
    for (at, step) in first.iter().enumerate() {
        if !stands_in_all(step, others, at) {
            return at;
        }
    }
    first.len()
}

/// The pipeline of the steps of a list from a place on.
fn left(alloc: Global, list: &[Step], at: usize) -> Result<Pipe, AllocError>
    ensures { IfOk result (λ p. pipe_of p ≡ rule.pipe_or_identity (drop at (map step_of list.now))) }
{
    let mut steps = Vec::new(alloc);
    put_copies(&mut steps, alloc, behind(list, at))?;
    pipe_or_identity(steps)
}

/// The pipelines of the steps of lists from a place on.
fn all_left(alloc: Global, lists: &[Vec<Step>], at: usize) -> Result<PipeList, AllocError>
    ensures { IfOk result (λ l. pipes_of l ≡ pipes_from (map rule.pipe_or_identity (map (drop at) (form.lists_of lists.now)))) }
{
    let mut made = Vec::new(alloc);
    for list in lists {
        made.push(left(alloc, list.as_slice(), at)?)?;
    }
    Ok(PipeList::new(made))
}

/// Puts the steps with which all branches begin behind others, and the concatenation of what is left. The first branch is also given
/// apart from the others.
fn put_branches(
    made: &mut Vec<Step>,
    alloc: Global,
    first: &[Step],
    others: &[Vec<Step>],
    lists: &[Vec<Step>],
) -> Result<(), AllocError>
    requires { form.lists_of lists.now ≡ map step_of first.now ∷ form.lists_of others.now }
    ensures { OnOk result (map step_of made.new.items ≡ map step_of made.old.items ++ spec.taken_out (map step_of first.now) (form.lists_of others.now)) }
{
    let at = common(first, others);
    put_copies(made, alloc, &first[..at])?;
    let branches = all_left(alloc, lists, at)?;
    made.push(Step::Concat(branches))?;
    Ok(())
}

/// Puts the concatenation of no branches behind others.
fn put_none(made: &mut Vec<Step>, alloc: Global) -> Result<(), AllocError>
    ensures { OnOk result (map step_of made.new.items ≡ map step_of made.old.items ++ spec.before_concat []) }
{
    made.push(Step::Concat(PipeList::new(Vec::new(alloc))))?;
    Ok(())
}

/// Puts the steps with which all branches begin behind others, and the concatenation of what is left.
pub(crate) fn put_concat(
    made: &mut Vec<Step>,
    alloc: Global,
    lists: &[Vec<Step>],
) -> Result<(), AllocError>
    ensures { OnOk result (map step_of made.new.items ≡ map step_of made.old.items ++ spec.before_concat (form.lists_of lists.now)) }
{
    match lists.split_first() {
        Some((first, others)) => put_branches(made, alloc, first.as_slice(), others, lists),
        None => put_none(made, alloc),
    }
}

/// The steps of a pipeline, with those before each concatenation that come out of its branches.
#[cycle(factored)]
fn factored_steps(alloc: Global, pipe: &Pipe) -> Result<Vec<Step>, AllocError>
    ensures { IfOk result (λ v. map step_of v.items ≡ spec.factored_steps (pipe_of pipe.now)) }
{
    let mut made = Vec::new(alloc);
    for step in pipe.steps() {
        put_factored(&mut made, alloc, step)?;
    }
    Ok(made)
}

/// The same of branches.
#[cycle(factored)]
fn factored_branches(alloc: Global, branches: &PipeList) -> Result<Vec<Vec<Step>>, AllocError>
    ensures { IfOk result (λ v. form.lists_of v.items ≡ spec.factored_branches (pipes_of branches.now)) }
{
    let mut lists = Vec::new(alloc);
    for branch in branches.as_slice() {
        lists.push(factored_steps(alloc, branch)?)?;
    }
    Ok(lists)
}

/// Puts a step behind others, with those before it that come out of its branches.
#[cycle(factored)]
fn put_factored(made: &mut Vec<Step>, alloc: Global, step: &Step) -> Result<(), AllocError>
    ensures { OnOk result (map step_of made.new.items ≡ map step_of made.old.items ++ spec.factored_step (step_of step.now)) }
{
    match step {
        Step::Identity => Ok(()),
        Step::Concat(branches) => {
            let lists = factored_branches(alloc, branches)?;
            put_concat(made, alloc, lists.as_slice())
        }
        Step::Filter(_)
        | Step::Compute(_)
        | Step::OrderBy(_)
        | Step::Skip(_)
        | Step::Top(_)
        | Step::Aggregate(_)
        | Step::GroupBy(_, _)
        | Step::Join(_)
        | Step::TopBy(_)
        | Step::Climb(_)
        | Step::Traverse(_) => {
            made.push(step.copy(alloc)?)?;
            Ok(())
        }
    }
}

/// A pipeline, with the steps that come out of branches before the concatenations.
pub(crate) fn factored(alloc: Global, pipe: &Pipe) -> Result<Pipe, AllocError>
    ensures value { IfOk result (λ p. pipe_of p ≡ spec.factored (pipe_of pipe.now)) }
{
    pipe_or_identity(factored_steps(alloc, pipe)?)
}
