//! Whether the filters of a pipeline rest: none of the rules that come first moves one, nor where steps come out of branches.
ghost use Rattle.std.specs.Prelude.{◌≡◌, ◌&&◌, ◌||◌, IsTrue};
ghost use Rattle.apply_ast.specs.Trees as tree;
ghost use Rattle.apply_ast.specs.Views.{expr_of, pipe_of, pipes_of, step_of};
ghost use Rattle.optimiser.specs.RestForms.{place_of};
ghost use Rattle.walk_laws.specs.Factored as spec;

use apply_ast::{BinOp, Expr, Named, Pipe, PipeList, Step};
use rewrite_forms::{is_identity, names_any};

/// What stands before a filter.
#[derive(Clone, Copy, Drop)]
pub(crate) enum Place<'a> {
    /// Nothing that lets filters pass.
    Free,
    /// New columns.
    Columns(&'a [Named]),
    /// A step that filters may pass.
    Closed,
}

/// What stands before the steps behind a step.
fn place_behind<'a>(place: Place<'a>, step: &'a Step) -> Place<'a>
    ensures { place_of result ≡ spec.place_behind (place_of place.entry) (step_of step.now) }
{
    match step {
        Step::Filter(_) => place,
        Step::Compute(items) => Place::Columns(items.as_slice()),
        Step::OrderBy(_) => Place::Closed,
        Step::Concat(_) => Place::Closed,
        Step::Identity => Place::Free,
        Step::Skip(_) => Place::Free,
        Step::Top(_) => Place::Free,
        Step::Aggregate(_) => Place::Free,
        Step::GroupBy(_, _) => Place::Free,
        Step::Join(_) => Place::Free,
        Step::TopBy(_) => Place::Free,
        Step::Climb(_) => Place::Free,
        Step::Traverse(_) => Place::Free,
    }
}

/// Whether a filter is neither split nor always true.
pub(crate) fn is_one(e: &Expr) -> bool
    ensures { result ≡ spec.is_one (expr_of e.now) }
{
    match e {
        Expr::Binary(BinOp::And, _, _) => false,
        Expr::Bool(true) => false,
        _ => true,
    }
}

/// Whether a filter stays where it stands.
fn filter_stays(place: Place, e: &Expr) -> bool
    ensures { result ≡ spec.filter_stays (place_of place.entry) (expr_of e.now) }
{
    match place {
        Place::Free => true,
        Place::Columns(made) => names_any(e, made),
        Place::Closed => false,
    }
}

/// Whether a filter rests.
fn filter_rests(place: Place, e: &Expr) -> bool
    ensures { result ≡ (spec.is_one (expr_of e.now) && spec.filter_stays (place_of place.entry) (expr_of e.now)) }
{
    is_one(e) && filter_stays(place, e)
}

/// Whether a pipeline is `identity`. A pipeline has a step.
fn is_alone(pipe: &Pipe) -> bool
    ensures value { result ≡ spec.is_alone (pipe_of pipe.now) }
    ensures long { IsTrue (tree.is_long (pipe_of pipe.now)) }
{
    let steps = pipe.steps();
    if steps.len() != 1 {
        return false;
    }
    is_identity(&steps[0])
}

/// Whether the filters of steps rest, also where the steps come to stand behind what stands before them.
#[cycle(resting)]
fn steps_rest<'a>(pipe: &'a Pipe, start: Place<'a>) -> bool
    ensures { result ≡ spec.steps_rest (place_of start.entry) (pipe_of pipe.now) }
{
    let mut place = start;
    for step in pipe.steps() {
        if !step_rests(step, place) {
            return false;
        }
        place = place_behind(place, step);
    }
    true
}

/// Whether those of a branch rest.
#[cycle(resting)]
fn branch_rests<'a>(pipe: &'a Pipe, place: Place<'a>) -> bool
    ensures { result ≡ (spec.is_alone (pipe_of pipe.now) || (tree.is_long (pipe_of pipe.now) && spec.steps_rest (place_of place.entry) (pipe_of pipe.now))) }
{
    is_alone(pipe) || steps_rest(pipe, place)
}

/// Whether those of branches rest.
#[cycle(resting)]
fn branches_rest<'a>(branches: &'a PipeList, place: Place<'a>) -> bool
    ensures { result ≡ spec.branches_rest (place_of place.entry) (pipes_of branches.now) }
{
    for branch in branches.as_slice() {
        if !branch_rests(branch, place) {
            return false;
        }
    }
    true
}

/// Whether a filter rests, or those inside a step.
#[cycle(resting)]
fn step_rests<'a>(step: &'a Step, place: Place<'a>) -> bool
    ensures { result ≡ spec.step_rests (place_of place.entry) (step_of step.now) }
{
    match step {
        Step::Identity => false,
        Step::Filter(e) => filter_rests(place, e),
        Step::Concat(branches) => branches_rest(branches, place),
        Step::GroupBy(_, _) => false,
        Step::Join(_) => false,
        Step::Climb(_) => false,
        Step::Compute(_) => true,
        Step::OrderBy(_) => true,
        Step::Skip(_) => true,
        Step::Top(_) => true,
        Step::Aggregate(_) => true,
        Step::TopBy(_) => true,
        Step::Traverse(_) => true,
    }
}

/// Whether the filters of a pipeline rest.
pub(crate) fn pipe_rests(pipe: &Pipe) -> bool
    ensures value { result ≡ spec.pipe_rests (pipe_of pipe.now) }
{
    steps_rest(pipe, Place::Free)
}
