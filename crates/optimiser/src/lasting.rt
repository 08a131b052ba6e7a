//! Whether no step but filters comes out of the branches of a concatenation: where a branch has its own step behind filters, or one
//! whose kind stays, and of which another branch never comes to begin with one.
ghost use Rattle.std.specs.Prelude.{◌≡◌};
ghost use Rattle.edm_values.specs.Lists.{is_some_and};
ghost use Rattle.apply_ast.specs.Views.{pipe_of, pipes_of};
ghost use Rattle.walk_laws.specs.Apart as other;
ghost use Rattle.walk_laws.specs.FiltersOut as spec;

use crate::apart::may_go;
use crate::given::{front_of, some_own};
use crate::kinds::{is_aggregate, is_solid, some_never};
use apply_ast::{Pipe, PipeList};

/// Whether the first step but filters, orders and `identity` is no aggregation.
fn lasts(pipe: &Pipe) -> bool
    ensures { result ≡ spec.lasts (pipe_of pipe.now) }
{
    for step in pipe.steps() {
        if !may_go(step) {
            return !is_aggregate(step);
        }
    }
    true
}

/// Whether the kind of the first step but filters and `identity` stays, and one of all branches never begins with one of this kind.
fn has_lasting_front(all: &PipeList, branch: &Pipe) -> bool
    ensures { result ≡ is_some_and (λ x. other.some_never x (pipes_of all.now)) (spec.lasting_kind (pipe_of branch.now)) }
{
    if !lasts(branch) {
        return false;
    }
    match front_of(branch) {
        Some(step) => is_solid(step) && some_never(step, all),
        None => false,
    }
}

/// Whether so it is with one of the branches.
fn some_lasting(branches: &PipeList) -> bool
    ensures { result ≡ spec.some_lasting (pipes_of branches.now) (pipes_of branches.now) }
{
    for branch in branches.as_slice() {
        if has_lasting_front(branches, branch) {
            return true;
        }
    }
    false
}

/// Whether no step but filters comes out of branches.
pub(crate) fn gives_no_other(branches: &PipeList) -> bool
    ensures { result ≡ spec.gives_no_other (pipes_of branches.now) }
{
    some_own(branches) || some_lasting(branches)
}
