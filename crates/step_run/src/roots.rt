//! The entity type at the empty prefix of rows.
ghost use Rattle.std.specs.Prelude.{option_map};
ghost use Rattle.apply_ast.specs.Views.{inner_of, pipe_of, pipes_of, step_of};
ghost use Rattle.step_run.specs.Roots.{BranchesLeadTo, InnerLeadsTo, LeadsTo, PipeLeadsTo};

use apply_ast::{Pipe, PipeList, Step};
use edm_model::TypeId;

/// The type at the empty prefix after a pipeline, where no row lacks it.
#[cycle(roots)]
fn root_behind(pipe: &Pipe, root: Option<TypeId>) -> Option<TypeId>
    ensures { PipeLeadsTo (pipe_of pipe.now) root result }
{
    let mut root = root;
    for step in pipe.steps() {
        root = root_after(step, root);
    }
    root
}

/// The type at the empty prefix of what a grouping makes of each group.
#[cycle(roots)]
fn root_inside(inner: &Option<Pipe>, root: Option<TypeId>) -> Option<TypeId>
    ensures { InnerLeadsTo (inner_of (option_map pipe_of inner.now)) root result }
{
    match inner {
        Some(pipe) => root_behind(pipe, root),
        None => None,
    }
}

/// The type at the empty prefix of what the branches of a concatenation give: none where that of a branch has none.
#[cycle(roots)]
fn root_of_branches(branches: &PipeList, root: &Option<TypeId>) -> Option<TypeId>
    ensures { BranchesLeadTo (pipes_of branches.now) root.now result }
{
    let mut first = None;
    for branch in branches.as_slice() {
        let behind = root_behind(branch, *root)?;
        first = first.or(Some(behind));
    }
    first
}

/// The type at the empty prefix after a transformation, where no row lacks it.
#[cycle(roots)]
pub fn root_after(step: &Step, root: Option<TypeId>) -> Option<TypeId>
    ensures value { LeadsTo (step_of step.now) root result }
{
    match step {
        Step::GroupBy(_, inner) => root_inside(inner, root),
        Step::Aggregate(_) => None,
        Step::Identity => root,
        Step::Filter(_) => root,
        Step::Compute(_) => root,
        Step::OrderBy(_) => root,
        Step::Skip(_) => root,
        Step::Top(_) => root,
        Step::Concat(branches) => root_of_branches(branches, &root),
        Step::Join(_) => root,
        Step::TopBy(_) => root,
        Step::Climb(_) => root,
        Step::Traverse(_) => root,
    }
}
