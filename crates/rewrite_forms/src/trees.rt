//! Copies of steps, and of trees with one part changed.
ghost use Rattle.std.specs.Prelude.{◌≡◌, ◌++◌, IfOk, OnErr, OnOk, map, option_map};
ghost use Rattle.apply_ast.specs.Trees.{Step as tree};
ghost use Rattle.apply_ast.specs.Views.{hier_of, pipe_of, step_of};

use apply_ast::{ClimbStep, Pipe, Step};
use std::alloc::{AllocError, Global};

/// Copies of steps.
fn copies(alloc: Global, steps: &[Step]) -> Result<Vec<Step>, AllocError>
    ensures { IfOk result (λ made. map step_of made.items ≡ map step_of steps.now) }
{
    let mut made = Vec::with_capacity(alloc, steps.len())?;
    for step in steps {
        made.push(step.copy(alloc)?)?;
    }
    Ok(made)
}

/// Puts copies of steps at the end of a list. After an `Err` the list is as before.
pub fn put_copies(out: &mut Vec<Step>, alloc: Global, steps: &[Step]) -> Result<(), AllocError>
    ensures steps { OnOk result (map step_of out.new.items ≡ map step_of out.old.items ++ map step_of steps.now) }
    ensures same { OnErr result (out.new.items ≡ out.old.items) }
{
    let mut made = copies(alloc, steps)?;
    out.append(&mut made)
}

/// The climb with another pipeline.
pub fn with_starts(
    alloc: Global,
    climb: &ClimbStep,
    made: Option<Pipe>,
) -> Result<Option<Step>, AllocError>
    ensures value { IfOk result (λ o. option_map step_of o ≡ option_map (λ q. tree.Climb climb.now.up (hier_of climb.now.hier) climb.now.path q climb.now.distance climb.now.keep) (option_map pipe_of made)) }
{
    match made {
        Some(pipe) => Ok(Some(Step::Climb(ClimbStep {
            up: climb.up,
            hier: climb.hier.copy(alloc)?,
            path: climb.path.copy(alloc)?,
            inner: pipe,
            distance: climb.distance,
            keep: climb.keep,
        }))),
        None => Ok(None),
    }
}

/// The same pipeline, where there is one.
pub fn copy_inner(alloc: Global, inner: &Option<Pipe>) -> Result<Option<Pipe>, AllocError>
    ensures value { IfOk result (λ o. option_map pipe_of o ≡ option_map pipe_of inner.now) }
{
    match inner {
        Some(pipe) => Ok(Some(pipe.copy(alloc)?)),
        None => Ok(None),
    }
}
