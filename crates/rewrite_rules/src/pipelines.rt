//! Pipelines with a step more or less.
ghost use Rattle.std.specs.Prelude.{◌≡◌, IfOk, map};
ghost use Rattle.apply_ast.specs.Views.{pipe_of, step_of};
ghost use Rattle.rewrite_laws.specs.Rewrites as rule;

use crate::made::copies;
use apply_ast::{Pipe, Step};
use std::alloc::{AllocError, Global};

/// The pipeline with a step more at its end.
pub(crate) fn ended(alloc: Global, pipe: &Pipe, step: &Step) -> Result<Pipe, AllocError>
    ensures { IfOk result (λ p. pipe_of p ≡ rule.ended (pipe_of pipe.now) (step_of step.now)) }
{
    let mut steps = copies(alloc, pipe.steps())?;
    steps.push(step.copy(alloc)?)?;
    Ok(Pipe::new(steps))
}

/// The pipeline of copies of these steps, which is `identity` where there are none.
pub(crate) fn pipe_or_identity(alloc: Global, steps: &[Step]) -> Result<Pipe, AllocError>
    ensures { IfOk result (λ p. pipe_of p ≡ rule.pipe_or_identity (map step_of steps.now)) }
{
    let mut made = copies(alloc, steps)?;
    if made.is_empty() {
        made.push(Step::Identity)?;
    }
    Ok(Pipe::new(made))
}
