//! Pipelines with one more step at their end.
ghost use Rattle.std.specs.Prelude.{◌≡◌, IfOk, option_map};
ghost use Rattle.apply_ast.specs.Trees.{OptPipe as opt, Pipe as tree};
ghost use Rattle.apply_ast.specs.Views.{inner_of, pipe_of, step_of};
ghost use Rattle.rewrite_laws.specs.Rewrites as rule;

use apply_ast::{Pipe, Step};
use rewrite_forms::put_copies;
use std::alloc::{AllocError, Global};

/// A pipeline with one more step at its end.
pub(crate) fn ended(alloc: Global, pipe: &Pipe, step: Step) -> Result<Pipe, AllocError>
    ensures value { IfOk result (λ p. pipe_of p ≡ rule.ended (pipe_of pipe.now) (step_of step)) }
{
    let mut steps = Vec::new(alloc);
    put_copies(&mut steps, alloc, pipe.steps())?;
    steps.push(step)?;
    Ok(Pipe::new(steps))
}

/// The pipeline of one step.
fn single(alloc: Global, step: Step) -> Result<Pipe, AllocError>
    ensures value { IfOk result (λ p. pipe_of p ≡ tree.Then (step_of step) tree.End) }
{
    let mut steps = Vec::new(alloc);
    steps.push(step)?;
    Ok(Pipe::new(steps))
}

/// An inner pipeline with one more step at its end, or that step alone where there is no pipeline.
pub(crate) fn ended_inner(
    alloc: Global,
    inner: &Option<Pipe>,
    step: Step,
) -> Result<Pipe, AllocError>
    ensures value { IfOk result (λ p. opt.SomePipe (pipe_of p) ≡ rule.ended_inner (inner_of (option_map pipe_of inner.now)) (step_of step)) }
{
    match inner {
        Some(pipe) => ended(alloc, pipe, step),
        None => single(alloc, step),
    }
}
