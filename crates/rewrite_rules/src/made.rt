//! The steps that rules put together.
ghost use Rattle.std.specs.Prelude.{◌≡◌, ◌<◌, ◌∷◌, [], ◌++◌, IfOk, OnOk, length, map};
ghost use Rattle.apply_ast.specs.Trees.{Step as tree};
ghost use Rattle.apply_ast.specs.Views.{expr_of, step_of};
ghost use Rattle.rewrite_forms.specs.Forms.{count_to};

use apply_ast::{Expr, Limit, Step, TopStep};
use rewrite_forms::put_copies;
use std::alloc::{AllocError, Global};

/// Copies of steps.
pub(crate) fn copies(alloc: Global, rest: &[Step]) -> Result<Vec<Step>, AllocError>
    ensures { IfOk result (λ v. map step_of v.items ≡ map step_of rest.now) }
{
    let mut made = Vec::new(alloc);
    put_copies(&mut made, alloc, rest)?;
    Ok(made)
}

/// Puts a copy of a step at the end of a list.
pub(crate) fn put_copy(out: &mut Vec<Step>, alloc: Global, step: &Step) -> Result<(), AllocError>
    ensures { OnOk result (map step_of out.new.items ≡ map step_of out.old.items ++ step_of step.now ∷ []) }
{
    out.push(step.copy(alloc)?)?;
    Ok(())
}

/// Puts the filter by an expression at the end of a list.
fn put_filter(out: &mut Vec<Step>, alloc: Global, e: &Expr) -> Result<(), AllocError>
    ensures { OnOk result (map step_of out.new.items ≡ map step_of out.old.items ++ tree.Filter (expr_of e.now) ∷ []) }
{
    out.push(Step::Filter(e.copy(alloc)?))?;
    Ok(())
}

/// The filters by two expressions, and copies of other steps behind them.
pub(crate) fn filters_before_copies(
    alloc: Global,
    first: &Expr,
    second: &Expr,
    rest: &[Step],
) -> Result<Vec<Step>, AllocError>
    ensures value { IfOk result (λ v. map step_of v.items ≡ tree.Filter (expr_of first.now) ∷ tree.Filter (expr_of second.now) ∷ map step_of rest.now) }
    ensures some { IfOk result (λ v. 0 < length v.items) }
{
    let mut made = Vec::new(alloc);
    put_filter(&mut made, alloc, first)?;
    put_filter(&mut made, alloc, second)?;
    put_copies(&mut made, alloc, rest)?;
    Ok(made)
}

/// A step, and copies of others behind it.
pub(crate) fn before_copies(
    alloc: Global,
    step: Step,
    rest: &[Step],
) -> Result<Vec<Step>, AllocError>
    ensures value { IfOk result (λ v. map step_of v.items ≡ step_of step ∷ map step_of rest.now) }
    ensures some { IfOk result (λ v. 0 < length v.items) }
{
    let mut made = Vec::new(alloc);
    made.push(step)?;
    put_copies(&mut made, alloc, rest)?;
    Ok(made)
}

/// The count of so many by an expression, and copies of other steps behind it.
pub(crate) fn count_before_copies(
    alloc: Global,
    n: u64,
    by: &Expr,
    rest: &[Step],
) -> Result<Vec<Step>, AllocError>
    ensures value { IfOk result (λ v. map step_of v.items ≡ count_to n (expr_of by.now) ∷ map step_of rest.now) }
    ensures some { IfOk result (λ v. 0 < length v.items) }
{
    let top = TopStep {
        bottom: false,
        limit: Limit::Count(n),
        expr: by.copy(alloc)?,
    };
    before_copies(alloc, Step::TopBy(top), rest)
}
