//! Joins, and joins with one more filter in their pipeline.
ghost use Rattle.std.specs.Prelude.{◌≡◌, nat_lt, length, IfOk, IsTrue, option_map};
ghost use Rattle.std.specs.List.{list_all};
ghost use Rattle.apply_ast.specs.Views.{expr_of, step_of};
ghost use Rattle.rewrite_rules.specs.Joins as spec;
ghost use Rattle.rewrite_laws.specs.Rewrites.{paths};

use crate::ended::ended_inner;
use apply_ast::{Expr, JoinStep, Step};
use rewrite_forms::without_first;
use std::alloc::{AllocError, Global};

/// The join that a step is.
pub(crate) fn joined_by(step: &Step) -> Option<&JoinStep>
    ensures { option_map (λ j. spec.join_parts j.now) result ≡ spec.joined_by (step_of step.now) }
{
    match step {
        Step::Join(join) => Some(join),
        _ => None,
    }
}

/// A join with one more filter at the end of its pipeline: the filter without the alias.
pub(crate) fn with_filter(alloc: Global, join: &JoinStep, e: &Expr) -> Result<Step, AllocError>
    requires longer { IsTrue (list_all (λ p. nat_lt 1 (length p)) (paths (expr_of e.now))) }
    ensures value { IfOk result (λ s. step_of s ≡ spec.with_filter (spec.join_parts join.now) (expr_of e.now)) }
{
    let filter = Step::Filter(without_first(alloc, e)?);
    let inner = ended_inner(alloc, &join.inner, filter)?;
    Ok(Step::Join(JoinStep {
        outer: join.outer,
        nav: join.nav.copy(alloc)?,
        alias: join.alias.copy(alloc)?,
        inner: Some(inner),
    }))
}
