//! The forms of steps and expressions that rules look for.
ghost use Rattle.std.specs.Prelude.{◌≡◌, ◌<◌, false, IfSome, length, map, option_map};
ghost use Rattle.apply_ast.specs.Views.{expr_of, item_of, limit_of, named_of, step_of, top_of};
ghost use Rattle.rewrite_forms.specs.Forms as spec;
ghost use Rattle.rewrite_laws.specs.Rewrites as rule;

use apply_ast::{BinOp, Expr, Limit, NamedList, OrderList, Path, Step, TopStep};

/// Whether a step is `identity`.
pub fn is_identity(step: &Step) -> bool
    ensures value { result ≡ rule.is_identity (step_of step.now) }
{
    match step {
        Step::Identity => true,
        _ => false,
    }
}

/// The expression of a filter.
pub fn filtered_by(step: &Step) -> Option<&Expr>
    ensures value { option_map (λ e. expr_of e.now) result ≡ spec.filtered_by (step_of step.now) }
{
    match step {
        Step::Filter(e) => Some(e),
        _ => None,
    }
}

/// Whether a step is the filter that is always true.
pub fn passes_all(step: &Step) -> bool
    ensures value { result ≡ spec.passes_all (step_of step.now) }
{
    match step {
        Step::Filter(e) => is_true(e),
        _ => false,
    }
}

/// Whether an expression is the literal `true`.
fn is_true(e: &Expr) -> bool
    ensures { result ≡ spec.is_true (expr_of e.now) }
{
    match e {
        Expr::Bool(b) => *b,
        _ => false,
    }
}

/// The operands of a filter by a conjunction.
pub fn operands(step: &Step) -> Option<(&Expr, &Expr)>
    ensures value { option_map (λ x. (expr_of x.0.now, expr_of x.1.now)) result ≡ spec.operands (step_of step.now) }
{
    match step {
        Step::Filter(e) => conjuncts(e),
        _ => None,
    }
}

/// The operands of a conjunction.
fn conjuncts(e: &Expr) -> Option<(&Expr, &Expr)>
    ensures { option_map (λ x. (expr_of x.0.now, expr_of x.1.now)) result ≡ spec.conjuncts (expr_of e.now) }
{
    match e {
        Expr::Binary(op, a, b) => {
            if *op == BinOp::And {
                Some((a, b))
            } else {
                None
            }
        }
        _ => None,
    }
}

/// The items of a computation.
pub fn computed_by(step: &Step) -> Option<&NamedList>
    ensures value { option_map (λ l. map named_of l.now) result ≡ spec.computed_by (step_of step.now) }
{
    match step {
        Step::Compute(items) => Some(items),
        _ => None,
    }
}

/// The items of an order.
pub fn ordered_by(step: &Step) -> Option<&OrderList>
    ensures value { option_map (λ l. map item_of l.now) result ≡ spec.ordered_by (step_of step.now) }
{
    match step {
        Step::OrderBy(items) => Some(items),
        _ => None,
    }
}

/// The path of the nodes that a step walks over.
pub fn walked_by(step: &Step) -> Option<&Path>
    ensures value { option_map (λ p. p.now) result ≡ spec.walked_by (step_of step.now) }
{
    match step {
        Step::Traverse(walk) => Some(&walk.path),
        _ => None,
    }
}

/// Whether a step is an aggregation.
fn is_aggregate(step: &Step) -> bool
    ensures { result ≡ spec.is_aggregate (step_of step.now) }
{
    match step {
        Step::Aggregate(_) => true,
        _ => false,
    }
}

/// Whether the first of these steps is an aggregation.
pub fn begins_with_aggregate(steps: &[Step]) -> bool
    ensures value { result ≡ spec.begins_with_aggregate (map step_of steps.now) }
{
    match steps.first() {
        Some(step) => is_aggregate(step),
        None => false,
    }
}

/// Whether the first of these steps is a filter.
pub fn begins_with_filter(steps: &[Step]) -> bool
    ensures value { result ≡ spec.begins_with_filter (map step_of steps.now) }
{
    match steps.first() {
        Some(step) => filtered_by(step).is_some(),
        None => false,
    }
}

/// The number of a count from the top.
fn count_of(limit: &Limit) -> Option<u64>
    ensures { result ≡ rule.top_count false (limit_of limit.now) }
{
    match limit {
        Limit::Count(n) => Some(*n),
        Limit::Sum(_) => None,
        Limit::Percent(_) => None,
    }
}

/// The number of a count from the top, and what it counts by.
pub fn count_by(top: &TopStep) -> Option<(u64, &Expr)>
    ensures value { option_map (λ x. (x.0, expr_of x.1.now)) result ≡ spec.count_by (top_of top.now) }
{
    if top.bottom {
        return None;
    }
    match count_of(&top.limit) {
        Some(n) => Some((n, &top.expr)),
        None => None,
    }
}

/// The number of a step that counts from the top, and what it counts by.
pub fn count_from_top(step: &Step) -> Option<(u64, &Expr)>
    ensures value { option_map (λ x. (x.0, expr_of x.1.now)) result ≡ spec.count_from_top (step_of step.now) }
{
    match step {
        Step::TopBy(top) => count_by(top),
        _ => None,
    }
}

/// The same of the first of these steps.
pub fn first_count(steps: &[Step]) -> Option<(u64, &Expr)>
    ensures value { option_map (λ x. (x.0, expr_of x.1.now)) result ≡ spec.first_count (map step_of steps.now) }
    ensures some { IfSome result (λ x. 0 < length steps.now) }
{
    match steps.first() {
        Some(step) => count_from_top(step),
        None => None,
    }
}
