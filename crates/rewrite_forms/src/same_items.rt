//! Equality of what stands in the parentheses of steps and holds no pipeline.
ghost use Rattle.std.specs.Prelude.{◌≡◌, ◌==◌, map};
ghost use Rattle.std.specs.Cmp.Lexicographic.{pointwise};
ghost use Rattle.edm_values.specs.Lists.{same_text};
ghost use Rattle.apply_ast.specs.Trees.{Step as tree};
ghost use Rattle.apply_ast.specs.Views.{agg_of, hier_of, item_of, limit_of, named_of, number_literal_of, top_of, traverse_of};
ghost use Rattle.context_typing.specs.Paths.{same_path};
ghost use Rattle.rewrite_laws.specs.TreeEquality as spec;

use crate::same::same_expr;
use apply_ast::{
    AggItem, HierName, Limit, Name, Named, Number, OrderItem, Path, TopStep, TraverseStep,
};
use context_typing::same_path;
use edm_values::Method;

/// Whether two names are equal.
pub(crate) fn same_name(a: &Name, b: &Name) -> bool
    ensures { result ≡ same_text a.now b.now }
{
    a.text() == b.text()
}

/// Whether two lists of paths are equal.
pub(crate) fn same_paths(a: &[Path], b: &[Path]) -> bool
    ensures { result ≡ pointwise same_path a.now b.now }
{
    if a.len() != b.len() {
        return false;
    }
    for (i, path) in a.iter().enumerate() {
        if !same_path(path.names(), b[i].names()) {
            return false;
        }
    }
    true
}

/// Whether two items of a computation are equal.
fn same_named(a: &Named, b: &Named) -> bool
    ensures { result ≡ spec.named_same (named_of a.now) (named_of b.now) }
{
    same_expr(&a.expr, &b.expr) && same_name(&a.name, &b.name)
}

/// Whether the items of two computations are equal.
pub(crate) fn same_computation(a: &[Named], b: &[Named]) -> bool
    ensures { result ≡ pointwise spec.named_same (map named_of a.now) (map named_of b.now) }
{
    if a.len() != b.len() {
        return false;
    }
    for (i, item) in a.iter().enumerate() {
        if !same_named(item, &b[i]) {
            return false;
        }
    }
    true
}

/// Whether two items of an order are equal.
fn same_item(a: &OrderItem, b: &OrderItem) -> bool
    ensures { result ≡ spec.item_same (item_of a.now) (item_of b.now) }
{
    same_expr(&a.expr, &b.expr) && a.desc == b.desc
}

/// Whether the items of two orders are equal.
pub(crate) fn same_order(a: &[OrderItem], b: &[OrderItem]) -> bool
    ensures { result ≡ pointwise spec.item_same (map item_of a.now) (map item_of b.now) }
{
    if a.len() != b.len() {
        return false;
    }
    for (i, item) in a.iter().enumerate() {
        if !same_item(item, &b[i]) {
            return false;
        }
    }
    true
}

/// The number of a method.
fn method_number(method: Method) -> u8
    ensures { result ≡ spec.method_number method }
{
    match method {
        Method::Sum => 0,
        Method::Min => 1,
        Method::Max => 2,
        Method::CountDistinct => 3,
    }
}

/// Whether two items of an aggregation are equal.
fn same_agg(a: &AggItem, b: &AggItem) -> bool
    ensures { result ≡ spec.agg_same (agg_of a.now) (agg_of b.now) }
{
    match a {
        AggItem::Count(x) => match b {
            AggItem::Count(y) => same_name(x, y),
            _ => false,
        },
        AggItem::Standard(e, f, x) => match b {
            AggItem::Standard(u, g, y) => same_expr(e, u)
                && method_number(*f) == method_number(*g)
                && same_name(x, y),
            _ => false,
        },
        AggItem::Custom(n, x) => match b {
            AggItem::Custom(k, y) => same_name(n, k) && same_name(x, y),
            _ => false,
        },
    }
}

/// Whether the items of two aggregations are equal.
pub(crate) fn same_aggregation(a: &[AggItem], b: &[AggItem]) -> bool
    ensures { result ≡ pointwise spec.agg_same (map agg_of a.now) (map agg_of b.now) }
{
    if a.len() != b.len() {
        return false;
    }
    for (i, item) in a.iter().enumerate() {
        if !same_agg(item, &b[i]) {
            return false;
        }
    }
    true
}

/// Whether two hierarchies are named alike.
pub(crate) fn same_hier(a: &HierName, b: &HierName) -> bool
    ensures { result ≡ spec.hier_same (hier_of a.now) (hier_of b.now) }
{
    same_name(&a.set, &b.set) && same_name(&a.qualifier, &b.qualifier)
}

/// Whether two literal numbers are equal.
fn same_number(a: &Number, b: &Number) -> bool
    ensures { result ≡ spec.literal_same (number_literal_of a.now) (number_literal_of b.now) }
{
    match a {
        Number::Int(x) => match b {
            Number::Int(y) => *x == *y,
            _ => false,
        },
        Number::Dec(x) => match b {
            Number::Dec(y) => x.mantissa() == y.mantissa() && x.scale() == y.scale(),
            _ => false,
        },
    }
}

/// Whether two limits are equal.
fn same_limit(a: &Limit, b: &Limit) -> bool
    ensures { result ≡ spec.limit_same (limit_of a.now) (limit_of b.now) }
{
    match a {
        Limit::Count(n) => match b {
            Limit::Count(k) => *n == *k,
            _ => false,
        },
        Limit::Sum(x) => match b {
            Limit::Sum(y) => same_number(x, y),
            _ => false,
        },
        Limit::Percent(p) => match b {
            Limit::Percent(q) => *p == *q,
            _ => false,
        },
    }
}

/// Whether two selections are equal.
pub(crate) fn same_top(a: &TopStep, b: &TopStep) -> bool
    ensures { result ≡ spec.step_same (tree.TopBy (top_of a.now)) (tree.TopBy (top_of b.now)) }
{
    a.bottom == b.bottom && same_limit(&a.limit, &b.limit) && same_expr(&a.expr, &b.expr)
}

/// Whether two walks over a hierarchy are equal.
pub(crate) fn same_walk(a: &TraverseStep, b: &TraverseStep) -> bool
    ensures { result ≡ spec.step_same (tree.Traverse (traverse_of a.now)) (tree.Traverse (traverse_of b.now)) }
{
    same_hier(&a.hier, &b.hier)
        && same_path(a.path.names(), b.path.names())
        && a.post == b.post
        && same_order(a.items.as_slice(), b.items.as_slice())
}

/// Whether two greatest distances are equal.
pub(crate) fn same_distance(a: Option<u64>, b: Option<u64>) -> bool
    ensures { result ≡ spec.option_same (λ x y. x == y) a b }
{
    match a {
        Some(n) => match b {
            Some(k) => n == k,
            None => false,
        },
        None => b.is_none(),
    }
}
