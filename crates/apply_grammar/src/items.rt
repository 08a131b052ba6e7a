//! What stands in the parentheses of steps and holds no pipeline.
ghost use Rattle.std.specs.Prelude.{◌≡◌, ℕ, ◌+◌, ◌≤◌, map, length, option_map, List, Option, Some};
ghost use Rattle.apply_ast.specs.Views.{expr_of, named_of, item_of, agg_of, hier_of, number_literal_of, limit_of, top_of, traverse_of};
ghost use Rattle.apply_grammar.specs.Gives.{Gives};
ghost use Rattle.apply_grammar.specs.Limits as limits;
ghost use Rattle.apply_grammar.specs.Limits.{served};
ghost use Rattle.apply_grammar.specs.Reading as reading;
ghost use Rattle.apply_grammar.specs.PipeReading as pipes;

use crate::bytes::{after, between_blanks, blanks_at, close_at, comma_at, word_behind, word_run};
use crate::expressions::{OPERATIONS_MAX, read_level};
use crate::literals::{INTEGER_MAX, count_at, decimal_at, digits_at, value_behind};
use crate::paths::{path_at, read_name};
use crate::refusals::ExprRefused;
use crate::words::{LimitKind, method_of};
use apply_ast::{
    AggItem, AggList, Expr, HierName, Limit, Name, Named, NamedList, Number, OrderItem, OrderList,
    Path, TopStep, TraverseStep,
};
use std::alloc::Global;

/// An expression of at most as many operators and calls as one may have.
#[tactic(auto, unfolding(crate::specs::PipeReading::small_at))]
pub(crate) fn read_small(
    alloc: Global,
    depth: u8,
    text: &[u8],
) -> Result<(Expr, &[u8]), ExprRefused>
    ensures { Gives (λ x. (expr_of x.0, x.1.now)) result (pipes.small_at served depth text.now) }
{
    let (e, _, rest) = read_level(alloc, depth, 1, OPERATIONS_MAX, text)?;
    Ok((e, rest))
}

/// What follows `as` between blanks.
#[tactic(auto, unfolding(crate::specs::PipeReading::as_at))]
fn as_at(text: &[u8]) -> Option<&[u8]>
    ensures { option_map (λ r. r.now) result ≡ pipes.as_at text.now }
{
    between_blanks(text, b"as")
}

/// What follows `with` between blanks.
#[tactic(auto, unfolding(crate::specs::PipeReading::with_at))]
fn with_at(text: &[u8]) -> Option<&[u8]>
    ensures { option_map (λ r. r.now) result ≡ pipes.with_at text.now }
{
    between_blanks(text, b"with")
}

/// An item of a computation.
#[tactic(auto, unfolding(crate::specs::PipeReading::named_at))]
fn read_named(alloc: Global, depth: u8, text: &[u8]) -> Result<(Named, &[u8]), ExprRefused>
    ensures { Gives (λ x. (named_of x.0, x.1.now)) result (pipes.named_at served depth text.now) }
{
    let (expr, rest) = read_small(alloc, depth, text)?;
    match as_at(rest) {
        Some(behind) => {
            let (name, rest) = read_name(alloc, behind)?;
            Ok((Named { expr, name }, rest))
        }
        None => Err(ExprRefused::Syntax),
    }
}

/// The items of a computation.
pub(crate) fn read_named_list(
    alloc: Global,
    depth: u8,
    text: &[u8],
) -> Result<(NamedList, &[u8]), ExprRefused>
    ensures { Gives (λ x. (map named_of x.0, x.1.now)) result (reading.list_at reading.comma_at (pipes.named_at served depth) text.now) }
{
    let (first, mut rest) = read_named(alloc, depth, text)?;
    let mut list = Vec::new(alloc);
    list.push(first)?;
    while let Some(behind) = comma_at(rest) {
        let (item, next) = read_named(alloc, depth, behind)?;
        list.push(item)?;
        rest = next;
    }
    Ok((NamedList::new(list), rest))
}

/// Whether `desc` follows, and what follows the direction.
#[tactic(auto, unfolding(crate::specs::PipeReading::direction_at))]
fn direction_at(text: &[u8]) -> (bool, &[u8])
    ensures { (result.0, result.1.now) ≡ pipes.direction_at text.now }
{
    match blanks_at(text) {
        Some(behind) => match word_behind(behind, b"asc") {
            Some(rest) => (false, rest),
            None => match word_behind(behind, b"desc") {
                Some(rest) => (true, rest),
                None => (false, text),
            },
        },
        None => (false, text),
    }
}

/// An item of an order.
#[tactic(auto, unfolding(crate::specs::PipeReading::item_at))]
fn read_item(alloc: Global, depth: u8, text: &[u8]) -> Result<(OrderItem, &[u8]), ExprRefused>
    ensures { Gives (λ x. (item_of x.0, x.1.now)) result (pipes.item_at served depth text.now) }
{
    let (expr, rest) = read_small(alloc, depth, text)?;
    let (desc, rest) = direction_at(rest);
    Ok((OrderItem { expr, desc }, rest))
}

/// The items of an order.
pub(crate) fn read_order(
    alloc: Global,
    depth: u8,
    text: &[u8],
) -> Result<(OrderList, &[u8]), ExprRefused>
    ensures { Gives (λ x. (map item_of x.0, x.1.now)) result (reading.list_at reading.comma_at (pipes.item_at served depth) text.now) }
{
    let (first, mut rest) = read_item(alloc, depth, text)?;
    let mut list = Vec::new(alloc);
    list.push(first)?;
    while let Some(behind) = comma_at(rest) {
        let (item, next) = read_item(alloc, depth, behind)?;
        list.push(item)?;
        rest = next;
    }
    Ok((OrderList::new(list), rest))
}

/// The method behind `with`, and the name.
#[tactic(auto, unfolding(crate::specs::PipeReading::standard_at))]
fn read_standard(alloc: Global, expr: Expr, text: &[u8]) -> Result<(AggItem, &[u8]), ExprRefused>
    ensures { Gives (λ x. (agg_of x.0, x.1.now)) result (pipes.standard_at (expr_of expr) text.now) }
{
    let (word, rest) = word_run(text);
    match method_of(word) {
        Some(method) => match as_at(rest) {
            Some(behind) => {
                let (name, rest) = read_name(alloc, behind)?;
                Ok((AggItem::Standard(expr, method, name), rest))
            }
            None => Err(ExprRefused::Syntax),
        },
        None => Err(ExprRefused::Syntax),
    }
}

/// A custom aggregate. Without a name of its own it has the aggregate's.
#[tactic(auto, unfolding(crate::specs::PipeReading::custom_at))]
fn read_custom(alloc: Global, text: &[u8]) -> Result<(AggItem, &[u8]), ExprRefused>
    ensures { Gives (λ x. (agg_of x.0, x.1.now)) result (pipes.custom_at text.now) }
{
    let (name, rest) = read_name(alloc, text)?;
    match as_at(rest) {
        Some(behind) => {
            let (alias, rest) = read_name(alloc, behind)?;
            Ok((AggItem::Custom(name, alias), rest))
        }
        None => {
            let alias = name.copy(alloc)?;
            Ok((AggItem::Custom(name, alias), rest))
        }
    }
}

/// An expression with its method, or a custom aggregate.
#[tactic(auto, unfolding(crate::specs::PipeReading::measure_at))]
fn read_measure(alloc: Global, depth: u8, text: &[u8]) -> Result<(AggItem, &[u8]), ExprRefused>
    ensures { Gives (λ x. (agg_of x.0, x.1.now)) result (pipes.measure_at served depth text.now) }
{
    let (expr, rest) = read_small(alloc, depth, text)?;
    match with_at(rest) {
        Some(behind) => read_standard(alloc, expr, behind),
        None => read_custom(alloc, text),
    }
}

/// The name of a `$count`, behind its `$`.
#[tactic(auto, unfolding(crate::specs::PipeReading::count_name_at))]
fn read_count(alloc: Global, text: &[u8]) -> Result<(AggItem, &[u8]), ExprRefused>
    ensures { Gives (λ x. (agg_of x.0, x.1.now)) result (pipes.count_name_at text.now) }
{
    match word_behind(text, b"count") {
        Some(rest) => match as_at(rest) {
            Some(behind) => {
                let (name, rest) = read_name(alloc, behind)?;
                Ok((AggItem::Count(name), rest))
            }
            None => Err(ExprRefused::Syntax),
        },
        None => Err(ExprRefused::Syntax),
    }
}

/// An item of an aggregation.
#[tactic(auto, unfolding(crate::specs::PipeReading::agg_at))]
fn read_agg(alloc: Global, depth: u8, text: &[u8]) -> Result<(AggItem, &[u8]), ExprRefused>
    ensures { Gives (λ x. (agg_of x.0, x.1.now)) result (pipes.agg_at served depth text.now) }
{
    match after(text, b'$') {
        Some(behind) => read_count(alloc, behind),
        None => read_measure(alloc, depth, text),
    }
}

/// The items of an aggregation.
pub(crate) fn read_aggs(
    alloc: Global,
    depth: u8,
    text: &[u8],
) -> Result<(AggList, &[u8]), ExprRefused>
    ensures { Gives (λ x. (map agg_of x.0, x.1.now)) result (reading.list_at reading.comma_at (pipes.agg_at served depth) text.now) }
{
    let (first, mut rest) = read_agg(alloc, depth, text)?;
    let mut list = Vec::new(alloc);
    list.push(first)?;
    while let Some(behind) = comma_at(rest) {
        let (item, next) = read_agg(alloc, depth, behind)?;
        list.push(item)?;
        rest = next;
    }
    Ok((AggList::new(list), rest))
}

/// What follows `$root/`.
#[tactic(auto, unfolding(crate::specs::PipeReading::root_at))]
fn root_at(text: &[u8]) -> Option<&[u8]>
    ensures { option_map (λ r. r.now) result ≡ pipes.root_at text.now }
{
    after(word_behind(after(text, b'$')?, b"root")?, b'/')
}

/// A hierarchy by its set and its qualifier.
#[tactic(auto, unfolding(crate::specs::PipeReading::hier_at))]
fn read_hier(alloc: Global, text: &[u8]) -> Result<(HierName, &[u8]), ExprRefused>
    ensures { Gives (λ x. (hier_of x.0, x.1.now)) result (pipes.hier_at text.now) }
{
    match root_at(text) {
        Some(behind) => {
            let (set, rest) = read_name(alloc, behind)?;
            match comma_at(rest) {
                Some(behind) => {
                    let (qualifier, rest) = read_name(alloc, behind)?;
                    Ok((HierName { set, qualifier }, rest))
                }
                None => Err(ExprRefused::Syntax),
            }
        }
        None => Err(ExprRefused::Syntax),
    }
}

/// A hierarchy and the path of a node.
#[tactic(auto, unfolding(crate::specs::PipeReading::node_at))]
pub(crate) fn read_node(alloc: Global, text: &[u8]) -> Result<(HierName, Path, &[u8]), ExprRefused>
    ensures { Gives (λ x. ((hier_of x.0, x.1), x.2.now)) result (pipes.node_at text.now) }
{
    let (hier, rest) = read_hier(alloc, text)?;
    match comma_at(rest) {
        Some(behind) => {
            let (path, rest) = path_at(alloc, behind)?;
            Ok((hier, path, rest))
        }
        None => Err(ExprRefused::Syntax),
    }
}

/// A literal number.
#[tactic(auto, unfolding(crate::specs::PipeReading::literal_at))]
fn literal_at(text: &[u8]) -> Option<(Number, &[u8])>
    ensures { option_map (λ x. (number_literal_of x.0, x.1.now)) result ≡ pipes.literal_at text.now }
{
    let (digits, rest) = digits_at(text)?;
    match after(rest, b'.') {
        Some(behind) => match decimal_at(digits, behind) {
            Some((decimal, rest)) => Some((Number::Dec(decimal), rest)),
            None => None,
        },
        None => {
            let n = value_behind(INTEGER_MAX, 0, digits)?;
            Some((Number::Int(n as i64), rest))
        }
    }
}

/// What a selection reaches for.
#[tactic(auto, unfolding(crate::specs::PipeReading::limit_at))]
fn limit_at(kind: LimitKind, text: &[u8]) -> Option<(Limit, &[u8])>
    ensures { option_map (λ x. (limit_of x.0, x.1.now)) result ≡ pipes.limit_at kind text.now }
{
    match kind {
        LimitKind::Count => {
            let (n, rest) = count_at(INTEGER_MAX, text)?;
            Some((Limit::Count(n), rest))
        }
        LimitKind::Sum => match literal_at(text) {
            Some((number, rest)) => Some((Limit::Sum(number), rest)),
            None => None,
        },
        LimitKind::Percent => {
            let (p, rest) = count_at(100, text)?;
            Some((Limit::Percent(p as u32), rest))
        }
    }
}

/// A selection of this form.
#[tactic(auto, unfolding(crate::specs::PipeReading::top_at))]
pub(crate) fn read_top_step(
    alloc: Global,
    depth: u8,
    bottom: bool,
    kind: LimitKind,
    text: &[u8],
) -> Result<(TopStep, &[u8]), ExprRefused>
    ensures { Gives (λ x. (top_of x.0, x.1.now)) result (pipes.top_at served depth bottom kind text.now) }
{
    match limit_at(kind, text) {
        Some((limit, rest)) => match comma_at(rest) {
            Some(behind) => {
                let (expr, rest) = read_small(alloc, depth, behind)?;
                Ok((
                    TopStep {
                        bottom,
                        limit,
                        expr,
                    },
                    rest,
                ))
            }
            None => Err(ExprRefused::Syntax),
        },
        None => Err(ExprRefused::Syntax),
    }
}

/// The order of a walk: whether it is a postorder.
#[tactic(auto, unfolding(crate::specs::PipeReading::order_at))]
fn order_at(text: &[u8]) -> Option<(bool, &[u8])>
    ensures { option_map (λ x. (x.0, x.1.now)) result ≡ pipes.order_at text.now }
{
    match word_behind(text, b"preorder") {
        Some(rest) => Some((false, rest)),
        None => Some((true, word_behind(text, b"postorder")?)),
    }
}

/// Items of an order, each behind a comma.
fn read_more_order(alloc: Global, depth: u8, text: &[u8]) -> Result<(OrderList, &[u8]), ExprRefused>
    ensures { Gives (λ x. (map item_of x.0, x.1.now)) result (reading.items_at reading.comma_at (pipes.item_at served depth) (length text.now) text.now) }
{
    let mut list = Vec::new(alloc);
    let mut rest = text;
    while let Some(behind) = comma_at(rest) {
        let (item, next) = read_item(alloc, depth, behind)?;
        list.push(item)?;
        rest = next;
    }
    Ok((OrderList::new(list), rest))
}

/// A walk over a hierarchy.
#[tactic(auto, unfolding(crate::specs::PipeReading::traverse_at))]
pub(crate) fn read_traverse(
    alloc: Global,
    depth: u8,
    text: &[u8],
) -> Result<(TraverseStep, &[u8]), ExprRefused>
    ensures { Gives (λ x. (traverse_of x.0, x.1.now)) result (pipes.traverse_at served depth text.now) }
{
    let (hier, path, rest) = read_node(alloc, text)?;
    match comma_at(rest) {
        Some(behind) => match order_at(behind) {
            Some((post, rest)) => {
                let (items, rest) = read_more_order(alloc, depth, rest)?;
                Ok((
                    TraverseStep {
                        hier,
                        path,
                        post,
                        items,
                    },
                    rest,
                ))
            }
            None => Err(ExprRefused::Syntax),
        },
        None => Err(ExprRefused::Syntax),
    }
}

/// A greatest distance, if one is written.
#[tactic(auto, unfolding(crate::specs::PipeReading::distance_at))]
fn distance_at(text: &[u8]) -> Option<(Option<u64>, &[u8])>
    ensures { option_map (λ x. (x.0, x.1.now)) result ≡ pipes.distance_at text.now }
{
    match comma_at(text) {
        Some(behind) => match digits_at(behind) {
            Some((digits, rest)) => {
                let n = value_behind(INTEGER_MAX, 0, digits)?;
                if 1 <= n { Some((Some(n), rest)) } else { None }
            }
            None => Some((None, text)),
        },
        None => Some((None, text)),
    }
}

/// Whether start nodes are kept.
#[tactic(auto, unfolding(crate::specs::PipeReading::keep_at))]
fn keep_at(text: &[u8]) -> Option<(bool, &[u8])>
    ensures { option_map (λ x. (x.0, x.1.now)) result ≡ pipes.keep_at text.now }
{
    match comma_at(text) {
        Some(behind) => {
            let rest = word_behind(blanks_at(word_behind(behind, b"keep")?)?, b"start")?;
            Some((true, rest))
        }
        None => Some((false, text)),
    }
}

/// The end of a climb: the distance, whether start nodes are kept, and the closing parenthesis.
#[tactic(auto, unfolding(crate::specs::PipeReading::climb_end_at))]
pub(crate) fn climb_end_at(text: &[u8]) -> Option<(Option<u64>, bool, &[u8])>
    ensures { option_map (λ x. ((x.0, x.1), x.2.now)) result ≡ pipes.climb_end_at text.now }
{
    let (distance, rest) = distance_at(text)?;
    let (keep, rest) = keep_at(rest)?;
    Some((distance, keep, close_at(rest)?))
}

/// The names of a join's navigation property and of its results.
#[tactic(auto, unfolding(crate::specs::PipeReading::alias_at))]
pub(crate) fn read_alias(alloc: Global, text: &[u8]) -> Result<(Name, Name, &[u8]), ExprRefused>
    ensures { Gives (λ x. ((x.0, x.1), x.2.now)) result (pipes.alias_at text.now) }
{
    let (nav, rest) = read_name(alloc, text)?;
    match as_at(rest) {
        Some(behind) => {
            let (alias, rest) = read_name(alloc, behind)?;
            Ok((nav, alias, rest))
        }
        None => Err(ExprRefused::Syntax),
    }
}
