//! Steps and pipelines.
//!
//! `depth` is the number of parentheses that may still be opened, and `n` that of the steps that may still come. A reader
//! gives the tree, the steps that are left, and what follows.
ghost use Rattle.std.specs.Prelude.{◌≡◌, ℕ, suc, ◌+◌, ◌<◌, ◌≤◌, ◌∷◌, map, length, option_map, IfOk, List, Option, Some, Result, Ok};
ghost use Rattle.edm_values.specs.Values.{integer_max};
ghost use Rattle.apply_ast.specs.Trees as trees;
ghost use Rattle.apply_ast.specs.Views.{key_of, keys_of, keys_from, step_of, pipe_of, pipes_of, inner_of};
ghost use Rattle.apply_grammar.specs.Gives.{Gives, GivesPipe};
ghost use Rattle.apply_grammar.specs.Limits as limits;
ghost use Rattle.apply_grammar.specs.Limits.{served};
ghost use Rattle.apply_grammar.specs.Reading as reading;
ghost use Rattle.apply_grammar.specs.PipeReading as pipes;

use crate::bytes::{after, close_at, comma_at, open_at, same, word_behind, word_run};
use crate::expressions::OPEN_MAX;
use crate::items::{
    climb_end_at, read_aggs, read_alias, read_named_list, read_node, read_order, read_small,
    read_top_step, read_traverse,
};
use crate::literals::{INTEGER_MAX, count_at};
use crate::paths::{path_at, read_paths};
use crate::refusals::{ExprRefused, GrammarRefused};
use crate::words::{LimitKind, StepWord, step_word_of};
use apply_ast::{ClimbStep, JoinStep, KeyItem, KeyList, Pipe, PipeList, Step};
use std::alloc::Global;

/// The greatest number of steps of a request, inner ones included.
pub const STEPS_MAX: u16 = 256;

/// A filter.
#[tactic(auto, unfolding(crate::specs::PipeReading::closed), using(crate::proofs::StepViews::views))]
fn read_filter(
    alloc: Global,
    depth: u8,
    n: u16,
    text: &[u8],
) -> Result<(Step, u16, &[u8]), ExprRefused>
    ensures exact { Gives (λ x. (step_of x.0, x.1, x.2.now)) result (pipes.closed trees.Step.Filter n (pipes.small_at served depth text.now)) }
    ensures less { IfOk result (λ x. x.1 ≤ n) }
{
    let (x, rest) = read_small(alloc, depth, text)?;
    match close_at(rest) {
        Some(rest) => Ok((Step::Filter(x), n, rest)),
        None => Err(ExprRefused::Syntax),
    }
}

/// A computation.
#[tactic(auto, unfolding(crate::specs::PipeReading::closed), using(crate::proofs::StepViews::views))]
fn read_compute(
    alloc: Global,
    depth: u8,
    n: u16,
    text: &[u8],
) -> Result<(Step, u16, &[u8]), ExprRefused>
    ensures exact { Gives (λ x. (step_of x.0, x.1, x.2.now)) result (pipes.closed trees.Step.Compute n (reading.list_at reading.comma_at (pipes.named_at served depth) text.now)) }
    ensures less { IfOk result (λ x. x.1 ≤ n) }
{
    let (x, rest) = read_named_list(alloc, depth, text)?;
    match close_at(rest) {
        Some(rest) => Ok((Step::Compute(x), n, rest)),
        None => Err(ExprRefused::Syntax),
    }
}

/// An order.
#[tactic(auto, unfolding(crate::specs::PipeReading::closed), using(crate::proofs::StepViews::views))]
fn read_orderby(
    alloc: Global,
    depth: u8,
    n: u16,
    text: &[u8],
) -> Result<(Step, u16, &[u8]), ExprRefused>
    ensures exact { Gives (λ x. (step_of x.0, x.1, x.2.now)) result (pipes.closed trees.Step.OrderBy n (reading.list_at reading.comma_at (pipes.item_at served depth) text.now)) }
    ensures less { IfOk result (λ x. x.1 ≤ n) }
{
    let (x, rest) = read_order(alloc, depth, text)?;
    match close_at(rest) {
        Some(rest) => Ok((Step::OrderBy(x), n, rest)),
        None => Err(ExprRefused::Syntax),
    }
}

/// An aggregation.
#[tactic(auto, unfolding(crate::specs::PipeReading::closed), using(crate::proofs::StepViews::views))]
fn read_aggregate(
    alloc: Global,
    depth: u8,
    n: u16,
    text: &[u8],
) -> Result<(Step, u16, &[u8]), ExprRefused>
    ensures exact { Gives (λ x. (step_of x.0, x.1, x.2.now)) result (pipes.closed trees.Step.Aggregate n (reading.list_at reading.comma_at (pipes.agg_at served depth) text.now)) }
    ensures less { IfOk result (λ x. x.1 ≤ n) }
{
    let (x, rest) = read_aggs(alloc, depth, text)?;
    match close_at(rest) {
        Some(rest) => Ok((Step::Aggregate(x), n, rest)),
        None => Err(ExprRefused::Syntax),
    }
}

/// A selection.
#[tactic(auto, unfolding(crate::specs::PipeReading::closed), using(crate::proofs::StepViews::views))]
fn read_selection(
    alloc: Global,
    depth: u8,
    bottom: bool,
    kind: LimitKind,
    n: u16,
    text: &[u8],
) -> Result<(Step, u16, &[u8]), ExprRefused>
    ensures exact { Gives (λ x. (step_of x.0, x.1, x.2.now)) result (pipes.closed trees.Step.TopBy n (pipes.top_at served depth bottom kind text.now)) }
    ensures less { IfOk result (λ x. x.1 ≤ n) }
{
    let (x, rest) = read_top_step(alloc, depth, bottom, kind, text)?;
    match close_at(rest) {
        Some(rest) => Ok((Step::TopBy(x), n, rest)),
        None => Err(ExprRefused::Syntax),
    }
}

/// A walk over a hierarchy.
#[tactic(auto, unfolding(crate::specs::PipeReading::closed), using(crate::proofs::StepViews::views))]
fn read_walk(
    alloc: Global,
    depth: u8,
    n: u16,
    text: &[u8],
) -> Result<(Step, u16, &[u8]), ExprRefused>
    ensures exact { Gives (λ x. (step_of x.0, x.1, x.2.now)) result (pipes.closed trees.Step.Traverse n (pipes.traverse_at served depth text.now)) }
    ensures less { IfOk result (λ x. x.1 ≤ n) }
{
    let (x, rest) = read_traverse(alloc, depth, text)?;
    match close_at(rest) {
        Some(rest) => Ok((Step::Traverse(x), n, rest)),
        None => Err(ExprRefused::Syntax),
    }
}

/// A step that leaves out the first instances.
#[tactic(auto, unfolding(crate::specs::PipeReading::closed), using(crate::proofs::StepViews::views))]
fn read_skip(n: u16, text: &[u8]) -> Result<(Step, u16, &[u8]), ExprRefused>
    ensures exact { Gives (λ x. (step_of x.0, x.1, x.2.now)) result (pipes.closed trees.Step.Skip n (reading.count_at integer_max text.now)) }
    ensures less { IfOk result (λ x. x.1 ≤ n) }
{
    match count_at(INTEGER_MAX, text) {
        Some((count, rest)) => match close_at(rest) {
            Some(rest) => Ok((Step::Skip(count), n, rest)),
            None => Err(ExprRefused::Syntax),
        },
        None => Err(ExprRefused::Syntax),
    }
}

/// A step that keeps the first instances.
#[tactic(auto, unfolding(crate::specs::PipeReading::closed), using(crate::proofs::StepViews::views))]
fn read_first(n: u16, text: &[u8]) -> Result<(Step, u16, &[u8]), ExprRefused>
    ensures exact { Gives (λ x. (step_of x.0, x.1, x.2.now)) result (pipes.closed trees.Step.Top n (reading.count_at integer_max text.now)) }
    ensures less { IfOk result (λ x. x.1 ≤ n) }
{
    match count_at(INTEGER_MAX, text) {
        Some((count, rest)) => match close_at(rest) {
            Some(rest) => Ok((Step::Top(count), n, rest)),
            None => Err(ExprRefused::Syntax),
        },
        None => Err(ExprRefused::Syntax),
    }
}

/// What follows `$all` and a comma.
#[tactic(auto, unfolding(crate::specs::PipeReading::all_at))]
fn all_at(text: &[u8]) -> Option<&[u8]>
    ensures { option_map (λ r. r.now) result ≡ pipes.all_at text.now }
{
    comma_at(word_behind(text, b"all")?)
}

/// The paths of a rollup, behind its parenthesis.
#[tactic(auto, unfolding(crate::specs::PipeReading::rollup_at))]
fn read_rollup(alloc: Global, text: &[u8]) -> Result<(KeyItem, &[u8]), ExprRefused>
    ensures { Gives (λ x. (key_of x.0, x.1.now)) result (pipes.rollup_at text.now) }
{
    match after(text, b'$') {
        Some(behind) => match all_at(behind) {
            Some(behind) => {
                let (paths, rest) = read_paths(alloc, behind)?;
                Ok((KeyItem::Rollup(true, paths), rest))
            }
            None => Err(ExprRefused::Syntax),
        },
        None => {
            let (paths, rest) = read_paths(alloc, text)?;
            if 2 <= paths.as_slice().len() {
                Ok((KeyItem::Rollup(false, paths), rest))
            } else {
                Err(ExprRefused::Syntax)
            }
        }
    }
}

/// A rollup, and the closing parenthesis.
#[tactic(auto, unfolding(crate::specs::PipeReading::closed))]
fn read_closed_rollup(
    alloc: Global,
    n: u16,
    text: &[u8],
) -> Result<(KeyItem, u16, &[u8]), ExprRefused>
    ensures exact { Gives (λ x. (key_of x.0, x.1, x.2.now)) result (pipes.closed (λ k. k) n (pipes.rollup_at text.now)) }
    ensures less { IfOk result (λ x. x.1 ≤ n) }
{
    let (key, rest) = read_rollup(alloc, text)?;
    match close_at(rest) {
        Some(rest) => Ok((key, n, rest)),
        None => Err(ExprRefused::Syntax),
    }
}

/// A pipeline behind a comma, if there is one.
#[cycle(pipe)]
#[tactic(auto, unfolding(crate::specs::PipeReading::inner_at))]
fn read_inner(
    alloc: Global,
    depth: u8,
    n: u16,
    text: &[u8],
) -> Result<(Option<Pipe>, u16, &[u8]), ExprRefused>
    ensures exact { Gives (λ x. (inner_of (option_map pipe_of x.0), x.1, x.2.now)) result (pipes.inner_at (pipes.pipe_at served depth) n text.now) }
    ensures less { IfOk result (λ x. x.1 ≤ n) }
{
    match comma_at(text) {
        Some(behind) => {
            let (pipe, n, rest) = read_pipe(alloc, depth, n, behind)?;
            Ok((Some(pipe), n, rest))
        }
        None => Ok((None, n, text)),
    }
}

/// A recursive rollup, behind its parenthesis.
#[cycle(pipe)]
#[tactic(auto, unfolding(crate::specs::PipeReading::recursive_at), using(crate::proofs::StepViews::views))]
fn read_recursive(
    alloc: Global,
    depth: u8,
    n: u16,
    text: &[u8],
) -> Result<(KeyItem, u16, &[u8]), ExprRefused>
    ensures exact { Gives (λ x. (key_of x.0, x.1, x.2.now)) result (pipes.recursive_at (pipes.pipe_at served depth) n text.now) }
    ensures less { IfOk result (λ x. x.1 ≤ n) }
{
    let (hier, path, rest) = read_node(alloc, text)?;
    let (inner, n, rest) = read_inner(alloc, depth, n, rest)?;
    Ok((KeyItem::Recursive(hier, path, inner), n, rest))
}

/// A recursive rollup, and the closing parenthesis.
#[cycle(pipe)]
#[tactic(auto, unfolding(crate::specs::PipeReading::ended))]
fn read_closed_recursive(
    alloc: Global,
    depth: u8,
    n: u16,
    text: &[u8],
) -> Result<(KeyItem, u16, &[u8]), ExprRefused>
    ensures exact { Gives (λ x. (key_of x.0, x.1, x.2.now)) result (pipes.ended (λ k. k) (pipes.recursive_at (pipes.pipe_at served depth) n text.now)) }
    ensures less { IfOk result (λ x. x.1 ≤ n) }
{
    let (key, n, rest) = read_recursive(alloc, depth, n, text)?;
    match close_at(rest) {
        Some(rest) => Ok((key, n, rest)),
        None => Err(ExprRefused::Syntax),
    }
}

/// A key that has parentheses, behind the opening one.
#[cycle(pipe)]
fn read_key_call<'a>(
    alloc: Global,
    depth: u8,
    word: &[u8],
    n: u16,
    text: &'a [u8],
) -> Result<(KeyItem, u16, &'a [u8]), ExprRefused>
    ensures exact { Gives (λ x. (key_of x.0, x.1, x.2.now)) result (pipes.key_call_at (pipes.below served depth 0) depth word.now n text.now) }
    ensures less { IfOk result (λ x. x.1 ≤ n) }
{
    if depth == 0 {
        return Err(ExprRefused::Syntax);
    }
    if same(word, b"rollup") {
        read_closed_rollup(alloc, n, text)
    } else if same(word, b"rolluprecursive") {
        read_closed_recursive(alloc, depth - 1, n, text)
    } else {
        Err(ExprRefused::Syntax)
    }
}

/// A key of a grouping.
#[cycle(pipe)]
#[tactic(auto, unfolding(crate::specs::PipeReading::key_at), using(crate::proofs::StepViews::views))]
fn read_key(
    alloc: Global,
    depth: u8,
    n: u16,
    text: &[u8],
) -> Result<(KeyItem, u16, &[u8]), ExprRefused>
    ensures exact { Gives (λ x. (key_of x.0, x.1, x.2.now)) result (pipes.key_at (pipes.below served depth 0) depth n text.now) }
    ensures less { IfOk result (λ x. x.1 ≤ n) }
{
    let (word, rest) = word_run(text);
    match open_at(rest) {
        Some(behind) => read_key_call(alloc, depth, word, n, behind),
        None => {
            let (path, rest) = path_at(alloc, text)?;
            Ok((KeyItem::Plain(path), n, rest))
        }
    }
}

/// Keys with a comma between each two.
#[cycle(pipe)]
fn read_key_list(
    alloc: Global,
    depth: u8,
    n: u16,
    text: &[u8],
) -> Result<(Vec<KeyItem>, u16, &[u8]), ExprRefused>
    ensures exact { Gives (λ x. (map key_of x.0.items, x.1, x.2.now)) result (pipes.some_at (pipes.key_at (pipes.below served depth 0) depth) n text.now) }
    ensures less { IfOk result (λ x. x.1 ≤ n) }
{
    let (first, mut n, mut rest) = read_key(alloc, depth, n, text)?;
    let mut keys = Vec::new(alloc);
    keys.push(first)?;
    while let Some(behind) = comma_at(rest) {
        let (key, less, next) = read_key(alloc, depth, n, behind)?;
        keys.push(key)?;
        n = less;
        rest = next;
    }
    Ok((keys, n, rest))
}

/// Keys, and the closing parenthesis.
#[cycle(pipe)]
#[tactic(auto, unfolding(crate::specs::PipeReading::ended), using(crate::proofs::StepViews::views))]
fn read_closed_keys(
    alloc: Global,
    depth: u8,
    n: u16,
    text: &[u8],
) -> Result<(KeyList, u16, &[u8]), ExprRefused>
    ensures exact { Gives (λ x. (keys_of x.0, x.1, x.2.now)) result (pipes.ended keys_from (pipes.some_at (pipes.key_at (pipes.below served depth 0) depth) n text.now)) }
    ensures less { IfOk result (λ x. x.1 ≤ n) }
{
    let (keys, n, rest) = read_key_list(alloc, depth, n, text)?;
    match close_at(rest) {
        Some(rest) => Ok((KeyList::new(keys), n, rest)),
        None => Err(ExprRefused::Syntax),
    }
}

/// The keys of a grouping in their parentheses.
#[cycle(pipe)]
fn read_keys(
    alloc: Global,
    depth: u8,
    n: u16,
    text: &[u8],
) -> Result<(KeyList, u16, &[u8]), ExprRefused>
    ensures exact { Gives (λ x. (keys_of x.0, x.1, x.2.now)) result (pipes.keys_at (pipes.below served depth 1) depth n text.now) }
    ensures less { IfOk result (λ x. x.1 ≤ n) }
{
    if depth == 0 {
        return Err(ExprRefused::Syntax);
    }
    match open_at(text) {
        Some(behind) => read_closed_keys(alloc, depth - 1, n, behind),
        None => Err(ExprRefused::Syntax),
    }
}

/// A grouping.
#[cycle(pipe)]
#[tactic(auto, unfolding(crate::specs::PipeReading::groupby_at, crate::specs::PipeReading::ended), using(crate::proofs::StepViews::views))]
fn read_groupby(
    alloc: Global,
    depth: u8,
    n: u16,
    text: &[u8],
) -> Result<(Step, u16, &[u8]), ExprRefused>
    ensures exact { Gives (λ x. (step_of x.0, x.1, x.2.now)) result (pipes.groupby_at (pipes.pipe_at served depth) (pipes.below served depth 1) depth n text.now) }
    ensures less { IfOk result (λ x. x.1 ≤ n) }
{
    let (keys, n, rest) = read_keys(alloc, depth, n, text)?;
    let (inner, n, rest) = read_inner(alloc, depth, n, rest)?;
    match close_at(rest) {
        Some(rest) => Ok((Step::GroupBy(keys, inner), n, rest)),
        None => Err(ExprRefused::Syntax),
    }
}

/// Pipelines with a comma between each two.
#[cycle(pipe)]
fn read_pipe_list(
    alloc: Global,
    depth: u8,
    n: u16,
    text: &[u8],
) -> Result<(Vec<Pipe>, u16, &[u8]), ExprRefused>
    ensures exact { Gives (λ x. (map pipe_of x.0.items, x.1, x.2.now)) result (pipes.some_at (pipes.pipe_at served depth) n text.now) }
    ensures less { IfOk result (λ x. x.1 ≤ n) }
{
    let (first, mut n, mut rest) = read_pipe(alloc, depth, n, text)?;
    let mut branches = Vec::new(alloc);
    branches.push(first)?;
    while let Some(behind) = comma_at(rest) {
        let (branch, less, next) = read_pipe(alloc, depth, n, behind)?;
        branches.push(branch)?;
        n = less;
        rest = next;
    }
    Ok((branches, n, rest))
}

/// The branches of a concatenation, at least two.
#[cycle(pipe)]
#[tactic(auto, unfolding(crate::specs::PipeReading::branches_at))]
fn read_branches(
    alloc: Global,
    depth: u8,
    n: u16,
    text: &[u8],
) -> Result<(PipeList, u16, &[u8]), ExprRefused>
    ensures exact { Gives (λ x. (pipes_of x.0, x.1, x.2.now)) result (pipes.branches_at (pipes.pipe_at served depth) n text.now) }
    ensures less { IfOk result (λ x. x.1 ≤ n) }
{
    let (branches, n, rest) = read_pipe_list(alloc, depth, n, text)?;
    if 2 <= branches.len() {
        Ok((PipeList::new(branches), n, rest))
    } else {
        Err(ExprRefused::Syntax)
    }
}

/// A concatenation.
#[cycle(pipe)]
#[tactic(auto, unfolding(crate::specs::PipeReading::ended), using(crate::proofs::StepViews::views))]
fn read_concat(
    alloc: Global,
    depth: u8,
    n: u16,
    text: &[u8],
) -> Result<(Step, u16, &[u8]), ExprRefused>
    ensures exact { Gives (λ x. (step_of x.0, x.1, x.2.now)) result (pipes.ended trees.Step.Concat (pipes.branches_at (pipes.pipe_at served depth) n text.now)) }
    ensures less { IfOk result (λ x. x.1 ≤ n) }
{
    let (branches, n, rest) = read_branches(alloc, depth, n, text)?;
    match close_at(rest) {
        Some(rest) => Ok((Step::Concat(branches), n, rest)),
        None => Err(ExprRefused::Syntax),
    }
}

/// A join.
#[cycle(pipe)]
#[tactic(auto, unfolding(crate::specs::PipeReading::join_at, crate::specs::PipeReading::ended))]
fn read_join(
    alloc: Global,
    depth: u8,
    outer: bool,
    n: u16,
    text: &[u8],
) -> Result<(Step, u16, &[u8]), ExprRefused>
    ensures exact { Gives (λ x. (step_of x.0, x.1, x.2.now)) result (pipes.join_at (pipes.pipe_at served depth) outer n text.now) }
    ensures less { IfOk result (λ x. x.1 ≤ n) }
{
    let (nav, alias, rest) = read_alias(alloc, text)?;
    let (inner, n, rest) = read_inner(alloc, depth, n, rest)?;
    match close_at(rest) {
        Some(rest) => Ok((
            Step::Join(JoinStep {
                outer,
                nav,
                alias,
                inner,
            }),
            n,
            rest,
        )),
        None => Err(ExprRefused::Syntax),
    }
}

/// A climb.
#[cycle(pipe)]
#[tactic(auto, unfolding(crate::specs::PipeReading::climb_at))]
fn read_climb(
    alloc: Global,
    depth: u8,
    up: bool,
    n: u16,
    text: &[u8],
) -> Result<(Step, u16, &[u8]), ExprRefused>
    ensures exact { Gives (λ x. (step_of x.0, x.1, x.2.now)) result (pipes.climb_at (pipes.pipe_at served depth) up n text.now) }
    ensures less { IfOk result (λ x. x.1 ≤ n) }
{
    let (hier, path, rest) = read_node(alloc, text)?;
    match comma_at(rest) {
        Some(behind) => {
            let (inner, n, rest) = read_pipe(alloc, depth, n, behind)?;
            match climb_end_at(rest) {
                Some((distance, keep, rest)) => Ok((
                    Step::Climb(ClimbStep {
                        up,
                        hier,
                        path,
                        inner,
                        distance,
                        keep,
                    }),
                    n,
                    rest,
                )),
                None => Err(ExprRefused::Syntax),
            }
        }
        None => Err(ExprRefused::Syntax),
    }
}

/// What stands in the parentheses of a step, and the closing one.
#[cycle(pipe)]
#[tactic(auto, unfolding(crate::specs::PipeReading::call_at, crate::specs::PipeReading::below))]
fn read_call(
    alloc: Global,
    depth: u8,
    form: StepWord,
    n: u16,
    text: &[u8],
) -> Result<(Step, u16, &[u8]), ExprRefused>
    ensures exact { Gives (λ x. (step_of x.0, x.1, x.2.now)) result (pipes.call_at served (pipes.below served (suc depth)) depth form n text.now) }
    ensures less { IfOk result (λ x. x.1 ≤ n) }
{
    match form {
        StepWord::Filter => read_filter(alloc, depth, n, text),
        StepWord::Compute => read_compute(alloc, depth, n, text),
        StepWord::OrderBy => read_orderby(alloc, depth, n, text),
        StepWord::Skip => read_skip(n, text),
        StepWord::Top => read_first(n, text),
        StepWord::Aggregate => read_aggregate(alloc, depth, n, text),
        StepWord::GroupBy => read_groupby(alloc, depth, n, text),
        StepWord::Concat => read_concat(alloc, depth, n, text),
        StepWord::Join(outer) => read_join(alloc, depth, outer, n, text),
        StepWord::Climb(up) => read_climb(alloc, depth, up, n, text),
        StepWord::Traverse => read_walk(alloc, depth, n, text),
        StepWord::Select(bottom, kind) => read_selection(alloc, depth, bottom, kind, n, text),
    }
}

/// A step with parentheses, behind its word.
#[cycle(pipe)]
fn read_body<'a>(
    alloc: Global,
    depth: u8,
    word: &[u8],
    n: u16,
    text: &'a [u8],
) -> Result<(Step, u16, &'a [u8]), ExprRefused>
    ensures exact { Gives (λ x. (step_of x.0, x.1, x.2.now)) result (pipes.body_at served (pipes.below served depth) depth word.now n text.now) }
    ensures less { IfOk result (λ x. x.1 ≤ n) }
{
    if depth == 0 {
        return Err(ExprRefused::Syntax);
    }
    match step_word_of(word) {
        Some(form) => match open_at(text) {
            Some(behind) => read_call(alloc, depth - 1, form, n, behind),
            None => Err(ExprRefused::Syntax),
        },
        None => Err(ExprRefused::Syntax),
    }
}

/// A step.
#[cycle(pipe)]
#[tactic(auto, unfolding(crate::specs::PipeReading::step_at), using(crate::proofs::StepViews::views))]
fn read_step(
    alloc: Global,
    depth: u8,
    n: u16,
    text: &[u8],
) -> Result<(Step, u16, &[u8]), ExprRefused>
    ensures exact { Gives (λ x. (step_of x.0, x.1, x.2.now)) result (pipes.step_at served (pipes.below served depth) depth n text.now) }
    ensures less { IfOk result (λ x. x.1 < n) }
{
    if n == 0 {
        return Err(ExprRefused::Syntax);
    }
    let (word, rest) = word_run(text);
    if same(word, b"identity") {
        Ok((Step::Identity, n - 1, rest))
    } else {
        read_body(alloc, depth, word, n - 1, rest)
    }
}

/// A pipeline.
#[cycle(pipe)]
fn read_pipe(
    alloc: Global,
    depth: u8,
    n: u16,
    text: &[u8],
) -> Result<(Pipe, u16, &[u8]), ExprRefused>
    ensures exact { Gives (λ x. (pipe_of x.0, x.1, x.2.now)) result (pipes.pipe_at served depth n text.now) }
    ensures less { IfOk result (λ x. x.1 < n) }
{
    let (first, mut n, mut rest) = read_step(alloc, depth, n, text)?;
    let mut steps = Vec::new(alloc);
    steps.push(first)?;
    while let Some(behind) = after(rest, b'/') {
        let (step, less, next) = read_step(alloc, depth, n, behind)?;
        steps.push(step)?;
        n = less;
        rest = next;
    }
    Ok((Pipe::new(steps), n, rest))
}

/// The pipeline that is all of the text.
pub(crate) fn read_pipeline(alloc: Global, text: &[u8]) -> Result<Pipe, GrammarRefused>
    ensures { GivesPipe result (pipes.pipeline_at served limits.most_open limits.most_steps text.now) }
{
    let mut steps = Vec::new(alloc);
    let mut k: u32 = 1;
    let mut n: u16 = STEPS_MAX;
    let mut rest = text;
    loop {
        let (step, less, next) = match read_step(alloc, OPEN_MAX, n, rest) {
            Ok(x) => x,
            Err(ExprRefused::Syntax) => return Err(GrammarRefused::Syntax(k)),
            Err(ExprRefused::Memory) => return Err(GrammarRefused::Memory),
        };
        steps.push(step)?;
        match after(next, b'/') {
            Some(behind) => {
                n = less;
                rest = behind;
                k += 1;
            }
            None => {
                if next.is_empty() {
                    return Ok(Pipe::new(steps));
                }
                return Err(GrammarRefused::Syntax(k));
            }
        }
    }
}
