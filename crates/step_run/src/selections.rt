//! Selections from the top and the bottom: rows taken by the values of an expression. No row is made.
ghost use Rattle.std.specs.Prelude.{◌≡◌, ◌<◌, ℕ, Bool, List, Some, IfOk, IsTrue, filter, length, map, nat_lt};
ghost use Rattle.std.specs.List.{list_all};
ghost use Rattle.edm_values.specs.Lists.{at_places, places as all_places};
ghost use Rattle.edm_values.specs.Values.{number_part, seen_value, top_places};
ghost use Rattle.apply_ast.specs.Views.{limit_of, number_literal_of, top_of};
ghost use Rattle.apply_meaning.specs.Meaning.{reaches, selected, values};
ghost use Rattle.apply_meaning.specs.Running.{Gives, all_of};
ghost use Rattle.step_run.specs.Conditions.{LimitReady};
ghost use Rattle.step_run.specs.Selections.{literal_number};
ghost use Rattle.row_orders.specs.Ranks.{GivesNumbers};

use crate::contexts::Context;
use apply_ast::{Limit, Number, TopStep};
use apply_meaning::{Row, RunRefused};
use edm_values::Seen;
use par_stages::Gate;
use row_values::RowList;
use std::alloc::{AllocError, Global};
use std::thread::Threads;
use top_family::{bottom_percent, bottom_sum, count_in_parts, top_percent, top_sum};

/// The number of a literal, as a value.
fn number_value(number: &Number) -> Seen<'_>
    ensures { number_part (seen_value result) ≡ literal_number (number_literal_of number.now) }
{
    match number {
        Number::Int(n) => Seen::Int(*n),
        Number::Dec(d) => Seen::Dec(*d),
    }
}

/// The places that a selection takes, in ascending order. Where there are several workers, they find the first values together.
fn taken_places<R: Threads + Sync>(
    rt: &R,
    alloc: Global,
    limit: &Limit,
    bottom: bool,
    values: &[Seen<'_>],
    workers: u32,
) -> Result<Vec<usize>, RunRefused>
    requires some { 0 < workers }
    requires limit { LimitReady (limit_of limit.now) (map seen_value values.now) }
    ensures { let vs = map seen_value values.now in GivesNumbers result (top_places (reaches (limit_of limit.now) vs) bottom vs) }
{
    match (limit, bottom) {
        (Limit::Count(n), false) => count_in_parts(rt, alloc, values, *n, false, workers),
        (Limit::Count(n), true) => count_in_parts(rt, alloc, values, *n, true, workers),
        (Limit::Sum(number), false) => top_sum(alloc, values, number_value(number)),
        (Limit::Sum(number), true) => bottom_sum(alloc, values, number_value(number)),
        (Limit::Percent(p), false) => top_percent(alloc, values, *p),
        (Limit::Percent(p), true) => bottom_percent(alloc, values, *p),
    }
}

/// The rows at ascending places.
pub(crate) fn rows_at(
    alloc: Global,
    rows: Vec<Row>,
    places: &[usize],
) -> Result<Vec<Row>, AllocError>
    requires { (q : ℕ → Bool) × (places.now ≡ filter q (all_places (length rows.items))) }
    ensures { IfOk result (λ kept. kept.items ≡ at_places rows.items places.now) }
{
    let mut kept = Vec::with_capacity(alloc, places.len())?;
    for (k, row) in rows.into_iter().enumerate() {
        let next = kept.len();
        if next < places.len() && places[next] == k {
            kept.push(row)?;
        }
    }
    Ok(kept)
}

/// The places of the values that a selection takes, in ascending order.
pub fn selected_places<R: Threads + Sync, G: Gate>(
    alloc: Global,
    context: &Context<'_, R, G>,
    top: &TopStep,
    values: &[Seen<'_>],
) -> Result<Vec<usize>, RunRefused>
    requires limit { LimitReady (top_of top.now).limit (map seen_value values.now) }
    ensures value { let t = top_of top.now in let vs = map seen_value values.now in GivesNumbers result (top_places (reaches t.limit vs) t.bottom vs) }
    ensures within { IfOk result (λ places. IsTrue (list_all (λ k. nat_lt k (length values.now)) places.items)) }
{
    let workers = context.workers();
    taken_places(context.rt(), alloc, &top.limit, top.bottom, values, workers)
}

/// The places of the rows that a selection takes, in ascending order. Where there are several workers, they work out the values.
fn places_of<R: Threads + Sync, G: Gate>(
    alloc: Global,
    context: &Context<'_, R, G>,
    top: &TopStep,
    rows: &[Row],
) -> Result<Vec<usize>, RunRefused>
    requires of { IsTrue (all_of context.now.world rows.now) }
    requires limit { let t = top_of top.now in LimitReady t.limit (values context.now.world t.expr rows.now) }
    ensures { let t = top_of top.now in let vs = values context.now.world t.expr rows.now in GivesNumbers result (top_places (reaches t.limit vs) t.bottom vs) }
{
    let list = RowList::of_rows(rows);
    let workers = context.workers();
    let seen = list.seen_values(context.rt(), alloc, context.store(), &top.expr, workers)?;
    selected_places(alloc, context, top, seen.as_slice())
}

/// The rows that a selection takes, in their order.
pub fn select_rows<R: Threads + Sync, G: Gate>(
    alloc: Global,
    context: &Context<'_, R, G>,
    top: &TopStep,
    rows: Vec<Row>,
) -> Result<Vec<Row>, RunRefused>
    requires of { IsTrue (all_of context.now.world rows.items) }
    requires limit { let t = top_of top.now in LimitReady t.limit (values context.now.world t.expr rows.items) }
    ensures mean { Gives result (selected context.now.world (top_of top.now) rows.items) }
{
    let places = places_of(alloc, context, top, rows.as_slice())?;
    Ok(rows_at(alloc, rows, places.as_slice())?)
}
