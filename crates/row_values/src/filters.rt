//! Filters: the rows on which an expression is true. No row is made.
ghost use Rattle.std.specs.Prelude.{◌≡◌, ◌<◌, IfOk, IsTrue, length, map, true, filter};
ghost use Rattle.edm_values.specs.Values as spec;
ghost use Rattle.apply_ast.specs.Views.{expr_of};
ghost use Rattle.apply_meaning.specs.Instances.{val};
ghost use Rattle.apply_meaning.specs.Meaning.{values, refused_at_beyond};
ghost use Rattle.apply_meaning.specs.RowViews.{is_of};
ghost use Rattle.apply_meaning.specs.Running.{Gives, all_of};
ghost use Rattle.row_frames.specs.Answers.{answer_of};
ghost use Rattle.row_values.specs.Answers.{kept_by};

use crate::parts::{is_one_part, part_len};
use apply_ast::Expr;
use apply_meaning::{Row, RunRefused, eval, filter_rows as filter_in_turn};
use edm_data::Data;
use edm_values::Seen;
use rayon::prelude::*;
use std::alloc::{AllocError, Global};
use std::thread::Threads;

/// Whether the expression is true on the row; none where its value is past its range.
fn answer(store: &Data, e: &Expr, row: &Row) -> Option<bool>
    requires { IsTrue (is_of store.now row.now) }
    ensures { result ≡ answer_of (val store.now row.now (expr_of e.now)) }
{
    match eval(store, row, e) {
        Seen::Beyond => None,
        Seen::Bool(b) => Some(b),
        _ => Some(false),
    }
}

/// Whether the expression is true on each row, worked out in parts.
fn answers<R: Threads + Sync>(
    rt: &R,
    alloc: Global,
    store: &Data,
    e: &Expr,
    rows: &[Row],
    workers: u32,
) -> Result<Vec<Option<bool>>, AllocError>
    requires some { 0 < workers }
    requires of { IsTrue (all_of store.now rows.now) }
    ensures { IfOk result (λ v. v.items ≡ map (λ i. answer_of (val store.now i (expr_of e.now))) rows.now) }
{
    rows.par_iter()
        .with_min_len(part_len(rows.len(), workers))
        .map(
            |row: &Row| -> Option<bool>
                requires { IsTrue (is_of store.now row.now) }
                ensures { result ≡ answer_of (val store.entry.now row.now (expr_of e.entry.now)) }
            { answer(store, e, row) },
        )
        .collect(rt, alloc)
}

/// The rows whose answers are true.
fn kept_rows(
    alloc: Global,
    rows: Vec<Row>,
    answers: &[Option<bool>],
) -> Result<Vec<Row>, RunRefused>
    requires { length answers.now ≡ length rows.items }
    ensures { Gives result (kept_by answers.now rows.items) }
{
    let mut kept = Vec::new(alloc);
    for (k, row) in rows.into_iter().enumerate() {
        match answers[k] {
            None => return Err(RunRefused::Range),
            Some(true) => kept.push(row)?,
            Some(false) => {}
        }
    }
    Ok(kept)
}

/// The rows on which an expression is true, worked out in parts.
fn filter_in_parts<R: Threads + Sync>(
    rt: &R,
    alloc: Global,
    store: &Data,
    e: &Expr,
    rows: Vec<Row>,
    workers: u32,
) -> Result<Vec<Row>, RunRefused>
    requires some { 0 < workers }
    requires of { IsTrue (all_of store.now rows.items) }
    ensures { Gives result (refused_at_beyond (values store.now (expr_of e.now) rows.items) (filter (λ i. spec.is_value true (val store.now i (expr_of e.now))) rows.items)) }
{
    let found = answers(rt, alloc, store, e, rows.as_slice(), workers)?;
    kept_rows(alloc, rows, found.as_slice())
}

/// The rows on which an expression is true. The rows may be cut into so many parts, each for a thread of its own; this one moves
/// them.
pub fn filter_rows<R: Threads + Sync>(
    rt: &R,
    alloc: Global,
    store: &Data,
    e: &Expr,
    rows: Vec<Row>,
    workers: u32,
) -> Result<Vec<Row>, RunRefused>
    requires some { 0 < workers }
    requires of { IsTrue (all_of store.now rows.items) }
    ensures value { Gives result (refused_at_beyond (values store.now (expr_of e.now) rows.items) (filter (λ i. spec.is_value true (val store.now i (expr_of e.now))) rows.items)) }
{
    if is_one_part(rows.len(), workers) {
        return filter_in_turn(alloc, store, e, rows);
    }
    filter_in_parts(rt, alloc, store, e, rows, workers)
}
