//! Filters, and parts of lists: no row is made.
ghost use Rattle.std.specs.Prelude.{◌≡◌, IsTrue, Ok, Err, true, filter, take, drop, if◌then◌else◌};
ghost use Rattle.edm_values.specs.Values as spec;
ghost use Rattle.apply_ast.specs.Views.{expr_of};
ghost use Rattle.apply_meaning.specs.Instances.{val};
ghost use Rattle.apply_meaning.specs.Meaning.{values, refused_at_beyond};
ghost use Rattle.apply_meaning.specs.RowViews.{is_of};
ghost use Rattle.apply_meaning.specs.Running.{Gives, all_of};

use crate::{Row, RunRefused, eval};
use apply_ast::Expr;
use edm_data::Data;
use edm_values::Seen;
use std::alloc::Global;

/// Whether the expression is true on the row.
fn passes(store: &Data, row: &Row, e: &Expr) -> Result<bool, RunRefused>
    requires { IsTrue (is_of store.now row.now) }
    ensures { let v = val store.now row.now (expr_of e.now) in result ≡ (if spec.is_beyond v then Err RunRefused.Range else Ok (spec.is_value true v)) }
{
    match eval(store, row, e) {
        Seen::Beyond => Err(RunRefused::Range),
        Seen::Bool(b) => Ok(b),
        _ => Ok(false),
    }
}

/// The rows on which the expression is true.
pub fn filter_rows(
    alloc: Global,
    store: &Data,
    e: &Expr,
    rows: Vec<Row>,
) -> Result<Vec<Row>, RunRefused>
    requires { IsTrue (all_of store.now rows.items) }
    ensures value { Gives result (refused_at_beyond (values store.now (expr_of e.now) rows.items) (filter (λ i. spec.is_value true (val store.now i (expr_of e.now))) rows.items)) }
{
    let mut kept = Vec::new(alloc);
    for row in rows {
        if passes(store, &row, e)? {
            kept.push(row)?;
        }
    }
    Ok(kept)
}

/// The first `n` rows.
pub fn top_rows(n: u64, rows: Vec<Row>) -> Vec<Row>
    ensures value { result.items ≡ take n rows.items }
{
    let mut rows = rows;
    if let Ok(n) = usize::try_from(n) {
        rows.truncate(n);
    }
    rows
}

/// The rows without the first `n`. No memory is taken.
pub fn skip_rows(n: u64, rows: Vec<Row>) -> Vec<Row>
    ensures value { result.items ≡ drop n rows.items }
{
    let mut rows = rows;
    let n = match usize::try_from(n) {
        Ok(n) => n.min(rows.len()),
        Err(_) => rows.len(),
    };
    drop(rows.drain(..n));
    rows
}
