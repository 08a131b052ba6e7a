//! The values of an expression in the rows that are picked.
ghost use Rattle.std.specs.Prelude.{◌≡◌, ◌<◌, IsTrue, IfOk, length, map};
ghost use Rattle.std.specs.List.{All};
ghost use Rattle.edm_values.specs.Values.{seen_value};
ghost use Rattle.apply_ast.specs.Views.{expr_of};
ghost use Rattle.apply_meaning.specs.Meaning.{values};
ghost use Rattle.apply_meaning.specs.Running.{all_of};
ghost use Rattle.row_frames.specs.Frames as spec;

use crate::picks::Picks;
use crate::readers::readers_of;
use crate::seen::{all_seen, all_values, values_in_turn};
use crate::tables::{Pick, Table};
use apply_ast::Expr;
use edm_data::Data;
use edm_values::{Seen, Value};
use std::alloc::{AllocError, Global};
use std::thread::Threads;

/// The values of an expression in the rows that are picked, one after the other.
pub(crate) fn values_alone<'a>(
    alloc: Global,
    store: &'a Data,
    tables: &'a [Table],
    e: &'a Expr,
    picks: &[Pick],
) -> Result<Vec<Value>, AllocError>
    requires tables { All spec.IsTable tables.now }
    requires within { All (λ x. x.table < length tables.now) picks.now }
    requires of { IsTrue (all_of store.now (spec.all_picked tables.now picks.now)) }
    ensures { IfOk result (λ vs. vs.items ≡ values store.now (expr_of e.now) (spec.all_picked tables.now picks.now)) }
{
    let readers = readers_of(alloc, store, tables, e, picks.len())?;
    values_in_turn(alloc, readers.as_slice(), picks)
}

/// The values of an expression in the rows that are picked. The picks may be cut into so many parts, each for a thread of its own.
pub(crate) fn values_of<'a, R: Threads + Sync>(
    rt: &R,
    alloc: Global,
    store: &'a Data,
    tables: &'a [Table],
    e: &'a Expr,
    picks: &Picks,
    workers: u32,
) -> Result<Vec<Value>, AllocError>
    requires tables { All spec.IsTable tables.now }
    requires within { All (λ x. x.table < length tables.now) picks.now }
    requires of { IsTrue (all_of store.now (spec.all_picked tables.now picks.now)) }
    ensures { IfOk result (λ vs. vs.items ≡ values store.now (expr_of e.now) (spec.all_picked tables.now picks.now)) }
{
    let readers = readers_of(alloc, store, tables, e, picks.len())?;
    all_values(rt, alloc, readers.as_slice(), picks, workers)
}

/// The values of an expression in the rows that are picked, which borrow their texts. The picks may be cut into so many parts, each
/// for a thread of its own.
pub(crate) fn seen_of<'a, R: Threads + Sync>(
    rt: &R,
    alloc: Global,
    store: &'a Data,
    tables: &'a [Table],
    e: &'a Expr,
    picks: &Picks,
    workers: u32,
) -> Result<Vec<Seen<'a>>, AllocError>
    requires tables { All spec.IsTable tables.now }
    requires within { All (λ x. x.table < length tables.now) picks.now }
    requires of { IsTrue (all_of store.now (spec.all_picked tables.now picks.now)) }
    ensures { IfOk result (λ vs. map (λ v. seen_value v) vs.items ≡ values store.now (expr_of e.now) (spec.all_picked tables.now picks.now)) }
{
    let readers = readers_of(alloc, store, tables, e, picks.len())?;
    all_seen(rt, alloc, readers.as_slice(), picks, workers)
}
