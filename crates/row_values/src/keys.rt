//! The key lists of rows.
ghost use Rattle.std.specs.Prelude.{◌≡◌, ◌<◌, IfOk, IsTrue, map};
ghost use Rattle.std.specs.List.{AllZip};
ghost use Rattle.apply_meaning.specs.Meaning as spec;
ghost use Rattle.apply_meaning.specs.RowViews.{is_of};
ghost use Rattle.apply_meaning.specs.Running.{all_of};

use crate::parts::{all_ok, is_one_part, part_len};
use apply_ast::Path;
use apply_meaning::{Row, lookup};
use edm_data::Data;
use edm_values::Value;
use rayon::prelude::*;
use std::alloc::{AllocError, Global};
use std::thread::Threads;

/// The values of the paths on a row.
pub(crate) fn key_list(
    alloc: Global,
    store: &Data,
    paths: &[Path],
    row: &Row,
) -> Result<Vec<Value>, AllocError>
    requires { IsTrue (is_of store.now row.now) }
    ensures { IfOk result (λ key. key.items ≡ spec.key_list store.now paths.now row.now) }
{
    let mut key = Vec::with_capacity(alloc, paths.len())?;
    for path in paths {
        key.push(lookup(store, row, path).own(alloc)?)?;
    }
    Ok(key)
}

/// The key list of each row by the paths, one after the other.
fn lists_in_turn(
    alloc: Global,
    store: &Data,
    paths: &[Path],
    rows: &[Row],
) -> Result<Vec<Vec<Value>>, AllocError>
    requires { IsTrue (all_of store.now rows.now) }
    ensures { IfOk result (λ lists. map (λ k. k.items) lists.items ≡ map (spec.key_list store.now paths.now) rows.now) }
{
    let mut lists = Vec::with_capacity(alloc, rows.len())?;
    for row in rows {
        lists.push(key_list(alloc, store, paths, row)?)?;
    }
    Ok(lists)
}

/// The key list of each row by the paths, or want of memory for it, worked out in parts.
fn list_results<R: Threads + Sync>(
    rt: &R,
    alloc: Global,
    store: &Data,
    paths: &[Path],
    rows: &[Row],
    workers: u32,
) -> Result<Vec<Result<Vec<Value>, AllocError>>, AllocError>
    requires some { 0 < workers }
    requires of { IsTrue (all_of store.now rows.now) }
    ensures { IfOk result (λ rs. AllZip (λ i r. IfOk r (λ key. key.items ≡ spec.key_list store.now paths.now i)) rows.now rs.items) }
{
    rows.par_iter()
        .with_min_len(part_len(rows.len(), workers))
        .map(
            |row: &Row| -> Result<Vec<Value>, AllocError>
                requires { IsTrue (is_of store.now row.now) }
                ensures { IfOk result (λ key. key.items ≡ spec.key_list store.entry.now paths.entry.now row.now) }
            { key_list(alloc, store, paths, row) },
        )
        .collect(rt, alloc)
}

/// The key list of each row by the paths, worked out in parts.
fn lists_in_parts<R: Threads + Sync>(
    rt: &R,
    alloc: Global,
    store: &Data,
    paths: &[Path],
    rows: &[Row],
    workers: u32,
) -> Result<Vec<Vec<Value>>, AllocError>
    requires some { 0 < workers }
    requires of { IsTrue (all_of store.now rows.now) }
    ensures { IfOk result (λ lists. map (λ k. k.items) lists.items ≡ map (spec.key_list store.now paths.now) rows.now) }
{
    let results = list_results(rt, alloc, store, paths, rows, workers)?;
    all_ok(alloc, results)
}

/// The key list of each row by the paths, in the order of the rows. The rows may be cut into so many parts, each for a thread of
/// its own.
pub fn key_lists<R: Threads + Sync>(
    rt: &R,
    alloc: Global,
    store: &Data,
    paths: &[Path],
    rows: &[Row],
    workers: u32,
) -> Result<Vec<Vec<Value>>, AllocError>
    requires some { 0 < workers }
    requires of { IsTrue (all_of store.now rows.now) }
    ensures value { IfOk result (λ lists. map (λ k. k.items) lists.items ≡ map (spec.key_list store.now paths.now) rows.now) }
{
    if is_one_part(rows.len(), workers) {
        return lists_in_turn(alloc, store, paths, rows);
    }
    lists_in_parts(rt, alloc, store, paths, rows, workers)
}
