//! The values of key paths in the rows that are picked: a list for each path, or a key list for each row.
ghost use Rattle.std.specs.Prelude.{◌≡◌, ◌<◌, IsTrue, IfOk, length, map};
ghost use Rattle.std.specs.List.{All};
ghost use Rattle.edm_values.specs.Values.{seen_value};
ghost use Rattle.apply_meaning.specs.Meaning.{key_list};
ghost use Rattle.apply_meaning.specs.Running.{all_of};
ghost use Rattle.row_frames.specs.Frames as spec;
ghost use Rattle.row_frames.specs.Keys as keys;

use crate::picks::Picks;
use crate::readers::path_readers_of;
use crate::seen::{all_seen, seen_in_turn};
use crate::tables::{Pick, Table};
use apply_ast::Path;
use edm_data::Data;
use edm_values::{Seen, Value};
use std::alloc::{AllocError, Global};
use std::thread::Threads;

/// The value of a path in each row that is picked, one after the other.
fn column_in_turn<'a>(
    alloc: Global,
    store: &'a Data,
    tables: &'a [Table],
    path: &'a Path,
    picks: &[Pick],
) -> Result<Vec<Seen<'a>>, AllocError>
    requires tables { All spec.IsTable tables.now }
    requires within { All (λ x. x.table < length tables.now) picks.now }
    requires of { IsTrue (all_of store.now (spec.all_picked tables.now picks.now)) }
    ensures { IfOk result (λ c. map (λ v. seen_value v) c.items ≡ keys.key_column store.now (spec.all_picked tables.now picks.now) path.now) }
{
    let readers = path_readers_of(alloc, store, tables, path)?;
    seen_in_turn(alloc, readers.as_slice(), picks)
}

/// The values of each path in the rows that are picked, one after the other.
pub(crate) fn columns_in_turn<'a>(
    alloc: Global,
    store: &'a Data,
    tables: &'a [Table],
    paths: &'a [Path],
    picks: &[Pick],
) -> Result<Vec<Vec<Seen<'a>>>, AllocError>
    requires tables { All spec.IsTable tables.now }
    requires within { All (λ x. x.table < length tables.now) picks.now }
    requires of { IsTrue (all_of store.now (spec.all_picked tables.now picks.now)) }
    ensures { IfOk result (λ cs. keys.seen_columns cs.items ≡ keys.key_columns store.now paths.now (spec.all_picked tables.now picks.now)) }
{
    let mut columns = Vec::with_capacity(alloc, paths.len())?;
    for path in paths {
        columns.push(column_in_turn(alloc, store, tables, path, picks)?)?;
    }
    Ok(columns)
}

/// The value of a path in each row that is picked. The picks may be cut into so many parts, each for a thread of its own.
fn key_column<'a, R: Threads + Sync>(
    rt: &R,
    alloc: Global,
    store: &'a Data,
    tables: &'a [Table],
    path: &'a Path,
    picks: &Picks,
    workers: u32,
) -> Result<Vec<Seen<'a>>, AllocError>
    requires tables { All spec.IsTable tables.now }
    requires within { All (λ x. x.table < length tables.now) picks.now }
    requires of { IsTrue (all_of store.now (spec.all_picked tables.now picks.now)) }
    ensures { IfOk result (λ c. map (λ v. seen_value v) c.items ≡ keys.key_column store.now (spec.all_picked tables.now picks.now) path.now) }
{
    let readers = path_readers_of(alloc, store, tables, path)?;
    all_seen(rt, alloc, readers.as_slice(), picks, workers)
}

/// The values of each path in the rows that are picked. The picks may be cut into so many parts, each for a thread of its own.
pub(crate) fn key_columns_of<'a, R: Threads + Sync>(
    rt: &R,
    alloc: Global,
    store: &'a Data,
    tables: &'a [Table],
    paths: &'a [Path],
    picks: &Picks,
    workers: u32,
) -> Result<Vec<Vec<Seen<'a>>>, AllocError>
    requires tables { All spec.IsTable tables.now }
    requires within { All (λ x. x.table < length tables.now) picks.now }
    requires of { IsTrue (all_of store.now (spec.all_picked tables.now picks.now)) }
    ensures { IfOk result (λ cs. keys.seen_columns cs.items ≡ keys.key_columns store.now paths.now (spec.all_picked tables.now picks.now)) }
{
    let mut columns = Vec::with_capacity(alloc, paths.len())?;
    for path in paths {
        columns.push(key_column(rt, alloc, store, tables, path, picks, workers)?)?;
    }
    Ok(columns)
}

/// The key list at a place: the value of each column there.
fn key_at(alloc: Global, columns: &[Vec<Seen<'_>>], at: usize) -> Result<Vec<Value>, AllocError>
    requires { All (λ c. at < length c.items) columns.now }
    ensures { IfOk result (λ key. key.items ≡ keys.key_at (keys.seen_columns columns.now) at) }
{
    let mut key = Vec::with_capacity(alloc, columns.len())?;
    for column in columns {
        key.push(column[at].own(alloc)?)?;
    }
    Ok(key)
}

/// The key lists at the first n places of columns.
fn lists_of(
    alloc: Global,
    columns: &[Vec<Seen<'_>>],
    n: usize,
) -> Result<Vec<Vec<Value>>, AllocError>
    requires { All (λ c. length c.items ≡ n) columns.now }
    ensures { IfOk result (λ lists. map (λ k. k.items) lists.items ≡ keys.keys_of (keys.seen_columns columns.now) n) }
{
    let mut lists = Vec::with_capacity(alloc, n)?;
    for at in 0..n {
        lists.push(key_at(alloc, columns, at)?)?;
    }
    Ok(lists)
}

/// The key lists of the rows that are picked, one after the other.
pub(crate) fn lists_in_turn<'a>(
    alloc: Global,
    store: &'a Data,
    tables: &'a [Table],
    paths: &'a [Path],
    picks: &[Pick],
) -> Result<Vec<Vec<Value>>, AllocError>
    requires tables { All spec.IsTable tables.now }
    requires within { All (λ x. x.table < length tables.now) picks.now }
    requires of { IsTrue (all_of store.now (spec.all_picked tables.now picks.now)) }
    ensures { IfOk result (λ lists. map (λ k. k.items) lists.items ≡ map (key_list store.now paths.now) (spec.all_picked tables.now picks.now)) }
{
    let columns = columns_in_turn(alloc, store, tables, paths, picks)?;
    lists_of(alloc, columns.as_slice(), picks.len())
}

/// The key lists of the rows that are picked. The picks may be cut into so many parts, each for a thread of its own.
pub(crate) fn key_lists_of<'a, R: Threads + Sync>(
    rt: &R,
    alloc: Global,
    store: &'a Data,
    tables: &'a [Table],
    paths: &'a [Path],
    picks: &Picks,
    workers: u32,
) -> Result<Vec<Vec<Value>>, AllocError>
    requires tables { All spec.IsTable tables.now }
    requires within { All (λ x. x.table < length tables.now) picks.now }
    requires of { IsTrue (all_of store.now (spec.all_picked tables.now picks.now)) }
    ensures { IfOk result (λ lists. map (λ k. k.items) lists.items ≡ map (key_list store.now paths.now) (spec.all_picked tables.now picks.now)) }
{
    let columns = key_columns_of(rt, alloc, store, tables, paths, picks, workers)?;
    lists_of(alloc, columns.as_slice(), picks.len())
}
