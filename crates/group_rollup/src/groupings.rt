//! Groups of the instances of lists by their keys.
ghost use Rattle.std.specs.Prelude.{◌≡◌, ◌+◌, ◌-◌, ◌<◌, ◌≤◌, ◌++◌, if◌then◌else◌, length, map, All, IfOk, IsTrue};
ghost use Rattle.aggregate_ops.specs.Columns.{key_rows};
ghost use Rattle.apply_meaning.specs.Meaning.{key_list};
ghost use Rattle.apply_meaning.specs.Running.{all_of};
ghost use Rattle.group_rollup.specs.Groupings as spec;
ghost use Rattle.group_rollup.specs.Groupings.{front_groups, groups, GivesFor};

use crate::GroupRefused;
use crate::row_keys::list_columns;
use aggregate_ops::{Groups, column_groups};
use apply_ast::Path;
use apply_meaning::Row;
use edm_data::Data;
use edm_values::Seen;
use par_stages::Gate;
use row_values::RowList;
use std::alloc::{AllocError, Global};
use std::thread::Threads;

/// The groups of the instances of a list by key paths, in order of first appearance, each with their places. The keys are worked
/// out once an instance; `workers` says into how many pieces the list may be cut.
pub fn group_list<R: Threads + Sync, G: Gate>(
    rt: &R,
    alloc: Global,
    store: &Data,
    list: &RowList<'_>,
    keys: &[Path],
    workers: u32,
    gate: &G,
) -> Result<Groups, GroupRefused>
    requires some { 0 < workers }
    requires few { workers ≤ 64 }
    requires of { IsTrue (all_of store.now list.now) }
    ensures value { GivesFor (λ found. found ≡ groups store.now keys.now list.now) store.now keys.now list.now result }
{
    let columns = list_columns(rt, alloc, &store, &keys, &list, workers)?;
    let seen = columns.as_slice();
    Ok(column_groups(rt, alloc, seen, list.len(), workers, gate)?)
}

/// The groups of rows by key paths, as `group_list` has them.
pub fn group<R: Threads + Sync, G: Gate>(
    rt: &R,
    alloc: Global,
    store: &Data,
    rows: &[Row],
    keys: &[Path],
    workers: u32,
    gate: &G,
) -> Result<Groups, GroupRefused>
    requires some { 0 < workers }
    requires few { workers ≤ 64 }
    requires of { IsTrue (all_of store.now rows.now) }
    ensures value { GivesFor (λ found. found ≡ groups store.now keys.now rows.now) store.now keys.now rows.now result }
{
    let list = RowList::of_rows(rows);
    group_list(rt, alloc, store, &list, keys, workers, gate)
}

/// Copies of the key paths and of the level paths behind them.
pub(crate) fn all_paths(
    alloc: Global,
    keys: &[Path],
    levels: &[Path],
) -> Result<Vec<Path>, AllocError>
    ensures { IfOk result (λ paths. paths.items ≡ keys.now ++ levels.now) }
{
    let mut paths = Vec::new(alloc);
    for path in keys {
        paths.push(path.copy(alloc)?)?;
    }
    for path in levels {
        paths.push(path.copy(alloc)?)?;
    }
    Ok(paths)
}

/// How many values of a key list the coarsest level of a rollup goes by: those of the keys, and one more where the keys alone are
/// no level.
pub(crate) fn least_front(keys: &[Path], with_all: bool) -> usize
    ensures { result ≡ (if with_all then length keys.now else length keys.now + 1) }
{
    if with_all { keys.len() } else { keys.len() + 1 }
}

/// The groups of the key lists that stand in columns by their first values, for each number of these from all to `least`. The key
/// lists are grouped once, by all their values, and each coarser level is made from these groups.
fn levels_from<R: Threads + Sync, G: Gate>(
    rt: &R,
    alloc: Global,
    columns: &[Vec<Seen<'_>>],
    rows: usize,
    least: usize,
    workers: u32,
    gate: &G,
) -> Result<Vec<Groups>, AllocError>
    requires some { 0 < workers }
    requires few { workers ≤ 64 }
    requires long { All (λ c. rows ≤ length c.items) columns.now }
    ensures { IfOk result (λ found. found.items ≡ front_groups least (length columns.now + 1 - least) (key_rows columns.now rows)) }
{
    let width = columns.len();
    if width < least {
        return Ok(Vec::new(alloc));
    }
    let finest = column_groups(rt, alloc, columns, rows, workers, gate)?;
    let mut coarser = finest.by_fronts(alloc, least, width, rows)?;
    let mut found = Vec::new(alloc);
    found.push(finest)?;
    found.append(&mut coarser)?;
    Ok(found)
}

/// The groups of the instances of a list by the first of these paths, for each number of them from all to `least`.
fn levels_by<R: Threads + Sync, G: Gate>(
    rt: &R,
    alloc: Global,
    store: &Data,
    list: &RowList<'_>,
    paths: &[Path],
    least: usize,
    workers: u32,
    gate: &G,
) -> Result<Vec<Groups>, GroupRefused>
    requires some { 0 < workers }
    requires few { workers ≤ 64 }
    requires of { IsTrue (all_of store.now list.now) }
    ensures { GivesFor (λ found. found.items ≡ front_groups least (length paths.now + 1 - least) (map (key_list store.now paths.now) list.now)) store.now paths.now list.now result }
{
    let columns = list_columns(rt, alloc, &store, &paths, &list, workers)?;
    let seen = columns.as_slice();
    Ok(levels_from(rt, alloc, seen, list.len(), least, workers, gate)?)
}

/// The groups of the instances of a list by each level of a rollup, the finest first: by the keys with the first of these paths,
/// for each count of paths from all to one, and with `with_all` by the keys alone. The list is grouped once, by all paths, and
/// each coarser level is made from these groups.
pub fn rollup_list<R: Threads + Sync, G: Gate>(
    rt: &R,
    alloc: Global,
    store: &Data,
    list: &RowList<'_>,
    keys: &[Path],
    levels: &[Path],
    with_all: bool,
    workers: u32,
    gate: &G,
) -> Result<Vec<Groups>, GroupRefused>
    requires some { 0 < workers }
    requires few { workers ≤ 64 }
    requires of { IsTrue (all_of store.now list.now) }
    ensures value { GivesFor (λ found. found.items ≡ spec.level_groups store.now keys.now levels.now with_all list.now) store.now (keys.now ++ levels.now) list.now result }
{
    let paths = all_paths(alloc, keys, levels)?;
    let paths = paths.as_slice();
    let least = least_front(keys, with_all);
    let found = levels_by(rt, alloc, store, list, paths, least, workers, gate)?;
    Ok(found)
}

/// The groups of rows by each level of a rollup, as `rollup_list` has them.
pub fn rollup<R: Threads + Sync, G: Gate>(
    rt: &R,
    alloc: Global,
    store: &Data,
    rows: &[Row],
    keys: &[Path],
    levels: &[Path],
    with_all: bool,
    workers: u32,
    gate: &G,
) -> Result<Vec<Groups>, GroupRefused>
    requires some { 0 < workers }
    requires few { workers ≤ 64 }
    requires of { IsTrue (all_of store.now rows.now) }
    ensures value { GivesFor (λ found. found.items ≡ spec.level_groups store.now keys.now levels.now with_all rows.now) store.now (keys.now ++ levels.now) rows.now result }
{
    let list = RowList::of_rows(rows);
    rollup_list(
        rt, alloc, store, &list, keys, levels, with_all, workers, gate,
    )
}
