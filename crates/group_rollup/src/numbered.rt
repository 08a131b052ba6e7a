//! Groups of the instances of lists that are told by numbers.
ghost use Rattle.std.specs.Prelude.{◌≡◌, ◌<◌, ◌≤◌, ◌++◌, IsTrue, length, map};
ghost use Rattle.context_typing.specs.Typing.{RollupPart};
ghost use Rattle.apply_meaning.specs.Meaning.{key_list, level_paths};
ghost use Rattle.apply_meaning.specs.Running.{all_of};
ghost use Rattle.numbered_groups.specs.Numbered.{AreKeyCodes};
ghost use Rattle.group_rollup.specs.Groupings.{GivesFor};
ghost use Rattle.group_rollup.specs.NumberedBy.{AreNumberedBy, AreNumberedByEach};

use crate::GroupRefused;
use crate::groupings::{all_paths, least_front};
use apply_ast::Path;
use edm_data::Data;
use numbered_groups::{NumberedGroups, number_groups, number_levels};
use par_stages::Gate;
use row_values::RowList;
use std::alloc::Global;
use std::thread::Threads;
use value_codes::Codes;

/// Numbers in place of the values of key paths on the instances of a list. They may be worked out in so many parts, each by a
/// thread of its own.
fn list_codes<R: Threads + Sync>(
    rt: &R,
    alloc: Global,
    store: &Data,
    list: &RowList<'_>,
    paths: &[Path],
    workers: u32,
) -> Result<Vec<Codes>, GroupRefused>
    requires some { 0 < workers }
    requires of { IsTrue (all_of store.now list.now) }
    ensures { GivesFor (λ codes. AreKeyCodes (map (key_list store.now paths.now) list.now) codes.items × (length codes.items ≡ length paths.now)) store.now paths.now list.now result }
{
    let (codes, beyond) = list.key_codes(rt, alloc, store, paths, workers)?;
    if beyond {
        return Err(GroupRefused::Range);
    }
    Ok(codes)
}

/// The groups of the instances of a list by key paths, told by a number for each instance. `workers` says into how many pieces the
/// list may be cut, each of which tells the gate.
pub fn numbered_list<R: Threads + Sync, G: Gate>(
    rt: &R,
    alloc: Global,
    store: &Data,
    list: &RowList<'_>,
    keys: &[Path],
    workers: u32,
    gate: &G,
) -> Result<NumberedGroups, GroupRefused>
    requires some { 0 < workers }
    requires few { workers ≤ 64 }
    requires of { IsTrue (all_of store.now list.now) }
    ensures value { GivesFor (AreNumberedBy store.now keys.now list.now) store.now keys.now list.now result }
{
    let codes = list_codes(rt, alloc, store, list, keys, workers)?;
    let codes = codes.as_slice();
    Ok(number_groups(rt, alloc, codes, list.len(), workers, gate)?)
}

/// The groups of the instances of a list by each level of a rollup, the finest first, told by numbers.
pub fn numbered_levels<R: Threads + Sync, G: Gate>(
    rt: &R,
    alloc: Global,
    store: &Data,
    list: &RowList<'_>,
    keys: &[Path],
    levels: &[Path],
    with_all: bool,
    workers: u32,
    gate: &G,
) -> Result<Vec<NumberedGroups>, GroupRefused>
    requires some { 0 < workers }
    requires few { workers ≤ 64 }
    requires of { IsTrue (all_of store.now list.now) }
    ensures value { GivesFor (λ found. AreNumberedByEach store.now (level_paths keys.now (RollupPart.Levels with_all levels.now)) list.now found.items) store.now (keys.now ++ levels.now) list.now result }
{
    let paths = all_paths(alloc, keys, levels)?;
    let codes = list_codes(rt, alloc, store, list, paths.as_slice(), workers)?;
    let codes = codes.as_slice();
    let least = least_front(keys, with_all);
    if codes.len() < least {
        return Ok(Vec::new(alloc));
    }
    Ok(number_levels(rt, alloc, codes, list.len(), least, workers, gate)?)
}
