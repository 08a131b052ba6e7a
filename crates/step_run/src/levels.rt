//! The levels of a grouping, each with its groups.
ghost use Rattle.std.specs.Prelude.{◌≡◌, ◌<◌, ◌∷◌, [], ◌++◌, Some, IfOk, IsTrue, length, map, option_map, slice_get, zip};
ghost use Rattle.apply_ast.specs.Views.{key_of, keys_from, keys_of};
ghost use Rattle.context_typing.specs.Typing.{group_keys, key_paths, plain_paths, rollup_part, rollup_paths};
ghost use Rattle.apply_meaning.specs.Meaning.{level_paths};
ghost use Rattle.apply_meaning.specs.Running.{all_of};
ghost use Rattle.group_rollup.specs.Groupings.{groups, GivesFor};
ghost use Rattle.group_rollup.specs.NumberedBy.{AreNumberedByEach};
ghost use Rattle.step_run.specs.RecursiveKeys.{are_flat_keys};
ghost use Rattle.step_run.specs.Levels.{AreKeys, GivesFlatLevels, part_of, with_node};

use crate::contexts::Context;
use aggregate_ops::{Groups, copies};
use apply_ast::{KeyItem, KeyList, Path};
use apply_meaning::RunRefused;
use edm_values::Value;
use numbered_groups::NumberedGroups;
use par_stages::Gate;
use row_values::RowList;
use std::alloc::{AllocError, Global};
use std::marker::Model;
use std::slice;
use std::thread::Threads;

/// The paths of a rollup from the coarsest level on, and whether all rows are a level too.
#[derive(Clone, Copy)]
struct Rollup<'a> {
    with_all: bool,
    paths: &'a [Path],
}

/// The keys of a grouping without a recursive rollup.
#[derive(Drop)]
pub(crate) struct LevelKeys<'a> {
    plain: Vec<Path>,
    rollup: Option<Rollup<'a>>,
}

impl<'a> Model for LevelKeys<'a> {
    ghost use Rattle.std.specs.Prelude.{option_map};
    ghost use Rattle.step_run.specs.Levels as seen;

    ghost Value = { seen.LevelKeys };

    ghost view = { λ k. record { plain = k.plain.items; rollup = option_map (λ r. (r.with_all, r.paths.now)) k.rollup } };
}

/// The plain keys.
pub(crate) fn plain_keys(alloc: Global, keys: &[KeyItem]) -> Result<Vec<Path>, AllocError>
    ensures { IfOk result (λ paths. paths.items ≡ plain_paths (keys_from (map key_of keys.now))) }
{
    let mut paths = Vec::new(alloc);
    for key in keys {
        if let KeyItem::Plain(path) = key {
            paths.push(path.copy(alloc)?)?;
        }
    }
    Ok(paths)
}

/// The first rollup among the keys.
fn first_rollup(keys: &[KeyItem]) -> Option<Rollup<'_>>
    requires { IsTrue (are_flat_keys (keys_from (map key_of keys.now))) }
    ensures { part_of (option_map (λ r. (r.with_all, r.paths.now)) result) ≡ rollup_part (group_keys (keys_from (map key_of keys.now))) }
{
    for key in keys {
        if let KeyItem::Rollup(with_all, paths) = key {
            return Some(Rollup {
                with_all: *with_all,
                paths: paths.as_slice(),
            });
        }
    }
    None
}

/// The paths of the first key that is not plain.
fn other_paths(keys: &[KeyItem]) -> &[Path]
    ensures value { result.now ≡ rollup_paths (rollup_part (group_keys (keys_from (map key_of keys.now)))) }
{
    for key in keys {
        match key {
            KeyItem::Plain(_) => {}
            KeyItem::Rollup(_, paths) => return paths.as_slice(),
            KeyItem::Recursive(_, path, _) => return slice::from_ref(path),
        }
    }
    &[]
}

/// The paths of all keys, the plain ones first. The levels of a grouping borrow them.
pub fn all_paths(alloc: Global, keys: &KeyList) -> Result<Vec<Path>, AllocError>
    ensures value { IfOk result (λ paths. paths.items ≡ key_paths (group_keys (keys_of keys.now))) }
{
    let items = keys.as_slice();
    let others = other_paths(items);
    let mut paths = plain_keys(alloc, items)?;
    for path in others {
        paths.push(path.copy(alloc)?)?;
    }
    Ok(paths)
}

/// The keys of a grouping, taken apart.
pub(crate) fn taken_apart(alloc: Global, keys: &KeyList) -> Result<LevelKeys<'_>, AllocError>
    requires { IsTrue (are_flat_keys (keys_of keys.now)) }
    ensures { IfOk result (AreKeys (keys_of keys.now)) }
{
    Ok(LevelKeys {
        plain: plain_keys(alloc, keys.as_slice())?,
        rollup: first_rollup(keys.as_slice()),
    })
}

/// A list of one element.
fn alone(alloc: Global, groups: Groups) -> Result<Vec<Groups>, AllocError>
    ensures { IfOk result (λ all. all.items ≡ groups ∷ []) }
{
    let mut all = Vec::new(alloc);
    all.push(groups)?;
    Ok(all)
}

/// The same of groups that are told by numbers.
fn alone_numbered(alloc: Global, groups: NumberedGroups) -> Result<Vec<NumberedGroups>, AllocError>
    ensures { IfOk result (λ all. all.items ≡ groups ∷ []) }
{
    let mut all = Vec::new(alloc);
    all.push(groups)?;
    Ok(all)
}

/// The groups of a list by each level of the keys, the finest first.
fn level_groups<R: Threads + Sync, G: Gate>(
    alloc: Global,
    context: &Context<'_, R, G>,
    keys: &LevelKeys<'_>,
    rows: &RowList<'_>,
) -> Result<Vec<Groups>, RunRefused>
    requires { IsTrue (all_of context.now.world rows.now) }
    ensures { let part = part_of keys.now.rollup in
        GivesFor (λ found. found.items ≡ map (λ level. groups context.now.world level rows.now) (level_paths keys.now.plain part)) context.now.world (keys.now.plain ++ rollup_paths part) rows.now result }
{
    let plain = keys.plain.as_slice();
    match keys.rollup {
        Some(rollup) => context.rollup(alloc, rows, plain, rollup.paths, rollup.with_all),
        None => Ok(alone(alloc, context.group(alloc, rows, plain)?)?),
    }
}

/// The same groups, told by numbers.
pub(crate) fn numbered_groups<R: Threads + Sync, G: Gate>(
    alloc: Global,
    context: &Context<'_, R, G>,
    keys: &LevelKeys<'_>,
    rows: &RowList<'_>,
) -> Result<Vec<NumberedGroups>, RunRefused>
    requires { IsTrue (all_of context.now.world rows.now) }
    ensures { let part = part_of keys.now.rollup in
        GivesFor (λ found. AreNumberedByEach context.now.world (level_paths keys.now.plain part) rows.now found.items) context.now.world (keys.now.plain ++ rollup_paths part) rows.now result }
{
    let plain = keys.plain.as_slice();
    match keys.rollup {
        Some(rollup) => {
            context.numbered_levels(alloc, rows, plain, rollup.paths, rollup.with_all)
        }
        None => Ok(alone_numbered(alloc, context.numbered(alloc, rows, plain)?)?),
    }
}

/// The paths of level k, the finest being level 0: all paths of the keys but the last k.
pub(crate) fn paths_at<'a>(keys: &LevelKeys<'_>, paths: &'a [Path], k: usize) -> &'a [Path]
    requires within { k < length (level_paths keys.now.plain (part_of keys.now.rollup)) }
    requires all { paths.now ≡ keys.now.plain ++ rollup_paths (part_of keys.now.rollup) }
    ensures value { Some result.now ≡ slice_get (level_paths keys.now.plain (part_of keys.now.rollup)) k }
{
    match keys.rollup {
        Some(_) => &paths[..paths.len() - k],
        None => paths,
    }
}

/// A level of a grouping: its paths, and the groups by them. The key of each group of a recursive rollup ends with the
/// identifier of the node.
#[derive(Drop)]
pub struct Level<'a> {
    paths: &'a [Path],
    groups: Groups,
    node: Option<Value>,
}

impl<'a> Model for Level<'a> {
    ghost use Rattle.step_run.specs.Levels as seen;
    ghost use Rattle.step_run.specs.Levels.{with_node};

    ghost Value = { seen.Level };

    ghost view = { λ l. (l.paths.now, with_node l.node l.groups) };
}

impl<'a> Level<'a> {
    /// The level of a recursive rollup that has the groups of the rows at a node or below it.
    pub(crate) fn of_node(paths: &'a [Path], groups: Groups, node: Value) -> Level<'a>
        ensures { result ≡ (paths.now, with_node (Some node) groups) }
    {
        Level {
            paths,
            groups,
            node: Some(node),
        }
    }

    /// The paths.
    pub fn paths(&self) -> &'a [Path]
        ensures value { result.now ≡ self.now.0 }
    {
        self.paths
    }

    /// How many groups there are.
    pub fn len(&self) -> usize
        ensures value { result ≡ length self.now.1 }
    {
        self.groups.len()
    }

    /// The key of group k, counted from 0.
    pub fn key(&self, alloc: Global, k: usize) -> Result<Vec<Value>, AllocError>
        requires within { k < length self.now.1 }
        ensures value { IfOk result (λ key. Some key.items ≡ option_map (λ g. g.0) (slice_get self.now.1 k)) }
    {
        let mut key = copies(alloc, self.groups.key(k))?;
        if let Some(node) = &self.node {
            key.push(node.seen().own(alloc)?)?;
        }
        Ok(key)
    }

    /// The places of group k, counted from 0.
    pub fn places(&self, k: usize) -> &[usize]
        requires within { k < length self.now.1 }
        ensures value { Some result.now ≡ option_map (λ g. g.1) (slice_get self.now.1 k) }
    {
        self.groups.places(k)
    }
}

/// The groups of each level with its paths.
fn with_paths<'a>(
    alloc: Global,
    keys: &LevelKeys<'_>,
    paths: &'a [Path],
    found: Vec<Groups>,
) -> Result<Vec<Level<'a>>, AllocError>
    requires one { length found.items ≡ length (level_paths keys.now.plain (part_of keys.now.rollup)) }
    requires all { paths.now ≡ keys.now.plain ++ rollup_paths (part_of keys.now.rollup) }
    ensures { IfOk result (λ levels. levels.items ≡ zip (level_paths keys.now.plain (part_of keys.now.rollup)) found.items) }
{
    let mut levels = Vec::with_capacity(alloc, found.len())?;
    for groups in found {
        let paths = paths_at(keys, paths, levels.len());
        levels.push(Level {
            paths,
            groups,
            node: None,
        })?;
    }
    Ok(levels)
}

/// The levels of a grouping without a recursive rollup on a list, the finest first, each with its groups. They borrow the paths of
/// the keys.
pub fn levels_of<'a, R: Threads + Sync, G: Gate>(
    alloc: Global,
    context: &Context<'_, R, G>,
    keys: &KeyList,
    paths: &'a [Path],
    rows: &RowList<'_>,
) -> Result<Vec<Level<'a>>, RunRefused>
    requires flat { IsTrue (are_flat_keys (keys_of keys.now)) }
    requires all { paths.now ≡ key_paths (group_keys (keys_of keys.now)) }
    requires of { IsTrue (all_of context.now.world rows.now) }
    ensures levels { GivesFlatLevels result context.now.world (keys_of keys.now) rows.now }
{
    let keys = taken_apart(alloc, keys)?;
    let found = level_groups(alloc, context, &keys, rows)?;
    Ok(with_paths(alloc, &keys, paths, found)?)
}
