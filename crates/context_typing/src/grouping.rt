//! The typing of a grouping's keys, and the shape after a grouping (Data Aggregation 4.0, sections 3.2.3 and 6.3).
ghost use Rattle.std.specs.Prelude.{◌≡◌, ◌∷◌, false, not, map, option_map, IfOk, IsTrue};
ghost use Rattle.std.specs.List.{list_any};
ghost use Rattle.edm_values.specs.Lists.{all_some, is_nonempty};
ghost use Rattle.apply_ast.specs.Views.{key_of, keys_from};
ghost use Rattle.context_typing.specs.Grouping as group;
ghost use Rattle.context_typing.specs.ShapeTypes.{has_types};
ghost use Rattle.context_typing.specs.Typing as spec;

use crate::columns::{ColumnList, ColumnShape};
use crate::items::with_more;
use crate::lookups::{is_declared, is_risky, path_kind};
use crate::shapes::Shape;
use apply_ast::{KeyItem, Name, Path, PathList};
use edm_model::Model;
use std::alloc::{AllocError, Global};

/// The column of a key, where its path has a typing.
fn key_column(
    alloc: Global,
    m: &Model,
    shape: &Shape,
    absent: bool,
    path: &Path,
) -> Result<Option<ColumnShape>, AllocError>
    requires { IsTrue (has_types m.now shape.now) }
    ensures { IfOk result (λ o. o ≡ group.typed_key m.now shape.now absent path.now) }
{
    match path_kind(m, shape, path) {
        Some(kind) => Ok(Some(ColumnShape {
            path: path.copy(alloc)?,
            kind,
            declared: is_declared(m, shape, path),
            absent,
            risky: is_risky(shape, path),
        })),
        None => Ok(None),
    }
}

/// The columns of these paths, where each has a typing.
pub(crate) fn path_columns(
    alloc: Global,
    m: &Model,
    shape: &Shape,
    absent: bool,
    paths: &[Path],
) -> Result<Option<Vec<ColumnShape>>, AllocError>
    requires { IsTrue (has_types m.now shape.now) }
    ensures { IfOk result (λ o. option_map (λ v. v.items) o ≡ all_some (map (group.typed_key m.now shape.now absent) paths.now)) }
{
    let mut columns = Vec::new(alloc);
    for path in paths {
        match key_column(alloc, m, shape, absent, path)? {
            Some(column) => columns.push(column)?,
            None => return Ok(None),
        }
    }
    Ok(Some(columns))
}

/// The columns of the plain keys, where each has a typing.
fn plain_columns(
    alloc: Global,
    m: &Model,
    shape: &Shape,
    keys: &[KeyItem],
) -> Result<Option<Vec<ColumnShape>>, AllocError>
    requires { IsTrue (has_types m.now shape.now) }
    ensures { IfOk result (λ o. option_map (λ v. v.items) o ≡ all_some (map (group.typed_key m.now shape.now false) (spec.plain_paths (keys_from (map key_of keys.now))))) }
{
    let mut columns = Vec::new(alloc);
    for key in keys {
        match key {
            KeyItem::Plain(path) => match key_column(alloc, m, shape, false, path)? {
                Some(column) => columns.push(column)?,
                None => return Ok(None),
            },
            KeyItem::Rollup(_, _) => {}
            KeyItem::Recursive(_, _, _) => {}
        }
    }
    Ok(Some(columns))
}

/// Whether a key is no plain path.
fn is_rollup(key: &KeyItem) -> bool
    ensures { result ≡ group.is_rollup_key (key_of key.now) }
{
    match key {
        KeyItem::Plain(_) => false,
        KeyItem::Rollup(_, _) => true,
        KeyItem::Recursive(_, _, _) => true,
    }
}

/// The first key that is no plain path, with the keys behind it.
fn first_rollup(keys: &[KeyItem]) -> Option<(&KeyItem, &[KeyItem])>
    ensures { group.IsFirstRollup (map key_of keys.now) (option_map (λ x. (key_of x.0.now, map key_of x.1.now)) result) }
{
    for (i, key) in keys.iter().enumerate() {
        if is_rollup(key) {
            return Some((key, &keys[i + 1..]));
        }
    }
    None
}

/// The columns of the levels of a rollup, where each path has a typing.
fn level_columns(
    alloc: Global,
    m: &Model,
    shape: &Shape,
    all: bool,
    paths: &PathList,
) -> Result<Option<Vec<ColumnShape>>, AllocError>
    requires { IsTrue (has_types m.now shape.now) }
    ensures { IfOk result (λ o. option_map (λ v. v.items) o ≡ group.level_columns m.now shape.now all paths.now) }
{
    match paths.as_slice().split_first() {
        None => Ok(Some(Vec::new(alloc))),
        Some((first, rest)) => first_and_rest(alloc, m, shape, all, first, rest),
    }
}

/// The columns of a first path and of later ones, where each has a typing.
fn first_and_rest(
    alloc: Global,
    m: &Model,
    shape: &Shape,
    all: bool,
    first: &Path,
    rest: &[Path],
) -> Result<Option<Vec<ColumnShape>>, AllocError>
    requires { IsTrue (has_types m.now shape.now) }
    ensures { IfOk result (λ o. option_map (λ v. v.items) o ≡ group.level_columns m.now shape.now all (first.now ∷ rest.now)) }
{
    let column = match key_column(alloc, m, shape, all, first)? {
        Some(column) => column,
        None => return Ok(None),
    };
    match path_columns(alloc, m, shape, true, rest)? {
        Some(more) => {
            let mut columns = Vec::new(alloc);
            let mut more = more;
            columns.push(column)?;
            columns.append(&mut more)?;
            Ok(Some(columns))
        }
        None => Ok(None),
    }
}

/// The column of a recursive rollup, where its path has a typing: a node is never past its range.
fn node_columns(
    alloc: Global,
    m: &Model,
    shape: &Shape,
    path: &Path,
) -> Result<Option<Vec<ColumnShape>>, AllocError>
    requires { IsTrue (has_types m.now shape.now) }
    ensures { IfOk result (λ o. option_map (λ v. v.items) o ≡ group.node_columns m.now shape.now path.now) }
{
    match key_column(alloc, m, shape, false, path)? {
        Some(column) => {
            let mut columns = Vec::new(alloc);
            columns.push(ColumnShape {
                path: column.path,
                kind: column.kind,
                declared: column.declared,
                absent: column.absent,
                risky: false,
            })?;
            Ok(Some(columns))
        }
        None => Ok(None),
    }
}

/// The columns of a key that is no plain path, where its paths have a typing.
fn rollup_columns(
    alloc: Global,
    m: &Model,
    shape: &Shape,
    key: &KeyItem,
) -> Result<Option<Vec<ColumnShape>>, AllocError>
    requires { IsTrue (has_types m.now shape.now) }
    ensures { IfOk result (λ o. option_map (λ v. v.items) o ≡ group.rollup_key_columns m.now shape.now (key_of key.now)) }
{
    match key {
        KeyItem::Plain(_) => Ok(Some(Vec::new(alloc))),
        KeyItem::Rollup(all, paths) => level_columns(alloc, m, shape, *all, paths),
        KeyItem::Recursive(_, path, _) => node_columns(alloc, m, shape, path),
    }
}

/// The columns of all keys, where each path has a typing and at most one key is no plain path.
fn key_columns(
    alloc: Global,
    m: &Model,
    shape: &Shape,
    keys: &[KeyItem],
) -> Result<Option<ColumnList>, AllocError>
    requires { IsTrue (has_types m.now shape.now) }
    ensures { IfOk result (λ o. o ≡ group.typed_columns m.now shape.now (spec.group_keys (keys_from (map key_of keys.now)))) }
{
    let plain = match plain_columns(alloc, m, shape, keys)? {
        Some(columns) => ColumnList::empty(alloc).with_all(columns)?,
        None => return Ok(None),
    };
    match first_rollup(keys) {
        Some((key, rest)) => {
            if first_rollup(rest).is_some() {
                return Ok(None);
            }
            match rollup_columns(alloc, m, shape, key)? {
                Some(columns) => Ok(Some(plain.with_all(columns)?)),
                None => Ok(None),
            }
        }
        None => Ok(Some(plain)),
    }
}

/// Whether a key is a recursive rollup.
fn is_recursive(key: &KeyItem) -> bool
    ensures { result ≡ group.is_recursive_key (key_of key.now) }
{
    match key {
        KeyItem::Plain(_) => false,
        KeyItem::Rollup(_, _) => false,
        KeyItem::Recursive(_, _, _) => true,
    }
}

/// Whether the first key that is no plain path is a recursive rollup.
fn has_recursive(keys: &[KeyItem]) -> bool
    ensures { result ≡ spec.is_nodes (spec.rollup_part (spec.group_keys (keys_from (map key_of keys.now)))) }
{
    match first_rollup(keys) {
        Some((key, _)) => is_recursive(key),
        None => false,
    }
}

/// Whether a path is that of a key, leads to one or lies behind one.
fn overlaps(keys: &ColumnList, path: &[Name]) -> bool
    ensures { result ≡ spec.overlaps (map (λ c. c.path) keys.now) path.now }
{
    keys.any_begins_with(path) || keys.any_is_prefix_of(path)
}

/// Whether a column of the shape overlaps a key.
fn column_overlaps(keys: &ColumnList, shape: &Shape) -> bool
    ensures { result ≡ list_any (λ c. spec.overlaps (map (λ c. c.path) keys.now) c.path) shape.now.columns }
{
    shape
        .columns
        .as_slice()
        .iter()
        .any(|column| overlaps(keys, column.path.names()))
}

/// Whether a prefix of the shape overlaps a key.
fn prefix_overlaps(keys: &ColumnList, shape: &Shape) -> bool
    ensures { result ≡ list_any (λ x. spec.overlaps (map (λ c. c.path) keys.now) x.path) shape.now.prefixes }
{
    shape
        .prefixes
        .as_slice()
        .iter()
        .any(|prefix| overlaps(keys, prefix.path.names()))
}

/// Whether the shape has no prefix, the empty one included.
fn has_no_prefix(shape: &Shape) -> bool
    ensures { result ≡ not (is_nonempty (spec.all_prefixes shape.now)) }
{
    match shape.root {
        Some(_) => false,
        None => shape.prefixes.as_slice().is_empty(),
    }
}

/// Whether the columns of keys may stand beside what each group becomes.
fn may_stand(keys: &[KeyItem], columns: &ColumnList, inner: &Shape) -> bool
    ensures { result ≡ group.may_stand (spec.group_keys (keys_from (map key_of keys.now))) columns.now inner.now }
{
    let differ = !columns.as_slice().is_empty() && columns.differ();
    let apart = !column_overlaps(columns, inner) && !prefix_overlaps(columns, inner);
    differ && apart && (!has_recursive(keys) || has_no_prefix(inner))
}

/// The shape after a grouping: that of what each group becomes, with the key columns.
pub fn grouped_shape(
    alloc: Global,
    m: &Model,
    shape: &Shape,
    keys: &[KeyItem],
    inner: Shape,
) -> Result<Option<Shape>, AllocError>
    requires { IsTrue (has_types m.now shape.now) }
    ensures value { IfOk result (λ o. o ≡ spec.grouped_shape m.now shape.now (spec.group_keys (keys_from (map key_of keys.now))) inner) }
{
    match key_columns(alloc, m, shape, keys)? {
        Some(columns) => {
            if may_stand(keys, &columns, &inner) {
                Ok(Some(with_more(inner, columns)?))
            } else {
                Ok(None)
            }
        }
        None => Ok(None),
    }
}
