//! The keys of groupings.
ghost use Rattle.std.specs.Prelude.{◌≡◌, ◌∷◌, [], ◌++◌, IfOk, OnOk, map, option_map, option_to_list};
ghost use Rattle.std.specs.List.{list_any};
ghost use Rattle.apply_ast.specs.Views.{hier_of, inner_of, key_of, keys_from, pipe_of};
ghost use Rattle.context_typing.specs.Grouping as group;
ghost use Rattle.context_typing.specs.Typing as typing;
ghost use Rattle.rewrite_forms.specs.GroupForms as spec;
ghost use Rattle.rewrite_laws.specs.Rewrites as rule;

use apply_ast::{HierName, KeyItem, Path, Pipe};
use context_typing::{Shape, is_risky};
use std::alloc::{AllocError, Global};

/// Whether a key is no plain path.
fn is_rollup(key: &KeyItem) -> bool
    ensures { result ≡ group.is_rollup_key (key_of key.now) }
{
    match key {
        KeyItem::Plain(_) => false,
        KeyItem::Rollup(_, _) => true,
        KeyItem::Recursive(_, _, _) => true,
    }
}

/// The first key that is no plain path.
pub fn first_rollup(keys: &[KeyItem]) -> Option<&KeyItem>
    ensures value { option_map (λ k. key_of k.now) result ≡ spec.first_rollup (map key_of keys.now) }
{
    for key in keys {
        if is_rollup(key) {
            return Some(key);
        }
    }
    None
}

/// The hierarchy, the path and the pipeline of a recursive rollup.
fn recursive(key: &KeyItem) -> Option<(&HierName, &Path, &Option<Pipe>)>
    ensures { option_map (λ x. (hier_of x.0.now, (x.1.now, inner_of (option_map pipe_of x.2.now)))) result ≡ spec.recursive (key_of key.now) }
{
    match key {
        KeyItem::Plain(_) => None,
        KeyItem::Rollup(_, _) => None,
        KeyItem::Recursive(hier, path, chosen) => Some((hier, path, chosen)),
    }
}

/// The same of the first key that is no plain path.
pub fn recursive_key(keys: &[KeyItem]) -> Option<(&HierName, &Path, &Option<Pipe>)>
    ensures value { option_map (λ x. (hier_of x.0.now, (x.1.now, inner_of (option_map pipe_of x.2.now)))) result ≡ spec.recursive_key (map key_of keys.now) }
{
    match first_rollup(keys) {
        Some(key) => recursive(key),
        None => None,
    }
}

// ---- keys that may be past their range

/// Whether a key is a plain path of a column that may be past its range.
fn is_plain_risky(shape: &Shape, key: &KeyItem) -> bool
    ensures { result ≡ spec.is_plain_risky shape.now (key_of key.now) }
{
    match key {
        KeyItem::Plain(path) => is_risky(shape, path),
        KeyItem::Rollup(_, _) => false,
        KeyItem::Recursive(_, _, _) => false,
    }
}

/// Whether one of the keys is such a plain path.
fn any_plain_risky(shape: &Shape, keys: &[KeyItem]) -> bool
    ensures { result ≡ list_any (λ k. spec.is_plain_risky shape.now (key_of k)) keys.now }
{
    keys.iter().any(|key| is_plain_risky(shape, key))
}

/// Whether a path is that of a column that may be past its range.
fn one_risky(shape: &Shape, paths: &[Path]) -> bool
    ensures { result ≡ list_any (typing.is_risky shape.now) paths.now }
{
    paths.iter().any(|path| is_risky(shape, path))
}

/// Whether a path of a key that is no plain path is that of such a column.
fn is_rollup_risky(shape: &Shape, key: &KeyItem) -> bool
    ensures { result ≡ list_any (typing.is_risky shape.now) (typing.rollup_paths (spec.key_part (key_of key.now))) }
{
    match key {
        KeyItem::Plain(_) => false,
        KeyItem::Rollup(_, paths) => one_risky(shape, paths.as_slice()),
        KeyItem::Recursive(_, path, _) => is_risky(shape, path),
    }
}

/// Whether a path of the keys is that of a column that may be past its range.
pub fn any_risky(shape: &Shape, keys: &[KeyItem]) -> bool
    ensures value { result ≡ list_any (typing.is_risky shape.now) (typing.key_paths (typing.group_keys (keys_from (map key_of keys.now)))) }
{
    if any_plain_risky(shape, keys) {
        return true;
    }
    match first_rollup(keys) {
        Some(key) => is_rollup_risky(shape, key),
        None => false,
    }
}

// ---- lists of paths

/// The list of a copy of this path alone.
pub fn only(alloc: Global, path: &Path) -> Result<Vec<Path>, AllocError>
    ensures value { IfOk result (λ v. v.items ≡ path.now ∷ []) }
{
    let mut paths = Vec::new(alloc);
    paths.push(path.copy(alloc)?)?;
    Ok(paths)
}

/// Puts a copy of a plain key at the end of a list.
fn put_plain(out: &mut Vec<Path>, alloc: Global, key: &KeyItem) -> Result<(), AllocError>
    ensures { OnOk result (out.new.items ≡ out.old.items ++ group.plain_of (key_of key.now)) }
{
    match key {
        KeyItem::Plain(path) => {
            out.push(path.copy(alloc)?)?;
            Ok(())
        }
        KeyItem::Rollup(_, _) => Ok(()),
        KeyItem::Recursive(_, _, _) => Ok(()),
    }
}

/// Copies of the plain keys.
fn plain_paths(alloc: Global, keys: &[KeyItem]) -> Result<Vec<Path>, AllocError>
    ensures { IfOk result (λ v. v.items ≡ typing.plain_paths (keys_from (map key_of keys.now))) }
{
    let mut paths = Vec::new(alloc);
    for key in keys {
        put_plain(&mut paths, alloc, key)?;
    }
    Ok(paths)
}

/// The first path of a rollup that has no level for all.
fn first_level(key: &KeyItem) -> Option<&Path>
    ensures { option_to_list (option_map (λ p. p.now) result) ≡ rule.rollup_keys_in_every_row (spec.key_part (key_of key.now)) }
{
    match key {
        KeyItem::Plain(_) => None,
        KeyItem::Rollup(all, paths) => {
            if *all {
                return None;
            }
            paths.as_slice().first()
        }
        KeyItem::Recursive(_, _, _) => None,
    }
}

/// The key beside plain ones that stands in every row of a grouping.
fn rollup_in_every_row(keys: &[KeyItem]) -> Option<&Path>
    ensures { option_to_list (option_map (λ p. p.now) result) ≡ rule.rollup_keys_in_every_row (typing.rollup_part (typing.group_keys (keys_from (map key_of keys.now)))) }
{
    match first_rollup(keys) {
        Some(key) => first_level(key),
        None => None,
    }
}

/// Copies of the keys that stand in every row of a grouping.
pub fn in_every_row(alloc: Global, keys: &[KeyItem]) -> Result<Vec<Path>, AllocError>
    ensures value { IfOk result (λ v. v.items ≡ spec.in_every_row (keys_from (map key_of keys.now))) }
{
    let mut paths = plain_paths(alloc, keys)?;
    match rollup_in_every_row(keys) {
        Some(path) => {
            paths.push(path.copy(alloc)?)?;
            Ok(paths)
        }
        None => Ok(paths),
    }
}
