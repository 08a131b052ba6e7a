//! Numbers in place of the values of key paths on a list.
ghost use Rattle.std.specs.Prelude.{◌≡◌, ◌<◌, IfOk, IfSome, IsTrue, false, flat_map, length, map};
ghost use Rattle.std.specs.List.{list_any};
ghost use Rattle.edm_values.specs.Values.{is_beyond, seen_value};
ghost use Rattle.apply_meaning.specs.Meaning as spec;
ghost use Rattle.apply_meaning.specs.Running.{all_of};
ghost use Rattle.value_codes.specs.Codes.{AreCodes};
ghost use Rattle.numbered_groups.specs.Numbered.{AreKeyCodes};
ghost use Rattle.row_frames.specs.Keys.{key_column};

use crate::lists::RowList;
use apply_ast::{Expr, Path};
use edm_data::Data;
use edm_values::Seen;
use numbered_groups::seen_codes;
use std::alloc::{AllocError, Global};
use std::thread::Threads;
use value_codes::Codes;

/// Whether one of the values is past its range.
pub(crate) fn has_beyond(values: &[Seen<'_>]) -> bool
    ensures { result ≡ list_any is_beyond (map seen_value values.now) }
{
    for value in values {
        if value.is_beyond() {
            return true;
        }
    }
    false
}

/// The numbers of the values of a path on the instances of a list, and whether one of these is past its range.
fn path_codes<R: Threads + Sync>(
    rt: &R,
    alloc: Global,
    store: &Data,
    list: &RowList<'_>,
    path: &Path,
    workers: u32,
) -> Result<(Codes, bool), AllocError>
    requires some { 0 < workers }
    requires of { IsTrue (all_of store.now list.now) }
    ensures codes { IfOk result (λ r. AreCodes (key_column store.now list.now path.now) r.0) }
    ensures beyond { IfOk result (λ r. r.1 ≡ list_any is_beyond (key_column store.now list.now path.now)) }
{
    if let Some(codes) = list.codes(rt, alloc, store, path, workers)? {
        return Ok((codes, false));
    }
    let e = Expr::Path(path.copy(alloc)?);
    let seen = list.seen_values(rt, alloc, store, &e, workers)?;
    let seen = seen.as_slice();
    if let Some(codes) = Codes::of_seen(alloc, seen)? {
        return Ok((codes, false));
    }
    let codes = seen_codes(rt, alloc, seen, workers)?;
    Ok((codes, has_beyond(seen)))
}

/// The numbers of the values of each path on the instances of a list, and whether one of these is past its range.
pub(crate) fn key_codes<R: Threads + Sync>(
    rt: &R,
    alloc: Global,
    store: &Data,
    list: &RowList<'_>,
    paths: &[Path],
    workers: u32,
) -> Result<(Vec<Codes>, bool), AllocError>
    requires some { 0 < workers }
    requires of { IsTrue (all_of store.now list.now) }
    ensures codes { IfOk result (λ r. AreKeyCodes (map (spec.key_list store.now paths.now) list.now) r.0.items) }
    ensures count { IfOk result (λ r. length r.0.items ≡ length paths.now) }
    ensures beyond { IfOk result (λ r. r.1 ≡ list_any is_beyond (flat_map (key_column store.now list.now) paths.now)) }
{
    let mut found = Vec::with_capacity(alloc, paths.len())?;
    let mut beyond = false;
    for path in paths {
        let (codes, past) = path_codes(rt, alloc, store, list, path, workers)?;
        found.push(codes)?;
        if past {
            beyond = true;
        }
    }
    Ok((found, beyond))
}
