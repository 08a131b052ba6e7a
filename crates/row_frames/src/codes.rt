//! Numbers in place of the values of a path in the rows that are picked.
ghost use Rattle.std.specs.Prelude.{◌≡◌, ◌<◌, ◌+◌, IfOk, IfSome, IsTrue, false, length};
ghost use Rattle.std.specs.List.{All, AllZip, list_any};
ghost use Rattle.edm_values.specs.Values.{is_beyond};
ghost use Rattle.apply_meaning.specs.Running.{all_of};
ghost use Rattle.row_frames.specs.CodeParts.{MadeCodes};
ghost use Rattle.row_frames.specs.Frames as spec;
ghost use Rattle.row_frames.specs.Keys.{key_column};
ghost use Rattle.row_frames.specs.Runs.{part_rows};
ghost use Rattle.row_frames.specs.LinkCodes.{IsLinkCode};
ghost use Rattle.value_codes.specs.Above.{AreCoded};
ghost use Rattle.value_codes.specs.Codes.{AreCodes};

use crate::code_parts::joined_codes;
use crate::own::property_of;
use crate::parts::{is_one_part, part_len, parts_of};
use crate::picks::{Part, Picks, picked_root};
use crate::readers::bind_path;
use crate::references::reference;
use crate::tables::{Pick, Table};
use crate::text_codes::leaf_codes;
use apply_ast::Path;
use apply_meaning::data_is_loaded;
use edm_data::{Data, LinkedPlaces};
use rayon::prelude::*;
use std::alloc::{AllocError, Global};
use std::thread::Threads;
use value_codes::Codes;

/// The number of what the entity of a row that is picked refers to, which is one of so many.
fn link_code(tables: &[Table], links: &LinkedPlaces<'_>, count: u32, pick: &Pick) -> Option<u32>
    requires tables { All spec.IsTable tables.now }
    requires within { pick.now.table < length tables.now }
    ensures code { IfSome result (IsLinkCode tables.now links.now pick.now) }
    ensures below { IfSome result (λ c. c < count + 1) }
{
    let root = picked_root(tables, *pick)?;
    match links.at(root.at) {
        Some(at) if at < count => Some(at + 1),
        Some(_) => None,
        None => Some(0),
    }
}

/// The number of what the entity of each row of a part refers to, which is one of so many.
fn part_link_codes(
    alloc: Global,
    tables: &[Table],
    part: &Part<'_>,
    links: &LinkedPlaces<'_>,
    count: u32,
) -> Result<Option<Vec<u32>>, AllocError>
    requires tables { All spec.IsTable tables.now }
    requires within { All (λ x. x.table < length tables.now) (part_rows part.now) }
    ensures { MadeCodes (IsLinkCode tables.now links.now) (count + 1) (part_rows part.now) result }
{
    let mut codes = Vec::with_capacity(alloc, part.len())?;
    for k in 0..part.len() {
        match link_code(tables, links, count, &part.at(k)) {
            Some(code) => codes.push(code)?,
            None => return Ok(None),
        }
    }
    Ok(Some(codes))
}

/// The same of each part.
fn parts_link_codes<R: Threads + Sync>(
    rt: &R,
    alloc: Global,
    tables: &[Table],
    parts: &[Part<'_>],
    links: &LinkedPlaces<'_>,
    count: u32,
) -> Result<Vec<Result<Option<Vec<u32>>, AllocError>>, AllocError>
    requires { All spec.IsTable tables.now × All (λ p. All (λ x. x.table < length tables.now) (part_rows p)) parts.now }
    ensures { IfOk result (λ rs. AllZip (λ p r. MadeCodes (IsLinkCode tables.now links.now) (count + 1) (part_rows p) r) parts.now rs.items) }
{
    parts
        .par_iter()
        .with_min_len(1)
        .map(
            |part: &Part<'_>| -> Result<Option<Vec<u32>>, AllocError>
                requires { All spec.IsTable tables.now × All (λ x. x.table < length tables.now) (part_rows part.now) }
                ensures { MadeCodes (IsLinkCode tables.entry.now links.entry.now) (count + 1) (part_rows part.now) result }
            { part_link_codes(alloc, tables, part, links, count) },
        )
        .collect(rt, alloc)
}

/// The number of what the entity of each row that is picked refers to. The rows may be cut into so many parts, each for a thread of
/// its own.
fn all_link_codes<R: Threads + Sync>(
    rt: &R,
    alloc: Global,
    tables: &[Table],
    picks: &Picks,
    links: &LinkedPlaces<'_>,
    count: u32,
    workers: u32,
) -> Result<Option<Vec<u32>>, AllocError>
    requires tables { All spec.IsTable tables.now }
    requires within { All (λ x. x.table < length tables.now) picks.now }
    ensures { MadeCodes (IsLinkCode tables.now links.now) (count + 1) picks.now result }
{
    let n = picks.len();
    if is_one_part(n, workers) {
        return part_link_codes(alloc, tables, &picks.as_part(), links, count);
    }
    let parts = parts_of(alloc, picks, part_len(n, workers))?;
    let found = parts_link_codes(rt, alloc, tables, parts.as_slice(), links, count)?;
    joined_codes(alloc, n, found)
}

/// The number of what the entity of each row that is picked refers to, which is one of so many.
fn link_codes<R: Threads + Sync>(
    rt: &R,
    alloc: Global,
    tables: &[Table],
    picks: &Picks,
    links: &LinkedPlaces<'_>,
    count: u32,
    workers: u32,
) -> Result<Option<Codes>, AllocError>
    requires tables { All spec.IsTable tables.now }
    requires within { All (λ x. x.table < length tables.now) picks.now }
    ensures { IfOk result (λ o. IfSome o (λ c. AreCoded (IsLinkCode tables.now links.now) picks.now c.codes)) }
{
    let found = all_link_codes(rt, alloc, tables, picks, links, count, workers)?;
    match found {
        Some(codes) => Ok(Some(Codes::new(codes, count as usize + 1))),
        None => Ok(None),
    }
}

/// The numbers of the values of a path in the rows that are picked, where it is a property of the entities of one set by which these
/// refer to others: they are those of what the entities refer to.
fn reference_codes<R: Threads + Sync>(
    rt: &R,
    alloc: Global,
    store: &Data,
    tables: &[Table],
    picks: &Picks,
    path: &Path,
    workers: u32,
) -> Result<Option<Codes>, AllocError>
    requires tables { All spec.IsTable tables.now }
    requires within { All (λ x. x.table < length tables.now) picks.now }
    ensures value { IfOk result (λ o. IfSome o (AreCodes (key_column store.now (spec.all_picked tables.now picks.now) path.now))) }
    ensures within { IfOk result (λ o. IfSome o (λ _. list_any is_beyond (key_column store.now (spec.all_picked tables.now picks.now) path.now) ≡ false)) }
{
    let Some((set, p)) = property_of(store, tables, path) else {
        return Ok(None);
    };
    data_is_loaded(store);
    let Some((nav, count)) = reference(store, set, p) else {
        return Ok(None);
    };
    let links = store.linked_places(set, nav);
    link_codes(rt, alloc, tables, picks, &links, count, workers)
}

/// The numbers of the values of a path in the rows that are picked, where all are of one table and these are texts that are kept once
/// each.
fn table_codes<R: Threads + Sync>(
    rt: &R,
    alloc: Global,
    store: &Data,
    tables: &[Table],
    picks: &Picks,
    path: &Path,
    workers: u32,
) -> Result<Option<Codes>, AllocError>
    requires within { All (λ x. x.table < length tables.now) picks.now }
    ensures value { IfOk result (λ o. IfSome o (AreCodes (key_column store.now (spec.all_picked tables.now picks.now) path.now))) }
    ensures within { IfOk result (λ o. IfSome o (λ _. list_any is_beyond (key_column store.now (spec.all_picked tables.now picks.now) path.now) ≡ false)) }
{
    if tables.len() != 1 {
        return Ok(None);
    }
    let table = &tables[0];
    let leaf = bind_path(alloc, store, table, path)?;
    leaf_codes(rt, alloc, table, picks, &leaf, workers)
}

/// The numbers of the values of a path in the rows that are picked, where it is a property by which entities refer to others, or one of
/// texts that are kept once each.
pub(crate) fn codes_of<R: Threads + Sync>(
    rt: &R,
    alloc: Global,
    store: &Data,
    tables: &[Table],
    picks: &Picks,
    path: &Path,
    workers: u32,
) -> Result<Option<Codes>, AllocError>
    requires some { 0 < workers }
    requires tables { All spec.IsTable tables.now }
    requires within { All (λ x. x.table < length tables.now) picks.now }
    requires of { IsTrue (all_of store.now (spec.all_picked tables.now picks.now)) }
    ensures value { IfOk result (λ o. IfSome o (AreCodes (key_column store.now (spec.all_picked tables.now picks.now) path.now))) }
    ensures within { IfOk result (λ o. IfSome o (λ _. list_any is_beyond (key_column store.now (spec.all_picked tables.now picks.now) path.now) ≡ false)) }
{
    match reference_codes(rt, alloc, store, tables, picks, path, workers)? {
        Some(codes) => Ok(Some(codes)),
        None => table_codes(rt, alloc, store, tables, picks, path, workers),
    }
}
