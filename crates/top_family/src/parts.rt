//! The first places by rank, found by several threads: each finds those of a part, and this one those of all among these.
ghost use Rattle.std.specs.Prelude.{◌≡◌, ◌<◌, Ok, Err, IfOk, map};
ghost use Rattle.std.specs.List.{AllZip, flat_map};
ghost use Rattle.rayon.specs.Lists.{chunks_of};
ghost use Rattle.edm_values.specs.declared.refusals.Refused.TheVariants as TopRefused;
ghost use Rattle.top_family.specs.Parts.{HasPast};
ghost use Rattle.top_family.specs.Rankings.{GivesFirst, GivesFirstOf};
ghost use Rattle.top_family.specs.Selections.{seen_values};

use crate::TopRefused;
use crate::rankings::{all_places, first_by_rank, first_of, first_of_places};
use edm_values::Seen;
use par_stages::workers_for;
use rayon::prelude::*;
use std::alloc::{AllocError, Global};
use std::thread::Threads;

/// The first `n` by rank of each part of some places, or why they are refused.
fn first_of_parts<R: Threads + Sync>(
    rt: &R,
    alloc: Global,
    values: &[Seen<'_>],
    places: &[usize],
    n: usize,
    bottom: bool,
    len: usize,
) -> Result<Vec<Result<Vec<usize>, TopRefused>>, AllocError>
    requires some { 0 < len }
    ensures { IfOk result (λ rs. AllZip (λ part r. GivesFirstOf n bottom (seen_values values.now) part r) (chunks_of len places.now) rs.items) }
{
    places
        .par_chunks(len)
        .map(
            |part: &[usize]| -> Result<Vec<usize>, TopRefused>
                ensures { GivesFirstOf n bottom (seen_values values.entry.now) part.now result }
            { first_of_places(alloc, values, part, n, bottom) },
        )
        .collect(rt, alloc)
}

/// What all results have, or why the first that is refused is so.
fn all_found(
    alloc: Global,
    results: Vec<Result<Vec<usize>, TopRefused>>,
) -> Result<Vec<Vec<usize>>, TopRefused>
    ensures ok { IfOk result (λ found. map Ok found.items ≡ results.items) }
    ensures range { result ≡ Err TopRefused.Range → HasPast results.items }
{
    let mut found = Vec::with_capacity(alloc, results.len())?;
    for result in results {
        found.push(result?)?;
    }
    Ok(found)
}

/// The lists, one behind the other.
fn joined(alloc: Global, lists: Vec<Vec<usize>>) -> Result<Vec<usize>, AllocError>
    ensures { IfOk result (λ all. all.items ≡ flat_map (λ l. l.items) lists.items) }
{
    let mut all = Vec::new(alloc);
    for list in lists {
        let mut list = list;
        all.append(&mut list)?;
    }
    Ok(all)
}

/// The places of the first `n` values by rank, and then by place, each part of so many values by a thread of its own. `Range` where
/// a value is past its range.
fn first_in_parts<R: Threads + Sync>(
    rt: &R,
    alloc: Global,
    values: &[Seen<'_>],
    n: usize,
    bottom: bool,
    len: usize,
) -> Result<Vec<usize>, TopRefused>
    requires some { 0 < len }
    ensures { GivesFirst n bottom (seen_values values.now) result }
{
    let all = all_places(alloc, values.len())?;
    let results = first_of_parts(rt, alloc, values, all.as_slice(), n, bottom, len)?;
    let lists = all_found(alloc, results)?;
    let found = joined(alloc, lists)?;
    Ok(first_of(values, found, n, bottom)?)
}

/// The places of the first `n` values by rank, and then by place. The values may be cut into so many parts, each for a thread of
/// its own. `Range` where a value is past its range.
pub(crate) fn first_by_workers<R: Threads + Sync>(
    rt: &R,
    alloc: Global,
    values: &[Seen<'_>],
    n: usize,
    bottom: bool,
    workers: u32,
) -> Result<Vec<usize>, TopRefused>
    requires some { 0 < workers }
    ensures { GivesFirst n bottom (seen_values values.now) result }
{
    let parts = workers_for(values.len(), 1, workers);
    if parts == 1 {
        return first_by_rank(alloc, values, n, bottom);
    }
    let len = values.len().div_ceil(parts as usize).max(1);
    first_in_parts(rt, alloc, values, n, bottom, len)
}
