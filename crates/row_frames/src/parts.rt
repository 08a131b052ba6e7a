//! Into which parts a list is cut that threads share, and what the parts come to.
ghost use Rattle.std.specs.Prelude.{◌≡◌, ◌<◌, Ok, IfOk, map};
ghost use Rattle.std.specs.List.{flat_map};
ghost use Rattle.row_frames.specs.Parts.{IsWhole};
ghost use Rattle.row_frames.specs.Runs.{part_rows};

use crate::picks::{Part, Picks};
use std::alloc::{AllocError, Global};

/// The least number of elements that a thread is started for.
const LEAST: usize = 4096;

/// Into how many parts n elements are cut: as many as there are workers, or fewer, so that each is worth a thread.
fn part_count(n: usize, workers: u32) -> usize
    ensures { 0 < result }
{
    (n / LEAST).min(workers as usize).max(1)
}

/// Whether n elements are one part alone.
pub(crate) fn is_one_part(n: usize, workers: u32) -> bool {
    part_count(n, workers) == 1
}

/// How many of n elements each part has, but the last, which may have fewer.
pub(crate) fn part_len(n: usize, workers: u32) -> usize
    ensures { 0 < result }
{
    n.div_ceil(part_count(n, workers)).max(1)
}

/// The rows in parts of so many, of which the last may have fewer.
pub(crate) fn parts_of(
    alloc: Global,
    picks: &Picks,
    len: usize,
) -> Result<Vec<Part<'_>>, AllocError>
    requires { 0 < len }
    ensures { IfOk result (λ parts. flat_map part_rows parts.items ≡ picks.now) }
{
    let mut parts = Vec::new(alloc);
    let mut rest = picks.as_part();
    while rest.len() > 0 {
        let front = rest.first(len);
        let behind = rest.later(len);
        parts.push(front)?;
        rest = behind;
    }
    Ok(parts)
}

/// All results, or that memory was wanting for one of them.
fn all_ok<T: Drop>(alloc: Global, results: Vec<Result<T, AllocError>>) -> Result<Vec<T>, AllocError>
    ensures { IfOk result (λ found. map Ok found.items ≡ results.items) }
{
    let mut found = Vec::with_capacity(alloc, results.len())?;
    for result in results {
        found.push(result?)?;
    }
    Ok(found)
}

/// The lists, one behind the other.
pub(crate) fn joined<T: Drop>(
    alloc: Global,
    n: usize,
    lists: Vec<Vec<T>>,
) -> Result<Vec<T>, AllocError>
    ensures { IfOk result (λ all. all.items ≡ flat_map (λ l. l.items) lists.items) }
{
    let mut all = Vec::with_capacity(alloc, n)?;
    for list in lists {
        let mut list = list;
        all.append(&mut list)?;
    }
    Ok(all)
}

/// The lists of parts that have n elements together, one behind the other, or that memory was wanting for one of them.
pub(crate) fn whole<T: Drop>(
    alloc: Global,
    n: usize,
    parts: Vec<Result<Vec<T>, AllocError>>,
) -> Result<Vec<T>, AllocError>
    ensures { IfOk result (λ all. IsWhole parts.items all.items) }
{
    let lists = all_ok(alloc, parts)?;
    joined(alloc, n, lists)
}
