//! Into which parts rows are cut, and what their results come to.
ghost use Rattle.std.specs.Prelude.{◌≡◌, ◌<◌, Ok, IfOk, map};

use std::alloc::{AllocError, Global};

/// The least number of rows that a thread is started for.
const LEAST: usize = 1024;

/// How many rows each part has at least, so that there are no more parts than workers.
pub(crate) fn part_len(rows: usize, workers: u32) -> usize
    requires { 0 < workers }
{
    (rows / workers as usize).max(LEAST)
}

/// Whether rows are one part alone: `rayon` halves a list as long as the halves have the least length.
pub(crate) fn is_one_part(rows: usize, workers: u32) -> bool
    requires { 0 < workers }
{
    rows / 2 < part_len(rows, workers)
}

/// All results, or that memory was wanting for one of them.
pub(crate) fn all_ok<T: Drop>(
    alloc: Global,
    results: Vec<Result<T, AllocError>>,
) -> Result<Vec<T>, AllocError>
    ensures { IfOk result (λ found. map Ok found.items ≡ results.items) }
{
    let mut found = Vec::with_capacity(alloc, results.len())?;
    for result in results {
        found.push(result?)?;
    }
    Ok(found)
}
