//! The numbers of rows by one column more: a row's number and its code in the column are a pair, and each pair has a number.
//!
//! Pairs are told by a number of two digits where these lie below some bound. Where they do not, the code is cut into two
//! digits, and the rows are numbered by the higher one first. So each number is found in a list by its place, and no list is much
//! longer than that of the rows.
ghost use Rattle.std.specs.Prelude.{◌≡◌, ◌/◌, ◌%◌, ◌<◌, ◌≤◌, All, IfOk, length, map};
ghost use Rattle.numbered_groups.specs.Found.{AreNumbersBy, ArePairs, same_pair};

use crate::found::{Numbers, number_codes};
use par_stages::Gate;
use std::alloc::{AllocError, Global};
use std::thread::Threads;

/// How many numbers of two digits there may be for so many rows.
fn most_pairs(rows: usize) -> usize {
    rows.saturating_mul(4).saturating_add(1 << 16)
}

/// The pairs of numbers, of which there are `count`, and codes below a bound. More than 32 bits hold answer want of memory.
fn pair_codes(
    alloc: Global,
    before: &[u32],
    count: usize,
    codes: &[u32],
    bound: usize,
) -> Result<Vec<u32>, AllocError>
    requires size { length before.now ≡ length codes.now }
    requires there { All (λ n. n < count) before.now }
    requires below { All (λ c. c < bound) codes.now }
    ensures { IfOk result (λ ps. ArePairs before.now codes.now bound ps.items) }
{
    let most = count.checked_mul(bound).ok_or(AllocError)?;
    if most > u32::MAX as usize {
        return Err(AllocError);
    }
    let mut pairs = Vec::with_capacity(alloc, codes.len())?;
    for at in 0..codes.len() {
        pairs.push((before[at] as usize * bound + codes[at] as usize) as u32)?;
    }
    Ok(pairs)
}

/// The numbers of the pairs of numbers and codes below a bound.
fn paired<R: Threads + Sync, G: Gate>(
    rt: &R,
    alloc: Global,
    before: &[u32],
    count: usize,
    codes: &[u32],
    bound: usize,
    workers: u32,
    gate: &G,
) -> Result<Numbers, AllocError>
    requires some { 0 < workers }
    requires few { workers ≤ 64 }
    requires size { length before.now ≡ length codes.now }
    requires there { All (λ n. n < count) before.now }
    requires below { All (λ c. c < bound) codes.now }
    ensures { IfOk result (λ n. AreNumbersBy (same_pair before.now codes.now) (length codes.now) n.numbers.items n.count) }
{
    if count <= 1 {
        return number_codes(rt, alloc, codes, workers, gate);
    }
    let pairs = pair_codes(alloc, before, count, codes, bound)?;
    number_codes(rt, alloc, pairs.as_slice(), workers, gate)
}

/// The higher digit of each code.
fn high_digits(alloc: Global, codes: &[u32], width: usize) -> Result<Vec<u32>, AllocError>
    requires { 0 < width }
    ensures { IfOk result (λ found. found.items ≡ map (λ c. c / width) codes.now) }
{
    let mut found = Vec::with_capacity(alloc, codes.len())?;
    for code in codes {
        found.push((*code as usize / width) as u32)?;
    }
    Ok(found)
}

/// The lower digit of each code.
fn low_digits(alloc: Global, codes: &[u32], width: usize) -> Result<Vec<u32>, AllocError>
    requires { 0 < width }
    ensures { IfOk result (λ found. found.items ≡ map (λ c. c % width) codes.now) }
{
    let mut found = Vec::with_capacity(alloc, codes.len())?;
    for code in codes {
        found.push((*code as usize % width) as u32)?;
    }
    Ok(found)
}

/// The numbers of the pairs of numbers, of which there are `count`, and codes below a bound, counted from 0 in order of first
/// appearance.
pub(crate) fn refined<R: Threads + Sync, G: Gate>(
    rt: &R,
    alloc: Global,
    before: &[u32],
    count: usize,
    codes: &[u32],
    bound: usize,
    workers: u32,
    gate: &G,
) -> Result<Numbers, AllocError>
    requires some { 0 < workers }
    requires few { workers ≤ 64 }
    requires size { length before.now ≡ length codes.now }
    requires there { All (λ n. n < count) before.now }
    requires below { All (λ c. c < bound) codes.now }
    ensures { IfOk result (λ n. AreNumbersBy (same_pair before.now codes.now) (length codes.now) n.numbers.items n.count) }
{
    let room = (most_pairs(codes.len()) / count.max(1)).max(4);
    if bound <= room {
        return paired(rt, alloc, before, count, codes, bound, workers, gate);
    }
    let width = bound / room + 1;
    let high = high_digits(alloc, codes, width)?;
    let low = low_digits(alloc, codes, width)?;
    let next = paired(
        rt,
        alloc,
        before,
        count,
        high.as_slice(),
        room,
        workers,
        gate,
    )?;
    refined(
        rt,
        alloc,
        next.numbers.as_slice(),
        next.count,
        low.as_slice(),
        width,
        workers,
        gate,
    )
}
