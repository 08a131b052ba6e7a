//! Folds of lists, in pieces.
ghost use Rattle.std.specs.Prelude.{◌≡◌, ◌+◌, ◌^◌, ◌<◌, ◌≤◌, length, IfOk, IsErr, All};
ghost use Rattle.std.specs.Thread.{IsSync};
ghost use Rattle.par_stages.specs.Placed.{placed, placed_between, cut_at};

use crate::bounds::{piece_bounds, piece_count};
use crate::{Gate, Partial};
use std::alloc::AllocError;
use std::thread::{Threads, join};

/// Folds the items at the places from `start` to before `end`.
fn fold_between<T, P: Partial<Item = T>>(
    items: &[T],
    start: usize,
    end: usize,
    empty: &P,
) -> Result<P, AllocError>
    requires order { start ≤ end }
    requires within { end ≤ length items.now }
    requires small { length items.now < 2 ^ 63 }
    requires kind { All (P.takes (P.kind empty.now)) items.now }
    ensures stands { IfOk result (λ p. P.stands_for p (placed_between start end items.now)) }
    ensures kind { IfOk result (λ p. P.kind p ≡ P.kind empty.now) }
{
    let mut partial = empty.fresh()?;
    for place in start..end {
        partial.add(&items[place], place)?;
    }
    Ok(partial)
}

/// Folds piece j of k, and tells the gate before.
fn fold_piece<T, P: Partial<Item = T>, G: Gate>(
    items: &[T],
    k: u32,
    j: u32,
    gate: &G,
    empty: &P,
) -> Result<P, AllocError>
    requires before { j < k }
    requires few { k ≤ 64 }
    requires small { length items.now < 2 ^ 63 }
    requires kind { All (P.takes (P.kind empty.now)) items.now }
    ensures stands { IfOk result (λ p. P.stands_for p
        (placed_between (cut_at (length items.now) k j) (cut_at (length items.now) k (j + 1)) items.now)) }
    ensures kind { IfOk result (λ p. P.kind p ≡ P.kind empty.now) }
{
    gate.piece(j, k);
    let (start, end) = piece_bounds(items.len(), k, j);
    fold_between(items, start, end, empty)
}

/// Merges the folds of two parts, the later one behind the earlier one.
fn merge_parts<T, P: Partial<Item = T>>(
    items: &[T],
    k: u32,
    j: u32,
    empty: &P,
    earlier: Result<P, AllocError>,
    later: Result<P, AllocError>,
) -> Result<P, AllocError>
    requires before { j < k }
    requires small { length items.now < 2 ^ 63 }
    requires earlier { IfOk earlier (λ p. P.stands_for p (placed_between 0 (cut_at (length items.now) k j) items.now)) }
    requires earlier_kind { IfOk earlier (λ p. P.kind p ≡ P.kind empty.now) }
    requires later { IfOk later (λ p. P.stands_for p
        (placed_between (cut_at (length items.now) k j) (cut_at (length items.now) k (j + 1)) items.now)) }
    requires later_kind { IfOk later (λ p. P.kind p ≡ P.kind empty.now) }
    ensures stands { IfOk result (λ p. P.stands_for p (placed_between 0 (cut_at (length items.now) k (j + 1)) items.now)) }
    ensures kind { IfOk result (λ p. P.kind p ≡ P.kind empty.now) }
{
    let mut whole = earlier?;
    let later = later?;
    whole.merge(later)?;
    Ok(whole)
}

/// Folds the first pieces of k, as many as `count`: the last of them in another thread, and those before it in this one, which merges.
fn fold_first<R: Threads + Sync, T: Sync, P: Partial<Item = T> + Sync, G: Gate>(
    rt: &R,
    items: &[T],
    k: u32,
    count: u32,
    gate: &G,
    empty: &P,
) -> Result<P, AllocError>
    requires some { 0 < count }
    requires within { count ≤ k }
    requires few { k ≤ 64 }
    requires small { length items.now < 2 ^ 63 }
    requires kind { All (P.takes (P.kind empty.now)) items.now }
    ensures stands { IfOk result (λ p. P.stands_for p (placed_between 0 (cut_at (length items.now) k count) items.now)) }
    ensures kind { IfOk result (λ p. P.kind p ≡ P.kind empty.now) }
{
    let last = count - 1;
    if last == 0 {
        return fold_piece(items, k, 0, gate, empty);
    }
    let (later, earlier) = join(
        rt,
        || -> Result<P, AllocError>
            requires { (last < k) × (k ≤ 64) × (length items.now < 2 ^ 63) × All (P.takes (P.kind empty.now)) items.now }
            ensures stands { IfOk result (λ p. P.stands_for p (placed_between
                (cut_at (length items.entry.now) k last) (cut_at (length items.entry.now) k (last + 1)) items.entry.now)) }
            ensures kind { IfOk result (λ p. P.kind p ≡ P.kind empty.entry.now) }
        { fold_piece(items, k, last, gate, empty) },
        || -> Result<P, AllocError>
            requires { IsSync R.row × (0 < last) × (last ≤ k) × (k ≤ 64)
                × (length items.now < 2 ^ 63) × All (P.takes (P.kind empty.now)) items.now }
            ensures stands { IfOk result (λ p. P.stands_for p (placed_between 0 (cut_at (length items.entry.now) k last) items.entry.now)) }
            ensures kind { IfOk result (λ p. P.kind p ≡ P.kind empty.entry.now) }
        { fold_first(rt, items, k, last, gate, empty) },
    );
    merge_parts(items, k, last, empty, earlier, later)
}

/// Folds a list by a partial of the kind of `empty`, each item with its place, counted from 0. The list is cut into k pieces, k
/// the lesser of `workers` and its length, and at least 1: piece j of n items has the places from j * n / k to before
/// (j + 1) * n / k, rounded down. Each piece tells the gate before it begins, and may have a thread of its own; this one merges
/// what the pieces keep, in order. A list of 2^63 items or more answers want of memory.
pub fn pieces<R: Threads + Sync, T: Sync, P: Partial<Item = T> + Sync, G: Gate>(
    rt: &R,
    items: &[T],
    workers: u32,
    gate: &G,
    empty: &P,
) -> Result<P, AllocError>
    requires some { 0 < workers }
    requires few { workers ≤ 64 }
    requires kind { All (P.takes (P.kind empty.now)) items.now }
    ensures stands { IfOk result (λ p. P.stands_for p (placed 0 items.now)) }
    ensures kind { IfOk result (λ p. P.kind p ≡ P.kind empty.now) }
    ensures too_long { 2 ^ 63 ≤ length items.now → IsErr result }
{
    let n = items.len();
    if n >= 1 << 63 {
        return Err(AllocError);
    }
    let k = piece_count(n, workers);
    fold_first(rt, items, k, k, gate, empty)
}
