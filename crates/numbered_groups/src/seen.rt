//! Numbers of any values, found by their hashes.
ghost use Rattle.std.specs.Prelude.{◌≡◌, ◌<◌, IfOk, map};
ghost use Rattle.edm_values.specs.Values.{seen_value};
ghost use Rattle.value_codes.specs.Codes.{AreCodes};

use crate::indexes::next_number;
use aggregate_ops::{HashedValue, Seed};
use edm_values::Seen;
use indexmap::IndexSet;
use std::alloc::{AllocError, Global};
use std::thread::Threads;
use value_codes::Codes;

/// The values with their hashes.
fn hashed_seen<'a>(alloc: Global, list: &[Seen<'a>]) -> Result<Vec<HashedValue<'a>>, AllocError>
    ensures { IfOk result (λ hashed. hashed.items ≡ map seen_value list.now) }
{
    let mut hashed = Vec::with_capacity(alloc, list.len())?;
    for value in list {
        hashed.push(HashedValue::of_seen(*value))?;
    }
    Ok(hashed)
}

/// The numbers of values, counted from 0 in order of first appearance.
fn numbers_of(alloc: Global, hashed: Vec<HashedValue<'_>>) -> Result<Codes, AllocError>
    ensures { IfOk result (AreCodes hashed.entry.items) }
{
    let mut known = IndexSet::with_hasher(alloc, Seed::of(hashed.as_slice()));
    let mut codes = Vec::with_capacity(alloc, hashed.len())?;
    for value in hashed {
        let (at, _) = known.insert_full(value)?;
        let number = next_number(at)?;
        codes.push(number)?;
    }
    let bound = known.len();
    Ok(Codes::new(codes, bound))
}

/// The numbers of values, counted from 0 in order of first appearance, each found by its hash. This thread works all of them out.
pub fn seen_codes<R: Threads + Sync>(
    _rt: &R,
    alloc: Global,
    list: &[Seen<'_>],
    _workers: u32,
) -> Result<Codes, AllocError>
    requires some { 0 < _workers }
    ensures value { IfOk result (AreCodes (map seen_value list.now)) }
{
    let hashed = hashed_seen(alloc, list)?;
    numbers_of(alloc, hashed)
}
