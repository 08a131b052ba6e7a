//! The places of numbers by rank.
//!
//! Numbers of one type stand in the order of their mantissas. So each place is sorted beside its mantissa, and no comparison
//! reads a value.
ghost use Rattle.std.specs.Prelude.{◌≡◌, IfOk, map};
ghost use Rattle.edm_values.specs.Literals.{AreNumbers};
ghost use Rattle.edm_values.specs.Values.{seen_value};
ghost use Rattle.top_family.specs.Numbers as spec;
ghost use Rattle.top_family.specs.Numbers.{GivesRanked, ranked_cmp};
ghost use Rattle.top_family.specs.Rankings.{GivesRanking};
ghost use Rattle.top_family.specs.Selections.{seen_values};

use crate::TopRefused;
use edm_values::Seen;
use std::alloc::{AllocError, Global};
use std::cmp::Ordering;

/// A place with what tells the rank of its number.
#[derive(Clone, Copy, Drop)]
struct Ranked {
    is_null: bool,
    mantissa: i64,
    place: usize,
}

/// The places of numbers of one type by rank, and then by place. `Range` where a value is past its range.
pub(crate) fn number_ranking(
    alloc: Global,
    values: &[Seen<'_>],
    bottom: bool,
) -> Result<Vec<usize>, TopRefused>
    requires numbers { AreNumbers (seen_values values.now) }
    ensures { GivesRanking bottom (seen_values values.now) result }
{
    let mut ranked = ranked_places(alloc, values)?;
    ranked.sort_by(
        |a: &Ranked, b: &Ranked| -> Ordering
            ensures { result ≡ ranked_cmp bottom a.now b.now }
        { ranked_order(a, b, bottom) },
    )?;
    Ok(places_of(alloc, ranked.as_slice())?)
}

/// The order of two places by rank: the greater number stands first, or the lesser where `bottom` is true, and null last.
fn ranked_order(a: &Ranked, b: &Ranked, bottom: bool) -> Ordering
    ensures { result ≡ ranked_cmp bottom a.now b.now }
{
    if a.is_null || b.is_null {
        return a.is_null.cmp(&b.is_null);
    }
    if bottom {
        a.mantissa.cmp(&b.mantissa)
    } else {
        b.mantissa.cmp(&a.mantissa)
    }
}

/// The places of values, each with what tells its rank. `Range` where a value is past its range.
fn ranked_places(alloc: Global, values: &[Seen<'_>]) -> Result<Vec<Ranked>, TopRefused>
    ensures { GivesRanked (seen_values values.now) result }
{
    let mut ranked = Vec::with_capacity(alloc, values.len())?;
    for (k, value) in values.iter().enumerate() {
        if value.is_beyond() {
            return Err(TopRefused::Range);
        }
        ranked.push(ranked_of(*value, k))?;
    }
    Ok(ranked)
}

/// A place with what tells the rank of its number.
fn ranked_of(value: Seen<'_>, place: usize) -> Ranked
    ensures { result ≡ spec.ranked_of (seen_value value.entry) place }
{
    Ranked {
        is_null: value.is_null(),
        mantissa: value.mantissa(),
        place,
    }
}

/// The places alone.
fn places_of(alloc: Global, ranked: &[Ranked]) -> Result<Vec<usize>, AllocError>
    ensures { IfOk result (λ found. found.items ≡ map (λ r. r.place) ranked.now) }
{
    ranked.iter().map(|r| r.place).collect(alloc)
}
