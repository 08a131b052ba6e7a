//! How far numbers of one kind lie above the least of them.
ghost use Rattle.std.specs.Prelude.{◌≡◌, ◌<◌, ◌+ℤ◌, pos, All, IfOk, IfSome};
ghost use Rattle.edm_values.specs.Values.{seen_value};
ghost use Rattle.value_codes.specs.Above.{AreCoded, IsCode};

use edm_values::Seen;
use std::alloc::{AllocError, Global};

/// The most values that a bound is counted for: with more it would not have 32 bits.
const COUNT_MAX: usize = 1_000_000_000;

/// How much further apart the least and the greatest may lie than four times as many as there are values.
const FURTHER: usize = 65_536;

/// Between which mantissas numbers of one kind lie: integers are of kind 0, and decimals of the kind that is one more than their
/// scale.
#[derive(Clone, Copy, Debug, Drop)]
pub(crate) struct Spread {
    pub(crate) kind: u8,
    pub(crate) least: i64,
    pub(crate) most: i64,
}

/// The kind of a number, and its mantissa.
fn number_in(value: Seen<'_>) -> Option<(u8, i64)> {
    match value {
        Seen::Int(n) => Some((0, n)),
        Seen::Dec(d) => Some((d.scale() + 1, d.mantissa())),
        _ => None,
    }
}

/// The spread with one number more, where it is of the same kind.
fn widened(spread: Spread, kind: u8, n: i64) -> Option<Spread> {
    if spread.kind != kind {
        return None;
    }
    Some(Spread {
        kind,
        least: spread.least.min(n),
        most: spread.most.max(n),
    })
}

/// Between which mantissas the values lie, where all that are not null are numbers of one kind.
pub(crate) fn spread_of(list: &[Seen<'_>]) -> Option<Spread> {
    let mut found = None;
    for value in list {
        if value.is_null() {
            continue;
        }
        let (kind, n) = number_in(*value)?;
        let first = Spread {
            kind,
            least: n,
            most: n,
        };
        found = Some(widened(found.unwrap_or(first), kind, n)?);
    }
    found
}

/// What the numbers of so many values are below, where these lie close together.
pub(crate) fn bound_of(count: usize, spread: Spread) -> Option<u32> {
    let width = u32::try_from(spread.most.checked_sub(spread.least)?).ok()?;
    if width as usize > 4 * count.min(COUNT_MAX) + FURTHER {
        return None;
    }
    width.checked_add(2)
}

/// One more than how far a mantissa lies above the least, where this is below a bound.
fn code_above(n: i64, least: i64, bound: u32) -> Option<u32>
    ensures some { IfSome result (λ c. 0 < c) }
    ensures value { IfSome result (λ c. n +ℤ pos 1 ≡ least +ℤ pos c) }
    ensures below { IfSome result (λ c. c < bound) }
{
    let far = u32::try_from(n.checked_sub(least)?).ok()?;
    let code = far.checked_add(1)?;
    if code < bound {
        return Some(code);
    }
    None
}

/// The number of a value, where it is null or a number of this kind.
fn code_of(value: Seen<'_>, spread: &Spread, bound: u32) -> Option<u32>
    ensures value { IfSome result (IsCode spread.now.kind spread.now.least (seen_value value.entry)) }
    ensures below { IfSome result (λ c. c < bound) }
{
    let kind = spread.kind;
    match value {
        Seen::Int(n) if kind == 0 => code_above(n, spread.least, bound),
        Seen::Dec(d) if kind == d.scale() + 1 => code_above(d.mantissa(), spread.least, bound),
        Seen::Null if 0 < bound => Some(0),
        _ => None,
    }
}

/// The number of each value, where all are null or numbers of this kind.
pub(crate) fn codes_above(
    alloc: Global,
    list: &[Seen<'_>],
    spread: &Spread,
    bound: u32,
) -> Result<Option<Vec<u32>>, AllocError>
    ensures value { IfOk result (λ o. IfSome o (λ codes. AreCoded (λ v. IsCode spread.now.kind spread.now.least (seen_value v)) list.now codes.items)) }
    ensures below { IfOk result (λ o. IfSome o (λ codes. All (λ c. c < bound) codes.items)) }
{
    let mut codes = Vec::with_capacity(alloc, list.len())?;
    for value in list {
        match code_of(*value, spread, bound) {
            Some(code) => codes.push(code)?,
            None => return Ok(None),
        }
    }
    Ok(Some(codes))
}
