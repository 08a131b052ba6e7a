//! What stands for values in a sort: integers and decimals alone, and any other value where it stands.
ghost use Rattle.std.specs.Prelude.{◌≡◌, IfOk, IfSome, false};
ghost use Rattle.std.specs.List.{list_any};
ghost use Rattle.edm_values.specs.declared.Value.{Value as Value'};
ghost use Rattle.edm_values.specs.Values.{is_beyond};
ghost use Rattle.row_orders.specs.Orders.{item_cmp};
ghost use Rattle.row_orders.specs.Places.{GivesNumbered, numbered};

use apply_meaning::RunRefused;
use edm_values::{Dec, Seen, Value, order};
use std::alloc::{AllocError, Global};
use std::cmp::Ordering;
use std::marker::Model;

/// What stands for a value in a sort.
pub(crate) trait SortKey: Drop {
    // The value.
    ghost value: { Self → Value' };

    /// The order of the two values, or with `desc` the order the other way round.
    fn order(&self, other: &Self, desc: bool) -> Ordering
        ensures order { result ≡ item_cmp desc (value self.now) (value other.now) };
}

impl SortKey for i64 {
    ghost use Rattle.edm_values.specs.declared.Value.{Value as Value'};

    ghost value = { λ n. Value'.Int n };

    #[inline(always)]
    fn order(&self, other: &i64, desc: bool) -> Ordering {
        if desc {
            other.cmp(self)
        } else {
            self.cmp(other)
        }
    }
}

/// The order of two decimals: by their mantissas where they have one scale.
#[inline(always)]
fn decimal_order(a: Dec, b: Dec) -> Ordering
    ensures { result ≡ item_cmp false (Value'.Dec a) (Value'.Dec b) }
{
    if a.scale() == b.scale() {
        return a.mantissa().cmp(&b.mantissa());
    }
    order(Seen::Dec(a), Seen::Dec(b))
}

impl SortKey for Dec {
    ghost use Rattle.edm_values.specs.declared.Value.{Value as Value'};

    ghost value = { λ d. Value'.Dec d };

    #[inline(always)]
    fn order(&self, other: &Dec, desc: bool) -> Ordering {
        if desc {
            decimal_order(*other, *self)
        } else {
            decimal_order(*self, *other)
        }
    }
}

impl<'a> SortKey for Seen<'a> {
    ghost use Rattle.edm_values.specs.Values.{seen_value};

    ghost value = { λ v. seen_value v };

    fn order(&self, other: &Seen<'a>, desc: bool) -> Ordering {
        if desc {
            order(*other, *self)
        } else {
            order(*self, *other)
        }
    }
}

/// What stands for a value, with its place.
#[derive(Drop)]
pub(crate) struct Numbered<K: SortKey> {
    pub key: K,
    pub place: usize,
}

impl<K: SortKey> Model for Numbered<K> {
    ghost use Rattle.std.specs.Prelude.{[], ◌∷◌};
    ghost use Rattle.row_orders.specs.Orders.{RankedPlace};

    ghost Value = { RankedPlace };

    ghost view = { λ r. (K.value r.key ∷ [], r.place) };
}

/// The values with their places, where each is an integer.
pub(crate) fn int_keys(
    alloc: Global,
    values: &[Value],
) -> Result<Option<Vec<Numbered<i64>>>, AllocError>
    ensures list { IfOk result (λ o. IfSome o (λ keys. keys.items ≡ numbered 0 values.now)) }
    ensures sure { IfOk result (λ o. IfSome o (λ keys. list_any is_beyond values.now ≡ false)) }
{
    let mut keys = Vec::with_capacity(alloc, values.len())?;
    for (place, value) in values.iter().enumerate() {
        match value {
            Value::Int(n) => keys.push(Numbered { key: *n, place })?,
            _ => return Ok(None),
        }
    }
    Ok(Some(keys))
}

/// The values with their places, where each is a decimal.
pub(crate) fn decimal_keys(
    alloc: Global,
    values: &[Value],
) -> Result<Option<Vec<Numbered<Dec>>>, AllocError>
    ensures list { IfOk result (λ o. IfSome o (λ keys. keys.items ≡ numbered 0 values.now)) }
    ensures sure { IfOk result (λ o. IfSome o (λ keys. list_any is_beyond values.now ≡ false)) }
{
    let mut keys = Vec::with_capacity(alloc, values.len())?;
    for (place, value) in values.iter().enumerate() {
        match value {
            Value::Dec(d) => keys.push(Numbered { key: *d, place })?,
            _ => return Ok(None),
        }
    }
    Ok(Some(keys))
}

/// The values with their places.
pub(crate) fn seen_keys<'a>(
    alloc: Global,
    values: &'a [Value],
) -> Result<Vec<Numbered<Seen<'a>>>, RunRefused>
    ensures { GivesNumbered result values.now }
{
    let mut keys = Vec::with_capacity(alloc, values.len())?;
    for (place, value) in values.iter().enumerate() {
        match value.seen() {
            Seen::Beyond => return Err(RunRefused::Range),
            key => keys.push(Numbered { key, place })?,
        }
    }
    Ok(keys)
}
