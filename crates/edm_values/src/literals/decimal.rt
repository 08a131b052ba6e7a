//! Literals of decimals.
ghost use Rattle.std.specs.Prelude.{◌≡◌, ◌==◌, ◌<◌, ◌≤◌, ◌^◌, ◌+◌, ◌*◌, min, IsTrue, if◌then◌else◌, pos, neg_ℤ};
ghost use Rattle.std.specs.List.{list_any, list_all, position, position_or_len};
ghost use Rattle.std.specs.Str.Parse.{digits_value};
ghost use Rattle.edm_values.specs.Literals as spec;
ghost use Rattle.edm_values.specs.Literals.{answer};
ghost use Rattle.edm_values.specs.Numerals.{below};
ghost use Rattle.edm_values.specs.Parts.{mantissa_max, scale_max};

use crate::literals::numerals::{
    first_bytes, is_negative, is_numeral, later_bytes, number_below, without_sign,
};
use crate::{Dec, MANTISSA_MAX, PRECISION_MAX, ReadRefused, SCALE_MAX, Value};

pub(crate) fn read_decimal(text: &[u8], scale: u8, precision: u8) -> Result<Value, ReadRefused>
    ensures { result ≡ answer (spec.decimal_literal scale precision text.now) }
{
    if !is_decimal_text(text, scale) {
        return Err(ReadRefused::Shape);
    }
    if scale > SCALE_MAX {
        return Err(ReadRefused::Range);
    }
    let Some(size) = mantissa_size(text, scale, size_limit(precision)) else {
        return Err(ReadRefused::Range);
    };
    match Dec::new(signed(is_negative(text), size), scale) {
        Some(decimal) => Ok(Value::Dec(decimal)),
        None => Err(ReadRefused::Range),
    }
}

/// Whether the text is a sign or none, digits, and possibly a point and digits, zeros past the scale.
fn is_decimal_text(text: &[u8], scale: u8) -> bool
    ensures { result ≡ spec.is_decimal_text scale text.now }
{
    let fraction = fraction_part(text);
    is_numeral(whole_part(text))
        && (!has_point(text) || is_numeral(fraction))
        && are_zeros(later_bytes(fraction, usize::from(scale)))
}

fn has_point(text: &[u8]) -> bool
    ensures { result ≡ list_any spec.is_point text.now }
{
    text.iter().any(|byte| *byte == b'.')
}

fn are_zeros(text: &[u8]) -> bool
    ensures { result ≡ list_all (λ d. d == 48) text.now }
{
    text.iter().all(|byte| *byte == b'0')
}

/// The place of the first point, or the length of the text.
fn point_place(text: &[u8]) -> usize
    ensures { result ≡ position_or_len spec.is_point text.now }
{
    match first_point(text) {
        Some(place) => place,
        None => text.len(),
    }
}

fn first_point(text: &[u8]) -> Option<usize>
    ensures { result ≡ position spec.is_point text.now }
{
    text.iter().position(|byte| *byte == b'.')
}

/// The digits before the point.
fn whole_part(text: &[u8]) -> &[u8]
    ensures { result.now ≡ spec.whole_part text.now }
{
    let digits = without_sign(text);
    first_bytes(digits, point_place(digits))
}

/// The digits after the point.
fn fraction_part(text: &[u8]) -> &[u8]
    ensures { result.now ≡ spec.fraction_part text.now }
{
    let digits = without_sign(text);
    let place = point_place(digits);
    if place < digits.len() {
        return &digits[place + 1..];
    }
    &[]
}

/// The mantissa's size at the scale, if it is below the limit.
fn mantissa_size(text: &[u8], scale: u8, limit: u128) -> Option<u128>
    requires form { IsTrue (spec.is_decimal_text scale text.now) }
    requires scale { scale ≤ scale_max }
    requires least { 0 < limit }
    requires small { limit ≤ 2 ^ 64 }
    ensures { result ≡ below limit (digits_value 10 (spec.mantissa_digits scale text.now)) }
{
    let fraction = first_bytes(fraction_part(text), usize::from(scale));
    let missing = usize::from(scale) - fraction.len();
    let whole = number_below(0, whole_part(text), limit)?;
    let kept = number_below(whole, fraction, limit)?;
    raised_below(kept, missing, limit)
}

/// The number times the power of ten, if that is below the limit.
fn raised_below(number: u128, zeros: usize, limit: u128) -> Option<u128>
    requires number { number < 2 ^ 64 }
    requires zeros { zeros ≤ scale_max }
    ensures { result ≡ below limit (number * 10 ^ zeros) }
{
    let raised = number * 10u128.pow(zeros as u32);
    if raised < limit { Some(raised) } else { None }
}

/// What the mantissa's size has to be below, by the precision and by the greatest mantissa.
fn size_limit(precision: u8) -> u128
    ensures value { result ≡ min (10 ^ precision) (mantissa_max + 1) }
    ensures least { 0 < result }
{
    if precision < PRECISION_MAX {
        return 10u128.pow(u32::from(precision));
    }
    MANTISSA_MAX as u128 + 1
}

/// The number of this size with a sign.
fn signed(negative: bool, size: u128) -> i64
    requires { size ≤ mantissa_max }
    ensures { result ≡ (if negative then neg_ℤ (pos size) else pos size) }
{
    if negative {
        return -(size as i64);
    }
    size as i64
}
