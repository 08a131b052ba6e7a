//! Arithmetic on values, exact on whole numbers: `Beyond` where an operand is `Beyond`, else null where one is null.
ghost use Rattle.std.specs.Prelude.{◌≡◌, ◌≤◌, ◌<◌, ◌^◌, IfSome, nat_abs};
ghost use Rattle.edm_values.specs.Parts.{scale_max};
ghost use Rattle.edm_values.specs.Values as spec;
ghost use Rattle.edm_values.specs.Values.{seen_value};

use crate::numbers::{negated, product, raised, sum};
use crate::{Dec, Seen};

/// The sum of two numbers: an integer of two integers, and else a decimal of the greater scale. Beside a value that is
/// no number it is null.
pub fn add<'a>(a: Seen<'a>, b: Seen<'a>) -> Seen<'a>
    ensures value { seen_value result ≡ spec.plus (seen_value a.entry) (seen_value b.entry) }
{
    match (a, b) {
        (_, Seen::Beyond) | (Seen::Beyond, _) => Seen::Beyond,
        (Seen::Int(x), Seen::Int(y)) => integer(i128::from(x) + i128::from(y)),
        _ => match (number_of(a), number_of(b)) {
            (Some(x), Some(y)) => decimal(sum(x, y)),
            _ => Seen::Null,
        },
    }
}

/// The difference of two numbers, in the type of their sum.
pub fn sub<'a>(a: Seen<'a>, b: Seen<'a>) -> Seen<'a>
    ensures value { seen_value result ≡ spec.minus (seen_value a.entry) (seen_value b.entry) }
{
    match (a, b) {
        (Seen::Beyond, _) | (_, Seen::Beyond) => Seen::Beyond,
        (Seen::Int(x), Seen::Int(y)) => integer(i128::from(x) - i128::from(y)),
        _ => match (number_of(a), number_of(b)) {
            (Some(x), Some(y)) => decimal(sum(x, negated(y))),
            _ => Seen::Null,
        },
    }
}

/// The product of two numbers: an integer of two integers, and else a decimal whose scale is the sum of the scales.
pub fn mul<'a>(a: Seen<'a>, b: Seen<'a>) -> Seen<'a>
    ensures value { seen_value result ≡ spec.times (seen_value a.entry) (seen_value b.entry) }
{
    match (a, b) {
        (Seen::Beyond, _) | (_, Seen::Beyond) => Seen::Beyond,
        (Seen::Int(x), Seen::Int(y)) => integer(i128::from(x) * i128::from(y)),
        _ => match (number_of(a), number_of(b)) {
            (Some(x), Some(y)) => decimal(product(x, y)),
            _ => Seen::Null,
        },
    }
}

/// The number with the other sign.
pub fn neg<'a>(a: Seen<'a>) -> Seen<'a>
    ensures value { seen_value result ≡ spec.negated (seen_value a.entry) }
{
    match a {
        Seen::Beyond => Seen::Beyond,
        Seen::Int(n) => integer(-i128::from(n)),
        Seen::Dec(d) => decimal(negated((i128::from(d.mantissa), d.scale))),
        _ => Seen::Null,
    }
}

/// The number that a value is.
fn number_of(v: Seen<'_>) -> Option<(i128, u8)>
    ensures value { result ≡ spec.number_of (seen_value v.entry) }
    ensures mantissa { IfSome result (λ n. nat_abs n.0 ≤ 2 ^ 63) }
    ensures scale { IfSome result (λ n. n.1 ≤ scale_max) }
{
    match v {
        Seen::Int(n) => Some((i128::from(n), 0)),
        Seen::Dec(d) => Some((i128::from(d.mantissa), d.scale)),
        _ => None,
    }
}

/// The integer, or `Beyond` where it has more than 64 bits.
fn integer<'a>(n: i128) -> Seen<'a>
    ensures { seen_value result ≡ spec.integer n }
{
    match i64::try_from(n) {
        Ok(n) => Seen::Int(n),
        Err(_) => Seen::Beyond,
    }
}

/// The decimal, or `Beyond` where it leaves its range.
fn decimal<'a>(number: (i128, u8)) -> Seen<'a>
    ensures { seen_value result ≡ spec.dec number.0 number.1 }
{
    let Ok(mantissa) = i64::try_from(number.0) else {
        return Seen::Beyond;
    };
    match Dec::new(mantissa, number.1) {
        Some(d) => Seen::Dec(d),
        None => Seen::Beyond,
    }
}
