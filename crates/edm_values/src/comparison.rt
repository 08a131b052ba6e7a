//! The comparison of two values.
ghost use Rattle.std.specs.Prelude.{◌≡◌, ◌↔◌, ◌≤◌, IsSome, IsTrue, Some};
ghost use Rattle.edm_values.specs.Parts.{scale_max};
ghost use Rattle.edm_values.specs.Values.{are_comparable, are_of_one_kind, compared, date_cmp, number_cmp, seen_value, value_cmp};

use crate::numbers::raised;
use crate::{Day, Seen};
use std::cmp::Ordering;

/// The order of two numbers, two Booleans, two texts by their bytes, or two days; none beside null, `Beyond` or
/// a value of another kind.
pub fn compare(a: Seen<'_>, b: Seen<'_>) -> Option<Ordering>
    ensures value { result ≡ compared (seen_value a.entry) (seen_value b.entry) }
    ensures found { IsSome result ↔ IsTrue (are_comparable (seen_value a.entry) (seen_value b.entry)) }
    ensures order { IsTrue (are_of_one_kind (seen_value a.entry) (seen_value b.entry))
        → result ≡ Some (value_cmp (seen_value a.entry) (seen_value b.entry)) }
{
    order_by_kind(a, b)
}

fn order_by_kind(a: Seen<'_>, b: Seen<'_>) -> Option<Ordering>
    ensures { result ≡ compared (seen_value a.entry) (seen_value b.entry) }
{
    match (a, b) {
        (Seen::Int(a), Seen::Int(b)) => Some(compare_scaled(a, 0, b, 0)),
        (Seen::Int(a), Seen::Dec(b)) => Some(compare_scaled(a, 0, b.mantissa, b.scale)),
        (Seen::Dec(a), Seen::Int(b)) => Some(compare_scaled(a.mantissa, a.scale, b, 0)),
        (Seen::Dec(a), Seen::Dec(b)) => {
            Some(compare_scaled(a.mantissa, a.scale, b.mantissa, b.scale))
        }
        (Seen::Bool(a), Seen::Bool(b)) => Some(a.cmp(&b)),
        (Seen::Text(a), Seen::Text(b)) => Some(a.cmp(b)),
        (Seen::Day(a), Seen::Day(b)) => Some(compare_days(a, b)),
        _ => None,
    }
}

/// By year, then month, then day.
fn compare_days(a: Day, b: Day) -> Ordering
    ensures { result ≡ date_cmp a b }
{
    let months_and_days = a.month.cmp(&b.month).then(a.day.cmp(&b.day));
    a.year.cmp(&b.year).then(months_and_days)
}

/// The exact order of `m / 10^s` and `n / 10^t`.
fn compare_scaled(m: i64, s: u8, n: i64, t: u8) -> Ordering
    requires left { s ≤ scale_max }
    requires right { t ≤ scale_max }
    ensures { result ≡ number_cmp (m, s) (n, t) }
{
    if s == t {
        return m.cmp(&n);
    }
    raised(i128::from(m), t).cmp(&raised(i128::from(n), s))
}
