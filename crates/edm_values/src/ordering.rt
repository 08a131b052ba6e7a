//! The total order of values: null, Booleans, numbers, texts, days, `Beyond`; equal numbers by scale.
ghost use Rattle.std.specs.Prelude.{◌≡◌};
ghost use Rattle.edm_values.specs.Values.{kind_place, scale_place, seen_value, value_cmp};

use crate::{Seen, compare};
use std::cmp::Ordering;

/// The total order of values, in which decimals of equal number stand by their scale, and an integer before them.
pub fn order(a: Seen<'_>, b: Seen<'_>) -> Ordering
    ensures value { result ≡ value_cmp (seen_value a.entry) (seen_value b.entry) }
{
    match compare(a, b) {
        Some(found) => found.then(scale_place(a).cmp(&scale_place(b))),
        None => kind_place(a).cmp(&kind_place(b)),
    }
}

/// The place of the value's kind.
fn kind_place(v: Seen<'_>) -> u8
    ensures { result ≡ kind_place (seen_value v.entry) }
{
    match v {
        Seen::Null => 0,
        Seen::Bool(_) => 1,
        Seen::Int(_) | Seen::Dec(_) => 2,
        Seen::Text(_) => 3,
        Seen::Day(_) => 4,
        Seen::Beyond => 5,
    }
}

/// One more than a decimal's scale, and else 0.
fn scale_place(v: Seen<'_>) -> u8
    ensures { result ≡ scale_place (seen_value v.entry) }
{
    match v {
        Seen::Dec(d) => d.scale() + 1,
        _ => 0,
    }
}
