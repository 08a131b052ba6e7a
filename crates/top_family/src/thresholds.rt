//! The least sums of mantissas that are enough.
//!
//! The values are numbers of one type, so their sum is compared by the sum of their mantissas. There are fewer than 2^63 of
//! them, each of a size of at most 2^63, so the sum fits 128 bits. A bound becomes the least mantissa at the values' scale that
//! is no less than it: a bound of 64 bits times 10^9 fits too. A percentage of the sum is made from its quotient and remainder
//! by 100, so that every product fits too.
ghost use Rattle.std.specs.Prelude.{◌≡◌, ◌≤◌, ◌<ℤ◌, ◌*ℤ◌, ◌^◌, ℤ, find, int_le, length, nat_abs, pos, take};
ghost use Rattle.edm_values.specs.Lists.{at_places, shortest_prefix};
ghost use Rattle.edm_values.specs.Literals.{AreNumbers};
ghost use Rattle.edm_values.specs.Parts.{scale_max};
ghost use Rattle.edm_values.specs.Values.{is_number, number_part, reaches_percent, reaches_sum, seen_value};
ghost use Rattle.top_family.specs.Selections.{seen_values};
ghost use Rattle.top_family.specs.Thresholds.{IsLeast, is_reached, mantissas, scale_in};

use crate::rankings::value_at;
use edm_values::Seen;

/// How many places of the ranking stand before the first where the mantissas sum up to at least `least`; all where none does.
pub(crate) fn front_reaching(values: &[Seen<'_>], ranking: &[usize], least: i128) -> usize
    ensures front { take result ranking.now ≡ shortest_prefix (λ ks. is_reached least (at_places (seen_values values.now) ks)) ranking.now }
    ensures within { result ≤ length ranking.now }
{
    let mut sum: i128 = 0;
    for (k, place) in ranking.iter().enumerate() {
        if sum >= least {
            return k;
        }
        sum += i128::from(value_at(values, *place).mantissa());
    }
    ranking.len()
}

/// The least sum of mantissas at the values' scale that is no less than the bound.
pub(crate) fn least_of_bound(values: &[Seen<'_>], bound: Seen<'_>) -> i128
    requires numbers { AreNumbers (seen_values values.now) }
    ensures { IsLeast (reaches_sum (number_part (seen_value bound.entry))) (seen_values values.now) result }
{
    let raised = raised(bound.mantissa(), scale_of(values));
    quotient_up(raised, power_of_ten(bound.scale()))
}

/// The least sum of mantissas that is at least `p` percent of that of all values.
pub(crate) fn least_of_percent(values: &[Seen<'_>], p: u32) -> i128
    requires numbers { AreNumbers (seen_values values.now) }
    requires percent { p ≤ 100 }
    ensures { IsLeast (reaches_percent p (seen_values values.now)) (seen_values values.now) result }
{
    percent_up(p, mantissa_sum(values))
}

/// The sum of the mantissas.
fn mantissa_sum(values: &[Seen<'_>]) -> i128
    ensures value { result ≡ mantissas (seen_values values.now) }
    ensures size { nat_abs result ≤ 2 ^ 126 }
{
    let mut sum: i128 = 0;
    for value in values {
        sum += i128::from(value.mantissa());
    }
    sum
}

/// The scale of the values' numbers; 0 where there is none.
fn scale_of(values: &[Seen<'_>]) -> u8
    ensures value { result ≡ scale_in (seen_values values.now) }
    ensures limit { result ≤ scale_max }
{
    match first_number(values) {
        Some(number) => number.scale(),
        None => 0,
    }
}

/// The first of the values that is a number.
fn first_number<'a>(values: &[Seen<'a>]) -> Option<Seen<'a>>
    ensures { result ≡ find (λ v. is_number (seen_value v)) values.now }
{
    values.iter().copied().find(|value| value.is_number())
}

/// A mantissa times a power of ten.
fn raised(mantissa: i64, by: u8) -> i128
    requires { by ≤ scale_max }
    ensures { result ≡ mantissa *ℤ pos (10 ^ by) }
{
    i128::from(mantissa) * power_of_ten(by)
}

/// The power of ten.
fn power_of_ten(by: u8) -> i128
    requires { by ≤ scale_max }
    ensures { result ≡ pos (10 ^ by) }
{
    i128::from(10u64.pow(u32::from(by)))
}

/// The least whole number that is no less than a quotient.
fn quotient_up(a: i128, b: i128) -> i128
    requires { pos 0 <ℤ b }
    ensures { (x : ℤ) → int_le a (x *ℤ b) ≡ int_le result x }
{
    let whole = a.div_euclid(b);
    if a.rem_euclid(b) == 0 {
        whole
    } else {
        whole + 1
    }
}

/// The least whole number that is no less than `p` percent of a number.
fn percent_up(p: u32, all: i128) -> i128
    requires percent { p ≤ 100 }
    requires size { nat_abs all ≤ 2 ^ 126 }
    ensures { (x : ℤ) → int_le (pos p *ℤ all) (pos 100 *ℤ x) ≡ int_le result x }
{
    let p = i128::from(p);
    p * all.div_euclid(100) + quotient_up(p * all.rem_euclid(100), 100)
}
