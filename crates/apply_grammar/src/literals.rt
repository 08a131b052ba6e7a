//! Digits, numbers, dates and texts.
ghost use Rattle.std.specs.Prelude.{◌≡◌, ℕ, ◌+◌, ◌<◌, ◌≤◌, pos, IsTrue, length, option_map, IfOk, IfSome, List, Option, Some};
ghost use Rattle.std.specs.List.{list_all};
ghost use Rattle.std.specs.Char.{is_ascii_digit};
ghost use Rattle.edm_values.specs.Parts.{mantissa_max, scale_max};
ghost use Rattle.apply_ast.specs.Views.{expr_of};
ghost use Rattle.apply_grammar.specs.Gives.{Gives};
ghost use Rattle.apply_grammar.specs.Limits.{served};
ghost use Rattle.apply_grammar.specs.Reading as reading;

use crate::bytes::{after, digit_run};
use crate::refusals::ExprRefused;
use apply_ast::Expr;
use edm_values::{Day, Dec, MANTISSA_MAX, SCALE_MAX, Text};
use std::alloc::Global;

/// The greatest integer literal.
pub(crate) const INTEGER_MAX: u64 = 9_223_372_036_854_775_807;

/// The digits in front, at least one.
#[tactic(auto, unfolding(crate::specs::Reading::digits_at))]
pub(crate) fn digits_at(text: &[u8]) -> Option<(&[u8], &[u8])>
    ensures exact { option_map (λ x. (x.0.now, x.1.now)) result ≡ reading.digits_at text.now }
    ensures digits { IfSome result (λ x. IsTrue (list_all is_ascii_digit x.0.now)) }
{
    let (digits, rest) = digit_run(text);
    if 1 <= digits.len() {
        Some((digits, rest))
    } else {
        None
    }
}

/// The number of the digits behind those of `start`, if it is at most `most`.
pub(crate) fn value_behind(most: u64, start: u64, digits: &[u8]) -> Option<u64>
    requires digits { IsTrue (list_all is_ascii_digit digits.now) }
    requires start { start ≤ most }
    ensures exact { result ≡ reading.value_behind most start digits.now }
    ensures small { IfSome result (λ n. n ≤ most) }
{
    let mut n = start;
    for byte in digits {
        let next = u128::from(n) * 10 + u128::from(*byte - b'0');
        if next > u128::from(most) {
            return None;
        }
        n = next as u64;
    }
    Some(n)
}

/// A number in digits, at most `most`.
#[tactic(auto, unfolding(crate::specs::Reading::count_at))]
pub(crate) fn count_at(most: u64, text: &[u8]) -> Option<(u64, &[u8])>
    ensures exact { option_map (λ x. (x.0, x.1.now)) result ≡ reading.count_at most text.now }
    ensures small { IfSome result (λ x. x.0 ≤ most) }
{
    let (digits, rest) = digits_at(text)?;
    Some((value_behind(most, 0, digits)?, rest))
}

/// The decimal of a mantissa and a scale in range.
fn make_decimal(mantissa: u64, scale: usize) -> Dec
    requires mantissa { mantissa ≤ mantissa_max }
    requires scale { scale ≤ scale_max }
    ensures mantissa { result.mantissa ≡ pos mantissa }
    ensures scale { result.scale ≡ scale }
{
    match Dec::new(mantissa as i64, scale as u8) {
        Some(decimal) => decimal,
        None => unreachable!(),
    }
}

/// The decimal of the digits before the point and those at the front of the text.
#[tactic(auto, unfolding(crate::specs::Reading::decimal_at))]
pub(crate) fn decimal_at<'a>(whole: &[u8], text: &'a [u8]) -> Option<(Dec, &'a [u8])>
    requires { IsTrue (list_all is_ascii_digit whole.now) }
    ensures { option_map (λ x. ((x.0.mantissa, x.0.scale), x.1.now)) result ≡ reading.decimal_at whole.now text.now }
{
    let (digits, rest) = digits_at(text)?;
    let front = value_behind(MANTISSA_MAX as u64, 0, whole)?;
    let mantissa = value_behind(MANTISSA_MAX as u64, front, digits)?;
    if digits.len() <= SCALE_MAX as usize {
        Some((make_decimal(mantissa, digits.len()), rest))
    } else {
        None
    }
}

/// A month or a day of the month, of two digits.
#[tactic(auto, unfolding(crate::specs::Reading::two_digits_at))]
fn two_digits_at(text: &[u8]) -> Option<(u64, &[u8])>
    ensures exact { option_map (λ x. (x.0, x.1.now)) result ≡ reading.two_digits_at text.now }
    ensures small { IfSome result (λ x. x.0 ≤ 99) }
{
    let (digits, rest) = digits_at(text)?;
    let n = value_behind(99, 0, digits)?;
    if digits.len() == 2 {
        Some((n, rest))
    } else {
        None
    }
}

/// The day of the digits of a year, and of the month and the day at the front of the text.
#[tactic(auto, unfolding(crate::specs::Reading::date_at))]
fn date_at<'a>(year: &[u8], text: &'a [u8]) -> Option<(Expr, &'a [u8])>
    requires { IsTrue (list_all is_ascii_digit year.now) }
    ensures { option_map (λ x. (expr_of x.0, x.1.now)) result ≡ reading.date_at year.now text.now }
{
    let y = value_behind(9999, 0, year)?;
    let (month, rest) = two_digits_at(text)?;
    let behind = after(rest, b'-')?;
    let (day, rest) = two_digits_at(behind)?;
    if year.len() != 4 {
        return None;
    }
    match Day::new(y as i32, month as u8, day as u8) {
        Some(day) => Some((Expr::Day(day), rest)),
        None => None,
    }
}

/// The decimal, date or integer that begins with these digits.
#[tactic(auto, unfolding(crate::specs::Reading::number_behind))]
fn number_behind<'a>(digits: &[u8], text: &'a [u8]) -> Option<(Expr, &'a [u8])>
    requires { IsTrue (list_all is_ascii_digit digits.now) }
    ensures { option_map (λ x. (expr_of x.0, x.1.now)) result ≡ reading.number_behind digits.now text.now }
{
    match after(text, b'.') {
        Some(behind) => match decimal_at(digits, behind) {
            Some((decimal, rest)) => Some((Expr::Dec(decimal), rest)),
            None => None,
        },
        None => match after(text, b'-') {
            Some(behind) => date_at(digits, behind),
            None => {
                let n = value_behind(INTEGER_MAX, 0, digits)?;
                Some((Expr::Int(n as i64), text))
            }
        },
    }
}

/// The same, as an answer.
pub(crate) fn read_number<'a>(
    digits: &[u8],
    text: &'a [u8],
) -> Result<(Expr, &'a [u8]), ExprRefused>
    requires { IsTrue (list_all is_ascii_digit digits.now) }
    ensures { Gives (λ x. (expr_of x.0, x.1.now)) result (reading.number_behind digits.now text.now) }
{
    match number_behind(digits, text) {
        Some(x) => Ok(x),
        None => Err(ExprRefused::Syntax),
    }
}

/// The bytes up to the closing quote.
fn read_quote(alloc: Global, text: &[u8]) -> Result<(Vec<u8>, &[u8]), ExprRefused>
    ensures { Gives (λ x. (x.0.items, x.1.now)) result (reading.quote_at text.now) }
{
    let mut out = Vec::new(alloc);
    let mut rest = text;
    while let Some((first, behind)) = rest.split_first() {
        if *first != b'\'' {
            out.push(*first)?;
            rest = behind;
        } else if let Some(next) = after(behind, b'\'') {
            out.push(b'\'')?;
            rest = next;
        } else {
            return Ok((out, behind));
        }
    }
    Err(ExprRefused::Syntax)
}

/// The text literal up to the closing quote.
#[tactic(auto, unfolding(crate::specs::Reading::text_at))]
pub(crate) fn read_text(alloc: Global, text: &[u8]) -> Result<(Expr, &[u8]), ExprRefused>
    ensures { Gives (λ x. (expr_of x.0, x.1.now)) result (reading.text_at served text.now) }
{
    let (bytes, rest) = read_quote(alloc, text)?;
    match String::from_utf8(bytes) {
        Ok(string) => Ok((Expr::Text(Text::new(string)?), rest)),
        Err(_) => Err(ExprRefused::Syntax),
    }
}
