//! The operators and functions of expressions.
ghost use Rattle.std.specs.Prelude.{◌≡◌, pos, length, chars};
ghost use Rattle.edm_values.specs.declared.Value.{Value};
ghost use Rattle.edm_values.specs.Values as spec;
ghost use Rattle.edm_values.specs.Values.{seen_value};
ghost use Rattle.apply_meaning.specs.Instances.{binary, call1, call2};

use apply_ast::{BinOp, Fun1, Fun2};
use edm_values::{Seen, add, compare, mul, sub};

/// Whether the value is this Boolean.
fn is_value(b: bool, v: Seen<'_>) -> bool
    ensures { result ≡ spec.is_value b (seen_value v.entry) }
{
    match v {
        Seen::Bool(x) => x == b,
        _ => false,
    }
}

/// `eq`
fn equal<'a>(a: Seen<'a>, b: Seen<'a>) -> Seen<'a>
    ensures { seen_value result ≡ spec.equal (seen_value a.entry) (seen_value b.entry) }
{
    if a.is_beyond() || b.is_beyond() {
        Seen::Beyond
    } else if a.is_null() || b.is_null() {
        Seen::Bool(a.is_null() && b.is_null())
    } else {
        match compare(a, b) {
            Some(order) => Seen::Bool(order.is_eq()),
            None => Seen::Bool(false),
        }
    }
}

/// `ne`
fn not_equal<'a>(a: Seen<'a>, b: Seen<'a>) -> Seen<'a>
    ensures { seen_value result ≡ spec.not_equal (seen_value a.entry) (seen_value b.entry) }
{
    if a.is_beyond() || b.is_beyond() {
        Seen::Beyond
    } else if a.is_null() || b.is_null() {
        Seen::Bool(!(a.is_null() && b.is_null()))
    } else {
        match compare(a, b) {
            Some(order) => Seen::Bool(order.is_ne()),
            None => Seen::Bool(false),
        }
    }
}

/// `gt`
fn greater<'a>(a: Seen<'a>, b: Seen<'a>) -> Seen<'a>
    ensures { seen_value result ≡ spec.greater (seen_value a.entry) (seen_value b.entry) }
{
    if a.is_beyond() || b.is_beyond() {
        return Seen::Beyond;
    }
    match compare(a, b) {
        Some(order) => Seen::Bool(order.is_gt()),
        None => Seen::Bool(false),
    }
}

/// `ge`
fn greater_or_equal<'a>(a: Seen<'a>, b: Seen<'a>) -> Seen<'a>
    ensures { seen_value result ≡ spec.greater_or_equal (seen_value a.entry) (seen_value b.entry) }
{
    if a.is_beyond() || b.is_beyond() {
        return Seen::Beyond;
    }
    match compare(a, b) {
        Some(order) => Seen::Bool(order.is_ge()),
        None => Seen::Bool(false),
    }
}

/// `lt`
fn less<'a>(a: Seen<'a>, b: Seen<'a>) -> Seen<'a>
    ensures { seen_value result ≡ spec.less (seen_value a.entry) (seen_value b.entry) }
{
    if a.is_beyond() || b.is_beyond() {
        return Seen::Beyond;
    }
    match compare(a, b) {
        Some(order) => Seen::Bool(order.is_lt()),
        None => Seen::Bool(false),
    }
}

/// `le`
fn less_or_equal<'a>(a: Seen<'a>, b: Seen<'a>) -> Seen<'a>
    ensures { seen_value result ≡ spec.less_or_equal (seen_value a.entry) (seen_value b.entry) }
{
    if a.is_beyond() || b.is_beyond() {
        return Seen::Beyond;
    }
    match compare(a, b) {
        Some(order) => Seen::Bool(order.is_le()),
        None => Seen::Bool(false),
    }
}

/// `and`
fn both<'a>(a: Seen<'a>, b: Seen<'a>) -> Seen<'a>
    ensures { seen_value result ≡ spec.both (seen_value a.entry) (seen_value b.entry) }
{
    if a.is_beyond() || b.is_beyond() {
        Seen::Beyond
    } else if is_value(false, a) || is_value(false, b) {
        Seen::Bool(false)
    } else if is_value(true, a) && is_value(true, b) {
        Seen::Bool(true)
    } else {
        Seen::Null
    }
}

/// `or`
fn either<'a>(a: Seen<'a>, b: Seen<'a>) -> Seen<'a>
    ensures { seen_value result ≡ spec.either (seen_value a.entry) (seen_value b.entry) }
{
    if a.is_beyond() || b.is_beyond() {
        Seen::Beyond
    } else if is_value(true, a) || is_value(true, b) {
        Seen::Bool(true)
    } else if is_value(false, a) && is_value(false, b) {
        Seen::Bool(false)
    } else {
        Seen::Null
    }
}

/// `not`
pub fn negation<'a>(a: Seen<'a>) -> Seen<'a>
    ensures value { seen_value result ≡ spec.negation (seen_value a.entry) }
{
    match a {
        Seen::Beyond => Seen::Beyond,
        Seen::Bool(x) => Seen::Bool(!x),
        _ => Seen::Null,
    }
}

/// The value of a binary operation.
pub fn binary<'a>(op: BinOp, a: Seen<'a>, b: Seen<'a>) -> Seen<'a>
    ensures value { seen_value result ≡ binary op (seen_value a.entry) (seen_value b.entry) }
{
    match op {
        BinOp::Or => either(a, b),
        BinOp::And => both(a, b),
        BinOp::Eq => equal(a, b),
        BinOp::Ne => not_equal(a, b),
        BinOp::Gt => greater(a, b),
        BinOp::Ge => greater_or_equal(a, b),
        BinOp::Lt => less(a, b),
        BinOp::Le => less_or_equal(a, b),
        BinOp::Add => add(a, b),
        BinOp::Sub => sub(a, b),
        BinOp::Mul => mul(a, b),
    }
}

/// The value of a function of one argument.
pub fn call1<'a>(f: Fun1, a: Seen<'a>) -> Seen<'a>
    ensures value { seen_value result ≡ call1 f (seen_value a.entry) }
{
    match (f, a) {
        (_, Seen::Beyond) => Seen::Beyond,
        (Fun1::Length, Seen::Text(t)) => Seen::Int(scalar_count(t)),
        (Fun1::Year, Seen::Day(d)) => Seen::Int(i64::from(d.year())),
        (Fun1::Month, Seen::Day(d)) => Seen::Int(i64::from(d.month())),
        (Fun1::Day, Seen::Day(d)) => Seen::Int(i64::from(d.day())),
        _ => Seen::Null,
    }
}

/// The value of a function of two texts.
pub fn call2<'a>(f: Fun2, a: Seen<'a>, b: Seen<'a>) -> Seen<'a>
    ensures value { seen_value result ≡ call2 f (seen_value a.entry) (seen_value b.entry) }
{
    match (a, b) {
        (Seen::Beyond, _) | (_, Seen::Beyond) => Seen::Beyond,
        (Seen::Text(x), Seen::Text(y)) => Seen::Bool(holds(f, x, y)),
        _ => Seen::Null,
    }
}

/// Whether the test of two texts holds.
fn holds(f: Fun2, text: &str, other: &str) -> bool
    ensures { Value.Bool result ≡ call2 f (Value.Text text.now) (Value.Text other.now) }
{
    match f {
        Fun2::StartsWith => text.starts_with(other),
        Fun2::EndsWith => text.ends_with(other),
        Fun2::Contains => text.contains(other),
    }
}

/// How many Unicode scalar values the text has.
fn scalars(text: &str) -> usize
    ensures count { result ≡ length (chars text.now) }
{
    text.chars().count()
}

/// The same as an integer.
fn scalar_count(text: &str) -> i64
    ensures { result ≡ pos (length (chars text.now)) }
{
    let (count, bytes) = (scalars(text), text.len());
    prove!(count <= bytes);
    count as i64
}
