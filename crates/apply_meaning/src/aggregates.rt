//! Aggregates of lists of values (Data Aggregation 4.0, section 3.2.1).
ghost use Rattle.std.specs.Prelude.{◌≡◌, IfOk, filter, map, not, pos, length, if◌then◌else◌};
ghost use Rattle.std.specs.List.{list_any};
ghost use Rattle.edm_values.specs.declared.Value.{Value as Value'};
ghost use Rattle.edm_values.specs.Lists.{distinct, first_or, sorted};
ghost use Rattle.edm_values.specs.Values.{is_beyond, same_value, seen_value};
ghost use Rattle.edm_values.specs.Values as on_values;
ghost use Rattle.apply_meaning.specs.Aggregates as spec;
ghost use Rattle.apply_meaning.specs.Meaning.{item_before};
ghost use Rattle.apply_meaning.specs.Running.{AreFor};

use crate::sums::sum;
use edm_values::{Method, Seen, Value, order};
use indexmap::IndexSet;
use std::alloc::{AllocError, Global};

/// The aggregate of values by a method, in which nulls are skipped; `Beyond` where one of the values is. The values of a
/// sum are of one type of numbers, and only their whole sum is tested against its range.
pub fn aggregate(alloc: Global, method: Method, values: &[Seen<'_>]) -> Result<Value, AllocError>
    requires { AreFor method (map seen_value values.now) }
    ensures value { IfOk result (λ v. v ≡ spec.aggregate method (map seen_value values.now)) }
{
    if has_beyond(values) {
        return Ok(Value::Beyond);
    }
    match method {
        Method::Sum => Ok(sum(values)),
        Method::Min => first_of(values, false).own(alloc),
        Method::Max => first_of(values, true).own(alloc),
        Method::CountDistinct => count_distinct(alloc, values),
    }
}

/// Whether one of the values is `Beyond`.
fn has_beyond(values: &[Seen<'_>]) -> bool
    ensures { result ≡ list_any (λ v. is_beyond (seen_value v)) values.now }
{
    values.iter().any(|value| matches!(value, Seen::Beyond))
}

/// The first of the values in ascending or descending order; null where all are null.
fn first_of<'a>(values: &[Seen<'a>], descends: bool) -> Seen<'a>
    ensures { seen_value result ≡ first_or Value'.Null (sorted (item_before descends) (filter (λ v. not (on_values.is_null v)) (map seen_value values.now))) }
{
    let mut first = Seen::Null;
    for k in (0..values.len()).rev() {
        first = earlier(values[k], first, descends);
    }
    first
}

/// The first value, or the second where the first is null or the second stands before it.
fn earlier<'a>(a: Seen<'a>, b: Seen<'a>, descends: bool) -> Seen<'a>
    ensures { let x = seen_value a.entry in let y = seen_value b.entry in
        seen_value result ≡ (if on_values.is_null x then y else (if on_values.is_null y then x else (if item_before descends y x then y else x))) }
{
    match (a, b) {
        (Seen::Null, _) => b,
        (_, Seen::Null) => a,
        _ if stands_before(b, a, descends) => b,
        _ => a,
    }
}

/// Whether the first value stands before the second in ascending or descending order.
fn stands_before(a: Seen<'_>, b: Seen<'_>, descends: bool) -> bool
    ensures { result ≡ item_before descends (seen_value a.entry) (seen_value b.entry) }
{
    if descends {
        order(b, a).is_lt()
    } else {
        order(a, b).is_lt()
    }
}

/// How many values there are that are not null, each counted once.
fn count_distinct(alloc: Global, values: &[Seen<'_>]) -> Result<Value, AllocError>
    ensures { IfOk result (λ v. v ≡ Value'.Int (pos (length (distinct same_value (filter (λ v. not (on_values.is_null v)) (map seen_value values.now)))))) }
{
    let mut seen = IndexSet::new(alloc);
    for value in values {
        if !value.is_null() {
            seen.insert(value.own(alloc)?)?;
        }
    }
    count(seen.len())
}

/// The count as a value: one past 63 bits counts more than any memory holds.
pub fn count(n: usize) -> Result<Value, AllocError>
    ensures value { IfOk result (λ v. v ≡ Value'.Int (pos n)) }
{
    match i64::try_from(n) {
        Ok(n) => Ok(Value::Int(n)),
        Err(_) => Err(AllocError),
    }
}
