//! Sums of numbers.
ghost use Rattle.std.specs.Prelude.{◌≡◌, IsTrue, false, find, map};
ghost use Rattle.std.specs.List.{list_any};
ghost use Rattle.edm_values.specs.declared.EdmType.{EdmType};
ghost use Rattle.edm_values.specs.declared.Method.TheVariants as method;
ghost use Rattle.edm_values.specs.Literals.{AreNumbers, is_of_kind};
ghost use Rattle.edm_values.specs.Values as spec;
ghost use Rattle.edm_values.specs.Values.{seen_value};
ghost use Rattle.apply_meaning.specs.Aggregates.{aggregate, number_in};

use edm_values::{Dec, Seen, Value};

/// The sum of numbers of one type, tested once against the range of the type; nulls are skipped, and null is the sum of none.
pub(crate) fn sum(values: &[Seen<'_>]) -> Value
    requires numbers { AreNumbers (map seen_value values.now) }
    requires within { list_any spec.is_beyond (map seen_value values.now) ≡ false }
    ensures { result ≡ aggregate method.Sum (map seen_value values.now) }
{
    let Some(first) = first_number(values) else {
        return Value::Null;
    };
    let mut sum: i128 = 0;
    for value in values {
        sum += i128::from(value.mantissa());
    }
    number_like(first, sum)
}

/// The first of the values that is a number.
fn first_number<'a>(values: &[Seen<'a>]) -> Option<Seen<'a>>
    ensures { result ≡ find (λ v. spec.is_number (seen_value v)) values.now }
{
    values.iter().copied().find(|value| value.is_number())
}

/// The number of the same type as a number, with this mantissa, or `Beyond` where it is past the type's range.
fn number_like(v: Seen<'_>, mantissa: i128) -> Value
    requires { IsTrue (spec.is_number (seen_value v)) }
    ensures { (kind : EdmType) → IsTrue (is_of_kind kind (seen_value v.entry)) → result ≡ number_in kind mantissa }
{
    let Ok(mantissa) = i64::try_from(mantissa) else {
        return Value::Beyond;
    };
    match v {
        Seen::Dec(d) => match Dec::new(mantissa, d.scale()) {
            Some(d) => Value::Dec(d),
            None => Value::Beyond,
        },
        _ => Value::Int(mantissa),
    }
}
