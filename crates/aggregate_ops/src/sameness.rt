//! Whether values are the same, and what they write into a hash.
ghost use Rattle.std.specs.Prelude.{◌≡◌, fold};
ghost use Rattle.edm_values.specs.Keys.{hash_writes};
ghost use Rattle.edm_values.specs.Values.{same_value, seen_value};

use edm_values::{Seen, Value, order};
use std::hash::{Hash, Hasher};

/// Whether the values are the same. Integers and texts are tested as they stand, not put in order.
pub(crate) fn is_same(a: Seen<'_>, b: Seen<'_>) -> bool
    ensures { result ≡ same_value (seen_value a.entry) (seen_value b.entry) }
{
    match (a, b) {
        (Seen::Int(x), Seen::Int(y)) => x == y,
        (Seen::Text(x), Seen::Text(y)) => x == y,
        _ => order(a, b).is_eq(),
    }
}

/// Writes a value into a hash, as the value that is owned writes itself.
pub(crate) fn write_value<H: Hasher>(value: Seen<'_>, state: &mut H)
    ensures { state.new ≡ fold H.write state.old (hash_writes (seen_value value.entry)) }
{
    match value {
        Seen::Null => Value::Null.hash(state),
        Seen::Bool(b) => Value::Bool(b).hash(state),
        Seen::Int(n) => Value::Int(n).hash(state),
        Seen::Dec(d) => Value::Dec(d).hash(state),
        Seen::Text(t) => {
            4u8.hash(state);
            t.hash(state);
        }
        Seen::Day(d) => Value::Day(d).hash(state),
        Seen::Beyond => Value::Beyond.hash(state),
    }
}
