//! Values as keys of maps: equality, hashing and the total order, by `order`.
ghost use Rattle.std.specs.Prelude.{◌≡◌};
ghost use Rattle.std.proofs.Common.{rules};
ghost use Rattle.std.specs.Cmp.{partial_order_from_own_ties, partial_equiv_from_equiv, eq_by_cmp_equiv};
ghost use Rattle.std.specs.Cmp.Rules.{comparing};
ghost use Rattle.std.specs.Ordering.{as_partial_cmp, on};
ghost use Rattle.edm_values.specs.Keys.{hash_writes};
ghost use Rattle.edm_values.specs.Values.{same_value, seen_value, value_cmp};
ghost use Rattle.edm_values.specs.OrderLaws.{same_value_is, value_cmp_total};

use crate::{Seen, Value, order};
use std::cmp::Ordering;
use std::hash::{Hash, Hasher};

impl PartialEq for Value {
    ghost eq = { same_value };

    ghost laws = { partial_equiv_from_equiv (eq_by_cmp_equiv value_cmp_total) };

    fn eq(&self, other: &Value) -> bool {
        self.cmp(other).is_eq()
    }
}

impl Eq for Value {
    ghost laws = { eq_by_cmp_equiv value_cmp_total };
}

impl Hash for Value {
    ghost hash_input = { hash_writes };

    ghost respects_eq = { λ x y h. Prim.search (same_value_is x y h) };

    fn hash<H: Hasher>(&self, state: &mut H) {
        match self {
            Value::Null => 0u8.hash(state),
            Value::Bool(b) => {
                1u8.hash(state);
                b.hash(state);
            }
            Value::Int(n) => {
                2u8.hash(state);
                n.hash(state);
            }
            Value::Dec(d) => {
                3u8.hash(state);
                d.mantissa.hash(state);
                d.scale.hash(state);
            }
            Value::Text(t) => {
                4u8.hash(state);
                t.as_str().hash(state);
            }
            Value::Day(d) => {
                5u8.hash(state);
                d.year.hash(state);
                d.month.hash(state);
                d.day.hash(state);
            }
            Value::Beyond => 6u8.hash(state),
        }
    }
}

impl PartialOrd for Value {
    ghost partial_cmp = { as_partial_cmp value_cmp };

    ghost laws = { Prim.search (comparing, rules, value_cmp_total) };

    fn partial_cmp(&self, other: &Value) -> Option<Ordering> {
        Some(self.cmp(other))
    }
}

impl Ord for Value {
    ghost cmp = { value_cmp };

    ghost total = { value_cmp_total };

    ghost matches_partial_cmp = { Prim.search (comparing, rules) };

    ghost matches_eq = { Prim.search (comparing, rules) };

    fn cmp(&self, other: &Value) -> Ordering {
        order(self.seen(), other.seen())
    }
}
