//! Keys in their order.
ghost use Rattle.std.specs.Prelude.{◌≡◌};
ghost use Rattle.std.proofs.Common.{rules};
ghost use Rattle.std.specs.Cmp.{partial_order_from_own_ties, partial_equiv_from_equiv, eq_by_cmp_equiv};
ghost use Rattle.std.specs.Cmp.Rules.{comparing};
ghost use Rattle.std.specs.Ordering.{as_partial_cmp, on};
ghost use Rattle.edm_values.specs.Values.{same_value, seen_value, value_cmp};
ghost use Rattle.edm_data.specs.Keys.{key_cmp, key_cmp_total, same_key};

use edm_values::{Seen, order};
use std::cmp::Ordering;

/// A key that is seen, in the order of values.
#[derive(Clone, Copy, Drop)]
pub(crate) struct Key<'a> {
    pub(crate) value: Seen<'a>,
}

impl PartialEq for Key<'_> {
    ghost eq = { same_key };

    ghost laws = { partial_equiv_from_equiv (eq_by_cmp_equiv key_cmp_total) };

    fn eq(&self, other: &Self) -> bool {
        self.cmp(other).is_eq()
    }
}

impl Eq for Key<'_> {
    ghost laws = { eq_by_cmp_equiv key_cmp_total };
}

impl PartialOrd for Key<'_> {
    ghost partial_cmp = { as_partial_cmp key_cmp };

    ghost laws = { Prim.search (comparing, rules, key_cmp_total) };

    fn partial_cmp(&self, other: &Self) -> Option<Ordering> {
        Some(self.cmp(other))
    }
}

impl Ord for Key<'_> {
    ghost cmp = { key_cmp };

    ghost total = { key_cmp_total };

    ghost matches_partial_cmp = { Prim.search (comparing, rules) };

    ghost matches_eq = { Prim.search (comparing, rules) };

    fn cmp(&self, other: &Self) -> Ordering {
        order(self.value, other.value)
    }
}
