//! The last value of some first values of a key, beside the number of those before it.
ghost use Rattle.std.specs.Prelude.{◌≡◌};
ghost use Rattle.std.specs.Cmp.{partial_equiv_from_equiv};
ghost use Rattle.aggregate_ops.specs.KeySteps.{same_step, same_step_equiv, step_writes, step_writes_alike};

use crate::hashed::HashedValue;
use edm_values::Value;
use std::hash::{Hash, Hasher};
use std::marker::Model;

/// A value of a key, and the number of the values before it.
#[derive(Drop)]
pub(crate) struct KeyStep<'a> {
    before: usize,
    value: HashedValue<'a>,
}

impl<'a> Model for KeyStep<'a> {
    ghost use Rattle.aggregate_ops.specs.KeySteps.{KeyStepState};

    ghost Value = { KeyStepState };

    ghost view = { λ s. record { before = s.before; value = s.value } };
}

impl<'a> KeyStep<'a> {
    /// The value behind values of this number.
    pub(crate) fn of(before: usize, value: &'a Value) -> KeyStep<'a>
        ensures { result ≡ record { before = before; value = value.now } }
    {
        KeyStep {
            before,
            value: HashedValue::of(value),
        }
    }
}

impl<'a> PartialEq for KeyStep<'a> {
    ghost eq = { same_step };

    ghost laws = { partial_equiv_from_equiv same_step_equiv };

    fn eq(&self, other: &KeyStep<'a>) -> bool {
        self.before == other.before && self.value == other.value
    }
}

impl<'a> Eq for KeyStep<'a> {
    ghost laws = { same_step_equiv };
}

impl<'a> Hash for KeyStep<'a> {
    ghost hash_input = { step_writes };

    ghost respects_eq = { step_writes_alike };

    fn hash<H: Hasher>(&self, state: &mut H) {
        self.before.hash(state);
        self.value.hash(state);
    }
}
