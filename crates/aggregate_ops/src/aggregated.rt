//! What a partial over values has in the end, where that is their aggregate by a method.
ghost use Rattle.std.specs.Prelude.{◌≡◌, ℕ, List, IfOk};
ghost use Rattle.edm_values.specs.declared.Method.{Method as Method'};
ghost use Rattle.edm_values.specs.declared.Method.TheVariants as by;
ghost use Rattle.edm_values.specs.declared.Value.{Value as Value'};
ghost use Rattle.apply_meaning.specs.Aggregates.{aggregate};
ghost use Rattle.aggregate_ops.specs.Partials as partials;

use crate::extremes::{MaxOf, MinOf};
use crate::sums::SumOf;
use edm_values::Value;
use seen_partials::SeenPartial;
use std::alloc::AllocError;

/// A partial over values that has their aggregate by a method.
pub trait Aggregated: SeenPartial {
    // The method.
    ghost method: { Method' };

    /// The aggregate of the values that were added. A refusal is want of memory.
    fn outcome(&self) -> Result<Value, AllocError>
        ensures value { IfOk result (λ v. (xs : List (Value' × ℕ)) → Self.stands_for self.now xs → v ≡ aggregate method (partials.values xs)) };
}

impl Aggregated for SumOf {
    ghost method = { by.Sum };

    fn outcome(&self) -> Result<Value, AllocError> {
        Ok(self.finish())
    }
}

impl Aggregated for MinOf {
    ghost method = { by.Min };

    fn outcome(&self) -> Result<Value, AllocError> {
        self.finish()
    }
}

impl Aggregated for MaxOf {
    ghost method = { by.Max };

    fn outcome(&self) -> Result<Value, AllocError> {
        self.finish()
    }
}
