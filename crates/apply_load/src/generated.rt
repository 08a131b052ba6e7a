//! The generated world, as if it had been loaded.
ghost use Rattle.std.specs.Prelude.{ℕ, ◌≤◌, IfOk};
ghost use Rattle.context_typing.specs.Readings.{readings};
ghost use Rattle.apply_load.specs.Generated.{IsGenerated};

use apply_store::{Store, judge_customs};
use edm_data::read_data;
use edm_model::read_model;
use hier_states::hier_states;
use sample_data::{gen_data, sample_model_text};
use std::alloc::{AllocError, Global};

/// The store of the generated world of so many sales. The files of this world are accepted, so that only memory can be
/// wanting.
pub fn load_generated(alloc: Global, count: u32) -> Result<Store, AllocError>
    requires some { 1 ≤ count }
    requires few { count ≤ 200000 }
    ensures value { IfOk result (λ s. IsGenerated count s.world (readings s.customs)) }
{
    let Ok(model) = read_model(alloc, sample_model_text()) else {
        return Err(AllocError);
    };
    let Ok(customs) = judge_customs(alloc, &model) else {
        return Err(AllocError);
    };
    let file = gen_data(alloc, count)?;
    let Ok(data) = read_data(alloc, model, file.as_slice()) else {
        return Err(AllocError);
    };
    let hiers = hier_states(alloc, &data)?;
    Ok(Store::new(data, customs, hiers))
}
