//! The definitions of custom aggregates.
ghost use Rattle.std.specs.Prelude.{◌≡◌, Some, find};
ghost use Rattle.std.specs.Option.{option_copied};
ghost use Rattle.edm_model.specs.LookUps.{custom_on, IsCustom};
ghost use Rattle.context_typing.specs.Answers.{custom_of};
ghost use Rattle.context_typing.specs.Readings.{same_part};

use apply_meaning::data_is_loaded;
use edm_data::Data;
use edm_model::{Custom, CustomId};

/// Whether the two are one custom aggregate.
fn same_id(a: CustomId, b: CustomId) -> bool
    ensures { result ≡ same_part a b }
{
    a == b
}

/// The custom aggregate of this id in the list.
fn find_custom(customs: &[Custom], id: CustomId) -> Option<&Custom>
    ensures { option_copied result ≡ find (λ u. same_part u.id id) customs.now }
{
    customs.iter().find(|custom| same_id(custom.id, id))
}

/// The definition of a custom aggregate.
pub(crate) fn definition(store: &Data, id: CustomId) -> &Custom
    requires { IsCustom store.now.model id }
    ensures { custom_on store.now.model id ≡ Some (custom_of result.now) }
{
    data_is_loaded(store);
    match find_custom(store.model().customs(), id) {
        Some(custom) => custom,
        None => unreachable!(),
    }
}
