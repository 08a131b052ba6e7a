//! Properties by which the entities of a set refer to others.
ghost use Rattle.std.specs.Prelude.{◌≡◌, IfSome, option_map, true};
ghost use Rattle.edm_model.specs.LookUps.{IsNavigation, IsSet};
ghost use Rattle.edm_data.specs.References.{follow};
ghost use Rattle.edm_data.specs.Worlds.{entity_at};
ghost use Rattle.row_frames.specs.LinkCodes.{AreTold, IsBy};

use edm_data::Data;
use edm_model::{Model, NavId, PropId, SetId};

/// Whether entities refer to others by this property and this navigation.
fn refers(model: &Model, nav: NavId, by: PropId) -> bool
    requires { IsNavigation model.now nav }
    ensures { result ≡ true → IsBy model.now nav by.at }
{
    if model.nav_many(nav) {
        return false;
    }
    model.nav_dependent(nav).place() == by.place()
}

/// The navigation by which the entities of a set refer to others through this property, and how many entities the other set has.
pub(crate) fn reference(store: &Data, set: SetId, by: PropId) -> Option<(NavId, u32)>
    requires { IsSet store.now.model set }
    ensures { IfSome result (λ o. AreTold store.now set by.at (λ k. option_map (λ e. e.at) (follow store.now (entity_at set k) o.0.at))) }
{
    let model = store.model();
    for nav in model.navs(model.set_type(set)) {
        if refers(model, *nav, by) {
            let target = model.type_set(model.nav_target(*nav));
            return Some((*nav, store.count(target)));
        }
    }
    None
}
