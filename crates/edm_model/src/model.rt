//! Models and their readers.
ghost use Rattle.std.specs.Prelude.{ℕ, ◌≡◌, ◌<◌, length, map, Some, false, true, option_map, IfOk, IfSome};
ghost use Rattle.std.specs.List.{All};
ghost use Rattle.edm_values.specs.Lists.{places};
ghost use Rattle.edm_model.specs.LookUps.{parts, type_at, property_at, navigation_on, hierarchy_on, properties_of, navigations_of, IsSet, IsType, IsProperty, IsNavigation, IsHierarchy, IsCustom, found_part, property_named, navigation_named, hierarchy_of_type_named, custom_named, hierarchies_of_type, customs_of_type, dependent_of, partner_of, parent_of};
ghost use Rattle.edm_model.specs.LookUps as find;
ghost use Rattle.edm_model.specs.Soundness.{IsSound, IsReference};
ghost use Rattle.edm_schema.specs.NameOrders.{AreOrdered};
ghost use Rattle.edm_model.specs.IdLists.{hierarchy_parts, custom_list, HasIds};

use crate::id_lists::{all_customs, all_hier_ids, all_nav_ids, all_prop_ids, set_ids, type_sets};
use crate::ids::{CustomId, HierId, NavId, PropId, SetId, TypeId};
use crate::parts::{
    Custom, Definition, EntitySet, EntityType, Hierarchy, Ids, Navigation, Property,
};
use edm_schema::find_named;
use edm_values::EdmType;
use std::alloc::{AllocError, Global};

/// The entity types and entity sets of an accepted model file.
#[derive(Debug, Drop)]
pub struct Model {
    types: Vec<EntityType>,
    sets: Vec<EntitySet>,
    ids: Ids,
}

impl std::marker::Model for Model {
    ghost use Rattle.edm_model.specs.Models as seen;

    ghost Value = { seen.Model };

    ghost use Rattle.edm_model.specs.Soundness.{IsSound};
    ghost use Rattle.edm_model.specs.IdLists.{HasIds};

    ghost view = { λ m. record { types = m.types.items; sets = m.sets.items } };

    ghost invariant = { λ m. IsSound (record { types = m.types.items; sets = m.sets.items }) × HasIds (record { types = m.types.items; sets = m.sets.items }) m.ids };
}

/// The ids of these types and sets.
#[tactic(auto, using(crate::proofs::IdFacts::ids_hold))]
fn ids_of(alloc: Global, types: &[EntityType], sets: &[EntitySet]) -> Result<Ids, AllocError>
    ensures { IfOk result (HasIds (record { types = types.now; sets = sets.now })) }
{
    let set_ids = set_ids(alloc, sets.len())?;
    let type_sets = type_sets(alloc, sets, types.len())?;
    let properties = all_prop_ids(alloc, types)?;
    let navigations = all_nav_ids(alloc, types)?;
    let hierarchies = all_hier_ids(alloc, types)?;
    let customs = all_customs(alloc, types)?;
    Ok(Ids {
        sets: set_ids,
        type_sets,
        properties,
        navigations,
        hierarchies,
        customs,
    })
}

impl Model {
    /// The model of these types and sets.
    pub(crate) fn from_parts(
        alloc: Global,
        types: Vec<EntityType>,
        sets: Vec<EntitySet>,
    ) -> Result<Model, AllocError>
        requires { IsSound (record { types = types.items; sets = sets.items }) }
        ensures { IfOk result (λ m. m ≡ record { types = types.items; sets = sets.items }) }
    {
        let ids = ids_of(alloc, types.as_slice(), sets.as_slice())?;
        Ok(Model { types, sets, ids })
    }

    /// The entity sets, in byte order of their names.
    pub fn sets(&self) -> &[SetId]
        ensures value { result.now ≡ places (length self.now.sets) }
        ensures there { All (IsSet self.now) result.now }
        ensures sound { IsSound self.now }
    {
        self.ids.sets.as_slice()
    }

    /// The set of this name.
    pub fn set_named(&self, n: &str) -> Option<SetId>
        ensures value { result ≡ find.set_named self.now n.now }
        ensures there { IfSome result (IsSet self.now) }
    {
        match find_named(self.sets.as_slice(), n) {
            Some(place) => Some(SetId { place }),
            None => None,
        }
    }

    /// The name of a set.
    pub fn set_name(&self, s: SetId) -> &str
        requires { IsSet self.now s }
        ensures value { result.now ≡ find.set_name self.now s }
    {
        let set = &self.sets[s.place];
        set.name.as_str()
    }

    /// The entity type of a set.
    pub fn set_type(&self, s: SetId) -> TypeId
        requires { IsSet self.now s }
        ensures value { result ≡ find.set_type self.now s }
        ensures there { IsType self.now result }
    {
        let set = &self.sets[s.place];
        TypeId { place: set.of }
    }

    /// The one set of an entity type.
    pub fn type_set(&self, t: TypeId) -> SetId
        requires { IsType self.now t }
        ensures value { result ≡ find.set_of_type self.now t }
        ensures there { IsSet self.now result }
    {
        self.ids.type_sets[t.place]
    }

    /// The name of an entity type, without its namespace.
    pub fn type_name(&self, t: TypeId) -> &str
        requires { IsType self.now t }
        ensures value { result.now ≡ find.type_name self.now t }
    {
        let entity_type = &self.types[t.place];
        entity_type.name.as_str()
    }

    /// The property of this name.
    #[tactic(auto, using(crate::proofs::FoundByName::found_place))]
    pub fn prop_named(&self, t: TypeId, n: &str) -> Option<PropId>
        requires { IsType self.now t }
        ensures value { result ≡ found_part t (property_named self.now t n.now) }
        ensures there { IfSome result (IsProperty self.now) }
    {
        let of = t.place();
        match find_named(self.properties_in(of), n) {
            Some(at) => Some(PropId { of, at }),
            None => None,
        }
    }

    /// The navigation property of this name.
    #[tactic(auto, using(crate::proofs::FoundByName::found_place))]
    pub fn nav_named(&self, t: TypeId, n: &str) -> Option<NavId>
        requires { IsType self.now t }
        ensures value { result ≡ found_part t (navigation_named self.now t n.now) }
        ensures there { IfSome result (IsNavigation self.now) }
    {
        let of = t.place();
        match find_named(self.navigations_in(of), n) {
            Some(at) => Some(NavId { of, at }),
            None => None,
        }
    }

    /// The hierarchy of this qualifier over the nodes of a set.
    #[tactic(auto, using(crate::proofs::FoundByName::found_place))]
    pub fn hier_named(&self, s: SetId, q: &str) -> Option<HierId>
        requires { IsSet self.now s }
        ensures value { let t = find.set_type self.now s in result ≡ found_part t (hierarchy_of_type_named self.now t q.now) }
        ensures there { IfSome result (IsHierarchy self.now) }
    {
        let of = self.set_type(s).place();
        match find_named(self.hierarchies_in(of), q) {
            Some(at) => Some(HierId { of, at }),
            None => None,
        }
    }

    /// The custom aggregate of this name.
    #[tactic(auto, using(crate::proofs::FoundByName::found_place))]
    pub fn custom_named(&self, t: TypeId, n: &str) -> Option<CustomId>
        requires { IsType self.now t }
        ensures value { result ≡ found_part t (custom_named self.now t n.now) }
        ensures there { IfSome result (IsCustom self.now) }
    {
        let of = t.place();
        match find_named(self.customs_in(of), n) {
            Some(at) => Some(CustomId { of, at }),
            None => None,
        }
    }

    /// The properties of an entity type, in byte order of their names.
    pub fn props(&self, t: TypeId) -> &[PropId]
        requires { IsType self.now t }
        ensures value { result.now ≡ parts t (length (properties_of self.now t)) }
    {
        let ids = &self.ids.properties[t.place];
        ids.as_slice()
    }

    /// The navigation properties of an entity type, in byte order of their names.
    pub fn navs(&self, t: TypeId) -> &[NavId]
        requires { IsType self.now t }
        ensures value { result.now ≡ parts t (length (navigations_of self.now t)) }
    {
        let ids = &self.ids.navigations[t.place];
        ids.as_slice()
    }

    /// The key of an entity type.
    pub fn key_of(&self, t: TypeId) -> PropId
        requires { IsType self.now t }
        ensures value { result ≡ find.key_of self.now t }
        ensures there { IsProperty self.now result }
    {
        let entity_type = &self.types[t.place];
        PropId {
            of: t.place,
            at: entity_type.key,
        }
    }

    /// The name of a property.
    pub fn prop_name(&self, p: PropId) -> &str
        requires { IsProperty self.now p }
        ensures value { option_map (λ q. q.name) (property_at self.now p) ≡ Some result.now }
    {
        let property = self.property(p);
        property.name.as_str()
    }

    /// The type of a property.
    pub fn prop_type(&self, p: PropId) -> EdmType
        requires { IsProperty self.now p }
        ensures value { option_map (λ q. q.kind) (property_at self.now p) ≡ Some result }
    {
        let property = self.property(p);
        property.kind
    }

    /// Whether a property may be null.
    pub fn prop_nullable(&self, p: PropId) -> bool
        requires { IsProperty self.now p }
        ensures value { option_map (λ q. q.nullable) (property_at self.now p) ≡ Some result }
    {
        let property = self.property(p);
        property.nullable
    }

    /// The name of a navigation property.
    pub fn nav_name(&self, n: NavId) -> &str
        requires { IsNavigation self.now n }
        ensures value { option_map (λ v. v.name) (navigation_on self.now n) ≡ Some result.now }
    {
        let navigation = self.navigation(n);
        navigation.name.as_str()
    }

    /// The entity type that a navigation property leads to.
    pub fn nav_target(&self, n: NavId) -> TypeId
        requires { IsNavigation self.now n }
        ensures value { option_map (λ v. v.target) (navigation_on self.now n) ≡ Some result }
        ensures there { IsType self.now result }
    {
        let navigation = self.navigation(n);
        TypeId {
            place: navigation.target,
        }
    }

    /// Whether a navigation property is collection-valued.
    pub fn nav_many(&self, n: NavId) -> bool
        requires { IsNavigation self.now n }
        ensures value { option_map (λ v. v.many) (navigation_on self.now n) ≡ Some result }
    {
        let navigation = self.navigation(n);
        navigation.many
    }

    /// The property that refers to the target's key, of a single-valued navigation property.
    pub fn nav_dependent(&self, n: NavId) -> PropId
        requires there { IsNavigation self.now n }
        requires one { option_map (λ v. v.many) (navigation_on self.now n) ≡ Some false }
        ensures value { option_map (λ v. dependent_of n v) (navigation_on self.now n) ≡ Some result }
        ensures there { IsProperty self.now result }
    {
        let navigation = self.navigation(n);
        PropId {
            of: n.of,
            at: navigation.dependent,
        }
    }

    /// The single-valued navigation property of the target that leads back, of a collection-valued one.
    pub fn nav_partner(&self, n: NavId) -> NavId
        requires there { IsNavigation self.now n }
        requires many { option_map (λ v. v.many) (navigation_on self.now n) ≡ Some true }
        ensures value { option_map partner_of (navigation_on self.now n) ≡ Some result }
        ensures there { IsNavigation self.now result }
        ensures back { IsReference self.now result n.of }
    {
        let navigation = self.navigation(n);
        NavId {
            of: navigation.target,
            at: navigation.partner,
        }
    }

    /// The hierarchies, by type name and then by qualifier.
    pub fn hiers(&self) -> &[HierId]
        ensures value { result.now ≡ hierarchy_parts self.now }
        ensures there { All (IsHierarchy self.now) result.now }
    {
        self.ids.hierarchies.as_slice()
    }

    /// The qualifier of a hierarchy.
    pub fn hier_name(&self, h: HierId) -> &str
        requires { IsHierarchy self.now h }
        ensures value { option_map (λ q. q.qualifier) (hierarchy_on self.now h) ≡ Some result.now }
    {
        let hierarchy = self.hierarchy(h);
        hierarchy.qualifier.as_str()
    }

    /// The set of a hierarchy's nodes.
    pub fn hier_set(&self, h: HierId) -> SetId
        requires { IsHierarchy self.now h }
        ensures value { result ≡ find.set_of_type self.now h.of }
        ensures there { IsSet self.now result }
    {
        self.type_set(TypeId { place: h.of })
    }

    /// The single-valued navigation property from a hierarchy's node to its parent.
    pub fn hier_parent(&self, h: HierId) -> NavId
        requires { IsHierarchy self.now h }
        ensures value { option_map (λ q. parent_of h q) (hierarchy_on self.now h) ≡ Some result }
        ensures there { IsNavigation self.now result }
        ensures back { IsReference self.now result h.of }
        ensures node { find.set_type self.now (find.set_of_type self.now h.of) ≡ h.of }
    {
        let hierarchy = self.hierarchy(h);
        NavId {
            of: h.of,
            at: hierarchy.parent,
        }
    }

    /// The custom aggregates, by type name and then by name.
    pub fn customs(&self) -> &[Custom]
        ensures value { result.now ≡ custom_list self.now }
        ensures there { All (λ c. IsCustom self.now c.id) result.now }
    {
        self.ids.customs.as_slice()
    }

    /// The properties of the type at this place.
    fn properties_in(&self, t: usize) -> &[Property]
        requires { IsType self.now t }
        ensures value { result.now ≡ properties_of self.now t }
        ensures ordered { AreOrdered (map (λ p. p.name) result.now) }
    {
        let entity_type = &self.types[t];
        entity_type.properties.as_slice()
    }

    /// The navigation properties of the type at this place.
    fn navigations_in(&self, t: usize) -> &[Navigation]
        requires { IsType self.now t }
        ensures value { result.now ≡ navigations_of self.now t }
        ensures ordered { AreOrdered (map (λ n. n.name) result.now) }
    {
        let entity_type = &self.types[t];
        entity_type.navigations.as_slice()
    }

    /// The hierarchies of the type at this place.
    fn hierarchies_in(&self, t: usize) -> &[Hierarchy]
        requires { IsType self.now t }
        ensures value { result.now ≡ hierarchies_of_type self.now t }
        ensures ordered { AreOrdered (map (λ h. h.qualifier) result.now) }
    {
        let entity_type = &self.types[t];
        entity_type.hierarchies.as_slice()
    }

    /// The custom aggregates of the type at this place.
    fn customs_in(&self, t: usize) -> &[Definition]
        requires { IsType self.now t }
        ensures value { result.now ≡ customs_of_type self.now t }
        ensures ordered { AreOrdered (map (λ c. c.name) result.now) }
    {
        let entity_type = &self.types[t];
        entity_type.customs.as_slice()
    }

    /// The property at this place.
    fn property(&self, p: PropId) -> &Property
        requires { IsProperty self.now p }
        ensures { property_at self.now p ≡ Some result.now }
    {
        let entity_type = &self.types[p.of];
        &entity_type.properties[p.at]
    }

    /// The navigation property at this place.
    fn navigation(&self, n: NavId) -> &Navigation
        requires { IsNavigation self.now n }
        ensures value { navigation_on self.now n ≡ Some result.now }
        ensures sound { IsSound self.now }
    {
        let entity_type = &self.types[n.of];
        &entity_type.navigations[n.at]
    }

    /// The hierarchy at this place.
    fn hierarchy(&self, h: HierId) -> &Hierarchy
        requires { IsHierarchy self.now h }
        ensures value { hierarchy_on self.now h ≡ Some result.now }
        ensures sound { IsSound self.now }
    {
        let entity_type = &self.types[h.of];
        &entity_type.hierarchies[h.at]
    }
}
