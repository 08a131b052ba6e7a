//! Loaded data and its readers.
ghost use Rattle.std.specs.Prelude.{◌≡◌, ℕ, map, option_map, IfOk, OnOk, IfErr};
ghost use Rattle.edm_model.specs.LookUps.{IsSet, IsNavigation, set_type};
ghost use Rattle.edm_values.specs.Values.{seen_value, value_in};
ghost use Rattle.edm_data.specs.DataFile.{keys_reading, references_reading, World'};
ghost use Rattle.edm_data.specs.Fitting.{FitsModel};
ghost use Rattle.edm_data.specs.LinkLists.{link_in};
ghost use Rattle.edm_data.specs.Links.{IsGroup};
ghost use Rattle.edm_data.specs.References as world;
ghost use Rattle.edm_data.specs.Refusals.{Tells};
ghost use Rattle.edm_data.specs.Worlds.{entity_at};

use crate::keyed::Keyed;
use crate::linked_places::LinkedPlaces;
use crate::property_values::PropertyValues;
use crate::references::all_relations;
use crate::relations::{Relations, relation_of};
use crate::{DataRefused, EntityRef};
use edm_model::{NavId, PropId, SetId};
use edm_values::Seen;
use std::alloc::{AllocError, Global};

/// The data of an accepted file: a model, the entities of its sets, and what they refer to.
#[derive(Drop)]
pub struct Data {
    keyed: Keyed,
    relations: Vec<Relations>,
}

impl std::marker::Model for Data {
    ghost use Rattle.edm_data.specs.Worlds.{World};
    ghost use Rattle.edm_data.specs.Links.{HasReferences};

    ghost Value = { World };

    ghost view = { λ d. d.keyed };

    ghost invariant = { λ d. HasReferences d.keyed d.relations.items };
}

impl Data {
    /// The data of entities that are found by their keys, or the first of them that refers to a key that is not there.
    pub(crate) fn new(alloc: Global, keyed: Keyed) -> Result<Data, DataRefused>
        ensures ok { IfOk result (λ d. d ≡ keyed) }
        ensures sound { OnOk result (references_reading keyed ≡ World' keyed) }
        ensures refused { IfErr result (λ refused. Tells refused (references_reading keyed)) }
    {
        let relations = all_relations(alloc, &keyed)?;
        Ok(Data { keyed, relations })
    }

    /// The model.
    pub fn model(&self) -> &edm_model::Model
        ensures value { result.now ≡ self.now.model }
        ensures fits { FitsModel self.now }
        ensures distinct { keys_reading self.now ≡ World' self.now }
        ensures sound { references_reading self.now ≡ World' self.now }
    {
        let _ = &self.relations;
        self.keyed.tables().model()
    }

    /// The number of a set's entities.
    pub fn count(&self, s: SetId) -> u32
        ensures value { result ≡ world.count self.now s }
    {
        self.keyed.tables().count(s)
    }

    /// The value of a property of an entity.
    pub fn property(&self, e: EntityRef, p: PropId) -> Seen<'_>
        ensures value { seen_value result ≡ world.property self.now e p.at }
    {
        self.keyed.tables().value(e, p.place())
    }

    /// The values of a property of a set's entities. No value is copied.
    pub fn values(&self, s: SetId, p: PropId) -> PropertyValues<'_>
        ensures value { (k : ℕ) → value_in result k ≡ world.property self.now (entity_at s k) p.at }
    {
        PropertyValues::of(self.keyed.tables().column(s, p.place()))
    }

    /// What a set's entities refer to by a single-valued navigation property; by a collection-valued one, nothing.
    pub fn linked_places(&self, s: SetId, n: NavId) -> LinkedPlaces<'_>
        ensures value { (k : ℕ) → link_in result k ≡ option_map (λ e. e.at) (world.follow self.now (entity_at s k) n.at) }
    {
        LinkedPlaces::of(relation_of(&self.relations, s, n.place()))
    }

    /// What an entity refers to by a single-valued navigation property; by a collection-valued one, nothing.
    pub fn follow(&self, e: EntityRef, n: NavId) -> Option<EntityRef>
        ensures value { result ≡ world.follow self.now e n.at }
    {
        match relation_of(&self.relations, e.set, n.place()) {
            Some(relation) => relation.follow(e.at),
            None => None,
        }
    }

    /// The entity of a set that has this key.
    pub fn by_key(&self, s: SetId, key: Seen<'_>) -> Option<EntityRef>
        requires { IsSet self.now.model s }
        ensures value { result ≡ world.by_key self.now s (seen_value key.entry) }
    {
        self.keyed.by_key(s, key)
    }

    /// The entities that a navigation property relates an entity to, in data order: by a collection-valued one those
    /// of the target's set whose partner navigation refers to it; by a single-valued one, none.
    pub fn related(&self, e: EntityRef, n: NavId) -> Result<Vec<EntityRef>, AllocError>
        requires set { IsSet self.now.model e.set }
        requires of { n.of ≡ set_type self.now.model e.set }
        requires there { IsNavigation self.now.model n }
        ensures value { IfOk result (λ found. found.items ≡ world.related self.now e n.at) }
    {
        let model = self.model();
        let set = model.type_set(model.nav_target(n));
        entities_at(*self.relations.allocator(), set, self.places(e, n))
    }

    /// The places of the entities that a navigation relates an entity to.
    fn places(&self, e: EntityRef, n: NavId) -> &[u32]
        requires set { IsSet self.now.model e.set }
        requires of { n.of ≡ set_type self.now.model e.set }
        requires there { IsNavigation self.now.model n }
        ensures { IsGroup self.now e.set n.at e.at result.now }
    {
        let model = self.model();
        if !model.nav_many(n) {
            return &[];
        }
        let from = model.type_set(model.nav_target(n));
        match relation_of(&self.relations, from, model.nav_partner(n).place()) {
            Some(relation) => relation.linking(e),
            None => &[],
        }
    }
}

/// The entities of a set at these places.
fn entities_at(alloc: Global, set: SetId, places: &[u32]) -> Result<Vec<EntityRef>, AllocError>
    ensures { IfOk result (λ found. found.items ≡ map (entity_at set) places.now) }
{
    let mut found = Vec::with_capacity(alloc, places.len())?;
    for at in places {
        found.push(EntityRef { set, at: *at })?;
    }
    Ok(found)
}
