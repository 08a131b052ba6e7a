//! The entities of the sets, as lists of values.
ghost use Rattle.std.specs.Prelude.{◌≡◌, ℕ, ◌<◌, ◌^◌, length, map, option_map, IfOk};
ghost use Rattle.edm_model.specs.LookUps.{IsSet, IsType, key_at, parts, navigations_of, set_type};
ghost use Rattle.edm_values.specs.Values.{seen_value, value_in};
ghost use Rattle.edm_data.specs.Readers.{seen_column};
ghost use Rattle.edm_data.specs.Fitting.{FitsModel};
ghost use Rattle.edm_data.specs.References as world;
ghost use Rattle.edm_data.specs.Rows.{world_in};
ghost use Rattle.edm_data.specs.Worlds.{entity_at};

use crate::EntityRef;
use crate::columns::Column;
use crate::keys::Key;
use crate::table::Table;
use edm_model::{NavId, SetId};
use edm_values::Seen;
use std::alloc::{AllocError, Global};

/// The entities of a model's sets, in data order, each with its values in the order of its type's properties.
#[derive(Drop)]
pub(crate) struct Tables {
    model: edm_model::Model,
    sets: Vec<Table>,
}

impl std::marker::Model for Tables {
    ghost use Rattle.edm_data.specs.Worlds.{World};
    ghost use Rattle.edm_data.specs.Fitting.{FitsModel};
    ghost use Rattle.edm_data.specs.Rows.{world_in};

    ghost Value = { World };

    ghost view = { λ t. world_in t.model t.sets };

    ghost invariant = { λ t. FitsModel (world_in t.model t.sets) };
}

impl Tables {
    /// The tables of a model.
    pub(crate) fn new(model: edm_model::Model, sets: Vec<Table>) -> Tables
        requires { FitsModel (world_in model sets) }
        ensures { result ≡ world_in model sets }
    {
        Tables { model, sets }
    }

    /// The same tables in no more room than they need, which the JSON tree may have left.
    pub(crate) fn packed(self, alloc: Global) -> Result<Tables, AllocError>
        ensures { IfOk result (λ tables. tables ≡ self) }
    {
        let Tables { model, sets } = self;
        let mut packed = Vec::with_capacity(alloc, sets.len())?;
        for table in &sets {
            packed.push(table.packed(alloc)?)?;
        }
        Ok(Tables {
            model,
            sets: packed,
        })
    }

    /// The model.
    pub(crate) fn model(&self) -> &edm_model::Model
        ensures value { result.now ≡ self.now.model }
        ensures fits { FitsModel self.now }
    {
        let _ = &self.sets;
        &self.model
    }

    /// The number of a set's entities.
    pub(crate) fn count(&self, s: SetId) -> u32
        ensures { result ≡ world.count self.now s }
    {
        match self.sets.get(s.place()) {
            Some(table) => table.count(),
            None => 0,
        }
    }

    /// The value at a place of an entity.
    pub(crate) fn value(&self, e: EntityRef, place: usize) -> Seen<'_>
        ensures { seen_value result ≡ world.property self.now e place }
    {
        match self.sets.get(e.set.place()) {
            Some(table) => table.value(e.at, place),
            None => Seen::Null,
        }
    }

    /// The column of a set's values at a place.
    pub(crate) fn column(&self, s: SetId, place: usize) -> Option<&Column>
        ensures { (k : ℕ) → value_in (seen_column (option_map (λ c. c.now) result)) k ≡ world.property self.now (entity_at s k) place }
    {
        match self.sets.get(s.place()) {
            Some(table) => table.column(place),
            None => None,
        }
    }

    /// The place of the key among the values of a set's entities.
    pub(crate) fn key_place(&self, s: SetId) -> usize
        requires { IsSet self.now.model s }
        ensures { result ≡ key_at self.now.model s }
    {
        let model = self.model();
        model.key_of(model.set_type(s)).place()
    }

    /// The navigations of a set's type.
    pub(crate) fn navs(&self, s: SetId) -> &[NavId]
        requires { IsSet self.now.model s }
        ensures value { result.now ≡ parts (set_type self.now.model s) (length (navigations_of self.now.model (set_type self.now.model s))) }
        ensures there { IsType self.now.model (set_type self.now.model s) }
    {
        let model = self.model();
        model.navs(model.set_type(s))
    }

    /// The keys of a set's entities, in data order.
    pub(crate) fn keys(&self, alloc: Global, s: SetId) -> Result<Vec<Key<'_>>, AllocError>
        requires { IsSet self.now.model s }
        ensures keys { IfOk result (λ keys. map (λ k. seen_value k.value) keys.items ≡ world.keys_of self.now s) }
        ensures few { IfOk result (λ keys. length keys.items < 2 ^ 32) }
    {
        let place = self.key_place(s);
        let count = self.count(s);
        let mut keys = Vec::with_capacity(alloc, count as usize)?;
        for at in 0..count {
            let value = self.value(EntityRef { set: s, at }, place);
            keys.push(Key { value })?;
        }
        Ok(keys)
    }
}
