//! Relations between the entities of two sets, and the navigations that go by them.
ghost use Rattle.std.specs.Prelude.{◌≡◌, ℕ, ◌<◌, ◌==◌, ◌&&◌, [], ◌∷◌, ◌++◌, length, option_map, if◌then◌else◌, OnOk, IfOk, IfSome, None};
ghost use Rattle.edm_data.specs.LinkLists.{link_in, linking_to};
ghost use Rattle.edm_data.specs.Links.{kept_relation, pair_in, relation_in};
ghost use Rattle.edm_data.specs.Worlds.{entity_at};

use crate::EntityRef;
use crate::links::{Links, groups};
use edm_model::SetId;
use std::alloc::{AllocError, Global};
use std::collections::BTreeMap;

/// What the entities of a set refer to by the value of a property, as a key of another set, and what refers to each.
#[derive(Drop)]
pub(crate) struct Relation {
    property: usize,
    target: SetId,
    links: Links,
    groups: BTreeMap<u32, Vec<u32>>,
}

impl std::marker::Model for Relation {
    ghost use Rattle.std.specs.Prelude.{◌≡◌, ℕ};
    ghost use Rattle.edm_data.specs.LinkLists.{group_in, linking_to};
    ghost use Rattle.edm_data.specs.Links.{KeptRelation};

    ghost Value = { KeptRelation };

    ghost view = { λ r. record { property = r.property; target = r.target; links = r.links } };

    ghost invariant = { λ r. (t : ℕ) → group_in r.groups t ≡ linking_to t r.links };
}

impl Relation {
    /// The relation of these links, by the value of the property at a place, to a set.
    pub(crate) fn new(
        alloc: Global,
        property: usize,
        target: SetId,
        links: Links,
    ) -> Result<Relation, AllocError>
        ensures property { IfOk result (λ r. r.property ≡ property) }
        ensures target { IfOk result (λ r. r.target ≡ target) }
        ensures links { IfOk result (λ r. r.links ≡ links) }
    {
        let groups = groups(alloc, &links)?;
        Ok(Relation {
            property,
            target,
            links,
            groups,
        })
    }

    /// Whether it is by the property at this place and to this set.
    fn is_by(&self, property: usize, target: SetId) -> bool
        ensures { result ≡ (self.now.property == property && self.now.target == target) }
    {
        self.property == property && self.target == target
    }

    /// The place of what the entity at a place refers to.
    #[inline(always)]
    pub(crate) fn place(&self, at: u32) -> Option<u32>
        ensures { result ≡ link_in self.now.links at }
    {
        self.links.get(at)
    }

    /// What the entity at a place refers to.
    pub(crate) fn follow(&self, at: u32) -> Option<EntityRef>
        ensures { result ≡ option_map (entity_at self.now.target) (link_in self.now.links at) }
    {
        match self.links.get(at) {
            Some(found) => Some(EntityRef {
                set: self.target,
                at: found,
            }),
            None => None,
        }
    }

    /// The places of the entities that refer to the one at a place, in data order.
    pub(crate) fn linking_at(&self, to: u32) -> &[u32]
        ensures { result.now ≡ linking_to to self.now.links }
    {
        match self.groups.get(&to) {
            Some(places) => places.as_slice(),
            None => &[],
        }
    }

    /// The places of the entities that refer to one, in data order.
    pub(crate) fn linking(&self, to: EntityRef) -> &[u32]
        ensures { result.now ≡ (if to.set == self.now.target then linking_to to.at self.now.links else []) }
    {
        if to.set != self.target {
            return &[];
        }
        self.linking_at(to.at)
    }
}

/// The relations of the navigations of a set's type. Navigations that refer by one property to one set share theirs.
#[derive(Drop)]
pub(crate) struct Relations {
    kept: Vec<Relation>,
    navs: Vec<Option<usize>>,
}

impl std::marker::Model for Relations {
    ghost use Rattle.edm_data.specs.Links.{NavRelations};
    ghost use Rattle.edm_data.specs.SharedRelations.{relations_of, AreWithin};

    ghost Value = { NavRelations };

    ghost view = { λ r. relations_of r.kept.items r.navs.items };

    ghost invariant = { λ r. AreWithin r.kept.items r.navs.items };
}

impl Relations {
    /// Of no navigations.
    pub(crate) fn new(alloc: Global) -> Relations
        ensures { result ≡ [] }
    {
        Relations {
            kept: Vec::new(alloc),
            navs: Vec::new(alloc),
        }
    }

    /// The relation of the navigation at a place.
    pub(crate) fn get(&self, n: usize) -> Option<&Relation>
        ensures { option_map (λ r. r.now) result ≡ relation_in self.now n }
    {
        if n >= self.navs.len() {
            return None;
        }
        match self.navs[n] {
            Some(place) => Some(&self.kept[place]),
            None => None,
        }
    }

    /// The first navigation that refers by this property to this set.
    pub(crate) fn find(&self, property: usize, target: SetId) -> Option<usize>
        ensures within { IfSome result (λ n. n < length self.now) }
        ensures there { IfSome result (λ n. pair_in (relation_in self.now n) ≡ Some (property, target)) }
    {
        for n in 0..self.navs.len() {
            if let Some(relation) = self.get(n) {
                if relation.is_by(property, target) {
                    return Some(n);
                }
            }
        }
        None
    }

    /// Adds a navigation that refers to nothing.
    pub(crate) fn push_none(&mut self) -> Result<(), AllocError>
        ensures { OnOk result (self.new ≡ self.old ++ None ∷ []) }
    {
        self.navs.push(None)?;
        Ok(())
    }

    /// Adds a navigation that shares the relation of an earlier one.
    pub(crate) fn push_shared(&mut self, n: usize) -> Result<(), AllocError>
        requires { n < length self.old }
        ensures { OnOk result (self.new ≡ self.old ++ relation_in self.old n ∷ []) }
    {
        let place = self.navs[n];
        self.navs.push(place)?;
        Ok(())
    }

    /// Adds a navigation with a relation of its own.
    pub(crate) fn push(&mut self, relation: Relation) -> Result<(), AllocError>
        ensures { OnOk result (self.new ≡ self.old ++ Some relation ∷ []) }
    {
        let place = self.kept.len();
        self.kept.push(relation)?;
        self.navs.push(Some(place))?;
        Ok(())
    }
}

/// The relation of a set's navigation at a place.
pub(crate) fn relation_of(sets: &Vec<Relations>, s: SetId, n: usize) -> Option<&Relation>
    ensures { option_map (λ r. r.now) result ≡ kept_relation sets.now.items s n }
{
    if s.place() >= sets.len() {
        return None;
    }
    sets[s.place()].get(n)
}
