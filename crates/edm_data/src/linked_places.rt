//! What the entities of a set refer to by one navigation property.
ghost use Rattle.std.specs.Prelude.{◌≡◌, option_map};
ghost use Rattle.edm_data.specs.LinkLists.{link_in, linking_to};
ghost use Rattle.edm_data.specs.Readers.{seen_links};

use crate::relations::Relation;
use std::marker::Model;

/// What the entities of a set refer to by a navigation property, in data order, as places of the entities of another set.
#[derive(Drop)]
pub struct LinkedPlaces<'a> {
    relation: Option<&'a Relation>,
}

impl<'a> Model for LinkedPlaces<'a> {
    ghost use Rattle.std.specs.Prelude.{option_map};
    ghost use Rattle.edm_data.specs.LinkLists.{LinkList};
    ghost use Rattle.edm_data.specs.Readers.{seen_links};

    ghost Value = { LinkList };

    ghost view = { λ l. seen_links (option_map (λ r. r.now) l.relation) };
}

impl<'a> LinkedPlaces<'a> {
    /// The places of a relation, or none where there is no such relation.
    pub(crate) fn of(relation: Option<&'a Relation>) -> LinkedPlaces<'a>
        ensures { result ≡ seen_links (option_map (λ r. r.now) relation.entry) }
    {
        LinkedPlaces { relation }
    }

    /// The place of what the entity at this place refers to, if there is one.
    #[inline(always)]
    pub fn at(&self, place: u32) -> Option<u32>
        ensures value { result ≡ link_in self.now place }
    {
        match self.relation {
            Some(relation) => relation.place(place),
            None => None,
        }
    }

    /// The places of the entities that refer to the one at this place, in data order.
    pub fn linking(&self, to: u32) -> &'a [u32]
        ensures value { result.now ≡ linking_to to self.now }
    {
        match self.relation {
            Some(relation) => relation.linking_at(to),
            None => &[],
        }
    }
}
