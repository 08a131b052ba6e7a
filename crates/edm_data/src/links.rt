//! What the entities of a set refer to, and what refers to each.
ghost use Rattle.std.specs.Prelude.{◌≡◌, ℕ, ◌<◌, ◌+◌, ◌^◌, [], ◌∷◌, ◌++◌, length, nat_eq, if◌then◌else◌, None, OnOk, IfOk, slice_get, unwrap_or};
ghost use Rattle.edm_data.specs.LinkLists.{group_in, linking_to};

use crate::places::Places;
use std::alloc::{AllocError, Global};
use std::collections::BTreeMap;

/// For each entity of a set, the place of the one that it refers to, if there is one. Nothing takes no memory.
#[derive(Drop)]
pub(crate) struct Links {
    count: u32,
    places: Places,
    targets: Vec<u32>,
}

impl std::marker::Model for Links {
    ghost use Rattle.edm_data.specs.Columns.{AreKept, kept};
    ghost use Rattle.edm_data.specs.LinkLists.{LinkList};

    ghost Value = { LinkList };

    ghost view = { λ l. kept l.places l.targets.items l.count };

    ghost invariant = { λ l. AreKept l.places l.targets.items l.count };
}

impl Links {
    /// No links.
    pub(crate) fn new(alloc: Global) -> Links
        ensures { result ≡ [] }
    {
        Links {
            count: 0,
            places: Places::new(alloc),
            targets: Vec::new(alloc),
        }
    }

    /// The number of the entities.
    pub(crate) fn count(&self) -> u32
        ensures { result ≡ length self.now }
    {
        self.count
    }

    /// The place of what the entity at a place refers to.
    #[inline(always)]
    pub(crate) fn get(&self, place: u32) -> Option<u32>
        ensures { result ≡ unwrap_or (slice_get self.now place) None }
    {
        match self.places.find(place) {
            Some(at) => Some(self.targets[at]),
            None => None,
        }
    }

    /// Puts the link of one entity more at the end. After an `Err` each further link to an entity may be refused.
    pub(crate) fn push(&mut self, link: Option<u32>) -> Result<(), AllocError>
        requires { length self.old + 1 < 2 ^ 32 }
        ensures ok { OnOk result (self.new ≡ self.old ++ link ∷ []) }
    {
        let place = self.count;
        let Some(target) = link else {
            self.count = place + 1;
            return Ok(());
        };
        if self.targets.len() > self.places.len() {
            return Err(AllocError);
        }
        self.targets.push(target)?;
        self.places.push(place)?;
        self.count = place + 1;
        Ok(())
    }
}

/// Adds a place to those of the entities that refer to one.
fn add_place(
    alloc: Global,
    groups: &mut BTreeMap<u32, Vec<u32>>,
    target: u32,
    place: u32,
) -> Result<(), AllocError>
    ensures ok { OnOk result ((t : ℕ) → group_in groups.new t ≡ (if nat_eq target t then group_in groups.old t ++ place ∷ [] else group_in groups.old t)) }
{
    let places = groups.entry(target)?.or_insert(Vec::new(alloc));
    places.push(place)?;
    Ok(())
}

/// For each entity that one refers to, the places of those that do.
pub(crate) fn groups(alloc: Global, links: &Links) -> Result<BTreeMap<u32, Vec<u32>>, AllocError>
    ensures { IfOk result (λ groups. (t : ℕ) → group_in groups t ≡ linking_to t links.now) }
{
    let mut groups = BTreeMap::new(alloc);
    for place in 0..links.count() {
        if let Some(target) = links.get(place) {
            add_place(alloc, &mut groups, target, place)?;
        }
    }
    Ok(groups)
}
