//! The places of keys that stand in a list of key lists with their numbers.
ghost use Rattle.std.specs.Prelude.{◌≡◌, ℕ, List, [], IfOk};
ghost use Rattle.edm_values.specs.declared.Value.{Value as Value'};
ghost use Rattle.aggregate_ops.specs.KeyTables.{groups_of, ArePlacesOf};

use crate::groups::Groups;
use crate::hashed::HashedKey;
use crate::key_maps::{KeyMap, put_all, put_place};
use crate::seeds::Seed;
use indexmap::IndexMap;
use par_stages::Partial;
use std::alloc::{AllocError, Global};
use std::marker::Model;

/// The places of each key of a list of key lists of one width, which are borrowed. Two keys are one where each value of the one is
/// the same as that of the other, null being null. A key is found by its number.
#[derive(Drop)]
pub struct KeyPlaces<'a, 'v> {
    alloc: Global,
    width: usize,
    count: u64,
    seed: Seed,
    groups: KeyMap<'a, 'v>,
}

impl<'a, 'v> Model for KeyPlaces<'a, 'v> {
    ghost use Rattle.std.specs.Prelude.{◌^◌, ◌<◌};
    ghost use Rattle.aggregate_ops.specs.KeyTables.{map_groups, TableState};

    ghost Value = { TableState };

    ghost view = { λ t. record { width = t.width; count = t.count; groups = map_groups t.groups.entries } };

    ghost invariant = { λ t. t.count < 2 ^ 63 };
}

impl<'a, 'v> KeyPlaces<'a, 'v> {
    /// The places of no keys, for key lists of this many values. The seed is that of the lists that will be added: by any other
    /// one the groups are the same, but keys that collide could be chosen.
    pub fn new(alloc: Global, width: usize, seed: Seed) -> KeyPlaces<'a, 'v>
        ensures width { result.width ≡ width }
        ensures empty { ArePlacesOf result [] }
    {
        KeyPlaces {
            alloc,
            width,
            count: 0,
            seed,
            groups: IndexMap::with_hasher(alloc, seed),
        }
    }

    /// The groups of the key lists.
    pub(crate) fn groups(&self) -> Result<Groups, AllocError>
        ensures { IfOk result (λ g. (xs : List (List Value' × ℕ)) → ArePlacesOf self.now xs → g ≡ groups_of xs) }
    {
        Groups::of(self.alloc, &self.groups)
    }

    /// The groups of the key lists. The places are given up, and moved; each key that is borrowed is copied.
    pub fn into_groups(self) -> Result<Groups, AllocError>
        ensures value { IfOk result (λ g. (xs : List (List Value' × ℕ)) → ArePlacesOf self.entry xs → g ≡ groups_of xs) }
    {
        Groups::from_map(self.alloc, self.groups)
    }
}

impl<'a, 'v> Partial for KeyPlaces<'a, 'v> {
    ghost use Rattle.aggregate_ops.specs.KeyTables.{IsWide};

    type Item = HashedKey<'a, 'v>;

    ghost Kind = { ℕ };

    ghost kind = { λ t. t.width };

    ghost takes = { IsWide };

    ghost count = { λ t. t.count };

    ghost stands_for = { ArePlacesOf };

    fn fresh(&self) -> Result<KeyPlaces<'a, 'v>, AllocError> {
        Ok(KeyPlaces::new(self.alloc, self.width, self.seed))
    }

    fn add(&mut self, item: &HashedKey<'a, 'v>, place: usize) -> Result<(), AllocError> {
        self.count += 1;
        put_place(self.alloc, &mut self.groups, item, place)
    }

    fn merge(&mut self, later: KeyPlaces<'a, 'v>) -> Result<(), AllocError> {
        self.count += later.count;
        put_all(&mut self.groups, later.groups)
    }

    ghost counted = { λ p xs h. h.count_is };
}
