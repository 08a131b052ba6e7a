//! The places of the entities at the empty prefix, of which none is kept.
ghost use Rattle.std.specs.Prelude.{◌≡◌, ◌<◌, IfSome, Some, get_or, length, map, option_map};
ghost use Rattle.std.specs.List.{All};
ghost use Rattle.apply_meaning.specs.Instances.{root_of};
ghost use Rattle.row_frames.specs.Frames as spec;

use crate::picks::Picks;
use crate::tables::{Roots, Table, place_in, roots_set};
use std::marker::Model;

/// The places, in their set, of the entities at the empty prefix of a frame's instances: each is read where it is asked for.
#[derive(Drop)]
pub struct RootPlaces<'a> {
    roots: &'a Roots,
    picks: &'a Picks,
}

impl<'a> Model for RootPlaces<'a> {
    ghost use Rattle.std.specs.Prelude.{List, map, ℕ};
    ghost use Rattle.row_frames.specs.Frames.{place_in};

    ghost Value = { List ℕ };

    ghost view = { λ r. map (λ x. place_in r.roots.now x.row) r.picks.now };
}

impl<'a> RootPlaces<'a> {
    /// How many instances there are.
    #[inline(always)]
    pub fn len(&self) -> usize
        ensures value { result ≡ length self.now }
    {
        self.picks.len()
    }

    /// The place of the entity of instance k, counted from 0.
    #[inline(always)]
    pub fn at(&self, k: usize) -> u32
        requires there { k < length self.now }
        ensures value { result ≡ get_or self.now k 0 }
    {
        place_in(self.roots, self.picks.at(k).row)
    }
}

/// The places of the entities at the empty prefix of the rows that are picked, where all are of one table whose rows have one.
pub(crate) fn root_places_of<'a>(tables: &'a [Table], picks: &'a Picks) -> Option<RootPlaces<'a>>
    requires tables { All spec.IsTable tables.now }
    requires within { All (λ x. x.table < length tables.now) picks.now }
    ensures { IfSome result (λ r. map (λ i. option_map (λ e. e.at) (root_of i)) (spec.all_picked tables.now picks.now) ≡ map (λ k. Some k) r) }
{
    if tables.len() != 1 {
        return None;
    }
    let roots = &tables[0].roots;
    match roots_set(roots) {
        Some(_set) => Some(RootPlaces { roots, picks }),
        None => None,
    }
}
