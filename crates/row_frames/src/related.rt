//! Picks of related entities, and instances that are entities of one set.
ghost use Rattle.std.specs.Prelude.{◌≡◌, ◌<◌, ◌==◌, IfOk, IsTrue, Some, length, map};
ghost use Rattle.std.specs.Bool.{OnTrue};
ghost use Rattle.std.specs.List.{All};
ghost use Rattle.edm_values.specs.Lists.{is_some_and};
ghost use Rattle.edm_model.specs.LookUps.{IsNavigation, navigation_on};
ghost use Rattle.edm_model.specs.Models.{Navigation};
ghost use Rattle.edm_data.specs.References.{entity_type};
ghost use Rattle.context_typing.specs.Paths.{is_none_or};
ghost use Rattle.row_frames.specs.Frames as spec;
ghost use Rattle.row_frames.specs.Related.{IsOfSet, placed, related_to};

use crate::picks::Picks;
use crate::tables::{Pick, Table, place_in, roots_set};
use edm_data::{Data, EntityRef};
use edm_model::{NavId, SetId};
use std::alloc::{AllocError, Global};

/// The pick of an entity, in a table of all entities of its set.
fn entity_pick(entity: EntityRef) -> Pick
    ensures { result ≡ spec.first_pick entity.at }
{
    Pick {
        table: 0,
        row: entity.at,
    }
}

/// The picks of these entities, in a table of all entities of their set.
fn entity_picks(alloc: Global, found: &[EntityRef]) -> Result<Vec<Pick>, AllocError>
    ensures { IfOk result (λ xs. xs.items ≡ map (λ e. spec.first_pick e.at) found.now) }
{
    let mut picks = Vec::with_capacity(alloc, found.len())?;
    for entity in found {
        picks.push(entity_pick(*entity))?;
    }
    Ok(picks)
}

/// The picks of what a collection-valued navigation property relates an entity to, in a table of all entities of their set.
pub(crate) fn related_picks(
    alloc: Global,
    store: &Data,
    nav: NavId,
    of: Option<EntityRef>,
) -> Result<Vec<Pick>, AllocError>
    requires there { IsNavigation store.now.model nav }
    requires of { IsTrue (is_none_or (λ e. is_some_and (λ t. t == nav.of) (entity_type store.now e)) of) }
    ensures { (v : Navigation) → navigation_on store.now.model nav ≡ Some v → IfOk result (λ xs. xs.items ≡ map (λ e. spec.first_pick e.at) (related_to store.now v of)) }
{
    match of {
        Some(entity) => {
            let found = store.related(entity, nav)?;
            entity_picks(alloc, found.as_slice())
        }
        None => Ok(Vec::new(alloc)),
    }
}

/// Whether the rows of a table are entities of the set, without other prefixes and columns.
fn is_of_set(table: &Table, set: SetId) -> bool
    ensures { OnTrue result (IsOfSet set table.now) }
{
    let Some(own) = roots_set(&table.roots) else {
        return false;
    };
    if own.place() != set.place() {
        return false;
    }
    if table.prefixes.len() > 0 {
        return false;
    }
    if table.columns.len() > 0 {
        return false;
    }
    true
}

/// Whether the rows of all tables are entities of the set, without other prefixes and columns.
pub(crate) fn are_of_set(tables: &[Table], set: SetId) -> bool
    ensures { OnTrue result (All (IsOfSet set) tables.now) }
{
    for table in tables {
        if !is_of_set(table, set) {
            return false;
        }
    }
    true
}

/// The place, in its set, of the entity of a row that is picked.
fn picked_place(tables: &[Table], set: SetId, pick: Pick) -> u32
    requires of { All (IsOfSet set) tables.now }
    requires within { pick.table < length tables.now }
    ensures { placed set result ≡ spec.picked tables.now pick }
{
    place_in(&tables[pick.table as usize].roots, pick.row)
}

/// The places, in their set, of the entities of the rows that are picked.
pub(crate) fn picked_places(
    alloc: Global,
    tables: &[Table],
    set: SetId,
    picks: &Picks,
) -> Result<Vec<u32>, AllocError>
    requires of { All (IsOfSet set) tables.now }
    requires within { All (λ x. x.table < length tables.now) picks.now }
    ensures { IfOk result (λ ks. map (placed set) ks.items ≡ spec.all_picked tables.now picks.now) }
{
    let mut places = Vec::with_capacity(alloc, picks.len())?;
    for k in 0..picks.len() {
        places.push(picked_place(tables, set, picks.at(k)))?;
    }
    Ok(places)
}
