//! The rows of related entities.
ghost use Rattle.std.specs.Prelude.{◌≡◌, ◌+◌, ◌≤◌, [], IfOk, IsTrue, Some, length, if◌then◌else◌};
ghost use Rattle.edm_model.specs.LookUps.{IsNavigation, navigation_on};
ghost use Rattle.edm_model.specs.Models.{Navigation};
ghost use Rattle.apply_meaning.specs.Meaning as meaning;
ghost use Rattle.join_concat.specs.Joins.{has_root_of};

use apply_meaning::{Row, Steps};
use edm_data::Data;
use edm_model::NavId;
use std::alloc::{AllocError, Global};
use std::sync::ledger::Ledger;

/// The rows of the entities that a collection-valued navigation property relates the row's entity to, in data order: one step a
/// row; none where the row has no entity. A single-valued one gives no row.
pub fn related_rows<L: Ledger>(
    alloc: Global,
    store: &Data,
    nav: NavId,
    row: &Row,
    steps: &mut Steps<L>,
) -> Result<Vec<Row>, AllocError>
    requires there { IsNavigation store.now.model nav }
    requires of { IsTrue (has_root_of store.now nav.of row.now) }
    ensures rows { (v : Navigation) → navigation_on store.now.model nav ≡ Some v → IfOk result (λ made. made.items ≡ (if v.many then meaning.related_rows store.now v row.now else [])) }
    ensures each { IfOk result (λ made. steps.new ≡ steps.old + length made.items) }
    ensures steps { (v : Navigation) → navigation_on store.now.model nav ≡ Some v → steps.new ≤ steps.old + length (if v.many then meaning.related_rows store.now v row.now else []) }
    ensures grown { steps.old ≤ steps.new }
{
    let Some(entity) = row.root() else {
        return Ok(Vec::new(alloc));
    };
    let related = store.related(entity, nav)?;
    let mut made = Vec::with_capacity(alloc, related.len())?;
    for other in &related {
        let root = Some(*other);
        made.push(Row::make(alloc, Vec::new(alloc), root, Vec::new(alloc), steps)?)?;
    }
    Ok(made)
}
