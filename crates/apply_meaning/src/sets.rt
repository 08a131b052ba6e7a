//! The rows of an entity set.
ghost use Rattle.std.specs.Prelude.{◌≡◌, ◌+◌, ◌≤◌, IfOk, length};
ghost use Rattle.edm_data.specs.References.{count};
ghost use Rattle.apply_meaning.specs.Instances.{rows};

use crate::{Row, Steps};
use edm_data::{Data, EntityRef};
use edm_model::SetId;
use std::alloc::{AllocError, Global};
use std::sync::ledger::Ledger;

/// The instances of a set's entities in data order: one step an entity.
#[tactic(auto, using(crate::proofs::SetLemmas::next_rows))]
pub fn set_rows<L: Ledger>(
    alloc: Global,
    store: &Data,
    set: SetId,
    steps: &mut Steps<L>,
) -> Result<Vec<Row>, AllocError>
    ensures rows { IfOk result (λ made. made.items ≡ rows store.now set) }
    ensures each { IfOk result (λ made. steps.new ≡ steps.old + length made.items) }
    ensures steps { steps.new ≤ steps.old + count store.now set }
    ensures grown { steps.old ≤ steps.new }
{
    let mut made = Vec::new(alloc);
    for at in 0..store.count(set) {
        let root = Some(EntityRef { set, at });
        made.push(Row::make(alloc, Vec::new(alloc), root, Vec::new(alloc), steps)?)?;
    }
    Ok(made)
}
