//! What is told of files that make a store.
ghost use Rattle.std.specs.Prelude.{◌≡◌, ◌++◌, ℕ, ◌+◌, ◌<◌, ◌^◌, IfOk, OnOk, codes, decimal};
ghost use Rattle.edm_model.specs.LookUps.{IsHierarchy};
ghost use Rattle.hier_states.specs.States.{IsStateOf};
ghost use Rattle.apply_load.specs.Checks.{check_text, entity_total, hierarchy_line, state_text};

use crate::refusals::json_text;
use apply_store::{Store, identifier};
use edm_data::{Data, EntityRef};
use edm_model::HierId;
use hier_states::HierState;
use std::alloc::{AllocError, Global};

/// The number of entities, over all sets.
fn entity_count(loaded: &Data) -> u128
    ensures { result ≡ entity_total loaded.now }
{
    let mut total = 0;
    for set in loaded.model().sets() {
        total += u128::from(loaded.count(*set));
    }
    total
}

/// Appends whether a hierarchy is cyclic.
fn push_state(
    alloc: Global,
    loaded: &Data,
    id: HierId,
    state: &HierState,
    text: &mut Vec<u8>,
) -> Result<(), AllocError>
    requires there { IsHierarchy loaded.now.model id }
    requires state { IsStateOf loaded.now id state.now }
    ensures { OnOk result (text.new.items ≡ text.old.items ++ state_text loaded.now id) }
{
    match state {
        HierState::Ready(_) => text.extend_from_slice(b" ok"),
        HierState::Cyclic(node) => {
            let set = loaded.model().hier_set(id);
            let node = identifier(alloc, loaded, EntityRef { set, at: *node })?;
            let node = json_text(alloc, node.as_str())?;
            text.extend_from_slice(b" cycle ")?;
            text.extend_from_slice(node.as_bytes())
        }
    }
}

/// Appends the line of a hierarchy.
fn push_line(
    alloc: Global,
    loaded: &Data,
    id: HierId,
    state: &HierState,
    text: &mut Vec<u8>,
) -> Result<(), AllocError>
    requires there { IsHierarchy loaded.now.model id }
    requires state { IsStateOf loaded.now id state.now }
    ensures { OnOk result (text.new.items ≡ text.old.items ++ hierarchy_line loaded.now id) }
{
    let model = loaded.model();
    let _ = model.hier_parent(id);
    text.extend_from_slice(b"hierarchy ")?;
    let of = model.set_type(model.hier_set(id));
    text.extend_from_slice(model.type_name(of).as_bytes())?;
    text.extend_from_slice(b" ")?;
    text.extend_from_slice(model.hier_name(id).as_bytes())?;
    push_state(alloc, loaded, id, state, text)?;
    text.extend_from_slice(b"\n")
}

/// The number of entities, and the state of each hierarchy, by type name and then by qualifier.
pub fn check(alloc: Global, store: &Store) -> Result<Vec<u8>, AllocError>
    ensures value { IfOk result (λ text. text.items ≡ check_text store.now.world) }
{
    let mut text = Vec::new(alloc);
    text.extend_from_slice(b"entities ")?;
    let total = entity_count(store.data()).to_string(alloc)?;
    text.extend_from_slice(total.as_bytes())?;
    text.extend_from_slice(b"\n")?;
    let ids = store.model().hiers();
    let states = store.hiers();
    for k in 0..ids.len() {
        push_line(alloc, store.data(), ids[k], &states[k], &mut text)?;
    }
    Ok(text)
}
