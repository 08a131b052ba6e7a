//! The states of hierarchies, made once for loaded data.
ghost use Rattle.std.specs.Prelude.{IfOk};
ghost use Rattle.edm_model.specs.LookUps.{IsHierarchy};
ghost use Rattle.hier_states.specs.States.{AreStates, IsStateOf};

use edm_data::Data;
use edm_model::HierId;
use hier_index::{Index, IndexRefused, build};
use std::alloc::{AllocError, Global};

/// The state of a hierarchy of loaded data.
#[derive(Drop)]
pub enum HierState {
    /// It has an index.
    Ready(Index),
    /// It is cyclic: its first node, in data order, whose chain of parents comes to no root.
    Cyclic(u32),
}

/// The state of a hierarchy.
fn hier_state(alloc: Global, store: &Data, h: HierId) -> Result<HierState, AllocError>
    requires { IsHierarchy store.now.model h }
    ensures { IfOk result (IsStateOf store.now h) }
{
    match build(alloc, store, h) {
        Ok(index) => Ok(HierState::Ready(index)),
        Err(IndexRefused::Cycle(node)) => Ok(HierState::Cyclic(node)),
        Err(IndexRefused::Memory) => Err(AllocError),
    }
}

/// The states of all hierarchies, in the order of `Model::hiers`. It takes time n log n for a hierarchy of n nodes.
pub fn hier_states(alloc: Global, store: &Data) -> Result<Vec<HierState>, AllocError>
    ensures value { IfOk result (λ states. AreStates store.now states.items) }
{
    let ids = store.model().hiers();
    let mut states = Vec::with_capacity(alloc, ids.len())?;
    for id in ids {
        states.push(hier_state(alloc, store, *id)?)?;
    }
    Ok(states)
}
