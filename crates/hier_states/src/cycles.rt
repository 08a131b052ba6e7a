//! The first cyclic hierarchy that a pipeline names.
ghost use Rattle.std.specs.Prelude.{◌≡◌, ◌<◌, None, IfSome, option_map};
ghost use Rattle.std.specs.List.{All};
ghost use Rattle.apply_ast.specs.Views.{hier_of, inner_of, key_of, keys_of, pipe_of, pipes_of, step_of, join_of, climb_of};
ghost use Rattle.edm_model.specs.LookUps.{IsHierarchy, IsSet, set_of_type};
ghost use Rattle.edm_data.specs.Hierarchies.{cycle_node};
ghost use Rattle.edm_data.specs.References.{count};
ghost use Rattle.edm_data.specs.Worlds.{entity_at};
ghost use Rattle.hier_index.specs.Parents.{hierarchy_parents};
ghost use Rattle.apply_ast.specs.NamedHierarchies.{hierarchies, inner_hierarchies, branch_hierarchies, key_hierarchies, keys_hierarchies, step_hierarchies};
ghost use Rattle.hier_states.specs.States as spec;
ghost use Rattle.hier_states.specs.States.{AreStates, IsReadyAt};

use crate::named::{hier_id, state};
use crate::states::HierState;
use apply_ast::{ClimbStep, HierName, JoinStep, KeyItem, KeyList, Pipe, PipeList, Step};
use edm_data::{Data, EntityRef};
use edm_model::HierId;

/// The node of a hierarchy, where it is cyclic.
fn cycle_of(store: &Data, hiers: &[HierState], id: HierId) -> Option<EntityRef>
    requires there { IsHierarchy store.now.model id }
    requires states { AreStates store.now hiers.now }
    ensures { result ≡ option_map (entity_at (set_of_type store.now.model id.of)) (cycle_node (hierarchy_parents store.now id)) }
{
    match state(store, hiers, id) {
        HierState::Cyclic(at) => Some(EntityRef {
            set: store.model().hier_set(id),
            at: *at,
        }),
        HierState::Ready(_) => None,
    }
}

/// The node of the hierarchy that is named, where it is cyclic.
fn cycle_at(store: &Data, hiers: &[HierState], name: &HierName) -> Option<EntityRef>
    requires { AreStates store.now hiers.now }
    ensures { result ≡ spec.cycle_at store.now (hier_of name.now) }
{
    match hier_id(store, name) {
        Some(id) => cycle_of(store, hiers, id),
        None => None,
    }
}

/// The first cycle of a pipeline.
#[cycle(cycles)]
fn cycle_in(store: &Data, hiers: &[HierState], pipe: &Pipe) -> Option<EntityRef>
    requires { AreStates store.now hiers.now }
    ensures { result ≡ spec.first_cycle store.now (hierarchies (pipe_of pipe.now)) }
{
    for step in pipe.steps() {
        if let Some(node) = cycle_in_step(store, hiers, step) {
            return Some(node);
        }
    }
    None
}

/// That of an inner pipeline, where there is one.
#[cycle(cycles)]
fn cycle_in_inner(store: &Data, hiers: &[HierState], inner: &Option<Pipe>) -> Option<EntityRef>
    requires { AreStates store.now hiers.now }
    ensures { result ≡ spec.first_cycle store.now (inner_hierarchies (inner_of (option_map pipe_of inner.now))) }
{
    match inner {
        Some(pipe) => cycle_in(store, hiers, pipe),
        None => None,
    }
}

/// That of the branches of a concatenation.
#[cycle(cycles)]
fn cycle_in_branches(store: &Data, hiers: &[HierState], branches: &PipeList) -> Option<EntityRef>
    requires { AreStates store.now hiers.now }
    ensures { result ≡ spec.first_cycle store.now (branch_hierarchies (pipes_of branches.now)) }
{
    for branch in branches.as_slice() {
        if let Some(node) = cycle_in(store, hiers, branch) {
            return Some(node);
        }
    }
    None
}

/// That of a key.
#[cycle(cycles)]
fn cycle_in_key(store: &Data, hiers: &[HierState], key: &KeyItem) -> Option<EntityRef>
    requires { AreStates store.now hiers.now }
    ensures { result ≡ spec.first_cycle store.now (key_hierarchies (key_of key.now)) }
{
    match key {
        KeyItem::Plain(_) | KeyItem::Rollup(..) => None,
        KeyItem::Recursive(name, _, inner) => match cycle_at(store, hiers, name) {
            Some(node) => Some(node),
            None => cycle_in_inner(store, hiers, inner),
        },
    }
}

/// That of the keys of a grouping.
#[cycle(cycles)]
fn cycle_in_keys(store: &Data, hiers: &[HierState], keys: &KeyList) -> Option<EntityRef>
    requires { AreStates store.now hiers.now }
    ensures { result ≡ spec.first_cycle store.now (keys_hierarchies (keys_of keys.now)) }
{
    for key in keys.as_slice() {
        if let Some(node) = cycle_in_key(store, hiers, key) {
            return Some(node);
        }
    }
    None
}

/// That of a climb: its own hierarchy stands before its inner pipeline.
#[cycle(cycles)]
fn cycle_in_climb(store: &Data, hiers: &[HierState], climb: &ClimbStep) -> Option<EntityRef>
    requires { AreStates store.now hiers.now }
    ensures { result ≡ spec.first_cycle store.now (step_hierarchies (climb_of climb.now)) }
{
    match cycle_at(store, hiers, &climb.hier) {
        Some(node) => Some(node),
        None => cycle_in(store, hiers, &climb.inner),
    }
}

/// That of a join.
#[cycle(cycles)]
fn cycle_in_join(store: &Data, hiers: &[HierState], join: &JoinStep) -> Option<EntityRef>
    requires { AreStates store.now hiers.now }
    ensures { result ≡ spec.first_cycle store.now (step_hierarchies (join_of join.now)) }
{
    cycle_in_inner(store, hiers, &join.inner)
}

/// That of a transformation: the keys of a grouping stand before its inner pipeline.
#[cycle(cycles)]
fn cycle_in_step(store: &Data, hiers: &[HierState], step: &Step) -> Option<EntityRef>
    requires { AreStates store.now hiers.now }
    ensures { result ≡ spec.first_cycle store.now (step_hierarchies (step_of step.now)) }
{
    match step {
        Step::GroupBy(keys, inner) => match cycle_in_keys(store, hiers, keys) {
            Some(node) => Some(node),
            None => cycle_in_inner(store, hiers, inner),
        },
        Step::Concat(branches) => cycle_in_branches(store, hiers, branches),
        Step::Join(join) => cycle_in_join(store, hiers, join),
        Step::Climb(climb) => cycle_in_climb(store, hiers, climb),
        Step::Traverse(walk) => cycle_at(store, hiers, &walk.hier),
        Step::Identity
        | Step::Filter(_)
        | Step::Compute(_)
        | Step::OrderBy(_)
        | Step::Skip(_)
        | Step::Top(_)
        | Step::Aggregate(_)
        | Step::TopBy(_) => None,
    }
}

/// The first hierarchy in the pipeline's text that is cyclic: its node whose chain of parents comes to no root, the first in
/// data order; none where no hierarchy that is named is cyclic. A name that the model does not have names no hierarchy.
pub fn first_cycle(store: &Data, hiers: &[HierState], pipe: &Pipe) -> Option<EntityRef>
    requires { AreStates store.now hiers.now }
    ensures value { result ≡ spec.first_cycle store.now (hierarchies (pipe_of pipe.now)) }
    ensures there { IfSome result (λ e. IsSet store.now.model e.set × (e.at < count store.now e.set)) }
    ensures ready { result ≡ None → All (IsReadyAt store.now hiers.now) (hierarchies (pipe_of pipe.now)) }
{
    let _sets = store.model().sets();
    cycle_in(store, hiers, pipe)
}
