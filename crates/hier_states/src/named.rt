//! The hierarchies that names in a pipeline mean, and their states.
ghost use Rattle.std.specs.Prelude.{◌≡◌, Some, IfSome, IsTrue, is_some, position};
ghost use Rattle.edm_model.specs.LookUps.{HierarchyPlace, IsHierarchy, IsSet};
ghost use Rattle.edm_model.specs.Soundness.{IsSound};
ghost use Rattle.edm_data.specs.Nodes.{parents_of};
ghost use Rattle.apply_ast.specs.Views.{hier_of};
ghost use Rattle.context_typing.specs.Typing.{hierarchy_at};
ghost use Rattle.context_typing.specs.Readings.{same_part};
ghost use Rattle.hier_states.specs.States.{IsReadyAt, hierarchy_id, state_of};

use crate::states::HierState;
use apply_ast::HierName;
use edm_data::Data;
use edm_model::{HierId, SetId};
use hier_index::Index;

/// The nodes of a hierarchy that is named in a pipeline: their entity set, and the index of the hierarchy.
#[derive(Clone, Copy)]
pub struct Nodes<'a> {
    pub set: SetId,
    pub index: &'a Index,
}

/// The id of the hierarchy that is named.
pub(crate) fn hier_id(store: &Data, name: &HierName) -> Option<HierId>
    ensures value { result ≡ hierarchy_id store.now.model (hier_of name.now) }
    ensures there { IfSome result (IsHierarchy store.now.model) }
    ensures sound { IsSound store.now.model }
{
    let model = store.model();
    let _sets = model.sets();
    match model.set_named(name.set.text()) {
        Some(set) => model.hier_named(set, name.qualifier.text()),
        None => None,
    }
}

/// Whether two ids mean one hierarchy.
fn is_same(a: HierId, b: HierId) -> bool
    ensures { result ≡ same_part a b }
{
    a == b
}

/// The place of a hierarchy among these.
fn place(hiers: &[HierId], id: HierId) -> Option<usize>
    ensures { result ≡ position (same_part id) hiers.now }
{
    hiers.iter().position(|h| is_same(id, *h))
}

/// The state of a hierarchy.
pub(crate) fn state<'a>(store: &Data, hiers: &'a [HierState], id: HierId) -> &'a HierState
    requires { IsTrue (is_some (state_of store.now.model hiers.now id)) }
    ensures { state_of store.now.model hiers.now id ≡ Some result.now }
{
    match place(store.model().hiers(), id) {
        Some(at) => &hiers[at],
        None => unreachable!(),
    }
}

/// What a pipeline takes of a hierarchy that it names.
pub fn nodes_at<'a>(store: &Data, hiers: &'a [HierState], name: &HierName) -> Nodes<'a>
    requires there { IsTrue (is_some (hierarchy_at store.now.model (hier_of name.now))) }
    requires ready { IsReadyAt store.now hiers.now (hier_of name.now) }
    ensures set { (f : HierarchyPlace) → hierarchy_at store.now.model (hier_of name.now) ≡ Some f → result.set ≡ f.set }
    ensures index { (f : HierarchyPlace) → hierarchy_at store.now.model (hier_of name.now) ≡ Some f → result.index.now ≡ parents_of store.now f }
    ensures is_set { IsSet store.now.model result.set }
{
    let Some(id) = hier_id(store, name) else {
        unreachable!()
    };
    match state(store, hiers, id) {
        HierState::Ready(index) => Nodes {
            set: store.model().hier_set(id),
            index,
        },
        HierState::Cyclic(_) => unreachable!(),
    }
}
