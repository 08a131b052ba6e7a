//! The states of a model's hierarchies over loaded data, and those of the hierarchies that a pipeline names.
//!
//! `hier_states`, which is called once for loaded data, gives each hierarchy of the model its state: an index of its nodes, or
//! where it is cyclic its first node whose chain of parents comes to no root. `first_cycle` walks over a pipeline and answers
//! the node of the first cyclic hierarchy that its text names, inner pipelines included, and `nodes_at` what a pipeline takes
//! of a hierarchy that it names: the set of the nodes, and the index. `states` makes the states, `named` finds the hierarchy
//! that a name means, and its state, and `cycles` walks over pipelines, one function for each form of their tree. Neither
//! look-ups nor walks take memory. A state is found by the place of its id among those of the model, in as many comparisons
//! as there are hierarchies before it.
//!
//! The crate stands on `hier_index` for the index of a hierarchy, on `edm_data` and `edm_model` for the data and its model,
//! on `apply_ast` for pipelines, on `context_typing` for what a name in a pipeline means (`hierarchy_at` of its
//! `specs/Typing`), and on `edm_values` for lists.
//!
//! It promises that each hierarchy has the state of the definition, in the order of the model; that `first_cycle` answers the
//! node of the first cyclic hierarchy that is named, in the order of the text, which is an entity of the model's set; and that
//! where it answers none, each hierarchy that is named is ready, so that `nodes_at` takes of it the index of the parents of its
//! nodes (`specs/States`, and `specs/NamedHierarchies` of `apply_ast`).
#![tactic(auto)]

mod cycles;
mod named;
mod states;

pub use cycles::first_cycle;
pub use named::{Nodes, nodes_at};
pub use states::{HierState, hier_states};
