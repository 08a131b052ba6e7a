//! Rows by their nodes in a hierarchy.
//!
//! What the transformations over hierarchies take of a list of instances, which are rows or a frame: `nodes_of` finds the node of
//! each, `climb_places` the places of those that an `ancestors` or `descendants` keeps, `climb_set` those of the entities of a set of which no list is made, and `traverse_places` those of the ones that
//! a `traverse` lists. `shown_nodes` gives the nodes that rows stand at, `all_nodes` all of them, and `identifier` the key of a node.
//!
//! `nodes` takes the nodes that the data keeps (`sources`), where the path is a property of the entities of a frame, in one loop over
//! the places of these (`kept_places`), in which a climb looks up the mark of each row's node too; and else looks them up by their
//! keys, those first that are tried (`tried_nodes`). `set_climbs` goes through what refers to the marked nodes, and puts these entities in order by a list of marks, where they are few
//! beside the set, and else reads what each entity of it refers to. `climbs` and `traversals` hand nodes on to `hier_traverse`, and `shown` marks
//! nodes.
//!
//! The crate stands on `hier_states` for the nodes of a hierarchy that is named, on `hier_index` and `hier_traverse` for indexes
//! and for rows by their nodes, on `row_orders` for the ranks of nodes, on `row_values` for lists of instances and values on them,
//! on `row_frames` for what a path is on them, on `apply_meaning` for rows and the meaning of transformations, on `apply_ast` for
//! walks, and on `edm_model` and `edm_data` for the data.
//!
//! It promises that the places are those of the meaning of the transformations (`specs/HierRows`), and `Range` exactly where the
//! value of a path on a row, or of an order item on a node, is past its range. No row is made but those of the nodes, for the order
//! items, each in one step.
#![tactic(auto)]

mod climbs;
mod kept_places;
mod nodes;
mod set_climbs;
mod shown;
mod sources;
mod traversals;
mod tried_nodes;

pub use climbs::climb_places;
pub use nodes::{identifier, nodes_of};
pub use set_climbs::climb_set;
pub use shown::{all_nodes, shown_nodes};
pub use traversals::traverse_places;
