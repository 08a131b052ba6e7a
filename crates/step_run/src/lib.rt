//! Running transformations and groupings that run no pipeline, and what a run of a pipeline works with.
//!
//! A `Context` has the data, the custom aggregates and the hierarchies (`contexts`). `aggregations` has `aggregate`, of rows or a
//! frame. `levels` finds the groups of each level of a grouping, and `recursive` those of each node of a recursive rollup;
//! `item_lists` works out the values of an aggregation once for all groups, and `groups` makes rows of groups and puts key columns
//! on them. `totals` runs a recursive rollup that is the only key where an aggregation alone is made of each group: over
//! neighbours in the order of the nodes, without groups; `keyed_totals` does the same for each of the plain keys that stand beside
//! one; `group_totals` runs any other keys there, over groups that are told by numbers, where the items are counts and aggregates
//! by methods, and keys without an inner pipeline: `grouped_frame` has what comes of these as a frame of columns, of which no row
//! is made. `kept_groups` runs keys whose inner pipeline only keeps some of the instances of each group, or puts them in order, on
//! lists of places of a frame: `kept_frame` has what comes of these as a frame of the same instances. `selections` takes rows from
//! the top and the bottom, and `selected_places` has the places of the values that one takes; `hierarchies` has climbs and
//! traversals, and the places of the instances of a list that they take, or of the entities of a set of which no list is made.
//! `roots` follows the type at the empty prefix from one transformation to the next, which custom aggregates are looked up by.
//! `specs/Conditions` says when a pipeline may be run, and `specs/Costs` what it costs.
//!
//! The crate stands on `apply_meaning` for rows and the meaning of transformations, on `aggregate_ops`, `custom_agg`,
//! `group_rollup` and `numbered_groups` for aggregates, custom aggregates and groups, on `row_values` and `row_frames` for lists of
//! instances, values of many rows and columns of keys, on `row_orders` for orders, on `top_family` for selections, on `hier_index`,
//! `hier_states`, `hier_rows` and `rollup_rec` for hierarchies, on `par_stages` for gates, on `context_typing` for typed pipelines
//! and custom aggregates, on `apply_ast` for pipelines, and on `edm_data`, `edm_model` and `edm_values` for the data.
//!
//! It promises that what each call answers is the meaning of its transformation or of its part of a grouping, refused exactly where
//! that is, and that the counter of steps rises by no more than that costs and never falls. Rows are moved and not copied, but for
//! those of a traversal, which leave in another order.
#![tactic(auto)]

mod aggregations;
mod contexts;
mod group_totals;
mod groups;
mod hierarchies;
mod item_lists;
mod kept_groups;
mod keyed_totals;
mod levels;
mod recursive;
mod roots;
mod selections;
mod totals;

pub use aggregations::aggregated;
pub use contexts::Context;
pub use group_totals::{GroupTotals, as_group_totals, grouped_frame, run_group_totals};
pub use groups::{key_rows, with_keys};
pub use hierarchies::{
    climb_rows, climbed_in_set, climbed_places, traverse_rows, traversed_places,
};
pub use item_lists::{ItemList, aggregated_at, first_lists};
pub use kept_groups::kept_frame;
pub use keyed_totals::{KeyedGroups, keyed_fits, keyed_groups, keyed_rows};
pub use levels::{Level, all_paths, levels_of};
pub use recursive::node_levels;
pub use roots::root_after;
pub use selections::{select_rows, selected_places};
pub use totals::{NodeTotals, node_totals, total_rows};
