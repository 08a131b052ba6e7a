//! What the rules that rewrite pipelines ask of steps, expressions, orders, keys and shapes, and copies of trees.
//!
//! `forms` reads the steps and expressions that rules look for, and `step_forms` the steps that hold pipelines. `paths`, `alias` and
//! `columns` say what an expression's paths are, `orders` whether an order is sure, and `same` and `same_steps` whether two
//! expressions or steps are equal, by the parts of steps in `same_items`. `shapes` has the shape behind steps, `branches` those
//! behind the branches of a concatenation, and `nodes` that of the nodes which a recursive rollup shows. `keys` reads the keys of a
//! grouping, and `groups` says whether a grouping is quiet. `path_copies` copies expressions with their paths changed, and `trees`
//! steps and inner pipelines.
//!
//! The crate stands on `apply_ast` for pipelines, on `context_typing` for their typing, and on `rewrite_laws` for the definitions of
//! the rules. It promises that each answer is that of its definition, and that a shape's types are the model's. The rules
//! (`rewrite_rules`, `rewrite_places`) are made of it, and `optimiser` settles a pipeline by it.
#![tactic(auto)]

mod alias;
mod branches;
mod columns;
mod forms;
mod groups;
mod keys;
mod nodes;
mod orders;
mod path_copies;
mod paths;
mod same;
mod same_items;
mod same_steps;
mod shapes;
mod step_forms;
mod trees;

pub use alias::{all_begin, any_begins, has_path};
pub use branches::{branch_shapes, is_test_on};
pub use columns::{is_made, names_any};
pub use forms::{
    begins_with_aggregate, begins_with_filter, computed_by, count_by, count_from_top, filtered_by,
    first_count, is_identity, operands, ordered_by, passes_all, walked_by,
};
pub use groups::{grouping_quiet, inner_quiet};
pub use keys::{any_risky, first_rollup, in_every_row, only, recursive_key};
pub use nodes::chosen_nodes;
pub use orders::order_sure;
pub use path_copies::{on_node, without_first};
pub use paths::over;
pub use same::same_expr;
pub use same_steps::same_step;
pub use shapes::{shape_after, shape_behind, steps_shape, type_of};
pub use step_forms::{branches_of, climbed_by};
pub use trees::{copy_inner, put_copies, with_starts};
