//! Running a pipeline over rows.
//!
//! `run_pipe` passes rows through a pipeline, one transformation after another (`pipes`). `skip` and `top` are those of
//! `apply_meaning`, `filter` and `compute` those of `row_values`, by as many threads as there are workers, `orderby` is that of
//! `row_orders`, and `aggregate`, selections and traversals are those of `step_run`. `run_grouping` runs a `groupby` on a list of
//! instances, which are rows or a frame: `step_run` finds its groups, and an inner pipeline is run on each; so does a recursive
//! rollup run the pipeline that shows nodes. `grouping_levels` has the groups alone, for a caller who runs the inner pipeline
//! otherwise. `ready` says what a part of a run may ask of its rows, `joins` what a join takes, and `copies` copies rows for pipelines
//! that share them.
//!
//! The crate stands on `step_run` for what runs no pipeline and for what a run works with, on `apply_meaning` for rows, the plain
//! transformations and the meaning of pipelines, on `row_values` for lists of instances, on `row_orders` for orders, on
//! `join_concat` for joins and concatenation, on `hier_states` and `hier_rows` for hierarchies, on `par_stages` for gates, on
//! `context_typing` for typed pipelines, on `apply_ast` for pipelines, and on `edm_data` and `edm_model` for the data.
//!
//! It promises that what `run_pipe` answers is the meaning of the pipeline on the rows, refused exactly where that is, and that the
//! counter of steps rises by no more than the pipeline costs there (`specs/Costs` of `step_run`) and never falls. Rows that a
//! transformation passes on are moved and not copied, but for those of a traversal, which leave in another order. The rows of a
//! group are copied, or made of the instances of a frame, for a pipeline that is run on them, unless it begins with an aggregation,
//! which takes values at their places; all rows are copied for each branch of a concatenation and for the pipeline of a climb.
#![tactic(auto)]

mod copies;
mod joins;
mod pipes;
mod ready;

pub use pipes::{grouping_levels, run_grouping, run_pipe, run_step};
