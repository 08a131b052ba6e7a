//! What requests mean over the data: rows, the values of paths and expressions on them, aggregates, the plain
//! transformations, and the counter of steps.
//!
//! A `Row` is an instance: entities at prefixes, and values at columns. `Row::make`, `Row::extend` and `Row::copy` are the
//! only calls that give one, and each counts one step. `lookup` gives the value of a path on a row, and `eval` that of an
//! expression; `operators` has the operators and functions. `aggregates` has the aggregates of lists of values, and `sums`
//! adds numbers; `values_of` gives the values of an expression on rows. Each plain transformation has a function of its own
//! over lists of rows: `filters`, `computes`, `aggregations`; `sets` makes the rows of an entity set, and `plain` runs whole
//! pipelines of these (`run_plain`).
//! `Steps` counts the steps of a run; only `tick` changes the count, by one. `docs/meaning.md` states the rules.
//!
//! The crate stands on `edm_values` for values, their arithmetic and their ranges, on `edm_model` for sets, properties and
//! navigations, on `edm_data` for the entities, on `apply_ast` for paths, expressions and pipelines, and on
//! `context_typing` for shapes and typed pipelines.
//!
//! It promises that a row is the instance that it was made of (`specs/Instances`, `specs/RowViews`), that `lookup` and
//! `eval` are the definitions `lookup` and `val` on it, whatever the types of the expression's parts, and that `aggregate`
//! is the aggregate of its values (`specs/Aggregates`). `specs/Meaning` says what each pipeline makes of a list of
//! instances: `run_plain` gives that, is refused exactly where it is (`specs/Running`), and counts the rows that it makes
//! (`specs/Counts`). `lookup`, `eval`, `skip_rows` and `top_rows` take no memory.
//!
//! `laws` has the laws of these definitions: on instances that fit a shape, values have their types, sure expressions are
//! never `Beyond`, what a typed pipeline gives fits its shape, and a quiet one is never refused.
#![tactic(auto)]

mod aggregates;
mod aggregations;
mod computes;
mod evaluation;
mod filters;
mod laws;
mod lookups;
mod operators;
mod plain;
mod rows;
mod sets;
mod steps;
mod sums;

pub use aggregates::{aggregate, count};
pub use aggregations::{path_of, seen_values, values_of};
pub use computes::compute_rows;
pub use edm_values::Refused as RunRefused;
pub use evaluation::eval;
pub use filters::{filter_rows, skip_rows, top_rows};
pub use laws::{
    data_is_loaded, meanings_fit, node_rows_fit, quiet_is_not_refused, related_rows_fit,
    set_rows_fit, sure_values_are_in_range, values_fit,
};
pub use lookups::{lookup, value_behind};
pub use operators::{binary, call1, call2, negation};
pub use plain::{aggregation_rows, is_plain, is_plain_step, run_plain};
pub use rows::{Row, copy_columns, copy_prefixes};
pub use sets::set_rows;
pub use steps::Steps;
