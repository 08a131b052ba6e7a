//! Custom aggregates: the value of one on rows.
//!
//! `custom_at` evaluates the expression of a custom aggregate on each row of some that are told by their places, and aggregates
//! the values by its method, in groups and again by its outer method where its definition says so; `custom` does so on all rows
//! of a list. `definitions` finds the definition of a custom aggregate, and `groups` groups rows and aggregates the values of
//! each group; of a whole list the groups are told by numbers, and all are folded in one pass (`numbered`). No row is copied.
//!
//! The crate stands on `aggregate_ops` for aggregates and tables of keys, on `numbered_groups` and `value_codes` for groups that are
//! told by numbers, on `par_stages` for folds in pieces, on `row_values` for values on rows, on `apply_meaning` for rows and
//! expressions, on `context_typing` for the readings of custom aggregates, and on `edm_data` and `edm_model` for the data.
//!
//! It promises that the value is the one that the definition of the custom aggregate gives on the rows (`custom_value` of
//! apply_meaning's `specs/Meaning`, by `specs/CustomValues`).
#![tactic(auto)]

mod customs;
mod definitions;
mod groups;
mod numbered;

pub use customs::{custom, custom_at};
