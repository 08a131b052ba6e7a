//! Values on rows, in the order of the rows, worked out by several threads.
//!
//! `values_of` has the values of an expression on rows, `key_lists` those of key paths; `filter_rows` keeps the rows on which an
//! expression is true, and `compute_rows` extends rows by new columns. `RowList` is a list of instances that is read where it
//! stands, rows or a frame, and `PlacedRows` those of a list that are told by their places, each with the values on them, owned or
//! borrowed (`seen`), and the aggregate of these by a method (`aggregates`), which on a frame are folded where they are read: no row
//! is copied or made, but those that `RowList::members` is asked for. `RowList::partials_by` has what partials keep of the values on
//! the instances of each group of a list, whose instances have the number of their group: each value goes to what is kept of its
//! group (`group_folds`, `group_partials`). `RowList::aggregates_by` has the aggregates of all groups (`numbered`), also but for
//! distinct values, which are counted by numbers in their place (`distincts`). Values on a frame are folded where they are read
//! (`frame_folds`).
//! `RowList::codes` and `RowList::key_codes` have numbers in place of the values of paths (`key_codes`).
//! The rows are cut into at most as many parts as there are workers, by `rayon`, and few rows are not cut at all. Threads read the
//! data, the rows and the expression, and write nothing that is shared. Rows are moved and made by the thread that called.
//!
//! The crate stands on `row_frames` for frames, on `aggregate_ops` and `par_stages` for aggregates, on `numbered_groups` and
//! `value_codes` for numbers of groups and of values, on `apply_meaning` for rows and the values of expressions on them, on
//! `context_typing` for the types that methods take, on `apply_ast` for expressions and paths, and on `edm_data` for the data.
//!
//! It promises the values of the definitions, in the order of the rows, for every number of workers.
#![tactic(auto)]

mod aggregates;
mod computes;
mod distincts;
mod filters;
mod frame_folds;
mod group_folds;
mod group_partials;
mod key_codes;
mod keys;
mod lists;
mod numbered;
mod parts;
mod placed;
mod seen;
mod values;

pub use computes::compute_rows;
pub use filters::filter_rows;
pub use keys::key_lists;
pub use lists::RowList;
pub use placed::PlacedRows;
pub use values::values_of;
