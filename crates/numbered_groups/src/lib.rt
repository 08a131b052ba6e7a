//! Groups of rows that are told by numbers.
//!
//! `NumberedGroups` has for each row the number of its group, and for each group its first row: the groups of the rows' key lists, in
//! order of first appearance, without a list of rows for each. `number_groups` makes one of the numbers that stand in place of the
//! values of key columns (`value_codes`), and `number_levels` one for each number of the first columns, as a rollup asks (`levels`).
//! Rows are numbered by one column after the other: a row's number so far and its code in the next column are a pair, and each pair
//! has a number (`refined`). Numbers are found without a hash, in a list by the place of a code (`indexes`), in pieces by workers
//! (`found`). `seen_codes` has the numbers of any values, found by their hashes (`seen`). `number_values` has the distinct values of the
//! rows, and `distinct_counts` how many of these each group has, without a table for each group: by the pairs of a group and a value
//! (`distincts`).
//!
//! The crate stands on `value_codes`, on `aggregate_ops` for the meaning of groups and for hashes, on `par_stages` for folds, and on
//! `apply_meaning` and `edm_values`.
//!
//! It promises that these are the groups of the definition: the distinct keys in order of first appearance, each with its rows
//! (`specs/Numbered`), and that a count of distinct values is that of the definition (`specs/Distincts`). More than 2^32 - 1 groups, and pairs beyond 32 bits, which only more than 2^29 rows have, answer want of memory.
#![tactic(auto)]

mod distincts;
mod found;
mod groups;
mod indexes;
mod levels;
mod refined;
mod seen;

pub use distincts::{distinct_count, distinct_counts, number_values};
pub use groups::NumberedGroups;
pub use levels::{number_groups, number_levels};
pub use seen::seen_codes;
