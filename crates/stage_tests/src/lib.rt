//! Tests of `apply_meaning`, `hier_index`, `hier_traverse`, `hier_states`, `rewrite_places`, `optimiser` and `plan_run`. They say what no
//! clause says: rows from outside, and that calls succeed where memory is ample.
//!
//! `rows` has the values of expressions on rows and rows as they are read back, `runs` whole pipelines, over the tables of
//! `run_rows`. `hierarchies` has walks, descendants, intervals and cycles of hierarchies that are written as words (`node_words`) and of
//! hierarchies over keys of several types, and rows at ancestors and descendants and node by node. `rewrites` has what rules make of
//! pipelines, and plans.
#![tactic(auto)]

#[cfg(test)]
mod hierarchies;
#[cfg(test)]
mod node_words;
#[cfg(test)]
mod rewrites;
#[cfg(test)]
mod rows;
#[cfg(test)]
mod run_rows;
#[cfg(test)]
mod runs;
