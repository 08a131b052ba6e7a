//! The rules that rewrite pipelines, the order in which they apply, the plan that they lead to, and the laws of both.
//!
//! `specs/Rewrites` has each rule at one place, a rule at each place of a pipeline, and what a plan is; `specs/TreeEquality` the
//! equality of trees that rules ask for, `specs/Measures` the measure that each rewrite lowers, and `specs/RewriteLaws` the laws as
//! statements. `laws` has a function for each law. `docs/rewrites.md` states the rules.
//!
//! The crate stands on `apply_ast` for pipelines, on `context_typing` for their typing, and on `apply_meaning` for their meaning and
//! its laws. It has no code but its laws: `rewrite_rules` makes what a rule makes at a place, and `rewrite_places` finds the places.
//!
//! It promises that a rewritten pipeline has the shape and the meaning that it had, and is quiet where it was, that rewriting ends,
//! and that a plan is one and settled.
#![tactic(auto)]

mod laws;

pub use laws::{
    first_rewrites_keep_meaning, plan_exists, plan_is_settled, plan_is_unique, plan_keeps_meaning,
    plan_keeps_outcome, replacement_keeps_meaning, replacement_keeps_outcome, results_are_typed,
    rewrites_are_counted, rewrites_are_smaller, rewriting_ends, rules_keep_meaning,
    rules_keep_outcome,
};
