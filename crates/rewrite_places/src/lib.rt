//! The rules that rewrite pipelines, each at its first place in a typed pipeline.
//!
//! `places` has the walk over the places of a pipeline, once for all rules, `typed` what the walk knows of the types inside a
//! pipeline, `trees` copies what stands beside a place, and `first` has the calls: `first_place` for any rule by its name, and
//! `rule_1` to `rule_18` for the rules by their numbers.
//!
//! The crate stands on `rewrite_rules` for the rules at one place, on `rewrite_forms` for the shapes behind steps, on `rewrite_laws`
//! for the places of a pipeline and for the laws of the rules, on `context_typing` for typed pipelines, and on `apply_ast` for
//! pipelines. It promises that a call gives exactly what the rule makes at its first place, which may stand for the pipeline that it
//! was given, and nothing where the rule applies at no place.
#![tactic(auto)]

mod first;
mod places;
mod trees;
mod typed;

pub use first::{
    first_place, rule_1, rule_2, rule_3, rule_4, rule_5, rule_6, rule_7, rule_8, rule_9, rule_10,
    rule_11, rule_12, rule_13, rule_14, rule_15, rule_16, rule_17, rule_18,
};
