//! The rules that rewrite pipelines, each at one place.
//!
//! `rules` has the rules, with those through groups in `groups`, through concatenations in `branches`, through joins in `joins`,
//! through walks over nodes in `walks`, and inside climbs in `climbs`. `filters` finds the nearest filter that may pass a step or go
//! into it, `made` puts together the steps that a rule makes, `pipelines` and `ended` pipelines with a step more or less, and
//! `nodes` and `related` the keys and joins with a filter more in their pipeline.
//!
//! The crate stands on `rewrite_forms` for what a rule asks of steps, keys and shapes, on `rewrite_laws` for the definitions of the
//! rules, on `context_typing` for the typing at the place, and on `apply_ast` for pipelines. It promises of `at_place`, for any rule
//! by its `RuleName`, that what it gives is what the definition makes of the steps from a place on, and nothing exactly where the
//! definition makes nothing there. `rewrite_places` finds the places.
#![tactic(auto)]

mod branches;
mod climbs;
mod ended;
mod filters;
mod groups;
mod joins;
mod made;
mod nodes;
mod pipelines;
mod related;
mod rules;
mod walks;

pub use rules::{RuleName, at_place};
