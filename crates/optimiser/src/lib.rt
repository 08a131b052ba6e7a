//! Plans: the pipeline that is run in place of the one that was written.
//!
//! A `Plan` holds the typing of the pipeline that was written, and that of the pipeline that is run in its place, which has the same
//! entity set and the same shape (`specs/Plans`). `Plan::written` makes the plan that runs the pipeline as it was written, and
//! `optimise` the one that runs what rewriting makes of it.
//!
//! The crate stands on `rewrite_laws` for what a plan is, on `walk_laws` for the walk, on `rewrite_places` for the rules at their
//! first places, by their names in `rewrite_rules`, on `rewrite_forms` for what the walk asks of steps and expressions, on
//! `context_typing` for typed pipelines, and on `apply_ast` for pipelines. It promises that a typing makes a plan over its
//! model and customs (`plan`); that the plan which `Plan::written` makes runs that typing's pipeline; and that the pipeline
//! which a plan of `optimise` runs is the plan of the written one (`own`): it is reached by rewrites in their order, no rule
//! applies to it, and it means the same, refusal included, and names no other hierarchy (`meaning`).
//!
//! A plan is not made rewrite by rewrite. `walk_laws` defines a walk over a pipeline, and has the laws by which `plans` uses it: a
//! pipeline becomes its plan in one walk by all rules where two branches of each concatenation begin with different steps for good,
//! as where there is no concatenation, and in one walk and what then comes out of all branches where the others give filters alone,
//! which stay before them. Where the others give filters alone that may go on, it is put anew in rounds of these two, as long as
//! filters come out, and between them those that would go through all branches of a concatenation are put before it. Any other is settled
//! in one walk by the rules that come first; where its filters rest then,
//! all steps that come out of branches are put before their concatenations; then comes one rewrite by a later rule, and the rounds
//! and the walk again, until no rule applies. `next_rewrite` makes one rewrite, for comparisons.
//!
//! `plans` has the plan, `walking` the walk, `apart` whether branches begin with different steps for good, `kinds` whether they
//! begin with steps of different kinds, `lasting` whether nothing but filters comes out of branches, `given` whether filters come
//! out of the others and stay before them, `anywhere` whether nothing but filters comes out of them, `crossing` the
//! filters that go before a concatenation without going through it, `resting` whether filters
//! rest, `factoring` the steps that come out of branches, `within` those in joins, groupings and climbs too, and `rewriting` the one
//! rewrite. Below `walking`, `known` has what is known of the steps of a pipeline before a walk comes to them: the shapes at the
//! ends of branches, and those behind steps that hold pipelines, so that no branch is typed again. `held` has the segments of a
//! walk, a step with the filters behind it; `heads` says which filters pass a step and which go into it; `idle` drops steps that
//! are idle at the end; `putting` puts filters, `stepping` the steps of a pipeline, and `ends` the filters that have gone to its
//! end. `rules` has the rules of a walk, and `inside` laws of what is typed and known inside a typed step.
#![tactic(auto)]

mod anywhere;
mod apart;
mod crossing;
mod ends;
mod factoring;
mod given;
mod heads;
mod held;
mod idle;
mod inside;
mod kinds;
mod known;
mod lasting;
mod plans;
mod putting;
mod resting;
mod rewriting;
mod rules;
mod same;
mod stepping;
mod walking;
mod within;

pub use plans::{Plan, optimise};
pub use rewriting::next_rewrite;
