//! Pipelines settled in one walk, and the laws by which this makes plans.
//!
//! A plan is reached by rewrites, one at a time. `specs/Walks` defines one walk over the steps of a pipeline, and over those of the
//! pipelines inside them, that makes the same: each step is put once behind those before it, and each filter goes to the front as
//! far as the rules let it, or into a step. A walk has all rules but the ninth, or the first eight. `specs/Factored` defines pipelines
//! whose filters rest, so that none of the first eight rules moves one, and the steps that come out of all their concatenations at
//! once.
//! `specs/Apart` defines pipelines in whose concatenations two branches begin with different steps for good, or with steps of different
//! kinds, and `specs/FiltersOut` those out of whose other concatenations nothing but filters comes, anywhere, in the pipelines inside
//! steps too, or where these stay before them. `specs/Crossing` has filters that pass all steps of each branch. `specs/WalkLaws` has the laws as statements, and `laws` a function for each.
//!
//! The crate stands on `rewrite_laws` for the rules and for what a plan is, and has no code but its laws. It promises that the walk
//! by all rules makes the plan of every typed pipeline without a concatenation, or whose branches stay so apart; that it does of one
//! whose other concatenations give filters that stay before them, once these have come out of all branches; that where they give
//! filters anywhere, the walk by all rules and what comes out of all branches then keep the plan, and where nothing does the walk has
//! made it, and that filters which would go through all branches may stand before them; that the walk by the first eight
//! rules makes of every typed pipeline what these rules make of it, and that the plan of this is the plan of the pipeline. Of a typed
//! pipeline whose filters rest it promises that the rewrites which come next, by the ninth rule, lead to the pipeline with all those
//! steps before their concatenations.
//!
//! `proofs/WalkPassing` and `proofs/WalkEntering` have the two families of rules, by which a filter passes a step or goes into it;
//! `proofs/WalkRules`, `WalkSteps`, `WalkInside` and `WalkNodes` each rule at its place; `proofs/WalkPlaces` what follows at any
//! place; `proofs/WalkRest`, `WalkEnd` and `WalkKept` pipelines of which no rule makes anything; `proofs/WalkPlan` their laws.
//! `proofs/FilterRest` has pipelines whose filters rest, `FactoredSame` what the ninth rule makes of them, by trees that are told
//! the same as themselves (`SameItself`), and `Factoring` the law. `ApartSteps`, `ApartRules` and `ApartPlaces` have branches that
//! stay apart, and `ApartPlan` the law. `StayRules` and `StayPlaces` have what keeps filters before the concatenation that gives them,
//! `SegmentTails`, `GivenFilters` and `GivenPlaces` what the ninth rule makes there, `FactoredLeft` and `InsideLeft` pipelines of which it
//! makes nothing, and `GivenPlan` the law. `Holes` has joins, groupings and climbs by what stands around a pipeline inside them,
//! `HeldFamilies` lists of segments that differ in one such step, and `IdleWalk` what is left of a climb's pipeline. `OutPlaces` has
//! filters that come out anywhere, `OutWalk` and `WithinWalk` that the walk comes to the same before and behind, and `OutPlan` the two
//! laws, by the measure that all rewrites lower (`LowerPipes`). `Crossing` has that filters may cross a concatenation.
#![tactic(auto)]

mod laws;

pub use laws::{
    apart_walk_is_plan, crossing_keeps_plan, early_walk_is_plan, early_walk_keeps_meaning,
    early_walk_keeps_plan, factoring_is_rewriting, factoring_keeps_plan, given_walk_is_plan,
    later_rules_follow, unfactored_is_settled, walk_is_plan, walk_keeps_plan,
};
