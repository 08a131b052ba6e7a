//! The laws of rewriting. Those of the meaning hold in every world of a sound model whose lists have the form that the model says,
//! as every loaded one. None of them asks that a hierarchy has no cycle.
ghost use Rattle.apply_meaning.specs.MeaningLaws.{IsLoaded};
ghost use Rattle.rewrite_laws.specs.RewriteLaws.{FirstRewritesKeepMeaning, PlanExists, PlanIsSettled, PlanIsUnique, PlanKeepsMeaning, PlanKeepsOutcome, ReplacementKeepsMeaning, ReplacementKeepsOutcome, ResultsAreTyped, RewritesAreCounted, RewritesAreSmaller, RewritingEnds, RulesKeepMeaning, RulesKeepOutcome};

/// What may be replaced in place may be replaced wherever the place is, inner pipelines included. The law names no rule.
pub fn replacement_keeps_meaning()
    ensures law { ReplacementKeepsMeaning IsLoaded }
{}

/// What a rule makes of a typed pipeline, at whatever place, may stand for it.
pub fn rules_keep_meaning()
    ensures law { RulesKeepMeaning IsLoaded }
{}

/// What a rule makes of a typed pipeline has a typing, so that no result is left out for want of one.
pub fn results_are_typed()
    ensures law { ResultsAreTyped }
{}

/// What a rule makes of a typed pipeline at its first place may stand for it.
pub fn first_rewrites_keep_meaning()
    ensures law { FirstRewritesKeepMeaning IsLoaded }
{}

/// A rule that keeps shape and quiet in place keeps them wherever the place is, inner pipelines included. The law names no rule.
pub fn replacement_keeps_outcome()
    ensures law { ReplacementKeepsOutcome }
{}

/// What a rule makes of a typed pipeline, at whatever place, leads to the same shape, and is quiet where the pipeline is.
pub fn rules_keep_outcome()
    ensures law { RulesKeepOutcome }
{}

/// Each rewrite makes a pipeline smaller.
pub fn rewrites_are_smaller()
    ensures law { RewritesAreSmaller }
{}

/// Rewriting ends, by whatever rules and at whatever places.
pub fn rewriting_ends()
    ensures law { RewritingEnds }
{}

/// There is a number of rewrites that are left, which falls by one with each.
pub fn rewrites_are_counted()
    ensures law { RewritesAreCounted }
{}

/// Every pipeline has a plan.
pub fn plan_exists()
    ensures law { PlanExists }
{}

/// A pipeline has at most one plan.
pub fn plan_is_unique()
    ensures law { PlanIsUnique }
{}

/// None of the rules applies to a plan, at any place.
pub fn plan_is_settled()
    ensures law { PlanIsSettled }
{}

/// The plan of a typed pipeline may stand for it.
pub fn plan_keeps_meaning()
    ensures law { PlanKeepsMeaning IsLoaded }
{}

/// The plan of a typed pipeline leads to the same shape, and is quiet where the pipeline is.
pub fn plan_keeps_outcome()
    ensures law { PlanKeepsOutcome }
{}
