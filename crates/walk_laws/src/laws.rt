//! The laws of walks.
ghost use Rattle.apply_meaning.specs.MeaningLaws.{IsLoaded};
ghost use Rattle.walk_laws.specs.WalkLaws.{ApartWalkIsPlan, CrossingKeepsPlan, EarlyWalkIsPlan, EarlyWalkKeepsMeaning, EarlyWalkKeepsPlan, FactoringIsRewriting, FactoringKeepsPlan, GivenWalkIsPlan, LaterRulesFollow, UnfactoredIsSettled, WalkIsPlan, WalkKeepsPlan};

/// A typed pipeline without a concatenation, settled in one walk by all rules, is its plan.
pub fn walk_is_plan()
    ensures law { WalkIsPlan }
{}

/// So is a typed pipeline two of whose branches in each concatenation begin with different steps for good, or with steps of different
/// kinds.
pub fn apart_walk_is_plan()
    ensures law { ApartWalkIsPlan }
{}

/// So is a typed pipeline whose other concatenations give filters that stay before them, once these have come out of all branches.
pub fn given_walk_is_plan()
    ensures law { GivenWalkIsPlan }
{}

/// What the walk by all rules makes of a typed pipeline has its plan, where each concatenation begins apart for good or gives filters
/// alone, in joins and groupings too.
pub fn walk_keeps_plan()
    ensures law { WalkKeepsPlan }
{}

/// So has what is left of that once these filters have come out of all branches.
pub fn factoring_keeps_plan()
    ensures law { FactoringKeepsPlan }
{}

/// Where nothing comes out of it then, no rule applies to what the walk makes.
pub fn unfactored_is_settled()
    ensures law { UnfactoredIsSettled }
{}

/// Filters that cross a concatenation may stand before it.
pub fn crossing_keeps_plan()
    ensures law { CrossingKeepsPlan }
{}

/// A typed pipeline, settled in one walk by the first eight rules, is what these rules make of it.
pub fn early_walk_is_plan()
    ensures law { EarlyWalkIsPlan }
{}

/// The plan of what the walk by the first eight rules makes is the plan of the pipeline.
pub fn early_walk_keeps_plan()
    ensures law { EarlyWalkKeepsPlan }
{}

/// What the walk by the first eight rules makes may stand for the pipeline.
pub fn early_walk_keeps_meaning()
    ensures law { EarlyWalkKeepsMeaning IsLoaded }
{}

/// Behind the walk by the first eight rules the next rewrite is by a later rule, or there is none.
pub fn later_rules_follow()
    ensures law { LaterRulesFollow }
{}

/// Of a typed pipeline whose filters rest, the rewrites by the ninth rule come to what comes out of all branches at once.
pub fn factoring_is_rewriting()
    ensures law { FactoringIsRewriting }
{}
