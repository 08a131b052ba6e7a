//! One rewrite of a typed pipeline by the first of some rules that applies.
ghost use Rattle.std.specs.Prelude.{◌≡◌, IfOk, IfSome, IsTrue, map};
ghost use Rattle.edm_model.specs.LookUps.{IsSet};
ghost use Rattle.apply_ast.specs.Views.{pipe_of};
ghost use Rattle.apply_meaning.specs.MeaningLaws.{IsLoaded};
ghost use Rattle.context_typing.specs.Answers.{IsTyping};
ghost use Rattle.context_typing.specs.Readings.{AreTypedOver, readings};
ghost use Rattle.context_typing.specs.Typing.{customs_typed, shape_of_set};
ghost use Rattle.rewrite_laws.specs.RewriteLaws.{MayStandFor};
ghost use Rattle.rewrite_laws.specs.Rewrites.{rules};
ghost use Rattle.rewrite_places.specs.Places.{MayStand};
ghost use Rattle.rewrite_rules.specs.RuleNames.{rule_of};
ghost use Rattle.optimiser.specs.Plans.{IsFirstOf, IsNext, later_rules};

use context_typing::{Customs, Typed};
use edm_model::Model;
use rewrite_places::first_place;
use rewrite_rules::RuleName;
use std::alloc::{AllocError, Global};

/// How many rules come first, by which any pipeline is settled in one walk.
const EARLY: usize = 8;

/// The rules, in their order.
fn all_rules() -> [RuleName; 18]
    ensures { map rule_of result ≡ rules }
{
    [
        RuleName::DropIdentity,
        RuleName::SplitConjunction,
        RuleName::DropTrue,
        RuleName::PassCompute,
        RuleName::PassOrder,
        RuleName::PassGroups,
        RuleName::PassRollup,
        RuleName::FilterBranches,
        RuleName::FactorBranches,
        RuleName::PassJoin,
        RuleName::FilterRelated,
        RuleName::PassOuterJoin,
        RuleName::DropOrder,
        RuleName::JoinCounts,
        RuleName::PassTraverse,
        RuleName::PassNodes,
        RuleName::FilterNodes,
        RuleName::DropIdle,
    ]
}

/// What the first of these rules that applies makes of a typed pipeline at its first place.
fn first_of(
    alloc: Global,
    m: &Model,
    c: &Customs,
    among: &[RuleName],
    t: &Typed,
) -> Result<Option<Typed>, AllocError>
    requires set { IsSet m.now t.now.set }
    requires customs { AreTypedOver m.now c.now }
    requires whole { IsTrue (customs_typed m.now (readings c.now)) }
    requires typing { IsTyping m.now (readings c.now) t.now }
    ensures value { IfOk result (IsFirstOf (map rule_of among.now) m.now (readings c.now) t.now) }
    ensures typing { IfOk result (λ o. IfSome o (IsTyping m.now (readings c.now))) }
    ensures meaning { IfOk result (MayStand m.now (readings c.now) t.now) }
{
    for rule in among {
        if let Some(made) = first_place(alloc, m, c, *rule, t)? {
            return Ok(Some(made));
        }
    }
    Ok(None)
}

/// What the first rule that applies makes of a typed pipeline at its first place; nothing where the pipeline is its own plan.
pub fn next_rewrite(
    alloc: Global,
    m: &Model,
    c: &Customs,
    t: &Typed,
) -> Result<Option<Typed>, AllocError>
    requires set { IsSet m.now t.now.set }
    requires customs { AreTypedOver m.now c.now }
    requires whole { IsTrue (customs_typed m.now (readings c.now)) }
    requires typing { IsTyping m.now (readings c.now) t.now }
    ensures value { IfOk result (IsNext m.now (readings c.now) t.now) }
    ensures typing { IfOk result (λ o. IfSome o (IsTyping m.now (readings c.now))) }
    ensures meaning { IfOk result (λ o. IfSome o (λ q. MayStandFor IsLoaded m.now (readings c.now) (shape_of_set m.now t.now.set) t.now.shape (pipe_of t.now.pipe) (pipe_of q.pipe))) }
{
    let all = all_rules();
    first_of(alloc, m, c, &all, t)
}

/// The same of the rules that come after those by which any pipeline is settled in one walk.
pub(crate) fn later_rewrite(
    alloc: Global,
    m: &Model,
    c: &Customs,
    t: &Typed,
) -> Result<Option<Typed>, AllocError>
    requires set { IsSet m.now t.now.set }
    requires customs { AreTypedOver m.now c.now }
    requires whole { IsTrue (customs_typed m.now (readings c.now)) }
    requires typing { IsTyping m.now (readings c.now) t.now }
    ensures value { IfOk result (IsFirstOf later_rules m.now (readings c.now) t.now) }
    ensures typing { IfOk result (λ o. IfSome o (IsTyping m.now (readings c.now))) }
{
    let all = all_rules();
    first_of(alloc, m, c, &all[EARLY..], t)
}
