//! The rules, each at its first place in a typed pipeline.
ghost use Rattle.std.specs.Prelude.{IfOk, IsTrue};
ghost use Rattle.edm_model.specs.LookUps.{IsSet};
ghost use Rattle.context_typing.specs.Answers.{IsTyping};
ghost use Rattle.context_typing.specs.Readings.{readings, AreTypedOver};
ghost use Rattle.context_typing.specs.Typing.{customs_typed};
ghost use Rattle.rewrite_places.specs.Places.{IsFirst, MayStand};
ghost use Rattle.rewrite_rules.specs.RuleNames.{rule_of};
ghost use Rattle.rewrite_laws.specs.Rewrites.{drop_identity, drop_idle, drop_order, drop_true, factor_branches, filter_branches, filter_nodes, filter_related, join_counts, pass_compute, pass_groups, pass_join, pass_nodes, pass_order, pass_outer_join, pass_rollup, pass_traverse, split_conjunction};

use crate::places::in_pipe;
use context_typing::{Customs, Typed, set_shape, set_shape_is_lawful};
use edm_model::Model;
use rewrite_laws::{first_rewrites_keep_meaning, results_are_typed};
use rewrite_rules::RuleName;
use std::alloc::{AllocError, Global};

/// What a rule makes of a typed pipeline at its first place.
pub fn first_place(
    alloc: Global,
    m: &Model,
    c: &Customs,
    rule: RuleName,
    t: &Typed,
) -> Result<Option<Typed>, AllocError>
    requires set { IsSet m.now t.now.set }
    requires customs { AreTypedOver m.now c.now }
    requires whole { IsTrue (customs_typed m.now (readings c.now)) }
    requires typing { IsTyping m.now (readings c.now) t.now }
    ensures value { IfOk result (IsFirst (rule_of rule) m.now (readings c.now) t.now) }
    ensures meaning { IfOk result (MayStand m.now (readings c.now) t.now) }
{
    let _sets = m.sets();
    set_shape_is_lawful();
    results_are_typed();
    first_rewrites_keep_meaning();
    let start = set_shape(alloc, m.set_type(t.set));
    match in_pipe(alloc, m, c, rule, &t.pipe, &start)? {
        Some(pipe) => Ok(Some(Typed {
            set: t.set,
            pipe,
            shape: t.shape.copy(alloc)?,
        })),
        None => Ok(None),
    }
}

/// `identity` beside another step of the same pipeline is dropped.
pub fn rule_1(alloc: Global, m: &Model, c: &Customs, t: &Typed) -> Result<Option<Typed>, AllocError>
    requires set { IsSet m.now t.now.set }
    requires customs { AreTypedOver m.now c.now }
    requires whole { IsTrue (customs_typed m.now (readings c.now)) }
    requires typing { IsTyping m.now (readings c.now) t.now }
    ensures value { IfOk result (IsFirst drop_identity m.now (readings c.now) t.now) }
    ensures meaning { IfOk result (MayStand m.now (readings c.now) t.now) }
{
    first_place(alloc, m, c, RuleName::DropIdentity, t)
}

/// A filter by a conjunction whose second operand is sure becomes two filters.
pub fn rule_2(alloc: Global, m: &Model, c: &Customs, t: &Typed) -> Result<Option<Typed>, AllocError>
    requires set { IsSet m.now t.now.set }
    requires customs { AreTypedOver m.now c.now }
    requires whole { IsTrue (customs_typed m.now (readings c.now)) }
    requires typing { IsTyping m.now (readings c.now) t.now }
    ensures value { IfOk result (IsFirst split_conjunction m.now (readings c.now) t.now) }
    ensures meaning { IfOk result (MayStand m.now (readings c.now) t.now) }
{
    first_place(alloc, m, c, RuleName::SplitConjunction, t)
}

/// The filter `true` is dropped: it becomes `identity`, which is dropped where another step stands beside it.
pub fn rule_3(alloc: Global, m: &Model, c: &Customs, t: &Typed) -> Result<Option<Typed>, AllocError>
    requires set { IsSet m.now t.now.set }
    requires customs { AreTypedOver m.now c.now }
    requires whole { IsTrue (customs_typed m.now (readings c.now)) }
    requires typing { IsTyping m.now (readings c.now) t.now }
    ensures value { IfOk result (IsFirst drop_true m.now (readings c.now) t.now) }
    ensures meaning { IfOk result (MayStand m.now (readings c.now) t.now) }
{
    first_place(alloc, m, c, RuleName::DropTrue, t)
}

/// A filter that names no new column passes a computation.
pub fn rule_4(alloc: Global, m: &Model, c: &Customs, t: &Typed) -> Result<Option<Typed>, AllocError>
    requires set { IsSet m.now t.now.set }
    requires customs { AreTypedOver m.now c.now }
    requires whole { IsTrue (customs_typed m.now (readings c.now)) }
    requires typing { IsTyping m.now (readings c.now) t.now }
    ensures value { IfOk result (IsFirst pass_compute m.now (readings c.now) t.now) }
    ensures meaning { IfOk result (MayStand m.now (readings c.now) t.now) }
{
    first_place(alloc, m, c, RuleName::PassCompute, t)
}

/// A filter passes an order by sure expressions.
pub fn rule_5(alloc: Global, m: &Model, c: &Customs, t: &Typed) -> Result<Option<Typed>, AllocError>
    requires set { IsSet m.now t.now.set }
    requires customs { AreTypedOver m.now c.now }
    requires whole { IsTrue (customs_typed m.now (readings c.now)) }
    requires typing { IsTyping m.now (readings c.now) t.now }
    ensures value { IfOk result (IsFirst pass_order m.now (readings c.now) t.now) }
    ensures meaning { IfOk result (MayStand m.now (readings c.now) t.now) }
{
    first_place(alloc, m, c, RuleName::PassOrder, t)
}

/// A sure filter on the keys passes a grouping by plain keys alone.
pub fn rule_6(alloc: Global, m: &Model, c: &Customs, t: &Typed) -> Result<Option<Typed>, AllocError>
    requires set { IsSet m.now t.now.set }
    requires customs { AreTypedOver m.now c.now }
    requires whole { IsTrue (customs_typed m.now (readings c.now)) }
    requires typing { IsTyping m.now (readings c.now) t.now }
    ensures value { IfOk result (IsFirst pass_groups m.now (readings c.now) t.now) }
    ensures meaning { IfOk result (MayStand m.now (readings c.now) t.now) }
{
    first_place(alloc, m, c, RuleName::PassGroups, t)
}

/// A sure filter on keys that stand in every row passes a grouping with a rollup by levels.
pub fn rule_7(alloc: Global, m: &Model, c: &Customs, t: &Typed) -> Result<Option<Typed>, AllocError>
    requires set { IsSet m.now t.now.set }
    requires customs { AreTypedOver m.now c.now }
    requires whole { IsTrue (customs_typed m.now (readings c.now)) }
    requires typing { IsTyping m.now (readings c.now) t.now }
    ensures value { IfOk result (IsFirst pass_rollup m.now (readings c.now) t.now) }
    ensures meaning { IfOk result (MayStand m.now (readings c.now) t.now) }
{
    first_place(alloc, m, c, RuleName::PassRollup, t)
}

/// A filter that has a typing on each branch of a concatenation goes to the end of every branch.
pub fn rule_8(alloc: Global, m: &Model, c: &Customs, t: &Typed) -> Result<Option<Typed>, AllocError>
    requires set { IsSet m.now t.now.set }
    requires customs { AreTypedOver m.now c.now }
    requires whole { IsTrue (customs_typed m.now (readings c.now)) }
    requires typing { IsTyping m.now (readings c.now) t.now }
    ensures value { IfOk result (IsFirst filter_branches m.now (readings c.now) t.now) }
    ensures meaning { IfOk result (MayStand m.now (readings c.now) t.now) }
{
    first_place(alloc, m, c, RuleName::FilterBranches, t)
}

/// A step with which all branches of a concatenation begin, but `identity`, goes before it.
pub fn rule_9(alloc: Global, m: &Model, c: &Customs, t: &Typed) -> Result<Option<Typed>, AllocError>
    requires set { IsSet m.now t.now.set }
    requires customs { AreTypedOver m.now c.now }
    requires whole { IsTrue (customs_typed m.now (readings c.now)) }
    requires typing { IsTyping m.now (readings c.now) t.now }
    ensures value { IfOk result (IsFirst factor_branches m.now (readings c.now) t.now) }
    ensures meaning { IfOk result (MayStand m.now (readings c.now) t.now) }
{
    first_place(alloc, m, c, RuleName::FactorBranches, t)
}

/// A sure filter with no path under the alias passes a join.
pub fn rule_10(
    alloc: Global,
    m: &Model,
    c: &Customs,
    t: &Typed,
) -> Result<Option<Typed>, AllocError>
    requires set { IsSet m.now t.now.set }
    requires customs { AreTypedOver m.now c.now }
    requires whole { IsTrue (customs_typed m.now (readings c.now)) }
    requires typing { IsTyping m.now (readings c.now) t.now }
    ensures value { IfOk result (IsFirst pass_join m.now (readings c.now) t.now) }
    ensures meaning { IfOk result (MayStand m.now (readings c.now) t.now) }
{
    first_place(alloc, m, c, RuleName::PassJoin, t)
}

/// A filter whose paths all lie under the alias of a join goes to the end of the pipeline of the join.
pub fn rule_11(
    alloc: Global,
    m: &Model,
    c: &Customs,
    t: &Typed,
) -> Result<Option<Typed>, AllocError>
    requires set { IsSet m.now t.now.set }
    requires customs { AreTypedOver m.now c.now }
    requires whole { IsTrue (customs_typed m.now (readings c.now)) }
    requires typing { IsTyping m.now (readings c.now) t.now }
    ensures value { IfOk result (IsFirst filter_related m.now (readings c.now) t.now) }
    ensures meaning { IfOk result (MayStand m.now (readings c.now) t.now) }
{
    first_place(alloc, m, c, RuleName::FilterRelated, t)
}

/// A filter with no path under the alias passes an outer join.
pub fn rule_12(
    alloc: Global,
    m: &Model,
    c: &Customs,
    t: &Typed,
) -> Result<Option<Typed>, AllocError>
    requires set { IsSet m.now t.now.set }
    requires customs { AreTypedOver m.now c.now }
    requires whole { IsTrue (customs_typed m.now (readings c.now)) }
    requires typing { IsTyping m.now (readings c.now) t.now }
    ensures value { IfOk result (IsFirst pass_outer_join m.now (readings c.now) t.now) }
    ensures meaning { IfOk result (MayStand m.now (readings c.now) t.now) }
{
    first_place(alloc, m, c, RuleName::PassOuterJoin, t)
}

/// An order by sure expressions directly before an aggregation is dropped.
pub fn rule_13(
    alloc: Global,
    m: &Model,
    c: &Customs,
    t: &Typed,
) -> Result<Option<Typed>, AllocError>
    requires set { IsSet m.now t.now.set }
    requires customs { AreTypedOver m.now c.now }
    requires whole { IsTrue (customs_typed m.now (readings c.now)) }
    requires typing { IsTyping m.now (readings c.now) t.now }
    ensures value { IfOk result (IsFirst drop_order m.now (readings c.now) t.now) }
    ensures meaning { IfOk result (MayStand m.now (readings c.now) t.now) }
{
    first_place(alloc, m, c, RuleName::DropOrder, t)
}

/// Two counts from the top by one expression become the lesser.
pub fn rule_14(
    alloc: Global,
    m: &Model,
    c: &Customs,
    t: &Typed,
) -> Result<Option<Typed>, AllocError>
    requires set { IsSet m.now t.now.set }
    requires customs { AreTypedOver m.now c.now }
    requires whole { IsTrue (customs_typed m.now (readings c.now)) }
    requires typing { IsTyping m.now (readings c.now) t.now }
    ensures value { IfOk result (IsFirst join_counts m.now (readings c.now) t.now) }
    ensures meaning { IfOk result (MayStand m.now (readings c.now) t.now) }
{
    first_place(alloc, m, c, RuleName::JoinCounts, t)
}

/// A sure filter passes a walk over the nodes of a sure path.
pub fn rule_15(
    alloc: Global,
    m: &Model,
    c: &Customs,
    t: &Typed,
) -> Result<Option<Typed>, AllocError>
    requires set { IsSet m.now t.now.set }
    requires customs { AreTypedOver m.now c.now }
    requires whole { IsTrue (customs_typed m.now (readings c.now)) }
    requires typing { IsTyping m.now (readings c.now) t.now }
    ensures value { IfOk result (IsFirst pass_traverse m.now (readings c.now) t.now) }
    ensures meaning { IfOk result (MayStand m.now (readings c.now) t.now) }
{
    first_place(alloc, m, c, RuleName::PassTraverse, t)
}

/// A sure filter on the plain keys passes a grouping with a recursive rollup.
pub fn rule_16(
    alloc: Global,
    m: &Model,
    c: &Customs,
    t: &Typed,
) -> Result<Option<Typed>, AllocError>
    requires set { IsSet m.now t.now.set }
    requires customs { AreTypedOver m.now c.now }
    requires whole { IsTrue (customs_typed m.now (readings c.now)) }
    requires typing { IsTyping m.now (readings c.now) t.now }
    ensures value { IfOk result (IsFirst pass_nodes m.now (readings c.now) t.now) }
    ensures meaning { IfOk result (MayStand m.now (readings c.now) t.now) }
{
    first_place(alloc, m, c, RuleName::PassNodes, t)
}

/// A sure filter on the node of a recursive rollup goes to the end of the pipeline that chooses the nodes.
pub fn rule_17(
    alloc: Global,
    m: &Model,
    c: &Customs,
    t: &Typed,
) -> Result<Option<Typed>, AllocError>
    requires set { IsSet m.now t.now.set }
    requires customs { AreTypedOver m.now c.now }
    requires whole { IsTrue (customs_typed m.now (readings c.now)) }
    requires typing { IsTyping m.now (readings c.now) t.now }
    ensures value { IfOk result (IsFirst filter_nodes m.now (readings c.now) t.now) }
    ensures meaning { IfOk result (MayStand m.now (readings c.now) t.now) }
{
    first_place(alloc, m, c, RuleName::FilterNodes, t)
}

/// The last step of the pipeline that chooses the start nodes of a climb is dropped where it changes none of them.
pub fn rule_18(
    alloc: Global,
    m: &Model,
    c: &Customs,
    t: &Typed,
) -> Result<Option<Typed>, AllocError>
    requires set { IsSet m.now t.now.set }
    requires customs { AreTypedOver m.now c.now }
    requires whole { IsTrue (customs_typed m.now (readings c.now)) }
    requires typing { IsTyping m.now (readings c.now) t.now }
    ensures value { IfOk result (IsFirst drop_idle m.now (readings c.now) t.now) }
    ensures meaning { IfOk result (MayStand m.now (readings c.now) t.now) }
{
    first_place(alloc, m, c, RuleName::DropIdle, t)
}
