//! Plans.
ghost use Rattle.std.specs.Prelude.{◌≡◌, IfOk, IsTrue};
ghost use Rattle.edm_model.specs.LookUps.{IsSet};
ghost use Rattle.edm_model.specs.Models as seen;
ghost use Rattle.apply_ast.specs.Views.{pipe_of};
ghost use Rattle.apply_meaning.specs.MeaningLaws.{IsLoaded};
ghost use Rattle.context_typing.specs.Answers.{IsTyping};
ghost use Rattle.context_typing.specs.Readings.{AreTypedOver, readings};
ghost use Rattle.context_typing.specs.Typing.{customs_typed, shape_of_set};
ghost use Rattle.context_typing.specs.Typing as typing;
ghost use Rattle.rewrite_laws.specs.RewriteLaws.{MayStandFor};
ghost use Rattle.rewrite_laws.specs.Rewrites.{IsPlanOf};
ghost use Rattle.walk_laws.specs.FiltersOut as spec;
ghost use Rattle.walk_laws.specs.Walks as walks;
ghost use Rattle.optimiser.specs.Plans.{AreOneTyping, IsBegun, IsGiven, IsPlan, IsRounded, IsTurn, IsTypedPlan, IsWalked, IsWithFactored, IsWithFactoredInside, own_of, written_of};
ghost use Rattle.optimiser.specs.WalkRules.{rules_named};

use crate::anywhere::gives_anywhere;
use crate::apart::stays_apart;
use crate::crossing::all_crossed;
use crate::factoring::factored;
use crate::given::gives_at_front;
use crate::resting::pipe_rests;
use crate::rewriting::later_rewrite;
use crate::rules::Rules;
use crate::same::same_pipe;
use crate::walking::walk;
use crate::within::factored_inside;
use apply_ast::Pipe;
use context_typing::{Customs, Typed, set_shape};
use edm_model::Model;
use std::alloc::{AllocError, Global};
use walk_laws::{
    apart_walk_is_plan, early_walk_is_plan, early_walk_keeps_meaning, factoring_is_rewriting,
    factoring_keeps_plan, given_walk_is_plan, later_rules_follow, unfactored_is_settled,
};

/// How often filters come out of all branches and are put anew, at most: a line has fewer steps.
const ROUNDS: usize = 256;

/// How many rewrites by later rules are made with such rounds behind them, at most.
const TURNS: usize = 65_536;

/// A pipeline that was written, and the pipeline that is run in its place. Where nothing is in its place, it is run itself.
#[derive(Drop)]
pub struct Plan {
    written: Typed,
    own: Option<Typed>,
}

impl Plan {
    /// The plan that runs a pipeline as it was written. No memory is taken.
    pub fn written(t: Typed) -> Plan
        ensures written { written_of result ≡ t }
        ensures own { own_of result ≡ t }
        ensures plan { (m : seen.Model) (c : typing.Customs) → IsTyping m c t → IsPlan m c result }
    {
        Plan {
            written: t,
            own: None,
        }
    }

    /// The pipeline that is run.
    pub fn pipe(&self) -> &Pipe
        ensures value { result.now ≡ (own_of self.now).pipe }
    {
        &self.typed().pipe
    }

    /// The pipeline that is run, with its entity set and its shape.
    pub fn typed(&self) -> &Typed
        ensures value { result.now ≡ own_of self.now }
    {
        match &self.own {
            Some(typed) => typed,
            None => &self.written,
        }
    }
}

/// A typed pipeline settled in one walk.
fn walked(
    alloc: Global,
    m: &Model,
    c: &Customs,
    rules: Rules,
    t: &Typed,
) -> Result<Typed, AllocError>
    requires set { IsSet m.now t.now.set }
    requires customs { AreTypedOver m.now c.now }
    requires typing { IsTyping m.now (readings c.now) t.now }
    ensures { IfOk result (IsWalked (rules_named rules) m.now (readings c.now) t.now) }
{
    let _sets = m.sets();
    let start = set_shape(alloc, m.set_type(t.set));
    let pipe = walk(alloc, m, c, rules, &t.pipe, &start)?;
    Ok(Typed {
        set: t.set,
        pipe,
        shape: t.shape.copy(alloc)?,
    })
}

/// A typed pipeline settled in one walk by the rules that come first.
fn settled(alloc: Global, m: &Model, c: &Customs, t: &Typed) -> Result<Typed, AllocError>
    requires set { IsSet m.now t.now.set }
    requires customs { AreTypedOver m.now c.now }
    requires whole { IsTrue (customs_typed m.now (readings c.now)) }
    requires typing { IsTyping m.now (readings c.now) t.now }
    ensures value { IfOk result (IsWalked walks.Rules.Early m.now (readings c.now) t.now) }
    ensures typing { IfOk result (IsTyping m.now (readings c.now)) }
{
    early_walk_keeps_meaning();
    walked(alloc, m, c, Rules::Early, t)
}

/// A typed pipeline, with the steps that come out of branches before the concatenations.
fn with_factored(alloc: Global, t: &Typed) -> Result<Typed, AllocError>
    ensures { IfOk result (IsWithFactored t.now) }
{
    Ok(Typed {
        set: t.set,
        pipe: factored(alloc, &t.pipe)?,
        shape: t.shape.copy(alloc)?,
    })
}

/// The same, in joins, groupings and climbs too.
fn with_factored_inside(alloc: Global, t: &Typed) -> Result<Typed, AllocError>
    ensures { IfOk result (IsWithFactoredInside t.now) }
{
    Ok(Typed {
        set: t.set,
        pipe: factored_inside(alloc, &t.pipe)?,
        shape: t.shape.copy(alloc)?,
    })
}

/// A typed pipeline settled by the rules that come first. Where its filters rest then, the rule that takes a step out of branches
/// comes next, until it applies no more, and all those steps come out at once.
fn turned(alloc: Global, m: &Model, c: &Customs, t: &Typed) -> Result<Typed, AllocError>
    requires set { IsSet m.now t.now.set }
    requires customs { AreTypedOver m.now c.now }
    requires whole { IsTrue (customs_typed m.now (readings c.now)) }
    requires typing { IsTyping m.now (readings c.now) t.now }
    ensures { IfOk result (IsTurn m.now (readings c.now) t.now) }
{
    early_walk_is_plan();
    later_rules_follow();
    factoring_is_rewriting();
    let walked = settled(alloc, m, c, t)?;
    if pipe_rests(&walked.pipe) {
        return with_factored(alloc, &walked);
    }
    Ok(walked)
}

/// A typed pipeline settled in one walk by all rules, with the steps that come out of branches then before the concatenations.
fn given(alloc: Global, m: &Model, c: &Customs, t: &Typed) -> Result<Typed, AllocError>
    requires set { IsSet m.now t.now.set }
    requires customs { AreTypedOver m.now c.now }
    requires typing { IsTyping m.now (readings c.now) t.now }
    ensures { IfOk result (IsGiven m.now (readings c.now) t.now) }
{
    let all = walked(alloc, m, c, Rules::All, t)?;
    with_factored(alloc, &all)
}

/// A typed pipeline each of whose concatenations stays apart or gives filters alone, settled in one walk by all rules, with the filters
/// that come out of branches then before the concatenations; and whether none did.
fn one_round(alloc: Global, m: &Model, c: &Customs, t: &Typed) -> Result<(Typed, bool), AllocError>
    requires set { IsSet m.now t.now.set }
    requires customs { AreTypedOver m.now c.now }
    requires whole { IsTrue (customs_typed m.now (readings c.now)) }
    requires typing { IsTyping m.now (readings c.now) t.now }
    requires gives { IsTrue (spec.gives_anywhere (pipe_of t.now.pipe)) }
    ensures { IfOk result (IsRounded m.now (readings c.now) t.now) }
{
    factoring_keeps_plan();
    unfactored_is_settled();
    let all = walked(alloc, m, c, Rules::All, t)?;
    let out = with_factored_inside(alloc, &all)?;
    let done = same_pipe(&out.pipe, &all.pipe);
    Ok((out, done))
}

/// A typed pipeline with the same plan: put anew in such rounds as long as each concatenation stays apart or gives filters alone, and
/// some come out; and whether no rule applies to it, since none came out.
fn rounded(alloc: Global, m: &Model, c: &Customs, t: &Typed) -> Result<(Typed, bool), AllocError>
    requires set { IsSet m.now t.now.set }
    requires customs { AreTypedOver m.now c.now }
    requires whole { IsTrue (customs_typed m.now (readings c.now)) }
    requires typing { IsTyping m.now (readings c.now) t.now }
    ensures { IfOk result (IsRounded m.now (readings c.now) t.now) }
{
    let mut current = t.copy(alloc)?;
    for _round in 0..ROUNDS {
        if !gives_anywhere(&current.pipe) {
            return Ok((current, false));
        }
        let (next, done) = one_round(alloc, m, c, &current)?;
        if done {
            return Ok((next, true));
        }
        let crossed = all_crossed(alloc, m, c, &next)?;
        current = crossed;
    }
    Ok((current, false))
}

/// The same, settled by the rules that come first.
fn begun(alloc: Global, m: &Model, c: &Customs, t: &Typed) -> Result<(Typed, bool), AllocError>
    requires set { IsSet m.now t.now.set }
    requires customs { AreTypedOver m.now c.now }
    requires whole { IsTrue (customs_typed m.now (readings c.now)) }
    requires typing { IsTyping m.now (readings c.now) t.now }
    ensures { IfOk result (IsBegun m.now (readings c.now) t.now) }
{
    let (from, done) = rounded(alloc, m, c, t)?;
    if done {
        return Ok((from, true));
    }
    let next = turned(alloc, m, c, &from)?;
    Ok((next, false))
}

/// The same behind rewrites by later rules, until none applies or as many have been made.
fn turns(alloc: Global, m: &Model, c: &Customs, t: &Typed) -> Result<(Typed, bool), AllocError>
    requires set { IsSet m.now t.now.set }
    requires customs { AreTypedOver m.now c.now }
    requires whole { IsTrue (customs_typed m.now (readings c.now)) }
    requires typing { IsTyping m.now (readings c.now) t.now }
    ensures { IfOk result (IsBegun m.now (readings c.now) t.now) }
{
    let (mut current, mut done) = begun(alloc, m, c, t)?;
    for _turn in 0..TURNS {
        if done {
            return Ok((current, true));
        }
        match later_rewrite(alloc, m, c, &current)? {
            Some(after) => {
                let (next, ended) = begun(alloc, m, c, &after)?;
                current = next;
                done = ended;
            }
            None => return Ok((current, true)),
        }
    }
    Ok((current, done))
}

/// The plan of a typed pipeline. One walk by all rules makes it where the branches of concatenations stay apart; and where the others
/// give filters that stay before them, once these have come out. Any other is put anew as long as the others give filters alone and
/// some come out, and settled by the rules that come first; so again behind each rewrite by a later rule, until none applies.
fn planned(alloc: Global, m: &Model, c: &Customs, t: &Typed) -> Result<Typed, AllocError>
    requires set { IsSet m.now t.now.set }
    requires customs { AreTypedOver m.now c.now }
    requires whole { IsTrue (customs_typed m.now (readings c.now)) }
    requires typing { IsTyping m.now (readings c.now) t.now }
    ensures { IfOk result (IsTypedPlan m.now (readings c.now) t.now) }
{
    apart_walk_is_plan();
    if stays_apart(&t.pipe) {
        return walked(alloc, m, c, Rules::All, t);
    }
    given_walk_is_plan();
    if gives_at_front(&t.pipe) {
        return given(alloc, m, c, t);
    }
    let (mut current, done) = turns(alloc, m, c, t)?;
    if done {
        return Ok(current);
    }
    while let Some(after) = later_rewrite(alloc, m, c, &current)? {
        let next = turned(alloc, m, c, &after)?;
        current = next;
    }
    Ok(current)
}

/// The plan that runs what rewriting makes of a pipeline: the first rule that applies, at its first place, and so on until none
/// applies.
pub fn optimise(alloc: Global, m: &Model, c: &Customs, t: &Typed) -> Result<Plan, AllocError>
    requires set { IsSet m.now t.now.set }
    requires customs { AreTypedOver m.now c.now }
    requires whole { IsTrue (customs_typed m.now (readings c.now)) }
    requires typing { IsTyping m.now (readings c.now) t.now }
    ensures written { IfOk result (λ p. AreOneTyping (written_of p) t.now) }
    ensures plan { IfOk result (IsPlan m.now (readings c.now)) }
    ensures own { IfOk result (λ p. IsPlanOf m.now (readings c.now) (shape_of_set m.now t.now.set) (pipe_of t.now.pipe) (pipe_of (own_of p).pipe)) }
    ensures meaning { IfOk result (λ p. MayStandFor IsLoaded m.now (readings c.now) (shape_of_set m.now t.now.set) t.now.shape (pipe_of t.now.pipe) (pipe_of (own_of p).pipe)) }
{
    let written = t.copy(alloc)?;
    let own = planned(alloc, m, c, t)?;
    Ok(Plan {
        written,
        own: Some(own),
    })
}
