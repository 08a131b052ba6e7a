//! Steps that no text of the grammar has: a literal with a sign or without digits behind its point, a number past its limit,
//! a list with too few elements. They have no typing.
ghost use Rattle.edm_model.specs.LookUps.{IsSet};
ghost use Rattle.context_typing.specs.Readings.{AreTypedOver};

use crate::typing_table::typing_of;
use apply_ast::{
    AggList, BinOp, ClimbStep, Expr, HierName, KeyItem, KeyList, Limit, NamedList, Number,
    OrderList, Path, PathList, Pipe, PipeList, Step, TopStep,
};
use context_typing::{Customs, type_customs};
use edm_model::{Model, SetId, read_model};
use edm_values::Dec;
use std::alloc::{AllocError, Global};
use std::process::Abort;
use std::test::Fail;
use test_support::names::{name, path};
use test_support::samples::SAMPLE;

type Made<T> = Result<T, AllocError>;

/// One more than the greatest number of instances, or distance, that a text has.
const PAST: u64 = 9_223_372_036_854_775_808;

fn dec(mantissa: i64, scale: u8) -> Made<Dec> {
    Dec::new(mantissa, scale).ok_or(AllocError)
}

/// The pipeline of one `identity`.
fn identity(alloc: Global) -> Made<Pipe> {
    Ok(Pipe::new(vec![in alloc; Step::Identity]?))
}

/// A filter by whether the number is itself.
fn is_itself(alloc: Global, left: Expr, right: Expr) -> Made<Step> {
    let left = Box::new(alloc, left)?;
    let right = Box::new(alloc, right)?;
    Ok(Step::Filter(Expr::Binary(BinOp::Eq, left, right)))
}

/// A selection by the key.
fn selection(alloc: Global, limit: Limit) -> Made<Step> {
    Ok(Step::TopBy(TopStep {
        bottom: false,
        limit,
        expr: Expr::Path(path(alloc, "ID")?),
    }))
}

/// The instances at most so far below all others' nodes.
fn climb(alloc: Global, distance: u64) -> Made<Step> {
    Ok(Step::Climb(ClimbStep {
        up: false,
        hier: HierName {
            set: name(alloc, "Orgs")?,
            qualifier: name(alloc, "OrgTree")?,
        },
        path: path(alloc, "OrgID")?,
        inner: identity(alloc)?,
        distance: Some(distance),
        keep: false,
    }))
}

/// A grouping by a rollup of these paths.
fn rollup(alloc: Global, all: bool, paths: Vec<Path>) -> Made<Step> {
    let key = KeyItem::Rollup(all, PathList::new(paths));
    Ok(Step::GroupBy(KeyList::new(vec![in alloc; key]?), None))
}

/// Steps whose numbers no text has, and then none.
fn step_with_a_number(alloc: Global, which: u32) -> Made<Option<Step>> {
    Ok(Some(match which {
        0 => is_itself(alloc, Expr::Int(-1), Expr::Int(-1))?,
        1 => is_itself(alloc, Expr::Dec(dec(-15, 1)?), Expr::Int(1))?,
        2 => is_itself(alloc, Expr::Int(1), Expr::Dec(dec(1, 0)?))?,
        3 => Step::Skip(PAST),
        4 => Step::Top(PAST),
        5 => selection(alloc, Limit::Count(PAST))?,
        6 => selection(alloc, Limit::Sum(Number::Int(-1)))?,
        7 => selection(alloc, Limit::Sum(Number::Dec(dec(-1, 1)?)))?,
        8 => selection(alloc, Limit::Sum(Number::Dec(dec(1, 0)?)))?,
        9 => selection(alloc, Limit::Percent(101))?,
        10 => climb(alloc, 0)?,
        11 => climb(alloc, PAST)?,
        _ => return Ok(None),
    }))
}

/// Steps whose lists no text has, and then none.
fn step_with_a_list(alloc: Global, which: u32) -> Made<Option<Step>> {
    Ok(Some(match which {
        0 => Step::Compute(NamedList::new(Vec::new(alloc))),
        1 => Step::OrderBy(OrderList::new(Vec::new(alloc))),
        2 => Step::Aggregate(AggList::new(Vec::new(alloc))),
        3 => Step::GroupBy(KeyList::new(Vec::new(alloc)), None),
        4 => Step::Concat(PipeList::new(Vec::new(alloc))),
        5 => {
            let branch = identity(alloc)?;
            Step::Concat(PipeList::new(vec![in alloc; branch]?))
        }
        6 => rollup(alloc, true, Vec::new(alloc))?,
        7 => {
            let level = path(alloc, "ID")?;
            rollup(alloc, false, vec![in alloc; level]?)?
        }
        _ => return Ok(None),
    }))
}

/// Finds no typing of a pipeline of `identity` and a step, where there is a step.
fn expect_untyped(
    rt: &impl Abort,
    alloc: Global,
    m: &Model,
    c: &Customs,
    set: SetId,
    step: Option<Step>,
    which: u32,
) -> Result<(), Fail>
    requires set { IsSet m.now set }
    requires customs { AreTypedOver m.now c.now }
{
    let Some(step) = step else {
        return Ok(());
    };
    let pipe = Pipe::new(vec![in alloc; Step::Identity, step]?);
    let said = typing_of(alloc, m, c, set, &pipe)?;
    assert_eq!(rt; said.as_str(), "at 2", "step {which}");
    Ok(())
}

#[test]
fn steps_that_no_text_has_have_no_typing(rt: HostRuntime) -> Result<(), Fail> {
    let alloc = rt.alloc();
    let m = read_model(alloc, SAMPLE.as_bytes())?;
    let c = type_customs(alloc, &m, Vec::new(alloc))?;
    let Some(sales) = m.set_named("Sales") else {
        panic!(rt; "no set");
    };
    for which in 0..20 {
        let step = step_with_a_number(alloc, which)?;
        expect_untyped(&rt, alloc, &m, &c, sales, step, which)?;
        let step = step_with_a_list(alloc, which)?;
        expect_untyped(&rt, alloc, &m, &c, sales, step, which)?;
    }
    Ok(())
}
