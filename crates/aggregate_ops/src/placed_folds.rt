//! The aggregate of the values at places of a list, which are folded where they stand.
ghost use Rattle.std.specs.Prelude.{◌≡◌, ◌<◌, ◌^◌, All, IfOk, IsTrue, is_some, length, nat_lt};
ghost use Rattle.std.specs.List.{list_all};
ghost use Rattle.edm_values.specs.declared.Method.{Method as Method'};
ghost use Rattle.edm_values.specs.Lists.{at_places};
ghost use Rattle.edm_values.specs.Literals.{is_of_kind};
ghost use Rattle.context_typing.specs.Typing.{method_kind};
ghost use Rattle.par_stages.specs.Placed.{placed};
ghost use Rattle.apply_meaning.specs.Aggregates.{aggregate};
ghost use Rattle.aggregate_ops.specs.Partials.{AreFoldable};

use crate::folds::kind_of;
use crate::{DistinctValues, HashedValue, MaxOf, MinOf, Seed, SumOf};
use edm_values::{EdmType, Method, Value};
use par_stages::{Gate, Partial, pieces};
use std::alloc::{AllocError, Global};
use std::thread::Threads;

/// The type of values of one type that stand at these places: that of the first that has one of its own, and that of integers
/// where none has.
fn kind_at(values: &[Value], places: &[usize]) -> EdmType
    requires { IsTrue (list_all (λ k. nat_lt k (length values.now)) places.now) }
    ensures taken { (m : Method') → AreFoldable m (at_places values.now places.now) → IsTrue (is_some (method_kind m result)) }
    ensures typed { (m : Method') → AreFoldable m (at_places values.now places.now) → IsTrue (list_all (is_of_kind result) (at_places values.now places.now)) }
{
    for at in places {
        if let Some(kind) = kind_of(values[*at].seen()) {
            return kind;
        }
    }
    EdmType::Int
}

/// Folds the values at these places, in their order, in one piece, of which the gate is told.
fn fold_at<P: Partial<Item = Value>, G: Gate>(
    values: &[Value],
    places: &[usize],
    empty: &P,
    gate: &G,
) -> Result<P, AllocError>
    requires within { IsTrue (list_all (λ k. nat_lt k (length values.now)) places.now) }
    requires small { length places.now < 2 ^ 63 }
    requires kind { All (P.takes (P.kind empty.now)) (at_places values.now places.now) }
    ensures { IfOk result (λ p. P.stands_for p (placed 0 (at_places values.now places.now))) }
{
    gate.piece(0, 1);
    let mut partial = empty.fresh()?;
    for (k, at) in places.iter().enumerate() {
        partial.add(&values[*at], k)?;
    }
    Ok(partial)
}

/// The values at these places, with their numbers.
fn hashed_at<'a>(
    alloc: Global,
    values: &'a [Value],
    places: &[usize],
) -> Result<Vec<HashedValue<'a>>, AllocError>
    requires { IsTrue (list_all (λ k. nat_lt k (length values.now)) places.now) }
    ensures { IfOk result (λ hashed. hashed.items ≡ at_places values.now places.now) }
{
    let mut hashed = Vec::with_capacity(alloc, places.len())?;
    for at in places {
        hashed.push(HashedValue::of(&values[*at]))?;
    }
    Ok(hashed)
}

/// The aggregate by a method of the values of one type at these places, folded in one piece, of which the gate is told. A list of
/// 2^63 places or more answers want of memory.
pub fn aggregate_places<R: Threads + Sync, G: Gate>(
    rt: &R,
    alloc: Global,
    method: Method,
    values: &[Value],
    places: &[usize],
    gate: &G,
) -> Result<Value, AllocError>
    requires within { IsTrue (list_all (λ k. nat_lt k (length values.now)) places.now) }
    requires kind { AreFoldable method (at_places values.now places.now) }
    ensures value { IfOk result (λ v. v ≡ aggregate method (at_places values.now places.now)) }
{
    let kind = kind_at(values, places);
    if places.len() >= 1 << 63 {
        return Err(AllocError);
    }
    match method {
        Method::Sum => Ok(fold_at(values, places, &SumOf::new(kind), gate)?.finish()),
        Method::Min => fold_at(values, places, &MinOf::new(alloc, kind), gate)?.finish(),
        Method::Max => fold_at(values, places, &MaxOf::new(alloc, kind), gate)?.finish(),
        Method::CountDistinct => {
            let values = hashed_at(alloc, values, places)?;
            let values = values.as_slice();
            let empty = DistinctValues::new(alloc, kind, Seed::of(values));
            Ok(pieces(rt, values, 1, gate, &empty)?.finish())
        }
    }
}
