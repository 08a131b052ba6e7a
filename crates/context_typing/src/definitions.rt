//! The typing of a model's custom aggregates by their definitions (Data Aggregation 4.0, section 5.2).
ghost use Rattle.std.specs.Prelude.{◌≡◌, IfOk, Some, find, is_none, length, map, option_and_then, option_map, take};
ghost use Rattle.edm_values.specs.Lists.{is_some_and};
ghost use Rattle.edm_model.specs.LookUps.{IsType};
ghost use Rattle.edm_model.specs.IdLists.{custom_list};
ghost use Rattle.context_typing.specs.Answers.{AnswersCustom, IfUntyped, IsEntry, custom_of, per_typed, reading_for};
ghost use Rattle.context_typing.specs.Readings.{AreTypedOver, read_kind};
ghost use Rattle.context_typing.specs.Typing as spec;

use crate::columns::ColumnList;
use crate::customs::{Customs, ReadCustom, TypedCustom};
use crate::expressions::{expr_kind, is_sure};
use crate::grouping::path_columns;
use crate::items::set_shape;
use crate::kinds::{is_sum, method_kind, outer_kind};
use apply_ast::Path;
use edm_model::{Custom, CustomId, Method, Model, TypeId};
use edm_values::{EdmType, Text};
use std::alloc::{AllocError, AllocFailed, Global};
use thiserror::Error;

/// Why the readings of custom aggregates are refused.
#[derive(Clone, Copy, Debug, Error)]
pub enum CustomRefused {
    /// The definition of this custom aggregate has no typing.
    #[error("a custom aggregate has no typing")]
    At(CustomId),
    /// The typings do not fit in memory.
    #[error("there is not enough memory")]
    Memory,
}

impl<T: Drop> From<AllocFailed<T>> for CustomRefused {
    ghost use Rattle.context_typing.specs.declared.definitions.CustomRefused.TheVariants.{Memory};

    ghost from_gives = { λ _ e. e ≡ Memory };

    fn from(_: AllocFailed<T>) -> CustomRefused {
        CustomRefused::Memory
    }
}

impl From<AllocError> for CustomRefused {
    ghost use Rattle.context_typing.specs.declared.definitions.CustomRefused.TheVariants.{Memory};

    ghost from_gives = { λ _ e. e ≡ Memory };

    fn from(_: AllocError) -> CustomRefused {
        CustomRefused::Memory
    }
}

/// Whether each path leads to a property of the entity type, and no two are one.
fn paths_typed(alloc: Global, m: &Model, of: TypeId, paths: &[Path]) -> Result<bool, AllocError>
    requires { IsType m.now of }
    ensures { IfOk result (λ b. b ≡ per_typed m.now of paths.now) }
{
    let shape = set_shape(alloc, of);
    match path_columns(alloc, m, &shape, false, paths)? {
        Some(columns) => Ok(ColumnList::empty(alloc).with_all(columns)?.differ()),
        None => Ok(false),
    }
}

/// The type of a custom aggregate's value, if its definition has a typing.
fn custom_kind(
    alloc: Global,
    m: &Model,
    custom: &Custom,
    read: &ReadCustom,
) -> Result<Option<EdmType>, AllocError>
    requires { IsType m.now custom.now.owner }
    ensures { IfOk result (λ o. o ≡ spec.custom_kind m.now (custom_of custom.now) (reading_for custom.now read.now)) }
{
    if !paths_typed(alloc, m, custom.owner, read.per.as_slice())? {
        return Ok(None);
    }
    let shape = set_shape(alloc, custom.owner);
    match expr_kind(m, &shape, &read.of) {
        Some(kind) => Ok(combined_kind(custom, kind)),
        None => Ok(None),
    }
}

/// The type of a custom aggregate's value over values of a type.
fn combined_kind(custom: &Custom, kind: EdmType) -> Option<EdmType>
    ensures { result ≡ option_and_then (spec.outer_kind custom.now.outer) (spec.method_kind custom.now.method kind) }
{
    match method_kind(custom.method, kind) {
        Some(kind) => outer_kind(custom.outer, kind),
        None => None,
    }
}

/// Whether the outer method adds.
fn is_outer_sum(outer: Option<Method>) -> bool
    ensures { result ≡ is_some_and spec.is_sum outer }
{
    match outer {
        Some(outer) => is_sum(outer),
        None => false,
    }
}

/// Whether the value of a custom aggregate may be past its range.
fn custom_risky(alloc: Global, m: &Model, custom: &Custom, read: &ReadCustom) -> bool
    requires { IsType m.now custom.now.owner }
    ensures { result ≡ spec.custom_risky m.now (custom_of custom.now) (reading_for custom.now read.now) }
{
    let shape = set_shape(alloc, custom.owner);
    is_sum(custom.method) || is_outer_sum(custom.outer) || !is_sure(m, &shape, &read.of)
}

/// The type and the risk of a custom aggregate's value, with a copy of its name, if its definition has a typing.
fn typing(
    alloc: Global,
    m: &Model,
    custom: &Custom,
    read: &ReadCustom,
) -> Result<Option<(Text, EdmType, bool)>, AllocError>
    requires { IsType m.now custom.now.owner }
    ensures { IfOk result (λ o. o ≡ option_map (λ k. (custom.now.name, k, spec.custom_risky m.now (custom_of custom.now) (reading_for custom.now read.now))) (spec.custom_kind m.now (custom_of custom.now) (reading_for custom.now read.now))) }
{
    match custom_kind(alloc, m, custom, read)? {
        Some(kind) => {
            let risky = custom_risky(alloc, m, custom, read);
            Ok(Some((custom.name.copy(alloc)?, kind, risky)))
        }
        None => Ok(None),
    }
}

/// A custom aggregate with its typing.
fn type_custom(
    alloc: Global,
    m: &Model,
    custom: &Custom,
    read: ReadCustom,
) -> Result<TypedCustom, CustomRefused>
    requires entry { IsEntry m.now custom.now }
    requires id { read.id ≡ custom.now.id }
    ensures { AnswersCustom m.now read result }
{
    match typing(alloc, m, custom, &read)? {
        Some((name, kind, risky)) => Ok(TypedCustom {
            read,
            owner: custom.owner,
            name,
            kind,
            risky,
        }),
        None => Err(CustomRefused::At(custom.id)),
    }
}

/// The typing of the custom aggregates of a model, or of the first of them.
pub fn type_customs(
    alloc: Global,
    m: &Model,
    list: Vec<ReadCustom>,
) -> Result<Customs, CustomRefused>
    requires { map (λ r. r.id) list.items ≡ take (length list.items) (map (λ u. u.id) (custom_list m.now)) }
    ensures reads { IfOk result (λ c. map (λ x. x.read) c ≡ list.items) }
    ensures typed { IfOk result (AreTypedOver m.now) }
    ensures untyped { IfUntyped result (λ id. option_map (λ r. r.id) (find (λ r. is_none (read_kind m.now r)) list.items) ≡ Some id) }
{
    let _sets = m.sets();
    let customs = m.customs();
    let mut all = Vec::new(alloc);
    for read in list {
        all.push(type_custom(alloc, m, &customs[all.len()], read)?)?;
    }
    Ok(Customs { all })
}
