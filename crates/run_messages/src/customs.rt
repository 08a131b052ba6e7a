//! What is wrong with the definitions of custom aggregates.
ghost use Rattle.std.specs.Prelude.{◌≡◌, IfOk, IsErr, IsNone, IsSome};
ghost use Rattle.edm_model.specs.LookUps.{IsType};
ghost use Rattle.context_typing.specs.Typing.{Customs};
ghost use Rattle.apply_store.specs.CustomReadings.{AreCustoms};
ghost use Rattle.apply_store.specs.FirstCustoms.{IfNames};

use crate::values::shown_text;
use apply_grammar::{ExprRefused, read_expr, read_path};
use apply_store::{CustomFault, judge_customs};
use edm_model::{Custom, Model};
use std::alloc::{AllocError, Global};

/// What is told of a definition whose reading has no typing.
const UNTYPED: &str =
    "its definition has no type: \"Of\" and \"Per\" must name what the type has, no two paths of \"Per\" may be the same, \"With\" must fit the type of \"Of\", and \"Then\" the type of what \"With\" gives (docs/typing.md)";

/// Whether a text is an expression.
fn is_expr(alloc: Global, text: &str) -> Result<bool, AllocError> {
    match read_expr(alloc, text) {
        Ok(_) => Ok(true),
        Err(ExprRefused::Memory) => Err(AllocError),
        Err(_) => Ok(false),
    }
}

/// Whether a text is a path.
fn is_path(alloc: Global, text: &str) -> Result<bool, AllocError> {
    match read_path(alloc, text) {
        Ok(_) => Ok(true),
        Err(ExprRefused::Memory) => Err(AllocError),
        Err(_) => Ok(false),
    }
}

/// Which text of a definition is no expression or no path.
fn unread_text(alloc: Global, custom: &Custom) -> Result<String, AllocError> {
    if !is_expr(alloc, custom.of.as_str())? {
        let text = shown_text(alloc, custom.of.as_str())?;
        return format!(in alloc;
            "\"Of\" must be an expression (docs/grammar.md), and {text} is none"
        );
    }
    for path in custom.per.as_slice() {
        if !is_path(alloc, path.as_str())? {
            let text = shown_text(alloc, path.as_str())?;
            return format!(in alloc;
                "\"Per\" must have paths, names with slashes between them, and {text} is none"
            );
        }
    }
    String::from_str(alloc, "its definition can not be read")
}

/// A custom aggregate and what is wrong with its definition.
fn custom_text(alloc: Global, m: &Model, custom: &Custom, text: &str) -> Result<String, AllocError>
    requires { IsType m.now custom.now.owner }
{
    let of = shown_text(alloc, m.type_name(custom.owner))?;
    let name = shown_text(alloc, custom.name.as_str())?;
    format!(in alloc; "entity type {of}: custom aggregate {name}: {text}")
}

/// What is wrong with the custom aggregate that has no typed reading.
fn fault_reason(
    alloc: Global,
    m: &Model,
    fault: CustomFault<'_>,
) -> Result<Option<String>, AllocError>
    requires { IfNames fault (λ u. IsType m.now u.owner) }
    ensures memory { fault.entry ≡ CustomFault.Memory → IsErr result }
    ensures told { IfOk result IsSome }
{
    let text = match fault {
        CustomFault::Memory => return Err(AllocError),
        CustomFault::Unread(custom) => {
            let text = unread_text(alloc, custom)?;
            custom_text(alloc, m, custom, text.as_str())?
        }
        CustomFault::Untyped(custom) => custom_text(alloc, m, custom, UNTYPED)?,
    };
    Ok(Some(text))
}

/// What is wrong with the custom aggregates of a model; nothing where each has a typed reading.
pub(crate) fn custom_reason(alloc: Global, m: &Model) -> Result<Option<String>, AllocError>
    ensures refused { IfOk result (λ o. IsSome o → (c : Customs) → ¬ AreCustoms m.now c) }
    ensures taken { IfOk result (λ o. IsNone o → (c : Customs) × AreCustoms m.now c) }
{
    let Err(fault) = judge_customs(alloc, m) else {
        return Ok(None);
    };
    fault_reason(alloc, m, fault)
}
