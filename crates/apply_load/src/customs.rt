//! The refusal of a model's custom aggregates.
ghost use Rattle.std.specs.Prelude.{◌≡◌, IfOk, IfErr, IsTrue};
ghost use Rattle.edm_model.specs.LookUps.{IsType, type_name};
ghost use Rattle.context_typing.specs.Readings.{readings, AreTypedOver};
ghost use Rattle.context_typing.specs.Typing.{customs_typed};
ghost use Rattle.apply_store.specs.CustomReadings.{AreCustoms, IsFirstUntyped};
ghost use Rattle.apply_store.specs.FirstCustoms.{IfNames, owned};
ghost use Rattle.apply_load.specs.LoadStops.{CustomStopSays, IfRefused};
ghost use Rattle.apply_load.specs.RefusedFiles as spec;

use crate::refusals::custom_line;
use apply_store::{CustomFault, judge_customs};
use context_typing::Customs;
use edm_model::{Custom, Model};
use std::alloc::Global;

/// What the service answers where the custom aggregates of a model are not typed.
#[derive(Drop)]
pub enum CustomStop {
    /// Memory ran out.
    Memory,
    /// The first that has no reading or no typing is refused, with this line.
    Refused(Vec<u8>),
}

/// The refusal of a custom aggregate.
fn refusal(alloc: Global, m: &Model, custom: &Custom) -> CustomStop
    requires { IsType m.now custom.now.owner }
    ensures { IfRefused result (λ line. line ≡ spec.custom_line (type_name m.now custom.now.owner) custom.now.name) }
{
    match custom_line(alloc, m.type_name(custom.owner), custom.name.as_str()) {
        Ok(line) => CustomStop::Refused(line),
        Err(_) => CustomStop::Memory,
    }
}

/// What the service answers where the custom aggregates are not typed.
fn stop_of(alloc: Global, m: &Model, fault: CustomFault<'_>) -> CustomStop
    requires there { IfNames fault (λ u. IsType m.now u.owner) }
    requires first { IfNames fault (λ u. IsFirstUntyped m.now (owned u)) }
    ensures { CustomStopSays m.now result }
{
    match fault {
        CustomFault::Memory => CustomStop::Memory,
        CustomFault::Unread(custom) | CustomFault::Untyped(custom) => refusal(alloc, m, custom),
    }
}

/// The custom aggregates of a model, each with its typing, or what the service answers.
pub(crate) fn load_customs(alloc: Global, m: &Model) -> Result<Customs, CustomStop>
    ensures all { IfOk result (λ c. AreCustoms m.now (readings c)) }
    ensures typed { IfOk result (AreTypedOver m.now) }
    ensures whole { IfOk result (λ c. IsTrue (customs_typed m.now (readings c))) }
    ensures stop { IfErr result (CustomStopSays m.now) }
{
    match judge_customs(alloc, m) {
        Ok(customs) => Ok(customs),
        Err(fault) => Err(stop_of(alloc, m, fault)),
    }
}
