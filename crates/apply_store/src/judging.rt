//! The custom aggregates of a model: their readings are typed.
ghost use Rattle.std.specs.Prelude.{◌≡◌, IfOk, IfErr, IsTrue, find};
ghost use Rattle.std.specs.Option.{option_copied};
ghost use Rattle.edm_model.specs.IdLists.{custom_list};
ghost use Rattle.edm_model.specs.LookUps.{IsType};
ghost use Rattle.context_typing.specs.Readings.{readings, AreTypedOver, same_part};
ghost use Rattle.context_typing.specs.Typing.{customs_typed};
ghost use Rattle.apply_store.specs.CustomReadings.{AreCustoms, IsFirstUntyped};
ghost use Rattle.apply_store.specs.FirstCustoms.{IfNames, NamesFirst, SaysWhy, owned};

use context_typing::{CustomRefused, Customs, type_customs};
use custom_readings::read_customs;
use edm_model::{Custom, CustomId, Model};
use std::alloc::Global;

/// Why the custom aggregates of a model are not typed: memory ran out, or the first that has no typed reading.
#[derive(Clone, Copy)]
pub enum CustomFault<'m> {
    Memory,
    /// Its texts have no reading.
    Unread(&'m Custom),
    /// Its reading has no typing.
    Untyped(&'m Custom),
}

/// Whether it is the custom aggregate of this id.
fn has_id(custom: &Custom, id: CustomId) -> bool
    ensures { result ≡ same_part custom.now.id id }
{
    custom.id == id
}

/// The custom aggregate of this id.
fn custom_of(m: &Model, id: CustomId) -> Option<&Custom>
    ensures { option_copied result ≡ find (λ u. same_part u.id id) (custom_list m.now) }
{
    m.customs().iter().find(|custom| has_id(custom, id))
}

/// The custom aggregate that has no typing.
fn untyped<'m>(m: &'m Model, refused: &CustomRefused) -> CustomFault<'m>
    requires { NamesFirst m.now refused.now }
    ensures there { IfNames result (λ u. IsType m.now u.owner) }
    ensures first { IfNames result (λ u. IsFirstUntyped m.now (owned u)) }
    ensures why { SaysWhy result }
{
    match refused {
        CustomRefused::At(id) => match custom_of(m, *id) {
            Some(custom) => CustomFault::Untyped(custom),
            None => unreachable!(),
        },
        CustomRefused::Memory => CustomFault::Memory,
    }
}

/// The custom aggregates of a model, each with its typing, or the first that has no typed reading.
pub fn judge_customs<'m>(alloc: Global, m: &'m Model) -> Result<Customs, CustomFault<'m>>
    ensures all { IfOk result (λ c. AreCustoms m.now (readings c)) }
    ensures typed { IfOk result (AreTypedOver m.now) }
    ensures whole { IfOk result (λ c. IsTrue (customs_typed m.now (readings c))) }
    ensures there { IfErr result (λ f. IfNames f (λ u. IsType m.now u.owner)) }
    ensures first { IfErr result (λ f. IfNames f (λ u. IsFirstUntyped m.now (owned u))) }
    ensures why { IfErr result SaysWhy }
{
    let _sets = m.sets();
    let customs = m.customs();
    let Ok(list) = read_customs(alloc, m) else {
        return Err(CustomFault::Memory);
    };
    let read = list.len();
    match type_customs(alloc, m, list) {
        Ok(typed) => match customs.get(read) {
            Some(unread) => Err(CustomFault::Unread(unread)),
            None => Ok(typed),
        },
        Err(refused) => Err(untyped(m, &refused)),
    }
}
