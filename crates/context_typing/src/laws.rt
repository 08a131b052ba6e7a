//! The laws of typing.
ghost use Rattle.std.specs.Prelude.{◌≡◌, IsTrue, map};
ghost use Rattle.edm_model.specs.IdLists.{custom_list};
ghost use Rattle.context_typing.specs.Readings.{AreTypedOver, readings};
ghost use Rattle.context_typing.specs.Typing.{customs_typed};
ghost use Rattle.context_typing.specs.TypingLaws.{OwnIsLawful, TypingIsLawful, OneShape};

use crate::customs::Customs;
use edm_model::Model;

/// The shape of an entity set is lawful.
pub fn set_shape_is_lawful()
    ensures value { OwnIsLawful }
{}

/// Typing leads from lawful shapes to lawful ones.
pub fn typing_keeps_lawful()
    ensures value { TypingIsLawful }
{}

/// A pipeline leads from a shape to at most one.
pub fn one_shape()
    ensures value { OneShape }
{}

/// Customs that were typed over a model, with all of its custom aggregates, give each of them its type.
pub fn customs_are_typed(m: &Model, c: &Customs)
    requires typed { AreTypedOver m.now c.now }
    requires all { map (λ x. x.read.id) c.now ≡ map (λ u. u.id) (custom_list m.now) }
    ensures value { IsTrue (customs_typed m.now (readings c.now)) }
{}
