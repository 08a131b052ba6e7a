//! Lists of values that take little memory where all are of one kind.
ghost use Rattle.std.specs.Prelude.{◌≡◌, ◌<◌, [], ◌∷◌, ◌++◌, length, map, OnOk, OnErr, IfOk, IfSome};
ghost use Rattle.edm_values.specs.declared.Value.{Value as Value'};
ghost use Rattle.edm_values.specs.Values.{seen_value, value_in};
ghost use Rattle.edm_data.specs.KeptValues.{values_kept};
ghost use Rattle.edm_data.specs.NumberedTexts.{numbered_values};

use crate::numbered_texts::NumberedTexts;
use crate::texts::Texts;
use edm_values::{Day, Dec, EdmType, Seen, Value};
use std::alloc::{AllocError, Global};

/// The values, by their kind.
#[derive(Drop)]
pub(crate) enum Kept {
    Bools(Vec<bool>),
    Ints(Vec<i64>),
    Decs(Vec<Dec>),
    Texts(Texts),
    /// Texts of which each is kept once.
    Numbered(NumberedTexts),
    Days(Vec<Day>),
    /// Values of several kinds.
    Mixed(Vec<Value>),
}

/// A list of values, of which those of one kind are kept as they are in memory.
#[derive(Drop)]
pub(crate) struct Values {
    kept: Kept,
}

impl std::marker::Model for Values {
    ghost use Rattle.edm_data.specs.Columns.{ValueList};
    ghost use Rattle.edm_data.specs.KeptValues.{values_kept};

    ghost Value = { ValueList };

    ghost view = { λ v. values_kept v.kept };
}

/// A copy of texts that takes no more room than it needs: where texts repeat, each is kept once.
fn packed_texts(alloc: Global, texts: &Texts) -> Result<Kept, AllocError>
    ensures { IfOk result (λ kept. values_kept kept ≡ map Value'.Text texts.now) }
{
    match NumberedTexts::of(alloc, texts)? {
        Some(list) => Ok(Kept::Numbered(list)),
        None => Ok(Kept::Texts(texts.packed()?)),
    }
}

impl Values {
    /// No values, with room for those of a kind.
    pub(crate) fn new(alloc: Global, kind: EdmType) -> Values
        ensures { result ≡ [] }
    {
        let kept = match kind {
            EdmType::Bool => Kept::Bools(Vec::new(alloc)),
            EdmType::Int => Kept::Ints(Vec::new(alloc)),
            EdmType::Dec { .. } => Kept::Decs(Vec::new(alloc)),
            EdmType::Text => Kept::Texts(Texts::new(alloc)),
            EdmType::Day => Kept::Days(Vec::new(alloc)),
        };
        Values { kept }
    }

    /// The number of the values.
    pub(crate) fn len(&self) -> usize
        ensures { result ≡ length self.now }
    {
        match &self.kept {
            Kept::Bools(list) => list.len(),
            Kept::Ints(list) => list.len(),
            Kept::Decs(list) => list.len(),
            Kept::Texts(list) => list.len(),
            Kept::Numbered(list) => list.len(),
            Kept::Days(list) => list.len(),
            Kept::Mixed(list) => list.len(),
        }
    }

    /// The value at a place.
    #[inline(always)]
    pub(crate) fn get(&self, place: usize) -> Seen<'_>
        requires { place < length self.now }
        ensures { seen_value result ≡ value_in self.now place }
    {
        match &self.kept {
            Kept::Bools(list) => Seen::Bool(list[place]),
            Kept::Ints(list) => Seen::Int(list[place]),
            Kept::Decs(list) => Seen::Dec(list[place]),
            Kept::Texts(list) => Seen::Text(list.get(place)),
            Kept::Numbered(list) => Seen::Text(list.get(place)),
            Kept::Days(list) => Seen::Day(list[place]),
            Kept::Mixed(list) => list[place].seen(),
        }
    }

    /// The integers, where each value is one.
    pub(crate) fn ints(&self) -> Option<&[i64]>
        ensures { IfSome result (λ list. self.now ≡ map Value'.Int list.now) }
    {
        match &self.kept {
            Kept::Ints(list) => Some(list.as_slice()),
            _ => None,
        }
    }

    /// The decimals, where each value is one.
    pub(crate) fn decs(&self) -> Option<&[Dec]>
        ensures { IfSome result (λ list. self.now ≡ map Value'.Dec list.now) }
    {
        match &self.kept {
            Kept::Decs(list) => Some(list.as_slice()),
            _ => None,
        }
    }

    /// The texts with their numbers, where each value is a text and they are kept once each.
    pub(crate) fn texts(&self) -> Option<&NumberedTexts>
        ensures { IfSome result (λ list. self.now ≡ numbered_values list.now) }
    {
        match &self.kept {
            Kept::Numbered(list) => Some(list),
            _ => None,
        }
    }

    /// A copy of the values.
    fn copied(&self, alloc: Global) -> Result<Vec<Value>, AllocError>
        ensures { IfOk result (λ values. values.items ≡ self.now) }
    {
        let mut values = Vec::new(alloc);
        for place in 0..self.len() {
            values.push(self.get(place).own(alloc)?)?;
        }
        Ok(values)
    }

    /// A copy that takes no more room than it needs.
    pub(crate) fn packed(&self, alloc: Global) -> Result<Values, AllocError>
        ensures { IfOk result (λ values. values ≡ self.now) }
    {
        let kept = match &self.kept {
            Kept::Bools(list) => Kept::Bools(list.clone()?),
            Kept::Ints(list) => Kept::Ints(list.clone()?),
            Kept::Decs(list) => Kept::Decs(list.clone()?),
            Kept::Texts(list) => packed_texts(alloc, list)?,
            Kept::Numbered(list) => Kept::Numbered(list.packed()?),
            Kept::Days(list) => Kept::Days(list.clone()?),
            Kept::Mixed(_) => Kept::Mixed(self.copied(alloc)?),
        };
        Ok(Values { kept })
    }

    /// Puts a value at the end, also one of another kind. After an `Err` the values are as before.
    pub(crate) fn push(&mut self, alloc: Global, value: Seen<'_>) -> Result<(), AllocError>
        ensures ok { OnOk result (self.new ≡ self.old ++ seen_value value.entry ∷ []) }
        ensures err { OnErr result (self.new ≡ self.old) }
    {
        match &mut self.kept {
            Kept::Bools(list) => {
                if let Seen::Bool(flag) = value {
                    list.push(flag)?;
                    return Ok(());
                }
            }
            Kept::Ints(list) => {
                if let Seen::Int(n) = value {
                    list.push(n)?;
                    return Ok(());
                }
            }
            Kept::Decs(list) => {
                if let Seen::Dec(d) = value {
                    list.push(d)?;
                    return Ok(());
                }
            }
            Kept::Texts(list) => {
                if let Seen::Text(text) = value {
                    list.push(text)?;
                    return Ok(());
                }
            }
            Kept::Days(list) => {
                if let Seen::Day(d) = value {
                    list.push(d)?;
                    return Ok(());
                }
            }
            Kept::Numbered(_) => {}
            Kept::Mixed(list) => {
                list.push(value.own(alloc)?)?;
                return Ok(());
            }
        }
        let mut values = self.copied(alloc)?;
        values.push(value.own(alloc)?)?;
        self.kept = Kept::Mixed(values);
        Ok(())
    }
}
