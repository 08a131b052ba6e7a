//! The values of a property, of which only those that are not null take memory.
ghost use Rattle.std.specs.Prelude.{◌≡◌, ◌<◌, ◌+◌, ◌^◌, [], ◌∷◌, ◌++◌, length, IfOk, IfSome, OnOk};
ghost use Rattle.edm_values.specs.Values.{seen_value, value_in};

use crate::places::Places;
use crate::values::Values;
use edm_values::{EdmType, Seen};
use std::alloc::{AllocError, Global};

/// The values of a property, entity by entity. Null takes no memory.
#[derive(Drop)]
pub(crate) struct Column {
    count: u32,
    places: Places,
    values: Values,
}

impl std::marker::Model for Column {
    ghost use Rattle.edm_data.specs.Columns.{AreKept, ValueList, column_values};

    ghost Value = { ValueList };

    ghost view = { λ c. column_values c.places c.values c.count };

    ghost invariant = { λ c. AreKept c.places c.values c.count };
}

impl Column {
    /// No values, of a property of this type.
    pub(crate) fn new(alloc: Global, kind: EdmType) -> Column
        ensures { result ≡ [] }
    {
        Column {
            count: 0,
            places: Places::new(alloc),
            values: Values::new(alloc, kind),
        }
    }

    /// The value at a place, and null past the end.
    #[inline(always)]
    pub(crate) fn get(&self, place: u32) -> Seen<'_>
        ensures { seen_value result ≡ value_in self.now place }
    {
        match self.places.find(place) {
            Some(at) => self.values.get(at),
            None => Seen::Null,
        }
    }

    /// The values, where none is null.
    pub(crate) fn whole(&self) -> Option<&Values>
        ensures { IfSome result (λ values. self.now ≡ values.now) }
    {
        let count = self.count as usize;
        if self.values.len() == count && self.places.are(count) {
            return Some(&self.values);
        }
        None
    }

    /// A copy that takes no more room than it needs.
    pub(crate) fn packed(&self, alloc: Global) -> Result<Column, AllocError>
        ensures { IfOk result (λ column. column ≡ self.now) }
    {
        Ok(Column {
            count: self.count,
            places: self.places.packed()?,
            values: self.values.packed(alloc)?,
        })
    }

    /// Puts a value at the end. After an `Err` each further value that is not null may be refused.
    pub(crate) fn push(&mut self, alloc: Global, value: Seen<'_>) -> Result<(), AllocError>
        requires { length self.old + 1 < 2 ^ 32 }
        ensures ok { OnOk result (self.new ≡ self.old ++ seen_value value.entry ∷ []) }
    {
        let place = self.count;
        if let Seen::Null = value {
            self.count = place + 1;
            return Ok(());
        }
        if self.values.len() > self.places.len() {
            return Err(AllocError);
        }
        self.values.push(alloc, value)?;
        self.places.push(place)?;
        self.count = place + 1;
        Ok(())
    }
}
