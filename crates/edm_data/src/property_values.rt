//! The values of one property of a set's entities.
ghost use Rattle.std.specs.Prelude.{◌≡◌, IfSome, map, option_map};
ghost use Rattle.edm_data.specs.NumberedTexts.{numbered_values};
ghost use Rattle.edm_data.specs.Readers.{seen_column};
ghost use Rattle.edm_values.specs.declared.Value.{Value as Value'};
ghost use Rattle.edm_values.specs.Values.{seen_value, value_in};

use crate::columns::Column;
use crate::numbered_texts::NumberedTexts;
use edm_values::{Dec, Seen};
use std::marker::Model;

/// The values of a property of a set's entities, in data order. They are read where they stand.
#[derive(Drop)]
pub struct PropertyValues<'a> {
    column: Option<&'a Column>,
}

impl<'a> Model for PropertyValues<'a> {
    ghost use Rattle.std.specs.Prelude.{option_map};
    ghost use Rattle.edm_data.specs.Columns.{ValueList};
    ghost use Rattle.edm_data.specs.Readers.{seen_column};

    ghost Value = { ValueList };

    ghost view = { λ v. seen_column (option_map (λ c. c.now) v.column) };
}

impl<'a> PropertyValues<'a> {
    /// The values of a column, or none where there is no such column.
    pub(crate) fn of(column: Option<&'a Column>) -> PropertyValues<'a>
        ensures { result ≡ seen_column (option_map (λ c. c.now) column.entry) }
    {
        PropertyValues { column }
    }

    /// The value of the entity at this place, and null past the end.
    #[inline(always)]
    pub fn at(&self, place: u32) -> Seen<'a>
        ensures value { seen_value result ≡ value_in self.now place }
    {
        match self.column {
            Some(column) => column.get(place),
            None => Seen::Null,
        }
    }

    /// The integers, where each value is one.
    pub fn ints(&self) -> Option<&'a [i64]>
        ensures value { IfSome result (λ list. self.now ≡ map Value'.Int list.now) }
    {
        self.column?.whole()?.ints()
    }

    /// The decimals, where each value is one.
    pub fn decs(&self) -> Option<&'a [Dec]>
        ensures value { IfSome result (λ list. self.now ≡ map Value'.Dec list.now) }
    {
        self.column?.whole()?.decs()
    }

    /// The texts with their numbers, where each value is a text and they are kept once each: at most half of them are distinct, and
    /// of the first 4,096.
    pub fn texts(&self) -> Option<&'a NumberedTexts>
        ensures value { IfSome result (λ texts. self.now ≡ numbered_values texts.now) }
    {
        self.column?.whole()?.texts()
    }
}
