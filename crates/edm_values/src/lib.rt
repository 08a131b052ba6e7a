//! Values of the entity data model: their types, arithmetic, order and texts.
//!
//! A value is null, a Boolean, an integer of 64 bits, a decimal of fixed scale, a text, a day, or `Beyond`,
//! the mark of a number past its range. The types stand here, and what is done with them in the modules:
//! decimals, days and texts are made in `decimals`, `days` and `texts`; `ordering` has the total order and `keys`
//! equality and hashing; `arithmetic` and `comparison` have the operators; `literals` reads texts and `printing` writes them;
//! `names` knows simple identifiers, and `refusals` has why a call over values gives nothing.
//!
//! The crate stands on `jiff` for the calendar. Each contract is the definition of its operation in `specs/`,
//! over whole numbers without limit.
#![tactic(auto)]

ghost use Rattle.std.specs.Prelude.{IsTrue};
ghost use Rattle.edm_values.specs.Parts.{is_day, is_decimal};

use std::marker::Model;
use thiserror::Error;

mod arithmetic;
mod comparison;
mod days;
mod decimals;
mod keys;
mod kinds;
mod literals;
mod names;
mod numbers;
mod ordering;
mod printing;
mod refusals;
mod texts;
mod views;

pub use arithmetic::{add, mul, neg, sub};
pub use comparison::compare;
pub use decimals::{MANTISSA_MAX, PRECISION_MAX, SCALE_MAX};
pub use literals::{printed_value_reads, read_value};
pub use names::is_name;
pub use ordering::order;
pub use printing::print_value;
pub use refusals::Refused;

/// A type of the entity data model, as this profile has them.
#[derive(Clone, Copy, Debug, PartialEq, Eq, Drop)]
pub enum EdmType {
    Bool,
    Int,
    Dec { scale: u8, precision: u8 },
    Text,
    Day,
}

/// A standard aggregation method.
#[derive(Clone, Copy, Debug, PartialEq, Eq, Drop)]
pub enum Method {
    Sum,
    Min,
    Max,
    CountDistinct,
}

/// A decimal of fixed scale: the mantissa divided by the power of ten of the scale.
#[derive(Clone, Copy, Debug, PartialEq, Eq, Hash, Drop)]
pub struct Dec {
    mantissa: i64,
    scale: u8,
    ghost in_range: { IsTrue (is_decimal mantissa scale) },
}

/// A text of fewer than 2^63 bytes.
#[derive(Debug, Drop)]
pub struct Text {
    text: String,
}

impl Model for Text {
    ghost use Rattle.std.specs.Prelude.{ℕ, ◌<◌, ◌^◌, List, length, string_bytes};

    ghost Value = { List ℕ };

    ghost view = { λ t. string_bytes t.text };

    ghost invariant = { λ t. length (string_bytes t.text) < 2 ^ 63 };
}

/// A date of the Gregorian calendar from 0001-01-01 to 9999-12-31.
#[derive(Clone, Copy, Debug, PartialEq, Eq, PartialOrd, Ord, Hash, Drop)]
pub struct Day {
    year: u16,
    month: u8,
    day: u8,
    ghost in_range: { IsTrue (is_day year month day) },
}

/// A primitive value, or `Beyond`: the result of an operation whose number is past its range.
#[derive(Debug, Drop)]
pub enum Value {
    Null,
    Bool(bool),
    Int(i64),
    Dec(Dec),
    Text(Text),
    Day(Day),
    Beyond,
}

/// A value that borrows its text.
#[derive(Clone, Copy, Debug, Drop)]
pub enum Seen<'a> {
    Null,
    Bool(bool),
    Int(i64),
    Dec(Dec),
    Text(&'a str),
    Day(Day),
    Beyond,
}

/// Why a text was not read as a value of a type.
#[derive(Clone, Copy, Debug, PartialEq, Eq, Error)]
pub enum ReadRefused {
    /// The text is no literal of the type.
    #[error("the text is no literal of the type")]
    Shape,
    /// The literal is past the range or the precision of the type.
    #[error("the literal is past the range of the type")]
    Range,
    /// The value does not fit in memory.
    #[error("there is not enough memory")]
    Memory,
}
