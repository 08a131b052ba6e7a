//! Partials over values that take a value also where it is borrowed.
//!
//! A `SeenPartial` is a `Partial` whose items are values, and which is also given a value that borrows its text (`add_seen`). So who
//! reads values one by one folds them without a list, and no text is copied.
//!
//! The crate stands on `par_stages` for folds, and on `edm_values` for values. It is one trait, so that what reads values
//! (`row_frames`) and what folds them (`aggregate_ops`) stand on it and not on one another.
//!
//! It promises that a partial stands for the same list, whether its values were given borrowed or owned.
#![tactic(auto)]

ghost use Rattle.std.specs.Prelude.{◌≡◌, ℕ, ◌+◌, ◌^◌, ◌<◌, List, [], ◌∷◌, ◌++◌, OnOk};
ghost use Rattle.edm_values.specs.declared.Value.{Value as Value'};
ghost use Rattle.edm_values.specs.Values.{seen_value};

use edm_values::{Seen, Value};
use par_stages::Partial;
use std::alloc::AllocError;

/// A partial over values that takes a value also where it stands, without a copy of its text.
pub trait SeenPartial: Partial<Item = Value> {
    /// Adds a value at its place behind the others. After an `Err` the partial is only dropped.
    fn add_seen(&mut self, item: Seen<'_>, place: usize) -> Result<(), AllocError>
        requires room { Self.count self.old + 1 < 2 ^ 63 }
        requires kind { Self.takes (Self.kind self.old) (seen_value item) }
        ensures added { OnOk result ((xs : List (Value' × ℕ)) →
            Self.stands_for self.old xs → Self.stands_for self.new (xs ++ (seen_value item.entry, place) ∷ [])) }
        ensures kind { OnOk result (Self.kind self.new ≡ Self.kind self.old) };
}
