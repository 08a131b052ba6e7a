//! Tables of the key lists of rows that are told by their places.
ghost use Rattle.std.specs.Prelude.{◌≡◌, ℕ, ◌<◌, List, [], All, IfOk, length, map};
ghost use Rattle.edm_values.specs.declared.Value.{Value as Value'};
ghost use Rattle.aggregate_ops.specs.KeyTables.{ArePlacesOf, groups_of};
ghost use Rattle.rollup_rec.specs.RowTables.{IsRowTableOf, keyed_rows};

use aggregate_ops::{Groups, HashedKey, KeyPlaces};
use par_stages::Partial;
use std::alloc::AllocError;
use std::marker::Model;

/// A table of the key lists of some rows. The rows are told by their places in the list of all key lists.
#[derive(Drop)]
pub(crate) struct RowTable<'a> {
    keys: &'a [HashedKey<'a, 'a>],
    table: KeyPlaces<'a, 'a>,
}

impl<'a> Model for RowTable<'a> {
    ghost use Rattle.rollup_rec.specs.RowTables.{RowTableState};

    ghost Value = { RowTableState };

    ghost view = { λ t. record { keys = t.keys.now; table = t.table } };
}

impl<'a> RowTable<'a> {
    /// A table without rows.
    pub(crate) fn new(keys: &'a [HashedKey<'a, 'a>], table: KeyPlaces<'a, 'a>) -> RowTable<'a>
        requires { ArePlacesOf table [] }
        ensures keys { result.keys ≡ keys.now }
        ensures table { result.table ≡ table.entry }
        ensures empty { IsRowTableOf result [] }
    {
        RowTable { keys, table }
    }

    /// The groups of the rows by their key lists. The table is given up, and its keys and places are moved.
    pub(crate) fn into_groups(self) -> Result<Groups, AllocError>
        ensures { IfOk result (λ g. (xs : List (ℕ × ℕ)) → IsRowTableOf self.entry xs → g ≡ groups_of (keyed_rows self.entry.keys (map (λ x. x.0) xs))) }
    {
        self.table.into_groups()
    }
}

impl<'a> Partial for RowTable<'a> {
    ghost use Rattle.aggregate_ops.specs.KeyTables.{IsWide};

    type Item = usize;

    ghost Kind = { ℕ × List (List Value') };

    ghost kind = { λ t. (t.table.width, t.keys) };

    ghost takes = { λ k row. (row < length k.1) × All (IsWide k.0) k.1 };

    ghost count = { λ t. t.table.count };

    ghost stands_for = { IsRowTableOf };

    fn fresh(&self) -> Result<RowTable<'a>, AllocError> {
        Ok(RowTable::new(self.keys, self.table.fresh()?))
    }

    fn add(&mut self, item: &usize, _place: usize) -> Result<(), AllocError> {
        let keys = self.keys;
        let row = *item;
        self.table.add(&keys[row], row)
    }

    fn merge(&mut self, later: RowTable<'a>) -> Result<(), AllocError> {
        self.table.merge(later.table)
    }

    ghost counted = { λ p xs h. h.count_is };
}
