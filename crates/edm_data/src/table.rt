//! The entities of a set, by column.
ghost use Rattle.std.specs.Prelude.{◌≡◌, ℕ, ◌<◌, ◌+◌, ◌^◌, [], ◌∷◌, ◌++◌, length, map, option_map, slice_get, unwrap_or, IfOk};
ghost use Rattle.edm_values.specs.Values.{seen_value, value_in};
ghost use Rattle.edm_data.specs.Columns.{AreColumns};
ghost use Rattle.edm_data.specs.Readers.{seen_column};

use crate::columns::Column;
use edm_values::Seen;
use std::alloc::{AllocError, Global};

/// Rows of values, kept by column.
#[derive(Drop)]
pub(crate) struct Table {
    count: u32,
    columns: Vec<Column>,
}

impl std::marker::Model for Table {
    ghost use Rattle.edm_data.specs.Columns.{AreColumns, Grid, grid_of};

    ghost Value = { Grid };

    ghost view = { λ t. grid_of t.columns.items t.count };

    ghost invariant = { λ t. AreColumns t.columns.items t.count };
}

impl Table {
    /// No rows, over columns that have none.
    pub(crate) fn new(columns: Vec<Column>) -> Table
        requires { AreColumns columns.items 0 }
        ensures width { result.width ≡ length columns.items }
        ensures rows { result.rows ≡ [] }
    {
        Table { count: 0, columns }
    }

    /// The number of the rows.
    pub(crate) fn count(&self) -> u32
        ensures { result ≡ length self.now.rows }
    {
        self.count
    }

    /// The column at a place.
    pub(crate) fn column(&self, place: usize) -> Option<&Column>
        ensures { (k : ℕ) → value_in (seen_column (option_map (λ c. c.now) result)) k ≡ value_in (unwrap_or (slice_get self.now.rows k) []) place }
    {
        if place < self.columns.len() {
            Some(&self.columns[place])
        } else {
            None
        }
    }

    /// The value at a place of a row, and null where there is none.
    pub(crate) fn value(&self, row: u32, place: usize) -> Seen<'_>
        ensures { seen_value result ≡ value_in (unwrap_or (slice_get self.now.rows row) []) place }
    {
        if place < self.columns.len() {
            self.columns[place].get(row)
        } else {
            Seen::Null
        }
    }

    /// A copy that takes no more room than it needs.
    pub(crate) fn packed(&self, alloc: Global) -> Result<Table, AllocError>
        ensures { IfOk result (λ table. table ≡ self.now) }
    {
        let mut columns = Vec::with_capacity(alloc, self.columns.len())?;
        for column in &self.columns {
            columns.push(column.packed(alloc)?)?;
        }
        Ok(Table {
            count: self.count,
            columns,
        })
    }

    /// Puts a row at the end.
    pub(crate) fn push(self, alloc: Global, row: &[Seen<'_>]) -> Result<Table, AllocError>
        requires width { length row.now ≡ self.width }
        requires few { length self.rows + 1 < 2 ^ 32 }
        ensures width { IfOk result (λ t. t.width ≡ self.width) }
        ensures rows { IfOk result (λ t. t.rows ≡ self.rows ++ map seen_value row.now ∷ []) }
    {
        let Table { count, mut columns } = self;
        for place in 0..columns.len() {
            columns[place].push(alloc, row[place])?;
        }
        Ok(Table {
            count: count + 1,
            columns,
        })
    }
}
