//! The places of keys that stand in columns: each is read when its place is added.
ghost use Rattle.std.specs.Prelude.{◌≡◌, ℕ, ◌<◌, ◌≤◌, List, [], All, IfOk, length};
ghost use Rattle.edm_values.specs.Lists.{places};
ghost use Rattle.par_stages.specs.Placed.{placed};
ghost use Rattle.aggregate_ops.specs.Columns.{key_rows};
ghost use Rattle.aggregate_ops.specs.KeyTables.{groups_of};
ghost use Rattle.aggregate_ops.specs.PlacedKeys.{AreNumbersOf, ArePlacedOf, placed_rows};

use crate::column_numbers::column_numbers;
use crate::groups::Groups;
use crate::hashed::HashedKey;
use crate::key_places::KeyPlaces;
use crate::seeds::Seed;
use edm_values::Seen;
use par_stages::{Gate, Partial, pieces};
use std::alloc::{AllocError, Global};
use std::marker::Model;
use std::thread::Threads;

/// The places of each key of the key lists that stand in columns, which are told by their places there. The numbers of all of
/// them are known.
#[derive(Drop)]
struct PlacedKeys<'a, 'v> {
    columns: &'a [Vec<Seen<'v>>],
    numbers: &'a [u64],
    table: KeyPlaces<'a, 'v>,
}

impl<'a, 'v> Model for PlacedKeys<'a, 'v> {
    ghost use Rattle.std.specs.Prelude.{length};
    ghost use Rattle.aggregate_ops.specs.PlacedKeys.{AreNumbersOf, PlacedState};

    ghost Value = { PlacedState };

    ghost view = { λ t. record { columns = t.columns.now; rows = length t.numbers.now; table = t.table } };

    ghost invariant = { λ t. AreNumbersOf t.columns.now t.numbers.now };
}

impl<'a, 'v> PlacedKeys<'a, 'v> {
    /// The places of no keys of these columns, of which as many key lists have these numbers.
    fn new(alloc: Global, columns: &'a [Vec<Seen<'v>>], numbers: &'a [u64]) -> PlacedKeys<'a, 'v>
        requires { AreNumbersOf columns.now numbers.now }
        ensures columns { result.columns ≡ columns.now }
        ensures rows { result.rows ≡ length numbers.now }
        ensures width { result.table.width ≡ length columns.now }
        ensures empty { ArePlacedOf result [] }
    {
        PlacedKeys {
            columns,
            numbers,
            table: KeyPlaces::new(alloc, columns.len(), Seed::of(numbers)),
        }
    }

    /// The groups of the key lists. The places are given up, and moved.
    fn into_groups(self) -> Result<Groups, AllocError>
        ensures { IfOk result (λ g. (xs : List (ℕ × ℕ)) → ArePlacedOf self.entry xs → g ≡ groups_of (placed_rows self.entry.columns xs)) }
    {
        self.table.into_groups()
    }
}

impl<'a, 'v> Partial for PlacedKeys<'a, 'v> {
    ghost use Rattle.aggregate_ops.specs.PlacedKeys.{IsPlaceOf, PlacedKind};

    type Item = usize;

    ghost Kind = { PlacedKind };

    ghost kind = { λ t. record { columns = t.columns; rows = t.rows; width = t.table.width } };

    ghost takes = { IsPlaceOf };

    ghost count = { λ t. t.table.count };

    ghost stands_for = { ArePlacedOf };

    fn fresh(&self) -> Result<PlacedKeys<'a, 'v>, AllocError> {
        Ok(PlacedKeys {
            columns: self.columns,
            numbers: self.numbers,
            table: self.table.fresh()?,
        })
    }

    fn add(&mut self, item: &usize, place: usize) -> Result<(), AllocError> {
        let numbers = self.numbers;
        let key = HashedKey::numbered(self.columns, *item, numbers[*item]);
        self.table.add(&key, place)
    }

    fn merge(&mut self, later: PlacedKeys<'a, 'v>) -> Result<(), AllocError> {
        self.table.merge(later.table)
    }

    ghost counted = { λ p xs h. h.count_is };
}

/// The first numbers, as many as are asked for.
fn first_places(alloc: Global, count: usize) -> Result<Vec<usize>, AllocError>
    ensures { IfOk result (λ found. found.items ≡ places count) }
{
    let mut found = Vec::with_capacity(alloc, count)?;
    for at in 0..count {
        found.push(at)?;
    }
    Ok(found)
}

/// The groups of the key lists that stand at the first places of columns, as many as are asked for: a key list has the value of
/// each column at its place. `workers` says into how many pieces they may be cut, each of which tells the gate.
pub fn column_groups<R: Threads + Sync, G: Gate>(
    rt: &R,
    alloc: Global,
    columns: &[Vec<Seen<'_>>],
    count: usize,
    workers: u32,
    gate: &G,
) -> Result<Groups, AllocError>
    requires some { 0 < workers }
    requires few { workers ≤ 64 }
    requires long { All (λ c. count ≤ length c.items) columns.now }
    ensures value { IfOk result (λ found. found ≡ groups_of (placed 0 (key_rows columns.now count))) }
{
    let rows = first_places(alloc, count)?;
    let rows = rows.as_slice();
    let numbers = column_numbers(rt, alloc, columns, rows, workers)?;
    let empty = PlacedKeys::new(alloc, columns, numbers.as_slice());
    pieces(rt, rows, workers, gate, &empty)?.into_groups()
}
