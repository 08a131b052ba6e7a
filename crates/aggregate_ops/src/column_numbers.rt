//! The numbers of the key lists that stand in columns, worked out in pieces by several threads.
ghost use Rattle.std.specs.Prelude.{◌≡◌, ◌<◌, ◌≤◌, [], All, IfOk, map};
ghost use Rattle.aggregate_ops.specs.Columns.{key_at};
ghost use Rattle.aggregate_ops.specs.ColumnNumbers.{AreNumbersAt, IsIn};
ghost use Rattle.aggregate_ops.specs.Numbers.{key_number};

use crate::hashed::number_at;
use edm_values::Seen;
use par_stages::{NoGate, Partial, pieces, workers_for};
use std::alloc::{AllocError, Global};
use std::marker::Model;
use std::thread::Threads;

/// The numbers of the key lists at places of columns, in the order in which the places come.
#[derive(Drop)]
struct ColumnNumbers<'a, 'v> {
    alloc: Global,
    columns: &'a [Vec<Seen<'v>>],
    numbers: Vec<u64>,
}

impl<'a, 'v> Model for ColumnNumbers<'a, 'v> {
    ghost use Rattle.aggregate_ops.specs.ColumnNumbers.{NumbersState};

    ghost Value = { NumbersState };

    ghost view = { λ t. record { columns = t.columns.now; numbers = t.numbers.items } };
}

impl<'a, 'v> ColumnNumbers<'a, 'v> {
    /// No numbers, of key lists in these columns.
    fn new(alloc: Global, columns: &'a [Vec<Seen<'v>>]) -> ColumnNumbers<'a, 'v>
        ensures columns { result.columns ≡ columns.now }
        ensures empty { AreNumbersAt result [] }
    {
        ColumnNumbers {
            alloc,
            columns,
            numbers: Vec::new(alloc),
        }
    }
}

impl<'a, 'v> Partial for ColumnNumbers<'a, 'v> {
    ghost use Rattle.std.specs.Prelude.{List, length};
    ghost use Rattle.std.specs.Global.{Vec as Vec'};
    ghost use Rattle.edm_values.specs.declared.Seen.{Seen as Seen'};

    type Item = usize;

    ghost Kind = { List (Vec' Seen') };

    ghost kind = { λ t. t.columns };

    ghost takes = { IsIn };

    ghost count = { λ t. length t.numbers };

    ghost stands_for = { AreNumbersAt };

    fn fresh(&self) -> Result<ColumnNumbers<'a, 'v>, AllocError> {
        Ok(ColumnNumbers::new(self.alloc, self.columns))
    }

    fn add(&mut self, item: &usize, _place: usize) -> Result<(), AllocError> {
        self.numbers.push(number_at(self.columns, *item))?;
        Ok(())
    }

    fn merge(&mut self, later: ColumnNumbers<'a, 'v>) -> Result<(), AllocError> {
        let mut numbers = later.numbers;
        self.numbers.append(&mut numbers)?;
        Ok(())
    }

    ghost counted = { λ p xs h. h.count_is };
}

/// The numbers of the key lists at these places of columns. A long list of places is cut into so many pieces, each for a thread of
/// its own.
pub(crate) fn column_numbers<R: Threads + Sync>(
    rt: &R,
    alloc: Global,
    columns: &[Vec<Seen<'_>>],
    places: &[usize],
    workers: u32,
) -> Result<Vec<u64>, AllocError>
    requires some { 0 < workers }
    requires few { workers ≤ 64 }
    requires there { All (IsIn columns.now) places.now }
    ensures { IfOk result (λ numbers. numbers.items ≡ map (λ at. key_number (key_at columns.now at)) places.now) }
{
    let empty = ColumnNumbers::new(alloc, columns);
    let workers = workers_for(places.len(), 1, workers);
    Ok(pieces(rt, places, workers, &NoGate, &empty)?.numbers)
}
