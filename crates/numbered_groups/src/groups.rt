//! The number of each row's group.
ghost use Rattle.std.specs.Prelude.{◌≡◌, ℕ, ◌<◌, ◌≤◌, Bool, true, All, IfOk, length, nat_eq};
ghost use Rattle.edm_values.specs.Lists.{distinct, places};
ghost use Rattle.numbered_groups.specs.Found.{AreNumbersBy, same_pair};
ghost use Rattle.numbered_groups.specs.Levels.{AreFirsts, IsNumberingBy};

use crate::found::Numbers;
use crate::refined::refined;
use par_stages::Gate;
use std::alloc::{AllocError, Global};
use std::marker::Model;
use std::thread::Threads;
use value_codes::Codes;

/// The groups of rows: the number of each row's group, counted from 0 in order of first appearance, and each group's first row.
#[derive(Drop)]
pub struct NumberedGroups {
    numbers: Vec<u32>,
    firsts: Vec<usize>,
}

impl Model for NumberedGroups {
    ghost use Rattle.std.specs.Prelude.{◌<◌, All, length};
    ghost use Rattle.numbered_groups.specs.Numbered.{Numbering};

    ghost Value = { Numbering };

    ghost view = { λ g. record { numbers = g.numbers.items; firsts = g.firsts.items } };

    ghost invariant = { λ g. All (λ n. n < length g.firsts.items) g.numbers.items × All (λ f. f < length g.numbers.items) g.firsts.items };
}

/// The first row of each number, of which there are so many.
fn first_rows(alloc: Global, numbers: &[u32], count: usize) -> Result<Vec<usize>, AllocError>
    requires { distinct nat_eq numbers.now ≡ places count }
    ensures are { IfOk result (λ firsts. AreFirsts numbers.now count firsts.items) }
    ensures size { IfOk result (λ firsts. length firsts.items ≡ count) }
    ensures there { IfOk result (λ firsts. All (λ f. f < length numbers.now) firsts.items) }
{
    let mut firsts = Vec::new(alloc);
    for row in 0..numbers.len() {
        if numbers[row] as usize == firsts.len() {
            firsts.push(row)?;
        }
    }
    Ok(firsts)
}

impl NumberedGroups {
    /// The groups of rows that have these numbers.
    pub(crate) fn of(alloc: Global, numbers: Numbers) -> Result<NumberedGroups, AllocError>
        requires order { distinct nat_eq numbers.numbers.items ≡ places numbers.count }
        requires there { All (λ n. n < numbers.count) numbers.numbers.items }
        ensures { IfOk result (λ g. (same : ℕ → ℕ → Bool) (rows : ℕ) → AreNumbersBy same rows numbers.numbers.items numbers.count → IsNumberingBy same rows g) }
    {
        let firsts = first_rows(alloc, numbers.numbers.as_slice(), numbers.count)?;
        Ok(NumberedGroups {
            numbers: numbers.numbers,
            firsts,
        })
    }

    /// One group of so many rows, and none where there is no row.
    pub(crate) fn whole(alloc: Global, rows: usize) -> Result<NumberedGroups, AllocError>
        ensures { IfOk result (λ g. IsNumberingBy (λ i j. true) rows g) }
    {
        let numbers = vec![in alloc; 0; rows]?;
        let count = rows.min(1);
        NumberedGroups::of(alloc, Numbers { numbers, count })
    }

    /// The groups of the same rows by one column more.
    pub(crate) fn with_column<R: Threads + Sync, G: Gate>(
        &self,
        rt: &R,
        alloc: Global,
        column: &Codes,
        workers: u32,
        gate: &G,
    ) -> Result<NumberedGroups, AllocError>
        requires some { 0 < workers }
        requires few { workers ≤ 64 }
        requires long { length self.now.numbers ≡ length column.now.codes }
        ensures { IfOk result (λ g. IsNumberingBy (same_pair self.now.numbers column.now.codes) (length column.now.codes) g) }
    {
        let numbers = refined(
            rt,
            alloc,
            self.numbers.as_slice(),
            self.firsts.len(),
            column.as_slice(),
            column.bound(),
            workers,
            gate,
        )?;
        NumberedGroups::of(alloc, numbers)
    }

    /// How many groups there are.
    pub fn len(&self) -> usize
        ensures value { result ≡ length self.now.firsts }
    {
        self.firsts.len()
    }

    /// The number of each row's group.
    pub fn numbers(&self) -> &[u32]
        ensures value { result.now ≡ self.now.numbers }
        ensures there { All (λ n. n < length self.now.firsts) result.now }
    {
        self.numbers.as_slice()
    }

    /// The first row of each group.
    pub fn firsts(&self) -> &[usize]
        ensures value { result.now ≡ self.now.firsts }
        ensures there { All (λ f. f < length self.now.numbers) result.now }
    {
        self.firsts.as_slice()
    }
}
