//! The numbers of codes in order of first appearance.
ghost use Rattle.std.specs.Prelude.{◌≡◌, ◌<◌, ◌≤◌, ◌++◌, [], All, IfOk, OnOk, get_or, length, map};
ghost use Rattle.numbered_groups.specs.Found.{AreFoundIn, AreNumbersBy, same_code};

use crate::indexes::CodeIndex;
use par_stages::{Gate, Partial, pieces};
use std::alloc::{AllocError, Global};
use std::marker::Model;
use std::thread::Threads;

/// Numbers of codes, each of which is found in a list at the place of its code.
#[derive(Drop)]
struct FoundNumbers {
    alloc: Global,
    room: usize,
    index: CodeIndex,
    numbers: Vec<u32>,
}

impl Model for FoundNumbers {
    ghost use Rattle.numbered_groups.specs.Found.{FoundState};

    ghost Value = { FoundState };

    ghost view = { λ s. record { heads = s.index.heads; numbers = s.numbers.items } };
}

impl FoundNumbers {
    /// The numbers of no codes. Those of a fold have room for so many.
    fn new(alloc: Global, room: usize) -> FoundNumbers {
        FoundNumbers {
            alloc,
            room,
            index: CodeIndex::new(alloc),
            numbers: Vec::new(alloc),
        }
    }
}

/// Puts those that have these numbers behind others.
fn put_moved(numbers: &mut Vec<u32>, later: &[u32], moved: &[u32]) -> Result<(), AllocError>
    ensures { OnOk result (numbers.new.items ≡ numbers.old.items ++ map (λ n. get_or moved.now n 0) later.now) }
{
    for number in later {
        let number = moved.get(*number as usize).ok_or(AllocError)?;
        numbers.push(*number)?;
    }
    Ok(())
}

impl Partial for FoundNumbers {
    ghost use Rattle.std.specs.Prelude.{length};
    ghost use Rattle.numbered_groups.specs.Found.{IsCode};

    type Item = u32;

    ghost Kind = { Unit {0} };

    ghost kind = { λ s. tt };

    ghost takes = { IsCode };

    ghost count = { λ s. length s.numbers };

    ghost stands_for = { AreFoundIn };

    fn fresh(&self) -> Result<FoundNumbers, AllocError> {
        Ok(FoundNumbers {
            alloc: self.alloc,
            room: self.room,
            index: CodeIndex::new(self.alloc),
            numbers: Vec::with_capacity(self.alloc, self.room)?,
        })
    }

    fn add(&mut self, item: &u32, _place: usize) -> Result<(), AllocError> {
        self.numbers.push(self.index.insert(*item)?)?;
        Ok(())
    }

    fn merge(&mut self, later: FoundNumbers) -> Result<(), AllocError> {
        let moved = self.index.insert_all(self.alloc, later.index.heads())?;
        put_moved(
            &mut self.numbers,
            later.numbers.as_slice(),
            moved.as_slice(),
        )
    }

    ghost counted = { λ p xs h. h.count_is };
}

/// The numbers of rows, and how many there are.
#[derive(Drop)]
pub(crate) struct Numbers {
    pub(crate) numbers: Vec<u32>,
    pub(crate) count: usize,
}

/// The numbers of codes, counted from 0 in order of first appearance.
pub(crate) fn number_codes<R: Threads + Sync, G: Gate>(
    rt: &R,
    alloc: Global,
    codes: &[u32],
    workers: u32,
    gate: &G,
) -> Result<Numbers, AllocError>
    requires some { 0 < workers }
    requires few { workers ≤ 64 }
    ensures { IfOk result (λ n. AreNumbersBy (same_code codes.now) (length codes.now) n.numbers.items n.count) }
{
    let empty = FoundNumbers::new(alloc, codes.len());
    let found = pieces(rt, codes, workers, gate, &empty)?;
    let count = found.index.len();
    Ok(Numbers {
        numbers: found.numbers,
        count,
    })
}
