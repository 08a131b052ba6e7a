//! The number of each code so far, found in a list at the place of the code.
ghost use Rattle.std.specs.Prelude.{◌≡◌, ℕ, ◌<◌, List, [], IfOk, OnOk, Some, nat_eq, slice_get, length};
ghost use Rattle.indexmap.specs.IndexSet.{insert_all, insert_key};
ghost use Rattle.numbered_groups.specs.Found.{AreTold, IsIndex, no_number};

use std::alloc::{AllocError, Global};
use std::marker::Model;

/// What stands in the list where a code has no number.
const NO_NUMBER: u32 = u32::MAX;

/// The codes that have a number, each at the place of its number, and a list that has the number of each code.
#[derive(Drop)]
pub(crate) struct CodeIndex {
    heads: Vec<u32>,
    table: Vec<u32>,
}

impl Model for CodeIndex {
    ghost use Rattle.numbered_groups.specs.Found.{IndexState, IsIndex};

    ghost Value = { IndexState };

    ghost view = { λ s. record { heads = s.heads.items } };

    ghost invariant = { λ s. IsIndex s.heads.items s.table.items };
}

/// The number behind so many.
pub(crate) fn next_number(count: usize) -> Result<u32, AllocError>
    ensures { IfOk result (λ n. (n ≡ count) × (count < no_number)) }
{
    if count >= NO_NUMBER as usize {
        return Err(AllocError);
    }
    Ok(count as u32)
}

/// Makes the list so long that it has a place for a code. What is added is no number.
fn make_room(table: &mut Vec<u32>, code: usize) -> Result<(), AllocError>
    requires { code < 4294967296 }
    ensures room { OnOk result (code < length table.new.items) }
    ensures index { (heads : List ℕ) → IsIndex heads table.old.items → IsIndex heads table.new.items }
{
    let len = table.len();
    if code < len {
        return Ok(());
    }
    table.resize(len.saturating_add(len).max(code + 1), NO_NUMBER)
}

impl CodeIndex {
    /// No codes.
    pub(crate) fn new(alloc: Global) -> CodeIndex
        ensures { result.heads ≡ [] }
    {
        CodeIndex {
            heads: Vec::new(alloc),
            table: Vec::new(alloc),
        }
    }

    /// How many codes have a number.
    pub(crate) fn len(&self) -> usize
        ensures { result ≡ length self.now.heads }
    {
        self.heads.len()
    }

    /// The codes that have a number, each at the place of its number.
    pub(crate) fn heads(&self) -> &[u32]
        ensures { result.now ≡ self.now.heads }
    {
        self.heads.as_slice()
    }

    /// The number of a code, which it is given where it has none.
    pub(crate) fn insert(&mut self, code: u32) -> Result<u32, AllocError>
        ensures heads { OnOk result (self.new.heads ≡ insert_key nat_eq self.old.heads code) }
        ensures at { IfOk result (λ n. slice_get self.new.heads n ≡ Some code) }
    {
        make_room(&mut self.table, code as usize)?;
        let known = self.table[code as usize];
        if known != NO_NUMBER {
            return Ok(known);
        }
        let number = next_number(self.heads.len())?;
        self.heads.push(code)?;
        self.table[code as usize] = number;
        Ok(number)
    }

    /// The numbers of codes, which are given to those that have none.
    pub(crate) fn insert_all(
        &mut self,
        alloc: Global,
        codes: &[u32],
    ) -> Result<Vec<u32>, AllocError>
        ensures heads { OnOk result (self.new.heads ≡ insert_all nat_eq self.old.heads codes.now) }
        ensures at { IfOk result (λ ns. AreTold self.new.heads ns.items codes.now) }
    {
        let mut numbers = Vec::with_capacity(alloc, codes.len())?;
        for code in codes {
            numbers.push(self.insert(*code)?)?;
        }
        Ok(numbers)
    }
}
