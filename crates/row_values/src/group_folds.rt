//! What partials over values keep of the values of each group.
ghost use Rattle.std.specs.Prelude.{◌≡◌, [], All, true};

use edm_values::Seen;
use par_stages::Partial;
use seen_partials::SeenPartial;
use std::alloc::{AllocError, Global};
use std::marker::Model;
use std::mem;

/// What partials keep of the values of a list: one partial for each group, which takes the values at the places that have the
/// group's number. The groups' partials are of the kind of `empty`. A value at a place without a number is refused.
#[derive(Drop)]
pub(crate) struct GroupFolds<'n, P: Partial> {
    alloc: Global,
    numbers: &'n [u32],
    count: usize,
    taken: u64,
    empty: P,
    groups: Vec<P>,
}

impl<'n, P: Partial> Model for GroupFolds<'n, P> {
    ghost use Rattle.std.specs.Prelude.{◌^◌, ◌<◌};
    ghost use Rattle.std.specs.List.{All};
    ghost use Rattle.row_values.specs.GroupFolds.{FoldsState, IsFold};

    ghost Value = { FoldsState P };

    ghost view = { λ s. record { numbers = s.numbers.now; count = s.count; taken = s.taken; empty = s.empty; groups = s.groups.items } };

    ghost invariant = { λ s. (s.taken < 2 ^ 63) × All (IsFold P.kind P.stands_for s.empty s.taken) s.groups.items };
}

impl<'n, P: Partial> GroupFolds<'n, P> {
    /// What is kept of no values of so many groups. `numbers` has the number of each place's group.
    pub(crate) fn new(
        alloc: Global,
        numbers: &'n [u32],
        count: usize,
        empty: P,
    ) -> GroupFolds<'n, P>
        ensures value { result ≡ record { numbers = numbers.now; count = count; taken = 0; empty = empty; groups = [] } }
    {
        GroupFolds {
            alloc,
            numbers,
            count,
            taken: 0,
            empty,
            groups: Vec::new(alloc),
        }
    }

    /// Whether these are the numbers of the groups, and how many there are.
    pub(crate) fn are_by(&self, numbers: &[u32], count: usize) -> bool
        ensures numbers { result ≡ true → self.now.numbers ≡ numbers.now }
        ensures count { result ≡ true → self.now.count ≡ count }
    {
        self.count == count && self.numbers == numbers
    }

    /// What is kept of each group.
    pub(crate) fn groups(&self) -> &[P]
        ensures value { result.now ≡ self.now.groups }
    {
        self.groups.as_slice()
    }

    /// What is kept of each group, without the rest.
    pub(crate) fn into_groups(self) -> Vec<P>
        ensures value { result.items ≡ self.entry.groups }
        ensures kind { All (λ p. P.kind p ≡ P.kind self.entry.empty) result.items }
    {
        self.groups
    }
}

impl<'n, P: Partial> Partial for GroupFolds<'n, P> {
    ghost use Rattle.std.specs.Prelude.{ℕ, List};
    ghost use Rattle.row_values.specs.GroupFolds.{AreFoldsOf};

    type Item = P::Item;

    ghost Kind = { List ℕ × (ℕ × P.Kind) };

    ghost kind = { λ s. (s.numbers, (s.count, P.kind s.empty)) };

    ghost takes = { λ k v. P.takes k.1.1 v };

    ghost count = { λ s. s.taken };

    ghost stands_for = { AreFoldsOf P.stands_for };

    fn fresh(&self) -> Result<GroupFolds<'n, P>, AllocError> {
        let mut groups = Vec::with_capacity(self.alloc, self.count)?;
        for _k in 0..self.count {
            groups.push(self.empty.fresh()?)?;
        }
        Ok(GroupFolds {
            alloc: self.alloc,
            numbers: self.numbers,
            count: self.count,
            taken: 0,
            empty: self.empty.fresh()?,
            groups,
        })
    }

    fn add(&mut self, item: &P::Item, place: usize) -> Result<(), AllocError> {
        if place >= self.numbers.len() {
            return Err(AllocError);
        }
        let j = self.numbers[place] as usize;
        if j >= self.groups.len() {
            return Err(AllocError);
        }
        let added = self.groups[j].add(item, place);
        self.taken += 1;
        if added.is_err() {
            self.groups = Vec::new(self.alloc);
        }
        added
    }

    fn merge(&mut self, later: GroupFolds<'n, P>) -> Result<(), AllocError> {
        let mut groups = mem::replace(&mut self.groups, Vec::new(self.alloc));
        let mut k = 0;
        for more in later.groups {
            if k >= groups.len() {
                return Err(AllocError);
            }
            groups[k].merge(more)?;
            k += 1;
        }
        if k < groups.len() {
            return Err(AllocError);
        }
        self.groups = groups;
        self.taken += later.taken;
        Ok(())
    }

    ghost counted = { λ p xs h. h.taken_is };
}

impl<'n, P: SeenPartial> SeenPartial for GroupFolds<'n, P> {
    fn add_seen(&mut self, item: Seen<'_>, place: usize) -> Result<(), AllocError> {
        if place >= self.numbers.len() {
            return Err(AllocError);
        }
        let j = self.numbers[place] as usize;
        if j >= self.groups.len() {
            return Err(AllocError);
        }
        let added = self.groups[j].add_seen(item, place);
        self.taken += 1;
        if added.is_err() {
            self.groups = Vec::new(self.alloc);
        }
        added
    }
}
