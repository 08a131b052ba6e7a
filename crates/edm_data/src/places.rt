//! Places that rise.
ghost use Rattle.std.specs.Prelude.{◌≡◌, ◌<◌, [], ◌∷◌, ◌++◌, length, nat_eq, position, true, IfOk, OnOk, OnErr};
ghost use Rattle.edm_data.specs.Columns.{AreBelow, AreRising};

use std::alloc::{AllocError, Global};

/// Places of a list, each above the one before it: those at which something stands.
#[derive(Drop)]
pub(crate) struct Places {
    list: Vec<u32>,
}

impl std::marker::Model for Places {
    ghost use Rattle.std.specs.Prelude.{ℕ, List};
    ghost use Rattle.edm_data.specs.Columns.{AreRising};

    ghost Value = { List ℕ };

    ghost view = { λ p. p.list.items };

    ghost invariant = { λ p. AreRising p.list.items };
}

impl Places {
    /// No places.
    pub(crate) fn new(alloc: Global) -> Places
        ensures { result ≡ [] }
    {
        Places {
            list: Vec::new(alloc),
        }
    }

    /// The number of the places.
    pub(crate) fn len(&self) -> usize
        ensures { result ≡ length self.now }
    {
        self.list.len()
    }

    /// Whether there are so many places.
    pub(crate) fn are(&self, count: usize) -> bool
        ensures size { result ≡ true → length self.now ≡ count }
        ensures rising { AreRising self.now }
    {
        self.list.len() == count
    }

    /// Where this place stands among them, found in the halves of the list.
    #[inline(never)]
    fn searched(&self, place: u32) -> Option<usize>
        ensures { result ≡ position (nat_eq place) self.now }
    {
        match self.list.as_slice().binary_search(&place) {
            Ok(found) => Some(found),
            Err(_) => None,
        }
    }

    /// Where this place stands among them. It is looked for first where it stands if no place before it is left out.
    #[inline(always)]
    pub(crate) fn find(&self, place: u32) -> Option<usize>
        ensures { result ≡ position (nat_eq place) self.now }
    {
        let first = place as usize;
        if first < self.list.len() && self.list[first] == place {
            return Some(first);
        }
        self.searched(place)
    }

    /// A copy that takes no more room than it needs.
    pub(crate) fn packed(&self) -> Result<Places, AllocError>
        ensures { IfOk result (λ places. places ≡ self.now) }
    {
        Ok(Places {
            list: self.list.clone()?,
        })
    }

    /// Puts a place above all others at the end. After an `Err` the places are as before.
    pub(crate) fn push(&mut self, place: u32) -> Result<(), AllocError>
        requires { AreBelow place self.old }
        ensures ok { OnOk result (self.new ≡ self.old ++ place ∷ []) }
        ensures err { OnErr result (self.new ≡ self.old) }
    {
        self.list.push(place)?;
        Ok(())
    }
}
