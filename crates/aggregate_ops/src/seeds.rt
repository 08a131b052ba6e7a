//! Where the hashes of a table begin.
//!
//! Whoever writes the data chooses its keys. A key's number (`hashed`) is a SipHash, so equal numbers are hardly found; but numbers
//! that are alike in the few bits that are a place in a table are found by trying. So no place is told by a number alone: the hashes
//! of a table begin with a seed, which is a SipHash of the numbers of the whole list that the table is made for, and a number goes
//! into a hash by a multiplication to 128 bits, whose halves are folded into 64. Each bit of the hash so depends on all of the
//! number and of the seed. Keys that meet by one list's seed do not by another's, and a list cannot be made to fit its own.
ghost use Rattle.std.specs.Hash.FoldHasher as folded;

use std::hash::{BuildHasher, DefaultHasher, FoldHasher, Hash, Hasher};

/// What the hashes of a table begin with. No answer of a table depends on it.
#[derive(Clone, Copy)]
pub struct Seed {
    state: FoldHasher,
}

impl Seed {
    /// The seed for a table of this list.
    pub fn of<T: Hash>(items: &[T]) -> Seed {
        let mut list = DefaultHasher::new();
        for item in items {
            item.hash(&mut list);
        }
        let mut state = FoldHasher::default();
        state.write_u64(list.finish());
        Seed { state }
    }
}

impl BuildHasher for Seed {
    type Hasher = FoldHasher;

    ghost build_hasher = { λ s. s.state };

    fn build_hasher(&self) -> FoldHasher {
        self.state
    }
}
