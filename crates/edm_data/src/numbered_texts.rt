//! Texts of a list that are kept once each.
//!
//! Whoever writes the data chooses its texts, and could choose such as stand at one place of a table. So the hashes of a table
//! begin with all the bytes of the list that it is made for: texts that meet by one list do not by another, and a list cannot be
//! made to fit its own.
ghost use Rattle.std.specs.Prelude.{◌≡◌, ◌<◌, [], All, IfOk, IfSome, get_or, length, map};
ghost use Rattle.edm_data.specs.NumberedTexts.{IsPool, numbered_texts};

use crate::texts::Texts;
use indexmap::IndexSet;
use std::alloc::{AllocError, Global};
use std::hash::{BuildHasher, DefaultHasher};
use std::marker::Model;

/// How many texts are looked at before a list is given up of which more than half are distinct.
const FIRST: usize = 4_096;

/// What the hashes of a table begin with. No answer of a table depends on it.
#[derive(Clone, Copy)]
struct TextSeed {
    state: DefaultHasher,
}

impl BuildHasher for TextSeed {
    type Hasher = DefaultHasher;

    ghost build_hasher = { λ s. s.state };

    fn build_hasher(&self) -> DefaultHasher {
        self.state
    }
}

/// The texts of a list, each distinct one of which is kept once and has a number: its place among those.
#[derive(Drop)]
pub struct NumberedTexts {
    pool: Texts,
    numbers: Vec<u32>,
}

impl Model for NumberedTexts {
    ghost use Rattle.std.specs.Prelude.{◌<◌, All, length};
    ghost use Rattle.edm_data.specs.NumberedTexts.{IsPool, NumberedList};

    ghost Value = { NumberedList };

    ghost view = { λ t. record { pool = t.pool; numbers = t.numbers.items } };

    ghost invariant = { λ t. All (λ n. n < length t.pool) t.numbers.items × IsPool t.pool };
}

/// The number of a text that is found at a place of the pool, where at most half of so many texts of a list are distinct, or of
/// the first ones.
fn number_of(at: usize, seen: usize, count: usize) -> Option<u32>
    ensures { IfSome result (λ n. n ≡ at) }
{
    if at >= seen.max(count.min(FIRST)) / 2 {
        return None;
    }
    u32::try_from(at).ok()
}

/// These texts, side by side.
fn pool_of(alloc: Global, texts: &[&str]) -> Result<Texts, AllocError>
    ensures { IfOk result (λ pool. pool ≡ map (λ t. t.now) texts.now) }
{
    let mut pool = Texts::new(alloc);
    for text in texts {
        pool.push(*text)?;
    }
    pool.packed()
}

impl NumberedTexts {
    /// The texts of a list. There are none where more than half of them are distinct, or of the first ones.
    pub(crate) fn of(alloc: Global, texts: &Texts) -> Result<Option<NumberedTexts>, AllocError>
        ensures { IfOk result (λ o. IfSome o (λ t. numbered_texts t ≡ texts.now)) }
    {
        let state = texts.begin_hash();
        let mut known = IndexSet::with_hasher(alloc, TextSeed { state });
        let mut numbers = Vec::with_capacity(alloc, texts.len())?;
        for place in 0..texts.len() {
            let (at, _) = known.insert_full(texts.get(place))?;
            let Some(number) = number_of(at, place, texts.len()) else {
                return Ok(None);
            };
            numbers.push(number)?;
        }
        let pool = pool_of(alloc, known.as_slice())?;
        Ok(Some(NumberedTexts { pool, numbers }))
    }

    /// A copy that takes no more room than it needs.
    pub(crate) fn packed(&self) -> Result<NumberedTexts, AllocError>
        ensures { IfOk result (λ texts. texts ≡ self.now) }
    {
        Ok(NumberedTexts {
            pool: self.pool.packed()?,
            numbers: self.numbers.clone()?,
        })
    }

    /// How many texts the list has.
    pub(crate) fn len(&self) -> usize
        ensures { result ≡ length self.now.numbers }
    {
        self.numbers.len()
    }

    /// The text at a place of the list.
    #[inline(always)]
    pub(crate) fn get(&self, place: usize) -> &str
        requires { place < length self.now.numbers }
        ensures { result.now ≡ get_or (numbered_texts self.now) place [] }
    {
        self.pool.get(self.numbers[place] as usize)
    }

    /// How many distinct texts there are.
    pub fn count(&self) -> usize
        ensures value { result ≡ length self.now.pool }
    {
        self.pool.len()
    }

    /// The number of each text of the list.
    pub fn numbers(&self) -> &[u32]
        ensures value { result.now ≡ self.now.numbers }
        ensures there { All (λ n. n < length self.now.pool) result.now }
        ensures pool { IsPool self.now.pool }
    {
        self.numbers.as_slice()
    }

    /// The text of a number.
    pub fn text(&self, number: u32) -> &str
        requires there { number < length self.now.pool }
        ensures value { result.now ≡ get_or self.now.pool number [] }
    {
        self.pool.get(number as usize)
    }
}
