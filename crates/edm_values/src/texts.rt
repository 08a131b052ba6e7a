//! Texts.
ghost use Rattle.std.specs.Prelude.{◌≡◌, ◌↔◌, ◌≤◌, ◌^◌, length, string_bytes, IfOk, IsErr};
ghost use Rattle.std.proofs.Common.{rules};
ghost use Rattle.std.specs.Cmp.{partial_order_from_own_ties};
ghost use Rattle.std.specs.Cmp.Lexicographic.{slice_cmp};
ghost use Rattle.std.specs.Cmp.Rules.{comparing, hashing};
ghost use Rattle.std.specs.Hash as fed;
ghost use Rattle.std.specs.Ordering.{nat_cmp, as_partial_cmp};
ghost use Rattle.edm_values.specs.Lists.{same_text};

use crate::Text;
use std::alloc::{AllocError, Global};
use std::cmp::Ordering;
use std::hash::{Hash, Hasher};

impl Text {
    /// A text of this string, which is too long to be had where it has 2^63 bytes or more.
    pub fn new(text: String) -> Result<Text, AllocError>
        ensures bytes { IfOk result (λ t. t ≡ string_bytes text) }
        ensures too_long { IsErr result ↔ 2 ^ 63 ≤ length (string_bytes text) }
    {
        if text.len() >= 1 << 63 {
            return Err(AllocError);
        }
        Ok(Text { text })
    }

    /// The text.
    pub fn as_str(&self) -> &str
        ensures value { result.now ≡ self.now }
    {
        self.text.as_str()
    }

    /// A text of a copy of this string. A refusal is want of memory.
    pub fn of(alloc: Global, text: &str) -> Result<Text, AllocError>
        ensures value { IfOk result (λ t. t ≡ text.now) }
    {
        Text::new(String::from_str(alloc, text)?)
    }

    /// A copy of the text. A refusal is want of memory.
    pub fn copy(&self, alloc: Global) -> Result<Text, AllocError>
        ensures value { IfOk result (λ t. t ≡ self.now) }
    {
        Text::of(alloc, self.as_str())
    }
}

impl PartialEq for Text {
    ghost eq = { same_text };

    ghost laws = { Prim.search (comparing, rules) };

    fn eq(&self, other: &Text) -> bool {
        self.text == other.text
    }
}

impl Eq for Text {
    ghost laws = { Prim.search (comparing, rules) };
}

impl Hash for Text {
    ghost hash_input = { fed.str };

    ghost respects_eq = { Prim.search (hashing, rules) };

    fn hash<H: Hasher>(&self, state: &mut H) {
        self.text.as_str().hash(state);
    }
}

impl PartialOrd for Text {
    ghost partial_cmp = { as_partial_cmp (slice_cmp nat_cmp) };

    ghost laws = { partial_order_from_own_ties (Prim.search (comparing, rules)) (Prim.search (comparing, rules)) };

    fn partial_cmp(&self, other: &Text) -> Option<Ordering> {
        Some(self.cmp(other))
    }
}

impl Ord for Text {
    ghost cmp = { slice_cmp nat_cmp };

    ghost total = { Prim.search (comparing, rules) };

    ghost matches_partial_cmp = { Prim.search (comparing, rules) };

    ghost matches_eq = { Prim.search (comparing, rules) };

    fn cmp(&self, other: &Text) -> Ordering {
        self.text.cmp(&other.text)
    }
}
