//! Texts that are kept side by side.
ghost use Rattle.std.specs.Prelude.{◌≡◌, ◌<◌, [], ◌∷◌, ◌++◌, length, get_or, IfOk, OnOk, OnErr};

use std::alloc::{AllocError, Global};
use std::hash::{DefaultHasher, Hasher};

/// Where a text begins, and where it ends.
#[derive(Clone, Copy, Debug, Drop)]
pub(crate) struct Span {
    begin: u32,
    end: u32,
}

/// A list of texts, whose bytes stand in one buffer.
#[derive(Drop)]
pub(crate) struct Texts {
    bytes: Vec<u8>,
    spans: Vec<Span>,
}

impl std::marker::Model for Texts {
    ghost use Rattle.std.specs.Prelude.{ℕ, List};
    ghost use Rattle.edm_data.specs.TextSpans.{texts_in, AreTexts};

    ghost Value = { List (List ℕ) };

    ghost view = { λ t. texts_in t.bytes.items t.spans.items };

    ghost invariant = { λ t. AreTexts t.bytes.items t.spans.items };
}

impl Texts {
    /// No texts.
    pub(crate) fn new(alloc: Global) -> Texts
        ensures { result ≡ [] }
    {
        Texts {
            bytes: Vec::new(alloc),
            spans: Vec::new(alloc),
        }
    }

    /// The number of the texts.
    pub(crate) fn len(&self) -> usize
        ensures { result ≡ length self.now }
    {
        self.spans.len()
    }

    /// The text at a place.
    #[inline(always)]
    pub(crate) fn get(&self, place: usize) -> &str
        requires { place < length self.now }
        ensures { result.now ≡ get_or self.now place [] }
    {
        let span = self.spans[place];
        let bytes = &self.bytes[span.begin as usize..span.end as usize];
        // SAFETY: each span is that of a text which was put in.
        unsafe { str::from_utf8_unchecked(bytes) }
    }

    /// A hash that begins with all texts.
    pub(crate) fn begin_hash(&self) -> DefaultHasher {
        let mut state = DefaultHasher::new();
        state.write(self.bytes.as_slice());
        state
    }

    /// A copy that takes no more room than it needs.
    pub(crate) fn packed(&self) -> Result<Texts, AllocError>
        ensures { IfOk result (λ texts. texts ≡ self.now) }
    {
        Ok(Texts {
            bytes: self.bytes.clone()?,
            spans: self.spans.clone()?,
        })
    }

    /// Puts a text at the end. All texts together have fewer than 2^32 bytes, and more do not fit in memory.
    pub(crate) fn push(&mut self, text: &str) -> Result<(), AllocError>
        ensures ok { OnOk result (self.new ≡ self.old ++ text.now ∷ []) }
        ensures err { OnErr result (self.new ≡ self.old) }
    {
        let begin = self.bytes.len();
        let limit = u32::MAX as usize;
        if begin > limit || text.len() > limit - begin {
            return Err(AllocError);
        }
        self.bytes.extend_from_slice(text.as_bytes())?;
        self.spans.push(Span {
            begin: begin as u32,
            end: (begin + text.len()) as u32,
        })?;
        Ok(())
    }
}
