//! The line that is being read.
ghost use Rattle.std.specs.Prelude.{◌≡◌, ℕ, ◌+◌, ◌<◌, ◌^◌, IfOk};
ghost use Rattle.line_stream.specs.Buffers.{Kept, kept_with, ended_line, nothing_kept};

use std::alloc::{AllocError, Global};
use std::marker::Model;

/// The bytes of a line as they come, up to one more than a limit. It takes its memory when it is made, and none later.
#[derive(Debug, Drop)]
pub struct LineBuffer {
    bytes: Vec<u8>,
    limit: usize,
    is_over: bool,
}

impl Model for LineBuffer {
    ghost use Rattle.std.specs.Coded.{codes};
    ghost use Rattle.std.specs.Prelude.{◌≡◌, ◌+◌, ◌≤◌, ◌<◌, ◌^◌, true, vec_len, vec_capacity};
    ghost use Rattle.line_stream.specs.Buffers.{Kept};

    ghost Value = { Kept };

    ghost coded = { Prim.hlevel codes };

    ghost view = { λ s. record { bytes = s.bytes.items; limit = s.limit; is_over = s.is_over } };

    ghost invariant = { λ s. (vec_len s.bytes ≤ s.limit + 1) × (s.limit + 1 ≤ vec_capacity s.bytes) × (s.limit < 2 ^ 32) × (s.is_over ≡ true → vec_len s.bytes ≡ s.limit + 1) };
}

impl LineBuffer {
    /// A buffer with nothing in it.
    pub fn new(alloc: Global, limit: usize) -> Result<LineBuffer, AllocError>
        requires small { limit < 2 ^ 32 }
        ensures value { IfOk result (λ line. line ≡ nothing_kept limit) }
    {
        let bytes = Vec::with_capacity(alloc, limit + 1)?;
        Ok(LineBuffer {
            bytes,
            limit,
            is_over: false,
        })
    }

    /// Takes the next bytes of the line, as many as there is room for.
    pub fn push(&mut self, piece: &[u8])
        ensures value { self.new ≡ kept_with self.old piece.now }
    {
        let room = self.limit + 1 - self.bytes.len();
        let count = piece.len().min(room);
        self.bytes.extend_from_slice(&piece[..count]).unwrap();
        if count < piece.len() {
            self.is_over = true;
        }
    }

    /// The line as it stands.
    pub fn whole(&self) -> &[u8]
        ensures value { result.now ≡ self.now.bytes }
    {
        self.bytes.as_slice()
    }

    /// The line that an LF ends: one CR before the LF is dropped. Of a line with more bytes than there is room for, what
    /// was kept.
    pub fn ended(&self) -> &[u8]
        ensures value { result.now ≡ ended_line self.now }
    {
        match self.bytes.as_slice() {
            [front @ .., b'\r'] if !self.is_over => front,
            line => line,
        }
    }

    /// Begins the next line.
    pub fn clear(&mut self)
        ensures value { self.new ≡ nothing_kept self.old.limit }
    {
        self.bytes.clear();
        self.is_over = false;
    }
}
