//! Objects in memory, which fail where they are told to.
ghost use Rattle.std.specs.Prelude.{◌≡◌, ℕ, ◌+◌, ◌-◌, ◌^◌, ◌<◌, ◌≤◌, ◌↔◌, List, [], length, min, take, drop, Contains, OnErr, OnOk, IfOk, IsOk, IsErr, MatchResult, Ok, Some, IsSome, IsNone, ◌⊎◌, refl, vec_len, vec_capacity, map};
ghost use Rattle.std.specs.Io.{ReadsAtMost, WritesAtMost};
ghost use Rattle.std.specs.Io.KnownBytes.{ReadConsumes, WriteAppends};
ghost use Rattle.apply_io.specs.Causes.{HasCause, next_count, CountsFault};
ghost use Rattle.std.specs.Option.{option_copied, ForSome};
ghost use Rattle.std.specs.List.{IsDistinct};
ghost use Rattle.std.specs.Str.{bytes_eq};
ghost use Rattle.apply_io.specs.Files.{Files, KeepsFiles, ReadsFile, told_content, content, files_of};

use super::{Failed, Folder, Sink, Source};
use std::alloc::{AllocError, Global};
use std::marker::Model;

/// Copies bytes into the front of a buffer, as many as there are and it has room for, at most `most`.
#[tactic(auto, using(crate::proofs::Pieces::lists))]
fn copy_front(from: &[u8], most: usize, buf: &mut [u8]) -> usize
    ensures count { result ≡ min (min (length buf.old) most) (length from.now) }
    ensures bytes { take result buf.new ≡ take result from.now }
{
    let count = buf.len().min(most).min(from.len());
    buf[..count].copy_from_slice(&from[..count]);
    count
}

/// A source over bytes in memory.
#[derive(Drop)]
pub struct MemSource {
    bytes: Vec<u8>,
    at: usize,
    most: usize,
    fails: Vec<u64>,
    calls: u64,
    faults: u64,
}

impl Model for MemSource {
    ghost use Rattle.std.specs.Prelude.{drop, vec_len, ◌≤◌, ◌<◌};
    ghost use Rattle.apply_io.specs.Memory.{SourceState};

    ghost Value = { SourceState };

    ghost view = { λ s. record {
      left = drop s.at s.bytes.items;
      most = s.most;
      fails = s.fails.items;
      calls = s.calls;
      faults = s.faults;
    } };

    ghost invariant = { λ s. (s.at ≤ vec_len s.bytes) × (0 < s.most) };
}

impl MemSource {
    /// Gives at most `most` bytes in a call. The calls with these numbers fail.
    pub fn new(bytes: Vec<u8>, most: usize, fails: Vec<u64>) -> MemSource
        requires { 0 < most }
        ensures value { result ≡ record { left = bytes.items; most = most; fails = fails.items; calls = 0; faults = 0 } }
    {
        MemSource {
            bytes,
            at: 0,
            most,
            fails,
            calls: 0,
            faults: 0,
        }
    }
}

impl Source for MemSource {
    ghost left = { λ s. Some s.left };

    ghost fault_count = { λ s. s.faults };

    ghost reads_once = { λ s t. t.calls ≡ next_count s.calls };

    fn faults(&self) -> u64 {
        self.faults
    }

    #[tactic(auto, using(crate::proofs::Pieces::lists))]
    fn read(&mut self, buf: &mut [u8]) -> Result<usize, Failed>
        ensures bound { ReadsAtMost result buf.new }
        ensures bytes { ReadConsumes (Some self.old.left) (Some self.new.left) result buf.new }
        ensures once { 0 < length buf.old → self.new.calls ≡ next_count self.old.calls }
        ensures cause { HasCause self.old.faults self.new.faults result }
        ensures faults { CountsFault self.old.faults self.new.faults result }
        ensures no_room { length buf.old ≡ 0 → (result ≡ Ok 0) × (self.new ≡ self.old) }
        ensures fails { 0 < length buf.old → IsErr result ↔ Contains self.old.fails (next_count self.old.calls) }
        ensures count { IfOk result (λ n. n ≡ min (min (length buf.old) self.old.most) (length self.old.left)) }
        ensures same { (self.new.fails ≡ self.old.fails) × (self.new.most ≡ self.old.most) }
    {
        if buf.is_empty() {
            return Ok(0);
        }
        self.calls = self.calls.saturating_add(1);
        if self.fails.contains(&self.calls) {
            self.faults = self.faults.saturating_add(1);
            return Err(Failed);
        }
        let count = copy_front(&self.bytes[self.at..], self.most, buf);
        self.at += count;
        Ok(count)
    }
}

/// A sink in memory. It takes its memory when it is made.
#[derive(Drop)]
pub struct MemSink {
    bytes: Vec<u8>,
    room: usize,
    most: usize,
    fails: Vec<u64>,
    calls: u64,
    faults: u64,
}

impl Model for MemSink {
    ghost use Rattle.std.specs.Prelude.{vec_len, vec_capacity, ◌-◌, ◌≤◌, ◌<◌};
    ghost use Rattle.apply_io.specs.Memory.{SinkState};

    ghost Value = { SinkState };

    ghost view = { λ s. record {
      held = s.bytes.items;
      room = s.room - vec_len s.bytes;
      most = s.most;
      fails = s.fails.items;
      calls = s.calls;
      faults = s.faults;
    } };

    ghost invariant = { λ s. (vec_len s.bytes ≤ s.room) × (s.room ≤ vec_capacity s.bytes) × (0 < s.most) };
}

impl MemSink {
    /// A sink with room for this many bytes, which takes at most `most` in a call. The calls with these numbers fail.
    pub fn new(
        alloc: Global,
        room: usize,
        most: usize,
        fails: Vec<u64>,
    ) -> Result<MemSink, AllocError>
        requires { 0 < most }
        ensures value { IfOk result
            (λ s. s ≡ record { held = []; room = room; most = most; fails = fails.items; calls = 0; faults = 0 }) }
    {
        Ok(MemSink {
            bytes: Vec::with_capacity(alloc, room)?,
            room,
            most,
            fails,
            calls: 0,
            faults: 0,
        })
    }

    /// The bytes that were written.
    pub fn bytes(&self) -> &[u8]
        ensures value { result.now ≡ self.now.held }
    {
        self.bytes.as_slice()
    }
}

impl Sink for MemSink {
    ghost held = { λ s. Some s.held };

    ghost fault_count = { λ s. s.faults };

    fn faults(&self) -> u64 {
        self.faults
    }

    #[tactic(auto, using(crate::proofs::Pieces::lists))]
    fn write(&mut self, piece: &[u8]) -> Result<usize, Failed>
        ensures bound { WritesAtMost result piece.now }
        ensures some { IfOk result (λ n. 0 < length piece.now → 0 < n) }
        ensures bytes { WriteAppends (Some self.old.held) (Some self.new.held) result piece.now }
        ensures cause { HasCause self.old.faults self.new.faults result }
        ensures faults { CountsFault self.old.faults self.new.faults result }
        ensures no_piece { length piece.now ≡ 0 → (result ≡ Ok 0) × (self.new ≡ self.old) }
        ensures fails { 0 < length piece.now → IsErr result
            ↔ (Contains self.old.fails (next_count self.old.calls) ⊎ (self.old.room ≡ 0)) }
        ensures count { IfOk result (λ n. n ≡ min (min (length piece.now) self.old.most) self.old.room) }
        ensures calls { 0 < length piece.now → self.new.calls ≡ next_count self.old.calls }
        ensures room { self.new.room + length self.new.held ≡ self.old.room + length self.old.held }
        ensures same { (self.new.fails ≡ self.old.fails) × (self.new.most ≡ self.old.most) }
    {
        if piece.is_empty() {
            return Ok(0);
        }
        self.calls = self.calls.saturating_add(1);
        let left = self.room - self.bytes.len();
        if self.fails.contains(&self.calls) || left == 0 {
            self.faults = self.faults.saturating_add(1);
            return Err(Failed);
        }
        let count = piece.len().min(self.most).min(left);
        self.bytes.extend_from_slice(&piece[..count]).unwrap();
        Ok(count)
    }
}

/// The bytes of the first file of this name.
fn find_file<'a>(files: &'a [(String, Vec<u8>)], name: &str) -> Option<&'a [u8]>
    ensures { option_copied result ≡ content (files_of files.now) name.now }
{
    for file in files {
        if file.0.as_str() == name {
            return Some(file.1.as_slice());
        }
    }
    None
}

/// Files in memory.
#[derive(Drop)]
pub struct MemFolder {
    files: Vec<(String, Vec<u8>)>,
    fails: Vec<u64>,
    calls: u64,
    faults: u64,
}

impl Model for MemFolder {
    ghost use Rattle.apply_io.specs.Memory.{FolderState};
    ghost use Rattle.apply_io.specs.Files.{files_of};

    ghost Value = { FolderState };

    ghost view = { λ s. record {
      files = files_of s.files.items;
      fails = s.fails.items;
      calls = s.calls;
      faults = s.faults;
    } };
}

impl MemFolder {
    /// A folder with these files, of which the first of a name counts. The calls with these numbers fail.
    pub fn new(files: Vec<(String, Vec<u8>)>, fails: Vec<u64>) -> MemFolder
        ensures value { result ≡ record { files = files_of files.items; fails = fails.items; calls = 0; faults = 0 } }
    {
        MemFolder {
            files,
            fails,
            calls: 0,
            faults: 0,
        }
    }
}

impl Folder for MemFolder {
    ghost files = { λ s. Some s.files };

    ghost is_steady = { λ s. s.fails ≡ [] };

    ghost fault_count = { λ s. s.faults };

    fn faults(&self) -> u64 {
        self.faults
    }

    #[tactic(auto, using(crate::proofs::Pieces::lists))]
    fn read(&mut self, name: &str, at: u64, buf: &mut [u8]) -> Result<usize, Failed>
        ensures bound { ReadsAtMost result buf.new }
        ensures bytes { ReadsFile (Some self.old.files) name.now at result buf.new }
        ensures keeps { KeepsFiles (Some self.old.files) (Some self.new.files) }
        ensures steady { self.old.fails ≡ [] → (self.new.fails ≡ [])
            × (IsSome (content self.old.files name.now) → IsOk result) }
        ensures cause { HasCause self.old.faults self.new.faults result }
        ensures faults { CountsFault self.old.faults self.new.faults result }
        ensures no_room { length buf.old ≡ 0 → (result ≡ Ok 0) × (self.new ≡ self.old) }
        ensures fails { 0 < length buf.old → IsErr result
            ↔ (Contains self.old.fails (next_count self.old.calls) ⊎ IsNone (content self.old.files name.now)) }
        ensures count { IfOk result (λ n. ForSome (content self.old.files name.now)
            (λ bytes. n ≡ min (length buf.old) (length (drop at bytes)))) }
        ensures calls { 0 < length buf.old → self.new.calls ≡ next_count self.old.calls }
        ensures same { (self.new.fails ≡ self.old.fails) × (self.new.files ≡ self.old.files) }
    {
        if buf.is_empty() {
            return Ok(0);
        }
        self.calls = self.calls.saturating_add(1);
        if self.fails.contains(&self.calls) {
            self.faults = self.faults.saturating_add(1);
            return Err(Failed);
        }
        let Some(bytes) = find_file(self.files.as_slice(), name) else {
            self.faults = self.faults.saturating_add(1);
            return Err(Failed);
        };
        let at = usize::try_from(at).unwrap_or(bytes.len()).min(bytes.len());
        Ok(copy_front(&bytes[at..], bytes.len(), buf))
    }

    ghost steady_tells = { λ _ _. refl };
}
