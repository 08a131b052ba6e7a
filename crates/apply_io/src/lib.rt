//! The outside of the service: what it reads from and writes to.
//!
//! A [`Source`] gives the bytes of the requests, a [`Sink`] takes those of the responses, and a [`Folder`] has the files.
//! Each keeps a count of its faults. A call answers [`Failed`] only where the count rose in that call, or stands at its
//! last value, and it then leaves what the object tells as it was. What an object holds is optional: over memory it is
//! told, so that contracts can speak of the bytes; over a file, a terminal or a pipe nothing is told.
//!
//! The crate stands on `std`, on `thiserror` for its error, and on `arrayvec` for the names that a folder keeps.
//! `MemSource`, `MemSink` and `MemFolder` are objects in memory that fail in the calls that they are told to, for tests.
//! `StdSource`, `StdSink` and `DiskFolder` are the trusted edge, which only the program's `main` makes. A read or a write of
//! theirs that a signal interrupts is done again. The crate promises that every object meets its trait and that those in
//! memory do exactly what their contracts say. Of the calls over objects in memory only `MemSink::new` takes memory; a source
//! or a sink over std takes what its reader or writer takes.
#![tactic(auto)]

ghost use Rattle.std.specs.Prelude.{◌≡◌, ◌≢◌, ℕ, ◌+◌, ◌-◌, ◌^◌, ◌<◌, ◌≤◌, ◌↔◌, List, [], length, min, take, drop, Contains, OnErr, OnOk, IfOk, IsOk, IsErr, IsSome, Ok, Some, vec_len, vec_capacity};
ghost use Rattle.std.specs.declared.option.Option.{Option};
ghost use Rattle.std.specs.Io.{ReadsAtMost, WritesAtMost};
ghost use Rattle.std.specs.Io.KnownBytes.{ReadConsumes, WriteAppends};
ghost use Rattle.apply_io.specs.Causes.{HasCause};
ghost use Rattle.apply_io.specs.Files.{Files, KeepsFiles, ReadsFile, told_content};

use thiserror::Error;

mod adapters;
mod memory;

pub use adapters::{DiskFolder, StdSink, StdSource};
pub use memory::{MemFolder, MemSink, MemSource};

/// A call on an object outside did not do what was asked. The object's count of faults says that it is to blame.
#[derive(Clone, Copy, Debug, PartialEq, Eq, Error)]
#[error("the object failed")]
pub struct Failed;

/// What bytes are read from, as standard input or bytes in memory.
pub trait Source {
    // The bytes that are left, where the source tells them.
    ghost left: { Self → Option (List ℕ) };

    // How often the source has failed.
    ghost fault_count: { Self → ℕ };

    // One read with room leads from the first state to the second. No law says what two reads do.
    ghost reads_once: { Self → Self → Type 0 };

    /// How often it has failed. The count stays at its last value.
    fn faults(&self) -> u64
        ensures value { result ≡ fault_count self.now };

    /// Reads the next bytes into the front of `buf`, and says how many. At `Ok(0)`, with room, nothing is left.
    fn read(&mut self, buf: &mut [u8]) -> Result<usize, Failed>
        ensures bound { ReadsAtMost result buf.new }
        ensures bytes { ReadConsumes (left self.old) (left self.new) result buf.new }
        ensures once { 0 < length buf.old → reads_once self.old self.new }
        ensures cause { HasCause (fault_count self.old) (fault_count self.new) result }
        ensures no_room { length buf.old ≡ 0 → (result ≡ Ok 0) × (fault_count self.new ≡ fault_count self.old) };
}

/// What bytes are written to, as standard output or memory.
pub trait Sink {
    // The bytes that it holds, where the sink tells them.
    ghost held: { Self → Option (List ℕ) };

    // How often the sink has failed.
    ghost fault_count: { Self → ℕ };

    /// How often it has failed. The count stays at its last value.
    fn faults(&self) -> u64
        ensures value { result ≡ fault_count self.now };

    /// Appends the first bytes of `piece`, at least one if there is one, and says how many.
    fn write(&mut self, piece: &[u8]) -> Result<usize, Failed>
        ensures bound { WritesAtMost result piece.now }
        ensures some { IfOk result (λ n. 0 < length piece.now → 0 < n) }
        ensures bytes { WriteAppends (held self.old) (held self.new) result piece.now }
        ensures cause { HasCause (fault_count self.old) (fault_count self.new) result }
        ensures no_piece { length piece.now ≡ 0 → (result ≡ Ok 0) × (fault_count self.new ≡ fault_count self.old) };
}

/// What files are read from, by their names.
pub trait Folder {
    // The files, where the folder tells them.
    ghost files: { Self → Option Files };

    // It tells its files, and no read of a file that it has fails.
    ghost is_steady: { Self → Type 0 };

    // How often the folder has failed.
    ghost fault_count: { Self → ℕ };

    /// How often it has failed. The count stays at its last value.
    fn faults(&self) -> u64
        ensures value { result ≡ fault_count self.now };

    /// Reads the bytes of the named file from the place `at` on, and says how many. At `Ok(0)`, with room, the file ends
    /// there. A file that is missing is a fault.
    fn read(&mut self, name: &str, at: u64, buf: &mut [u8]) -> Result<usize, Failed>
        ensures bound { ReadsAtMost result buf.new }
        ensures bytes { ReadsFile (files self.old) name.now at result buf.new }
        ensures keeps { KeepsFiles (files self.old) (files self.new) }
        ensures steady { is_steady self.old → is_steady self.new
            × (IsSome (told_content (files self.old) name.now) → IsOk result) }
        ensures cause { HasCause (fault_count self.old) (fault_count self.new) result }
        ensures no_room { length buf.old ≡ 0 → (result ≡ Ok 0) × (fault_count self.new ≡ fault_count self.old) };

    ghost steady_tells: { (folder : Self) → is_steady folder → IsSome (files folder) };
}
