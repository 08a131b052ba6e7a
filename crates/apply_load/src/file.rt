//! Reading a file whole.
ghost use Rattle.std.specs.Prelude.{◌≡◌, ◌≢◌, ℕ, ◌+◌, ◌<◌, ◌≤◌, ◌^◌, length, take, IfOk, IsOk, Err, IfSome, IsSome, IsErrOf};
ghost use Rattle.apply_io.specs.Causes.{HasCause, Rose};
ghost use Rattle.apply_io.specs.Files.{KeepsFiles, told_content};
ghost use Rattle.apply_load.specs.Transfers.{IsPart, IsRead};

use apply_io::{Failed, Folder};
use std::alloc::Global;

/// Why a file was not read.
#[derive(Clone, Copy)]
pub enum FileFault {
    /// A read failed.
    Fault,
    /// Memory ran out.
    Memory,
}

/// Reads the bytes of a file from a place on, at most `most`.
fn read_part<F: Folder>(
    folder: &mut F,
    name: &str,
    at: u64,
    most: usize,
    buffer: &mut [u8],
) -> Result<usize, Failed>
    requires room { 0 < length buffer.old }
    requires some { 0 < most }
    ensures count { IfOk result (λ n. (n ≤ length buffer.new) × (n ≤ most)) }
    ensures bytes { IfOk result (λ n. IsPart (F.files folder.old) name.now at (take n buffer.new)) }
    ensures keeps { KeepsFiles (F.files folder.old) (F.files folder.new) }
    ensures steady { F.is_steady folder.old → F.is_steady folder.new
        × (IsSome (told_content (F.files folder.old) name.now) → IsOk result) }
    ensures cause { HasCause (F.fault_count folder.old) (F.fault_count folder.new) result }
{
    let room = buffer.len().min(most);
    folder.read(name, at, &mut buffer[..room])
}

/// Reads a file whole, or one byte past the limit.
#[tactic(auto, using(crate::proofs::Fronts::fronts))]
pub fn read_file<F: Folder>(
    alloc: Global,
    folder: &mut F,
    name: &str,
    limit: usize,
    buffer: &mut [u8],
) -> Result<Vec<u8>, FileFault>
    requires limit { limit < 2 ^ 32 }
    requires room { 0 < length buffer.old }
    ensures bytes { IfOk result (λ v. IsRead limit (F.files folder.old) name.now v.items) }
    ensures keeps { KeepsFiles (F.files folder.old) (F.files folder.new) }
    ensures later { F.fault_count folder.old ≤ F.fault_count folder.new }
    ensures steady_still { F.is_steady folder.old → F.is_steady folder.new }
    ensures fault { IsErrOf result FileFault.Fault → Rose (F.fault_count folder.old) (F.fault_count folder.new) }
    ensures steady { F.is_steady folder.old → IsSome (told_content (F.files folder.old) name.now) → result ≢ Err FileFault.Fault }
{
    let mut bytes = Vec::new(alloc);
    loop {
        let at = bytes.len();
        if at > limit {
            return Ok(bytes);
        }
        let Ok(count) = read_part(folder, name, at as u64, limit + 1 - at, buffer) else {
            return Err(FileFault::Fault);
        };
        if count == 0 {
            return Ok(bytes);
        }
        match bytes.extend_from_slice(&buffer[..count]) {
            Ok(()) => {}
            Err(_) => return Err(FileFault::Memory),
        }
    }
}
