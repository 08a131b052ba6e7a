//! Lists of rows one after the other.
ghost use Rattle.std.specs.Prelude.{◌≡◌, IfOk, flat_map};

use apply_meaning::Row;
use std::alloc::{AllocError, Global};

/// The rows of the lists, one list after the other. No row is made.
pub fn concat(alloc: Global, parts: Vec<Vec<Row>>) -> Result<Vec<Row>, AllocError>
    ensures value { IfOk result (λ all. all.items ≡ flat_map (λ part. part.items) parts.items) }
{
    let mut all = Vec::new(alloc);
    for part in parts {
        let mut part = part;
        all.append(&mut part)?;
    }
    Ok(all)
}
