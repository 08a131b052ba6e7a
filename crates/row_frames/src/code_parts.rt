//! Numbers in place of values, of parts of the rows that are picked.
ghost use Rattle.std.specs.Prelude.{◌≡◌, IfOk, IfSome, Ok, Some, map};
ghost use Rattle.row_frames.specs.CodeParts.{AreAllCodes};

use crate::parts::joined;
use std::alloc::{AllocError, Global};

/// The numbers of each part; none where those of a part are not known.
fn known_codes(
    alloc: Global,
    parts: Vec<Result<Option<Vec<u32>>, AllocError>>,
) -> Result<Option<Vec<Vec<u32>>>, AllocError>
    ensures { IfOk result (λ o. IfSome o (λ found. map (λ l. Ok (Some l)) found.items ≡ parts.items)) }
{
    let mut found = Vec::with_capacity(alloc, parts.len())?;
    for part in parts {
        match part? {
            Some(codes) => found.push(codes)?,
            None => return Ok(None),
        }
    }
    Ok(Some(found))
}

/// The numbers of all parts, one behind the other; none where those of a part are not known.
pub(crate) fn joined_codes(
    alloc: Global,
    n: usize,
    parts: Vec<Result<Option<Vec<u32>>, AllocError>>,
) -> Result<Option<Vec<u32>>, AllocError>
    ensures { IfOk result (λ o. IfSome o (λ all. AreAllCodes parts.items all.items)) }
{
    match known_codes(alloc, parts)? {
        Some(found) => Ok(Some(joined(alloc, n, found)?)),
        None => Ok(None),
    }
}
