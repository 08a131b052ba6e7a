//! Numbers in place of texts that are kept once each.
ghost use Rattle.std.specs.Prelude.{◌≡◌, ◌<◌, ◌+◌, IfOk, IfSome, false, length, map, option_map};
ghost use Rattle.std.specs.List.{AllZip, list_any};
ghost use Rattle.edm_values.specs.Values.{is_beyond};
ghost use Rattle.edm_data.specs.NumberedTexts.{numbered_values};
ghost use Rattle.edm_data.specs.Worlds.{World};
ghost use Rattle.row_frames.specs.Frames as spec;
ghost use Rattle.row_frames.specs.CodeParts.{MadeCodes};
ghost use Rattle.row_frames.specs.Runs.{part_rows};
ghost use Rattle.row_frames.specs.TextCodes.{IsCodeThere, IsTextCode, place_behind, value_there};
ghost use Rattle.value_codes.specs.Above.{AreCoded};
ghost use Rattle.value_codes.specs.Codes.{AreCodes};

use crate::code_parts::joined_codes;
use crate::parts::{is_one_part, part_len, parts_of};
use crate::picks::{Part, Picks};
use crate::readers::Leaf;
use crate::tables::{Table, place_in};
use edm_data::{LinkedPlaces, NumberedTexts, PropertyValues};
use rayon::prelude::*;
use std::alloc::{AllocError, Global};
use std::thread::Threads;
use value_codes::Codes;

/// The place of the entity that has a property: that of the row's entity, or of what this refers to.
#[inline(always)]
fn place_of(links: Option<&LinkedPlaces<'_>>, place: u32) -> Option<u32>
    ensures { result ≡ place_behind (option_map (λ l. l.now) links.entry) place }
{
    match links {
        Some(links) => links.at(place),
        None => Some(place),
    }
}

/// The number of the text at a place, and that of null where there is none.
#[inline(always)]
fn text_code(texts: &NumberedTexts, null: u32, at: Option<u32>) -> Option<u32>
    requires { null ≡ length texts.now.pool }
    ensures code { IfSome result (IsTextCode texts.now.pool (spec.value_at (numbered_values texts.now) at)) }
    ensures below { IfSome result (λ c. c < null + 1) }
{
    let Some(at) = at else {
        return Some(null);
    };
    match texts.numbers().get(at as usize) {
        Some(number) => Some(*number),
        None => None,
    }
}

/// The number of the text in each row of a part.
fn part_codes(
    alloc: Global,
    table: &Table,
    part: &Part<'_>,
    links: Option<&LinkedPlaces<'_>>,
    texts: &NumberedTexts,
    null: u32,
) -> Result<Option<Vec<u32>>, AllocError>
    requires { null ≡ length texts.now.pool }
    ensures { MadeCodes (IsCodeThere table.now texts.now (option_map (λ l. l.now) links.entry)) (null + 1) (part_rows part.now) result }
{
    let mut codes = Vec::with_capacity(alloc, part.len())?;
    for k in 0..part.len() {
        let place = place_of(links, place_in(&table.roots, part.at(k).row));
        match text_code(texts, null, place) {
            Some(code) => codes.push(code)?,
            None => return Ok(None),
        }
    }
    Ok(Some(codes))
}

/// The same of each part.
fn parts_codes<R: Threads + Sync>(
    rt: &R,
    alloc: Global,
    table: &Table,
    parts: &[Part<'_>],
    links: Option<&LinkedPlaces<'_>>,
    texts: &NumberedTexts,
    null: u32,
) -> Result<Vec<Result<Option<Vec<u32>>, AllocError>>, AllocError>
    requires { null ≡ length texts.now.pool }
    ensures { IfOk result (λ rs. AllZip (λ p r. MadeCodes (IsCodeThere table.now texts.now (option_map (λ l. l.now) links.entry)) (null + 1) (part_rows p) r) parts.now rs.items) }
{
    parts
        .par_iter()
        .with_min_len(1)
        .map(
            |part: &Part<'_>| -> Result<Option<Vec<u32>>, AllocError>
                requires { null ≡ length texts.now.pool }
                ensures { MadeCodes (IsCodeThere table.entry.now texts.entry.now (option_map (λ l. l.now) links.entry)) (null + 1) (part_rows part.now) result }
            { part_codes(alloc, table, part, links, texts, null) },
        )
        .collect(rt, alloc)
}

/// The number of the text in each row that is picked. These may be cut into so many parts, each for a thread of its own.
fn all_codes<R: Threads + Sync>(
    rt: &R,
    alloc: Global,
    table: &Table,
    picks: &Picks,
    links: Option<&LinkedPlaces<'_>>,
    texts: &NumberedTexts,
    null: u32,
    workers: u32,
) -> Result<Option<Vec<u32>>, AllocError>
    requires { null ≡ length texts.now.pool }
    ensures { MadeCodes (IsCodeThere table.now texts.now (option_map (λ l. l.now) links.entry)) (null + 1) picks.now result }
{
    let n = picks.len();
    if is_one_part(n, workers) {
        return part_codes(alloc, table, &picks.as_part(), links, texts, null);
    }
    let parts = parts_of(alloc, picks, part_len(n, workers))?;
    let found = parts_codes(rt, alloc, table, parts.as_slice(), links, texts, null)?;
    joined_codes(alloc, n, found)
}

/// The number of the text in each row that is picked.
fn text_codes<R: Threads + Sync>(
    rt: &R,
    alloc: Global,
    table: &Table,
    picks: &Picks,
    links: Option<&LinkedPlaces<'_>>,
    texts: &NumberedTexts,
    workers: u32,
) -> Result<Option<Codes>, AllocError>
    ensures { IfOk result (λ o. IfSome o (λ c. AreCoded (IsCodeThere table.now texts.now (option_map (λ l. l.now) links.entry)) picks.now c.codes)) }
{
    let Ok(null) = u32::try_from(texts.count()) else {
        return Ok(None);
    };
    let found = all_codes(rt, alloc, table, picks, links, texts, null, workers)?;
    match found {
        Some(codes) => Ok(Some(Codes::new(codes, null as usize + 1))),
        None => Ok(None),
    }
}

/// The numbers of the values in the rows that are picked, where these are texts that are kept once each.
fn values_codes<R: Threads + Sync>(
    rt: &R,
    alloc: Global,
    table: &Table,
    picks: &Picks,
    links: Option<&LinkedPlaces<'_>>,
    values: &PropertyValues<'_>,
    workers: u32,
) -> Result<Option<Codes>, AllocError>
    ensures value { IfOk result (λ o. IfSome o (AreCodes (map (value_there table.now values.now (option_map (λ l. l.now) links.entry)) picks.now))) }
    ensures within { IfOk result (λ o. IfSome o (λ _. list_any is_beyond (map (value_there table.now values.now (option_map (λ l. l.now) links.entry)) picks.now) ≡ false)) }
{
    let Some(texts) = values.texts() else {
        return Ok(None);
    };
    let _numbers = texts.numbers();
    text_codes(rt, alloc, table, picks, links, texts, workers)
}

/// The numbers of the values of a leaf in the rows of a table that are picked, where these are texts that are kept once each.
pub(crate) fn leaf_codes<R: Threads + Sync>(
    rt: &R,
    alloc: Global,
    table: &Table,
    picks: &Picks,
    leaf: &Leaf<'_>,
    workers: u32,
) -> Result<Option<Codes>, AllocError>
    ensures value { (w : World) → IfOk result (λ o. IfSome o (AreCodes (map (λ x. spec.leaf_value w table.now x.row leaf.now) picks.now))) }
    ensures within { (w : World) → IfOk result (λ o. IfSome o (λ _. list_any is_beyond (map (λ x. spec.leaf_value w table.now x.row leaf.now) picks.now) ≡ false)) }
{
    match leaf {
        Leaf::Own(values) => values_codes(rt, alloc, table, picks, None, values, workers),
        Leaf::Linked(links, values) => {
            values_codes(rt, alloc, table, picks, Some(links), values, workers)
        }
        _ => Ok(None),
    }
}
