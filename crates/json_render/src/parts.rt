//! Rows that are rendered in parts, each by a thread of its own.
ghost use Rattle.std.specs.Prelude.{◌≡◌, ◌++◌, ◌<◌, ◌≤◌, true, false, Ok, Err, IfOk, OnOk, map};
ghost use Rattle.std.specs.List.{All, AllZip, list_any};
ghost use Rattle.apply_meaning.specs.MeaningLaws.{AllFit};
ghost use Rattle.json_render.specs.Bodies as spec;
ghost use Rattle.json_render.specs.PartTexts.{AreParts, HasPast, IsPartText, texts_run};
ghost use Rattle.json_render.specs.RowRuns.{rows_run};
ghost use Rattle.edm_values.specs.declared.refusals.Refused.TheVariants as RenderRefused;

use crate::RenderRefused;
use crate::body::push_rows;
use crate::shown::ShownRows;
use context_typing::Shape;
use edm_data::Data;
use rayon::prelude::*;
use std::alloc::{AllocError, Global};
use std::thread::Threads;

/// The text of rows with a comma between.
fn text_of(
    alloc: Global,
    store: &Data,
    shape: &Shape,
    rows: &ShownRows<'_>,
) -> Result<Vec<u8>, RenderRefused>
    requires fit { AllFit store.now shape.now rows.now }
    ensures { IsPartText store.now shape.now rows.now result }
{
    let mut text = Vec::new(alloc);
    push_rows(alloc, store, shape, rows, &mut text)?;
    Ok(text)
}

/// Where the part ends that begins at this place.
fn part_end(from: usize, len: usize, count: usize) -> usize
    requires some { 0 < len }
    requires there { from < count }
    ensures more { from < result }
    ensures within { result ≤ count }
{
    if count - from > len {
        from + len
    } else {
        count
    }
}

/// The rows in parts of so many, of which the last may have fewer.
fn parts_of<'a>(
    alloc: Global,
    rows: &ShownRows<'a>,
    len: usize,
) -> Result<Vec<ShownRows<'a>>, AllocError>
    requires some { 0 < len }
    ensures { IfOk result (λ parts. AreParts rows.now parts.items) }
{
    let count = rows.len();
    let mut parts = Vec::new(alloc);
    let mut from = 0;
    while from < count {
        let to = part_end(from, len, count);
        parts.push(rows.part(from, to))?;
        from = to;
    }
    Ok(parts)
}

/// The text of each part, each made by a thread of its own, or what was wanting for it.
fn part_texts<R: Threads + Sync>(
    rt: &R,
    alloc: Global,
    store: &Data,
    shape: &Shape,
    parts: &[ShownRows<'_>],
) -> Result<Vec<Result<Vec<u8>, RenderRefused>>, AllocError>
    requires fit { All (AllFit store.now shape.now) parts.now }
    ensures { IfOk result (λ rs. AllZip (IsPartText store.now shape.now) parts.now rs.items) }
{
    parts
        .par_iter()
        .with_min_len(1)
        .map(
            |part: &ShownRows<'_>| -> Result<Vec<u8>, RenderRefused>
                requires { AllFit store.now shape.now part.now }
                ensures { IsPartText store.entry.now shape.entry.now part.now result }
            { text_of(alloc, store, shape, part) },
        )
        .collect(rt, alloc)
}

/// All texts, or why the first that is not there is not.
fn all_texts(
    alloc: Global,
    results: Vec<Result<Vec<u8>, RenderRefused>>,
) -> Result<Vec<Vec<u8>>, RenderRefused>
    ensures ok { IfOk result (λ found. map Ok found.items ≡ results.items) }
    ensures range { result ≡ Err RenderRefused.Range → HasPast results.items }
{
    let mut found = Vec::with_capacity(alloc, results.len())?;
    for result in results {
        found.push(result?)?;
    }
    Ok(found)
}

/// How many bytes the texts have, with a comma for each.
fn bytes_of(texts: &[Vec<u8>]) -> usize {
    let mut count = texts.len();
    for text in texts {
        count = count.saturating_add(text.len());
    }
    count
}

/// Appends texts with a comma between.
fn push_texts(texts: Vec<Vec<u8>>, body: &mut Vec<u8>) -> Result<(), AllocError>
    ensures { OnOk result (body.new.items ≡ body.old.items ++ texts_run false texts.items) }
{
    body.reserve(bytes_of(texts.as_slice()))?;
    let mut later = false;
    for text in texts {
        if later {
            body.push(b',')?;
        }
        body.extend_from_slice(text.as_slice())?;
        later = true;
    }
    Ok(())
}

/// Appends the rows with a comma between, rendered in parts of so many rows.
pub(crate) fn push_in_parts<R: Threads + Sync>(
    rt: &R,
    alloc: Global,
    store: &Data,
    shape: &Shape,
    rows: &ShownRows<'_>,
    len: usize,
    body: &mut Vec<u8>,
) -> Result<(), RenderRefused>
    requires some { 0 < len }
    requires fit { AllFit store.now shape.now rows.now }
    ensures ok { OnOk result (body.new.items ≡ body.old.items ++ rows_run store.now shape.now false rows.now) }
    ensures in_range { OnOk result (list_any spec.has_beyond rows.now ≡ false) }
    ensures range { result ≡ Err RenderRefused.Range → list_any spec.has_beyond rows.now ≡ true }
{
    let parts = parts_of(alloc, rows, len)?;
    let results = part_texts(rt, alloc, store, shape, parts.as_slice())?;
    let texts = all_texts(alloc, results)?;
    push_texts(texts, body)?;
    Ok(())
}
