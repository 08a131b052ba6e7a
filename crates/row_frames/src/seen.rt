//! Values in the rows that are picked, and whether these are true, worked out by several threads.
ghost use Rattle.std.specs.Prelude.{◌≡◌, ◌<◌, ◌++◌, IfOk, OnOk, length, map};
ghost use Rattle.std.specs.Bool.{OnTrue};
ghost use Rattle.std.specs.List.{All, AllZip};
ghost use Rattle.edm_values.specs.declared.Value.{Value as Value'};
ghost use Rattle.edm_values.specs.Values.{seen_value};
ghost use Rattle.row_frames.specs.Answers.{answer_of};
ghost use Rattle.row_frames.specs.Blocks.{block_values};
ghost use Rattle.row_frames.specs.Folded.{dec_of, int_of};
ghost use Rattle.row_frames.specs.Frames as spec;
ghost use Rattle.row_frames.specs.Runs.{part_rows, run_rows};

use crate::blocks::{has_operator, read_block, seen_of_block};
use crate::folded::{row_decs, row_ints};
use crate::parts::{is_one_part, part_len, parts_of, whole};
use crate::picks::{Part, Picks, Run};
use crate::readers::{TableReader, dec_at, int_at, value_of};
use crate::tables::Pick;
use crate::typed_blocks::Block;
use edm_values::{Dec, Seen, Value};
use rayon::prelude::*;
use std::alloc::{AllocError, Global};
use std::thread::Threads;

/// The most rows of a block: the values in so many rows stay in the processor's first caches.
pub(crate) const BLOCK: usize = 1024;

/// The rows of the next block, and those behind it.
fn next_block(picks: &[Pick]) -> (&[Pick], &[Pick])
    ensures all { picks.now ≡ result.0.now ++ result.1.now }
    ensures less { 0 < length picks.now → length result.1.now < length picks.now }
{
    picks.split_at(picks.len().min(BLOCK))
}

/// Whether all rows are of one table, and an operator is applied to values there: then they are worked out block by block.
fn in_blocks(readers: &[TableReader<'_>]) -> bool
    ensures { OnTrue result (length readers.now ≡ 1) }
{
    readers.len() == 1 && has_operator(&readers[0].bound)
}

/// The value in each row of a block that is picked, worked out operator by operator.
fn block_of<'a>(
    alloc: Global,
    readers: &[TableReader<'a>],
    picks: &[Pick],
) -> Result<Block<'a>, AllocError>
    requires one { length readers.now ≡ 1 }
    requires readable { All (spec.IsReadable readers.now) picks.now }
    ensures { IfOk result (λ b. block_values b ≡ map (spec.read_at readers.now) picks.now) }
{
    let reader = &readers[0];
    read_block(alloc, reader, &reader.bound, picks)
}

/// The same as a list.
fn seen_block<'a>(
    alloc: Global,
    readers: &[TableReader<'a>],
    picks: &[Pick],
) -> Result<Vec<Seen<'a>>, AllocError>
    requires one { length readers.now ≡ 1 }
    requires readable { All (spec.IsReadable readers.now) picks.now }
    ensures { IfOk result (λ vs. map (λ v. seen_value v) vs.items ≡ map (spec.read_at readers.now) picks.now) }
{
    let block = block_of(alloc, readers, picks)?;
    seen_of_block(alloc, block)
}

/// The value in each row that is picked, block by block.
fn seen_in_blocks<'a>(
    alloc: Global,
    readers: &[TableReader<'a>],
    picks: &[Pick],
) -> Result<Vec<Seen<'a>>, AllocError>
    requires one { length readers.now ≡ 1 }
    requires readable { All (spec.IsReadable readers.now) picks.now }
    ensures { IfOk result (λ vs. spec.AreRead readers.now picks.now (map (λ v. seen_value v) vs.items)) }
{
    let mut found = Vec::with_capacity(alloc, picks.len())?;
    let mut rest = picks;
    while rest.len() > 0 {
        let (block, behind) = next_block(rest);
        let mut values = seen_block(alloc, readers, block)?;
        found.append(&mut values)?;
        rest = behind;
    }
    Ok(found)
}

/// The integer at the place of each row that is picked.
fn seen_ints<'a>(
    alloc: Global,
    list: &'a [i64],
    picks: &[Pick],
) -> Result<Vec<Seen<'a>>, AllocError>
    ensures { IfOk result (λ vs. map (λ v. seen_value v) vs.items ≡ map (int_of list.now) picks.now) }
{
    let mut found = Vec::with_capacity(alloc, picks.len())?;
    for pick in picks {
        found.push(int_at(list, pick.row))?;
    }
    Ok(found)
}

/// The decimal at the place of each row that is picked.
fn seen_decs<'a>(
    alloc: Global,
    list: &'a [Dec],
    picks: &[Pick],
) -> Result<Vec<Seen<'a>>, AllocError>
    ensures { IfOk result (λ vs. map (λ v. seen_value v) vs.items ≡ map (dec_of list.now) picks.now) }
{
    let mut found = Vec::with_capacity(alloc, picks.len())?;
    for pick in picks {
        found.push(dec_at(list, pick.row))?;
    }
    Ok(found)
}

/// The value in each row that is picked, one after the other.
pub(crate) fn seen_in_turn<'a>(
    alloc: Global,
    readers: &[TableReader<'a>],
    picks: &[Pick],
) -> Result<Vec<Seen<'a>>, AllocError>
    requires { All (spec.IsReadable readers.now) picks.now }
    ensures { IfOk result (λ vs. spec.AreRead readers.now picks.now (map (λ v. seen_value v) vs.items)) }
{
    if in_blocks(readers) {
        return seen_in_blocks(alloc, readers, picks);
    }
    if let Some(list) = row_ints(readers) {
        return seen_ints(alloc, list, picks);
    }
    if let Some(list) = row_decs(readers) {
        return seen_decs(alloc, list, picks);
    }
    let mut found = Vec::with_capacity(alloc, picks.len())?;
    for pick in picks {
        found.push(value_of(readers, *pick))?;
    }
    Ok(found)
}

/// The value in each row of a run, block by block.
fn seen_in_run<'a>(
    alloc: Global,
    readers: &[TableReader<'a>],
    run: Run,
) -> Result<Vec<Seen<'a>>, AllocError>
    requires { All (spec.IsReadable readers.now) (run_rows run) }
    ensures { IfOk result (λ vs. spec.AreRead readers.now (run_rows run) (map (λ v. seen_value v) vs.items)) }
{
    let mut found = Vec::with_capacity(alloc, run.len())?;
    let mut rest = run;
    while rest.len() > 0 {
        let front = rest.first(BLOCK);
        let behind = rest.later(BLOCK);
        let block = front.picks(alloc)?;
        let mut values = seen_in_turn(alloc, readers, block.as_slice())?;
        found.append(&mut values)?;
        rest = behind;
    }
    Ok(found)
}

/// The value in each row of a part.
fn seen_in_part<'a>(
    alloc: Global,
    readers: &[TableReader<'a>],
    part: &Part<'_>,
) -> Result<Vec<Seen<'a>>, AllocError>
    requires { All (spec.IsReadable readers.now) (part_rows part.now) }
    ensures { IfOk result (λ vs. spec.AreRead readers.now (part_rows part.now) (map (λ v. seen_value v) vs.items)) }
{
    match part {
        Part::Run(run) => seen_in_run(alloc, readers, *run),
        Part::List(list) => seen_in_turn(alloc, readers, list),
    }
}

/// The value in each row that is picked, in one part.
fn seen_alone<'a>(
    alloc: Global,
    readers: &[TableReader<'a>],
    picks: &Picks,
) -> Result<Vec<Seen<'a>>, AllocError>
    requires { All (spec.IsReadable readers.now) picks.now }
    ensures { IfOk result (λ vs. spec.AreRead readers.now picks.now (map (λ v. seen_value v) vs.items)) }
{
    let part = picks.as_part();
    seen_in_part(alloc, readers, &part)
}

/// The same of each part, or that memory was wanting for it.
fn seen_in_parts<'a, R: Threads + Sync>(
    rt: &R,
    alloc: Global,
    readers: &[TableReader<'a>],
    parts: &[Part<'_>],
) -> Result<Vec<Result<Vec<Seen<'a>>, AllocError>>, AllocError>
    requires { All (λ p. All (spec.IsReadable readers.now) (part_rows p)) parts.now }
    ensures { IfOk result (λ rs. AllZip (λ p r. IfOk r (λ vs. spec.AreRead readers.now (part_rows p) (map (λ v. seen_value v) vs.items))) parts.now rs.items) }
{
    parts
        .par_iter()
        .with_min_len(1)
        .map(
            |part: &Part<'_>| -> Result<Vec<Seen>, AllocError>
                requires { All (spec.IsReadable readers.now) (part_rows part.now) }
                ensures { IfOk result (λ vs. spec.AreRead readers.entry.now (part_rows part.now) (map (λ v. seen_value v) vs.items)) }
            { seen_in_part(alloc, readers, part) },
        )
        .collect(rt, alloc)
}

/// The value in each row that is picked. These may be cut into so many parts, each for a thread of its own.
pub(crate) fn all_seen<'a, R: Threads + Sync>(
    rt: &R,
    alloc: Global,
    readers: &[TableReader<'a>],
    picks: &Picks,
    workers: u32,
) -> Result<Vec<Seen<'a>>, AllocError>
    requires readable { All (spec.IsReadable readers.now) picks.now }
    ensures { IfOk result (λ vs. spec.AreRead readers.now picks.now (map (λ v. seen_value v) vs.items)) }
{
    let n = picks.len();
    if is_one_part(n, workers) {
        return seen_alone(alloc, readers, picks);
    }
    let parts = parts_of(alloc, picks, part_len(n, workers))?;
    let found = seen_in_parts(rt, alloc, readers, parts.as_slice())?;
    whole(alloc, n, found)
}

/// The values, with copies of their texts, behind what is there already.
fn push_owned(found: &mut Vec<Value>, alloc: Global, values: &[Seen<'_>]) -> Result<(), AllocError>
    ensures { OnOk result (found.new.items ≡ found.old.items ++ map (λ v. seen_value v) values.now) }
{
    for value in values {
        found.push(value.own(alloc)?)?;
    }
    Ok(())
}

/// The value, with a copy of its text, in each row that is picked, block by block.
fn values_in_blocks(
    alloc: Global,
    readers: &[TableReader<'_>],
    picks: &[Pick],
) -> Result<Vec<Value>, AllocError>
    requires one { length readers.now ≡ 1 }
    requires readable { All (spec.IsReadable readers.now) picks.now }
    ensures { IfOk result (λ vs. spec.AreRead readers.now picks.now vs.items) }
{
    let mut found = Vec::with_capacity(alloc, picks.len())?;
    let mut rest = picks;
    while rest.len() > 0 {
        let (block, behind) = next_block(rest);
        let values = seen_block(alloc, readers, block)?;
        push_owned(&mut found, alloc, values.as_slice())?;
        rest = behind;
    }
    Ok(found)
}

/// The value, with a copy of its text, in each row that is picked, one after the other.
pub(crate) fn values_in_turn(
    alloc: Global,
    readers: &[TableReader<'_>],
    picks: &[Pick],
) -> Result<Vec<Value>, AllocError>
    requires { All (spec.IsReadable readers.now) picks.now }
    ensures { IfOk result (λ vs. spec.AreRead readers.now picks.now vs.items) }
{
    if in_blocks(readers) {
        return values_in_blocks(alloc, readers, picks);
    }
    let mut found = Vec::with_capacity(alloc, picks.len())?;
    for pick in picks {
        found.push(value_of(readers, *pick).own(alloc)?)?;
    }
    Ok(found)
}

/// The value, with a copy of its text, in each row of a run, block by block.
fn values_in_run(
    alloc: Global,
    readers: &[TableReader<'_>],
    run: Run,
) -> Result<Vec<Value>, AllocError>
    requires { All (spec.IsReadable readers.now) (run_rows run) }
    ensures { IfOk result (λ vs. spec.AreRead readers.now (run_rows run) vs.items) }
{
    let mut found = Vec::with_capacity(alloc, run.len())?;
    let mut rest = run;
    while rest.len() > 0 {
        let front = rest.first(BLOCK);
        let behind = rest.later(BLOCK);
        let block = front.picks(alloc)?;
        let mut values = values_in_turn(alloc, readers, block.as_slice())?;
        found.append(&mut values)?;
        rest = behind;
    }
    Ok(found)
}

/// The value, with a copy of its text, in each row of a part.
fn values_in_part(
    alloc: Global,
    readers: &[TableReader<'_>],
    part: &Part<'_>,
) -> Result<Vec<Value>, AllocError>
    requires { All (spec.IsReadable readers.now) (part_rows part.now) }
    ensures { IfOk result (λ vs. spec.AreRead readers.now (part_rows part.now) vs.items) }
{
    match part {
        Part::Run(run) => values_in_run(alloc, readers, *run),
        Part::List(list) => values_in_turn(alloc, readers, list),
    }
}

/// The value, with a copy of its text, in each row that is picked, in one part.
fn values_alone(
    alloc: Global,
    readers: &[TableReader<'_>],
    picks: &Picks,
) -> Result<Vec<Value>, AllocError>
    requires { All (spec.IsReadable readers.now) picks.now }
    ensures { IfOk result (λ vs. spec.AreRead readers.now picks.now vs.items) }
{
    let part = picks.as_part();
    values_in_part(alloc, readers, &part)
}

/// The same of each part, or that memory was wanting for it.
fn values_in_parts<R: Threads + Sync>(
    rt: &R,
    alloc: Global,
    readers: &[TableReader<'_>],
    parts: &[Part<'_>],
) -> Result<Vec<Result<Vec<Value>, AllocError>>, AllocError>
    requires { All (λ p. All (spec.IsReadable readers.now) (part_rows p)) parts.now }
    ensures { IfOk result (λ rs. AllZip (λ p r. IfOk r (λ vs. spec.AreRead readers.now (part_rows p) vs.items)) parts.now rs.items) }
{
    parts
        .par_iter()
        .with_min_len(1)
        .map(
            |part: &Part<'_>| -> Result<Vec<Value>, AllocError>
                requires { All (spec.IsReadable readers.now) (part_rows part.now) }
                ensures { IfOk result (λ vs. spec.AreRead readers.entry.now (part_rows part.now) vs.items) }
            { values_in_part(alloc, readers, part) },
        )
        .collect(rt, alloc)
}

/// The value, with a copy of its text, in each row that is picked. These may be cut into so many parts, each for a thread of its own.
pub(crate) fn all_values<R: Threads + Sync>(
    rt: &R,
    alloc: Global,
    readers: &[TableReader<'_>],
    picks: &Picks,
    workers: u32,
) -> Result<Vec<Value>, AllocError>
    requires readable { All (spec.IsReadable readers.now) picks.now }
    ensures { IfOk result (λ vs. spec.AreRead readers.now picks.now vs.items) }
{
    let n = picks.len();
    if is_one_part(n, workers) {
        return values_alone(alloc, readers, picks);
    }
    let parts = parts_of(alloc, picks, part_len(n, workers))?;
    let found = values_in_parts(rt, alloc, readers, parts.as_slice())?;
    whole(alloc, n, found)
}

/// Whether a value is true; none where it is past its range.
fn answer(value: Seen<'_>) -> Option<bool>
    ensures { result ≡ answer_of (seen_value value.entry) }
{
    match value {
        Seen::Beyond => None,
        Seen::Bool(b) => Some(b),
        _ => Some(false),
    }
}

/// Whether each of the values is true, behind what is there already.
fn push_answers(found: &mut Vec<Option<bool>>, values: &[Seen<'_>]) -> Result<(), AllocError>
    ensures { OnOk result (found.new.items ≡ found.old.items ++ map answer_of (map (λ v. seen_value v) values.now)) }
{
    for value in values {
        found.push(answer(*value))?;
    }
    Ok(())
}

/// The Booleans as answers, behind what is there already.
fn push_truths(found: &mut Vec<Option<bool>>, list: &[bool]) -> Result<(), AllocError>
    ensures { OnOk result (found.new.items ≡ found.old.items ++ map answer_of (map Value'.Bool list.now)) }
{
    for x in list {
        found.push(Some(*x))?;
    }
    Ok(())
}

/// Whether each of the values of a block is true, behind what is there already.
fn push_block_answers(
    found: &mut Vec<Option<bool>>,
    alloc: Global,
    block: Block<'_>,
) -> Result<(), AllocError>
    ensures { OnOk result (found.new.items ≡ found.old.items ++ map answer_of (block_values block.entry)) }
{
    match block {
        Block::Truths(list) => push_truths(found, list.as_slice()),
        block => {
            let values = seen_of_block(alloc, block)?;
            push_answers(found, values.as_slice())
        }
    }
}

/// Whether the value is true, and none where it is past its range, in each row that is picked, block by block.
fn answers_in_blocks(
    alloc: Global,
    readers: &[TableReader<'_>],
    picks: &[Pick],
) -> Result<Vec<Option<bool>>, AllocError>
    requires one { length readers.now ≡ 1 }
    requires readable { All (spec.IsReadable readers.now) picks.now }
    ensures { IfOk result (λ vs. spec.AreAnswers readers.now picks.now vs.items) }
{
    let mut found = Vec::with_capacity(alloc, picks.len())?;
    let mut rest = picks;
    while rest.len() > 0 {
        let (block, behind) = next_block(rest);
        let values = block_of(alloc, readers, block)?;
        push_block_answers(&mut found, alloc, values)?;
        rest = behind;
    }
    Ok(found)
}

/// Whether the value is true, and none where it is past its range, in each row that is picked, one after the other.
pub(crate) fn answers_in_turn(
    alloc: Global,
    readers: &[TableReader<'_>],
    picks: &[Pick],
) -> Result<Vec<Option<bool>>, AllocError>
    requires { All (spec.IsReadable readers.now) picks.now }
    ensures { IfOk result (λ vs. spec.AreAnswers readers.now picks.now vs.items) }
{
    if in_blocks(readers) {
        return answers_in_blocks(alloc, readers, picks);
    }
    let mut found = Vec::with_capacity(alloc, picks.len())?;
    for pick in picks {
        found.push(answer(value_of(readers, *pick)))?;
    }
    Ok(found)
}
