//! Values of expressions in blocks of rows of one table, operator by operator: those of each operand in all rows of a block are
//! worked out before the operator is applied to them.
ghost use Rattle.std.specs.Prelude.{◌≡◌, ℕ, IfOk, IfSome, length, map};
ghost use Rattle.std.specs.List.{All};
ghost use Rattle.edm_data.specs.Worlds.{World};
ghost use Rattle.edm_values.specs.declared.Value.{Value as Value'};
ghost use Rattle.edm_values.specs.Values.{negated, negation as spec_negation, seen_value, value_in};
ghost use Rattle.apply_meaning.specs.Instances as meaning;
ghost use Rattle.row_frames.specs.Blocks.{block_values, paired, unary};
ghost use Rattle.row_frames.specs.Frames as spec;
ghost use Rattle.row_frames.specs.Told.{told_at};
ghost use Rattle.row_frames.specs.declared.tables.Table.{Table as Table'};

use crate::readers::{Bound, Leaf, TableReader, read_leaf};
use crate::tables::{Pick, Roots, place_in};
use crate::told::{TextValues, told_values};
use crate::typed_blocks::{Block, typed_paired, typed_unary, typed_with};
use apply_ast::{BinOp, Fun1, Fun2, UnOp};
use apply_meaning::{binary, call1, call2, negation};
use edm_values::{Dec, Seen, neg};
use std::alloc::{AllocError, Global};

/// The integer at a place, where there is one.
#[inline(always)]
fn int_there(list: &[i64], place: u32) -> Option<i64>
    ensures { IfSome result (λ n. Value'.Int n ≡ value_in (map Value'.Int list.now) place) }
{
    match list.get(place as usize) {
        Some(n) => Some(*n),
        None => None,
    }
}

/// The decimal at a place, where there is one.
#[inline(always)]
fn dec_there(list: &[Dec], place: u32) -> Option<Dec>
    ensures { IfSome result (λ d. Value'.Dec d ≡ value_in (map Value'.Dec list.now) place) }
{
    match list.get(place as usize) {
        Some(d) => Some(*d),
        None => None,
    }
}

/// The integer at the place of each of the rows, where each is there.
fn ints_block<'a>(
    alloc: Global,
    roots: &Roots,
    list: &[i64],
    rows: &[Pick],
) -> Result<Option<Block<'a>>, AllocError>
    ensures { IfOk result (λ o. IfSome o (λ b. block_values b ≡ map (λ x. value_in (map Value'.Int list.now) (spec.place_in roots.now x.row)) rows.now)) }
{
    let mut found = Vec::with_capacity(alloc, rows.len())?;
    for row in rows {
        match int_there(list, place_in(roots, row.row)) {
            Some(n) => found.push(n)?,
            None => return Ok(None),
        }
    }
    Ok(Some(Block::Ints(found)))
}

/// The decimal at the place of each of the rows, where each is there.
fn decs_block<'a>(
    alloc: Global,
    roots: &Roots,
    list: &[Dec],
    rows: &[Pick],
) -> Result<Option<Block<'a>>, AllocError>
    ensures { IfOk result (λ o. IfSome o (λ b. block_values b ≡ map (λ x. value_in (map Value'.Dec list.now) (spec.place_in roots.now x.row)) rows.now)) }
{
    let mut found = Vec::with_capacity(alloc, rows.len())?;
    for row in rows {
        match dec_there(list, place_in(roots, row.row)) {
            Some(d) => found.push(d)?,
            None => return Ok(None),
        }
    }
    Ok(Some(Block::Decs(found)))
}

/// The value of a leaf in each of the rows, where these are of one kind.
fn typed_leaf<'a>(
    alloc: Global,
    reader: &TableReader<'a>,
    leaf: &Leaf<'a>,
    rows: &[Pick],
) -> Result<Option<Block<'a>>, AllocError>
    ensures { IfOk result (λ o. IfSome o (λ b. block_values b ≡ map (λ x. spec.leaf_value reader.now.store.now reader.now.table.now x.row leaf.now) rows.now)) }
{
    match leaf {
        Leaf::Ints(list) => ints_block(alloc, &reader.table.roots, list, rows),
        Leaf::Decs(list) => decs_block(alloc, &reader.table.roots, list, rows),
        _ => Ok(None),
    }
}

/// The value of a leaf in each of the rows.
fn leaf_block<'a>(
    alloc: Global,
    reader: &TableReader<'a>,
    leaf: &Leaf<'a>,
    rows: &[Pick],
) -> Result<Block<'a>, AllocError>
    requires { All (λ x. spec.CanRead reader.now x.row) rows.now }
    ensures { IfOk result (λ b. block_values b ≡ map (λ x. spec.leaf_value reader.now.store.now reader.now.table.now x.row leaf.now) rows.now) }
{
    if let Some(block) = typed_leaf(alloc, reader, leaf, rows)? {
        return Ok(block);
    }
    let mut found = Vec::with_capacity(alloc, rows.len())?;
    for row in rows {
        found.push(read_leaf(reader.store, reader.table, leaf, row.row))?;
    }
    Ok(Block::Any(found))
}

/// The value that the text of a leaf tells in each of the rows.
fn told_block<'a>(
    alloc: Global,
    reader: &TableReader<'a>,
    leaf: &Leaf<'a>,
    told: &TextValues<'a>,
    rows: &[Pick],
) -> Result<Block<'a>, AllocError>
    ensures { IfOk result (λ b. block_values b ≡ map (λ x. told_at told.now (spec.owner leaf.now (spec.place_in reader.now.table.now.roots x.row))) rows.now) }
{
    let values = told_values(alloc, &reader.table.roots, leaf, told, rows)?;
    Ok(Block::Any(values))
}

/// The integers as values.
fn seen_ints<'a>(alloc: Global, list: &[i64]) -> Result<Vec<Seen<'a>>, AllocError>
    ensures { IfOk result (λ vs. map (λ v. seen_value v) vs.items ≡ map Value'.Int list.now) }
{
    let mut found = Vec::with_capacity(alloc, list.len())?;
    for x in list {
        found.push(Seen::Int(*x))?;
    }
    Ok(found)
}

/// The decimals as values.
fn seen_decs<'a>(alloc: Global, list: &[Dec]) -> Result<Vec<Seen<'a>>, AllocError>
    ensures { IfOk result (λ vs. map (λ v. seen_value v) vs.items ≡ map Value'.Dec list.now) }
{
    let mut found = Vec::with_capacity(alloc, list.len())?;
    for x in list {
        found.push(Seen::Dec(*x))?;
    }
    Ok(found)
}

/// The Booleans as values.
fn seen_truths<'a>(alloc: Global, list: &[bool]) -> Result<Vec<Seen<'a>>, AllocError>
    ensures { IfOk result (λ vs. map (λ v. seen_value v) vs.items ≡ map Value'.Bool list.now) }
{
    let mut found = Vec::with_capacity(alloc, list.len())?;
    for x in list {
        found.push(Seen::Bool(*x))?;
    }
    Ok(found)
}

/// The values of a block.
pub(crate) fn seen_of_block<'a>(
    alloc: Global,
    block: Block<'a>,
) -> Result<Vec<Seen<'a>>, AllocError>
    ensures { IfOk result (λ vs. map (λ v. seen_value v) vs.items ≡ block_values block.entry) }
{
    match block {
        Block::Ints(list) => seen_ints(alloc, list.as_slice()),
        Block::Decs(list) => seen_decs(alloc, list.as_slice()),
        Block::Truths(list) => seen_truths(alloc, list.as_slice()),
        Block::Any(values) => Ok(values),
    }
}

/// The values with the other sign.
fn negated_block<'a>(alloc: Global, values: &[Seen<'a>]) -> Result<Vec<Seen<'a>>, AllocError>
    ensures { IfOk result (λ vs. map (λ v. seen_value v) vs.items ≡ map negated (map (λ v. seen_value v) values.now)) }
{
    let mut found = Vec::with_capacity(alloc, values.len())?;
    for value in values {
        found.push(neg(*value))?;
    }
    Ok(found)
}

/// `not` of the values.
fn negation_block<'a>(alloc: Global, values: &[Seen<'a>]) -> Result<Vec<Seen<'a>>, AllocError>
    ensures { IfOk result (λ vs. map (λ v. seen_value v) vs.items ≡ map spec_negation (map (λ v. seen_value v) values.now)) }
{
    let mut found = Vec::with_capacity(alloc, values.len())?;
    for value in values {
        found.push(negation(*value))?;
    }
    Ok(found)
}

/// A unary operation on the values.
fn unary_block<'a>(
    alloc: Global,
    op: UnOp,
    values: &[Seen<'a>],
) -> Result<Vec<Seen<'a>>, AllocError>
    ensures { IfOk result (λ vs. map (λ v. seen_value v) vs.items ≡ map (unary op) (map (λ v. seen_value v) values.now)) }
{
    match op {
        UnOp::Neg => negated_block(alloc, values),
        UnOp::Not => negation_block(alloc, values),
    }
}

/// A function of one argument of the values.
fn call1_block<'a>(alloc: Global, f: Fun1, values: &[Seen<'a>]) -> Result<Vec<Seen<'a>>, AllocError>
    ensures { IfOk result (λ vs. map (λ v. seen_value v) vs.items ≡ map (meaning.call1 f) (map (λ v. seen_value v) values.now)) }
{
    let mut found = Vec::with_capacity(alloc, values.len())?;
    for value in values {
        found.push(call1(f, *value))?;
    }
    Ok(found)
}

/// A binary operation on the values and one that is the same in all rows.
fn binary_with<'a>(
    alloc: Global,
    op: BinOp,
    values: &[Seen<'a>],
    other: Seen<'a>,
) -> Result<Vec<Seen<'a>>, AllocError>
    ensures { IfOk result (λ vs. map (λ v. seen_value v) vs.items ≡ map (λ a. meaning.binary op a (seen_value other.entry)) (map (λ v. seen_value v) values.now)) }
{
    let mut found = Vec::with_capacity(alloc, values.len())?;
    for value in values {
        found.push(binary(op, *value, other))?;
    }
    Ok(found)
}

/// A binary operation on the values of two lists.
fn binary_block<'a>(
    alloc: Global,
    op: BinOp,
    values: &[Seen<'a>],
    others: &[Seen<'a>],
) -> Result<Vec<Seen<'a>>, AllocError>
    requires { length values.now ≡ length others.now }
    ensures { IfOk result (λ vs. map (λ v. seen_value v) vs.items ≡ paired (meaning.binary op) (map (λ v. seen_value v) values.now) (map (λ v. seen_value v) others.now)) }
{
    let mut found = Vec::with_capacity(alloc, values.len())?;
    for (k, value) in values.iter().enumerate() {
        found.push(binary(op, *value, others[k]))?;
    }
    Ok(found)
}

/// A function of two arguments of the values of two lists.
fn call2_block<'a>(
    alloc: Global,
    f: Fun2,
    values: &[Seen<'a>],
    others: &[Seen<'a>],
) -> Result<Vec<Seen<'a>>, AllocError>
    requires { length values.now ≡ length others.now }
    ensures { IfOk result (λ vs. map (λ v. seen_value v) vs.items ≡ paired (meaning.call2 f) (map (λ v. seen_value v) values.now) (map (λ v. seen_value v) others.now)) }
{
    let mut found = Vec::with_capacity(alloc, values.len())?;
    for (k, value) in values.iter().enumerate() {
        found.push(call2(f, *value, others[k]))?;
    }
    Ok(found)
}

/// A unary operation on the values of a block.
fn with_unary<'a>(alloc: Global, op: UnOp, block: Block<'a>) -> Result<Block<'a>, AllocError>
    ensures { IfOk result (λ b. block_values b ≡ map (unary op) (block_values block.entry)) }
{
    if let Some(made) = typed_unary(alloc, op, &block)? {
        return Ok(made);
    }
    let values = seen_of_block(alloc, block)?;
    Ok(Block::Any(unary_block(alloc, op, values.as_slice())?))
}

/// A function of one argument of the values of a block.
fn with_call1<'a>(alloc: Global, f: Fun1, block: Block<'a>) -> Result<Block<'a>, AllocError>
    ensures { IfOk result (λ b. block_values b ≡ map (meaning.call1 f) (block_values block.entry)) }
{
    let values = seen_of_block(alloc, block)?;
    Ok(Block::Any(call1_block(alloc, f, values.as_slice())?))
}

/// A function of two arguments of the values of two blocks.
fn with_call2<'a>(
    alloc: Global,
    f: Fun2,
    block: Block<'a>,
    other: Block<'a>,
) -> Result<Block<'a>, AllocError>
    requires { length (block_values block) ≡ length (block_values other) }
    ensures { IfOk result (λ b. block_values b ≡ paired (meaning.call2 f) (block_values block.entry) (block_values other.entry)) }
{
    let values = seen_of_block(alloc, block)?;
    let others = seen_of_block(alloc, other)?;
    Ok(Block::Any(call2_block(alloc, f, values.as_slice(), others.as_slice())?))
}

/// A binary operation on the values of a block and an integer that is the same in all rows.
fn with_integer<'a>(
    alloc: Global,
    op: BinOp,
    block: Block<'a>,
    y: i64,
) -> Result<Block<'a>, AllocError>
    ensures { IfOk result (λ b. block_values b ≡ map (λ a. meaning.binary op a (Value'.Int y)) (block_values block.entry)) }
{
    if let Some(made) = typed_with(alloc, op, &block, y)? {
        return Ok(made);
    }
    let values = seen_of_block(alloc, block)?;
    Ok(Block::Any(binary_with(alloc, op, values.as_slice(), Seen::Int(y))?))
}

/// A binary operation on the values of a block and one that is the same in all rows.
fn with_literal<'a>(
    alloc: Global,
    op: BinOp,
    block: Block<'a>,
    other: Seen<'a>,
) -> Result<Block<'a>, AllocError>
    ensures { IfOk result (λ b. block_values b ≡ map (λ a. meaning.binary op a (seen_value other.entry)) (block_values block.entry)) }
{
    match other {
        Seen::Int(y) => with_integer(alloc, op, block, y),
        other => {
            let values = seen_of_block(alloc, block)?;
            Ok(Block::Any(binary_with(alloc, op, values.as_slice(), other)?))
        }
    }
}

/// A binary operation on the values of two blocks.
fn with_block<'a>(
    alloc: Global,
    op: BinOp,
    block: Block<'a>,
    other: Block<'a>,
) -> Result<Block<'a>, AllocError>
    requires { length (block_values block) ≡ length (block_values other) }
    ensures { IfOk result (λ b. block_values b ≡ paired (meaning.binary op) (block_values block.entry) (block_values other.entry)) }
{
    if let Some(made) = typed_paired(alloc, op, &block, &other)? {
        return Ok(made);
    }
    let values = seen_of_block(alloc, block)?;
    let others = seen_of_block(alloc, other)?;
    Ok(Block::Any(binary_block(alloc, op, values.as_slice(), others.as_slice())?))
}

/// The value of a literal.
pub(crate) fn literal<'a>(e: &Bound<'a>) -> Option<Seen<'a>>
    ensures { IfSome result (λ v. (w : World) (t : Table') (k : ℕ) → spec.bound_value w t k e.now ≡ seen_value v) }
{
    match e {
        Bound::Leaf(Leaf::Literal(v)) => Some(*v),
        _ => None,
    }
}

/// Whether an operator is applied to values.
pub(crate) fn has_operator(e: &Bound<'_>) -> bool {
    match e {
        Bound::Leaf(_) => false,
        _ => true,
    }
}

/// The value of a bound expression in each of the rows.
pub(crate) fn read_block<'a>(
    alloc: Global,
    reader: &TableReader<'a>,
    e: &Bound<'a>,
    rows: &[Pick],
) -> Result<Block<'a>, AllocError>
    requires { All (λ x. spec.CanRead reader.now x.row) rows.now }
    ensures { IfOk result (λ b. block_values b ≡ map (λ x. spec.bound_value reader.now.store.now reader.now.table.now x.row e.now) rows.now) }
{
    match e {
        Bound::Leaf(leaf) => leaf_block(alloc, reader, leaf, rows),
        Bound::Told(leaf, told) => told_block(alloc, reader, leaf, told, rows),
        Bound::Unary(op, a) => {
            let a = read_block(alloc, reader, a, rows)?;
            with_unary(alloc, *op, a)
        }
        Bound::Binary(op, a, b) => {
            let a = read_block(alloc, reader, a, rows)?;
            if let Some(b) = literal(b) {
                return with_literal(alloc, *op, a, b);
            }
            let b = read_block(alloc, reader, b, rows)?;
            with_block(alloc, *op, a, b)
        }
        Bound::Call1(f, a) => {
            let a = read_block(alloc, reader, a, rows)?;
            with_call1(alloc, *f, a)
        }
        Bound::Call2(f, a, b) => {
            let a = read_block(alloc, reader, a, rows)?;
            let b = read_block(alloc, reader, b, rows)?;
            with_call2(alloc, *f, a, b)
        }
    }
}
