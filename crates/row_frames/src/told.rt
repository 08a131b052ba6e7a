//! Parts of an expression of which each value hangs on the text of one property: they are worked out once for each distinct text.
ghost use Rattle.std.specs.Prelude.{◌≡◌, ◌<◌, ℕ, Option, IfOk, IfSome, length, map, slice_get, unwrap_or};
ghost use Rattle.edm_data.specs.NumberedTexts.{numbered_values};
ghost use Rattle.edm_data.specs.Worlds.{World};
ghost use Rattle.edm_values.specs.Values.{seen_value};
ghost use Rattle.apply_meaning.specs.Instances as meaning;
ghost use Rattle.row_frames.specs.Blocks.{unary};
ghost use Rattle.row_frames.specs.Frames as spec;
ghost use Rattle.row_frames.specs.Told.{operated, told_at};
ghost use Rattle.row_frames.specs.declared.tables.Table.{Table as Table'};

use crate::blocks::literal;
use crate::readers::{Bound, Leaf};
use crate::tables::{Pick, Roots, place_in};
use apply_ast::{BinOp, Fun1, Fun2, UnOp};
use apply_meaning::{binary, call1, call2, negation};
use edm_data::{NumberedTexts, PropertyValues};
use edm_values::{Seen, neg};
use std::alloc::{AllocError, Global};

/// What an operator or a function makes of one value, where its other operand is a literal.
#[derive(Drop)]
pub(crate) enum Operation<'a> {
    Unary(UnOp),
    /// The literal stands on the right.
    Binary(BinOp, Seen<'a>),
    /// The literal stands on the left.
    BinaryOf(BinOp, Seen<'a>),
    Call1(Fun1),
    /// The literal is the second argument.
    Call2(Fun2, Seen<'a>),
}

/// The values of a part of an expression, of which each hangs on the text of one property.
#[derive(Drop)]
pub(crate) struct TextValues<'a> {
    /// The number of the text of each entity that has the property.
    pub(crate) numbers: &'a [u32],
    /// The value of the part for each text.
    pub(crate) values: Vec<Seen<'a>>,
    /// Its value where there is no text.
    pub(crate) null: Seen<'a>,
}

/// What an operation makes of a value.
fn applied<'a>(o: &Operation<'a>, v: Seen<'a>) -> Seen<'a>
    ensures { seen_value result ≡ operated o.now (seen_value v.entry) }
{
    match o {
        Operation::Unary(UnOp::Neg) => neg(v),
        Operation::Unary(UnOp::Not) => negation(v),
        Operation::Binary(op, b) => binary(*op, v, *b),
        Operation::BinaryOf(op, a) => binary(*op, *a, v),
        Operation::Call1(f) => call1(*f, v),
        Operation::Call2(f, b) => call2(*f, v, *b),
    }
}

/// What an operation makes of each of the values.
fn all_applied<'a>(
    alloc: Global,
    o: &Operation<'a>,
    values: &[Seen<'a>],
) -> Result<Vec<Seen<'a>>, AllocError>
    ensures { IfOk result (λ vs. map (λ v. seen_value v) vs.items ≡ map (operated o.now) (map (λ v. seen_value v) values.now)) }
{
    let mut found = Vec::with_capacity(alloc, values.len())?;
    for value in values {
        found.push(applied(o, *value))?;
    }
    Ok(found)
}

/// The value for the text of a number.
#[inline(always)]
fn of_number<'a>(told: &TextValues<'a>, number: u32) -> Seen<'a>
    ensures { seen_value result ≡ unwrap_or (slice_get (map (λ v. seen_value v) told.now.values.items) number) (seen_value told.now.null) }
{
    match told.values.as_slice().get(number as usize) {
        Some(v) => *v,
        None => told.null,
    }
}

/// The value for the text of the entity at a place, and where there is none.
#[inline(always)]
fn of_entity<'a>(told: &TextValues<'a>, at: Option<u32>) -> Seen<'a>
    ensures { seen_value result ≡ told_at told.now at }
{
    let Some(at) = at else {
        return told.null;
    };
    match told.numbers.get(at as usize) {
        Some(number) => of_number(told, *number),
        None => told.null,
    }
}

/// The place of the entity that has the property that a leaf is.
#[inline(always)]
fn owner<'a>(leaf: &Leaf<'a>, place: u32) -> Option<u32>
    ensures { result ≡ spec.owner leaf.now place }
{
    match leaf {
        Leaf::Own(_) => Some(place),
        Leaf::Linked(links, _) => links.at(place),
        _ => None,
    }
}

/// The value in a row whose entity at the empty prefix stands at this place.
#[inline(always)]
pub(crate) fn told_in<'a>(leaf: &Leaf<'a>, told: &TextValues<'a>, place: u32) -> Seen<'a>
    ensures { seen_value result ≡ told_at told.now (spec.owner leaf.now place) }
{
    of_entity(told, owner(leaf, place))
}

/// The value in each of the rows.
pub(crate) fn told_values<'a>(
    alloc: Global,
    roots: &Roots,
    leaf: &Leaf<'a>,
    told: &TextValues<'a>,
    rows: &[Pick],
) -> Result<Vec<Seen<'a>>, AllocError>
    ensures { IfOk result (λ vs. map (λ v. seen_value v) vs.items ≡ map (λ x. told_at told.now (spec.owner leaf.now (spec.place_in roots.now x.row))) rows.now) }
{
    let mut found = Vec::with_capacity(alloc, rows.len())?;
    for row in rows {
        found.push(told_in(leaf, told, place_in(roots, row.row)))?;
    }
    Ok(found)
}

/// The texts themselves.
fn own_texts<'a>(
    alloc: Global,
    texts: &'a NumberedTexts,
    count: u32,
) -> Result<TextValues<'a>, AllocError>
    requires { count ≡ length texts.now.pool }
    ensures { IfOk result (λ d. (at : Option ℕ) → told_at d at ≡ spec.value_at (numbered_values texts.now) at) }
{
    let numbers = texts.numbers();
    let mut values = Vec::with_capacity(alloc, count as usize)?;
    for number in 0..count {
        values.push(Seen::Text(texts.text(number)))?;
    }
    Ok(TextValues {
        numbers,
        values,
        null: Seen::Null,
    })
}

/// The texts of a property and how many there are, where they are kept once each and are few beside so many rows.
fn few_texts<'a>(values: &PropertyValues<'a>, rows: usize) -> Option<(&'a NumberedTexts, u32)>
    ensures value { IfSome result (λ x. values.now ≡ numbered_values x.0.now) }
    ensures count { IfSome result (λ x. x.1 ≡ length x.0.now.pool) }
{
    let texts = values.texts()?;
    let count = u32::try_from(texts.count()).ok()?;
    if count as usize >= rows / 2 {
        return None;
    }
    Some((texts, count))
}

/// The same of the property that a leaf is.
fn leaf_texts<'a>(leaf: &Leaf<'a>, rows: usize) -> Option<(&'a NumberedTexts, u32)>
    ensures value { IfSome result (λ x. (w : World) (t : Table') (k : ℕ) → spec.leaf_value w t k leaf.now ≡ spec.value_at (numbered_values x.0.now) (spec.owner leaf.now (spec.place_in t.roots k))) }
    ensures count { IfSome result (λ x. x.1 ≡ length x.0.now.pool) }
{
    match leaf {
        Leaf::Own(values) => few_texts(values, rows),
        Leaf::Linked(_, values) => few_texts(values, rows),
        _ => None,
    }
}

/// The same values: those of a property whose texts are few beside so many rows are told by these.
fn told_leaf<'a>(alloc: Global, e: Bound<'a>, rows: usize) -> Result<Bound<'a>, AllocError>
    ensures { IfOk result (λ b. (w : World) (t : Table') (k : ℕ) → spec.bound_value w t k b ≡ spec.bound_value w t k e.entry) }
{
    match e {
        Bound::Leaf(leaf) => match leaf_texts(&leaf, rows) {
            Some((texts, count)) => Ok(Bound::Told(leaf, own_texts(alloc, texts, count)?)),
            None => Ok(Bound::Leaf(leaf)),
        },
        e => Ok(e),
    }
}

/// What an operation makes of what is told by a text.
fn told_by<'a>(
    alloc: Global,
    leaf: Leaf<'a>,
    told: TextValues<'a>,
    o: &Operation<'a>,
) -> Result<Bound<'a>, AllocError>
    ensures { IfOk result (λ b. (w : World) (t : Table') (k : ℕ) → spec.bound_value w t k b ≡ operated o.now (told_at told.entry (spec.owner leaf.entry (spec.place_in t.roots k)))) }
{
    let values = all_applied(alloc, o, told.values.as_slice())?;
    let null = applied(o, told.null);
    let numbers = told.numbers;
    Ok(Bound::Told(
        leaf,
        TextValues {
            numbers,
            values,
            null,
        },
    ))
}

/// A unary operation on what is bound.
pub(crate) fn unary_of<'a>(
    alloc: Global,
    op: UnOp,
    a: Bound<'a>,
    rows: usize,
) -> Result<Bound<'a>, AllocError>
    ensures { IfOk result (λ b. (w : World) (t : Table') (k : ℕ) → spec.bound_value w t k b ≡ unary op (spec.bound_value w t k a.entry)) }
{
    match told_leaf(alloc, a, rows)? {
        Bound::Told(leaf, told) => told_by(alloc, leaf, told, &Operation::Unary(op)),
        a => Ok(Bound::Unary(op, Box::new(alloc, a)?)),
    }
}

/// A function of one argument of what is bound.
pub(crate) fn call1_of<'a>(
    alloc: Global,
    f: Fun1,
    a: Bound<'a>,
    rows: usize,
) -> Result<Bound<'a>, AllocError>
    ensures { IfOk result (λ b. (w : World) (t : Table') (k : ℕ) → spec.bound_value w t k b ≡ meaning.call1 f (spec.bound_value w t k a.entry)) }
{
    match told_leaf(alloc, a, rows)? {
        Bound::Told(leaf, told) => told_by(alloc, leaf, told, &Operation::Call1(f)),
        a => Ok(Bound::Call1(f, Box::new(alloc, a)?)),
    }
}

/// A binary operation on two that are bound, row by row.
fn binary_node<'a>(
    alloc: Global,
    op: BinOp,
    a: Bound<'a>,
    b: Bound<'a>,
) -> Result<Bound<'a>, AllocError>
    ensures { IfOk result (λ e. (w : World) (t : Table') (k : ℕ) → spec.bound_value w t k e ≡ meaning.binary op (spec.bound_value w t k a.entry) (spec.bound_value w t k b.entry)) }
{
    let a = Box::new(alloc, a)?;
    Ok(Bound::Binary(op, a, Box::new(alloc, b)?))
}

/// A binary operation on two that are bound, of which the second is this literal.
fn binary_right<'a>(
    alloc: Global,
    op: BinOp,
    a: Bound<'a>,
    b: Bound<'a>,
    v: Seen<'a>,
    rows: usize,
) -> Result<Bound<'a>, AllocError>
    requires { (w : World) (t : Table') (k : ℕ) → spec.bound_value w t k b ≡ seen_value v }
    ensures { IfOk result (λ e. (w : World) (t : Table') (k : ℕ) → spec.bound_value w t k e ≡ meaning.binary op (spec.bound_value w t k a.entry) (spec.bound_value w t k b.entry)) }
{
    match told_leaf(alloc, a, rows)? {
        Bound::Told(leaf, told) => told_by(alloc, leaf, told, &Operation::Binary(op, v)),
        a => binary_node(alloc, op, a, b),
    }
}

/// The same where the first is this literal.
fn binary_left<'a>(
    alloc: Global,
    op: BinOp,
    a: Bound<'a>,
    b: Bound<'a>,
    v: Seen<'a>,
    rows: usize,
) -> Result<Bound<'a>, AllocError>
    requires { (w : World) (t : Table') (k : ℕ) → spec.bound_value w t k a ≡ seen_value v }
    ensures { IfOk result (λ e. (w : World) (t : Table') (k : ℕ) → spec.bound_value w t k e ≡ meaning.binary op (spec.bound_value w t k a.entry) (spec.bound_value w t k b.entry)) }
{
    match told_leaf(alloc, b, rows)? {
        Bound::Told(leaf, told) => told_by(alloc, leaf, told, &Operation::BinaryOf(op, v)),
        b => binary_node(alloc, op, a, b),
    }
}

/// A binary operation on two that are bound.
pub(crate) fn binary_of<'a>(
    alloc: Global,
    op: BinOp,
    a: Bound<'a>,
    b: Bound<'a>,
    rows: usize,
) -> Result<Bound<'a>, AllocError>
    ensures { IfOk result (λ e. (w : World) (t : Table') (k : ℕ) → spec.bound_value w t k e ≡ meaning.binary op (spec.bound_value w t k a.entry) (spec.bound_value w t k b.entry)) }
{
    if let Some(v) = literal(&b) {
        return binary_right(alloc, op, a, b, v, rows);
    }
    if let Some(v) = literal(&a) {
        return binary_left(alloc, op, a, b, v, rows);
    }
    binary_node(alloc, op, a, b)
}

/// A function of two that are bound, row by row.
fn call2_node<'a>(
    alloc: Global,
    f: Fun2,
    a: Bound<'a>,
    b: Bound<'a>,
) -> Result<Bound<'a>, AllocError>
    ensures { IfOk result (λ e. (w : World) (t : Table') (k : ℕ) → spec.bound_value w t k e ≡ meaning.call2 f (spec.bound_value w t k a.entry) (spec.bound_value w t k b.entry)) }
{
    let a = Box::new(alloc, a)?;
    Ok(Bound::Call2(f, a, Box::new(alloc, b)?))
}

/// A function of two that are bound.
pub(crate) fn call2_of<'a>(
    alloc: Global,
    f: Fun2,
    a: Bound<'a>,
    b: Bound<'a>,
    rows: usize,
) -> Result<Bound<'a>, AllocError>
    ensures { IfOk result (λ e. (w : World) (t : Table') (k : ℕ) → spec.bound_value w t k e ≡ meaning.call2 f (spec.bound_value w t k a.entry) (spec.bound_value w t k b.entry)) }
{
    let Some(v) = literal(&b) else {
        return call2_node(alloc, f, a, b);
    };
    match told_leaf(alloc, a, rows)? {
        Bound::Told(leaf, told) => told_by(alloc, leaf, told, &Operation::Call2(f, v)),
        a => call2_node(alloc, f, a, b),
    }
}
