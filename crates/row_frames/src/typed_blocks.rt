//! Blocks of values that are all of one kind, and operators on these beside an integer: each in a loop of its own. A loop gives up
//! where a result is past its range, or where it cannot tell, and then the operator is applied value by value.
ghost use Rattle.std.specs.Prelude.{◌≡◌, ◌*ℤ◌, ◌^◌, ℤ, pos, IfOk, IfSome, IsTrue, length, map};
ghost use Rattle.edm_values.specs.declared.Value.{Value as Value'};
ghost use Rattle.edm_values.specs.Values.{both, either, is_number, minus, negation, plus, seen_value, tested, times};
ghost use Rattle.apply_meaning.specs.Instances as meaning;
ghost use Rattle.row_frames.specs.Blocks.{answer_to as spec_answer_to, block_values, paired, unary};

use apply_ast::{BinOp, UnOp};
use edm_values::{Dec, Seen};
use std::alloc::{AllocError, Global};
use std::cmp::Ordering;

/// The values in some rows: all of them integers, decimals or Booleans, or any values.
#[derive(Drop)]
pub(crate) enum Block<'a> {
    Ints(Vec<i64>),
    Decs(Vec<Dec>),
    Truths(Vec<bool>),
    Any(Vec<Seen<'a>>),
}

/// What a comparison answers where the order of its operands is less, equal or greater.
#[derive(Clone, Copy, Drop)]
pub(crate) struct Test {
    less: bool,
    equal: bool,
    greater: bool,
}

/// What the comparison answers that an operator is.
fn test_of(op: BinOp) -> Option<Test>
    ensures { IfSome result (λ t. (a : Value') (y : ℤ) → IsTrue (is_number a) → meaning.binary op a (Value'.Int y) ≡ tested (spec_answer_to t) a (Value'.Int y)) }
{
    match op {
        BinOp::Eq => Some(Test {
            less: false,
            equal: true,
            greater: false,
        }),
        BinOp::Ne => Some(Test {
            less: true,
            equal: false,
            greater: true,
        }),
        BinOp::Gt => Some(Test {
            less: false,
            equal: false,
            greater: true,
        }),
        BinOp::Ge => Some(Test {
            less: false,
            equal: true,
            greater: true,
        }),
        BinOp::Lt => Some(Test {
            less: true,
            equal: false,
            greater: false,
        }),
        BinOp::Le => Some(Test {
            less: true,
            equal: true,
            greater: false,
        }),
        _ => None,
    }
}

/// What a comparison answers to an order.
#[inline(always)]
fn answer_to(test: Test, order: Ordering) -> bool
    ensures { result ≡ spec_answer_to test order }
{
    match order {
        Ordering::Less => test.less,
        Ordering::Equal => test.equal,
        Ordering::Greater => test.greater,
    }
}

/// The power of ten of a scale.
#[inline(always)]
fn power(scale: u8) -> Option<i64>
    ensures { IfSome result (λ p. p ≡ pos (10 ^ scale)) }
{
    match scale {
        0 => Some(1),
        1 => Some(10),
        2 => Some(100),
        3 => Some(1_000),
        4 => Some(10_000),
        5 => Some(100_000),
        6 => Some(1_000_000),
        7 => Some(10_000_000),
        8 => Some(100_000_000),
        9 => Some(1_000_000_000),
        _ => None,
    }
}

/// The number times ten to the power of a scale, where that fits 64 bits.
#[inline(always)]
fn scaled(n: i64, scale: u8) -> Option<i64>
    ensures { IfSome result (λ m. m ≡ n *ℤ pos (10 ^ scale)) }
{
    match power(scale) {
        Some(power) => n.checked_mul(power),
        None => None,
    }
}

/// The sum of a decimal and an integer.
#[inline(always)]
fn decimal_sum(x: Dec, y: i64) -> Option<Dec>
    ensures { IfSome result (λ d. Value'.Dec d ≡ plus (Value'.Dec x) (Value'.Int y)) }
{
    let raised = scaled(y, x.scale())?;
    let m = x.mantissa().checked_add(raised)?;
    Dec::new(m, x.scale())
}

/// The product of a decimal and an integer.
#[inline(always)]
fn decimal_product(x: Dec, y: i64) -> Option<Dec>
    ensures { IfSome result (λ d. Value'.Dec d ≡ times (Value'.Dec x) (Value'.Int y)) }
{
    let m = x.mantissa().checked_mul(y)?;
    Dec::new(m, x.scale())
}

/// What a comparison of a decimal with an integer answers.
#[inline(always)]
fn decimal_answer(test: Test, x: Dec, y: i64) -> Option<bool>
    ensures { IfSome result (λ b. Value'.Bool b ≡ tested (spec_answer_to test) (Value'.Dec x) (Value'.Int y)) }
{
    let raised = scaled(y, x.scale())?;
    Some(answer_to(test, x.mantissa().cmp(&raised)))
}

/// The sum of two integers.
#[inline(always)]
fn int_sum(x: &i64, y: i64) -> Option<i64>
    ensures { IfSome result (λ n. Value'.Int n ≡ plus (Value'.Int x.now) (Value'.Int y)) }
{
    x.checked_add(y)
}

/// The difference of two integers.
#[inline(always)]
fn int_difference(x: &i64, y: i64) -> Option<i64>
    ensures { IfSome result (λ n. Value'.Int n ≡ minus (Value'.Int x.now) (Value'.Int y)) }
{
    x.checked_sub(y)
}

/// The product of two integers.
#[inline(always)]
fn int_product(x: &i64, y: i64) -> Option<i64>
    ensures { IfSome result (λ n. Value'.Int n ≡ times (Value'.Int x.now) (Value'.Int y)) }
{
    x.checked_mul(y)
}

/// What a comparison of two integers answers.
#[inline(always)]
fn int_answer(test: Test, x: &i64, y: i64) -> bool
    ensures { Value'.Bool result ≡ tested (spec_answer_to test) (Value'.Int x.now) (Value'.Int y) }
{
    answer_to(test, x.cmp(&y))
}

/// The sums of the integers and one that is the same for all.
fn ints_sum<'a>(alloc: Global, list: &[i64], y: i64) -> Result<Option<Block<'a>>, AllocError>
    ensures { IfOk result (λ o. IfSome o (λ b. block_values b ≡ map (λ a. plus a (Value'.Int y)) (map Value'.Int list.now))) }
{
    let mut found = Vec::with_capacity(alloc, list.len())?;
    for x in list {
        match int_sum(x, y) {
            Some(made) => found.push(made)?,
            None => return Ok(None),
        }
    }
    Ok(Some(Block::Ints(found)))
}

/// The differences of the integers and one that is the same for all.
fn ints_difference<'a>(alloc: Global, list: &[i64], y: i64) -> Result<Option<Block<'a>>, AllocError>
    ensures { IfOk result (λ o. IfSome o (λ b. block_values b ≡ map (λ a. minus a (Value'.Int y)) (map Value'.Int list.now))) }
{
    let mut found = Vec::with_capacity(alloc, list.len())?;
    for x in list {
        match int_difference(x, y) {
            Some(made) => found.push(made)?,
            None => return Ok(None),
        }
    }
    Ok(Some(Block::Ints(found)))
}

/// The products of the integers and one that is the same for all.
fn ints_product<'a>(alloc: Global, list: &[i64], y: i64) -> Result<Option<Block<'a>>, AllocError>
    ensures { IfOk result (λ o. IfSome o (λ b. block_values b ≡ map (λ a. times a (Value'.Int y)) (map Value'.Int list.now))) }
{
    let mut found = Vec::with_capacity(alloc, list.len())?;
    for x in list {
        match int_product(x, y) {
            Some(made) => found.push(made)?,
            None => return Ok(None),
        }
    }
    Ok(Some(Block::Ints(found)))
}

/// What a comparison of the integers with one that is the same for all answers.
fn ints_answers<'a>(
    alloc: Global,
    list: &[i64],
    test: Test,
    y: i64,
) -> Result<Option<Block<'a>>, AllocError>
    ensures { IfOk result (λ o. IfSome o (λ b. block_values b ≡ map (λ a. tested (spec_answer_to test) a (Value'.Int y)) (map Value'.Int list.now))) }
{
    let mut found = Vec::with_capacity(alloc, list.len())?;
    for x in list {
        found.push(int_answer(test, x, y))?;
    }
    Ok(Some(Block::Truths(found)))
}

/// The sums of the decimals and an integer that is the same for all.
fn decs_sum<'a>(alloc: Global, list: &[Dec], y: i64) -> Result<Option<Block<'a>>, AllocError>
    ensures { IfOk result (λ o. IfSome o (λ b. block_values b ≡ map (λ a. plus a (Value'.Int y)) (map Value'.Dec list.now))) }
{
    let mut found = Vec::with_capacity(alloc, list.len())?;
    for x in list {
        match decimal_sum(*x, y) {
            Some(made) => found.push(made)?,
            None => return Ok(None),
        }
    }
    Ok(Some(Block::Decs(found)))
}

/// The products of the decimals and an integer that is the same for all.
fn decs_product<'a>(alloc: Global, list: &[Dec], y: i64) -> Result<Option<Block<'a>>, AllocError>
    ensures { IfOk result (λ o. IfSome o (λ b. block_values b ≡ map (λ a. times a (Value'.Int y)) (map Value'.Dec list.now))) }
{
    let mut found = Vec::with_capacity(alloc, list.len())?;
    for x in list {
        match decimal_product(*x, y) {
            Some(made) => found.push(made)?,
            None => return Ok(None),
        }
    }
    Ok(Some(Block::Decs(found)))
}

/// What a comparison of the decimals with an integer that is the same for all answers.
fn decs_answers<'a>(
    alloc: Global,
    list: &[Dec],
    test: Test,
    y: i64,
) -> Result<Option<Block<'a>>, AllocError>
    ensures { IfOk result (λ o. IfSome o (λ b. block_values b ≡ map (λ a. tested (spec_answer_to test) a (Value'.Int y)) (map Value'.Dec list.now))) }
{
    let mut found = Vec::with_capacity(alloc, list.len())?;
    for x in list {
        match decimal_answer(test, *x, y) {
            Some(made) => found.push(made)?,
            None => return Ok(None),
        }
    }
    Ok(Some(Block::Truths(found)))
}

/// An operator on integers and one that is the same for all.
fn ints_with<'a>(
    alloc: Global,
    op: BinOp,
    list: &[i64],
    y: i64,
) -> Result<Option<Block<'a>>, AllocError>
    ensures { IfOk result (λ o. IfSome o (λ b. block_values b ≡ map (λ a. meaning.binary op a (Value'.Int y)) (map Value'.Int list.now))) }
{
    match op {
        BinOp::Add => ints_sum(alloc, list, y),
        BinOp::Sub => ints_difference(alloc, list, y),
        BinOp::Mul => ints_product(alloc, list, y),
        _ => match test_of(op) {
            Some(test) => ints_answers(alloc, list, test, y),
            None => Ok(None),
        },
    }
}

/// An operator on decimals and an integer that is the same for all.
fn decs_with<'a>(
    alloc: Global,
    op: BinOp,
    list: &[Dec],
    y: i64,
) -> Result<Option<Block<'a>>, AllocError>
    ensures { IfOk result (λ o. IfSome o (λ b. block_values b ≡ map (λ a. meaning.binary op a (Value'.Int y)) (map Value'.Dec list.now))) }
{
    match op {
        BinOp::Add => decs_sum(alloc, list, y),
        BinOp::Sub => match y.checked_neg() {
            Some(n) => decs_sum(alloc, list, n),
            None => Ok(None),
        },
        BinOp::Mul => decs_product(alloc, list, y),
        _ => match test_of(op) {
            Some(test) => decs_answers(alloc, list, test, y),
            None => Ok(None),
        },
    }
}

/// An operator on the values of a block and an integer that is the same for all, where there is a loop for these.
pub(crate) fn typed_with<'a>(
    alloc: Global,
    op: BinOp,
    block: &Block<'a>,
    y: i64,
) -> Result<Option<Block<'a>>, AllocError>
    ensures { IfOk result (λ o. IfSome o (λ b. block_values b ≡ map (λ a. meaning.binary op a (Value'.Int y)) (block_values block.now))) }
{
    match block {
        Block::Ints(list) => ints_with(alloc, op, list.as_slice(), y),
        Block::Decs(list) => decs_with(alloc, op, list.as_slice(), y),
        _ => Ok(None),
    }
}

/// `and`
#[inline(always)]
fn both_true(x: bool, y: bool) -> bool
    ensures { Value'.Bool result ≡ both (Value'.Bool x) (Value'.Bool y) }
{
    x && y
}

/// `or`
#[inline(always)]
fn one_true(x: bool, y: bool) -> bool
    ensures { Value'.Bool result ≡ either (Value'.Bool x) (Value'.Bool y) }
{
    x || y
}

/// `and` of the Booleans of two lists.
fn both_truths<'a>(
    alloc: Global,
    list: &[bool],
    others: &[bool],
) -> Result<Option<Block<'a>>, AllocError>
    requires { length list.now ≡ length others.now }
    ensures { IfOk result (λ o. IfSome o (λ b. block_values b ≡ paired both (map Value'.Bool list.now) (map Value'.Bool others.now))) }
{
    let mut found = Vec::with_capacity(alloc, list.len())?;
    for (k, x) in list.iter().enumerate() {
        found.push(both_true(*x, others[k]))?;
    }
    Ok(Some(Block::Truths(found)))
}

/// `or` of the Booleans of two lists.
fn either_truth<'a>(
    alloc: Global,
    list: &[bool],
    others: &[bool],
) -> Result<Option<Block<'a>>, AllocError>
    requires { length list.now ≡ length others.now }
    ensures { IfOk result (λ o. IfSome o (λ b. block_values b ≡ paired either (map Value'.Bool list.now) (map Value'.Bool others.now))) }
{
    let mut found = Vec::with_capacity(alloc, list.len())?;
    for (k, x) in list.iter().enumerate() {
        found.push(one_true(*x, others[k]))?;
    }
    Ok(Some(Block::Truths(found)))
}

/// An operator on the Booleans of two lists, place by place, where there is a loop for it.
fn truths_paired<'a>(
    alloc: Global,
    op: BinOp,
    list: &[bool],
    others: &[bool],
) -> Result<Option<Block<'a>>, AllocError>
    requires { length list.now ≡ length others.now }
    ensures { IfOk result (λ o. IfSome o (λ b. block_values b ≡ paired (meaning.binary op) (map Value'.Bool list.now) (map Value'.Bool others.now))) }
{
    match op {
        BinOp::And => both_truths(alloc, list, others),
        BinOp::Or => either_truth(alloc, list, others),
        _ => Ok(None),
    }
}

/// An operator on the values of two blocks, place by place, where there is a loop for these.
pub(crate) fn typed_paired<'a>(
    alloc: Global,
    op: BinOp,
    block: &Block<'a>,
    other: &Block<'a>,
) -> Result<Option<Block<'a>>, AllocError>
    requires { length (block_values block.now) ≡ length (block_values other.now) }
    ensures { IfOk result (λ o. IfSome o (λ b. block_values b ≡ paired (meaning.binary op) (block_values block.now) (block_values other.now))) }
{
    match block {
        Block::Truths(list) => match other {
            Block::Truths(others) => {
                truths_paired(alloc, op, list.as_slice(), others.as_slice())
            }
            _ => Ok(None),
        },
        _ => Ok(None),
    }
}

/// `not` of the Booleans.
fn other_truths<'a>(alloc: Global, list: &[bool]) -> Result<Option<Block<'a>>, AllocError>
    ensures { IfOk result (λ o. IfSome o (λ b. block_values b ≡ map negation (map Value'.Bool list.now))) }
{
    let mut found = Vec::with_capacity(alloc, list.len())?;
    for x in list {
        found.push(!*x)?;
    }
    Ok(Some(Block::Truths(found)))
}

/// A unary operator on the values of a block, where there is a loop for these.
pub(crate) fn typed_unary<'a>(
    alloc: Global,
    op: UnOp,
    block: &Block<'a>,
) -> Result<Option<Block<'a>>, AllocError>
    ensures { IfOk result (λ o. IfSome o (λ b. block_values b ≡ map (unary op) (block_values block.now))) }
{
    match op {
        UnOp::Neg => Ok(None),
        UnOp::Not => match block {
            Block::Truths(list) => other_truths(alloc, list.as_slice()),
            _ => Ok(None),
        },
    }
}
