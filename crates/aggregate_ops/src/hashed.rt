//! Key lists and values with their hashes, which are worked out once.
ghost use Rattle.std.specs.Prelude.{◌≡◌, ◌++◌, ◌<◌, All, IfOk, OnOk, length, map, slice_index_or};
ghost use Rattle.std.specs.Cmp.{partial_equiv_from_equiv};
ghost use Rattle.edm_values.specs.Keys.{hash_writes};
ghost use Rattle.edm_values.specs.declared.Value.{Value as Value'};
ghost use Rattle.edm_values.specs.Values.{same_value, seen_value};
ghost use Rattle.apply_meaning.specs.Meaning.{same_keys};
ghost use Rattle.aggregate_ops.specs.Columns.{are_there, kept_value, key_at, key_values};
ghost use Rattle.aggregate_ops.specs.Numbers.{key_number, key_writes, key_writes_alike, same_keys_equiv, same_value_equiv, value_number, value_writes, value_writes_alike};

use crate::sameness::{is_same, write_value};
use crate::values::{copies, copy};
use edm_values::{Seen, Value};
use std::alloc::{AllocError, Global};
use std::hash::{DefaultHasher, Hash, Hasher};
use std::marker::Model;

/// Where the values of a key list stand: in a list, in the list that it owns, or in columns, at a place.
#[derive(Drop)]
pub(crate) enum KeyValues<'a, 'v> {
    Listed(&'a [Value]),
    Owned(Vec<Value>),
    Placed(&'a [Vec<Seen<'v>>], usize),
}

/// How many values there are.
fn count_of(values: &KeyValues<'_, '_>) -> usize
    ensures { result ≡ length (key_values values.now) }
{
    match values {
        KeyValues::Listed(list) => list.len(),
        KeyValues::Owned(list) => list.len(),
        KeyValues::Placed(columns, _) => columns.len(),
    }
}

/// The value of a list at a place.
fn listed_at(list: &[Value], k: usize) -> Seen<'_>
    requires { k < length list.now }
    ensures { seen_value result ≡ slice_index_or list.now k Value'.Null }
{
    list[k].seen()
}

/// The value at a place of the column at a place.
fn column_at<'a>(columns: &[Vec<Seen<'a>>], k: usize, at: usize) -> Seen<'a>
    requires there { k < length columns.now }
    requires long { All (λ c. at < length c.items) columns.now }
    ensures { seen_value result ≡ slice_index_or (key_at columns.now at) k Value'.Null }
{
    columns[k][at]
}

/// The value at a place.
fn value_at<'s>(values: &'s KeyValues<'_, '_>, k: usize) -> Seen<'s>
    requires there { k < length (key_values values.now) }
    requires columns { are_there values.now }
    ensures { seen_value result ≡ slice_index_or (key_values values.now) k Value'.Null }
{
    match values {
        KeyValues::Listed(list) => listed_at(list, k),
        KeyValues::Owned(list) => listed_at(list.as_slice(), k),
        KeyValues::Placed(columns, at) => column_at(columns, k, *at),
    }
}

/// Whether the key lists are the same.
fn are_same(a: &KeyValues<'_, '_>, b: &KeyValues<'_, '_>) -> bool
    requires left { are_there a.now }
    requires right { are_there b.now }
    ensures { result ≡ same_keys (key_values a.now) (key_values b.now) }
{
    let count = count_of(a);
    if count != count_of(b) {
        return false;
    }
    for k in 0..count {
        if !is_same(value_at(a, k), value_at(b, k)) {
            return false;
        }
    }
    true
}

/// The number of a key list.
fn number_of(values: &KeyValues<'_, '_>) -> u64
    requires { are_there values.now }
    ensures { result ≡ key_number (key_values values.now) }
{
    let mut state = DefaultHasher::new();
    for k in 0..count_of(values) {
        write_value(value_at(values, k), &mut state);
    }
    state.finish()
}

/// The number of the key list of the columns' values at a place, counted from 0.
pub(crate) fn number_at(columns: &[Vec<Seen<'_>>], at: usize) -> u64
    requires { All (λ c. at < length c.items) columns.now }
    ensures { result ≡ key_number (key_at columns.now at) }
{
    number_of(&KeyValues::Placed(columns, at))
}

/// A key list and its number, a SipHash of its values. Lists of two numbers are two without a look at their values.
#[derive(Drop)]
pub struct HashedKey<'a, 'v> {
    number: u64,
    values: KeyValues<'a, 'v>,
}

impl<'a, 'v> Model for HashedKey<'a, 'v> {
    ghost use Rattle.std.specs.Prelude.{◌≡◌, List};
    ghost use Rattle.edm_values.specs.declared.Value.{Value as Value'};
    ghost use Rattle.aggregate_ops.specs.Columns.{are_there, key_values};
    ghost use Rattle.aggregate_ops.specs.Numbers.{key_number};

    ghost Value = { List Value' };

    ghost view = { λ k. key_values k.values };

    ghost invariant = { λ k. are_there k.values × (k.number ≡ key_number (key_values k.values)) };
}

impl<'a, 'v> HashedKey<'a, 'v> {
    /// The key list whose values stand there.
    fn of_values(values: KeyValues<'a, 'v>) -> HashedKey<'a, 'v>
        requires { are_there values }
        ensures { result ≡ key_values values.entry }
    {
        HashedKey {
            number: number_of(&values),
            values,
        }
    }

    /// The key list of these values.
    pub fn of(values: &'a [Value]) -> HashedKey<'a, 'v>
        ensures value { result ≡ values.now }
    {
        HashedKey::of_values(KeyValues::Listed(values))
    }

    /// The key list of the columns' values at a place, counted from 0, whose number is known.
    pub(crate) fn numbered(
        columns: &'a [Vec<Seen<'v>>],
        at: usize,
        number: u64,
    ) -> HashedKey<'a, 'v>
        requires there { All (λ c. at < length c.items) columns.now }
        requires number { number ≡ key_number (key_at columns.now at) }
        ensures { result ≡ key_at columns.now at }
    {
        HashedKey {
            number,
            values: KeyValues::Placed(columns, at),
        }
    }

    /// The key list that owns these values.
    pub(crate) fn owned(values: Vec<Value>) -> HashedKey<'a, 'v>
        ensures { result ≡ values.items }
    {
        HashedKey::of_values(KeyValues::Owned(values))
    }

    /// Puts copies of the values behind those of a list.
    pub(crate) fn put_values(
        &self,
        alloc: Global,
        values: &mut Vec<Value>,
    ) -> Result<(), AllocError>
        ensures { OnOk result (values.new.items ≡ values.old.items ++ self.now) }
    {
        for k in 0..count_of(&self.values) {
            values.push(value_at(&self.values, k).own(alloc)?)?;
        }
        Ok(())
    }

    /// The same key list, which is copied where it is owned.
    pub(crate) fn again(&self, alloc: Global) -> Result<HashedKey<'a, 'v>, AllocError>
        ensures { IfOk result (λ key. key ≡ self.now) }
    {
        let values = match &self.values {
            KeyValues::Listed(values) => KeyValues::Listed(*values),
            KeyValues::Owned(values) => KeyValues::Owned(copies(alloc, values.as_slice())?),
            KeyValues::Placed(columns, at) => KeyValues::Placed(*columns, *at),
        };
        Ok(HashedKey {
            number: self.number,
            values,
        })
    }
}

impl<'a, 'v> PartialEq for HashedKey<'a, 'v> {
    ghost eq = { same_keys };

    ghost laws = { partial_equiv_from_equiv same_keys_equiv };

    fn eq(&self, other: &HashedKey<'a, 'v>) -> bool {
        self.number == other.number && are_same(&self.values, &other.values)
    }
}

impl<'a, 'v> Eq for HashedKey<'a, 'v> {
    ghost laws = { same_keys_equiv };
}

impl<'a, 'v> Hash for HashedKey<'a, 'v> {
    ghost hash_input = { key_writes };

    ghost respects_eq = { key_writes_alike };

    fn hash<H: Hasher>(&self, state: &mut H) {
        state.write_u64(self.number);
    }
}

/// The key lists with their numbers.
pub fn hashed_keys<'a>(
    alloc: Global,
    lists: &'a [Vec<Value>],
) -> Result<Vec<HashedKey<'a, 'a>>, AllocError>
    ensures value { IfOk result (λ keys. keys.items ≡ map (λ k. k.items) lists.now) }
{
    let mut keys = Vec::with_capacity(alloc, lists.len())?;
    for list in lists {
        keys.push(HashedKey::of(list.as_slice()))?;
    }
    Ok(keys)
}

/// A value that is borrowed where it stands, or owned.
#[derive(Drop)]
pub(crate) enum KeptValue<'a> {
    Seen(Seen<'a>),
    Owned(Value),
}

/// The value that is kept.
fn kept_seen<'s>(value: &'s KeptValue<'_>) -> Seen<'s>
    ensures { seen_value result ≡ kept_value value.now }
{
    match value {
        KeptValue::Seen(value) => *value,
        KeptValue::Owned(value) => value.seen(),
    }
}

/// A value and its number, a SipHash of it. Values of two numbers are two.
#[derive(Drop)]
pub struct HashedValue<'a> {
    number: u64,
    value: KeptValue<'a>,
}

impl<'a> Model for HashedValue<'a> {
    ghost use Rattle.std.specs.Prelude.{◌≡◌};
    ghost use Rattle.edm_values.specs.declared.Value.{Value as Value'};
    ghost use Rattle.aggregate_ops.specs.Columns.{kept_value};
    ghost use Rattle.aggregate_ops.specs.Numbers.{value_number};

    ghost Value = { Value' };

    ghost view = { λ v. kept_value v.value };

    ghost invariant = { λ v. v.number ≡ value_number (kept_value v.value) };
}

/// The number of a value.
fn number_of_value(value: Seen<'_>) -> u64
    ensures { result ≡ value_number (seen_value value.entry) }
{
    let mut state = DefaultHasher::new();
    write_value(value, &mut state);
    state.finish()
}

impl<'a> HashedValue<'a> {
    /// The value with its number.
    pub fn of(value: &'a Value) -> HashedValue<'a>
        ensures value { result ≡ value.now }
    {
        HashedValue::of_seen(value.seen())
    }

    /// The value that borrows its text, with its number.
    pub fn of_seen(value: Seen<'a>) -> HashedValue<'a>
        ensures value { result ≡ seen_value value.entry }
    {
        HashedValue {
            number: number_of_value(value),
            value: KeptValue::Seen(value),
        }
    }

    /// The value, owned, with its number.
    pub(crate) fn owned(value: Value) -> HashedValue<'a>
        ensures { result ≡ value }
    {
        HashedValue {
            number: number_of_value(value.seen()),
            value: KeptValue::Owned(value),
        }
    }

    /// The value.
    pub fn value(&self) -> Seen<'_>
        ensures value { seen_value result ≡ self.now }
    {
        kept_seen(&self.value)
    }

    /// The same value, which is copied where it is owned.
    pub(crate) fn again(&self, alloc: Global) -> Result<HashedValue<'a>, AllocError>
        ensures { IfOk result (λ v. v ≡ self.now) }
    {
        let value = match &self.value {
            KeptValue::Seen(value) => KeptValue::Seen(*value),
            KeptValue::Owned(value) => KeptValue::Owned(copy(alloc, value)?),
        };
        Ok(HashedValue {
            number: self.number,
            value,
        })
    }
}

impl<'a> PartialEq for HashedValue<'a> {
    ghost eq = { same_value };

    ghost laws = { partial_equiv_from_equiv same_value_equiv };

    fn eq(&self, other: &HashedValue<'a>) -> bool {
        self.number == other.number && is_same(self.value(), other.value())
    }
}

impl<'a> Eq for HashedValue<'a> {
    ghost laws = { same_value_equiv };
}

impl<'a> Hash for HashedValue<'a> {
    ghost hash_input = { value_writes };

    ghost respects_eq = { value_writes_alike };

    fn hash<H: Hasher>(&self, state: &mut H) {
        state.write_u64(self.number);
    }
}

/// The values with their numbers.
pub fn hashed_values<'a>(
    alloc: Global,
    values: &'a [Value],
) -> Result<Vec<HashedValue<'a>>, AllocError>
    ensures value { IfOk result (λ hashed. hashed.items ≡ values.now) }
{
    let mut hashed = Vec::with_capacity(alloc, values.len())?;
    for value in values {
        hashed.push(HashedValue::of(value))?;
    }
    Ok(hashed)
}
