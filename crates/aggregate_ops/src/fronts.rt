//! Groups by the first values of their keys, made from the groups by all of them.
//!
//! The groups are numbered by the first values of their keys, one value more at a time: two groups have one number where they had
//! one before and the next values of their keys are the same, so each value of a key is looked up once. A number's groups have
//! their places put together: each row takes the number of its group, and the rows are put at their numbers in their order. So
//! each group's places ascend, and no row's key list is read again. A key is shared with the group that had it first.
ghost use Rattle.std.specs.Prelude.{◌≡◌, ℕ, ◌+◌, ◌-◌, ◌<◌, ◌≤◌, ◌⊎◌, List, [], All, length, map, take, slice_index, IfOk, OnOk};
ghost use Rattle.std.specs.List.{range_with_len};
ghost use Rattle.edm_values.specs.declared.Value.{Value as Value'};
ghost use Rattle.par_stages.specs.Placed.{placed};
ghost use Rattle.aggregate_ops.specs.Fronts.{AreFronts, AreGroupNumbers, AreGroupsOf, AreRowNumbers, IsApart, filled, fronts_of, key_at, with_first};
ghost use Rattle.aggregate_ops.specs.KeyTables.{groups_of};

use crate::groups::Group;
use crate::key_steps::KeyStep;
use crate::seeds::Seed;
use indexmap::IndexSet;
use std::alloc::{AllocError, Global};

/// Groups that are numbered by the first values of their keys: the number of each group, and the first group of each number.
#[derive(Drop)]
pub(crate) struct Fronts {
    numbers: Vec<usize>,
    firsts: Vec<usize>,
}

/// Groups that are numbered by no value: all have one number.
fn no_fronts(alloc: Global, groups: &[Group]) -> Result<Fronts, AllocError>
    ensures { IfOk result (λ f. AreFronts 0 groups.now f.firsts.items f.numbers.items) }
{
    let mut firsts = Vec::new(alloc);
    if groups.is_empty() {
        let numbers = Vec::new(alloc);
        return Ok(Fronts { numbers, firsts });
    }
    firsts.push(0)?;
    let numbers = vec![in alloc; 0; groups.len()]?;
    Ok(Fronts { numbers, firsts })
}

/// Puts a group behind the first ones, where it is one.
fn put_first(firsts: &mut Vec<usize>, is_first: bool, i: usize) -> Result<(), AllocError>
    ensures { OnOk result (firsts.new.items ≡ with_first is_first firsts.old.items i) }
{
    if is_first {
        firsts.push(i)?;
    }
    Ok(())
}

/// The groups numbered by one value more than before.
fn next_fronts(
    alloc: Global,
    groups: &[Group],
    before: &[usize],
    front: usize,
    seed: Seed,
) -> Result<Fronts, AllocError>
    requires long { All (λ g. front < length g.0) groups.now }
    requires before { AreGroupNumbers front groups.now (fronts_of front groups.now) before.now }
    ensures { IfOk result (λ f. AreFronts (front + 1) groups.now f.firsts.items f.numbers.items) }
{
    let mut steps = IndexSet::with_hasher(alloc, seed);
    let mut numbers = Vec::with_capacity(alloc, groups.len())?;
    let mut firsts = Vec::new(alloc);
    for (i, group) in groups.iter().enumerate() {
        let step = KeyStep::of(before[i], group.value(front));
        let (number, is_new) = steps.insert_full(step)?;
        put_first(&mut firsts, is_new, i)?;
        numbers.push(number)?;
    }
    Ok(Fronts { numbers, firsts })
}

/// The groups numbered by so many values.
fn fronts_to(
    alloc: Global,
    groups: &[Group],
    front: usize,
    seed: Seed,
) -> Result<Fronts, AllocError>
    requires long { All (λ g. front ≤ length g.0) groups.now }
    ensures { IfOk result (λ f. AreFronts front groups.now f.firsts.items f.numbers.items) }
{
    let mut fronts = no_fronts(alloc, groups)?;
    for at in 0..front {
        fronts = next_fronts(alloc, groups, &fronts.numbers, at, seed)?;
    }
    Ok(fronts)
}

/// The groups numbered for the next level, where there is one: by one value more than before.
fn fronts_behind(
    alloc: Global,
    groups: &[Group],
    fronts: Fronts,
    front: usize,
    width: usize,
    seed: Seed,
) -> Result<Fronts, AllocError>
    requires within { front < width }
    requires long { All (λ g. width ≤ length g.0) groups.now }
    requires fronts { AreFronts front groups.now fronts.firsts.items fronts.numbers.items }
    ensures { IfOk result (λ f. front + 1 < width → AreFronts (front + 1) groups.now f.firsts.items f.numbers.items) }
{
    if front + 1 == width {
        return Ok(fronts);
    }
    next_fronts(alloc, groups, &fronts.numbers, front, seed)
}

/// Writes a number at each of these places.
fn put_number(places: &[usize], number: usize, numbers: &mut [usize])
    requires { All (λ p. p < length numbers.old) places.now }
    ensures put { (t : ℕ) → t < length places.now → slice_index numbers.new (slice_index places.now t) ≡ number }
    ensures others { (r : ℕ) → (slice_index numbers.new r ≡ slice_index numbers.old r) ⊎ ((t : ℕ) × (t < length places.now) × (slice_index places.now t ≡ r) × (slice_index numbers.new r ≡ number)) }
{
    for place in places {
        numbers[*place] = number;
    }
}

/// Writes at each row the number of the group that has its place.
fn put_numbers(groups: &[Group], numbers: &[usize], found: &mut [usize])
    requires sizes { length numbers.now ≡ length groups.now }
    requires places { All (λ g. All (λ p. p < length found.old) g.1) groups.now }
    ensures { (n : ℕ) → (keys fronts : List (List Value')) → AreGroupsOf (length found.old) keys groups.now → AreGroupNumbers n groups.now fronts numbers.now → AreRowNumbers n keys fronts found.new }
{
    for (i, group) in groups.iter().enumerate() {
        put_number(group.places(), numbers[i], found);
    }
}

/// The number of each row: that of the group that has its place.
fn row_numbers(
    alloc: Global,
    groups: &[Group],
    numbers: &[usize],
    rows: usize,
) -> Result<Vec<usize>, AllocError>
    requires sizes { length numbers.now ≡ length groups.now }
    requires places { All (λ g. All (λ p. p < rows) g.1) groups.now }
    ensures { IfOk result (λ found. (n : ℕ) → (keys fronts : List (List Value')) → AreGroupsOf rows keys groups.now → AreGroupNumbers n groups.now fronts numbers.now → AreRowNumbers n keys fronts found.items) }
{
    let mut found = vec![in alloc; 0; rows]?;
    put_numbers(groups, numbers, &mut found);
    Ok(found)
}

/// A group without places for each of these groups, by the first values of its key.
fn begun_groups(
    alloc: Global,
    groups: &[Group],
    firsts: &[usize],
    front: usize,
) -> Result<Vec<Group>, AllocError>
    requires there { All (λ i. i < length groups.now) firsts.now }
    requires long { All (λ g. front ≤ length g.0) groups.now }
    ensures { IfOk result (λ begun. begun.items ≡ filled (map (λ i. take front (key_at groups.now i)) firsts.now) []) }
{
    let mut begun = Vec::with_capacity(alloc, firsts.len())?;
    for first in firsts {
        begun.push(groups[*first].begun(alloc, front)?)?;
    }
    Ok(begun)
}

/// The groups with each row at its number, in the order of the rows.
fn put_rows(mut groups: Vec<Group>, numbers: &[usize]) -> Result<Vec<Group>, AllocError>
    requires { All (λ j. j < length groups.items) numbers.now }
    ensures { IfOk result (λ found. (n : ℕ) → (keys fronts : List (List Value')) → IsApart fronts → groups.items ≡ filled fronts [] → AreRowNumbers n keys fronts numbers.now → found.items ≡ filled fronts (map (take n) keys)) }
{
    for (row, number) in numbers.iter().enumerate() {
        groups[*number].add(row)?;
    }
    Ok(groups)
}

/// The groups of so many rows by the first values of their keys, by which their groups by all of these are numbered.
fn level(
    alloc: Global,
    groups: &[Group],
    fronts: &Fronts,
    front: usize,
    rows: usize,
) -> Result<Vec<Group>, AllocError>
    requires long { All (λ g. front ≤ length g.0) groups.now }
    requires groups { (keys : List (List Value')) × AreGroupsOf rows keys groups.now }
    requires fronts { AreFronts front groups.now fronts.now.firsts.items fronts.now.numbers.items }
    ensures { IfOk result (λ found. (keys : List (List Value')) → AreGroupsOf rows keys groups.now → found.items ≡ groups_of (placed 0 (map (take front) keys))) }
{
    let numbers = row_numbers(alloc, groups, &fronts.numbers, rows)?;
    let begun = begun_groups(alloc, groups, &fronts.firsts, front)?;
    put_rows(begun, &numbers)
}

/// The groups of so many rows by the first values of their keys, made from their groups by all of these.
pub(crate) fn by_front(
    alloc: Global,
    groups: &[Group],
    front: usize,
    rows: usize,
    seed: Seed,
) -> Result<Vec<Group>, AllocError>
    requires long { All (λ g. front ≤ length g.0) groups.now }
    requires groups { (keys : List (List Value')) × AreGroupsOf rows keys groups.now }
    ensures { IfOk result (λ found. (keys : List (List Value')) → AreGroupsOf rows keys groups.now → found.items ≡ groups_of (placed 0 (map (take front) keys))) }
{
    let fronts = fronts_to(alloc, groups, front, seed)?;
    level(alloc, groups, &fronts, front, rows)
}

/// The groups of so many rows by the first values of their keys, for each number of values from `least` to one less than `width`,
/// the fewest first.
pub(crate) fn by_fronts(
    alloc: Global,
    groups: &[Group],
    least: usize,
    width: usize,
    rows: usize,
    seed: Seed,
) -> Result<Vec<Vec<Group>>, AllocError>
    requires least { least ≤ width }
    requires long { All (λ g. width ≤ length g.0) groups.now }
    requires groups { (keys : List (List Value')) × AreGroupsOf rows keys groups.now }
    ensures { IfOk result (λ found. (keys : List (List Value')) → AreGroupsOf rows keys groups.now → map (λ l. l.items) found.items ≡ map (λ j. groups_of (placed 0 (map (take j) keys))) (range_with_len least (width - least))) }
{
    let mut found = Vec::with_capacity(alloc, width - least)?;
    let mut fronts = fronts_to(alloc, groups, least, seed)?;
    for front in least..width {
        found.push(level(alloc, groups, &fronts, front, rows)?)?;
        fronts = fronts_behind(alloc, groups, fronts, front, width, seed)?;
    }
    Ok(found)
}
