//! Instances of a frame that are read where they stand, so that no row is made of them.
ghost use Rattle.std.specs.Prelude.{◌≡◌, ◌-◌, ◌<◌, ◌≤◌, ℕ, Some, drop, get_or, is_some, length, map, option_and_then, option_map, slice_get, take, true, unwrap_or};
ghost use Rattle.std.specs.List.{All};
ghost use Rattle.edm_values.specs.Values.{seen_value};
ghost use Rattle.edm_values.specs.declared.Value.TheVariants as value;
ghost use Rattle.apply_meaning.specs.Instances.{no_instance};
ghost use Rattle.row_frames.specs.Frames as spec;
ghost use Rattle.row_frames.specs.Runs.{part_rows};
ghost use Rattle.row_frames.specs.Shown.{column_path, prefix_set};

use crate::picks::Part;
use crate::tables::{Pick, Prefix, Roots, Table, bound_at, bound_place, root_at, value_at};
use apply_ast::Name;
use edm_data::EntityRef;
use edm_values::Seen;
use std::marker::Model;

/// An instance of a frame.
#[derive(Drop)]
pub struct FrameRow<'a> {
    table: &'a Table,
    row: u32,
}

impl<'a> Model for FrameRow<'a> {
    ghost use Rattle.apply_meaning.specs.Instances.{Instance};
    ghost use Rattle.row_frames.specs.Frames.{instance_at};

    ghost Value = { Instance };

    ghost view = { λ r. instance_at r.table.now r.row };
}

/// Whether rows have an entity at the empty prefix.
fn has_root(roots: &Roots) -> bool
    ensures { (k : ℕ) → result ≡ is_some (spec.root_at roots.now k) }
{
    !matches!(roots, Roots::Without)
}

/// What stands in a row at the prefix at this place of the list.
fn bound_in(prefixes: &[Prefix], j: usize, row: u32) -> Option<EntityRef>
    ensures { result ≡ option_and_then (λ x. x.1) (slice_get (map (spec.prefix_at row) prefixes.now) j) }
{
    match prefixes.get(j) {
        Some(prefix) => bound_at(prefix, row),
        None => None,
    }
}

impl<'a> FrameRow<'a> {
    /// How many prefixes the instance has, with the empty one.
    pub fn prefix_count(&self) -> usize
        ensures value { result ≡ length self.now.prefixes }
    {
        if has_root(&self.table.roots) {
            self.table.prefixes.len() + 1
        } else {
            self.table.prefixes.len()
        }
    }

    /// The path of prefix j, counted from 0.
    pub fn prefix_path(&self, j: usize) -> &'a [Name]
        requires there { j < length self.now.prefixes }
        ensures value { option_map (λ x. x.0) (slice_get self.now.prefixes j) ≡ Some result.now }
    {
        let prefixes = self.table.prefixes.as_slice();
        if !has_root(&self.table.roots) {
            return prefixes[j].path.names();
        }
        if j == 0 {
            let none: &'a [Name] = &[];
            return none;
        }
        prefixes[j - 1].path.names()
    }

    /// What stands at prefix j, counted from 0; none where there is no such prefix.
    pub fn bound(&self, j: usize) -> Option<EntityRef>
        ensures value { result ≡ option_and_then (λ x. x.1) (slice_get self.now.prefixes j) }
    {
        let prefixes = self.table.prefixes.as_slice();
        match root_at(&self.table.roots, self.row) {
            Some(root) if j == 0 => Some(root),
            Some(_) => bound_in(prefixes, j - 1, self.row),
            None => bound_in(prefixes, j, self.row),
        }
    }

    /// How many columns the instance has.
    pub fn column_count(&self) -> usize
        ensures value { result ≡ length self.now.columns }
    {
        self.table.columns.len()
    }

    /// The path of column j, counted from 0.
    pub fn column_path(&self, j: usize) -> &'a [Name]
        requires there { j < length self.now.columns }
        ensures value { option_map (λ c. c.0) (slice_get self.now.columns j) ≡ Some result.now }
    {
        let columns = self.table.columns.as_slice();
        columns[j].path.names()
    }

    /// The value of column j, counted from 0, which borrows its text; null where there is no such column.
    pub fn column(&self, j: usize) -> Seen<'a>
        ensures value { seen_value result ≡ unwrap_or (option_map (λ c. c.1) (slice_get self.now.columns j)) value.Null }
    {
        let columns = self.table.columns.as_slice();
        match columns.get(j) {
            Some(column) => value_at(column, self.row),
            None => Seen::Null,
        }
    }
}

/// Instances of a frame, in their order.
#[derive(Drop)]
pub struct FrameRows<'a> {
    tables: &'a [Table],
    picks: Part<'a>,
}

impl<'a> Model for FrameRows<'a> {
    ghost use Rattle.std.specs.Prelude.{List, ◌<◌, length};
    ghost use Rattle.std.specs.List.{All};
    ghost use Rattle.apply_meaning.specs.Instances.{Instance};
    ghost use Rattle.row_frames.specs.Frames.{IsTable, all_picked};
    ghost use Rattle.row_frames.specs.Runs.{part_rows};

    ghost Value = { List Instance };

    ghost view = { λ r. all_picked r.tables.now (part_rows r.picks) };

    ghost invariant = { λ r. All IsTable r.tables.now × All (λ x. x.table < length r.tables.now) (part_rows r.picks) };
}

/// The rows that are picked.
pub(crate) fn shown_rows<'a>(tables: &'a [Table], picks: Part<'a>) -> FrameRows<'a>
    requires tables { All spec.IsTable tables.now }
    requires within { All (λ x. x.table < length tables.now) (part_rows picks) }
    ensures { result ≡ spec.all_picked tables.now (part_rows picks.entry) }
{
    FrameRows { tables, picks }
}

/// Whether there is something in both or in none.
fn are_both_there(a: Option<u32>, b: Option<u32>) -> bool
    ensures { result ≡ true → is_some a ≡ is_some b }
{
    a.is_some() == b.is_some()
}

/// Whether at each prefix something stands in both rows of a table, or in none.
fn have_same_sets(prefixes: &[Prefix], a: u32, b: u32) -> bool
    ensures { result ≡ true → map prefix_set (map (spec.prefix_at a) prefixes.now) ≡ map prefix_set (map (spec.prefix_at b) prefixes.now) }
{
    for prefix in prefixes {
        if !are_both_there(bound_place(prefix, a), bound_place(prefix, b)) {
            return false;
        }
    }
    true
}

/// The row that is picked.
fn picked_at<'a>(tables: &'a [Table], pick: Pick) -> FrameRow<'a>
    requires within { pick.table < length tables.now }
    ensures { result ≡ spec.picked tables.now pick }
{
    FrameRow {
        table: &tables[pick.table as usize],
        row: pick.row,
    }
}

/// The row that is picked at place k.
fn row_at<'a>(tables: &'a [Table], picks: &Part<'a>, k: usize) -> FrameRow<'a>
    requires within { All (λ x. x.table < length tables.now) (part_rows picks.now) }
    requires there { k < length (spec.all_picked tables.now (part_rows picks.now)) }
    ensures { result ≡ get_or (spec.all_picked tables.now (part_rows picks.now)) k no_instance }
{
    picked_at(tables, picks.at(k))
}

/// The rows that are picked from place `from` to before place `to`.
fn part_of<'a>(tables: &'a [Table], picks: &Part<'a>, from: usize, to: usize) -> FrameRows<'a>
    requires tables { All spec.IsTable tables.now }
    requires within { All (λ x. x.table < length tables.now) (part_rows picks.now) }
    requires order { from ≤ to }
    requires there { to ≤ length (spec.all_picked tables.now (part_rows picks.now)) }
    ensures { result ≡ take (to - from) (drop from (spec.all_picked tables.now (part_rows picks.now))) }
{
    shown_rows(tables, picks.later(from).first(to - from))
}

/// Whether two rows that are picked are of one table, and something stands at the same prefixes.
fn are_alike(tables: &[Table], a: Pick, b: Pick) -> bool
    requires within { a.table < length tables.now }
    ensures columns { result ≡ true → map column_path (spec.picked tables.now a).columns ≡ map column_path (spec.picked tables.now b).columns }
    ensures prefixes { result ≡ true → map prefix_set (spec.picked tables.now a).prefixes ≡ map prefix_set (spec.picked tables.now b).prefixes }
{
    if a.table != b.table {
        return false;
    }
    let table = &tables[a.table as usize];
    have_same_sets(table.prefixes.as_slice(), a.row, b.row)
}

/// Whether the rows that are picked at places j and k are of one table, and something stands at the same prefixes.
fn rows_are_alike(tables: &[Table], picks: &Part<'_>, j: usize, k: usize) -> bool
    requires within { All (λ x. x.table < length tables.now) (part_rows picks.now) }
    requires first { j < length (spec.all_picked tables.now (part_rows picks.now)) }
    requires second { k < length (spec.all_picked tables.now (part_rows picks.now)) }
    ensures columns { result ≡ true → map column_path (get_or (spec.all_picked tables.now (part_rows picks.now)) j no_instance).columns ≡ map column_path (get_or (spec.all_picked tables.now (part_rows picks.now)) k no_instance).columns }
    ensures prefixes { result ≡ true → map prefix_set (get_or (spec.all_picked tables.now (part_rows picks.now)) j no_instance).prefixes ≡ map prefix_set (get_or (spec.all_picked tables.now (part_rows picks.now)) k no_instance).prefixes }
{
    are_alike(tables, picks.at(j), picks.at(k))
}

impl<'a> FrameRows<'a> {
    /// How many instances there are.
    pub fn len(&self) -> usize
        ensures value { result ≡ length self.now }
    {
        self.picks.len()
    }

    /// Instance k, counted from 0.
    pub fn at(&self, k: usize) -> FrameRow<'a>
        requires there { k < length self.now }
        ensures value { result ≡ get_or self.now k no_instance }
    {
        row_at(self.tables, &self.picks, k)
    }

    /// The instances from place `from` to before place `to`.
    pub fn part(&self, from: usize, to: usize) -> FrameRows<'a>
        requires order { from ≤ to }
        requires within { to ≤ length self.now }
        ensures value { result ≡ take (to - from) (drop from self.now) }
    {
        part_of(self.tables, &self.picks, from, to)
    }

    /// Whether instances j and k, counted from 0, stand in one table, and there at each prefix an entity or none in both: then they have
    /// columns of the same paths, and at the same prefixes entities of the same sets.
    pub fn are_alike(&self, j: usize, k: usize) -> bool
        requires first { j < length self.now }
        requires second { k < length self.now }
        ensures columns { result ≡ true → map column_path (get_or self.now j no_instance).columns ≡ map column_path (get_or self.now k no_instance).columns }
        ensures prefixes { result ≡ true → map prefix_set (get_or self.now j no_instance).prefixes ≡ map prefix_set (get_or self.now k no_instance).prefixes }
    {
        rows_are_alike(self.tables, &self.picks, j, k)
    }
}
