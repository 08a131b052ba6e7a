//! Rows of a body, read where they stand: rows, or instances of a frame, of which no row is made.
ghost use Rattle.std.specs.Prelude.{◌≡◌, ◌-◌, ◌≤◌, ◌<◌, Some, drop, get_or, length, map, option_and_then, option_map, slice_get, take, true, unwrap_or};
ghost use Rattle.edm_values.specs.Values.{seen_value};
ghost use Rattle.edm_values.specs.declared.Value.TheVariants as spec_value;
ghost use Rattle.apply_meaning.specs.Instances.{no_instance};
ghost use Rattle.json_render.specs.RowTexts as row_texts;
ghost use Rattle.json_render.specs.RowTexts.{SamePattern};

use crate::patterns::same_rows;
use apply_ast::{Name, Path};
use apply_meaning::Row;
use edm_data::EntityRef;
use edm_values::{Seen, Value};
use row_frames::{Frame, FrameRow, FrameRows};
use std::marker::Model;

/// Where a row stands.
#[derive(Drop)]
pub(crate) enum RowSource<'a> {
    Row(&'a Row),
    Frame(FrameRow<'a>),
}

/// A row that is read where it stands.
#[derive(Drop)]
pub(crate) struct ShownRow<'a> {
    source: RowSource<'a>,
}

impl<'a> Model for ShownRow<'a> {
    ghost use Rattle.apply_meaning.specs.Instances.{Instance};
    ghost use Rattle.json_render.specs.Sources.{shown};

    ghost Value = { Instance };

    ghost view = { λ r. shown r.source };
}

/// Where rows stand.
#[derive(Drop)]
pub(crate) enum ListSource<'a> {
    Rows(&'a [Row]),
    Frame(FrameRows<'a>),
}

/// Rows that are read where they stand.
#[derive(Drop)]
pub(crate) struct ShownRows<'a> {
    source: ListSource<'a>,
}

impl<'a> Model for ShownRows<'a> {
    ghost use Rattle.std.specs.Prelude.{List};
    ghost use Rattle.apply_meaning.specs.Instances.{Instance};
    ghost use Rattle.json_render.specs.Sources.{all_shown};

    ghost Value = { List Instance };

    ghost view = { λ r. all_shown r.source };
}

/// How many prefixes a row has, with the empty one.
fn prefix_count_of(row: &Row) -> usize
    ensures { result ≡ length row.now.prefixes }
{
    let prefixes = row.prefixes();
    match row.root() {
        Some(_) => prefixes.len() + 1,
        None => prefixes.len(),
    }
}

/// The path of prefix j of a row.
fn prefix_path_of<'a>(row: &'a Row, j: usize) -> &'a [Name]
    requires { j < length row.now.prefixes }
    ensures { option_map (λ x. x.0) (slice_get row.now.prefixes j) ≡ Some result.now }
{
    let prefixes = row.prefixes();
    match row.root() {
        Some(_) if j == 0 => {
            let none: &'a [Name] = &[];
            none
        }
        Some(_) => prefixes[j - 1].0.names(),
        None => prefixes[j].0.names(),
    }
}

/// What stands at the prefix at this place; none where there is no such prefix.
fn bound_in(prefixes: &[(Path, Option<EntityRef>)], k: usize) -> Option<EntityRef>
    ensures { result ≡ option_and_then (λ x. x.1) (slice_get prefixes.now k) }
{
    match prefixes.get(k) {
        Some(prefix) => prefix.1,
        None => None,
    }
}

/// What stands at the prefix of a row at this place, the empty one being the first.
fn bound_of(row: &Row, k: usize) -> Option<EntityRef>
    ensures { result ≡ row_texts.bound_at row.now k }
{
    let prefixes = row.prefixes();
    match row.root() {
        Some(root) if k == 0 => Some(root),
        Some(_) => bound_in(prefixes, k - 1),
        None => bound_in(prefixes, k),
    }
}

/// The path of column j of a row.
fn column_path_of(row: &Row, j: usize) -> &[Name]
    requires { j < length row.now.columns }
    ensures { option_map (λ c. c.0) (slice_get row.now.columns j) ≡ Some result.now }
{
    let columns = row.columns();
    columns[j].0.names()
}

/// The value of the column at this place; null where there is none.
fn column_in(columns: &[(Path, Value)], k: usize) -> Seen<'_>
    ensures { seen_value result ≡ unwrap_or (option_map (λ c. c.1) (slice_get columns.now k)) spec_value.Null }
{
    match columns.get(k) {
        Some(column) => column.1.seen(),
        None => Seen::Null,
    }
}

impl<'a> ShownRow<'a> {
    /// How many prefixes the row has, with the empty one.
    pub(crate) fn prefix_count(&self) -> usize
        ensures { result ≡ length self.now.prefixes }
    {
        match &self.source {
            RowSource::Row(row) => prefix_count_of(row),
            RowSource::Frame(row) => row.prefix_count(),
        }
    }

    /// The path of prefix j.
    pub(crate) fn prefix_path(&self, j: usize) -> &'a [Name]
        requires { j < length self.now.prefixes }
        ensures { option_map (λ x. x.0) (slice_get self.now.prefixes j) ≡ Some result.now }
    {
        match &self.source {
            RowSource::Row(row) => prefix_path_of(row, j),
            RowSource::Frame(row) => row.prefix_path(j),
        }
    }

    /// What stands at prefix j; none where there is no such prefix.
    pub(crate) fn bound(&self, j: usize) -> Option<EntityRef>
        ensures { result ≡ row_texts.bound_at self.now j }
    {
        match &self.source {
            RowSource::Row(row) => bound_of(row, j),
            RowSource::Frame(row) => row.bound(j),
        }
    }

    /// How many columns the row has.
    pub(crate) fn column_count(&self) -> usize
        ensures { result ≡ length self.now.columns }
    {
        match &self.source {
            RowSource::Row(row) => row.columns().len(),
            RowSource::Frame(row) => row.column_count(),
        }
    }

    /// The path of column j.
    pub(crate) fn column_path(&self, j: usize) -> &'a [Name]
        requires { j < length self.now.columns }
        ensures { option_map (λ c. c.0) (slice_get self.now.columns j) ≡ Some result.now }
    {
        match &self.source {
            RowSource::Row(row) => column_path_of(row, j),
            RowSource::Frame(row) => row.column_path(j),
        }
    }

    /// The value of column j; null where there is no such column.
    pub(crate) fn column(&self, j: usize) -> Seen<'a>
        ensures { seen_value result ≡ row_texts.column_in self.now j }
    {
        match &self.source {
            RowSource::Row(row) => column_in(row.columns(), j),
            RowSource::Frame(row) => row.column(j),
        }
    }
}

/// Row k of a list.
fn row_at(rows: &[Row], k: usize) -> &Row
    requires { k < length rows.now }
    ensures { result.now ≡ get_or rows.now k no_instance }
{
    &rows[k]
}

/// Whether rows j and k of a list have the same pattern.
fn have_same_pattern(rows: &[Row], j: usize, k: usize) -> bool
    requires first { j < length rows.now }
    requires second { k < length rows.now }
    ensures { result ≡ true → SamePattern (get_or rows.now j no_instance) (get_or rows.now k no_instance) }
{
    same_rows(row_at(rows, j), row_at(rows, k))
}

impl<'a> ShownRows<'a> {
    /// These rows.
    pub(crate) fn of_rows(rows: &'a [Row]) -> ShownRows<'a>
        ensures { result ≡ rows.now }
    {
        ShownRows {
            source: ListSource::Rows(rows),
        }
    }

    /// The instances of a frame.
    pub(crate) fn of_frame(frame: &'a Frame) -> ShownRows<'a>
        ensures { result ≡ frame.now }
    {
        ShownRows {
            source: ListSource::Frame(frame.shown()),
        }
    }

    /// How many rows there are.
    pub(crate) fn len(&self) -> usize
        ensures { result ≡ length self.now }
    {
        match &self.source {
            ListSource::Rows(rows) => rows.len(),
            ListSource::Frame(rows) => rows.len(),
        }
    }

    /// Row k, counted from 0.
    pub(crate) fn at(&self, k: usize) -> ShownRow<'a>
        requires { k < length self.now }
        ensures { result ≡ get_or self.now k no_instance }
    {
        let source = match &self.source {
            ListSource::Rows(rows) => RowSource::Row(row_at(rows, k)),
            ListSource::Frame(rows) => RowSource::Frame(rows.at(k)),
        };
        ShownRow { source }
    }

    /// The rows from place `from` to before place `to`.
    pub(crate) fn part(&self, from: usize, to: usize) -> ShownRows<'a>
        requires order { from ≤ to }
        requires within { to ≤ length self.now }
        ensures { result ≡ take (to - from) (drop from self.now) }
    {
        let source = match &self.source {
            ListSource::Rows(rows) => ListSource::Rows(&rows[from..to]),
            ListSource::Frame(rows) => ListSource::Frame(rows.part(from, to)),
        };
        ShownRows { source }
    }

    /// Whether rows j and k have the same columns and prefixes in the same order, with entities of the same sets.
    pub(crate) fn have_same_pattern(&self, j: usize, k: usize) -> bool
        requires first { j < length self.now }
        requires second { k < length self.now }
        ensures { result ≡ true → SamePattern (get_or self.now j no_instance) (get_or self.now k no_instance) }
    {
        match &self.source {
            ListSource::Rows(rows) => have_same_pattern(rows, j, k),
            ListSource::Frame(rows) => rows.are_alike(j, k),
        }
    }
}
