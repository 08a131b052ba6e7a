//! Columns in ascending order of their paths: the places of a list's columns, and the search among them.
ghost use Rattle.std.specs.Prelude.{◌≡◌, ◌∷◌, ◌++◌, [], IfOk};
ghost use Rattle.std.specs.List.{list_any};
ghost use Rattle.std.specs.Option.{option_copied};
ghost use Rattle.context_typing.specs.Orders.{IsLowerBound, IsOrder, columns_at, column_paths};
ghost use Rattle.context_typing.specs.Paths.{at_path, is_prefix};

use crate::columns::ColumnShape;
use crate::paths::{compare, is_prefix, same_path};
use apply_ast::Name;
use std::alloc::AllocError;
use std::cmp::Ordering;

/// How many of the columns at these places stand before the path.
fn places_before(columns: &[ColumnShape], places: &[usize], path: &[Name]) -> usize
    requires { IsOrder columns.now places.now }
    ensures { IsLowerBound (column_paths (columns_at columns.now places.now)) path.now result }
{
    let mut low = 0;
    let mut high = places.len();
    while low < high {
        let middle = low + (high - low) / 2;
        let column = &columns[places[middle]];
        match compare(column.path.names(), path) {
            Ordering::Less => low = middle + 1,
            Ordering::Equal => high = middle,
            Ordering::Greater => high = middle,
        }
    }
    low
}

/// The column of a path.
pub(crate) fn found<'a>(
    columns: &'a [ColumnShape],
    places: &[usize],
    path: &[Name],
) -> Option<&'a ColumnShape>
    requires { IsOrder columns.now places.now }
    ensures { option_copied result ≡ at_path (λ c. c.path) columns.now path.now }
{
    let at = places_before(columns, places, path);
    if at < places.len() {
        let column = &columns[places[at]];
        if same_path(column.path.names(), path) {
            return Some(column);
        }
    }
    None
}

/// Whether the path is a prefix of that of a column.
pub(crate) fn any_begins_with(columns: &[ColumnShape], places: &[usize], path: &[Name]) -> bool
    requires { IsOrder columns.now places.now }
    ensures { result ≡ list_any (λ c. is_prefix path.now c.path) columns.now }
{
    let at = places_before(columns, places, path);
    if at < places.len() {
        let column = &columns[places[at]];
        is_prefix(path, column.path.names())
    } else {
        false
    }
}

/// The places with that of one more column, where its path is new.
pub(crate) fn with_place(
    columns: &[ColumnShape],
    places: Vec<usize>,
    column: &ColumnShape,
) -> Result<Vec<usize>, AllocError>
    requires { IsOrder columns.now places.items }
    ensures { IfOk result (λ v. IsOrder (columns.now ++ column.now ∷ []) v.items) }
{
    let at = places_before(columns, &places, column.path.names());
    if at < places.len() {
        let other = &columns[places[at]];
        if same_path(other.path.names(), column.path.names()) {
            return Ok(places);
        }
    }
    let mut places = places;
    places.insert(at, columns.len())?;
    Ok(places)
}
