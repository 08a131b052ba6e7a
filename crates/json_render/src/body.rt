//! Bodies (JSON Format 4.01, "Collection of Entities").
ghost use Rattle.std.specs.Prelude.{◌≡◌, ◌++◌, ◌<◌, All, List, length, nat_lt, slice_get, slice_index_or, false, true, Some, None, Err, IfOk, IfSome, OnOk};
ghost use Rattle.std.specs.List.{list_any};
ghost use Rattle.serde_json.specs.Written.{comma_if};
ghost use Rattle.edm_model.specs.LookUps.{IsSet, set_name};
ghost use Rattle.edm_data.specs.Worlds.{World};
ghost use Rattle.context_typing.specs.Shapes.{Shape};
ghost use Rattle.apply_meaning.specs.Instances.{Instance, no_instance};
ghost use Rattle.apply_meaning.specs.MeaningLaws.{AllFit};
ghost use Rattle.json_render.specs.Bodies as spec;
ghost use Rattle.json_render.specs.RowRuns.{IsKnown, Serves, head_text, row_text, rows_run};
ghost use Rattle.json_render.specs.RowTexts.{template_text};
ghost use Rattle.edm_values.specs.declared.refusals.Refused.TheVariants as RenderRefused;

use crate::RenderRefused;
use crate::context::context;
use crate::members::row_template;
use crate::parts::push_in_parts;
use crate::shown::{ShownRow, ShownRows};
use crate::templates::Template;
use crate::texts::push_text;
use apply_meaning::Row;
use context_typing::Shape;
use edm_data::Data;
use edm_model::SetId;
use par_stages::workers_for;
use row_frames::Frame;
use std::alloc::{AllocError, Global};
use std::thread::Threads;

/// How many templates are kept at a time.
const TEMPLATES_MAX: usize = 64;

/// The template of the rows that have the pattern of the row at this place.
#[derive(Drop)]
pub(crate) struct Known {
    pub row: usize,
    pub template: Template,
}

/// Whether a column of the row is past its range.
fn has_beyond(row: &ShownRow<'_>) -> bool
    ensures { result ≡ spec.has_beyond row.now }
{
    for k in 0..row.column_count() {
        if row.column(k).is_beyond() {
            return true;
        }
    }
    false
}

/// Whether the template is one of the row at this place.
fn serves(rows: &ShownRows<'_>, row: usize, known: &Known) -> bool
    requires known { known.now.row < length rows.now }
    requires there { row < length rows.now }
    ensures { (w : World) (s : Shape) → IsKnown w s rows.now known.now → result ≡ true → template_text w (slice_index_or rows.now row no_instance) known.now.template ≡ row_text w s (slice_index_or rows.now row no_instance) }
{
    rows.have_same_pattern(known.row, row)
}

/// The place of the template of this row among the known ones.
fn known_at(rows: &ShownRows<'_>, row: usize, known: &[Known]) -> Option<usize>
    requires there { row < length rows.now }
    requires known { All (λ k. k.row < length rows.now) known.now }
    ensures { (w : World) (s : Shape) → All (IsKnown w s rows.now) known.now → IfSome result (Serves w s (slice_index_or rows.now row no_instance) known.now) }
{
    for (k, other) in known.iter().enumerate() {
        if serves(rows, row, other) {
            return Some(k);
        }
    }
    None
}

/// The place of the template of this row among the known ones, tried first at the one that served last.
fn known_near(rows: &ShownRows<'_>, row: usize, known: &[Known], last: usize) -> Option<usize>
    requires there { row < length rows.now }
    requires known { All (λ k. k.row < length rows.now) known.now }
    ensures { (w : World) (s : Shape) → All (IsKnown w s rows.now) known.now → IfSome result (Serves w s (slice_index_or rows.now row no_instance) known.now) }
{
    if last < known.len() && serves(rows, row, &known[last]) {
        return Some(last);
    }
    known_at(rows, row, known)
}

/// Adds a template, in the place of all others where there are many.
fn add_known(known: &mut Vec<Known>, row: usize, template: Template) -> Result<usize, AllocError>
    ensures known { (w : World) (s : Shape) (rows : List Instance) → All (IsKnown w s rows) known.old.items → IsKnown w s rows (record { row = row; template = template }) → OnOk result (All (IsKnown w s rows) known.new.items) }
    ensures place { IfOk result (λ at. (at < length known.new.items) × (slice_get known.new.items at ≡ Some (record { row = row; template = template }))) }
{
    if known.len() >= TEMPLATES_MAX {
        known.clear();
    }
    known.push(Known { row, template })?;
    Ok(known.len() - 1)
}

/// The place of the template of the row at this place; one that is not known is made.
fn template_at(
    alloc: Global,
    store: &Data,
    shape: &Shape,
    rows: &ShownRows<'_>,
    row: usize,
    known: &mut Vec<Known>,
    last: usize,
) -> Result<usize, AllocError>
    requires fit { AllFit store.now shape.now rows.now }
    requires there { row < length rows.now }
    requires known { All (IsKnown store.now shape.now rows.now) known.old.items }
    ensures serves { IfOk result (Serves store.now shape.now (slice_index_or rows.now row no_instance) known.new.items) }
    ensures known { OnOk result (All (IsKnown store.now shape.now rows.now) known.new.items) }
{
    match known_near(rows, row, known, last) {
        Some(place) => Ok(place),
        None => {
            let template = row_template(alloc, store, shape, &rows.at(row))?;
            let place = add_known(known, row, template)?;
            Ok(place)
        }
    }
}

/// Appends the row at this place, with a comma before all but the first; the place of its template.
fn push_row(
    alloc: Global,
    store: &Data,
    shape: &Shape,
    rows: &ShownRows<'_>,
    k: usize,
    known: &mut Vec<Known>,
    last: usize,
    body: &mut Vec<u8>,
) -> Result<usize, RenderRefused>
    requires fit { AllFit store.now shape.now rows.now }
    requires there { k < length rows.now }
    requires known { All (IsKnown store.now shape.now rows.now) known.old.items }
    ensures ok { OnOk result (body.new.items ≡ body.old.items ++ (comma_if (nat_lt 0 k) ++ row_text store.now shape.now (slice_index_or rows.now k no_instance))) }
    ensures in_range { OnOk result (spec.has_beyond (slice_index_or rows.now k no_instance) ≡ false) }
    ensures range { result ≡ Err RenderRefused.Range → spec.has_beyond (slice_index_or rows.now k no_instance) ≡ true }
    ensures known { OnOk result (All (IsKnown store.now shape.now rows.now) known.new.items) }
{
    let row = rows.at(k);
    if has_beyond(&row) {
        return Err(RenderRefused::Range);
    }
    if k > 0 {
        body.push(b',')?;
    }
    let place = template_at(alloc, store, shape, rows, k, known, last)?;
    let found = &known[place];
    found.template.push_row(alloc, store, &row, body)?;
    Ok(place)
}

/// The most bytes for which room is made before they are known.
const ROOM: usize = 64 * 1024 * 1024;

/// Makes room for the rows behind the first, once this is written: for as many bytes as they take where each takes as many as the
/// first, and a quarter more. Where memory is wanting for so many, room is made as they come.
fn make_room(body: &mut Vec<u8>, k: usize, before: usize, rows: usize)
    ensures { body.new.items ≡ body.old.items }
{
    if k == 0 {
        let first = body.len().saturating_sub(before).saturating_add(1);
        let more = first.saturating_mul(rows.saturating_sub(1));
        let more = more.saturating_add(more / 4).min(ROOM);
        let _made = body.reserve(more);
    }
}

/// Appends the rows with a comma between.
pub(crate) fn push_rows(
    alloc: Global,
    store: &Data,
    shape: &Shape,
    rows: &ShownRows<'_>,
    body: &mut Vec<u8>,
) -> Result<(), RenderRefused>
    requires { AllFit store.now shape.now rows.now }
    ensures ok { OnOk result (body.new.items ≡ body.old.items ++ rows_run store.now shape.now false rows.now) }
    ensures in_range { OnOk result (list_any spec.has_beyond rows.now ≡ false) }
    ensures range { result ≡ Err RenderRefused.Range → list_any spec.has_beyond rows.now ≡ true }
{
    let mut known = Vec::new(alloc);
    let mut last = 0;
    for k in 0..rows.len() {
        let before = body.len();
        last = push_row(alloc, store, shape, rows, k, &mut known, last, body)?;
        make_room(body, k, before, rows.len());
    }
    Ok(())
}

/// Appends the beginning of a body, up to its rows.
fn push_head(
    alloc: Global,
    store: &Data,
    set: SetId,
    shape: &Shape,
    body: &mut Vec<u8>,
) -> Result<(), AllocError>
    requires { IsSet store.now.model set }
    ensures { OnOk result (body.new.items ≡ body.old.items ++ head_text (set_name store.now.model set) shape.now) }
{
    body.extend_from_slice(b"{\"@context\":")?;
    let context = context(alloc, store.model().set_name(set), shape)?;
    push_text(alloc, context.as_str(), body)?;
    body.extend_from_slice(b",\"value\":[")?;
    Ok(())
}

/// How many items a row counts as, where parts are made for threads: printing one takes about as long as going through these.
const ITEMS: usize = 4;

/// Appends the rows with a comma between, in parts where they are many, each made by a thread of its own.
fn push_list<R: Threads + Sync>(
    rt: &R,
    alloc: Global,
    store: &Data,
    shape: &Shape,
    rows: &ShownRows<'_>,
    workers: u32,
    body: &mut Vec<u8>,
) -> Result<(), RenderRefused>
    requires rows { AllFit store.now shape.now rows.now }
    requires some { 0 < workers }
    ensures ok { OnOk result (body.new.items ≡ body.old.items ++ rows_run store.now shape.now false rows.now) }
    ensures in_range { OnOk result (list_any spec.has_beyond rows.now ≡ false) }
    ensures range { result ≡ Err RenderRefused.Range → list_any spec.has_beyond rows.now ≡ true }
{
    let parts = workers_for(rows.len().saturating_mul(ITEMS), 1, workers);
    if parts == 1 {
        return push_rows(alloc, store, shape, rows, body);
    }
    let len = rows.len().div_ceil(parts as usize).max(1);
    push_in_parts(rt, alloc, store, shape, rows, len, body)
}

/// The body of rows, which may be rendered in parts, each by a thread of its own, as many as there are workers.
fn body_of<R: Threads + Sync>(
    rt: &R,
    alloc: Global,
    store: &Data,
    set: SetId,
    shape: &Shape,
    rows: &ShownRows<'_>,
    workers: u32,
) -> Result<Vec<u8>, RenderRefused>
    requires set { IsSet store.now.model set }
    requires rows { AllFit store.now shape.now rows.now }
    requires some { 0 < workers }
    ensures ok { IfOk result (λ b. spec.body store.now (set_name store.now.model set) shape.now rows.now ≡ Some b.items) }
    ensures range { result ≡ Err RenderRefused.Range → spec.body store.now (set_name store.now.model set) shape.now rows.now ≡ None }
{
    let mut body = Vec::new(alloc);
    push_head(alloc, store, set, shape, &mut body)?;
    push_list(rt, alloc, store, shape, rows, workers, &mut body)?;
    body.extend_from_slice(b"]}")?;
    Ok(body)
}

/// The body of rows of a shape, over the entity set that the request addresses. It is made in time that grows with its
/// length. `Range` where a value to be printed is past its range; `Memory` where the body does not fit in memory, which
/// says nothing of the rows.
pub fn render(
    alloc: Global,
    store: &Data,
    set: SetId,
    shape: &Shape,
    rows: &[Row],
) -> Result<Vec<u8>, RenderRefused>
    requires set { IsSet store.now.model set }
    requires rows { AllFit store.now shape.now rows.now }
    ensures ok { IfOk result (λ b. spec.body store.now (set_name store.now.model set) shape.now rows.now ≡ Some b.items) }
    ensures range { result ≡ Err RenderRefused.Range → spec.body store.now (set_name store.now.model set) shape.now rows.now ≡ None }
{
    let rows = ShownRows::of_rows(rows);
    let mut body = Vec::new(alloc);
    push_head(alloc, store, set, shape, &mut body)?;
    push_rows(alloc, store, shape, &rows, &mut body)?;
    body.extend_from_slice(b"]}")?;
    Ok(body)
}

/// The same body, whose rows may be rendered in parts, each by a thread of its own, as many as there are workers. A list of
/// few rows is not cut.
pub fn render_in_parts<R: Threads + Sync>(
    rt: &R,
    alloc: Global,
    store: &Data,
    set: SetId,
    shape: &Shape,
    rows: &[Row],
    workers: u32,
) -> Result<Vec<u8>, RenderRefused>
    requires set { IsSet store.now.model set }
    requires rows { AllFit store.now shape.now rows.now }
    requires some { 0 < workers }
    ensures ok { IfOk result (λ b. spec.body store.now (set_name store.now.model set) shape.now rows.now ≡ Some b.items) }
    ensures range { result ≡ Err RenderRefused.Range → spec.body store.now (set_name store.now.model set) shape.now rows.now ≡ None }
{
    let rows = ShownRows::of_rows(rows);
    body_of(rt, alloc, store, set, shape, &rows, workers)
}

/// The same body of the instances of a frame, of which no row is made.
pub fn render_frame<R: Threads + Sync>(
    rt: &R,
    alloc: Global,
    store: &Data,
    set: SetId,
    shape: &Shape,
    frame: &Frame,
    workers: u32,
) -> Result<Vec<u8>, RenderRefused>
    requires set { IsSet store.now.model set }
    requires rows { AllFit store.now shape.now frame.now }
    requires some { 0 < workers }
    ensures ok { IfOk result (λ b. spec.body store.now (set_name store.now.model set) shape.now frame.now ≡ Some b.items) }
    ensures range { result ≡ Err RenderRefused.Range → spec.body store.now (set_name store.now.model set) shape.now frame.now ≡ None }
{
    let rows = ShownRows::of_frame(frame);
    body_of(rt, alloc, store, set, shape, &rows, workers)
}
