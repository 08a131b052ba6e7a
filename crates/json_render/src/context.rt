//! The context of a body (OData Protocol 4.01, section 10).
ghost use Rattle.std.specs.Prelude.{◌≡◌, ◌++◌, ◌∷◌, [], ◌<◌, codes, if◌then◌else◌, length, map, reverse, string_bytes, false, true, IfOk, OnOk};
ghost use Rattle.std.specs.List.{list_all, list_any};
ghost use Rattle.serde_json.specs.Written.{comma_if};
ghost use Rattle.json_render.specs.Bodies.{context, is_here, parenthesised, shape_columns, shape_items, shape_prefixes};
ghost use Rattle.json_render.specs.ItemTexts.{all_items, column_paths, ends_column, filled, first_items, inside_items, is_item, left_steps, left_text, place_items, prefix_paths};
ghost use Rattle.json_render.specs.Places.{goes_inside, named_parts, next_parts, sorted_parts};

use crate::entries::{
    Entry, Part, group_length, inside, is_column, is_ended, next_entries, sort_by_name, whole,
};
use apply_ast::Name;
use context_typing::{ColumnShape, PrefixShape, Shape};
use std::alloc::{AllocError, Global};

/// An item of a context that is still to be written.
#[derive(Drop)]
pub(crate) enum Item<'a> {
    /// The name of a column.
    Column(&'a str),
    /// A segment, with what stands inside.
    Segment(&'a str, Vec<Entry<'a>>),
    /// The end of a segment's items.
    Close,
}

/// The text of a context while it is written, and whether an item stands before.
#[derive(Drop)]
pub(crate) struct Text {
    pub bytes: String,
    pub after_item: bool,
}

impl Text {
    /// Appends an item or the beginning of one.
    fn push_item(&mut self, item: &str) -> Result<(), AllocError>
        ensures text { OnOk result (string_bytes self.new.bytes ≡ string_bytes self.old.bytes ++ (comma_if self.old.after_item ++ item.now)) }
        ensures after { OnOk result (self.new.after_item ≡ true) }
    {
        if self.after_item {
            self.bytes.push_str(",")?;
        }
        self.bytes.push_str(item)?;
        self.after_item = true;
        Ok(())
    }

    /// Appends an opening parenthesis.
    fn open(&mut self) -> Result<(), AllocError>
        ensures text { OnOk result (string_bytes self.new.bytes ≡ string_bytes self.old.bytes ++ 40 ∷ []) }
        ensures after { OnOk result (self.new.after_item ≡ false) }
    {
        self.bytes.push_str("(")?;
        self.after_item = false;
        Ok(())
    }

    /// Appends a closing parenthesis.
    fn close(&mut self) -> Result<(), AllocError>
        ensures text { OnOk result (string_bytes self.new.bytes ≡ string_bytes self.old.bytes ++ 41 ∷ []) }
        ensures after { OnOk result (self.new.after_item ≡ true) }
    {
        self.bytes.push_str(")")?;
        self.after_item = true;
        Ok(())
    }
}

/// Appends prefixes.
fn push_prefixes<'a>(
    prefixes: &'a [PrefixShape],
    entries: &mut Vec<Entry<'a>>,
) -> Result<(), AllocError>
    ensures prefixes { OnOk result (prefix_paths (named_parts entries.new.items) ≡ prefix_paths (named_parts entries.old.items) ++ map (λ x. x.path) prefixes.now) }
    ensures columns { OnOk result (column_paths (named_parts entries.new.items) ≡ column_paths (named_parts entries.old.items)) }
{
    for prefix in prefixes {
        entries.push(whole(prefix.path.names(), Part::Prefix(0)))?;
    }
    Ok(())
}

/// Appends columns.
fn push_columns<'a>(
    columns: &'a [ColumnShape],
    entries: &mut Vec<Entry<'a>>,
) -> Result<(), AllocError>
    ensures prefixes { OnOk result (prefix_paths (named_parts entries.new.items) ≡ prefix_paths (named_parts entries.old.items)) }
    ensures columns { OnOk result (column_paths (named_parts entries.new.items) ≡ column_paths (named_parts entries.old.items) ++ map (λ c. c.path) columns.now) }
{
    for column in columns {
        entries.push(whole(column.path.names(), Part::Column(0, None)))?;
    }
    Ok(())
}

/// The empty prefix, where a shape has it.
fn root_entries<'a>(alloc: Global, shape: &'a Shape) -> Result<Vec<Entry<'a>>, AllocError>
    ensures prefixes { IfOk result (λ v. prefix_paths (named_parts v.items) ++ map (λ x. x.path) shape.now.prefixes ≡ shape_prefixes shape.now) }
    ensures columns { IfOk result (λ v. column_paths (named_parts v.items) ≡ []) }
{
    let mut entries = Vec::new(alloc);
    match shape.root {
        Some(_) => {
            let none: &'a [Name] = &[];
            entries.push(whole(none, Part::Prefix(0)))?;
            Ok(entries)
        }
        None => Ok(entries),
    }
}

/// The prefixes and columns of a shape.
fn shape_entries<'a>(alloc: Global, shape: &'a Shape) -> Result<Vec<Entry<'a>>, AllocError>
    ensures { IfOk result (λ v. place_items (named_parts v.items) ≡ shape_items shape.now) }
{
    let mut entries = root_entries(alloc, shape)?;
    push_prefixes(shape.prefixes.as_slice(), &mut entries)?;
    push_columns(shape.columns.as_slice(), &mut entries)?;
    Ok(entries)
}

/// Whether a prefix ends at a place.
fn has_entity(place: &[Entry<'_>]) -> bool
    ensures { result ≡ list_any is_here (prefix_paths (named_parts place.now)) }
{
    for entry in place {
        if let Part::Prefix(_) = entry.part {
            if is_ended(*entry) {
                return true;
            }
        }
    }
    false
}

/// Whether a column ends with the name.
fn has_column(group: &[Entry<'_>]) -> bool
    ensures { result ≡ list_any ends_column (named_parts group.now) }
{
    for entry in group {
        if is_ended(*entry) && is_column(*entry) {
            return true;
        }
    }
    false
}

/// Appends the item of a column that ends with the name, if there is one.
fn push_name<'a>(
    name: &'a str,
    group: &[Entry<'a>],
    items: &mut Vec<Item<'a>>,
) -> Result<(), AllocError>
    ensures items { OnOk result (all_items items.new.items ≡ all_items items.old.items ++ (if list_any ends_column (named_parts group.now) then name.now ∷ [] else [])) }
    ensures kept { OnOk result (list_all is_item items.old.items ≡ true → list_all is_item items.new.items ≡ true) }
{
    if has_column(group) {
        items.push(Item::Column(name))?;
    }
    Ok(())
}

/// Appends the item of a segment, if something stands inside.
fn push_segment<'a>(
    name: &'a str,
    inside: Vec<Entry<'a>>,
    items: &mut Vec<Item<'a>>,
) -> Result<(), AllocError>
    requires { list_all goes_inside (named_parts inside.items) ≡ true }
    ensures items { OnOk result (all_items items.new.items ≡ all_items items.old.items ++ inside_items name.now (named_parts inside.entry.items)) }
    ensures kept { OnOk result (list_all is_item items.old.items ≡ true → list_all is_item items.new.items ≡ true) }
{
    if !inside.is_empty() {
        items.push(Item::Segment(name, inside))?;
    }
    Ok(())
}

/// Appends the items of one name: that of a column that ends with it, and that of its segment.
fn push_group<'a>(
    alloc: Global,
    group: &[Entry<'a>],
    items: &mut Vec<Item<'a>>,
) -> Result<(), AllocError>
    requires { 0 < length group.now }
    ensures items { OnOk result (all_items items.new.items ≡ all_items items.old.items ++ first_items (named_parts group.now)) }
    ensures kept { OnOk result (list_all is_item items.old.items ≡ true → list_all is_item items.new.items ≡ true) }
{
    let name = group[0].name;
    push_name(name, group, items)?;
    let inside = inside(alloc, group)?;
    push_segment(name, inside, items)?;
    Ok(())
}

/// The parts at a place that have an item, by byte order of names.
fn entries_at<'a>(alloc: Global, place: &[Entry<'a>]) -> Result<Vec<Entry<'a>>, AllocError>
    ensures { IfOk result (λ v. named_parts v.items ≡ sorted_parts (next_parts (named_parts place.now))) }
{
    let mut entries = next_entries(alloc, place)?;
    sort_by_name(&mut entries)?;
    Ok(entries)
}

/// The items at a place but `*`, in byte order of their names.
fn items_of<'a>(alloc: Global, place: &[Entry<'a>]) -> Result<Vec<Item<'a>>, AllocError>
    ensures items { IfOk result (λ v. (if list_any is_here (prefix_paths (named_parts place.now)) then codes "*" ∷ [] else []) ++ all_items v.items ≡ place_items (named_parts place.now)) }
    ensures all { IfOk result (λ v. list_all is_item v.items ≡ true) }
{
    let entries = entries_at(alloc, place)?;
    let parts = entries.as_slice();
    let mut items = Vec::new(alloc);
    let mut at = 0;
    while at < parts.len() {
        let end = at + group_length(&parts[at..]);
        push_group(alloc, &parts[at..end], &mut items)?;
        at = end;
    }
    Ok(items)
}

/// Puts items before what is still to be written, the first of them to be written next.
fn put_before<'a>(items: Vec<Item<'a>>, left: &mut Vec<Item<'a>>) -> Result<(), AllocError>
    ensures { OnOk result (left.new.items ≡ left.old.items ++ reverse items.entry.items) }
{
    let mut items = items;
    while let Some(item) = items.pop() {
        left.push(item)?;
    }
    Ok(())
}

/// Appends an opening parenthesis, and `*` where an entity stands at the place.
fn push_front(place: &[Entry<'_>], text: &mut Text) -> Result<(), AllocError>
    ensures text { OnOk result (string_bytes text.new.bytes ≡ string_bytes text.old.bytes ++ 40 ∷ (if list_any is_here (prefix_paths (named_parts place.now)) then codes "*" else [])) }
    ensures after { OnOk result (text.new.after_item ≡ list_any is_here (prefix_paths (named_parts place.now))) }
{
    text.open()?;
    if has_entity(place) {
        text.push_item("*")?;
    }
    Ok(())
}

/// Begins the items of a place: they are put before what is still to be written.
fn begin<'a>(
    alloc: Global,
    place: &[Entry<'a>],
    text: &mut Text,
    left: &mut Vec<Item<'a>>,
) -> Result<(), AllocError>
    ensures begun { OnOk result (filled text.new left.new.items ≡ string_bytes text.old.bytes ++ (parenthesised (place_items (named_parts place.now)) ++ left_text true (reverse left.old.items))) }
    ensures more { OnOk result (length (string_bytes text.old.bytes) < length (string_bytes text.new.bytes)) }
{
    push_front(place, text)?;
    left.push(Item::Close)?;
    let items = items_of(alloc, place)?;
    put_before(items, left)?;
    Ok(())
}

/// Writes an item, and puts what stands in it before what is still to be written.
fn write_next<'a>(
    alloc: Global,
    item: Item<'a>,
    text: &mut Text,
    left: &mut Vec<Item<'a>>,
) -> Result<(), AllocError>
    ensures same { OnOk result (filled text.new left.new.items ≡ filled text.old (left.old.items ++ item.entry ∷ [])) }
    ensures fewer { OnOk result (left_steps text.new left.new.items < left_steps text.old (left.old.items ++ item.entry ∷ [])) }
{
    match item {
        Item::Column(name) => {
            text.push_item(name)?;
            Ok(())
        }
        Item::Segment(name, place) => {
            text.push_item(name)?;
            begin(alloc, &place, text, left)?;
            Ok(())
        }
        Item::Close => {
            text.close()?;
            Ok(())
        }
    }
}

/// Appends the items of a shape in parentheses.
fn push_items(alloc: Global, shape: &Shape, text: &mut Text) -> Result<(), AllocError>
    ensures { OnOk result (string_bytes text.new.bytes ≡ string_bytes text.old.bytes ++ parenthesised (shape_items shape.now)) }
{
    let mut left = Vec::new(alloc);
    let entries = shape_entries(alloc, shape)?;
    begin(alloc, &entries, text, &mut left)?;
    while let Some(item) = left.pop() {
        write_next(alloc, item, text, &mut left)?;
    }
    Ok(())
}

/// The context: the set's name, and the items where the shape has more than the root.
pub(crate) fn context(alloc: Global, set: &str, shape: &Shape) -> Result<String, AllocError>
    ensures { IfOk result (λ s. string_bytes s ≡ context set.now shape.now) }
{
    let mut text = Text {
        bytes: String::from_str(alloc, "$metadata#")?,
        after_item: false,
    };
    text.bytes.push_str(set)?;
    if shape.prefixes.as_slice().is_empty() && shape.columns.as_slice().is_empty() {
        return Ok(text.bytes);
    }
    push_items(alloc, shape, &mut text)?;
    Ok(text.bytes)
}
