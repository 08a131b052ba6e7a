//! The members of a row's object, by which its template is made.
ghost use Rattle.std.specs.Prelude.{◌≡◌, ◌++◌, ◌∷◌, [], ◌&&◌, ◌<◌, ◌≤◌, length, map, not, option_map, reverse, unwrap_or, true, IfOk, IsTrue, OnOk};
ghost use Rattle.std.specs.List.{list_all};
ghost use Rattle.std.specs.Option.{option_copied};
ghost use Rattle.serde_json.specs.Written.{compact_text};
ghost use Rattle.edm_model.specs.JsonTrees.{object_of};
ghost use Rattle.edm_model.specs.LookUps.{IsSet};
ghost use Rattle.edm_data.specs.Worlds.{World};
ghost use Rattle.context_typing.specs.Paths.{at_path};
ghost use Rattle.context_typing.specs.Typing.{columns_differ};
ghost use Rattle.apply_meaning.specs.Instances.{Instance};
ghost use Rattle.apply_meaning.specs.RowViews.{is_of};
ghost use Rattle.json_render.specs.Bodies.{is_bound_to_none, is_empty, row_json, value_members};
ghost use Rattle.json_render.specs.Places.{goes_inside, named_parts, sorted_parts};
ghost use Rattle.json_render.specs.RowTexts.{SamePattern, all_members, column_parts, column_path, columns_seen, group_members, group_value, here_place, inside_members, is_member, leaf_seen, leaf_shown, parts_at, place_members, property_parts, filled, first_members, prefix_parts, prefix_path, prefixes_seen, row_parts, set_parts, shown_name, template_text, unwritten_text};
ghost use Rattle.json_render.specs.RowTexts as row_texts;

use crate::entries::{
    Entry, Part, TypeName, group_length, inside, is_column, is_ended, next_entries, sort_by_name,
    whole,
};
use crate::shown::ShownRow;
use crate::templates::{Slot, Template};
use apply_ast::Name;
use context_typing::{ColumnShape, Shape, same_path};
use edm_data::Data;
use edm_model::{Model, SetId};
use edm_values::EdmType;
use std::alloc::{AllocError, Global};

/// A value as it is shown: where it stands, and the name of its type, if that is shown.
#[derive(Clone, Copy, Drop)]
pub(crate) struct Leaf {
    pub kind: Option<TypeName>,
    pub slot: Slot,
}

/// A member that is still to be written.
#[derive(Drop)]
pub(crate) enum Unwritten<'a> {
    /// A value, and the name of its type, if that is shown.
    Value(&'a str, Option<TypeName>, Slot),
    /// A segment bound to none.
    Null(&'a str),
    /// A segment, with what stands inside.
    Object(&'a str, Vec<Entry<'a>>),
    /// The end of an object.
    Close,
}

/// The name of the type that stands beside a dynamic member (JSON Format 4.01, "Control Information: type").
fn type_name(kind: EdmType) -> Option<TypeName>
    ensures { result ≡ row_texts.type_name kind }
{
    match kind {
        EdmType::Int => Some(TypeName::Int64),
        EdmType::Dec { .. } => Some(TypeName::Decimal),
        EdmType::Day => Some(TypeName::Date),
        EdmType::Bool | EdmType::Text => None,
    }
}

/// The column of a path, by a scan.
fn column_of<'a>(columns: &'a [ColumnShape], path: &[Name]) -> Option<&'a ColumnShape>
    ensures { option_copied result ≡ at_path (λ c. c.path) columns.now path.now }
{
    columns
        .iter()
        .find(|column| same_path(column.path.names(), path))
}

/// The column of a path, which is likely to stand at this place.
fn column_near<'a>(
    columns: &'a [ColumnShape],
    place: usize,
    path: &[Name],
) -> Option<&'a ColumnShape>
    requires { IsTrue (columns_differ columns.now) }
    ensures { option_copied result ≡ at_path (λ c. c.path) columns.now path.now }
{
    if place < columns.len() {
        let column = &columns[place];
        if same_path(column.path.names(), path) {
            return Some(column);
        }
    }
    column_of(columns, path)
}

/// The name of the type that is shown beside the column of a path, which is likely to stand at this place of the shape.
fn shown_name(shape: &Shape, place: usize, path: &[Name]) -> Option<TypeName>
    requires { IsTrue (columns_differ shape.now.columns) }
    ensures { result ≡ shown_name shape.now path.now }
{
    match column_near(shape.columns.as_slice(), place, path) {
        Some(column) if !column.declared => type_name(column.kind),
        _ => None,
    }
}

/// Appends the prefixes of a row, the empty one first.
fn push_prefixes<'a>(row: &ShownRow<'a>, entries: &mut Vec<Entry<'a>>) -> Result<(), AllocError>
    ensures { OnOk result (named_parts entries.new.items ≡ named_parts entries.old.items ++ prefix_parts 0 (map prefix_path row.now.prefixes)) }
{
    for k in 0..row.prefix_count() {
        entries.push(whole(row.prefix_path(k), Part::Prefix(k)))?;
    }
    Ok(())
}

/// Appends the columns of a row.
fn push_columns<'a>(
    shape: &Shape,
    row: &ShownRow<'a>,
    entries: &mut Vec<Entry<'a>>,
) -> Result<(), AllocError>
    requires { IsTrue (columns_differ shape.now.columns) }
    ensures { OnOk result (named_parts entries.new.items ≡ named_parts entries.old.items ++ column_parts shape.now 0 (map column_path row.now.columns)) }
{
    for k in 0..row.column_count() {
        let path = row.column_path(k);
        let part = Part::Column(k, shown_name(shape, k, path));
        entries.push(whole(path, part))?;
    }
    Ok(())
}

/// The prefixes and columns of a row.
fn row_entries<'a>(
    alloc: Global,
    shape: &Shape,
    row: &ShownRow<'a>,
) -> Result<Vec<Entry<'a>>, AllocError>
    requires { IsTrue (columns_differ shape.now.columns) }
    ensures { IfOk result (λ v. named_parts v.items ≡ row_parts shape.now row.now) }
{
    let mut entries = Vec::new(alloc);
    push_prefixes(row, &mut entries)?;
    push_columns(shape, row, &mut entries)?;
    Ok(entries)
}

/// The place of the prefix that ends at a place, if there is one.
fn prefix_here(place: &[Entry<'_>]) -> Option<usize>
    ensures { result ≡ here_place (named_parts place.now) }
{
    for entry in place {
        if let Part::Prefix(k) = entry.part {
            if is_ended(*entry) {
                return Some(k);
            }
        }
    }
    None
}

/// Whether one of the parts is a column.
fn has_column(place: &[Entry<'_>]) -> bool
    ensures { (i : Instance) → is_empty (columns_seen i (named_parts place.now)) ≡ not result }
{
    for entry in place {
        if is_column(*entry) {
            return true;
        }
    }
    false
}

/// Whether the prefix that ends at a place is there and bound to none.
fn is_unbound(row: &ShownRow<'_>, place: &[Entry<'_>]) -> bool
    ensures { (i : Instance) → SamePattern row.now i → is_bound_to_none (prefixes_seen i (named_parts place.now)) ≡ result }
{
    match prefix_here(place) {
        Some(k) => row.bound(k).is_none(),
        None => false,
    }
}

/// Whether what stands at a place is shown as null: its prefix is bound to none, and no column stands there.
fn is_null(row: &ShownRow<'_>, place: &[Entry<'_>]) -> bool
    ensures { (i : Instance) → SamePattern row.now i → (is_bound_to_none (prefixes_seen i (named_parts place.now)) && is_empty (columns_seen i (named_parts place.now))) ≡ result }
{
    is_unbound(row, place) && !has_column(place)
}

/// Appends the properties of an entity of this set, which is bound to the prefix at this place.
fn push_properties<'a>(
    model: &'a Model,
    k: usize,
    set: SetId,
    entries: &mut Vec<Entry<'a>>,
) -> Result<(), AllocError>
    requires { IsSet model.now set }
    ensures { OnOk result (named_parts entries.new.items ≡ named_parts entries.old.items ++ set_parts model.now k set) }
{
    let rest: &'a [Name] = &[];
    for (at, property) in model.props(model.set_type(set)).iter().enumerate() {
        let name = model.prop_name(*property);
        let part = Part::Property(k, at);
        entries.push(Entry { name, rest, part })?;
    }
    Ok(())
}

/// Appends the properties of the entity at the prefix at this place, if it has one.
fn push_entity<'a>(
    store: &'a Data,
    row: &ShownRow<'_>,
    k: usize,
    entries: &mut Vec<Entry<'a>>,
) -> Result<(), AllocError>
    requires { IsTrue (is_of store.now row.now) }
    ensures { OnOk result (named_parts entries.new.items ≡ named_parts entries.old.items ++ property_parts store.now row.now k) }
{
    match row.bound(k) {
        Some(entity) => push_properties(store.model(), k, entity.set, entries),
        None => Ok(()),
    }
}

/// Appends the properties of the entity at a place, if there is one.
fn push_here<'a>(
    store: &'a Data,
    row: &ShownRow<'_>,
    place: &[Entry<'a>],
    entries: &mut Vec<Entry<'a>>,
) -> Result<(), AllocError>
    requires { IsTrue (is_of store.now row.now) }
    ensures { OnOk result (named_parts entries.new.items ≡ named_parts entries.old.items ++ unwrap_or (option_map (property_parts store.now row.now) (here_place (named_parts place.now))) []) }
{
    match prefix_here(place) {
        Some(k) => push_entity(store, row, k, entries),
        None => Ok(()),
    }
}

/// The parts that have a member at a place, by byte order of names: its prefixes and columns further on, and the
/// properties of its entity behind them.
fn entries_at<'a>(
    alloc: Global,
    store: &'a Data,
    row: &ShownRow<'_>,
    place: &[Entry<'a>],
) -> Result<Vec<Entry<'a>>, AllocError>
    requires { IsTrue (is_of store.now row.now) }
    ensures { IfOk result (λ v. named_parts v.items ≡ sorted_parts (parts_at store.now row.now (named_parts place.now))) }
{
    let mut entries = next_entries(alloc, place)?;
    push_here(store, row, place, &mut entries)?;
    sort_by_name(&mut entries)?;
    Ok(entries)
}

/// The value that a part shows where its path ends.
fn leaf_of(entry: Entry<'_>) -> Option<Leaf>
    ensures { (w : World) (i : Instance) → option_map (leaf_shown w i) result ≡ leaf_seen w i entry.entry.part entry.entry.rest.now }
{
    match entry.part {
        Part::Prefix(_) => None,
        Part::Column(k, kind) => {
            if is_ended(entry) {
                let slot = Slot::Column(k);
                Some(Leaf { kind, slot })
            } else {
                None
            }
        }
        Part::Property(k, property) => {
            let slot = Slot::Property(k, property);
            Some(Leaf { kind: None, slot })
        }
    }
}

/// The value that is shown at a name: that of the column that ends with it, or else of the property.
fn first_leaf(group: &[Entry<'_>]) -> Option<Leaf>
    ensures { (w : World) (i : Instance) → option_map (leaf_shown w i) result ≡ group_value w i (named_parts group.now) }
{
    for entry in group {
        if let Some(leaf) = leaf_of(*entry) {
            return Some(leaf);
        }
    }
    None
}

/// Appends the member of a value, if there is one.
fn push_leaf<'a>(
    name: &'a str,
    leaf: Option<Leaf>,
    members: &mut Vec<Unwritten<'a>>,
) -> Result<(), AllocError>
    ensures members { OnOk result ((w : World) (i : Instance) → all_members w i members.new.items ≡ all_members w i members.old.items ++ unwrap_or (option_map (value_members name.now) (option_map (leaf_shown w i) leaf)) []) }
    ensures kept { OnOk result (list_all is_member members.old.items ≡ true → list_all is_member members.new.items ≡ true) }
{
    if let Some(leaf) = leaf {
        members.push(Unwritten::Value(name, leaf.kind, leaf.slot))?;
    }
    Ok(())
}

/// Appends the member of a segment, if something stands inside.
fn push_segment<'a>(
    row: &ShownRow<'_>,
    name: &'a str,
    inside: Vec<Entry<'a>>,
    members: &mut Vec<Unwritten<'a>>,
) -> Result<(), AllocError>
    requires { list_all goes_inside (named_parts inside.items) ≡ true }
    ensures members { OnOk result ((w : World) (i : Instance) → SamePattern row.now i → all_members w i members.new.items ≡ all_members w i members.old.items ++ inside_members w i name.now (named_parts inside.entry.items)) }
    ensures kept { OnOk result (list_all is_member members.old.items ≡ true → list_all is_member members.new.items ≡ true) }
{
    if inside.is_empty() {
        return Ok(());
    }
    if is_null(row, &inside) {
        members.push(Unwritten::Null(name))?;
    } else {
        members.push(Unwritten::Object(name, inside))?;
    }
    Ok(())
}

/// Appends the members of one name: the value, and then the segment.
fn push_group<'a>(
    alloc: Global,
    row: &ShownRow<'_>,
    group: &[Entry<'a>],
    members: &mut Vec<Unwritten<'a>>,
) -> Result<(), AllocError>
    requires { 0 < length group.now }
    ensures members { OnOk result ((w : World) (i : Instance) → SamePattern row.now i → all_members w i members.new.items ≡ all_members w i members.old.items ++ first_members w i (named_parts group.now)) }
    ensures kept { OnOk result (list_all is_member members.old.items ≡ true → list_all is_member members.new.items ≡ true) }
{
    let name = group[0].name;
    push_leaf(name, first_leaf(group), members)?;
    let inside = inside(alloc, group)?;
    push_segment(row, name, inside, members)?;
    Ok(())
}

/// The members at a place, in byte order of their names.
fn members_of<'a>(
    alloc: Global,
    store: &'a Data,
    row: &ShownRow<'_>,
    place: &[Entry<'a>],
) -> Result<Vec<Unwritten<'a>>, AllocError>
    requires { IsTrue (is_of store.now row.now) }
    ensures members { IfOk result (λ v. (i : Instance) → SamePattern row.now i → all_members store.now i v.items ≡ place_members store.now i (named_parts place.now)) }
    ensures all { IfOk result (λ v. list_all is_member v.items ≡ true) }
{
    let entries = entries_at(alloc, store, row, place)?;
    let parts = entries.as_slice();
    let mut members = Vec::new(alloc);
    let mut at = 0;
    while at < parts.len() {
        let end = at + group_length(&parts[at..]);
        push_group(alloc, row, &parts[at..end], &mut members)?;
        at = end;
    }
    Ok(members)
}

/// Puts members before what is still to be written, the first of them to be written next.
fn put_before<'a>(
    members: Vec<Unwritten<'a>>,
    left: &mut Vec<Unwritten<'a>>,
) -> Result<(), AllocError>
    ensures { OnOk result (left.new.items ≡ left.old.items ++ reverse members.entry.items) }
{
    let mut members = members;
    while let Some(member) = members.pop() {
        left.push(member)?;
    }
    Ok(())
}

/// Begins the object of a place: its members are put before what is still to be written.
fn begin<'a>(
    alloc: Global,
    store: &'a Data,
    row: &ShownRow<'_>,
    place: &[Entry<'a>],
    template: &mut Template,
    left: &mut Vec<Unwritten<'a>>,
) -> Result<(), AllocError>
    requires { IsTrue (is_of store.now row.now) }
    ensures text { OnOk result ((i : Instance) → template_text store.now i template.new ≡ template_text store.now i template.old ++ 123 ∷ []) }
    ensures begun { OnOk result ((i : Instance) → SamePattern row.now i → filled store.now i template.new left.new.items ≡ template_text store.now i template.old ++ (compact_text (object_of (place_members store.now i (named_parts place.now))) ++ unwritten_text store.now i true (reverse left.old.items))) }
{
    template.open()?;
    left.push(Unwritten::Close)?;
    let members = members_of(alloc, store, row, place)?;
    put_before(members, left)?;
    Ok(())
}

/// Writes a member, and puts what stands in it before what is still to be written.
fn write_next<'a>(
    alloc: Global,
    store: &'a Data,
    row: &ShownRow<'_>,
    member: Unwritten<'a>,
    template: &mut Template,
    left: &mut Vec<Unwritten<'a>>,
) -> Result<(), AllocError>
    requires { IsTrue (is_of store.now row.now) }
    ensures same { OnOk result ((i : Instance) → SamePattern row.now i → filled store.now i template.new left.new.items ≡ filled store.now i template.old (left.old.items ++ member.entry ∷ [])) }
    ensures more { OnOk result (length (template_text store.now row.now template.old) < length (template_text store.now row.now template.new)) }
{
    match member {
        Unwritten::Value(name, kind, slot) => {
            template.push_value(alloc, name, kind, slot)?;
            Ok(())
        }
        Unwritten::Null(name) => {
            template.push_null(alloc, name)?;
            Ok(())
        }
        Unwritten::Object(name, place) => {
            template.push_name(alloc, name)?;
            begin(alloc, store, row, &place, template, left)?;
            Ok(())
        }
        Unwritten::Close => {
            template.close()?;
            Ok(())
        }
    }
}

/// The template of a row, which is that of every row with the same pattern.
pub(crate) fn row_template(
    alloc: Global,
    store: &Data,
    shape: &Shape,
    row: &ShownRow<'_>,
) -> Result<Template, AllocError>
    requires entities { IsTrue (is_of store.now row.now) }
    requires columns { IsTrue (columns_differ shape.now.columns) }
    ensures { IfOk result (λ t. (i : Instance) → SamePattern row.now i → template_text store.now i t ≡ compact_text (row_json store.now shape.now i)) }
{
    let mut template = Template::new(alloc);
    let mut left = Vec::new(alloc);
    let entries = row_entries(alloc, shape, row)?;
    begin(alloc, store, row, &entries, &mut template, &mut left)?;
    while let Some(member) = left.pop() {
        write_next(alloc, store, row, member, &mut template, &mut left)?;
    }
    Ok(template)
}
