//! The parts of a row or of a shape by their paths, seen from a place on the way.
ghost use Rattle.std.specs.Prelude.{◌≡◌, [], ◌≤◌, ◌<◌, filter, filter_map, length, map, IfOk, IfSome, OnOk, option_map};
ghost use Rattle.json_render.specs.Places.{NamedPart, first_run, goes_inside, inside_of, is_column, is_ended, named_parts, next_part, next_parts, seen, sorted_parts};

use apply_ast::Name;
use std::alloc::{AllocError, Global};

/// The name of a type that is written beside a member (JSON Format 4.01, "Control Information: type").
#[derive(Clone, Copy, PartialEq, Eq, Drop)]
pub(crate) enum TypeName {
    Int64,
    Decimal,
    Date,
}

/// What stands at a path.
#[derive(Clone, Copy, Drop)]
pub(crate) enum Part {
    /// The prefix at this place of the list.
    Prefix(usize),
    /// The column at this place of the list, and the type that is written beside it, if any.
    Column(usize, Option<TypeName>),
    /// A property, by its place, of the entity at the prefix at this place.
    Property(usize, usize),
}

/// A part, seen from a place: the next name of its path, the names behind that one, and the part.
#[derive(Clone, Copy, Drop)]
pub(crate) struct Entry<'a> {
    pub name: &'a str,
    pub rest: &'a [Name],
    pub part: Part,
}

/// The part as it is seen from where its path begins.
pub(crate) fn whole<'a>(path: &'a [Name], part: Part) -> Entry<'a>
    ensures { seen result ≡ record { name = []; rest = path.now; part = part } }
{
    Entry {
        name: "",
        rest: path,
        part,
    }
}

/// The part as it is seen from behind the name; none where the path ends there, as that of a property does.
pub(crate) fn next<'a>(entry: Entry<'a>) -> Option<Entry<'a>>
    ensures { option_map seen result ≡ next_part (seen entry.entry) }
{
    let Entry { rest, part, .. } = entry;
    if let Part::Property(_, _) = part {
        return None;
    }
    let (first, rest) = rest.split_first()?;
    let name = first.text();
    Some(Entry { name, rest, part })
}

/// Whether it is a column.
pub(crate) fn is_column(entry: Entry<'_>) -> bool
    ensures { result ≡ is_column (seen entry.entry) }
{
    matches!(entry.part, Part::Column(_, _))
}

/// Whether the path ends with the name.
pub(crate) fn is_ended(entry: Entry<'_>) -> bool
    ensures { result ≡ is_ended (seen entry.entry) }
{
    entry.rest.is_empty()
}

/// Whether the part belongs to the segment of the name: a prefix, or a column further on.
pub(crate) fn goes_inside(entry: Entry<'_>) -> bool
    ensures { result ≡ goes_inside (seen entry.entry) }
{
    match entry.part {
        Part::Prefix(_) => true,
        Part::Column(_, _) => !entry.rest.is_empty(),
        Part::Property(_, _) => false,
    }
}

/// The parts as they are seen from behind the name, without those whose path ends there.
pub(crate) fn next_entries<'a>(
    alloc: Global,
    entries: &[Entry<'a>],
) -> Result<Vec<Entry<'a>>, AllocError>
    ensures { IfOk result (λ v. named_parts v.items ≡ next_parts (named_parts entries.now)) }
{
    let mut all = Vec::new(alloc);
    for entry in entries {
        if let Some(next) = next(*entry) {
            all.push(next)?;
        }
    }
    Ok(all)
}

/// Those of the parts that belong to the segment of the name.
pub(crate) fn inside<'a>(alloc: Global, entries: &[Entry<'a>]) -> Result<Vec<Entry<'a>>, AllocError>
    ensures { IfOk result (λ v. named_parts v.items ≡ inside_of (named_parts entries.now)) }
{
    let mut all = Vec::new(alloc);
    for entry in entries {
        if goes_inside(*entry) {
            all.push(*entry)?;
        }
    }
    Ok(all)
}

/// Puts the entries into byte order of their names; those of one name keep their order.
pub(crate) fn sort_by_name(entries: &mut Vec<Entry<'_>>) -> Result<(), AllocError>
    ensures { OnOk result (named_parts entries.new.items ≡ sorted_parts (named_parts entries.old.items)) }
{
    entries.sort_by(|a, b| a.name.cmp(b.name))?;
    Ok(())
}

/// How many entries from the first on have its name.
pub(crate) fn group_length(entries: &[Entry<'_>]) -> usize
    requires { 0 < length entries.now }
    ensures value { result ≡ first_run (named_parts entries.now) }
    ensures some { 0 < result }
    ensures within { result ≤ length entries.now }
{
    let name = entries[0].name;
    for (k, entry) in entries.iter().enumerate() {
        if entry.name != name {
            return k;
        }
    }
    entries.len()
}
