//! Groups of places by their keys.
ghost use Rattle.std.specs.Prelude.{◌≡◌, ◌<◌, ◌≤◌, ◌-◌, List, [], ◌∷◌, ◌++◌, All, length, map, reverse, take, slice_get, slice_index_or, Some, IfOk, OnOk};
ghost use Rattle.std.specs.List.{range_with_len};
ghost use Rattle.std.specs.Option.{option_map};
ghost use Rattle.edm_values.specs.declared.Value.{Value as Value'};
ghost use Rattle.par_stages.specs.Placed.{placed};
ghost use Rattle.aggregate_ops.specs.Fronts.{AreGroupsOf, Entry};
ghost use Rattle.aggregate_ops.specs.Spans.{AreSpansOf, spanned};
ghost use Rattle.aggregate_ops.specs.KeyTables.{groups_of, map_groups};

use crate::fronts::{by_front, by_fronts};
use crate::hashed::HashedKey;
use crate::key_maps::KeyMap;
use crate::seeds::Seed;
use edm_values::Value;
use std::alloc::{AllocError, Global};
use std::marker::Model;
use std::sync::Arc;

/// A key: values that stand one after the other in a list, which keys share.
#[derive(Drop)]
struct SharedKey {
    values: Arc<Vec<Value>>,
    begin: usize,
    end: usize,
}

impl Model for SharedKey {
    ghost use Rattle.std.specs.Prelude.{◌≤◌, List, length};
    ghost use Rattle.std.specs.Arc.{arc_value};
    ghost use Rattle.edm_values.specs.declared.Value.{Value as Value'};
    ghost use Rattle.aggregate_ops.specs.Spans.{span};

    ghost Value = { List Value' };

    ghost view = { λ k. span (arc_value k.values).items k.begin k.end };

    ghost invariant = { λ k. (k.begin ≤ k.end) × (k.end ≤ length (arc_value k.values).items) };
}

impl SharedKey {
    /// The values.
    fn values(&self) -> &[Value]
        ensures { result.now ≡ self.now }
    {
        &self.values.as_slice()[self.begin..self.end]
    }

    /// The first values, in the same list.
    fn front(&self, front: usize) -> Result<SharedKey, AllocError>
        requires { front ≤ length self.now }
        ensures { IfOk result (λ key. key ≡ take front self.now) }
    {
        Ok(SharedKey {
            values: Arc::try_clone(&self.values)?,
            begin: self.begin,
            end: self.begin + front,
        })
    }
}

/// A key and its places, ascending.
#[derive(Drop)]
pub(crate) struct Group {
    key: SharedKey,
    places: Vec<usize>,
}

impl Model for Group {
    ghost use Rattle.std.specs.Prelude.{List, ℕ};
    ghost use Rattle.edm_values.specs.declared.Value.{Value as Value'};

    ghost Value = { List Value' × List ℕ };

    ghost view = { λ g. (g.key, g.places.items) };
}

impl Group {
    /// The group of the first values of this one's key, that has no place yet.
    pub(crate) fn begun(&self, alloc: Global, front: usize) -> Result<Group, AllocError>
        requires { front ≤ length self.now.0 }
        ensures { IfOk result (λ g. g ≡ (take front self.now.0, [])) }
    {
        Ok(Group {
            key: self.key.front(front)?,
            places: Vec::new(alloc),
        })
    }

    /// Value k of the key, counted from 0.
    pub(crate) fn value(&self, k: usize) -> &Value
        requires { k < length self.now.0 }
        ensures { result.now ≡ slice_index_or self.now.0 k Value'.Null }
    {
        &self.key.values()[k]
    }

    /// The places.
    pub(crate) fn places(&self) -> &[usize]
        ensures { result.now ≡ self.now.1 }
    {
        self.places.as_slice()
    }

    /// Adds a place behind the others.
    pub(crate) fn add(&mut self, place: usize) -> Result<(), AllocError>
        ensures { OnOk result (self.new ≡ (self.old.0, self.old.1 ++ place ∷ [])) }
    {
        self.places.push(place)?;
        Ok(())
    }
}

/// Where a key begins and ends in a list of the values of keys, and its places.
#[derive(Drop)]
struct Span {
    begin: usize,
    end: usize,
    places: Vec<usize>,
}

/// Puts copies of a key's values behind those of the list, and says where they stand.
fn span_of(
    alloc: Global,
    key: &HashedKey<'_, '_>,
    places: Vec<usize>,
    values: &mut Vec<Value>,
) -> Result<Span, AllocError>
    ensures put { OnOk result (values.new.items ≡ values.old.items ++ key.now) }
    ensures span { IfOk result (λ s. s ≡ record { begin = length values.old.items; end = length values.new.items; places = places }) }
{
    let begin = values.len();
    key.put_values(alloc, values)?;
    let end = values.len();
    Ok(Span { begin, end, places })
}

/// The keys and places of a map, which is given up: the values of all keys, copied, and where each key stands among them.
fn spans_of(
    alloc: Global,
    map: KeyMap<'_, '_>,
    values: &mut Vec<Value>,
) -> Result<Vec<Span>, AllocError>
    requires { values.old.items ≡ [] }
    ensures { IfOk result (λ spans. AreSpansOf values.new.items (map_groups map.entry.entries) spans.items) }
{
    let mut spans = Vec::with_capacity(alloc, map.len())?;
    for (key, places) in map {
        spans.push(span_of(alloc, &key, places, values)?)?;
    }
    Ok(spans)
}

/// The same of a map that is kept.
fn copied_spans(
    alloc: Global,
    map: &KeyMap<'_, '_>,
    values: &mut Vec<Value>,
) -> Result<Vec<Span>, AllocError>
    requires { values.old.items ≡ [] }
    ensures { IfOk result (λ spans. AreSpansOf values.new.items (map_groups map.now.entries) spans.items) }
{
    let mut spans = Vec::with_capacity(alloc, map.len())?;
    for (key, places) in map {
        let places = Vec::from_slice(alloc, places.as_slice())?;
        spans.push(span_of(alloc, key, places, values)?)?;
    }
    Ok(spans)
}

/// The groups whose keys stand there.
fn spanned(alloc: Global, values: Vec<Value>, spans: Vec<Span>) -> Result<Vec<Group>, AllocError>
    requires { (entries : List Entry) × AreSpansOf values.items entries spans.items }
    ensures { IfOk result (λ groups. groups.items ≡ map (spanned values.items) spans.items) }
{
    let values = Arc::new(alloc, values)?;
    let mut groups = Vec::with_capacity(alloc, spans.len())?;
    for span in spans {
        let key = SharedKey {
            values: Arc::try_clone(&values)?,
            begin: span.begin,
            end: span.end,
        };
        groups.push(Group {
            key,
            places: span.places,
        })?;
    }
    Ok(groups)
}

/// The group of these places whose key has no values.
fn whole_group(alloc: Global, places: Vec<usize>) -> Result<Group, AllocError>
    ensures { IfOk result (λ g. g ≡ ([], places.items)) }
{
    let values = Arc::new(alloc, Vec::new(alloc))?;
    let key = SharedKey {
        values,
        begin: 0,
        end: 0,
    };
    Ok(Group { key, places })
}

/// The groups of a list of key lists: the distinct keys in order of first appearance, each with its places.
#[derive(Drop)]
pub struct Groups {
    groups: Vec<Group>,
    seed: Seed,
}

impl Model for Groups {
    ghost use Rattle.std.specs.Prelude.{List, ℕ};
    ghost use Rattle.edm_values.specs.declared.Value.{Value as Value'};

    ghost Value = { List (List Value' × List ℕ) };

    ghost view = { λ g. g.groups.items };
}

/// The groups of each level.
fn as_groups(alloc: Global, levels: Vec<Vec<Group>>, seed: Seed) -> Result<Vec<Groups>, AllocError>
    ensures { IfOk result (λ found. found.items ≡ map (λ l. l.items) levels.items) }
{
    let mut found = Vec::with_capacity(alloc, levels.len())?;
    for groups in levels {
        found.push(Groups { groups, seed })?;
    }
    Ok(found)
}

impl Groups {
    /// A copy of what the map holds.
    pub(crate) fn of(alloc: Global, map: &KeyMap<'_, '_>) -> Result<Groups, AllocError>
        ensures { IfOk result (λ g. g ≡ map_groups map.now.entries) }
    {
        let mut values = Vec::new(alloc);
        let spans = copied_spans(alloc, map, &mut values)?;
        Ok(Groups {
            groups: spanned(alloc, values, spans)?,
            seed: *map.hasher(),
        })
    }

    /// What the map holds, which is given up: no list of places is copied.
    pub(crate) fn from_map(alloc: Global, map: KeyMap<'_, '_>) -> Result<Groups, AllocError>
        ensures { IfOk result (λ g. g ≡ map_groups map.entry.entries) }
    {
        let seed = *map.hasher();
        let mut values = Vec::new(alloc);
        let spans = spans_of(alloc, map, &mut values)?;
        Ok(Groups {
            groups: spanned(alloc, values, spans)?,
            seed,
        })
    }

    /// The groups of key lists without values, which have these places: one of all places, or none where there is no place. No
    /// list of places is copied.
    pub fn whole(alloc: Global, places: Vec<usize>, seed: Seed) -> Result<Groups, AllocError>
        ensures value { IfOk result (λ g. g ≡ groups_of (map (λ p. ([], p)) places.items)) }
    {
        let mut groups = Vec::new(alloc);
        if places.is_empty() {
            return Ok(Groups { groups, seed });
        }
        groups.push(whole_group(alloc, places)?)?;
        Ok(Groups { groups, seed })
    }

    /// The groups of so many rows by the first values of their keys, made from these, their groups by all of them. Values of keys
    /// are compared for each group, and no more for each row. The keys are shared with these groups.
    pub fn by_front(&self, alloc: Global, front: usize, rows: usize) -> Result<Groups, AllocError>
        requires long { All (λ g. front ≤ length g.0) self.now }
        requires groups { (keys : List (List Value')) × AreGroupsOf rows keys self.now }
        ensures value { IfOk result (λ found. (keys : List (List Value')) → AreGroupsOf rows keys self.now → found ≡ groups_of (placed 0 (map (take front) keys))) }
    {
        let groups = by_front(alloc, self.groups.as_slice(), front, rows, self.seed)?;
        Ok(Groups {
            groups,
            seed: self.seed,
        })
    }

    /// The groups of so many rows by the first values of their keys, as `by_front` has them, for each number of values from one
    /// less than `width` down to `least`.
    pub fn by_fronts(
        &self,
        alloc: Global,
        least: usize,
        width: usize,
        rows: usize,
    ) -> Result<Vec<Groups>, AllocError>
        requires least { least ≤ width }
        requires long { All (λ g. width ≤ length g.0) self.now }
        requires groups { (keys : List (List Value')) × AreGroupsOf rows keys self.now }
        ensures value { IfOk result (λ found. (keys : List (List Value')) → AreGroupsOf rows keys self.now → found.items ≡ map (λ j. groups_of (placed 0 (map (take j) keys))) (reverse (range_with_len least (width - least)))) }
    {
        let levels = by_fronts(alloc, self.groups.as_slice(), least, width, rows, self.seed)?;
        let mut found = as_groups(alloc, levels, self.seed)?;
        found.reverse();
        Ok(found)
    }

    /// How many groups there are.
    pub fn len(&self) -> usize
        ensures value { result ≡ length self.now }
    {
        self.groups.len()
    }

    /// The key of group k, counted from 0.
    pub fn key(&self, k: usize) -> &[Value]
        requires { k < length self.now }
        ensures value { Some result.now ≡ option_map (λ g. g.0) (slice_get self.now k) }
    {
        self.groups[k].key.values()
    }

    /// The places of group k, counted from 0, in the order of the list.
    pub fn places(&self, k: usize) -> &[usize]
        requires { k < length self.now }
        ensures value { Some result.now ≡ option_map (λ g. g.1) (slice_get self.now k) }
    {
        self.groups[k].places.as_slice()
    }
}
