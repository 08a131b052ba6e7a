//! Templates of rows: the text of a row with a gap for each value.
ghost use Rattle.std.specs.Prelude.{◌≡◌, ◌++◌, ◌∷◌, [], codes, false, true, IsTrue, OnOk, ◌||◌, is_some, option_map, slice_get};
ghost use Rattle.std.specs.Bool.{IsFalse};
ghost use Rattle.serde_json.specs.Data.{null, string};
ghost use Rattle.serde_json.specs.Written.{comma_if};
ghost use Rattle.edm_values.specs.Values.{seen_value};
ghost use Rattle.edm_model.specs.LookUps.{IsSet};
ghost use Rattle.edm_data.specs.References.{property};
ghost use Rattle.edm_data.specs.Worlds.{World};
ghost use Rattle.apply_meaning.specs.Instances.{Instance};
ghost use Rattle.apply_meaning.specs.RowViews.{is_of};
ghost use Rattle.json_render.specs.Bodies.{has_beyond, type_members, value_members};
ghost use Rattle.json_render.specs.RowTexts.{members_run, slot_value, template_text, text_json, value_text};
ghost use Rattle.json_render.specs.RowTexts as row_texts;

use crate::entries::TypeName;
use crate::shown::ShownRow;
use crate::texts::{push_text, push_value};
use edm_data::{Data, EntityRef};
use edm_model::PropId;
use edm_values::Seen;
use std::alloc::{AllocError, Global};

/// Where a value of a row stands.
#[derive(Clone, Copy, Drop)]
pub(crate) enum Slot {
    /// In the column at this place.
    Column(usize),
    /// In a property, by its place, of the entity at the prefix at this place.
    Property(usize, usize),
}

/// The name of a type as it is written.
fn type_word(name: TypeName) -> &'static str
    ensures { result.now ≡ row_texts.type_word name }
{
    match name {
        TypeName::Int64 => "Int64",
        TypeName::Decimal => "Decimal",
        TypeName::Date => "Date",
    }
}

/// A text, and the value that follows it.
#[derive(Drop)]
struct Piece {
    text: Vec<u8>,
    slot: Slot,
}

/// The text of a row with a gap for each value.
#[derive(Drop)]
pub(crate) struct Template {
    pieces: Vec<Piece>,
    /// What stands behind the last value.
    tail: Vec<u8>,
    /// Whether a member stands directly before what comes next.
    after_member: bool,
}

impl Template {
    /// The template of no text.
    pub(crate) fn new(alloc: Global) -> Template
        ensures text { (w : World) (i : Instance) → template_text w i result ≡ [] }
        ensures after { result.after_member ≡ false }
    {
        Template {
            pieces: Vec::new(alloc),
            tail: Vec::new(alloc),
            after_member: false,
        }
    }

    /// Begins an object.
    pub(crate) fn open(&mut self) -> Result<(), AllocError>
        ensures text { OnOk result ((w : World) (i : Instance) → template_text w i self.new ≡ template_text w i self.old ++ 123 ∷ []) }
        ensures after { OnOk result (self.new.after_member ≡ false) }
    {
        self.tail.push(b'{')?;
        self.after_member = false;
        Ok(())
    }

    /// Ends an object.
    pub(crate) fn close(&mut self) -> Result<(), AllocError>
        ensures text { OnOk result ((w : World) (i : Instance) → template_text w i self.new ≡ template_text w i self.old ++ 125 ∷ []) }
        ensures after { OnOk result (self.new.after_member ≡ true) }
    {
        self.tail.push(b'}')?;
        self.after_member = true;
        Ok(())
    }

    /// Appends the name of a member with its colon.
    pub(crate) fn push_name(&mut self, alloc: Global, name: &str) -> Result<(), AllocError>
        ensures { OnOk result ((w : World) (i : Instance) → template_text w i self.new ≡ template_text w i self.old ++ (comma_if self.old.after_member ++ (text_json name.now ++ 58 ∷ []))) }
    {
        if self.after_member {
            self.tail.push(b',')?;
        }
        push_text(alloc, name, &mut self.tail)?;
        self.tail.push(b':')?;
        Ok(())
    }

    /// Appends a member that is null.
    pub(crate) fn push_null(&mut self, alloc: Global, name: &str) -> Result<(), AllocError>
        ensures text { OnOk result ((w : World) (i : Instance) → template_text w i self.new ≡ template_text w i self.old ++ members_run self.old.after_member ((name.now, null) ∷ [])) }
        ensures after { OnOk result (self.new.after_member ≡ true) }
    {
        self.push_name(alloc, name)?;
        self.tail.extend_from_slice(b"null")?;
        self.after_member = true;
        Ok(())
    }

    /// Appends the member that names the type of the next one.
    fn push_type(&mut self, alloc: Global, name: &str, kind: TypeName) -> Result<(), AllocError>
        ensures text { OnOk result ((w : World) (i : Instance) → template_text w i self.new ≡ template_text w i self.old ++ members_run self.old.after_member ((name.now ++ codes "@type", string (row_texts.type_word kind)) ∷ [])) }
        ensures after { OnOk result (self.new.after_member ≡ true) }
    {
        let mut member = String::from_str(alloc, name)?;
        member.push_str("@type")?;
        self.push_name(alloc, member.as_str())?;
        push_text(alloc, type_word(kind), &mut self.tail)?;
        self.after_member = true;
        Ok(())
    }

    /// Appends the member that names the type of the next one, if a type is shown.
    fn push_shown_type(
        &mut self,
        alloc: Global,
        name: &str,
        kind: Option<TypeName>,
    ) -> Result<(), AllocError>
        ensures text { OnOk result ((w : World) (i : Instance) → template_text w i self.new ≡ template_text w i self.old ++ members_run self.old.after_member (type_members name.now (option_map row_texts.type_word kind))) }
        ensures after { OnOk result (self.new.after_member ≡ (self.old.after_member || is_some kind)) }
    {
        match kind {
            Some(kind) => self.push_type(alloc, name, kind),
            None => Ok(()),
        }
    }

    /// Ends the text before a value with a gap for it.
    fn push_slot(&mut self, alloc: Global, slot: Slot) -> Result<(), AllocError>
        ensures text { OnOk result ((w : World) (i : Instance) → template_text w i self.new ≡ template_text w i self.old ++ value_text (slot_value w i slot)) }
        ensures after { OnOk result (self.new.after_member ≡ true) }
    {
        let text = std::mem::replace(&mut self.tail, Vec::new(alloc));
        self.pieces.push(Piece { text, slot })?;
        self.after_member = true;
        Ok(())
    }

    /// Appends a member with a value, and before it the member that names the value's type, if one is shown.
    pub(crate) fn push_value(
        &mut self,
        alloc: Global,
        name: &str,
        kind: Option<TypeName>,
        slot: Slot,
    ) -> Result<(), AllocError>
        ensures text { OnOk result ((w : World) (i : Instance) → template_text w i self.new ≡ template_text w i self.old ++ members_run self.old.after_member (value_members name.now (slot_value w i slot, option_map row_texts.type_word kind))) }
        ensures after { OnOk result (self.new.after_member ≡ true) }
    {
        self.push_shown_type(alloc, name, kind)?;
        self.push_name(alloc, name)?;
        self.push_slot(alloc, slot)
    }

    /// Appends the text of a row that has the values in these places.
    pub(crate) fn push_row(
        &self,
        alloc: Global,
        store: &Data,
        row: &ShownRow<'_>,
        out: &mut Vec<u8>,
    ) -> Result<(), AllocError>
        requires entities { IsTrue (is_of store.now row.now) }
        requires range { IsFalse (has_beyond row.now) }
        ensures { OnOk result (out.new.items ≡ out.old.items ++ template_text store.now row.now self.now) }
    {
        for piece in &self.pieces {
            out.extend_from_slice(piece.text.as_slice())?;
            push_at(alloc, store, row, piece.slot, out)?;
        }
        out.extend_from_slice(self.tail.as_slice())
    }
}

/// The property at this place of a list.
fn property_in(properties: &[PropId], at: usize) -> Option<PropId>
    ensures { result ≡ slice_get properties.now at }
{
    match properties.get(at) {
        Some(property) => Some(*property),
        None => None,
    }
}

/// The value of the property of an entity at this place; null where its type has none there.
fn property_at(store: &Data, entity: EntityRef, at: usize) -> Seen<'_>
    requires { IsSet store.now.model entity.set }
    ensures { seen_value result ≡ property store.now entity at }
{
    let model = store.model();
    match property_in(model.props(model.set_type(entity.set)), at) {
        Some(property) => store.property(entity, property),
        None => Seen::Null,
    }
}

/// Appends the value of the column of a row at this place.
fn push_column(
    alloc: Global,
    row: &ShownRow<'_>,
    k: usize,
    out: &mut Vec<u8>,
) -> Result<(), AllocError>
    requires { IsFalse (has_beyond row.now) }
    ensures { OnOk result (out.new.items ≡ out.old.items ++ value_text (row_texts.column_in row.now k)) }
{
    push_value(alloc, row.column(k), out)
}

/// Appends the value of the property of an entity at this place.
fn push_property(
    alloc: Global,
    store: &Data,
    entity: EntityRef,
    at: usize,
    out: &mut Vec<u8>,
) -> Result<(), AllocError>
    requires { IsSet store.now.model entity.set }
    ensures { OnOk result (out.new.items ≡ out.old.items ++ value_text (property store.now entity at)) }
{
    let _model = store.model();
    push_value(alloc, property_at(store, entity, at), out)
}

/// Appends the value of a row that stands in this place; null where it has none there.
fn push_at(
    alloc: Global,
    store: &Data,
    row: &ShownRow<'_>,
    slot: Slot,
    out: &mut Vec<u8>,
) -> Result<(), AllocError>
    requires entities { IsTrue (is_of store.now row.now) }
    requires range { IsFalse (has_beyond row.now) }
    ensures { OnOk result (out.new.items ≡ out.old.items ++ value_text (slot_value store.now row.now slot)) }
{
    match slot {
        Slot::Column(k) => push_column(alloc, row, k, out),
        Slot::Property(k, property) => match row.bound(k) {
            Some(entity) => push_property(alloc, store, entity, property, out),
            None => out.extend_from_slice(b"null"),
        },
    }
}
