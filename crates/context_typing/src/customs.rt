//! The readings of a model's custom aggregates, typed (Data Aggregation 4.0, section 5.2).
ghost use Rattle.std.specs.Prelude.{◌≡◌, ◌==◌, ◌&&◌, find, length, map, option_map, take, IfOk, IfErr, IsTrue, is_some};
ghost use Rattle.std.specs.Option.{option_copied};
ghost use Rattle.edm_values.specs.Lists.{same_text};
ghost use Rattle.edm_model.specs.IdLists.{custom_list};
ghost use Rattle.apply_ast.specs.Views.{expr_of};
ghost use Rattle.context_typing.specs.Readings as spec;

use apply_ast::{Expr, Name, PathList};
use edm_model::{CustomId, TypeId};
use edm_values::{EdmType, Text};

/// The definition of a custom aggregate as it was read: its expression, and the paths that it groups by.
#[derive(Drop)]
pub struct ReadCustom {
    pub id: CustomId,
    pub of: Expr,
    pub per: PathList,
}

/// A custom aggregate that has a typing: its reading, its name, the type of its value, and whether this may be past
/// its range.
#[derive(Drop)]
pub(crate) struct TypedCustom {
    pub(crate) read: ReadCustom,
    pub(crate) owner: TypeId,
    pub(crate) name: Text,
    pub(crate) kind: EdmType,
    pub(crate) risky: bool,
}

/// The custom aggregates of a model, or the first of them, each with its typing.
#[derive(Drop)]
pub struct Customs {
    pub(crate) all: Vec<TypedCustom>,
}

impl std::marker::Model for Customs {
    ghost use Rattle.std.specs.Prelude.{List};
    ghost use Rattle.std.specs.Coded.{codes};
    ghost use Rattle.context_typing.specs.declared.customs.TypedCustom.{TypedCustom};
    ghost use Rattle.apply_ast.specs.contracts.expressions.Expr as of_expr;

    ghost Value = { List TypedCustom };

    ghost coded = { Prim.hlevel (codes, of_expr.the_row.coded) };

    ghost view = { λ c. c.all.items };
}

/// Whether the two are one custom aggregate.
fn same_id(a: CustomId, b: CustomId) -> bool
    ensures { result ≡ spec.same_part a b }
{
    a == b
}

/// Whether it is the custom aggregate of this name of this type.
fn is_named(custom: &TypedCustom, of: TypeId, name: &Name) -> bool
    ensures { result ≡ spec.is_named of name.now custom.now }
{
    custom.owner.place() == of.place() && custom.name.as_str() == name.text()
}

impl Customs {
    /// The custom aggregate of this name of this type.
    pub(crate) fn named(&self, of: TypeId, name: &Name) -> Option<&TypedCustom>
        ensures { option_copied result ≡ find (spec.is_named of name.now) self.now }
    {
        self.all.iter().find(|custom| is_named(custom, of, name))
    }

    /// Whether the custom aggregate is among these.
    pub fn has(&self, id: CustomId) -> bool
        ensures value { result ≡ is_some (spec.typed_at self.now id) }
    {
        self.typed_at(id).is_some()
    }

    /// The reading of a custom aggregate.
    pub fn read(&self, id: CustomId) -> &ReadCustom
        requires { IsTrue (is_some (spec.typed_at self.now id)) }
        ensures value { option_map (λ x. x.read) (spec.typed_at self.now id) ≡ Some result.now }
    {
        match self.typed_at(id) {
            Some(custom) => &custom.read,
            None => unreachable!(),
        }
    }

    /// The custom aggregate of this id.
    fn typed_at(&self, id: CustomId) -> Option<&TypedCustom>
        ensures { option_copied result ≡ spec.typed_at self.now id }
    {
        self.all.iter().find(|custom| same_id(custom.read.id, id))
    }
}
