//! The nodes that a recursive rollup shows.
ghost use Rattle.std.specs.Prelude.{◌≡◌, IfOk, IfSome, IsTrue, Some, is_some, option_map};
ghost use Rattle.edm_model.specs.LookUps as look;
ghost use Rattle.edm_model.specs.Soundness.{IsSound};
ghost use Rattle.apply_ast.specs.Views.{hier_of, inner_of, pipe_of};
ghost use Rattle.context_typing.specs.Readings.{readings, AreTypedOver};
ghost use Rattle.context_typing.specs.Shapes.{set_shape};
ghost use Rattle.context_typing.specs.ShapeTypes.{has_types};
ghost use Rattle.context_typing.specs.Typing.{inner_shape};
ghost use Rattle.rewrite_forms.specs.GroupForms as spec;

use crate::shapes::shape_behind;
use apply_ast::{HierName, Name, Pipe};
use context_typing::{Customs, Shape, nodes_of, set_shape};
use edm_model::{Model, TypeId};
use std::alloc::{AllocError, Global};

/// The name of the key of an entity type.
fn key_name(alloc: Global, m: &Model, of: TypeId) -> Result<Name, AllocError>
    requires { look.IsType m.now of }
    ensures { IfOk result (λ n. option_map (λ q. q.name) (look.property_at m.now (look.key_of m.now of)) ≡ Some n) }
{
    let _sets = m.sets();
    match Name::new(alloc, m.prop_name(m.key_of(of)))? {
        Some(name) => Ok(name),
        None => unreachable!(),
    }
}

/// The shape of the instances of an entity type that a pipeline chooses, which may be left out.
fn chosen_shape(
    alloc: Global,
    m: &Model,
    c: &Customs,
    of: TypeId,
    chosen: &Option<Pipe>,
) -> Result<Shape, AllocError>
    requires there { look.IsType m.now of }
    requires customs { AreTypedOver m.now c.now }
    requires sound { IsSound m.now }
    requires typed { IsTrue (is_some (inner_shape m.now (readings c.now) (set_shape of) (set_shape of) (inner_of (option_map pipe_of chosen.now)))) }
    ensures value { IfOk result (λ S. Some S ≡ inner_shape m.now (readings c.now) (set_shape of) (set_shape of) (inner_of (option_map pipe_of chosen.now))) }
    ensures types { IfOk result (λ S. IsTrue (has_types m.now S)) }
{
    let start = set_shape(alloc, of);
    match chosen {
        Some(pipe) => shape_behind(alloc, m, c, &start, pipe.steps()),
        None => Ok(start),
    }
}

/// The shape of the nodes that a recursive rollup shows, with the name of their key.
pub fn chosen_nodes(
    alloc: Global,
    m: &Model,
    c: &Customs,
    hier: &HierName,
    chosen: &Option<Pipe>,
) -> Result<Option<(Shape, Name)>, AllocError>
    requires customs { AreTypedOver m.now c.now }
    requires sound { IsSound m.now }
    requires typed { IsTrue (is_some (spec.chosen_nodes m.now (readings c.now) (hier_of hier.now) (inner_of (option_map pipe_of chosen.now)))) }
    ensures value { IfOk result (λ o. o ≡ spec.chosen_nodes m.now (readings c.now) (hier_of hier.now) (inner_of (option_map pipe_of chosen.now))) }
    ensures types { IfOk result (λ o. IfSome o (λ N. IsTrue (has_types m.now N.0))) }
{
    match nodes_of(m, hier) {
        Some(nodes) => {
            let shape = chosen_shape(alloc, m, c, nodes.of, chosen)?;
            let key = key_name(alloc, m, nodes.of)?;
            Ok(Some((shape, key)))
        }
        None => Ok(None),
    }
}
