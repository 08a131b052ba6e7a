//! The front of a pipeline, where what it has come to is a whole set that is not listed yet: an entity is found by its key, and a
//! climb goes through what refers to its nodes.
ghost use Rattle.std.specs.Prelude.{◌≡◌, ℕ, IfOk, IfSome, IsTrue, None, Some, false, filter, is_some, map, option_map, true, unwrap_or};
ghost use Rattle.std.specs.List.{list_any};
ghost use Rattle.edm_values.specs.Lists.{places};
ghost use Rattle.edm_values.specs.Literals.{is_of_kind};
ghost use Rattle.edm_values.specs.Values.{equal, is_beyond, is_value, seen_value};
ghost use Rattle.edm_values.specs.declared.Value.{Value as Value'};
ghost use Rattle.edm_model.specs.LookUps.{IsSet};
ghost use Rattle.edm_data.specs.References.{by_key, count};
ghost use Rattle.edm_data.specs.Worlds.{World};
ghost use Rattle.apply_ast.specs.Views.{expr_of, hier_of};
ghost use Rattle.context_typing.specs.Typing.{hierarchy_at};
ghost use Rattle.apply_meaning.specs.Instances.{Instance, lookup, val};
ghost use Rattle.apply_meaning.specs.Meaning.{refused_at_beyond, values};
ghost use Rattle.apply_meaning.specs.Running.{all_of};
ghost use Rattle.row_frames.specs.Frames.{GivesFrame};
ghost use Rattle.row_frames.specs.Related.{placed};
ghost use Rattle.hier_states.specs.States.{IsReadyAt};
ghost use Rattle.step_run.specs.Hierarchies.{GivesEntities, climb_from};
ghost use Rattle.frame_run.specs.Front.{IsKeyPath, IsSought};
ghost use Rattle.frame_run.specs.HeldRows.{entity_list, first_of, rows_of};

use crate::frame_steps::frame_climbed;
use crate::held::Held;
use apply_ast::{BinOp, ClimbStep, Expr, Path};
use apply_meaning::{RunRefused, data_is_loaded};
use edm_data::Data;
use edm_model::SetId;
use edm_values::{EdmType, Seen};
use par_stages::Gate;
use row_frames::{Frame, property_in_set};
use row_values::RowList;
use std::alloc::{AllocError, Global};
use std::thread::Threads;
use step_run::{Context, climbed_in_set};

/// The path and the literal of a test whether the value of the path is this integer or text.
fn sought(e: &Expr) -> Option<(&Path, Seen<'_>)>
    ensures { IfSome result (λ t. (w : World) (i : Instance) → val w i (expr_of e.now) ≡ equal (lookup w i t.0.now) (seen_value t.1)) }
{
    match e {
        Expr::Binary(BinOp::Eq, a, b) => match (&**a, &**b) {
            (Expr::Path(path), Expr::Int(n)) => Some((path, Seen::Int(*n))),
            (Expr::Path(path), Expr::Text(text)) => Some((path, Seen::Text(text.as_str()))),
            _ => None,
        },
        _ => None,
    }
}

/// Whether a value of this type equals such a value exactly where both are the same.
fn is_exact(kind: EdmType, value: Seen<'_>) -> bool
    ensures { result ≡ true → (x : Value') → IsTrue (is_of_kind kind x) → is_beyond x ≡ false → IsSought (seen_value value.entry) x }
{
    match value {
        Seen::Int(_) => matches!(kind, EdmType::Int),
        Seen::Text(_) => true,
        _ => false,
    }
}

/// The type of the key of a set's entities, where the path is their key.
fn key_type(alloc: Global, store: &Data, set: SetId, path: &Path) -> Option<EdmType>
    ensures set { IfSome result (λ t. IsSet store.now.model set) }
    ensures key { IfSome result (λ t. (k : ℕ) → IsKeyPath store.now path.now set t k) }
{
    data_is_loaded(store);
    let Some((own, by)) = property_in_set(alloc, store, set, path) else {
        return None;
    };
    if own.place() != set.place() {
        return None;
    }
    let model = store.model();
    let key = model.key_of(model.set_type(set));
    if by.place() != key.place() {
        return None;
    }
    Some(model.prop_type(key))
}

/// The place of the entity that has a key, if there is one.
fn place_of(store: &Data, set: SetId, value: Seen<'_>) -> Option<u32>
    requires { IsSet store.now.model set }
    ensures { result ≡ option_map (λ e. e.at) (by_key store.now set (seen_value value.entry)) }
{
    match store.by_key(set, value) {
        Some(found) => Some(found.at),
        None => None,
    }
}

/// The entity that has the key is the only one on which a test of the key is true.
fn is_only(
    store: &Data,
    set: SetId,
    n: u32,
    e: &Expr,
    path: &Path,
    value: Seen<'_>,
    kind: EdmType,
    found: Option<u32>,
)
    requires says { (i : Instance) → val store.now i (expr_of e.now) ≡ equal (lookup store.now i path.now) (seen_value value) }
    requires key { (k : ℕ) → IsKeyPath store.now path.now set kind k }
    requires exact { (x : Value') → IsTrue (is_of_kind kind x) → is_beyond x ≡ false → IsSought (seen_value value) x }
    requires all { n ≡ count store.now set }
    requires found { found ≡ option_map (λ e. e.at) (by_key store.now set (seen_value value)) }
    ensures only { filter (λ i. is_value true (val store.now i (expr_of e.now))) (first_of set n) ≡ entity_list set found }
    ensures quiet { list_any is_beyond (values store.now (expr_of e.now) (first_of set n)) ≡ false }
{
    let _model = store.model();
}

/// The place of the entity of a set, if there is one, on which the expression is true; none where the expression asks for something
/// else than the key.
fn keyed(alloc: Global, store: &Data, set: SetId, n: u32, e: &Expr) -> Option<Option<u32>>
    ensures only { IfSome result (λ o. filter (λ i. is_value true (val store.now i (expr_of e.now))) (first_of set n) ≡ entity_list set o) }
    ensures quiet { IfSome result (λ o. list_any is_beyond (values store.now (expr_of e.now) (first_of set n)) ≡ false) }
{
    let Some((path, value)) = sought(e) else {
        return None;
    };
    let Some(kind) = key_type(alloc, store, set, path) else {
        return None;
    };
    if n != store.count(set) {
        return None;
    }
    if !is_exact(kind, value) {
        return None;
    }
    let found = place_of(store, set, value);
    is_only(store, set, n, e, path, value, kind, found);
    Some(found)
}

/// The instance of the entity of a set at this place, if there is one.
fn entity_frame(alloc: Global, set: SetId, at: Option<u32>) -> Result<Frame, AllocError>
    ensures { IfOk result (λ f. f ≡ entity_list set at) }
{
    match at {
        Some(k) => Frame::of_entities(alloc, set, &[k]),
        None => Ok(Frame::none(alloc)),
    }
}

/// The instances, of the first `n` entities of a set, on which an expression is true.
pub(crate) fn set_filtered<R: Threads + Sync, G: Gate>(
    alloc: Global,
    context: &Context<'_, R, G>,
    e: &Expr,
    set: SetId,
    n: u32,
) -> Result<Frame, RunRefused>
    requires { IsTrue (all_of context.now.world (first_of set n)) }
    ensures { GivesFrame result (refused_at_beyond (values context.now.world (expr_of e.now) (first_of set n)) (filter (λ i. is_value true (val context.now.world i (expr_of e.now))) (first_of set n))) }
{
    let store = context.store();
    if let Some(found) = keyed(alloc, store, set, n, e) {
        return Ok(entity_frame(alloc, set, found)?);
    }
    let frame = Frame::of_first(alloc, set, n)?;
    frame.filter(context.rt(), alloc, store, e, context.workers())
}

/// The places of the entities, of the first `n` of a set, whose instances a climb keeps, from the nodes of these rows on; none where
/// the data does not keep the nodes of the set's entities.
fn climbed_from<R: Threads + Sync, G: Gate>(
    alloc: Global,
    context: &Context<'_, R, G>,
    climb: &ClimbStep,
    set: SetId,
    n: u32,
    starts: &Held,
) -> Result<Option<Vec<u32>>, RunRefused>
    requires starts { IsTrue (all_of context.now.world (rows_of starts.now)) }
    requires there { IsTrue (is_some (hierarchy_at context.now.world.model (hier_of climb.now.hier))) }
    requires ready { IsReadyAt context.now.world context.now.hiers (hier_of climb.now.hier) }
    ensures { GivesEntities result set (climb_from context.now.world climb.now.up (hier_of climb.now.hier) climb.now.path climb.now.distance climb.now.keep (first_of set n) (rows_of starts.now)) }
{
    match starts {
        Held::Frame(starts) => {
            climbed_in_set(alloc, context, climb, set, n, &RowList::of_frame(starts))
        }
        Held::Rows(starts) => climbed_in_set(
            alloc,
            context,
            climb,
            set,
            n,
            &RowList::of_rows(starts.as_slice()),
        ),
        Held::Set(own, m) => {
            let starts = Frame::of_first(alloc, *own, *m)?;
            climbed_in_set(alloc, context, climb, set, n, &RowList::of_frame(&starts))
        }
    }
}

/// The instances, of the first `n` entities of a set, that a climb keeps, from the nodes of these rows on.
pub(crate) fn set_climbed<R: Threads + Sync, G: Gate>(
    alloc: Global,
    context: &Context<'_, R, G>,
    climb: &ClimbStep,
    set: SetId,
    n: u32,
    starts: &Held,
) -> Result<Frame, RunRefused>
    requires of { IsTrue (all_of context.now.world (first_of set n)) }
    requires starts { IsTrue (all_of context.now.world (rows_of starts.now)) }
    requires there { IsTrue (is_some (hierarchy_at context.now.world.model (hier_of climb.now.hier))) }
    requires ready { IsReadyAt context.now.world context.now.hiers (hier_of climb.now.hier) }
    ensures { GivesFrame result (climb_from context.now.world climb.now.up (hier_of climb.now.hier) climb.now.path climb.now.distance climb.now.keep (first_of set n) (rows_of starts.now)) }
{
    match climbed_from(alloc, context, climb, set, n, starts)? {
        Some(places) => Ok(Frame::of_entities(alloc, set, places.as_slice())?),
        None => frame_climbed(
            alloc,
            context,
            climb,
            Frame::of_first(alloc, set, n)?,
            starts,
        ),
    }
}
