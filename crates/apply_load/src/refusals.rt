//! The lines of refused custom aggregates and data files.
ghost use Rattle.std.specs.Prelude.{◌≡◌, ◌++◌, ℕ, IfOk, map, slice_get, unwrap_or, string_bytes, codes, []};
ghost use Rattle.apply_load.specs.RefusedFiles.{json_string, fault_line};
ghost use Rattle.apply_load.specs.RefusedFiles as spec;
ghost use Rattle.apply_load.specs.DataRefusals.{IsLineOf};

use edm_data::DataRefused;
use edm_model::{Model, SetId};
use serde_json::json;
use std::alloc::{AllocError, Global};

/// The names of the model's entity sets, in order.
pub fn set_names(alloc: Global, model: &Model) -> Result<Vec<String>, AllocError>
    ensures { IfOk result (λ v. map string_bytes v.items ≡ map (λ s. s.name) model.now.sets) }
{
    let mut names = Vec::new(alloc);
    for set in model.sets() {
        let name = String::from_str(alloc, model.set_name(*set))?;
        names.push(name)?;
    }
    Ok(names)
}

/// The name of a set.
fn name_of(names: &[String], set: SetId) -> &str
    ensures { result.now ≡ unwrap_or (slice_get (map string_bytes names.now) set) [] }
{
    match names.get(set.place()) {
        Some(name) => name.as_str(),
        None => "",
    }
}

/// A name as a JSON string.
pub(crate) fn json_text(alloc: Global, name: &str) -> Result<String, AllocError>
    ensures { IfOk result (λ s. string_bytes s ≡ json_string name.now) }
{
    json!(in alloc; name)?.to_string(alloc)
}

/// The line of a custom aggregate of a type that has no reading or no typing.
pub fn custom_line(alloc: Global, of: &str, name: &str) -> Result<Vec<u8>, AllocError>
    ensures { IfOk result (λ l. l.items ≡ spec.custom_line of.now name.now) }
{
    let mut line = Vec::new(alloc);
    line.extend_from_slice(b"model Custom ")?;
    let of = json_text(alloc, of)?;
    line.extend_from_slice(of.as_bytes())?;
    line.extend_from_slice(b" ")?;
    let name = json_text(alloc, name)?;
    line.extend_from_slice(name.as_bytes())?;
    line.extend_from_slice(b"\n")?;
    Ok(line)
}

/// The line of an entity at fault.
fn entity_line(alloc: Global, word: &str, name: &str, at: u32) -> Result<Vec<u8>, AllocError>
    ensures { IfOk result (λ l. l.items ≡ fault_line word.now name.now at) }
{
    let mut line = Vec::new(alloc);
    line.extend_from_slice(b"data ")?;
    line.extend_from_slice(word.as_bytes())?;
    line.extend_from_slice(b" ")?;
    let name = json_text(alloc, name)?;
    line.extend_from_slice(name.as_bytes())?;
    line.extend_from_slice(b" ")?;
    let at = at.to_string(alloc)?;
    line.extend_from_slice(at.as_bytes())?;
    line.extend_from_slice(b"\n")?;
    Ok(line)
}

/// The line of a member that is no array of a set.
fn set_line(alloc: Global, name: &str) -> Result<Vec<u8>, AllocError>
    ensures { IfOk result (λ l. l.items ≡ codes "data Set " ++ json_string name.now ++ codes "\n") }
{
    let mut line = Vec::new(alloc);
    line.extend_from_slice(b"data Set ")?;
    let name = json_text(alloc, name)?;
    line.extend_from_slice(name.as_bytes())?;
    line.extend_from_slice(b"\n")?;
    Ok(line)
}

/// The line of a refused data file over a model with sets of these names.
#[tactic(auto, using(crate::proofs::SetNames::line_forms))]
pub fn data_line(
    alloc: Global,
    names: &[String],
    refused: &DataRefused,
) -> Result<Vec<u8>, AllocError>
    ensures { IfOk result (λ l. IsLineOf (map string_bytes names.now) refused.now l.items) }
{
    match refused {
        DataRefused::TooLong => b"data TooLong\n".to_vec(alloc),
        DataRefused::Json => b"data Json\n".to_vec(alloc),
        DataRefused::Set(name) => set_line(alloc, name.as_str()),
        DataRefused::Shape(set, at) => entity_line(alloc, "Shape", name_of(names, *set), *at),
        DataRefused::TwiceKey(set, at) => entity_line(alloc, "TwiceKey", name_of(names, *set), *at),
        DataRefused::Dangling(set, at) => entity_line(alloc, "Dangling", name_of(names, *set), *at),
        DataRefused::Memory => Err(AllocError),
    }
}
