//! Reading a model file.
ghost use Rattle.std.specs.Prelude.{◌≡◌, if◌then◌else◌, Some, None, IfOk, IsErrOf};
ghost use Rattle.serde_json.specs.View.{view};
ghost use Rattle.edm_schema.specs.JsonTrees.{json_of};
ghost use Rattle.edm_schema.specs.ModelTrees as tree;
ghost use Rattle.edm_model.specs.ModelFile as spec;

use crate::Model;
use crate::build::{sets_of, types_of};
use edm_schema::{is_model, read_schema};
use serde_json::Value;
use std::alloc::{AllocError, Global};
use thiserror::Error;

/// The greatest size of a model file, in bytes.
pub const MODEL_LIMIT: usize = 1_048_576;

/// Why a file is no model file.
#[derive(Clone, Copy, Debug, PartialEq, Eq, Drop, Error)]
pub enum ModelRefused {
    /// It is longer than the limit.
    #[error("the model file is too long")]
    TooLong,
    /// It is no JSON text, or its value is no object.
    #[error("the model file is no JSON object")]
    Json,
    /// It breaks a rule of model files.
    #[error("the model file breaks a rule")]
    Model,
    /// There is not enough memory.
    #[error("there is not enough memory for the model")]
    Memory,
}

/// The model of a tree, if it keeps every rule.
#[tactic(auto, using(crate::proofs::Sound::sound))]
fn read_tree(alloc: Global, root: &Value) -> Result<Option<Model>, AllocError>
    ensures { IfOk result (λ o. o ≡ (if tree.is_model (view root.now) then Some (spec.model_of (view root.now)) else None)) }
{
    let schema = read_schema(alloc, root)?;
    if !is_model(alloc, &schema)? {
        return Ok(None);
    }
    let sets = sets_of(alloc, &schema)?;
    let types = types_of(alloc, &schema)?;
    let model = Model::from_parts(alloc, types, sets)?;
    Ok(Some(model))
}

/// The JSON tree of a file.
fn parse(alloc: Global, file: &[u8]) -> Result<Value, ModelRefused>
    ensures ok { IfOk result (λ v. json_of file.now ≡ Some (view v)) }
    ensures json { IsErrOf result ModelRefused.Json → json_of file.now ≡ None }
    ensures too_long { ¬ (IsErrOf result ModelRefused.TooLong) }
    ensures model { ¬ (IsErrOf result ModelRefused.Model) }
{
    match Value::from_slice(alloc, file) {
        Ok(root) => Ok(root),
        Err(e) => {
            if e.is_memory() {
                return Err(ModelRefused::Memory);
            }
            Err(ModelRefused::Json)
        }
    }
}

/// What a JSON tree is as a model file.
fn read_root(alloc: Global, root: &Value) -> Result<Model, ModelRefused>
    ensures ok { IfOk result (λ m. spec.model_tree_reading (view root.now) ≡ spec.Model' m) }
    ensures too_long { ¬ (IsErrOf result ModelRefused.TooLong) }
    ensures json { IsErrOf result ModelRefused.Json → spec.model_tree_reading (view root.now) ≡ spec.NoJson }
    ensures model { IsErrOf result ModelRefused.Model → spec.model_tree_reading (view root.now) ≡ spec.NoModel }
{
    if !root.is_object() {
        return Err(ModelRefused::Json);
    }
    match read_tree(alloc, root) {
        Ok(Some(model)) => Ok(model),
        Ok(None) => Err(ModelRefused::Model),
        Err(_) => Err(ModelRefused::Memory),
    }
}

/// Reads a model file.
pub fn read_model(alloc: Global, file: &[u8]) -> Result<Model, ModelRefused>
    ensures ok { IfOk result (λ m. spec.model_reading file.now ≡ spec.Model' m) }
    ensures too_long { IsErrOf result ModelRefused.TooLong → spec.model_reading file.now ≡ spec.TooLong }
    ensures json { IsErrOf result ModelRefused.Json → spec.model_reading file.now ≡ spec.NoJson }
    ensures model { IsErrOf result ModelRefused.Model → spec.model_reading file.now ≡ spec.NoModel }
{
    if file.len() > MODEL_LIMIT {
        return Err(ModelRefused::TooLong);
    }
    match parse(alloc, file) {
        Ok(root) => read_root(alloc, &root),
        Err(refused) => Err(refused),
    }
}
