//! Responses: their frame, and the bodies of errors.
ghost use Rattle.std.specs.Prelude.{◌≡◌, ℕ, IfOk, string_bytes, decimal, codes};
ghost use Rattle.serde_json.specs.Data.{string, object, member, no_members};
ghost use Rattle.serde_json.specs.View.{view};
ghost use Rattle.line_stream.specs.Outputs.{bytes_of};
ghost use Rattle.apply_replies.specs.Responses as spec;

use line_stream::Output;
use serde_json::{Value, json};
use std::alloc::{AllocError, Global};

/// The response to a line for which memory was wanting. It takes no memory.
pub fn out_of_memory() -> &'static [u8]
    ensures { result.now ≡ spec.refused spec.Memory }
{
    b"503 53\n{\"error\":{\"code\":\"Memory\",\"message\":\"out of memory\"}}\n"
}

/// The response to a line that has more bytes than a line may have. It takes no memory.
pub fn too_long() -> &'static [u8]
    ensures { result.now ≡ spec.refused spec.TooLong }
{
    b"414 61\n{\"error\":{\"code\":\"TooLong\",\"message\":\"the line is too long\"}}\n"
}

/// `code SP length LF body LF`.
pub fn framed(alloc: Global, code: &str, body: &[u8]) -> Result<Vec<u8>, AllocError>
    ensures { IfOk result (λ r. r.items ≡ spec.framed code.now body.now) }
{
    let mut response = Vec::new(alloc);
    response.extend_from_slice(code.as_bytes())?;
    response.push(b' ')?;
    let length = body.len().to_string(alloc)?;
    response.extend_from_slice(length.as_bytes())?;
    response.push(b'\n')?;
    response.extend_from_slice(body)?;
    response.push(b'\n')?;
    Ok(response)
}

/// The response with a body, which is not copied.
pub fn answered(alloc: Global, body: Vec<u8>) -> Result<Output, AllocError>
    ensures { IfOk result (λ r. bytes_of r ≡ spec.answered body.items) }
{
    let length = body.len().to_string(alloc)?;
    let mut line = Vec::new(alloc);
    line.extend_from_slice(b"200 ")?;
    line.extend_from_slice(length.as_bytes())?;
    line.push(b'\n')?;
    Ok(Output::Framed(line, body))
}

/// What an error without a target is.
fn error_parts(alloc: Global, code: &str, message: &str) -> Result<Value, AllocError>
    ensures { IfOk result (λ v. view v ≡ object (member (codes "code") (string code.now)
        (member (codes "message") (string message.now) no_members))) }
{
    json!(in alloc; {"code": code, "message": message})
}

/// What an error with a target is.
fn error_parts_at(
    alloc: Global,
    code: &str,
    message: &str,
    target: &str,
) -> Result<Value, AllocError>
    ensures { IfOk result (λ v. view v ≡ object (member (codes "code") (string code.now)
        (member (codes "message") (string message.now) (member (codes "target") (string target.now) no_members)))) }
{
    json!(in alloc; {"code": code, "message": message, "target": target})
}

/// An object with one member, the error.
fn error_object(alloc: Global, parts: &Value) -> Result<Value, AllocError>
    ensures { IfOk result (λ v. view v ≡ object (member (codes "error") (view parts.now) no_members)) }
{
    json!(in alloc; {"error": parts})
}

/// The body of an error without a target.
fn error_body(alloc: Global, code: &str, message: &str) -> Result<String, AllocError>
    ensures { IfOk result (λ s. string_bytes s ≡ spec.error_body code.now message.now) }
{
    let parts = error_parts(alloc, code, message)?;
    let value = error_object(alloc, &parts)?;
    value.to_string(alloc)
}

/// The body of an error with a target.
fn error_body_at(
    alloc: Global,
    code: &str,
    message: &str,
    target: &str,
) -> Result<String, AllocError>
    ensures { IfOk result (λ s. string_bytes s ≡ spec.error_body_at code.now message.now target.now) }
{
    let parts = error_parts_at(alloc, code, message, target)?;
    let value = error_object(alloc, &parts)?;
    value.to_string(alloc)
}

/// The response to a line that is no request from this step on, counted from 1; 0 where it has no frame.
pub fn no_pipeline(alloc: Global, step: u32) -> Result<Vec<u8>, AllocError>
    ensures { IfOk result (λ r. r.items ≡ spec.refused (spec.Syntax step)) }
{
    let step = step.to_string(alloc)?;
    let body = error_body_at(alloc, "Syntax", "the text is no pipeline", step.as_str())?;
    framed(alloc, "400", body.as_bytes())
}

/// The response to a line that names no set of the model.
pub fn not_found(alloc: Global, set: &str) -> Result<Vec<u8>, AllocError>
    ensures { IfOk result (λ r. r.items ≡ spec.refused (spec.NotFound set.now)) }
{
    let body = error_body_at(alloc, "NotFound", "no such entity set", set)?;
    framed(alloc, "404", body.as_bytes())
}

/// The response to a line whose transformation of this number, from 1, has no type.
pub fn untyped(alloc: Global, number: u32) -> Result<Vec<u8>, AllocError>
    ensures { IfOk result (λ r. r.items ≡ spec.refused (spec.Type' number)) }
{
    let number = number.to_string(alloc)?;
    let body = error_body_at(
        alloc,
        "Type",
        "the transformation has no type",
        number.as_str(),
    )?;
    framed(alloc, "400", body.as_bytes())
}

/// The response to a request that names a cyclic hierarchy, with the identifier of its node.
pub fn cyclic(alloc: Global, node: &str) -> Result<Vec<u8>, AllocError>
    ensures { IfOk result (λ r. r.items ≡ spec.refused (spec.Cycle node.now)) }
{
    let body = error_body_at(alloc, "Cycle", "the hierarchy has a cycle", node)?;
    framed(alloc, "422", body.as_bytes())
}

/// The response to a line with a number past its range.
pub fn past_range(alloc: Global) -> Result<Vec<u8>, AllocError>
    ensures { IfOk result (λ r. r.items ≡ spec.refused spec.Range) }
{
    let body = error_body(alloc, "Range", "a number is past its range")?;
    framed(alloc, "422", body.as_bytes())
}

/// What the answer to a request for a plan is, with the plan's text.
fn plan_object(alloc: Global, text: &str) -> Result<Value, AllocError>
    ensures { IfOk result (λ v. view v ≡ object (member (codes "plan") (string text.now) no_members)) }
{
    json!(in alloc; {"plan": text})
}

/// The body of the answer to a request for a plan.
fn plan_body(alloc: Global, text: &str) -> Result<String, AllocError>
    ensures { IfOk result (λ s. string_bytes s ≡ spec.plan_body text.now) }
{
    let value = plan_object(alloc, text)?;
    value.to_string(alloc)
}

/// The response to a request for a plan, with the plan's text.
pub fn explained(alloc: Global, text: &str) -> Result<Output, AllocError>
    ensures { IfOk result (λ r. bytes_of r ≡ spec.answered (spec.plan_body text.now)) }
{
    let body = plan_body(alloc, text)?;
    answered(alloc, body.into_bytes())
}
