//! The frame of a line, and requests.
ghost use Rattle.std.specs.Prelude.{◌≡◌, ◌↔◌, ◌<◌, ◌≤◌, length, option_map, IfOk, IsErrOf, ℕ, List, Ok};
ghost use Rattle.apply_grammar.specs.Gives.{Gives, GivesRequest};
ghost use Rattle.apply_grammar.specs.Frames.{line_limit};
ghost use Rattle.apply_grammar.specs.FrameReading as frames;
ghost use Rattle.apply_grammar.specs.Requests.{Asked, IsRequest, IsNoRequest, IfSyntax, asked_of};
ghost use Rattle.apply_ast.specs.Trees as trees;
ghost use Rattle.apply_ast.specs.Grammar.{Text};

use crate::bytes::{after, blanks_at, word_behind};
use crate::paths::read_name;
use crate::pipelines::read_pipeline;
use crate::refusals::{ExprRefused, GrammarRefused};
use apply_ast::{Name, Request};
use percent_encoding::percent_decode;
use std::alloc::Global;

/// The greatest number of bytes of a line.
pub const LINE_MAX: usize = 65_536;

/// Whether `explain` and blanks stand in front, and what follows them.
#[tactic(auto, unfolding(crate::specs::FrameReading::explain_at))]
fn explain_at(text: &[u8]) -> (bool, &[u8])
    ensures { (result.0, result.1.now) ≡ frames.explain_at text.now }
{
    match word_behind(text, b"explain") {
        Some(rest) => match blanks_at(rest) {
            Some(behind) => (true, behind),
            None => (false, text),
        },
        None => (false, text),
    }
}

/// The text without one slash in front.
#[tactic(auto, unfolding(crate::specs::FrameReading::without_slash))]
fn without_slash(text: &[u8]) -> &[u8]
    ensures { result.now ≡ frames.without_slash text.now }
{
    match after(text, b'/') {
        Some(rest) => rest,
        None => text,
    }
}

/// What follows `?$apply=`.
#[tactic(auto, unfolding(crate::specs::FrameReading::query_at))]
fn query_at(text: &[u8]) -> Option<&[u8]>
    ensures { option_map (λ r. r.now) result ≡ frames.query_at text.now }
{
    after(
        word_behind(after(after(text, b'?')?, b'$')?, b"apply")?,
        b'=',
    )
}

/// Whether the line asks for the plan, the entity set, and the pipeline's text.
#[tactic(auto, unfolding(crate::specs::FrameReading::frame_at))]
fn read_frame(alloc: Global, text: &[u8]) -> Result<(bool, Name, &[u8]), ExprRefused>
    ensures { Gives (λ x. (x.0, x.1, x.2.now)) result (frames.frame_at text.now) }
{
    let (explain, rest) = explain_at(text);
    let (set, rest) = read_name(alloc, without_slash(rest))?;
    match query_at(rest) {
        Some(text) => Ok((explain, set, text)),
        None => Err(ExprRefused::Syntax),
    }
}

/// The request of a percent-decoded line.
#[tactic(auto, unfolding(crate::specs::FrameReading::decoded_at))]
fn read_decoded(alloc: Global, text: &[u8]) -> Result<Request, GrammarRefused>
    ensures { GivesRequest result (frames.decoded_at text.now) }
{
    let (explain, set, text) = match read_frame(alloc, text) {
        Ok(x) => x,
        Err(ExprRefused::Syntax) => return Err(GrammarRefused::Syntax(0)),
        Err(ExprRefused::Memory) => return Err(GrammarRefused::Memory),
    };
    let pipe = read_pipeline(alloc, text)?;
    Ok(Request { explain, set, pipe })
}

/// The request of a line that is not too long.
fn read_line(alloc: Global, line: &[u8]) -> Result<Request, GrammarRefused>
    ensures { GivesRequest result (frames.line_at line.now) }
{
    let mut bytes = Vec::new(alloc);
    percent_decode(line).append_to(&mut bytes)?;
    match str::from_utf8(&bytes) {
        Ok(text) => read_decoded(alloc, text.as_bytes()),
        Err(_) => Err(GrammarRefused::Syntax(0)),
    }
}

/// The request of a line, without its line break.
pub fn read_request(alloc: Global, line: &[u8]) -> Result<Request, GrammarRefused>
    // Too long is exactly what passes the limit.
    ensures too_long { IsErrOf result GrammarRefused.TooLong ↔ line_limit < length line.now }
    // What is read is the line's request.
    ensures found { IfOk result (λ r. IsRequest line.now (asked_of r)) }
    // The request of a line that is not too long is read, unless memory runs out.
    ensures only { (asked : Asked) → length line.now ≤ line_limit → IsRequest line.now asked → GivesRequest result (Ok asked) }
    // Where there is none, which step it is.
    ensures syntax { IfSyntax result (λ k. IsNoRequest line.now k) }
{
    if line.len() > LINE_MAX {
        return Err(GrammarRefused::TooLong);
    }
    read_line(alloc, line)
}

/// The law that a text has at most one pipeline: of any bytes, and without a limit. It does nothing when it runs.
pub fn one_pipeline()
    ensures one { (t : List ℕ) (p q : trees.Pipe) → Text p t → Text q t → p ≡ q }
{}
