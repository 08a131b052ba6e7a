//! Reading requests, expressions and paths, exact both ways.
//!
//! A request line is percent-decoded and taken apart into its frame, `[explain] [/] Set ?$apply= text`; the text is read as a
//! pipeline by one pass from left to right. `requests` has lines and frames, `pipelines` steps and pipelines, `items` what
//! stands in their parentheses, `expressions` and `literals` expressions, `paths` names and paths, `words` the words of the
//! grammar, and `bytes` blanks and single bytes.
//!
//! The crate stands on `apply_ast` for the trees and their grammar, on `edm_values` for names, decimals and days, on
//! `percent_encoding` and on `thiserror`.
//!
//! It promises: a line is answered by its request exactly where it has a frame and its text is one of the grammar within
//! the limits; where it is none, the answer has the number of the transformation where it stops being one. The request is the
//! only one: a text of any bytes, within the limits or not, has at most one pipeline, and at most one expression. Only want of
//! memory is free. The readers are equal to reading functions on lists of bytes
//! (`specs/Reading`, `specs/PipeReading`, `specs/FrameReading`), and the laws in `proofs/` say that these read exactly the
//! grammar of `apply_ast` within the limits of `specs/Limits`.
#![tactic(auto)]

mod bytes;
mod expressions;
mod items;
mod literals;
mod paths;
mod pipelines;
mod refusals;
mod requests;
mod words;

pub use expressions::{OPEN_MAX, OPERATIONS_MAX, one_expression, read_expr};
pub use paths::read_path;
pub use pipelines::STEPS_MAX;
pub use refusals::{ExprRefused, GrammarRefused};
pub use requests::{LINE_MAX, one_pipeline, read_request};
