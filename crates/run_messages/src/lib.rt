//! What standard error is told of a run that did not end well: one line, which says what is to be mended.
//!
//! [`run_message`] has the line of a status. Of a refused file it looks at the bytes once more, and says where the reading of
//! JSON stopped, which rule a model file breaks and where, which text of a custom aggregate is at fault, or what of an entity
//! is. It says less where it finds nothing wrong, as of a file that has changed since, or where memory is wanting.
//!
//! The crate stands on `apply_service` for the status, on `serve_options` for the words and what is told of wrong ones, on
//! `apply_load` and `apply_io` for reading a file again, on `model_diagnosis` and `data_diagnosis`, which find what is at
//! fault and promise that it is, on the crates by which a file was refused, and on `quoted_text` for names and what files
//! hold.
//!
//! It promises the line of a run that neither words nor a file refused, as `specs/RunLines` has it, that wrong words have
//! the line of `serve_options`, that the line of a refused file begins with its kind and its name, and that no unprintable
//! character is left where the words do not ask for help. A reason is told of a model file exactly where it is refused, of
//! a data file only where it is, as `specs/Refusals` says; which reason, and in which words, is shown by tests, in
//! `page_tests`.
//!
//! `runs` has the line of a run, `model_file` and `data_file` say what is wrong with a file, `json_text` where JSON stops,
//! `rules` has the words of the rules of model files, `customs` those of custom aggregates, and `values` shows values.
#![tactic(auto)]

mod customs;
mod data_file;
mod json_text;
mod model_file;
mod rules;
mod runs;
mod values;

pub use runs::run_message;
