//! What crates of tests share: names and paths that trees are made of, model files with the data of the sample, texts of paths,
//! and a gate at which two pieces of a fold meet.
//!
//! It stands on `apply_ast` for names and paths, and on `par_stages` for gates. It promises what the tests ask of it: a name is its text, and the text of a
//! path has its names with slashes between them.
#![tactic(auto)]

pub mod meetings;
pub mod names;
pub mod samples;
pub mod texts;
