//! What crates of tests share that run the service: a run over objects in memory.
//!
//! [`Case`] says what a run is given, and [`outcome`] and its like run `serve` of `apply_service` over it and tell how it ended,
//! what it wrote and how often the folder failed. The crate stands on `apply_service` and what it is called with: the objects
//! in memory of `apply_io`, the counter of `apply_meaning` and the gate of `par_stages`.
//!
//! It promises that the words and the files are those of the case, that the status is one that `serve` promises of a run with
//! them, that the bytes are those that the sink then holds, and the faults those that the folder then counts. Want of memory is
//! a failure of the test, of which nothing is said.
#![tactic(auto)]

mod runs;

pub use runs::{
    Case, RunResult, files, outcome, outcome_at, outcome_of, outcome_over, texts, words,
};
