//! Running a plan over data.
//!
//! `run_unmade` passes the instances of a plan's entity set through the plan's own pipeline, and gives what it comes to: rows, or a frame of
//! which no row is made. `run` makes the rows of it.
//!
//! The crate stands on `frame_run` for pipelines on frames, on `step_run` for what a run works with and what a pipeline costs, on `optimiser` for plans and what they mean, on `apply_meaning` for the
//! rows of an entity set and the meaning of pipelines, and on `context_typing`, `hier_states`, `edm_data` and `edm_model` for what a
//! run is given.
//!
//! It promises that what both answer is the meaning of the pipeline that was written, refused exactly where that is, and
//! that the counter of steps rises by no more than the pipeline that is run costs (`specs/Costs` of `step_run`) and never falls.
#![tactic(auto)]

mod runs;

pub use runs::{run, run_unmade};
