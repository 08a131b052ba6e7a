//! The reply to a line.
//!
//! [`Replies`] answers the lines of a stream over a store: it reads the request, types its pipeline, runs its plan or the
//! pipeline as it was written, and renders what that gives, of which no row is made where it stands in a frame, or it makes the response that refuses the request; a request for a
//! plan is answered by the plan's text. The crate stands on `apply_store` for what requests are answered over, on
//! `apply_grammar` and `apply_ast` for the lines, `context_typing` for which pipelines have a typing, `apply_meaning` for
//! what requests mean, `optimiser`, `plan_run` and `frame_run` for running them and what that comes to, `hier_states` for the first cycle that a request names,
//! `par_stages` for the gate that folds in pieces are told to, `json_render` for bodies, and on `line_stream` for the bytes of
//! responses.
//!
//! It promises that each reply is the one that the definitions in `specs/` give for its line: the first refusal that has its
//! cause, or else the body of what the pipeline that was written means, or the text of its plan; or, for a line that is not too
//! long, that memory was wanting. The counter of steps rises by no more than what the line costs (`specs/Costs`): nothing where
//! its pipeline is not run, and else the cost of what is run for it, its plan or the pipeline itself. It never falls.
//!
//! `replies` has the reply to a line, `responder` is what a stream calls, and `responses` frames and errors.
#![tactic(auto)]

mod replies;
mod responder;
mod responses;

pub use responder::Replies;
