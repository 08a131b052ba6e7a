//! The service: it answers `$apply` requests over typed entity sets that are read from two JSON files.
//!
//! [`serve`] is the one public call: the program's `main` makes the real objects and calls it. What it is to do stands in the
//! words: to answer the requests of the input over two files, to check two files, or to answer the sample requests over a
//! generated world. The crate stands on `serve_options` for the words, on `apply_load` for the files, on `apply_replies` for
//! the reply to a line, on `line_stream` for the lines of a stream, and on `apply_io` for the outside.
//!
//! Its contract is the service's promise, `Says` of `specs/Service`: where nothing fails, the bytes written are the replies
//! to the request lines in order, each the answer that the definitions give, or memory was wanting before the first line;
//! and every status comes only where it has its cause, and says what was read and written.
//!
//! `service` has the call, `modes` what each mode does, `stream` answers the lines of the input as they are read, `samples`
//! has the sample requests, and `status` says how a run ended.
#![tactic(auto)]

mod modes;
mod samples;
mod service;
mod status;
mod stream;

pub use service::serve;
pub use status::Status;
