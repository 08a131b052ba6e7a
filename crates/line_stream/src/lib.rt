//! The lines of a stream: what lines bytes are cut into, the line that is being read, and the bytes of responses.
//!
//! A line is kept in a [`LineBuffer`], which takes its memory when it is made: reading and cutting take none, and a line that
//! is too long is answered without being kept. [`write_output`] writes the bytes of a response and does not copy a long body.
//!
//! The crate stands on `apply_io` for the sink. It has the definitions of what lines a stream has (`specs/Lines`), what
//! responses to them in order are (`specs/Answers`), how far a count rises by what lines cost (`specs/Costs`), and what was
//! done with some bytes of a stream (`specs/Streams`), for any relation of lines to responses and any bounds of their costs;
//! and their laws, public in `proofs/`, by which a loop over reads is proved: where the buffer stood for a piece, it stands
//! for one after some bytes, and the lines between were answered, and such steps compose. It promises that the buffer is what its definition says, and that a written response is whole, or a front of it
//! where the sink failed.
//!
//! `buffer` has the line that is being read, `output` the bytes of a response, and `write` writes them.
#![tactic(auto)]

mod buffer;
mod output;
mod write;

pub use buffer::LineBuffer;
pub use output::{Output, write_output};
pub use write::write_whole;
