//! Response bodies (JSON Format 4.01, sections 7 and 12, in this profile's exact form).
//!
//! `render` writes the body of a list of rows of one shape, and `render_frame` that of the instances of a frame, of which no row is made:
//! both are read where they stand (`shown`). `context` has the context; `members` makes the template of a
//! row, which is the text of all rows of its form with a gap for each value (`templates`), by sorting its prefixes, columns
//! and properties by name, segment by segment (`entries`); `patterns` says which rows have one form; `body` looks a row's
//! template up or has it made, and fills its gaps (`texts`). `render_in_parts` and `render_frame` cut a long list into parts, have the bytes
//! of each made by a thread of its own, which `rayon` starts, and put them together (`parts`): threads read the data, the shape
//! and the rows or the frame, and write nothing that is shared. Segments wait in a list of their own, so that a path of any
//! length takes no stack.
//!
//! The crate stands on `apply_meaning` for rows, on `row_frames` for frames, on `context_typing` for shapes, on `edm_data` and `edm_model` for the
//! properties of entities and their names, on `edm_values` for the plain texts of numbers and days, on `par_stages` for how many
//! workers a list is worth, and on `serde_json` for texts with characters that are escaped.
//!
//! It promises that the bytes are those of `body` in `specs/Bodies`, for every number of workers, and that a body is refused for
//! its range exactly where a value to be printed is past it. `docs/bodies.md` states the rules.
#![tactic(auto)]

mod body;
mod context;
mod entries;
mod members;
mod parts;
mod patterns;
mod shown;
mod templates;
mod texts;

pub use body::{render, render_frame, render_in_parts};
pub use edm_values::Refused as RenderRefused;
