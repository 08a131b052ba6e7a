//! From two files to what requests are answered over.
//!
//! [`load`] reads the model file and the data file of a folder and judges them; what they make is a [`Store`](apply_store::Store):
//! the loaded data, the typed readings of the model's custom aggregates, and the states of its hierarchies. A file that is
//! refused has one line that says so. The crate stands on `apply_io` for the folder, on `edm_model` and `edm_data` for the files,
//! on `apply_store` for what is loaded, with `hier_states` for hierarchies, and on `line_stream` for the bytes of a line.
//!
//! It promises that a store is the world that the two files state, with the readings of its custom aggregates; that each
//! refusal is that of the first file, in this order, that is refused, with its line; and that a read fails only where the
//! folder's count of faults rose, of a steady folder only where a file is missing.
//!
//! `file` reads a file, `loading` judges both, `customs` the custom aggregates, `refusals` has the lines of refused files,
//! `generated` makes a store of the generated world of `sample_data`, and `checking` tells of a store.
#![tactic(auto)]

mod checking;
mod customs;
mod file;
mod generated;
mod loading;
mod refusals;

pub use checking::check;
pub use file::{FileFault, read_file};
pub use generated::load_generated;
pub use loading::{FileNames, LoadStop, load};
