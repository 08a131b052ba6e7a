//! The sample world: its model file, and data files of any number of sales up to 200,000.
//!
//! [`sample_model_text`] is the file of the sample model: sales to customers by organisations, which form a hierarchy.
//! [`gen_data`] makes the data file of the world of n sales, whose amounts, customers and organisations are drawn from a
//! fixed sequence, so every call for n sales makes the same world. The modules: `model` has the model's text, `draws` the
//! sequence; `entities` makes one entity as JSON, and `file` the whole file.
//!
//! The crate stands on `serde_json`, which writes the file, on `edm_values` for the texts of amounts, and on the
//! definitions of `edm_model` and `edm_data`: what a model file and a data file state, the sample model, and the world of
//! n sales. It promises that the text is a file of the sample model, and that what is made for n sales is a data file of
//! their world over this model: it keeps the limit of data files, every entity has its form, no key stands twice in a set,
//! and no reference leads nowhere. Only want of memory may come in its place.
#![tactic(auto)]

mod draws;
mod entities;
mod file;
mod model;

pub use file::gen_data;
pub use model::sample_model_text;
