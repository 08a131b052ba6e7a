//! Tests of the pages, that what README.md and docs/ show is so, and of what standard error is told.
//!
//! `readme` and `first_model` have the files, requests and answers of the pages of these names, `mistakes` the mistakes in the
//! sample's files that docs/mistakes.md lists, with what is told of them, `request_lines` the lines that docs/grammar.md
//! lists, and `requests` the requests of docs/requests.md with their responses. These five are made of the pages by the script
//! docs/examples, which also says whether they still have what the pages show; `pages` runs them. `messages` has what standard
//! error is told of runs that no page shows, and `options` what the words of the command (`serve_options`) are read as, and what
//! is told of wrong ones.
#![tactic(auto)]

#[cfg(test)]
mod first_model;
#[cfg(test)]
mod messages;
#[cfg(test)]
mod mistakes;
#[cfg(test)]
mod options;
#[cfg(test)]
mod pages;
#[cfg(test)]
mod readme;
#[cfg(test)]
mod request_lines;
#[cfg(test)]
mod requests;
