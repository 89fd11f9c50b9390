//! Tests of the reader (`pop_input::Reader`) and of the adapters of the standard library's readers and writers.
//!
//! ```sh
//! cd crates/reader_tests && rt test
//! ```
//!
//! `plain` and `plain_words` are a plain reader of whole inputs, `compared` compares the reader with it. `made` and
//! `long` make inputs. `tests` holds the tests.
#![tactic(auto)]

#[cfg(test)]
mod compared;
#[cfg(test)]
mod long;
#[cfg(test)]
mod made;
#[cfg(test)]
mod plain;
#[cfg(test)]
mod plain_words;
#[cfg(test)]
mod summary;
#[cfg(test)]
mod tests;
