//! Tests of searches on whole problems with known solutions: their events, searches that are dropped early,
//! and searches with just enough frames.
//!
//! ```sh
//! cd crates/search_tests && rt test
//! ```
//!
//! `tests` holds the tests. `row` runs one row, `watch` checks the counts of one search, `plain` and `counts` are a
//! plain solver and plain counts for comparison, and `made` generates problems.
#![tactic(auto)]

#[cfg(test)]
mod counts;
#[cfg(test)]
mod made;
#[cfg(test)]
mod plain;
#[cfg(test)]
mod row;
#[cfg(test)]
mod tests;
#[cfg(test)]
mod watch;
