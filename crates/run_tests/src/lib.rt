//! Tests of runs (`pop_run`): worked rows, whose reports were written from the rules; endless inputs; devices that
//! fail.
//!
//! ```sh
//! cd crates/run_tests && rt test
//! ```
//!
//! `tests` holds the tests, `report` runs one row, and `counted` counts the calls of a device.
#![tactic(auto)]

#[cfg(test)]
mod counted;
#[cfg(test)]
mod report;
#[cfg(test)]
mod tests;
